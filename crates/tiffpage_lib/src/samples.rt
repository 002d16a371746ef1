//! The samples of a page.

ghost use Rattle.std.specs.List.{flat_map};
ghost use Rattle.std.specs.Prelude.{◌≡◌, Ok};
ghost use Rattle.tiff_base.specs.Number.{le};
ghost use Rattle.tiff.specs.Answers.{Answers, AnswersWithoutSource};
ghost use Rattle.tiff.specs.Result.{bytes_of, decoded_as};
ghost use Rattle.tiff_pages.specs.Check.{all_bytes};
ghost use Rattle.tiffpage_lib.specs.AtPage.{AnswersUnder, VisitsPage, at_page};
ghost use Rattle.tiffpage_lib.specs.Samples.{page_image, page_planes, plane_bytes, sample_bytes};

use crate::calls::replies_to_both;
use crate::replies::{image_read, seek_result};
use std::alloc::Global;
use tiff::decoder::script::Call;
use tiff::decoder::{BufferLayoutPreference, Decoder, DecodingResult, Limits};
use tiff::io::{MemorySource, Source};
use tiff::{TiffError, TiffResult};

// The image of a page.
#[tactic(auto, using(crate::proofs::Visits::image_visit))]
fn read_page<R: Source>(
    alloc: Global,
    decoder: &mut Decoder<R>,
    page: usize,
) -> TiffResult<DecodingResult>
    ensures { VisitsPage decoded_as page_image result page decoder.old decoder.new }
{
    let (seek, image) = replies_to_both(alloc, decoder, Call::SeekToImage(page), Call::ReadImage)?;
    seek_result(seek).and(image_read(image))
}

// A fact: bytes are the lowest bytes of themselves.
#[tactic(auto, using(crate::proofs::SampleBytes::octets_are))]
fn fact_octets(bytes: &[u8])
    ensures { flat_map (le 1) bytes.now ≡ bytes.now }
{}

// Samples as bytes, with the lowest byte of each first. Samples of one byte are the bytes, and
// aren't copied.
fn to_bytes(alloc: Global, samples: DecodingResult) -> TiffResult<Vec<u8>>
    ensures { AnswersWithoutSource (λ v. v.items) result (Ok (bytes_of (decoded_as samples))) }
{
    match samples {
        DecodingResult::U8(bytes) => {
            fact_octets(&bytes);
            Ok(bytes)
        }
        mut others => others.as_buffer(0).as_bytes(alloc),
    }
}

/// The samples of the image of a page as bytes, with the lowest byte of each first; or the error of
/// the seek to the page, or of the image.
pub fn image_bytes<R: Source>(
    alloc: Global,
    decoder: &mut Decoder<R>,
    page: usize,
) -> TiffResult<Vec<u8>>
    ensures { VisitsPage (λ v. v.items) sample_bytes result page decoder.old decoder.new }
{
    let samples = read_page(alloc, decoder, page)?;
    to_bytes(alloc, samples)
}

// The image of a page of a file, under limits. The file is dropped before the image is returned.
#[tactic(auto, unfolding(tiff_decode::specs::Outcome::set_limits))]
fn image_in(alloc: Global, file: Vec<u8>, page: u32, limits: Limits) -> TiffResult<DecodingResult>
    ensures { AnswersUnder decoded_as page_image limits result file.items page }
{
    let mut decoder = Decoder::open(alloc, MemorySource::new(file))?.with_limits(limits);
    read_page(alloc, &mut decoder, page as usize)
}

/// The samples of the image of a page of a file as bytes, with the lowest byte of each first, under
/// limits; or the first error: of the file's header; of the seek to the page; of the image.
#[tactic(auto, using(crate::proofs::SampleBytes::bytes_under))]
pub fn page_samples(alloc: Global, file: Vec<u8>, page: u32, limits: Limits) -> TiffResult<Vec<u8>>
    ensures { AnswersUnder (λ v. v.items) sample_bytes limits result file.items page }
{
    let image = image_in(alloc, file, page, limits)?;
    to_bytes(alloc, image)
}

// Reads the planes of the image of a page, as many as the limit allows. The layout is that of all
// planes.
fn read_planes<R: Source>(
    decoder: &mut Decoder<R>,
    page: usize,
    samples: &mut DecodingResult,
) -> TiffResult<BufferLayoutPreference>
    ensures { Answers (λ layout. (layout, decoded_as samples.new)) result
        (at_page page_planes decoder.old page) decoder.old.failures decoder.new.failures }
{
    decoder.seek_to_image(page)?;
    decoder.read_image_to_buffer(samples)
}

// Reads the planes of the image of a page of a file, under limits. The file is dropped before the
// layout is returned.
#[tactic(auto, unfolding(tiff_decode::specs::Outcome::set_limits))]
fn planes_in(
    alloc: Global,
    file: Vec<u8>,
    page: u32,
    limits: Limits,
    samples: &mut DecodingResult,
) -> TiffResult<BufferLayoutPreference>
    ensures { AnswersUnder (λ layout. (layout, decoded_as samples.new)) page_planes limits result
        file.items page }
{
    let mut opened = Decoder::open(alloc, MemorySource::new(file))?.with_limits(limits);
    read_planes(&mut opened, page as usize, samples)
}

// Samples as bytes, with the lowest byte of each first. Fewer than `len` bytes: `LimitsExceeded`.
fn all_bytes(alloc: Global, samples: DecodingResult, len: usize) -> TiffResult<Vec<u8>>
    ensures { AnswersWithoutSource (λ v. v.items) result (all_bytes len (decoded_as samples)) }
{
    let bytes = to_bytes(alloc, samples)?;
    if bytes.len() < len {
        return Err(TiffError::LimitsExceeded);
    }
    Ok(bytes)
}

/// The samples of the image of a page of a file in all its planes, one plane behind the other, as
/// bytes, with the lowest byte of each sample first, under limits; or the first error, as
/// [`page_samples`] returns it, and `LimitsExceeded` if the limits don't allow all planes.
pub fn page_planes(alloc: Global, file: Vec<u8>, page: u32, limits: Limits) -> TiffResult<Vec<u8>>
    ensures { AnswersUnder (λ v. v.items) plane_bytes limits result file.items page }
{
    let mut samples = DecodingResult::U8(Vec::new(alloc));
    let layout = planes_in(alloc, file, page, limits, &mut samples)?;
    all_bytes(alloc, samples, layout.complete_len)
}

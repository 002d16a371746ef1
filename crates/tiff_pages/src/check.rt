//! The check of a file: it reads every page whole.

ghost use Rattle.std.specs.Prelude.{◌≡◌, ◌<◌, [], IfErr, IfOk, OnOk, Ok, length, map};
ghost use Rattle.tiff_base.specs.Answers.{Answers, AnswersWithoutSource, IsCause};
ghost use Rattle.tiff_decode.specs.Outcome.{chain_of};
ghost use Rattle.tiff_decode.specs.Result.{decoded_as};
ghost use Rattle.tiff_laws.specs.Pages.{SameFile};
ghost use Rattle.tiff_pages.specs.Check.{IsCheckOf, ReadsPage, all_bytes, check_at, checks_in, checks_of, image_sum, planes_read, sum_of, whole_image};

use crate::adler::adler_32;
use crate::pages::{file_answer, pages, place_of};
use std::alloc::Global;
use tiff_base::error::{TiffError, TiffResult};
use tiff_base::io::Source;
use tiff_base::tags::IfdPointer;
use tiff_decode::decoder::{Decoder, DecodingResult};
use tiff_laws::pages::walk_seeks;
use tiff_page::layout::BufferLayoutPreference;

/// The bytes of an image, in all its planes, each sample's lowest byte first: how many there are,
/// and their Adler-32.
#[derive(Clone, Copy, Debug, Drop)]
pub struct ImageSum {
    pub bytes: usize,
    pub adler: u32,
}

/// A page of a file: the offset of its directory, and the sum of its image, or its first error.
#[derive(Debug, Drop)]
pub struct PageCheck {
    pub place: IfdPointer,
    pub image: TiffResult<ImageSum>,
}

/// The pages of a file in the order of their chain, each read whole, and the error by which the
/// chain ends, if it ends by one.
#[derive(Debug, Drop)]
pub struct FileCheck {
    pub pages: Vec<PageCheck>,
    pub end: Option<TiffError>,
}

// Reads the planes of the image of a decoder's page.
fn read_planes<R: Source>(
    decoder: &mut Decoder<R>,
    samples: &mut DecodingResult,
) -> TiffResult<BufferLayoutPreference>
    ensures { ReadsPage (λ layout. (layout, decoded_as samples.new))
        (planes_read decoder.old decoder.old.state.page) result decoder.old decoder.new }
{
    decoder.read_image_to_buffer(samples)
}

// The samples as bytes. Fewer than `len` bytes: `LimitsExceeded`.
fn all_bytes(alloc: Global, samples: &mut DecodingResult, len: usize) -> TiffResult<Vec<u8>>
    ensures { AnswersWithoutSource (λ v. v.items) result (all_bytes len (decoded_as samples.old)) }
{
    let bytes = samples.as_buffer(0).as_bytes(alloc)?;
    if bytes.len() < len {
        return Err(TiffError::LimitsExceeded);
    }
    Ok(bytes)
}

// The bytes of the image of a decoder's page, in all its planes.
fn whole_image<R: Source>(alloc: Global, decoder: &mut Decoder<R>) -> TiffResult<Vec<u8>>
    ensures { ReadsPage (λ v. v.items) (whole_image decoder.old decoder.old.state.page) result
        decoder.old decoder.new }
{
    let mut samples = DecodingResult::U8(Vec::new(alloc));
    let layout = read_planes(decoder, &mut samples)?;
    all_bytes(alloc, &mut samples, layout.complete_len)
}

// How many bytes there are, and their sum.
fn sum_of(bytes: &[u8]) -> ImageSum
    ensures { result ≡ sum_of bytes.now }
{
    ImageSum {
        bytes: bytes.len(),
        adler: adler_32(bytes),
    }
}

// The sum of the image of a decoder's page.
fn image_sum<R: Source>(alloc: Global, decoder: &mut Decoder<R>) -> TiffResult<ImageSum>
    ensures { ReadsPage (λ s. s) (image_sum decoder.old decoder.old.state.page) result decoder.old
        decoder.new }
{
    let image = whole_image(alloc, decoder)?;
    Ok(sum_of(&image))
}

/// Reads the page of the directory at an offset whole, inside or outside the chain. The check has
/// the sum of its bytes, in all its planes, or its first error under the decoder's limits. Its only
/// errors are `OutOfMemory` and an error of the device, `IoError(Device)`.
pub fn check_shown<R: Source>(
    alloc: Global,
    decoder: &mut Decoder<R>,
    place: IfdPointer,
) -> TiffResult<PageCheck>
    ensures check { IfOk result (λ check. check ≡ check_at decoder.old place.0) }
    ensures readable { decoder.new.readable ≡ decoder.old.readable }
    ensures refused { IfErr result (λ e. IsCause (Unit {0}) (decoder.old.failures < decoder.new.failures) e ⊥) }
{
    let shown = file_answer(decoder.show_directory(place))?;
    let image = match shown {
        Ok(()) => file_answer(image_sum(alloc, decoder))?,
        Err(fault) => Err(fault),
    };
    Ok(PageCheck { place, image })
}

// The page with this number in the chain, read whole.
fn check_page<R: Source>(
    alloc: Global,
    decoder: &mut Decoder<R>,
    number: usize,
) -> TiffResult<PageCheck>
    requires { number < length (chain_of decoder.old).offsets }
    ensures page { IfOk result (IsCheckOf decoder.old number) }
    ensures file { OnOk result (SameFile decoder.old decoder.new
        × (decoder.new.failures ≡ decoder.old.failures)) }
    ensures refused { IfErr result (λ e. IsCause (Unit {0}) (decoder.old.failures < decoder.new.failures) e ⊥) }
{
    walk_seeks();
    let entered = file_answer(decoder.seek_to_image(number))?;
    let place = place_of(decoder);
    let image = match entered {
        Ok(()) => file_answer(image_sum(alloc, decoder))?,
        Err(fault) => Err(fault),
    };
    Ok(PageCheck { place, image })
}

// The pages of a decoder's file, each read whole, put into an empty list. The file has `count` of
// them.
fn check_each<R: Source>(
    alloc: Global,
    decoder: &mut Decoder<R>,
    count: usize,
    checks: &mut Vec<PageCheck>,
) -> TiffResult<()>
    requires count { count ≡ length (chain_of decoder.old).offsets }
    requires none { checks.old.items ≡ [] }
    ensures checks { OnOk result (checks.new.items ≡ map (check_at decoder.old) (chain_of decoder.old).offsets) }
    ensures refused { IfErr result (λ e. IsCause (Unit {0}) (decoder.old.failures < decoder.new.failures) e ⊥) }
{
    for number in 0..count {
        checks.push(check_page(alloc, decoder, number)?)?;
    }
    Ok(())
}

/// Checks the pages of a decoder's file, from the first one to the end of the chain, wherever the
/// decoder is. Each page is read whole, in all its planes; it has the sum of its bytes, or its
/// first error under the decoder's limits. The result also has the error by which the chain ends,
/// if it ends by one. The check holds one image at a time. Its only errors are `OutOfMemory` and an
/// error of the device, `IoError(Device)`.
pub fn check_pages<R: Source>(alloc: Global, decoder: &mut Decoder<R>) -> TiffResult<FileCheck>
    ensures { Answers checks_in result (Ok (checks_of decoder.old)) decoder.old.failures
        decoder.new.failures }
{
    let listed = pages(decoder)?;
    let mut checks = Vec::new(alloc);
    check_each(alloc, decoder, listed.pages.len(), &mut checks)?;
    Ok(FileCheck {
        pages: checks,
        end: listed.end,
    })
}

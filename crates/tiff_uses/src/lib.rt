//! Eleven uses of `tiff`, as a caller writes them.
#![tactic(auto)]

ghost use Rattle.std.specs.Prelude.{◌≡◌, ◌≤◌, length, map, IfErr, IfOk, MatchResult, None, Ok, OnOk};
ghost use Rattle.tiff.specs.Answers.{Answers};
ghost use Rattle.tiff.specs.Machine.{Follows};
ghost use Rattle.tiff.specs.Outcome.{decoder_of, read_image_bytes};
ghost use Rattle.tiff.specs.Result.{decoded_as};
ghost use Rattle.tiff.specs.Shows.{ShowsGray};
ghost use Rattle.tiff_base.specs.Types.{type_size};
ghost use Rattle.tiff_value.specs.ColorType.{columns_of, sample_number};
ghost use Rattle.tiff_uses.specs.Chunks.{IsImageOfChunks};
ghost use Rattle.tiff_uses.specs.Cleared.{cleared_from};
ghost use Rattle.tiff_decode.specs.NextState.{view_of_result};
ghost use Rattle.tiff_uses.specs.GrayFile.{AnswersGray};
ghost use Rattle.tiff_uses.specs.GeoKeys.{geo_key, key_value};
ghost use Rattle.tiff_uses.specs.Pages as pages;
ghost use Rattle.tiff_uses.specs.Pages.{FileAnswers, first_image, page_chunk};
ghost use Rattle.tiff_uses.specs.Listed.{IsPageOf, IsFileOf};
ghost use Rattle.tiff_uses.specs.ReadBack.{AnswersBack, ComesBack, IsFirstImage, first_freely};

use std::alloc::Global;
use tiff::decoder::script::{Call, Reply, run_calls};
use tiff::decoder::{Decoder, DecodingResult, DecodingSampleType, Limits};
use tiff::encoder::colortype::{Gray8, NamedColorType};
use tiff::encoder::laws::data::first_shown;
use tiff::encoder::laws::reading::{reads_shown, written_is_read};
use tiff::encoder::script::{Job, JobReply, run_jobs};
use tiff::encoder::{TiffEncoder, TiffKindStandard};
use tiff::io::{MemorySink, MemorySource, Source};
use tiff::tags::Tag;
use tiff::{TiffError, TiffResult};
use tiff_laws::decoder::{image_is_its_chunks, read_where_chunks};
use tiff_laws::pages::{walk_ends, walk_goes_on, walk_opens, walk_seeks};

/// The samples of a file's first page, or the first error.
pub fn first_image(alloc: Global, file: Vec<u8>) -> TiffResult<DecodingResult>
    ensures { FileAnswers decoded_as result (first_image file.items) }
{
    Decoder::new(alloc, MemorySource::new(file))?.read_image()
}

/// The samples of a strip or a tile of a page, or the first error. `page` and `chunk` count from 0.
pub fn page_chunk(
    alloc: Global,
    file: Vec<u8>,
    page: usize,
    chunk: u32,
) -> TiffResult<DecodingResult>
    ensures { FileAnswers decoded_as result (page_chunk file.items page chunk) }
{
    let mut decoder = Decoder::new(alloc, MemorySource::new(file))?;
    decoder.seek_to_image(page)?;
    decoder.read_chunk(chunk)
}

/// The width of a page, in pixels, and how many rows each of its strips has; or the first error.
/// `page` counts from 0. The function has no contract: that it is proved says that no file makes it
/// abort, read past an end or run on.
pub fn strips_of<R: Source>(decoder: &mut Decoder<R>, page: usize) -> TiffResult<(u32, u32)> {
    decoder.seek_to_image(page)?;
    let (width, _) = decoder.dimensions()?;
    let rows = decoder.get_tag_u32(Tag::RowsPerStrip)?;
    Ok((width, rows))
}

// The width and the height of each page, by a decoder that is at its file's first page.
fn sides_along(alloc: Global, decoder: &mut Decoder<MemorySource>) -> TiffResult<Vec<(u32, u32)>>
    // The decoder was opened on its file, and no call has moved it since.
    requires { decoder_of decoder.old.bytes 0
        ≡ Ok (record decoder.old { readable = None; failures = 0 }) }
    ensures { FileAnswers (λ v. v.items) result (pages.page_sides decoder.old.bytes) }
{
    walk_opens();
    walk_goes_on();
    walk_ends();
    let mut sides = Vec::new(alloc);
    sides.push(decoder.dimensions()?)?;
    'pages: while decoder.more_images() {
        decoder.next_image()?;
        sides.push(decoder.dimensions()?)?;
    }
    Ok(sides)
}

/// The width and the height of each page, in pixels, along the file's chain; or the first error: of
/// the pages in their order, and then of the chain's end. The call ends for every file, since each
/// chain does.
pub fn page_sides(alloc: Global, file: Vec<u8>) -> TiffResult<Vec<(u32, u32)>>
    ensures { FileAnswers (λ v. v.items) result (pages.page_sides file.items) }
{
    walk_opens();
    let mut decoder = Decoder::new(alloc, MemorySource::new(file))?;
    sides_along(alloc, &mut decoder)
}

// The value of a key in a directory of keys, if the directory has the key.
fn value_of(numbers: &[u16], id: u16) -> Option<u16>
    ensures { result ≡ key_value id numbers.now }
{
    let [_, _, _, count, entries @ ..] = numbers else {
        return None;
    };
    let mut left = entries;
    'keys: for i in 0..*count {
        let [key, location, _, value, others @ ..] = left else {
            return None;
        };
        if *key == id && *location == 0 {
            return Some(*value);
        }
        left = others;
    }
    None
}

/// The value of a geographic key of the decoder's page, if the page has the key with its value in
/// the entry of the key. A page without keys: `RequiredTagNotFound`. The decoder stays where it is.
pub fn geo_key<R: Source>(decoder: &mut Decoder<R>, id: u16) -> TiffResult<Option<u16>>
    ensures answer { Answers (λ value. value) result (geo_key decoder.old id) decoder.old.failures
        decoder.new.failures }
    ensures state { decoder.new ≡ record decoder.old { failures = decoder.new.failures } }
    ensures count { decoder.old.failures ≤ decoder.new.failures }
{
    let numbers = decoder.get_tag_u16_vec(Tag::GeoKeyDirectoryTag)?;
    Ok(value_of(&numbers, id))
}

/// Reads the image of the decoder's page into a slice; or returns the first error. The slice is
/// then made of the chunks of at least one plane, each as it is read alone. The call requires
/// nothing of the decoder, and leaves it where it is.
pub fn image_of_chunks<R: Source>(decoder: &mut Decoder<R>, buffer: &mut [u8]) -> TiffResult<()>
    ensures answer { Follows (λ _. buffer.new) (read_image_bytes decoder.old buffer.old) result decoder.old
        decoder.new }
    ensures made { OnOk result (IsImageOfChunks decoder.old buffer.old buffer.new) }
{
    decoder.has_sides();
    read_where_chunks();
    image_is_its_chunks();
    decoder.read_image_bytes(buffer)
}

// Room for what a file has besides its samples. A file of many strips allocates more as it grows.
const FRAME: usize = 4096;

/// A file of one gray page that shows the samples; or the first error, as `write_image` returns it.
#[tactic(auto, using(tiff_base::specs::lemmas::MemoryFaults::header_refused))]
pub fn gray_file(alloc: Global, width: u32, height: u32, samples: &[u8]) -> TiffResult<Vec<u8>>
    ensures answer { AnswersGray width height samples.now (view_of_result (λ v. v.items) result) }
    ensures shows { IfOk result (λ file. ShowsGray file.items width height samples.now) }
{
    let room = Vec::with_capacity(alloc, samples.len().saturating_add(FRAME))?;
    let mut encoder = TiffEncoder::new(alloc, MemorySink::new(room))?;
    let written = encoder.write_image::<Gray8>(width, height, samples);
    let file = encoder.into_inner().into_vec();
    written?;
    Ok(file)
}

/// Sets the samples of an image of unsigned bytes to 0, from the index `start` on. An image of
/// other numbers stays as it is.
pub fn clear_from(image: &mut DecodingResult, start: usize)
    requires { start ≤ length (decoded_as image.old).numbers }
    ensures { decoded_as image.new ≡ cleared_from start (decoded_as image.old) }
{
    if let DecodingSampleType::U8 = image.sample_type() {
        image.u8_rest(start).fill(0);
    }
}

// The image of a file's first page, read without limits.
fn first_without_limits(alloc: Global, file: Vec<u8>) -> TiffResult<DecodingResult>
    ensures answer { FileAnswers decoded_as result (first_freely file.items) }
    ensures first { IfOk result (λ image. IsFirstImage file.items (decoded_as image)) }
{
    walk_opens();
    walk_seeks();
    let decoder = Decoder::new(alloc, MemorySource::new(file))?;
    let mut decoder = decoder.with_limits(Limits::unlimited());
    decoder.seek_to_image(0)?;
    decoder.read_image()
}

/// Writes an image of a color type into a file in memory, and reads it back without limits; or
/// returns the first error: of `write_image`, or of the reader. If the caller passes as many
/// samples as the image has, the same samples come back, in their order and of their type.
#[tactic(auto, using(tiff_base::specs::lemmas::MemoryFaults::header_refused))]
pub fn written_and_read<C: NamedColorType>(
    alloc: Global,
    width: u32,
    height: u32,
    samples: &[C::Inner],
) -> TiffResult<DecodingResult>
    ensures answer { AnswersBack C.described (type_size C.Inner.value_type) width height
        (map (sample_number (type_size C.Inner.value_type) C.Inner.bits) samples.now)
        (view_of_result decoded_as result) }
    ensures comes_back { IfOk result (λ image. ComesBack C.Inner.value_type
        (columns_of C.described width) height (length C.described.bits)
        (map (sample_number (type_size C.Inner.value_type) C.Inner.bits) samples.now)
        (decoded_as image)) }
{
    first_shown();
    reads_shown();
    written_is_read();
    let mut encoder = TiffEncoder::new(alloc, MemorySink::new(Vec::new(alloc)))?;
    let written = encoder.write_image::<C>(width, height, samples);
    let bytes = encoder.into_inner().into_vec();
    written?;
    first_without_limits(alloc, bytes)
}

/// Seeks to a page and reads its image, by a list of two calls. Appends the replies, each made
/// where the call before it left the decoder, also where one is an error. `page` counts from 0. The
/// only error is `OutOfMemory` for the replies: then no call is made.
pub fn page_by_calls<R: Source>(
    decoder: &mut Decoder<R>,
    page: usize,
    replies: &mut Vec<Reply>,
) -> TiffResult<()>
    ensures made { OnOk result (IsPageOf page replies.old.items replies.new.items decoder.old
        decoder.new) }
    ensures refused { IfErr result (λ e. (e ≡ TiffError.OutOfMemory) × (decoder.new ≡ decoder.old)
        × (replies.new.items ≡ replies.old.items)) }
{
    let calls = [Call::SeekToImage(page), Call::ReadImage];
    run_calls(decoder, &calls, replies)
}

/// The classic file that jobs write, run one after another. Appends the reply to each, also to a
/// job that is refused. The only error is `OutOfMemory`, for the replies or the header: then no
/// reply is appended.
#[tactic(auto, using(tiff_base::specs::lemmas::MemoryFaults::header_refused))]
pub fn file_by_jobs(
    alloc: Global,
    jobs: &[Job<'_>],
    replies: &mut Vec<JobReply>,
) -> TiffResult<Vec<u8>>
    ensures { MatchResult result
        (λ file. IsFileOf jobs.now replies.old.items replies.new.items file.items)
        (λ e. (e ≡ TiffError.OutOfMemory) × (replies.new.items ≡ replies.old.items)) }
{
    let sink = MemorySink::new(Vec::new(alloc));
    let sink = run_jobs::<MemorySink, TiffKindStandard>(alloc, sink, jobs, replies)?;
    Ok(sink.into_vec())
}

//! Calls of a decoder on a page of a file that lies in a slice. No read of a slice fails, so an
//! error comes from the file or the caller, or memory is out.

ghost use Rattle.std.specs.Prelude.{◌≡◌, ◌^◌, ◌<◌, length, option_map, Ok, OnOk};
ghost use Rattle.tiff_base.specs.Answers.{Answers, AnswersWithoutMemory, AnswersWithoutSource, Gives};
ghost use Rattle.tiff_base.specs.Color.{num_samples};
ghost use Rattle.tiff_base.specs.declared.error.TiffError.TheVariants.{FormatError};
ghost use Rattle.tiff_base.specs.declared.error.TiffFormatError.TheVariants.{RequiredTagNotFound};
ghost use Rattle.tiff_ifd.specs.TagLookup.{ok_or_fault};
ghost use Rattle.tiff_decode.specs.Machine.{source_of};
ghost use Rattle.tiff_decode.specs.Opened.{opened_of};
ghost use Rattle.tiff_decode.specs.Outcome as outcome;
ghost use Rattle.tiff_decode.specs.Reader.{reader_of};
ghost use Rattle.tiff_ffi.specs.Calls as calls;

use crate::range::{ReadsChunks, chunks_from};
use std::alloc::Global;
use tiff_base::color::{ChunkType, ColorType};
use tiff_base::directory::{Directory, Entry};
use tiff_base::error::{TiffFormatError, TiffResult};
use tiff_base::io::{SliceSource, Source};
use tiff_base::tags::{ByteOrder, IfdPointer, Tag};
use tiff_decode::decoder::Decoder;
use tiff_decode::ifd_decoder::IfdDecoder;
use tiff_decode::open::opens_first;
use tiff_ifd::header::read_header;
use tiff_ifd::limits::Limits;
use tiff_laws::pages::{walk_ends, walk_goes_on, walk_opens};
use tiff_page::layout::{BufferLayoutPreference, TiffCodingUnit};

// From this number on, the number of a page is this plus the offset of its directory. No file in
// memory has so many pages, and a second set of calls would double their number.
pub(crate) const AT: usize = 1 << 63;

/// The width and the height of a page, in pixels.
#[derive(Clone, Copy, Debug, PartialEq, Eq)]
#[repr(C)]
pub struct Sides {
    pub width: u32,
    pub height: u32,
}

/// How many bytes an image has: in one plane, and in all planes.
#[derive(Clone, Copy, Debug, PartialEq, Eq)]
#[repr(C)]
pub struct Layout {
    pub len: usize,
    pub complete_len: usize,
}

/// The color of a page: the number of its kind, the bits of a sample, and how many samples a pixel
/// shows.
#[derive(Clone, Copy, Debug, PartialEq, Eq)]
#[repr(C)]
pub struct Color {
    pub kind: u32,
    pub bits: u32,
    pub samples: u32,
}

/// The chunks of a page: the number of their kind, how many there are, and the width and the height
/// of one in pixels, before chunks are cut at the edges of the image.
#[derive(Clone, Copy, Debug, PartialEq, Eq)]
#[repr(C)]
pub struct Chunks {
    pub kind: u32,
    pub count: u32,
    pub width: u32,
    pub height: u32,
}

/// The samples of a page: the number of their format, as the tag SampleFormat has it; the bits of
/// one; how many a pixel shows; in how many planes they lie; and 1 where they are inverted, since 0
/// is white in the file, else 0.
#[derive(Clone, Copy, Debug, PartialEq, Eq)]
#[repr(C)]
pub struct PageSamples {
    pub kind: u32,
    pub bits: u32,
    pub samples: u32,
    pub planes: u32,
    pub inverted: u32,
}

/// The field of a tag: the number of its type, and how many values it has.
#[derive(Clone, Copy, Debug, PartialEq, Eq)]
#[repr(C)]
pub struct FieldSize {
    pub kind: u32,
    pub count: u64,
}

// Proves that no read of a decoder over a slice failed.
pub(crate) fn never_failed(decoder: &Decoder<SliceSource<'_>>)
    ensures { decoder.now.failures ≡ 0 }
{
    let _source = decoder.inner();
}

// A decoder before the first page of a file.
pub(crate) fn open(alloc: Global, file: &[u8]) -> TiffResult<Decoder<SliceSource<'_>>>
    ensures { AnswersWithoutSource (λ d. d) result (opened_of file.now 0) }
{
    let decoder = Decoder::open(alloc, SliceSource::new(file))?;
    never_failed(&decoder);
    Ok(decoder)
}

// A decoder at the first page of a file.
fn open_first(alloc: Global, file: &[u8]) -> TiffResult<Decoder<SliceSource<'_>>>
    ensures { AnswersWithoutSource (λ d. d) result (outcome.decoder_of file.now 0) }
{
    let decoder = Decoder::new(alloc, SliceSource::new(file))?;
    never_failed(&decoder);
    Ok(decoder)
}

// Goes to the page with this number in the chain.
#[tactic(auto, using(crate::proofs::Slices::here, crate::proofs::Slices::gone))]
fn seek(decoder: &mut Decoder<SliceSource<'_>>, page: usize) -> TiffResult<()>
    ensures answer { AnswersWithoutSource (λ x. x) result (outcome.seek_to_image decoder.old page).answer }
    ensures gone { OnOk result
        (decoder.new ≡ record decoder.old { state = (outcome.seek_to_image decoder.old page).next }) }
{
    never_failed(decoder);
    let answer = decoder.seek_to_image(page);
    never_failed(decoder);
    answer
}

// Shows the directory at an offset, whether it is in the chain or not.
#[tactic(auto, using(crate::proofs::Slices::here, crate::proofs::Slices::gone))]
fn show(decoder: &mut Decoder<SliceSource<'_>>, offset: u64) -> TiffResult<()>
    ensures answer { AnswersWithoutSource (λ x. x) result
        (outcome.show_directory decoder.old (record { 0 = offset })).answer }
    ensures gone { OnOk result
        (decoder.new
        ≡ record decoder.old
        { state = (outcome.show_directory decoder.old (record { 0 = offset })).next }) }
{
    never_failed(decoder);
    let answer = decoder.show_directory(IfdPointer(offset));
    never_failed(decoder);
    answer
}

// Goes to a page of the chain by its number, or to the directory at an offset.
fn go_to(decoder: &mut Decoder<SliceSource<'_>>, page: usize) -> TiffResult<()>
    ensures answer { AnswersWithoutSource (λ x. x) result (calls.page_outcome decoder.old page).answer }
    ensures gone { OnOk result
        (decoder.new ≡ record decoder.old { state = (calls.page_outcome decoder.old page).next }) }
{
    if page < AT {
        return seek(decoder, page);
    }
    show(decoder, (page - AT) as u64)
}

// A decoder at a page of a file. To open it at the first page reads that directory once, to seek
// page 0 twice.
pub(crate) fn open_at(
    alloc: Global,
    file: &[u8],
    page: usize,
) -> TiffResult<Decoder<SliceSource<'_>>>
    ensures { AnswersWithoutSource (λ d. d) result (calls.decoder_at_page file.now page) }
{
    opens_first();
    if page == 0 {
        return open_first(alloc, file);
    }
    let mut decoder = open(alloc, file)?;
    go_to(&mut decoder, page)?;
    Ok(decoder)
}

// The directory at an offset of a decoder's file.
#[tactic(auto, using(crate::proofs::Slices::here, crate::proofs::Slices::gone), unfolding(tiff_decode::specs::Outcome::read_directory))]
fn directory_here(decoder: &mut Decoder<SliceSource<'_>>, offset: u64) -> TiffResult<Directory>
    ensures answer { AnswersWithoutSource (λ x. x) result
        (outcome.read_directory decoder.old (record { 0 = offset })).answer }
    ensures stays { OnOk result (decoder.new ≡ decoder.old) }
{
    never_failed(decoder);
    let answer = decoder.read_directory(IfdPointer(offset));
    never_failed(decoder);
    answer
}

// A decoder for the tags of a page: at the page with a number; or before the first page, together
// with the directory at an offset. Whether that directory is a page isn't asked.
pub(crate) fn open_tags(
    alloc: Global,
    file: &[u8],
    page: usize,
) -> TiffResult<(Decoder<SliceSource<'_>>, Option<Directory>)>
    ensures { AnswersWithoutSource (λ t. reader_of t.0 t.1) result
        (calls.tags_at_page file.now page) }
{
    if page < AT {
        return Ok((open_at(alloc, file, page)?, None));
    }
    let mut decoder = open(alloc, file)?;
    let directory = directory_here(&mut decoder, (page - AT) as u64)?;
    Ok((decoder, Some(directory)))
}

// The tags of a decoder's page, or of another directory of its file.
pub(crate) fn tags_of<'a, R: Source>(
    decoder: &'a mut Decoder<R>,
    other: &'a Option<Directory>,
) -> IfdDecoder<'a, R>
    ensures same_reference { result.decoder.ghost_name ≡ decoder.entry.ghost_name }
    ensures decoder { result.decoder.now ≡ decoder.old }
    ensures other { option_map (λ d. d.now) result.other ≡ other.now }
{
    match other {
        None => decoder.image_ifd(),
        Some(directory) => decoder.read_directory_tags(directory),
    }
}

// A decoder at a page of a file, without limits: what it reads into a slice of the caller's
// allocates nothing by what the file claims.
fn open_free(alloc: Global, file: &[u8], page: usize) -> TiffResult<Decoder<SliceSource<'_>>>
    ensures { AnswersWithoutSource (λ d. d) result (calls.free_at_page file.now page) }
{
    Ok(open_at(alloc, file, page)?.with_limits(Limits::unlimited()))
}

/// The width and the height of a page, in pixels; or the error that refuses the file or the page.
#[tactic(auto, unfolding(tiff_decode::specs::Outcome::dimensions))]
pub fn page_sides(alloc: Global, file: &[u8], page: usize) -> TiffResult<Sides>
    ensures { AnswersWithoutSource (λ s. s) result (calls.page_sides file.now page) }
{
    let (width, height) = open_at(alloc, file, page)?.dimensions()?;
    Ok(Sides { width, height })
}

// Reads the image of a decoder's page into a slice.
#[tactic(auto, using(crate::proofs::Slices::here))]
fn image_here(decoder: &mut Decoder<SliceSource<'_>>, buffer: &mut [u8]) -> TiffResult<()>
    ensures { AnswersWithoutSource (λ _. buffer.new) result
        (outcome.read_image_bytes decoder.old buffer.old).answer }
{
    never_failed(decoder);
    let answer = decoder.read_image_bytes(buffer);
    never_failed(decoder);
    answer
}

/// Reads the image of a page into `buffer`, under no limits. The first error: of the file or the
/// page; of its color or its layout; of a buffer shorter than one plane,
/// `InsufficientOutputBufferSize`; of a chunk. What an error leaves in `buffer` is not specified.
pub fn image_bytes(alloc: Global, file: &[u8], page: usize, buffer: &mut [u8]) -> TiffResult<()>
    ensures { AnswersWithoutSource (λ _. buffer.new) result
        (calls.read_image_bytes file.now page buffer.old) }
{
    image_here(&mut open_free(alloc, file, page)?, buffer)
}

// How many bytes the image of a decoder's page has.
#[tactic(auto, unfolding(tiff_decode::specs::Outcome::image_buffer_layout))]
fn layout_here(decoder: &mut Decoder<SliceSource<'_>>) -> TiffResult<Layout>
    ensures { AnswersWithoutSource (λ l. l) result (calls.image_layout decoder.old) }
{
    let layout = decoder.image_buffer_layout()?;
    Ok(Layout {
        len: layout.len,
        complete_len: layout.complete_len,
    })
}

/// How many bytes the image of a page has, in one plane and in all planes. The first error: of the
/// file or the page; of samples without a layout.
pub fn page_layout(alloc: Global, file: &[u8], page: usize) -> TiffResult<Layout>
    ensures { AnswersWithoutSource (λ l. l) result (calls.page_layout file.now page) }
{
    layout_here(&mut open_at(alloc, file, page)?)
}

// Reads a chunk of a decoder's page into a slice.
#[tactic(auto, using(crate::proofs::Slices::here))]
fn chunk_here(
    decoder: &mut Decoder<SliceSource<'_>>,
    chunk: u32,
    buffer: &mut [u8],
) -> TiffResult<()>
    ensures answer { AnswersWithoutSource (λ _. buffer.new) result
        (outcome.read_chunk_bytes decoder.old chunk buffer.old).answer }
    ensures stays { OnOk result (decoder.new ≡ decoder.old) }
    ensures source { source_of decoder.new ≡ source_of decoder.old }
{
    never_failed(decoder);
    let answer = decoder.read_chunk_bytes(chunk, buffer);
    never_failed(decoder);
    answer
}

/// Reads the chunk of a page with the number `chunk` into `buffer`, under no limits. The first
/// error: of the file or the page; of its color or its layout; of a buffer shorter than the chunk,
/// `InsufficientOutputBufferSize`; of the chunk. What an error leaves in `buffer` is not specified.
pub fn chunk_bytes(
    alloc: Global,
    file: &[u8],
    page: usize,
    chunk: u32,
    buffer: &mut [u8],
) -> TiffResult<()>
    ensures { AnswersWithoutSource (λ _. buffer.new) result
        (calls.read_chunk_bytes file.now page chunk buffer.old) }
{
    chunk_here(&mut open_free(alloc, file, page)?, chunk, buffer)
}

impl ReadsChunks for Decoder<SliceSource<'_>> {
    ghost reading = { calls.page_reading };

    ghost contents = { source_of };

    // No read of a slice fails.
    ghost failures = { λ _. 0 };

    #[tactic(auto, unfolding(tiff_decode::specs::Outcome::image_chunk_buffer_layout))]
    fn len_of(&mut self, chunk: u32) -> TiffResult<usize> {
        Ok(self.image_chunk_buffer_layout(chunk)?.len)
    }

    fn read(&mut self, chunk: u32, buffer: &mut [u8]) -> TiffResult<()> {
        chunk_here(self, chunk, buffer)
    }
}

/// Reads `count` chunks of a page, from the number `first` on, into `buffer`, one behind the other,
/// under no limits. The first error: of the file or the page; `first` plus `count` of 2^32 or more,
/// `InvalidChunkIndex`; and then, chunk by chunk, of the page's color or its layout; of a buffer
/// that has no room left for the chunk, `InsufficientOutputBufferSize`; of the chunk. What an error
/// leaves in `buffer` is not specified.
pub fn range_bytes(
    alloc: Global,
    file: &[u8],
    page: usize,
    first: u32,
    count: u32,
    buffer: &mut [u8],
) -> TiffResult<()>
    ensures { AnswersWithoutSource (λ _. buffer.new) result
        (calls.read_chunks file.now page first count buffer.old) }
{
    chunks_from(&mut open_free(alloc, file, page)?, first, count, buffer)
}

// Reads a coding unit of a decoder's page into a slice.
#[tactic(auto, using(crate::proofs::Slices::here))]
fn unit_here(decoder: &mut Decoder<SliceSource<'_>>, unit: u32, buffer: &mut [u8]) -> TiffResult<()>
    ensures { AnswersWithoutSource (λ _. buffer.new) result
        (outcome.read_coding_unit_bytes decoder.old unit buffer.old).answer }
{
    never_failed(decoder);
    let answer = decoder.read_coding_unit_bytes(TiffCodingUnit(unit), buffer);
    never_failed(decoder);
    answer
}

/// Reads the coding unit of a page with the number `unit` into `buffer`, under no limits. The first
/// error: of the file or the page; of its color or its layout; no such unit, `InvalidCodingUnit`;
/// of a buffer shorter than the chunk of one plane, `InsufficientOutputBufferSize`; of a chunk.
/// What an error leaves in `buffer` is not specified.
pub fn unit_bytes(
    alloc: Global,
    file: &[u8],
    page: usize,
    unit: u32,
    buffer: &mut [u8],
) -> TiffResult<()>
    ensures { AnswersWithoutSource (λ _. buffer.new) result
        (calls.read_unit_bytes file.now page unit buffer.old) }
{
    unit_here(&mut open_free(alloc, file, page)?, unit, buffer)
}

// The number of a color's kind for C.
fn color_number(color: ColorType) -> u32
    ensures { result ≡ calls.color_number color }
{
    match color {
        ColorType::Gray(_) => 0,
        ColorType::RGB(_) => 1,
        ColorType::Palette(_) => 2,
        ColorType::GrayA(_) => 3,
        ColorType::RGBA(_) => 4,
        ColorType::CMYK(_) => 5,
        ColorType::CMYKA(_) => 6,
        ColorType::YCbCr(_) => 7,
        ColorType::Lab(_) => 8,
        ColorType::Multiband { .. } => 9,
        _ => 10,
    }
}

// A color by its numbers for C.
pub(crate) fn color_by(color: ColorType) -> Color
    ensures { result ≡ calls.color_by color }
{
    Color {
        kind: color_number(color),
        bits: u32::from(color.bit_depth()),
        samples: u32::from(color.num_samples()),
    }
}

// The color of a decoder's page, by its numbers for C.
#[tactic(auto, unfolding(tiff_decode::specs::Outcome::colortype))]
fn color_here(decoder: &mut Decoder<SliceSource<'_>>) -> TiffResult<Color>
    ensures { AnswersWithoutSource (λ c. c) result (calls.color_of_page decoder.old) }
{
    Ok(color_by(decoder.colortype()?))
}

/// The color of a page, by its numbers for C. The first error: of the file or the page; of a page
/// without a color.
pub fn page_color(alloc: Global, file: &[u8], page: usize) -> TiffResult<Color>
    ensures { AnswersWithoutSource (λ c. c) result (calls.page_color file.now page) }
{
    color_here(&mut open_at(alloc, file, page)?)
}

// 1 where numbers of this interpretation are inverted, else 0.
fn inverted_by(meaning: u64) -> u32
    ensures { result ≡ calls.inverted_by meaning }
{
    if meaning == 0 { 1 } else { 0 }
}

// The samples of a page with this color, layout and interpretation, by their numbers for C.
fn samples_by(color: ColorType, layout: &BufferLayoutPreference, meaning: u64) -> PageSamples
    // A page has no more planes than samples.
    requires { layout.now.planes < 2 ^ 32 }
    ensures { result ≡ calls.samples_by color layout.now meaning }
{
    PageSamples {
        kind: u32::from(layout.sample_format.to_u16()),
        bits: u32::from(color.bit_depth()),
        samples: u32::from(color.num_samples()),
        planes: layout.planes as u32,
        inverted: inverted_by(meaning),
    }
}

// Proves that a color has fewer than 2^16 samples.
fn samples_fit(color: &ColorType)
    ensures { num_samples color.now < 2 ^ 16 }
{
    let _samples = color.num_samples();
}

// The samples of a decoder's page that has this color and layout, by their numbers for C.
fn samples_in(
    decoder: &mut Decoder<SliceSource<'_>>,
    color: ColorType,
    layout: &BufferLayoutPreference,
) -> TiffResult<PageSamples>
    requires { layout.now.planes < 2 ^ 32 }
    ensures { AnswersWithoutSource (λ s. s) result (calls.samples_in decoder.old color layout.now) }
{
    // From the tag, since no call of a decoder returns the interpretation.
    let meaning = number_here(decoder, &None, Tag::PhotometricInterpretation)?;
    Ok(samples_by(color, layout, meaning))
}

// The samples of a decoder's page, by their numbers for C.
#[tactic(auto, using(crate::proofs::Planes::planes_few), unfolding(tiff_decode::specs::Outcome::colortype, tiff_decode::specs::Outcome::image_buffer_layout))]
fn samples_here(decoder: &mut Decoder<SliceSource<'_>>) -> TiffResult<PageSamples>
    ensures { AnswersWithoutSource (λ s. s) result (calls.samples_of_page decoder.old) }
{
    let color = decoder.colortype()?;
    samples_fit(&color);
    let layout = decoder.image_buffer_layout()?;
    samples_in(decoder, color, &layout)
}

/// The samples of a page, by their numbers for C. The first error: of the file or the page; of its
/// color or its layout.
pub fn page_samples(alloc: Global, file: &[u8], page: usize) -> TiffResult<PageSamples>
    ensures { AnswersWithoutSource (λ s. s) result (calls.page_samples file.now page) }
{
    samples_here(&mut open_at(alloc, file, page)?)
}

// The chunks of a decoder's page, by their numbers for C.
#[tactic(auto, unfolding(tiff_decode::specs::Outcome::strip_count, tiff_decode::specs::Outcome::tile_count))]
fn chunks_here(decoder: &mut Decoder<SliceSource<'_>>) -> TiffResult<Chunks>
    ensures { AnswersWithoutSource (λ c. c) result (calls.chunks_of_page decoder.old) }
{
    let (width, height) = decoder.chunk_dimensions();
    let (kind, count) = match decoder.get_chunk_type() {
        ChunkType::Strip => (0, decoder.strip_count()?),
        ChunkType::Tile => (1, decoder.tile_count()?),
    };
    Ok(Chunks {
        kind,
        count,
        width,
        height,
    })
}

/// The chunks of a page, by their numbers for C. The first error: of the file or the page; of
/// chunks that can't be counted.
pub fn page_chunks(alloc: Global, file: &[u8], page: usize) -> TiffResult<Chunks>
    ensures { AnswersWithoutSource (λ c. c) result (calls.page_chunks file.now page) }
{
    chunks_here(&mut open_at(alloc, file, page)?)
}

// The field of a tag, by its numbers for C. No such tag: `RequiredTagNotFound`.
fn field_size(tag: Tag, found: Option<Entry>) -> TiffResult<FieldSize>
    ensures { AnswersWithoutSource (λ f. f) result (calls.field_size tag found) }
{
    match found {
        None => Err(TiffFormatError::RequiredTagNotFound(tag).into()),
        Some(entry) => Ok(FieldSize {
            kind: u32::from(entry.field_type().to_u16()),
            count: entry.count(),
        }),
    }
}

/// The field of a tag of a page, by its numbers for C. `number` is the tag's number. The first
/// error: of the file or the page; no such tag, `RequiredTagNotFound`.
pub fn tag_field(alloc: Global, file: &[u8], page: usize, number: u16) -> TiffResult<FieldSize>
    ensures { AnswersWithoutSource (λ f. f) result (calls.tag_field file.now page number) }
{
    let (mut decoder, other) = open_tags(alloc, file, page)?;
    let tag = Tag::from_u16_exhaustive(number);
    let found = tags_of(&mut decoder, &other).find_entry(tag);
    field_size(tag, found)
}

// Proves that a file has fewer than 2^64 bytes.
fn bytes_fit<R: Source>(decoder: &Decoder<R>)
    ensures { length decoder.now.bytes < 2 ^ 64 }
{
    let _source = decoder.inner();
}

// Goes to the next page of the chain.
#[tactic(auto, using(crate::proofs::Slices::next_here, crate::proofs::Slices::next_gone))]
fn advance(decoder: &mut Decoder<SliceSource<'_>>) -> TiffResult<()>
    ensures answer { AnswersWithoutSource (λ x. x) result (outcome.next_image decoder.old).answer }
    ensures gone { OnOk result
        (decoder.new ≡ record decoder.old { state = (outcome.next_image decoder.old).next }) }
{
    never_failed(decoder);
    let answer = decoder.next_image();
    never_failed(decoder);
    answer
}

// How many pages a file has, of which the decoder is at the first page.
fn count_pages(decoder: &mut Decoder<SliceSource<'_>>) -> TiffResult<usize>
    // The decoder was opened on its file, and no call has moved it since.
    requires { outcome.decoder_of decoder.old.bytes 0 ≡ Ok decoder.old }
    ensures { AnswersWithoutSource (λ n. n) result (calls.page_count decoder.old.bytes) }
{
    walk_opens();
    walk_goes_on();
    walk_ends();
    bytes_fit(decoder);
    let mut count = 1;
    'pages: while decoder.more_images() {
        advance(decoder)?;
        count += 1;
    }
    Ok(count)
}

/// How many pages a file has. The first error: of the header; of the pages in their order; of the
/// chain's end. The call ends for every file, since each chain does.
pub fn page_count(alloc: Global, file: &[u8]) -> TiffResult<usize>
    ensures { AnswersWithoutSource (λ n. n) result (calls.page_count file.now) }
{
    walk_opens();
    let mut decoder = open_first(alloc, file)?;
    count_pages(&mut decoder)
}

// The number of a tag: of a decoder's page, or of another directory of its file.
fn number_of<R: Source>(
    decoder: &mut Decoder<R>,
    other: &Option<Directory>,
    tag: Tag,
) -> TiffResult<u64>
    ensures { Answers (λ n. n) result
        (outcome.get_tag_u64 (reader_of decoder.old other.now) tag).answer
        decoder.old.failures decoder.new.failures }
{
    tags_of(decoder, other).get_tag_u64(tag)
}

// The number of a tag, of a decoder whose reads never fail.
#[tactic(auto, using(crate::proofs::Slices::answer_here))]
fn number_here(
    decoder: &mut Decoder<SliceSource<'_>>,
    other: &Option<Directory>,
    tag: Tag,
) -> TiffResult<u64>
    ensures { AnswersWithoutSource (λ n. n) result
        (outcome.get_tag_u64 (reader_of decoder.old other.now) tag).answer }
{
    never_failed(decoder);
    let answer = number_of(decoder, other, tag);
    never_failed(decoder);
    answer
}

/// The number of a tag of a page. `number` is the tag's number. The first error: of the file or the
/// page; no such tag, `RequiredTagNotFound`; of reading the value, also of one that is no number
/// below 2^64.
pub fn tag_number(alloc: Global, file: &[u8], page: usize, number: u16) -> TiffResult<u64>
    ensures { AnswersWithoutSource (λ n. n) result (calls.tag_number_at file.now page number) }
{
    let (mut decoder, other) = open_tags(alloc, file, page)?;
    number_here(&mut decoder, &other, Tag::from_u16_exhaustive(number))
}

// How many bytes of a field were copied. No such field: `RequiredTagNotFound`.
fn copied(tag: Tag, found: Option<usize>) -> TiffResult<usize>
    ensures { Gives (λ n. n) result (ok_or_fault found (FormatError (RequiredTagNotFound tag))) }
{
    match found {
        Some(count) => Ok(count),
        None => Err(TiffFormatError::RequiredTagNotFound(tag).into()),
    }
}

// Copies bytes of a tag's values, if there is the tag: of a decoder's page, or of another directory
// of its file.
fn part_of_tag<R: Source>(
    decoder: &mut Decoder<R>,
    other: &Option<Directory>,
    tag: Tag,
    at: u64,
    buffer: &mut [u8],
) -> TiffResult<Option<usize>>
    ensures { AnswersWithoutMemory (λ n. (n, buffer.new)) result
        (outcome.find_tag_bytes (reader_of decoder.old other.now) tag buffer.old at).answer
        decoder.old.failures decoder.new.failures }
{
    tags_of(decoder, other).find_tag_bytes(tag, buffer, at)
}

// Copies bytes of a tag's values, if there is the tag, by a decoder whose reads never fail.
#[tactic(auto, using(crate::proofs::Slices::exactly_here))]
fn part_here(
    decoder: &mut Decoder<SliceSource<'_>>,
    other: &Option<Directory>,
    tag: Tag,
    at: u64,
    buffer: &mut [u8],
) -> TiffResult<Option<usize>>
    ensures { AnswersWithoutSource (λ n. (n, buffer.new)) result
        (outcome.find_tag_bytes (reader_of decoder.old other.now) tag buffer.old at).answer }
{
    never_failed(decoder);
    let answer = part_of_tag(decoder, other, tag, at, buffer);
    never_failed(decoder);
    answer
}

// Copies bytes of a tag's values, by a decoder whose reads never fail, and returns how many. No
// such tag: `RequiredTagNotFound`.
fn bytes_here(
    decoder: &mut Decoder<SliceSource<'_>>,
    other: &Option<Directory>,
    tag: Tag,
    at: u64,
    buffer: &mut [u8],
) -> TiffResult<usize>
    ensures { AnswersWithoutSource (λ n. (n, buffer.new)) result
        (calls.bytes_of_tag (reader_of decoder.old other.now) tag at buffer.old) }
{
    let found = part_here(decoder, other, tag, at, buffer)?;
    copied(tag, found)
}

/// Copies the bytes of the values of a tag of a page into `buffer`, in the file's byte order, from
/// byte `at` on, as many as fit, and returns how many. `number` is the tag's number. The first
/// error: of the file or the page; no such tag, `RequiredTagNotFound`; of values of 2^64 bytes or
/// more, `LimitsExceeded`; of an offset of 2^64 or more, `InconsistentSizesEncountered`; of bytes
/// to copy that lie behind the file's end, `IoError(UnexpectedEof)`. What an error leaves in
/// `buffer` is not specified.
pub fn tag_bytes(
    alloc: Global,
    file: &[u8],
    page: usize,
    number: u16,
    at: u64,
    buffer: &mut [u8],
) -> TiffResult<usize>
    ensures { AnswersWithoutSource (λ n. (n, buffer.new)) result
        (calls.tag_bytes file.now page number at buffer.old) }
{
    let (mut decoder, other) = open_tags(alloc, file, page)?;
    bytes_here(
        &mut decoder,
        &other,
        Tag::from_u16_exhaustive(number),
        at,
        buffer,
    )
}

// The number of a byte order for C.
pub(crate) fn order_number(order: ByteOrder) -> u32
    ensures { result ≡ calls.order_number order }
{
    match order {
        ByteOrder::LittleEndian => 0,
        ByteOrder::BigEndian => 1,
    }
}

/// The byte order of a file, by its number for C: 0 for little-endian, 1 for big-endian. The error
/// is that of the header.
pub fn byte_order(file: &[u8]) -> TiffResult<u32>
    ensures { Gives (λ n. n) result (calls.file_byte_order file.now) }
{
    let mut source = SliceSource::new(file);
    let header = read_header(&mut source)?;
    Ok(order_number(header.order))
}

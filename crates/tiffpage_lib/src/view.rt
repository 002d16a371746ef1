//! The picture of a page.

ghost use Rattle.std.specs.Prelude.{◌≡◌, IfOk};
ghost use Rattle.tiff.specs.Answers.{Answers, AnswersWithoutSource};
ghost use Rattle.tiff.specs.Outcome as outcome;
ghost use Rattle.tiff.specs.Result.{decoded_as};
ghost use Rattle.tiffpage_lib.specs.AtPage.{AnswersIn, at_page};
ghost use Rattle.tiff_pages.specs.Check.{ReadsPage};
ghost use Rattle.tiffpage_lib.specs.Samples.{page_image};
ghost use Rattle.tiffpage_lib.specs.View.{color_kind, drawn, gray_kind, is_whole, picture, shape_here, shape_of, shown_as, without_low};

use crate::png::{PngKind, png_file};
use std::alloc::{AllocError, Global};
use tiff::decoder::{BufferLayoutPreference, Decoder, DecodingResult};
use tiff::io::{MemorySource, Source};
use tiff::tags::PlanarConfiguration;
use tiff::{ColorType, TiffError, TiffResult, TiffUnsupportedError};

/// The width and the height of a picture, and what its samples become.
#[derive(Clone, Copy, Debug)]
pub struct Shape {
    pub width: u32,
    pub height: u32,
    pub kind: PngKind,
}

// Whether samples of so many bits are numbers of whole bytes.
fn is_whole(depth: u8) -> bool
    ensures { result ≡ is_whole depth }
{
    depth == 8 || depth == 16 || depth == 32 || depth == 64
}

// What gray samples of so many bits become.
fn gray_kind(depth: u8) -> Option<PngKind>
    ensures { result ≡ gray_kind depth }
{
    match depth {
        1 => Some(PngKind::Gray1),
        2 => Some(PngKind::Gray2),
        4 => Some(PngKind::Gray4),
        _ => is_whole(depth).then_some(PngKind::Gray8),
    }
}

// What samples of a color become.
fn color_kind(color: ColorType) -> Option<PngKind>
    ensures { result ≡ color_kind color }
{
    match color {
        ColorType::Gray(depth) => gray_kind(depth),
        ColorType::RGB(depth) => is_whole(depth).then_some(PngKind::Rgb8),
        ColorType::RGBA(depth) => is_whole(depth).then_some(PngKind::Rgba8),
        _ => None,
    }
}

// The shape of a picture whose samples have this color and lie in so many planes.
fn shape_of(sides: (u32, u32), color: ColorType, planes: usize) -> TiffResult<Shape>
    ensures { AnswersWithoutSource (λ s. s) result (shape_of sides color planes) }
{
    let Some(kind) = color_kind(color) else {
        return Err(TiffError::UnsupportedError(TiffUnsupportedError::UnsupportedColorType(color)));
    };
    if planes > 1 {
        return Err(TiffError::UnsupportedError(TiffUnsupportedError::UnsupportedPlanarConfig(Some(
            PlanarConfiguration::Planar,
        ))));
    }
    Ok(Shape {
        width: sides.0,
        height: sides.1,
        kind,
    })
}

// The highest byte of each number of 16 bits, since few viewers show more than 256 grays.
fn top_of_16(alloc: Global, numbers: &[u16]) -> Result<Vec<u8>, AllocError>
    ensures { IfOk result (λ v. v.items ≡ without_low 8 numbers.now) }
{
    numbers.iter().map(|n| (*n >> 8) as u8).collect(alloc)
}

// The highest byte of each number of 32 bits.
fn top_of_32(alloc: Global, numbers: &[u32]) -> Result<Vec<u8>, AllocError>
    ensures { IfOk result (λ v. v.items ≡ without_low 24 numbers.now) }
{
    numbers.iter().map(|n| (*n >> 24) as u8).collect(alloc)
}

// The highest byte of each number of 64 bits.
fn top_of_64(alloc: Global, numbers: &[u64]) -> Result<Vec<u8>, AllocError>
    ensures { IfOk result (λ v. v.items ≡ without_low 56 numbers.now) }
{
    numbers.iter().map(|n| (*n >> 56) as u8).collect(alloc)
}

// The bytes that the picture shows of samples.
fn shown(alloc: Global, samples: DecodingResult) -> TiffResult<Vec<u8>>
    ensures { AnswersWithoutSource (λ v. v.items) result
        (shown_as (decoded_as samples).sample_type (decoded_as samples).numbers) }
{
    match samples {
        DecodingResult::U8(list) => Ok(list),
        DecodingResult::U16(list) => Ok(top_of_16(alloc, &list)?),
        DecodingResult::U32(list) => Ok(top_of_32(alloc, &list)?),
        DecodingResult::U64(list) => Ok(top_of_64(alloc, &list)?),
        // Floats and signed numbers have no range that is right for all files.
        _ => Err(TiffError::UnsupportedError(TiffUnsupportedError::UnsupportedDataType)),
    }
}

// The PNG file of a picture with this shape and these samples.
fn draw(alloc: Global, shape: Shape, samples: DecodingResult) -> TiffResult<Vec<u8>>
    ensures { AnswersWithoutSource (λ v. v.items) result (drawn shape (decoded_as samples)) }
{
    let rows = shown(alloc, samples)?;
    png_file(alloc, shape.width, shape.height, shape.kind, &rows)
}

// The color of a decoder's page.
fn color_here<R: Source>(decoder: &mut Decoder<R>) -> TiffResult<ColorType>
    ensures { ReadsPage (λ c. c) (outcome.colortype decoder.old).answer result decoder.old
        decoder.new }
{
    decoder.colortype()
}

// How the image of a decoder's page is laid out.
fn layout_here<R: Source>(decoder: &mut Decoder<R>) -> TiffResult<BufferLayoutPreference>
    ensures { ReadsPage (λ l. l) (outcome.image_buffer_layout decoder.old).answer result decoder.old
        decoder.new }
{
    decoder.image_buffer_layout()
}

// The samples of a decoder's page.
fn samples_here<R: Source>(decoder: &mut Decoder<R>) -> TiffResult<DecodingResult>
    ensures { ReadsPage decoded_as (page_image decoder.old) result decoder.old decoder.new }
{
    decoder.read_image()
}

// The width and the height of a decoder's page.
fn sides_here<R: Source>(decoder: &mut Decoder<R>) -> TiffResult<(u32, u32)>
    ensures { ReadsPage (λ s. s) (outcome.dimensions decoder.old).answer result decoder.old
        decoder.new }
{
    decoder.dimensions()
}

// The shape of the picture of a decoder's page.
fn shape_here<R: Source>(decoder: &mut Decoder<R>) -> TiffResult<Shape>
    ensures { ReadsPage (λ s. s) (shape_here decoder.old) result decoder.old decoder.new }
{
    let color = color_here(decoder)?;
    let layout = layout_here(decoder)?;
    let sides = sides_here(decoder)?;
    shape_of(sides, color, layout.planes)
}

// The picture of a decoder's page.
fn picture_here<R: Source>(alloc: Global, decoder: &mut Decoder<R>) -> TiffResult<Vec<u8>>
    ensures { ReadsPage (λ v. v.items) (picture decoder.old) result decoder.old decoder.new }
{
    let shape = shape_here(decoder)?;
    let samples = samples_here(decoder)?;
    draw(alloc, shape, samples)
}

/// The picture of a page as a PNG file, or the first error: of the seek to the page; of the page's
/// color, also `UnsupportedColorType` for a color without a picture; of its layout; for more than
/// one plane, `UnsupportedPlanarConfig`; of its image; for floats and signed numbers,
/// `UnsupportedDataType`; for a picture that no PNG file holds, as [`png_file`] returns it.
pub fn page_view<R: Source>(
    alloc: Global,
    decoder: &mut Decoder<R>,
    page: usize,
) -> TiffResult<Vec<u8>>
    ensures { Answers (λ v. v.items) result (at_page picture decoder.old page) decoder.old.failures
        decoder.new.failures }
{
    decoder.seek_to_image(page)?;
    picture_here(alloc, decoder)
}

/// The picture of a page of a file, as [`page_view`] returns it; or the error of opening the file.
pub fn page_picture(alloc: Global, file: Vec<u8>, page: u32) -> TiffResult<Vec<u8>>
    ensures { AnswersIn (λ v. v.items) picture result file.items page }
{
    let mut decoder = Decoder::open(alloc, MemorySource::new(file))?;
    page_view(alloc, &mut decoder, page as usize)
}

//! The color of a page, the number type of its samples, the positions of its chunks, and the layout
//! of its planes and rows.

ghost use Rattle.std.specs.Prelude.{◌≡◌, ◌+◌, ◌-◌, ◌*◌, ◌/◌, ◌%◌, ◌<◌, ◌≤◌, ◌^◌, IfOk, None, Ok};
ghost use Rattle.tiff_base.specs.Answers.{AnswersWithoutSource, Gives};
ghost use Rattle.tiff_base.specs.declared.error.TiffError.TheVariants as tiff;
ghost use Rattle.tiff_base.specs.declared.error.TiffUnsupportedError.TheVariants as unsupported;
ghost use Rattle.tiff_page.specs.PageView as view;
ghost use Rattle.tiff_base.specs.declared.color.ColorType.{ColorType};
ghost use Rattle.tiff_page.specs.Rect as rects;
ghost use Rattle.tiff_page.specs.Layout as spec;
ghost use Rattle.tiff_page.specs.Pixels as pixels;
ghost use Rattle.tiff_page.specs.Buffers.{planes_layout, type_known};
ghost use Rattle.tiff_base.specs.Sparing.{IsListFault};
ghost use Rattle.tiff_page.specs.EarlyFaults.{WantsWhere};

use crate::lists::ExtraSampleList;
use crate::page::Page;
use std::alloc::Global;
use tiff_base::color::ColorType;
use tiff_base::error::{TiffError, TiffResult, TiffUnsupportedError};
use tiff_base::lists::{SampleBits, SampleFormats};
use tiff_base::tags::{
    CompressionMethod, ExtraSamples, PhotometricInterpretation, PlanarConfiguration, Predictor,
    SampleFormat,
};

/// The number type of decoded samples.
#[derive(Clone, Copy, Debug, PartialEq, Eq, Hash)]
pub enum DecodingSampleType {
    U8,
    U16,
    U32,
    U64,
    F16,
    F32,
    F64,
    I8,
    I16,
    I32,
    I64,
}

/// A coding unit: the chunk with this index of the first plane, and the chunks at the same position
/// of the other planes.
#[derive(Clone, Copy, Debug, PartialEq, Eq, Hash)]
pub struct TiffCodingUnit(pub u32);

/// How the bytes of a buffer for an image or a part of one are laid out (as in the Rust crate).
#[derive(Clone, Debug, PartialEq, Drop)]
#[non_exhaustive]
pub struct BufferLayoutPreference {
    /// The number of bytes of one plane.
    pub len: usize,
    /// The format of a sample: how its bits are read.
    pub sample_format: SampleFormat,
    /// The number type of a sample, if there is one.
    pub sample_type: Option<DecodingSampleType>,
    /// The number of bytes from a row to the next, at least 1.
    pub row_stride: Option<usize>,
    pub planes: usize,
    /// The number of bytes from a plane to the next, at least 1.
    pub plane_stride: Option<usize>,
    /// The number of bytes of all planes.
    pub complete_len: usize,
}

/// The position and the size of a chunk in the image, in pixels, and its plane.
#[derive(Clone, Copy, Debug, PartialEq, Eq)]
pub struct ChunkRect {
    pub plane: u64,
    pub x: u64,
    pub y: u64,
    pub width: u32,
    pub height: u32,
}

/// Returns the number of chunks side by side.
pub(crate) fn chunks_across(page: &Page) -> u64
    ensures { result ≡ rects.across (view.page page.now) }
{
    (u64::from(page.width) + u64::from(page.chunk_width) - 1) / u64::from(page.chunk_width)
}

/// Returns the number of chunks of a plane.
#[tactic(auto, using(crate::specs::lemmas::PositionLaws::plane_some, crate::specs::lemmas::PositionLaws::plane_few))]
pub fn chunks_of_plane(page: &Page) -> u32
    ensures count { result ≡ rects.chunks_of_plane (view.page page.now) }
    ensures some { 0 < result }
{
    let down = (u64::from(page.height) + u64::from(page.chunk_height) - 1)
        / u64::from(page.chunk_height);
    (chunks_across(page) * down) as u32
}

/// Returns the rectangle of a chunk, clipped to the image.
#[tactic(auto, using(crate::specs::lemmas::PositionLaws::parts_some, crate::specs::lemmas::PositionLaws::column_fits, crate::specs::lemmas::PositionLaws::row_fits, crate::specs::lemmas::PositionLaws::column_in, crate::specs::lemmas::PositionLaws::row_in), unfolding(crate::specs::Rect::rect))]
pub fn rect(page: &Page, index: u32) -> ChunkRect
    ensures wide { 0 < result.width }
    ensures high { 0 < result.height }
    ensures position { record {
      plane = result.plane;
      x = result.x;
      y = result.y;
      width = result.width;
      height = result.height;
    }
        ≡ rects.rect (view.page page.now) index }
{
    let chunk_width = page.chunk_width;
    let chunk_height = page.chunk_height;
    let chunks = chunks_of_plane(page);
    let across = chunks_across(page);
    let chunk = u64::from(index % chunks);
    let x = chunk % across * u64::from(chunk_width);
    let y = chunk / across * u64::from(chunk_height);
    let width = u64::from(chunk_width).min(u64::from(page.width).saturating_sub(x));
    let height = u64::from(chunk_height).min(u64::from(page.height).saturating_sub(y));
    ChunkRect {
        plane: u64::from(index / chunks),
        x,
        y,
        width: width as u32,
        height: height as u32,
    }
}

/// Returns the width and the height of a chunk, in pixels, clipped to the image.
pub fn chunk_data_dimensions(page: &Page, index: u32) -> (u32, u32)
    ensures wide { 0 < result.0 }
    ensures high { 0 < result.1 }
    ensures size { result ≡ (
      (rects.rect (view.page page.now) index).width,
      (rects.rect (view.page page.now) index).height,
    ) }
{
    let rect = rect(page, index);
    (rect.width, rect.height)
}

// ---- the color

#[tactic(auto, unfolding(crate::specs::Layout::no_color))]
fn no_color(page: &Page, alloc: Global) -> TiffResult<ColorType>
    ensures answer { AnswersWithoutSource (λ c. c) result (spec.no_color (view.page page.now)) }
    ensures color { (c : ColorType) → spec.no_color (view.page page.now) ≡ Ok c → result ≡ Ok c }
    ensures memory { WantsWhere (IsListFault (spec.no_color (view.page page.now))) result }
{
    let bits = vec![in alloc; page.depth; usize::from(page.samples)]?;
    Err(TiffUnsupportedError::InterpretationWithBits(
        page.interpretation,
        SampleBits::from_vec(bits),
    ).into())
}

fn first_is_alpha(extra: &ExtraSampleList) -> bool
    ensures { result ≡ spec.first_is_alpha extra.now }
{
    matches!(
        extra.first(),
        Some(ExtraSamples::AssociatedAlpha | ExtraSamples::UnassociatedAlpha)
    )
}

/// Returns the color of a page, or `InterpretationWithBits` if it has none.
#[tactic(auto, unfolding(crate::specs::Layout::color_of))]
pub fn color_of(page: &Page, alloc: Global) -> TiffResult<ColorType>
    ensures answer { AnswersWithoutSource (λ c. c) result (spec.color_of (view.page page.now)) }
    // `color_of` allocates no memory if there is a color.
    ensures color { (c : ColorType) → spec.color_of (view.page page.now) ≡ Ok c → result ≡ Ok c }
    ensures memory { WantsWhere (IsListFault (spec.color_of (view.page page.now))) result }
{
    let depth = page.depth;
    let alpha = first_is_alpha(&page.extra);
    let photometric = usize::from(page.samples) - page.extra.len();
    match page.interpretation {
        PhotometricInterpretation::RGB => match photometric {
            3 => Ok(if alpha {
                ColorType::RGBA(depth)
            } else {
                ColorType::RGB(depth)
            }),
            4 => Ok(ColorType::RGBA(depth)),
            _ => no_color(page, alloc),
        },
        PhotometricInterpretation::CMYK => match photometric {
            4 => Ok(if alpha {
                ColorType::CMYKA(depth)
            } else {
                ColorType::CMYK(depth)
            }),
            5 => Ok(ColorType::CMYKA(depth)),
            _ => no_color(page, alloc),
        },
        PhotometricInterpretation::YCbCr => match photometric {
            3 => Ok(ColorType::YCbCr(depth)),
            _ => no_color(page, alloc),
        },
        PhotometricInterpretation::BlackIsZero | PhotometricInterpretation::WhiteIsZero =>
            match page.samples {
                1 => Ok(ColorType::Gray(depth)),
                num_samples => Ok(ColorType::Multiband {
                    bit_depth: depth,
                    num_samples,
                }),
            },
        PhotometricInterpretation::IccLab => match page.format {
            SampleFormat::Uint => match photometric {
                3 => Ok(ColorType::Lab(depth)),
                _ => no_color(page, alloc),
            },
            _ => no_color(page, alloc),
        },
        _ => no_color(page, alloc),
    }
}

// ---- the sample type

/// Returns the number type of the samples of a page, if there is one.
#[tactic(auto, unfolding(crate::specs::Layout::sample_type_of))]
pub fn known_sample_type(page: &Page) -> Option<DecodingSampleType>
    ensures { result ≡ type_known (spec.sample_type_of (view.page page.now)) }
{
    let depth = page.depth;
    match page.format {
        SampleFormat::Uint => match depth {
            0..=8 => Some(DecodingSampleType::U8),
            9..=16 => Some(DecodingSampleType::U16),
            17..=32 => Some(DecodingSampleType::U32),
            33..=64 => Some(DecodingSampleType::U64),
            _ => None,
        },
        SampleFormat::Int => match depth {
            0..=8 => Some(DecodingSampleType::I8),
            9..=16 => Some(DecodingSampleType::I16),
            17..=32 => Some(DecodingSampleType::I32),
            33..=64 => Some(DecodingSampleType::I64),
            _ => None,
        },
        SampleFormat::IEEEFP => match depth {
            16 => Some(DecodingSampleType::F16),
            32 => Some(DecodingSampleType::F32),
            64 => Some(DecodingSampleType::F64),
            _ => None,
        },
        _ => None,
    }
}

// Returns the error for samples without a number type.
#[tactic(auto, unfolding(crate::specs::Layout::sample_type_of))]
fn no_sample_type(page: &Page, alloc: Global) -> TiffResult<DecodingSampleType>
    requires { type_known (spec.sample_type_of (view.page page.now)) ≡ None }
    ensures answer { AnswersWithoutSource (λ t. t) result (spec.sample_type_of (view.page page.now)) }
    ensures memory { WantsWhere (IsListFault (spec.sample_type_of (view.page page.now))) result }
{
    match page.format {
        SampleFormat::Uint | SampleFormat::Int | SampleFormat::IEEEFP => Err(
            TiffUnsupportedError::UnsupportedSampleDepth(page.depth).into(),
        ),
        format => {
            let formats = SampleFormats::from_vec(vec![in alloc; format]?);
            Err(TiffUnsupportedError::UnsupportedSampleFormat(formats).into())
        }
    }
}

/// Returns the number type of the samples of a page. Returns `UnsupportedSampleDepth` if the format
/// has no number type of this depth, and `UnsupportedSampleFormat` if the format isn't one of
/// numbers.
pub fn sample_type_of(page: &Page, alloc: Global) -> TiffResult<DecodingSampleType>
    ensures answer { AnswersWithoutSource (λ t. t) result (spec.sample_type_of (view.page page.now)) }
    ensures memory { WantsWhere (IsListFault (spec.sample_type_of (view.page page.now))) result }
{
    match known_sample_type(page) {
        Some(sample_type) => Ok(sample_type),
        None => no_sample_type(page, alloc),
    }
}

/// Returns the number of bytes of a sample, from 1 to 8.
pub fn size_of(sample: DecodingSampleType) -> usize
    ensures size { result ≡ spec.size_of sample }
    ensures some { 0 < result }
    ensures few { result ≤ 8 }
{
    match sample {
        DecodingSampleType::U8 | DecodingSampleType::I8 => 1,
        DecodingSampleType::U16 | DecodingSampleType::I16 | DecodingSampleType::F16 => 2,
        DecodingSampleType::U32 | DecodingSampleType::I32 | DecodingSampleType::F32 => 4,
        DecodingSampleType::U64 | DecodingSampleType::I64 | DecodingSampleType::F64 => 8,
    }
}

// ---- a layout

/// How the bytes of a plane are laid out: its color, the number of bytes of a row, and the number
/// of bytes of the plane.
#[derive(Clone, Copy, Debug)]
pub struct PlaneLayout {
    pub color: ColorType,
    pub row_bytes: usize,
    pub plane_stride: usize,
}

pub(crate) fn samples_in_chunk(page: &Page, color: ColorType) -> u16
    ensures { result ≡ spec.samples_in_chunk page.now.planar color }
{
    match page.planar {
        PlanarConfiguration::Chunky => color.num_samples(),
        _ => 1,
    }
}

pub fn planes(page: &Page, color: ColorType) -> u16
    ensures { result ≡ spec.planes page.now.planar color }
{
    match page.planar {
        PlanarConfiguration::Chunky => 1,
        _ => color.num_samples(),
    }
}

#[tactic(auto, using(crate::specs::lemmas::PositionLaws::bits_few, crate::specs::lemmas::PositionLaws::bits_fit))]
pub(crate) fn bits(width: u32, depth: u8, samples: u16) -> usize
    ensures value { result ≡ width * depth * samples }
    ensures few { result < 2 ^ 56 }
{
    width as usize * usize::from(depth) * usize::from(samples)
}

#[tactic(auto, unfolding(crate::specs::Layout::row_bits))]
pub(crate) fn row_bits(page: &Page, color: ColorType, width: u32) -> usize
    ensures value { result ≡ spec.row_bits (view.page page.now) color width }
    ensures few { result < 2 ^ 56 }
{
    bits(width, page.depth, samples_in_chunk(page, color))
}

/// Returns how many samples of a pixel a chunk stores.
pub fn stored_samples(page: &Page) -> u16
    ensures count { result ≡ pixels.stored_samples (view.page page.now) }
    ensures some { 0 < result }
{
    match page.planar {
        PlanarConfiguration::Chunky => page.samples,
        _ => 1,
    }
}

/// Returns the number of bytes of a stored row of a chunk, with all of its samples and columns.
pub fn stored_row_bytes(page: &Page) -> usize
    ensures value { result ≡ pixels.stored_row_bytes (view.page page.now) }
    ensures few { result < 2 ^ 56 }
{
    (bits(page.chunk_width, page.depth, stored_samples(page)) + 7) / 8
}

/// Returns how many bytes `width` columns of a row have in the output.
pub fn row_len(page: &Page, color: ColorType, width: u32) -> usize
    ensures value { result ≡ spec.row_bytes (view.page page.now) color width }
    ensures few { result < 2 ^ 56 }
{
    (row_bits(page, color, width) + 7) / 8
}

/// Whether the output needs whole stored rows: with the byte-plane predictor, or if samples are
/// dropped.
pub fn needs_whole_rows(page: &Page, color: ColorType) -> bool
    ensures { result ≡ pixels.needs_whole_rows (view.page page.now) color }
{
    matches!(page.predictor, Predictor::FloatingPoint)
        || samples_in_chunk(page, color) < stored_samples(page)
}

// Returns how many bytes of a stored row are read to output `len` bytes.
pub(crate) fn needed_of_row(page: &Page, color: ColorType, len: usize) -> usize
    requires { len < 2 ^ 56 }
    ensures value { result ≡ pixels.needed_of_row (view.page page.now) color len }
    ensures few { result < 2 ^ 56 }
{
    if needs_whole_rows(page, color) {
        return stored_row_bytes(page);
    }
    len
}

pub fn checked_byte_count(a: usize, b: usize) -> TiffResult<usize>
    ensures { Gives (λ n. n) result (spec.wide (a * b)) }
{
    a.checked_mul(b).ok_or(TiffError::LimitsExceeded)
}

/// Returns the layout of a part of a page, `width` by `height` pixels. Returns the first of these
/// errors: `InterpretationWithBits` if the page has no color; `LimitsExceeded` if a plane, or its
/// rows up to the stored height of a chunk, have 2^64 bytes or more; `MisalignedTileBoundaries` if
/// chunks lie side by side and their rows aren't of whole bytes; `ChromaSubsampling` for YCbCr with
/// fewer chroma samples.
#[tactic(auto, using(crate::specs::lemmas::Planes::some_row, crate::specs::lemmas::Planes::some_plane), unfolding(crate::specs::Layout::layout_of))]
pub fn layout_of(page: &Page, alloc: Global, width: u32, height: u32) -> TiffResult<PlaneLayout>
    ensures rows { 0 < width → IfOk result (λ l. 0 < l.row_bytes) }
    ensures plane { 0 < width → 0 < height → IfOk result (λ l. 0 < l.plane_stride) }
    ensures answer { AnswersWithoutSource (λ l. record {
      color = l.color;
      row_bytes = l.row_bytes;
      plane_stride = l.plane_stride;
    }) result (spec.layout_of (view.page page.now) width height) }
    ensures memory { WantsWhere (IsListFault (spec.color_of (view.page page.now))) result }
{
    let color = color_of(page, alloc)?;
    let row_bytes = (row_bits(page, color, width) + 7) / 8;
    // Unused here. The Rust crate keeps the product, and refuses a page where it passes 64 bits.
    checked_byte_count(row_bytes, page.chunk_height as usize)?;
    let plane_stride = checked_byte_count(row_bytes, height as usize)?;
    let across = (u64::from(width) + u64::from(page.chunk_width) - 1) / u64::from(page.chunk_width);
    if across > 1 && row_bits(page, color, page.chunk_width) % 8 != 0 {
        return Err(TiffUnsupportedError::MisalignedTileBoundaries.into());
    }
    if matches!(color, ColorType::YCbCr(_))
        && page.subsampling != (1, 1)
        // A JPEG decoder undoes it itself. The Rust crate lays such pages out for one.
        && page.method != CompressionMethod::ModernJPEG
    {
        return Err(TiffUnsupportedError::ChromaSubsampling.into());
    }
    Ok(PlaneLayout {
        color,
        row_bytes,
        plane_stride,
    })
}

/// Returns the layout of a part of a page, `width` by `height` pixels, all of whose planes have
/// together fewer than 2^64 bytes. Returns the layout's own errors first, then `LimitsExceeded` if
/// all planes have 2^64 bytes or more.
#[tactic(auto, unfolding(crate::specs::Buffers::planes_layout))]
pub fn planes_layout(page: &Page, alloc: Global, width: u32, height: u32) -> TiffResult<PlaneLayout>
    ensures answer { AnswersWithoutSource (λ l. record {
      color = l.color;
      row_bytes = l.row_bytes;
      plane_stride = l.plane_stride;
    }) result (planes_layout (view.page page.now) width height) }
    ensures rows { 0 < width → IfOk result (λ l. 0 < l.row_bytes) }
    ensures plane { 0 < width → 0 < height → IfOk result (λ l. 0 < l.plane_stride) }
    ensures fits { IfOk result (λ l. l.plane_stride * spec.planes page.now.planar l.color < 2 ^ 64) }
    ensures laid { IfOk result (λ l. spec.layout_of (view.page page.now) width height ≡ Ok
        (record { color = l.color; row_bytes = l.row_bytes; plane_stride = l.plane_stride })) }
    ensures some { IfOk result (λ l. 0 < spec.planes page.now.planar l.color) }
    ensures memory { WantsWhere (IsListFault (spec.color_of (view.page page.now))) result }
{
    let layout = layout_of(page, alloc, width, height)?;
    let planes = usize::from(planes(page, layout.color));
    checked_byte_count(layout.plane_stride, planes)?;
    Ok(layout)
}

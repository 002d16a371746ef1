//! The errors of reading pixels, except for too few data, and those that the decoder finds before
//! it allocates memory for samples.

ghost use Rattle.std.specs.Prelude.{◌≡◌, ◌<◌, length, OnOk, ◌+◌, ◌-◌, ◌*◌, ◌^◌, nat_lt};
ghost use Rattle.tiff_base.specs.Answers.{Gives, AnswersWithoutMemory, ReadsOnly, IsKept};
ghost use Rattle.tiff_base.specs.declared.error.TiffError.TheVariants as tiff;
ghost use Rattle.tiff_base.specs.declared.io.IoKind.TheVariants as io;
ghost use Rattle.tiff_page.specs.Methods as methods;
ghost use Rattle.tiff_page.specs.PageView as view;
ghost use Rattle.tiff_page.specs.PixelFault as spec;
ghost use Rattle.std.specs.Int.{div_ceil};
ghost use Rattle.tiff_base.specs.SourceAndSink.{AreReadable};
ghost use Rattle.tiff_page.specs.EarlyFaults.{is_cut};
ghost use Rattle.tiff_page.specs.Pixels as pixels;
ghost use Rattle.tiff_page.specs.Reach.{ChunkReadable};

use crate::layout::{chunk_data_dimensions, needed_of_row, row_len, stored_row_bytes};
use crate::page::Page;
use tiff_base::color::ColorType;
use tiff_base::error::{TiffError, TiffFormatError, TiffResult, TiffUnsupportedError};
use tiff_base::io::{IoKind, Source};
use tiff_base::read::read_exact_at;
use tiff_base::tags::{CompressionMethod, PhotometricInterpretation, Predictor, SampleFormat};
use tiff_ifd::limits::Limits;

fn is_byte_multiple(depth: u8) -> bool
    ensures { result ≡ spec.is_byte_multiple depth }
{
    depth == 8 || depth == 16 || depth == 32 || depth == 64
}

fn is_supported_color(color: ColorType) -> bool
    ensures { result ≡ spec.is_supported_color color }
{
    !matches!(
        color,
        ColorType::Palette(_) | ColorType::GrayA(_) | ColorType::Lab(_)
    )
}

fn is_gray(color: ColorType) -> bool
    ensures { result ≡ spec.is_gray color }
{
    matches!(color, ColorType::Gray(_) | ColorType::Multiband { .. })
}

#[tactic(auto, unfolding(crate::specs::PixelFault::depth_fault))]
fn depth_fault(page: &Page, color: ColorType) -> TiffResult<()>
    ensures { Gives (λ _. tt) result (spec.depth_fault (view.page page.now) color) }
{
    if is_byte_multiple(page.depth) && is_supported_color(color) {
        return Ok(());
    }
    if page.depth < 8 && is_gray(color) {
        return match page.predictor {
            Predictor::None => Ok(()),
            Predictor::Horizontal => Err(TiffUnsupportedError::HorizontalPredictor(color).into()),
            _ => Err(TiffUnsupportedError::FloatingPointPredictor(color).into()),
        };
    }
    Err(TiffUnsupportedError::UnsupportedColorType(color).into())
}

#[tactic(auto, unfolding(crate::specs::PixelFault::predictor_fault))]
fn predictor_fault(page: &Page, color: ColorType) -> TiffResult<()>
    ensures { Gives (λ _. tt) result (spec.predictor_fault (view.page page.now) color) }
{
    match (page.predictor, page.format) {
        (Predictor::None, _) => Ok(()),
        (Predictor::Horizontal, SampleFormat::Uint | SampleFormat::Int | SampleFormat::IEEEFP) =>
            Ok(()),
        (Predictor::Horizontal, _) => Err(TiffUnsupportedError::HorizontalPredictor(color).into()),
        (Predictor::FloatingPoint, SampleFormat::IEEEFP) if page.depth != 8 => Ok(()),
        _ => Err(TiffUnsupportedError::FloatingPointPredictor(color).into()),
    }
}

/// Returns the `UnsupportedError` of a method that isn't read.
pub(crate) fn method_fault(method: CompressionMethod) -> TiffResult<()>
    ensures { Gives (λ _. tt) result (methods.method_fault method) }
{
    match method {
        CompressionMethod::None | CompressionMethod::PackBits => Ok(()),
        method => Err(TiffUnsupportedError::UnsupportedCompressionMethod(method).into()),
    }
}

/// Whether the counted bytes of a chunk alone are read, and are decompressed.
pub(crate) fn is_packed(method: CompressionMethod) -> bool
    ensures { result ≡ methods.is_packed method }
{
    matches!(method, CompressionMethod::PackBits)
}

fn can_invert(format: SampleFormat, color: ColorType) -> bool
    ensures { result ≡ spec.can_invert format color }
{
    match (format, color) {
        (SampleFormat::Uint, ColorType::Gray(d)) => is_byte_multiple(d)
            || d == 1
            || d == 2
            || d == 4,
        _ => false,
    }
}

#[tactic(auto, unfolding(crate::specs::PixelFault::inversion_fault))]
fn inversion_fault(page: &Page, color: ColorType) -> TiffResult<()>
    ensures { Gives (λ _. tt) result (spec.inversion_fault (view.page page.now) color) }
{
    match page.interpretation {
        PhotometricInterpretation::WhiteIsZero if !can_invert(page.format, color) => {
            Err(TiffUnsupportedError::UnknownInterpretation.into())
        }
        _ => Ok(()),
    }
}

/// Returns the first error of a chunk, except for too few data, in this order:
/// `InconsistentSizesEncountered` if the index is past the list of chunks; the `UnsupportedError`
/// of a depth or a predictor that isn't supported; `LimitsExceeded` if the chunk has more bytes in
/// the file than `intermediate_buffer_size`; the `UnsupportedError` of a compression method or an
/// inversion that isn't supported.
#[tactic(auto, unfolding(crate::specs::PixelFault::form_fault))]
pub fn form_fault(page: &Page, limits: &Limits, color: ColorType, index: usize) -> TiffResult<()>
    ensures answer { Gives (λ _. tt) result (spec.form_fault (view.page page.now) limits.now color index) }
    ensures within { OnOk result (index < length page.now.offsets) }
{
    if index >= page.byte_counts.len() {
        return Err(TiffFormatError::InconsistentSizesEncountered.into());
    }
    depth_fault(page, color)?;
    predictor_fault(page, color)?;
    if page.byte_counts.get(index) > limits.intermediate_buffer_size as u64 {
        return Err(TiffError::LimitsExceeded);
    }
    method_fault(page.method)?;
    inversion_fault(page, color)
}

/// Returns `LimitsExceeded` if `bytes` bytes, in whole samples of `size` bytes, are more samples
/// than `decoding_buffer_size` bytes hold.
pub fn limit_fault(limits: &Limits, size: usize, bytes: usize) -> TiffResult<()>
    requires { 0 < size }
    ensures { Gives (λ _. tt) result (spec.limit_fault limits.now size bytes) }
{
    if bytes.div_ceil(size) > limits.decoding_buffer_size / size {
        return Err(TiffError::LimitsExceeded);
    }
    Ok(())
}

// Returns how many decompressed bytes the image needs of a chunk.
#[tactic(auto, using(crate::specs::lemmas::Requests::rows_fit, crate::specs::lemmas::Requests::bytes_few))]
fn needed_bytes(page: &Page, color: ColorType, index: u32) -> u128
    ensures value { result ≡ pixels.needed_bytes (view.page page.now) color index }
    ensures few { result < 2 ^ 89 }
{
    let (width, height) = chunk_data_dimensions(page, index);
    let row = stored_row_bytes(page) as u128;
    let last = needed_of_row(page, color, row_len(page, color, width)) as u128;
    u128::from(height - 1) * row + last
}

// Returns `IoError(UnexpectedEof)` if the source has fewer than `len` bytes from offset `at` on.
// Reads the last of them.
#[tactic(auto, using(crate::specs::lemmas::Requests::reached, crate::specs::lemmas::Requests::past_all))]
fn reach<R: Source>(source: &mut R, at: u64, len: u128) -> TiffResult<()>
    requires few { len < 2 ^ 89 }
    ensures kept { IsKept R.contents R.failures result source.old source.new }
    ensures answer { AnswersWithoutMemory (λ _. tt) result
        (spec.fail_if (nat_lt (length (R.contents source.old).bytes - at) len)
        (tiff.IoError io.UnexpectedEof)) (R.failures source.old) (R.failures source.new) }
    ensures asked { ReadsOnly (AreReadable (R.contents source.old) at len) result }
{
    if len == 0 {
        return Ok(());
    }
    let Ok(last) = u64::try_from(u128::from(at) + len - 1) else {
        return Err(TiffError::IoError(IoKind::UnexpectedEof));
    };
    read_exact_at(source, last, &mut [0u8; 1])
}

/// Returns the first error of a chunk, as far as it is found before memory is allocated for its
/// samples: an error of `form_fault`, or `IoError(UnexpectedEof)` if the source has too few
/// bytes for what the chunk's data take at least. Reads at most one byte.
#[tactic(auto, using(crate::specs::lemmas::Requests::counted_few, crate::specs::lemmas::Requests::counted_all, crate::specs::lemmas::Requests::least_few))]
pub(crate) fn check_first_chunk<R: Source>(
    page: &Page,
    limits: &Limits,
    source: &mut R,
    color: ColorType,
    index: u32,
) -> TiffResult<()>
    ensures kept { IsKept R.contents R.failures result source.old source.new }
    ensures answer { AnswersWithoutMemory (λ _. tt) result (spec.chunk_fault (view.page page.now)
        limits.now (is_cut (R.contents source.old).bytes (view.page page.now) color) color index)
        (R.failures source.old) (R.failures source.new) }
    ensures asked { ReadsOnly (ChunkReadable (R.contents source.old) (view.page page.now) color index)
        result }
{
    let chunk = index as usize;
    form_fault(page, limits, color, chunk)?;
    let at = page.offsets.get(chunk);
    let needed = needed_bytes(page, color, index);
    if !is_packed(page.method) {
        return reach(source, at, needed);
    }
    // Two bytes of PackBits data decompress to at most 128 bytes.
    let least = needed.div_ceil(64);
    if u128::from(page.byte_counts.get(chunk)) < least {
        return Err(TiffError::IoError(IoKind::UnexpectedEof));
    }
    reach(source, at, least)
}

//! The bytes that a file has of a chunk, made from other samples.

ghost use Rattle.std.specs.Prelude.{◌≡◌, ℕ, ◌+◌, ◌-◌, ◌*◌, ◌<◌, ◌≤◌, ◌^◌, false, length, slice_index, EachIndex, OnErr, OnOk, Ok};
ghost use Rattle.tiff_base.specs.Answers.{AnswersWithoutSource, Gives};
ghost use Rattle.tiff_base.specs.Sparing.{IsListFault};
ghost use Rattle.tiff_base.specs.declared.color.ColorType.{ColorType};
ghost use Rattle.tiff_page.specs.EarlyFaults.{WantsWhere};
ghost use Rattle.tiff_page.specs.Layout.{color_of, row_bytes, samples_in_chunk, wide};
ghost use Rattle.tiff_page.specs.PageView as view;
ghost use Rattle.tiff_page.specs.PixelCalls as calls;
ghost use Rattle.tiff_page.specs.Pixels.{is_byte_plane, needed_bytes, needed_of_row, shown_number};
ghost use Rattle.tiff_page.specs.ReadablePage.{IsRead};
ghost use Rattle.tiff_page.specs.Rect as rects;
ghost use Rattle.tiff_rewrite.specs.Rewrite as spec;

use crate::numbers::SampleRow;
use tiff_base::color::ColorType;
use tiff_base::error::{TiffError, TiffResult, TiffUnsupportedError, UsageError};
use tiff_base::io::IoKind;
use tiff_base::tags::{ByteOrder, CompressionMethod, PhotometricInterpretation, Predictor};
use tiff_ifd::limits::Limits;
use tiff_page::faults::form_fault;
use tiff_page::layout::{
    chunk_data_dimensions, needs_whole_rows, planes_layout, row_len, stored_row_bytes,
    stored_samples,
};
use tiff_page::output_row::form_read;
use tiff_page::page::Page;
use tiff_page::page_reader::PageReader;
use tiff_page::predictors::invert;

// ---- the errors

// Returns the `UnsupportedError` of a method whose data can't be changed in place.
fn packed_fault(method: CompressionMethod) -> TiffResult<()>
    ensures { Gives (λ _. tt) result (spec.packed_fault method) }
{
    match method {
        CompressionMethod::None => Ok(()),
        // Packed samples may take more bytes than the chunk has in the file.
        method => Err(TiffUnsupportedError::UnsupportedCompressionMethod(method).into()),
    }
}

// Returns `InsufficientOutputBufferSize` if fewer bytes are provided than are needed.
fn room_fault(provided: usize, needed: usize) -> TiffResult<()>
    ensures answer { Gives (λ _. tt) result (calls.room_fault provided needed) }
    ensures room { OnOk result (needed ≤ provided) }
{
    if provided < needed {
        return Err(UsageError::InsufficientOutputBufferSize { needed, provided }.into());
    }
    Ok(())
}

// Returns how many bytes of a stored row are read to output `width` columns.
fn read_len(page: &Page, color: ColorType, width: u32) -> usize
    ensures value { result ≡ needed_of_row (view.page page.now) color
        (row_bytes (view.page page.now) color width) }
    ensures few { result < 2 ^ 56 }
{
    if needs_whole_rows(page, color) {
        return stored_row_bytes(page);
    }
    row_len(page, color, width)
}

// Returns how many stored bytes the image needs of a chunk, or `LimitsExceeded` for 2^64 bytes or
// more.
#[tactic(auto, using(tiff_page::specs::lemmas::Requests::rows_fit, tiff_page::specs::lemmas::Requests::bytes_few))]
fn stored_len(page: &Page, color: ColorType, index: u32) -> TiffResult<usize>
    ensures { Gives (λ n. n) result (wide (needed_bytes (view.page page.now) color index)) }
{
    let (width, height) = chunk_data_dimensions(page, index);
    let row = stored_row_bytes(page) as u128;
    let last = read_len(page, color, width) as u128;
    match usize::try_from(u128::from(height - 1) * row + last) {
        Ok(needed) => Ok(needed),
        Err(_) => Err(TiffError::LimitsExceeded),
    }
}

// Returns the first error of a chunk that isn't rewritten, whose samples are as many as they should
// be, and of which `stored` bytes are provided.
fn rewrite_fault(
    page: &Page,
    limits: &Limits,
    color: ColorType,
    index: u32,
    stored: usize,
) -> TiffResult<()>
    ensures { Gives (λ _. tt) result
        (spec.rewrite_fault_of (view.page page.now) limits.now color index stored) }
{
    form_fault(page, limits, color, index as usize)?;
    packed_fault(page.method)?;
    if matches!(page.predictor, Predictor::FloatingPoint) {
        return Err(TiffUnsupportedError::FloatingPointPredictor(color).into());
    }
    let needed = stored_len(page, color, index)?;
    room_fault(stored, needed)
}

// ---- the bytes

// Puts the bytes of samples at the start of a row, complemented if white is zero.
fn put_packed(meaning: PhotometricInterpretation, samples: &[u8], row: &mut [u8])
    requires { length samples.now ≤ length row.old }
    ensures samples { EachIndex samples.now (λ b. slice_index row.new b
        ≡ shown_number meaning 256 (slice_index samples.now b)) }
    ensures others { (b : ℕ) → length samples.now ≤ b → slice_index row.new b ≡ slice_index row.old b }
{
    let front = &mut row[..samples.len()];
    front.copy_from_slice(samples);
    if matches!(meaning, PhotometricInterpretation::WhiteIsZero) {
        invert(front);
    }
}

// Returns how many samples of a pixel are output, at depths of whole bytes.
fn shown_samples(page: &Page, color: ColorType) -> usize
    requires read { IsRead (view.page page.now) color }
    requires deep { 8 ≤ page.now.depth }
    ensures { result ≡ samples_in_chunk page.now.planar color }
{
    row_len(page, color, 1) / usize::from(page.depth / 8)
}

// How a chunk is stored and output: its page, the byte order of its numbers, and its color.
#[derive(Clone, Copy)]
struct ChunkForm<'a> {
    page: &'a Page,
    order: ByteOrder,
    color: ColorType,
}

impl ChunkForm<'_> {
    // Changes what is read of a stored row into what outputs these samples of `width` columns.
    fn put_row(&self, width: u32, samples: &[u8], row: &mut [u8])
        requires read { IsRead (view.page self.now.page.now) self.now.color }
        requires in_place { is_byte_plane self.now.page.now.predictor ≡ false }
        requires width { width ≤ self.now.page.now.chunk_width }
        requires samples { length samples.now ≡ row_bytes (view.page self.now.page.now) self.now.color width }
        requires row { length row.old
            ≡ needed_of_row (view.page self.now.page.now) self.now.color (length samples.now) }
        ensures { spec.RowRewritten self.now.order (view.page self.now.page.now) self.now.color width
            samples.now row.old row.new }
    {
        let page = self.page;
        if page.depth < 8 {
            return put_packed(page.interpretation, samples, row);
        }
        let samples = SampleRow {
            samples,
            size: usize::from(page.depth / 8),
            shown: shown_samples(page, self.color),
            meaning: page.interpretation,
            predictor: page.predictor,
        };
        samples.put_into(self.order, usize::from(stored_samples(page)), row);
    }

    // Changes the stored bytes of a chunk into those that output these samples.
    fn put_rows(&self, index: u32, samples: &[u8], stored: &mut [u8])
        requires read { IsRead (view.page self.now.page.now) self.now.color }
        requires in_place { is_byte_plane self.now.page.now.predictor ≡ false }
        requires samples { length samples.now
            ≡ spec.output_len (view.page self.now.page.now) self.now.color index
            * (rects.rect (view.page self.now.page.now) index).height }
        requires stored { needed_bytes (view.page self.now.page.now) self.now.color index
            ≤ length stored.old }
        ensures { spec.ChunkRewritten self.now.order (view.page self.now.page.now) self.now.color index
            samples.now stored.old stored.new }
    {
        let page = self.page;
        let (width, height) = chunk_data_dimensions(page, index);
        let len = row_len(page, self.color, width);
        let read = read_len(page, self.color, width);
        let step = stored_row_bytes(page);
        for row in 0..height as usize {
            let (from, to) = (row * len, row * step);
            self.put_row(
                width,
                &samples[from..from + len],
                &mut stored[to..to + read],
            );
        }
    }
}

/// Makes the bytes that a file has of a chunk from new samples: those that `read_chunk_bytes` of
/// the reader returns, rows of the chunk's own width in the image, of little-endian numbers.
/// `stored` has the bytes of the file from the chunk's offset on, at least as many as its rows
/// need; bytes that no sample needs stay as they are, as those of a tile outside the image, and of
/// samples that aren't output. Written at the offset, they show the new samples. Allocates nothing
/// but the list of an error.
///
/// Returns the first of these errors, and leaves `stored` as it is: those of the layout, as
/// `read_chunk_bytes` does; `IoError(InvalidData)` if the samples aren't as many bytes as the chunk
/// has; the errors of `form_fault`, as `read_chunk_bytes` does; `UnsupportedCompressionMethod` if
/// the data are packed; `FloatingPointPredictor` for byte planes; `LimitsExceeded` if the rows of
/// the chunk need 2^64 stored bytes or more; `InsufficientOutputBufferSize` if `stored` has fewer
/// bytes than they need.
#[tactic(auto, unfolding(crate::specs::Rewrite::rewrite_fault))]
pub fn rewrite_chunk(
    reader: &PageReader<'_>,
    index: u32,
    samples: &[u8],
    stored: &mut [u8],
) -> TiffResult<()>
    ensures answer { AnswersWithoutSource (λ _. tt) result
        (spec.rewrite_fault (view.page reader.now.page.now) reader.now.limits.now index
        (length samples.now) (length stored.old)) }
    ensures memory { WantsWhere (IsListFault (color_of (view.page reader.now.page.now))) result }
    ensures rewritten { OnOk result ((color : ColorType)
        → color_of (view.page reader.now.page.now) ≡ Ok color
        → spec.ChunkRewritten reader.now.order (view.page reader.now.page.now) color index samples.now
        stored.old stored.new) }
    ensures refused { OnErr result (stored.new ≡ stored.old) }
{
    let page = reader.page;
    let (width, height) = chunk_data_dimensions(page, index);
    let layout = planes_layout(page, reader.alloc, width, height)?;
    if samples.len() != layout.plane_stride {
        return Err(TiffError::IoError(IoKind::InvalidData));
    }
    rewrite_fault(page, reader.limits, layout.color, index, stored.len())?;
    form_read();
    let form = ChunkForm {
        page,
        order: reader.order,
        color: layout.color,
    };
    form.put_rows(index, samples, stored);
    Ok(())
}

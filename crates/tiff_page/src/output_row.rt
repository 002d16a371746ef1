//! The rows of a chunk as they are output, and how the next of them, or the next bytes of several,
//! are read.

ghost use Rattle.std.specs.Prelude.{◌≡◌, ◌+◌, ◌*◌, ◌/◌, ◌%◌, ◌<◌, ◌≤◌, ◌⊎◌, ◌||◌, ℕ, List, true, false, length, slice_index, EachIndex, OnOk};
ghost use Rattle.tiff_base.specs.declared.tags.ByteOrder.{ByteOrder};
ghost use Rattle.tiff_base.specs.declared.tags.ByteOrder.TheVariants.{LittleEndian};
ghost use Rattle.tiff_page.specs.Layout as layouts;
ghost use Rattle.tiff_page.specs.Pixels as pixels;
ghost use Rattle.tiff_page.specs.Row.{IsSize, RowReplaced};
ghost use Rattle.tiff_page.specs.OutputRow as spec;
ghost use Rattle.tiff_page.specs.OutputRow.{HoldsNumbersOf, handed_byte, needs_swap};
ghost use Rattle.tiff_page.specs.ReadablePage.{FormRead, IsRead};
ghost use Rattle.tiff_page.specs.PageView as view;
ghost use Rattle.tiff_base.specs.Answers.{ReadsOnly, IsKept};
ghost use Rattle.tiff_page.specs.Layout.{row_bytes};
ghost use Rattle.tiff_page.specs.Pixels.{needed_of_row, needs_whole_rows, stored_row_bytes};
ghost use Rattle.tiff_page.specs.RowReads.{RowRead};
ghost use Rattle.tiff_page.specs.Reach.{StoredReadable, Moves};

use crate::chunk_data::ChunkCursor;
use crate::layout::{needs_whole_rows, samples_in_chunk, stored_row_bytes, stored_samples};
use crate::page::Page;
use crate::predictors::{invert, to_little_endian, undo_float_predictor, undo_horizontal};
use std::alloc::Global;
use tiff_base::color::ColorType;
use tiff_base::error::TiffResult;
use tiff_base::io::Source;
use tiff_base::tags::{ByteOrder, PhotometricInterpretation, Predictor};

/// How the rows of a chunk are stored and output: the page and the byte order of its numbers, and
/// the color and the number of columns of the output.
#[derive(Clone, Copy)]
pub struct RowFormat<'a> {
    pub(crate) page: &'a Page,
    pub(crate) order: ByteOrder,
    pub(crate) color: ColorType,
    pub(crate) width: u32,
}

/// Whether numbers are byte-swapped on their way into a buffer: those of more than one byte in a
/// big-endian file.
pub fn needs_swap(order: ByteOrder, page: &Page) -> bool
    ensures { result ≡ spec.needs_swap order page.now.depth }
{
    matches!(order, ByteOrder::BigEndian) && page.depth > 8
}

// Undoes the horizontal predictor, if the page has it, over a row of little-endian numbers. A row
// of depth below 8 stays as it is.
fn undo_differences(page: &Page, row: &mut [u8])
    requires sizes { (page.now.depth < 8) ⊎ IsSize (page.now.depth / 8) }
    requires deep { (page.now.depth < 8) ⊎ (page.now.depth ≡ page.now.depth / 8 * 8) }
    requires in_place { pixels.is_byte_plane page.now.predictor ≡ false }
    ensures numbers { 8 ≤ page.now.depth → RowReplaced (page.now.depth / 8)
        (pixels.number_of_row LittleEndian (view.page page.now) row.old) row.old row.new }
    ensures packed { page.now.depth < 8 → row.new ≡ row.old }
    ensures octets { EachIndex row.new (λ i. slice_index row.new i < 256) }
{
    if page.depth < 8 {
        return;
    }
    if matches!(page.predictor, Predictor::Horizontal) {
        undo_horizontal(
            row,
            usize::from(page.depth / 8),
            usize::from(stored_samples(page)),
        );
    }
}

// Complements the bytes of a row if the interpretation of the page is `WhiteIsZero`.
fn complement(page: &Page, row: &mut [u8])
    ensures { EachIndex row.new (λ b. slice_index row.new b ≡ pixels.shown_number
        page.now.interpretation 256 (slice_index row.old b)) }
{
    if matches!(page.interpretation, PhotometricInterpretation::WhiteIsZero) {
        invert(row);
    }
}

/// Makes the numbers of a stored row the output row, if all of its samples are output and no byte
/// planes are joined. The numbers are in little-endian order.
pub fn decode_row(page: &Page, color: ColorType, row: &mut [u8])
    requires read { IsRead (view.page page.now) color }
    requires in_place { pixels.needs_whole_rows (view.page page.now) color ≡ false }
    requires whole { (page.now.depth < 8)
        ⊎ (length row.old / (page.now.depth / 8) * (page.now.depth / 8) ≡ length row.old) }
    ensures { (order : ByteOrder) (stored : List ℕ)
        → HoldsNumbersOf order (view.page page.now) stored row.old → EachIndex row.new
        (λ b. slice_index row.new b ≡ handed_byte order (view.page page.now) stored color b) }
{
    undo_differences(page, row);
    complement(page, row);
}

// Converts the numbers of a whole stored row of whole bytes to little-endian order. If numbers are
// byte-swapped, `room` needs the length of the row.
fn turn_whole(page: &Page, order: ByteOrder, row: &mut [u8], room: &mut [u8])
    requires size { IsSize (page.now.depth / 8) }
    requires whole { length row.old / (page.now.depth / 8) * (page.now.depth / 8) ≡ length row.old }
    requires room { spec.needs_swap order page.now.depth ≡ true → length room.old ≡ length row.old }
    ensures { RowReplaced (page.now.depth / 8)
        (pixels.row_number order (page.now.depth / 8) row.old) row.old row.new }
{
    if needs_swap(order, page) {
        room.copy_from_slice(row);
        to_little_endian(room, usize::from(page.depth / 8), row);
    }
}

// Makes a whole stored row of whole bytes the little-endian numbers of its samples. If byte planes
// are joined or numbers are byte-swapped, `room` needs the length of the row.
fn undo_whole(page: &Page, order: ByteOrder, row: &mut [u8], room: &mut [u8])
    requires size { IsSize (page.now.depth / 8) }
    requires deep { page.now.depth ≡ page.now.depth / 8 * 8 }
    requires row { length row.old ≡ pixels.stored_row_bytes (view.page page.now) }
    requires room { (pixels.is_byte_plane page.now.predictor || spec.needs_swap order page.now.depth) ≡ true
        → length room.old ≡ length row.old }
    ensures numbers { RowReplaced (page.now.depth / 8) (pixels.number_of_row order (view.page page.now) row.old)
        row.old row.new }
    ensures octets { EachIndex row.new (λ i. slice_index row.new i < 256) }
{
    let depth = page.depth;
    let stored = stored_samples(page);
    match page.predictor {
        Predictor::FloatingPoint => {
            undo_float_predictor(row, room, usize::from(depth / 8), usize::from(stored))
        }
        _ => {
            turn_whole(page, order, row, room);
            undo_differences(page, row)
        }
    }
}

// The number of bytes of a pixel in a stored row, and how many of the first of them are output.
#[derive(Clone, Copy)]
struct PixelBytes {
    stored: usize,
    shown: usize,
    ghost some: { 0 < shown },
    ghost within: { shown ≤ stored },
}

// Keeps the output bytes of each pixel of a row. If their numbers are constants, the loop is
// compiled for these.
#[inline(always)]
fn keep_bytes(row: &[u8], pixel: PixelBytes, out: &mut [u8], width: usize)
    requires row { width * pixel.stored ≤ length row.now }
    requires out { length out.old ≡ width * pixel.shown }
    ensures { EachIndex out.new (λ i. slice_index out.new i
        ≡ slice_index row.now (i / pixel.shown * pixel.stored + i % pixel.shown)) }
{
    for column in 0..width {
        let from = column * pixel.stored;
        let to = column * pixel.shown;
        out[to..to + pixel.shown].copy_from_slice(&row[from..from + pixel.shown]);
    }
}

// Keeps the output bytes of each pixel of a row: with one copy if whole pixels are kept, and with
// constants for three samples of four.
fn keep_pixels(row: &[u8], pixel: PixelBytes, out: &mut [u8], width: usize)
    requires row { width * pixel.stored ≤ length row.now }
    requires out { length out.old ≡ width * pixel.shown }
    ensures { EachIndex out.new (λ i. slice_index out.new i
        ≡ slice_index row.now (i / pixel.shown * pixel.stored + i % pixel.shown)) }
{
    if pixel.shown == pixel.stored {
        out.copy_from_slice(&row[..width * pixel.stored]);
        return;
    }
    match (pixel.stored, pixel.shown) {
        (stored @ 4, shown @ 3) => keep_bytes(row, PixelBytes { stored, shown }, out, width),
        (stored @ 8, shown @ 6) => keep_bytes(row, PixelBytes { stored, shown }, out, width),
        _ => keep_bytes(row, pixel, out, width),
    }
}

impl RowFormat<'_> {
    /// Makes a whole stored row the output row of the chunk's columns, in `out`: joins byte planes,
    /// and keeps the output samples of each pixel. If byte planes are joined or numbers are
    /// byte-swapped, `room` needs the length of the row. The bytes of `row` and `room` afterwards
    /// are unspecified.
    pub(crate) fn finish_whole_row(&self, row: &mut [u8], room: &mut [u8], out: &mut [u8])
        requires read { IsRead (view.page self.now.page.now) self.now.color }
        requires whole { pixels.needs_whole_rows (view.page self.now.page.now) self.now.color ≡ true }
        requires width { self.now.width ≤ self.now.page.now.chunk_width }
        requires row { length row.old ≡ pixels.stored_row_bytes (view.page self.now.page.now) }
        requires room { (pixels.is_byte_plane self.now.page.now.predictor || spec.needs_swap
            self.now.order self.now.page.now.depth) ≡ true → length room.old ≡ length row.old }
        requires out { length out.old ≡ layouts.row_bytes (view.page self.now.page.now) self.now.color
            self.now.width }
        ensures { EachIndex out.new (λ b. slice_index out.new b
            ≡ handed_byte self.now.order (view.page self.now.page.now) row.old self.now.color b) }
    {
        let page = self.page;
        let size = usize::from(page.depth / 8);
        let pixel = PixelBytes {
            stored: usize::from(stored_samples(page)) * size,
            shown: usize::from(samples_in_chunk(page, self.color)) * size,
        };
        undo_whole(page, self.order, row, room);
        keep_pixels(row, pixel, out, self.width as usize);
        complement(page, out);
    }
}

/// A page that passes the checks of its form is readable.
pub fn form_read()
    ensures { FormRead }
{}

/// Scratch buffers for a whole stored row, and for bytes before their byte planes are joined or
/// their numbers are byte-swapped.
#[derive(Drop)]
pub struct RowScratch {
    row: Vec<u8>,
    other: Vec<u8>,
}

impl RowScratch {
    /// Returns empty scratch buffers.
    pub fn new(alloc: Global) -> Self {
        RowScratch {
            row: Vec::new(alloc),
            other: Vec::new(alloc),
        }
    }
}

impl RowFormat<'_> {
    // Reads the next row into a buffer, if this needs the whole stored row.
    #[tactic(auto, using(crate::specs::lemmas::ChunkRows::whole_taken, crate::specs::lemmas::ChunkRows::whole_cause))]
    #[inline(always)]
    fn read_whole_row<R: Source>(
        &self,
        source: &mut R,
        cursor: &mut ChunkCursor,
        room: &mut RowScratch,
        out: &mut [u8],
    ) -> TiffResult<()>
        requires read { IsRead (view.page self.now.page.now) self.now.color }
        requires whole { needs_whole_rows (view.page self.now.page.now) self.now.color ≡ true }
        requires width { self.now.width ≤ self.now.page.now.chunk_width }
        requires out { length out.old
            ≡ row_bytes (view.page self.now.page.now) self.now.color self.now.width }
        ensures kept { IsKept R.contents R.failures result source.old source.new }
        ensures row { RowRead (R.contents source.old).bytes self.now.order
            (view.page self.now.page.now) self.now.color cursor.old cursor.new
            (R.failures source.old < R.failures source.new) out.new result }
        ensures asked { ReadsOnly (StoredReadable (R.contents source.old) cursor.old
            (stored_row_bytes (view.page self.now.page.now))) result }
        ensures moves { OnOk result
            (Moves cursor.old (stored_row_bytes (view.page self.now.page.now)) cursor.new) }
    {
        let page = self.page;
        cursor.read_grown(source, &mut room.row, stored_row_bytes(page))?;
        if matches!(page.predictor, Predictor::FloatingPoint) || needs_swap(self.order, page) {
            room.other.resize(room.row.len(), 0)?;
        }
        self.finish_whole_row(&mut room.row, &mut room.other, out);
        Ok(())
    }

    /// Reads the next bytes into a buffer as they are output, if this needs no whole stored rows.
    /// Numbers that are byte-swapped come by way of a scratch buffer.
    #[tactic(auto, using(crate::specs::lemmas::ChunkRows::row_taken, crate::specs::lemmas::ChunkRows::row_cause))]
    #[inline(always)]
    pub(crate) fn read_finished<R: Source>(
        &self,
        source: &mut R,
        cursor: &mut ChunkCursor,
        room: &mut RowScratch,
        out: &mut [u8],
    ) -> TiffResult<()>
        requires read { IsRead (view.page self.now.page.now) self.now.color }
        requires in_place { needs_whole_rows (view.page self.now.page.now) self.now.color ≡ false }
        requires whole { (self.now.page.now.depth < 8) ⊎ (length out.old /
            (self.now.page.now.depth / 8) * (self.now.page.now.depth / 8) ≡ length out.old) }
        ensures kept { IsKept R.contents R.failures result source.old source.new }
        ensures row { RowRead (R.contents source.old).bytes self.now.order
            (view.page self.now.page.now) self.now.color cursor.old cursor.new
            (R.failures source.old < R.failures source.new) out.new result }
        ensures asked { ReadsOnly (StoredReadable (R.contents source.old) cursor.old (length out.old))
            result }
        ensures moves { OnOk result (Moves cursor.old (length out.old) cursor.new) }
    {
        // Rows of 1 KB and more take an eighth longer if they are swapped in place; shorter ones
        // would be faster so, by a second way.
        if needs_swap(self.order, self.page) {
            room.other.resize(out.len(), 0)?;
            cursor.read(source, &mut room.other)?;
            to_little_endian(&room.other, usize::from(self.page.depth / 8), out);
            decode_row(self.page, self.color, out);
            return Ok(());
        }
        cursor.read(source, out)?;
        decode_row(self.page, self.color, out);
        Ok(())
    }

    // Reads the next row as `read_row` does, if its stored bytes are changed on their way. It isn't
    // inlined, so that the loop over rows that are only copied stays small.
    #[inline(never)]
    fn read_changed_row<R: Source>(
        self,
        source: &mut R,
        cursor: &mut ChunkCursor,
        room: &mut RowScratch,
        out: &mut [u8],
    ) -> TiffResult<()>
        requires read { IsRead (view.page self.page.now) self.color }
        requires width { self.width ≤ self.page.now.chunk_width }
        requires out { length out.old ≡ row_bytes (view.page self.page.now) self.color self.width }
        ensures kept { IsKept R.contents R.failures result source.old source.new }
        ensures row { RowRead (R.contents source.old).bytes self.entry.order
            (view.page self.entry.page.now) self.entry.color cursor.old cursor.new
            (R.failures source.old < R.failures source.new) out.new result }
        ensures asked { ReadsOnly (StoredReadable (R.contents source.old) cursor.old
            (needed_of_row (view.page self.entry.page.now) self.entry.color (length out.old)))
            result }
        ensures moves { OnOk result (Moves cursor.old
            (needed_of_row (view.page self.entry.page.now) self.entry.color (length out.old))
            cursor.new) }
    {
        if needs_whole_rows(self.page, self.color) {
            return self.read_whole_row(source, cursor, room, out);
        }
        self.read_finished(source, cursor, room, out)
    }

    /// Reads the next row into a buffer as it is output.
    #[inline(always)]
    pub(crate) fn read_row<R: Source>(
        &self,
        source: &mut R,
        cursor: &mut ChunkCursor,
        room: &mut RowScratch,
        out: &mut [u8],
    ) -> TiffResult<()>
        requires read { IsRead (view.page self.now.page.now) self.now.color }
        requires width { self.now.width ≤ self.now.page.now.chunk_width }
        requires out { length out.old
            ≡ row_bytes (view.page self.now.page.now) self.now.color self.now.width }
        ensures kept { IsKept R.contents R.failures result source.old source.new }
        ensures row { RowRead (R.contents source.old).bytes self.now.order
            (view.page self.now.page.now) self.now.color cursor.old cursor.new
            (R.failures source.old < R.failures source.new) out.new result }
        ensures asked { ReadsOnly (StoredReadable (R.contents source.old) cursor.old
            (needed_of_row (view.page self.now.page.now) self.now.color (length out.old))) result }
        ensures moves { OnOk result (Moves cursor.old
            (needed_of_row (view.page self.now.page.now) self.now.color (length out.old))
            cursor.new) }
    {
        if needs_whole_rows(self.page, self.color) || needs_swap(self.order, self.page) {
            self.read_changed_row(source, cursor, room, out)?;
            return Ok(());
        }
        self.read_finished(source, cursor, room, out)
    }
}

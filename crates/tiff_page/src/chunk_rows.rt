//! Reads the rows of a chunk: many at a time where they lie together in the chunk's data and in the
//! sink, else one by one.

ghost use Rattle.std.specs.Prelude.{◌≡◌, ℕ, List, ◌+◌, ◌-◌, ◌*◌, Ok, ◌<◌, ◌≤◌, ◌^◌, ◌↔◌, IsTrue, length, OnOk};
ghost use Rattle.tiff_base.specs.Answers.{Answers, ReadsOnly, IsKept};
ghost use Rattle.tiff_base.specs.SourceAndSink.{SourceRecord};
ghost use Rattle.tiff_base.specs.declared.error.TiffError.TheVariants as tiff;
ghost use Rattle.tiff_base.specs.declared.io.IoKind.TheVariants as io;
ghost use Rattle.tiff_base.specs.declared.tags.ByteOrder.{ByteOrder};
ghost use Rattle.tiff_page.specs.Layout.{row_bytes};
ghost use Rattle.tiff_page.specs.Methods.{method_fault};
ghost use Rattle.tiff_page.specs.PixelFault.{fail_if};
ghost use Rattle.tiff_page.specs.Pixels.{chunk_data, is_short, stored_row_bytes, needed_of_row};
ghost use Rattle.tiff_page.specs.BufferPositions.{GrowsByChunk};
ghost use Rattle.tiff_page.specs.ChunkBands.{WritesRows, rows_short};
ghost use Rattle.tiff_page.specs.ReadablePage.{IsRead};
ghost use Rattle.tiff_page.specs.AdjacentRows.{LieTogether};
ghost use Rattle.tiff_page.specs.Rect.{rect};
ghost use Rattle.tiff_page.specs.ChunkData.{bytes_left};
ghost use Rattle.tiff_page.specs.Reach.{StoredReadable, DataReadable, ChunkReadable};
ghost use Rattle.tiff_page.specs.PageView as view;

use crate::chunk_data::ChunkCursor;
use crate::layout::{needs_whole_rows, row_len, stored_row_bytes};
use crate::output_row::{RowFormat, needs_swap};
use crate::row_sink::{RowSink, RowTarget};
use tiff_base::error::TiffResult;
use tiff_base::io::Source;
use tiff_base::tags::Predictor;

// The number of bytes of rows that are read at once, if a row has at most this many bytes or its
// numbers are byte-swapped. Small reads are copied fast, and byte-swapping then finds the bytes in
// the processor's nearest cache.
const SHORT_ROWS: usize = 8192;

// The number of bytes of rows that are read at once of PackBits data, of which the end of each read
// may cut a block.
const PACKED_ROWS: usize = 65536;

// Returns how many rows of `len` bytes are read at once, at least 1: of rows longer than
// `SHORT_ROWS` as many as fit in `long` bytes. The bytes that are read don't depend on it.
fn rows_at_once(cursor: &ChunkCursor, len: usize, long: usize) -> usize
    requires { 0 < len }
    ensures { 0 < result }
{
    let bytes = match cursor {
        ChunkCursor::Packed(_) => PACKED_ROWS,
        _ if len <= SHORT_ROWS => SHORT_ROWS,
        _ => long,
    };
    (bytes / len).max(1)
}

/// Reads the rows of a chunk of a page, in the color of the output.
#[derive(Clone, Copy)]
pub struct ChunkReader<'a> {
    pub(crate) format: RowFormat<'a>,
    pub(crate) index: u32,
    pub(crate) height: u32,
    ghost some_columns: { 0 < format.width },
    ghost some_rows: { 0 < height },
    ghost wide: { format.width ≡ (rect (view.page format.page.now) index).width },
    ghost high: { height ≡ (rect (view.page format.page.now) index).height },
}

/// Where the rows of a chunk go in a sink, whose rows are `stride` bytes apart: the first goes to
/// row `top` from its byte `left` on, the others to the rows below.
#[derive(Clone, Copy, Debug)]
pub struct Destination {
    pub top: usize,
    pub left: usize,
    pub stride: usize,
}

/// Rows of a chunk, from row `from` on and below row `to`, and where the first of them goes.
#[derive(Clone, Copy, Debug)]
pub(crate) struct ChunkBand {
    pub(crate) destination: Destination,
    pub(crate) from: usize,
    pub(crate) to: usize,
}

// Returns the number of bytes to skip after a row: `gap`, or 0 after the last row.
fn gap_behind(gap: u64, row: usize, rows: usize) -> u64
    requires { row < rows }
    ensures between { row + 1 < rows → result ≡ gap }
    ensures last { row + 1 ≡ rows → result ≡ 0 }
{
    // The file may end behind the last bytes that are shown: padding after them isn't asked for.
    if row + 1 < rows { gap } else { 0 }
}

impl ChunkReader<'_> {
    // Returns the number of bytes at the end of a stored row that aren't read.
    fn gap(&self, len: usize) -> u64
        ensures { result ≡ stored_row_bytes (view.page self.now.format.page.now)
            - needed_of_row (view.page self.now.format.page.now) self.now.format.color len }
    {
        if needs_whole_rows(self.format.page, self.format.color) {
            return 0;
        }
        stored_row_bytes(self.format.page).saturating_sub(len) as u64
    }

    /// Returns a cursor at the start of the chunk's data.
    pub(crate) fn cursor(&self) -> ChunkCursor
        requires formed { method_fault self.now.format.page.now.method ≡ Ok tt }
        requires listed { self.now.index < length self.now.format.page.now.offsets }
        ensures rest { (file : List ℕ) (order : ByteOrder) → bytes_left file result
            ≡ chunk_data file order (view.page self.now.format.page.now) self.now.index }
        ensures readable { (source : SourceRecord) (n : ℕ) → DataReadable source
            (view.page self.now.format.page.now) self.now.index n → StoredReadable source result n }
    {
        let page = self.format.page;
        let chunk = self.index as usize;
        ChunkCursor::new(
            page.method,
            page.offsets.get(chunk),
            page.byte_counts.get(chunk),
        )
    }

    /// Reads the rows of the chunk from row `band.from` on, below row `band.to`, one by one, into
    /// bytes that the sink has.
    #[inline(always)]
    pub(crate) fn separate_rows<R: Source, W: RowSink>(
        &self,
        source: &mut R,
        band: ChunkBand,
        sink: &mut W,
    ) -> TiffResult<()>
        requires read { IsRead (view.page self.now.format.page.now) self.now.format.color }
        requires formed { method_fault self.now.format.page.now.method ≡ Ok tt }
        requires listed { self.now.index < length self.now.format.page.now.offsets }
        requires some_rows { band.from < band.to }
        requires within { band.to ≤ (rect (view.page self.now.format.page.now)
            self.now.index).height }
        requires start { band.from * stored_row_bytes (view.page self.now.format.page.now)
            < 2 ^ 64 }
        requires some { 0 < band.destination.stride }
        requires columns { band.destination.left + row_bytes (view.page self.now.format.page.now)
            self.now.format.color (rect (view.page self.now.format.page.now) self.now.index).width
            ≤ band.destination.stride }
        requires there { (band.destination.top + (band.to - band.from)) * band.destination.stride
            ≤ length (W.bytes sink.old) }
        requires few { (band.destination.top + (band.to - band.from)) * band.destination.stride
            < 2 ^ 64 }
        ensures later { W.goes_on sink.old sink.new }
        ensures kept { IsKept R.contents R.failures result source.old source.new }
        ensures ok { OnOk result (WritesRows (R.contents source.old).bytes self.now.format.order
            (view.page self.now.format.page.now) self.now.format.color self.now.index
            band.destination.stride band.destination.top band.destination.left band.from band.to
            (W.bytes sink.old) (W.bytes sink.new)) }
        ensures answer { Answers (λ _. tt) result
            (fail_if (rows_short (R.contents source.old).bytes self.now.format.order
            (view.page self.now.format.page.now) self.now.format.color self.now.index band.to)
            (tiff.IoError io.UnexpectedEof)) (R.failures source.old) (R.failures source.new) }
        ensures asked { ReadsOnly (ChunkReadable (R.contents source.old)
            (view.page self.now.format.page.now) self.now.format.color self.now.index) result }
    {
        let ChunkBand {
            destination,
            from,
            to,
        } = band;
        let format = self.format;
        let rows = self.height as usize;
        let len = row_len(format.page, format.color, format.width);
        let gap = self.gap(len);
        let start = from * stored_row_bytes(format.page);
        let mut cursor = self.cursor();
        cursor.pass(source, start as u64)?;
        for row in from..to {
            let to_row = destination.top + (row - from);
            let at = to_row * destination.stride + destination.left;
            let next = RowTarget { format, len, at };
            sink.row(source, &mut cursor, &next)?;
            cursor.pass(source, gap_behind(gap, row, rows))?;
        }
        Ok(())
    }

    // Whether the rows lie together: they follow one another in the chunk's data and in the
    // sink, all of their bytes are output, and no byte is summed with others of its row.
    fn is_contiguous(&self, destination: Destination) -> bool
        ensures { IsTrue result ↔ LieTogether (view.page self.now.format.page.now)
            self.now.format.color (row_bytes (view.page self.now.format.page.now)
            self.now.format.color (rect (view.page self.now.format.page.now) self.now.index).width)
            destination.left destination.stride }
    {
        let page = self.format.page;
        let len = row_len(page, self.format.color, self.format.width);
        destination.left == 0
            && destination.stride == len
            && stored_row_bytes(page) == len
            && !needs_whole_rows(page, self.format.color)
            && matches!(page.predictor, Predictor::None)
    }

    /// Reads all rows of the chunk into a sink, which gets zeros where it has too few bytes: many
    /// at a time if they lie together, else one by one.
    pub(crate) fn rows<R: Source, W: RowSink>(
        &self,
        source: &mut R,
        destination: Destination,
        sink: &mut W,
    ) -> TiffResult<()>
        requires read { IsRead (view.page self.now.format.page.now) self.now.format.color }
        requires formed { method_fault self.now.format.page.now.method ≡ Ok tt }
        requires listed { self.now.index < length self.now.format.page.now.offsets }
        requires some { 0 < destination.stride }
        requires columns { destination.left + row_bytes (view.page self.now.format.page.now)
            self.now.format.color
            (rect (view.page self.now.format.page.now) self.now.index).width ≤ destination.stride }
        requires room { (destination.top + (rect (view.page self.now.format.page.now)
            self.now.index).height) * destination.stride ≤ W.room sink.old }
        requires few { (destination.top + (rect (view.page self.now.format.page.now)
            self.now.index).height) * destination.stride < 2 ^ 64 }
        ensures later { W.goes_on sink.old sink.new }
        ensures kept { IsKept R.contents R.failures result source.old source.new }
        ensures ok { OnOk result (GrowsByChunk (R.contents source.old).bytes self.now.format.order
            (view.page self.now.format.page.now) self.now.format.color
            self.now.index destination.stride destination.top destination.left
            (W.whole ((destination.top + (rect (view.page self.now.format.page.now)
            self.now.index).height) * destination.stride)) (W.bytes sink.old) (W.bytes sink.new)) }
        ensures answer { Answers (λ _. tt) result
            (fail_if (is_short (R.contents source.old).bytes self.now.format.order
            (view.page self.now.format.page.now) self.now.format.color self.now.index)
            (tiff.IoError io.UnexpectedEof)) (R.failures source.old) (R.failures source.new) }
        ensures asked { ReadsOnly (ChunkReadable (R.contents source.old)
            (view.page self.now.format.page.now) self.now.format.color self.now.index) result }
    {
        let format = self.format;
        let rows = self.height as usize;
        if self.is_contiguous(destination) {
            let mut cursor = self.cursor();
            let swapped = needs_swap(format.order, format.page);
            let long = if swapped { SHORT_ROWS } else { W::LONG_ROWS };
            let most = rows_at_once(&cursor, destination.stride, long);
            let mut row = 0;
            while row < rows {
                let more = most.min(rows - row);
                let at = (destination.top + row) * destination.stride;
                let len = more * destination.stride;
                let next = RowTarget { format, len, at };
                sink.rows(source, &mut cursor, &next)?;
                row += more;
            }
            return Ok(());
        }
        sink.zeros_to((destination.top + rows) * destination.stride)?;
        let all = ChunkBand {
            destination,
            from: 0,
            to: rows,
        };
        self.separate_rows(source, all, sink)
    }
}

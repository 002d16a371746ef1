//! The reader of a page, what it is asked for, and how it reads chunks: one of one or several
//! planes, those of an image one after another, or the tiles that lie side by side some rows of
//! each at a time.
//!
//! So rows of the image are read one after another, and the tiles write to the same pages of memory
//! soon after one another, which is faster.

ghost use Rattle.std.specs.Prelude.{◌≡◌, ◌+◌, ◌*◌, ◌<◌, ◌≤◌, ◌^◌, ℕ, Ok, OnOk, ◌-◌, IsTrue, length};
ghost use Rattle.tiff_base.specs.Answers.{Answers, ReadsOnly, IsKept};
ghost use Rattle.tiff_page.specs.Layout.{color_of, layout_of};
ghost use Rattle.tiff_page.specs.PixelFault.{chunk_fault, each_below, form_fault};
ghost use Rattle.tiff_page.specs.Pixels.{is_short};
ghost use Rattle.tiff_page.specs.BufferPositions.{GrowsByPlanes, HasRoom, left_of, top_of, filled_to};
ghost use Rattle.tiff_page.specs.Samples.{RequestReadable, IsLaidImage, request_bytes};
ghost use Rattle.tiff_page.specs.declared.samples.ReadRequest.TheVariants as request;
ghost use Rattle.tiff_page.specs.PageView as view;
ghost use Rattle.tiff_page.specs.ChunkBands.{AreBanded, AreTileRows, GrowsByRows, PutsImageRows, rows_fault, tiles_fault};
ghost use Rattle.tiff_page.specs.Rect as rects;

use crate::chunk_rows::{ChunkBand, ChunkReader, Destination};
use crate::faults::{form_fault, is_packed};
use crate::layout::{
    PlaneLayout, chunk_data_dimensions, chunks_across, chunks_of_plane, rect, row_bits,
    stored_row_bytes,
};
use crate::output_row::RowFormat;
use crate::page::Page;
use crate::row_sink::{ByteList, RowSink};
use std::alloc::Global;
use tiff_base::color::ColorType;
use tiff_base::error::TiffResult;
use tiff_base::io::Source;
use tiff_base::tags::ByteOrder;
use tiff_ifd::limits::Limits;

/// Reads the pixels of a page.
#[derive(Clone, Copy)]
pub struct PageReader<'a> {
    pub alloc: Global,
    pub order: ByteOrder,
    pub page: &'a Page,
    pub limits: &'a Limits,
}

/// A number of planes of an image, with the layout of a plane.
#[derive(Clone, Copy, Debug)]
pub struct ImagePlanes {
    pub layout: PlaneLayout,
    pub planes: u16,
}

// The chunk with this index of each of `planes` planes, in a color. That of the first plane goes to
// `first`, and that of each next plane `rows` rows below.
#[derive(Clone, Copy, Debug)]
pub(crate) struct PlaneChunks {
    pub(crate) color: ColorType,
    pub(crate) index: u32,
    pub(crate) planes: u16,
    pub(crate) first: Destination,
    pub(crate) rows: u32,
}

/// Returns where a chunk of a plane goes in a sink for the planes of an image.
pub(crate) fn image_destination(
    page: &Page,
    layout: PlaneLayout,
    plane: u16,
    chunk: u32,
) -> Destination
    requires { chunk < rects.chunks_of_plane (view.page page.now) }
    ensures top { result.top ≡ top_of (view.page page.now) layout.color layout.row_bytes plane chunk }
    ensures left { result.left ≡ left_of (view.page page.now) layout.color layout.row_bytes plane chunk }
    ensures stride { result.stride ≡ layout.row_bytes }
{
    let rect = rect(page, chunk);
    let height = page.height as usize;
    Destination {
        top: usize::from(plane) * height + rect.y as usize,
        // Exact: `layout_of` refuses chunks side by side whose rows aren't of whole bytes.
        left: row_bits(page, layout.color, rect.x as u32) / 8,
        stride: layout.row_bytes,
    }
}

// The number of bytes of rows of an image that go through a scratch buffer at once. It has to stay
// in the processor's second cache.
const SCRATCH: usize = 262144;

// The number of bytes of a tile that are read at once straight to their positions: those that a
// `BufferedSource` reads at once.
const PIECE: usize = 8192;

// The least number of bytes of a tile that are read at once, if it has more. A source that reads
// ahead, as `BufferedSource`, reads at most as many bytes again.
const LEAST: usize = 6144;

// Rows of a tile of fewer bytes go through the scratch buffer, as whole rows of the image: written
// straight to their places, each waits until the memory of its row is in the cache.
const SHORT: usize = 320;

// A chunk of a part of an image: of each of its planes, the chunk with this index.
#[derive(Clone, Copy, Debug)]
struct ChunkRequest {
    part: ImagePlanes,
    chunk: u32,
}

// Rows of the tiles side by side in an image from chunk `first` on: from row `from` of each of them
// on, below row `to`. The first of them goes to row `top` of a sink.
#[derive(Clone, Copy, Debug)]
struct TileRowPart {
    layout: PlaneLayout,
    first: u32,
    from: usize,
    to: usize,
    top: usize,
}

// Whether the rows of the tiles of a page go to a sink through the scratch buffer. The bytes that
// are read don't depend on it.
fn uses_scratch<W: RowSink>(page: &Page) -> bool {
    W::GROWS || stored_row_bytes(page) < SHORT
}

// Returns how many rows of each of the tiles side by side are read at once, if tiles are, at least
// 1: as many rows of the image as fit into the scratch buffer, or as many of a tile as a piece has.
fn rows_of_piece<W: RowSink>(page: &Page, row_bytes: usize) -> usize
    requires { 0 < row_bytes }
    ensures { 0 < result }
{
    let rows = if uses_scratch::<W>(page) {
        SCRATCH / row_bytes
    } else {
        PIECE / stored_row_bytes(page).max(1)
    };
    rows.max(1)
}

// Returns how many rows of each of the tiles side by side are read at once, if the image has
// `row_bytes` bytes a row; 0 if the tiles are read one by one. The bytes that are read don't
// depend on it.
fn tile_rows_at_once<W: RowSink>(page: &Page, row_bytes: usize) -> usize
    requires { 0 < row_bytes }
{
    let rows = rows_of_piece::<W>(page, row_bytes);
    let several = if uses_scratch::<W>(page) {
        row_bytes <= SCRATCH
    } else {
        // Where a whole tile fits into a piece, tile by tile is the same with fewer tests.
        rows < page.chunk_height as usize
    };
    if several { rows } else { 0 }
}

impl PageReader<'_> {
    /// Reads the chunk of each plane. Returns the first error.
    pub(crate) fn plane_chunks<R: Source, W: RowSink>(
        &self,
        source: &mut R,
        next: PlaneChunks,
        sink: &mut W,
    ) -> TiffResult<()>
        requires colored { color_of (view.page self.now.page.now) ≡ Ok next.color }
        requires top { next.first.top ≤ next.rows }
        requires fits { (plane : ℕ) → plane < next.planes
            → form_fault (view.page self.now.page.now) self.now.limits.now next.color
            (plane * rects.chunks_of_plane (view.page self.now.page.now) + next.index) ≡ Ok tt
            → HasRoom (view.page self.now.page.now) next.color next.first.stride next.rows
            next.first.top next.first.left
            (plane * rects.chunks_of_plane (view.page self.now.page.now) + next.index) }
        requires room { next.planes * (next.rows * next.first.stride) ≤ W.room sink.old }
        requires few { next.planes * (next.rows * next.first.stride) < 2 ^ 64 }
        ensures later { W.goes_on sink.old sink.new }
        ensures kept { IsKept R.contents R.failures result source.old source.new }
        ensures ok { OnOk result
            (GrowsByPlanes (R.contents source.old).bytes self.now.order (view.page self.now.page.now)
            next.color next.index next.first.stride next.rows next.first.top next.first.left
            next.planes (W.whole (next.planes * (next.rows * next.first.stride)))
            (W.bytes sink.old) (W.bytes sink.new)) }
        ensures answer { Answers (λ _. tt) result (each_below (λ plane. chunk_fault
            (view.page self.now.page.now) self.now.limits.now (is_short (R.contents source.old).bytes
            self.now.order (view.page self.now.page.now) next.color) next.color
            (plane * rects.chunks_of_plane (view.page self.now.page.now) + (0 + next.index)))
            next.planes) (R.failures source.old) (R.failures source.new) }
        ensures asked { ReadsOnly (RequestReadable (R.contents source.old) self.now
            (request.Chunks next.color next.index next.planes next.first.stride)) result }
    {
        let page = self.page;
        let in_plane = chunks_of_plane(page) as usize;
        for plane in 0..next.planes {
            let index = usize::from(plane) * in_plane + next.index as usize;
            form_fault(page, self.limits, next.color, index)?;
            let (width, height) = chunk_data_dimensions(page, index as u32);
            let format = RowFormat {
                page,
                order: self.order,
                color: next.color,
                width,
            };
            let reader = ChunkReader {
                format,
                index: index as u32,
                height,
            };
            let destination = Destination {
                top: usize::from(plane) * next.rows as usize + next.first.top,
                ..next.first
            };
            reader.rows(source, destination, sink)?;
        }
        Ok(())
    }

    // Whether each of the chunks side by side from chunk `first` on passes the checks of its form.
    fn are_formed(&self, color: ColorType, first: u32) -> bool
        ensures { IsTrue result → (column : ℕ) → column < rects.across (view.page self.now.page.now)
            → form_fault (view.page self.now.page.now) self.now.limits.now color
            (first + column) ≡ Ok tt }
    {
        for column in 0..chunks_across(self.page) {
            let index = first as usize + column as usize;
            if form_fault(self.page, self.limits, color, index).is_err() {
                return false;
            }
        }
        true
    }

    // Whether the chunks side by side from a chunk on are read `rows` rows of each at a time, by
    // `tile_row`. They are not if the source would be asked for few bytes at a time, or if data
    // are decompressed, which is done from the start of a chunk. The bytes that are read don't
    // depend on it.
    fn is_banded(&self, part: ImagePlanes, first: u32, rows: usize) -> bool
        ensures { IsTrue result → AreBanded (view.page self.now.page.now) self.now.limits.now
            part.layout.color part.planes first }
    {
        let page = self.page;
        let across = chunks_across(page);
        let stored = stored_row_bytes(page);
        part.planes == 1
            && across > 1
            && u64::from(first) % across == 0
            && !is_packed(page.method)
            && (rows >= page.chunk_height as usize || rows.saturating_mul(stored) >= LEAST)
            && stored.checked_mul(page.chunk_height as usize).is_some()
            // If one has an error of its form, they are read one by one up to it.
            && self.are_formed(part.layout.color, first)
    }

    // Reads rows of tiles that lie side by side, as they are in the image, into rows that the sink
    // has.
    fn tile_row_part<R: Source, W: RowSink>(
        &self,
        source: &mut R,
        part: TileRowPart,
        sink: &mut W,
    ) -> TiffResult<()>
        requires tiles { AreTileRows (view.page self.now.page.now) self.now.limits.now part.layout
            part.first part.from part.to }
        requires there { (part.top + (part.to - part.from)) * part.layout.row_bytes
            ≤ length (W.bytes sink.old) }
        requires few { (part.top + (part.to - part.from)) * part.layout.row_bytes < 2 ^ 64 }
        ensures later { W.goes_on sink.old sink.new }
        ensures kept { IsKept R.contents R.failures result source.old source.new }
        ensures ok { OnOk result (PutsImageRows (R.contents source.old).bytes
            self.now.order (view.page self.now.page.now) part.layout.color part.layout.row_bytes
            ((rects.rect (view.page self.now.page.now) part.first).y + part.from)
            (part.to - part.from) part.top (W.bytes sink.old) (W.bytes sink.new)) }
        ensures answer { Answers (λ _. tt) result
            (rows_fault (R.contents source.old).bytes self.now.order (view.page self.now.page.now)
            part.layout.color part.first part.to) (R.failures source.old) (R.failures source.new) }
        ensures asked { ReadsOnly (RequestReadable (R.contents source.old) self.now
            (request.Image part.layout 1)) result }
    {
        let page = self.page;
        for column in 0..chunks_across(page) {
            let index = part.first + column as u32;
            let (width, height) = chunk_data_dimensions(page, index);
            let format = RowFormat {
                page,
                order: self.order,
                color: part.layout.color,
                width,
            };
            let reader = ChunkReader {
                format,
                index,
                height,
            };
            let place = image_destination(page, part.layout, 0, index);
            let rows = ChunkBand {
                destination: Destination {
                    top: part.top,
                    ..place
                },
                from: part.from,
                to: part.to,
            };
            reader.separate_rows(source, rows, sink)?;
        }
        Ok(())
    }

    // Reads rows of tiles that lie side by side to their rows in the sink, straight or by way of a
    // scratch buffer. The sink gets zeros where it has too few bytes.
    fn image_rows<R: Source, W: RowSink>(
        &self,
        source: &mut R,
        part: TileRowPart,
        scratch: &mut ByteList,
        sink: &mut W,
    ) -> TiffResult<()>
        requires tiles { AreTileRows (view.page self.now.page.now) self.now.limits.now part.layout
            part.first part.from part.to }
        requires top { part.top ≡ (rects.rect (view.page self.now.page.now) part.first).y + part.from }
        requires fits { (part.top + (part.to - part.from)) * part.layout.row_bytes
            ≤ part.layout.plane_stride }
        requires room { part.layout.plane_stride ≤ W.room sink.old }
        ensures later { W.goes_on sink.old sink.new }
        ensures kept { IsKept R.contents R.failures result source.old source.new }
        ensures ok { OnOk result
            (GrowsByRows (R.contents source.old).bytes self.now.order (view.page self.now.page.now)
            part.layout.color part.layout.row_bytes part.top (part.top + (part.to - part.from))
            (W.whole part.layout.plane_stride) (W.bytes sink.old) (W.bytes sink.new)) }
        ensures answer { Answers (λ _. tt) result
            (rows_fault (R.contents source.old).bytes self.now.order (view.page self.now.page.now)
            part.layout.color part.first part.to) (R.failures source.old) (R.failures source.new) }
        ensures asked { ReadsOnly (RequestReadable (R.contents source.old) self.now
            (request.Image part.layout 1)) result }
    {
        let end = part.top + (part.to - part.from);
        if uses_scratch::<W>(self.page) {
            let len = (part.to - part.from) * part.layout.row_bytes;
            scratch.bytes.resize(len, 0)?;
            self.tile_row_part(source, TileRowPart { top: 0, ..part }, scratch)?;
            let at = part.top * part.layout.row_bytes;
            sink.place(at, &scratch.bytes)?;
            return Ok(());
        }
        sink.zeros_to(end * part.layout.row_bytes)?;
        self.tile_row_part(source, part, sink)?;
        Ok(())
    }

    // Reads the row of tiles that begins with a chunk, some rows of each at a time. Returns
    // `IoError(UnexpectedEof)` if the data of one of the tiles are too few.
    fn tile_row<R: Source, W: RowSink>(
        &self,
        source: &mut R,
        next: ChunkRequest,
        scratch: &mut ByteList,
        sink: &mut W,
    ) -> TiffResult<()>
        requires laid { layout_of (view.page self.now.page.now) self.now.page.now.width
            self.now.page.now.height ≡ Ok (view.layout next.part.layout) }
        requires banded { AreBanded (view.page self.now.page.now) self.now.limits.now
            next.part.layout.color next.part.planes next.chunk }
        requires room { next.part.layout.plane_stride ≤ W.room sink.old }
        requires chunk { next.chunk < rects.chunks_of_plane (view.page self.now.page.now) }
        ensures later { W.goes_on sink.old sink.new }
        ensures kept { IsKept R.contents R.failures result source.old source.new }
        ensures ok { OnOk result
            (GrowsByRows (R.contents source.old).bytes self.now.order (view.page self.now.page.now)
            next.part.layout.color next.part.layout.row_bytes
            (rects.rect (view.page self.now.page.now) next.chunk).y
            ((rects.rect (view.page self.now.page.now) next.chunk).y
            + (rects.rect (view.page self.now.page.now) next.chunk).height)
            (W.whole next.part.layout.plane_stride) (W.bytes sink.old) (W.bytes sink.new)) }
        ensures answer { Answers (λ _. tt) result
            (tiles_fault (R.contents source.old).bytes self.now.order (view.page self.now.page.now)
            next.part.layout.color next.chunk) (R.failures source.old) (R.failures source.new) }
        ensures asked { ReadsOnly (RequestReadable (R.contents source.old) self.now
            (request.Image next.part.layout 1)) result }
    {
        let layout = next.part.layout;
        let place = rect(self.page, next.chunk);
        let (top, height) = (place.y as usize, place.height as usize);
        let most = rows_of_piece::<W>(self.page, layout.row_bytes);
        let mut from = 0;
        while from < height {
            let to = from + most.min(height - from);
            let rows = TileRowPart {
                layout,
                first: next.chunk,
                from,
                to,
                top: top + from,
            };
            self.image_rows(source, rows, scratch, sink)?;
            from = to;
        }
        Ok(())
    }

    /// Reads all chunks of an image, in `part.planes` planes one after another. Returns the first
    /// error: that of the first chunk, and in it of the first plane, that has one.
    pub(crate) fn image<R: Source, W: RowSink>(
        &self,
        source: &mut R,
        part: ImagePlanes,
        sink: &mut W,
    ) -> TiffResult<()>
        requires laid { IsLaidImage (view.page self.now.page.now) part.layout part.planes }
        requires room { part.planes * part.layout.plane_stride ≤ W.room sink.old }
        requires few { part.planes * part.layout.plane_stride < 2 ^ 64 }
        ensures later { W.goes_on sink.old sink.new }
        ensures kept { IsKept R.contents R.failures result source.old source.new }
        ensures answer { (total : ℕ) → W.whole (part.planes * part.layout.plane_stride) ≤ total
            → Answers (λ _. filled_to total (W.bytes sink.new)) result
            (request_bytes (R.contents source.old).bytes self.now (request.Image part.layout part.planes)
            (filled_to total (W.bytes sink.old))) (R.failures source.old) (R.failures source.new) }
        ensures asked { ReadsOnly (RequestReadable (R.contents source.old) self.now
            (request.Image part.layout part.planes)) result }
    {
        let chunks = chunks_of_plane(self.page);
        let rows = tile_rows_at_once::<W>(self.page, part.layout.row_bytes);
        let mut scratch = ByteList::new(self.alloc, Vec::new(self.alloc));
        let mut chunk = 0;
        while chunk < chunks {
            if self.is_banded(part, chunk, rows) {
                let next = ChunkRequest { part, chunk };
                self.tile_row(source, next, &mut scratch, sink)?;
                chunk += chunks_across(self.page) as u32;
            } else {
                let next = PlaneChunks {
                    color: part.layout.color,
                    index: chunk,
                    planes: part.planes,
                    first: image_destination(self.page, part.layout, 0, chunk),
                    rows: self.page.height,
                };
                self.plane_chunks(source, next, sink)?;
                chunk += 1;
            }
        }
        Ok(())
    }
}

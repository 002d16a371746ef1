//! The number and the size of the page's chunks, and the layout of buffers for its samples.

ghost use Rattle.std.specs.Prelude.{◌≡◌, ◌<◌, IfOk, IfSome};
ghost use Rattle.tiff_decode.specs.Machine.{FollowsOrFaults, FollowsWithoutEither};
ghost use Rattle.tiff_decode.specs.Outcome as outcome;
ghost use Rattle.tiff_page.specs.Laws.{HasSides};

use crate::decoder::Decoder;
use tiff_base::color::ChunkType;
use tiff_base::error::TiffResult;
use tiff_base::io::Source;
use tiff_page::layout::{BufferLayoutPreference, TiffCodingUnit};
use tiff_page::{buffers, counts, layout};

/// These calls do not read the file, and leave the decoder unchanged.
impl<R: Source> Decoder<R> {
    /// States in its contract that the page of each decoder and its chunks are at least one pixel
    /// wide and high, and that a pixel has at least one sample of at least one bit. Does nothing.
    pub fn has_sides(&self)
        ensures sides { HasSides self.now.state.page }
        ensures sampled { 0 < self.now.state.page.samples }
        ensures has_bits { 0 < self.now.state.page.depth }
    {
        let _page = &self.page;
    }

    /// Whether the page has strips or tiles.
    pub fn get_chunk_type(&self) -> ChunkType
        ensures { result ≡ outcome.get_chunk_type self.now }
    {
        self.page.chunk_type
    }

    /// The number of strips of all planes. Returns `InvalidChunkType(Strip, Tile)` for a page of
    /// tiles, and `IntSizeError` where the height plus the rows of a strip minus one is more than
    /// `u32::MAX`.
    #[tactic(auto, unfolding(crate::specs::Outcome::strip_count))]
    pub fn strip_count(&mut self) -> TiffResult<u32>
        ensures { FollowsWithoutEither (λ n. n) (outcome.strip_count self.old) result self.old
            self.new }
    {
        counts::strip_count(&self.page)
    }

    /// The number of tiles of all planes. Returns `InvalidChunkType(Tile, Strip)` for a page of
    /// strips.
    #[tactic(auto, unfolding(crate::specs::Outcome::tile_count))]
    pub fn tile_count(&mut self) -> TiffResult<u32>
        ensures { FollowsWithoutEither (λ n. n) (outcome.tile_count self.old) result self.old
            self.new }
    {
        counts::tile_count(&self.page)
    }

    /// The width and the height of a chunk in pixels, as the tags define them. Chunks at the edges
    /// of the image are not cropped.
    pub fn chunk_dimensions(&self) -> (u32, u32)
        ensures { result ≡ outcome.chunk_dimensions self.now }
    {
        counts::chunk_dimensions(&self.page)
    }

    /// The width and the height of a chunk in pixels, cropped to the image. The index counts modulo
    /// the number of chunks of a plane.
    pub fn chunk_data_dimensions(&self, chunk_index: u32) -> (u32, u32)
        ensures { result ≡ outcome.chunk_data_dimensions self.now chunk_index }
    {
        layout::chunk_data_dimensions(&self.page, chunk_index)
    }

    /// The layout of a buffer for the image, with its planes one after another. Returns the first
    /// of these errors: `InterpretationWithBits` of the color; `LimitsExceeded` for a plane of 2^64
    /// bytes or more, or whose rows up to the stored height of a chunk have 2^64 bytes or more;
    /// `MisalignedTileBoundaries` for chunks side by side whose rows are not of whole bytes;
    /// `ChromaSubsampling` for YCbCr with fewer chroma samples; `LimitsExceeded` where all planes
    /// have 2^64 bytes or more. The `sample_type` of a page whose samples have no number type is
    /// `None`.
    #[tactic(auto, unfolding(crate::specs::Outcome::image_buffer_layout))]
    pub fn image_buffer_layout(&mut self) -> TiffResult<BufferLayoutPreference>
        ensures follows { FollowsOrFaults (λ l. l) (outcome.image_buffer_layout self.old) result self.old
            self.new }
        ensures rows { IfOk result (λ l. IfSome l.row_stride (λ n. 0 < n)) }
        ensures plane { IfOk result (λ l. IfSome l.plane_stride (λ n. 0 < n)) }
    {
        buffers::image_buffer_layout(&self.page, self.alloc)
    }

    /// The layout of a buffer for a chunk in one plane, in whole samples. The index counts modulo
    /// the number of chunks of a plane. Returns the first of these errors: those of the layout, as
    /// for the image; `UnsupportedSampleDepth` or `UnsupportedSampleFormat` of the samples;
    /// `LimitsExceeded` for 2^63 bytes or more.
    #[tactic(auto, unfolding(crate::specs::Outcome::image_chunk_buffer_layout))]
    pub fn image_chunk_buffer_layout(
        &mut self,
        chunk_index: u32,
    ) -> TiffResult<BufferLayoutPreference>
        ensures follows { FollowsOrFaults (λ l. l) (outcome.image_chunk_buffer_layout self.old chunk_index)
            result self.old self.new }
        ensures rows { IfOk result (λ l. IfSome l.row_stride (λ n. 0 < n)) }
        ensures plane { IfOk result (λ l. IfSome l.plane_stride (λ n. 0 < n)) }
    {
        buffers::image_chunk_buffer_layout(&self.page, self.alloc, chunk_index)
    }

    /// The layout of a buffer for a coding unit: on a chunky page as for the chunk, on a planar
    /// page for the chunks of all planes. On a planar page, returns the first of these errors:
    /// those of the layout, as for the image; `InvalidCodingUnit(unit, chunks)` for a unit that is
    /// not below the number of chunks of a plane.
    #[tactic(auto, unfolding(crate::specs::Outcome::image_coding_unit_layout))]
    pub fn image_coding_unit_layout(
        &mut self,
        unit: TiffCodingUnit,
    ) -> TiffResult<BufferLayoutPreference>
        ensures follows { FollowsOrFaults (λ l. l) (outcome.image_coding_unit_layout self.old unit.0) result
            self.old self.new }
        ensures rows { IfOk result (λ l. IfSome l.row_stride (λ n. 0 < n)) }
        ensures plane { IfOk result (λ l. IfSome l.plane_stride (λ n. 0 < n)) }
    {
        buffers::image_coding_unit_layout(&self.page, self.alloc, unit)
    }
}

//! The state of an open image.

ghost use Rattle.std.specs.Prelude.{◌≡◌, ◌^◌, ◌<◌, ◌≤◌, MatchOption, false, true};
ghost use Rattle.tiff_page.specs.Counts.{all_chunks, parts, planes_of};
ghost use Rattle.tiff_page.specs.Pixels.{stored_samples};
ghost use Rattle.tiff_page.specs.Rect.{chunks_of_plane};
ghost use Rattle.tiff_encode.specs.Causes.{image_samples, is_past_chunks};
ghost use Rattle.tiff_encode.specs.Chunks.{all_samples, chunk_rows, chunks_left, image_page, is_begun, is_in_order, is_left, next_chunk_sample_count, next_strip_sample_count, row_samples};
ghost use Rattle.tiff_encode.specs.Given.{StoresBytes};

use crate::encoder::directory::state::{DirectoryState, HasDirectory, Room};
use crate::encoder::image::chunks::ChunkScratch;
use crate::encoder::image::color::ImageColor;
use crate::encoder::settings::Compression;
use std::marker::{Model, PhantomData};
use tiff_base::color::ChunkType;
use tiff_base::directory::{Directory, Entry};
use tiff_base::error::TiffResult;
use tiff_base::tags::{ExtraSamples, PlanarConfiguration, Predictor, Tag};
use tiff_value::encoder::horizontal_predictor::Sample;

/// How an image is divided into chunks: strips or tiles; the width and the height of a chunk, in
/// columns and rows, where the last strip of a plane can have fewer rows; and whether a chunk
/// contains all samples of its pixels or those of one plane.
#[derive(Clone, Copy, Drop)]
pub struct ChunkLayout {
    pub chunk_type: ChunkType,
    pub chunk_width: u32,
    pub chunk_height: u32,
    pub planar: PlanarConfiguration,
}

/// A chunk in the file: its offset, and its number of bytes in the file.
#[derive(Clone, Copy, Drop)]
pub struct Chunk {
    pub offset: u64,
    pub stored: u64,
}

/// An open image: its directory; its width and height, where a column is a pixel, or a byte of
/// packed pixels; the number of pixels of a row; its extra samples, its predictor, its compression,
/// its division into chunks, the chunks in the file, and the buffers that compress chunks, which
/// stay empty if chunks aren't compressed.
#[derive(Drop)]
pub struct ImageState<T: Sample> {
    pub(crate) directory: DirectoryState,
    pub(crate) width: u32,
    pub(crate) height: u32,
    pub(crate) pixels: u32,
    pub(crate) extra: Vec<ExtraSamples>,
    pub(crate) predictor: Predictor,
    pub(crate) compression: Compression,
    pub(crate) form: ChunkLayout,
    pub(crate) chunks: Vec<Chunk>,
    pub(crate) scratch: ChunkScratch,
    pub(crate) color: ImageColor,
    pub(crate) sample: PhantomData<T>,
}

impl<T: Sample> Model for ImageState<T> {
    ghost use Rattle.std.specs.Coded.{codes};
    ghost use Rattle.std.specs.FinMap as map;
    ghost use Rattle.std.specs.Prelude.{length};
    ghost use Rattle.tiff_base.specs.Types.{type_size};
    ghost use Rattle.tiff_encode.specs.Drawn.{IsValidImage};
    ghost use Rattle.tiff_encode.specs.Machine.{OpenImage};

    ghost Value = { OpenImage };

    ghost coded = { Prim.hlevel (codes, map.code) };

    ghost view = { λ i. record {
      directory = i.directory;
      width = i.width;
      height = i.height;
      pixels = i.pixels;
      color = i.color;
      size = type_size T.value_type;
      extra = i.extra.items;
      predictor = i.predictor;
      compression = i.compression;
      form = i.form;
      chunks = i.chunks.items;
    } };

    ghost invariant = { λ i. IsValidImage i.width i.height (length i.color.bits) (length i.extra.items) i.form };
}

impl<T: Sample> HasDirectory for ImageState<T> {
    ghost use Rattle.std.specs.Prelude.{refl};
    ghost use Rattle.tiff_encode.specs.Calls.{with_directory_of};

    ghost open_directory = { λ i. i.directory };

    ghost with_directory = { with_directory_of };

    fn make_room(&mut self, tag: Tag) -> Room {
        self.directory.make_room(tag)
    }

    fn settle(&mut self, tag: Tag, room: Room, placed: TiffResult<Entry>) -> TiffResult<()> {
        self.directory.settle(tag, room, placed)
    }

    fn extend_from(&mut self, directory: &Directory) -> TiffResult<()> {
        self.directory.extend_from(directory)
    }

    ghost given_directory = { λ i d. refl };

    ghost with_its_own = { λ i. refl };
}

impl<T: Sample> ImageState<T> {
    /// Returns the number of samples of a pixel, with the extra samples.
    pub(crate) fn samples(&self) -> u64
        ensures count { result ≡ all_samples self.now }
        ensures some { 0 < result }
        ensures few { result < 2 ^ 16 }
    {
        u64::from(self.color.samples()) + self.extra.len() as u64
    }

    /// Returns whether the image has a chunk in the file.
    pub(crate) fn is_begun(&self) -> bool
        ensures { result ≡ is_begun self.now }
    {
        !self.chunks.is_empty()
    }

    /// Returns the number of samples of a pixel in a chunk.
    pub(crate) fn stored_samples(&self) -> u64
        ensures count { result ≡ stored_samples (image_page self.now) }
        ensures some { 0 < result }
        ensures few { result < 2 ^ 16 }
    {
        match self.form.planar {
            PlanarConfiguration::Planar => 1,
            _ => self.samples(),
        }
    }

    /// Returns the number of samples of a row of a chunk.
    pub(crate) fn row_samples(&self) -> u64
        ensures count { result ≡ row_samples (image_page self.now) }
        ensures few { result < 2 ^ 48 }
    {
        u64::from(self.form.chunk_width) * self.stored_samples()
    }

    // Returns the number of planes.
    fn planes(&self) -> u64
        ensures count { result ≡ planes_of self.now.form.planar (all_samples self.now) }
        ensures few { result < 2 ^ 16 }
    {
        match self.form.planar {
            PlanarConfiguration::Planar => self.samples(),
            _ => 1,
        }
    }

    // Returns the number of chunks of one plane.
    fn chunks_of_plane(&self) -> u64
        ensures { result ≡ chunks_of_plane (image_page self.now) }
    {
        let across = parts_of(self.width, self.form.chunk_width);
        let down = parts_of(self.height, self.form.chunk_height);
        across * down
    }

    // Returns the number of chunks of the image, or `None` if it is 2^64 or more.
    fn all_chunks(&self) -> Option<u64>
        ensures { MatchOption result (2 ^ 64 ≤ all_chunks (image_page self.now))
            (λ n. n ≡ all_chunks (image_page self.now)) }
    {
        self.chunks_of_plane().checked_mul(self.planes())
    }

    /// Returns whether the image has more chunks than a page can have.
    pub(crate) fn is_past_chunks(&self) -> bool
        ensures { result ≡ is_past_chunks self.now }
    {
        match self.all_chunks() {
            Some(count) => count > u64::from(u32::MAX),
            None => true,
        }
    }

    /// Returns whether a chunk is left to write.
    pub(crate) fn is_left(&self) -> bool
        ensures { result ≡ is_left self.now }
    {
        match self.all_chunks() {
            Some(count) => (self.chunks.len() as u64) < count,
            None => true,
        }
    }

    /// Returns the number of chunks that are left to write.
    pub(crate) fn chunks_left(&self) -> u64
        requires { is_past_chunks self.now ≡ false }
        ensures { result ≡ chunks_left self.now }
    {
        match self.all_chunks() {
            Some(count) => count.saturating_sub(self.chunks.len() as u64),
            None => 0,
        }
    }

    /// Returns whether the samples of the chunks, one chunk after another, are those of the image
    /// in row order.
    pub(crate) fn is_in_order(&self) -> bool
        ensures { result ≡ is_in_order self.now.form }
    {
        matches!(self.form.chunk_type, ChunkType::Strip)
            && matches!(self.form.planar, PlanarConfiguration::Chunky)
    }

    /// Returns whether each chunk is stored as the bytes of its samples: the image is neither
    /// compressed nor stored as differences.
    pub(crate) fn stores_bytes(&self) -> bool
        ensures { result ≡ true → StoresBytes self.now }
    {
        matches!(self.compression, Compression::Uncompressed)
            && matches!(self.predictor, Predictor::None)
    }

    /// Returns the number of samples of the image, or `None` if it is 2^64 or more.
    pub(crate) fn image_samples(&self) -> Option<u64>
        ensures { MatchOption result (2 ^ 64 ≤ image_samples self.now)
            (λ n. n ≡ image_samples self.now) }
    {
        let pixels = u64::from(self.width) * u64::from(self.height);
        pixels.checked_mul(self.samples())
    }

    /// Returns the number of rows of the chunk with the number `chunk`, counted from 0.
    #[tactic(auto, unfolding(tiff_page::specs::Rect::rect))]
    pub(crate) fn rows_of(&self, chunk: u64) -> u64
        ensures count { result ≡ chunk_rows (image_page self.now) chunk }
        ensures few { result < 2 ^ 32 }
    {
        let height = u64::from(self.form.chunk_height);
        match self.form.chunk_type {
            ChunkType::Tile => height,
            ChunkType::Strip => {
                let down = u64::from(self.height);
                let above = chunk % self.chunks_of_plane() * height;
                height.min(down.saturating_sub(above))
            }
        }
    }

    /// `next_chunk_sample_count`: returns the number of samples of the next chunk, at most
    /// `u64::MAX`; 0 after the last chunk.
    #[tactic(auto, unfolding(crate::specs::Chunks::next_chunk_sample_count))]
    pub(crate) fn next_samples(&self) -> u64
        ensures { result ≡ next_chunk_sample_count self.now }
    {
        if !self.is_left() {
            return 0;
        }
        self.rows_of(self.chunks.len() as u64)
            .saturating_mul(self.row_samples())
    }

    /// `next_strip_sample_count`: returns the number of samples of the next strip, at most
    /// `u64::MAX`; 0 after the last strip and for an image of tiles.
    #[tactic(auto, unfolding(crate::specs::Chunks::next_strip_sample_count))]
    pub(crate) fn next_strip_samples(&self) -> u64
        ensures { result ≡ next_strip_sample_count self.now }
    {
        match self.form.chunk_type {
            ChunkType::Tile => 0,
            ChunkType::Strip => self.next_samples(),
        }
    }
}

/// Returns how many parts of a size cover a length.
pub(crate) fn parts_of(length: u32, size: u32) -> u64
    requires { 0 < size }
    ensures count { result ≡ parts length size }
    ensures few { result ≤ length }
{
    (u64::from(length) + u64::from(size) - 1) / u64::from(size)
}

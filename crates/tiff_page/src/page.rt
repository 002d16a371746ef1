//! A page.

ghost use Rattle.std.specs.Prelude.{◌≡◌, ◌<◌, ◌≤◌, ◌^◌, length};
ghost use Rattle.tiff_page.specs.Counts.{chunk_count, planes_of};

use crate::lists::{ExtraSampleList, NumberList};
use tiff_base::color::ChunkType;
use tiff_base::tags::{
    CompressionMethod, PhotometricInterpretation, PlanarConfiguration, Predictor, SampleFormat,
};

/// The chunks of a page: their width and height, and their offsets and numbers of bytes in the
/// file.
#[derive(Drop)]
pub struct ChunkTable {
    pub chunk_width: u32,
    pub chunk_height: u32,
    pub offsets: NumberList,
    pub byte_counts: NumberList,
}

/// What the tags of a page define.
#[derive(Drop)]
pub struct Page {
    pub width: u32,
    pub height: u32,
    pub interpretation: PhotometricInterpretation,
    pub method: CompressionMethod,
    pub samples: u16,
    pub extra: ExtraSampleList,
    pub format: SampleFormat,
    pub depth: u8,
    pub predictor: Predictor,
    pub planar: PlanarConfiguration,
    pub subsampling: (u16, u16),
    pub chunk_type: ChunkType,
    pub chunk_width: u32,
    pub chunk_height: u32,
    pub offsets: NumberList,
    pub byte_counts: NumberList,
    // Ghost fields: a function that borrows a page would learn a model's invariant only by a call.
    ghost wide: { 0 < width },
    ghost high: { 0 < height },
    ghost sampled: { 0 < samples },
    ghost extras: { length extra ≤ samples },
    ghost has_bits: { 0 < depth },
    ghost chunk_wide: { 0 < chunk_width },
    ghost chunk_high: { 0 < chunk_height },
    ghost counted: { length offsets ≡ chunk_count width height chunk_width chunk_height
        (planes_of planar samples) },
    ghost counted_bytes: { length byte_counts ≡ length offsets },
    ghost few: { length offsets < 2 ^ 32 },
}

impl Page {
    /// The number of extra samples, at most that of the samples.
    pub fn extra_count(&self) -> u16
        ensures { result ≡ length self.now.extra }
    {
        self.extra.len().min(usize::from(self.samples)) as u16
    }
}

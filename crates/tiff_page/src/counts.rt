//! The number of chunks of a page, and their size.

ghost use Rattle.std.specs.Prelude.{◌≡◌};
ghost use Rattle.tiff_base.specs.Answers.{Gives};
ghost use Rattle.tiff_page.specs.Counts as counts;
ghost use Rattle.tiff_page.specs.PageView as view;

use crate::page::Page;
use tiff_base::color::ChunkType;
use tiff_base::error::{TiffError, TiffResult, UsageError};

/// Returns the number of strips of all planes. Returns `InvalidChunkType(Strip, Tile)` for a page
/// of tiles, and `IntSizeError` if the height plus the rows of a strip, less one, is above
/// `u32::MAX`.
#[tactic(auto, unfolding(crate::specs::Counts::strip_count))]
pub fn strip_count(page: &Page) -> TiffResult<u32>
    ensures { Gives (λ n. n) result (counts.strip_count (view.page page.now)) }
{
    match page.chunk_type {
        ChunkType::Strip => {
            let (height, rows) = (page.height, page.chunk_height);
            match height.checked_add(rows - 1) {
                Some(_) => Ok(page.offsets.len() as u32),
                None => Err(TiffError::IntSizeError),
            }
        }
        ChunkType::Tile => Err(UsageError::InvalidChunkType(
            ChunkType::Strip,
            ChunkType::Tile,
        ).into()),
    }
}

/// Returns the number of tiles of all planes. Returns `InvalidChunkType(Tile, Strip)` for a page
/// of strips.
#[tactic(auto, unfolding(crate::specs::Counts::tile_count))]
pub fn tile_count(page: &Page) -> TiffResult<u32>
    ensures { Gives (λ n. n) result (counts.tile_count (view.page page.now)) }
{
    match page.chunk_type {
        ChunkType::Tile => Ok(page.offsets.len() as u32),
        ChunkType::Strip => Err(UsageError::InvalidChunkType(
            ChunkType::Tile,
            ChunkType::Strip,
        ).into()),
    }
}

/// Returns the width and the height of a chunk, in pixels, as the tags define them: chunks at the
/// edges of the image aren't cut.
pub fn chunk_dimensions(page: &Page) -> (u32, u32)
    ensures { result ≡ counts.chunk_dimensions (view.page page.now) }
{
    (page.chunk_width, page.chunk_height)
}

//! Laws of how chunks are placed in a buffer. Each law is the contract of a function with an empty
//! body.

ghost use Rattle.tiff_page.specs.OutputRow.{RowHanded};
ghost use Rattle.tiff_page.specs.PositionLaws.{RowWritten, ChunkWritten, ChunksWritten, PlanesWritten, NoneWritten, ImageWritten, UnitPlaneWritten, NoPlaneWritten, UnitWritten};

/// After the rows above it, a row of a rectangle is written.
pub fn row_written()
    ensures { RowWritten }
{}

/// The rows of a chunk fill the positions of that chunk in its image.
pub fn chunk_written()
    ensures { ChunkWritten }
{}

/// After the chunks before it, a chunk of an image is written.
#[tactic(auto, using(crate::specs::lemmas::Covering::chunks_written))]
pub fn chunks_written()
    ensures { ChunksWritten }
{}

/// A chunk is written in all planes.
#[tactic(auto, using(crate::specs::lemmas::Covering::planes_written))]
pub fn planes_written()
    ensures { PlanesWritten }
{}

/// At the start, no chunk is written.
#[tactic(auto, using(crate::specs::lemmas::Covering::none_written))]
pub fn none_written()
    ensures { NoneWritten }
{}

/// The chunks of an image fill its positions.
#[tactic(auto, using(crate::specs::lemmas::Covering::image_written))]
pub fn image_written()
    ensures { ImageWritten }
{}

/// The bytes of an output row of a chunk depend only on the stored bytes of that row.
#[tactic(auto, using(crate::specs::lemmas::ChunkRows::row_handed))]
pub fn row_handed()
    ensures { RowHanded }
{}

/// After the chunks of the planes before it, the chunk of a plane is written.
pub fn unit_plane_written()
    ensures { UnitPlaneWritten }
{}

/// At the start, no plane is written.
#[tactic(auto, using(crate::specs::lemmas::Covering::no_plane_written))]
pub fn no_plane_written()
    ensures { NoPlaneWritten }
{}

/// A chunk, or the chunk of each plane, fills its positions.
#[tactic(auto, using(crate::specs::lemmas::Covering::unit_written))]
pub fn unit_written()
    ensures { UnitWritten }
{}

//! Laws of the specifications. Each law is the contract of a function with an empty body.

ghost use Rattle.tiff_page.specs.Checks.{PageHasPassed};
ghost use Rattle.tiff_page.specs.ChunkAlone.{ChunkAlone};
ghost use Rattle.tiff_page.specs.EarlyLaws.{EarlyIsAnswered};
ghost use Rattle.tiff_page.specs.Laws.{OneChunk, ChunksWithin, FirstFault, NoFault, PlacedEach, SomeBytes, ImageOfChunks, WholeRows, UnitOfChunks};
ghost use Rattle.tiff_page.specs.Row.{ComplementsInvert, BytesOfNumbers};

/// Each pixel of the image belongs to exactly one chunk of a plane.
pub fn one_chunk()
    ensures { OneChunk }
{}

/// The rectangle of a chunk has at least one pixel, and lies within the image.
#[tactic(auto, using(crate::specs::lemmas::PositionLaws::chunks_within))]
pub fn chunks_within()
    ensures { ChunksWithin }
{}

/// The error of several chunks is the first error of one of them.
pub fn first_fault()
    ensures { FirstFault }
{}

/// Several chunks have no error exactly if none of them has one.
#[tactic(auto, using(crate::specs::lemmas::PositionLaws::no_fault))]
pub fn no_fault()
    ensures { NoFault }
{}

/// Where a region is placed in a buffer, each byte of the buffer is the region's byte or unchanged.
pub fn placed_each()
    ensures { PlacedEach }
{}

/// The rows and the planes of a layout have at least one byte.
#[tactic(auto, using(crate::specs::lemmas::Planes::some_bytes))]
pub fn some_bytes()
    ensures { SomeBytes }
{}

/// The rows of a chunk are parts of the rows of the image.
#[tactic(auto, using(crate::specs::lemmas::ChunkRows::image_of_chunks))]
pub fn image_of_chunks()
    ensures { ImageOfChunks }
{}

/// A page with a layout and a supported depth has rows of whole bytes.
pub fn whole_rows()
    ensures { WholeRows }
{}

/// A coding unit contains the chunk of each plane.
#[tactic(auto, using(crate::specs::lemmas::ChunkRows::unit_of_chunks))]
pub fn unit_of_chunks()
    ensures { UnitOfChunks }
{}

/// If each byte of a row is complemented, each number of the row is complemented.
#[tactic(auto, using(crate::specs::lemmas::Rows::complements_invert))]
pub fn complements_invert()
    ensures { ComplementsInvert }
{}

/// The bytes of a row of little-endian numbers are the bytes of these numbers, the least
/// significant first.
#[tactic(auto, using(crate::specs::lemmas::Rows::bytes_of_numbers))]
pub fn bytes_of_numbers()
    ensures { BytesOfNumbers }
{}

/// An error that is found before memory is allocated for samples is the error of the call that
/// returns these samples.
#[tactic(auto, using(crate::specs::lemmas::Requests::early_is_answered))]
pub fn early_is_answered()
    ensures { EarlyIsAnswered }
{}

/// A page that the tags define passed each of its checks.
pub fn page_has_passed()
    ensures { PageHasPassed }
{}

/// Of the lists of a page, a read of one chunk depends on the chunk's own offset and byte count, on
/// how many chunks there are, and on what the color needs of the extra samples.
#[tactic(auto, using(crate::specs::lemmas::ChunkAlone::chunk_alone))]
pub fn chunk_alone()
    ensures { ChunkAlone }
{}

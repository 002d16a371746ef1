//! The laws of a decoder that goes along the pages of its file. Each law is the contract of a
//! function with an empty body.

ghost use Rattle.tiff_laws.specs.Pages.{WalkEnds, WalkGoesOn, WalkMoves, WalkOpens, WalkSeeks};

/// A decoder that was opened on a file is at the first page of the file's chain.
pub fn walk_opens()
    ensures { WalkOpens }
{}

/// A decoder that seeks a directory of the chain comes to it from wherever it is.
pub fn walk_seeks()
    ensures { WalkSeeks }
{}

/// `next_image` of an open decoder goes on to the next directory of the chain, and returns the
/// error of its page if it has one. If there is no further directory, `next_image` returns the
/// error by which the chain ends, and the decoder stays where it is and is no longer open.
pub fn walk_goes_on()
    ensures { WalkGoesOn }
{}

/// A decoder that isn't open, and to which no error of the chain was returned, is at the last
/// directory of a chain that ends by no error.
pub fn walk_ends()
    ensures { WalkEnds }
{}

/// The pointer of a decoder determines which directory of the chain it is at.
pub fn walk_moves()
    ensures { WalkMoves }
{}

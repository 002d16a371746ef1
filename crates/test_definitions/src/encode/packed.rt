//! Worked examples of images of packed pixels.
#![tactic(auto, unfolding(tiff::proofs::OnLiterals::tiff_on_literals))]

ghost use Rattle.test_definitions.specs.Encode.Packed as s;

/// The columns of an image, and the page that the reader finds.
pub fn pages()
    ensures { s.nine_columns × s.nine_bytes × s.nine_in_strip × s.nine_wide × s.strip_wide
        × s.one_deep × s.nine_gray × s.two_shown }
{}

/// The bytes that the page shows.
pub fn shown()
    ensures { s.byte_beside × s.byte_below }
{}

/// What is refused.
pub fn refused()
    ensures { s.no_tiles × s.no_extra × s.no_differences }
{}

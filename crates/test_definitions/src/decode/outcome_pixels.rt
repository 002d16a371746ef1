//! Worked examples of calls of decoders that return the facts and the pixels of a page.
#![tactic(auto, unfolding(tiff::proofs::OnLiterals::tiff_on_literals))]

ghost use Rattle.test_definitions.specs.Decode.OutcomePixels as s;

/// A decoder's facts about its page.
pub fn facts()
    ensures { s.sides × s.sides_wide × s.color × s.no_color × s.strips × s.strips_of_tiles
        × s.tiles_of_strips ×
        s.tiles × s.image_laid × s.image_unlaid × s.chunk_laid × s.chunk_unlaid × s.unit_laid × s.unit_past }
{}

/// Pixels of a page.
pub fn pixels()
    ensures { s.image_read × s.image_cut × s.image_limited × s.buffer_read × s.buffer_cut
        × s.slice_read ×
        s.slice_short × s.chunk_read × s.chunk_past × s.chunk_slice × s.chunk_slice_short × s.chunk_apart ×
        s.chunk_stride × s.unit_read × s.unit_absent }
{}

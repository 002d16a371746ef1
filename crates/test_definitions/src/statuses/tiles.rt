//! Worked examples of pages whose samples come tile by tile.
#![tactic(auto, unfolding(tiff::proofs::OnLiterals::tiff_on_literals))]

ghost use Rattle.test_definitions.specs.Statuses.Tiles as s;

/// The tiles of a page.
pub fn tiles()
    ensures { s.two_tiles × s.untiled × s.three_pieces }
{}

/// The calls that write the samples of a page.
pub fn samples()
    ensures { s.by_tiles × s.by_rows × s.half_a_sample }
{}

//! Worked examples of reads: the bytes of a source that chunk data and the checks of a page need.
#![tactic(auto, using(crate::proofs::OfPage::Reach::worked), unfolding(tiff::proofs::OnLiterals::tiff_on_literals))]

ghost use Rattle.test_definitions.specs.Page.Reach as s;

/// The bytes that chunks and parts of an image need.
pub fn chunks()
    ensures computed { s.pixel_needs × s.packed_needs × s.cut_tile_needs × s.corner_tile_needs
        × s.plane_needs }
    ensures by_lemma { s.pixel_needs_it × s.packed_needs_all × s.plane_needs_last
        × s.unit_needs_second }
{}

/// The largest number of bytes that an image and a chunk need.
pub fn costs()
    ensures { s.plane_costs × s.unit_costs × s.packed_plane_costs × s.packed_unit_costs }
{}

/// The bytes from a position in a chunk's data on.
pub fn positions()
    ensures { s.three_from_five × s.not_two_of_three × s.nothing_behind }
{}

/// The bytes that the checks of a page need.
pub fn checks()
    ensures { s.checks_entries × s.checks_placed × s.checks_placed_all × s.checks_profile
        × s.checks_sides ×
        s.checks_samples × s.checks_chunks × s.checks_asked × s.checks_asked_alone }
{}

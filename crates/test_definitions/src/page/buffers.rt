//! Worked examples of buffer layouts.
#![tactic(auto, unfolding(tiff::proofs::OnLiterals::tiff_on_literals))]

ghost use Rattle.test_definitions.specs.Page.Buffers as s;

/// Sizes and counts of chunks.
pub fn counts()
    ensures { s.long_dimensions × s.tile_dimensions × s.long_data × s.corner_data × s.past_data ×
        s.strips_of_plane × s.strips_of_planes × s.most_rows × s.too_many_rows × s.no_strips ×
        s.tiles_of_planes × s.no_tiles }
{}

/// Buffers for images, and buffers for chunks.
pub fn images()
    ensures { s.two_planes × s.three_planes × s.one_plane × s.of_12_bits × s.void_image
        × s.float_image ×
        s.void_chunk × s.largest_image × s.largest_planes × s.largest_chunk × s.largest_void × s.half_image ×
        s.half_tile × s.rounded_up × s.planar_chunk }
{}

/// Buffers for coding units, and zeros for a buffer.
pub fn units()
    ensures { s.planar_unit × s.unit_4 × s.unit_of_no_color × s.unit_too_long × s.chunky_unit
        × s.void_unit ×
        s.void_chunky_unit × s.two_zeros × s.too_many_zeros × s.zeros_of_none }
{}

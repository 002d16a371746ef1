//! Worked examples of images in tiles and in separate planes.
#![tactic(auto, unfolding(tiff::proofs::OnLiterals::tiff_on_literals))]

ghost use Rattle.test_definitions.specs.Encode.Stored as s;

/// Tiles.
pub fn tiles()
    ensures { s.four_tiles × s.first_count × s.last_count × s.no_count × s.tile_1 × s.tile_3
        × s.shown_corner ×
        s.shown_edge × s.shown_below × s.shown_last × s.tiled_tags × s.tiles_set }
{}

/// Planes in strips.
pub fn planes()
    ensures { s.three_planes × s.plane_count × s.planes × s.plane_bytes × s.plane_differences
        × s.plane_shown ×
        s.planar_tags × s.planar_set }
{}

/// Planes in tiles, and a row that is too large to be read whole.
pub fn both()
    ensures { s.twelve_tiles × s.tile_count × s.tile_5 × s.tile_shown × s.planes_tags × s.wide_color
        ×
        s.wide_unread }
{}

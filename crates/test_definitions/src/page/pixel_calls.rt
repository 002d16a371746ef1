//! Worked examples of calls that read pixels.
#![tactic(auto, unfolding(tiff::proofs::OnLiterals::tiff_on_literals))]

ghost use Rattle.test_definitions.specs.Page.PixelCalls as s;

/// Images, in a buffer and in a slice.
pub fn images()
    ensures { s.plane_read × s.both_planes × s.only_plane × s.no_third_plane × s.no_room
        × s.first_chunk_first ×
        s.plane_not_read × s.too_many_bytes × s.image_planes × s.past_count × s.past_end × s.float_8 × s.void ×
        s.tile_placed × s.image_placed }
{}

/// All planes of an image, or the first.
pub fn planes()
    ensures { s.all_planes_read × s.first_plane_read × s.no_plane_read × s.within_but_more
        × s.third_plane_cut ×
        s.third_plane_unread }
{}

/// Chunks.
pub fn chunks()
    ensures { s.chunk_of_plane × s.chunk_past_list × s.chunk_of_differences × s.dropped_read
        × s.dropped_cut ×
        s.tile_read × s.tile_cut × s.float_read × s.float_cut × s.bytes_before_method × s.method_unread ×
        s.type_before_limit × s.planes_before_type }
{}

/// Chunks in slices, and in rows with a stride.
pub fn slices()
    ensures { s.chunk_in_slice × s.chunk_of_second × s.chunk_no_room × s.void_in_slice
        × s.tile_strided ×
        s.wide_tile_rows × s.wide_tile_short × s.no_gaps × s.short_stride × s.long_stride ×
        s.long_stride_of_last × s.gaps_count × s.planes_before_stride × s.odd_stride }
{}

/// Coding units.
pub fn units()
    ensures { s.unit_read × s.unit_of_one_plane × s.unit_of_4_bits × s.unit_past × s.unit_no_room ×
        s.unit_too_long × s.chunky_unit_past × s.unit_cut }
{}

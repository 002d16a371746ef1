//! Worked examples of samples.
#![tactic(auto, unfolding(tiff::proofs::OnLiterals::tiff_on_literals))]

ghost use Rattle.test_definitions.specs.Page.Pixels as s;

/// Samples and bytes that pages show.
pub fn samples()
    ensures { s.pixel_shown × s.pixel_inverted × s.rgb_bytes × s.rgb_sample × s.rgb_horizontal ×
        s.difference_sample × s.rgb_dropped × s.rows_of_differences × s.byte_planes × s.byte_planes_of_two ×
        s.big_endian_bytes × s.big_endian_horizontal × s.inverted_4_bits × s.inverted_16_bits × s.tiles_4_bits ×
        s.packed_bytes }
{}

/// Positions in buffers, and numbers of several bytes.
pub fn buffers()
    ensures { s.tiled_bytes × s.second_row × s.in_gap × s.past_plane × s.corner × s.corner_gap
        × s.first_plane ×
        s.third_plane × s.tile_4_bits × s.planar_4_bits × s.two_numbers × s.filled_up × s.eight_bytes ×
        s.no_numbers }
{}

/// Images that are read, and the first errors of images that aren't.
pub fn images()
    ensures { s.pixel_read × s.no_samples × s.no_chunk_bytes × s.count_0 × s.pixel_cut
        × s.just_enough ×
        s.one_missing × s.tile_padding × s.tile_pixel × s.packed_cut × s.packed_within × s.wide_read ×
        s.wide_limit × s.type_first × s.limit_first × s.lzw × s.white_first × s.first_chunk × s.second_chunk }
{}

/// The errors of chunks.
pub fn faults()
    ensures { s.past_list × s.no_fault × s.depth_12 × s.rgb_4 × s.horizontal_4 × s.planes_of_uint ×
        s.planes_of_byte × s.white_float × s.white_3_bits }
{}

/// The first error of a chunk, and values that just pass.
pub fn forms()
    ensures { s.list_first × s.depth_first × s.lab_8 × s.multiband_4 × s.planes_of_4
        × s.horizontal_int ×
        s.horizontal_void × s.planes_of_float × s.bytes_within × s.bytes_past × s.packed_form × s.method_first ×
        s.white_several × s.white_4_bits }
{}

/// The errors that come before too little data.
pub fn before()
    ensures { s.data_told × s.color_told × s.planes_told × s.type_told × s.samples_told
        × s.samples_first ×
        s.bytes_told × s.lzw_told × s.white_told }
{}

//! Worked examples of checks of a page.
#![tactic(auto, unfolding(tiff::proofs::OnLiterals::tiff_on_literals))]

ghost use Rattle.test_definitions.specs.Page.Checks as s;

/// The first of two errors, and values that just pass.
pub fn orders()
    ensures { s.height_0 × s.width_0_no_height × s.width_list × s.method_7777 × s.no_samples_first ×
        s.wide_format_first × s.same_format × s.format_9 × s.wide_depth_first × s.many_depths_first ×
        s.depths_of_none × s.depths_0 × s.depth_255 × s.depth_first × s.predictor_2 }
{}

/// The later checks, and the checks of strips and tiles.
pub fn chunks()
    ensures { s.planar_first × s.subsampling_first × s.no_subsampling × s.wide_subsampling
        × s.subsampling_1_2 ×
        s.tiles_and_counts × s.rows_first × s.unequal_lists × s.two_planes × s.tile_no_length ×
        s.tile_length_0 × s.tile_width_first × s.large_tile }
{}

/// Color types.
pub fn colors()
    ensures { s.alpha_second × s.associated_alpha × s.rgb_five × s.cmyk_four × s.cmyk_alpha
        × s.cmyk_three ×
        s.ycbcr_extra × s.ycbcr_four × s.lab_color × s.white_color × s.itu_lab }
{}

/// Number types of samples, and layouts.
pub fn layouts()
    ensures { s.bits_8 × s.bits_32 × s.bits_33 × s.signed_16 × s.signed_64 × s.float_8 × s.float_64
        ×
        s.half_size × s.double_size × s.plane_too_long × s.long_first × s.half_bytes_first × s.chroma_1_2 ×
        s.chroma_jpeg }
{}

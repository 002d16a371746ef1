//! Worked examples of pages.
#![tactic(auto, unfolding(tiff::proofs::OnLiterals::tiff_on_literals))]

ghost use Rattle.test_definitions.specs.Page.Layout as s;

/// Pages that open.
pub fn pages()
    ensures { s.gray_opens × s.no_depth × s.lzw_opens × s.two_strips × s.tiles_open
        × s.too_many_tiles }
{}

/// Pages that don't open: the first error is returned.
pub fn faults()
    ensures { s.no_length × s.width_0 × s.interpretation_7 × s.no_interpretation × s.samples_0 ×
        s.too_many_extra × s.extra_9 × s.two_formats × s.no_format × s.wide_format × s.depth_0 × s.depth_256 ×
        s.two_depths × s.mixed_depths × s.predictor_4 × s.planar_3 × s.one_subsampling × s.strips_and_tiles ×
        s.no_chunks × s.half_strips × s.rows_0 × s.missing_strip × s.tile_width_0 }
{}

/// The rectangles of chunks.
pub fn chunks()
    ensures { s.chunk_0 × s.chunk_1 × s.chunk_2 × s.chunk_3 × s.chunk_7 }
{}

/// Color types, and number types of samples.
pub fn colors()
    ensures { s.rgb_color × s.rgb_alpha × s.rgb_other × s.rgb_four × s.rgb_two × s.palette_color ×
        s.gray_color × s.gray_extra × s.cmyk_five × s.lab_signed × s.bits_12 × s.bits_65 × s.float_16 ×
        s.float_24 × s.void_8 }
{}

/// Layouts, and their errors.
pub fn layouts()
    ensures { s.gray_layout × s.layout_4_bits × s.chunky_layout × s.planar_layout
        × s.layout_no_color ×
        s.layout_too_long × s.layout_half_bytes × s.layout_chroma × s.layout_whole_chroma }
{}

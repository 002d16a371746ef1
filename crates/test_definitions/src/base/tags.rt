//! Worked examples of the numbers of tags, types and other enums.
#![tactic(auto, unfolding(tiff::proofs::OnLiterals::tiff_on_literals))]

ghost use Rattle.test_definitions.specs.Base.Tags as s;

/// Numbers with a name, and numbers without one.
pub fn kinds()
    ensures { s.width_tag × s.nodata_tag × s.unknown_tag × s.short_type × s.last_type × s.type_0
        × s.type_14 ×
        s.type_15 × s.type_19 × s.short_number × s.long8_number × s.rational_size × s.undefined_size ×
        s.packbits × s.unknown_method × s.lzw_number × s.unknown_method_number × s.white_is_zero × s.itu_lab ×
        s.interpretation_7 × s.camera_raw × s.lab_number × s.in_planes × s.planar_0 × s.chunky_number ×
        s.byte_plane × s.predictor_4 × s.horizontal_number × s.no_unit × s.centimeter × s.float_format ×
        s.unknown_format × s.void_number × s.loose_alpha × s.extra_3 × s.unspecified_number × s.rgba_samples ×
        s.many_samples × s.rgba_bits × s.many_bits }
{}

/// Further numbers of the enums.
pub fn numbers()
    ensures { s.white_number × s.planar_number_2 × s.byte_plane_number × s.unknown_format_number ×
        s.loose_alpha_number }
{}

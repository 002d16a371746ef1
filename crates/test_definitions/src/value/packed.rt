//! Worked examples of color types, differences, and PackBits lists that are written.
#![tactic(auto, using(crate::proofs::OfValue::Packed::worked), unfolding(tiff::proofs::OnLiterals::tiff_on_literals))]

ghost use Rattle.test_definitions.specs.Value.Packed as s;

/// Color types.
pub fn colors()
    ensures { s.gray8 × s.gray_i16 × s.gray64_float × s.rgb16 × s.rgba8 × s.cmyk32_float × s.ycbcr8
        × s.cmyka8 × s.gray1 × s.gray4 × s.size_gray2 × s.columns_nine × s.columns_eight × s.columns_three
        × s.columns_whole ×
        s.size_gray8 × s.size_gray_i32 × s.size_rgb64 × s.size_rgba32_float }
{}

/// Rows as differences.
pub fn rows()
    ensures { s.two_pixels × s.extra_number × s.wide_numbers × s.signed_numbers × s.no_pixel
        × s.short_row ×
        s.one_pixel × s.floating_row × s.floating_no_pixel × s.two_rows × s.no_predictor × s.restored_0 ×
        s.restored_6 }
{}

/// PackBits lists that may be written, and lists that may not.
pub fn packed()
    ensures computed { s.literals_alone × s.bound_0 × s.bound_128 × s.bound_129 }
    ensures by_lemma { s.pack_one × s.pack_pairs × s.pack_literal × s.pack_128 × s.pack_129
        × s.literal_pair ×
        s.literal_three × s.with_128 × s.literal_cut × s.pack_other × s.pack_standard ×
        s.rows_packed × s.rows_across × s.row_cut }
{}

/// Bytes that are stored with a compression method.
pub fn stored()
    ensures computed { s.stored_plain × s.stored_else × s.fault_of_none × s.plain_of_none
        × s.no_fault ×
        s.plain_literal × s.three_literal × s.sparing_literal }
    ensures by_lemma { s.stored_packed }
{}

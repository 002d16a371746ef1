//! Worked examples of conversions of values, and of tag look-ups.
#![tactic(auto, using(crate::proofs::OfIfd::TagLookup::worked), unfolding(tiff::proofs::OnLiterals::tiff_on_literals))]

ghost use Rattle.test_definitions.specs.Ifd.TagLookup as s;

/// Values that are converted, and values that aren't.
pub fn conversions()
    ensures { s.u16_short × s.u16_fits × s.u16_too_great × s.u16_offset × s.u16_signed
        × s.u32_offset ×
        s.u32_fits × s.u32_too_great × s.u32_list × s.u64_fits × s.u64_rational × s.u16s_list × s.u16s_empty ×
        s.u16s_one × s.u16s_long × s.first_too_great × s.first_mistyped × s.u64s_list × s.u64s_rational ×
        s.u64s_text × s.u64s_signed }
{}

/// Tags that are found, and tags that are missing.
pub fn look_ups()
    ensures { s.width_found × s.length_missing × s.width_text × s.otherwise_1 × s.otherwise_unused ×
        s.width_required × s.length_required }
{}

/// Tags of a directory.
pub fn directories()
    ensures { s.list_read × s.list_past_end × s.single_read × s.single_missing × s.has_width
        × s.has_length }
{}

/// Bytes that a look-up needs.
pub fn needs()
    ensures { s.value_readable × s.value_unreadable × s.other_readable × s.value_asked
        × s.value_asked_alone }
{}

//! Worked examples of reads of consecutive numbers, and of texts at an offset.
#![tactic(auto, unfolding(tiff::proofs::OnLiterals::tiff_on_literals))]

ghost use Rattle.test_definitions.specs.Ifd.Stream as s;

/// Reads of consecutive numbers.
pub fn numbers()
    ensures { s.behind_read × s.behind_refused × s.short_read × s.short_turned × s.short_little ×
        s.short_stays × s.short_reordered × s.short_cut × s.short_cut_moved × s.short_refused ×
        s.short_wanting × s.short_failed × s.short_not_failed × s.short_swallowed × s.short_forgotten }
{}

/// Signed and floating-point numbers.
pub fn others()
    ensures { s.signed_read × s.signed_positive × s.float_read × s.double_read × s.bits_32
        × s.bits_64 }
{}

/// Texts at an offset.
pub fn texts()
    ensures { s.text_read × s.text_open × s.text_wild × s.text_cut × s.text_none }
{}

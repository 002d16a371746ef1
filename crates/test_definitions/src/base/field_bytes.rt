//! Worked examples of the bytes of fields.
#![tactic(auto, unfolding(tiff::proofs::OnLiterals::tiff_on_literals))]

ghost use Rattle.test_definitions.specs.Base.FieldBytes as s;

/// Bytes in an entry, bytes at the offset in an entry, and bytes that aren't in the file.
pub fn fields()
    ensures { s.inline_shorts × s.inline_front × s.placed_shorts × s.placed_rational
        × s.placed_big_endian ×
        s.inline_wide × s.placed_wide × s.no_bytes × s.past_end × s.too_many × s.just_counted }
{}

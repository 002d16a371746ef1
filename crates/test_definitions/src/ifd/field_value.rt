//! Worked examples of the values of fields.
#![tactic(auto, unfolding(tiff::proofs::OnLiterals::tiff_on_literals))]

ghost use Rattle.test_definitions.specs.Ifd.FieldValue as s;

/// Values of numbers, alone and in lists.
pub fn numbers()
    ensures { s.no_values × s.one_short × s.one_short_big_endian × s.one_long × s.one_undefined
        × s.minus_two ×
        s.one_float × s.one_byte × s.two_bytes × s.two_signed_bytes × s.five_bytes }
{}

/// Texts.
pub fn texts()
    ensures { s.text_a × s.text_one × s.text_empty × s.text_open × s.text_not_ascii × s.text_cut
        × s.text_utf8 ×
        s.text_not_utf8 × s.text_limit }
{}

/// Values at an offset, and their limits.
pub fn placed()
    ensures { s.three_shorts × s.list_limit × s.limit_first × s.past_end × s.long8_placed
        × s.long8_inline ×
        s.resolution × s.big_endian_rational × s.too_many }
{}

/// The numbers of fields.
pub fn read_as_numbers()
    ensures { s.three_numbers × s.one_number × s.numbers_limit }
{}

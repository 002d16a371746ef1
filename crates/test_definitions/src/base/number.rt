//! Worked examples of numbers, and of the bytes at an offset.
#![tactic(auto, unfolding(tiff::proofs::OnLiterals::tiff_on_literals))]

ghost use Rattle.test_definitions.specs.Base.Number as s;

/// Numbers in both byte orders, bytes at an offset, bytes that aren't in the file, and a sum of
/// differences.
pub fn numbers()
    ensures { s.one_little × s.one_big × s.two_little × s.two_big × s.four_little × s.four_big ×
        s.eight_little × s.eight_big × s.greatest × s.million × s.lowest_two × s.two_at_1 × s.one_too_many ×
        s.nothing_past_end × s.byte_past_end × s.fewer_at_end × s.number_at_1 × s.cut_number × s.put_one ×
        s.put_two × s.fifth_summed }
{}

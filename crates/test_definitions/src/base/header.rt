//! Worked examples of file headers.
#![tactic(auto, unfolding(tiff::proofs::OnLiterals::tiff_on_literals))]

ghost use Rattle.test_definitions.specs.Base.Header as s;

/// Headers that are refused, and headers that are read.
pub fn headers()
    ensures { s.marked_wrong × s.empty_file × s.one_byte × s.cut_version × s.unknown_version ×
        s.narrow_offsets × s.first_offset_0 × s.cut_offset × s.classic_little × s.classic_big_endian ×
        s.big_little × s.no_zeros }
{}

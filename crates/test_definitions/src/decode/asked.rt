//! Worked examples of the bytes that the calls of decoders ask a source for.
#![tactic(auto, using(crate::proofs::OfDecode::Asked::worked), unfolding(tiff::proofs::OnLiterals::tiff_on_literals))]

ghost use Rattle.test_definitions.specs.Decode.Asked as s;

/// Opening a file, and entering a directory.
pub fn openings()
    ensures computed { s.opens_headless }
    ensures by_lemma { s.opens × s.opens_cut × s.enters × s.enters_cut }
{}

/// The page with a number, and the next page.
pub fn pages()
    ensures computed { s.none_behind × s.back_behind }
    ensures by_lemma { s.seeks_1 × s.seeks_1_cut × s.seeks_0 × s.seeks_0_cut × s.second_behind ×
        s.second_behind_cut × s.back_behind_cut × s.seeks_back × s.seeks_back_cut }
{}

/// Reads at the offset, and reads of tags.
pub fn reads()
    ensures computed { s.here_readable × s.here_unreadable }
    ensures by_lemma { s.tag_readable × s.tag_unreadable × s.tag_in_entry }
{}

//! Worked examples of the numbers of a row after the predictor is undone.
#![tactic(auto, using(crate::proofs::OfPage::Row::worked), unfolding(tiff::proofs::OnLiterals::tiff_on_literals))]

ghost use Rattle.test_definitions.specs.Page.Row as s;

/// Numbers as the file contains them, and as sums along a row.
pub fn sums()
    ensures { s.little_second × s.big_second × s.eight_bytes × s.first_stays × s.second_summed
        × s.third_wraps ×
        s.carried }
{}

/// Numbers of byte planes.
pub fn planes()
    ensures { s.byte_summed × s.byte_first × s.joined_one × s.joined_two }
{}

/// Rows that are replaced.
pub fn rows()
    ensures computed { s.row_unturned × s.row_end_changed }
    ensures by_lemma { s.second_unturned }
{}

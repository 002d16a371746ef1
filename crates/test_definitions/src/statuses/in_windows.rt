//! Worked examples of what a call on windows of a file tells.
#![tactic(auto, using(crate::proofs::OfStatuses::InWindows::worked), unfolding(tiff::proofs::OnLiterals::tiff_on_literals))]

ghost use Rattle.test_definitions.specs.Statuses.InWindows as s;

/// The three answers of a call on windows.
pub fn answers()
    ensures refused { s.refused × s.disorder_told × s.disorder_stays }
    ensures wanted { s.wanted × s.wanted_seen × s.wanted_done × s.wanted_stays }
    ensures told { s.told }
{}

/// The entries of a directory, and the bytes of a tag.
pub fn tags()
    ensures computed { s.two_copied × s.none_copied × s.no_width }
    ensures by_lemma { s.width_bytes × s.second_byte × s.at_offset × s.no_height × s.width_listed × s.width_counted ×
        s.page_past }
{}

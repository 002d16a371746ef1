//! Worked examples of walks along chains of directories.
#![tactic(auto, using(crate::proofs::OfIfd::IfdChainWalk::worked), unfolding(tiff::proofs::OnLiterals::tiff_on_literals))]

ghost use Rattle.test_definitions.specs.Ifd.IfdChainWalk as s;

/// Steps from one directory to the next.
pub fn steps()
    ensures { s.enters_first × s.enters_second × s.enters_in_front × s.enters_other
        × s.enters_same_link ×
        s.enters_back × s.back_refused × s.cut_refused × s.second_refused × s.none_refused × s.step_first ×
        s.step_last × s.step_early × s.step_back × s.step_back_ends }
{}

/// Walks along a chain, and its end.
pub fn chains()
    ensures computed { s.begins_all × s.begins_back × s.begins_second × s.begins_ended × s.ends_all
        ×
        s.ends_early × s.ends_back × s.ends_plain }
    ensures by_lemma { s.begins_none × s.begins_one }
{}

/// Bytes that a walk needs.
pub fn needs()
    ensures computed { s.none_needed × s.whole_needed × s.link_needed × s.no_link_needed }
    ensures by_lemma { s.whole_needed_link × s.whole_needed_entry × s.link_needed_all
        × s.way_to_second ×
        s.way_to_third }
{}

//! Worked examples of lists of jobs.
#![tactic(auto, using(crate::proofs::OfEncode::JobLists::worked), unfolding(tiff::proofs::OnLiterals::tiff_on_literals))]

ghost use Rattle.test_definitions.specs.Encode.JobLists as s;

/// Lists of jobs that are called.
pub fn called()
    ensures computed { s.three_wrong }
    ensures by_lemma { s.three_jobs }
{}

/// Jobs that aren't called.
pub fn uncalled()
    ensures computed { s.no_room × s.no_room_run × s.header_swapped × s.other_cause × s.replied }
    ensures by_answer { s.header_cut × s.header_cut_run × s.header_whole }
{}

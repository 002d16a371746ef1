//! Worked examples of writes, and what each may leave.
#![tactic(auto, using(crate::proofs::OfEncode::Encoder::worked), unfolding(tiff::proofs::OnLiterals::tiff_on_literals))]

ghost use Rattle.test_definitions.specs.Encode.Encoder as s;

/// New encoders, and calls after a failed write.
pub fn encoders()
    ensures { s.begins × s.begins_behind × s.begins_failed × s.too_far × s.not_too_far × s.stopped ×
        s.not_stopped }
{}

/// Writes that fail.
pub fn faults()
    ensures computed { s.cut × s.not_cut × s.cut_swapped × s.cut_whole × s.torn × s.not_torn
        × s.torn_swapped ×
        s.header_not_cut }
    ensures by_lemma { s.header_cut }
{}

/// What the file contains.
pub fn facts()
    ensures { s.placed × s.not_placed × s.grown_one × s.listable × s.not_listable × s.leaves_header
        ×
        s.leaves_no_header }
{}

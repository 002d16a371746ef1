//! Worked examples of errors found before samples are allocated.
#![tactic(auto, unfolding(tiff::proofs::OnLiterals::tiff_on_literals))]

ghost use Rattle.test_definitions.specs.Page.EarlyFaults as s;

/// Early errors of whole images, of their planes, and of chunks.
pub fn found()
    ensures { s.claim_cut × s.claim_past_limit × s.packed_claim_cut × s.pixel_held × s.unpacked_not
        ×
        s.type_first × s.first_plane_within × s.no_plane_within × s.first_chunk_held × s.second_chunk_cut ×
        s.stride_first × s.strided_past_limit }
{}

/// Calls that may return an out-of-memory error.
pub fn wanted()
    ensures { s.claim_wants_none × s.pixel_may_want × s.end_has_no_list × s.answer_has_no_list ×
        s.method_has_no_list × s.format_has_list × s.method_wants_none × s.format_may_want ×
        s.answer_wants_none }
{}

/// Early errors of slices.
pub fn sliced()
    ensures { s.room_first × s.form_next × s.chunk_without_room × s.unit_first × s.unit_held }
{}

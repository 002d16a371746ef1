//! Worked examples of lists of decoder calls.
#![tactic(auto, using(crate::proofs::OfDecode::Steps::worked), unfolding(tiff::proofs::OnLiterals::tiff_on_literals))]

ghost use Rattle.test_definitions.specs.Decode.Steps as s;

/// One call with its reply.
pub fn one_call()
    ensures { s.sides_told × s.sides_wrong × s.other_call × s.left_elsewhere × s.failed_read ×
        s.no_failed_read × s.no_read × s.swallowed × s.moved_by_failure × s.wanting × s.none_to_enter ×
        s.not_wanting × s.color_told × s.color_wanting }
{}

/// Out-of-memory errors for samples.
pub fn samples()
    ensures { s.image_wanting × s.image_not_wanting × s.buffer_wanting × s.buffer_not_wanting ×
        s.chunk_wanting × s.chunk_not_wanting × s.strided_wanting × s.strided_not_wanting }
{}

/// Several calls with their replies.
pub fn several_calls()
    ensures computed { s.none_called × s.one_unanswered × s.one_unasked × s.two_failures
        × s.no_failures }
    ensures by_lemma { s.gray_read × s.cycle_steps × s.failing_ran }
{}

/// The results in replies.
pub fn replies()
    ensures { s.next_of_long × s.next_of_limits × s.next_of_tag × s.next_of_sides × s.fault_told ×
        s.no_fault_told × s.named × s.not_named × s.same × s.not_same × s.not_same_call × s.tells_nothing ×
        s.directory_read × s.directory_past × s.told_of × s.told_of_two × s.chunk_sides × s.told_of_big }
{}

/// Items of tags, and the buffers that refused reads leave.
pub fn items()
    ensures computed { s.no_items × s.item_missing × s.item_unasked × s.items_told
        × s.item_not_failed ×
        s.item_swallowed × s.no_list × s.buffer_held × s.buffer_emptied × s.buffer_changed }
    ensures by_lemma { s.item_told }
{}

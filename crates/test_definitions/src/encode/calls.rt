//! Worked examples of calls of the writer.
#![tactic(auto, using(crate::proofs::OfEncode::Calls::worked), unfolding(tiff::proofs::OnLiterals::tiff_on_literals))]

ghost use Rattle.test_definitions.specs.Encode.Calls as s;

/// Values in fields.
pub fn values()
    ensures { s.three_long × s.three_short × s.two_short × s.field_inline × s.field_placed
        × s.filled_two ×
        s.ragged × s.buffered × s.offset_classic × s.offset_big }
{}

/// Settings, and directories that begin.
pub fn begins()
    ensures { s.set_predictor × s.set_compression × s.begun_directory × s.padded_directory
        × s.stopped_directory ×
        s.stopped_extra }
{}

/// Tags.
pub fn tags()
    ensures computed { s.tag_short × s.tag_text × s.tag_text_big × s.tag_refused × s.tag_ops
        × s.buf_tag ×
        s.buf_refused }
    ensures by_lemma { s.tag_again }
{}

/// Fields and data.
pub fn fields()
    ensures computed { s.entry_short × s.entry_refused × s.entry_stopped × s.entry_buf
        × s.entry_buf_refused ×
        s.entry_bytes × s.entry_bytes_refused × s.data_offset × s.data_refused × s.data_buf ×
        s.data_buf_refused × s.extended_none × s.parent_set }
    ensures by_lemma { s.extended }
{}

/// Directories that are finished.
pub fn ends()
    ensures computed { s.second_chain × s.new_offset_8 × s.new_offset_0 }
    ensures by_lemma { s.first_finished × s.first_chain × s.first_big × s.first_big_length
        × s.first_calls ×
        s.second_finished × s.not_written × s.finish_ops × s.finish_alone × s.extra_offsets }
{}

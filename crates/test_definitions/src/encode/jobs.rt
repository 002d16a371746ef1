//! Worked examples of the ends of calls, and of jobs.
#![tactic(auto, using(crate::proofs::OfEncode::Jobs::worked), unfolding(tiff::proofs::OnLiterals::tiff_on_literals))]

ghost use Rattle.test_definitions.specs.Encode.Jobs as s;

/// How calls end.
pub fn ends()
    ensures computed { s.told × s.told_other × s.cut_off × s.not_cut_off × s.swapped
        × s.not_torn_off ×
        s.wanting × s.not_wanting × s.wanting_caused × s.ends_caused × s.ends_done × s.ends_uncaused ×
        s.silent_done × s.silent_short × s.refused_caused × s.refused_other }
    ensures by_answer { s.cut_whole × s.torn_off × s.torn_directory × s.taken_over × s.taken_later }
{}

/// Steps of jobs.
pub fn steps()
    ensures computed { s.cut_byte × s.cut_short × s.shorts_given × s.buffer_given × s.starts
        × s.starts_failed ×
        s.starts_empty × s.data_stepped × s.data_other × s.changes_nothing × s.changes_number ×
        s.changes_uncaused × s.extends_all × s.extends_none × s.extends_fault × s.counted × s.counted_other ×
        s.rows_refused × s.no_steps × s.missing_reply }
    ensures by_lemma { s.one_step }
{}

/// Jobs.
pub fn jobs()
    ensures computed { s.parent_named × s.parent_refused × s.parent_later × s.parent_none
        × s.ran_offsets ×
        s.ran_nothing × s.parented_22 × s.parented_none × s.parent_job × s.packed_job × s.extra_end }
    ensures by_lemma { s.directory_job × s.lost_end }
{}

/// Images of jobs, and runs.
pub fn images()
    ensures { s.samples_all × s.samples_missing × s.samples_given × s.samples_lent ×
        s.samples_left_over × s.image_seven × s.image_format ×
        s.width_tag × s.artist_tag × s.apart_step × s.page_step × s.refused_step × s.extended_step ×
        s.shown_images × s.shown_image × s.no_jobs × s.reply_missing × s.run_stands × s.run_shows }
{}

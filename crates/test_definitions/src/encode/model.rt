//! Worked examples of models of what is written, and of what calls do to them.
#![tactic(auto, using(crate::proofs::OfEncode::Model::worked), unfolding(tiff::proofs::OnLiterals::tiff_on_literals))]

ghost use Rattle.test_definitions.specs.Encode.Model as s;

/// Models, and the files that contain them.
pub fn models()
    ensures computed { s.is_in × s.is_not_in × s.header_stands × s.cut_header × s.other_target
        × s.link_4 ×
        s.no_link × s.link_8_big × s.clear × s.before × s.not_clear × s.next_to × s.overlapping × s.apart ×
        s.not_apart × s.relinked_4 × s.kept_22 × s.grows × s.grows_supplied }
    ensures by_lemma { s.past_end × s.own_22 × s.link_22 × s.whole_18 × s.overlaid × s.new_link
        × s.shrinks }
{}

/// What a file shows.
pub fn shown()
    ensures computed { s.other_kind × s.other_offset }
    ensures by_answer { s.gray_shows × s.other_sample × s.other_width }
{}

/// Fields as the file contains them, and write operations that fit.
pub fn standing()
    ensures computed { s.wide_cut × s.wide_whole × s.wide_read × s.fits_inline × s.fits_other
        × s.fits_early ×
        s.fits_no_link × s.appending × s.not_appending }
    ensures by_lemma { s.wide_listed × s.wide_stands × s.wide_as_given × s.fits_appended
        × s.fits_listed }
{}

/// What operations do to a file.
pub fn ops()
    ensures computed { s.begun_classic × s.begun_big × s.begun_bytes × s.op_appended × s.op_linked ×
        s.op_supplied × s.ops_order × s.ops_none × s.appended_both × s.appended_none × s.model_regions ×
        s.joined × s.broken_off × s.caused × s.uncaused }
    ensures by_lemma { s.model_finished }
{}

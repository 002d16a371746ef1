//! Worked examples of fields that are written in part.
#![tactic(auto, unfolding(tiff::proofs::OnLiterals::tiff_on_literals))]

ghost use Rattle.test_definitions.specs.Encode.Tagging as s;

/// Some of several fields.
pub fn in_part()
    ensures computed { s.unit_alone × s.none_stopped }
    ensures by_answer { s.all_stopped × s.left_out }
{}

/// The resolution of an image.
pub fn of_image()
    ensures computed { s.resolving_failed × s.resolving_chunk }
    ensures by_answer { s.resolving_unit × s.resolving_refused × s.resolving_far × s.resolving_all }
{}

//! Worked examples of whole images.
#![tactic(auto, using(crate::proofs::OfEncode::Open::worked), unfolding(tiff::proofs::OnLiterals::tiff_on_literals))]

ghost use Rattle.test_definitions.specs.Encode.Open as s;

/// The samples of whole images.
pub fn samples()
    ensures { s.second_pixel × s.second_row × s.last_sample × s.behind_extra }
{}

/// How samples are written.
pub fn writes()
    ensures computed { s.data_refused × s.data_changed × s.data_wanting × s.data_answered
        × s.data_few ×
        s.not_begun × s.not_begun_wanting × s.not_begun_answered × s.image_sideless }
    ensures by_lemma { s.data_whole × s.data_within × s.image_written }
{}

/// What holds a finished image.
pub fn ended()
    ensures computed { s.held_more × s.held_unwritten × s.held_nowhere }
    ensures by_lemma { s.held }
{}

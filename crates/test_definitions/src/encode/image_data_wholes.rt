//! Worked examples of whole images, and of what the file contains then.
#![tactic(auto, using(crate::proofs::OfEncode::ImageDataWholes::worked), unfolding(tiff::proofs::OnLiterals::tiff_on_literals))]

ghost use Rattle.test_definitions.specs.Encode.ImageDataWholes as s;

/// Samples of an image that has begun.
pub fn data()
    ensures computed { s.data_refused × s.data_changed }
    ensures by_answer { s.data_left × s.data_other }
{}

/// The end of an image with its chunk.
pub fn finished()
    ensures { s.end_shown × s.end_other × s.end_unchained }
{}

/// Whole images.
pub fn images()
    ensures computed { s.image_unlinked × s.image_refused × s.image_sideless × s.image_changed }
    ensures by_answer { s.image_left × s.image_other × s.image_wider }
{}

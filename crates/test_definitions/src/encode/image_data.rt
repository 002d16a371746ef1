//! Worked examples of chunks of an open image.
#![tactic(auto, using(crate::proofs::OfEncode::ImageData::worked), unfolding(tiff::proofs::OnLiterals::tiff_on_literals))]

ghost use Rattle.test_definitions.specs.Encode.ImageData as s;

/// Chunks one after another.
pub fn several()
    ensures computed { s.first_alone × s.other_bytes × s.only_counted × s.not_counted
        × s.refused_counted ×
        s.refused_stands × s.both_wanting }
    ensures by_lemma { s.both_written × s.second_refused × s.second_cut × s.second_wanting }
{}

/// What one chunk leaves.
pub fn one()
    ensures { s.chunk_left × s.chunk_other × s.chunk_uncounted × s.chunk_link × s.chunk_counted ×
        s.chunk_refused × s.chunk_changed }
{}

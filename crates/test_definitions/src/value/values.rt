//! Worked examples of values that are written, and of chunks of an image.
#![tactic(auto, using(crate::proofs::OfValue::Values::worked), unfolding(tiff::proofs::OnLiterals::tiff_on_literals))]

ghost use Rattle.test_definitions.specs.Value.Values as s;

/// Values, and numbers in a kind of file.
pub fn values()
    ensures { s.value_given × s.is_value × s.is_not_value × s.value_refused × s.value_writable ×
        s.value_pushed × s.value_not_alone × s.text_not_pushed × s.text_push_not_wanting × s.bytes_three ×
        s.bytes_most × s.value_writes × s.value_writes_not × s.wanting × s.refused × s.text_not_wanting ×
        s.value_stopped × s.value_not_wanting × s.value_not_refused × s.not_refused × s.buffer_of_short ×
        s.buffer_refused × s.offset_past × s.offset_not_past }
{}

/// Bytes that are stored with a compression method.
pub fn stores()
    ensures computed { s.plain_takes_none × s.packing_takes × s.stores_none × s.stores_miscounted ×
        s.packs_none × s.plain_wants_none }
    ensures by_lemma { s.packs_one }
{}

/// Rows of samples as differences.
pub fn rows()
    ensures { s.row_of_bytes × s.row_of_floats × s.row_added × s.row_refused × s.row_not_lost }
{}

/// The places of chunks in an image.
pub fn chunks()
    ensures { s.eight_chunks × s.four_chunks × s.corner_row × s.corner_bytes × s.corner_at_chunk ×
        s.corner_at_image × s.corner_found × s.plane_found × s.edge_found × s.corner_unit }
{}

//! Worked examples of calls of decoders that return the tags of a page.
#![tactic(auto, using(crate::proofs::OfDecode::OutcomeQueries::worked), unfolding(tiff::proofs::OnLiterals::tiff_on_literals))]

ghost use Rattle.test_definitions.specs.Decode.OutcomeQueries as s;

/// Values of the tags of a page.
pub fn tags()
    ensures { s.value_found × s.value_none × s.unsigned_found × s.unsigned_text × s.unsigned_list ×
        s.unsigned_float × s.value_got × s.value_missing × s.number_got × s.number_missing × s.u32_got ×
        s.u32_too_great × s.u64_got × s.u64_text × s.f32_got × s.f32_short × s.f64_got × s.f64_float }
{}

/// Lists and texts of the tags of a page.
pub fn lists()
    ensures { s.u32s_got × s.u32s_float × s.u16s_got × s.u16s_rational × s.u64s_got × s.u64s_float ×
        s.f32s_got × s.f32s_long × s.f64s_got × s.f64s_float × s.bytes_got × s.bytes_inline × s.text_got ×
        s.text_number }
{}

/// Fields and their bytes.
pub fn fields()
    ensures { s.field_got × s.field_none × s.buffer_found × s.buffer_none × s.slice_from_4
        × s.slice_from_8 ×
        s.slice_none }
{}

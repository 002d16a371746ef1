//! Worked examples of tag queries in a directory: numbers, all tags, and bytes.
#![tactic(auto, using(crate::proofs::OfIfd::TagQueries::worked), unfolding(tiff::proofs::OnLiterals::tiff_on_literals))]

ghost use Rattle.test_definitions.specs.Ifd.TagQueries as s;

/// Numbers of tags.
pub fn numbers()
    ensures { s.width_fits × s.width_too_great × s.width_no_number × s.width_none × s.widths_fit ×
        s.widths_too_great × s.widths_no_number × s.widths_none × s.width_got × s.width_got_not × s.float_got ×
        s.float_got_not }
{}

/// Tags by their numbers, and all tags of a directory.
pub fn items()
    ensures computed { s.tag_256 × s.tag_42113 × s.tag_531 × s.tag_0 × s.tag_65000 }
    ensures by_lemma { s.three_items × s.fault_between × s.no_items }
{}

/// Raw bytes, and the content of a buffer after a refusal.
pub fn buffers()
    ensures { s.raw_longs × s.raw_short × s.raw_limit × s.raw_at_limit × s.raw_past_end
        × s.raw_limit_first ×
        s.raw_too_many × s.held × s.not_held }
{}

/// Parts of a value's bytes.
pub fn parts()
    ensures { s.part_at_4 × s.part_at_7 × s.part_at_8 × s.part_inline × s.part_of_cut × s.part_cut ×
        s.part_of_none × s.part_past_u64 × s.part_at_last × s.part_end_first × s.part_too_many }
{}

/// Numbers of a field, read alone.
pub fn lone_numbers()
    ensures { s.number_second × s.number_of_cut × s.number_cut × s.number_inline × s.number_past ×
        s.number_of_byte }
{}

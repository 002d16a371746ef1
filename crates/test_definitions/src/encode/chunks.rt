//! Worked examples of calls that write images.
#![tactic(auto, unfolding(tiff::proofs::OnLiterals::tiff_on_literals))]

ghost use Rattle.test_definitions.specs.Encode.Chunks as s;

/// New images, and their tags.
pub fn begins()
    ensures { s.gray_begun × s.gray_begun_big × s.no_side × s.rows_300 × s.rows_packed × s.rows_alone × s.tags_gray
        ×
        s.tags_ycbcr × s.tags_end × s.tags_extra }
{}

/// Settings of an image.
pub fn settings()
    ensures { s.extra_set × s.extra_late × s.rows_set × s.rows_none × s.resolved × s.unresolved
        × s.resolved_x ×
        s.resolved_y × s.stopped_x × s.stopped_y × s.unit_set × s.unit_stopped }
{}

/// Strips.
pub fn strips()
    ensures { s.strip_written × s.strip_behind × s.differenced × s.two_rows × s.not_differenced ×
        s.strips_parted × s.strips_after × s.strips_stored × s.one_stored × s.none_stored × s.strips_taken }
{}

/// Images that are finished.
pub fn wholes()
    ensures computed { s.pixel_stopped × s.pixel_few × s.rgb_few × s.stopped_image }
    ensures by_answer { s.pixel_finished × s.pixel_data × s.pixel_written × s.pixel_chain
        × s.after_few ×
        s.packed_written × s.packed_bytes × s.second_page × s.third_page × s.third_link × s.ycbcr_written }
{}

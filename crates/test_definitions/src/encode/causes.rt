//! Worked examples of errors of the writer.
#![tactic(auto, using(crate::proofs::OfEncode::Causes::worked), unfolding(tiff::proofs::OnLiterals::tiff_on_literals))]

ghost use Rattle.test_definitions.specs.Encode.Causes as s;

/// After a failed write.
pub fn failed()
    ensures { s.failed_begin × s.failed_tag × s.failed_buf × s.failed_bytes × s.failed_data
        × s.failed_finish ×
        s.failed_image × s.failed_extra × s.failed_rows × s.failed_strip × s.failed_write × s.failed_unit }
{}

/// Values that are written into fields.
pub fn fields()
    ensures { s.begins × s.tag_text × s.tag_count × s.tag_count_big × s.tag_count_last × s.tag_far ×
        s.tag_last × s.tag_inline × s.buf_order × s.buf_far × s.buf_little × s.bytes_ragged × s.bytes_whole ×
        s.bytes_far × s.data_text × s.data_long × s.data_order × s.data_little × s.test_far × s.test_inline ×
        s.test_far_big }
{}

/// Ends of directories.
pub fn ends()
    ensures computed { s.many_entries × s.many_entries_big × s.large_count × s.far_directory
        × s.zero_pointer ×
        s.far_pointer × s.far_pointer_big × s.far_link × s.last_link }
    ensures by_lemma { s.parent_last × s.parent_past × s.parent_past_big × s.no_parent }
{}

/// New images and their settings.
pub fn images()
    ensures { s.no_side × s.floating × s.horizontal_float × s.horizontal_gray × s.image_far
        × s.image_last ×
        s.image_far_big × s.extra_late × s.extra_many × s.extra_one × s.rows_zero × s.rows_late × s.rows_two ×
        s.resolutions_far × s.resolution_last × s.resolution_far × s.unit_far }
{}

/// Strips, and the samples of an image.
pub fn strips()
    ensures { s.count_one × s.count_none × s.count_largest × s.count_short × s.count_tile
        × s.count_tiled ×
        s.strips_three × s.strip_two × s.strip_none_left × s.strip_one × s.strip_far × s.strip_stored_far ×
        s.image_large × s.image_few × s.image_enough × s.image_goes_on }
{}

/// Tiles and planes.
pub fn tiles()
    ensures { s.strip_tile × s.tile_whole × s.rows_tile × s.tiles_zero × s.tiles_eight
        × s.tiles_late ×
        s.tiles_fit × s.planar_late × s.planar_fits × s.many_chunks × s.image_tiled }
{}

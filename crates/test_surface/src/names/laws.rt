//! The laws of `tiff::encoder`: functions that do nothing and state what holds.

use tiff::encoder::laws;

// How a file is kept and grows.
fn name_files() {
    let _law = laws::header_stands;
    let _law = laws::kept_by_appending;
    let _law = laws::kept_by_patching;
    let _law = laws::kept_by_tearing;
    let _law = laws::grown_by_region;
    let _law = laws::grown_by_inline;
    let _law = laws::grown_by_placed;
    let _law = laws::grown_by_listing;
    let _law = laws::finished;
    let _law = laws::placed_fits;
    let _law = laws::finish_fits;
    let _law = laws::directory_calls_append;
    let _law = laws::image_calls_append;
    let _law = laws::ends_link_parent;
}

// How the effects of calls are joined.
fn name_ops() {
    let _law = laws::ops_stand;
    let _law = laws::ops_grow;
    let _law = laws::ops_begun;
    let _law = laws::ops_torn;
    let _law = laws::ops_join;
    let _law = laws::ops_append;
    let _law = laws::first_told;
    let _law = laws::models_agree;
    let _law = laws::page_told;
    let _law = laws::one_step;
    let _law = laws::one_stored;
    let _law = laws::offsets_agree;
    let _law = laws::chunks_show;
    let _law = laws::images_show;
}

// How an open image is held.
fn name_images() {
    let _law = laws::image::begins_open;
    let _law = laws::image::grown_open;
    let _law = laws::image::tags_keep_open;
    let _law = laws::image::fields_keep_open;
    let _law = laws::image::resolutions_keep_open;
    let _law = laws::image::settings_keep_open;
    let _law = laws::image::chunks_keep_open;
    let _law = laws::image::ends_held;
    let _law = laws::image::grown_ended;
    let _law = laws::image::ended_shown;
    let _law = laws::image::ends_shown;
}

// The effects of an image's calls fit the file that they find.
fn name_fits() {
    let _law = laws::fit::new_image_fits;
    let _law = laws::fit::settings_fit;
    let _law = laws::fit::resolutions_fit;
    let _law = laws::fit::chunks_fit;
    let _law = laws::fit::finish_image_fits;
}

// Samples that were written stand in the file, and are read back.
fn name_data() {
    let _law = laws::data::data_leaves;
    let _law = laws::data::parts_show;
    let _law = laws::data::image_leaves;
    let _law = laws::data::first_shown;
    let _law = laws::data::gray_shown;
    let _law = laws::reading::reads_shown;
    let _law = laws::reading::reads_back;
    let _law = laws::reading::written_reads_back;
    let _law = laws::reading::shown_in_order;
    let _law = laws::reading::all_shown;
    let _law = laws::reading::shown_is_read;
    let _law = laws::reading::written_is_read;
}

// A file that an encoder goes on behind.
fn name_former() {
    let _law = laws::former_bytes_stay;
    let _law = laws::former_pages_stay;
    let _law = laws::former_samples_stay;
    let _law = laws::last_link_ends;
    let _law = laws::chain_goes_on;
    let _law = laws::pages_go_on;
}

/// Names the laws.
pub fn name_laws() {
    name_former();
    name_files();
    name_ops();
    name_images();
    name_fits();
    name_data();
}

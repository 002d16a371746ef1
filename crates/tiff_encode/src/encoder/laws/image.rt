//! The laws by which a model records an open image. Each law is the contract of a function that
//! does nothing.

ghost use Rattle.tiff_encode.specs.Open.{BeginsOpen, GrownOpen, TagsKeepOpen, FieldsKeepOpen, ResolutionsKeepOpen, SettingsKeepOpen, ChunksKeepOpen, EndsHeld, GrownEnded, EndedShown, EndsShown};

/// States that the model after `new_image` records the image.
pub fn begins_open()
    ensures { BeginsOpen }
{}

/// States that a model that records an open image still records it after more is written.
pub fn grown_open()
    ensures { GrownOpen }
{}

/// States that the model still records an open image after its directory is given a tag that
/// doesn't describe a page.
pub fn tags_keep_open()
    ensures { TagsKeepOpen }
{}

/// States that the model still records an open image after its directory is given fields of tags
/// that don't describe a page.
pub fn fields_keep_open()
    ensures { FieldsKeepOpen }
{}

/// States that the model still records an open image after a call that sets resolutions.
pub fn resolutions_keep_open()
    ensures { ResolutionsKeepOpen }
{}

/// States that the model still records an open image after a call that sets its division into
/// chunks or its extra samples.
pub fn settings_keep_open()
    ensures { SettingsKeepOpen }
{}

/// States that the model still records an open image after a chunk is written, together with the
/// samples of that chunk.
pub fn chunks_keep_open()
    ensures { ChunksKeepOpen }
{}

/// States that the model records an image that ends with all its chunks as an ended image.
pub fn ends_held()
    ensures { EndsHeld }
{}

/// States that a model that records an ended image still records it after more is written.
pub fn grown_ended()
    ensures { GrownEnded }
{}

/// States that a file that contains a model shows each ended image that the model records.
pub fn ended_shown()
    ensures { EndedShown }
{}

/// States that the file shows an open image that the model records, after the image ends with all
/// its chunks.
pub fn ends_shown()
    ensures { EndsShown }
{}

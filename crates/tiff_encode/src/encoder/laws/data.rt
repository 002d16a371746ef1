//! The laws of what a file contains after the samples of an image are written. Each law is the
//! contract of a function that does nothing.

ghost use Rattle.tiff_encode.specs.ImageData.{DataLeaves, FirstShown, GrayShown, ImageLeaves, PartsShow};

/// States what a file contains after `write_data` of an image succeeds or fails.
pub fn data_leaves()
    ensures { DataLeaves }
{}

/// States that the samples that `write_data` passes to the chunks of an image are the samples of
/// the image.
pub fn parts_show()
    ensures { PartsShow }
{}

/// States what a file contains after `write_image` succeeds or fails.
pub fn image_leaves()
    ensures { ImageLeaves }
{}

/// States that an image that follows directly after the header is the first page of its file, and
/// that this page shows its samples.
pub fn first_shown()
    ensures { FirstShown }
{}

/// States that an image of 8-bit gray samples that follows directly after the header is the first
/// page of its file, and that this page shows its samples.
pub fn gray_shown()
    ensures { GrayShown }
{}

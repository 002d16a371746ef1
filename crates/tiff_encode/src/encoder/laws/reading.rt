//! The laws of reading what the encoder wrote. Each law is the contract of a function that does
//! nothing.

ghost use Rattle.tiff_encode.specs.ReadsBack.{ReadsShown, ReadsBack, WrittenReadsBack, ShownInOrder, AllShown, ShownIsRead, WrittenIsRead};

/// States that the samples that the reader returns for a page that shows an image are the samples
/// of that image.
pub fn reads_shown()
    ensures { ReadsShown }
{}

/// States that the reader reads a page that shows an image, and returns the samples of that image.
pub fn reads_back()
    ensures { ReadsBack }
{}

/// States that the reader reads each page that an encoder writes for an image, and returns the
/// samples of that image.
pub fn written_reads_back()
    ensures { WrittenReadsBack }
{}

/// States that the samples of an image that was passed as one list are in the order of that list.
pub fn shown_in_order()
    ensures { ShownInOrder }
{}

/// States that a chunky page of an image without extra samples shows all samples of a pixel.
pub fn all_shown()
    ensures { AllShown }
{}

/// States that the reader returns the samples of a chunky image without extra samples, which was
/// passed as one list, as they were passed.
pub fn shown_is_read()
    ensures { ShownIsRead }
{}

/// States that the reader returns the samples that `write_image` wrote, of a named color type and
/// as many as the image has, as they were passed.
pub fn written_is_read()
    ensures { WrittenIsRead }
{}

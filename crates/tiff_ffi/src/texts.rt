//! The text of each status, by its number.

ghost use Rattle.std.specs.Prelude.{◌≡◌};
ghost use Rattle.tiff_ffi.specs.Texts as texts;
ghost use Rattle.tiff_ffi.specs.Texts.{PutsText};

/// The text of a status, by its number. The text of a number that is no status says so.
pub fn text_of(number: u32) -> &'static str
    ensures { result.now ≡ texts.text_of number }
{
    match number {
        // Of a call itself.
        0 => "done",
        1 => "decoder limits exceeded",
        2 => "platform or format size limits exceeded",
        3 => "out of memory",
        4 => "an error that has no number yet",
        5 => "bytes of the file are wanted",

        // Of an error of input or output.
        10 => "unexpected end of file",
        11 => "invalid data",
        12 => "invalid input",
        13 => "write zero",
        14 => "device fault",

        // Of an error of a file that doesn't have TIFF's form.
        20 => "TIFF signature not found",
        21 => "TIFF signature invalid",
        22 => "image file directory not found",
        23 => "inconsistent sizes encountered",
        24 => "invalid dimensions",
        25 => "image contains invalid tag",
        26 => "a tag did not have the expected value type",
        27 => "a required tag was not found",
        28 => "unknown predictor",
        29 => "unknown planar configuration",
        30 => "tag has invalid type",
        31 => "a tag with an incorrect number of elements",
        32 => "strips and tiles are mixed, or there are neither",
        33 => "file contained a cycle in the list of IFDs",
        34 => "samples per pixel is zero",
        35 => "compressed data is corrupt",

        // Of an error for what is not supported.
        40 => "floating point predictor is unsupported",
        41 => "horizontal predictor is unsupported for this color",
        42 => "inconsistent bits per sample",
        43 => "photometric interpretation with these bits per sample is unsupported",
        44 => "unknown photometric interpretation",
        45 => "unknown compression method",
        46 => "compression method is unsupported",
        47 => "samples per pixel is unsupported",
        48 => "sample format is unsupported",
        49 => "color type is unsupported",
        50 => "bits per channel not supported",
        51 => "unsupported planar configuration",
        52 => "unsupported data type",
        53 => "unsupported photometric interpretation",
        54 => "chroma subsampling of YCbCr color is unsupported",
        55 => "tile rows are not aligned to byte boundaries",

        // Of an error for a call that doesn't fit.
        60 => "operation is only valid for the other kind of chunk",
        61 => "invalid chunk index",
        62 => "invalid plane index",
        63 => "out of bounds coding unit",
        64 => "predictor is not compatible with the compression",
        65 => "predictor is not compatible with the image's format",
        66 => "predictor is not available",
        67 => "the output buffer is not large enough",
        68 => "the output row stride would alias rows",
        69 => "the offset 0 can not point to a valid IFD",
        70 => "encoder reconfigured after image writing has started",
        71 => "data of another byte order",
        72 => "the length of data is not a multiple of the size of its type",
        73 => "the parent's link lies outside what was written",
        74 => "an earlier write failed",

        _ => "no such status",
    }
}

/// Puts a text at the front of a buffer, as much of it as fits, and returns how many bytes the
/// whole text has.
pub fn put_part(text: &str, buffer: &mut [u8]) -> usize
    ensures { PutsText text.now result buffer.old buffer.new }
{
    let bytes = text.as_bytes();
    let n = bytes.len().min(buffer.len());
    buffer[..n].copy_from_slice(&bytes[..n]);
    bytes.len()
}

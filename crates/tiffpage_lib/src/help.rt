//! The help of the program, and its version.

use std::alloc::Global;
use tiff::TiffResult;
use tiff_script::VERSION;

/// Each command with its words, and what it does; and the words of a list of jobs. The header for C
/// and docs/TIFFPAGE.md repeat the latter.
pub const HELP: &str = "tiffpage: TIFF and BigTIFF pages

  gray OUT W H IN        writes the bytes of IN as one gray page of W by H samples
  raw IN PAGE OUT [--planes] [--limit BYTES]
                         writes the samples of a page, numbered from 0, as bytes, the lowest of each first: of a page in planes
                         those of the first plane; with --planes those of all planes, one plane behind the other; with --limit,
                         the samples, and a chunk of them in the file, may each have so many bytes and no more
  view IN PAGE OUT       writes a page as a PNG picture, but not in the place of IN
  tags IN PAGE           prints a line for each entry of a page: tag, type, count, bytes
  list IN                prints a line for each page: number, offset, sides, color, method, kind and number of chunks
  directories IN         prints a line for each directory that the chain and the tags reach, indented by its depth:
                         offset, tag, number of fields, page
  check IN [--limit BYTES]
                         reads each page whole, and prints a line for each: number, offset, ok, bytes, Adler-32
  calls IN < LIST        makes the calls of a decoder that LIST has, and prints the reply to each
  jobs OUT [big] [--keep-going] < LIST
                         prints the reply to each of the jobs that LIST has, and writes their file, a BigTIFF one with big,
                         where none of them is refused; with --keep-going in each case
  append FILE < LIST     runs the jobs that LIST has behind FILE, a little-endian TIFF file, prints the reply to each, and adds
                         what they write to FILE, where none of them is refused: the bytes behind it, and then its last link
  help, --help           prints these lines
  --version              prints the version

IN is a file, or - for standard input. OUT is a file, or - for standard output; then jobs prints the replies on standard error.
gray and raw replace IN where OUT is the same file.
directories and check read only parts of a file of more than 64 MiB; if it changes meanwhile, their lines may be those of no file.

A list of jobs has one of these in each line, with one space between words:
  # ANYTHING             a comment, as is an empty line
  predictor NUMBER       of the images that follow: 1 for none, 2 for differences of neighbours
  compression METHOD     of the images that follow: uncompressed; packbits, each row by itself; or packbits-chunks, across the
                         rows of a strip or tile, which readers by row can't read
  image COLOR WIDTH HEIGHT
                         begins an image, of a color type as Gray8, RGB16 or Gray32Float
  directory [JOB]        begins a directory in the chain; JOB is the number, from 0, of the job whose directory links to it
  extra_directory [JOB]  begins a directory out of the chain
  finish                 ends an image or a directory, and replies with the offsets of a directory and of its link
  discard                ends it in the same way, and replies with nothing
Steps of an image:
  tiles WIDTH HEIGHT     stores tiles of these sides
  rows_per_strip ROWS    stores strips of so many rows
  planar                 stores the samples of each place in a pixel apart from the others
  extra_samples NUMBER ..
                         adds samples to each pixel: 0 for any, 1 for alpha that is multiplied in, 2 for other alpha
  resolution UNIT X [Y]  pixels in a unit (1 none, 2 inch, 3 centimeter), for both axes or for each
  resolution_unit UNIT, x_resolution X, y_resolution Y
                         one of these alone
  write_strip SAMPLES, write_chunk SAMPLES
                         the samples of the next strip, or of the next strip or tile
  next_strip_sample_count, next_chunk_sample_count
                         replies with the number of samples that are wanted there
  append_data VALUE      writes a value into the file, and replies with its offset
  write_data SAMPLES     the samples of the image, or of the strips that are left; ends the image
Steps of a directory:
  write_data VALUE       writes a value into the file, and replies with its offset
Steps of both:
  write_tag TAG VALUE, write_tag_buf TAG BUFFER
                         sets a tag
  write_entry VALUE, write_entry_buf BUFFER, write_entry_bytes TYPE DIGITS
                         replies with the entry of a value, which no tag gets
  write_data_buf BUFFER  writes bytes into the file, and replies with their offset
  extend_from FIELD ..   sets tags to entries
What the words are:
  NUMBER, WIDTH, ROWS, TAG, TYPE ..
                         whole numbers: decimal, or hexadecimal behind 0x
  X, Y                   positive numbers: 300, 72.5 or 1/3
  SAMPLES                numbers of the color type: 7, 0x7f, -1, 1.5, or of floating-point samples 0x and their bits;
                         0..255 is each one from 0 to 255. A word has no more samples than the image. Those of
                         Gray1, Gray2 and Gray4 are bytes of packed pixels; a row begins with a new byte
  VALUE                  a type and its numbers, as u16 1 2; or text and, behind a space, the text, in ASCII
  types of a value       u8 i8 u16 i16 u32 i32 u64 i64 ifd ifd8; f32 f64 with numbers as those of samples; rational, as X;
                         srational, as -1/3; method interpretation planar predictor unit format extra
  BUFFER                 TYPE, little or big, and DIGITS
  FIELD                  TAG:TYPE:COUNT:DIGITS, with sixteen digits
  DIGITS                 two hexadecimal digits for each byte; - for none
  7*20                   of numbers and samples: 7 twenty times
";

/// Returns the line of the version, which is the version of the calls for C.
pub fn version_line(alloc: Global) -> TiffResult<String> {
    Ok(format!(in alloc; "tiffpage {}\n", VERSION)?)
}

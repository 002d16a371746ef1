//! The calls of the C library in Rust. They read the pages of a TIFF file that lies in memory, and
//! write files into memory, of one image or of a list of jobs. `tiff_c` exports them to C.
//!
//! Each call but `version` and `fault_text` returns a status: 0 if it is done, else the number of
//! its error, as `tiff_status` in `include/mangohatch_tiff.h` of `tiff_c` lists them; any of them
//! but `byte_order` may return the number of `OutOfMemory`. `page` is the number of a page in the
//! file's chain, from 0; or, from 2^63 on, 2^63 plus the offset of a directory. The calls that read
//! a tag don't ask whether the directory at an offset is a page.
#![tactic(auto)]

ghost use Rattle.std.specs.Prelude.{◌≡◌, ◌⊎◌, length};
ghost use Rattle.tiff_pages.specs.OfFile.{list_of, tree_of};
ghost use Rattle.tiff_ffi.specs.Appended.{AppendTells};
ghost use Rattle.tiff_ffi.specs.Calls as calls;
ghost use Rattle.tiff_ffi.specs.Directories.{TreeTells};
ghost use Rattle.tiff_ffi.specs.Entries.{list_tags};
ghost use Rattle.tiff_ffi.specs.Jobs.{JobsTell};
ghost use Rattle.tiff_ffi.specs.List.{ListTells};
ghost use Rattle.tiff_ffi.specs.Pages.{PagesTell};
ghost use Rattle.tiff_ffi.specs.PagesFrame.{PagesFrameTells};
ghost use Rattle.tiff_ffi.specs.Plan as plans;
ghost use Rattle.tiff_ffi.specs.Plan.{ReadsPage};
ghost use Rattle.tiff_ffi.specs.Rewrite as rewriting;
ghost use Rattle.tiff_ffi.specs.Status.{StatusIs, StatusPuts, StatusTells};
ghost use Rattle.tiff_ffi.specs.Texts.{PutsText};
ghost use Rattle.tiff_ffi.specs.Texts as texts;
ghost use Rattle.tiff_ffi.specs.Values as values;
ghost use Rattle.tiff_ffi.specs.Writer as writer;
ghost use Rattle.tiff_ffi.specs.Writer.{IsShown};

pub use crate::frame::FrameLengths;
pub use crate::pages_around::PagesLengths;
use std::alloc::Global;
pub use tiff_script::VERSION;

pub mod appended;
pub mod calls;
mod children;
pub mod directories;
pub mod entries;
mod frame;
mod image_samples;
pub mod in_windows;
pub mod jobs;
pub mod list;
pub mod pages;
mod pages_around;
mod pages_sink;
pub mod parents;
pub mod plan;
mod range;
pub mod rewrite;
mod status;
mod texts;
pub mod values;
pub mod writer;

use crate::appended::{Appended, run_appended, tell_appended};
use crate::calls::{Chunks, Color, FieldSize, Layout, PageSamples, Sides};
use crate::directories::{ListedDirectory, list_tree};
use crate::entries::TagEntry;
pub use crate::in_windows::{
    list_directories_in, list_pages_in, list_tags_in, page_plan_in, read_planned_chunk_in,
    read_planned_chunks_in, tag_bytes_in,
};
use crate::jobs::{JobsEnd, put_jobs, run_version};
use crate::list::{ListedPage, list_into};
use crate::pages::{NewPage, PagesEnd, run_pages, tell_pages};
use crate::pages_around::{frame_pages, tell_framed};
use crate::plan::PlannedPage;
use crate::rewrite::PlacedChunk;
use crate::status::{put_value, unit_status};
use crate::texts::{put_part, text_of};
use crate::writer::{NewImage, put_file, put_file_around, write_new};

/// Puts the width and the height of a page, in pixels, into `sides`. Returns 0, or the number of
/// the error that refuses the file or the page. An error leaves `sides` as it was.
#[tactic(auto, using(crate::proofs::StatusTells::puts_told))]
pub fn page_sides(alloc: Global, file: &[u8], page: usize, sides: &mut Sides) -> u32
    ensures { StatusPuts (calls.page_sides file.now page) result sides.old sides.new }
{
    put_value(calls::page_sides(alloc, file, page), sides)
}

/// Reads the image of a page into `buffer`, under no limits: rows from the top, each of whole
/// bytes, samples with their lowest byte first; of a planar page as many planes as fit whole, one
/// behind the other. Returns 0, or the number of the first error: of the file or the page; of its
/// color or its layout; of a buffer shorter than one plane, `InsufficientOutputBufferSize`; of a
/// chunk. What an error leaves in `buffer` is not specified.
#[tactic(auto, using(crate::proofs::StatusTells::tells_left))]
pub fn read_image_bytes(alloc: Global, file: &[u8], page: usize, buffer: &mut [u8]) -> u32
    ensures { StatusTells (calls.read_image_bytes file.now page buffer.old) result buffer.new }
{
    unit_status(calls::image_bytes(alloc, file, page, buffer))
}

/// Puts the color of a page into `color`. Returns 0, or the number of the first error: of the file
/// or the page; of a page without a color. An error leaves `color` as it was.
#[tactic(auto, using(crate::proofs::StatusTells::puts_told))]
pub fn page_color(alloc: Global, file: &[u8], page: usize, color: &mut Color) -> u32
    ensures { StatusPuts (calls.page_color file.now page) result color.old color.new }
{
    put_value(calls::page_color(alloc, file, page), color)
}

/// Puts what the samples of a page are, and how they lie, into `samples`. Returns 0, or the number
/// of the first error: of the file or the page; of its color or its layout. An error leaves
/// `samples` as it was.
#[tactic(auto, using(crate::proofs::StatusTells::puts_told))]
pub fn page_samples(alloc: Global, file: &[u8], page: usize, samples: &mut PageSamples) -> u32
    ensures { StatusPuts (calls.page_samples file.now page) result samples.old samples.new }
{
    put_value(calls::page_samples(alloc, file, page), samples)
}

/// Puts the kind, the count and the sides of a page's strips or tiles into `chunks`. Returns 0, or
/// the number of the first error: of the file or the page; of chunks that can't be counted. An
/// error leaves `chunks` as it was.
#[tactic(auto, using(crate::proofs::StatusTells::puts_told))]
pub fn page_chunks(alloc: Global, file: &[u8], page: usize, chunks: &mut Chunks) -> u32
    ensures { StatusPuts (calls.page_chunks file.now page) result chunks.old chunks.new }
{
    put_value(calls::page_chunks(alloc, file, page), chunks)
}

/// Puts how many bytes the image of a page has, in one plane and in all planes, into `layout`.
/// Returns 0, or the number of the first error: of the file or the page; of samples without a
/// layout. An error leaves `layout` as it was.
#[tactic(auto, using(crate::proofs::StatusTells::puts_told))]
pub fn page_layout(alloc: Global, file: &[u8], page: usize, layout: &mut Layout) -> u32
    ensures { StatusPuts (calls.page_layout file.now page) result layout.old layout.new }
{
    put_value(calls::page_layout(alloc, file, page), layout)
}

/// Reads the chunk of a page with the number `chunk`, from 0, into `buffer`, under no limits, as it
/// is in the image and in one plane. Returns 0, or the number of the first error: of the file or
/// the page; of its color or its layout; of a buffer shorter than the chunk,
/// `InsufficientOutputBufferSize`; of the chunk. What an error leaves in `buffer` is not specified.
#[tactic(auto, using(crate::proofs::StatusTells::tells_left))]
pub fn read_chunk_bytes(
    alloc: Global,
    file: &[u8],
    page: usize,
    chunk: u32,
    buffer: &mut [u8],
) -> u32
    ensures { StatusTells (calls.read_chunk_bytes file.now page chunk buffer.old) result buffer.new }
{
    unit_status(calls::chunk_bytes(alloc, file, page, chunk, buffer))
}

/// Reads `count` chunks of a page, from the number `first` on, into `buffer`, one behind the other,
/// under no limits. Returns 0, or the number of the first error: of the file or the page; `first`
/// plus `count` of 2^32 or more, `InvalidChunkIndex`; and then, chunk by chunk, of the page's color
/// or its layout; of a buffer that has no room left for the chunk, `InsufficientOutputBufferSize`;
/// of the chunk. What an error leaves in `buffer` is not specified.
#[tactic(auto, using(crate::proofs::StatusTells::tells_left))]
pub fn read_chunks(
    alloc: Global,
    file: &[u8],
    page: usize,
    first: u32,
    count: u32,
    buffer: &mut [u8],
) -> u32
    ensures { StatusTells (calls.read_chunks file.now page first count buffer.old) result buffer.new }
{
    unit_status(calls::range_bytes(alloc, file, page, first, count, buffer))
}

/// Puts the plan of a page, what its tags define as numbers, into `plan`. By this plan
/// `read_planned_chunk` reads each chunk as `read_chunk_bytes` reads it of the page, and
/// `read_planned_chunks` several as `read_chunks` does. Returns 0, or the number of the first
/// error: of the file or the page; of offsets or byte counts of chunks that aren't of type SHORT,
/// LONG or LONG8, `InvalidTypeForTag`. An error leaves `plan` as it was.
#[tactic(auto, using(crate::proofs::StatusTells::puts_told, crate::proofs::Plans::given_reads))]
pub fn page_plan(alloc: Global, file: &[u8], page: usize, plan: &mut PlannedPage) -> u32
    ensures answer { StatusPuts (plans.page_plan file.now page) result plan.old plan.new }
    ensures reads { result ≡ 0 → ReadsPage file.now page plan.new }
{
    put_value(plan::page_plan(alloc, file, page), plan)
}

/// Reads the chunk with the number `chunk`, from 0, into `buffer`, by the plan of its page and
/// under no limits: it reads the offset and the byte count of this chunk alone, and opens no page.
/// Returns 0, or the number of the first error: of a number of the plan that names nothing, which
/// is for the version `TiffSignatureInvalid`, for the byte order, the first extra sample, more than
/// 255 bits or the kind of chunks `IoError(InvalidInput)`, for the interpretation
/// `UnknownInterpretation`, for the predictor `UnknownPredictor`, for the planar configuration
/// `UnknownPlanarConfiguration`, and for a type `InvalidTypeForTag`; of sizes that no page has,
/// `InconsistentSizesEncountered`; of the chunk's offset and byte count; of the page's color or its
/// layout; of a buffer shorter than the chunk, `InsufficientOutputBufferSize`; of the chunk. What
/// an error leaves in `buffer` is not specified.
#[tactic(auto, using(crate::proofs::StatusTells::tells_left))]
pub fn read_planned_chunk(
    alloc: Global,
    file: &[u8],
    plan: &PlannedPage,
    chunk: u32,
    buffer: &mut [u8],
) -> u32
    ensures { StatusTells (plans.read_planned_chunk file.now plan.now chunk buffer.old) result buffer.new }
{
    unit_status(plan::planned_chunk(alloc, file, plan, chunk, buffer))
}

/// Reads `count` chunks, from the number `first` on, into `buffer`, one behind the other, by the
/// plan of their page and under no limits: of each it reads the offset and the byte count alone,
/// and it opens no page. Returns 0, or the number of the first error: of a number of the plan that
/// names nothing, as `read_planned_chunk` has it; `first` plus `count` of 2^32 or more,
/// `InvalidChunkIndex`; and then, chunk by chunk, of sizes that no page has,
/// `InconsistentSizesEncountered`; of the page's color or its layout; of a buffer that has no room
/// left for the chunk, `InsufficientOutputBufferSize`; of the chunk's offset and byte count; of the
/// chunk. What an error leaves in `buffer` is not specified.
#[tactic(auto, using(crate::proofs::StatusTells::tells_left))]
pub fn read_planned_chunks(
    alloc: Global,
    file: &[u8],
    plan: &PlannedPage,
    first: u32,
    count: u32,
    buffer: &mut [u8],
) -> u32
    ensures { StatusTells (plans.read_planned_chunks file.now plan.now first count buffer.old) result
        buffer.new }
{
    unit_status(plan::planned_chunks(alloc, file, plan, first, count, buffer))
}

/// Puts the offset and the byte count of the chunk with the number `chunk`, from 0, into `place`,
/// by the plan of its page: it reads these two numbers alone. Returns 0, or the number of the first
/// error: of a number of the plan that names nothing, as `read_planned_chunk`; of sizes that no
/// page has, `InconsistentSizesEncountered`; of the chunk's offset and byte count; no such chunk,
/// `InconsistentSizesEncountered`. An error leaves `place` as it was.
#[tactic(auto, using(crate::proofs::StatusTells::puts_told))]
pub fn chunk_place(
    alloc: Global,
    file: &[u8],
    plan: &PlannedPage,
    chunk: u32,
    place: &mut PlacedChunk,
) -> u32
    ensures { StatusPuts (rewriting.chunk_place file.now plan.now chunk) result place.old place.new }
{
    put_value(rewrite::chunk_place(alloc, file, plan, chunk), place)
}

/// Makes the bytes that the file has of the chunk with the number `chunk`, from 0, from new
/// samples, by the plan of its page. `samples` are as `read_planned_chunk` gives them; `stored` has
/// the bytes of the file from the chunk's offset on, at least as many as the rows of the chunk
/// need. Bytes that no sample needs stay as they are. Writes nothing to the file. Returns 0, or the
/// number of the first error: of a number of the plan that names nothing, as `read_planned_chunk`;
/// of sizes that no page has, `InconsistentSizesEncountered`; of the chunk's offset and byte count;
/// of the page's color or its layout; of samples that aren't as many bytes as the chunk has,
/// `IoError(InvalidData)`; of the chunk's form, as `read_planned_chunk`; of data that are packed,
/// `UnsupportedCompressionMethod`; of byte planes, `FloatingPointPredictor`; of rows that need 2^64
/// stored bytes or more, `LimitsExceeded`; of fewer stored bytes than the rows need,
/// `InsufficientOutputBufferSize`. An error leaves `stored` as it was.
pub fn rewrite_chunk(
    alloc: Global,
    file: &[u8],
    plan: &PlannedPage,
    chunk: u32,
    samples: &[u8],
    stored: &mut [u8],
) -> u32
    ensures answer { StatusTells
        (rewriting.rewrite_fault file.now plan.now chunk (length samples.now) (length stored.old)) result
        tt }
    ensures rewritten { result ≡ 0
        → rewriting.IsRewritten file.now plan.now chunk samples.now stored.old stored.new }
    ensures shows { result ≡ 0
        → rewriting.ShowsSamples file.now plan.now chunk samples.now stored.new }
    ensures refused { (result ≡ 0 → ⊥) → stored.new ≡ stored.old }
{
    unit_status(rewrite::rewrite_chunk(alloc, file, plan, chunk, samples, stored))
}

/// Reads the coding unit of a page with the number `unit`, from 0, into `buffer`, under no limits:
/// its chunk in each plane, one behind the other, as many as fit whole. Returns 0, or the number of
/// the first error: of the file or the page; of its color or its layout; no such unit,
/// `InvalidCodingUnit`; of a buffer shorter than the chunk of one plane,
/// `InsufficientOutputBufferSize`; of a chunk. What an error leaves in `buffer` is not specified.
#[tactic(auto, using(crate::proofs::StatusTells::tells_left))]
pub fn read_coding_unit_bytes(
    alloc: Global,
    file: &[u8],
    page: usize,
    unit: u32,
    buffer: &mut [u8],
) -> u32
    ensures { StatusTells (calls.read_unit_bytes file.now page unit buffer.old) result buffer.new }
{
    unit_status(calls::unit_bytes(alloc, file, page, unit, buffer))
}

/// Puts the number of the type of a tag, and how many values it has, into `field`. `number` is the
/// tag's number. Returns 0, or the number of the first error: of the file or the page; no such tag,
/// `RequiredTagNotFound`. An error leaves `field` as it was.
#[tactic(auto, using(crate::proofs::StatusTells::puts_told))]
pub fn tag_field(alloc: Global, file: &[u8], page: usize, number: u16, field: &mut FieldSize) -> u32
    ensures { StatusPuts (calls.tag_field file.now page number) result field.old field.new }
{
    put_value(calls::tag_field(alloc, file, page, number), field)
}

/// Puts the value of a tag, which has to have one, into `value`. `number` is the tag's number.
/// Returns 0, or the number of the first error: of the file or the page; no such tag,
/// `RequiredTagNotFound`; of reading the value, also of one that is no number below 2^64. An error
/// leaves `value` as it was.
#[tactic(auto, using(crate::proofs::StatusTells::puts_told))]
pub fn tag_number(alloc: Global, file: &[u8], page: usize, number: u16, value: &mut u64) -> u32
    ensures { StatusPuts (calls.tag_number_at file.now page number) result value.old value.new }
{
    put_value(calls::tag_number(alloc, file, page, number), value)
}

/// Copies the bytes of the values of a tag into `buffer`, in the file's byte order, from byte `at`
/// on, as many as fit, and puts how many into `written`. `number` is the tag's number. Returns 0,
/// or the number of the first error: of the file or the page; no such tag, `RequiredTagNotFound`;
/// of values of 2^64 bytes or more, `LimitsExceeded`; of an offset of 2^64 or more,
/// `InconsistentSizesEncountered`; of bytes to copy that lie behind the file's end,
/// `IoError(UnexpectedEof)`. An error leaves `written` as it was; what it leaves in `buffer` is not
/// specified.
#[tactic(auto, using(crate::proofs::StatusTells::tells_both, crate::proofs::StatusTells::kept_told))]
pub fn tag_bytes(
    alloc: Global,
    file: &[u8],
    page: usize,
    number: u16,
    at: u64,
    buffer: &mut [u8],
    written: &mut usize,
) -> u32
    ensures answer { StatusTells (calls.tag_bytes file.now page number at buffer.old) result
        (written.new, buffer.new) }
    ensures stays { (result ≡ 0) ⊎ (written.new ≡ written.old) }
{
    put_value(
        calls::tag_bytes(alloc, file, page, number, at, buffer),
        written,
    )
}

/// Puts the values of a tag into `numbers`, from the first one on, as many as fit, and how many
/// there are into `count`, even if not all fit. `number` is the tag's number. Returns 0, or the
/// number of the first error: of the file or the page; no such tag, `RequiredTagNotFound`; of
/// reading the values, also of values that are no numbers below 2^64. An error leaves `numbers` and
/// `count` as they were.
#[tactic(auto, using(crate::proofs::StatusTells::puts_both))]
pub fn tag_numbers(
    alloc: Global,
    file: &[u8],
    page: usize,
    number: u16,
    numbers: &mut [u64],
    count: &mut usize,
) -> u32
    ensures { StatusPuts (values.tag_numbers file.now page number numbers.old) result
        (count.old, numbers.old) (count.new, numbers.new) }
{
    put_value(
        values::tag_numbers(alloc, file, page, number, numbers),
        count,
    )
}

/// Puts the bits of a tag's values, floating-point numbers of 8 bytes, into `numbers`, from the
/// first one on, as many as fit, and how many there are into `count`, even if not all fit. `number`
/// is the tag's number. Returns 0, or the number of the first error: of the file or the page; no
/// such tag, `RequiredTagNotFound`; of reading the values, also of values of another type. An error
/// leaves `numbers` and `count` as they were.
#[tactic(auto, using(crate::proofs::StatusTells::puts_both))]
pub fn tag_floats(
    alloc: Global,
    file: &[u8],
    page: usize,
    number: u16,
    numbers: &mut [u64],
    count: &mut usize,
) -> u32
    ensures { StatusPuts (values.tag_floats file.now page number numbers.old) result
        (count.old, numbers.old) (count.new, numbers.new) }
{
    put_value(
        values::tag_floats(alloc, file, page, number, numbers),
        count,
    )
}

/// Puts the bytes of a tag's text into `text`, from the first one on, as many as fit, and how many
/// there are into `len`, even if not all fit. `number` is the tag's number. Returns 0, or the
/// number of the first error: of the file or the page; no such tag, `RequiredTagNotFound`; of
/// reading the text, also of values that are no text. An error leaves `text` and `len` as they
/// were.
#[tactic(auto, using(crate::proofs::StatusTells::puts_both))]
pub fn tag_text(
    alloc: Global,
    file: &[u8],
    page: usize,
    number: u16,
    text: &mut [u8],
    len: &mut usize,
) -> u32
    ensures { StatusPuts (values.tag_text file.now page number text.old) result (len.old, text.old)
        (len.new, text.new) }
{
    put_value(values::tag_text(alloc, file, page, number, text), len)
}

/// Puts the entries of the directory of a page into `entries`, in the order of their tags, as many
/// as fit, and how many there are into `count`, even if not all fit. Returns 0, or the number of
/// the first error: of the file or the page. An error leaves `entries` and `count` as they were.
#[tactic(auto, using(crate::proofs::StatusTells::puts_both))]
pub fn list_tags(
    alloc: Global,
    file: &[u8],
    page: usize,
    entries: &mut [TagEntry],
    count: &mut usize,
) -> u32
    ensures { StatusPuts (list_tags file.now page entries.old) result (count.old, entries.old)
        (count.new, entries.new) }
{
    put_value(entries::list_tags(alloc, file, page, entries), count)
}

/// Puts the byte order of a file into `order`: 0 for little-endian, 1 for big-endian. Returns 0, or
/// the number of the error of the header. An error leaves `order` as it was. It takes no memory.
pub fn byte_order(file: &[u8], order: &mut u32) -> u32
    ensures { StatusIs (calls.file_byte_order file.now) result order.old order.new }
{
    put_value(calls::byte_order(file), order)
}

/// Puts how many pages a file has, along its chain of directories, into `pages`. Returns 0, or the
/// number of the first error: of the header; of the pages in their order; of the chain's end. An
/// error leaves `pages` as it was.
#[tactic(auto, using(crate::proofs::StatusTells::puts_told))]
pub fn page_count(alloc: Global, file: &[u8], pages: &mut usize) -> u32
    ensures { StatusPuts (calls.page_count file.now) result pages.old pages.new }
{
    put_value(calls::page_count(alloc, file), pages)
}

/// Puts the pages of a file into `pages`, along its chain of directories, as many as fit, and how
/// many there are into `count`, even if not all fit. Returns 0, or the number of the error by which
/// the chain ends. If the file's header is refused, or memory is out, it returns that error.
/// `count` is then 0, and `pages` is as it was.
pub fn list_pages(alloc: Global, file: &[u8], pages: &mut [ListedPage], count: &mut usize) -> u32
    ensures { ListTells (list_of file.now) result pages.old pages.new count.new }
{
    list_into(alloc, file, pages, count)
}

/// Puts the directories of a file into `directories`, those of its chain and those that tags name,
/// in the order of their tree, as many as fit, and how many there are into `count`, even if not all
/// fit. Returns 0, or the number of the error by which the chain ends. If the file's header is
/// refused, or memory is out, it returns that error. `count` is then 0, and `directories` is as it
/// was.
pub fn list_directories(
    alloc: Global,
    file: &[u8],
    directories: &mut [ListedDirectory],
    count: &mut usize,
) -> u32
    ensures { TreeTells (tree_of file.now) result directories.old directories.new count.new }
{
    list_tree(alloc, file, directories, count)
}

/// Writes a file of one image into `buffer`, and puts how many bytes the file has into `len`.
/// `samples` are little-endian, row by row, the samples of a pixel side by side. Returns 0, or the
/// number of the first error: of the version, the color type, the method and the predictor of
/// `image`, `TiffSignatureInvalid`, `IoError(InvalidInput)`, `UnsupportedCompressionMethod` and
/// `UnknownPredictor`; of a part of a sample that is left over, `MismatchedEntryLength`; of the
/// encoder's `write_image`; of a buffer that is too short, `InsufficientOutputBufferSize`. An error
/// leaves `buffer` as it was, and `len` too, unless only the buffer is too short.
#[tactic(auto, using(crate::proofs::Delivered::told_new, crate::proofs::Delivered::told_shown, crate::proofs::Delivered::told_kept))]
pub fn write_image(
    alloc: Global,
    image: &NewImage,
    samples: &[u8],
    buffer: &mut [u8],
    len: &mut usize,
) -> u32
    ensures answer { writer.WriterTells image.now samples.now result buffer.old buffer.new len.old len.new }

    // Status 0: the buffer holds a file that shows the image. Any other status: the buffer stays.
    ensures shows { result ≡ 0 → IsShown image.now samples.now buffer.old buffer.new len.new }
    ensures stays { (result ≡ 0) ⊎ (buffer.new ≡ buffer.old) }
{
    put_file(write_new(alloc, image, samples), buffer, len)
}

/// As `write_image`, but puts into `buffer` only the bytes of the file before `samples` and behind
/// them, one behind the other, and the lengths of the parts of the file into `frame`: the file has
/// `frame.front` bytes of `buffer`, then `samples`, then `frame.behind` bytes of `buffer`. Where
/// the file doesn't have `samples` as they are, since they are compressed or are differences, or
/// since there are more than those of the image, or where memory is short, `frame.samples` and
/// `frame.behind` are 0, and all bytes of the file are put into `buffer`. The errors are those of
/// `write_image`; an error leaves `buffer` as it was, and `frame` too, unless only the buffer is
/// too short.
#[tactic(auto, using(crate::proofs::Delivered::told_around, crate::proofs::Delivered::kept_around))]
pub fn image_frame(
    alloc: Global,
    image: &NewImage,
    samples: &[u8],
    buffer: &mut [u8],
    frame: &mut FrameLengths,
) -> u32
    ensures answer { writer.FrameTells image.now samples.now result buffer.old buffer.new
        frame.old frame.new }
    ensures stays { (result ≡ 0) ⊎ (buffer.new ≡ buffer.old) }
{
    put_file_around(write_new(alloc, image, samples), buffer, frame)
}

/// Writes the file of the jobs that the text `jobs` lists into `buffer`, puts how many bytes the
/// file has into `len`, and puts where the list is refused into `end`. Returns 0, or the number of
/// the first error: of the version, `TiffSignatureInvalid`; of a text that isn't UTF-8, or of its
/// first line that is no job, `IoError(InvalidInput)`; of the first job that has an error; of a
/// buffer that is too short, `InsufficientOutputBufferSize`. An error leaves `buffer` as it was,
/// and `len` too, unless only the buffer is too short.
#[tactic(auto, using(crate::proofs::Delivered::told_jobs, crate::proofs::Delivered::kept_jobs))]
pub fn write_jobs(
    alloc: Global,
    version: u16,
    jobs: &[u8],
    buffer: &mut [u8],
    len: &mut usize,
    end: &mut JobsEnd,
) -> u32
    ensures answer { JobsTell version jobs.now result buffer.old buffer.new len.old len.new end.new }
    ensures stays { (result ≡ 0) ⊎ (buffer.new ≡ buffer.old) }
{
    put_jobs(run_version(alloc, version, jobs), buffer, len, end)
}

/// Writes the file of these pages into `buffer`, puts how many bytes the file has into `len`, and
/// puts where the list is refused into `end`. A page without a parent is in the file's chain of
/// directories; any other one is in the tag SubIFDs of its parent, an earlier page (Adobe's
/// technical note 1 on TIFF 6.0). Returns 0, or the number of the first error: of the version,
/// `TiffSignatureInvalid`; of the first page with a field that is refused, before any page is
/// written; of the first page that the encoder refuses, of those in the chain, and then of the
/// others; of a buffer that is too short, `InsufficientOutputBufferSize`. The fields are refused in
/// this order: the color type, `IoError(InvalidInput)`; the method, `UnsupportedCompressionMethod`;
/// the predictor, `UnknownPredictor`; the planar configuration, `UnknownPlanarConfiguration`; the
/// unit of the resolutions, `IoError(InvalidInput)`; an extra sample, `IoError(InvalidInput)`; a
/// tag, `UnsupportedDataType` for its type and `MismatchedEntryLength` for bytes that are not as
/// many values as it says, and `IoError(InvalidInput)` for SubIFDs of a page that is a parent;
/// samples that aren't as many tiles as the page has, if they are given by tiles,
/// `IoError(InvalidData)`; samples with a part of one left over, `MismatchedEntryLength`; a parent
/// that is no earlier page, `IoError(InvalidInput)`. An error leaves `buffer` as it was, and `len`
/// too, unless only the buffer is too short. The call allocates the file and the bytes of the tags;
/// and where a page has tiles, planes, a method or a predictor, its samples, one such page at a
/// time, or one tile, if they have more than one byte or a sign. Where a page has a parent, the
/// call allocates the offsets of the pages too, and the fields of a parent's directory at a time.
#[tactic(auto, using(crate::proofs::Delivered::told_pages, crate::proofs::Delivered::kept_pages))]
pub fn write_pages(
    alloc: Global,
    version: u16,
    pages: &[NewPage<'_>],
    buffer: &mut [u8],
    len: &mut usize,
    end: &mut PagesEnd,
) -> u32
    ensures answer { PagesTell version pages.now result buffer.old buffer.new len.old len.new
        end.new }
    ensures stays { (result ≡ 0) ⊎ (buffer.new ≡ buffer.old) }
{
    tell_pages(run_pages(alloc, version, pages), buffer, len, end)
}

/// As `write_pages`, but puts into `buffer` only the bytes of the file that aren't the samples of
/// the first `frame.framed` pages, one behind the other, and how many these bytes are into
/// `frame.around`. The file has, for each of these pages, as many bytes of `buffer` as `fronts`
/// says, behind those of the page before, and then the samples of the page; and at its end the
/// bytes of `buffer` that are left. A page that is compressed, or has differences, or has tiles or
/// planes and isn't given by its tiles, or has more samples than its image, isn't one of these
/// pages, nor is any page behind it; nor is one where `fronts` has no place for it. If a page has a
/// parent, or memory is short, `frame.framed` is 0. The errors are those of `write_pages`; an error
/// leaves `buffer` and `fronts` as they were, and `frame` too, unless only the buffer is too short.
/// The call allocates what it puts into `buffer`, and what `write_pages` allocates besides its
/// file.
#[tactic(auto, using(crate::proofs::FramedPages::told_frame, crate::proofs::FramedPages::kept_frame))]
pub fn pages_frame(
    alloc: Global,
    version: u16,
    pages: &[NewPage<'_>],
    buffer: &mut [u8],
    fronts: &mut [usize],
    frame: &mut PagesLengths,
    end: &mut PagesEnd,
) -> u32
    ensures answer { PagesFrameTells version pages.now result
        (record { buffer = buffer.old; fronts = fronts.old; lengths = frame.old })
        (record { buffer = buffer.new; fronts = fronts.new; lengths = frame.new }) end.new }
    ensures stays { (result ≡ 0) ⊎ (buffer.new ≡ buffer.old) }
{
    let answer = frame_pages(alloc, version, pages, fronts.len());
    tell_framed(answer, buffer, fronts, frame, end)
}

/// Writes these pages behind a little-endian TIFF file, classic or BigTIFF: puts the bytes to
/// append to the file into `buffer`, and what they are, and the last link of the file's chain of
/// directories, into `appended`. The caller's file has the pages once it has these bytes at its
/// end, and then the `width` bytes of `target`, the lowest first, at the offset `link`; between the
/// two it has its former pages. Returns 0, or the number of the first error: of the header, but for
/// one that links to no directory; of a big-endian file, `ByteOrderMismatch`; the one by which the
/// chain ends, as `CycleInOffsets`; of the pages, as `write_pages` finds them; of a buffer that is
/// too short, `InsufficientOutputBufferSize`. An error leaves `buffer` as it was. For a buffer that
/// is too short, `appended` is as without an error; after another error it has 0 everywhere, but
/// for where the list of pages is refused. The call neither copies nor changes the file. It
/// allocates the bytes to append, 8 bytes for the link, the offsets of the file's directories, and
/// what `write_pages` allocates besides its file.
#[tactic(auto, using(crate::proofs::ToldBehind::told_appended, crate::proofs::ToldBehind::kept_appended))]
pub fn append_pages(
    alloc: Global,
    file: &[u8],
    pages: &[NewPage<'_>],
    buffer: &mut [u8],
    appended: &mut Appended,
) -> u32
    ensures answer { AppendTells file.now pages.now result buffer.old buffer.new appended.new }
    ensures stays { (result ≡ 0) ⊎ (buffer.new ≡ buffer.old) }
{
    tell_appended(run_appended(alloc, file, pages), buffer, appended)
}

/// Returns the version of these calls, which is `MANGOHATCH_TIFF_VERSION` of the header for C. It
/// is raised when a call changes or is added.
pub fn version() -> u32
    ensures { result ≡ VERSION }
{
    VERSION
}

/// Writes the text of a status into `buffer`, as much of it as fits, and returns how many bytes the
/// whole text has. The text of a number that is no status says so.
pub fn fault_text(status: u32, buffer: &mut [u8]) -> usize
    ensures { PutsText (texts.text_of status) result buffer.old buffer.new }
{
    put_part(text_of(status), buffer)
}

//! All pages of a file, listed for C. One call opens the file once and walks along its chain once.

ghost use Rattle.std.specs.Prelude.{◌≡◌, Result, map};
ghost use Rattle.tiff_base.specs.declared.error.TiffError.{TiffError};
ghost use Rattle.tiff_base.specs.Answers.{AnswersWithoutSource};
ghost use Rattle.tiff_pages.specs.OfFile.{list_of};
ghost use Rattle.tiff_pages.specs.Pages.{Pages, pages_in};
ghost use Rattle.tiff_ffi.specs.List as list;
ghost use Rattle.tiff_ffi.specs.Status as status;

use crate::calls::{Color, color_by, never_failed, open};
use crate::status::{Status, fault_number, status_of};
use std::alloc::Global;
use tiff_base::color::{ChunkType, ColorType};
use tiff_base::error::{TiffError, TiffResult};
use tiff_pages::pages::{PageFacts, PageItem, PageList, pages};

/// A page of a file, as C gets it: the offset of its directory, and the number of its first error,
/// or 0. If that isn't 0, all fields behind `status` are 0. Else they are the page's width and
/// height in pixels and the number of its method; 0 and its color, or the number of the error by
/// which it has no color, and zeros; the number of its chunks' kind; 0 and how many chunks it has,
/// or the number of the error by which they aren't counted, and 0.
#[derive(Clone, Copy, Debug, PartialEq, Eq)]
#[repr(C)]
pub struct ListedPage {
    pub offset: u64,
    pub status: u32,
    pub width: u32,
    pub height: u32,
    pub method: u32,
    pub color_status: u32,
    pub color: Color,
    pub chunk_kind: u32,
    pub count_status: u32,
    pub count: u32,
}

const NO_COLOR: Color = Color {
    kind: 0,
    bits: 0,
    samples: 0,
};

/// What C gets where there is no page.
pub const NO_PAGE: ListedPage = ListedPage {
    offset: 0,
    status: 0,
    width: 0,
    height: 0,
    method: 0,
    color_status: 0,
    color: NO_COLOR,
    chunk_kind: 0,
    count_status: 0,
    count: 0,
};

// A color by its numbers for C; all 0 for an error.
fn color_told(color: &TiffResult<ColorType>) -> Color
    ensures { result ≡ list.color_told color.now }
{
    match color {
        Ok(color) => color_by(*color),
        Err(_) => NO_COLOR,
    }
}

// A count of chunks for C; 0 for an error.
fn count_told(count: &TiffResult<u32>) -> u32
    ensures { result ≡ list.count_told count.now }
{
    match count {
        Ok(count) => *count,
        Err(_) => 0,
    }
}

// The facts of a page that isn't refused, as C gets them.
fn facts_told(offset: u64, facts: &PageFacts) -> ListedPage
    ensures { result ≡ list.page_told offset (Ok facts.now) }
{
    ListedPage {
        offset,
        status: Status::Done as u32,
        width: facts.width,
        height: facts.height,
        method: u32::from(facts.method.to_u16()),
        color_status: status_of(&facts.colour),
        color: color_told(&facts.colour),
        chunk_kind: match facts.kind {
            ChunkType::Strip => 0,
            ChunkType::Tile => 1,
        },
        count_status: status_of(&facts.chunks),
        count: count_told(&facts.chunks),
    }
}

/// The page of the directory at an offset, as C gets it: its facts, or the number of its error and
/// zeros.
pub fn page_told(offset: u64, page: &TiffResult<PageFacts>) -> ListedPage
    ensures { result ≡ list.page_told offset page.now }
{
    match page {
        Ok(facts) => facts_told(offset, facts),
        Err(fault) => ListedPage {
            offset,
            status: fault_number(fault),
            ..NO_PAGE
        },
    }
}

// A page of the chain, as C gets it.
fn item_told(item: &PageItem) -> ListedPage
    ensures { result ≡ list.item_told item.now }
{
    page_told(item.place.0, &item.page)
}

// Puts as many pages into a slice as fit; the elements behind them stay.
fn fill(out: &mut [ListedPage], items: &[PageItem])
    ensures { out.new ≡ list.filled (map list.item_told items.now) out.old }
{
    let count = out.len().min(items.len());
    for i in 0..count {
        out[i] = item_told(&items[i]);
    }
}

// Opens a file and lists its pages.
#[tactic(auto, using(tiff_pages::specs::lemmas::SeenFiles::pages_here))]
fn list_pages(alloc: Global, file: &[u8]) -> TiffResult<PageList>
    ensures { AnswersWithoutSource pages_in result (list_of file.now) }
{
    let mut decoder = open(alloc, file)?;
    never_failed(&decoder);
    let listed = pages(&mut decoder);
    never_failed(&decoder);
    listed
}

/// The number of the error by which a chain ends, or 0.
pub fn end_status(end: &Option<TiffError>) -> u32
    ensures { result ≡ list.end_status end.now }
{
    match end {
        None => Status::Done as u32,
        Some(fault) => fault_number(fault),
    }
}

/// Puts listed pages into `out`, as many as fit, and how many there are into `count`, which is 0
/// before. Returns the number of the error by which their chain ends, or 0; for an error of the
/// list its number.
pub fn tell_pages(listed: TiffResult<PageList>, out: &mut [ListedPage], count: &mut usize) -> u32
    requires { count.old ≡ 0 }
    ensures { (pages : Result Pages TiffError) → AnswersWithoutSource pages_in listed pages
        → list.ListTells pages result out.old out.new count.new }
{
    match listed {
        Ok(listed) => {
            fill(out, &listed.pages);
            *count = listed.pages.len();
            end_status(&listed.end)
        }
        Err(fault) => fault_number(&fault),
    }
}

/// Puts the pages of a file into `out`, as many as fit, and how many there are into `count`.
/// Returns the number of the error by which the chain ends, or 0. If the file isn't opened or
/// memory is out, it returns the number of that error. `count` is then 0, and `out` is as it was.
pub fn list_into(alloc: Global, file: &[u8], out: &mut [ListedPage], count: &mut usize) -> u32
    ensures { list.ListTells (list_of file.now) result out.old out.new count.new }
{
    *count = 0;
    tell_pages(list_pages(alloc, file), out, count)
}

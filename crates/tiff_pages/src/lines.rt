//! The pages of a file as lines of text.

ghost use Rattle.std.specs.Prelude.{◌≡◌, MatchResult, true};
ghost use Rattle.tiff_pages.specs.Check.{are_well};

use crate::check::{FileCheck, ImageSum, PageCheck, check_pages};
use crate::pages::{PageFacts, PageItem, PageList, pages};
use crate::tree::{DirectoryItem, DirectoryList, Found, NamedBy};
use std::alloc::{AllocError, Global};
use std::fmt::Write;
use tiff_base::color::{ChunkType, ColorType};
use tiff_base::error::{TiffError, TiffResult};
use tiff_base::io::Source;
use tiff_decode::decoder::Decoder;

/// Lines of text; the error behind them, if there is one, as that by which a chain of pages ends;
/// and whether all that was asked for was done, as whether each page of a check was read.
#[derive(Debug, Drop)]
pub struct Lines {
    pub text: String,
    pub end: Option<TiffError>,
    pub well: bool,
}

// The name of a color.
fn color_name(color: ColorType) -> &'static str {
    match color {
        ColorType::Gray(_) => "Gray",
        ColorType::RGB(_) => "RGB",
        ColorType::Palette(_) => "Palette",
        ColorType::GrayA(_) => "GrayA",
        ColorType::RGBA(_) => "RGBA",
        ColorType::CMYK(_) => "CMYK",
        ColorType::CMYKA(_) => "CMYKA",
        ColorType::YCbCr(_) => "YCbCr",
        ColorType::Lab(_) => "Lab",
        ColorType::Multiband { .. } => "Multiband",
        _ => "?",
    }
}

// Appends a color: its name, its bits, and for several bands how many they are; or a question mark
// for an error.
fn push_color(text: &mut String, color: &TiffResult<ColorType>) -> Result<(), AllocError> {
    let Ok(color) = color else {
        return text.push_str("?");
    };
    let name = color_name(*color);
    let bits = color.bit_depth();
    match color {
        ColorType::Multiband { num_samples, .. } => write!(text, "{name}{bits}x{num_samples}"),
        _ => write!(text, "{name}{bits}"),
    }
}

// Appends how many chunks there are, or a question mark if they aren't counted.
fn push_count(text: &mut String, count: &TiffResult<u32>) -> Result<(), AllocError> {
    match count {
        Ok(count) => write!(text, "{count}"),
        Err(_) => text.push_str("?"),
    }
}

// Appends the facts of a page: its width and height, its color, the number of its method, and the
// kind and the count of its chunks.
fn push_facts(text: &mut String, facts: &PageFacts) -> Result<(), AllocError> {
    let (width, height) = (facts.width, facts.height);
    write!(text, "{width}x{height} ")?;
    push_color(text, &facts.colour)?;
    let method = facts.method.to_u16();
    let kind = match facts.kind {
        ChunkType::Strip => "strip",
        ChunkType::Tile => "tile",
    };
    write!(text, " {method} {kind} ")?;
    push_count(text, &facts.chunks)
}

// Appends the facts of a page, or the text of its error.
fn push_page(text: &mut String, page: &TiffResult<PageFacts>) -> Result<(), AllocError> {
    match page {
        Ok(facts) => push_facts(text, facts),
        Err(fault) => write!(text, "error: {fault}"),
    }
}

// Appends the line of a page: its number from 0, the offset of its directory, and its facts, or the
// text of its error.
fn push_item(text: &mut String, number: usize, item: &PageItem) -> Result<(), AllocError> {
    let place = item.place.0;
    write!(text, "{number} {place} ")?;
    push_page(text, &item.page)?;
    text.push_str("\n")
}

// The lines of pages, one for each.
fn page_text(alloc: Global, pages: &[PageItem]) -> Result<String, AllocError> {
    let mut text = String::new(alloc);
    for (number, item) in pages.iter().enumerate() {
        push_item(&mut text, number, item)?;
    }
    Ok(text)
}

/// A line for each page of a list, and the error by which the chain ends. The lines are well. The
/// only error is `OutOfMemory`.
pub fn lines_of_pages(alloc: Global, listed: PageList) -> TiffResult<Lines>
    ensures { MatchResult result (λ lines. (lines.well ≡ true) × (lines.end ≡ listed.end))
        (λ e. e ≡ TiffError.OutOfMemory) }
{
    let PageList { pages, end } = listed;
    let text = page_text(alloc, &pages)?;
    Ok(Lines {
        text,
        end,
        well: true,
    })
}

/// Lists the pages of a decoder's file, one line for each. Its errors are those of `pages`:
/// `OutOfMemory`, and `IoError(Device)`.
pub fn list_lines<R: Source>(alloc: Global, decoder: &mut Decoder<R>) -> TiffResult<Lines> {
    lines_of_pages(alloc, pages(decoder)?)
}

// Appends how many bytes an image has, and their sum as eight hexadecimal digits.
fn push_sum(text: &mut String, sum: &ImageSum) -> Result<(), AllocError> {
    let (bytes, adler) = (sum.bytes, sum.adler);
    write!(text, "ok {bytes} {adler:08x}")
}

// Appends the line of a page that was read whole: its number from 0, the offset of its directory,
// and the sum of its image, or the text of its error.
fn push_check(text: &mut String, number: usize, check: &PageCheck) -> Result<(), AllocError> {
    let place = check.place.0;
    write!(text, "{number} {place} ")?;
    match &check.image {
        Ok(sum) => push_sum(text, sum)?,
        Err(fault) => write!(text, "error: {fault}")?,
    }
    text.push_str("\n")
}

// Whether the image of each page was read.
fn are_well(checks: &[PageCheck]) -> bool
    ensures { result ≡ are_well checks.now }
{
    checks.iter().all(|check| check.image.is_ok())
}

// The lines of pages that were read whole, one for each.
fn check_text(alloc: Global, checks: &[PageCheck]) -> Result<String, AllocError> {
    let mut text = String::new(alloc);
    for (number, check) in checks.iter().enumerate() {
        push_check(&mut text, number, check)?;
    }
    Ok(text)
}

/// A line for each page that was read whole. The lines are well if each of them was read. The only
/// error is `OutOfMemory`.
pub fn lines_of_checks(alloc: Global, checked: FileCheck) -> TiffResult<Lines>
    ensures { MatchResult result (λ lines. (lines.well ≡ are_well checked.pages.items)
        × (lines.end ≡ checked.end)) (λ e. e ≡ TiffError.OutOfMemory) }
{
    let text = check_text(alloc, &checked.pages)?;
    let well = are_well(&checked.pages);
    Ok(Lines {
        text,
        end: checked.end,
        well,
    })
}

/// Reads each page of a decoder's file whole, and returns a line for each. Its errors are those of
/// [`check_pages`].
pub fn check_lines<R: Source>(alloc: Global, decoder: &mut Decoder<R>) -> TiffResult<Lines> {
    lines_of_checks(alloc, check_pages(alloc, decoder)?)
}

// Appends two spaces for each level of a depth.
fn push_indent(text: &mut String, depth: u32) -> Result<(), AllocError> {
    for _ in 0..depth {
        text.push_str("  ")?;
    }
    Ok(())
}

// Appends the number of the tag that names a directory, or a dash in the chain.
fn push_tag(text: &mut String, by: Option<NamedBy>) -> Result<(), AllocError> {
    match by {
        Some(named) => {
            let tag = named.tag.to_u16();
            write!(text, "{tag}")
        }
        None => text.push_str("-"),
    }
}

// Appends what is found where a directory is named: of a directory its number of fields, and the
// facts of its page or the text of its error.
fn push_found(text: &mut String, found: &Found) -> Result<(), AllocError> {
    match found {
        Found::Directory(facts) => {
            let fields = facts.fields;
            write!(text, "{fields} ")?;
            push_page(text, &facts.page)
        }
        Found::DirectoryError(fault) => write!(text, "error: {fault}"),
        Found::ValuesError(fault) => write!(text, "values error: {fault}"),
        Found::Met => text.push_str("met"),
        Found::TooDeep => text.push_str("too deep"),
    }
}

// Appends the line of a place where a directory is named, indented by its depth: its offset, the
// tag that names it, and what is found there.
fn push_directory(text: &mut String, item: &DirectoryItem) -> Result<(), AllocError> {
    push_indent(text, item.depth)?;
    let place = item.place.0;
    write!(text, "{place} ")?;
    push_tag(text, item.by)?;
    text.push_str(" ")?;
    push_found(text, &item.found)?;
    text.push_str("\n")
}

// The lines of a tree of directories, one for each item.
fn directory_text(alloc: Global, items: &[DirectoryItem]) -> Result<String, AllocError> {
    let mut text = String::new(alloc);
    for item in items {
        push_directory(&mut text, item)?;
    }
    Ok(text)
}

/// A line for each item of a tree of directories, in the order of the tree, and the error by which
/// the chain ends. The lines are well. The only error is `OutOfMemory`.
pub fn lines_of_directories(alloc: Global, listed: DirectoryList) -> TiffResult<Lines>
    ensures { MatchResult result (λ lines. (lines.well ≡ true) × (lines.end ≡ listed.end))
        (λ e. e ≡ TiffError.OutOfMemory) }
{
    let text = directory_text(alloc, &listed.directories)?;
    Ok(Lines {
        text,
        end: listed.end,
        well: true,
    })
}

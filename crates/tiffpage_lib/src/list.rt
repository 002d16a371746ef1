//! The pages of a file in memory as lines.

ghost use Rattle.tiff.specs.Answers.{AnswersBut};
ghost use Rattle.tiff_pages.specs.Check.{checks_in};
ghost use Rattle.tiff_pages.specs.OfFile.{tree_of};
ghost use Rattle.tiff_pages.specs.Pages.{pages_in};
ghost use Rattle.tiff_pages.specs.Tree.{directories_in};
ghost use Rattle.tiffpage_lib.specs.Check.{checks_under, told_under};
ghost use Rattle.tiffpage_lib.specs.Directories.{told_of_directories};
ghost use Rattle.tiffpage_lib.specs.List.{pages_from_first, told_of_list};

use std::alloc::Global;
use tiff::TiffResult;
use tiff::decoder::{Decoder, Limits};
use tiff::io::MemorySource;
use tiff_pages::check::{FileCheck, check_pages};
use tiff_pages::lines::{Lines, lines_of_checks, lines_of_directories, lines_of_pages};
use tiff_pages::pages::{PageList, pages};
use tiff_pages::tree::{DirectoryList, directories};

/// Lists the pages of a file that is opened at its first page, as [`pages`] does; or returns the
/// error of the file's header, or of its first page.
pub fn list_from_first(alloc: Global, file: Vec<u8>) -> TiffResult<PageList>
    ensures { AnswersBut (Unit {0}) (Unit {0}) pages_in result (pages_from_first file.items) }
{
    let mut decoder = Decoder::new(alloc, MemorySource::new(file))?;
    pages(&mut decoder)
}

/// Lists the pages of a file, and returns a line for each; or returns the error of the file's
/// header, or of its first page.
pub fn file_list(alloc: Global, file: Vec<u8>) -> TiffResult<Lines>
    ensures { AnswersBut (Unit {0}) (Unit {0}) (λ lines. (lines.well, lines.end)) result
        (told_of_list file.items) }
{
    lines_of_pages(alloc, list_from_first(alloc, file)?)
}

/// Checks the pages of a file under limits, as [`check_pages`] does; or returns the error of the
/// file's header. A first page that is refused is checked as others are.
#[tactic(auto, unfolding(tiff_decode::specs::Outcome::set_limits))]
pub fn check_file(alloc: Global, file: Vec<u8>, limits: Limits) -> TiffResult<FileCheck>
    ensures { AnswersBut (Unit {0}) (Unit {0}) checks_in result (checks_under limits file.items) }
{
    let mut decoder = Decoder::open(alloc, MemorySource::new(file))?.with_limits(limits);
    check_pages(alloc, &mut decoder)
}

/// Reads each page of a file whole under limits, and returns a line for each; or returns the error
/// of the file's header. The lines are well if each page was read.
pub fn file_check(alloc: Global, file: Vec<u8>, limits: Limits) -> TiffResult<Lines>
    ensures { AnswersBut (Unit {0}) (Unit {0}) (λ lines. (lines.well, lines.end)) result
        (told_under limits file.items) }
{
    lines_of_checks(alloc, check_file(alloc, file, limits)?)
}

/// Lists the directories of a file, as [`directories`] does; or returns the error of the file's
/// header. A first directory that is refused is listed as others are.
pub fn list_tree(alloc: Global, file: Vec<u8>) -> TiffResult<DirectoryList>
    ensures { AnswersBut (Unit {0}) (Unit {0}) directories_in result (tree_of file.items) }
{
    let mut decoder = Decoder::open(alloc, MemorySource::new(file))?;
    directories(&mut decoder)
}

/// Lists the directories of a file, and returns a line for each, in the order of their tree; or
/// returns the error of the file's header.
pub fn file_directories(alloc: Global, file: Vec<u8>) -> TiffResult<Lines>
    ensures { AnswersBut (Unit {0}) (Unit {0}) (λ lines. (lines.well, lines.end)) result
        (told_of_directories file.items) }
{
    lines_of_directories(alloc, list_tree(alloc, file)?)
}

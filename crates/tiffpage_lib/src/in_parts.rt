//! Long files: their directories, and the check of their pages, by parts of them.

ghost use Rattle.tiff.specs.Answers.{AnswersWithoutSource};
ghost use Rattle.tiff_pages.specs.Check.{checks_in};
ghost use Rattle.tiff_pages.specs.OfFile.{check_of, list_of, tree_of};
ghost use Rattle.tiff_pages.specs.Pages.{pages_in};
ghost use Rattle.tiff_pages.specs.Tree.{directories_in};
ghost use Rattle.tiffpage_lib.specs.Check.{checks_under, told_under};
ghost use Rattle.tiffpage_lib.specs.Directories.{told_of_directories};
ghost use Rattle.tiffpage_lib.specs.Parts.{SeesBy};
ghost use Rattle.tiffpage_lib.specs.lemmas.Memory.{memory_out};

use crate::failure::Failure;
use crate::files::Files;
use crate::parts::{Question, answer_by_parts};
use std::alloc::Global;
use std::marker::Brand;
use tiff::decoder::Limits;
use tiff::tags::IfdPointer;
use tiff::{TiffError, TiffResult};
use tiff_base::windows::{OrderedWindows, SeenFile, Stretch};
use tiff_pages::check::{FileCheck, PageCheck};
use tiff_pages::lines::{Lines, lines_of_checks, lines_of_directories};
use tiff_pages::pages::PageList;
use tiff_pages::seen::{check_seen, directories_seen, pages_seen};
use tiff_pages::tree::DirectoryList;

// Which directories a file has.
#[derive(Drop)]
struct WhichDirectories;

impl Question for WhichDirectories {
    type Answer = DirectoryList;

    ghost may = { λ question file answer. AnswersWithoutSource directories_in answer (tree_of file) };

    fn ask<S: SeenFile>(
        &self,
        alloc: Global,
        seen: &OrderedWindows<'_>,
    ) -> Result<TiffResult<DirectoryList>, Stretch> {
        directories_seen::<Brand>(alloc, seen)
    }

    fn wants_chain(&self) -> bool {
        true
    }

    ghost memory = { λ question file. memory_out };
}

// Which pages a file has.
#[derive(Drop)]
struct WhichPages;

impl Question for WhichPages {
    type Answer = PageList;

    ghost may = { λ question file answer. AnswersWithoutSource pages_in answer (list_of file) };

    fn ask<S: SeenFile>(
        &self,
        alloc: Global,
        seen: &OrderedWindows<'_>,
    ) -> Result<TiffResult<PageList>, Stretch> {
        pages_seen::<Brand>(alloc, seen)
    }

    fn wants_chain(&self) -> bool {
        true
    }

    ghost memory = { λ question file. memory_out };
}

// What the image of the page at an offset comes to, under limits.
#[derive(Drop)]
struct WhichImage<'a> {
    limits: &'a Limits,
    place: IfdPointer,
}

impl Question for WhichImage<'_> {
    type Answer = PageCheck;

    ghost may = { λ question file answer. AnswersWithoutSource (λ check. check) answer
        (check_of file question.limits.now question.place.0) };

    fn ask<S: SeenFile>(
        &self,
        alloc: Global,
        seen: &OrderedWindows<'_>,
    ) -> Result<TiffResult<PageCheck>, Stretch> {
        check_seen::<Brand>(alloc, seen, self.limits, self.place)
    }

    fn wants_chain(&self) -> bool {
        false
    }

    ghost memory = { λ question file. memory_out };
}

/// The directories of a file of `len` bytes, one line for each, as `file_directories` returns them.
pub(crate) fn directories_in_parts<'a, S: SeenFile, F: Files>(
    alloc: Global,
    name: &'a str,
    len: u64,
    files: &mut F,
) -> Result<Lines, Failure<'a>>
    ensures { SeesBy F.reads_part name.entry len S.bytes (λ answer. AnswersWithoutSource
        (λ lines. (lines.well, lines.end)) answer (told_of_directories S.bytes)) files.old result files.new }
{
    let question = WhichDirectories;
    let listed = answer_by_parts::<WhichDirectories, S, F>(alloc, &question, name, len, files)?;
    Ok(lines_of_directories(alloc, listed)?)
}

// The pages of a file of `len` bytes, each read whole under limits. Parts are read for each page
// anew, so the memory is that of one page.
fn checks_in_parts<'a, S: SeenFile, F: Files>(
    alloc: Global,
    name: &'a str,
    len: u64,
    limits: &Limits,
    files: &mut F,
) -> Result<FileCheck, Failure<'a>>
    ensures { SeesBy F.reads_part name.entry len S.bytes (λ answer. AnswersWithoutSource checks_in answer
        (checks_under limits.now S.bytes)) files.old result files.new }
{
    let question = WhichPages;
    let PageList { pages, end } = answer_by_parts::<WhichPages, S, F>(
        alloc, &question, name, len, files,
    )?;
    let mut checks = Vec::new(alloc);
    for page in &pages {
        let question = WhichImage {
            limits,
            place: page.place,
        };
        let check = answer_by_parts::<WhichImage<'_>, S, F>(alloc, &question, name, len, files)?;
        if checks.push(check).is_err() {
            return Err(Failure::Tiff(TiffError::OutOfMemory));
        }
    }
    Ok(FileCheck { pages: checks, end })
}

/// The pages of a file of `len` bytes, each read whole under limits, one line for each, as
/// `file_check` returns them.
pub(crate) fn check_in_parts<'a, S: SeenFile, F: Files>(
    alloc: Global,
    name: &'a str,
    len: u64,
    limits: &Limits,
    files: &mut F,
) -> Result<Lines, Failure<'a>>
    ensures { SeesBy F.reads_part name.entry len S.bytes (λ answer. AnswersWithoutSource
        (λ lines. (lines.well, lines.end)) answer (told_under limits.now S.bytes)) files.old result files.new }
{
    let checked = checks_in_parts::<S, F>(alloc, name, len, limits, files)?;
    Ok(lines_of_checks(alloc, checked)?)
}

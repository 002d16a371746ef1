//! All directories of a file, listed for C: those of its chain, and those that tags name.

ghost use Rattle.std.specs.Prelude.{◌≡◌, Result, map};
ghost use Rattle.tiff_base.specs.declared.error.TiffError.{TiffError};
ghost use Rattle.tiff_base.specs.Answers.{AnswersWithoutSource};
ghost use Rattle.tiff_pages.specs.OfFile.{tree_of};
ghost use Rattle.tiff_pages.specs.Tree.{Directories, directories_in};
ghost use Rattle.tiff_ffi.specs.Directories as spec;
ghost use Rattle.tiff_ffi.specs.List.{filled};

use crate::calls::{never_failed, open};
use crate::list::{ListedPage, NO_PAGE, end_status, page_told};
use crate::status::{Status, fault_number};
use std::alloc::Global;
use tiff_base::error::TiffResult;
use tiff_pages::tree::{DirectoryItem, DirectoryList, Found, NamedBy, directories};

/// A place where a directory is named, as C gets it: the offset of the directory, or that of the
/// directory with the tag if the tag's values can't be read; the offset of the directory with the
/// tag, or 0 in the chain; the number of the directory's fields, or 0; the depth, 0 in the chain;
/// the number of the tag, or 0 in the chain; the number of what is found; the number of the error
/// by which the directory or the tag's values can't be read, or 0; and the directory's page, with
/// its own offset and error, or zeros where there is no directory.
#[derive(Clone, Copy, Debug, PartialEq, Eq)]
#[repr(C)]
pub struct ListedDirectory {
    pub offset: u64,
    pub parent: u64,
    pub fields: u64,
    pub depth: u32,
    pub tag: u32,
    pub found: u32,
    pub status: u32,
    pub page: ListedPage,
}

// The offset of the directory with the tag that names a directory; 0 in the chain.
fn parent_told(by: &Option<NamedBy>) -> u64
    ensures { result ≡ spec.parent_told by.now }
{
    match by {
        None => 0,
        Some(by) => by.directory.0,
    }
}

// The number of the tag that names a directory; 0 in the chain.
fn tag_told(by: &Option<NamedBy>) -> u32
    ensures { result ≡ spec.tag_told by.now }
{
    match by {
        None => 0,
        Some(by) => u32::from(by.tag.to_u16()),
    }
}

// The number of what is found, as C gets it.
fn found_number(found: &Found) -> u32
    ensures { result ≡ spec.found_number found.now }
{
    match found {
        Found::Directory(_) => 0,
        Found::DirectoryError(_) => 1,
        Found::ValuesError(_) => 2,
        Found::Met => 3,
        Found::TooDeep => 4,
    }
}

// The number of the error that is found, or 0.
fn found_status(found: &Found) -> u32
    ensures { result ≡ spec.found_status found.now }
{
    match found {
        Found::DirectoryError(fault) | Found::ValuesError(fault) => fault_number(fault),
        Found::Directory(_) | Found::Met | Found::TooDeep => Status::Done as u32,
    }
}

// The number of a directory's fields; 0 where there is no directory.
fn found_fields(found: &Found) -> u64
    ensures { result ≡ spec.found_fields found.now }
{
    match found {
        Found::Directory(facts) => facts.fields as u64,
        _ => 0,
    }
}

// The page of the directory at an offset; zeros where there is no directory.
fn found_page(offset: u64, found: &Found) -> ListedPage
    ensures { result ≡ spec.found_page offset found.now }
{
    match found {
        Found::Directory(facts) => page_told(offset, &facts.page),
        _ => NO_PAGE,
    }
}

// A place where a directory is named, as C gets it.
fn directory_told(item: &DirectoryItem) -> ListedDirectory
    ensures { result ≡ spec.directory_told item.now }
{
    let offset = item.place.0;
    ListedDirectory {
        offset,
        parent: parent_told(&item.by),
        fields: found_fields(&item.found),
        depth: item.depth,
        tag: tag_told(&item.by),
        found: found_number(&item.found),
        status: found_status(&item.found),
        page: found_page(offset, &item.found),
    }
}

// Puts as many directories into a slice as fit; the elements behind them stay.
fn fill(out: &mut [ListedDirectory], items: &[DirectoryItem])
    ensures { out.new ≡ filled (map spec.directory_told items.now) out.old }
{
    let count = out.len().min(items.len());
    for i in 0..count {
        out[i] = directory_told(&items[i]);
    }
}

// Opens a file and lists its directories.
#[tactic(auto, using(tiff_pages::specs::lemmas::SeenFiles::directories_here))]
fn list_directories(alloc: Global, file: &[u8]) -> TiffResult<DirectoryList>
    ensures { AnswersWithoutSource directories_in result (tree_of file.now) }
{
    let mut decoder = open(alloc, file)?;
    never_failed(&decoder);
    let listed = directories(&mut decoder);
    never_failed(&decoder);
    listed
}

/// Puts listed directories into `out`, as many as fit, and how many there are into `count`, which
/// is 0 before. Returns the number of the error by which their chain ends, or 0; for an error of
/// the list its number.
pub fn tell_directories(
    listed: TiffResult<DirectoryList>,
    out: &mut [ListedDirectory],
    count: &mut usize,
) -> u32
    requires { count.old ≡ 0 }
    ensures { (tree : Result Directories TiffError) → AnswersWithoutSource directories_in listed tree
        → spec.TreeTells tree result out.old out.new count.new }
{
    match listed {
        Ok(listed) => {
            fill(out, &listed.directories);
            *count = listed.directories.len();
            end_status(&listed.end)
        }
        Err(fault) => fault_number(&fault),
    }
}

/// Puts the directories of a file into `out`, in the order of their tree, as many as fit, and how
/// many there are into `count`. Returns the number of the error by which the chain ends, or 0. If
/// the file isn't opened or memory is out, it returns the number of that error. `count` is then 0,
/// and `out` is as it was.
pub fn list_tree(alloc: Global, file: &[u8], out: &mut [ListedDirectory], count: &mut usize) -> u32
    ensures { spec.TreeTells (tree_of file.now) result out.old out.new count.new }
{
    *count = 0;
    tell_directories(list_directories(alloc, file), out, count)
}

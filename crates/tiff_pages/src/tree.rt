//! The tree of a file's directories.

ghost use Rattle.std.specs.Prelude.{◌≡◌, ◌≤◌, [], Err, IfOk, MatchResult, OnOk, Ok, fold, map, suc};
ghost use Rattle.tiff_base.specs.Answers.{Answers};
ghost use Rattle.tiff_base.specs.Directory.{directory_at};
ghost use Rattle.tiff_pages.specs.Pages.{facts_at};
ghost use Rattle.tiff_pages.specs.Tree.{LeavesTree, Shows, below, deepest, directories_in, directories_of, expand, found_in, found_named, is_open, list_offset, list_tag, list_values, met_by, most_values, names_directories, page_item, pointers, values_of, values_within, with_item};

use crate::pages::{PageFacts, PageItem, facts_here, file_answer, pages};
use std::alloc::{AllocError, Global};
use std::marker::Model;
use tiff_base::directory::Directory;
use tiff_base::error::{TiffError, TiffResult};
use tiff_base::io::Source;
use tiff_base::tags::{IfdPointer, Tag, Type};
use tiff_decode::decoder::Decoder;
use tiff_ifd::offsets::Offsets;

/// The depth of the deepest directories that are listed. The chain has depth 0. Exif, GPS and
/// previews together are less deep.
pub const DEEPEST: u32 = 8;

/// The most values of tags, of all directories of a file, that a list takes: those of 10,000 pages
/// with 100 directories each are within it.
pub const MOST_VALUES: u64 = 1_048_576;

/// What names a directory outside the chain: the offset of a directory, and the tag of it that has
/// the named directory's offset as a value.
#[derive(Clone, Copy, Debug, Drop)]
pub struct NamedBy {
    pub directory: IfdPointer,
    pub tag: Tag,
}

/// A directory that can be read: its number of fields, and the facts of its page, or the first
/// error of the page. A directory without an image, as that of Exif, has such an error.
#[derive(Debug, Drop)]
pub struct DirectoryFacts {
    pub fields: usize,
    pub page: TiffResult<PageFacts>,
}

/// What is found where a directory is named.
#[derive(Debug, Drop)]
pub enum Found {
    /// A directory.
    Directory(DirectoryFacts),
    /// The error by which the directory can't be read.
    DirectoryError(TiffError),
    /// The error by which the tag's values can't be read as numbers; `LimitsExceeded` if there are
    /// more than the list takes.
    ValuesError(TiffError),
    /// A directory that the list has elsewhere.
    Met,
    /// A directory deeper than `DEEPEST`.
    TooDeep,
}

/// A place where a directory is named: the offset of the directory, or that of the directory with
/// the tag if the tag's values can't be read; the depth, 0 in the chain; what names the directory,
/// or `None` in the chain; and what is found there.
#[derive(Debug, Drop)]
pub struct DirectoryItem {
    pub place: IfdPointer,
    pub depth: u32,
    pub by: Option<NamedBy>,
    pub found: Found,
}

/// The directories of a file in the order of their tree, and the error by which the chain ends, if
/// it ends by one.
#[derive(Debug, Drop)]
pub struct DirectoryList {
    pub directories: Vec<DirectoryItem>,
    pub end: Option<TiffError>,
}

// The items so far; the offsets of the directories among them, in the order in which they were met;
// and how many more values of tags the list takes.
#[derive(Drop)]
struct Listing {
    items: Vec<DirectoryItem>,
    met: Offsets,
    left: u64,
}

impl Model for Listing {
    ghost use Rattle.tiff_pages.specs.Listed.{ListingRecord};

    ghost Value = { ListingRecord };

    ghost view = { λ l. record { items = l.items.items; met = l.met; left = l.left } };
}

// Whether the values of a tag with this type are offsets of directories.
fn names_directories(tag: Tag, field_type: Type) -> bool
    ensures { result ≡ names_directories tag field_type }
{
    matches!(field_type, Type::IFD | Type::IFD8)
        || matches!(tag.to_u16(), 330 | 34665 | 34853 | 40965)
}

// The tags of a directory whose values are offsets of directories, and how many values each has.
fn pointers(alloc: Global, directory: &Directory) -> Result<Vec<(Tag, u64)>, AllocError>
    ensures { IfOk result (λ found. found.items ≡ pointers directory.now.entries) }
{
    let mut found = Vec::new(alloc);
    for (tag, entry) in directory.iter() {
        if names_directories(tag, entry.field_type()) {
            found.push((tag, entry.count()))?;
        }
    }
    Ok(found)
}

// The facts of the page of the directory at an offset, or its first error.
fn facts_at<R: Source>(
    decoder: &mut Decoder<R>,
    place: IfdPointer,
) -> TiffResult<TiffResult<PageFacts>>
    ensures shows { Shows result decoder.old decoder.new }
    ensures facts { IfOk result (λ page. page ≡ facts_at decoder.old place.0) }
{
    match file_answer(decoder.show_directory(place))? {
        Ok(()) => Ok(Ok(facts_here(decoder)?)),
        Err(fault) => Ok(Err(fault)),
    }
}

// The directory at an offset, or the error by which it can't be read.
fn directory_at<R: Source>(
    decoder: &mut Decoder<R>,
    place: IfdPointer,
) -> TiffResult<TiffResult<Directory>>
    ensures shows { Shows result decoder.old decoder.new }
    ensures directory { IfOk result (λ read. read
        ≡ directory_at decoder.old.kind decoder.old.order decoder.old.bytes place.0) }
{
    file_answer(decoder.read_directory(place))
}

// The numbers of a tag of a directory, or the error by which they can't be read.
fn values_of<R: Source>(
    decoder: &mut Decoder<R>,
    directory: &Directory,
    tag: Tag,
) -> TiffResult<TiffResult<Vec<u64>>>
    ensures shows { Shows result decoder.old decoder.new }
    ensures values { IfOk result (λ read. MatchResult read
        (λ v. values_of decoder.old directory.now tag ≡ Ok v.items)
        (λ e. values_of decoder.old directory.now tag ≡ Err e)) }
{
    let mut tags = decoder.read_directory_tags(directory);
    file_answer(tags.get_tag_u64_vec(tag))
}

// The numbers of a tag of a directory, if a list that takes `left` more values takes so many, or
// the error by which they can't be read.
fn values_within<R: Source>(
    decoder: &mut Decoder<R>,
    directory: &Directory,
    left: u64,
    pointer: (Tag, u64),
) -> TiffResult<TiffResult<Vec<u64>>>
    ensures shows { Shows result decoder.old decoder.new }
    ensures values { IfOk result (λ read. MatchResult read
        (λ v. values_within decoder.old directory.now left pointer ≡ Ok v.items)
        (λ e. values_within decoder.old directory.now left pointer ≡ Err e)) }
{
    let (tag, count) = pointer;
    // Counted before they are read: fields of a forged file may share their values.
    if left < count {
        return Ok(Err(TiffError::LimitsExceeded));
    }
    values_of(decoder, directory, tag)
}

// What is found at an offset whose page has these facts or this error.
fn found_at<R: Source>(
    decoder: &mut Decoder<R>,
    place: IfdPointer,
    page: TiffResult<PageFacts>,
) -> TiffResult<Found>
    ensures shows { Shows result decoder.old decoder.new }
    ensures found { IfOk result (λ found. found ≡ found_in
        (directory_at decoder.old.kind decoder.old.order decoder.old.bytes place.0) page) }
{
    match directory_at(decoder, place)? {
        Ok(directory) => Ok(Found::Directory(DirectoryFacts {
            fields: directory.len(),
            page,
        })),
        Err(fault) => Ok(Found::DirectoryError(fault)),
    }
}

// The item of a page of the chain.
fn page_item<R: Source>(decoder: &mut Decoder<R>, page: PageItem) -> TiffResult<DirectoryItem>
    ensures shows { Shows result decoder.old decoder.new }
    ensures item { IfOk result (λ item. item ≡ page_item decoder.old page) }
{
    let place = page.place;
    let found = found_at(decoder, place, page.page)?;
    Ok(DirectoryItem {
        place,
        depth: 0,
        by: None,
        found,
    })
}

impl Listing {
    // A list of nothing.
    fn new(alloc: Global) -> Self
        ensures { result ≡ record { items = []; met = []; left = most_values } }
    {
        Listing {
            items: Vec::new(alloc),
            met: Offsets::new(alloc),
            left: MOST_VALUES,
        }
    }

    // Lists an item.
    fn push(&mut self, item: DirectoryItem) -> Result<(), AllocError>
        ensures { OnOk result (self.new ≡ with_item self.old item) }
    {
        self.items.push(item)?;
        Ok(())
    }
}

// Lists the pages of a chain, as an item each.
fn list_chain<R: Source>(decoder: &mut Decoder<R>, pages: Vec<PageItem>) -> TiffResult<Listing>
    ensures shows { Shows result decoder.old decoder.new }
    ensures items { IfOk result (λ l. l.items ≡ map (page_item decoder.old) pages.items) }
    ensures met { IfOk result (λ l. l.met ≡ map (λ page. page.place.0) pages.items) }
    ensures left { IfOk result (λ l. l.left ≡ most_values) }
{
    let mut listing = Listing::new(decoder.allocator());
    for page in pages {
        listing.met.push(page.place.0)?;
        listing.push(page_item(decoder, page)?)?;
    }
    Ok(listing)
}

// What is found at an offset that a tag names at this depth. A directory that is listed is met.
fn find_named<R: Source>(
    decoder: &mut Decoder<R>,
    met: &mut Offsets,
    depth: u32,
    place: IfdPointer,
) -> TiffResult<Found>
    ensures shows { Shows result decoder.old decoder.new }
    ensures found { IfOk result (λ found. found ≡ found_named decoder.old met.old depth place.0) }
    ensures met { OnOk result (met.new ≡ met_by met.old depth place.0) }
{
    if met.contains(place.0)? {
        return Ok(Found::Met);
    }
    if depth > DEEPEST {
        return Ok(Found::TooDeep);
    }
    met.push(place.0)?;
    let page = facts_at(decoder, place)?;
    found_at(decoder, place, page)
}

// Lists the directory at an offset that a tag has as a value.
fn list_offset<R: Source>(
    decoder: &mut Decoder<R>,
    listing: &mut Listing,
    by: NamedBy,
    depth: u32,
    offset: u64,
) -> TiffResult<()>
    ensures shows { Shows result decoder.old decoder.new }
    ensures listing { OnOk result (listing.new ≡ list_offset decoder.old by depth listing.old offset) }
{
    let place = IfdPointer(offset);
    let found = find_named(decoder, &mut listing.met, depth, place)?;
    listing.push(DirectoryItem {
        place,
        depth,
        by: Some(by),
        found,
    })?;
    Ok(())
}

// Lists the directories at offsets that a tag has as values.
fn list_offsets<R: Source>(
    decoder: &mut Decoder<R>,
    listing: &mut Listing,
    by: NamedBy,
    depth: u32,
    offsets: &[u64],
) -> TiffResult<()>
    ensures shows { Shows result decoder.old decoder.new }
    ensures listing { OnOk result
        (listing.new ≡ fold (list_offset decoder.old by depth) listing.old offsets.now) }
{
    for offset in offsets {
        list_offset(decoder, listing, by, depth, *offset)?;
    }
    Ok(())
}

// Lists the directories that a tag names by these values, or the error by which they can't be read.
fn list_values<R: Source>(
    decoder: &mut Decoder<R>,
    listing: &mut Listing,
    by: NamedBy,
    depth: u32,
    values: TiffResult<Vec<u64>>,
) -> TiffResult<()>
    ensures shows { Shows result decoder.old decoder.new }
    ensures listing { OnOk result (MatchResult values
        (λ v. listing.new ≡ list_values decoder.old by depth listing.old (Ok v.items))
        (λ e. listing.new ≡ list_values decoder.old by depth listing.old (Err e))) }
{
    match values {
        Ok(offsets) => {
            listing.left = listing.left.saturating_sub(offsets.len() as u64);
            list_offsets(decoder, listing, by, depth, &offsets)
        }
        Err(fault) => {
            listing.push(DirectoryItem {
                place: by.directory,
                depth,
                by: Some(by),
                found: Found::ValuesError(fault),
            })?;
            Ok(())
        }
    }
}

// Lists the directories that tags of a directory name.
fn list_tags<R: Source>(
    decoder: &mut Decoder<R>,
    listing: &mut Listing,
    directory: &Directory,
    place: IfdPointer,
    depth: u32,
) -> TiffResult<()>
    ensures shows { Shows result decoder.old decoder.new }
    ensures listing { OnOk result (listing.new ≡ fold (list_tag decoder.old directory.now place depth)
        listing.old (pointers directory.now.entries)) }
{
    let pointers = pointers(decoder.allocator(), directory)?;
    for pointer in &pointers {
        let by = NamedBy {
            directory: place,
            tag: pointer.0,
        };
        let values = values_within(decoder, directory, listing.left, *pointer)?;
        list_values(decoder, listing, by, depth, values)?;
    }
    Ok(())
}

// Whether an item is a directory of this depth.
fn is_open(item: &DirectoryItem, depth: u32) -> bool
    ensures { result ≡ is_open depth item.now }
{
    match &item.found {
        Found::Directory(_) => item.depth == depth,
        _ => false,
    }
}

// Lists an item, and behind it, if it is a directory of this depth, the directories that it names.
fn expand<R: Source>(
    decoder: &mut Decoder<R>,
    listing: &mut Listing,
    depth: u32,
    item: DirectoryItem,
) -> TiffResult<()>
    requires { depth ≤ deepest }
    ensures shows { Shows result decoder.old decoder.new }
    ensures listing { OnOk result (listing.new ≡ expand decoder.old depth listing.old item) }
{
    let place = item.place;
    let names = is_open(&item, depth);
    listing.push(item)?;
    if !names {
        return Ok(());
    }
    match directory_at(decoder, place)? {
        Ok(directory) => list_tags(decoder, listing, &directory, place, depth + 1),
        Err(_) => Ok(()),
    }
}

// Lists items anew, and behind each directory of this depth the directories that it names.
fn expand_all<R: Source>(
    decoder: &mut Decoder<R>,
    listing: &mut Listing,
    depth: u32,
    items: Vec<DirectoryItem>,
) -> TiffResult<()>
    requires { depth ≤ deepest }
    ensures shows { Shows result decoder.old decoder.new }
    ensures listing { OnOk result
        (listing.new ≡ fold (expand decoder.old depth) listing.old items.items) }
{
    for item in items {
        expand(decoder, listing, depth, item)?;
    }
    Ok(())
}

// Lists behind each directory the directories that it names, level by level.
fn list_levels<R: Source>(decoder: &mut Decoder<R>, listing: &mut Listing) -> TiffResult<()>
    ensures shows { Shows result decoder.old decoder.new }
    ensures listing { OnOk result
        (listing.new ≡ below decoder.old (suc deepest) listing.old) }
{
    // Level by level, so a directory is listed nearest to the chain, and cycles need no rule.
    for depth in 0..DEEPEST + 1 {
        let alloc = decoder.allocator();
        let items = std::mem::replace(&mut listing.items, Vec::new(alloc));
        expand_all(decoder, listing, depth, items)?;
    }
    Ok(())
}

/// Lists the directories of a decoder's file, wherever the decoder is: those of the chain, and from
/// each those that its tags name by their values. These tags are the ones of type IFD and IFD8
/// (TIFF 6.0 Technical Note 1; BigTIFF), and SubIFDs (330; Technical Note 1), the pointers to the
/// directories of Exif (34665), GPS (34853) and interoperability (40965; Exif 2.3), of any type.
///
/// The order is that of a tree: behind a directory come the directories that it names, by ascending
/// tag and in the order of the tag's values, each with all below it, and then the next directory of
/// the chain. A directory is listed once, nearest to the chain and then first in this order; where
/// it is named elsewhere, the item is `Met`. A directory is `TooDeep` if it would be deeper than
/// `DEEPEST`. The errors of the file are items: of a directory, of its page, of a tag's values,
/// also `LimitsExceeded` under the decoder's limits, or where a tag has more values than are left
/// of `MOST_VALUES` for all tags. The list has the error by which the chain ends, if it ends by
/// one.
///
/// The only errors of the list are `OutOfMemory` and an error of the device, `IoError(Device)`.
/// After the list, the decoder is in the chain where [`pages`] leaves it, and shows the page of any
/// directory of the file. After an error it has the same file and limits.
pub fn directories<R: Source>(decoder: &mut Decoder<R>) -> TiffResult<DirectoryList>
    ensures answer { Answers directories_in result (Ok (directories_of decoder.old))
        decoder.old.failures decoder.new.failures }
    ensures decoder { LeavesTree result decoder.old decoder.new }
    ensures readable { decoder.new.readable ≡ decoder.old.readable }
{
    let listed = pages(decoder)?;
    let mut listing = list_chain(decoder, listed.pages)?;
    list_levels(decoder, &mut listing)?;
    Ok(DirectoryList {
        directories: listing.items,
        end: listed.end,
    })
}

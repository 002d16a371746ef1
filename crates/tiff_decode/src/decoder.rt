//! Reads TIFF files.

ghost use Rattle.std.specs.Prelude.{◌≡◌, ◌<◌, ◌≤◌, ◌+◌, ◌++◌, ℕ, List, [], ◌∷◌, IfOk, IfErr, IfSome, IfNone, OnOk, OnErr, None, Some, Ok, true, false, if◌then◌else◌, is_some, option_map, length, Option, Bool};
ghost use Rattle.std.specs.List.{last_or, slice_get};
ghost use Rattle.tiff_base.specs.Answers.{Answers, AnswersBut, ReadsOnly, FailsFrom, IsCause, IsKept};
ghost use Rattle.tiff_base.specs.Directory.{directory_at};
ghost use Rattle.tiff_base.specs.declared.color.ColorType.{ColorType};
ghost use Rattle.tiff_page.specs.Layout.{color_of};
ghost use Rattle.tiff_page.specs.PageView.{page as page_record};
ghost use Rattle.tiff_ifd.specs.Stretches.{DirectoryReadable};
ghost use Rattle.tiff_ifd.specs.IfdChainWalk.{ChainBegins, ChainEnds, NextReadable};
ghost use Rattle.tiff_page.specs.Reach.{PageReadable};
ghost use Rattle.tiff_decode.specs.Asked.{EntryReadable, NextPageReadable, OpenReadable, SeekReadable};
ghost use Rattle.tiff_decode.specs.ChainPosition.{IsInChain, IsAt, index_behind};
ghost use Rattle.tiff_decode.specs.Machine.{Decoding, Follows, FollowsBut, FollowsCall, FollowsOrFaults, FollowsWithoutEither, Tells, from_fields, keeps_state, source_of};
ghost use Rattle.tiff_decode.specs.Outcome as outcome;
ghost use Rattle.tiff_decode.specs.Outcome.{decoder_of, first_directory, page_in};

pub use crate::result::DecodingResult;
use std::alloc::Global;
use std::fmt;
use std::marker::Model;
use tiff_base::color::ColorType;
use tiff_base::directory::Directory;
use tiff_base::error::{TiffError, TiffFormatError, TiffResult};
use tiff_base::io::{IoKind, Source};
use tiff_base::tags::{ByteOrder, FileKind, IfdPointer};
use tiff_ifd::decode::read_directory;
use tiff_ifd::header::{FileHeader, read_header};
use tiff_ifd::limits::Limits;
use tiff_ifd::value_reader::ValueReader;
use tiff_ifd::walk::IfdChainWalk;
use tiff_page::layout::color_of as page_color;
use tiff_page::page::Page;
use tiff_page::read_page::read_page;

// The offset where the low-level reads begin: after the header.
pub(crate) fn header_end(kind: FileKind) -> u64
    ensures { result ≡ outcome.header_end kind }
{
    match kind {
        FileKind::Classic => 8,
        FileKind::Big => 16,
    }
}

// Whether a directory links to another one.
pub(crate) fn links_on(directory: &Directory) -> bool
    ensures { result ≡ is_some directory.now.next }
{
    directory.next().is_some()
}

// Whether an error leaves the decoder unchanged.
fn keeps_state(fault: &TiffError) -> bool
    ensures { result ≡ keeps_state fault.now }
{
    // These say nothing of the file: the same call can be made again.
    matches!(
        fault,
        TiffError::OutOfMemory | TiffError::IoError(IoKind::Device)
    )
}

// The error of a seek past the end of the chain: the one that ends the chain, where another
// directory followed the decoder's position before. A function of its own, since an error that is
// dropped at one exit and returned at another costs a case for each of its variants.
fn shown_fault(fault: TiffError, was_open: bool) -> TiffError
    ensures { result ≡ (if was_open then fault else outcome.not_found) }
{
    if was_open {
        return fault;
    }
    TiffFormatError::ImageFileDirectoryNotFound.into()
}

// Reads the header and the first directory. The returned walk along the chain has entered that
// directory.
#[tactic(auto, using(crate::proofs::Opening::headless))]
fn read_first_directory<R: Source>(
    alloc: Global,
    source: &mut R,
) -> TiffResult<(FileHeader, IfdChainWalk, Directory)>
    ensures kept { IsKept R.contents R.failures result source.old source.new }
    ensures answer { Answers
        (λ r. (record { order = r.0.order; kind = r.0.kind; first = r.0.first }, r.0.first, r.2))
        result
        (first_directory (R.contents source.old).bytes) (R.failures source.old) (R.failures source.new) }
    ensures walk { IfOk result (λ r. IsInChain r.0.kind r.0.order (R.contents source.old).bytes r.0.first r.1
        (Some (record { 0 = r.0.first })) 0) }
    ensures asked { ReadsOnly (OpenReadable (R.contents source.old)) result }
{
    let header = read_header(source)?;
    let mut walk = IfdChainWalk::new(alloc, header.first);
    match walk.enter_next(alloc, source, header.kind, header.order)? {
        Some(directory) => return Ok((header, walk, directory)),
        None => return Err(TiffFormatError::ImageFileDirectoryNotFound.into()),
    }
}

// The position of a decoder in the chain: the offset of the directory that it entered last, the
// number of directories before it, and whether another directory follows it.
#[derive(Drop)]
pub(crate) struct CurrentDirectory {
    pointer: Option<IfdPointer>,
    at: usize,
    more: bool,
}

// An offset as a pointer.
fn pointer_to(offset: Option<u64>) -> Option<IfdPointer>
    ensures { result ≡ option_map (λ p. record { 0 = p }) offset }
{
    match offset {
        Some(offset) => Some(IfdPointer(offset)),
        None => None,
    }
}

impl CurrentDirectory {
    // The position at a directory that was read.
    fn at_directory(at: usize, offset: u64, directory: &Directory) -> Self
        ensures { result ≡ record {
          pointer = Some (record { 0 = offset });
          at = at;
          more = is_some directory.now.next;
        } }
    {
        CurrentDirectory {
            pointer: Some(IfdPointer(offset)),
            at,
            more: links_on(directory),
        }
    }

    // The position past the end of the chain, of which all offsets are entered. It is at the last
    // offset where another directory followed the decoder's position before, else at no offset.
    #[tactic(auto, using(crate::specs::lemmas::ChainPosition::last_pointed, crate::specs::lemmas::ChainPosition::stands_last))]
    fn past(walk: &IfdChainWalk, was_open: bool) -> Self
        ensures pointer { result.pointer ≡ (if was_open then option_map (λ offset. record { 0 = offset })
            (last_or None walk.now.offsets) else None) }
        ensures more { result.more ≡ false }
        ensures stands { IsAt walk.now.offsets result.pointer result.at }
    {
        if !was_open {
            return CurrentDirectory {
                pointer: None,
                at: 0,
                more: false,
            };
        }
        return CurrentDirectory {
            pointer: pointer_to(walk.last()),
            at: walk.len().saturating_sub(1),
            more: false,
        };
    }

    // The position before the first directory.
    pub(crate) fn before_first() -> Self
        ensures { result ≡ record { pointer = None; at = 0; more = true } }
    {
        CurrentDirectory {
            pointer: None,
            at: 0,
            more: true,
        }
    }

    // The index of the directory that follows the position, where one follows it.
    #[tactic(auto, using(crate::specs::lemmas::ChainPosition::within))]
    fn following(&self, walk: &IfdChainWalk) -> usize
        requires stands { IsAt walk.now.offsets self.now.pointer self.now.at }
        ensures number { result ≡ index_behind self.now.pointer self.now.at }
        ensures entered { result ≤ length walk.now.offsets }
    {
        let _entered = walk.len();
        match self.pointer {
            Some(_) => self.at + 1,
            None => 0,
        }
    }
}

// Makes a directory the decoder's directory and reads its page. Where the page has an error, the
// former directory stays.
fn replace_directory<R: Source>(
    alloc: Global,
    tags: &mut ValueReader<R>,
    directory: Directory,
) -> TiffResult<Page>
    ensures kept { IsKept R.contents R.failures result tags.old.source tags.new.source }
    ensures kind { tags.new.kind ≡ tags.old.kind }
    ensures order { tags.new.order ≡ tags.old.order }
    ensures limits { tags.new.limits ≡ tags.old.limits }
    ensures answer { Answers page_record result
        (page_in tags.old.kind tags.old.order (R.contents tags.old.source).bytes tags.old.limits
        directory) (R.failures tags.old.source) (R.failures tags.new.source) }
    ensures replaced { OnOk result (tags.new.directory ≡ directory) }
    ensures stays { OnErr result (tags.new.directory ≡ tags.old.directory) }
    ensures asked { ReadsOnly (PageReadable (R.contents tags.old.source) tags.old.kind tags.old.order directory)
        result }
{
    // The page is read by the tags of the directory that is there.
    let former = std::mem::replace(&mut tags.directory, directory);
    match read_page(tags, alloc) {
        Ok(page) => return Ok(page),
        Err(fault) => {
            tags.directory = former;
            return Err(fault);
        }
    }
}

// A place in the chain: the index of a directory, and its offset.
#[derive(Clone, Copy)]
struct ChainPlace {
    at: usize,
    offset: u64,
}

// A directory of the chain that was read, and its place.
#[derive(Drop)]
struct ChainDirectory {
    place: ChainPlace,
    directory: Directory,
}

// Enters a directory of the chain that was read: moves the decoder to it and reads its page. Where
// the page has an error, the decoder keeps its former page. After out of memory and after an error
// of the device the decoder is unchanged.
fn enter_directory<R: Source>(
    alloc: Global,
    tags: &mut ValueReader<R>,
    page: &mut Page,
    standing: &mut CurrentDirectory,
    read: ChainDirectory,
) -> TiffResult<()>
    ensures kept { IsKept R.contents R.failures result tags.old.source tags.new.source }
    ensures kind { tags.new.kind ≡ tags.old.kind }
    ensures order { tags.new.order ≡ tags.old.order }
    ensures stands { (offsets : List ℕ)
        → IsAt offsets standing.old.pointer standing.old.at → slice_get offsets
        read.place.at ≡ Some read.place.offset → IsAt offsets standing.new.pointer standing.new.at }
    ensures follows { (first here : ℕ)
        → FollowsCall (λ d. outcome.entry_outcome d read.place.offset (Ok read.directory)) result
        (from_fields R.contents R.failures tags.old first
        standing.old.pointer standing.old.more page.old here)
        (from_fields R.contents R.failures tags.new first
        standing.new.pointer standing.new.more page.new here) }
    ensures asked { ReadsOnly (PageReadable (R.contents tags.old.source) tags.old.kind tags.old.order read.directory)
        result }
{
    let place = read.place;
    let to = CurrentDirectory::at_directory(place.at, place.offset, &read.directory);
    match replace_directory(alloc, tags, read.directory) {
        Ok(found) => {
            *page = found;
            *standing = to;
            return Ok(());
        }
        Err(fault) => {
            if keeps_state(&fault) {
                return Err(fault);
            }
            // The error is the page's, so that `next_image` goes on behind it.
            *standing = to;
            return Err(fault);
        }
    }
}

// Reads the directory at a place in the chain, and enters it.
#[tactic(auto, unfolding(crate::specs::Outcome::enter))]
fn enter_offset<R: Source>(
    alloc: Global,
    tags: &mut ValueReader<R>,
    page: &mut Page,
    standing: &mut CurrentDirectory,
    place: ChainPlace,
) -> TiffResult<()>
    ensures kept { IsKept R.contents R.failures result tags.old.source tags.new.source }
    ensures kind { tags.new.kind ≡ tags.old.kind }
    ensures order { tags.new.order ≡ tags.old.order }
    ensures stands { (offsets : List ℕ)
        → IsAt offsets standing.old.pointer standing.old.at → slice_get offsets
        place.at ≡ Some place.offset → IsAt offsets standing.new.pointer standing.new.at }
    ensures follows { (first here : ℕ) → FollowsCall (λ d. outcome.enter d place.offset) result
        (from_fields R.contents R.failures tags.old first
        standing.old.pointer standing.old.more page.old here)
        (from_fields R.contents R.failures tags.new first
        standing.new.pointer standing.new.more page.new here) }
    ensures asked { ReadsOnly (EntryReadable (R.contents tags.old.source) tags.old.kind tags.old.order place.offset)
        result }
{
    let (kind, order) = (tags.kind, tags.order);
    let directory = read_directory(alloc, &mut tags.source, place.offset, kind, order)?;
    let read = ChainDirectory { place, directory };
    enter_directory(alloc, tags, page, standing, read)
}

// Shows a directory that was read: its page and its fields replace the former ones. Where the page
// has an error, the former ones stay.
fn show_read<R: Source>(
    alloc: Global,
    tags: &mut ValueReader<R>,
    page: &mut Page,
    directory: Directory,
) -> TiffResult<()>
    ensures kept { IsKept R.contents R.failures result tags.old.source tags.new.source }
    ensures kind { tags.new.kind ≡ tags.old.kind }
    ensures order { tags.new.order ≡ tags.old.order }
    ensures follows { (first here : ℕ) (pointer : Option IfdPointer) (more : Bool)
        → FollowsCall (λ d. outcome.show_outcome d (Ok directory)) result
        (from_fields R.contents R.failures tags.old first pointer more page.old here)
        (from_fields R.contents R.failures tags.new first pointer more page.new here) }
    ensures asked { ReadsOnly (PageReadable (R.contents tags.old.source) tags.old.kind tags.old.order directory)
        result }
{
    match replace_directory(alloc, tags, directory) {
        Ok(found) => {
            *page = found;
            return Ok(());
        }
        Err(fault) => return Err(fault),
    }
}

// Reads the directory at an offset and shows it.
#[tactic(auto, unfolding(crate::specs::Outcome::show_directory))]
fn show_offset<R: Source>(
    alloc: Global,
    tags: &mut ValueReader<R>,
    page: &mut Page,
    at: IfdPointer,
) -> TiffResult<()>
    ensures kept { IsKept R.contents R.failures result tags.old.source tags.new.source }
    ensures kind { tags.new.kind ≡ tags.old.kind }
    ensures order { tags.new.order ≡ tags.old.order }
    ensures follows { (first here : ℕ) (pointer : Option IfdPointer) (more : Bool)
        → FollowsCall (λ d. outcome.show_directory d at) result
        (from_fields R.contents R.failures tags.old first pointer more page.old here)
        (from_fields R.contents R.failures tags.new first pointer more page.new here) }
    ensures asked { ReadsOnly (EntryReadable (R.contents tags.old.source) tags.old.kind tags.old.order at.0) result }
{
    let (kind, order) = (tags.kind, tags.order);
    let directory = read_directory(alloc, &mut tags.source, at.0, kind, order)?;
    show_read(alloc, tags, page, directory)
}

// Enters the next offset of a walk. Returns the offset and its directory.
fn enter_behind<R: Source>(
    alloc: Global,
    walk: &mut IfdChainWalk,
    source: &mut R,
    kind: FileKind,
    order: ByteOrder,
) -> TiffResult<Option<(u64, Directory)>>
    ensures kept { IsKept R.contents R.failures result source.old source.new }
    ensures begins { (first : ℕ) → ChainBegins kind order (R.contents source.old).bytes first walk.old
        → ChainBegins kind order (R.contents source.old).bytes
        first walk.new }
    ensures entered { IfOk result
        (λ found. IfSome found (λ f. (walk.new.offsets ≡ walk.old.offsets ++ f.0 ∷ []) ×
        (directory_at kind order (R.contents source.old).bytes f.0 ≡ Ok f.1))) }
    ensures end { IfOk result
        (λ found.
        IfNone found ((walk.new ≡ walk.old)
        × ((first : ℕ) → ChainBegins kind order (R.contents source.old).bytes first walk.old
        → ChainEnds kind order (R.contents source.old).bytes first walk.old None))) }
    ensures stays { OnErr result (walk.new ≡ walk.old) }
    ensures cut { IfErr result (λ e. IsCause (Unit {0}) (R.failures source.old < R.failures source.new) e
        ((first : ℕ) → ChainBegins kind order (R.contents source.old).bytes first walk.old
        → ChainEnds kind order (R.contents source.old).bytes first walk.old (Some e))) }
    ensures asked { ReadsOnly (NextReadable (R.contents source.old) kind order walk.old) result }
{
    let Some(offset) = walk.next() else {
        return Ok(None);
    };
    match walk.enter_next(alloc, source, kind, order)? {
        Some(directory) => return Ok(Some((offset, directory))),
        None => return Ok(None),
    }
}

/// Reads the pages of a file.
#[derive(Drop)]
pub struct Decoder<R: Source> {
    pub(crate) alloc: Global,
    pub(crate) tags: ValueReader<R>,
    pub(crate) page: Page,
    pub(crate) first: u64,
    pub(crate) walk: IfdChainWalk,
    pub(crate) standing: CurrentDirectory,
    pub(crate) offset: u64,
}

impl<R: Source> Model for Decoder<R> {
    ghost use Rattle.std.specs.Coded.{codes};
    ghost use Rattle.std.specs.FinMap as map;
    ghost use Rattle.tiff_page.specs.PageView.{page as page_record};
    ghost use Rattle.tiff_decode.specs.ChainPosition.{IsInChain};
    ghost use Rattle.tiff_decode.specs.Machine.{Decoding};

    ghost Value = { Decoding };

    ghost coded = { Prim.hlevel (codes, map.code) };

    ghost view = { λ d. record {
      bytes = (R.contents d.tags.source).bytes;
      readable = (R.contents d.tags.source).readable;
      kind = d.tags.kind;
      order = d.tags.order;
      first = d.first;
      failures = R.failures d.tags.source;
      state = record {
        pointer = d.standing.pointer;
        more = d.standing.more;
        page = page_record d.page;
        directory = d.tags.directory;
        offset = d.offset;
        limits = d.tags.limits;
      };
    } };

    ghost invariant = { λ d. IsInChain d.tags.kind d.tags.order (R.contents d.tags.source).bytes d.first d.walk
        d.standing.pointer d.standing.at };
}

/// Shows what the decoder knows of the file and the page. Does not read the source.
impl<R: Source> fmt::Debug for Decoder<R> {
    fn fmt<W: fmt::Write>(&self, f: &mut fmt::Formatter<W>) -> fmt::Result {
        f.debug_struct("Decoder")
            .field("kind", &self.tags.kind)
            .field("byte_order", &self.tags.order)
            .field("ifd_pointer", &self.standing.pointer)
            .field("width", &self.page.width)
            .field("height", &self.page.height)
            .field("limits", &self.tags.limits)
            .finish_non_exhaustive()
    }
}

impl<R: Source> Decoder<R> {
    /// Opens a file at its first page, with the default limits. Returns the first error of the
    /// header, the directory or the page.
    pub fn new(alloc: Global, source: R) -> TiffResult<Self>
        ensures answer { AnswersBut (Unit {0}) (FailsFrom R.contents R.failures source)
            (λ (d : Decoding). record d { readable = None; failures = R.failures source }) result
            (decoder_of (R.contents source).bytes (R.failures source)) }
        ensures readable { IfOk result (λ d. d.readable ≡ (R.contents source).readable) }
        ensures count { IfOk result (λ d. d.failures ≡ R.failures source) }
        ensures asked { ReadsOnly (OpenReadable (R.contents source)) result }
    {
        let mut source = source;
        let (header, walk, directory) = read_first_directory(alloc, &mut source)?;
        let more = links_on(&directory);
        let mut tags = ValueReader {
            source,
            kind: header.kind,
            order: header.order,
            directory,
            limits: Limits::default(),
        };
        let page = read_page(&mut tags, alloc)?;
        Ok(Decoder {
            alloc,
            tags,
            page,
            first: header.first,
            walk,
            standing: CurrentDirectory {
                pointer: Some(IfdPointer(header.first)),
                at: 0,
                more,
            },
            offset: header_end(header.kind),
        })
    }
}

impl<R: Source> Decoder<R> {
    /// Returns the decoder with these limits, which apply to later calls. The page stays as it was
    /// read.
    #[tactic(auto, unfolding(crate::specs::Outcome::set_limits))]
    pub fn with_limits(self, limits: Limits) -> Self
        ensures { result ≡ record self { state = (outcome.set_limits self limits).next } }
    {
        let mut decoder = self;
        decoder.tags.limits = limits;
        decoder
    }

    /// Sets the limits of later calls. The page stays as it was read.
    #[tactic(auto, unfolding(crate::specs::Outcome::set_limits))]
    pub fn set_limits(&mut self, limits: Limits)
        ensures { self.new ≡ record self.old { state = (outcome.set_limits self.old limits).next } }
    {
        self.tags.limits = limits;
    }

    /// The width and the height of the page, in pixels.
    #[tactic(auto, unfolding(crate::specs::Outcome::dimensions))]
    pub fn dimensions(&mut self) -> TiffResult<(u32, u32)>
        ensures { FollowsWithoutEither (λ s. s) (outcome.dimensions self.old) result self.old
            self.new }
    {
        Ok((self.page.width, self.page.height))
    }

    /// The color type of the page. Returns `InterpretationWithBits` for a page that has none.
    #[tactic(auto, unfolding(crate::specs::Outcome::colortype))]
    pub fn colortype(&mut self) -> TiffResult<ColorType>
        // The call allocates memory only for an error.
        ensures { FollowsOrFaults (λ c. c) (outcome.colortype self.old) result self.old self.new }
    {
        page_color(&self.page, self.alloc)
    }

    /// The offset of the directory that the decoder entered last. Returns `None` after a seek past
    /// the end of the chain with `more_images` false.
    pub fn ifd_pointer(&mut self) -> Option<IfdPointer>
        ensures { Tells (outcome.ifd_pointer self.old) result self.old self.new }
    {
        self.standing.pointer
    }

    /// Whether another directory follows the directory that the decoder entered last.
    pub fn more_images(&self) -> bool
        ensures { result ≡ self.now.state.more }
    {
        self.standing.more
    }

    /// The allocator that the caller passed to the decoder.
    pub fn allocator(&self) -> Global {
        self.alloc
    }

    /// The byte order of the file.
    pub fn byte_order(&self) -> ByteOrder
        ensures { result ≡ self.now.order }
    {
        self.tags.order
    }

    /// The source.
    pub fn inner(&self) -> &R
        ensures bytes { (R.contents result.now).bytes ≡ self.now.bytes }
        ensures readable { (R.contents result.now).readable ≡ self.now.readable }
        ensures failures { R.failures result.now ≡ self.now.failures }
    {
        &self.tags.source
    }

    /// Enters the next directory of the file's chain and reads its page. Returns
    /// `ImageFileDirectoryNotFound` where `more_images` is false. Where the source ends inside the
    /// next directory, or its link leads back into the chain, returns that error; then
    /// `more_images` is false and the rest is unchanged. Where the page has an error, returns that
    /// error; then the decoder is at the next directory and keeps its former page. After
    /// `OutOfMemory` and `IoError(Device)` the decoder is unchanged. Allocates memory only where
    /// `more_images` is true.
    #[tactic(auto, unfolding(crate::specs::Outcome::next_image))]
    pub fn next_image(&mut self) -> TiffResult<()>
        ensures follows { FollowsBut (self.old.state.more ≡ true) (λ x. x) (outcome.next_image self.old) result
            self.old self.new }
        ensures asked { ReadsOnly (NextPageReadable self.old) result }
    {
        if !self.standing.more {
            return Err(TiffFormatError::ImageFileDirectoryNotFound.into());
        }
        let (alloc, kind, order) = (self.alloc, self.tags.kind, self.tags.order);
        let at = self.standing.following(&self.walk);
        let known = self.walk.get(at);
        if let Some(offset) = known {
            let (tags, page) = (&mut self.tags, &mut self.page);
            let place = ChainPlace { at, offset };
            return enter_offset(alloc, tags, page, &mut self.standing, place);
        }
        match enter_behind(alloc, &mut self.walk, &mut self.tags.source, kind, order) {
            Ok(Some((offset, directory))) => {
                let (tags, page) = (&mut self.tags, &mut self.page);
                let standing = &mut self.standing;
                let place = ChainPlace { at, offset };
                let read = ChainDirectory { place, directory };
                return enter_directory(alloc, tags, page, standing, read);
            }
            Ok(None) => {
                self.standing.more = false;
                return Err(TiffFormatError::ImageFileDirectoryNotFound.into());
            }
            Err(fault) => {
                if keeps_state(&fault) {
                    return Err(fault);
                }
                self.standing.more = false;
                return Err(fault);
            }
        }
    }

    /// Enters the directory of this index, from 0, in the file's chain, from any position, and
    /// reads its page. Does not read the pages before it. Where the chain is shorter and
    /// `more_images` is true, returns the error that ends the chain, or
    /// `ImageFileDirectoryNotFound`, and the decoder is at the last directory of the chain. Where
    /// the chain is shorter and `more_images` is false, returns `ImageFileDirectoryNotFound`, and
    /// `ifd_pointer` is `None`. In both cases `more_images` is false afterwards. Where the page has
    /// an error, returns that error; then the decoder is at the directory of the index and keeps
    /// its former page. After `OutOfMemory` and `IoError(Device)` the decoder is unchanged.
    pub fn seek_to_image(&mut self, ifd_index: usize) -> TiffResult<()>
        ensures follows { Follows (λ x. x) (outcome.seek_to_image self.old ifd_index) result self.old self.new }
        ensures asked { ReadsOnly (SeekReadable self.old ifd_index) result }
    {
        let (alloc, kind, order) = (self.alloc, self.tags.kind, self.tags.order);
        let source = &mut self.tags.source;
        match self.walk.offset_of(source, kind, order, ifd_index) {
            Ok(Some(offset)) => {
                let (tags, page) = (&mut self.tags, &mut self.page);
                let place = ChainPlace {
                    at: ifd_index,
                    offset,
                };
                return enter_offset(alloc, tags, page, &mut self.standing, place);
            }
            Ok(None) => {
                self.standing = CurrentDirectory::past(&self.walk, self.standing.more);
                return Err(TiffFormatError::ImageFileDirectoryNotFound.into());
            }
            Err(fault) => {
                if keeps_state(&fault) {
                    return Err(fault);
                }
                let was_open = self.standing.more;
                self.standing = CurrentDirectory::past(&self.walk, was_open);
                return Err(shown_fault(fault, was_open));
            }
        }
    }

    /// Reads the directory at any offset, as it is in the file. The page and the pointer stay the
    /// same. Returns `IoError(UnexpectedEof)` where the source has too few bytes.
    #[tactic(auto, unfolding(crate::specs::Outcome::read_directory))]
    pub fn read_directory(&mut self, pointer: IfdPointer) -> TiffResult<Directory>
        ensures follows { Follows (λ d. d) (outcome.read_directory self.old pointer) result self.old self.new }
        ensures asked { ReadsOnly
            (DirectoryReadable (source_of self.old) self.old.kind self.old.order pointer.0) result }
    {
        let (kind, order) = (self.tags.kind, self.tags.order);
        read_directory(self.alloc, &mut self.tags.source, pointer.0, kind, order)
    }

    /// Shows the directory at any offset, inside or outside the chain, for example a SubIFD or a
    /// preview (this project's). Later calls use its page, its tags and its pixels. The position in
    /// the chain stays the same, and `next_image` continues from there. Returns
    /// `IoError(UnexpectedEof)` where the source has too few bytes, else the first error of the
    /// page. After an error the decoder is unchanged.
    #[tactic(auto, unfolding(crate::specs::Outcome::show_directory))]
    pub fn show_directory(&mut self, pointer: IfdPointer) -> TiffResult<()>
        ensures follows { Follows (λ x. x) (outcome.show_directory self.old pointer) result self.old self.new }
        ensures asked { ReadsOnly (EntryReadable (source_of self.old) self.old.kind self.old.order pointer.0)
            result }
    {
        show_offset(self.alloc, &mut self.tags, &mut self.page, pointer)
    }
}

//! Pages with parents: each is linked by the tag SubIFDs of an earlier page, and is written behind
//! the file that this page is in.

ghost use Rattle.std.specs.List.{count_by};
ghost use Rattle.std.specs.FinMap.{entries};
ghost use Rattle.std.specs.Option.{SomeIff};
ghost use Rattle.std.specs.Prelude.{◌≡◌, ◌≢◌, ◌⊎◌, ◌+◌, ◌-◌, ◌*◌, ◌^◌, ◌<◌, length, nat_lt, slice_set, Ok, Err, MatchResult};
ghost use Rattle.tiff_base.specs.declared.error.TiffError.TheVariants.{OutOfMemory};
ghost use Rattle.tiff_base.specs.declared.tags.ByteOrder.TheVariants.{LittleEndian};
ghost use Rattle.tiff_base.specs.Answers.{AnswersWithoutSource, Gives};
ghost use Rattle.tiff_base.specs.Directory.{directory_at, entry_len, first_entry};
ghost use Rattle.tiff_append.specs.Behind.{RefusesLink};
ghost use Rattle.tiff_value.specs.FileBytes.{offset_len};
ghost use Rattle.tiff_ffi.specs.Pages.{ChildrenRan, GoesOn, PagesGoOn, chain_at, link_at, placed_at, slot_at};
ghost use Rattle.tiff_ffi.specs.Pages as spec;
ghost use Rattle.tiff_ffi.specs.Parents.{RanAt, StepFails, StepRan};

use crate::entries::{is_in_place, values_at};
use crate::jobs::{drop_value, refused_of};
use crate::pages::{ChildJobs, PagesJobs, RefusedPage, refused_page};
use std::alloc::Global;
use tiff_append::last_link::{entry_sizes, link_size, walk_all};
use tiff_append::run::run_at;
use tiff_append::sink::BehindSink;
use tiff_append::source::AddedSource;
use tiff_base::directory::{Directory, Entry};
use tiff_base::error::{TiffError, TiffFormatError, TiffResult};
use tiff_base::io::{IoKind, MemorySink};
use tiff_base::tags::{ByteOrder, FileKind, Tag};
use tiff_encode::encoder::TiffKind;
use tiff_encode::encoder::script::{Job, JobReply};
use tiff_ifd::decode::{read_directory, read_link_at};
use tiff_ifd::walk::IfdChainWalk;

// ---- files

/// A file in memory, whose bytes can be read, and which encoders go on behind.
pub trait PagesFile: Drop {
    ghost use Rattle.std.specs.Prelude.{ℕ, List};
    ghost use Rattle.tiff_append.specs.Behind.{RunsAt};
    ghost use Rattle.tiff_append.specs.Source.{added_bytes};

    /// The bytes of the file.
    ghost contents: { Self → List ℕ };

    /// A source of the bytes, which lends them.
    fn source(&self) -> AddedSource<'_>
        ensures { added_bytes result ≡ contents self.now };

    /// Runs jobs with an encoder that goes on behind the file at a link, and appends their replies
    /// to `replies`. Errors: `IoError(InvalidInput)` if the link isn't within the file;
    /// `OutOfMemory`.
    fn run<K: TiffKind>(
        self,
        alloc: Global,
        link: u64,
        jobs: &[Job<'_>],
        replies: &mut Vec<JobReply>,
    ) -> TiffResult<Self>
        ensures { MatchResult result (λ last. RunsAt K.kind (contents self) link jobs.now
            replies.old.items replies.new.items (contents last))
            (RefusesLink (length (contents self)) link (offset_len K.kind)) };
}

impl PagesFile for Vec<u8> {
    ghost contents = { λ v. v.items };

    fn source(&self) -> AddedSource<'_> {
        AddedSource::whole(self)
    }

    fn run<K: TiffKind>(
        self,
        alloc: Global,
        link: u64,
        jobs: &[Job<'_>],
        replies: &mut Vec<JobReply>,
    ) -> TiffResult<Self> {
        let sink = run_at::<MemorySink, K>(alloc, MemorySink::new(self), link, jobs, replies)?;
        Ok(sink.into_vec())
    }
}

impl PagesFile for BehindSink<'_> {
    ghost use Rattle.tiff_append.specs.Behind.{behind_contents};

    ghost contents = { behind_contents };

    fn source(&self) -> AddedSource<'_> {
        BehindSink::source(self)
    }

    fn run<K: TiffKind>(
        self,
        alloc: Global,
        link: u64,
        jobs: &[Job<'_>],
        replies: &mut Vec<JobReply>,
    ) -> TiffResult<Self> {
        run_at::<Self, K>(alloc, self, link, jobs, replies)
    }
}

// ---- directories

// The offsets that a walk has entered.
#[tactic(auto, using(crate::proofs::ParentsRan::some_there, crate::proofs::ParentsRan::one_further))]
fn offsets_of(alloc: Global, walk: &IfdChainWalk) -> TiffResult<Vec<u64>>
    ensures { MatchResult result (λ v. v.items ≡ walk.now.offsets) (λ e. e ≡ OutOfMemory) }
{
    let mut offsets = Vec::new(alloc);
    for i in 0..walk.len() {
        let Some(offset) = walk.get(i) else {
            unreachable!();
        };
        offsets.push(offset)?;
    }
    Ok(offsets)
}

// The offset that a link leads to.
fn link_of<F: PagesFile>(file: &F, kind: FileKind, link: u64) -> TiffResult<u64>
    ensures { Gives (λ n. n) result (link_at kind (F.contents file.now) link) }
{
    read_link_at(&mut file.source(), link, kind, ByteOrder::LittleEndian)
}

// The offsets of the directories of the chain that a link begins.
fn chain_of<F: PagesFile>(
    alloc: Global,
    file: &F,
    kind: FileKind,
    link: u64,
) -> TiffResult<Vec<u64>>
    ensures { AnswersWithoutSource (λ v. v.items) result (chain_at kind (F.contents file.now) link) }
{
    let first = link_of(file, kind, link)?;
    let walk = walk_all(alloc, &mut file.source(), kind, first)?;
    offsets_of(alloc, &walk)
}

// The directory at an offset.
fn directory_of<F: PagesFile>(
    alloc: Global,
    file: &F,
    kind: FileKind,
    at: u64,
) -> TiffResult<Directory>
    ensures { AnswersWithoutSource (λ d. d) result
        (directory_at kind LittleEndian (F.contents file.now) at) }
{
    let order = ByteOrder::LittleEndian;
    read_directory(alloc, &mut file.source(), at, kind, order)
}

// ---- links

/// Where the links to pages are: the kind of the file, the offset of the link that begins the chain
/// of the pages, and the least offset of the links in tags.
#[derive(Clone, Copy)]
pub struct Links {
    pub kind: FileKind,
    pub first: u64,
    pub floor: u64,
}

// How many tags of a directory have a lower number.
fn tags_below(directory: &Directory, number: u16) -> usize
    ensures { result ≡ count_by (λ e. nat_lt e.0 number) (entries directory.now.entries) }
{
    let _len = directory.len();
    let mut count = 0usize;
    for (tag, _entry) in directory.iter() {
        if tag.to_u16() < number {
            count += 1;
        }
    }
    count
}

// The offset of the value field of an entry behind so many others of the directory at an offset, if
// it is below 2^64.
fn value_field(kind: FileKind, at: u64, below: usize) -> Option<u64>
    ensures { SomeIff result
        (first_entry kind at + entry_len kind * below + (entry_len kind - offset_len kind) < 2 ^ 64)
        (first_entry kind at + entry_len kind * below + (entry_len kind - offset_len kind)) }
{
    let (count, entry) = entry_sizes(kind);
    let before = entry.checked_mul(below as u64)?;
    let field = at.checked_add(count)?.checked_add(before)?;
    field.checked_add(entry - link_size(kind) as u64)
}

// The offset of the values of the tag SubIFDs, if it is below 2^64.
fn links_at(kind: FileKind, at: u64, directory: &Directory, entry: &Entry) -> Option<u64>
    ensures { SomeIff result (spec.links_at kind at directory.now entry.now < 2 ^ 64)
        (spec.links_at kind at directory.now entry.now) }
{
    if is_in_place(kind, entry) {
        return value_field(kind, at, tags_below(directory, Tag::SubIfd.to_u16()));
    }
    Some(values_at(kind, ByteOrder::LittleEndian, entry))
}

// The offset of a link behind so many others from an offset on, if it is below 2^64.
fn link_behind(kind: FileKind, start: u64, index: usize) -> Option<u64>
    ensures { SomeIff result (start + offset_len kind * index < 2 ^ 64)
        (start + offset_len kind * index) }
{
    start.checked_add((link_size(kind) as u64).checked_mul(index as u64)?)
}

// A link, if it is within a file of `len` bytes and not below the least offset; else
// `IoError(InvalidInput)`.
fn within(links: Links, len: u64, link: u64) -> TiffResult<u64>
    ensures { result ≡ spec.within links.kind links.floor len link }
{
    if link < links.floor || len < link || len - link < link_size(links.kind) as u64 {
        return Err(TiffError::IoError(IoKind::InvalidInput));
    }
    Ok(link)
}

// The offset of the value at an index of the tag SubIFDs of the directory at an offset.
#[tactic(auto, using(crate::proofs::Links::far_links, crate::proofs::Links::far_slot))]
fn slot_of<F: PagesFile>(
    alloc: Global,
    file: &F,
    links: Links,
    at: u64,
    index: usize,
) -> TiffResult<u64>
    ensures { AnswersWithoutSource (λ q. q) result
        (slot_at links.kind links.floor (F.contents file.now) at index) }
{
    let len = file.source().size();
    let directory = directory_of(alloc, file, links.kind, at)?;
    let Some(entry) = directory.get(Tag::SubIfd) else {
        return Err(TiffFormatError::RequiredTagNotFound(Tag::SubIfd).into());
    };
    let Some(start) = links_at(links.kind, at, &directory, entry) else {
        return Err(TiffError::IoError(IoKind::InvalidInput));
    };
    match link_behind(links.kind, start, index) {
        Some(link) => within(links, len, link),
        None => Err(TiffError::IoError(IoKind::InvalidInput)),
    }
}

// ---- pages

// The offset of the directory of a page, if there is one at its number.
#[tactic(auto, using(crate::proofs::Links::placed, crate::proofs::Links::not_placed, crate::proofs::Links::no_place))]
fn place_of(places: &[u64], page: usize) -> TiffResult<u64>
    ensures { result ≡ spec.place_of places.now page }
{
    if page < places.len() && places[page] != 0 {
        return Ok(places[page]);
    }
    Err(TiffFormatError::ImageFileDirectoryNotFound.into())
}

// Puts the offset of the directory of a page at its number.
#[tactic(auto, using(crate::proofs::Links::out_of_places))]
fn put_place(places: &mut [u64], page: usize, at: u64)
    ensures { places.new ≡ slice_set places.old page at }
{
    if page < places.len() {
        places[page] = at;
    }
}

// Puts the offsets of the directories of pages at the numbers of these.
fn put_places(numbers: &[usize], offsets: &[u64], places: &mut [u64])
    ensures { places.new ≡ placed_at places.old numbers.now offsets.now }
{
    for i in 0..numbers.len().min(offsets.len()) {
        put_place(places, numbers[i], offsets[i]);
    }
}

// The offsets of the directories of the chain, at the numbers of their pages, of so many pages in
// all.
fn chain_places(
    alloc: Global,
    pages: usize,
    numbers: &[usize],
    offsets: &[u64],
) -> TiffResult<Vec<u64>>
    ensures { MatchResult result
        (λ v. v.items ≡ spec.chain_places pages numbers.now offsets.now) (λ e. e ≡ OutOfMemory) }
{
    let Some(len) = pages.checked_add(1) else {
        return Err(TiffError::OutOfMemory);
    };
    let mut places = vec![in alloc; 0u64; len]?;
    put_places(numbers, offsets, &mut places);
    Ok(places)
}

/// Runs the jobs of pages behind a file at a link. `numbers` are those of the pages. Errors:
/// `IoError(InvalidInput)` if the link isn't within the file; `OutOfMemory`.
pub(crate) fn run_jobs_at<F: PagesFile, K: TiffKind>(
    alloc: Global,
    file: F,
    link: u64,
    numbers: &[usize],
    jobs: &[Job<'_>],
) -> TiffResult<(F, Option<RefusedPage>)>
    ensures { MatchResult result
        (λ r. RanAt K.kind (F.contents file) link numbers.now jobs.now (F.contents r.0) r.1)
        (RefusesLink (length (F.contents file)) link (offset_len K.kind)) }
{
    let mut replies = Vec::new(alloc);
    match file.run::<K>(alloc, link, jobs, &mut replies) {
        Ok(left) => {
            let (refused, step) = refused_of(replies);
            Ok((left, refused_page(numbers, jobs, refused, step)))
        }
        Err(fault) => {
            drop_value(replies);
            Err(fault)
        }
    }
}

// Runs the jobs of a page with a parent, and puts the offset of its directory at its number.
#[tactic(auto, using(crate::proofs::Links::slot_out))]
fn run_child<F: PagesFile, K: TiffKind>(
    alloc: Global,
    links: Links,
    file: F,
    child: &ChildJobs<'_>,
    places: &mut [u64],
) -> TiffResult<(F, Option<RefusedPage>)>
    requires { links.kind ≡ K.kind }
    ensures { MatchResult result
        (λ r. StepRan K.kind links.floor child.now places.old (F.contents file) places.new (F.contents r.0)
        r.1)
        (λ e. (e ≡ OutOfMemory) ⊎ StepFails K.kind links.floor child.now places.old (F.contents file) e) }
{
    let at = place_of(places, child.parent)?;
    // Read from the parent's directory, since no reply of a job says where its values are.
    let link = slot_of(alloc, &file, links, at, child.index)?;
    let (file, refused) = run_jobs_at::<F, K>(alloc, file, link, &[child.page], &child.jobs)?;
    if refused.is_none() {
        let own = link_of(&file, links.kind, link)?;
        put_place(places, child.page, own);
    }
    Ok((file, refused))
}

// Runs the jobs of pages with parents one after another, up to the first that is refused.
#[tactic(auto, using(crate::proofs::ParentsRan::step_ran, crate::proofs::ParentsRan::step_refused, crate::proofs::ParentsRan::step_fails))]
fn run_children<F: PagesFile, K: TiffKind>(
    alloc: Global,
    links: Links,
    mut file: F,
    children: &[ChildJobs<'_>],
    places: &mut [u64],
) -> TiffResult<(F, Option<RefusedPage>)>
    requires { links.kind ≡ K.kind }
    ensures { MatchResult result
        (λ r. ChildrenRan K.kind links.floor children.now places.old (F.contents file)
        (Ok (F.contents r.0, r.1)))
        (λ e. (e ≡ OutOfMemory) ⊎ ChildrenRan K.kind links.floor children.now places.old
        (F.contents file) (Err e)) }
{
    for child in children {
        let (left, refused) = run_child::<F, K>(alloc, links, file, child, places)?;
        if refused.is_some() {
            return Ok((left, refused));
        }
        file = left;
    }
    Ok((file, None))
}

// Runs pages with parents behind those of the chain, which have these numbers.
#[tactic(auto, using(crate::proofs::ParentsRan::some_children, crate::proofs::ParentsRan::no_chain))]
fn run_behind_chain<F: PagesFile, K: TiffKind>(
    alloc: Global,
    links: Links,
    file: F,
    numbers: &[usize],
    children: &[ChildJobs<'_>],
) -> TiffResult<(F, Option<RefusedPage>)>
    requires kind { links.kind ≡ K.kind }
    requires some { length children.now ≢ 0 }
    ensures { MatchResult result
        (λ r. GoesOn K.kind links.floor links.first numbers.now children.now (F.contents file)
        (Ok (F.contents r.0, r.1)))
        (λ e. (e ≡ OutOfMemory) ⊎ GoesOn K.kind links.floor links.first numbers.now children.now
        (F.contents file) (Err e)) }
{
    let Some(pages) = numbers.len().checked_add(children.len()) else {
        return Err(TiffError::OutOfMemory);
    };
    let offsets = chain_of(alloc, &file, links.kind, links.first)?;
    let mut places = chain_places(alloc, pages, numbers, &offsets)?;
    run_children::<F, K>(alloc, links, file, children, &mut places)
}

/// Runs the pages with parents behind those of the chain, unless one of these was refused. Errors:
/// `OutOfMemory`; the one of a directory that can't be read.
#[tactic(auto, using(crate::proofs::ParentsRan::no_children))]
pub(crate) fn go_on<F: PagesFile, K: TiffKind>(
    alloc: Global,
    links: Links,
    file: F,
    refused: Option<RefusedPage>,
    pages: &PagesJobs<'_>,
) -> TiffResult<(F, Option<RefusedPage>)>
    requires { links.kind ≡ K.kind }
    ensures { MatchResult result
        (λ r. PagesGoOn K.kind links.floor links.first pages.now (F.contents file) refused
        (Ok (F.contents r.0, r.1)))
        (λ e. (e ≡ OutOfMemory) ⊎ PagesGoOn K.kind links.floor links.first pages.now (F.contents file)
        refused (Err e)) }
{
    if refused.is_some() || pages.children.is_empty() {
        return Ok((file, refused));
    }
    run_behind_chain::<F, K>(alloc, links, file, &pages.numbers, &pages.children)
}

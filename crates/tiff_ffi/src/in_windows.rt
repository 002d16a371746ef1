//! Calls on a file of which a caller has windows, so that most of its bytes are never asked for.

ghost use Rattle.std.specs.Prelude.{◌≡◌, ◌⊎◌, ◌<◌, ◌^◌, ℕ, List, length, None, Some, IfOk, IfSome, MatchResult, OnErr};
ghost use Rattle.std.specs.FinMap.{get};
ghost use Rattle.tiff_base.specs.Answers.{AnswersWithoutMemory, AnswersWithoutSource, Gives, IsKept};
ghost use Rattle.tiff_base.specs.Windows.{AreWindowsOf, IsWanted};
ghost use Rattle.tiff_ifd.specs.TagLookup.{ok_or_fault};
ghost use Rattle.tiff_ifd.specs.TagQueries.{part_of_field};
ghost use Rattle.tiff_pages.specs.OfFile.{list_of, tree_of};
ghost use Rattle.tiff_ffi.specs.Directories.{TreeTells};
ghost use Rattle.tiff_ffi.specs.InWindows as spec;
ghost use Rattle.tiff_ffi.specs.InWindows.{SeenTells};
ghost use Rattle.tiff_ffi.specs.List.{ListTells};
ghost use Rattle.tiff_ffi.specs.Plan as plans;
ghost use Rattle.tiff_ffi.specs.Status.{StatusPuts, StatusTells};

use crate::directories::{ListedDirectory, tell_directories};
use crate::entries::{TagEntry, entries_told};
use crate::list::{ListedPage, tell_pages};
use crate::plan::{
    PageDirectory, PlannedPage, find_plan, found_numbers, page_directory, planned_by,
};
use crate::range::{ReadsChunks, chunks_from};
use crate::status::{Status, put_value, unit_status};
use crate::values::fill;
use std::alloc::Global;
use std::marker::Brand;
use tiff_base::directory::{Directory, Entry};
use tiff_base::error::{TiffFormatError, TiffResult};
use tiff_base::io::Source;
use tiff_base::laws::numbers_come_back;
use tiff_base::tags::Tag;
use tiff_base::windows::{OrderedWindows, SeenFile, Stretch, WindowSource, Windows};
use tiff_ifd::field_reader::FieldReader;
use tiff_ifd::limits::Limits;
use tiff_pages::plan::PagePlan;
use tiff_pages::seen::{directories_seen, pages_seen, unless_wanted};

// The directory of a page, or the bytes that are wanted for it.
fn directory_seen<F: SeenFile>(
    alloc: Global,
    seen: &OrderedWindows<'_>,
    page: usize,
) -> Result<TiffResult<PageDirectory>, Stretch>
    requires of { AreWindowsOf F.bytes seen.now.seen }
    ensures { MatchResult result
        (λ told. AnswersWithoutSource (λ p. (p.kind, p.order, p.directory)) told
        (plans.page_directory F.bytes page)) (IsWanted seen.now.seen) }
{
    let mut source = WindowSource::<F>::new(seen);
    let read = page_directory(alloc, &mut source, page);
    unless_wanted(read, source.wanted())
}

// Puts the entries of the directory of a page into a slice, as many as fit, and returns how many
// there are, or the bytes that are wanted for them.
#[tactic(auto, unfolding(crate::specs::InWindows::list_tags))]
fn entries_seen<F: SeenFile>(
    alloc: Global,
    seen: &OrderedWindows<'_>,
    page: usize,
    out: &mut [TagEntry],
) -> Result<TiffResult<usize>, Stretch>
    requires of { AreWindowsOf F.bytes seen.now.seen }
    ensures answer { MatchResult result (λ told. AnswersWithoutSource (λ n. (n, out.new)) told
        (spec.list_tags F.bytes page out.old)) (IsWanted seen.now.seen) }
    ensures stays { MatchResult result (λ told. OnErr told (out.new ≡ out.old)) (λ s. out.new ≡ out.old) }
{
    let found = match directory_seen::<F>(alloc, seen, page)? {
        Ok(found) => found,
        Err(fault) => return Ok(Err(fault)),
    };
    match entries_told(alloc, found.kind, found.order, &found.directory) {
        Ok(told) => {
            fill(out, &told);
            Ok(Ok(told.len()))
        }
        Err(fault) => Ok(Err(fault)),
    }
}

// The field of a tag of a directory. No such tag: `RequiredTagNotFound`.
fn field_of(directory: &Directory, number: u16) -> TiffResult<Entry>
    ensures { Gives (λ entry. entry) result
        (ok_or_fault (get directory.now.entries number) (spec.no_tag number)) }
{
    numbers_come_back();
    let tag = Tag::from_u16_exhaustive(number);
    match directory.get(tag) {
        Some(entry) => Ok(Entry::new_u64(entry.field_type(), entry.count(), entry.value())),
        None => Err(TiffFormatError::RequiredTagNotFound(tag).into()),
    }
}

// Copies bytes of a field.
#[tactic(auto, using(crate::proofs::SeenFiles::bytes_copied))]
fn copy_part<R: Source>(
    fields: &FieldReader<'_>,
    source: &mut R,
    entry: &Entry,
    at: u64,
    buffer: &mut [u8],
) -> TiffResult<usize>
    ensures kept { IsKept R.contents R.failures result source.old source.new }
    ensures answer { AnswersWithoutMemory (λ n. (n, buffer.new)) result
        (spec.copied (part_of_field fields.now.kind fields.now.order (R.contents source.old).bytes entry.now
        (length buffer.old) at) buffer.old) (R.failures source.old) (R.failures source.new) }
{
    fields.read_part(source, entry, at, buffer)
}

// Copies bytes of a field, or returns the bytes that are wanted for them.
fn part_seen<F: SeenFile>(
    fields: &FieldReader<'_>,
    seen: &OrderedWindows<'_>,
    entry: &Entry,
    at: u64,
    buffer: &mut [u8],
) -> Result<TiffResult<usize>, Stretch>
    requires of { AreWindowsOf F.bytes seen.now.seen }
    ensures { MatchResult result (λ told. AnswersWithoutSource (λ n. (n, buffer.new)) told
        (spec.copied (part_of_field fields.now.kind fields.now.order F.bytes entry.now (length buffer.old) at)
        buffer.old)) (IsWanted seen.now.seen) }
{
    let mut source = WindowSource::<F>::new(seen);
    let read = copy_part(fields, &mut source, entry, at, buffer);
    unless_wanted(read, source.wanted())
}

// Copies bytes of the values of a tag of a page's directory, or returns the bytes that are wanted
// for them.
#[tactic(auto, unfolding(crate::specs::InWindows::tag_bytes))]
fn bytes_seen<F: SeenFile>(
    alloc: Global,
    seen: &OrderedWindows<'_>,
    page: usize,
    number: u16,
    at: u64,
    buffer: &mut [u8],
) -> Result<TiffResult<usize>, Stretch>
    requires of { AreWindowsOf F.bytes seen.now.seen }
    ensures { MatchResult result (λ told. AnswersWithoutSource (λ n. (n, buffer.new)) told
        (spec.tag_bytes F.bytes page number at buffer.old)) (IsWanted seen.now.seen) }
{
    let found = match directory_seen::<F>(alloc, seen, page)? {
        Ok(found) => found,
        Err(fault) => return Ok(Err(fault)),
    };
    let entry = match field_of(&found.directory, number) {
        Ok(entry) => entry,
        Err(fault) => return Ok(Err(fault)),
    };
    let limits = Limits::default();
    let fields = FieldReader {
        alloc,
        kind: found.kind,
        order: found.order,
        limits: &limits,
    };
    part_seen::<F>(&fields, seen, &entry, at, buffer)
}

// Puts the stretch of a file that a call wants into `wanted`, and returns the call's status.
fn bytes_wanted(stretch: Stretch, wanted: &mut Stretch) -> u32
    ensures status { result ≡ spec.bytes_wanted }
    ensures put { wanted.new ≡ stretch }
{
    *wanted = stretch;
    Status::BytesWanted as u32
}

/// Puts the pages of a file of which the caller has windows into `out`, as many as fit, and how
/// many there are into `count`, as `list_into` does of the whole file. If it wants bytes that no
/// window has, it returns `BytesWanted` and puts their stretch into `wanted`. For windows in
/// disorder it returns the number of `IoError(InvalidInput)`. `count` is then 0, and `out` is as it
/// was.
#[tactic(auto, using(crate::proofs::SeenFiles::of_order))]
pub fn list_pages_in(
    alloc: Global,
    seen: &Windows<'_>,
    out: &mut [ListedPage],
    count: &mut usize,
    wanted: &mut Stretch,
) -> u32
    ghost file: { List ℕ }
    ensures { AreWindowsOf file seen.now → SeenTells seen.now result wanted.new
        ((count.new ≡ 0) × (out.new ≡ out.old))
        (ListTells (list_of file) result out.old out.new count.new) }
{
    *count = 0;
    let Some(windows) = seen.in_order() else {
        return Status::InvalidInput as u32;
    };
    match pages_seen::<Brand>(alloc, &windows) {
        Ok(listed) => tell_pages(listed, out, count),
        Err(stretch) => bytes_wanted(stretch, wanted),
    }
}

/// Puts the directories of a file of which the caller has windows into `out`, as many as fit, and
/// how many there are into `count`, as `list_tree` does of the whole file. If it wants bytes that
/// no window has, it returns `BytesWanted` and puts their stretch into `wanted`. For windows in
/// disorder it returns the number of `IoError(InvalidInput)`. `count` is then 0, and `out` is as it
/// was.
#[tactic(auto, using(crate::proofs::SeenFiles::of_order))]
pub fn list_directories_in(
    alloc: Global,
    seen: &Windows<'_>,
    out: &mut [ListedDirectory],
    count: &mut usize,
    wanted: &mut Stretch,
) -> u32
    ghost file: { List ℕ }
    ensures { AreWindowsOf file seen.now → SeenTells seen.now result wanted.new
        ((count.new ≡ 0) × (out.new ≡ out.old))
        (TreeTells (tree_of file) result out.old out.new count.new) }
{
    *count = 0;
    let Some(windows) = seen.in_order() else {
        return Status::InvalidInput as u32;
    };
    match directories_seen::<Brand>(alloc, &windows) {
        Ok(listed) => tell_directories(listed, out, count),
        Err(stretch) => bytes_wanted(stretch, wanted),
    }
}

// The plan of a page, or the bytes that are wanted for it.
fn plan_seen<F: SeenFile>(
    alloc: Global,
    seen: &OrderedWindows<'_>,
    page: usize,
) -> Result<TiffResult<Option<PagePlan>>, Stretch>
    requires of { AreWindowsOf F.bytes seen.now.seen }
    ensures plan { MatchResult result (λ told. AnswersWithoutSource (λ plan. plan) told (plans.plan_found F.bytes page))
        (IsWanted seen.now.seen) }
    ensures reads { IfOk result (λ told. IfOk told (λ found. IfSome found (λ plan. plan.depth < 2 ^ 8
        → plans.ReadsPage F.bytes page (plans.numbers_of plan)))) }
{
    let (found, source) = find_plan(alloc, WindowSource::<F>::new(seen), page);
    unless_wanted(found, source.wanted())
}

// Reads a chunk into a slice by the numbers of a plan, or returns the bytes that are wanted for it.
#[tactic(auto, unfolding(crate::specs::Plan::read_planned_chunk))]
fn planned_seen<F: SeenFile>(
    alloc: Global,
    seen: &OrderedWindows<'_>,
    numbers: &PlannedPage,
    chunk: u32,
    buffer: &mut [u8],
) -> Result<TiffResult<()>, Stretch>
    requires of { AreWindowsOf F.bytes seen.now.seen }
    ensures { MatchResult result (λ told. AnswersWithoutSource (λ _. buffer.new) told
        (plans.read_planned_chunk F.bytes numbers.now chunk buffer.old)) (IsWanted seen.now.seen) }
{
    let mut chunks = match planned_by(alloc, WindowSource::<F>::new(seen), numbers) {
        Ok(chunks) => chunks,
        Err(fault) => return Ok(Err(fault)),
    };
    let read = chunks.read(chunk, buffer);
    unless_wanted(read, chunks.source.wanted())
}

// Reads several chunks into a slice by the numbers of a plan, or returns the bytes that are wanted
// for them.
#[tactic(auto, unfolding(crate::specs::Plan::read_planned_chunks))]
fn range_seen<F: SeenFile>(
    alloc: Global,
    seen: &OrderedWindows<'_>,
    numbers: &PlannedPage,
    first: u32,
    count: u32,
    buffer: &mut [u8],
) -> Result<TiffResult<()>, Stretch>
    requires of { AreWindowsOf F.bytes seen.now.seen }
    ensures { MatchResult result (λ told. AnswersWithoutSource (λ _. buffer.new) told
        (plans.read_planned_chunks F.bytes numbers.now first count buffer.old)) (IsWanted seen.now.seen) }
{
    let mut chunks = match planned_by(alloc, WindowSource::<F>::new(seen), numbers) {
        Ok(chunks) => chunks,
        Err(fault) => return Ok(Err(fault)),
    };
    let read = chunks_from(&mut chunks, first, count, buffer);
    unless_wanted(read, chunks.source.wanted())
}

/// Puts the numbers of the plan of a page of a file of which the caller has windows into `plan`, as
/// `page_plan` does of the whole file. If it wants bytes that no window has, it returns
/// `BytesWanted` and puts their stretch into `wanted`. For windows in disorder it returns the
/// number of `IoError(InvalidInput)`. `plan` is then as it was.
#[tactic(auto, using(crate::proofs::SeenFiles::of_order))]
pub fn page_plan_in(
    alloc: Global,
    seen: &Windows<'_>,
    page: usize,
    plan: &mut PlannedPage,
    wanted: &mut Stretch,
) -> u32
    ghost file: { List ℕ }
    ensures answer { AreWindowsOf file seen.now → SeenTells seen.now result wanted.new (plan.new ≡ plan.old)
        (StatusPuts (plans.page_plan file page) result plan.old plan.new) }
    ensures reads { AreWindowsOf file seen.now → result ≡ 0 → plans.ReadsPage file page plan.new }
{
    let Some(windows) = seen.in_order() else {
        return Status::InvalidInput as u32;
    };
    match plan_seen::<Brand>(alloc, &windows, page) {
        Ok(found) => put_value(found_numbers(found), plan),
        Err(stretch) => bytes_wanted(stretch, wanted),
    }
}

/// Reads a chunk by a plan, as `read_planned_chunk` does, of a file of which the caller has
/// windows. If it wants bytes that no window has, it returns `BytesWanted` and puts their stretch
/// into `wanted`. For windows in disorder it returns the number of `IoError(InvalidInput)`. What
/// these leave in `buffer` is not specified.
#[tactic(auto, using(crate::proofs::SeenFiles::of_order))]
pub fn read_planned_chunk_in(
    alloc: Global,
    seen: &Windows<'_>,
    plan: &PlannedPage,
    chunk: u32,
    buffer: &mut [u8],
    wanted: &mut Stretch,
) -> u32
    ghost file: { List ℕ }
    ensures { AreWindowsOf file seen.now → SeenTells seen.now result wanted.new (Unit {0})
        (StatusTells (plans.read_planned_chunk file plan.now chunk buffer.old) result buffer.new) }
{
    let Some(windows) = seen.in_order() else {
        return Status::InvalidInput as u32;
    };
    match planned_seen::<Brand>(alloc, &windows, plan, chunk, buffer) {
        Ok(read) => unit_status(read),
        Err(stretch) => bytes_wanted(stretch, wanted),
    }
}

/// Reads several chunks by a plan, one behind the other, as `read_planned_chunks` does, of a file
/// of which the caller has windows. If it wants bytes that no window has, it returns `BytesWanted`
/// and puts their stretch into `wanted`. For windows in disorder it returns the number of
/// `IoError(InvalidInput)`. What these leave in `buffer` is not specified.
#[tactic(auto, using(crate::proofs::SeenFiles::of_order))]
pub fn read_planned_chunks_in(
    alloc: Global,
    seen: &Windows<'_>,
    plan: &PlannedPage,
    first: u32,
    count: u32,
    buffer: &mut [u8],
    wanted: &mut Stretch,
) -> u32
    ghost file: { List ℕ }
    ensures { AreWindowsOf file seen.now → SeenTells seen.now result wanted.new (Unit {0})
        (StatusTells (plans.read_planned_chunks file plan.now first count buffer.old) result buffer.new) }
{
    let Some(windows) = seen.in_order() else {
        return Status::InvalidInput as u32;
    };
    match range_seen::<Brand>(alloc, &windows, plan, first, count, buffer) {
        Ok(read) => unit_status(read),
        Err(stretch) => bytes_wanted(stretch, wanted),
    }
}

/// Puts the entries of the directory of a page of a file of which the caller has windows into
/// `entries`, as many as fit, and how many there are into `count`. As `list_tags` does with the
/// offset of a directory, it doesn't ask whether the directory is a page. If it wants bytes that no
/// window has, it returns `BytesWanted` and puts their stretch into `wanted`. For windows in
/// disorder it returns the number of `IoError(InvalidInput)`. `entries` and `count` are then as
/// they were.
#[tactic(auto, using(crate::proofs::SeenFiles::of_order))]
pub fn list_tags_in(
    alloc: Global,
    seen: &Windows<'_>,
    page: usize,
    entries: &mut [TagEntry],
    count: &mut usize,
    wanted: &mut Stretch,
) -> u32
    ghost file: { List ℕ }
    ensures { AreWindowsOf file seen.now → SeenTells seen.now result wanted.new
        ((count.new ≡ count.old) × (entries.new ≡ entries.old))
        (StatusPuts (spec.list_tags file page entries.old) result (count.old, entries.old)
        (count.new, entries.new)) }
{
    let Some(windows) = seen.in_order() else {
        return Status::InvalidInput as u32;
    };
    match entries_seen::<Brand>(alloc, &windows, page, entries) {
        Ok(told) => put_value(told, count),
        Err(stretch) => bytes_wanted(stretch, wanted),
    }
}

/// Copies the bytes of the values of a tag of a file of which the caller has windows into `buffer`,
/// from byte `at` on, as many as fit, and puts how many into `written`, as `tag_bytes` does with
/// the offset of a directory. If it wants bytes that no window has, it returns `BytesWanted` and
/// puts their stretch into `wanted`. For windows in disorder it returns the number of
/// `IoError(InvalidInput)`. `written` is then as it was; what is in `buffer` is not specified.
#[tactic(auto, using(crate::proofs::SeenFiles::of_order))]
pub fn tag_bytes_in(
    alloc: Global,
    seen: &Windows<'_>,
    page: usize,
    number: u16,
    at: u64,
    buffer: &mut [u8],
    written: &mut usize,
    wanted: &mut Stretch,
) -> u32
    ghost file: { List ℕ }
    ensures { AreWindowsOf file seen.now → SeenTells seen.now result wanted.new (written.new ≡ written.old)
        (StatusTells (spec.tag_bytes file page number at buffer.old) result (written.new, buffer.new)
        × ((result ≡ 0) ⊎ (written.new ≡ written.old))) }
{
    let Some(windows) = seen.in_order() else {
        return Status::InvalidInput as u32;
    };
    match bytes_seen::<Brand>(alloc, &windows, page, number, at, buffer) {
        Ok(told) => put_value(told, written),
        Err(stretch) => bytes_wanted(stretch, wanted),
    }
}

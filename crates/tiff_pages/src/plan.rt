//! One chunk of a page, by what the page is known to be: at the cost of one chunk, however many the
//! page has.

ghost use Rattle.std.specs.Prelude.{◌≡◌, ℕ, true, List, Ok, IfSome, ◌<◌, ◌^◌, IfOk, OnOk, length};
ghost use Rattle.std.specs.FinMap.{get};
ghost use Rattle.tiff_base.specs.Answers.{Answers, AnswersWithoutMemory, AnswersWithoutSource, ReadsOnly, Gives, IsKept};
ghost use Rattle.tiff_base.specs.Tags.{tag_number};
ghost use Rattle.tiff_ifd.specs.OneNumber.{NumberReadable};
ghost use Rattle.tiff_ifd.specs.TagLookup.{look_in};
ghost use Rattle.tiff_ifd.specs.declared.limits.Limits.{Limits};
ghost use Rattle.tiff_page.specs.Checks.{page_of};
ghost use Rattle.tiff_page.specs.Counts.{chunk_count, planes_of};
ghost use Rattle.tiff_page.specs.EarlyFaults.{AllocatesAfter, chunk_bytes_early};
ghost use Rattle.tiff_page.specs.Lists.{one_known};
ghost use Rattle.tiff_page.specs.Page.{PageRecord};
ghost use Rattle.tiff_page.specs.PageView as view;
ghost use Rattle.tiff_page.specs.PixelCalls.{read_chunk_bytes};
ghost use Rattle.tiff_page.specs.Reach.{ChunksReadable, PageReadable};
ghost use Rattle.tiff_pages.specs.Plan as spec;

use std::alloc::Global;
use tiff_base::color::ChunkType;
use tiff_base::directory::{Directory, Entry};
use tiff_base::error::{TiffFormatError, TiffResult};
use tiff_base::io::Source;
use tiff_base::tags::{
    ByteOrder, CompressionMethod, ExtraSamples, FileKind, PhotometricInterpretation,
    PlanarConfiguration, Predictor, SampleFormat, Tag,
};
use tiff_ifd::field_reader::FieldReader;
use tiff_ifd::limits::Limits;
use tiff_ifd::read_numbers::is_unsigned;
use tiff_ifd::value_reader::ValueReader;
use tiff_page::buffers::image_chunk_buffer_layout;
use tiff_page::layout::BufferLayoutPreference;
use tiff_page::lists::{ExtraSampleList, NumberList};
use tiff_page::page::Page;
use tiff_page::page_reader::PageReader;
use tiff_page::read_page::{chunk_count, planes_of, read_page};

/// What the tags of a page define, as plain data: the kind and the byte order of the file; what the
/// page has, except its lists; how many extra samples there are, and what the first one means
/// (`Unspecified` if there is none); and the fields of the offsets and of the byte counts of its
/// chunks, which say where these lists are, of which type, and how long.
#[derive(Debug, Drop)]
pub struct PagePlan {
    pub kind: FileKind,
    pub order: ByteOrder,
    pub width: u32,
    pub height: u32,
    pub interpretation: PhotometricInterpretation,
    pub method: CompressionMethod,
    pub samples: u16,
    pub extra_count: u16,
    pub first_extra: ExtraSamples,
    pub format: SampleFormat,
    pub depth: u8,
    pub predictor: Predictor,
    pub planar: PlanarConfiguration,
    pub subsampling: (u16, u16),
    pub chunk_type: ChunkType,
    pub chunk_width: u32,
    pub chunk_height: u32,
    pub offsets: Entry,
    pub byte_counts: Entry,
}

/// Where a chunk is in the file: its offset, and its byte count.
#[derive(Clone, Copy, Debug)]
pub struct ChunkPlace {
    pub offset: u64,
    pub byte_count: u64,
}

// Whether a plan has pixels and chunks, and no more extra samples than samples.
fn is_sized(plan: &PagePlan) -> bool
    ensures value { result ≡ spec.is_sized plan.now }
    ensures sized { result ≡ true → spec.IsSized plan.now }
{
    plan.width > 0
        && plan.height > 0
        && plan.samples > 0
        && plan.depth > 0
        && plan.chunk_width > 0
        && plan.chunk_height > 0
        && plan.extra_count <= plan.samples
}

// Returns the number of chunks of a plan. Returns `InconsistentSizesEncountered` if no page has the
// plan's sizes.
#[tactic(auto, unfolding(crate::specs::Plan::chunks_planned))]
fn chunks_planned(plan: &PagePlan) -> TiffResult<u32>
    ensures answer { Gives (λ n. n) result (spec.chunks_planned plan.now) }
    ensures sized { OnOk result (spec.IsSized plan.now) }
    ensures count { IfOk result (λ n. n ≡ chunk_count plan.now.width plan.now.height plan.now.chunk_width
        plan.now.chunk_height (planes_of plan.now.planar plan.now.samples)) }
{
    if !is_sized(plan) {
        return Err(TiffFormatError::InconsistentSizesEncountered.into());
    }
    let planes = planes_of(plan.planar, plan.samples);
    let count = chunk_count(
        plan.width,
        plan.height,
        plan.chunk_width,
        plan.chunk_height,
        planes,
    );
    match count {
        Some(count) => Ok(count),
        None => Err(TiffFormatError::InconsistentSizesEncountered.into()),
    }
}

// Returns the page of a plan, with these lists.
fn page_of_plan(plan: &PagePlan, offsets: NumberList, byte_counts: NumberList) -> Page
    requires sized { spec.IsSized plan.now }
    requires counted { length offsets ≡ chunk_count plan.now.width plan.now.height plan.now.chunk_width
        plan.now.chunk_height (planes_of plan.now.planar plan.now.samples) }
    requires counted_bytes { length byte_counts ≡ length offsets }
    requires few { length offsets < 2 ^ 32 }
    ensures { view.page result ≡ spec.page_with plan.now (spec.extra_of plan.now) offsets byte_counts }
{
    Page {
        width: plan.width,
        height: plan.height,
        interpretation: plan.interpretation,
        method: plan.method,
        samples: plan.samples,
        extra: ExtraSampleList::alike(usize::from(plan.extra_count), plan.first_extra),
        format: plan.format,
        depth: plan.depth,
        predictor: plan.predictor,
        planar: plan.planar,
        subsampling: plan.subsampling,
        chunk_type: plan.chunk_type,
        chunk_width: plan.chunk_width,
        chunk_height: plan.chunk_height,
        offsets,
        byte_counts,
    }
}

// Returns the page of a plan of `count` chunks, with the offset and the byte count of one of them.
fn page_of_chunk(plan: &PagePlan, count: u32, index: u32, place: ChunkPlace) -> Page
    requires sized { spec.IsSized plan.now }
    requires counted { count ≡ chunk_count plan.now.width plan.now.height plan.now.chunk_width
        plan.now.chunk_height (planes_of plan.now.planar plan.now.samples) }
    ensures { view.page result ≡ spec.page_with plan.now (spec.extra_of plan.now)
        (one_known count index place.offset) (one_known count index place.byte_count) }
{
    let (count, index) = (count as usize, index as usize);
    page_of_plan(
        plan,
        NumberList::one(count, index, place.offset),
        NumberList::one(count, index, place.byte_count),
    )
}

// The tag of the offsets of chunks.
fn offsets_tag(chunk_type: ChunkType) -> Tag
    ensures { result ≡ spec.offsets_tag chunk_type }
{
    match chunk_type {
        ChunkType::Strip => Tag::StripOffsets,
        ChunkType::Tile => Tag::TileOffsets,
    }
}

// The tag of the byte counts of chunks.
fn byte_counts_tag(chunk_type: ChunkType) -> Tag
    ensures { result ≡ spec.byte_counts_tag chunk_type }
{
    match chunk_type {
        ChunkType::Strip => Tag::StripByteCounts,
        ChunkType::Tile => Tag::TileByteCounts,
    }
}

// Returns the field of a tag, if a number of it can be read alone.
fn listed(directory: &Directory, tag: Tag) -> Option<Entry>
    ensures { result ≡ spec.listed (get directory.now.entries (tag_number tag)) }
{
    let entry = directory.get(tag)?;
    if !is_unsigned(entry.field_type()) {
        return None;
    }
    Some(Entry::new_u64(entry.field_type(), entry.count(), entry.value()))
}

// Returns the plan of a page with these fields of its offsets and of its byte counts.
fn plan_with(
    kind: FileKind,
    order: ByteOrder,
    page: &Page,
    offsets: Entry,
    byte_counts: Entry,
) -> PagePlan
    ensures { result ≡ spec.plan_with kind order (view.page page.now) offsets byte_counts }
{
    PagePlan {
        kind,
        order,
        width: page.width,
        height: page.height,
        interpretation: page.interpretation,
        method: page.method,
        samples: page.samples,
        extra_count: page.extra_count(),
        first_extra: page.extra.first().unwrap_or(ExtraSamples::Unspecified),
        format: page.format,
        depth: page.depth,
        predictor: page.predictor,
        planar: page.planar,
        subsampling: page.subsampling,
        chunk_type: page.chunk_type,
        chunk_width: page.chunk_width,
        chunk_height: page.chunk_height,
        offsets,
        byte_counts,
    }
}

// Returns the plan of a page and its directory.
#[tactic(auto, unfolding(crate::specs::Plan::plan_of))]
fn plan_of(kind: FileKind, order: ByteOrder, directory: &Directory, page: &Page) -> Option<PagePlan>
    ensures value { result ≡ spec.plan_of kind order directory.now (view.page page.now) }
    ensures plan { IfSome result (λ plan. (file : List ℕ) (limits : Limits)
        → page_of (look_in kind order file limits directory.now.entries) ≡ Ok (view.page page.now)
        → spec.IsPlanOf plan file limits (view.page page.now)) }
{
    let offsets = listed(directory, offsets_tag(page.chunk_type))?;
    let byte_counts = listed(directory, byte_counts_tag(page.chunk_type))?;
    let plan = plan_with(kind, order, page, offsets, byte_counts);
    is_page(page);
    is_whole(&plan);
    Some(plan)
}

// The facts of a page.
fn is_page(page: &Page)
    ensures { spec.IsPage (view.page page.now) }
{}

// The fields of a plan have eight bytes.
fn is_whole(plan: &PagePlan)
    ensures offsets { length plan.now.offsets.value ≡ 8 }
    ensures byte_counts { length plan.now.byte_counts.value ≡ 8 }
{
    plan.offsets.fits();
    plan.byte_counts.fits();
}

/// Returns the plan of the page of a directory, or `None` if the offsets or the byte counts of its
/// chunks aren't of type SHORT, LONG or LONG8. Returns the first error of the page, as `read_page`
/// does.
#[tactic(auto, unfolding(crate::specs::Plan::plan_in))]
pub fn page_plan<R: Source>(
    alloc: Global,
    tags: &mut ValueReader<R>,
) -> TiffResult<Option<PagePlan>>
    ensures kept { IsKept R.contents R.failures result tags.old.source tags.new.source }
    ensures answer { Answers (λ plan. plan) result
        (spec.plan_in tags.old.kind tags.old.order (R.contents tags.old.source).bytes tags.old.limits
        tags.old.directory) (R.failures tags.old.source) (R.failures tags.new.source) }
    ensures plan { IfOk result (λ found. IfSome found (λ plan. (p : PageRecord)
        → page_of (look_in tags.old.kind tags.old.order (R.contents tags.old.source).bytes tags.old.limits
        tags.old.directory.entries) ≡ Ok p
        → spec.IsPlanOf plan (R.contents tags.old.source).bytes tags.old.limits p)) }
    ensures asked { ReadsOnly
        (PageReadable (R.contents tags.old.source) tags.old.kind tags.old.order tags.old.directory)
        result }
{
    let (kind, order) = (tags.kind, tags.order);
    let page = read_page(tags, alloc)?;
    Ok(plan_of(kind, order, &tags.directory, &page))
}

/// Reads the chunks of a page by its plan.
#[derive(Clone, Copy)]
pub struct PlanReader<'a> {
    pub alloc: Global,
    pub plan: &'a PagePlan,
    pub limits: &'a Limits,
}

impl PlanReader<'_> {
    // Reads the number with an index of one of the plan's lists, which has `count` numbers. Returns
    // 0 past the list.
    #[tactic(auto, unfolding(crate::specs::Plan::number_planned))]
    fn number_planned<R: Source>(
        &self,
        source: &mut R,
        list: &Entry,
        count: u32,
        index: u32,
    ) -> TiffResult<u64>
        ensures kept { IsKept R.contents R.failures result source.old source.new }
        ensures answer { AnswersWithoutMemory (λ n. n) result
            (spec.number_planned (R.contents source.old).bytes self.now.plan.now list.now count index)
            (R.failures source.old) (R.failures source.new) }
        ensures asked { ReadsOnly
            (NumberReadable (R.contents source.old) self.now.plan.now.kind self.now.plan.now.order list.now
            index) result }
    {
        if index >= count {
            return Ok(0);
        }
        let fields = FieldReader {
            alloc: self.alloc,
            kind: self.plan.kind,
            order: self.plan.order,
            limits: self.limits,
        };
        fields.read_number(source, list, u64::from(index))
    }

    // Reads the offset and the byte count of a chunk of a plan of `count` chunks.
    #[tactic(auto, unfolding(crate::specs::Plan::place_planned))]
    fn place_planned<R: Source>(
        &self,
        source: &mut R,
        count: u32,
        index: u32,
    ) -> TiffResult<ChunkPlace>
        ensures kept { IsKept R.contents R.failures result source.old source.new }
        ensures answer { AnswersWithoutMemory (λ place. (place.offset, place.byte_count)) result
            (spec.place_planned (R.contents source.old).bytes self.now.plan.now count index)
            (R.failures source.old) (R.failures source.new) }
        ensures asked { ReadsOnly (spec.PlaceReadable (R.contents source.old) self.now.plan.now index) result }
    {
        let offset = self.number_planned(source, &self.plan.offsets, count, index)?;
        let byte_count = self.number_planned(source, &self.plan.byte_counts, count, index)?;
        Ok(ChunkPlace { offset, byte_count })
    }

    /// Returns the plan's page with the offset and the byte count of one chunk, which it reads
    /// alone; those of the other chunks are 0. By the plan of a page, this page tells of the chunk
    /// what the page does (`plans_make_pages`). For any other plan it returns
    /// `InconsistentSizesEncountered` if no page has the plan's sizes, else the errors of
    /// `FieldReader::read_number` of the chunk's offset, then of its byte count.
    #[tactic(auto, unfolding(crate::specs::Plan::page_of_chunk))]
    pub fn page_of_chunk<R: Source>(&self, source: &mut R, index: u32) -> TiffResult<Page>
        ensures kept { IsKept R.contents R.failures result source.old source.new }
        ensures answer { AnswersWithoutMemory view.page result
            (spec.page_of_chunk (R.contents source.old).bytes self.now.plan.now index)
            (R.failures source.old) (R.failures source.new) }
        ensures asked { ReadsOnly (spec.PlaceReadable (R.contents source.old) self.now.plan.now index) result }
    {
        let count = chunks_planned(self.plan)?;
        let place = self.place_planned(source, count, index)?;
        Ok(page_of_chunk(self.plan, count, index, place))
    }

    // Fills `buf` with one plane of a chunk of a page that has the plan's byte order.
    fn read_chunk_of<R: Source>(
        &self,
        source: &mut R,
        page: &Page,
        index: u32,
        buf: &mut [u8],
    ) -> TiffResult<()>
        ensures kept { IsKept R.contents R.failures result source.old source.new }
        ensures memory { AllocatesAfter
            (chunk_bytes_early (view.page page.now) self.now.limits.now index (length buf.old)) result }
        ensures answer { Answers (λ _. buf.new) result
            (read_chunk_bytes (R.contents source.old).bytes self.now.plan.now.order (view.page page.now)
            self.now.limits.now index buf.old) (R.failures source.old) (R.failures source.new) }
        ensures asked { ReadsOnly
            (ChunksReadable (R.contents source.old) (view.page page.now) index (λ l. 1)) result }
    {
        let reader = PageReader {
            alloc: self.alloc,
            order: self.plan.order,
            page,
            limits: self.limits,
        };
        reader.read_chunk_bytes(source, index, buf)
    }

    // Fills `buf` with one plane of a chunk.
    #[tactic(auto, unfolding(crate::specs::Plan::read_planned, crate::specs::Plan::planned_early))]
    fn read_planned<R: Source>(&self, source: &mut R, index: u32, buf: &mut [u8]) -> TiffResult<()>
        ensures kept { IsKept R.contents R.failures result source.old source.new }
        ensures memory { AllocatesAfter
            (spec.planned_early (R.contents source.old).bytes self.now.plan.now self.now.limits.now index
            (length buf.old)) result }
        ensures answer { Answers (λ _. buf.new) result
            (spec.read_planned (R.contents source.old).bytes self.now.plan.now self.now.limits.now index
            buf.old) (R.failures source.old) (R.failures source.new) }
        ensures asked { ReadsOnly (spec.PlannedReadable (R.contents source.old) self.now.plan.now index)
            result }
    {
        let page = self.page_of_chunk(source, index)?;
        self.read_chunk_of(source, &page, index, buf)
    }

    /// Fills the first bytes of `buf` with one plane of a chunk, by an offset and a byte count that
    /// it reads alone, however many chunks the page has. By the plan of a page it returns what
    /// `PageReader::read_chunk_bytes` returns of that page. For any other plan it returns the first
    /// of these errors: `InconsistentSizesEncountered` if no page has the plan's sizes; the errors
    /// of `FieldReader::read_number` of the chunk's offset, then of its byte count; those of
    /// `PageReader::read_chunk_bytes`.
    pub fn read_chunk_bytes<R: Source>(
        &self,
        source: &mut R,
        index: u32,
        buf: &mut [u8],
    ) -> TiffResult<()>
        ensures kept { IsKept R.contents R.failures result source.old source.new }
        ensures memory { AllocatesAfter
            (spec.planned_early (R.contents source.old).bytes self.now.plan.now self.now.limits.now index
            (length buf.old)) result }
        ensures answer { Answers (λ _. buf.new) result
            (spec.read_planned (R.contents source.old).bytes self.now.plan.now self.now.limits.now index
            buf.old) (R.failures source.old) (R.failures source.new) }
        ensures page { (opened : Limits) (p : PageRecord)
            → spec.IsPlanOf self.now.plan.now (R.contents source.old).bytes opened p
            → Answers (λ _. buf.new) result
            (read_chunk_bytes (R.contents source.old).bytes self.now.plan.now.order p self.now.limits.now
            index buf.old) (R.failures source.old) (R.failures source.new) }
        ensures asked { ReadsOnly (spec.PlannedReadable (R.contents source.old) self.now.plan.now index)
            result }
    {
        self.read_planned(source, index, buf)
    }

    /// Returns the layout of a buffer for one plane of a chunk, in whole samples. Reads nothing.
    /// Returns `InconsistentSizesEncountered` if no page has the plan's sizes, else the errors of
    /// `image_chunk_buffer_layout`.
    #[tactic(auto, unfolding(crate::specs::Plan::planned_layout))]
    pub fn chunk_buffer_layout(&self, index: u32) -> TiffResult<BufferLayoutPreference>
        ensures { AnswersWithoutSource (λ l. l) result (spec.planned_layout self.now.plan.now index) }
    {
        let count = chunks_planned(self.plan)?;
        let nowhere = ChunkPlace {
            offset: 0,
            byte_count: 0,
        };
        let page = page_of_chunk(self.plan, count, index, nowhere);
        image_chunk_buffer_layout(&page, self.alloc, index)
    }
}

/// By the plan of a page, a chunk is what it is by the page: the same bytes or the same error, and
/// the same layout.
pub fn plans_read_pages()
    ensures { spec.PlansReadPages }
{}

/// By the plan of a page there is a page of each chunk, which tells of the chunk what the page
/// does.
pub fn plans_make_pages()
    ensures { spec.PlansMakePages }
{}

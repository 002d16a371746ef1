//! Chunks of a page, by the plan of the page as plain numbers: each at the cost of one chunk,
//! however many the page has.

ghost use Rattle.std.specs.Prelude.{◌≡◌, ◌<◌, ◌^◌, ℕ, List, IfOk, IfSome, Ok, length};
ghost use Rattle.tiff_base.specs.Answers.{Answers, AnswersWithoutSource, IsKept};
ghost use Rattle.tiff_decode.specs.DefaultLimits.{default_limits};
ghost use Rattle.tiff_ifd.specs.Limits.{unlimited};
ghost use Rattle.tiff_ifd.specs.TagLookup.{look_in};
ghost use Rattle.tiff_page.specs.Checks.{page_of};
ghost use Rattle.tiff_page.specs.Page.{PageRecord};
ghost use Rattle.tiff_pages.specs.Plan.{IsPlanOf, plan_in};
ghost use Rattle.tiff_ffi.specs.Calls as calls;
ghost use Rattle.tiff_ffi.specs.Plan as spec;

use crate::calls::{AT, order_number};
use crate::pages::{extra_named, planar_named};
use crate::range::{ReadsChunks, chunks_from};
use crate::writer::{kind_of, predictor_named};
use std::alloc::Global;
use tiff_base::color::ChunkType;
use tiff_base::directory::{Directory, Entry};
use tiff_base::error::{TiffError, TiffFormatError, TiffResult, TiffUnsupportedError};
use tiff_base::io::{IoKind, SliceSource, Source};
use tiff_base::laws::{names_come_back, numbers_come_back};
use tiff_base::tags::{
    ByteOrder, CompressionMethod, FileKind, PhotometricInterpretation, SampleFormat, Type,
};
use tiff_ifd::decode::read_directory;
use tiff_ifd::header::{FileHeader, read_header};
use tiff_ifd::limits::Limits;
use tiff_ifd::value_reader::ValueReader;
use tiff_ifd::walk::IfdChainWalk;
use tiff_pages::plan::{PagePlan, PlanReader, page_plan as page_plan_of, plans_read_pages};

/// What the tags of a page define, as numbers: how many offsets and how many byte counts of chunks
/// there are; the eight bytes of the value fields of their tags; the width and the height of the
/// image and of a chunk, in pixels; the version in the file's header; the number of its byte order;
/// the values of the tags PhotometricInterpretation, Compression and SamplesPerPixel; how many
/// extra samples there are, and the value for the first one, or 0; the values of the tags
/// SampleFormat, BitsPerSample, Predictor and PlanarConfiguration; the number of the chunks' kind;
/// both values of the tag YCbCrSubSampling; and the numbers of the types of the offsets and of the
/// byte counts.
#[derive(Clone, Copy, Debug, PartialEq, Eq)]
#[repr(C)]
pub struct PlannedPage {
    pub offsets_count: u64,
    pub byte_counts_count: u64,
    pub offsets_value: [u8; 8],
    pub byte_counts_value: [u8; 8],
    pub width: u32,
    pub height: u32,
    pub chunk_width: u32,
    pub chunk_height: u32,
    pub version: u16,
    pub order: u16,
    pub photometric: u16,
    pub compression: u16,
    pub samples: u16,
    pub extra_count: u16,
    pub first_extra: u16,
    pub sample_format: u16,
    pub bits: u16,
    pub predictor: u16,
    pub planar: u16,
    pub chunk_kind: u16,
    pub subsampling_across: u16,
    pub subsampling_down: u16,
    pub offsets_type: u16,
    pub byte_counts_type: u16,
}

// ---- numbers

// The version in the header of a file of a kind.
fn version_number(kind: FileKind) -> u16
    ensures { result ≡ spec.version_number kind }
{
    match kind {
        FileKind::Classic => 42,
        FileKind::Big => 43,
    }
}

// The number of a kind of chunks for C.
fn chunk_number(kind: ChunkType) -> u16
    ensures { result ≡ calls.chunk_number kind }
{
    match kind {
        ChunkType::Strip => 0,
        ChunkType::Tile => 1,
    }
}

/// The numbers of a plan.
#[tactic(auto, unfolding(crate::specs::Plan::numbers_of))]
pub fn plan_numbers(plan: &PagePlan) -> PlannedPage
    ensures numbers { result ≡ spec.numbers_of plan.now }
    ensures deep { plan.now.depth < 2 ^ 8 }
{
    PlannedPage {
        offsets_count: plan.offsets.count(),
        byte_counts_count: plan.byte_counts.count(),
        offsets_value: plan.offsets.value(),
        byte_counts_value: plan.byte_counts.value(),
        width: plan.width,
        height: plan.height,
        chunk_width: plan.chunk_width,
        chunk_height: plan.chunk_height,
        version: version_number(plan.kind),
        order: order_number(plan.order) as u16,
        photometric: plan.interpretation.to_u16(),
        compression: plan.method.to_u16(),
        samples: plan.samples,
        extra_count: plan.extra_count,
        first_extra: plan.first_extra.to_u16(),
        sample_format: plan.format.to_u16(),
        bits: u16::from(plan.depth),
        predictor: plan.predictor.to_u16(),
        planar: plan.planar.to_u16(),
        chunk_kind: chunk_number(plan.chunk_type),
        subsampling_across: plan.subsampling.0,
        subsampling_down: plan.subsampling.1,
        offsets_type: plan.offsets.field_type().to_u16(),
        byte_counts_type: plan.byte_counts.field_type().to_u16(),
    }
}

// ---- names

fn version_named(number: u16) -> TiffResult<FileKind>
    ensures { result ≡ spec.version_named number }
{
    match kind_of(number) {
        Some(kind) => Ok(kind),
        None => Err(TiffFormatError::TiffSignatureInvalid.into()),
    }
}

fn order_named(number: u16) -> TiffResult<ByteOrder>
    ensures { result ≡ spec.order_named number }
{
    match number {
        0 => Ok(ByteOrder::LittleEndian),
        1 => Ok(ByteOrder::BigEndian),
        _ => Err(TiffError::IoError(IoKind::InvalidInput)),
    }
}

fn interpretation_named(number: u16) -> TiffResult<PhotometricInterpretation>
    ensures { result ≡ spec.interpretation_named number }
{
    match PhotometricInterpretation::from_u16(number) {
        Some(interpretation) => Ok(interpretation),
        None => Err(TiffUnsupportedError::UnknownInterpretation.into()),
    }
}

fn depth_named(number: u16) -> TiffResult<u8>
    ensures { result ≡ spec.depth_named number }
{
    if number > 255 {
        return Err(TiffError::IoError(IoKind::InvalidInput));
    }
    Ok(number as u8)
}

fn chunk_type_named(number: u16) -> TiffResult<ChunkType>
    ensures { result ≡ spec.chunk_type_named number }
{
    match number {
        0 => Ok(ChunkType::Strip),
        1 => Ok(ChunkType::Tile),
        _ => Err(TiffError::IoError(IoKind::InvalidInput)),
    }
}

fn type_named(number: u16) -> TiffResult<Type>
    ensures { result ≡ spec.type_named number }
{
    match Type::from_u16(number) {
        Some(named) => Ok(named),
        None => Err(TiffFormatError::InvalidTypeForTag.into()),
    }
}

/// The plan with these numbers. The error of the first number that names nothing: a version,
/// `TiffSignatureInvalid`; a byte order, `IoError(InvalidInput)`; an interpretation,
/// `UnknownInterpretation`; a first extra sample, more than 255 bits, `IoError(InvalidInput)`; a
/// predictor, `UnknownPredictor`; a planar configuration, `UnknownPlanarConfiguration`; a kind of
/// chunks, `IoError(InvalidInput)`; a type, `InvalidTypeForTag`.
#[tactic(auto, unfolding(crate::specs::Plan::plan_from))]
pub fn plan_from(numbers: &PlannedPage) -> TiffResult<PagePlan>
    ensures { AnswersWithoutSource (λ plan. plan) result (spec.plan_from numbers.now) }
{
    let kind = version_named(numbers.version)?;
    let order = order_named(numbers.order)?;
    let interpretation = interpretation_named(numbers.photometric)?;
    let first_extra = extra_named(numbers.first_extra)?;
    let depth = depth_named(numbers.bits)?;
    let predictor = predictor_named(numbers.predictor)?;
    let planar = planar_named(numbers.planar)?;
    let chunk_type = chunk_type_named(numbers.chunk_kind)?;
    let offsets_type = type_named(numbers.offsets_type)?;
    let byte_counts_type = type_named(numbers.byte_counts_type)?;
    Ok(PagePlan {
        kind,
        order,
        width: numbers.width,
        height: numbers.height,
        interpretation,
        method: CompressionMethod::from_u16_exhaustive(numbers.compression),
        samples: numbers.samples,
        extra_count: numbers.extra_count,
        first_extra,
        format: SampleFormat::from_u16_exhaustive(numbers.sample_format),
        depth,
        predictor,
        planar,
        subsampling: (numbers.subsampling_across, numbers.subsampling_down),
        chunk_type,
        chunk_width: numbers.chunk_width,
        chunk_height: numbers.chunk_height,
        offsets: Entry::new_u64(offsets_type, numbers.offsets_count, numbers.offsets_value),
        byte_counts: Entry::new_u64(
            byte_counts_type,
            numbers.byte_counts_count,
            numbers.byte_counts_value,
        ),
    })
}

/// A plan that has named methods is the one that its numbers give. The law does nothing.
pub fn plans_come_back()
    ensures { spec.PlansComeBack }
{
    names_come_back();
}

// ---- the plan of a page

// The offset of a page's directory, by the header of its file.
fn page_offset<R: Source>(
    alloc: Global,
    source: &mut R,
    header: &FileHeader,
    page: usize,
) -> TiffResult<u64>
    ensures kept { IsKept R.contents R.failures result source.old source.new }
    ensures answer { Answers (λ n. n) result (spec.page_offset
        (record { order = header.now.order; kind = header.now.kind; first = header.now.first })
        (R.contents source.old).bytes page) (R.failures source.old) (R.failures source.new) }
{
    if page >= AT {
        return Ok((page - AT) as u64);
    }
    let mut walk = IfdChainWalk::new(alloc, header.first);
    match walk.offset_of(source, header.kind, header.order, page)? {
        Some(offset) => Ok(offset),
        None => Err(TiffFormatError::ImageFileDirectoryNotFound.into()),
    }
}

// The directory of a page, with the kind and the byte order of its file. Whether it is a page isn't
// asked.
#[derive(Drop)]
pub(crate) struct PageDirectory {
    pub kind: FileKind,
    pub order: ByteOrder,
    pub directory: Directory,
}

// The directory of a page.
#[tactic(auto, unfolding(crate::specs::Plan::page_directory))]
pub(crate) fn page_directory<R: Source>(
    alloc: Global,
    source: &mut R,
    page: usize,
) -> TiffResult<PageDirectory>
    ensures kept { IsKept R.contents R.failures result source.old source.new }
    ensures answer { Answers (λ p. (p.kind, p.order, p.directory)) result
        (spec.page_directory (R.contents source.old).bytes page) (R.failures source.old)
        (R.failures source.new) }
{
    let header = read_header(source)?;
    let offset = page_offset(alloc, source, &header, page)?;
    let (kind, order) = (header.kind, header.order);
    let directory = read_directory(alloc, source, offset, kind, order)?;
    Ok(PageDirectory {
        kind,
        order,
        directory,
    })
}

// A source has fewer than 2^64 bytes.
fn bytes_fit<R: Source>(source: &R)
    ensures { length (R.contents source.now).bytes < 2 ^ 64 }
{}

// The plan of a directory, and its source.
fn plan_here<R: Source>(
    alloc: Global,
    source: R,
    page: PageDirectory,
) -> (TiffResult<Option<PagePlan>>, R)
    ensures kept { IsKept R.contents R.failures result.0 source result.1 }
    ensures answer { Answers (λ plan. plan) result.0
        (plan_in page.kind page.order (R.contents source).bytes default_limits page.directory)
        (R.failures source) (R.failures result.1) }
    ensures plan { IfOk result.0 (λ found. IfSome found (λ plan. (p : PageRecord)
        → page_of (look_in page.kind page.order (R.contents source).bytes default_limits
        page.directory.entries) ≡ Ok p
        → IsPlanOf plan (R.contents source).bytes default_limits p)) }
{
    let mut tags = ValueReader {
        source,
        kind: page.kind,
        order: page.order,
        directory: page.directory,
        limits: Limits::default(),
    };
    let plan = page_plan_of(alloc, &mut tags);
    (plan, tags.source)
}

/// The plan of a page, under the default limits, and its source.
#[tactic(auto, unfolding(crate::specs::Plan::plan_found))]
pub(crate) fn find_plan<R: Source>(
    alloc: Global,
    source: R,
    page: usize,
) -> (TiffResult<Option<PagePlan>>, R)
    ensures kept { IsKept R.contents R.failures result.0 source result.1 }
    ensures answer { Answers (λ plan. plan) result.0 (spec.plan_found (R.contents source).bytes page)
        (R.failures source) (R.failures result.1) }
    ensures reads { IfOk result.0
        (λ found. IfSome found (λ plan. plan.depth < 2 ^ 8
        → spec.ReadsPage (R.contents source).bytes page (spec.numbers_of plan))) }
{
    numbers_come_back();
    names_come_back();
    plans_read_pages();
    bytes_fit(&source);
    let mut source = source;
    match page_directory(alloc, &mut source, page) {
        Ok(page) => plan_here(alloc, source, page),
        Err(fault) => (Err(fault), source),
    }
}

/// The numbers of a plan that was found; `InvalidTypeForTag` if there is none.
#[tactic(auto, using(crate::proofs::Plans::is_plan, crate::proofs::Plans::no_plan, crate::proofs::Plans::no_page, crate::proofs::Plans::told_reads))]
pub(crate) fn found_numbers(found: TiffResult<Option<PagePlan>>) -> TiffResult<PlannedPage>
    ensures answer { (file : List ℕ) (page : ℕ)
        → AnswersWithoutSource (λ plan. plan) found (spec.plan_found file page)
        → AnswersWithoutSource (λ n. n) result (spec.page_plan file page) }
    ensures reads { (file : List ℕ) (page : ℕ)
        → IfOk found (λ found. IfSome found (λ plan. plan.depth < 2 ^ 8
        → spec.ReadsPage file page (spec.numbers_of plan)))
        → IfOk result (λ n. spec.ReadsPage file page n) }
{
    match found? {
        Some(plan) => Ok(plan_numbers(&plan)),
        None => Err(TiffFormatError::InvalidTypeForTag.into()),
    }
}

/// The numbers of the plan of a page. The first error: of the file or the page; of offsets or byte
/// counts of chunks that aren't of type SHORT, LONG or LONG8, `InvalidTypeForTag`. By these numbers
/// `planned_chunk` reads what `chunk_bytes` reads of the page, and `planned_chunks` what
/// `range_bytes` reads.
pub fn page_plan(alloc: Global, file: &[u8], page: usize) -> TiffResult<PlannedPage>
    ensures answer { AnswersWithoutSource (λ n. n) result (spec.page_plan file.now page) }
    ensures reads { IfOk result (λ n. spec.ReadsPage file.now page n) }
{
    let (found, _source) = find_plan(alloc, SliceSource::new(file), page);
    found_numbers(found)
}

// ---- chunks

/// The plan of a page by its numbers, under no limits.
#[derive(Drop)]
pub(crate) struct UnlimitedPlan {
    alloc: Global,
    plan: PagePlan,
    limits: Limits,
}

impl UnlimitedPlan {
    /// What reads the chunks of the page.
    pub(crate) fn reader(&self) -> PlanReader<'_>
        ensures plan { result.plan.now ≡ self.now.plan }
        ensures limits { result.limits.now ≡ self.now.limits }
    {
        PlanReader {
            alloc: self.alloc,
            plan: &self.plan,
            limits: &self.limits,
        }
    }
}

/// The plan that numbers make, under no limits. Its errors: those of `plan_from`.
pub(crate) fn unlimited_plan(alloc: Global, numbers: &PlannedPage) -> TiffResult<UnlimitedPlan>
    ensures plan { AnswersWithoutSource (λ p. p.plan) result (spec.plan_from numbers.now) }
    ensures limits { IfOk result (λ p. p.limits ≡ unlimited) }
{
    let plan = plan_from(numbers)?;
    Ok(UnlimitedPlan {
        alloc,
        plan,
        limits: Limits::unlimited(),
    })
}

/// The chunks of a source, by a plan.
#[derive(Drop)]
pub(crate) struct PlannedChunks<R: Source> {
    pub source: R,
    by: UnlimitedPlan,
}

impl<R: Source> ReadsChunks for PlannedChunks<R> {
    ghost reading = { λ p. spec.plan_reading (R.contents p.source).bytes p.by.plan p.by.limits };

    ghost contents = { λ p. R.contents p.source };

    ghost failures = { λ p. R.failures p.source };

    fn len_of(&mut self, chunk: u32) -> TiffResult<usize> {
        Ok(self.by.reader().chunk_buffer_layout(chunk)?.len)
    }

    fn read(&mut self, chunk: u32, buffer: &mut [u8]) -> TiffResult<()> {
        self.by
            .reader()
            .read_chunk_bytes(&mut self.source, chunk, buffer)
    }
}

/// The chunks of a source by the numbers of a plan, under no limits.
pub(crate) fn planned_by<R: Source>(
    alloc: Global,
    source: R,
    numbers: &PlannedPage,
) -> TiffResult<PlannedChunks<R>>
    ensures plan { AnswersWithoutSource (λ chunks. chunks.by.plan) result (spec.plan_from numbers.now) }
    ensures source { IfOk result (λ chunks. chunks.source ≡ source) }
    ensures limits { IfOk result (λ chunks. chunks.by.limits ≡ unlimited) }
{
    let by = unlimited_plan(alloc, numbers)?;
    Ok(PlannedChunks { source, by })
}

/// Reads the chunk with the number `chunk` into `buffer` by the numbers of a plan, under no limits.
/// The first error: of a number that names nothing, as `plan_from` has it; of sizes that no page
/// has, `InconsistentSizesEncountered`; of the chunk's offset and byte count; of its color or its
/// layout; of a buffer shorter than the chunk, `InsufficientOutputBufferSize`; of the chunk. What
/// an error leaves in `buffer` is not specified.
#[tactic(auto, unfolding(crate::specs::Plan::read_planned_chunk))]
pub fn planned_chunk(
    alloc: Global,
    file: &[u8],
    plan: &PlannedPage,
    chunk: u32,
    buffer: &mut [u8],
) -> TiffResult<()>
    ensures { AnswersWithoutSource (λ _. buffer.new) result
        (spec.read_planned_chunk file.now plan.now chunk buffer.old) }
{
    planned_by(alloc, SliceSource::new(file), plan)?.read(chunk, buffer)
}

/// Reads `count` chunks, from the number `first` on, into `buffer`, one behind the other, by the
/// numbers of a plan and under no limits. The first error: of a number that names nothing, as
/// `plan_from` has it; `first` plus `count` of 2^32 or more, `InvalidChunkIndex`; and then, chunk
/// by chunk, of sizes that no page has, `InconsistentSizesEncountered`; of the page's color or its
/// layout; of a buffer that has no room left for the chunk, `InsufficientOutputBufferSize`; of the
/// chunk's offset and byte count; of the chunk. What an error leaves in `buffer` is not specified.
#[tactic(auto, unfolding(crate::specs::Plan::read_planned_chunks))]
pub fn planned_chunks(
    alloc: Global,
    file: &[u8],
    plan: &PlannedPage,
    first: u32,
    count: u32,
    buffer: &mut [u8],
) -> TiffResult<()>
    ensures { AnswersWithoutSource (λ _. buffer.new) result
        (spec.read_planned_chunks file.now plan.now first count buffer.old) }
{
    let mut chunks = planned_by(alloc, SliceSource::new(file), plan)?;
    chunks_from(&mut chunks, first, count, buffer)
}

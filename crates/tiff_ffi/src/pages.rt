//! A file of several pages, whose parameters, tags and samples C passes.

ghost use Rattle.std.specs.Prelude.{◌≡◌, ◌++◌, ◌+◌, [], length, map, slice_get, MatchResult};
ghost use Rattle.tiff_ffi.specs.Pages as spec;
ghost use Rattle.tiff_ffi.specs.Pages.{AnswersPages, AnswersVersion, IsOut, IsOutAt, IsOutIn, Makes, TellsPages, appended, behind, each, job_view, jobs_of_pages, pages_view, settings_steps, step_view};
ghost use Rattle.tiff_ffi.specs.Parents.{AreCounts};
ghost use Rattle.tiff_ffi.specs.Writer as writer;

use crate::children::{add_links, count_page, counts_of, no_counts};
use crate::frame::NewFile;
use crate::image_samples::add_samples;
use crate::jobs::run;
use crate::parents::{Links, go_on};
use crate::status::fault_number;
use crate::writer::{color_named, kind_of, packing_named, predictor_named, put_file};
use std::alloc::Global;
use tiff_append::last_link::header_link;
use tiff_base::error::{TiffError, TiffFormatError, TiffResult, TiffUnsupportedError, UsageError};
use tiff_base::io::IoKind;
use tiff_base::tags::{
    ByteOrder, ExtraSamples, FileKind, PlanarConfiguration, Predictor, ResolutionUnit, Tag, Type,
};
use tiff_encode::encoder::script::{DirectoryStep, ImageJob, ImageStep, Job, JobBuffer};
use tiff_encode::encoder::{Compression, TiffKind, TiffKindBig, TiffKindStandard};
use tiff_value::encoder::colortype::ColorTypeName;
use tiff_value::encoder::tiff_value::Rational;

/// A tag for a page: its number, the number of the type of its values, how many there are, and
/// their bytes, of each number the lowest byte first.
#[derive(Clone, Copy)]
#[repr(C)]
pub struct NewTag<'a> {
    pub number: u16,
    pub value_type: u16,
    pub count: usize,
    pub values: &'a [u8],
}

/// A fraction: numerator and denominator.
#[derive(Clone, Copy, Debug, PartialEq, Eq)]
#[repr(C)]
pub struct Fraction {
    pub n: u32,
    pub d: u32,
}

/// A page to be written, by the numbers of TIFF: the color type by its number in
/// `ColorTypeName::ALL`; the width and the height in pixels; the rows of a strip, or 0; the width
/// and the length of a tile, or 0 and 0; the values of the tags Compression, Predictor and
/// PlanarConfiguration; the unit of the resolutions, or 0 for none, and both resolutions; the
/// values of the tag ExtraSamples; the tags of the caller's own; the samples, of each the lowest
/// byte first, row by row, the samples of a pixel side by side; 0 for a page in the chain of
/// directories, or the number, from 1, of the earlier page whose tag SubIFDs lists the page; and 0,
/// or how many bytes a tile has, if the samples are those of the tiles, one tile after another as
/// in the file, each with its padding.
#[derive(Clone, Copy)]
#[repr(C)]
pub struct NewPage<'a> {
    pub color: u32,
    pub width: u32,
    pub height: u32,
    pub rows_per_strip: u32,
    pub tile_width: u32,
    pub tile_length: u32,
    pub method: u16,
    pub predictor: u16,
    pub planar: u16,
    pub resolution_unit: u16,
    pub x_resolution: Fraction,
    pub y_resolution: Fraction,
    pub extra_samples: &'a [u16],
    pub tags: &'a [NewTag<'a>],
    pub samples: &'a [u8],
    pub parent: usize,
    pub tile_bytes: usize,
}

/// The field of a page that is refused. The numbers are those of `tiff_page_field` in
/// `include/mangohatch_tiff.h`.
#[derive(Clone, Copy, Debug, PartialEq, Eq, Drop)]
pub enum PageField {
    /// The page as a whole.
    Whole = 0,
    Color = 1,
    Method = 2,
    Predictor = 3,
    Planar = 4,
    Resolution = 5,
    ExtraSamples = 6,
    Tags = 7,
    Samples = 8,
    /// The strips or tiles.
    Layout = 9,
    /// The page whose tag SubIFDs lists the page.
    Parent = 10,
}

/// Where a list of pages was refused: the number of the page, from 1, and the number of its field.
/// 0 is none.
#[derive(Clone, Copy, Debug, PartialEq, Eq)]
#[repr(C)]
pub struct PagesEnd {
    pub page: usize,
    pub field: u32,
}

/// No page is refused.
pub const NO_PAGE: PagesEnd = PagesEnd { page: 0, field: 0 };

/// A field that is refused, and its error.
#[derive(Drop)]
pub struct Refusal {
    pub field: PageField,
    pub fault: TiffError,
}

/// A page that was refused while pages were written: its number, from 1, its field, and the status.
#[derive(Clone, Copy, Debug, PartialEq, Eq)]
pub struct RefusedPage {
    pub page: usize,
    pub field: PageField,
    pub status: u32,
}

/// What pages left that were written: their file, and the page that was refused.
#[derive(Drop)]
pub struct WrittenPages {
    pub file: Vec<u8>,
    pub refused: Option<RefusedPage>,
}

/// What came of a list of pages.
#[derive(Drop)]
pub enum PagesAnswer {
    /// The page of this number, from 1, is refused.
    Refused(usize, Refusal),

    /// The jobs of the pages were run.
    Ran(WrittenPages),
}

/// A page with a parent: its number and that of its parent, both from 1; how many earlier pages
/// have this parent; and its jobs.
#[derive(Drop)]
pub struct ChildJobs<'a> {
    pub page: usize,
    pub parent: usize,
    pub index: usize,
    pub jobs: Vec<Job<'a>>,
}

/// The jobs of pages: the numbers, from 1, of those in the chain of directories, and the jobs of
/// these, three of each; and the pages with parents, in their order.
#[derive(Drop)]
pub struct PagesJobs<'a> {
    pub numbers: Vec<usize>,
    pub chain: Vec<Job<'a>>,
    pub children: Vec<ChildJobs<'a>>,
}

/// Where a page is among others: its number, from 1; how many pages have it as their parent; and
/// how many earlier pages have the same parent as the page.
#[derive(Clone, Copy)]
pub struct Place {
    pub number: usize,
    pub children: usize,
    pub index: usize,
}

/// What a page names by numbers. Without a unit it has no resolutions.
#[derive(Clone, Copy, Drop)]
pub struct PageNames {
    pub color: ColorTypeName,
    pub compression: Compression,
    pub predictor: Predictor,
    pub planar: PlanarConfiguration,
    pub unit: Option<ResolutionUnit>,
}

// An error is that of a field.
fn in_field<T>(field: PageField, answer: TiffResult<T>) -> Result<T, Refusal>
    ensures { result ≡ spec.in_field field answer }
{
    match answer {
        Ok(x) => Ok(x),
        Err(fault) => Err(Refusal { field, fault }),
    }
}

// ---- names

/// The planar configuration of a number; `UnknownPlanarConfiguration` if it names none.
pub(crate) fn planar_named(number: u16) -> TiffResult<PlanarConfiguration>
    ensures { result ≡ spec.planar_named number }
{
    match PlanarConfiguration::from_u16(number) {
        Some(planar) => Ok(planar),
        None => Err(TiffFormatError::UnknownPlanarConfiguration(number).into()),
    }
}

// The unit of resolutions; none for 0.
fn unit_named(number: u16) -> TiffResult<Option<ResolutionUnit>>
    ensures { result ≡ spec.unit_named number }
{
    if number == 0 {
        return Ok(None);
    }
    match ResolutionUnit::from_u16(number) {
        Some(unit) => Ok(Some(unit)),
        None => Err(TiffError::IoError(IoKind::InvalidInput)),
    }
}

fn names_of(page: &NewPage<'_>) -> Result<PageNames, Refusal>
    ensures { result ≡ spec.names_of page.now }
{
    Ok(PageNames {
        color: in_field(PageField::Color, color_named(page.color))?,
        compression: in_field(PageField::Method, packing_named(page.method))?,
        predictor: in_field(PageField::Predictor, predictor_named(page.predictor))?,
        planar: in_field(PageField::Planar, planar_named(page.planar))?,
        unit: in_field(PageField::Resolution, unit_named(page.resolution_unit))?,
    })
}

// ---- steps

/// The meaning of an extra sample of a number; `IoError(InvalidInput)` if it names none.
pub(crate) fn extra_named(number: u16) -> TiffResult<ExtraSamples>
    ensures { result ≡ spec.extra_named number }
{
    match ExtraSamples::from_u16(number) {
        Some(extra) => Ok(extra),
        None => Err(TiffError::IoError(IoKind::InvalidInput)),
    }
}

// The meaning of each extra sample.
fn extras_of(alloc: Global, numbers: &[u16]) -> TiffResult<Vec<ExtraSamples>>
    ensures { Makes IsOut (λ v. v.items) result (each spec.extra_named numbers.now) }
{
    let mut extras = Vec::new(alloc);
    for i in 0..numbers.len() {
        let extra = extra_named(numbers[i])?;
        extras.push(extra)?;
    }
    Ok(extras)
}

// The bytes of a tag.
fn bytes_of(alloc: Global, bytes: &[u8]) -> TiffResult<Vec<u8>>
    ensures { MatchResult result (λ v. v.items ≡ bytes.now) (λ e. e ≡ TiffError.OutOfMemory) }
{
    let mut all = Vec::new(alloc);
    if all.extend_from_slice(bytes).is_err() {
        return Err(TiffError::OutOfMemory);
    }
    Ok(all)
}

// The call that sets a tag of the caller's own.
fn tag_step<'a>(alloc: Global, tag: &NewTag<'_>) -> TiffResult<ImageStep<'a>>
    ensures { Makes IsOut step_view result (spec.tag_step tag.now) }
{
    let Some(data_type) = Type::from_u16(tag.value_type) else {
        return Err(TiffUnsupportedError::UnsupportedDataType.into());
    };
    let found = tag.values.len();
    if tag.count.checked_mul(usize::from(data_type.byte_len())) != Some(found) {
        return Err(UsageError::MismatchedEntryLength {
            ty: data_type,
            found,
        }
        .into());
    }
    let buffer = JobBuffer {
        data_type,
        order: ByteOrder::LittleEndian,
        bytes: bytes_of(alloc, tag.values)?,
    };
    let number = Tag::from_u16_exhaustive(tag.number);
    Ok(ImageStep::Directory(DirectoryStep::WriteTagBuf(number, buffer)))
}

// Puts the call that sets each tag behind the others.
fn add_tags(alloc: Global, tags: &[NewTag<'_>], steps: &mut Vec<ImageStep<'_>>) -> TiffResult<()>
    ensures { Makes IsOut (λ _. map step_view steps.new.items) result
        (appended (map step_view steps.old.items) (each spec.tag_step tags.now)) }
{
    for i in 0..tags.len() {
        let step = tag_step(alloc, &tags[i])?;
        steps.push(step)?;
    }
    Ok(())
}

// ---- settings

// Puts the calls that say how the chunks lie behind the others.
fn add_layout(
    page: &NewPage<'_>,
    planar: PlanarConfiguration,
    steps: &mut Vec<ImageStep<'_>>,
) -> TiffResult<()>
    ensures { MatchResult result (λ _. map step_view steps.new.items ≡ map step_view steps.old.items
        ++ spec.layout_steps page.now planar) IsOut }
{
    if page.tile_width != 0 || page.tile_length != 0 {
        steps.push(ImageStep::Tiles(page.tile_width, page.tile_length))?;
    }
    if page.rows_per_strip != 0 {
        steps.push(ImageStep::RowsPerStrip(page.rows_per_strip))?;
    }
    if planar == PlanarConfiguration::Planar {
        steps.push(ImageStep::Planar)?;
    }
    Ok(())
}

// A fraction as the encoder takes it.
fn rational(fraction: Fraction) -> Rational
    ensures n { result.n ≡ fraction.n }
    ensures d { result.d ≡ fraction.d }
{
    Rational {
        n: fraction.n,
        d: fraction.d,
    }
}

// Puts the calls that set the resolutions behind the others.
fn add_resolution(
    page: &NewPage<'_>,
    unit: Option<ResolutionUnit>,
    steps: &mut Vec<ImageStep<'_>>,
) -> TiffResult<()>
    ensures { MatchResult result (λ _. map step_view steps.new.items ≡ map step_view steps.old.items
        ++ spec.resolution_steps page.now unit) IsOut }
{
    let Some(unit) = unit else {
        return Ok(());
    };
    steps.push(ImageStep::ResolutionUnit(unit))?;
    steps.push(ImageStep::XResolution(rational(page.x_resolution)))?;
    steps.push(ImageStep::YResolution(rational(page.y_resolution)))?;
    Ok(())
}

// The calls before the tags of the caller's own.
fn settings_of<'a>(
    alloc: Global,
    page: &NewPage<'_>,
    names: &PageNames,
    extra: Vec<ExtraSamples>,
) -> TiffResult<Vec<ImageStep<'a>>>
    ensures { MatchResult result (λ v. map step_view v.items
        ≡ settings_steps page.now names.now extra.items) IsOut }
{
    let mut steps = Vec::new(alloc);
    if !extra.is_empty() {
        steps.push(ImageStep::ExtraSamples(extra))?;
    }
    add_layout(page, names.planar, &mut steps)?;
    add_resolution(page, names.unit, &mut steps)?;
    Ok(steps)
}

// ---- jobs

// The image of a page that has so many children.
fn image_of<'a>(
    alloc: Global,
    kind: FileKind,
    children: usize,
    page: &NewPage<'a>,
    names: &PageNames,
) -> Result<ImageJob<'a>, Refusal>
    ensures { Makes IsOutAt (λ image. spec.image_view image) result
        (spec.page_image kind children page.now names.now) }
{
    let extra = in_field(
        PageField::ExtraSamples,
        extras_of(alloc, page.extra_samples),
    )?;
    let mut steps = in_field(PageField::Whole, settings_of(alloc, page, names, extra))?;
    in_field(PageField::Tags, add_tags(alloc, page.tags, &mut steps))?;
    in_field(
        PageField::Tags,
        add_links(alloc, kind, children, page.tags, &mut steps),
    )?;
    let end = in_field(PageField::Samples, add_samples(page, names, &mut steps))?;
    Ok(ImageJob {
        color: names.color,
        width: page.width,
        height: page.height,
        steps,
        end,
    })
}

// Puts the settings and the image of a page behind the other jobs.
fn add_jobs<'a>(names: &PageNames, image: ImageJob<'a>, jobs: &mut Vec<Job<'a>>) -> TiffResult<()>
    ensures { MatchResult result (λ _. map job_view jobs.new.items ≡ map job_view jobs.old.items
        ++ spec.jobs_named names.now (spec.image_view image.entry)) IsOut }
{
    jobs.push(Job::Predictor(names.predictor))?;
    jobs.push(Job::Compression(names.compression))?;
    jobs.push(Job::Image(image))?;
    Ok(())
}

// The jobs of a page that has so many children.
fn page_jobs<'a>(
    alloc: Global,
    kind: FileKind,
    children: usize,
    page: &NewPage<'a>,
) -> Result<Vec<Job<'a>>, Refusal>
    ensures { Makes IsOutAt (λ v. map job_view v.items) result
        (spec.page_jobs kind children page.now) }
{
    let names = names_of(page)?;
    let image = image_of(alloc, kind, children, page, &names)?;
    let mut jobs = Vec::new(alloc);
    in_field(PageField::Whole, add_jobs(&names, image, &mut jobs))?;
    Ok(jobs)
}

// Puts a page of this number in the chain, with its jobs, behind the others.
fn add_chained<'a>(number: usize, mut own: Vec<Job<'a>>, jobs: &mut PagesJobs<'a>) -> TiffResult<()>
    ensures { MatchResult result (λ _. pages_view jobs.new ≡ spec.both (pages_view jobs.old)
        (spec.chained number (map job_view own.entry.items))) IsOut }
{
    jobs.numbers.push(number)?;
    jobs.chain.append(&mut own)?;
    Ok(())
}

// Puts a page with a parent behind the others.
fn add_child<'a>(child: ChildJobs<'a>, jobs: &mut PagesJobs<'a>) -> TiffResult<()>
    ensures { MatchResult result (λ _. pages_view jobs.new ≡ spec.both (pages_view jobs.old)
        (spec.with_parent (spec.child_view child.entry))) IsOut }
{
    jobs.children.push(child)?;
    Ok(())
}

// Puts a page with these jobs, whose parent is 0 or an earlier page, behind the others; else
// `IoError(InvalidInput)`.
fn add_placed<'a>(
    place: Place,
    parent: usize,
    own: Vec<Job<'a>>,
    jobs: &mut PagesJobs<'a>,
) -> TiffResult<()>
    ensures { Makes IsOut (λ _. pages_view jobs.new) result
        (behind (pages_view jobs.old) (spec.placed place parent (map job_view own.entry.items))) }
{
    if parent == 0 {
        return add_chained(place.number, own, jobs);
    }
    if parent >= place.number {
        return Err(TiffError::IoError(IoKind::InvalidInput));
    }
    let child = ChildJobs {
        page: place.number,
        parent,
        index: place.index,
        jobs: own,
    };
    add_child(child, jobs)
}

// Puts the jobs of a page at its place behind the others.
#[tactic(auto, using(crate::proofs::PagesMade::put_at, crate::proofs::PagesMade::not_put))]
fn add_page<'a>(
    alloc: Global,
    kind: FileKind,
    place: Place,
    page: &NewPage<'a>,
    jobs: &mut PagesJobs<'a>,
) -> Result<(), Refusal>
    ensures { Makes IsOutAt (λ _. pages_view jobs.new) result
        (behind (pages_view jobs.old) (spec.page_in kind place page.now)) }
{
    let own = page_jobs(alloc, kind, place.children, page)?;
    if let Err(fault) = add_placed(place, page.parent, own, jobs) {
        return Err(Refusal {
            field: PageField::Parent,
            fault,
        });
    }
    Ok(())
}

// Puts the jobs of pages behind the others; or returns the number of the first page that is
// refused, from 1, and its refusal. `counts` are of all pages, and `seen` of none.
fn add_pages<'a>(
    alloc: Global,
    kind: FileKind,
    pages: &[NewPage<'a>],
    counts: &[usize],
    mut seen: Vec<usize>,
) -> Result<PagesJobs<'a>, (usize, Refusal)>
    requires counts { (length counts.now ≡ length pages.now + 1) × AreCounts counts.now pages.now }
    requires seen { (length seen.items ≡ length pages.now + 1) × AreCounts seen.items [] }
    ensures { Makes (IsOutIn pages.now) (λ jobs. pages_view jobs) result
        (jobs_of_pages kind pages.now) }
{
    let mut jobs = PagesJobs {
        numbers: Vec::new(alloc),
        chain: Vec::new(alloc),
        children: Vec::new(alloc),
    };
    for i in 0..pages.len() {
        let place = Place {
            number: i + 1,
            children: counts[i + 1],
            index: count_page(&mut seen, pages, i),
        };
        if let Err(refusal) = add_page(alloc, kind, place, &pages[i], &mut jobs) {
            return Err((i + 1, refusal));
        }
    }
    Ok(jobs)
}

// Memory is out before a page is seen, which is told of the first one.
fn out_of_memory() -> (usize, Refusal)
    ensures { (result.0 ≡ 1) × IsOutAt result.1 }
{
    let refusal = Refusal {
        field: PageField::Whole,
        fault: TiffError::OutOfMemory,
    };
    (1, refusal)
}

/// The jobs of pages of a file of a kind; or the number of the first page that is refused, from 1,
/// and its refusal.
pub fn jobs_of<'a>(
    alloc: Global,
    kind: FileKind,
    pages: &[NewPage<'a>],
) -> Result<PagesJobs<'a>, (usize, Refusal)>
    ensures { Makes (IsOutIn pages.now) (λ jobs. pages_view jobs) result
        (jobs_of_pages kind pages.now) }
{
    let Ok(counts) = counts_of(alloc, pages) else {
        return Err(out_of_memory());
    };
    let Ok(seen) = no_counts(alloc, pages) else {
        return Err(out_of_memory());
    };
    add_pages(alloc, kind, pages, &counts, seen)
}

// ---- what was refused

// The field that a call of an image is made for.
fn step_field(step: &ImageStep<'_>) -> PageField
    ensures { result ≡ spec.step_field (step_view step.now) }
{
    match step {
        ImageStep::ExtraSamples(_) => PageField::ExtraSamples,
        ImageStep::Tiles(_, _) | ImageStep::RowsPerStrip(_) => PageField::Layout,
        ImageStep::Planar => PageField::Planar,
        ImageStep::ResolutionUnit(_) | ImageStep::XResolution(_) | ImageStep::YResolution(_) => {
            PageField::Resolution
        }
        ImageStep::Directory(DirectoryStep::WriteTagBuf(_, _)) => PageField::Tags,
        ImageStep::WriteChunk(_) => PageField::Samples,
        _ => PageField::Whole,
    }
}

// The field of a step of a job, both counted from 0.
fn field_in(jobs: &[Job<'_>], job: usize, step: usize) -> PageField
    ensures { result ≡ spec.field_in (slice_get jobs.now job) step }
{
    let Some(Job::Image(image)) = jobs.get(job) else {
        return PageField::Whole;
    };
    match image.steps.get(step) {
        Some(step) => step_field(step),
        None => PageField::Whole,
    }
}

// The field of the step that was refused.
fn refused_field(jobs: &[Job<'_>], refused: Option<(usize, u32)>, step: Option<usize>) -> PageField
    ensures { result ≡ spec.refused_field jobs.now refused step }
{
    match (refused, step) {
        (Some((job, _status)), Some(step)) => field_in(jobs, job.saturating_sub(1), step),
        _ => PageField::Whole,
    }
}

/// The page of the first job that had an error, with the step that had it: of pages with these
/// numbers, and of their jobs, three of each.
pub fn refused_page(
    numbers: &[usize],
    jobs: &[Job<'_>],
    refused: Option<(usize, u32)>,
    step: Option<usize>,
) -> Option<RefusedPage>
    ensures { result ≡ spec.refused_page numbers.now jobs.now refused step }
{
    let (job, status) = refused?;
    let at = job.div_ceil(3).saturating_sub(1);
    Some(RefusedPage {
        page: numbers.get(at).copied().unwrap_or(0),
        field: refused_field(jobs, refused, step),
        status,
    })
}

// ---- the file

// Runs the jobs of pages in a new file of the kind `K`.
#[tactic(auto, using(crate::proofs::PagesRan::pages_ran, crate::proofs::PagesRan::pages_fail))]
fn run_new<K: TiffKind>(alloc: Global, jobs: &PagesJobs<'_>) -> TiffResult<WrittenPages>
    ensures { spec.EndsPages (spec.RanPages K.kind jobs.now) result }
{
    let kind = K::file_kind();
    let ran = run(alloc, kind, &jobs.chain)?;
    let refused = refused_page(&jobs.numbers, &jobs.chain, ran.refused, ran.step);
    let links = Links {
        kind,
        first: header_link(kind),
        floor: 0,
    };
    let (file, refused) = go_on::<Vec<u8>, K>(alloc, links, ran.file, refused, jobs)?;
    Ok(WrittenPages { file, refused })
}

// Runs the jobs of pages in a new file of a kind.
pub(crate) fn run_in(
    alloc: Global,
    kind: FileKind,
    jobs: &PagesJobs<'_>,
) -> TiffResult<WrittenPages>
    ensures { spec.EndsPages (spec.RanPages kind jobs.now) result }
{
    match kind {
        FileKind::Classic => run_new::<TiffKindStandard>(alloc, jobs),
        FileKind::Big => run_new::<TiffKindBig>(alloc, jobs),
    }
}

// Runs the jobs of pages, unless a page is refused.
fn run_kind(alloc: Global, kind: FileKind, pages: &[NewPage<'_>]) -> TiffResult<PagesAnswer>
    ensures { AnswersPages kind pages.now result }
{
    match jobs_of(alloc, kind, pages) {
        Ok(jobs) => Ok(PagesAnswer::Ran(run_in(alloc, kind, &jobs)?)),
        Err((page, refusal)) => Ok(PagesAnswer::Refused(page, refusal)),
    }
}

/// Runs the jobs of pages for a file whose header has this version. Its errors: a version that is
/// none, `TiffSignatureInvalid`; `OutOfMemory`; the one of a parent's directory that can't be read.
pub fn run_pages(alloc: Global, version: u16, pages: &[NewPage<'_>]) -> TiffResult<PagesAnswer>
    ensures { AnswersVersion (writer.kind_of version) pages.now result }
{
    match kind_of(version) {
        Some(kind) => run_kind(alloc, kind, pages),
        None => Err(TiffFormatError::TiffSignatureInvalid.into()),
    }
}

// Puts the file of pages into `buffer` and its length into `len` if none was refused; else where
// the list was refused into `end`. Returns the status.
fn tell_written(pages: WrittenPages, buffer: &mut [u8], len: &mut usize, end: &mut PagesEnd) -> u32
    ensures { spec.TellsWritten pages.file.items pages.refused result buffer.old buffer.new len.old
        len.new end.new }
{
    match pages.refused {
        None => {
            *end = NO_PAGE;
            put_file(Ok(NewFile::Whole(pages.file)), buffer, len)
        }
        Some(refused) => {
            *end = PagesEnd {
                page: refused.page,
                field: refused.field as u32,
            };
            refused.status
        }
    }
}

/// Puts the file of pages into `buffer`, its length into `len`, and where the list was refused into
/// `end`. Returns the status: 0; the number of the error of a page that is refused; the status of
/// the first page that had an error; the number of `InsufficientOutputBufferSize` for a buffer that
/// is too short; or the number of the error of `answer`.
pub fn tell_pages(
    answer: TiffResult<PagesAnswer>,
    buffer: &mut [u8],
    len: &mut usize,
    end: &mut PagesEnd,
) -> u32
    ensures { TellsPages answer result buffer.old buffer.new len.old len.new end.new }
{
    *end = NO_PAGE;
    match answer {
        Ok(PagesAnswer::Ran(pages)) => tell_written(pages, buffer, len, end),
        Ok(PagesAnswer::Refused(page, refusal)) => {
            *end = PagesEnd {
                page,
                field: refusal.field as u32,
            };
            fault_number(&refusal.fault)
        }
        Err(fault) => fault_number(&fault),
    }
}

//! The checks of a page.

ghost use Rattle.std.specs.Prelude.{◌≡◌, ◌+◌, ◌-◌, ◌*◌, ◌/◌, ◌<◌, ◌≤◌, ◌^◌, ◌==◌, length, map, nat_lt, if◌then◌else◌, IfOk, unwrap_or};
ghost use Rattle.std.specs.List.{list_all};
ghost use Rattle.tiff_base.specs.Tags as kinds;
ghost use Rattle.tiff_base.specs.declared.tags.ExtraSamples.TheVariants as extra_kind;
ghost use Rattle.tiff_ifd.specs.Fitted.{fitted_numbers};
ghost use Rattle.tiff_page.specs.Counts.{chunk_count, planes_of};
ghost use Rattle.tiff_page.specs.PageView as view;
ghost use Rattle.tiff_base.specs.Answers.{AnswersBut, AnswersWithoutSource, Gives, IsKept};
ghost use Rattle.tiff_base.specs.Sparing.{IsListFault};
ghost use Rattle.tiff_base.specs.declared.error.TiffError.TheVariants as tiff;
ghost use Rattle.tiff_base.specs.declared.error.TiffFormatError.TheVariants as format;
ghost use Rattle.tiff_base.specs.declared.tags.Tag.TheVariants as named;
ghost use Rattle.tiff_ifd.specs.TagLookup.{AnswersFound, AsksForTag};
ghost use Rattle.tiff_page.specs.Checks as checks;
ghost use Rattle.tiff_page.specs.Reach.{AsksForPage};

use crate::lists::{ExtraSampleList, NumberList};
use crate::page::{ChunkTable, Page};
use std::alloc::{AllocError, Global};
use tiff_base::color::ChunkType;
use tiff_base::error::{TiffFormatError, TiffResult, TiffUnsupportedError};
use tiff_base::lists::{SampleBits, SampleFormats};
use tiff_base::tags::{
    CompressionMethod, ExtraSamples, PhotometricInterpretation, PlanarConfiguration, Predictor,
    SampleFormat, Tag,
};
use tiff_ifd::lookup::{Tags, find_u16, find_u16_vec, find_u32, require_u32, require_u64_vec};

// Returns `InvalidDimensions(width, height)` if the width or the height is 0.
fn sides(width: u32, height: u32) -> TiffResult<(u32, u32)>
    ensures answer { Gives (λ s. s) result (checks.sides width height) }
    ensures some { IfOk result (λ s. (0 < s.0) × (0 < s.1)) }
{
    if width == 0 || height == 0 {
        return Err(TiffFormatError::InvalidDimensions(width, height).into());
    }
    Ok((width, height))
}

/// Reads the width and the height, in pixels.
#[tactic(auto, using(crate::specs::lemmas::PassedChecks::required_found), unfolding(crate::specs::Checks::size_in))]
pub fn read_size<T: Tags>(tags: &mut T, alloc: Global) -> TiffResult<(u32, u32)>
    ensures kept { IsKept T.contents T.failures result tags.old tags.new }
    ensures answer { AnswersFound (λ s. s) result (checks.size_in (T.contents tags.old).look)
        (T.contents tags.old).look named.ImageWidth (T.failures tags.old) (T.failures tags.new) }
    ensures asked { AsksForPage (T.contents tags.old) result }
    ensures some { IfOk result (λ s. (0 < s.0) × (0 < s.1)) }
{
    let width = require_u32(tags, alloc, Tag::ImageWidth)?;
    let height = require_u32(tags, alloc, Tag::ImageLength)?;
    sides(width, height)
}

// Returns the interpretation of a number, or `UnknownInterpretation` if there is none.
fn interpretation_named(number: Option<u16>) -> TiffResult<PhotometricInterpretation>
    ensures { Gives (λ s. s) result (checks.interpretation_named number) }
{
    match number.and_then(PhotometricInterpretation::from_u16) {
        None => Err(TiffUnsupportedError::UnknownInterpretation.into()),
        Some(interpretation) => Ok(interpretation),
    }
}

/// Reads the photometric interpretation: what the samples mean.
#[tactic(auto, unfolding(crate::specs::Checks::interpretation_in))]
pub fn read_interpretation<T: Tags>(
    tags: &mut T,
    alloc: Global,
) -> TiffResult<PhotometricInterpretation>
    ensures kept { IsKept T.contents T.failures result tags.old tags.new }
    ensures answer { AnswersFound (λ s. s) result (checks.interpretation_in (T.contents tags.old).look)
        (T.contents tags.old).look named.PhotometricInterpretation (T.failures tags.old)
        (T.failures tags.new) }
    ensures asked { AsksForTag (T.contents tags.old) named.PhotometricInterpretation result }
{
    interpretation_named(find_u16(tags, alloc, Tag::PhotometricInterpretation)?)
}

/// Reads the compression method.
#[tactic(auto, unfolding(crate::specs::Checks::method_in))]
pub fn read_method<T: Tags>(tags: &mut T, alloc: Global) -> TiffResult<CompressionMethod>
    ensures kept { IsKept T.contents T.failures result tags.old tags.new }
    ensures answer { AnswersFound (λ s. s) result (checks.method_in (T.contents tags.old).look)
        (T.contents tags.old).look named.Compression (T.failures tags.old) (T.failures tags.new) }
    ensures asked { AsksForTag (T.contents tags.old) named.Compression result }
{
    let number = find_u16(tags, alloc, Tag::Compression)?.unwrap_or(1);
    Ok(CompressionMethod::from_u16_exhaustive(number))
}

// Returns `SamplesPerPixelIsZero` if a pixel has no samples.
fn some_samples(samples: u16) -> TiffResult<u16>
    ensures answer { Gives (λ s. s) result (checks.some_samples samples) }
    ensures some { IfOk result (λ n. 0 < n) }
{
    if samples == 0 {
        return Err(TiffFormatError::SamplesPerPixelIsZero.into());
    }
    Ok(samples)
}

/// Reads how many samples a pixel has.
#[tactic(auto, unfolding(crate::specs::Checks::samples_in))]
pub fn read_samples<T: Tags>(tags: &mut T, alloc: Global) -> TiffResult<u16>
    ensures kept { IsKept T.contents T.failures result tags.old tags.new }
    ensures answer { AnswersFound (λ s. s) result (checks.samples_in (T.contents tags.old).look)
        (T.contents tags.old).look named.SamplesPerPixel (T.failures tags.old) (T.failures tags.new) }
    ensures asked { AsksForTag (T.contents tags.old) named.SamplesPerPixel result }
    ensures some { IfOk result (λ n. 0 < n) }
{
    some_samples(find_u16(tags, alloc, Tag::SamplesPerPixel)?.unwrap_or(1))
}

fn extras(alloc: Global, numbers: &[u16]) -> Result<Vec<ExtraSamples>, AllocError>
    ensures { IfOk result
        (λ v. v.items ≡ map (λ n. unwrap_or (kinds.extra_of n) extra_kind.Unspecified) numbers.now) }
{
    numbers
        .iter()
        .map(|n| ExtraSamples::from_u16(*n).unwrap_or(ExtraSamples::Unspecified))
        .collect(alloc)
}

// Returns `InconsistentSizesEncountered` if there are more extra samples than samples.
fn within_samples(samples: u16, extra: Vec<ExtraSamples>) -> TiffResult<ExtraSampleList>
    ensures answer { Gives (λ s. s) result (checks.within_samples samples extra.items) }
    ensures few { IfOk result (λ e. length e ≤ samples) }
{
    if extra.len() > usize::from(samples) {
        return Err(TiffFormatError::InconsistentSizesEncountered.into());
    }
    Ok(ExtraSampleList::from_vec(extra))
}

/// Reads what the extra samples are.
#[tactic(auto, using(crate::specs::lemmas::PassedChecks::number_found), unfolding(crate::specs::Checks::extra_in))]
pub fn read_extra<T: Tags>(tags: &mut T, alloc: Global, samples: u16) -> TiffResult<ExtraSampleList>
    ensures kept { IsKept T.contents T.failures result tags.old tags.new }
    ensures answer { AnswersFound (λ s. s) result (checks.extra_in (T.contents tags.old).look samples)
        (T.contents tags.old).look named.ExtraSamples (T.failures tags.old) (T.failures tags.new) }
    ensures asked { AsksForTag (T.contents tags.old) named.ExtraSamples result }
    ensures few { IfOk result (λ e. length e ≤ samples) }
{
    match find_u16_vec(tags, alloc, Tag::ExtraSamples)? {
        None => within_samples(samples, Vec::new(alloc)),
        Some(numbers) => Ok(within_samples(samples, extras(alloc, &numbers)?)?),
    }
}

// Whether all numbers are equal to `number`.
fn are_all_u16(numbers: &[u16], number: u16) -> bool
    ensures { result ≡ list_all (λ n. n == number) numbers.now }
{
    numbers.iter().all(|n| *n == number)
}

fn are_all_u8(numbers: &[u8], number: u8) -> bool
    ensures { result ≡ list_all (λ n. n == number) numbers.now }
{
    numbers.iter().all(|n| *n == number)
}

fn formats(alloc: Global, numbers: &[u16]) -> Result<Vec<SampleFormat>, AllocError>
    ensures { IfOk result (λ v. v.items ≡ map kinds.format_of numbers.now) }
{
    numbers
        .iter()
        .map(|n| SampleFormat::from_u16_exhaustive(*n))
        .collect(alloc)
}

// Returns the numbers if each is below 2^16, else `InvalidTagValueType(tag)`.
fn fit_u16s(alloc: Global, tag: Tag, numbers: Vec<u64>) -> TiffResult<Vec<u16>>
    ensures { AnswersWithoutSource (λ v. v.items) result (fitted_numbers tag (2 ^ 16) numbers.items) }
{
    let mut all = Vec::new(alloc);
    for n in numbers {
        let Ok(n) = u16::try_from(n) else {
            return Err(TiffFormatError::InvalidTagValueType(tag).into());
        };
        all.push(n)?;
    }
    Ok(all)
}

// Returns the numbers if each is below 2^8, else `InvalidTagValueType(tag)`.
fn fit_u8s(alloc: Global, tag: Tag, numbers: Vec<u64>) -> TiffResult<Vec<u8>>
    ensures { AnswersWithoutSource (λ v. v.items) result (fitted_numbers tag (2 ^ 8) numbers.items) }
{
    let mut all = Vec::new(alloc);
    for n in numbers {
        let Ok(n) = u8::try_from(n) else {
            return Err(TiffFormatError::InvalidTagValueType(tag).into());
        };
        all.push(n)?;
    }
    Ok(all)
}

// Returns the one format of all samples. Allocates memory only for the error that contains a list.
fn one_format(alloc: Global, numbers: &[u16]) -> TiffResult<SampleFormat>
    ensures { let given = checks.one_format numbers.now in
        AnswersBut (IsListFault given) ⊥ (λ f. f) result given }
{
    let [first, ..] = numbers else {
        return Err(TiffFormatError::InvalidTagValueType(Tag::SampleFormat).into());
    };
    if !are_all_u16(numbers, *first) {
        return Err(TiffUnsupportedError::UnsupportedSampleFormat(SampleFormats::from_vec(formats(
            alloc, numbers,
        )?)).into());
    }
    Ok(SampleFormat::from_u16_exhaustive(*first))
}

/// Reads the sample format: what the numbers of samples are.
#[tactic(auto, using(crate::specs::lemmas::PassedChecks::number_found), unfolding(crate::specs::Checks::format_in))]
pub fn read_format<T: Tags>(tags: &mut T, alloc: Global) -> TiffResult<SampleFormat>
    ensures kept { IsKept T.contents T.failures result tags.old tags.new }
    ensures answer { AnswersFound (λ s. s) result (checks.format_in (T.contents tags.old).look)
        (T.contents tags.old).look named.SampleFormat (T.failures tags.old) (T.failures tags.new) }
    ensures asked { AsksForTag (T.contents tags.old) named.SampleFormat result }
{
    match tags.find_u64_vec(alloc, Tag::SampleFormat)? {
        None => Ok(SampleFormat::Uint),
        Some(numbers) => {
            let numbers = fit_u16s(alloc, Tag::SampleFormat, numbers)?;
            one_format(alloc, &numbers)
        }
    }
}

fn one_depth(samples: u16, bits: Vec<u8>) -> TiffResult<u8>
    ensures answer { Gives (λ d. d) result (checks.one_depth samples bits.items) }
    ensures some { IfOk result (λ d. 0 < d) }
{
    if bits.len() != usize::from(samples) && bits.len() != 1 {
        return Err(TiffFormatError::InconsistentSizesEncountered.into());
    }
    let Some(first) = bits.first().copied() else {
        return Err(TiffFormatError::InconsistentSizesEncountered.into());
    };
    if first == 0 || !are_all_u8(&bits, first) {
        return Err(TiffUnsupportedError::InconsistentBitsPerSample(SampleBits::from_vec(
            bits,
        )).into());
    }
    Ok(first)
}

/// Reads how many bits a sample has.
#[tactic(auto, using(crate::specs::lemmas::PassedChecks::number_found), unfolding(crate::specs::Checks::depth_in))]
pub fn read_depth<T: Tags>(tags: &mut T, alloc: Global, samples: u16) -> TiffResult<u8>
    ensures kept { IsKept T.contents T.failures result tags.old tags.new }
    ensures answer { AnswersFound (λ s. s) result (checks.depth_in (T.contents tags.old).look samples)
        (T.contents tags.old).look named.BitsPerSample (T.failures tags.old) (T.failures tags.new) }
    ensures asked { AsksForTag (T.contents tags.old) named.BitsPerSample result }
    ensures some { IfOk result (λ d. 0 < d) }
{
    match tags.find_u64_vec(alloc, Tag::BitsPerSample)? {
        None => Ok(1),
        Some(numbers) => one_depth(samples, fit_u8s(alloc, Tag::BitsPerSample, numbers)?),
    }
}

// Returns the predictor of a number, or `Predictor::None` without one. Returns
// `UnknownPredictor(number)` for other numbers.
fn predictor_from(number: Option<u16>) -> TiffResult<Predictor>
    ensures { Gives (λ s. s) result (checks.predictor_from number) }
{
    let Some(number) = number else {
        return Ok(Predictor::None);
    };
    match Predictor::from_u16(number) {
        None => Err(TiffFormatError::UnknownPredictor(number).into()),
        Some(predictor) => Ok(predictor),
    }
}

/// Reads the predictor: how stored samples differ from those before them.
#[tactic(auto, unfolding(crate::specs::Checks::predictor_in))]
pub fn read_predictor<T: Tags>(tags: &mut T, alloc: Global) -> TiffResult<Predictor>
    ensures kept { IsKept T.contents T.failures result tags.old tags.new }
    ensures answer { AnswersFound (λ s. s) result (checks.predictor_in (T.contents tags.old).look)
        (T.contents tags.old).look named.Predictor (T.failures tags.old) (T.failures tags.new) }
    ensures asked { AsksForTag (T.contents tags.old) named.Predictor result }
{
    predictor_from(find_u16(tags, alloc, Tag::Predictor)?)
}

// Returns the planar configuration of a number, or `Chunky` without one. Returns
// `UnknownPlanarConfiguration(number)` for other numbers.
fn planar_from(number: Option<u16>) -> TiffResult<PlanarConfiguration>
    ensures { Gives (λ s. s) result (checks.planar_from number) }
{
    let Some(number) = number else {
        return Ok(PlanarConfiguration::Chunky);
    };
    match PlanarConfiguration::from_u16(number) {
        None => Err(TiffFormatError::UnknownPlanarConfiguration(number).into()),
        Some(planar) => Ok(planar),
    }
}

/// Reads the planar configuration: whether each plane of samples has its own chunks.
#[tactic(auto, unfolding(crate::specs::Checks::planar_in))]
pub fn read_planar<T: Tags>(tags: &mut T, alloc: Global) -> TiffResult<PlanarConfiguration>
    ensures kept { IsKept T.contents T.failures result tags.old tags.new }
    ensures answer { AnswersFound (λ s. s) result (checks.planar_in (T.contents tags.old).look)
        (T.contents tags.old).look named.PlanarConfiguration (T.failures tags.old) (T.failures tags.new) }
    ensures asked { AsksForTag (T.contents tags.old) named.PlanarConfiguration result }
{
    planar_from(find_u16(tags, alloc, Tag::PlanarConfiguration)?)
}

fn check_pair(sizes: &[u16]) -> TiffResult<(u16, u16)>
    ensures { Gives (λ s. s) result (checks.number_pair sizes.now) }
{
    match sizes {
        [across, down] => Ok((*across, *down)),
        _ => Err(TiffFormatError::InvalidCountForTag(Tag::ChromaSubsampling, sizes.len()).into()),
    }
}

/// Reads the chroma subsampling: how many pixels share a chroma sample, across and down.
#[tactic(auto, using(crate::specs::lemmas::PassedChecks::number_found), unfolding(crate::specs::Checks::subsampling_in))]
pub fn read_subsampling<T: Tags>(tags: &mut T, alloc: Global) -> TiffResult<(u16, u16)>
    ensures kept { IsKept T.contents T.failures result tags.old tags.new }
    ensures answer { AnswersFound (λ s. s) result (checks.subsampling_in (T.contents tags.old).look)
        (T.contents tags.old).look named.ChromaSubsampling (T.failures tags.old) (T.failures tags.new) }
    ensures asked { AsksForTag (T.contents tags.old) named.ChromaSubsampling result }
{
    match tags.find_u64_vec(alloc, Tag::ChromaSubsampling)? {
        // The default of TIFF 6.0, section 21.
        None => Ok((2, 2)),
        Some(numbers) => {
            let sizes = fit_u16s(alloc, Tag::ChromaSubsampling, numbers)?;
            check_pair(&sizes)
        }
    }
}

/// Returns whether chunks are strips or tiles, or `StripTileTagConflict` if the tags of the page
/// aren't exactly those of one of them.
#[tactic(auto, unfolding(crate::specs::Checks::chunk_type_in))]
pub fn chunk_type<T: Tags>(tags: &T) -> TiffResult<ChunkType>
    ensures { Gives (λ s. s) result (checks.chunk_type_in (T.contents tags.now).look) }
{
    match (
        tags.contains(Tag::StripOffsets),
        tags.contains(Tag::StripByteCounts),
        tags.contains(Tag::TileOffsets),
        tags.contains(Tag::TileByteCounts),
    ) {
        (true, true, false, false) => Ok(ChunkType::Strip),
        (false, false, true, true) => Ok(ChunkType::Tile),
        _ => Err(TiffFormatError::StripTileTagConflict.into()),
    }
}

/// Returns the number of chunks in all planes, or `None` if it is 2^32 or more.
pub fn chunk_count(
    width: u32,
    height: u32,
    chunk_width: u32,
    chunk_height: u32,
    planes: u16,
) -> Option<u32>
    requires wide { 0 < chunk_width }
    requires high { 0 < chunk_height }
    ensures { let count = chunk_count width height chunk_width chunk_height planes in
        result ≡ (if nat_lt count (2 ^ 32) then Some count else None) }
{
    let across = (u64::from(width) + u64::from(chunk_width) - 1) / u64::from(chunk_width);
    let down = (u64::from(height) + u64::from(chunk_height) - 1) / u64::from(chunk_height);
    let count = across.checked_mul(down)?.checked_mul(u64::from(planes))?;
    u32::try_from(count).ok()
}

#[tactic(auto, unfolding(crate::specs::Checks::chunks_counted))]
fn check_chunk_count(
    width: u32,
    height: u32,
    planes: u16,
    chunks: ChunkTable,
) -> TiffResult<ChunkTable>
    requires wide { 0 < chunks.chunk_width }
    requires high { 0 < chunks.chunk_height }
    ensures answer { Gives view.chunks result (checks.chunks_counted width height planes (view.chunks chunks)) }
    ensures wide { IfOk result (λ c. 0 < c.chunk_width) }
    ensures high { IfOk result (λ c. 0 < c.chunk_height) }
    ensures same { IfOk result (λ c. length c.byte_counts ≡ length c.offsets) }
    ensures count { IfOk result
        (λ c. length c.offsets ≡ chunk_count width height c.chunk_width c.chunk_height planes) }
    ensures few { IfOk result (λ c. length c.offsets < 2 ^ 32) }
{
    let count = chunk_count(
        width,
        height,
        chunks.chunk_width,
        chunks.chunk_height,
        planes,
    );
    let Some(count) = count else {
        return Err(TiffFormatError::InconsistentSizesEncountered.into());
    };
    if chunks.offsets.len() != chunks.byte_counts.len() || chunks.offsets.len() != count as usize {
        return Err(TiffFormatError::InconsistentSizesEncountered.into());
    }
    Ok(chunks)
}

// Returns `InconsistentSizesEncountered` if a strip has no rows.
fn some_rows(rows: u32) -> TiffResult<u32>
    ensures answer { Gives (λ n. n) result (checks.some_rows rows) }
    ensures some { IfOk result (λ n. 0 < n) }
{
    if rows == 0 {
        return Err(TiffFormatError::InconsistentSizesEncountered.into());
    }
    Ok(rows)
}

/// Reads the strips of a page.
#[tactic(auto, using(crate::specs::lemmas::PassedChecks::required_found), unfolding(crate::specs::Checks::strips_in))]
pub fn read_strips<T: Tags>(
    tags: &mut T,
    alloc: Global,
    width: u32,
    height: u32,
    planes: u16,
) -> TiffResult<ChunkTable>
    requires wide { 0 < width }
    ensures kept { IsKept T.contents T.failures result tags.old tags.new }
    ensures answer { AnswersFound view.chunks result
        (checks.strips_in (T.contents tags.old).look width height planes)
        (T.contents tags.old).look named.StripOffsets (T.failures tags.old) (T.failures tags.new) }
    ensures asked { AsksForPage (T.contents tags.old) result }
    ensures wide { IfOk result (λ c. 0 < c.chunk_width) }
    ensures high { IfOk result (λ c. 0 < c.chunk_height) }
    ensures same { IfOk result (λ c. length c.byte_counts ≡ length c.offsets) }
    ensures count { IfOk result
        (λ c. length c.offsets ≡ chunk_count width height c.chunk_width c.chunk_height planes) }
    ensures few { IfOk result (λ c. length c.offsets < 2 ^ 32) }
{
    let offsets = NumberList::from_vec(require_u64_vec(tags, alloc, Tag::StripOffsets)?);
    let byte_counts = NumberList::from_vec(require_u64_vec(tags, alloc, Tag::StripByteCounts)?);
    // The default of TIFF 6.0 is 2^32 - 1: one strip has all rows.
    let rows = some_rows(find_u32(tags, alloc, Tag::RowsPerStrip)?.unwrap_or(height))?;
    let chunks = ChunkTable {
        chunk_width: width,
        chunk_height: rows,
        offsets,
        byte_counts,
    };
    check_chunk_count(width, height, planes, chunks)
}

// Returns `InvalidTagValueType(tag)` if the width or the height of a tile is 0.
fn some_side(size: u32, tag: Tag) -> TiffResult<u32>
    ensures answer { Gives (λ n. n) result
        (checks.some_side size (tiff.FormatError (format.InvalidTagValueType tag))) }
    ensures some { IfOk result (λ n. 0 < n) }
{
    if size == 0 {
        return Err(TiffFormatError::InvalidTagValueType(tag).into());
    }
    Ok(size)
}

/// Reads the tiles of a page.
#[tactic(auto, using(crate::specs::lemmas::PassedChecks::required_found), unfolding(crate::specs::Checks::tiles_in))]
pub fn read_tiles<T: Tags>(
    tags: &mut T,
    alloc: Global,
    width: u32,
    height: u32,
    planes: u16,
) -> TiffResult<ChunkTable>
    ensures kept { IsKept T.contents T.failures result tags.old tags.new }
    ensures answer { AnswersFound view.chunks result
        (checks.tiles_in (T.contents tags.old).look width height planes)
        (T.contents tags.old).look named.TileWidth (T.failures tags.old) (T.failures tags.new) }
    ensures asked { AsksForPage (T.contents tags.old) result }
    ensures wide { IfOk result (λ c. 0 < c.chunk_width) }
    ensures high { IfOk result (λ c. 0 < c.chunk_height) }
    ensures same { IfOk result (λ c. length c.byte_counts ≡ length c.offsets) }
    ensures count { IfOk result
        (λ c. length c.offsets ≡ chunk_count width height c.chunk_width c.chunk_height planes) }
    ensures few { IfOk result (λ c. length c.offsets < 2 ^ 32) }
{
    let chunk_width = require_u32(tags, alloc, Tag::TileWidth)?;
    let chunk_height = require_u32(tags, alloc, Tag::TileLength)?;
    let chunk_width = some_side(chunk_width, Tag::TileWidth)?;
    let chunk_height = some_side(chunk_height, Tag::TileLength)?;
    let offsets = NumberList::from_vec(require_u64_vec(tags, alloc, Tag::TileOffsets)?);
    let byte_counts = NumberList::from_vec(require_u64_vec(tags, alloc, Tag::TileByteCounts)?);
    let chunks = ChunkTable {
        chunk_width,
        chunk_height,
        offsets,
        byte_counts,
    };
    check_chunk_count(width, height, planes, chunks)
}

/// Returns how often chunks cover the image: once, or once for each sample of a pixel.
pub fn planes_of(planar: PlanarConfiguration, samples: u16) -> u16
    ensures { result ≡ planes_of planar samples }
{
    match planar {
        PlanarConfiguration::Chunky => 1,
        _ => samples,
    }
}

/// Returns the page that the tags define. Returns `OutOfMemory` only if the tags have a width that
/// is within the limits and the source.
#[tactic(auto, using(crate::specs::lemmas::PassedChecks::size_found), unfolding(crate::specs::Checks::page_of))]
pub fn read_page<T: Tags>(tags: &mut T, alloc: Global) -> TiffResult<Page>
    ensures kept { IsKept T.contents T.failures result tags.old tags.new }
    ensures answer { AnswersFound view.page result (checks.page_of (T.contents tags.old).look)
        (T.contents tags.old).look named.ImageWidth (T.failures tags.old) (T.failures tags.new) }
    ensures asked { AsksForPage (T.contents tags.old) result }
{
    let (width, height) = read_size(tags, alloc)?;
    let interpretation = read_interpretation(tags, alloc)?;
    let method = read_method(tags, alloc)?;
    let samples = read_samples(tags, alloc)?;
    let extra = read_extra(tags, alloc, samples)?;
    let format = read_format(tags, alloc)?;
    let depth = read_depth(tags, alloc, samples)?;
    let predictor = read_predictor(tags, alloc)?;
    let planar = read_planar(tags, alloc)?;
    let subsampling = read_subsampling(tags, alloc)?;
    let chunk_type = chunk_type(tags)?;
    let planes = planes_of(planar, samples);
    let chunks = match chunk_type {
        ChunkType::Strip => read_strips(tags, alloc, width, height, planes)?,
        ChunkType::Tile => read_tiles(tags, alloc, width, height, planes)?,
    };
    let ChunkTable {
        chunk_width,
        chunk_height,
        offsets,
        byte_counts,
    } = chunks;
    Ok(Page {
        width,
        height,
        interpretation,
        method,
        samples,
        extra,
        format,
        depth,
        predictor,
        planar,
        subsampling,
        chunk_type,
        chunk_width,
        chunk_height,
        offsets,
        byte_counts,
    })
}

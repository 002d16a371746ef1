//! The samples of a page that C passes: row by row, or tile by tile.

ghost use Rattle.std.specs.Prelude.{◌≡◌, ◌+◌, ◌*◌, ◌^◌, ◌<◌, ◌≤◌, ◌∷◌, drop, length, map, if◌then◌else◌, MatchOption, Ok, Err};
ghost use Rattle.std.specs.Int.{div_ceil};
ghost use Rattle.tiff_page.specs.Counts.{planes_of};
ghost use Rattle.tiff_value.specs.ColorTypes.{color_type};
ghost use Rattle.tiff_ffi.specs.Pages as spec;
ghost use Rattle.tiff_ffi.specs.Pages.{IsOut, Makes, appended, are_tiles, each, end_view, pieces, step_view, tiles_of};
ghost use Rattle.tiff_ffi.specs.Writer as writer;

use crate::pages::{NewPage, PageNames};
use tiff_base::error::{TiffError, TiffResult};
use tiff_base::io::IoKind;
use tiff_base::tags::{PlanarConfiguration, Type};
use tiff_encode::encoder::script::{ImageEnd, ImageStep, JobSamples};
use tiff_value::encoder::color_visitor::{ColorVisitor, by_name};
use tiff_value::encoder::colortype::{ColorTypeName, NamedColorType};
use tiff_value::encoder::tiff_value::TiffValue;

// Gives the type of the samples of a color type, and how many samples a pixel has.
struct PixelOf;

impl ColorVisitor<(), (), (Type, usize)> for PixelOf {
    ghost use Rattle.std.specs.Prelude.{◌≡◌, ◌^◌, ◌<◌, length};
    ghost use Rattle.tiff_value.specs.ColorTypes.{color_type, inner_type};

    ghost takes = { λ _ _ _. Unit };

    ghost visits = { λ name _ _ found _.
        (found.0 ≡ inner_type name)
        × ((found.1 ≡ length (color_type name).bits) × (found.1 < 2 ^ 63)) };

    fn visit<C: NamedColorType>(_none: &mut (), _input: ()) -> (Type, usize) {
        let (ty, _len) = C::Inner::type_and_len();
        (ty, C::sample_bits().len())
    }
}

// The samples that bytes are, which are lent.
fn samples_of<'a>(color: ColorTypeName, bytes: &'a [u8]) -> TiffResult<JobSamples<'a>>
    ensures { result ≡ writer.samples_from_bytes color bytes.now }
{
    let (ty, _samples) = by_name::<(), (), (Type, usize), PixelOf>(color, &mut (), ());
    JobSamples::from_bytes(ty, bytes)
}

// How often tiles cover a page: once, or once for each sample of a pixel.
fn planes_of(page: &NewPage<'_>, names: &PageNames) -> usize
    ensures { result ≡ planes_of names.now.planar
        (length (color_type names.now.color).bits + length page.now.extra_samples.now) }
{
    if names.planar != PlanarConfiguration::Planar {
        return 1;
    }
    let (_ty, samples) = by_name::<(), (), (Type, usize), PixelOf>(names.color, &mut (), ());
    samples + page.extra_samples.len()
}

// How many parts of a size cover a length.
fn parts_of(length: u32, size: u32) -> u64
    requires { 0 < size }
    ensures count { result ≡ div_ceil length size }
    ensures few { result ≤ length }
{
    u64::from(length.div_ceil(size))
}

// How many tiles a page has in all planes; `None` from 2^64 on.
fn tiles_of(page: &NewPage<'_>, names: &PageNames) -> Option<u64>
    requires wide { 0 < page.now.tile_width }
    requires long { 0 < page.now.tile_length }
    ensures { MatchOption result (2 ^ 64 ≤ tiles_of page.now names.now)
        (λ n. n ≡ tiles_of page.now names.now) }
{
    let across = parts_of(page.width, page.tile_width);
    let down = parts_of(page.height, page.tile_length);
    (across * down).checked_mul(planes_of(page, names) as u64)
}

// How many tiles the samples of a page are; `IoError(InvalidData)` if they aren't all of its tiles.
fn tile_count(page: &NewPage<'_>, names: &PageNames) -> TiffResult<usize>
    requires { 0 < page.now.tile_bytes }
    ensures { result ≡ (if are_tiles page.now names.now then Ok (tiles_of page.now names.now)
        else Err (TiffError.IoError IoKind.InvalidData)) }
{
    if page.tile_width == 0 || page.tile_length == 0 {
        return Err(TiffError::IoError(IoKind::InvalidData));
    }
    let Some(count) = tiles_of(page, names) else {
        return Err(TiffError::IoError(IoKind::InvalidData));
    };
    if count.checked_mul(page.tile_bytes as u64) != Some(page.samples.len() as u64) {
        return Err(TiffError::IoError(IoKind::InvalidData));
    }
    Ok(count as usize)
}

// The bytes of a tile by its number, counted from 0, of so many tiles of `size` bytes.
#[tactic(auto, using(crate::proofs::Tiles::ends_within, crate::proofs::Tiles::next_piece))]
fn tile_at(bytes: &[u8], size: usize, count: usize, number: usize) -> &[u8]
    requires one { number < count }
    requires whole { length bytes.now ≡ count * size }
    ensures { drop number (pieces count size bytes.now)
        ≡ result.now ∷ drop (number + 1) (pieces count size bytes.now) }
{
    let start = number * size;
    &bytes[start..start + size]
}

// Puts the calls that write so many tiles behind the others.
fn add_tiles<'a>(
    color: ColorTypeName,
    bytes: &'a [u8],
    size: usize,
    count: usize,
    steps: &mut Vec<ImageStep<'a>>,
) -> TiffResult<()>
    requires { length bytes.now ≡ count * size }
    ensures { Makes IsOut (λ _. map step_view steps.new.items) result
        (appended (map step_view steps.old.items)
        (each (spec.tile_step color) (pieces count size bytes.now))) }
{
    for i in 0..count {
        let samples = samples_of(color, tile_at(bytes, size, count, i))?;
        steps.push(ImageStep::WriteChunk(samples))?;
    }
    Ok(())
}

/// Puts the calls that write the tiles of a page behind the others, if its samples are those of its
/// tiles. Returns how its image ends.
pub(crate) fn add_samples<'a>(
    page: &NewPage<'a>,
    names: &PageNames,
    steps: &mut Vec<ImageStep<'a>>,
) -> TiffResult<ImageEnd<'a>>
    ensures { Makes IsOut (λ end. (map step_view steps.new.items, end_view end)) result
        (spec.with_samples page.now names.now (map step_view steps.old.items)) }
{
    if page.tile_bytes == 0 {
        let samples = samples_of(names.color, page.samples)?;
        return Ok(ImageEnd::WriteData(samples));
    }
    let count = tile_count(page, names)?;
    add_tiles(names.color, page.samples, page.tile_bytes, count, steps)?;
    Ok(ImageEnd::Finish)
}

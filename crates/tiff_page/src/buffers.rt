//! Layouts of buffers for an image, a chunk and a coding unit.

ghost use Rattle.std.specs.Prelude.{◌≡◌, ◌<◌, ◌*◌, ◌^◌, IfOk, IfSome};
ghost use Rattle.tiff_base.specs.Answers.{AnswersWithoutSource, Gives};
ghost use Rattle.tiff_page.specs.Buffers as spec;
ghost use Rattle.tiff_base.specs.Sparing.{IsListFault};
ghost use Rattle.tiff_page.specs.EarlyFaults.{WantsWhere};
ghost use Rattle.tiff_page.specs.Layout as layouts;
ghost use Rattle.tiff_page.specs.Rect as rects;
ghost use Rattle.tiff_page.specs.PageView as view;

use crate::layout::{
    BufferLayoutPreference, PlaneLayout, TiffCodingUnit, chunk_data_dimensions, chunks_of_plane,
    known_sample_type, layout_of, planes, planes_layout, sample_type_of, size_of,
};
use crate::page::Page;
use std::alloc::Global;
use tiff_base::error::{TiffError, TiffResult, UsageError};
use tiff_base::tags::PlanarConfiguration;

// Returns the layout of a buffer for all planes of a plane layout.
pub(crate) fn all_planes(page: &Page, layout: PlaneLayout) -> BufferLayoutPreference
    requires { layout.plane_stride * layouts.planes page.now.planar layout.color < 2 ^ 64 }
    ensures { result ≡ spec.all_planes (view.page page.now) (view.layout layout) }
{
    let planes = usize::from(planes(page, layout.color));
    BufferLayoutPreference {
        len: layout.plane_stride,
        sample_format: page.format,
        sample_type: known_sample_type(page),
        row_stride: Some(layout.row_bytes),
        planes,
        plane_stride: Some(layout.plane_stride),
        complete_len: layout.plane_stride * planes,
    }
}

/// Returns the layout of a buffer for the image, with its planes one after another. Returns the
/// first of these errors: `InterpretationWithBits` if the page has no color; `LimitsExceeded` if a
/// plane, or its rows up to the stored height of a chunk, have 2^64 bytes or more;
/// `MisalignedTileBoundaries` if chunks lie side by side and their rows aren't of whole bytes;
/// `ChromaSubsampling` for YCbCr with fewer chroma samples; `LimitsExceeded` if all planes have
/// 2^64 bytes or more. `sample_type` is `None` if the samples of the page have no number type.
#[tactic(auto, using(crate::specs::lemmas::PassedChecks::laid_fault, crate::specs::lemmas::PassedChecks::layout_of_fault), unfolding(crate::specs::Buffers::image_buffer_layout))]
pub fn image_buffer_layout(page: &Page, alloc: Global) -> TiffResult<BufferLayoutPreference>
    ensures answer { AnswersWithoutSource (λ l. l) result (spec.image_buffer_layout (view.page page.now)) }
    ensures memory { WantsWhere (IsListFault (spec.image_buffer_layout (view.page page.now))) result }
    ensures rows { IfOk result (λ l. IfSome l.row_stride (λ n. 0 < n)) }
    ensures plane { IfOk result (λ l. IfSome l.plane_stride (λ n. 0 < n)) }
{
    let layout = planes_layout(page, alloc, page.width, page.height)?;
    Ok(all_planes(page, layout))
}

// Rounds a number of bytes up to whole samples of `size` bytes. Returns `LimitsExceeded` if the
// result is 2^63 or more.
fn rounded(bytes: usize, size: usize) -> TiffResult<usize>
    requires { 0 < size }
    ensures { Gives (λ n. n) result (spec.rounded_size bytes size) }
{
    let Some(len) = bytes.div_ceil(size).checked_mul(size) else {
        return Err(TiffError::LimitsExceeded);
    };
    if len >= 1 << 63 {
        return Err(TiffError::LimitsExceeded);
    }
    Ok(len)
}

/// Returns the layout of a buffer for one plane of a chunk, in whole samples. The index counts
/// modulo the number of chunks of a plane. Returns the first of these errors: those of the layout,
/// as `image_buffer_layout` does; `UnsupportedSampleDepth` or `UnsupportedSampleFormat` if the
/// samples have no number type; `LimitsExceeded` for 2^63 bytes or more.
#[tactic(auto, using(crate::specs::lemmas::PassedChecks::laid_fault, crate::specs::lemmas::PassedChecks::layout_of_fault), unfolding(crate::specs::Buffers::image_chunk_buffer_layout))]
pub fn image_chunk_buffer_layout(
    page: &Page,
    alloc: Global,
    index: u32,
) -> TiffResult<BufferLayoutPreference>
    ensures answer { AnswersWithoutSource (λ l. l) result
        (spec.image_chunk_buffer_layout (view.page page.now) index) }
    ensures memory { WantsWhere (IsListFault (spec.image_chunk_buffer_layout (view.page page.now) index))
        result }
    ensures rows { IfOk result (λ l. IfSome l.row_stride (λ n. 0 < n)) }
    ensures plane { IfOk result (λ l. IfSome l.plane_stride (λ n. 0 < n)) }
{
    let (width, height) = chunk_data_dimensions(page, index);
    let layout = layout_of(page, alloc, width, height)?;
    let sample_type = sample_type_of(page, alloc)?;
    let len = rounded(layout.plane_stride, size_of(sample_type))?;
    Ok(BufferLayoutPreference {
        len,
        sample_format: page.format,
        sample_type: Some(sample_type),
        row_stride: Some(layout.row_bytes),
        planes: 1,
        plane_stride: Some(layout.plane_stride),
        complete_len: len,
    })
}

// Returns `InvalidCodingUnit(unit, chunks)` if `unit` isn't below the number of chunks of a
// plane.
pub(crate) fn unit_fault(page: &Page, unit: u32) -> TiffResult<()>
    ensures answer { Gives (λ _. tt) result (spec.unit_fault (view.page page.now) unit) }
    ensures below { IfOk result (λ _. unit < rects.chunks_of_plane (view.page page.now)) }
{
    let chunks = chunks_of_plane(page);
    if unit >= chunks {
        return Err(UsageError::InvalidCodingUnit(unit, chunks).into());
    }
    Ok(())
}

/// Returns the layout of a buffer for a coding unit. For a chunky page it is that of
/// `image_chunk_buffer_layout`. For a planar page it is a buffer for all planes: returns first the
/// errors of the layout, as `image_buffer_layout` does, then `InvalidCodingUnit(unit, chunks)` if
/// the unit isn't below the number of chunks of a plane.
#[tactic(auto, using(crate::specs::lemmas::PassedChecks::laid_fault, crate::specs::lemmas::PassedChecks::layout_of_fault), unfolding(crate::specs::Buffers::image_coding_unit_layout))]
pub fn image_coding_unit_layout(
    page: &Page,
    alloc: Global,
    unit: TiffCodingUnit,
) -> TiffResult<BufferLayoutPreference>
    ensures answer { AnswersWithoutSource (λ l. l) result
        (spec.image_coding_unit_layout (view.page page.now) unit.0) }
    ensures memory { WantsWhere (IsListFault (spec.image_coding_unit_layout (view.page page.now) unit.0))
        result }
    ensures rows { IfOk result (λ l. IfSome l.row_stride (λ n. 0 < n)) }
    ensures plane { IfOk result (λ l. IfSome l.plane_stride (λ n. 0 < n)) }
{
    let unit = unit.0;
    match page.planar {
        PlanarConfiguration::Chunky => image_chunk_buffer_layout(page, alloc, unit),
        _ => {
            let (width, height) = chunk_data_dimensions(page, unit);
            let layout = planes_layout(page, alloc, width, height)?;
            unit_fault(page, unit)?;
            Ok(all_planes(page, layout))
        }
    }
}

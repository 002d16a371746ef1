//! Where a chunk is in a file, and one chunk rewritten in place, by the plan of a page as plain
//! numbers.

ghost use Rattle.std.specs.Prelude.{◌≡◌, length, OnErr, OnOk};
ghost use Rattle.tiff_base.specs.Answers.{AnswersWithoutSource};
ghost use Rattle.tiff_rewrite.specs.PlannedRewrite.{PlannedRewritten, planned_fault, planned_place};
ghost use Rattle.tiff_ffi.specs.Rewrite as spec;

use crate::plan::{PlannedPage, unlimited_plan};
use std::alloc::Global;
use tiff_base::error::TiffResult;
use tiff_base::io::SliceSource;
use tiff_pages::plan::PlanReader;
use tiff_rewrite::planned::{planned_place, rewrite_planned};

/// Where a chunk is in a file: its offset, and its byte count.
#[derive(Clone, Copy, Debug, PartialEq, Eq)]
#[repr(C)]
pub struct PlacedChunk {
    pub offset: u64,
    pub byte_count: u64,
}

// Where a chunk of a file in a slice is, by a plan.
fn place_by_plan(reader: &PlanReader<'_>, file: &[u8], chunk: u32) -> TiffResult<PlacedChunk>
    ensures { AnswersWithoutSource (λ place. (place.offset, place.byte_count)) result
        (planned_place file.now reader.now.plan.now chunk) }
{
    let place = planned_place(reader, &mut SliceSource::new(file), chunk)?;
    Ok(PlacedChunk {
        offset: place.offset,
        byte_count: place.byte_count,
    })
}

/// Where the chunk with the number `chunk` is, by the numbers of a plan. The first error: of a
/// number that names nothing, as `plan_from` has it; of sizes that no page has,
/// `InconsistentSizesEncountered`; of the chunk's offset and byte count; of a chunk that isn't
/// there, `InconsistentSizesEncountered`.
#[tactic(auto, unfolding(crate::specs::Rewrite::chunk_place))]
pub fn chunk_place(
    alloc: Global,
    file: &[u8],
    plan: &PlannedPage,
    chunk: u32,
) -> TiffResult<PlacedChunk>
    ensures { AnswersWithoutSource (λ place. place) result (spec.chunk_place file.now plan.now chunk) }
{
    let plan = unlimited_plan(alloc, plan)?;
    place_by_plan(&plan.reader(), file, chunk)
}

// Makes the bytes of a chunk of a file in a slice from samples, by a plan.
fn rewrite_by_plan(
    reader: &PlanReader<'_>,
    file: &[u8],
    chunk: u32,
    samples: &[u8],
    stored: &mut [u8],
) -> TiffResult<()>
    ensures answer { AnswersWithoutSource (λ _. tt) result
        (planned_fault file.now reader.now.plan.now reader.now.limits.now chunk (length samples.now)
        (length stored.old)) }
    ensures rewritten { OnOk result (PlannedRewritten file.now reader.now.plan.now chunk samples.now
        stored.old stored.new) }
    ensures refused { OnErr result (stored.new ≡ stored.old) }
{
    rewrite_planned(reader, &mut SliceSource::new(file), chunk, samples, stored)
}

/// Makes the bytes that a file has of the chunk with the number `chunk` from new samples, by the
/// numbers of a plan. The first error: of a number that names nothing, as `plan_from` has it; of
/// sizes that no page has, `InconsistentSizesEncountered`; of the chunk's offset and byte count;
/// and those of `tiff_rewrite::rewrite::rewrite_chunk` under no limits. An error leaves `stored` as
/// it was.
#[tactic(auto, unfolding(crate::specs::Rewrite::rewrite_fault))]
pub fn rewrite_chunk(
    alloc: Global,
    file: &[u8],
    plan: &PlannedPage,
    chunk: u32,
    samples: &[u8],
    stored: &mut [u8],
) -> TiffResult<()>
    ensures answer { AnswersWithoutSource (λ _. tt) result
        (spec.rewrite_fault file.now plan.now chunk (length samples.now) (length stored.old)) }
    ensures rewritten { OnOk result
        (spec.IsRewritten file.now plan.now chunk samples.now stored.old stored.new) }
    ensures refused { OnErr result (stored.new ≡ stored.old) }
{
    let plan = unlimited_plan(alloc, plan)?;
    rewrite_by_plan(&plan.reader(), file, chunk, samples, stored)
}

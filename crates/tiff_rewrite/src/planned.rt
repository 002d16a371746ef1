//! Where a chunk is in a file, and a chunk rewritten by the plan of its page: at the cost of one
//! chunk, however many the page has.

ghost use Rattle.std.specs.Prelude.{◌≡◌, length, OnErr, OnOk};
ghost use Rattle.tiff_base.specs.Answers.{Answers, AnswersWithoutMemory, ReadsOnly, Gives, IsKept};
ghost use Rattle.tiff_page.specs.PageView as view;
ghost use Rattle.tiff_pages.specs.Plan.{PlaceReadable};
ghost use Rattle.tiff_rewrite.specs.PlannedRewrite as spec;

use crate::rewrite::rewrite_chunk;
use tiff_base::error::{TiffFormatError, TiffResult};
use tiff_base::io::Source;
use tiff_page::page::Page;
use tiff_page::page_reader::PageReader;
use tiff_pages::plan::{ChunkPlace, PlanReader};

/// Returns the offset and the byte count of a chunk of a page, or `InconsistentSizesEncountered` if
/// the index is past the list of chunks.
#[tactic(auto, unfolding(crate::specs::PlannedRewrite::chunk_place))]
pub fn chunk_place(page: &Page, index: u32) -> TiffResult<ChunkPlace>
    ensures { Gives (λ place. (place.offset, place.byte_count)) result
        (spec.chunk_place (view.page page.now) index) }
{
    let chunk = index as usize;
    if chunk >= page.offsets.len() {
        return Err(TiffFormatError::InconsistentSizesEncountered.into());
    }
    Ok(ChunkPlace {
        offset: page.offsets.get(chunk),
        byte_count: page.byte_counts.get(chunk),
    })
}

/// Returns the offset and the byte count of a chunk of a plan, which it reads alone. The first
/// error: those of `PlanReader::page_of_chunk`, then that of `chunk_place`.
#[tactic(auto, unfolding(crate::specs::PlannedRewrite::planned_place))]
pub fn planned_place<R: Source>(
    reader: &PlanReader<'_>,
    source: &mut R,
    index: u32,
) -> TiffResult<ChunkPlace>
    ensures kept { IsKept R.contents R.failures result source.old source.new }
    ensures answer { AnswersWithoutMemory (λ place. (place.offset, place.byte_count)) result
        (spec.planned_place (R.contents source.old).bytes reader.now.plan.now index)
        (R.failures source.old) (R.failures source.new) }
    ensures asked { ReadsOnly (PlaceReadable (R.contents source.old) reader.now.plan.now index) result }
{
    let page = reader.page_of_chunk(source, index)?;
    chunk_place(&page, index)
}

/// Makes the bytes that a file has of a chunk of a plan from new samples, as `rewrite_chunk` does
/// of a page. It reads the chunk's own offset and byte count, and writes nothing to the source. The
/// first error: those of `PlanReader::page_of_chunk`, then those of `rewrite_chunk`. An error
/// leaves `stored` as it is.
#[tactic(auto, unfolding(crate::specs::PlannedRewrite::planned_fault))]
pub fn rewrite_planned<R: Source>(
    reader: &PlanReader<'_>,
    source: &mut R,
    index: u32,
    samples: &[u8],
    stored: &mut [u8],
) -> TiffResult<()>
    ensures kept { IsKept R.contents R.failures result source.old source.new }
    ensures answer { Answers (λ _. tt) result
        (spec.planned_fault (R.contents source.old).bytes reader.now.plan.now reader.now.limits.now index
        (length samples.now) (length stored.old)) (R.failures source.old) (R.failures source.new) }
    ensures rewritten { OnOk result (spec.PlannedRewritten (R.contents source.old).bytes reader.now.plan.now
        index samples.now stored.old stored.new) }
    ensures refused { OnErr result (stored.new ≡ stored.old) }
    ensures asked { ReadsOnly (PlaceReadable (R.contents source.old) reader.now.plan.now index) result }
{
    let page = reader.page_of_chunk(source, index)?;
    let chunks = PageReader {
        alloc: reader.alloc,
        order: reader.plan.order,
        page: &page,
        limits: reader.limits,
    };
    rewrite_chunk(&chunks, index, samples, stored)
}

/// A chunk rewritten by the plan of a page is rewritten in that page.
pub fn plans_rewrite_pages()
    ensures { spec.PlansRewritePages }
{}

/// A chunk rewritten by a plan is read by the plan as the new samples.
pub fn plans_show_rewritten()
    ensures { spec.PlansShowRewritten }
{}

//! Pages with parents: how many a page has, and the tag SubIFDs that it gets for them.

ghost use Rattle.std.specs.List.{list_any};
ghost use Rattle.std.specs.Prelude.{◌≡◌, ◌==◌, ◌+◌, ◌<◌, [], length, map, take, MatchResult};
ghost use Rattle.tiff_ffi.specs.Pages as spec;
ghost use Rattle.tiff_ffi.specs.Pages.{IsOut, Makes, step_view};
ghost use Rattle.tiff_ffi.specs.Parents.{AreCounts, CountsBefore};

use crate::pages::{NewPage, NewTag};
use std::alloc::Global;
use tiff_append::last_link::link_size;
use tiff_base::error::{TiffError, TiffResult};
use tiff_base::io::IoKind;
use tiff_base::tags::{ByteOrder, FileKind, Tag, Type};
use tiff_encode::encoder::script::{DirectoryStep, ImageStep, JobBuffer};

// Counts the page at an index, by its parent, behind those before it. Returns how many of these
// have the same parent. A parent without a count isn't counted.
pub(crate) fn count_page(counts: &mut Vec<usize>, pages: &[NewPage<'_>], i: usize) -> usize
    requires within { i < length pages.now }
    requires counted { AreCounts counts.old.items (take i pages.now) }
    ensures counted { AreCounts counts.new.items (take (i + 1) pages.now) }
    ensures len { length counts.new.items ≡ length counts.old.items }
    ensures result { CountsBefore (length counts.old.items) pages.now i result }
{
    let _most = pages.len();
    let parent = pages[i].parent;
    if parent < counts.len() {
        let before = counts[parent];
        counts[parent] = before + 1;
        return before;
    }
    0
}

// A count for each number of a page, and for 0, all of them 0.
pub(crate) fn no_counts(alloc: Global, pages: &[NewPage<'_>]) -> TiffResult<Vec<usize>>
    ensures { MatchResult result (λ v. (length v.items ≡ length pages.now + 1)
        × AreCounts v.items []) IsOut }
{
    Ok(vec![in alloc; 0usize; pages.len() + 1]?)
}

// How many of these pages have the page of each number as their parent.
pub(crate) fn counts_of(alloc: Global, pages: &[NewPage<'_>]) -> TiffResult<Vec<usize>>
    ensures { MatchResult result (λ v. (length v.items ≡ length pages.now + 1)
        × AreCounts v.items pages.now) IsOut }
{
    let mut counts = no_counts(alloc, pages)?;
    for i in 0..pages.len() {
        let _before = count_page(&mut counts, pages, i);
    }
    Ok(counts)
}

// The type of the values of the tag SubIFDs.
fn link_type(kind: FileKind) -> Type
    ensures { result ≡ spec.link_type kind }
{
    match kind {
        FileKind::Classic => Type::IFD,
        FileKind::Big => Type::IFD8,
    }
}

// The call that sets the tag SubIFDs to as many zeros as a page has children.
fn link_step<'a>(alloc: Global, kind: FileKind, children: usize) -> TiffResult<ImageStep<'a>>
    ensures { MatchResult result (λ s. step_view s ≡ spec.link_step kind children) IsOut }
{
    let Some(len) = children.checked_mul(link_size(kind)) else {
        return Err(TiffError::OutOfMemory);
    };
    let buffer = JobBuffer {
        data_type: link_type(kind),
        order: ByteOrder::LittleEndian,
        bytes: vec![in alloc; 0u8; len]?,
    };
    Ok(ImageStep::Directory(DirectoryStep::WriteTagBuf(Tag::SubIfd, buffer)))
}

// Whether SubIFDs is one of the caller's tags.
fn has_links(tags: &[NewTag<'_>]) -> bool
    ensures { result ≡ list_any (λ tag. tag.number == spec.sub_ifds) tags.now }
{
    tags.iter().any(|tag| tag.number == Tag::SubIfd.to_u16())
}

// Puts the call that sets the tag SubIFDs of a page behind the others, if the page has children.
// `IoError(InvalidInput)` if it is one of the caller's tags.
#[tactic(auto, using(crate::proofs::PagesMade::links_added))]
pub(crate) fn add_links(
    alloc: Global,
    kind: FileKind,
    children: usize,
    tags: &[NewTag<'_>],
    steps: &mut Vec<ImageStep<'_>>,
) -> TiffResult<()>
    ensures { Makes IsOut (λ _. map step_view steps.new.items) result
        (spec.with_links kind children tags.now (map step_view steps.old.items)) }
{
    if children == 0 {
        return Ok(());
    }
    // The links of the caller's own SubIFDs would be lost.
    if has_links(tags) {
        return Err(TiffError::IoError(IoKind::InvalidInput));
    }
    let step = link_step(alloc, kind, children)?;
    steps.push(step)?;
    Ok(())
}

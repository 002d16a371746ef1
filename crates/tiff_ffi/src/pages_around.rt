//! A file of several pages around the samples that C has.

ghost use Rattle.std.specs.Prelude.{◌≡◌, ◌≤◌, [], length, map, IfOk, IfSome, Ok};
ghost use Rattle.tiff_ffi.specs.Pages.{RanPages};
ghost use Rattle.tiff_ffi.specs.PagesFrame as spec;
ghost use Rattle.tiff_ffi.specs.PagesFrame.{AnswersFramed, EndsFramed, PutsFrame, TellsFramed, samples_in};
ghost use Rattle.tiff_ffi.specs.Spliced.{spliced};
ghost use Rattle.tiff_ffi.specs.Writer as writer;

use crate::frame::NewFile;
use crate::jobs::refused_of;
use crate::pages::{
    NO_PAGE, NewPage, PagesEnd, PagesJobs, Refusal, RefusedPage, jobs_of, refused_page, run_in,
};
use crate::pages_sink::{LentSamples, PagesSink};
use crate::status::fault_number;
use crate::writer::{kind_of, put_file};
use std::alloc::{AllocError, Global};
use std::marker::Brand;
use tiff_base::error::{TiffFormatError, TiffResult};
use tiff_base::tags::FileKind;
use tiff_encode::encoder::script::run_jobs;
use tiff_encode::encoder::{TiffKind, TiffKindBig, TiffKindStandard};

/// How many bytes of a file aren't samples that the caller has, and of how many of the first pages
/// the samples are those.
#[derive(Clone, Copy, Debug, PartialEq, Eq)]
#[repr(C)]
pub struct PagesLengths {
    pub around: usize,
    pub framed: usize,
}

/// What pages left that were written: the bytes of their file that aren't samples elsewhere in
/// memory; of each of the first pages how many of these are in front of its samples, behind those
/// of the page before it; and the page that was refused.
#[derive(Drop)]
pub struct FramedPages {
    pub around: Vec<u8>,
    pub fronts: Vec<usize>,
    pub refused: Option<RefusedPage>,
}

/// What came of a list of pages.
#[derive(Drop)]
pub enum FramedAnswer {
    /// The page of this number, from 1, is refused.
    Refused(usize, Refusal),

    /// The jobs of the pages were run.
    Ran(FramedPages),
}

// The samples of pages.
fn all_samples<'a>(alloc: Global, pages: &[NewPage<'a>]) -> Result<Vec<&'a [u8]>, AllocError>
    ensures { IfOk result (λ v. v.items ≡ map (λ p. p.samples) pages.now) }
{
    pages.iter().map(|page| page.samples).collect(alloc)
}

// The samples of so many of the first pages. The only error is that memory is out.
#[tactic(auto, using(crate::proofs::FramedPages::first_samples))]
fn samples_of<'a>(
    alloc: Global,
    pages: &[NewPage<'a>],
    most: usize,
) -> Result<Vec<&'a [u8]>, AllocError>
    ensures { IfOk result (λ v. map (λ s. s.now) v.items ≡ samples_in most pages.now) }
{
    all_samples(alloc, &pages[..most.min(pages.len())])
}

// Runs the jobs of pages in the chain around these samples, in a new file of the kind `K`. None
// where memory is out, or the sink can't write a link.
fn run_around<K: TiffKind, P: LentSamples>(
    alloc: Global,
    jobs: &PagesJobs<'_>,
    samples: Vec<&[u8]>,
) -> Option<FramedPages>
    requires alone { jobs.now.children.items ≡ [] }
    requires lent { map (λ s. s.now) samples.items ≡ P.samples }
    ensures { IfSome result (λ f. (length f.fronts.items ≤ length P.samples)
        × RanPages K.kind jobs.now (Ok (
          spliced f.around.items f.fronts.items P.samples,
          f.refused,
        ))) }
{
    let mut replies = Vec::new(alloc);
    let sink = PagesSink::<P>::new(alloc, samples);
    let Ok(sink) = run_jobs::<PagesSink<'_, P>, K>(alloc, sink, &jobs.chain, &mut replies) else {
        return None;
    };
    if sink.has_failed() {
        return None;
    }
    let (refused, step) = refused_of(replies);
    let frame = sink.into_frame()?;
    Some(FramedPages {
        around: frame.around,
        fronts: frame.fronts,
        refused: refused_page(&jobs.numbers, &jobs.chain, refused, step),
    })
}

// Runs the jobs of pages in a new file of a kind, around the samples of so many of the first pages.
// None where the file can't be written so.
fn run_chain(
    alloc: Global,
    kind: FileKind,
    jobs: &PagesJobs<'_>,
    pages: &[NewPage<'_>],
    most: usize,
) -> Option<FramedPages>
    ensures { IfSome result (λ f. EndsFramed (RanPages kind jobs.now) most pages.now (Ok f)) }
{
    if !jobs.children.is_empty() {
        return None;
    }
    let samples = samples_of(alloc, pages, most).ok()?;
    match kind {
        FileKind::Classic => run_around::<TiffKindStandard, Brand>(alloc, jobs, samples),
        FileKind::Big => run_around::<TiffKindBig, Brand>(alloc, jobs, samples),
    }
}

// Runs the jobs of pages in a new file of a kind, around the samples of so many of the first pages
// if the file can be written so.
fn run_framed(
    alloc: Global,
    kind: FileKind,
    jobs: &PagesJobs<'_>,
    pages: &[NewPage<'_>],
    most: usize,
) -> TiffResult<FramedPages>
    ensures { EndsFramed (RanPages kind jobs.now) most pages.now result }
{
    if let Some(framed) = run_chain(alloc, kind, jobs, pages, most) {
        return Ok(framed);
    }
    let written = run_in(alloc, kind, jobs)?;
    Ok(FramedPages {
        around: written.file,
        fronts: Vec::new(alloc),
        refused: written.refused,
    })
}

// Runs the jobs of pages, unless a page is refused.
fn frame_kind(
    alloc: Global,
    kind: FileKind,
    pages: &[NewPage<'_>],
    most: usize,
) -> TiffResult<FramedAnswer>
    ensures { AnswersFramed kind most pages.now result }
{
    match jobs_of(alloc, kind, pages) {
        Ok(jobs) => Ok(FramedAnswer::Ran(run_framed(alloc, kind, &jobs, pages, most)?)),
        Err((page, refusal)) => Ok(FramedAnswer::Refused(page, refusal)),
    }
}

/// Runs the jobs of pages for a file whose header has this version, around the samples of so many
/// of the first pages. Its errors: those of `run_pages`.
pub fn frame_pages(
    alloc: Global,
    version: u16,
    pages: &[NewPage<'_>],
    most: usize,
) -> TiffResult<FramedAnswer>
    ensures { spec.AnswersKind (writer.kind_of version) most pages.now result }
{
    match kind_of(version) {
        Some(kind) => frame_kind(alloc, kind, pages, most),
        None => Err(TiffFormatError::TiffSignatureInvalid.into()),
    }
}

// Puts the bytes of a file that aren't samples into `buffer`, its fronts into `fronts`, and how
// many both are into `lengths`. Returns the status.
fn put_frame(
    framed: FramedPages,
    buffer: &mut [u8],
    fronts: &mut [usize],
    lengths: &mut PagesLengths,
) -> u32
    requires { length framed.fronts.items ≤ length fronts.old }
    ensures { PutsFrame framed result
        (record { buffer = buffer.old; fronts = fronts.old; lengths = lengths.old })
        (record { buffer = buffer.new; fronts = fronts.new; lengths = lengths.new }) }
{
    let count = framed.fronts.len();
    fronts[..count].copy_from_slice(&framed.fronts);
    lengths.framed = count;
    put_file(
        Ok(NewFile::Whole(framed.around)),
        buffer,
        &mut lengths.around,
    )
}

/// Puts the frame of a file of pages where C wants it, if none was refused; else where the list was
/// refused into `end`. Returns the status: 0; the number of the error of a page that is refused;
/// the status of the first page that had an error; the number of `InsufficientOutputBufferSize` for
/// a buffer that is too short; or the number of the error of `answer`.
pub fn tell_framed(
    answer: TiffResult<FramedAnswer>,
    buffer: &mut [u8],
    fronts: &mut [usize],
    lengths: &mut PagesLengths,
    end: &mut PagesEnd,
) -> u32
    requires { spec.HasRoom (length fronts.old) answer }
    ensures { TellsFramed answer result
        (record { buffer = buffer.old; fronts = fronts.old; lengths = lengths.old })
        (record { buffer = buffer.new; fronts = fronts.new; lengths = lengths.new }) end.new }
{
    *end = NO_PAGE;
    match answer {
        Ok(FramedAnswer::Ran(framed)) => match framed.refused {
            None => put_frame(framed, buffer, fronts, lengths),
            Some(refused) => {
                *end = PagesEnd {
                    page: refused.page,
                    field: refused.field as u32,
                };
                refused.status
            }
        },
        Ok(FramedAnswer::Refused(page, refusal)) => {
            *end = PagesEnd {
                page,
                field: refusal.field as u32,
            };
            fault_number(&refusal.fault)
        }
        Err(fault) => fault_number(&fault),
    }
}

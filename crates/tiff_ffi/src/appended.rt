//! Pages behind a file that is there, whose parameters, tags and samples C passes.

ghost use Rattle.std.specs.Prelude.{◌≡◌, ◌+◌, ◌≤◌, length};
ghost use Rattle.tiff_base.specs.declared.tags.ByteOrder.TheVariants.{LittleEndian};
ghost use Rattle.tiff_base.specs.Directory.{offset_width};
ghost use Rattle.tiff_base.specs.Number.{number};
ghost use Rattle.tiff_value.specs.FileBytes.{offset_len};
ghost use Rattle.tiff_ffi.specs.Appended.{AnswersAppend, AnswersBehind, EndsBehind, TellsAppended, appended_to};

use crate::pages::{
    NO_PAGE, NewPage, PagesAnswer, PagesEnd, PagesJobs, WrittenPages, jobs_of, tell_pages,
};
use crate::parents::{Links, go_on, run_jobs_at};
use crate::status::fault_number;
use std::alloc::Global;
use tiff_append::last_link::{LastLink, last_link, link_size};
use tiff_append::sink::{Addition, BehindSink};
use tiff_base::error::{TiffError, TiffResult};
use tiff_base::read::{u32_in, u64_in};
use tiff_base::tags::{ByteOrder, FileKind};
use tiff_encode::encoder::{TiffKind, TiffKindBig, TiffKindStandard};

/// What a file gets: how many bytes behind it; the offset of its last link, the number that the
/// link gets, and of how many bytes, the lowest first; and where the list of pages was refused.
#[derive(Clone, Copy, Debug, PartialEq, Eq)]
#[repr(C)]
pub struct Appended {
    pub len: usize,
    pub link: u64,
    pub target: u64,
    pub width: u32,
    pub end: PagesEnd,
}

const NOTHING: Appended = Appended {
    len: 0,
    link: 0,
    target: 0,
    width: 0,
    end: NO_PAGE,
};

/// What came of a list of pages behind a file: where its last link is, the number that the link
/// gets, and what came of the pages, whose file here is the bytes behind the file.
#[derive(Drop)]
pub struct BehindFile {
    pub place: LastLink,
    pub target: u64,
    pub pages: PagesAnswer,
}

// The number that the bytes of a link are.
#[tactic(auto, using(std::proofs::lemmas::List::take_all))]
fn number_of(kind: FileKind, link: &[u8]) -> u64
    requires { length link.now ≡ offset_len kind }
    ensures { result ≡ number LittleEndian (offset_width kind) link.now }
{
    match kind {
        FileKind::Classic => u64::from(u32_in(ByteOrder::LittleEndian, link, 0)),
        FileKind::Big => u64_in(ByteOrder::LittleEndian, link, 0),
    }
}

// Runs the jobs of pages behind a file of the kind `K` whose last link is at an offset. Returns the
// bytes of that link, and what the pages left behind the file.
#[tactic(auto, using(tiff_append::specs::lemmas::Behind::out_of_memory, crate::proofs::BehindRan::fails_behind))]
fn run_at_kind<K: TiffKind>(
    alloc: Global,
    file: &[u8],
    at: u64,
    jobs: &PagesJobs<'_>,
) -> TiffResult<(Vec<u8>, WrittenPages)>
    requires { at + offset_len K.kind ≤ length file.now }
    ensures { EndsBehind K.kind file.now at jobs.now result }
{
    let kind = K::file_kind();
    let (len, size) = (file.len(), link_size(kind));
    let sink = BehindSink::new(alloc, file, at as usize, size)?;
    let (sink, refused) = run_jobs_at::<BehindSink<'_>, K>(
        alloc,
        sink,
        at,
        &jobs.numbers,
        &jobs.chain,
    )?;
    let links = Links {
        kind,
        first: at,
        floor: len as u64,
    };
    let (sink, refused) = go_on::<BehindSink<'_>, K>(alloc, links, sink, refused, jobs)?;
    match sink.into_addition(len, at as usize, size) {
        Some(Addition { link, more }) => Ok((
            link,
            WrittenPages {
                file: more,
                refused,
            },
        )),
        // The sink still has this file and this link; no contract says so.
        None => Err(TiffError::OutOfMemory),
    }
}

// Runs the jobs of pages behind a file.
fn run_at(
    alloc: Global,
    file: &[u8],
    place: LastLink,
    jobs: &PagesJobs<'_>,
) -> TiffResult<(Vec<u8>, WrittenPages)>
    requires { place.at + offset_len place.kind ≤ length file.now }
    ensures { EndsBehind place.kind file.now place.at jobs.now result }
{
    match place.kind {
        FileKind::Classic => run_at_kind::<TiffKindStandard>(alloc, file, place.at, jobs),
        FileKind::Big => run_at_kind::<TiffKindBig>(alloc, file, place.at, jobs),
    }
}

// Runs the jobs of pages behind a file, unless a page is refused.
fn run_pages_at(
    alloc: Global,
    file: &[u8],
    place: LastLink,
    pages: &[NewPage<'_>],
) -> TiffResult<(u64, PagesAnswer)>
    requires { place.at + offset_len place.kind ≤ length file.now }
    ensures { AnswersBehind place.kind file.now place.at pages.now result }
{
    match jobs_of(alloc, place.kind, pages) {
        Ok(jobs) => {
            let (link, written) = run_at(alloc, file, place, &jobs)?;
            Ok((number_of(place.kind, &link), PagesAnswer::Ran(written)))
        }
        Err((page, refusal)) => Ok((0, PagesAnswer::Refused(page, refusal))),
    }
}

/// Runs the jobs of pages behind a file. Errors: those of `last_link`; `OutOfMemory`; the one of a
/// parent's directory that can't be read.
pub fn run_appended(alloc: Global, file: &[u8], pages: &[NewPage<'_>]) -> TiffResult<BehindFile>
    ensures { AnswersAppend file.now pages.now result }
{
    let place = last_link(alloc, file)?;
    let (target, pages) = run_pages_at(alloc, file, place, pages)?;
    Ok(BehindFile {
        place,
        target,
        pages,
    })
}

// What C gets for pages that were run: all of it, unless a page was refused.
fn appended_to(place: LastLink, target: u64, len: usize, end: PagesEnd) -> Appended
    ensures { result ≡ appended_to place target len end }
{
    if end.page != 0 {
        return Appended {
            len,
            link: 0,
            target: 0,
            width: 0,
            end,
        };
    }
    Appended {
        len,
        link: place.at,
        target,
        width: link_size(place.kind) as u32,
        end,
    }
}

/// Puts the bytes behind the file into `buffer`, and what they are, and the last link, into
/// `appended`. Returns the status, as `tell_pages` does, or the number of the error of `answer`.
pub fn tell_appended(
    answer: TiffResult<BehindFile>,
    buffer: &mut [u8],
    appended: &mut Appended,
) -> u32
    ensures { TellsAppended answer result buffer.old buffer.new appended.new }
{
    *appended = NOTHING;
    match answer {
        Ok(
            BehindFile {
                place,
                target,
                pages,
            },
        ) => {
            let mut len = 0;
            let mut end = NO_PAGE;
            let status = tell_pages(Ok(pages), buffer, &mut len, &mut end);
            *appended = appended_to(place, target, len, end);
            status
        }
        Err(fault) => fault_number(&fault),
    }
}

//! Jobs of an encoder behind a file.

ghost use Rattle.std.specs.Prelude.{length, MatchResult};
ghost use Rattle.tiff_value.specs.FileBytes.{offset_len};
ghost use Rattle.tiff_append.specs.Behind.{RefusesLink, RunsAt, RunsBehind};

use crate::last_link::{LastLink, link_size};
use crate::sink::{Addition, BehindSink};
use std::alloc::Global;
use tiff_base::error::{TiffError, TiffResult};
use tiff_base::io::Sink;
use tiff_base::tags::FileKind;
use tiff_encode::encoder::script::{Job, JobReply, run_jobs_in};
use tiff_encode::encoder::{TiffEncoder, TiffKind, TiffKindBig, TiffKindStandard};

/// Runs jobs one after another with an encoder that goes on behind the file of a sink, at a link of
/// that file (`TiffEncoder::append_to`, `run_jobs_in`), and returns the sink. The reply to each job
/// is appended to `replies`. Errors: `IoError(InvalidInput)` if the link isn't within the file;
/// `OutOfMemory`. Then no job was run.
pub fn run_at<W: Sink, K: TiffKind>(
    alloc: Global,
    sink: W,
    link: u64,
    jobs: &[Job<'_>],
    replies: &mut Vec<JobReply>,
) -> TiffResult<W>
    ensures { MatchResult result (λ last. RunsAt K.kind (W.contents sink) link jobs.now replies.old.items
        replies.new.items (W.contents last))
        (RefusesLink (length (W.contents sink)) link (offset_len K.kind)) }
{
    let mut encoder = TiffEncoder::<W, K>::append_to(alloc, sink, link)?;
    run_jobs_in(&mut encoder, jobs, replies)?;
    Ok(encoder.into_inner())
}

// Runs jobs behind a file of the kind `K`, whose last link is at an offset.
fn run_kind<K: TiffKind>(
    alloc: Global,
    file: &[u8],
    at: u64,
    jobs: &[Job<'_>],
    replies: &mut Vec<JobReply>,
) -> TiffResult<Addition>
    ensures { MatchResult result (λ a. RunsBehind K.kind file.now at jobs.now replies.old.items
        replies.new.items a.link.items a.more.items)
        (RefusesLink (length file.now) at (offset_len K.kind)) }
{
    let size = link_size(K::file_kind());
    let sink = BehindSink::new(alloc, file, at as usize, size)?;
    let sink = run_at::<BehindSink<'_>, K>(alloc, sink, at, jobs, replies)?;
    match sink.into_addition(file.len(), at as usize, size) {
        Some(addition) => Ok(addition),
        // The sink still has this file and this link; no contract says so.
        None => Err(TiffError::OutOfMemory),
    }
}

/// Runs jobs one after another with an encoder that goes on behind a file (`run_jobs_in`), whose
/// last link `last_link` found. Returns what they write: the new bytes of that link, and the bytes
/// behind the file. The file is neither copied nor changed. The reply to each job is appended to
/// `replies`. Errors: `IoError(InvalidInput)` if the link isn't within the file; `OutOfMemory`.
pub fn run_behind(
    alloc: Global,
    file: &[u8],
    place: LastLink,
    jobs: &[Job<'_>],
    replies: &mut Vec<JobReply>,
) -> TiffResult<Addition>
    ensures { MatchResult result (λ a. RunsBehind place.kind file.now place.at jobs.now
        replies.old.items replies.new.items a.link.items a.more.items)
        (RefusesLink (length file.now) place.at (offset_len place.kind)) }
{
    match place.kind {
        FileKind::Classic => run_kind::<TiffKindStandard>(alloc, file, place.at, jobs, replies),
        FileKind::Big => run_kind::<TiffKindBig>(alloc, file, place.at, jobs, replies),
    }
}

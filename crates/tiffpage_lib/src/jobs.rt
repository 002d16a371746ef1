//! Lists of jobs, and the files that they write.

ghost use Rattle.std.specs.Prelude.{◌≡◌, ◌+◌, ◌≤◌, length, None, MatchResult, is_ok, option_map};
ghost use Rattle.std.specs.List.{list_all};
ghost use Rattle.tiff_value.specs.FileBytes.{offset_len};
ghost use Rattle.tiffpage_lib.specs.Wrote.{Wrote, WroteBehind, is_well};

use crate::calls::drop_value;
use std::alloc::Global;
use tiff::encoder::script::{Job, JobReply, StepReply, run_jobs};
use tiff::encoder::{TiffKind, TiffKindBig, TiffKindStandard};
use tiff::io::MemorySink;
use tiff::tags::FileKind;
use tiff::{TiffError, TiffResult};
use tiff_append::last_link::LastLink;
use tiff_append::run::run_behind;
use tiff_append::sink::Addition;
use tiff_pages::lines::Lines;
use tiff_script::replies::lines_of_jobs;

/// What jobs left: their file, if it is to be written, and the lines of the replies. The lines are
/// well if no step and no end of a job was refused.
#[derive(Drop)]
pub struct Written {
    pub file: Option<Vec<u8>>,
    pub lines: Lines,
}

// Whether no step was refused.
fn are_answered(steps: &[TiffResult<StepReply>]) -> bool
    ensures { result ≡ list_all is_ok steps.now }
{
    steps.iter().all(|step| step.is_ok())
}

// Whether no reply of a job is an error.
fn is_well(reply: &JobReply) -> bool
    ensures { result ≡ is_well reply.now }
{
    are_answered(&reply.steps) && reply.last.is_ok()
}

// Whether no reply of any job is an error.
fn are_well(replies: &[JobReply]) -> bool
    ensures { result ≡ list_all is_well replies.now }
{
    replies.iter().all(|reply| is_well(reply))
}

// The lines of the replies to jobs.
fn told(alloc: Global, replies: Vec<JobReply>) -> TiffResult<Lines>
    ensures { MatchResult result (λ lines. (lines.well ≡ list_all is_well replies.items)
        × (lines.end ≡ None)) (λ e. e ≡ TiffError.OutOfMemory) }
{
    let text = lines_of_jobs(alloc, &replies);
    let well = are_well(&replies);
    drop_value(replies);
    Ok(Lines {
        text: text?,
        end: None,
        well,
    })
}

// Runs jobs over an empty sink.
#[tactic(auto, using(tiff_base::specs::lemmas::MemoryFaults::header_refused))]
fn run_kind<K: TiffKind>(alloc: Global, keep_going: bool, jobs: &[Job<'_>]) -> TiffResult<Written>
    ensures { MatchResult result
        (λ written.
        Wrote K.kind keep_going jobs.now (option_map (λ file. file.items) written.file)
        written.lines.well × (written.lines.end ≡ None))
        (λ e. e ≡ TiffError.OutOfMemory) }
{
    let mut replies = Vec::new(alloc);
    let sink = MemorySink::new(Vec::new(alloc));
    let sink = run_jobs::<MemorySink, K>(alloc, sink, jobs, &mut replies)?;
    let lines = told(alloc, replies)?;
    let file = (lines.well || keep_going).then_some(sink.into_vec());
    Ok(Written { file, lines })
}

/// Runs jobs one after another, and returns the file of this kind that they write, with a line for
/// each reply, also to a job that is refused. It returns a file if no reply is an error, and in
/// each case if it keeps going. Its only error is `OutOfMemory`: for the replies, the header or the
/// lines.
pub fn write_by(
    alloc: Global,
    kind: FileKind,
    keep_going: bool,
    jobs: &[Job<'_>],
) -> TiffResult<Written>
    ensures { MatchResult result
        (λ written.
        Wrote kind keep_going jobs.now (option_map (λ file. file.items) written.file)
        written.lines.well × (written.lines.end ≡ None))
        (λ e. e ≡ TiffError.OutOfMemory) }
{
    match kind {
        FileKind::Classic => run_kind::<TiffKindStandard>(alloc, keep_going, jobs),
        FileKind::Big => run_kind::<TiffKindBig>(alloc, keep_going, jobs),
    }
}

/// Runs jobs one after another behind a file, whose last link `last_link` found, and returns what
/// they write, if no reply is an error, with a line for each reply, also to a job that is refused.
/// Its only error is `OutOfMemory`: for the replies, the link or the lines.
#[tactic(auto, using(tiff_append::specs::lemmas::Behind::out_of_memory))]
pub fn append_by(
    alloc: Global,
    file: &[u8],
    place: LastLink,
    jobs: &[Job<'_>],
) -> TiffResult<(Option<Addition>, Lines)>
    requires { place.at + offset_len place.kind ≤ length file.now }
    ensures { MatchResult result
        (λ r. WroteBehind place.kind file.now place.at jobs.now r.0 r.1.well × (r.1.end ≡ None))
        (λ e. e ≡ TiffError.OutOfMemory) }
{
    let mut replies = Vec::new(alloc);
    match run_behind(alloc, file, place, jobs, &mut replies) {
        Ok(addition) => {
            let lines = told(alloc, replies)?;
            let written = lines.well.then_some(addition);
            Ok((written, lines))
        }
        Err(fault) => {
            drop_value(replies);
            Err(fault)
        }
    }
}

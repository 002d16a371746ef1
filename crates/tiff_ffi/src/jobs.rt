//! The file of a list of jobs, which C passes as lines of text.

ghost use Rattle.std.specs.Prelude.{◌≡◌, map, position, MatchResult};
ghost use Rattle.std.specs.Result.{result_map_both};
ghost use Rattle.tiff_script.specs.Jobs.{job_held};
ghost use Rattle.tiff_ffi.specs.Jobs.{AnswersJobs, AnswersKind, RanJobs, TellsAnswer, TellsRan, first_refused, first_status, is_refused, job_status, jobs_in, refused_step};
ghost use Rattle.tiff_ffi.specs.Status as status;
ghost use Rattle.tiff_ffi.specs.Writer as writer;

use crate::frame::NewFile;
use crate::status::{Status, fault_number, status_of};
use crate::writer::{kind_of, put_file};
use std::alloc::Global;
use std::str;
use tiff_base::error::{TiffError, TiffFormatError, TiffResult};
use tiff_base::io::MemorySink;
use tiff_base::tags::FileKind;
use tiff_encode::encoder::script::{Job, JobReply, StepReply, run_jobs};
use tiff_encode::encoder::{TiffKind, TiffKindBig, TiffKindStandard};
use tiff_script::jobs::jobs_of;

/// Where a list of jobs was refused, counted from 1: at a line that is no job, or at a job that had
/// an error. 0 is none.
#[derive(Clone, Copy, Debug, PartialEq, Eq)]
#[repr(C)]
pub struct JobsEnd {
    pub line: usize,
    pub job: usize,
}

const NO_END: JobsEnd = JobsEnd { line: 0, job: 0 };

/// What jobs left that were run: their file; the number, from 1, of the first job that had an
/// error, with the status of that error; and the number, from 0, of the step of that job that had
/// it, or none if the end of the job had it.
#[derive(Drop)]
pub struct Ran {
    pub file: Vec<u8>,
    pub refused: Option<(usize, u32)>,
    pub step: Option<usize>,
}

/// What came of a text of jobs.
#[derive(Drop)]
pub enum Answer {
    /// The line of this number, from 1, is no job; 0 where the text isn't UTF-8.
    NoJob(usize),

    /// The jobs of the text were run.
    Ran(Ran),
}

// The status of the first step that was refused, or 0.
fn steps_status(steps: &[TiffResult<StepReply>]) -> u32
    ensures { result ≡ first_status (map status.status steps.now) }
{
    for i in 0..steps.len() {
        let number = status_of(&steps[i]);
        if number != 0 {
            return number;
        }
    }
    0
}

// The status of the first error of a job: of its steps, and then of its end; or 0.
#[tactic(auto, using(crate::proofs::FirstFault::first_behind))]
fn job_status(reply: &JobReply) -> u32
    ensures { result ≡ job_status reply.now }
{
    let steps = steps_status(&reply.steps);
    if steps == 0 {
        status_of(&reply.last)
    } else {
        steps
    }
}

// The first job that had an error: its number, from 1, and the status of that error.
fn first_refused(replies: &[JobReply]) -> Option<(usize, u32)>
    ensures { result ≡ first_refused 1 replies.now }
{
    for i in 0..replies.len() {
        let number = job_status(&replies[i]);
        if number != 0 {
            return Some((i + 1, number));
        }
    }
    None
}

// The first step that was refused.
fn first_step(steps: &[TiffResult<StepReply>]) -> Option<usize>
    ensures { result ≡ position is_refused steps.now }
{
    steps.iter().position(|step| status_of(step) != 0)
}

// The step that had the error of the first job that had one.
fn refused_step(replies: &[JobReply], refused: Option<(usize, u32)>) -> Option<usize>
    ensures { result ≡ refused_step replies.now refused }
{
    let (job, _status) = refused?;
    let reply = replies.get(job.saturating_sub(1))?;
    first_step(&reply.steps)
}

/// Drops a value. A list of replies is dropped here, since a proof about that is long in a function
/// that isn't generic.
pub fn drop_value<T: Drop>(_value: T) {}

/// The first job that had an error, by these replies, and the step that had it.
pub fn refused_of(replies: Vec<JobReply>) -> (Option<(usize, u32)>, Option<usize>)
    ensures refused { result.0 ≡ first_refused 1 replies.items }
    ensures step { result.1 ≡ refused_step replies.items result.0 }
{
    let refused = first_refused(&replies);
    let step = refused_step(&replies, refused);
    drop_value(replies);
    (refused, step)
}

// What jobs left that have these replies.
fn ran_of(file: Vec<u8>, replies: Vec<JobReply>) -> Ran
    ensures file { result.file.items ≡ file.items }
    ensures refused { result.refused ≡ first_refused 1 replies.items }
    ensures step { result.step ≡ refused_step replies.items result.refused }
{
    let (refused, step) = refused_of(replies);
    Ran {
        file,
        refused,
        step,
    }
}

// Runs jobs over an empty sink, for a file of the kind `K`.
#[tactic(auto, using(tiff_base::specs::lemmas::MemoryFaults::header_refused))]
fn run_kind<K: TiffKind>(alloc: Global, jobs: &[Job<'_>]) -> TiffResult<Ran>
    ensures { MatchResult result (λ ran. RanJobs K.kind jobs.now ran.file.items ran.refused
        ran.step) (λ e. e ≡ TiffError.OutOfMemory) }
{
    let mut replies = Vec::new(alloc);
    let sink = MemorySink::new(Vec::new(alloc));
    let sink = run_jobs::<MemorySink, K>(alloc, sink, jobs, &mut replies)?;
    Ok(ran_of(sink.into_vec(), replies))
}

/// Runs jobs over an empty sink, for a file of a kind that is given as a value. Its only error is
/// `OutOfMemory`.
pub fn run(alloc: Global, kind: FileKind, jobs: &[Job<'_>]) -> TiffResult<Ran>
    ensures { MatchResult result (λ ran. RanJobs kind jobs.now ran.file.items ran.refused
        ran.step) (λ e. e ≡ TiffError.OutOfMemory) }
{
    match kind {
        FileKind::Classic => run_kind::<TiffKindStandard>(alloc, jobs),
        FileKind::Big => run_kind::<TiffKindBig>(alloc, jobs),
    }
}

// The jobs that a text lists; or the number of its first line that is no job, and 0 where the text
// isn't UTF-8.
#[tactic(auto, using(crate::proofs::JobsListed::of_text, crate::proofs::JobsListed::of_no_text))]
fn listed(alloc: Global, text: &[u8]) -> TiffResult<Result<Vec<Job<'static>>, usize>>
    ensures { MatchResult result (λ listed. jobs_in text.now
        ≡ result_map_both (λ jobs. map job_held jobs.items) (λ line. line) listed)
        (λ e. e ≡ TiffError.OutOfMemory) }
{
    match str::from_utf8(text) {
        Ok(text) => Ok(jobs_of(alloc, text)?),
        Err(_) => Ok(Err(0)),
    }
}

/// Runs the jobs that a text lists, unless a line of it is no job. Its only error is `OutOfMemory`.
pub fn run_listed(alloc: Global, kind: FileKind, text: &[u8]) -> TiffResult<Answer>
    ensures { MatchResult result (AnswersJobs kind text.now) (λ e. e ≡ TiffError.OutOfMemory) }
{
    match listed(alloc, text)? {
        Ok(jobs) => Ok(Answer::Ran(run(alloc, kind, &jobs)?)),
        Err(line) => Ok(Answer::NoJob(line)),
    }
}

/// Puts the file of jobs into a buffer if none of them had an error, and its length into `len`;
/// else the number of the first job that had one into `end`, and returns the status of that error.
pub fn tell_ran(ran: Ran, buffer: &mut [u8], len: &mut usize, end: &mut JobsEnd) -> u32
    ensures { TellsRan ran.file.items ran.refused result buffer.old buffer.new len.old len.new
        end.new }
{
    match ran.refused {
        None => {
            *end = NO_END;
            put_file(Ok(NewFile::Whole(ran.file)), buffer, len)
        }
        Some((job, number)) => {
            *end = JobsEnd { line: 0, job };
            number
        }
    }
}

/// Puts the file of jobs into `buffer`, its length into `len`, and where the list was refused into
/// `end`. Returns the status: 0; the number of `IoError(InvalidInput)` for a line that is no job;
/// the status of the first job that had an error; the number of `InsufficientOutputBufferSize` for
/// a buffer that is too short; or the number of the error of `answer`.
pub fn put_jobs(
    answer: TiffResult<Answer>,
    buffer: &mut [u8],
    len: &mut usize,
    end: &mut JobsEnd,
) -> u32
    ensures { TellsAnswer answer result buffer.old buffer.new len.old len.new end.new }
{
    *end = NO_END;
    match answer {
        Ok(Answer::Ran(ran)) => tell_ran(ran, buffer, len, end),
        Ok(Answer::NoJob(line)) => {
            end.line = line;
            Status::InvalidInput as u32
        }
        Err(fault) => fault_number(&fault),
    }
}

/// Runs the jobs that a text lists for a file whose header has this version. Its errors: a version
/// that is none, `TiffSignatureInvalid`; `OutOfMemory`.
pub fn run_version(alloc: Global, version: u16, text: &[u8]) -> TiffResult<Answer>
    ensures { AnswersKind (writer.kind_of version) text.now result }
{
    match kind_of(version) {
        Some(kind) => run_listed(alloc, kind, text),
        None => Err(TiffFormatError::TiffSignatureInvalid.into()),
    }
}

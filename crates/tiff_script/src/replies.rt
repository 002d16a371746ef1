//! The text of replies to calls and to jobs.

ghost use Rattle.tiff_script.specs.Told.{LinesOfCalls, LinesOfJobs};

use crate::digits::push_digits;
use std::alloc::{AllocError, Global};
use tiff_base::directory::Entry;
use tiff_base::error::TiffResult;
use tiff_base::io::{Sink, Source};
use tiff_decode::decoder::Decoder;
use tiff_decode::reply::{refusal_text, text_of};
use tiff_decode::script::{Call, Reply, run_calls};
use tiff_encode::encoder::TiffKind;
use tiff_encode::encoder::script::{EndReply, Job, JobReply, StepReply, run_jobs};

// The number of an entry's type, how many values it has, and its bytes as digits.
fn entry_text(alloc: Global, entry: &Entry) -> Result<String, AllocError> {
    let field_type = entry.field_type().to_u16();
    let count = entry.count();
    let mut text = format!(in alloc; "{field_type} {count} ")?;
    push_digits(&mut text, &entry.value())?;
    Ok(text)
}

// The reply to a step: `nothing`; a number; the type, the count and the bytes of an entry; or the
// error.
fn step_text(alloc: Global, reply: &TiffResult<StepReply>) -> Result<String, AllocError> {
    match reply {
        Ok(StepReply::Nothing) => String::from_str(alloc, "nothing"),
        Ok(StepReply::Number(number)) => format!(in alloc; "{number}"),
        Ok(StepReply::Written(entry)) => entry_text(alloc, entry),
        Err(fault) => refusal_text(alloc, fault),
    }
}

// The reply to the end of a job: `nothing`; the offsets of its directory and of the link to the
// next one; or the error.
fn end_text(alloc: Global, reply: &TiffResult<EndReply>) -> Result<String, AllocError> {
    match reply {
        Ok(EndReply::Nothing) => String::from_str(alloc, "nothing"),
        Ok(EndReply::Offsets { pointer, link }) => {
            format!(in alloc; "pointer {pointer} link {link}")
        }
        Err(fault) => refusal_text(alloc, fault),
    }
}

// What has lines of text.
trait Lines {
    // The lines of this value.
    fn lines(&self, alloc: Global) -> Result<String, AllocError>;
}

impl Lines for Reply {
    // One line for the reply to a call.
    fn lines(&self, alloc: Global) -> Result<String, AllocError> {
        let mut line = text_of(alloc, self)?;
        line.push_str("\n")?;
        Ok(line)
    }
}

impl Lines for JobReply {
    // A line for each step of a job, and one for its end.
    fn lines(&self, alloc: Global) -> Result<String, AllocError> {
        let mut lines = String::new(alloc);
        for step in &self.steps {
            lines.push_str(&step_text(alloc, step)?)?;
            lines.push_str("\n")?;
        }
        lines.push_str(&end_text(alloc, &self.last)?)?;
        lines.push_str("\n")?;
        Ok(lines)
    }
}

// The lines of all replies, one after another.
fn all_lines<T: Lines>(alloc: Global, replies: &[T]) -> Result<String, AllocError> {
    let mut lines = String::new(alloc);
    for reply in replies {
        lines.push_str(&reply.lines(alloc)?)?;
    }
    Ok(lines)
}

/// The replies to jobs, as lines: one for each step of each job, and one for its end. Its only
/// error is out of memory.
pub fn lines_of_jobs(alloc: Global, replies: &[JobReply]) -> Result<String, AllocError> {
    all_lines(alloc, replies)
}

// Drops a value. A list of replies is dropped here, since a proof about that is long in a function
// that isn't generic.
fn drop_value<T: Drop>(_value: T) {}

/// Makes calls of a decoder, as `run_calls` does, and returns a line for the reply to each, also to
/// one that is refused. Its only error is `OutOfMemory`: for the replies, and then it made no call;
/// or for the lines, and then it made all calls.
pub fn lines_of_calls<R: Source>(
    alloc: Global,
    decoder: &mut Decoder<R>,
    calls: &[Call],
) -> TiffResult<String>
    ensures { LinesOfCalls decoder.old calls.now result decoder.new }
{
    let mut replies = Vec::new(alloc);
    let made = run_calls(decoder, calls, &mut replies);
    let lines = all_lines(alloc, &replies);
    drop_value(replies);
    made?;
    Ok(lines?)
}

/// Runs jobs over a sink, as `run_jobs` does, and returns the sink with the lines of the replies to
/// the jobs. Its errors are those of `run_jobs`, and `OutOfMemory` for the lines.
pub fn run_told<W: Sink, K: TiffKind>(
    alloc: Global,
    sink: W,
    jobs: &[Job<'_>],
) -> TiffResult<(W, String)>
    ensures { LinesOfJobs W.contents W.failures W.fault K.kind jobs.now sink result }
{
    let mut replies = Vec::new(alloc);
    let answered = run_jobs::<W, K>(alloc, sink, jobs, &mut replies);
    let lines = all_lines(alloc, &replies);
    drop_value(replies);
    Ok((answered?, lines?))
}

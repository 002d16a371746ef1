//! A list of jobs, run over sinks that take fewer bytes than offered, and over sinks of which one
//! call fails.

ghost use Rattle.std.specs.Prelude.{◌<◌};

use crate::call_count::{failed_text, step_of};
use crate::expected::Expected;
use crate::job_lines::told_lines;
use crate::job_list::{JobList, JobRun, Start, run_over};
use crate::manner::{Appetite, Manner};
use crate::record::{Kept, put};
use crate::sums::Sums;
use std::alloc::{AllocError, Global};
use tiff_base::error::TiffError;
use tiff_base::io::{IoKind, SinkFault};
use tiff_decode::reply::refusal_text;
use tiff_encode::encoder::script::Job;

// The runs of a list over sinks with one appetite.
#[derive(Drop)]
struct Trials<'a> {
    list: JobList<'a>,
    appetite: Appetite,
    expected: Expected<'a>,
}

// The text of a sink's error.
fn fault_text(alloc: Global, fault: SinkFault) -> Result<String, AllocError> {
    let fault = match fault {
        SinkFault::Device => TiffError::IoError(IoKind::Device),
        SinkFault::OutOfMemory => TiffError::OutOfMemory,
    };
    refusal_text(alloc, &fault)
}

impl<'a> Trials<'a> {
    // The runs of a list.
    fn new(list: JobList<'a>, appetite: Appetite) -> Result<Self, AllocError> {
        let expected = Expected::new(list, appetite)?;
        Ok(Trials {
            list,
            appetite,
            expected,
        })
    }

    // Compares the replies of a run in which a call fails with the expected ones. Returns the
    // mismatch, if any.
    fn wrong_replies(
        &self,
        run: &JobRun,
        call: u64,
        fault: SinkFault,
    ) -> Result<Option<String>, AllocError> {
        let fault = fault_text(self.list.alloc, fault)?;
        let told = run.text.as_str().trim_end();
        let expected = self.expected.lines(call, told, &fault)?;
        let wanted = expected.as_str().trim_end();
        if told == wanted {
            return Ok(None);
        }
        Ok(Some(format!(in self.list.alloc;
            "MISMATCH: call {call} of the sink fails:\n{told}\nexpected\n{wanted}"
        )?))
    }

    // Makes one call fail, counted from 1. Returns the mismatch, if any. `before` are the bytes of
    // the sink before the call.
    fn refuse(
        &self,
        call: u64,
        fault: SinkFault,
        before: &[u8],
    ) -> Result<Option<String>, AllocError> {
        let manner = Manner::failing(self.appetite, call.saturating_sub(1), fault);
        let run = self.list.run(manner, Kept::File)?;
        let calls = run.recorded.calls;
        if calls != call || !run.left(before) {
            return Ok(Some(format!(in self.list.alloc;
                "MISMATCH: call {call} of the sink fails: {calls} calls, or another file than before it"
            )?));
        }
        self.wrong_replies(&run, call, fault)
    }

    // Makes one call fail twice: with a device error, and with an out-of-memory error. Returns the
    // mismatch, if any.
    fn refuse_twice(&self, call: u64, before: &[u8]) -> Result<Option<String>, AllocError> {
        if let Some(mismatch) = self.refuse(call, SinkFault::Device, before)? {
            return Ok(Some(mismatch));
        }
        self.refuse(call, SinkFault::OutOfMemory, before)
    }

    // Makes each call of a run fail, or one in several. Returns the mismatch, if any.
    fn refuse_each(
        &self,
        run: &JobRun,
        step: u64,
        sums: &mut Sums,
    ) -> Result<Option<String>, AllocError>
        requires { 0 < step }
    {
        let mut before = self.list.start.file.to_vec(self.list.alloc)?;
        let mut call = 0u64;
        for written in &run.recorded.writes {
            call = call.saturating_add(1);
            if call % step == 0 {
                if let Some(mismatch) = self.refuse_twice(call, &before)? {
                    return Ok(Some(mismatch));
                }
                sums.writes = sums.writes.saturating_add(1);
            }
            put(&mut before, written.at, &written.bytes)?;
        }
        Ok(None)
    }

    // The report on all runs, or the mismatch.
    fn try_all(
        &self,
        good: &JobRun,
        sums: &mut Sums,
    ) -> Result<Result<String, String>, AllocError> {
        let alloc = self.list.alloc;
        let run = self.list.run(Manner::plain(self.appetite), Kept::Writes)?;
        let calls = run.recorded.calls;
        let text = run.text.as_str();
        if text != good.text.as_str() || !run.left(&good.recorded.file) {
            return Ok(Err(format!(in alloc; "MISMATCH: {calls} calls of the sink:\n{text}")?));
        }
        let step = step_of(calls);
        match self.refuse_each(&run, step, sums)? {
            Some(mismatch) => Ok(Err(mismatch)),
            None => Ok(Ok(failed_text(alloc, calls, step)?)),
        }
    }
}

// The report on a list over sinks of all appetites, or the mismatch.
fn try_appetites(
    list: JobList<'_>,
    good: &JobRun,
    sums: &mut Sums,
) -> Result<Result<String, String>, AllocError> {
    let all = match Trials::new(list, Appetite::All)?.try_all(good, sums)? {
        Ok(text) => text,
        Err(mismatch) => return Ok(Err(mismatch)),
    };
    let one = match Trials::new(list, Appetite::One)?.try_all(good, sums)? {
        Ok(text) => text,
        Err(mismatch) => return Ok(Err(mismatch)),
    };
    let one_less = match Trials::new(list, Appetite::OneLess)?.try_all(good, sums)? {
        Ok(text) => text,
        Err(mismatch) => return Ok(Err(mismatch)),
    };
    Ok(Ok(format!(in list.alloc;
        "calls of the sink, by the device and for memory: {all}; of one byte: {one}; of one byte less: {one_less}"
    )?))
}

/// The report on the jobs of a text over sinks that take fewer bytes than offered, and over sinks
/// that fail. The jobs begin with a file.
pub fn tried(
    alloc: Global,
    start: Start<'_>,
    text: &str,
    jobs: &[Job<'_>],
    sums: &mut Sums,
) -> Result<String, AllocError> {
    let good = run_over(alloc, start, jobs, Manner::plain(Appetite::All), Kept::File)?;
    let told = told_lines(alloc, text)?;
    let answered = told_lines(alloc, &good.text)?;
    let list = JobList {
        alloc,
        start,
        jobs,
        told: &told,
        answered: &answered,
    };
    sums.lists = sums.lists.saturating_add(1);
    match try_appetites(list, &good, sums)? {
        Ok(text) => Ok(text),
        Err(mismatch) => Ok(mismatch),
    }
}

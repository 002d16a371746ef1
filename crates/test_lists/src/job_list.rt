//! A list of jobs, the lines that describe it, and its runs.

use crate::manner::Manner;
use crate::record::{Kept, Record, Recorded};
use crate::sink::ScriptedSink;
use std::alloc::{AllocError, Global};
use tiff_append::run::run_at;
use tiff_base::error::TiffResult;
use tiff_decode::reply::refusal_text;
use tiff_encode::encoder::script::Job;
use tiff_encode::encoder::{TiffKind, TiffKindBig, TiffKindStandard};
use tiff_script::jobs::jobs_of;
use tiff_script::replies::{lines_of_jobs, run_told};

/// Where a list of jobs writes: a new classic or BigTIFF file; or behind a file of this kind, whose
/// last link is at an offset.
#[derive(Clone, Copy, Drop)]
pub struct Start<'a> {
    pub big: bool,
    pub file: &'a [u8],
    pub link: Option<u64>,
}

/// The results of a run of jobs.
#[derive(Drop)]
pub struct JobRun {
    /// The reply lines of the jobs, or the error of the whole run.
    pub text: String,
    /// The bytes of the sink, if the run hands the sink back.
    pub handed_back: Option<Vec<u8>>,
    /// The calls that the sink recorded.
    pub recorded: Recorded,
}

impl JobRun {
    /// Whether the sink recorded these bytes, and the run hands back no other bytes.
    pub fn left(&self, bytes: &[u8]) -> bool {
        let told = self.recorded.file.as_slice();
        match &self.handed_back {
            Some(handed_back) => told == bytes && handed_back.as_slice() == bytes,
            None => told == bytes,
        }
    }
}

// Runs jobs behind the file of a sink, whose last link is at an offset.
fn run_behind<K: TiffKind>(
    alloc: Global,
    sink: ScriptedSink,
    link: u64,
    jobs: &[Job<'_>],
) -> TiffResult<(ScriptedSink, String)> {
    let mut replies = Vec::new(alloc);
    let sink = run_at::<ScriptedSink, K>(alloc, sink, link, jobs, &mut replies)?;
    Ok((sink, lines_of_jobs(alloc, &replies)?))
}

// Runs jobs in a file of the kind `K`.
fn run_kind<K: TiffKind>(
    alloc: Global,
    link: Option<u64>,
    sink: ScriptedSink,
    jobs: &[Job<'_>],
) -> TiffResult<(ScriptedSink, String)> {
    match link {
        Some(link) => run_behind::<K>(alloc, sink, link, jobs),
        None => run_told::<ScriptedSink, K>(alloc, sink, jobs),
    }
}

/// Runs jobs over a sink with this manner, which has the file that they begin with. The sink
/// records as much as `kept` says.
pub fn run_over(
    alloc: Global,
    start: Start<'_>,
    jobs: &[Job<'_>],
    manner: Manner,
    kept: Kept,
) -> Result<JobRun, AllocError> {
    let record = Record::new(alloc, kept, start.file)?;
    let sink = ScriptedSink::new(start.file.to_vec(alloc)?, manner, record.shared()?);
    let run = if start.big {
        run_kind::<TiffKindBig>(alloc, start.link, sink, jobs)
    } else {
        run_kind::<TiffKindStandard>(alloc, start.link, sink, jobs)
    };
    let (text, handed_back) = match run {
        Ok((sink, lines)) => (lines, Some(sink.into_vec())),
        Err(fault) => (refusal_text(alloc, &fault)?, None),
    };
    Ok(JobRun {
        text,
        handed_back,
        recorded: record.take(),
    })
}

/// Runs the jobs of a text over a sink with this manner, which has the file that they begin with.
/// Or returns the number, from 1, of the first line that is no job.
pub fn run_text(
    alloc: Global,
    start: Start<'_>,
    text: &str,
    manner: Manner,
) -> Result<Result<JobRun, usize>, AllocError> {
    match jobs_of(alloc, text)? {
        Ok(jobs) => Ok(Ok(run_over(alloc, start, &jobs, manner, Kept::Counts)?)),
        Err(number) => Ok(Err(number)),
    }
}

/// A list of jobs, the file that they begin with, the lines that describe the jobs, and the reply
/// lines where nothing fails.
#[derive(Clone, Copy, Drop)]
pub struct JobList<'a> {
    pub alloc: Global,
    pub start: Start<'a>,
    pub jobs: &'a [Job<'a>],
    pub told: &'a [String],
    pub answered: &'a [String],
}

impl<'a> JobList<'a> {
    /// Runs all jobs over a sink with this manner. The sink records as much as `kept` says.
    pub fn run(&self, manner: Manner, kept: Kept) -> Result<JobRun, AllocError> {
        run_over(self.alloc, self.start, self.jobs, manner, kept)
    }

    /// Runs the first `count` jobs over a sink with this manner, and counts the sink's calls.
    pub fn run_first(&self, count: usize, manner: Manner) -> Result<JobRun, AllocError> {
        let count = count.min(self.jobs.len());
        run_over(
            self.alloc,
            self.start,
            &self.jobs[..count],
            manner,
            Kept::Counts,
        )
    }
}

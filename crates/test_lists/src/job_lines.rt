//! The lines of a list of jobs, and the jobs that they describe.

use std::alloc::{AllocError, Global};
use tiff_encode::encoder::script::Job;

// The reply to a call that writes, after a failed write.
const FAILED: &str = "refused: usage error: an earlier write failed (UsageError(WriterFailed))";

// The reply to a directory whose parent isn't finished.
const NO_PARENT: &str =
    "refused: usage error: the parent's link lies outside what was written (UsageError(ParentNotWritten))";

/// The number of steps of a job.
pub fn step_count(job: &Job<'_>) -> usize {
    match job {
        Job::Predictor(_) | Job::Compression(_) => 0,
        Job::Directory(job) => job.steps.len(),
        Job::Image(job) => job.steps.len(),
    }
}

/// The number of lines of a job: one for a setting, else its head, its steps and its end.
pub fn line_count(job: &Job<'_>) -> usize {
    match job {
        Job::Predictor(_) | Job::Compression(_) => 1,
        _ => step_count(job).saturating_add(2),
    }
}

/// Whether the step on a line writes. All steps do except those that read directories or count
/// samples.
pub fn writes(line: &str) -> bool {
    let name = match line.split_once(' ') {
        Some((name, _)) => name,
        None => line,
    };
    !matches!(
        name,
        "extend_from" | "next_strip_sample_count" | "next_chunk_sample_count"
    )
}

/// The reply, after a failed write, to a step that writes, to an end, or to a job that begins.
pub fn failed() -> &'static str {
    FAILED
}

/// The reply to a job that begins after a failed write. `is_finished` says whether the directory of
/// the job's parent is finished before the failure.
pub fn begun_too_late(job: &Job<'_>, is_finished: bool) -> &'static str {
    match job {
        Job::Predictor(_) | Job::Compression(_) => "nothing",
        Job::Image(_) => FAILED,
        Job::Directory(job) => match job.parent {
            Some(_) if !is_finished => NO_PARENT,
            _ => FAILED,
        },
    }
}

/// The job whose directory links to the directory of this job.
pub fn parent_of(job: &Job<'_>) -> Option<usize> {
    match job {
        Job::Directory(job) => job.parent,
        _ => None,
    }
}

// The unit and both numbers of a line that sets a resolution for each axis.
fn axes(line: &str) -> Option<(&str, &str, &str)> {
    let (unit, numbers) = line.strip_prefix("resolution ")?.split_once(' ')?;
    let (x, y) = numbers.split_once(' ')?;
    Some((unit, x, y))
}

// Appends the steps of a line that sets a resolution for each axis: the unit, and both numbers.
fn push_axes(
    alloc: Global,
    lines: &mut Vec<String>,
    words: (&str, &str, &str),
) -> Result<(), AllocError> {
    let (unit, x, y) = words;
    for (step, word) in [
        ("resolution_unit", unit),
        ("x_resolution", x),
        ("y_resolution", y),
    ] {
        lines.push(format!(in alloc; "{step} {word}")?)?;
    }
    Ok(())
}

/// The lines that describe jobs, without comments; one for each step, so three for the line of a
/// resolution for each axis.
pub fn told_lines(alloc: Global, text: &str) -> Result<Vec<String>, AllocError> {
    let mut lines = Vec::new(alloc);
    for line in text.lines() {
        if line.is_empty() || line.starts_with('#') {
            continue;
        }
        if let Some(words) = axes(line) {
            push_axes(alloc, &mut lines, words)?;
        } else {
            lines.push(String::from_str(alloc, line)?)?;
        }
    }
    Ok(lines)
}

//! The expected replies to a list of jobs over a sink of which one call fails.

use crate::job_lines::{begun_too_late, failed, line_count, parent_of, step_count, writes};
use crate::job_list::{JobList, run_text};
use crate::manner::{Appetite, Manner};
use std::alloc::{AllocError, Global};
use tiff_encode::encoder::script::Job;

// The number of calls of the sink and the number of reply lines at the end of a job.
#[derive(Clone, Copy, Drop)]
struct Stand {
    calls: u64,
    lines: usize,
}

/// The expected replies to a list of jobs over a sink with an appetite, of which one call fails.
#[derive(Drop)]
pub struct Expected<'a> {
    list: JobList<'a>,
    // The counts after the header, and after each job.
    stands: Vec<Stand>,
}

// Appends a line.
fn push_line(text: &mut String, line: &str) -> Result<(), AllocError> {
    text.push_str(line)?;
    text.push_str("\n")
}

// Appends lines.
fn push_lines(text: &mut String, lines: &[String]) -> Result<(), AllocError> {
    for line in lines {
        push_line(text, line)?;
    }
    Ok(())
}

// The lines before a step that failed, the steps of the rest that write nothing, and the end that
// discards the directory.
fn kept_steps(alloc: Global, before: &[String], rest: &[String]) -> Result<String, AllocError> {
    let mut text = String::new(alloc);
    push_lines(&mut text, before)?;
    for line in rest {
        if !writes(line) {
            push_line(&mut text, line)?;
        }
    }
    push_line(&mut text, "discard")?;
    Ok(text)
}

// The lines from `from` to `to`, or none if there are fewer lines.
fn between(lines: &[String], from: usize, to: usize) -> &[String] {
    lines.get(from..to).unwrap_or(&[])
}

impl<'a> Expected<'a> {
    /// The counts after each job of a list, over a sink with this appetite.
    pub fn new(list: JobList<'a>, appetite: Appetite) -> Result<Self, AllocError> {
        let mut stands = Vec::new(list.alloc);
        for count in 0..=list.jobs.len() {
            let run = list.run_first(count, Manner::plain(appetite))?;
            stands.push(Stand {
                calls: run.recorded.calls,
                lines: run.text.as_str().lines().count(),
            })?;
        }
        Ok(Expected { list, stands })
    }

    // The job that makes the call with this number, counted from 1. Returns `None` if the call is
    // within the header.
    fn job_of(&self, call: u64) -> Option<usize> {
        let stand = self.stands.iter().position(|stand| stand.calls >= call)?;
        stand.checked_sub(1)
    }

    // The number of reply lines before a job.
    fn lines_before(&self, job: usize) -> usize {
        match self.stands.get(job) {
            Some(stand) => stand.lines,
            None => 0,
        }
    }

    // Whether a job finishes a directory.
    fn finishes(&self, job: usize) -> bool {
        let end = self.lines_before(job.saturating_add(1));
        match self.list.answered.get(end.saturating_sub(1)) {
            Some(line) => line.as_str().starts_with("pointer "),
            None => false,
        }
    }

    // The number of lines before the first line of a job.
    fn first_line(&self, job: usize) -> usize {
        let mut count = 0usize;
        for earlier in self.list.jobs.iter().take(job) {
            count = count.saturating_add(line_count(earlier));
        }
        count
    }

    // Appends the replies to the jobs after the one in which the sink failed. Each job is refused
    // as it begins, except a setting.
    fn push_later(&self, text: &mut String, failing: usize) -> Result<(), AllocError> {
        let jobs = self.list.jobs;
        for job in &jobs[failing.saturating_add(1).min(jobs.len())..] {
            let is_finished = match parent_of(job) {
                Some(parent) => parent < failing && self.finishes(parent),
                None => false,
            };
            push_line(text, begun_too_late(job, is_finished))?;
        }
        Ok(())
    }

    // The replies to the steps that write nothing, after a step that failed. To find them, runs the
    // list up to there without the steps that write, and discards the directory.
    fn kept_replies(
        &self,
        before: &[String],
        rest: &[String],
        from: usize,
    ) -> Result<Vec<String>, AllocError> {
        let alloc = self.list.alloc;
        let text = kept_steps(alloc, before, rest)?;
        let Ok(run) = run_text(alloc, self.list.start, &text, Manner::plain(Appetite::All))? else {
            return Ok(Vec::new(alloc));
        };
        let mut replies = Vec::new(alloc);
        for reply in run.text.as_str().lines().skip(from) {
            replies.push(String::from_str(alloc, reply)?)?;
        }
        Ok(replies)
    }

    // Appends the replies to the steps of a job after the step that failed, and to the job's end.
    fn push_rest(&self, text: &mut String, job: usize, step: usize) -> Result<(), AllocError> {
        let Some(failing) = self.list.jobs.get(job) else {
            return Ok(());
        };
        let steps = step_count(failing);
        if step >= steps {
            return Ok(());
        }
        let head = self.first_line(job);
        let at = head.saturating_add(step).saturating_add(1);
        let end = head.saturating_add(steps).saturating_add(1);
        let before = between(self.list.told, 0, at);
        let rest = between(self.list.told, at.saturating_add(1), end);
        let from = self.lines_before(job).saturating_add(step);
        let kept = self.kept_replies(before, rest, from)?;
        let mut next = 0;
        for line in rest {
            match kept.get(next) {
                Some(reply) if !writes(line) => {
                    push_line(text, reply)?;
                    next += 1;
                }
                _ => push_line(text, failed())?,
            }
        }
        push_line(text, failed())
    }

    // Appends the replies to the job in which the sink failed. If the job has one reply line, its
    // beginning failed, or it has no step. Else the first step that failed is the first one whose
    // reply differs from the reply without a failure.
    fn push_failing(
        &self,
        text: &mut String,
        job: usize,
        told: &[&str],
        fault: &str,
    ) -> Result<(), AllocError> {
        let start = self.lines_before(job);
        let later = self.list.jobs.len().saturating_sub(job).saturating_sub(1);
        let lines = told.len().saturating_sub(start).saturating_sub(later);
        if lines <= 1 {
            return push_line(text, fault);
        }
        let answered = between(self.list.answered, start, self.list.answered.len());
        let told = told.iter().skip(start);
        let same = answered
            .iter()
            .zip(told)
            .take_while(|(answered, told)| answered.as_str() == **told)
            .count();
        push_lines(text, between(answered, 0, same))?;
        push_line(text, fault)?;
        self.push_rest(text, job, same)
    }

    /// The expected lines where the call with this number, counted from 1, fails in the sink. The
    /// lines `told` of the run show where in its job it fails.
    pub fn lines(&self, call: u64, told: &str, fault: &str) -> Result<String, AllocError> {
        let alloc = self.list.alloc;
        let mut text = String::new(alloc);
        let Some(job) = self.job_of(call) else {
            push_line(&mut text, fault)?;
            return Ok(text);
        };
        let told: Vec<&str> = told.lines().collect(alloc)?;
        let start = self.lines_before(job);
        push_lines(&mut text, between(self.list.answered, 0, start))?;
        self.push_failing(&mut text, job, &told, fault)?;
        self.push_later(&mut text, job)?;
        Ok(text)
    }
}

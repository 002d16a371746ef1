//! The totals of all trials.

use std::alloc::{AllocError, Global};

/// The number of lists tried over sources and sinks that fail, and the number of their reads and
/// writes that failed.
#[derive(Clone, Copy, Drop)]
pub struct Sums {
    pub scripts: u64,
    pub reads: u64,
    pub lists: u64,
    pub writes: u64,
}

impl Sums {
    /// No trial yet.
    pub fn none() -> Self {
        Sums {
            scripts: 0,
            reads: 0,
            lists: 0,
            writes: 0,
        }
    }

    /// Adds the totals of another session.
    pub fn add(&mut self, other: &Sums) {
        self.scripts = self.scripts.saturating_add(other.scripts);
        self.reads = self.reads.saturating_add(other.reads);
        self.lists = self.lists.saturating_add(other.lists);
        self.writes = self.writes.saturating_add(other.writes);
    }

    /// The totals in words.
    pub fn text(&self, alloc: Global) -> Result<String, AllocError> {
        let Sums {
            scripts,
            reads,
            lists,
            writes,
        } = *self;
        format!(in alloc;
            "failed in all: {reads} reads in {scripts} lists of calls, and {writes} writes, each by two faults, in {lists} lists of jobs"
        )
    }
}

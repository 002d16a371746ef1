//! The lines of calls and their results.

use crate::manner::{Appetite, Manner};
use crate::record::{Kept, Record};
use crate::sink::ScriptedSink;
use std::alloc::{AllocError, Global};
use std::fmt::{Debug, Write};

/// The lines of calls and their results.
#[derive(Drop)]
pub struct Told {
    alloc: Global,
    count: u64,
    // Each line, behind a line break; or the error of a line for which there was no memory.
    lines: Result<String, AllocError>,
}

impl Told {
    /// No line yet.
    pub fn new(alloc: Global) -> Self {
        Told {
            alloc,
            count: 0,
            lines: Ok(String::new(alloc)),
        }
    }

    /// The allocator of the calls.
    pub fn alloc(&self) -> Global {
        self.alloc
    }

    /// A sink in memory without bytes.
    pub fn empty_sink(&self) -> Result<ScriptedSink, AllocError> {
        let record = Record::new(self.alloc, Kept::Counts, &[])?;
        let manner = Manner::plain(Appetite::All);
        Ok(ScriptedSink::new(Vec::new(self.alloc), manner, record))
    }

    /// Adds the line of a call and its result.
    pub fn line<T: Debug + Drop>(&mut self, call: &str, answer: T) {
        self.count = self.count.saturating_add(1);
        if let Ok(lines) = &mut self.lines
            && let Err(fault) = write!(lines, "\n{call}: {answer:?}")
        {
            self.lines = Err(fault);
        }
    }

    /// How many lines there are, and all lines.
    pub fn into_text(self) -> Result<String, AllocError> {
        let Told {
            alloc,
            count,
            lines,
        } = self;
        let lines = lines?;
        format!(in alloc; "results: {count}{lines}")
    }
}

//! The lines of calls and their results.

use std::alloc::Global;
use std::fmt::{Debug, Write};

/// Lines of calls and their results.
#[derive(Drop)]
pub struct Report {
    alloc: Global,
    text: String,
    // Whether there was no memory for a line.
    lost: bool,
}

impl Report {
    /// A report without lines.
    pub fn new(alloc: Global) -> Self {
        Report {
            alloc,
            text: String::new(alloc),
            lost: false,
        }
    }

    /// The allocator of the calls.
    pub fn alloc(&self) -> Global {
        self.alloc
    }

    /// Adds the line of a call and its result.
    pub fn line<T: Debug + Drop>(&mut self, call: &str, answer: T) {
        let written = writeln!(self.text, "{call}: {answer:?}");
        self.lost = self.lost || written.is_err();
    }

    /// Adds a command line, what it prints, which ends in a newline if it isn't empty, and its
    /// status.
    pub fn command(&mut self, line: &str, printed: &str, status: u8) {
        let written = writeln!(self.text, "$ {line}\n{printed}status {status}");
        self.lost = self.lost || written.is_err();
    }

    /// The lines, if there was memory for each; else `None`.
    pub fn into_text(self) -> Option<String> {
        let Report {
            alloc: _,
            text,
            lost,
        } = self;
        if lost { None } else { Some(text) }
    }
}

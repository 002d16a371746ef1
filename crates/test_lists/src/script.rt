//! The lines on a file with their replies, and the same lines over sources that fail.

use crate::call_count::CallCount;
use crate::file_line::File;
use crate::source_trial::{failing_reads, one_byte_reads};
use crate::sums::Sums;
use std::alloc::{AllocError, Global};

/// A line on a file. The first line opens the file, the others are calls.
#[derive(Drop)]
pub struct ScriptLine {
    pub words: String,
    pub reply: String,
    /// The state of the decoder before the line.
    pub state: String,
}

/// A file, and the lines on it so far.
#[derive(Drop)]
pub struct Script {
    pub alloc: Global,
    pub file: File,
    pub lines: Vec<ScriptLine>,
    /// The number of reads that the lines made.
    pub reads: CallCount,
    // The number of lines that were tried over sources that fail.
    tried: usize,
}

impl Script {
    /// A file without lines.
    pub fn new(alloc: Global, file: File) -> Result<Self, AllocError> {
        Ok(Script {
            alloc,
            file,
            lines: Vec::new(alloc),
            reads: CallCount::new(alloc)?,
            tried: 0,
        })
    }

    /// Adds a line.
    pub fn add(&mut self, words: &str, reply: &str, state: String) -> Result<(), AllocError> {
        let line = ScriptLine {
            words: String::from_str(self.alloc, words)?,
            reply: String::from_str(self.alloc, reply)?,
            state,
        };
        self.lines.push(line)?;
        Ok(())
    }

    // Tries the lines over sources that fail, each read in a run of its own, and over sources that
    // give one byte per read.
    fn try_all(&self, sums: &mut Sums) -> Result<String, AllocError> {
        let each = match failing_reads(self, self.file.is_bytewise(), self.reads.get(), sums)? {
            Ok(text) => text,
            Err(mismatch) => return Ok(mismatch),
        };
        if self.file.is_bytewise() {
            return format!(in self.alloc; "reads: {each}");
        }
        match one_byte_reads(self, sums)? {
            Ok(bytewise) => format!(in self.alloc; "reads: {each}; of one byte: {bytewise}"),
            Err(mismatch) => Ok(mismatch),
        }
    }

    /// The report on the lines over sources that fail, if there are untried lines. There is none if
    /// a read of the file's own source fails.
    pub fn tried(&mut self, sums: &mut Sums) -> Result<Option<String>, AllocError> {
        if self.file.fails() || self.tried == self.lines.len() {
            return Ok(None);
        }
        if self.tried == 0 {
            sums.scripts = sums.scripts.saturating_add(1);
        }
        self.tried = self.lines.len();
        Ok(Some(self.try_all(sums)?))
    }
}

//! The bytes of a file that a source is asked for.

use std::alloc::{AllocError, Global};
use std::fmt::Write;

/// The bytes of a file that a source is asked for, and whether it is asked for a byte past the end.
#[derive(Drop)]
pub struct Asked {
    marks: Vec<bool>,
    behind: bool,
}

impl Asked {
    /// No byte of a file of `len` bytes is asked for yet.
    pub fn none(alloc: Global, len: usize) -> Result<Self, AllocError> {
        Ok(Asked {
            marks: vec![in alloc; false; len]?,
            behind: false,
        })
    }

    /// Adds the `len` bytes from offset `at` on.
    pub fn add(&mut self, at: u64, len: usize) {
        let all = self.marks.len() as u64;
        let end = at.saturating_add(len as u64);
        if end > all {
            self.behind = true;
        }
        let from = at.min(all) as usize;
        let to = end.min(all).max(at.min(all)) as usize;
        for mark in &mut self.marks[from..to] {
            *mark = true;
        }
    }

    /// The stretches of the bytes asked for. Each gives its first offset and the offset after its
    /// last byte.
    pub fn text(&self, alloc: Global) -> Result<String, AllocError> {
        let mut text = String::new(alloc);
        let mut first = None;
        for (at, mark) in self.marks.iter().enumerate() {
            match (first, *mark) {
                (None, true) => first = Some(at),
                (Some(from), false) => {
                    write!(text, "{from}-{at} ")?;
                    first = None;
                }
                _ => {}
            }
        }
        if let Some(from) = first {
            write!(text, "{from}-{} ", self.marks.len())?;
        }
        let end = if self.behind {
            "and behind the end"
        } else {
            "alone"
        };
        text.push_str(end)?;
        Ok(text)
    }
}

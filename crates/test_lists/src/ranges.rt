//! Replies for consecutive numbers, such as the lengths of a file that is cut.

use std::alloc::{AllocError, Global};
use std::fmt::Write;

/// The replies for the numbers from 0 so far: one line for each range of numbers with the same
/// reply, and the last range, which isn't in `lines` yet.
#[derive(Drop)]
pub struct Ranges {
    lines: String,
    first: usize,
    reply: String,
}

impl Ranges {
    /// No reply yet, behind a first line.
    pub fn new(alloc: Global, head: String) -> Self {
        Ranges {
            lines: head,
            first: 0,
            reply: String::new(alloc),
        }
    }

    // Ends the current range before the number `next`.
    fn end(&mut self, next: usize) -> Result<(), AllocError> {
        let first = self.first;
        let last = next.saturating_sub(1);
        let reply = &self.reply;
        if first < last {
            write!(self.lines, "\n{first} to {last}: {reply}")?;
        } else if first == last {
            write!(self.lines, "\n{first}: {reply}")?;
        }
        Ok(())
    }

    /// Adds the reply for the next number.
    pub fn add(&mut self, number: usize, reply: String) -> Result<(), AllocError> {
        if reply.as_str() != self.reply.as_str() {
            if number > 0 {
                self.end(number)?;
            }
            self.first = number;
            self.reply = reply;
        }
        Ok(())
    }

    /// All lines, of the replies for so many numbers.
    pub fn into_lines(mut self, count: usize) -> Result<String, AllocError> {
        self.end(count)?;
        Ok(self.lines)
    }
}

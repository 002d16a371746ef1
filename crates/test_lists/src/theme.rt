//! The lists of a theme with an expected reply at each line, and a report of the replies that
//! differ.

use crate::file_line::bytes_read;
use crate::session::{Session, is_comment};
use std::alloc::{AllocError, Global};
use std::fmt::Write;
use std::rt::Files;

// The beginning of a line that continues a reply, or reports the runs that fail.
const BEHIND: &str = "    ";

// The text between a line and its reply.
const ARROW: &str = " -> ";

// The text in place of a missing line.
const NO_LINE: &str = "no more";

// The lines of a theme so far.
#[derive(Drop)]
struct Theme<'a> {
    alloc: Global,
    name: &'a str,
    // The number of the line read last, and of the last line with input.
    line: usize,
    first: usize,
    // The expected text and the actual text for the last line with input, line by line.
    expected: String,
    told: String,
    // The number of replies, the number of replies that aren't as expected, and a report on each of
    // these.
    replies: usize,
    others: usize,
    differences: String,
}

// The input within a line of a theme.
fn input_of(line: &str, is_job: bool) -> &str {
    let is_whole = if is_job {
        !line.starts_with("done")
    } else {
        is_comment(line)
    };
    if is_whole {
        return line;
    }
    match line.split_once(ARROW) {
        Some((input, _)) => input,
        None => line,
    }
}

// The number of equal lines at the beginning of two texts, and the next line of each.
fn first_difference<'t>(expected: &'t str, told: &'t str) -> (usize, &'t str, &'t str) {
    let mut rest = told.lines();
    let mut same = 0usize;
    for line in expected.lines() {
        match rest.next() {
            Some(other) if other == line => same = same.saturating_add(1),
            Some(other) => return (same, line, other),
            None => return (same, line, NO_LINE),
        }
    }
    match rest.next() {
        Some(other) => (same, NO_LINE, other),
        None => (same, NO_LINE, NO_LINE),
    }
}

impl<'a> Theme<'a> {
    // No line yet.
    fn new(alloc: Global, name: &'a str) -> Self {
        Theme {
            alloc,
            name,
            line: 0,
            first: 0,
            expected: String::new(alloc),
            told: String::new(alloc),
            replies: 0,
            others: 0,
            differences: String::new(alloc),
        }
    }

    // Compares the actual text for the last line with the expected one.
    fn compare(&mut self) -> Result<(), AllocError> {
        if self.expected.as_str() == self.told.as_str() {
            return Ok(());
        }
        self.others = self.others.saturating_add(1);
        let (same, expected, told) = first_difference(&self.expected, &self.told);
        let (name, line) = (self.name, self.first.saturating_add(same));
        write!(
            self.differences,
            "\n{name}:{line}: expected {expected}\n{name}:{line}: got {told}"
        )
    }

    // Adds an expected line after the last line.
    fn expect(&mut self, line: &str) -> Result<(), AllocError> {
        write!(self.expected, "\n{line}")
    }

    // Adds a report after the last line.
    fn tell(&mut self, tried: Option<String>) -> Result<(), AllocError> {
        match tried {
            Some(tried) => write!(self.told, "\n{tried}"),
            None => Ok(()),
        }
    }

    // Follows a line of the input.
    fn follow(
        &mut self,
        rt: &(impl Files + AllocGlobal),
        session: &mut Session,
        line: &str,
    ) -> Result<(), AllocError> {
        let input = input_of(line, session.is_listing());
        self.tell(session.tried_before(input)?)?;
        self.compare()?;
        self.first = self.line;
        self.expected = String::from_str(self.alloc, line)?;
        self.told = String::from_str(self.alloc, input)?;
        if let Some(reply) = session.reply(rt, input)? {
            self.replies = self.replies.saturating_add(1);
            write!(self.told, "{ARROW}{reply}")?;
        }
        Ok(())
    }

    // The number of replies as expected, and the places of the others.
    fn text(&self) -> Result<String, AllocError> {
        let (replies, others, differences) = (self.replies, self.others, &self.differences);
        if others == 0 {
            return format!(in self.alloc; "{replies} replies as expected");
        }
        format!(in self.alloc; "of {replies} replies {others} are not as expected{differences}")
    }
}

/// Follows the lists of a theme in a session of its own, and reports the replies that aren't as
/// expected. Returns `None` if there are no such lists.
pub fn theme_text(
    rt: &(impl Files + AllocGlobal),
    outer: &mut Session,
    name: &str,
) -> Result<Option<String>, AllocError> {
    let path = format!(in rt.alloc(); "lists/{name}.txt")?;
    let Some(bytes) = bytes_read(rt, &path)? else {
        return Ok(None);
    };
    let Ok(text) = String::from_utf8(bytes) else {
        return Ok(None);
    };
    let mut session = outer.another(rt.alloc());
    let mut theme = Theme::new(rt.alloc(), name);
    for line in text.as_str().lines() {
        theme.line = theme.line.saturating_add(1);
        match line.strip_prefix(BEHIND) {
            Some(rest) => theme.expect(rest)?,
            None => theme.follow(rt, &mut session, line)?,
        }
    }
    theme.tell(session.tried()?)?;
    theme.compare()?;
    outer.count(&session);
    Ok(Some(theme.text()?))
}

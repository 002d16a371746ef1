//! The lines of a list of calls, one after another.

use crate::call_count::CallCount;
use crate::cuts::cuts_text;
use crate::file_line::{File, file_of};
use crate::images::images_text;
use crate::reader::Reader;
use crate::script::Script;
use crate::sums::Sums;
use crate::writer::Writer;
use std::alloc::{AllocError, Global};
use std::fmt::Write;
use std::rt::Files;

/// The decoder of the file opened last, if it opened, and the writer of lists of jobs.
#[derive(Drop)]
pub struct Session {
    reader: Reader,
    // The lines on the file opened last, if there is a file and its lines are to be tried over
    // sources that fail.
    script: Option<Script>,
    writer: Writer,
    // Whether a list of jobs has begun.
    listing: bool,
    // Whether lists are tried over sources and sinks that fail.
    trying: bool,
    sums: Sums,
}

/// Whether a line has no reply.
pub fn is_comment(line: &str) -> bool {
    line.is_empty() || line.starts_with('#')
}

// After this line no list is tried over sources and sinks that fail.
const WITHOUT_FAILURES: &str = "without failures";

// The beginnings of lines that aren't calls.
const OTHER_LINES: [&str; 10] = [
    "file ",
    "cuts ",
    "images ",
    "library ",
    "lists ",
    "jobs",
    "again",
    "written",
    "changed",
    WITHOUT_FAILURES,
];

// Whether a line ends the lines on a file.
fn ends_script(line: &str) -> bool {
    is_comment(line) || OTHER_LINES.iter().any(|words| line.starts_with(*words))
}

impl Session {
    /// No file and no list yet.
    pub fn new(alloc: Global) -> Self {
        Session {
            reader: Reader::new(alloc),
            script: None,
            writer: Writer::new(alloc),
            listing: false,
            trying: true,
            sums: Sums::none(),
        }
    }

    /// A session without file and list, which tries lists over failures if this one does.
    pub fn another(&self, alloc: Global) -> Self {
        let mut session = Session::new(alloc);
        session.trying = self.trying;
        session
    }

    /// Adds the counts of another session.
    pub fn count(&mut self, other: &Session) {
        self.sums.add(&other.sums);
    }

    /// Whether a list of jobs has begun.
    pub fn is_listing(&self) -> bool {
        self.listing
    }

    // Opens a file in place of the former one.
    fn open(&mut self, alloc: Global, file: File, words: &str) -> Result<String, AllocError> {
        let by_header = file.by_header();
        if !self.trying {
            let source = file.source(&CallCount::new(alloc)?)?;
            return self.reader.open(source, by_header);
        }
        let mut script = Script::new(alloc, file)?;
        let state = self.reader.state()?;
        let source = script.file.source(&script.reads)?;
        let reply = self.reader.open(source, by_header)?;
        script.add(words, &reply, state)?;
        self.script = Some(script);
        Ok(reply)
    }

    // Opens the file that the words of a file line describe.
    fn open_words(
        &mut self,
        rt: &(impl Files + AllocGlobal),
        words: &str,
    ) -> Result<String, AllocError> {
        self.reader.close();
        self.script = None;
        match file_of(rt, self.writer.bytes(), words)? {
            Some(file) => self.open(rt.alloc(), file, words),
            None => String::from_str(rt.alloc(), "no such file"),
        }
    }

    // Makes a call, and keeps it with its reply if it is to be tried.
    fn call(&mut self, words: &str) -> Result<String, AllocError> {
        let Some(script) = &mut self.script else {
            return self.reader.answer(words);
        };
        let state = self.reader.state()?;
        let reply = self.reader.answer(words)?;
        script.add(words, &reply, state)?;
        Ok(reply)
    }

    // Runs the list of jobs that has ended, and reports its runs over other sinks.
    fn end_list(&mut self, words: &str) -> Result<String, AllocError> {
        self.listing = false;
        let mut reply = self.writer.run(words)?;
        if !self.trying {
            return Ok(reply);
        }
        if let Some(told) = self.writer.tried(&mut self.sums)? {
            write!(reply, "\n{told}")?;
        }
        Ok(reply)
    }

    // Handles a line of a list of jobs: keeps the line, or ends the list and runs it.
    fn list_on(&mut self, line: &str) -> Result<Option<String>, AllocError> {
        match line.strip_prefix("done") {
            Some(words) => Ok(Some(self.end_list(words)?)),
            None => {
                self.writer.add(line)?;
                Ok(None)
            }
        }
    }

    // Handles a line on the list of jobs run last, if it is such a line.
    fn written_line(&mut self, line: &str) -> Result<Option<String>, AllocError> {
        if let Some(words) = line.strip_prefix("again") {
            return Ok(Some(self.writer.run_again(words)?));
        }
        if let Some(words) = line.strip_prefix("written") {
            return Ok(Some(self.writer.written(words)?));
        }
        if line == "changed" {
            return Ok(Some(self.writer.changed()?));
        }
        Ok(None)
    }

    // Reports each cut of the file that the words of a line describe.
    fn cut_words(
        &mut self,
        rt: &(impl Files + AllocGlobal),
        words: &str,
    ) -> Result<String, AllocError> {
        match file_of(rt, self.writer.bytes(), words)? {
            Some(file) => cuts_text(rt.alloc(), &file),
            None => String::from_str(rt.alloc(), "no such file"),
        }
    }

    // Handles a line that opens a file, shows written bytes, writes images, or makes calls.
    fn call_line(
        &mut self,
        rt: &(impl Files + AllocGlobal),
        line: &str,
    ) -> Result<String, AllocError> {
        if let Some(words) = line.strip_prefix("file ") {
            return self.open_words(rt, words);
        }
        if let Some(words) = line.strip_prefix("cuts ") {
            return self.cut_words(rt, words);
        }
        if let Some(words) = line.strip_prefix("images ") {
            return images_text(rt.alloc(), words);
        }
        if let Some(name) = line.strip_prefix("library ") {
            return self.reader.library(name);
        }
        match self.written_line(line)? {
            Some(reply) => Ok(reply),
            None => self.call(line),
        }
    }

    // Begins a list of jobs, if a line does so. Returns whether it does.
    fn begin_list(&mut self, line: &str) -> Result<bool, AllocError> {
        match line {
            "jobs" | "jobs big" => self.writer.begin(line == "jobs big"),
            "jobs behind" => self.writer.begin_behind()?,
            _ => return Ok(false),
        }
        self.listing = true;
        Ok(true)
    }

    /// The reply to a line that opens a file, makes a call, or ends a list of jobs, which then
    /// runs. A comment, a line within a list of jobs, and `without failures` have no reply.
    pub fn reply(
        &mut self,
        rt: &(impl Files + AllocGlobal),
        line: &str,
    ) -> Result<Option<String>, AllocError> {
        if self.listing {
            return self.list_on(line);
        }
        if is_comment(line) {
            return Ok(None);
        }
        if line == WITHOUT_FAILURES {
            self.trying = false;
            return Ok(None);
        }
        if self.begin_list(line)? {
            return Ok(None);
        }
        Ok(Some(self.call_line(rt, line)?))
    }

    /// The report before a line. If the line ends the lines on a file, it covers these lines over
    /// sources that fail.
    pub fn tried_before(&mut self, line: &str) -> Result<Option<String>, AllocError> {
        if self.listing || !ends_script(line) {
            return Ok(None);
        }
        self.tried()
    }

    /// The report on the lines on the file so far over sources that fail, if there are untried
    /// lines.
    pub fn tried(&mut self) -> Result<Option<String>, AllocError> {
        match &mut self.script {
            Some(script) => script.tried(&mut self.sums),
            None => Ok(None),
        }
    }

    /// The totals of all failures, if all lists are tried.
    pub fn sums(&self, alloc: Global) -> Result<Option<String>, AllocError> {
        if !self.trying {
            return Ok(None);
        }
        Ok(Some(self.sums.text(alloc)?))
    }
}

//! Lists of jobs, and the files that they write.

use crate::job_list::{JobRun, Start, run_text};
use crate::manner::Manner;
use crate::sink_trial::tried;
use crate::sums::Sums;
use std::alloc::{AllocError, Global};
use std::fmt::Write;
use tiff_append::last_link::last_link;
use tiff_base::tags::FileKind;
use tiff_script::digits::digits_text;
use tiff_script::jobs::jobs_of;

/// A list of jobs, and the file that it wrote.
#[derive(Drop)]
pub struct Writer {
    alloc: Global,
    list: String,
    big: bool,
    // The file behind which the jobs go on, and the offset of its last link. Without one, they
    // write a new file.
    file: Vec<u8>,
    link: Option<u64>,
    // The bytes written by the run at the list's end, and the bytes written last.
    first: Vec<u8>,
    last: Vec<u8>,
}

// Appends each byte that differs from the old one, with its offset.
fn push_changes(text: &mut String, old: &[u8], new: &[u8]) -> Result<(), AllocError> {
    for (offset, (old, new)) in old.iter().zip(new).enumerate() {
        if old != new {
            write!(text, " {offset}:{new:02x}")?;
        }
    }
    Ok(())
}

// The first tag, the last tag and the field of an `extend_from_tags` line.
fn tags_and_field(line: &str) -> Option<(u16, u16, &str)> {
    let words = line.strip_prefix("extend_from_tags ")?;
    let (first, words) = words.split_once(' ')?;
    let (last, field) = words.split_once(' ')?;
    Some((first.parse::<u16>().ok()?, last.parse::<u16>().ok()?, field))
}

// Appends a step that reads the same field for each tag from `first` to `last`.
fn push_fields(text: &mut String, first: u16, last: u16, field: &str) -> Result<(), AllocError> {
    text.push_str("extend_from")?;
    for tag in first..=last {
        write!(text, " {tag}:{field}")?;
    }
    Ok(())
}

impl Writer {
    /// No list yet.
    pub fn new(alloc: Global) -> Self {
        Writer {
            alloc,
            list: String::new(alloc),
            big: false,
            file: Vec::new(alloc),
            link: None,
            first: Vec::new(alloc),
            last: Vec::new(alloc),
        }
    }

    /// Begins a list that writes a new file.
    pub fn begin(&mut self, big: bool) {
        self.list = String::new(self.alloc);
        self.big = big;
        self.file = Vec::new(self.alloc);
        self.link = None;
    }

    /// Begins a list that goes on behind the file written last. If that has no last link, the list
    /// writes a new file.
    pub fn begin_behind(&mut self) -> Result<(), AllocError> {
        self.begin(false);
        if let Ok(place) = last_link(self.alloc, &self.last) {
            self.big = place.kind == FileKind::Big;
            self.file = self.last.clone()?;
            self.link = Some(place.at);
        }
        Ok(())
    }

    // The file that the jobs of the list begin with.
    fn start(&self) -> Start<'_> {
        Start {
            big: self.big,
            file: &self.file,
            link: self.link,
        }
    }

    /// Adds a line to the list. `extend_from_tags FIRST LAST FIELD` means `extend_from` with the
    /// same field for each tag from `FIRST` to `LAST`.
    pub fn add(&mut self, line: &str) -> Result<(), AllocError> {
        match tags_and_field(line) {
            Some((first, last, field)) => push_fields(&mut self.list, first, last, field)?,
            None => self.list.push_str(line)?,
        }
        self.list.push_str("\n")
    }

    /// The bytes written last.
    pub fn bytes(&self) -> &[u8] {
        &self.last
    }

    // The result of a run: the number of bytes, and the replies to the jobs or the error of the
    // whole run.
    fn told(&mut self, run: JobRun) -> Result<String, AllocError> {
        let JobRun {
            text,
            handed_back,
            recorded,
        } = run;
        let Some(bytes) = handed_back else {
            let len = recorded.len;
            return format!(in self.alloc; "{len} bytes, {text}");
        };
        self.last = bytes;
        let len = self.last.len();
        let told = format!(in self.alloc; "{len} bytes\n{text}")?;
        String::from_str(self.alloc, told.as_str().trim_end())
    }

    /// Runs the list over a sink that the words describe.
    pub fn run_again(&mut self, words: &str) -> Result<String, AllocError> {
        self.last = Vec::new(self.alloc);
        let Some(manner) = Manner::of_words(words) else {
            return String::from_str(self.alloc, "no such sink");
        };
        match run_text(self.alloc, self.start(), &self.list, manner)? {
            Ok(run) => self.told(run),
            Err(number) => format!(in self.alloc; "line {number} is no job"),
        }
    }

    /// Runs the list that has ended, over a sink that the words describe.
    pub fn run(&mut self, words: &str) -> Result<String, AllocError> {
        let reply = self.run_again(words)?;
        self.first = self.last.clone()?;
        Ok(reply)
    }

    /// The report on the list over sinks that take fewer bytes than offered, and over sinks that
    /// fail, if each of its lines is a job.
    pub fn tried(&self, sums: &mut Sums) -> Result<Option<String>, AllocError> {
        match jobs_of(self.alloc, &self.list)? {
            Ok(jobs) => Ok(Some(tried(self.alloc, self.start(), &self.list, &jobs, sums)?)),
            Err(_) => Ok(None),
        }
    }

    /// The hexadecimal digits of the bytes written last, or of a number of bytes from an offset on.
    pub fn written(&self, words: &str) -> Result<String, AllocError> {
        if words.is_empty() {
            return digits_text(self.alloc, &self.last);
        }
        match self.part(words) {
            Some(part) => digits_text(self.alloc, part),
            None => String::from_str(self.alloc, "no such bytes"),
        }
    }

    // A number of bytes from an offset on.
    fn part(&self, words: &str) -> Option<&[u8]> {
        let (offset, len) = words.strip_prefix(" ")?.split_once(' ')?;
        let offset = offset.parse::<usize>().ok()?;
        let end = offset.checked_add(len.parse::<usize>().ok()?)?;
        self.last.get(offset..end)
    }

    /// The number of bytes written last, and the bytes that differ from those written at the list's
    /// end, each with its offset.
    pub fn changed(&self) -> Result<String, AllocError> {
        let len = self.last.len();
        let mut text = format!(in self.alloc; "{len} bytes")?;
        push_changes(&mut text, &self.first, &self.last)?;
        Ok(text)
    }
}

//! A file that is cut after each of its bytes.

use crate::file_line::File;
use crate::ranges::Ranges;
use crate::reader::Reader;
use crate::source::ScriptedSource;
use std::alloc::{AllocError, Global};
use std::fmt::Write;

// The calls on each cut file that opens.
const CALLS: [&str; 5] = [
    "dimensions",
    "next_image",
    "ifd_pointer",
    "more_images",
    "check",
];

// The replies for the first `len` bytes of a file.
fn reply_of(alloc: Global, file: &File, len: usize) -> Result<String, AllocError> {
    let mut reader = Reader::new(alloc);
    let source = ScriptedSource::of_bytes(file.cut_to(len)?)?;
    let mut text = reader.open(source, file.by_header())?;
    if text.as_str() != "opened" {
        return Ok(text);
    }
    for words in CALLS {
        let reply = reader.answer(words)?;
        write!(text, "; {words} {reply}")?;
    }
    Ok(text)
}

/// The number of bytes of a file, and the replies where the file is cut after each byte: one line
/// for each range of lengths with the same reply.
pub fn cuts_text(alloc: Global, file: &File) -> Result<String, AllocError> {
    let len = file.len();
    let mut ranges = Ranges::new(alloc, format!(in alloc; "{len} bytes")?);
    for len in 0..=file.len() {
        ranges.add(len, reply_of(alloc, file, len)?)?;
    }
    ranges.into_lines(len.saturating_add(1))
}

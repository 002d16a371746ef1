//! A decoder of a file, and the replies to its calls as text.

use crate::library::{library_text, library_text_on};
use crate::source::ScriptedSource;
use std::alloc::{AllocError, Global};
use std::boxed::Box;
use std::fmt::Write;
use tiff_base::error::TiffResult;
use tiff_decode::decoder::Decoder;
use tiff_decode::reply::{refusal_text, reply_text};
use tiff_decode::script::Call;
use tiff_pages::lines::{Lines, check_lines, list_lines};
use tiff_script::call::call_of;

/// The decoder of the file opened last, if it opened.
#[derive(Drop)]
pub struct Reader {
    alloc: Global,
    decoder: Option<Box<Decoder<ScriptedSource>>>,
}

// The calls that read nothing.
const STATE: [&str; 7] = [
    "ifd_pointer",
    "more_images",
    "dimensions",
    "colortype",
    "get_chunk_type",
    "chunk_dimensions",
    "byte_order",
];

// A decoder of a source, at its first page, or before it.
fn decoder_of(
    alloc: Global,
    source: ScriptedSource,
    by_header: bool,
) -> TiffResult<Box<Decoder<ScriptedSource>>> {
    let decoder = if by_header {
        Decoder::open(alloc, source)?
    } else {
        Decoder::new(alloc, source)?
    };
    Ok(Box::new(alloc, decoder)?)
}

// The lines of the pages of a decoder's file, separated by ` | ` on one line, and after them the
// error that ends the chain.
fn pages_text(
    alloc: Global,
    decoder: &mut Decoder<ScriptedSource>,
    checks: bool,
) -> Result<String, AllocError> {
    let lines = if checks {
        check_lines(alloc, decoder)
    } else {
        list_lines(alloc, decoder)
    };
    let Lines { text, end, well } = match lines {
        Ok(lines) => lines,
        Err(fault) => return refusal_text(alloc, &fault),
    };
    let mut told = String::new(alloc);
    for line in text.as_str().lines() {
        told.push_str(line)?;
        told.push_str(" | ")?;
    }
    match end {
        Some(fault) => write!(told, "error: {fault}")?,
        None => told.push_str(if well { "end" } else { "end, not well" })?,
    }
    Ok(told)
}

/// Whether the words ask for the pages of a file, and aren't a call.
pub fn tells_of_pages(words: &str) -> bool {
    words == "list" || words == "check"
}

impl Reader {
    /// No file is open yet.
    pub fn new(alloc: Global) -> Self {
        Reader {
            alloc,
            decoder: None,
        }
    }

    /// Closes the file.
    pub fn close(&mut self) {
        self.decoder = None;
    }

    /// Opens a source in place of the former one, at its first page, or by its header alone.
    pub fn open(&mut self, source: ScriptedSource, by_header: bool) -> Result<String, AllocError> {
        self.decoder = None;
        match decoder_of(self.alloc, source, by_header) {
            Ok(decoder) => {
                self.decoder = Some(decoder);
                String::from_str(self.alloc, "opened")
            }
            Err(fault) => refusal_text(self.alloc, &fault),
        }
    }

    // Makes a call.
    fn make(&mut self, call: &Call) -> Result<String, AllocError> {
        match &mut self.decoder {
            Some(decoder) => reply_text(decoder, call),
            None => String::from_str(self.alloc, "no file"),
        }
    }

    // The lines of the pages of the file: what the pages are, or, if `checks` is true, the result
    // of reading them.
    fn pages(&mut self, checks: bool) -> Result<String, AllocError> {
        match &mut self.decoder {
            Some(decoder) => pages_text(self.alloc, decoder, checks),
            None => String::from_str(self.alloc, "no file"),
        }
    }

    // The bytes of the file that the decoder asked for since it opened.
    fn asked(&self) -> Result<String, AllocError> {
        match &self.decoder {
            Some(decoder) => decoder.inner().asked_text(self.alloc),
            None => String::from_str(self.alloc, "no file"),
        }
    }

    /// Makes the call that the words describe, or lists the bytes of the file that the decoder
    /// asked for.
    pub fn answer(&mut self, words: &str) -> Result<String, AllocError> {
        if words == "asked" {
            return self.asked();
        }
        if tells_of_pages(words) {
            return self.pages(words == "check");
        }
        match call_of(self.alloc, words)? {
            Some(call) => self.make(&call),
            None => String::from_str(self.alloc, "no such call"),
        }
    }

    /// Makes the calls of the library with this name, some of which need an open file.
    pub fn library(&mut self, name: &str) -> Result<String, AllocError> {
        match &mut self.decoder {
            Some(decoder) => library_text_on(self.alloc, decoder, name),
            None => library_text(self.alloc, name),
        }
    }

    /// The state of the decoder: the replies to the calls that read nothing.
    pub fn state(&mut self) -> Result<String, AllocError> {
        let mut text = String::new(self.alloc);
        for words in STATE {
            let reply = self.answer(words)?;
            write!(text, "{reply}; ")?;
        }
        Ok(text)
    }
}

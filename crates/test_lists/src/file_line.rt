//! The words of a file line.

ghost use Rattle.std.specs.Prelude.{◌≤◌, IfOk, IfSome};

use crate::call_count::CallCount;
use crate::chain::chain_of;
use crate::failure::Failure;
use crate::source::ScriptedSource;
use std::alloc::{AllocError, Global};
use std::fs;
use std::io::ErrorKind;
use std::rt::Files;
use tiff_script::digits::bytes_of;

/// A file that the words of a line describe.
#[derive(Drop)]
pub struct File {
    alloc: Global,
    bytes: Vec<u8>,
    bytewise: bool,
    failure: Failure,
    // Whether it is opened by its header alone, before its first page.
    by_header: bool,
}

/// The bytes of the file with this name, if it exists.
pub fn bytes_read(
    rt: &(impl Files + AllocGlobal),
    name: &str,
) -> Result<Option<Vec<u8>>, AllocError> {
    match fs::read(rt, name) {
        Ok(bytes) => Ok(Some(bytes)),
        Err(fault) => match fault.kind() {
            ErrorKind::OutOfMemory => Err(AllocError),
            _ => Ok(None),
        },
    }
}

// The bytes of the file with this name, the bytes written last, the bytes of a chain of pages, or
// the bytes that hexadecimal digits give.
fn bytes_named(
    rt: &(impl Files + AllocGlobal),
    written: &[u8],
    source: &str,
) -> Result<Option<Vec<u8>>, AllocError> {
    if source == "written" {
        return Ok(Some(written.to_vec(rt.alloc())?));
    }
    if source.ends_with(".tif") {
        return bytes_read(rt, source);
    }
    if let Some(count) = source.strip_prefix("chain:") {
        return match count.parse::<u32>() {
            Ok(count) => chain_of(rt.alloc(), count),
            Err(_) => Ok(None),
        };
    }
    bytes_of(rt.alloc(), source)
}

impl File {
    // Overwrites the bytes from an offset on, up to the end of the file at most.
    fn put(&mut self, offset: &str, digits: &str) -> Result<bool, AllocError> {
        let (Ok(offset), Some(over)) = (offset.parse::<usize>(), bytes_of(self.alloc, digits)?)
        else {
            return Ok(false);
        };
        if offset < self.bytes.len() {
            let under = &mut self.bytes[offset..];
            let len = under.len().min(over.len());
            under[..len].copy_from_slice(&over[..len]);
        }
        Ok(true)
    }

    // Keeps only the first bytes.
    fn cut(&mut self, len: &str) -> bool {
        match len.parse::<usize>() {
            Ok(len) => {
                self.bytes.truncate(len);
                true
            }
            Err(_) => false,
        }
    }

    // Appends bytes.
    fn add(&mut self, digits: &str) -> Result<bool, AllocError> {
        match bytes_of(self.alloc, digits)? {
            Some(bytes) => {
                self.bytes.extend_from_slice(&bytes)?;
                Ok(true)
            }
            None => Ok(false),
        }
    }

    // Makes one read fail, counted from 1.
    fn fail(&mut self, read: &str) -> bool {
        match read.parse::<u64>() {
            Ok(read) if read > 0 => {
                self.failure = Failure::Behind(read - 1);
                true
            }
            _ => false,
        }
    }

    // Follows the first word and its arguments. Returns the number of words used, or `None` if the
    // first word is unknown.
    fn follow(&mut self, words: &[&str]) -> Result<Option<usize>, AllocError>
        ensures { IfOk result (λ taken. IfSome taken (λ n. n ≤ 3)) }
    {
        let (known, taken) = match words {
            ["bytewise", ..] => {
                self.bytewise = true;
                (true, 1)
            }
            ["by_header", ..] => {
                self.by_header = true;
                (true, 1)
            }
            ["fails", read, ..] => (self.fail(read), 2),
            ["cut", len, ..] => (self.cut(len), 2),
            ["add", digits, ..] => (self.add(digits)?, 2),
            ["at", offset, digits, ..] => (self.put(offset, digits)?, 3),
            _ => (false, 0),
        };
        Ok(known.then_some(taken))
    }

    // Follows all words. Returns whether all are known.
    fn follow_all(&mut self, words: &[&str]) -> Result<bool, AllocError> {
        let mut next = 0;
        for _ in words {
            if next >= words.len() {
                break;
            }
            match self.follow(&words[next..])? {
                Some(taken) => next += taken,
                None => return Ok(false),
            }
        }
        Ok(true)
    }
}

impl File {
    /// Whether the file is opened by its header alone.
    pub fn by_header(&self) -> bool {
        self.by_header
    }

    /// The source of the file, which counts its reads.
    pub fn source(&self, reads: &CallCount) -> Result<ScriptedSource, AllocError> {
        self.source_of(self.bytewise, self.failure, reads)
    }

    /// A source of the file's bytes that counts its reads. It gives one byte per read if `bytewise`
    /// is true, and fails as `failure` says.
    pub fn source_of(
        &self,
        bytewise: bool,
        failure: Failure,
        reads: &CallCount,
    ) -> Result<ScriptedSource, AllocError> {
        let bytes = self.bytes.clone()?;
        ScriptedSource::new(bytes, bytewise, failure, reads.shared()?)
    }

    /// Whether the source gives one byte per read.
    pub fn is_bytewise(&self) -> bool {
        self.bytewise
    }

    /// Whether a read of the source fails.
    pub fn fails(&self) -> bool {
        !matches!(self.failure, Failure::Never)
    }

    /// The number of bytes.
    pub fn len(&self) -> usize {
        self.bytes.len()
    }

    /// The first `len` bytes.
    pub fn cut_to(&self, len: usize) -> Result<Vec<u8>, AllocError> {
        let len = len.min(self.bytes.len());
        self.bytes[..len].to_vec(self.alloc)
    }
}

/// The file that the words of a line describe, if they describe one. `written` are the bytes
/// written last.
pub fn file_of(
    rt: &(impl Files + AllocGlobal),
    written: &[u8],
    line: &str,
) -> Result<Option<File>, AllocError> {
    let words: Vec<&str> = line.split(' ').collect(rt.alloc())?;
    let [source, rest @ ..] = words.as_slice() else {
        return Ok(None);
    };
    let Some(bytes) = bytes_named(rt, written, source)? else {
        return Ok(None);
    };
    let mut file = File {
        alloc: rt.alloc(),
        bytes,
        bytewise: false,
        failure: Failure::Never,
        by_header: false,
    };
    let known = file.follow_all(rest)?;
    Ok(known.then_some(file))
}

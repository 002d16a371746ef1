//! The record of a sink, which the sink and its observers share.

use std::alloc::{AllocError, Global};
use std::cell::RefCell;
use std::mem;
use std::rc::Rc;

/// Bytes written from offset `at` on.
#[derive(Drop)]
pub struct Written {
    pub at: usize,
    pub bytes: Vec<u8>,
}

/// What a record keeps besides the number of calls and the number of bytes.
#[derive(Clone, Copy, Drop)]
pub enum Kept {
    Counts,
    /// The file that the writes make.
    File,
    /// The file, and each write.
    Writes,
}

/// The number of calls of a sink, the number of its bytes, its writes in their order, and the file
/// that these make. The writes and the file are kept as `kept` says.
#[derive(Drop)]
pub struct Recorded {
    pub calls: u64,
    pub len: u64,
    pub writes: Vec<Written>,
    pub file: Vec<u8>,
    kept: Kept,
}

impl Recorded {
    // No call yet, of a sink that has a file.
    fn none(alloc: Global, kept: Kept, file: Vec<u8>) -> Self {
        Recorded {
            calls: 0,
            len: file.len() as u64,
            writes: Vec::new(alloc),
            file,
            kept,
        }
    }

    // Records bytes that were written.
    fn write(&mut self, alloc: Global, at: usize, bytes: &[u8]) -> Result<(), AllocError> {
        if !matches!(self.kept, Kept::Counts) {
            put(&mut self.file, at, bytes)?;
        }
        if matches!(self.kept, Kept::Writes) {
            let bytes = bytes.to_vec(alloc)?;
            self.writes.push(Written { at, bytes })?;
        }
        Ok(())
    }
}

/// Writes bytes over those of a file, or appends them.
pub fn put(file: &mut Vec<u8>, at: usize, bytes: &[u8]) -> Result<(), AllocError> {
    if at >= file.len() {
        return file.extend_from_slice(bytes);
    }
    let under = &mut file[at..];
    let len = under.len().min(bytes.len());
    under[..len].copy_from_slice(&bytes[..len]);
    Ok(())
}

/// The record of a sink. The sink and its observers share it.
#[derive(Drop)]
pub struct Record {
    alloc: Global,
    shared: Rc<RefCell<Recorded>>,
}

impl Record {
    /// A record without calls, of a sink that has a file.
    pub fn new(alloc: Global, kept: Kept, file: &[u8]) -> Result<Self, AllocError> {
        let recorded = Recorded::none(alloc, kept, file.to_vec(alloc)?);
        let shared = Rc::new(alloc, RefCell::new(recorded))?;
        Ok(Record { alloc, shared })
    }

    /// Another handle to the same record.
    pub fn shared(&self) -> Result<Self, AllocError> {
        Ok(Record {
            alloc: self.alloc,
            shared: self.shared.clone()?,
        })
    }

    /// Counts one more call.
    pub fn call(&self) {
        if let Ok(mut recorded) = self.shared.try_borrow_mut() {
            let recorded = &mut *recorded;
            recorded.calls = recorded.calls.saturating_add(1);
        }
    }

    /// Records written bytes. If there is no memory for them, only their number is recorded.
    pub fn write(&self, at: u64, bytes: &[u8]) {
        if let Ok(mut recorded) = self.shared.try_borrow_mut() {
            let recorded = &mut *recorded;
            let end = at.saturating_add(bytes.len() as u64);
            recorded.len = recorded.len.max(end);
            let _ = recorded.write(self.alloc, at as usize, bytes);
        }
    }

    /// Takes out the record so far.
    pub fn take(&self) -> Recorded {
        let none = Recorded::none(self.alloc, Kept::Counts, Vec::new(self.alloc));
        match self.shared.try_borrow_mut() {
            Ok(mut recorded) => mem::replace(&mut *recorded, none),
            Err(_) => none,
        }
    }
}

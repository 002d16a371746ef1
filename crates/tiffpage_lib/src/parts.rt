//! Parts of files, read until a question about the file has its answer: so a file is read of which
//! most bytes aren't needed.

ghost use Rattle.std.specs.Prelude.{◌≡◌, ◌+◌, ◌-◌, ◌<◌, ◌≤◌, ℕ, List, Result, [], IfErr, IfOk, MatchResult, OnOk, Ok, Err, length, map, slice_index_or};
ghost use Rattle.std.specs.List.{insert};
ghost use Rattle.tiff_base.specs.Windows.{AreWindowsOf, IsWanted, file_of};
ghost use Rattle.tiff_base.specs.declared.error.TiffError.{TiffError};
ghost use Rattle.tiff_base.specs.declared.error.TiffError.TheVariants.{OutOfMemory};
ghost use Rattle.tiffpage_lib.specs.declared.parts.Part.{Part};
ghost use Rattle.tiffpage_lib.specs.Parts.{AreInOrder, FetchFails, Fetches, IsWantedOf, SeesBy, pieces, seen_piece, windows_of};

use crate::failure::Failure;
use crate::files::Files;
use crate::links::follow_links;
use std::alloc::{AllocError, Global};
use std::marker::Brand;
use tiff::{TiffError, TiffResult};
use tiff_base::windows::{OrderedWindows, SeenFile, Stretch, Window, Windows};

/// A question about a file, to which windows of it may give the answer.
pub(crate) trait Question {
    type Answer;

    /// Which answers a file may have.
    ghost may: { Self → List ℕ → Result Self.Answer TiffError → Type 0 };

    /// The answer, or the bytes that are wanted for it. There is a file that the windows are of.
    fn ask<S: SeenFile>(
        &self,
        alloc: Global,
        seen: &OrderedWindows<'_>,
    ) -> Result<TiffResult<Self::Answer>, Stretch>
        requires { (file : List ℕ) → AreWindowsOf (file_of file seen.now.seen) seen.now.seen }
        ensures { MatchResult result
            (λ answer. AreWindowsOf S.bytes seen.now.seen → may self.now S.bytes answer)
            (IsWanted seen.now.seen) };

    /// Whether the answer wants all directories of the file's chain.
    fn wants_chain(&self) -> bool;

    /// Memory may be out.
    ghost memory: { (question : Self) (file : List ℕ) → may question file (Err OutOfMemory) };
}

// A part of a file: its offset, and its bytes.
#[derive(Drop)]
struct Part {
    offset: u64,
    bytes: Vec<u8>,
}

// How many parts in front begin at an offset or before it.
fn count_until(parts: &[Part], at: u64) -> usize
    ensures within { result ≤ length parts.now }
    ensures front { (k : ℕ) (d : Part) → k < result → (slice_index_or parts.now k d).offset ≤ at }
    ensures next { (d : Part) → result < length parts.now → at < (slice_index_or parts.now result d).offset }
{
    for (i, part) in parts.iter().enumerate() {
        if part.offset > at {
            return i;
        }
    }
    parts.len()
}

// Parts as windows.
fn windows_of<'a>(alloc: Global, parts: &'a [Part]) -> Result<Vec<Window<'a>>, AllocError>
    ensures { IfOk result (λ windows. map seen_piece windows.items ≡ pieces parts.now) }
{
    let mut windows = Vec::new(alloc);
    for part in parts {
        windows.push(Window {
            offset: part.offset,
            bytes: &part.bytes,
        })?;
    }
    Ok(windows)
}

// The answer to a question about a file of which these are windows, or the bytes that are wanted
// for it. `at` is the offset of the directory up to which links were followed.
fn ask_seen<Q: Question, S: SeenFile>(
    alloc: Global,
    question: &Q,
    seen: &OrderedWindows<'_>,
    at: &mut u64,
) -> Result<TiffResult<Q::Answer>, Stretch>
    requires { (file : List ℕ) → AreWindowsOf (file_of file seen.now.seen) seen.now.seen }
    ensures { MatchResult result
        (λ answer. AreWindowsOf S.bytes seen.now.seen → Q.may question.now S.bytes answer)
        (IsWanted seen.now.seen) }
{
    if question.wants_chain()
        && let Some(wanted) = follow_links::<Brand>(seen, at)
    {
        return Err(wanted);
    }
    question.ask::<S>(alloc, seen)
}

// The answer to a question about a file of `len` bytes of which these are parts, or the bytes that
// are wanted for it.
fn ask<Q: Question, S: SeenFile>(
    alloc: Global,
    question: &Q,
    len: u64,
    parts: &[Part],
    at: &mut u64,
) -> Result<TiffResult<Q::Answer>, Stretch>
    requires { AreInOrder len 0 (pieces parts.now) }
    ensures { MatchResult result (λ answer. AreWindowsOf S.bytes (windows_of len (pieces parts.now))
        → Q.may question.now S.bytes answer) (IsWantedOf len (pieces parts.now)) }
{
    let windows = match windows_of(alloc, parts) {
        Ok(windows) => windows,
        Err(_) => return Ok(Err(TiffError::OutOfMemory)),
    };
    let seen = Windows {
        len,
        windows: &windows,
    };
    match seen.in_order() {
        Some(seen) => ask_seen::<Q, S>(alloc, question, &seen, at),
        None => unreachable!(),
    }
}

// The fewest bytes that are read at a time, as far as the file has them. 10,000 directories that
// lie apart take 40 MB.
const LEAST: u64 = 4_096;

// The most bytes that are read at a time, unless more are wanted. As a part that goes on is twice
// as long as the last, a page in one piece takes some fifteen reads.
const MOST: u64 = 67_108_864;

// The parts of a file that were read, in order; and of the one that was read last, the offset
// behind it, and its number of bytes.
#[derive(Drop)]
struct Parts {
    len: u64,
    list: Vec<Part>,
    end: u64,
    last: u64,
}

// Reads a part of a file.
fn read_part<'a, F: Files>(
    files: &mut F,
    name: &'a str,
    at: u64,
    len: u64,
) -> Result<Part, Failure<'a>>
    ensures part { IfOk result (λ p. (p.offset ≡ at) × (length p.bytes.items ≡ len)
        × F.reads_part files.old name.now at len (Ok p.bytes.items) files.new) }
    ensures refused { IfErr result (λ e. FetchFails F.reads_part name.entry files.old e files.new) }
{
    match files.read_at(name, at, len) {
        Ok(bytes) => Ok(Part { offset: at, bytes }),
        Err(TiffError::OutOfMemory) => Err(Failure::Tiff(TiffError::OutOfMemory)),
        Err(_) => Err(Failure::Read(name)),
    }
}

impl Parts {
    // No parts of a file of `len` bytes.
    fn new(alloc: Global, len: u64) -> Self
        ensures len { result.len ≡ len }
        ensures none { result.list.items ≡ [] }
    {
        Parts {
            len,
            list: Vec::new(alloc),
            end: 0,
            last: 0,
        }
    }

    // How many bytes are read at an offset where fewer are wanted: twice as many as last time, if
    // it goes on there, and the fewest if not.
    fn step_at(&self, at: u64) -> u64 {
        if at >= self.end && at - self.end <= LEAST {
            self.last.saturating_mul(2).max(LEAST).min(MOST)
        } else {
            LEAST
        }
    }

    // How many bytes are read where some are wanted, in front of the part with an index.
    fn size_at(&self, wanted: Stretch, index: usize) -> u64
        requires within { wanted.offset < self.now.len }
        requires next { (d : Part) → index < length self.now.list.items
            → wanted.offset < (slice_index_or self.now.list.items index d).offset }
        ensures some { 0 < result }
        ensures fits { wanted.offset + result ≤ self.now.len }
        ensures before { (d : Part) → index < length self.now.list.items
            → wanted.offset + result ≤ (slice_index_or self.now.list.items index d).offset }
    {
        let end = match self.list.get(index) {
            Some(next) => next.offset.min(self.len),
            None => self.len,
        };
        let step = self.step_at(wanted.offset);
        wanted.len.max(step).max(1).min(end - wanted.offset)
    }

    // Notes that a part of so many bytes was read last, up to an offset.
    fn note(&mut self, end: u64, size: u64)
        ensures list { self.new.list ≡ self.old.list }
        ensures len { self.new.len ≡ self.old.len }
    {
        self.end = end;
        self.last = size;
    }

    // Reads a part of the file that begins where bytes are wanted.
    fn fetch<'a, F: Files>(
        &mut self,
        name: &'a str,
        wanted: Stretch,
        files: &mut F,
    ) -> Result<(), Failure<'a>>
        requires order { AreInOrder self.old.len 0 (pieces self.old.list.items) }
        requires wanted { IsWantedOf self.old.len (pieces self.old.list.items) wanted }
        ensures fetched { OnOk result (Fetches F.reads_part name.now (pieces self.old.list.items)
            files.old (pieces self.new.list.items) files.new) }
        ensures order { OnOk result (AreInOrder self.new.len 0 (pieces self.new.list.items)) }
        ensures len { OnOk result (self.new.len ≡ self.old.len) }
        ensures refused { IfErr result (λ e. FetchFails F.reads_part name.entry files.old e files.new) }
    {
        let index = count_until(&self.list, wanted.offset);
        let size = self.size_at(wanted, index);
        let part = read_part(files, name, wanted.offset, size)?;
        if self.list.insert(index, part).is_err() {
            return Err(Failure::Tiff(TiffError::OutOfMemory));
        }
        self.note(wanted.offset + size, size);
        Ok(())
    }
}

/// The answer to a question about a file of `len` bytes, of which parts are read until the answer
/// is known.
pub(crate) fn answer_by_parts<'a, Q: Question, S: SeenFile, F: Files>(
    alloc: Global,
    question: &Q,
    name: &'a str,
    len: u64,
    files: &mut F,
) -> Result<Q::Answer, Failure<'a>>
    ensures { SeesBy F.reads_part name.entry len S.bytes (Q.may question.now S.bytes) files.old result
        files.new }
{
    let mut parts = Parts::new(alloc, len);
    let mut at = 0;
    // Windows can't grow under a decoder, so behind each part the question is asked anew.
    'asking: loop {
        match ask::<Q, S>(alloc, question, len, &parts.list, &mut at) {
            Ok(answer) => return Ok(answer?),
            Err(wanted) => parts.fetch(name, wanted, files)?,
        }
    }
}

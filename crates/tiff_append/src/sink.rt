//! A sink that goes on behind a file.

ghost use Rattle.std.specs.Prelude.{◌≡◌, ◌+◌, ◌^◌, ◌≤◌, ◌<◌, ◌++◌, length, IfErr, IfOk, IfSome, OnErr, OnOk};
ghost use Rattle.tiff_base.specs.SourceAndSink.{put};

use crate::failed_writes::FailedWrites;
use crate::source::AddedSource;
use std::alloc::Global;
use tiff_base::error::{TiffError, TiffResult};
use tiff_base::io::{ByteRun, IoKind, Sink, SinkFault};

/// What is written behind a file: the new bytes of its last link, and the bytes behind the file.
#[derive(Drop)]
pub struct Addition {
    pub link: Vec<u8>,
    pub more: Vec<u8>,
}

/// A sink in memory that contains a file and what is appended behind it. The file is lent, and is
/// neither copied nor changed: of its bytes the sink overwrites one link alone, whose new bytes it
/// stores, and it refuses to overwrite any other of them.
#[derive(Drop)]
pub struct BehindSink<'a> {
    file: &'a [u8],
    at: usize,
    link: Vec<u8>,
    more: Vec<u8>,
    failed: FailedWrites,
    ghost within: { at + length link.items ≤ length file.now },
    ghost short: { length file.now + length more.items < 2 ^ 63 },
}

/// The largest number of bytes that a sink can contain.
pub const MAX_LEN: u64 = (1 << 63) - 1;

/// Appends bytes to a list. Its only error is `OutOfMemory`, and leaves the list as it was.
pub fn grow(items: &mut Vec<u8>, bytes: &[u8]) -> Result<(), SinkFault>
    ensures ok { OnOk result (items.new.items ≡ items.old.items ++ bytes.now) }
    ensures err { IfErr result (λ e. (e ≡ SinkFault.OutOfMemory)
        × (items.new.items ≡ items.old.items)) }
{
    if items.extend_from_slice(bytes).is_err() {
        return Err(SinkFault::OutOfMemory);
    }
    Ok(())
}

/// Overwrites bytes of a list, which has as many there.
pub fn overwrite_in(items: &mut Vec<u8>, from: usize, bytes: &[u8])
    requires { from + length bytes.now ≤ length items.old.items }
    ensures bytes { items.new.items ≡ put items.old.items from bytes.now }
    ensures len { length items.new.items ≡ length items.old.items }
{
    items[from..from + bytes.len()].copy_from_slice(bytes);
}

impl<'a> BehindSink<'a> {
    ghost use Rattle.tiff_base.specs.SourceAndSink.{Appends, Overwrites};
    ghost use Rattle.tiff_append.specs.Behind.{IsAddedTo, RefusesLink, behind_contents};
    ghost use Rattle.tiff_append.specs.Source.{added_bytes};

    /// Makes a sink that contains a file, of which the `size` bytes at an offset are the link that
    /// it overwrites. Errors: `IoError(InvalidInput)` if the link isn't within the file;
    /// `OutOfMemory`.
    #[tactic(auto, using(crate::specs::lemmas::Behind::first_added))]
    pub fn new(alloc: Global, file: &'a [u8], at: usize, size: usize) -> TiffResult<Self>
        ensures contents { IfOk result (λ s. behind_contents s ≡ file.now) }
        ensures within { IfOk result (λ _. at + size ≤ length file.now) }
        ensures err { IfErr result (RefusesLink (length file.now) at size) }
    {
        if file.len() < at || file.len() - at < size {
            return Err(TiffError::IoError(IoKind::InvalidInput));
        }
        let mut link = Vec::new(alloc);
        if grow(&mut link, &file[at..at + size]).is_err() {
            return Err(TiffError::OutOfMemory);
        }
        Ok(BehindSink {
            file,
            at,
            link,
            more: Vec::new(alloc),
            failed: FailedWrites::none(),
        })
    }

    /// Returns what was written behind the file, if the file has `len` bytes and its link is the
    /// `size` bytes at this offset.
    pub fn into_addition(self, len: usize, at: usize, size: usize) -> Option<Addition>
        ensures { IfSome result (λ a. IsAddedTo (behind_contents self.entry) len at size a) }
    {
        let BehindSink {
            file,
            at: place,
            link,
            more,
            failed: _,
        } = self;
        if file.len() != len || place != at || link.len() != size {
            return None;
        }
        Some(Addition { link, more })
    }

    /// A source of the bytes of the sink, which lends them.
    pub fn source(&self) -> AddedSource<'_>
        ensures { added_bytes result ≡ behind_contents self.now }
    {
        AddedSource::new(self.file, self.at, &self.link, &self.more)
    }

    // Appends bytes behind the file.
    fn add(&mut self, bytes: &[u8]) -> Result<usize, SinkFault>
        ensures ok { IfOk result (λ n. Appends (behind_contents self.old) bytes.now n (behind_contents self.new)) }
        ensures err { OnErr result (behind_contents self.new ≡ behind_contents self.old) }
        ensures failed { self.new.failed ≡ self.old.failed }
    {
        // `self.len()` would be the call of a borrowed sink, which has all calls of this one.
        if bytes.len() as u64 > MAX_LEN - Self::len(self) {
            return Err(SinkFault::Device);
        }
        grow(&mut self.more, bytes)?;
        Ok(bytes.len())
    }

    // Overwrites the front of the link, or bytes behind the file.
    fn change(&mut self, at: u64, bytes: &[u8]) -> Result<usize, SinkFault>
        requires { at + length bytes.now ≤ length (behind_contents self.old) }
        ensures ok { IfOk result (λ n. Overwrites (behind_contents self.old) at bytes.now n (behind_contents self.new)) }
        ensures err { OnErr result (behind_contents self.new ≡ behind_contents self.old) }
        ensures failed { self.new.failed ≡ self.old.failed }
    {
        let len = self.file.len() as u64;
        if at >= len {
            overwrite_in(&mut self.more, (at - len) as usize, bytes);
            return Ok(bytes.len());
        }
        if at == self.at as u64 && bytes.len() <= self.link.len() {
            overwrite_in(&mut self.link, 0, bytes);
            return Ok(bytes.len());
        }
        Err(SinkFault::Device)
    }
}

impl Sink for BehindSink<'_> {
    ghost use Rattle.std.proofs.Common.{arith, length-append};
    ghost use Rattle.tiff_base.specs.SourceAndSink.{put};
    ghost use Rattle.tiff_base.specs.lemmas.Slices.{length_put};
    ghost use Rattle.tiff_append.specs.Behind.{behind_contents};

    ghost contents = { behind_contents };

    ghost failures = { λ s. length s.failed.writes };

    ghost fault = { λ s. s.failed.last };

    ghost short = { λ s. Prim.omega (
      arith,
      length-append (put s.file.now s.at s.link.items) s.more.items,
      length_put s.file.now s.at s.link.items s.within,
      s.short,
    ) };

    fn len(&self) -> u64 {
        self.file.len() as u64 + self.more.len() as u64
    }

    fn append(&mut self, bytes: &[u8]) -> Result<usize, SinkFault> {
        let answer = self.add(bytes);
        self.failed.note(answer)
    }

    fn reserve(&mut self, len: u64) {
        // Where there is no room, each call that appends asks again, and says so.
        let _full = self.more.reserve(len as usize).is_err();
    }

    fn append_run<B: ByteRun>(&mut self, run: &B) -> Option<Result<usize, SinkFault>> {
        let len = run.len()?;
        if len as u64 > MAX_LEN - Self::len(self) {
            return None;
        }
        let answer = match run.push_to(&mut self.more) {
            Ok(()) => Ok(len),
            Err(_) => Err(SinkFault::OutOfMemory),
        };
        Some(self.failed.note(answer))
    }

    fn overwrite(&mut self, at: u64, bytes: &[u8]) -> Result<usize, SinkFault> {
        let answer = self.change(at, bytes);
        self.failed.note(answer)
    }
}

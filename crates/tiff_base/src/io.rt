//! Sources that bytes come from, and sinks that bytes go to.

ghost use Rattle.std.specs.Prelude.{◌≡◌, ℕ, ◌+◌, ◌^◌, ◌≤◌, ◌<◌, ◌++◌, List, [], ◌∷◌, length, Option, None, Some, IfErr, IfOk, IfSome, IsOk, OnOk, OnErr, take, true};
ghost use Rattle.tiff_base.specs.SourceAndSink.{AreOctets, AreReadable, SourceRecord, bytes_at, HoldsByte, Reads, Appends, AppendsRun, Overwrites};
ghost use Rattle.tiff_base.specs.declared.io.SinkFault.{SinkFault};
ghost use Rattle.tiff_base.specs.declared.io.TheConstants.{BUFFER_LEN};

use crate::count::Count;
use std::alloc::{AllocError, Global};
use std::fmt;
use thiserror::Error;

// The number of bytes in the buffer of a source.
const BUFFER_LEN: usize = 8192;

/// The errors of input and output.
#[derive(Clone, Copy, Debug, PartialEq, Eq, Error)]
pub enum IoKind {
    /// The source ends before the bytes that a call asks for.
    #[error("unexpected end of file")]
    UnexpectedEof,
    /// The caller passes too few or too many samples.
    #[error("invalid data")]
    InvalidData,
    /// An argument has a value that no file can have.
    #[error("invalid input")]
    InvalidInput,
    /// There are no bytes to write.
    #[error("write zero")]
    WriteZero,
    /// The source or the sink failed.
    #[error("device fault")]
    Device,
}

/// The error of a source that fails to read.
#[derive(Clone, Copy, Debug, PartialEq, Eq)]
pub struct DeviceFault;

/// The reason why a sink takes no bytes.
#[derive(Clone, Copy, Debug, PartialEq, Eq)]
pub enum SinkFault {
    /// The device failed.
    Device,
    /// The sink is out of memory.
    OutOfMemory,
}

/// Bytes that a caller can read at any offset.
pub trait Source: Drop {
    /// The bytes of the source, and the stretches of them that are readable. A read that asks only
    /// for bytes in these stretches succeeds. The bytes and the stretches never change.
    ghost contents: { Self → SourceRecord };

    /// The number of reads that failed so far.
    ghost failures: { Self → ℕ };

    /// Reads bytes from offset `at` on into the front of `buf`, and returns how many. It reads none
    /// only at the end of the source or for an empty buffer.
    fn read_at(&mut self, at: u64, buf: &mut [u8]) -> Result<usize, DeviceFault>
        ensures contents { contents self.new ≡ contents self.old }
        ensures ok { IfOk result (λ n. Reads (contents self.old).bytes at buf.old n buf.new) }
        ensures answered { OnOk result (failures self.new ≡ failures self.old) }
        ensures failed { OnErr result (failures self.old < failures self.new) }
        ensures asked { AreReadable (contents self.old) at (length buf.old) → IsOk result };

    /// Every offset of the source is below 2^64.
    ghost offsets: { (s : Self) → length (contents s).bytes < 2 ^ 64 };

    /// Each byte of the source is below 256.
    ghost octets: { (s : Self) → AreOctets (contents s).bytes };
}

/// Sees bytes one by one, and may keep nothing of them.
pub trait ByteWitness {
    /// The bytes that it saw, in order.
    ghost seen: { Self → List ℕ };

    /// Sees the next byte.
    fn see(&mut self, byte: u8)
        ensures { seen self.new ≡ seen self.old ++ byte ∷ [] };
}

/// Bytes that are made as they are appended to a list.
pub trait ByteRun {
    /// The bytes.
    ghost bytes: { Self → List ℕ };

    /// Returns the number of the bytes, if it is a `usize`.
    fn len(&self) -> Option<usize>
        ensures { IfSome result (λ n. n ≡ length (bytes self.now)) };

    /// Appends the bytes to a list. After an error the list has the bytes that it had.
    fn push_to(&self, list: &mut Vec<u8>) -> Result<(), AllocError>
        ensures ok { OnOk result (list.new.items ≡ list.old.items ++ bytes self.now) }
        ensures err { OnErr result (list.new.items ≡ list.old.items) };

    /// Shows each of the bytes.
    fn show_to<S: ByteWitness>(&self, witness: &mut S)
        ensures { S.seen witness.new ≡ S.seen witness.old ++ bytes self.now };
}

/// Bytes that a caller can append to and overwrite.
pub trait Sink: Drop {
    /// The bytes that the sink contains.
    ghost contents: { Self → List ℕ };

    /// The number of writes that failed so far.
    ghost failures: { Self → ℕ };

    /// The error of the last write, if that write failed.
    ghost fault: { Self → Option SinkFault };

    /// Returns the number of bytes in the sink.
    fn len(&self) -> u64
        ensures { result ≡ length (contents self.now) };

    /// Appends bytes at the end, and returns how many of `bytes` it takes from the front. It takes
    /// none only if `bytes` is empty. After an error the bytes of the sink are unchanged.
    fn append(&mut self, bytes: &[u8]) -> Result<usize, SinkFault>
        ensures ok { IfOk result (λ n. Appends (contents self.old) bytes.now n (contents self.new)) }
        ensures err { OnErr result (contents self.new ≡ contents self.old) }
        ensures answered { OnOk result ((failures self.new ≡ failures self.old) × (fault self.new ≡ None)) }
        ensures failed { IfErr result (λ e. (failures self.new ≡ failures self.old + 1)
            × (fault self.new ≡ Some e)) };

    /// Makes room for `len` bytes that will be appended, if the sink can do so at once. It changes
    /// no byte, and may do nothing.
    fn reserve(&mut self, len: u64)
        ensures bytes { contents self.new ≡ contents self.old }
        ensures failures { failures self.new ≡ failures self.old }
        ensures fault { fault self.new ≡ fault self.old }
    {
        let _none = len;
    }

    /// Appends all bytes of a run at once, and returns their number. Returns `None` if the sink
    /// can't, and then does nothing. After an error the bytes of the sink are unchanged.
    fn append_run<B: ByteRun>(&mut self, run: &B) -> Option<Result<usize, SinkFault>>
        ensures { AppendsRun (B.bytes run.now) (contents self.old) (failures self.old) (fault self.old)
            (contents self.new) (failures self.new) (fault self.new) result }
    {
        let _none = run;
        None
    }

    /// Overwrites the bytes from offset `at` on, and returns how many of `bytes` it takes from the
    /// front. It takes none only if `bytes` is empty. After an error the bytes of the sink are
    /// unchanged.
    fn overwrite(&mut self, at: u64, bytes: &[u8]) -> Result<usize, SinkFault>
        requires { at + length bytes.now ≤ length (contents self.old) }
        ensures ok { IfOk result (λ n. Overwrites (contents self.old) at bytes.now n (contents self.new)) }
        ensures err { OnErr result (contents self.new ≡ contents self.old) }
        ensures answered { OnOk result ((failures self.new ≡ failures self.old) × (fault self.new ≡ None)) }
        ensures failed { IfErr result (λ e. (failures self.new ≡ failures self.old + 1)
            × (fault self.new ≡ Some e)) };

    /// A sink contains less than 2^63 bytes.
    ghost short: { (s : Self) → length (contents s) < 2 ^ 63 };
}

// Reads the bytes of a slice from an offset on, as many as there are and as fit in the buffer.
// Returns their number.
pub(crate) fn read_of(items: &[u8], at: u64, buf: &mut [u8]) -> usize
    ensures { Reads items.now at buf.old result buf.new }
{
    if at >= items.len() as u64 {
        return 0;
    }
    let rest = &items[at as usize..];
    let n = rest.len().min(buf.len());
    buf[..n].copy_from_slice(&rest[..n]);
    n
}

/// A source in memory that owns its bytes. No read of it fails.
#[derive(Debug, Drop)]
pub struct MemorySource {
    items: Vec<u8>,
    ghost offsets: { length items.items < 2 ^ 64 },
    ghost octets: { AreOctets items.items },
}

impl MemorySource {
    ghost use Rattle.tiff_base.specs.Memory.{source_bytes};

    /// Makes the source of these bytes.
    pub fn new(items: Vec<u8>) -> Self
        ensures { source_bytes result ≡ items.items }
    {
        // The call has no effect: by its result the prover knows that a length is a `usize`.
        let _len = items.len();
        MemorySource { items }
    }
}

impl Source for MemorySource {
    ghost use Rattle.tiff_base.specs.Memory.{source_bytes};

    ghost contents = { λ s. record { bytes = source_bytes s; readable = None } };

    ghost failures = { λ _. 0 };

    ghost offsets = { λ s. s.offsets };

    ghost octets = { λ s. s.octets };

    fn read_at(&mut self, at: u64, buf: &mut [u8]) -> Result<usize, DeviceFault> {
        Ok(read_of(self.items.as_slice(), at, buf))
    }
}

/// A source over a borrowed slice, without a copy of it. No read of it fails.
#[derive(Drop)]
pub struct SliceSource<'a> {
    items: &'a [u8],
    ghost offsets: { length items.now < 2 ^ 64 },
    ghost octets: { AreOctets items.now },
}

impl<'a> SliceSource<'a> {
    ghost use Rattle.tiff_base.specs.Memory.{slice_bytes};

    /// Makes the source of these bytes.
    pub fn new(items: &'a [u8]) -> Self
        ensures { slice_bytes result ≡ items.now }
    {
        let _len = items.len();
        SliceSource { items }
    }
}

impl Source for SliceSource<'_> {
    ghost use Rattle.tiff_base.specs.Memory.{slice_bytes};

    ghost contents = { λ s. record { bytes = slice_bytes s; readable = None } };

    ghost failures = { λ _. 0 };

    ghost offsets = { λ s. s.offsets };

    ghost octets = { λ s. s.octets };

    fn read_at(&mut self, at: u64, buf: &mut [u8]) -> Result<usize, DeviceFault> {
        Ok(read_of(self.items, at, buf))
    }
}

/// A source that reads another source through a buffer of 8192 bytes. It has the bytes of the other
/// source, and fails if the other source fails. A read of 8192 bytes or more goes straight to the
/// other source.
#[derive(Drop)]
pub struct BufferedSource<S: Source> {
    source: S,
    buffer: Vec<u8>,
    from: u64,
    held: usize,
    ghost full: { length buffer.items ≡ BUFFER_LEN },
    ghost in_buffer: { held ≤ BUFFER_LEN },
    ghost holds: { take held buffer.items ≡ bytes_at (S.contents source).bytes from held },
}

impl<S: Source> BufferedSource<S> {
    /// Makes the source of the same bytes. It allocates its buffer, and reads nothing yet.
    pub fn new(alloc: Global, source: S) -> Result<Self, AllocError>
        ensures { IfOk result (λ s. s.source ≡ source) }
    {
        Ok(BufferedSource {
            source,
            buffer: vec![in alloc; 0u8; BUFFER_LEN]?,
            from: 0,
            held: 0,
        })
    }
}

impl<S: Source> BufferedSource<S> {
    /// Returns the source that this source reads.
    pub fn into_inner(self) -> S
        ensures { result ≡ self.source }
    {
        let BufferedSource {
            source,
            buffer: _,
            from: _,
            held: _,
        } = self;
        source
    }
}

impl<S: Source> BufferedSource<S> {
    // Returns whether the byte at an offset is in the buffer.
    fn has(&self, at: u64) -> bool
        ensures { result ≡ true → (self.now.from ≤ at) × (at < self.now.from + self.now.held) }
    {
        at >= self.from && at - self.from < self.held as u64
    }

    // Reads from the source at an offset into the buffer. After an error the buffer is empty.
    fn fill(&mut self, at: u64) -> Result<(), DeviceFault>
        ensures contents { S.contents self.new.source ≡ S.contents self.old.source }
        ensures holds { OnOk result (HoldsByte (S.contents self.new.source).bytes self.new.from self.new.held at) }
        ensures answered { OnOk result (S.failures self.new.source ≡ S.failures self.old.source) }
        ensures failed { OnErr result (S.failures self.old.source < S.failures self.new.source) }
        ensures asked { AreReadable (S.contents self.old.source) at BUFFER_LEN → IsOk result }
    {
        // A read that fails may leave anything in the buffer, so nothing counts as held before it.
        self.held = 0;
        self.from = at;
        self.held = self.source.read_at(at, &mut self.buffer)?;
        Ok(())
    }

    // Puts the byte at an offset into the buffer, if the source has this byte.
    fn hold(&mut self, at: u64) -> Result<(), DeviceFault>
        ensures contents { S.contents self.new.source ≡ S.contents self.old.source }
        ensures holds { OnOk result (HoldsByte (S.contents self.new.source).bytes self.new.from self.new.held at) }
        ensures answered { OnOk result (S.failures self.new.source ≡ S.failures self.old.source) }
        ensures failed { OnErr result (S.failures self.old.source < S.failures self.new.source) }
        ensures asked { AreReadable (S.contents self.old.source) at BUFFER_LEN → IsOk result }
    {
        if self.has(at) {
            return Ok(());
        }
        self.fill(at)
    }

    // Reads bytes from the buffer, from an offset of the source on.
    fn read_held(&self, at: u64, buf: &mut [u8]) -> usize
        requires { HoldsByte (S.contents self.now.source).bytes self.now.from self.now.held at }
        ensures { Reads (S.contents self.now.source).bytes at buf.old result buf.new }
    {
        read_of(&self.buffer[..self.held], at - self.from, buf)
    }
}

impl<S: Source> Source for BufferedSource<S> {
    ghost use Rattle.tiff_base.specs.Memory.{buffered};

    ghost contents = { λ s. buffered (S.contents s.source) };

    ghost failures = { λ s. S.failures s.source };

    ghost offsets = { λ s. S.offsets s.source };

    ghost octets = { λ s. S.octets s.source };

    fn read_at(&mut self, at: u64, buf: &mut [u8]) -> Result<usize, DeviceFault> {
        if buf.is_empty() {
            return Ok(0);
        }
        // By way of the buffer all these bytes would be copied once more.
        if buf.len() >= self.buffer.len() {
            return self.source.read_at(at, buf);
        }
        self.hold(at)?;
        Ok(self.read_held(at, buf))
    }
}

/// A sink in memory. It fails only when it is out of memory.
#[derive(Drop)]
pub struct MemorySink {
    items: Vec<u8>,
    failed: Count,
    refused: bool,
}

/// Shows the bytes of the sink, and whether its last write ran out of memory.
impl fmt::Debug for MemorySink {
    fn fmt<W: fmt::Write>(&self, f: &mut fmt::Formatter<W>) -> fmt::Result {
        f.debug_struct("MemorySink")
            .field("items", &self.items)
            .field("refused", &self.refused)
            .finish_non_exhaustive()
    }
}

impl MemorySink {
    ghost use Rattle.tiff_base.specs.Memory.{sink_bytes};

    /// Makes a sink that contains these bytes.
    pub fn new(items: Vec<u8>) -> Self
        ensures { sink_bytes result ≡ items.items }
    {
        MemorySink {
            items,
            failed: Count::new(),
            refused: false,
        }
    }

    /// Returns the bytes of the sink.
    pub fn into_vec(self) -> Vec<u8>
        ensures { result.items ≡ sink_bytes self }
    {
        let MemorySink {
            items,
            failed: _,
            refused: _,
        } = self;
        items
    }
}

impl Sink for MemorySink {
    ghost use Rattle.std.proofs.Common.{arith};
    ghost use Rattle.std.specs.Prelude.{if◌then◌else◌};
    ghost use Rattle.tiff_base.specs.declared.io.SinkFault.TheVariants.{OutOfMemory};
    ghost use Rattle.tiff_base.specs.Memory.{sink_bytes};

    ghost contents = { sink_bytes };

    ghost failures = { λ s. s.failed };

    ghost fault = { λ s. if s.refused then Some OutOfMemory else None };

    ghost short = { λ s. Prim.omega (arith, s.items.ok, s.items.small) };

    fn len(&self) -> u64 {
        self.items.len() as u64
    }

    fn append(&mut self, bytes: &[u8]) -> Result<usize, SinkFault> {
        if self.items.extend_from_slice(bytes).is_err() {
            self.failed.add();
            self.refused = true;
            return Err(SinkFault::OutOfMemory);
        }
        self.refused = false;
        Ok(bytes.len())
    }

    fn reserve(&mut self, len: u64) {
        // Where there is no room, each call that appends asks again, and says so.
        let _full = self.items.reserve(len as usize).is_err();
    }

    fn append_run<B: ByteRun>(&mut self, run: &B) -> Option<Result<usize, SinkFault>> {
        let from = self.items.len();
        if run.push_to(&mut self.items).is_err() {
            self.failed.add();
            self.refused = true;
            return Some(Err(SinkFault::OutOfMemory));
        }
        self.refused = false;
        Some(Ok(self.items.len() - from))
    }

    fn overwrite(&mut self, at: u64, bytes: &[u8]) -> Result<usize, SinkFault> {
        let from = at as usize;
        let to = from + bytes.len();
        self.items[from..to].copy_from_slice(bytes);
        self.refused = false;
        Ok(bytes.len())
    }
}

impl<S: Source> Source for &mut S {
    ghost contents = { λ s. S.contents s.now };

    ghost failures = { λ s. S.failures s.now };

    ghost offsets = { λ s. S.offsets s.now };

    ghost octets = { λ s. S.octets s.now };

    fn read_at(&mut self, at: u64, buf: &mut [u8]) -> Result<usize, DeviceFault> {
        (**self).read_at(at, buf)
    }
}

impl<S: Sink> Sink for &mut S {
    ghost contents = { λ s. S.contents s.now };

    ghost failures = { λ s. S.failures s.now };

    ghost fault = { λ s. S.fault s.now };

    ghost short = { λ s. S.short s.now };

    fn len(&self) -> u64 {
        (**self).len()
    }

    fn append(&mut self, bytes: &[u8]) -> Result<usize, SinkFault> {
        (**self).append(bytes)
    }

    fn reserve(&mut self, len: u64) {
        (**self).reserve(len)
    }

    fn append_run<B: ByteRun>(&mut self, run: &B) -> Option<Result<usize, SinkFault>> {
        (**self).append_run(run)
    }

    fn overwrite(&mut self, at: u64, bytes: &[u8]) -> Result<usize, SinkFault> {
        (**self).overwrite(at, bytes)
    }
}

//! The frame of a file of one image: the bytes before its samples, and those behind them.

ghost use Rattle.std.specs.Prelude.{◌≡◌, ◌+◌, ◌^◌, ◌≤◌, ◌<◌, [], ◌++◌, length, drop, None, Some, IfSome, IfOk, OnErr};
ghost use Rattle.tiff_ffi.specs.Writer as writer;

use std::alloc::Global;
use tiff_append::failed_writes::FailedWrites;
use tiff_append::ghost_bytes::GhostBytes;
use tiff_append::sink::{MAX_LEN, grow};
use tiff_base::io::{ByteRun, Sink, SinkFault};
use tiff_base::tags::FileKind;

// ---- the sink

/// A sink in memory for a file of one image, which stores the frame of the file: the first `start`
/// bytes, and those behind the next `room` bytes, which are the samples. The sink only counts the
/// samples, and contracts see them. It refuses to overwrite anything behind the first part.
#[derive(Drop)]
pub struct FrameSink {
    front: Vec<u8>,
    passed: GhostBytes,
    behind: Vec<u8>,
    start: usize,
    room: usize,
    count: usize,
    failed: FailedWrites,
    ghost counted: { count ≡ length passed },
    ghost short: { length front.items + (count + length behind.items) < 2 ^ 63 },
    ghost in_start: { length front.items ≤ start },
    ghost in_room: { count ≤ room },
    ghost front_first: { length front.items < start → count + length behind.items ≡ 0 },
    ghost behind_last: { count < room → length behind.items ≡ 0 },
}

/// How many bytes are before the first strip of a file of one image: its header, and in a classic
/// file the two resolutions, which don't fit into their entries.
pub fn front_len(kind: FileKind) -> usize
    ensures { result ≡ writer.front_len kind }
{
    match kind {
        FileKind::Classic => 24,
        FileKind::Big => 16,
    }
}

impl FrameSink {
    ghost use Rattle.tiff_base.specs.SourceAndSink.{Appends, Overwrites};
    ghost use Rattle.tiff_ffi.specs.Frame.{IsFrameOf, frame_contents};

    /// Makes an empty sink for samples of `room` bytes behind `start` bytes. It allocates nothing.
    pub fn new(alloc: Global, start: usize, room: usize) -> FrameSink
        ensures { frame_contents result ≡ [] }
    {
        FrameSink {
            front: Vec::new(alloc),
            passed: GhostBytes::new(),
            behind: Vec::new(alloc),
            start,
            room,
            count: 0,
            failed: FailedWrites::none(),
        }
    }

    /// Returns the frame around these samples, if the sink has `start` bytes before its samples,
    /// and as many bytes of samples as these.
    pub fn into_frame(self, start: usize, samples: &[u8]) -> Option<Frame<'_>>
        ensures { IfSome result (λ f. IsFrameOf (frame_contents self) start samples.now f) }
    {
        let FrameSink {
            front,
            passed: _,
            behind,
            start: _,
            room: _,
            count,
            failed: _,
        } = self;
        if front.len() != start || count != samples.len() {
            return None;
        }
        Some(Frame {
            front,
            samples,
            behind,
        })
    }

    // Takes bytes for the part that is next, from the front of `bytes`, and returns how many.
    fn take_next(&mut self, bytes: &[u8]) -> Result<usize, SinkFault>
        ensures ok { IfOk result (λ n. Appends (frame_contents self.old) bytes.now n (frame_contents self.new)) }
        ensures err { OnErr result (frame_contents self.new ≡ frame_contents self.old) }
        ensures failed { self.new.failed ≡ self.old.failed }
    {
        // `self.len()` would be the call of a borrowed sink, which has all calls of this one.
        if bytes.len() as u64 > MAX_LEN - Self::len(self) {
            return Err(SinkFault::Device);
        }
        if self.front.len() < self.start {
            let n = bytes.len().min(self.start - self.front.len());
            grow(&mut self.front, &bytes[..n])?;
            return Ok(n);
        }
        if self.count < self.room {
            let n = bytes.len().min(self.room - self.count);
            self.passed.add(&bytes[..n]);
            self.count += n;
            return Ok(n);
        }
        grow(&mut self.behind, bytes)?;
        Ok(bytes.len())
    }

    // Overwrites bytes before the samples. It refuses to overwrite any others.
    fn put_front(&mut self, at: u64, bytes: &[u8]) -> Result<usize, SinkFault>
        requires { at + length bytes.now ≤ length (frame_contents self.old) }
        ensures ok { IfOk result (λ n. Overwrites (frame_contents self.old) at bytes.now n (frame_contents self.new)) }
        ensures err { OnErr result (frame_contents self.new ≡ frame_contents self.old) }
        ensures failed { self.new.failed ≡ self.old.failed }
    {
        let to = at + bytes.len() as u64;
        if to > self.front.len() as u64 {
            return Err(SinkFault::Device);
        }
        self.front[at as usize..to as usize].copy_from_slice(bytes);
        Ok(bytes.len())
    }
}

impl Sink for FrameSink {
    ghost use Rattle.std.proofs.Common.{arith, length-append};
    ghost use Rattle.tiff_ffi.specs.Frame.{frame_contents};

    ghost contents = { frame_contents };

    ghost failures = { λ s. length s.failed.writes };

    ghost fault = { λ s. s.failed.last };

    ghost short = { λ s. Prim.omega (
      arith,
      length-append s.front.items (s.passed ++ s.behind.items),
      length-append s.passed s.behind.items,
      s.counted,
      s.short,
    ) };

    fn len(&self) -> u64 {
        self.front.len() as u64 + self.count as u64 + self.behind.len() as u64
    }

    fn append(&mut self, bytes: &[u8]) -> Result<usize, SinkFault> {
        let answer = self.take_next(bytes);
        self.failed.note(answer)
    }

    // Samples are only counted, so their bytes needn't be made.
    fn append_run<B: ByteRun>(&mut self, run: &B) -> Option<Result<usize, SinkFault>> {
        let len = run.len()?;
        let fits = len as u64 <= MAX_LEN - Self::len(self) && len <= self.room - self.count;
        if self.front.len() < self.start || len == 0 || !fits {
            return None;
        }
        run.show_to(&mut self.passed);
        self.count += len;
        Some(self.failed.note(Ok(len)))
    }

    fn overwrite(&mut self, at: u64, bytes: &[u8]) -> Result<usize, SinkFault> {
        let answer = self.put_front(at, bytes);
        self.failed.note(answer)
    }
}

// ---- the file

/// A file of one image around samples that are elsewhere in memory: the bytes before the samples,
/// the samples, and the bytes behind them.
#[derive(Drop)]
pub struct Frame<'a> {
    front: Vec<u8>,
    samples: &'a [u8],
    behind: Vec<u8>,
    ghost short: { length front.items + (length samples.now + length behind.items) < 2 ^ 63 },
}

impl Frame<'_> {
    ghost use Rattle.tiff_ffi.specs.Frame.{framed};

    // Returns the length of the file.
    fn len(&self) -> usize
        ensures { result ≡ length (framed self.now) }
    {
        self.front.len() + self.samples.len() + self.behind.len()
    }

    /// Puts the file at the front of a buffer.
    pub fn put(&self, buffer: &mut [u8])
        requires { length (framed self.now) ≤ length buffer.old }
        ensures { buffer.new ≡ framed self.now ++ drop (length (framed self.now)) buffer.old }
    {
        let begin = self.front.len();
        let end = begin + self.samples.len();
        let all = end + self.behind.len();
        buffer[..begin].copy_from_slice(&self.front);
        buffer[begin..end].copy_from_slice(self.samples);
        buffer[end..all].copy_from_slice(&self.behind);
    }

    // Puts the bytes before the samples and those behind them at the front of a buffer.
    fn put_around(&self, buffer: &mut [u8])
        requires { length self.now.front.items + length self.now.behind.items ≤ length buffer.old }
        ensures { buffer.new ≡ self.now.front.items ++ (self.now.behind.items
            ++ drop (length self.now.front.items + length self.now.behind.items) buffer.old) }
    {
        let begin = self.front.len();
        let all = begin + self.behind.len();
        buffer[..begin].copy_from_slice(&self.front);
        buffer[begin..all].copy_from_slice(&self.behind);
    }
}

/// How many bytes a file of one image has before samples that are elsewhere in memory, how many
/// these have, and how many it has behind them. A file without such samples has all bytes before
/// them.
#[derive(Clone, Copy, Debug, PartialEq, Eq)]
#[repr(C)]
pub struct FrameLengths {
    pub front: usize,
    pub samples: usize,
    pub behind: usize,
}

/// A file that was written.
#[derive(Drop)]
pub enum NewFile<'a> {
    /// All bytes of the file.
    Whole(Vec<u8>),
    /// The file around the samples that the caller has.
    Around(Frame<'a>),
}

impl NewFile<'_> {
    ghost use Rattle.tiff_ffi.specs.Frame.{behind_of, file_of, front_of, samples_of};

    /// Returns the length of the file.
    pub fn len(&self) -> usize
        ensures { result ≡ length (file_of self.now) }
    {
        match self {
            NewFile::Whole(file) => file.len(),
            NewFile::Around(frame) => frame.len(),
        }
    }

    /// Returns how long the parts of the file are.
    pub fn lengths(&self) -> FrameLengths
        ensures front { result.front ≡ length (front_of self.now) }
        ensures samples { result.samples ≡ length (samples_of self.now) }
        ensures behind { result.behind ≡ length (behind_of self.now) }
        ensures few { result.front + result.behind < 2 ^ 63 }
    {
        match self {
            NewFile::Whole(file) => FrameLengths {
                front: file.len(),
                samples: 0,
                behind: 0,
            },
            NewFile::Around(frame) => FrameLengths {
                front: frame.front.len(),
                samples: frame.samples.len(),
                behind: frame.behind.len(),
            },
        }
    }

    /// Puts the bytes that aren't elsewhere in memory at the front of a buffer.
    pub fn put_around(&self, buffer: &mut [u8])
        requires { length (front_of self.now) + length (behind_of self.now) ≤ length buffer.old }
        ensures { buffer.new ≡ front_of self.now ++ (behind_of self.now
            ++ drop (length (front_of self.now) + length (behind_of self.now)) buffer.old) }
    {
        match self {
            NewFile::Whole(file) => buffer[..file.len()].copy_from_slice(file),
            NewFile::Around(frame) => frame.put_around(buffer),
        }
    }
}

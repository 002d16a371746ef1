//! A writer of numbers and bytes at an offset of a sink.

ghost use Rattle.std.specs.Int.{w8, w16, w32, w64};
ghost use Rattle.std.specs.Prelude.{◌≡◌, ℕ, ◌+◌, ◌-◌, ◌%◌, ◌^◌, ◌<◌, ◌≤◌, List, [], ◌∷◌, length, replicate, take, is_some, IsSome, IfOk, IfErr, MatchResult, None, if◌then◌else◌};
ghost use Rattle.tiff_base.specs.Number.{le};
ghost use Rattle.tiff_base.specs.SourceAndSink.{sink_error};
ghost use Rattle.tiff_base.specs.declared.tags.CompressionMethod.TheVariants as method;
ghost use Rattle.tiff_value.specs.Compressors.{compressor_method};
ghost use Rattle.tiff_value.specs.Data.{signed_le};
ghost use Rattle.tiff_value.specs.Stored.{StoresBytes};
ghost use Rattle.tiff_value.specs.Written.{writer_after, new_writer, SinkFails, WritesCounted, WritesRaw};

mod samples;

use crate::encoder::compression::{CompressionAlgorithm, Compressor, Uncompressed};
use std::alloc::Global;
use std::marker::Model;
use tiff_base::error::{TiffError, TiffResult, UsageError};
use tiff_base::io::{ByteRun, IoKind, Sink, SinkFault};
use tiff_base::tags::{Bits32, Bits64};

/// Writes bytes at an offset of a sink. After an error of the sink each write returns
/// `UsageError(WriterFailed)`.
#[derive(Drop)]
pub struct TiffWriter<W: Sink> {
    sink: W,
    at: u64,
    last: u64,
    failed: bool,
    compressor: Compressor,
}

impl<W: Sink> Model for TiffWriter<W> {
    ghost use Rattle.std.specs.Prelude.{◌≡◌, ◌≤◌, length, is_some, None, if◌then◌else◌};
    ghost use Rattle.tiff_value.specs.Compressors.{compressor_method};
    ghost use Rattle.tiff_value.specs.Written.{Written};

    ghost Value = { Written };

    // The field `fault` is the last error of the sink.
    ghost view = { λ w. record {
      bytes = W.contents w.sink;
      at = w.at;
      fault = (if w.failed then W.fault w.sink else None);
      failures = W.failures w.sink;
      last = w.last;
      method = compressor_method w.compressor;
    } };

    ghost invariant = { λ w. (w.at ≤ length (W.contents w.sink))
        × (w.failed ≡ is_some (if w.failed then W.fault w.sink else None)) };
}

// Returns the error for that of a sink.
fn error_of(fault: SinkFault) -> TiffError
    ensures { result ≡ sink_error fault }
{
    match fault {
        SinkFault::Device => TiffError::IoError(IoKind::Device),
        SinkFault::OutOfMemory => TiffError::OutOfMemory,
    }
}

impl<W: Sink> TiffWriter<W> {
    /// Makes a writer at the end of the sink, without compression.
    pub fn new(sink: W) -> Self
        ensures { result ≡ new_writer (W.contents sink) (W.failures sink) }
    {
        let at = sink.len();
        TiffWriter {
            sink,
            at,
            last: 0,
            failed: false,
            compressor: Compressor::Uncompressed(Uncompressed),
        }
    }

    /// Makes `write_bytes` store bytes by this compressor from now on.
    pub fn set_compression(&mut self, compressor: Compressor)
        ensures { self.new ≡ record self.old { method = compressor_method compressor } }
    {
        self.compressor = compressor;
    }

    /// Makes `write_bytes` store bytes as they are from now on.
    pub fn reset_compression(&mut self)
        ensures { self.new ≡ record self.old { method = method.None } }
    {
        self.compressor = Compressor::Uncompressed(Uncompressed);
    }

    /// Returns the offset of the next write. It is at most the number of bytes in the sink.
    pub fn offset(&self) -> u64
        ensures offset { result ≡ self.now.at }
        ensures within { result ≤ length self.now.bytes }
        ensures short { length self.now.bytes < 2 ^ 64 }
    {
        self.at
    }

    /// Returns the number of bytes in the sink. This project adds this function.
    pub fn len(&self) -> u64
        ensures { result ≡ length self.now.bytes }
    {
        self.sink.len()
    }

    /// Returns the number of bytes of the last complete write.
    pub fn last_written(&self) -> u64
        ensures { result ≡ self.now.last }
    {
        self.last
    }

    /// Returns whether an earlier write failed.
    pub fn has_failed(&self) -> bool
        ensures { result ≡ is_some self.now.fault }
    {
        self.failed
    }

    /// Moves to an offset. Writes from there overwrite bytes, and then append. Returns
    /// `IoError(InvalidInput)` for an offset past the end of the bytes, and does nothing.
    pub fn goto_offset(&mut self, offset: u64) -> TiffResult<()>
        ensures { MatchResult result
            (λ _. (offset ≤ length self.old.bytes) × (self.new ≡ record self.old { at = offset }))
            (λ e. (length self.old.bytes < offset) × (e ≡ TiffError.IoError IoKind.InvalidInput)
            × (self.new ≡ self.old)) }
    {
        if self.sink.len() < offset {
            return Err(TiffError::IoError(IoKind::InvalidInput));
        }
        self.at = offset;
        Ok(())
    }

    // Writes some of the bytes by one call of the sink.
    #[inline(always)]
    fn write_some(&mut self, bytes: &[u8]) -> TiffResult<usize>
        requires some { 0 < length bytes.now }
        requires fresh { self.old.fault ≡ None }
        ensures ok { IfOk result (λ n. (0 < n) × (n ≤ length bytes.now)
            × (self.new ≡ writer_after self.old (take n bytes.now))) }
        ensures err { IfErr result (λ e. SinkFails e self.old self.new) }
    {
        let room = self.sink.len() - self.at;
        let told = if room == 0 {
            self.sink.append(bytes)
        } else if (bytes.len() as u64) <= room {
            self.sink.overwrite(self.at, bytes)
        } else {
            self.sink.overwrite(self.at, &bytes[..room as usize])
        };
        match told {
            Ok(n) => {
                self.at += n as u64;
                Ok(n)
            }
            Err(fault) => {
                self.failed = true;
                Err(error_of(fault))
            }
        }
    }

    // Appends all bytes of a run at once, without an update of `last_written`, if the writer is at
    // the end of a sink that can do so. Returns whether it did.
    fn write_run<B: ByteRun>(&mut self, run: &B) -> TiffResult<bool>
        requires fresh { self.old.fault ≡ None }
        ensures { MatchResult result
            (λ done. self.new ≡ (if done then writer_after self.old (B.bytes run.now) else self.old))
            (λ e. SinkFails e self.old self.new) }
    {
        if self.at != self.sink.len() {
            return Ok(false);
        }
        let Some(told) = self.sink.append_run(run) else {
            return Ok(false);
        };
        self.failed = told.is_err();
        match told {
            Ok(n) => {
                self.at += n as u64;
                Ok(true)
            }
            Err(fault) => Err(error_of(fault)),
        }
    }

    /// Makes room for `len` bytes that will be written at the end, if the sink can do so at once.
    /// This project adds this function.
    pub fn reserve(&mut self, len: u64)
        ensures { self.new ≡ self.old }
    {
        self.sink.reserve(len);
    }

    // Writes all of the bytes, without an update of `last_written`.
    #[inline(always)]
    fn write_raw(&mut self, bytes: &[u8]) -> TiffResult<()>
        ensures { WritesRaw bytes.now self.old self.new result }
    {
        if self.failed {
            return Err(TiffError::UsageError(UsageError::WriterFailed));
        }
        let mut done = 0;
        while done < bytes.len() {
            let n = self.write_some(&bytes[done..])?;
            done += n;
        }
        Ok(())
    }

    /// Stores bytes by the current compressor. Its errors are those of the compressor's `write_to`.
    pub fn write_bytes(&mut self, alloc: Global, bytes: &[u8]) -> TiffResult<()>
        ensures { StoresBytes self.old.method bytes.now self.old self.new result }
    {
        match self.compressor {
            Compressor::Uncompressed(mut algorithm) => {
                algorithm.write_to(alloc, self, bytes)?;
            }
            Compressor::Packbits(mut algorithm) => {
                algorithm.write_to(alloc, self, bytes)?;
            }
        }
        Ok(())
    }

    /// Writes bytes as they are. Returns `UsageError(WriterFailed)` if an earlier write failed, and
    /// does nothing. Returns `IoError(Device)` or `OutOfMemory` if the sink fails; a part of the
    /// bytes, from the front, is then written. This project adds this function.
    pub fn write_plain(&mut self, bytes: &[u8]) -> TiffResult<()>
        ensures { WritesCounted bytes.now self.old self.new result }
    {
        self.write_raw(bytes)?;
        self.last = bytes.len() as u64;
        Ok(())
    }

    /// Writes a byte. Its errors are those of `write_plain`.
    pub fn write_u8(&mut self, n: u8) -> TiffResult<()>
        ensures { WritesCounted (le 1 n) self.old self.new result }
    {
        self.write_plain(&n.to_le_bytes())
    }

    /// Writes a signed byte. Its errors are those of `write_plain`.
    pub fn write_i8(&mut self, n: i8) -> TiffResult<()>
        ensures { WritesCounted (signed_le w8 n) self.old self.new result }
    {
        self.write_plain(&n.to_le_bytes())
    }

    /// Writes an unsigned number of 2 bytes, the least significant byte first. Its errors are those
    /// of `write_plain`.
    pub fn write_u16(&mut self, n: u16) -> TiffResult<()>
        ensures { WritesCounted (le 2 n) self.old self.new result }
    {
        self.write_plain(&n.to_le_bytes())
    }

    /// Writes a signed number of 2 bytes, the least significant byte first. Its errors are those of
    /// `write_plain`.
    pub fn write_i16(&mut self, n: i16) -> TiffResult<()>
        ensures { WritesCounted (signed_le w16 n) self.old self.new result }
    {
        self.write_plain(&n.to_le_bytes())
    }

    /// Writes an unsigned number of 4 bytes, the least significant byte first. Its errors are those
    /// of `write_plain`.
    pub fn write_u32(&mut self, n: u32) -> TiffResult<()>
        ensures { WritesCounted (le 4 n) self.old self.new result }
    {
        self.write_plain(&n.to_le_bytes())
    }

    /// Writes a signed number of 4 bytes, the least significant byte first. Its errors are those of
    /// `write_plain`.
    pub fn write_i32(&mut self, n: i32) -> TiffResult<()>
        ensures { WritesCounted (signed_le w32 n) self.old self.new result }
    {
        self.write_plain(&n.to_le_bytes())
    }

    /// Writes an unsigned number of 8 bytes, the least significant byte first. Its errors are those
    /// of `write_plain`.
    pub fn write_u64(&mut self, n: u64) -> TiffResult<()>
        ensures { WritesCounted (le 8 n) self.old self.new result }
    {
        self.write_plain(&n.to_le_bytes())
    }

    /// Writes a signed number of 8 bytes, the least significant byte first. Its errors are those of
    /// `write_plain`.
    pub fn write_i64(&mut self, n: i64) -> TiffResult<()>
        ensures { WritesCounted (signed_le w64 n) self.old self.new result }
    {
        self.write_plain(&n.to_le_bytes())
    }

    /// Writes the bits of a floating-point number of 4 bytes, the least significant byte first. Its
    /// errors are those of `write_plain`.
    pub fn write_f32(&mut self, n: Bits32) -> TiffResult<()>
        ensures { WritesCounted (le 4 n.0) self.old self.new result }
    {
        self.write_plain(&n.0.to_le_bytes())
    }

    /// Writes the bits of a floating-point number of 8 bytes, the least significant byte first. Its
    /// errors are those of `write_plain`.
    pub fn write_f64(&mut self, n: Bits64) -> TiffResult<()>
        ensures { WritesCounted (le 8 n.0) self.old self.new result }
    {
        self.write_plain(&n.0.to_le_bytes())
    }

    /// Writes zeros up to the next offset that is a multiple of 4. `last_written` does not count
    /// them. Its errors are those of `write_plain`.
    pub fn pad_word_boundary(&mut self) -> TiffResult<()>
        ensures { WritesRaw (replicate ((4 - self.old.at % 4) % 4) 0) self.old self.new result }
    {
        let count = (4 - self.at % 4) % 4;
        self.write_raw(&[0, 0, 0][..count as usize])
    }

    /// Returns the sink.
    pub fn into_inner(self) -> W
        ensures bytes { W.contents result ≡ self.bytes }
        ensures failures { W.failures result ≡ self.failures }
        ensures fault { IsSome self.fault → W.fault result ≡ self.fault }
    {
        let TiffWriter {
            sink,
            at: _,
            last: _,
            failed: _,
            compressor: _,
        } = self;
        sink
    }
}

/// Writes the first bytes of a classic little-endian file, before the offset of its first
/// directory. `last_written` does not count them. Its errors are those of
/// `TiffWriter::write_plain`.
pub fn write_tiff_header<W: Sink>(writer: &mut TiffWriter<W>) -> TiffResult<()>
    ensures { WritesRaw (73 ∷ 73 ∷ 42 ∷ 0 ∷ []) writer.old writer.new result }
{
    writer.write_raw(&[73, 73, 42, 0])
}

/// Writes the first bytes of a little-endian BigTIFF file, before the offset of its first
/// directory. `last_written` does not count them. Its errors are those of
/// `TiffWriter::write_plain`.
pub fn write_bigtiff_header<W: Sink>(writer: &mut TiffWriter<W>) -> TiffResult<()>
    ensures { WritesRaw (73 ∷ 73 ∷ 43 ∷ 0 ∷ 8 ∷ 0 ∷ 0 ∷ 0 ∷ []) writer.old writer.new result }
{
    writer.write_raw(&[73, 73, 43, 0, 8, 0, 0, 0])
}

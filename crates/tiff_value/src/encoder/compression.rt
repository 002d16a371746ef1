//! Compressors: how the bytes of a strip are stored, as they are or packed by PackBits.

ghost use Rattle.std.specs.Prelude.{◌≡◌, ◌≢◌, ◌%◌, ◌<◌, [], length, slice_index, MatchResult};
ghost use Rattle.tiff_value.specs.Compressors.{compressor_method};
ghost use Rattle.tiff_value.specs.Stored.{Stores};
ghost use Rattle.tiff_value.specs.Packed.{ArePackedRows, IsPacked};
ghost use Rattle.tiff_value.specs.Packing.{AppendsPacked, IsRun, IsVariedFront, PacksAtEnd};

use crate::encoder::writer::TiffWriter;
use std::alloc::Global;
use tiff_base::error::{TiffError, TiffResult, UsageError};
use tiff_base::io::{IoKind, Sink};
use tiff_base::tags::CompressionMethod;

/// A compressor: it stores bytes by a compression method.
pub trait CompressionAlgorithm {
    ghost use Rattle.tiff_base.specs.declared.tags.CompressionMethod.{CompressionMethod};

    // The method of the compressor.
    ghost method: { Self → CompressionMethod };

    /// Writes the stored form of the bytes at the writer's offset, and returns its number of bytes.
    /// Returns `UsageError(WriterFailed)` if an earlier write failed; else `IoError(WriteZero)` if
    /// the method packs bytes and there are none; else `OutOfMemory` if there is no memory to pack
    /// them. After each of these errors nothing is done. Further errors are those of `write_plain`.
    fn write_to<W: Sink>(
        &mut self,
        alloc: Global,
        writer: &mut TiffWriter<W>,
        bytes: &[u8],
    ) -> TiffResult<u64>
        ensures stores { Stores (method self.old) bytes.now writer.old writer.new result }
        ensures same_method { method self.new ≡ method self.old };
}

/// A compressor with one fixed method.
pub trait Compression: CompressionAlgorithm {
    ghost use Rattle.std.specs.Prelude.{◌≡◌};
    ghost use Rattle.tiff_base.specs.declared.tags.CompressionMethod.{CompressionMethod};

    ghost COMPRESSION_METHOD: { CompressionMethod };

    /// The compression method.
    const COMPRESSION_METHOD: CompressionMethod;

    /// Returns a compressor that stores bytes by this method.
    fn get_algorithm(&self) -> Compressor
        ensures { compressor_method result ≡ COMPRESSION_METHOD };

    // The compressor stores bytes by this method.
    ghost by_method: { (x : Self) → Self.method x ≡ COMPRESSION_METHOD };
}

/// The compressor that stores bytes as they are.
#[derive(Clone, Copy, Debug, PartialEq, Eq, Default)]
pub struct Uncompressed;

impl CompressionAlgorithm for Uncompressed {
    ghost use Rattle.tiff_base.specs.declared.tags.CompressionMethod.TheVariants as method;

    ghost method = { λ _. method.None };

    fn write_to<W: Sink>(
        &mut self,
        alloc: Global,
        writer: &mut TiffWriter<W>,
        bytes: &[u8],
    ) -> TiffResult<u64> {
        writer.write_plain(bytes)?;
        Ok(bytes.len() as u64)
    }
}

impl Compression for Uncompressed {
    ghost use Rattle.std.specs.Prelude.{refl};
    ghost use Rattle.tiff_base.specs.declared.tags.CompressionMethod.TheVariants as method;

    ghost COMPRESSION_METHOD = { method.None };

    const COMPRESSION_METHOD: CompressionMethod = CompressionMethod::None;

    fn get_algorithm(&self) -> Compressor {
        Compressor::Uncompressed(*self)
    }

    ghost by_method = { λ x. refl };
}

/// The compressor that packs bytes by PackBits (TIFF 6.0 section 9).
#[derive(Clone, Copy, Debug, PartialEq, Eq, Default)]
pub struct Packbits;

impl CompressionAlgorithm for Packbits {
    ghost use Rattle.tiff_base.specs.declared.tags.CompressionMethod.TheVariants as method;

    ghost method = { λ _. method.PackBits };

    fn write_to<W: Sink>(
        &mut self,
        alloc: Global,
        writer: &mut TiffWriter<W>,
        bytes: &[u8],
    ) -> TiffResult<u64> {
        if writer.has_failed() {
            return Err(TiffError::UsageError(UsageError::WriterFailed));
        }
        if bytes.is_empty() {
            return Err(TiffError::IoError(IoKind::WriteZero));
        }
        // Packed before one write, so that a sink that fails has a beginning of it.
        let packed = pack_bits(alloc, bytes)?;
        writer.write_plain(&packed)?;
        Ok(packed.len() as u64)
    }
}

impl Compression for Packbits {
    ghost use Rattle.std.specs.Prelude.{refl};
    ghost use Rattle.tiff_base.specs.declared.tags.CompressionMethod.TheVariants as method;

    ghost COMPRESSION_METHOD = { method.PackBits };

    const COMPRESSION_METHOD: CompressionMethod = CompressionMethod::PackBits;

    fn get_algorithm(&self) -> Compressor {
        Compressor::Packbits(*self)
    }

    ghost by_method = { λ x. refl };
}

/// One of the two compressors.
#[derive(Drop)]
#[non_exhaustive]
pub enum Compressor {
    Uncompressed(Uncompressed),
    Packbits(Packbits),
}

impl Default for Compressor {
    ghost use Rattle.tiff_value.specs.declared.encoder.compression.Compressor.TheVariants as compressor;

    ghost is_default = { λ c. c ≡ compressor.Uncompressed (record {}) };

    /// Returns the compressor that stores bytes as they are.
    fn default() -> Self {
        Compressor::Uncompressed(Uncompressed)
    }
}

impl CompressionAlgorithm for Compressor {
    ghost method = { compressor_method };

    fn write_to<W: Sink>(
        &mut self,
        alloc: Global,
        writer: &mut TiffWriter<W>,
        bytes: &[u8],
    ) -> TiffResult<u64> {
        match self {
            Compressor::Uncompressed(algorithm) => algorithm.write_to(alloc, writer, bytes),
            Compressor::Packbits(algorithm) => algorithm.write_to(alloc, writer, bytes),
        }
    }
}

// The largest number of bytes that one block encodes.
const MOST: usize = 128;

// Returns how often the first byte is repeated at the front, up to 128.
fn run_len(bytes: &[u8]) -> usize
    requires { 0 < length bytes.now }
    ensures { IsRun bytes.now result }
{
    let mut count = 1;
    while count < bytes.len() && count < MOST && bytes[count] == bytes[0] {
        count += 1;
    }
    count
}

// Returns the number of bytes at the front before three equal bytes, up to 128.
fn literal_len(bytes: &[u8]) -> usize
    requires some { 0 < length bytes.now }
    requires no_run { 1 < length bytes.now → slice_index bytes.now 0 ≢ slice_index bytes.now 1 }
    ensures { IsVariedFront bytes.now result }
{
    let limit = bytes.len().min(MOST);
    for count in 1..limit {
        // Two equal bytes within a literal stay there: a run of two saves nothing.
        if count + 2 < limit
            && bytes[count] == bytes[count + 1]
            && bytes[count + 1] == bytes[count + 2]
        {
            return count;
        }
    }
    limit
}

// Appends one block, and returns the number of bytes that it encodes. The block is a run if the
// bytes begin with two equal bytes, else a literal.
fn pack_block(bytes: &[u8], out: &mut Vec<u8>) -> TiffResult<usize>
    requires { 0 < length bytes.now }
    ensures { MatchResult result (λ n. PacksAtEnd out.old.items bytes.now n out.new.items)
        (λ e. e ≡ TiffError.OutOfMemory) }
{
    let run = run_len(bytes);
    if run > 1 {
        out.push((257 - run) as u8)?;
        out.push(bytes[0])?;
        return Ok(run);
    }
    let count = literal_len(bytes);
    out.push((count - 1) as u8)?;
    out.extend_from_slice(&bytes[..count])?;
    Ok(count)
}

// Appends the blocks of all bytes.
pub(crate) fn push_packed(bytes: &[u8], out: &mut Vec<u8>) -> TiffResult<()>
    ensures { MatchResult result (λ _. AppendsPacked out.old.items bytes.now out.new.items)
        (λ e. e ≡ TiffError.OutOfMemory) }
{
    let mut at = 0;
    while at < bytes.len() {
        at += pack_block(&bytes[at..], out)?;
    }
    Ok(())
}

// Appends the blocks of rows of `row` bytes to an empty list. No block has bytes of two rows.
pub(crate) fn push_packed_rows(bytes: &[u8], row: usize, out: &mut Vec<u8>) -> TiffResult<()>
    requires some { 0 < row }
    requires whole { length bytes.now % row ≡ 0 }
    requires empty { out.old.items ≡ [] }
    ensures { MatchResult result (λ _. ArePackedRows row bytes.now out.new.items)
        (λ e. e ≡ TiffError.OutOfMemory) }
{
    for one in bytes.chunks_exact(row) {
        push_packed(one, out)?;
    }
    Ok(())
}

// Makes room for `rows` packed rows of `row` bytes each, as long as they can become.
pub(crate) fn reserve_packed(rows: usize, row: usize, out: &mut Vec<u8>) -> TiffResult<()>
    ensures { MatchResult result (λ _. out.new.items ≡ out.old.items)
        (λ e. e ≡ TiffError.OutOfMemory) }
{
    let most = row.saturating_add(row.div_ceil(MOST));
    out.reserve(rows.saturating_mul(most))?;
    Ok(())
}

/// Returns the bytes packed by PackBits (TIFF 6.0 section 9). The packed bytes have at most one
/// byte more for each 128 bytes or part of 128. The only error is `OutOfMemory`.
pub fn pack_bits(alloc: Global, bytes: &[u8]) -> TiffResult<Vec<u8>>
    ensures { MatchResult result (λ packed. IsPacked bytes.now packed.items)
        (λ e. e ≡ TiffError.OutOfMemory) }
{
    let mut out = Vec::new(alloc);
    push_packed(bytes, &mut out)?;
    Ok(out)
}

/// Returns rows of `row` bytes, each packed by PackBits by itself. TIFF 6.0 section 9 asks for
/// this: "Pack each row separately. Do not compress across row boundaries." The packed bytes have
/// at most one byte more for each 128 bytes of a row or part of 128. The only error is
/// `OutOfMemory`.
pub fn pack_rows(alloc: Global, bytes: &[u8], row: usize) -> TiffResult<Vec<u8>>
    requires some { 0 < row }
    requires whole { length bytes.now % row ≡ 0 }
    ensures { MatchResult result (λ packed. ArePackedRows row bytes.now packed.items)
        (λ e. e ≡ TiffError.OutOfMemory) }
{
    let mut out = Vec::new(alloc);
    reserve_packed(bytes.len() / row, row, &mut out)?;
    push_packed_rows(bytes, row, &mut out)?;
    Ok(out)
}

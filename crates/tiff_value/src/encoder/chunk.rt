//! The bytes of a chunk of samples: appended to a list, written without a list, or packed.

ghost use Rattle.std.specs.Prelude.{◌≡◌, ◌<◌, ◌≤◌, ◌%◌, ◌++◌, [], length, MatchResult};
ghost use Rattle.tiff_value.specs.Predicted.{predicted_bytes, row_bytes};
ghost use Rattle.tiff_value.specs.Packed.{ArePackedRows, IsPacked};
ghost use Rattle.tiff_value.specs.Written.{WritesCounted};

use super::compression::{push_packed, push_packed_rows, reserve_packed};
use super::horizontal_predictor::Sample;
use super::writer::TiffWriter;
use tiff_base::error::{TiffError, TiffResult};
use tiff_base::io::Sink;
use tiff_base::tags::Predictor;

/// Rows of samples, and how they are stored.
#[derive(Clone, Copy)]
pub struct SampleRows<'a, T: Sample> {
    pub samples: &'a [T],
    /// With `Predictor::Horizontal` each row is stored as differences (TIFF 6.0 section 14), else
    /// as it is.
    pub predictor: Predictor,
    /// The number of samples of a row.
    pub row: usize,
    /// The number of samples of a pixel.
    pub stride: usize,
}

/// Appends the bytes of rows before compression. The least significant byte of each number comes
/// first. The only error is `OutOfMemory`.
pub fn push_chunk<T: Sample>(rows: SampleRows<'_, T>, out: &mut Vec<u8>) -> TiffResult<()>
    requires stride { (0 < rows.stride) × (rows.stride ≤ rows.row) }
    requires whole { length rows.samples.now % rows.row ≡ 0 }
    ensures { MatchResult result
        (λ _. out.new.items ≡ out.old.items
        ++ row_bytes T.value_type T.bits rows.entry)
        (λ e. e ≡ TiffError.OutOfMemory) }
{
    let size = usize::from(T::BYTE_LEN);
    // No memory has `usize::MAX` bytes: a product beyond it is refused as this one.
    out.reserve(rows.samples.len().saturating_mul(size))?;
    match rows.predictor {
        Predictor::Horizontal => push_rows(rows.samples, rows.row, rows.stride, out),
        _ => T::push_all(rows.samples, out),
    }
}

/// Writes the bytes that `push_chunk` appends, at the writer's offset. It computes them part by
/// part, and allocates no memory for the samples. Returns `UsageError(WriterFailed)` if an earlier
/// write failed, and does nothing. Returns `IoError(Device)` or `OutOfMemory` if the sink fails; a
/// part of the bytes, from the front, is then written.
pub fn write_chunk<W: Sink, T: Sample>(
    writer: &mut TiffWriter<W>,
    rows: SampleRows<'_, T>,
) -> TiffResult<()>
    requires stride { (0 < rows.stride) × (rows.stride ≤ rows.row) }
    requires whole { length rows.samples.now % rows.row ≡ 0 }
    ensures { WritesCounted (row_bytes T.value_type T.bits rows.entry) writer.old writer.new result }
{
    writer.write_samples(rows)
}

// Appends the bytes of each row as differences.
fn push_rows<T: Sample>(
    samples: &[T],
    row: usize,
    stride: usize,
    out: &mut Vec<u8>,
) -> TiffResult<()>
    requires stride { (0 < stride) × (stride ≤ row) }
    requires whole { length samples.now % row ≡ 0 }
    ensures { MatchResult result
        (λ _. out.new.items ≡ out.old.items
        ++ predicted_bytes T.value_type T.bits Predictor.Horizontal row stride samples.now)
        (λ e. e ≡ TiffError.OutOfMemory) }
{
    let mut at = 0;
    while at < samples.len() {
        T::push_row(&samples[at..at + row], stride, out)?;
        at += row;
    }
    Ok(())
}

// Empties a list, and makes room for `rows` packed rows of `row` bytes each.
fn clear_for(rows: usize, row: usize, out: &mut Vec<u8>) -> TiffResult<()>
    ensures { MatchResult result (λ _. out.new.items ≡ []) (λ e. e ≡ TiffError.OutOfMemory) }
{
    out.clear();
    reserve_packed(rows, row, out)
}

/// Replaces the contents of a list by the bytes packed by PackBits (TIFF 6.0 section 9). It
/// reserves room for the largest possible number of packed bytes first, so that the list takes no
/// further memory for another chunk of as many bytes; no clause says how much room it has. The only
/// error is `OutOfMemory`, after which the list may contain anything.
pub fn pack_chunk(bytes: &[u8], out: &mut Vec<u8>) -> TiffResult<()>
    ensures { MatchResult result (λ _. IsPacked bytes.now out.new.items)
        (λ e. e ≡ TiffError.OutOfMemory) }
{
    clear_for(1, bytes.len(), out)?;
    push_packed(bytes, out)
}

/// `pack_chunk` of rows of `row` bytes, each packed by itself.
pub fn pack_chunk_rows(bytes: &[u8], row: usize, out: &mut Vec<u8>) -> TiffResult<()>
    requires some { 0 < row }
    requires whole { length bytes.now % row ≡ 0 }
    ensures { MatchResult result (λ _. ArePackedRows row bytes.now out.new.items)
        (λ e. e ≡ TiffError.OutOfMemory) }
{
    clear_for(bytes.len() / row, row, out)?;
    push_packed_rows(bytes, row, out)
}

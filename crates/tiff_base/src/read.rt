//! Exact reads of bytes from a source, and numbers in a byte order.

ghost use Rattle.std.specs.Prelude.{◌≡◌, ◌+◌, ◌-◌, ◌≤◌, length, take};
ghost use Rattle.std.specs.Int.{w16, w32, w64};
ghost use Rattle.tiff_base.specs.SourceAndSink.{AreReadable, bytes_at, exactly_at};
ghost use Rattle.tiff_base.specs.Number.{number, number_at};
ghost use Rattle.tiff_base.specs.Answers.{Answers, AnswersWithoutMemory, ReadsOnly, IsKept};
ghost use Rattle.tiff_base.specs.Sparing.{AnswersOrNoMemory};

use crate::error::{TiffError, TiffResult};
use crate::io::{IoKind, Source};
use crate::tags::ByteOrder;
use std::alloc::Global;

// Fills the rest of `buf`, of which the first `n` bytes were read already.
#[tactic(auto, using(crate::specs::lemmas::Bytes::next_read))]
#[inline(never)]
fn read_rest<R: Source>(source: &mut R, at: u64, buf: &mut [u8], n: usize) -> TiffResult<()>
    requires in_buffer { n ≤ length buf.old }
    requires in_bytes { n ≤ length (R.contents source.old).bytes - at }
    requires so_far { take n buf.old ≡ bytes_at (R.contents source.old).bytes at n }
    ensures kept { IsKept R.contents R.failures result source.old source.new }
    ensures answer { AnswersWithoutMemory (λ _. buf.new) result
        (exactly_at (R.contents source.old).bytes at (length buf.old)) (R.failures source.old)
        (R.failures source.new) }
    ensures asked { ReadsOnly (AreReadable (R.contents source.old) at (length buf.old)) result }
{
    let mut done = n;
    while done < buf.len() {
        let Some(offset) = at.checked_add(done as u64) else {
            return Err(TiffError::IoError(IoKind::UnexpectedEof));
        };
        let n = source.read_at(offset, &mut buf[done..])?;
        if n == 0 {
            return Err(TiffError::IoError(IoKind::UnexpectedEof));
        }
        done += n;
    }
    Ok(())
}

/// Fills `buf` with the bytes of the source from offset `at` on. Returns `IoError(UnexpectedEof)`
/// if the source has fewer bytes there.
#[tactic(auto, using(crate::specs::lemmas::Bytes::next_read))]
#[inline(always)]
pub fn read_exact_at<R: Source>(source: &mut R, at: u64, buf: &mut [u8]) -> TiffResult<()>
    ensures kept { IsKept R.contents R.failures result source.old source.new }
    ensures answer { AnswersWithoutMemory (λ _. buf.new) result
        (exactly_at (R.contents source.old).bytes at (length buf.old)) (R.failures source.old)
        (R.failures source.new) }
    ensures asked { ReadsOnly (AreReadable (R.contents source.old) at (length buf.old)) result }
{
    // Inlined up to the loop over rows: a `TiffResult` of 48 bytes is returned through memory, and
    // to read it back waits for the stores of the row that was copied.
    if buf.is_empty() {
        return Ok(());
    }
    let n = source.read_at(at, buf)?;
    if n == buf.len() {
        return Ok(());
    }
    if n == 0 {
        return Err(TiffError::IoError(IoKind::UnexpectedEof));
    }
    read_rest(source, at, buf, n)
}

// Reads the last of `len` bytes from offset `at` on, if there are any. Returns
// `IoError(UnexpectedEof)` if the source has fewer bytes there.
#[tactic(auto, using(crate::specs::lemmas::Bytes::cut_at_last, crate::specs::lemmas::Bytes::cut_past))]
fn read_last<R: Source>(source: &mut R, at: u64, len: usize) -> TiffResult<()>
    ensures kept { IsKept R.contents R.failures result source.old source.new }
    ensures answer { AnswersWithoutMemory (λ _. bytes_at (R.contents source.old).bytes at len) result
        (exactly_at (R.contents source.old).bytes at len) (R.failures source.old) (R.failures source.new) }
    ensures asked { ReadsOnly (AreReadable (R.contents source.old) at len) result }
{
    if len == 0 {
        return Ok(());
    }
    let Some(last) = at.checked_add(len as u64 - 1) else {
        return Err(TiffError::IoError(IoKind::UnexpectedEof));
    };
    read_exact_at(source, last, &mut [0u8; 1])
}

/// Returns the `len` bytes of the source from offset `at` on. Returns `IoError(UnexpectedEof)` if
/// the source has fewer bytes there. In that case the call allocates nothing, because it reads the
/// last byte first. The only other errors are those of the device, and `OutOfMemory` if the bytes
/// are there.
pub fn read_bytes_at<R: Source>(
    alloc: Global,
    source: &mut R,
    at: u64,
    len: usize,
) -> TiffResult<Vec<u8>>
    ensures kept { IsKept R.contents R.failures result source.old source.new }
    ensures answer { AnswersOrNoMemory (λ v. v.items) result (exactly_at (R.contents source.old).bytes at len)
        (R.failures source.old) (R.failures source.new) }
    ensures asked { ReadsOnly (AreReadable (R.contents source.old) at len) result }
{
    read_last(source, at, len)?;
    let mut bytes = vec![in alloc; 0u8; len]?;
    read_exact_at(source, at, &mut bytes)?;
    Ok(bytes)
}

/// Returns the number that two bytes encode in a byte order.
#[tactic(auto, unfolding(crate::specs::Number::number))]
pub fn u16_from(order: ByteOrder, bytes: [u8; 2]) -> u16
    ensures { result ≡ number order w16 bytes }
{
    match order {
        ByteOrder::LittleEndian => u16::from_le_bytes(bytes),
        ByteOrder::BigEndian => u16::from_be_bytes(bytes),
    }
}

/// Returns the number that four bytes encode in a byte order.
#[tactic(auto, unfolding(crate::specs::Number::number))]
pub fn u32_from(order: ByteOrder, bytes: [u8; 4]) -> u32
    ensures { result ≡ number order w32 bytes }
{
    match order {
        ByteOrder::LittleEndian => u32::from_le_bytes(bytes),
        ByteOrder::BigEndian => u32::from_be_bytes(bytes),
    }
}

/// Returns the number that eight bytes encode in a byte order.
#[tactic(auto, unfolding(crate::specs::Number::number))]
pub fn u64_from(order: ByteOrder, bytes: [u8; 8]) -> u64
    ensures { result ≡ number order w64 bytes }
{
    match order {
        ByteOrder::LittleEndian => u64::from_le_bytes(bytes),
        ByteOrder::BigEndian => u64::from_be_bytes(bytes),
    }
}

// Returns the number that a slice of two bytes encodes in a byte order.
fn u16_of(order: ByteOrder, bytes: &[u8]) -> u16
    requires { length bytes.now ≡ 2 }
    ensures { result ≡ number order w16 bytes.now }
{
    u16_from(order, [bytes[0], bytes[1]])
}

// Returns the number that a slice of four bytes encodes in a byte order.
fn u32_of(order: ByteOrder, bytes: &[u8]) -> u32
    requires { length bytes.now ≡ 4 }
    ensures { result ≡ number order w32 bytes.now }
{
    u32_from(order, [bytes[0], bytes[1], bytes[2], bytes[3]])
}

// Returns the number that a slice of eight bytes encodes in a byte order.
fn u64_of(order: ByteOrder, bytes: &[u8]) -> u64
    requires { length bytes.now ≡ 8 }
    ensures { result ≡ number order w64 bytes.now }
{
    u64_from(
        order,
        [
            bytes[0], bytes[1], bytes[2], bytes[3], bytes[4], bytes[5], bytes[6], bytes[7],
        ],
    )
}

/// Returns the number that the two bytes from index `at` on encode in a byte order.
pub fn u16_in(order: ByteOrder, bytes: &[u8], at: usize) -> u16
    requires { at + 2 ≤ length bytes.now }
    ensures { result ≡ number order w16 (bytes_at bytes.now at 2) }
{
    u16_of(order, &bytes[at..at + 2])
}

/// Returns the number that the four bytes from index `at` on encode in a byte order.
pub fn u32_in(order: ByteOrder, bytes: &[u8], at: usize) -> u32
    requires { at + 4 ≤ length bytes.now }
    ensures { result ≡ number order w32 (bytes_at bytes.now at 4) }
{
    u32_of(order, &bytes[at..at + 4])
}

/// Returns the number that the eight bytes from index `at` on encode in a byte order.
pub fn u64_in(order: ByteOrder, bytes: &[u8], at: usize) -> u64
    requires { at + 8 ≤ length bytes.now }
    ensures { result ≡ number order w64 (bytes_at bytes.now at 8) }
{
    u64_of(order, &bytes[at..at + 8])
}

/// Reads the two bytes of the source at offset `at` as a number. Returns `IoError(UnexpectedEof)`
/// if the source has fewer bytes there.
pub fn read_u16_at<R: Source>(source: &mut R, at: u64, order: ByteOrder) -> TiffResult<u16>
    ensures kept { IsKept R.contents R.failures result source.old source.new }
    ensures answer { AnswersWithoutMemory (λ n. n) result (number_at order w16 (R.contents source.old).bytes at)
        (R.failures source.old) (R.failures source.new) }
    ensures asked { ReadsOnly (AreReadable (R.contents source.old) at 2) result }
{
    let mut bytes = [0u8; 2];
    read_exact_at(source, at, &mut bytes)?;
    Ok(u16_from(order, bytes))
}

/// Reads the four bytes of the source at offset `at` as a number. Returns `IoError(UnexpectedEof)`
/// if the source has fewer bytes there.
pub fn read_u32_at<R: Source>(source: &mut R, at: u64, order: ByteOrder) -> TiffResult<u32>
    ensures kept { IsKept R.contents R.failures result source.old source.new }
    ensures answer { AnswersWithoutMemory (λ n. n) result (number_at order w32 (R.contents source.old).bytes at)
        (R.failures source.old) (R.failures source.new) }
    ensures asked { ReadsOnly (AreReadable (R.contents source.old) at 4) result }
{
    let mut bytes = [0u8; 4];
    read_exact_at(source, at, &mut bytes)?;
    Ok(u32_from(order, bytes))
}

/// Reads the eight bytes of the source at offset `at` as a number. Returns `IoError(UnexpectedEof)`
/// if the source has fewer bytes there.
pub fn read_u64_at<R: Source>(source: &mut R, at: u64, order: ByteOrder) -> TiffResult<u64>
    ensures kept { IsKept R.contents R.failures result source.old source.new }
    ensures answer { AnswersWithoutMemory (λ n. n) result (number_at order w64 (R.contents source.old).bytes at)
        (R.failures source.old) (R.failures source.new) }
    ensures asked { ReadsOnly (AreReadable (R.contents source.old) at 8) result }
{
    let mut bytes = [0u8; 8];
    read_exact_at(source, at, &mut bytes)?;
    Ok(u64_from(order, bytes))
}

//! Loops that replace a row of numbers by its differences: each number minus the number one stride
//! before it.

ghost use Rattle.std.specs.Prelude.{◌≡◌, ◌+◌, ◌-◌, ◌*◌, ◌^◌, ◌%◌, ◌<◌, ◌≤◌, ◌++◌, ℕ, get_or, length, map, Ok, MatchBool, MatchResult};
ghost use Rattle.std.specs.List.{flat_map};
ghost use Rattle.tiff_base.specs.Number.{le};
ghost use Rattle.tiff_base.specs.Types.{type_size};
ghost use Rattle.tiff_value.specs.ColorType.{sample_number};
ghost use Rattle.tiff_value.specs.Differences.{predicted_part, predicted_row, IsPart};
ghost use Rattle.tiff_value.specs.Predicted.{AppendsRow};

use super::tiff_value::TiffScalar;
use tiff_base::error::{TiffError, TiffResult};

/// A number with a fixed number of bits.
pub(crate) trait Whole: TiffScalar + Copy {
    ghost use Rattle.std.specs.Prelude.{◌≡◌, ◌+◌, ◌-◌, ◌%◌, ◌<◌, ◌≤◌, ℕ, length, map};
    ghost use Rattle.tiff_value.specs.Lanes.{less_from};
    ghost use Rattle.tiff_base.specs.Number.{le};

    ghost bits: { Self → ℕ };

    // The number of different values of the type.
    ghost modulus: { ℕ };

    /// Returns this number minus the other, modulo the modulus. The bits of both numbers are below
    /// the modulus.
    fn less(self, other: Self) -> Self
        ensures difference { bits result ≡ (bits self + modulus - bits other) % modulus }
        ensures own { bits self < modulus }
        ensures others { bits other < modulus };

    /// Stores sixteen differences of a row: each number from number `at` on, minus the number at
    /// the same distance from number `before` on, modulo the modulus.
    fn less_lanes(row: &[Self], at: usize, before: usize, out: &mut [Self])
        requires order { before ≤ at }
        requires row { at + 16 ≤ length row.now }
        requires out { length out.old ≡ 16 }
        ensures { map bits out.new ≡ less_from modulus 16 at before (map bits row.now) }
    {
        'each: for k in 0..16 {
            out[k] = row[at + k].less(row[before + k]);
        }
    }

    /// Fills `out` with the bytes of this number, the lowest byte first.
    fn put(self, out: &mut [u8])
        requires { length out.old ≡ type_size Self.value_type }
        ensures { out.new ≡ le (type_size Self.value_type) (bits self) };

    // A number is written as the bytes of its bits, the lowest byte first.
    ghost by_bits: { (x : Self) → Self.spelled x ≡ le (type_size Self.value_type) (bits x) };

    // The type has as many values as its bytes can encode.
    ghost all: { modulus ≡ 256 ^ type_size Self.value_type };
}

// The contract states that the bits of each sample are below the modulus. Nothing else states this
// of signed numbers in a slice. The loop has no effect, and the compiler removes it.
fn all_below<T: Whole>(row: &[T])
    ensures { (k : ℕ) → k < length row.now → get_or (map T.bits row.now) k 0 < T.modulus }
{
    'seen: for i in 0..row.len() {
        let _none = row[i].less(row[i]);
    }
}

// Replaces the copy of a row by its differences. The numbers of the first pixel stay as they are.
fn less_all<T: Whole>(row: &[T], stride: usize, out: &mut [T])
    requires some { 0 < stride }
    requires whole { stride ≤ length row.now }
    requires begun { out.old ≡ row.now }
    ensures { map T.bits out.new ≡ predicted_row T.modulus stride (map T.bits row.now) }
{
    all_below(row);
    let parts = (row.len() - stride) / 16;
    'parts: for k in 0..parts {
        let at = stride + k * 16;
        T::less_lanes(row, at, at - stride, &mut out[at..at + 16]);
    }
    'rest: for i in stride + parts * 16..row.len() {
        out[i] = row[i].less(row[i - stride]);
    }
}

// Fills `out` with the bytes of a part of a row as differences. Samples before `stride` are stored
// as they are. If the type is known, the compiler builds the loops for this type.
fn put_row_part<T: Whole>(row: &[T], at: usize, end: usize, stride: usize, out: &mut [u8])
    requires order { (at ≤ end) × (end ≤ length row.now) }
    requires room { length out.old ≡ (end - at) * type_size T.value_type }
    ensures { out.new ≡ flat_map (le (type_size T.value_type))
        (predicted_part T.modulus stride at end
        (map (sample_number (type_size T.value_type) T.bits) row.now)) }
{
    let (_kind, len) = T::type_and_len();
    let width = usize::from(len);
    let split = stride.max(at).min(end);
    'first: for k in at..split {
        let to = (k - at) * width;
        row[k].put(&mut out[to..to + width]);
    }
    'later: for k in split..end {
        let to = (k - at) * width;
        row[k].less(row[k - stride]).put(&mut out[to..to + width]);
    }
}

// Returns whether the samples from `at` up to `end`, of `width` bytes each, are all in a row of
// `long` samples, and have `room` bytes in all.
fn is_part(long: usize, at: usize, end: usize, width: usize, room: usize) -> bool
    ensures { MatchBool result (IsPart long at end width room) (IsPart long at end width room → ⊥) }
{
    if end < at || long < end {
        return false;
    }
    let Some(bytes) = (end - at).checked_mul(width) else {
        return false;
    };
    bytes == room
}

/// Fills `out` with the bytes of a part of a row as differences, if the part is in the row and has
/// as many bytes as `out`. Otherwise `out` stays unchanged.
pub(crate) fn put_fitting_part<T: Whole>(
    row: &[T],
    at: usize,
    end: usize,
    stride: usize,
    out: &mut [u8],
)
    ensures part { IsPart (length row.now) at end (type_size T.value_type) (length out.old)
        → out.new ≡ flat_map (le (type_size T.value_type))
        (predicted_part T.modulus stride at end
        (map (sample_number (type_size T.value_type) T.bits) row.now)) }
    ensures other { (IsPart (length row.now) at end (type_size T.value_type) (length out.old) → ⊥)
        → out.new ≡ out.old }
{
    let (_kind, len) = T::type_and_len();
    if is_part(row.len(), at, end, usize::from(len), out.len()) {
        put_row_part(row, at, end, stride, out);
    }
}

/// Appends a row to `out`, and then replaces it by its differences.
pub(crate) fn push_differences<T: Whole>(
    row: &[T],
    stride: usize,
    out: &mut Vec<T>,
) -> TiffResult<()>
    ensures { AppendsRow T.bits (Ok (predicted_row T.modulus stride (map T.bits row.now)))
        out.old.items out.new.items result }
{
    if stride == 0 || row.len() < stride {
        return Ok(());
    }
    let start = out.len();
    out.extend_from_slice(row)?;
    less_all(row, stride, &mut out[start..]);
    Ok(())
}

/// Appends the differences of a row as bytes, the lowest byte of each number first. The function
/// appends zeros, and then replaces them by these bytes.
pub(crate) fn push_row_differences<T: Whole>(
    row: &[T],
    stride: usize,
    out: &mut Vec<u8>,
) -> TiffResult<()>
    ensures { MatchResult result
        (λ _. out.new.items ≡ out.old.items ++ flat_map (le (type_size T.value_type))
        (predicted_row T.modulus stride
        (map (sample_number (type_size T.value_type) T.bits) row.now)))
        (λ e. e ≡ TiffError.OutOfMemory) }
{
    if stride == 0 || row.len() < stride {
        return Ok(());
    }
    let (_kind, len) = T::type_and_len();
    let start = out.len();
    let bytes = row.len().saturating_mul(usize::from(len));
    let Some(end) = start.checked_add(bytes) else {
        return Err(TiffError::OutOfMemory);
    };
    out.resize(end, 0)?;
    put_row_part(row, 0, row.len(), stride, &mut out[start..]);
    Ok(())
}

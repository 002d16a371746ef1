//! Rows of samples as differences: each sample minus the sample one stride before it.

ghost use Rattle.std.specs.Int.{w8, w16, w32, w64, cast_unsigned};
ghost use Rattle.std.specs.Prelude.{◌^◌, IfSome, refl};
ghost use Rattle.tiff_value.specs.Predicted.{AppendsRow};

use super::octets::{show_bytes, show_numbers};
use super::row_differences::{Whole, push_differences, push_row_differences, put_fitting_part};
use super::tiff_value::TiffScalar;
use std::simd::prelude::*;
use tiff_base::error::{TiffError, TiffResult, UsageError};
use tiff_base::io::ByteWitness;
use tiff_base::tags::{Bits32, Bits64};

/// The number type of a sample in memory. This project adds this trait.
pub trait Sample: TiffScalar + Copy {
    ghost use Rattle.std.specs.Prelude.{◌≡◌, ◌≤◌, ◌++◌, ◌-◌, ◌*◌, ◌^◌, ◌%◌, ℕ, length, map, MatchResult};
    ghost use Rattle.std.specs.List.{flat_map};
    ghost use Rattle.tiff_base.specs.Number.{le};
    ghost use Rattle.tiff_base.specs.Types.{type_size};
    ghost use Rattle.tiff_value.specs.ColorType.{sample_number};
    ghost use Rattle.tiff_value.specs.Differences.{predicted_part, predicted_row, IsPart};
    ghost use Rattle.tiff_value.specs.Predicted.{row_of_type};

    // The bits of a sample, as a natural number.
    ghost bits: { Self → ℕ };

    /// Returns the sample whose bits are all zero.
    fn zero() -> Self
        ensures { bits result ≡ 0 };

    /// Returns the sample with the lowest bits of a number, as many as the sample has.
    fn cut(number: u64) -> Self
        ensures { sample_number (type_size Self.value_type) bits result ≡ number % 256
            ^ type_size Self.value_type };

    /// Appends the first `stride` samples of a row, and then each further sample minus the sample
    /// `stride` before it, modulo its width. Appends nothing for a stride of 0 or for a row shorter
    /// than the stride. Returns `UsageError(PredictorIncompatible)` for floating-point numbers.
    fn predict_row(row: &[Self], stride: usize, out: &mut Vec<Self>) -> TiffResult<()>
        ensures { AppendsRow bits (row_of_type Self.value_type stride (map bits row.now))
            out.old.items out.new.items result };

    /// Appends the bytes of the differences of a row, the lowest byte of each number first.
    /// Floating-point numbers count as their bits. Appends nothing for a stride of 0 or for a row
    /// shorter than the stride. The only error is `OutOfMemory`, after which `out` may contain
    /// anything.
    fn push_row(row: &[Self], stride: usize, out: &mut Vec<u8>) -> TiffResult<()>
        ensures { MatchResult result
            (λ _. out.new.items ≡ out.old.items ++ flat_map (le (type_size Self.value_type))
            (predicted_row (256 ^ type_size Self.value_type) stride
            (map (sample_number (type_size Self.value_type) bits) row.now)))
            (λ e. e ≡ TiffError.OutOfMemory) };

    /// Fills `out` with the bytes of the differences of a row, from sample `at` up to `end`, the
    /// lowest byte of each number first. Floating-point numbers count as their bits. Samples before
    /// `stride` are stored as they are, also all samples of a row no longer than `stride`. `out`
    /// stays unchanged if these samples are not all in the row, or if their number of bytes is not
    /// the length of `out`.
    fn put_part(row: &[Self], at: usize, end: usize, stride: usize, out: &mut [u8])
        ensures part { IsPart (length row.now) at end (type_size Self.value_type) (length out.old)
            → out.new ≡ flat_map (le (type_size Self.value_type))
            (predicted_part (256 ^ type_size Self.value_type) stride at end
            (map (sample_number (type_size Self.value_type) bits) row.now)) }
        ensures other { (IsPart (length row.now) at end (type_size Self.value_type) (length out.old) → ⊥)
            → out.new ≡ out.old };

    /// Returns the bytes that the samples are written as, without a copy, if each sample is one
    /// unsigned byte (`u8`). Returns `None` for other samples.
    fn as_bytes(samples: &[Self]) -> Option<&[u8]>
        ensures { IfSome result
            (λ b. b.now ≡ flat_map (le (type_size Self.value_type))
            (map (sample_number (type_size Self.value_type) bits) samples.now)) };

    /// Returns bytes as samples, without a copy, if each sample is one unsigned byte (`u8`).
    /// Returns `None` for other samples.
    fn from_bytes(bytes: &[u8]) -> Option<&[Self]>
        ensures { IfSome result (λ samples. (type_size Self.value_type ≡ 1)
            × (map (sample_number (type_size Self.value_type) bits) samples.now ≡ bytes.now)) };

    /// Shows each byte that the samples are written as. A witness that keeps nothing costs nothing.
    fn show_all<S: ByteWitness>(samples: &[Self], witness: &mut S)
        ensures { S.seen witness.new ≡ S.seen witness.old ++ flat_map Self.spelled samples.now };

    // A sample is written as the bytes of its bits, the lowest byte first.
    ghost by_bits: { (x : Self) → Self.spelled x ≡ le (type_size Self.value_type) (bits x) };
}

impl Whole for u8 {
    ghost bits = { λ n. n };

    ghost modulus = { 2 ^ 8 };

    fn less(self, other: u8) -> u8 {
        self.wrapping_sub(other)
    }

    fn less_lanes(row: &[u8], at: usize, before: usize, out: &mut [u8]) {
        (u8x16::from_slice(&row[at..]) - u8x16::from_slice(&row[before..])).copy_to_slice(out);
    }

    fn put(self, out: &mut [u8]) {
        out.copy_from_slice(&self.to_le_bytes());
    }

    ghost by_bits = { λ x. refl };

    ghost all = { refl };
}

impl Sample for u8 {
    ghost bits = { λ n. n };

    fn zero() -> u8 {
        0
    }

    fn cut(number: u64) -> u8 {
        (number % 256) as u8
    }

    fn predict_row(row: &[u8], stride: usize, out: &mut Vec<u8>) -> TiffResult<()> {
        push_differences(row, stride, out)
    }

    // the differences are the bytes that are appended
    fn push_row(row: &[u8], stride: usize, out: &mut Vec<u8>) -> TiffResult<()> {
        push_differences(row, stride, out)
    }

    fn put_part(row: &[u8], at: usize, end: usize, stride: usize, out: &mut [u8]) {
        put_fitting_part(row, at, end, stride, out);
    }

    fn as_bytes(samples: &[u8]) -> Option<&[u8]> {
        Some(samples)
    }

    #[tactic(auto, using(crate::specs::lemmas::Bytes::octets_alone))]
    fn from_bytes(bytes: &[u8]) -> Option<&[u8]> {
        Some(bytes)
    }

    fn show_all<S: ByteWitness>(samples: &[u8], witness: &mut S) {
        show_bytes(samples, witness)
    }

    ghost by_bits = { λ x. refl };
}

impl Whole for i8 {
    ghost bits = { cast_unsigned w8 };

    ghost modulus = { 2 ^ 8 };

    #[tactic(auto, using(crate::proofs::Predicted::signed_less, crate::proofs::Predicted::signed_below))]
    fn less(self, other: i8) -> i8 {
        self.wrapping_sub(other)
    }

    fn less_lanes(row: &[i8], at: usize, before: usize, out: &mut [i8]) {
        (i8x16::from_slice(&row[at..]) - i8x16::from_slice(&row[before..])).copy_to_slice(out);
    }

    fn put(self, out: &mut [u8]) {
        out.copy_from_slice(&self.to_le_bytes());
    }

    ghost by_bits = { λ x. refl };

    ghost all = { refl };
}

impl Sample for i8 {
    ghost bits = { cast_unsigned w8 };

    fn zero() -> i8 {
        0
    }

    #[tactic(auto, using(crate::proofs::Predicted::signed_cut))]
    fn cut(number: u64) -> i8 {
        ((number % 256) as u8).cast_signed()
    }

    fn predict_row(row: &[i8], stride: usize, out: &mut Vec<i8>) -> TiffResult<()> {
        push_differences(row, stride, out)
    }

    fn push_row(row: &[i8], stride: usize, out: &mut Vec<u8>) -> TiffResult<()> {
        push_row_differences(row, stride, out)
    }

    fn put_part(row: &[i8], at: usize, end: usize, stride: usize, out: &mut [u8]) {
        put_fitting_part(row, at, end, stride, out);
    }

    fn as_bytes(samples: &[i8]) -> Option<&[u8]> {
        None
    }

    fn from_bytes(bytes: &[u8]) -> Option<&[i8]> {
        None
    }

    fn show_all<S: ByteWitness>(samples: &[i8], witness: &mut S) {
        show_numbers::<i8, 1, S>(samples, witness)
    }

    ghost by_bits = { λ x. refl };
}

impl Whole for u16 {
    ghost bits = { λ n. n };

    ghost modulus = { 2 ^ 16 };

    fn less(self, other: u16) -> u16 {
        self.wrapping_sub(other)
    }

    fn less_lanes(row: &[u16], at: usize, before: usize, out: &mut [u16]) {
        (u16x16::from_slice(&row[at..]) - u16x16::from_slice(&row[before..])).copy_to_slice(out);
    }

    fn put(self, out: &mut [u8]) {
        out.copy_from_slice(&self.to_le_bytes());
    }

    ghost by_bits = { λ x. refl };

    ghost all = { refl };
}

impl Sample for u16 {
    ghost bits = { λ n. n };

    fn zero() -> u16 {
        0
    }

    fn cut(number: u64) -> u16 {
        (number % 65_536) as u16
    }

    fn predict_row(row: &[u16], stride: usize, out: &mut Vec<u16>) -> TiffResult<()> {
        push_differences(row, stride, out)
    }

    fn push_row(row: &[u16], stride: usize, out: &mut Vec<u8>) -> TiffResult<()> {
        push_row_differences(row, stride, out)
    }

    fn put_part(row: &[u16], at: usize, end: usize, stride: usize, out: &mut [u8]) {
        put_fitting_part(row, at, end, stride, out);
    }

    fn as_bytes(samples: &[u16]) -> Option<&[u8]> {
        None
    }

    fn from_bytes(bytes: &[u8]) -> Option<&[u16]> {
        None
    }

    fn show_all<S: ByteWitness>(samples: &[u16], witness: &mut S) {
        show_numbers::<u16, 2, S>(samples, witness)
    }

    ghost by_bits = { λ x. refl };
}

impl Whole for i16 {
    ghost bits = { cast_unsigned w16 };

    ghost modulus = { 2 ^ 16 };

    #[tactic(auto, using(crate::proofs::Predicted::signed_less, crate::proofs::Predicted::signed_below))]
    fn less(self, other: i16) -> i16 {
        self.wrapping_sub(other)
    }

    fn less_lanes(row: &[i16], at: usize, before: usize, out: &mut [i16]) {
        (i16x16::from_slice(&row[at..]) - i16x16::from_slice(&row[before..])).copy_to_slice(out);
    }

    fn put(self, out: &mut [u8]) {
        out.copy_from_slice(&self.to_le_bytes());
    }

    ghost by_bits = { λ x. refl };

    ghost all = { refl };
}

impl Sample for i16 {
    ghost bits = { cast_unsigned w16 };

    fn zero() -> i16 {
        0
    }

    #[tactic(auto, using(crate::proofs::Predicted::signed_cut))]
    fn cut(number: u64) -> i16 {
        ((number % 65_536) as u16).cast_signed()
    }

    fn predict_row(row: &[i16], stride: usize, out: &mut Vec<i16>) -> TiffResult<()> {
        push_differences(row, stride, out)
    }

    fn push_row(row: &[i16], stride: usize, out: &mut Vec<u8>) -> TiffResult<()> {
        push_row_differences(row, stride, out)
    }

    fn put_part(row: &[i16], at: usize, end: usize, stride: usize, out: &mut [u8]) {
        put_fitting_part(row, at, end, stride, out);
    }

    fn as_bytes(samples: &[i16]) -> Option<&[u8]> {
        None
    }

    fn from_bytes(bytes: &[u8]) -> Option<&[i16]> {
        None
    }

    fn show_all<S: ByteWitness>(samples: &[i16], witness: &mut S) {
        show_numbers::<i16, 2, S>(samples, witness)
    }

    ghost by_bits = { λ x. refl };
}

impl Whole for u32 {
    ghost bits = { λ n. n };

    ghost modulus = { 2 ^ 32 };

    fn less(self, other: u32) -> u32 {
        self.wrapping_sub(other)
    }

    fn less_lanes(row: &[u32], at: usize, before: usize, out: &mut [u32]) {
        (u32x16::from_slice(&row[at..]) - u32x16::from_slice(&row[before..])).copy_to_slice(out);
    }

    fn put(self, out: &mut [u8]) {
        out.copy_from_slice(&self.to_le_bytes());
    }

    ghost by_bits = { λ x. refl };

    ghost all = { refl };
}

impl Sample for u32 {
    ghost bits = { λ n. n };

    fn zero() -> u32 {
        0
    }

    fn cut(number: u64) -> u32 {
        (number % 4_294_967_296) as u32
    }

    fn predict_row(row: &[u32], stride: usize, out: &mut Vec<u32>) -> TiffResult<()> {
        push_differences(row, stride, out)
    }

    fn push_row(row: &[u32], stride: usize, out: &mut Vec<u8>) -> TiffResult<()> {
        push_row_differences(row, stride, out)
    }

    fn put_part(row: &[u32], at: usize, end: usize, stride: usize, out: &mut [u8]) {
        put_fitting_part(row, at, end, stride, out);
    }

    fn as_bytes(samples: &[u32]) -> Option<&[u8]> {
        None
    }

    fn from_bytes(bytes: &[u8]) -> Option<&[u32]> {
        None
    }

    fn show_all<S: ByteWitness>(samples: &[u32], witness: &mut S) {
        show_numbers::<u32, 4, S>(samples, witness)
    }

    ghost by_bits = { λ x. refl };
}

impl Whole for i32 {
    ghost bits = { cast_unsigned w32 };

    ghost modulus = { 2 ^ 32 };

    #[tactic(auto, using(crate::proofs::Predicted::signed_less, crate::proofs::Predicted::signed_below))]
    fn less(self, other: i32) -> i32 {
        self.wrapping_sub(other)
    }

    fn less_lanes(row: &[i32], at: usize, before: usize, out: &mut [i32]) {
        (i32x16::from_slice(&row[at..]) - i32x16::from_slice(&row[before..])).copy_to_slice(out);
    }

    fn put(self, out: &mut [u8]) {
        out.copy_from_slice(&self.to_le_bytes());
    }

    ghost by_bits = { λ x. refl };

    ghost all = { refl };
}

impl Sample for i32 {
    ghost bits = { cast_unsigned w32 };

    fn zero() -> i32 {
        0
    }

    #[tactic(auto, using(crate::proofs::Predicted::signed_cut))]
    fn cut(number: u64) -> i32 {
        ((number % 4_294_967_296) as u32).cast_signed()
    }

    fn predict_row(row: &[i32], stride: usize, out: &mut Vec<i32>) -> TiffResult<()> {
        push_differences(row, stride, out)
    }

    fn push_row(row: &[i32], stride: usize, out: &mut Vec<u8>) -> TiffResult<()> {
        push_row_differences(row, stride, out)
    }

    fn put_part(row: &[i32], at: usize, end: usize, stride: usize, out: &mut [u8]) {
        put_fitting_part(row, at, end, stride, out);
    }

    fn as_bytes(samples: &[i32]) -> Option<&[u8]> {
        None
    }

    fn from_bytes(bytes: &[u8]) -> Option<&[i32]> {
        None
    }

    fn show_all<S: ByteWitness>(samples: &[i32], witness: &mut S) {
        show_numbers::<i32, 4, S>(samples, witness)
    }

    ghost by_bits = { λ x. refl };
}

impl Whole for u64 {
    ghost bits = { λ n. n };

    ghost modulus = { 2 ^ 64 };

    fn less(self, other: u64) -> u64 {
        self.wrapping_sub(other)
    }

    fn less_lanes(row: &[u64], at: usize, before: usize, out: &mut [u64]) {
        (u64x16::from_slice(&row[at..]) - u64x16::from_slice(&row[before..])).copy_to_slice(out);
    }

    fn put(self, out: &mut [u8]) {
        out.copy_from_slice(&self.to_le_bytes());
    }

    ghost by_bits = { λ x. refl };

    ghost all = { refl };
}

impl Sample for u64 {
    ghost bits = { λ n. n };

    fn zero() -> u64 {
        0
    }

    fn cut(number: u64) -> u64 {
        number
    }

    fn predict_row(row: &[u64], stride: usize, out: &mut Vec<u64>) -> TiffResult<()> {
        push_differences(row, stride, out)
    }

    fn push_row(row: &[u64], stride: usize, out: &mut Vec<u8>) -> TiffResult<()> {
        push_row_differences(row, stride, out)
    }

    fn put_part(row: &[u64], at: usize, end: usize, stride: usize, out: &mut [u8]) {
        put_fitting_part(row, at, end, stride, out);
    }

    fn as_bytes(samples: &[u64]) -> Option<&[u8]> {
        None
    }

    fn from_bytes(bytes: &[u8]) -> Option<&[u64]> {
        None
    }

    fn show_all<S: ByteWitness>(samples: &[u64], witness: &mut S) {
        show_numbers::<u64, 8, S>(samples, witness)
    }

    ghost by_bits = { λ x. refl };
}

impl Whole for i64 {
    ghost bits = { cast_unsigned w64 };

    ghost modulus = { 2 ^ 64 };

    #[tactic(auto, using(crate::proofs::Predicted::signed_less, crate::proofs::Predicted::signed_below))]
    fn less(self, other: i64) -> i64 {
        self.wrapping_sub(other)
    }

    fn less_lanes(row: &[i64], at: usize, before: usize, out: &mut [i64]) {
        (i64x16::from_slice(&row[at..]) - i64x16::from_slice(&row[before..])).copy_to_slice(out);
    }

    fn put(self, out: &mut [u8]) {
        out.copy_from_slice(&self.to_le_bytes());
    }

    ghost by_bits = { λ x. refl };

    ghost all = { refl };
}

impl Sample for i64 {
    ghost bits = { cast_unsigned w64 };

    fn zero() -> i64 {
        0
    }

    #[tactic(auto, using(crate::proofs::Predicted::signed_cut))]
    fn cut(number: u64) -> i64 {
        number.cast_signed()
    }

    fn predict_row(row: &[i64], stride: usize, out: &mut Vec<i64>) -> TiffResult<()> {
        push_differences(row, stride, out)
    }

    fn push_row(row: &[i64], stride: usize, out: &mut Vec<u8>) -> TiffResult<()> {
        push_row_differences(row, stride, out)
    }

    fn put_part(row: &[i64], at: usize, end: usize, stride: usize, out: &mut [u8]) {
        put_fitting_part(row, at, end, stride, out);
    }

    fn as_bytes(samples: &[i64]) -> Option<&[u8]> {
        None
    }

    fn from_bytes(bytes: &[u8]) -> Option<&[i64]> {
        None
    }

    fn show_all<S: ByteWitness>(samples: &[i64], witness: &mut S) {
        show_numbers::<i64, 8, S>(samples, witness)
    }

    ghost by_bits = { λ x. refl };
}

impl Whole for Bits32 {
    ghost bits = { λ n. n.0 };

    ghost modulus = { 2 ^ 32 };

    fn less(self, other: Bits32) -> Bits32 {
        Bits32(self.0.wrapping_sub(other.0))
    }

    fn put(self, out: &mut [u8]) {
        out.copy_from_slice(&self.0.to_le_bytes());
    }

    ghost by_bits = { λ x. refl };

    ghost all = { refl };
}

impl Sample for Bits32 {
    ghost bits = { λ n. n.0 };

    fn zero() -> Bits32 {
        Bits32(0)
    }

    fn cut(number: u64) -> Bits32 {
        Bits32((number % 4_294_967_296) as u32)
    }

    fn predict_row(row: &[Bits32], stride: usize, out: &mut Vec<Bits32>) -> TiffResult<()> {
        Err(TiffError::UsageError(UsageError::PredictorIncompatible))
    }

    fn push_row(row: &[Bits32], stride: usize, out: &mut Vec<u8>) -> TiffResult<()> {
        push_row_differences(row, stride, out)
    }

    fn put_part(row: &[Bits32], at: usize, end: usize, stride: usize, out: &mut [u8]) {
        put_fitting_part(row, at, end, stride, out);
    }

    fn as_bytes(samples: &[Bits32]) -> Option<&[u8]> {
        None
    }

    fn from_bytes(bytes: &[u8]) -> Option<&[Bits32]> {
        None
    }

    fn show_all<S: ByteWitness>(samples: &[Bits32], witness: &mut S) {
        show_numbers::<Bits32, 4, S>(samples, witness)
    }

    ghost by_bits = { λ x. refl };
}

impl Whole for Bits64 {
    ghost bits = { λ n. n.0 };

    ghost modulus = { 2 ^ 64 };

    fn less(self, other: Bits64) -> Bits64 {
        Bits64(self.0.wrapping_sub(other.0))
    }

    fn put(self, out: &mut [u8]) {
        out.copy_from_slice(&self.0.to_le_bytes());
    }

    ghost by_bits = { λ x. refl };

    ghost all = { refl };
}

impl Sample for Bits64 {
    ghost bits = { λ n. n.0 };

    fn zero() -> Bits64 {
        Bits64(0)
    }

    fn cut(number: u64) -> Bits64 {
        Bits64(number)
    }

    fn predict_row(row: &[Bits64], stride: usize, out: &mut Vec<Bits64>) -> TiffResult<()> {
        Err(TiffError::UsageError(UsageError::PredictorIncompatible))
    }

    fn push_row(row: &[Bits64], stride: usize, out: &mut Vec<u8>) -> TiffResult<()> {
        push_row_differences(row, stride, out)
    }

    fn put_part(row: &[Bits64], at: usize, end: usize, stride: usize, out: &mut [u8]) {
        put_fitting_part(row, at, end, stride, out);
    }

    fn as_bytes(samples: &[Bits64]) -> Option<&[u8]> {
        None
    }

    fn from_bytes(bytes: &[u8]) -> Option<&[Bits64]> {
        None
    }

    fn show_all<S: ByteWitness>(samples: &[Bits64], witness: &mut S) {
        show_numbers::<Bits64, 8, S>(samples, witness)
    }

    ghost by_bits = { λ x. refl };
}

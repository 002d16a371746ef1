//! Lists of numbers into which rows of bytes are written.
#![tactic(auto, using(crate::specs::lemmas::NumberBytes::bytes_1, crate::specs::lemmas::NumberBytes::bytes_2, crate::specs::lemmas::NumberBytes::bytes_4, crate::specs::lemmas::NumberBytes::bytes_8,), unfolding(tiff_base::specs::Number::number))]

ghost use Rattle.std.proofs.Common.{refl, inl, inr};
ghost use Rattle.std.specs.Int.{div_ceil, w8, w16, w32, w64, cast_unsigned};
ghost use Rattle.std.specs.Prelude.{◌≡◌, ℕ, ◌+◌, ◌-◌, ◌*◌, ◌/◌, ◌%◌, ◌^◌, ◌≤◌, ◌<◌, ◌↔◌, ◌++◌, IsTrue, drop, length, map, replicate, ◌∷◌, [], OnOk};
ghost use Rattle.std.specs.Vec.{vec_capacity, vec_len};
ghost use Rattle.tiff_base.specs.Number.{number};
ghost use Rattle.tiff_base.specs.declared.tags.ByteOrder.TheVariants.{LittleEndian};
ghost use Rattle.tiff_page.specs.BufferPositions.{filled_to};
ghost use Rattle.tiff_page.specs.NumberBytes.{all_bytes, bytes_in, IsPut};
ghost use Rattle.tiff_page.specs.Pixels.{row_number, tabulate, width_of};
ghost use Rattle.tiff_page.specs.Row.{IsSize};

use std::alloc::AllocError;
use tiff_base::tags::{Bits16, Bits32, Bits64};

/// A number of `N` bytes.
pub trait Number<const N: usize>: Copy {
    /// The bits of the number.
    ghost bits: { Self → ℕ };

    /// Returns zero.
    fn zero() -> Self
        ensures { bits result ≡ 0 };

    /// Returns the number of some bytes, the least significant first.
    fn of(bytes: [u8; N]) -> Self
        ensures { bits result ≡ number LittleEndian (width_of N) bytes.entry };

    /// Returns the bytes of the number, the least significant first.
    fn bytes(self) -> [u8; N]
        ensures { result ≡ all_bytes N (bits self) };

    /// `N` is 1, 2, 4 or 8.
    ghost sized: { IsSize N };
}

impl Number<1> for u8 {
    ghost bits = { λ n. n };

    fn zero() -> u8 {
        0
    }

    fn of(bytes: [u8; 1]) -> u8
        ensures { result ≡ number LittleEndian w8 bytes }
    {
        u8::from_le_bytes(bytes)
    }

    fn bytes(self) -> [u8; 1] {
        self.to_le_bytes()
    }

    ghost sized = { inl refl };
}

impl Number<2> for u16 {
    ghost bits = { λ n. n };

    fn zero() -> u16 {
        0
    }

    fn of(bytes: [u8; 2]) -> u16
        ensures { result ≡ number LittleEndian w16 bytes }
    {
        u16::from_le_bytes(bytes)
    }

    fn bytes(self) -> [u8; 2] {
        self.to_le_bytes()
    }

    ghost sized = { inr (inl refl) };
}

impl Number<4> for u32 {
    ghost bits = { λ n. n };

    fn zero() -> u32 {
        0
    }

    fn of(bytes: [u8; 4]) -> u32
        ensures { result ≡ number LittleEndian w32 bytes }
    {
        u32::from_le_bytes(bytes)
    }

    fn bytes(self) -> [u8; 4] {
        self.to_le_bytes()
    }

    ghost sized = { inr (inr (inl refl)) };
}

impl Number<8> for u64 {
    ghost bits = { λ n. n };

    fn zero() -> u64 {
        0
    }

    fn of(bytes: [u8; 8]) -> u64
        ensures { result ≡ number LittleEndian w64 bytes }
    {
        u64::from_le_bytes(bytes)
    }

    fn bytes(self) -> [u8; 8] {
        self.to_le_bytes()
    }

    ghost sized = { inr (inr (inr refl)) };
}

impl Number<2> for Bits16 {
    ghost bits = { λ b. b.0 };

    fn zero() -> Bits16 {
        Bits16(0)
    }

    fn of(bytes: [u8; 2]) -> Bits16
        ensures { result.0 ≡ number LittleEndian w16 bytes }
    {
        Bits16(u16::from_le_bytes(bytes))
    }

    fn bytes(self) -> [u8; 2] {
        self.0.to_le_bytes()
    }

    ghost sized = { inr (inl refl) };
}

impl Number<4> for Bits32 {
    ghost bits = { λ b. b.0 };

    fn zero() -> Bits32 {
        Bits32(0)
    }

    fn of(bytes: [u8; 4]) -> Bits32
        ensures { result.0 ≡ number LittleEndian w32 bytes }
    {
        Bits32(u32::from_le_bytes(bytes))
    }

    fn bytes(self) -> [u8; 4] {
        self.0.to_le_bytes()
    }

    ghost sized = { inr (inr (inl refl)) };
}

impl Number<8> for Bits64 {
    ghost bits = { λ b. b.0 };

    fn zero() -> Bits64 {
        Bits64(0)
    }

    fn of(bytes: [u8; 8]) -> Bits64
        ensures { result.0 ≡ number LittleEndian w64 bytes }
    {
        Bits64(u64::from_le_bytes(bytes))
    }

    fn bytes(self) -> [u8; 8] {
        self.0.to_le_bytes()
    }

    ghost sized = { inr (inr (inr refl)) };
}

impl Number<1> for i8 {
    ghost bits = { cast_unsigned w8 };

    fn zero() -> i8 {
        0
    }

    fn of(bytes: [u8; 1]) -> i8
        ensures { cast_unsigned w8 result ≡ number LittleEndian w8 bytes }
    {
        u8::from_le_bytes(bytes).cast_signed()
    }

    fn bytes(self) -> [u8; 1] {
        self.cast_unsigned().to_le_bytes()
    }

    ghost sized = { inl refl };
}

impl Number<2> for i16 {
    ghost bits = { cast_unsigned w16 };

    fn zero() -> i16 {
        0
    }

    fn of(bytes: [u8; 2]) -> i16
        ensures { cast_unsigned w16 result ≡ number LittleEndian w16 bytes }
    {
        u16::from_le_bytes(bytes).cast_signed()
    }

    fn bytes(self) -> [u8; 2] {
        self.cast_unsigned().to_le_bytes()
    }

    ghost sized = { inr (inl refl) };
}

impl Number<4> for i32 {
    ghost bits = { cast_unsigned w32 };

    fn zero() -> i32 {
        0
    }

    fn of(bytes: [u8; 4]) -> i32
        ensures { cast_unsigned w32 result ≡ number LittleEndian w32 bytes }
    {
        u32::from_le_bytes(bytes).cast_signed()
    }

    fn bytes(self) -> [u8; 4] {
        self.cast_unsigned().to_le_bytes()
    }

    ghost sized = { inr (inr (inl refl)) };
}

impl Number<8> for i64 {
    ghost bits = { cast_unsigned w64 };

    fn zero() -> i64 {
        0
    }

    fn of(bytes: [u8; 8]) -> i64
        ensures { cast_unsigned w64 result ≡ number LittleEndian w64 bytes }
    {
        u64::from_le_bytes(bytes).cast_signed()
    }

    fn bytes(self) -> [u8; 8] {
        self.cast_unsigned().to_le_bytes()
    }

    ghost sized = { inr (inr (inr refl)) };
}

/// Grows a list to `count` numbers by zeros, if it is shorter.
#[tactic(auto, using(crate::specs::lemmas::NumberBytes::zeros_behind, crate::specs::lemmas::NumberBytes::no_zeros_behind))]
pub(crate) fn grow<T: Number<N>, const N: usize>(
    numbers: &mut Vec<T>,
    count: usize,
) -> Result<(), AllocError>
    ensures { OnOk result (map T.bits numbers.new.items ≡ map T.bits numbers.old.items
        ++ replicate (count - length numbers.old.items) 0) }
{
    if numbers.len() < count {
        numbers.resize(count, T::zero())?;
    }
    Ok(())
}

// Writes the numbers of a row of whole numbers at the front of a list. The loop has only one index,
// so that LLVM vectorizes it.
fn put_front<T: Number<N>, const N: usize>(numbers: &mut [T], row: &[u8])
    requires some { 0 < N }
    requires room { length row.now / N ≤ length numbers.old }
    ensures { map T.bits numbers.new ≡ tabulate (length row.now / N)
        (row_number LittleEndian N row.now) ++ drop (length row.now / N) (map T.bits numbers.old) }
{
    let (pieces, _) = row.as_chunks::<N>();
    for k in 0..pieces.len() {
        numbers[k] = T::of(pieces[k]);
    }
}

// Writes a byte at a position among the bytes of numbers.
#[tactic(auto, using(crate::specs::lemmas::NumberBytes::number_there, crate::specs::lemmas::NumberBytes::byte_put))]
fn put_byte<T: Number<N>, const N: usize>(numbers: &mut [T], at: usize, byte: u8)
    requires some { 0 < N }
    requires room { at < length (bytes_in N (map T.bits numbers.old)) }
    ensures { IsPut at (byte ∷ []) (bytes_in N (map T.bits numbers.old))
        (bytes_in N (map T.bits numbers.new)) }
{
    let mut bytes = numbers[at / N].bytes();
    bytes[at % N] = byte;
    numbers[at / N] = T::of(bytes);
}

// Writes the bytes of a row one by one.
#[tactic(auto, using(crate::specs::lemmas::NumberBytes::none_put, crate::specs::lemmas::NumberBytes::put_more))]
fn put_bytes<T: Number<N>, const N: usize>(numbers: &mut [T], at: usize, row: &[u8])
    requires some { 0 < N }
    requires room { at + length row.now ≤ length (bytes_in N (map T.bits numbers.old)) }
    requires fits { at + length row.now < 2 ^ 64 }
    ensures { IsPut at row.now (bytes_in N (map T.bits numbers.old))
        (bytes_in N (map T.bits numbers.new)) }
{
    for k in 0..row.len() {
        put_byte(numbers, at + k, row[k]);
    }
}

/// Writes a row at a position among the bytes of numbers, whole numbers at once.
#[tactic(auto, using(crate::specs::lemmas::NumberBytes::numbers_fit))]
pub(crate) fn put_row<T: Number<N>, const N: usize>(numbers: &mut [T], at: usize, row: &[u8])
    requires some { 0 < N }
    requires room { at + length row.now ≤ length (bytes_in N (map T.bits numbers.old)) }
    requires fits { at + length row.now < 2 ^ 64 }
    ensures { IsPut at row.now (bytes_in N (map T.bits numbers.old))
        (bytes_in N (map T.bits numbers.new)) }
{
    if at % N == 0 && row.len() % N == 0 {
        put_front(&mut numbers[at / N..], row);
    } else {
        put_bytes(numbers, at, row);
    }
}

// The number of bytes that are appended at once. Longer copies into memory that was never written
// take a quarter longer.
const PIECE: usize = 4096;

/// Whether a list of numbers has `at` bytes.
#[tactic(auto, using(crate::specs::lemmas::NumberBytes::ends_there, crate::specs::lemmas::NumberBytes::ends_back))]
pub(crate) fn ends_at<T: Number<N>, const N: usize>(numbers: &[T], at: usize) -> bool
    requires some { 0 < N }
    ensures { IsTrue result ↔ (length (bytes_in N (map T.bits numbers.now)) ≡ at) }
{
    at % N == 0 && numbers.len() == at / N
}

// Returns a list, which has room for them, with the numbers of a row of whole numbers after it. The
// list is passed by value, so that LLVM keeps its address and its length in registers and
// vectorizes the loop: a list behind a reference is read and written again for each number.
#[tactic(auto, using(crate::specs::lemmas::NumberBytes::pushed_more, crate::specs::lemmas::NumberBytes::numbers_behind))]
fn push_numbers<T: Number<N>, const N: usize>(numbers: Vec<T>, row: &[u8]) -> Vec<T>
    requires some { 0 < N }
    requires whole { length row.now / N * N ≡ length row.now }
    requires room { vec_len numbers + length row.now / N ≤ vec_capacity numbers }
    ensures bytes { bytes_in N (map T.bits result.items)
        ≡ bytes_in N (map T.bits numbers.items) ++ row.now }
    ensures len { vec_len result ≡ vec_len numbers + length row.now / N }
    ensures capacity { vec_capacity result ≡ vec_capacity numbers }
{
    let mut list = numbers;
    let (pieces, _) = row.as_chunks::<N>();
    for k in 0..pieces.len() {
        list.push_reserved(T::of(pieces[k]));
    }
    list
}

// Appends the numbers of a row of whole numbers to a list.
fn push_row<T: Number<N>, const N: usize>(
    numbers: &mut Vec<T>,
    row: &[u8],
) -> Result<(), AllocError>
    requires some { 0 < N }
    requires whole { length row.now / N * N ≡ length row.now }
    ensures { OnOk result (bytes_in N (map T.bits numbers.new.items)
        ≡ bytes_in N (map T.bits numbers.old.items) ++ row.now) }
{
    numbers.reserve(row.len() / N)?;
    let empty = Vec::new(*numbers.allocator());
    let mut list = std::mem::replace(numbers, empty);
    let mut at = 0;
    while at < row.len() {
        let more = PIECE.min(row.len() - at);
        list = push_numbers(list, &row[at..at + more]);
        at += more;
    }
    *numbers = list;
    Ok(())
}

/// Writes a row at a position among the bytes of numbers. A list that is too short grows by zeros.
#[tactic(auto, using(crate::specs::lemmas::NumberBytes::row_pushed))]
pub(crate) fn append_row<T: Number<N>, const N: usize>(
    numbers: &mut Vec<T>,
    at: usize,
    row: &[u8],
) -> Result<(), AllocError>
    requires some { 0 < N }
    requires fits { at + length row.now < 2 ^ 64 }
    ensures { OnOk result (IsPut at row.now (filled_to (div_ceil (at + length row.now) N * N)
        (bytes_in N (map T.bits numbers.old.items))) (bytes_in N (map T.bits numbers.new.items))) }
{
    if ends_at(numbers, at) && row.len() % N == 0 {
        return push_row(numbers, row);
    }
    grow(numbers, (at + row.len()).div_ceil(N))?;
    put_row(numbers, at, row);
    Ok(())
}

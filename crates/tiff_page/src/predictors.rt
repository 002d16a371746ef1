//! Undoes what the file stores of a row of a chunk: converts numbers to little-endian order on
//! their way into another list, and undoes predictors and complements in place.

ghost use Rattle.std.specs.Prelude.{◌≡◌, ℕ, ◌+◌, ◌-◌, ◌*◌, ◌/◌, ◌%◌, ◌<◌, ◌≤◌, length, slice_index, EachIndex};
ghost use Rattle.tiff_base.specs.declared.tags.ByteOrder.TheVariants.{LittleEndian, BigEndian};
ghost use Rattle.tiff_page.specs.Pixels.{summed_number, joined_number};
ghost use Rattle.tiff_page.specs.Row.{IsSize, RowReplaced, AddsNumber, TurnsNumber, SwapsBytes};

use std::simd::prelude::*;
use tiff_base::read::{u16_in, u32_in, u64_in};
use tiff_base::tags::ByteOrder;

// Each function byte-swaps the big-endian number of two, four or eight bytes at one position of a
// row.
#[tactic(auto, using(crate::specs::lemmas::Rows::turns_2))]
fn turn_u16(row: &[u8], k: usize, out: &mut [u8])
    requires row { (k + 1) * 2 ≤ length row.now }
    requires out { length out.old ≡ length row.now }
    ensures { TurnsNumber 2 row.now k out.old out.new }
{
    let at = k * 2;
    let number = u16_in(ByteOrder::BigEndian, row, at);
    out[at..at + 2].copy_from_slice(&number.to_le_bytes());
}

#[tactic(auto, using(crate::specs::lemmas::Rows::turns_4))]
fn turn_u32(row: &[u8], k: usize, out: &mut [u8])
    requires row { (k + 1) * 4 ≤ length row.now }
    requires out { length out.old ≡ length row.now }
    ensures { TurnsNumber 4 row.now k out.old out.new }
{
    let at = k * 4;
    let number = u32_in(ByteOrder::BigEndian, row, at);
    out[at..at + 4].copy_from_slice(&number.to_le_bytes());
}

#[tactic(auto, using(crate::specs::lemmas::Rows::turns_8))]
fn turn_u64(row: &[u8], k: usize, out: &mut [u8])
    requires row { (k + 1) * 8 ≤ length row.now }
    requires out { length out.old ≡ length row.now }
    ensures { TurnsNumber 8 row.now k out.old out.new }
{
    let at = k * 8;
    let number = u64_in(ByteOrder::BigEndian, row, at);
    out[at..at + 8].copy_from_slice(&number.to_le_bytes());
}

// Byte-swaps the big-endian number of `size` bytes, two or more, at one position of a row.
fn turn_number(row: &[u8], k: usize, size: usize, out: &mut [u8])
    requires size { IsSize size }
    requires several { 1 < size }
    requires row { (k + 1) * size ≤ length row.now }
    requires out { length out.old ≡ length row.now }
    ensures { TurnsNumber size row.now k out.old out.new }
{
    match size {
        2 => turn_u16(row, k, out),
        4 => turn_u32(row, k, out),
        _ => turn_u64(row, k, out),
    }
}

// Byte-swaps the big-endian numbers of a row. If `size` is a constant, the loop is compiled for it.
#[inline(always)]
fn turn_numbers(row: &[u8], size: usize, out: &mut [u8])
    requires size { IsSize size }
    requires several { 1 < size }
    requires out { length out.old ≡ length row.now }
    ensures { SwapsBytes size row.now out.new }
{
    let count = row.len() / size;
    for k in 0..count {
        turn_number(row, k, size, out);
    }
}

/// Writes the big-endian numbers of a row, of `size` bytes each, into `out` in little-endian order.
/// The bytes of `out` after the last whole number are unspecified.
pub fn to_little_endian(row: &[u8], size: usize, out: &mut [u8])
    requires size { IsSize size }
    requires out { length out.old ≡ length row.now }
    ensures { SwapsBytes size row.now out.new }
{
    match size {
        2 => turn_numbers(row, 2, out),
        4 => turn_numbers(row, 4, out),
        8 => turn_numbers(row, 8, out),
        _ => out.copy_from_slice(row),
    }
}

// Each function adds a number of one, two, four or eight bytes to another one of the row.
#[tactic(auto, using(crate::specs::lemmas::Rows::adds_1))]
fn add_byte(row: &mut [u8], from: usize, to: usize)
    requires before { from < to }
    requires within { (to + 1) * 1 ≤ length row.old }
    ensures { AddsNumber 1 row.old from to row.new }
{
    row[to] = row[from].wrapping_add(row[to]);
}

#[tactic(auto, using(crate::specs::lemmas::Rows::adds_2))]
fn add_u16(row: &mut [u8], from: usize, to: usize)
    requires before { from < to }
    requires within { (to + 1) * 2 ≤ length row.old }
    ensures { AddsNumber 2 row.old from to row.new }
{
    let at = to * 2;
    let before = u16_in(ByteOrder::LittleEndian, row, from * 2);
    let sum = before.wrapping_add(u16_in(ByteOrder::LittleEndian, row, at));
    row[at..at + 2].copy_from_slice(&sum.to_le_bytes());
}

#[tactic(auto, using(crate::specs::lemmas::Rows::adds_4))]
fn add_u32(row: &mut [u8], from: usize, to: usize)
    requires before { from < to }
    requires within { (to + 1) * 4 ≤ length row.old }
    ensures { AddsNumber 4 row.old from to row.new }
{
    let at = to * 4;
    let before = u32_in(ByteOrder::LittleEndian, row, from * 4);
    let sum = before.wrapping_add(u32_in(ByteOrder::LittleEndian, row, at));
    row[at..at + 4].copy_from_slice(&sum.to_le_bytes());
}

#[tactic(auto, using(crate::specs::lemmas::Rows::adds_8))]
fn add_u64(row: &mut [u8], from: usize, to: usize)
    requires before { from < to }
    requires within { (to + 1) * 8 ≤ length row.old }
    ensures { AddsNumber 8 row.old from to row.new }
{
    let at = to * 8;
    let before = u64_in(ByteOrder::LittleEndian, row, from * 8);
    let sum = before.wrapping_add(u64_in(ByteOrder::LittleEndian, row, at));
    row[at..at + 8].copy_from_slice(&sum.to_le_bytes());
}

// Adds to each number of a row the one before it of the same sample. If `size` and `stored` are
// constants, the loop is compiled for these.
#[inline(always)]
fn sum_numbers(row: &mut [u8], size: usize, stored: usize)
    requires size { IsSize size }
    requires stored { 0 < stored }
    ensures { RowReplaced size (summed_number LittleEndian size stored row.old) row.old row.new }
{
    let count = row.len() / size;
    for k in stored..count {
        match size {
            1 => add_byte(row, k - stored, k),
            2 => add_u16(row, k - stored, k),
            4 => add_u32(row, k - stored, k),
            _ => add_u64(row, k - stored, k),
        }
    }
}

// Adds the bytes of `last` to the bytes of a pixel, and stores the sums in both.
#[inline(always)]
fn sum_pixel<const N: usize>(last: &mut [u8; N], pixel: &mut [u8])
    requires { length pixel.old ≡ N }
    ensures sums { EachIndex pixel.new
        (λ j. slice_index pixel.new j ≡ (slice_index last.old j + slice_index pixel.old j) % 256) }
    ensures held { EachIndex pixel.new (λ j. slice_index last.new j ≡ slice_index pixel.new j) }
{
    for j in 0..N {
        let sum = last[j].wrapping_add(pixel[j]);
        last[j] = sum;
        pixel[j] = sum;
    }
}

// Adds to each byte of a row of pixels of `N` bytes the one before it of the same sample. The sums
// stay in registers.
#[inline(always)]
fn sum_pixels<const N: usize>(row: &mut [u8])
    requires some { 0 < N }
    requires whole { length row.old / N * N ≡ length row.old }
    ensures { RowReplaced 1 (summed_number LittleEndian 1 N row.old) row.old row.new }
{
    let mut last = [0; N];
    for k in 0..row.len() / N {
        let at = k * N;
        sum_pixel(&mut last, &mut row[at..at + N]);
    }
}

/// Undoes the horizontal predictor over a row of little-endian numbers of `size` bytes, `stored` of
/// them for each pixel.
#[inline(never)]
pub fn undo_horizontal(row: &mut [u8], size: usize, stored: usize)
    requires size { IsSize size }
    requires stored { 0 < stored }
    ensures { RowReplaced size (summed_number LittleEndian size stored row.old) row.old row.new }
{
    match (size, stored) {
        (1, 1) => sum_numbers(row, 1, 1),
        (1, 2) => sum_numbers(row, 1, 2),
        (1, 3) if row.len() % 3 == 0 => sum_pixels::<3>(row),
        (1, 4) if row.len() % 4 == 0 => sum_pixels::<4>(row),
        (2, 1) => sum_numbers(row, 2, 1),
        (2, 3) => sum_numbers(row, 2, 3),
        (2, 4) => sum_numbers(row, 2, 4),
        (4, 1) => sum_numbers(row, 4, 1),
        _ => sum_numbers(row, size, stored),
    }
}

// Joins the bytes of number `k` from planes of `count` bytes, the most significant first.
fn join_number(planes: &[u8], count: usize, k: usize, number: &mut [u8])
    requires k { k < count }
    requires within { length number.old * count ≤ length planes.now }
    ensures { EachIndex number.new (λ j. slice_index number.new j ≡ slice_index planes.now
        ((length number.old - 1 - j) * count + k)) }
{
    let size = number.len();
    for j in 0..size {
        number[j] = planes[(size - 1 - j) * count + k];
    }
}

// Joins the bytes of the numbers of a row of byte planes: the first plane holds the most
// significant bytes of all numbers. If `size` is a constant, the loop is compiled for it.
#[inline(always)]
fn join_numbers(planes: &[u8], size: usize, row: &mut [u8])
    requires size { 0 < size }
    requires same { length planes.now ≡ length row.old }
    ensures { (k : ℕ) → k < length planes.now / size → (j : ℕ) → j < size → slice_index row.new
        (k * size + j) ≡ slice_index planes.now ((size - 1 - j) * (length planes.now / size) + k) }
{
    let count = planes.len() / size;
    for k in 0..count {
        let at = k * size;
        join_number(planes, count, k, &mut row[at..at + size]);
    }
}

// Joins the bytes of the numbers of a row of byte planes, with constants for the sizes of
// floating-point numbers.
fn join_planes(planes: &[u8], size: usize, row: &mut [u8])
    requires size { 0 < size }
    requires same { length planes.now ≡ length row.old }
    ensures { (k : ℕ) → k < length planes.now / size → (j : ℕ) → j < size → slice_index row.new
        (k * size + j) ≡ slice_index planes.now ((size - 1 - j) * (length planes.now / size) + k) }
{
    match size {
        2 => join_numbers(planes, 2, row),
        4 => join_numbers(planes, 4, row),
        8 => join_numbers(planes, 8, row),
        _ => join_numbers(planes, size, row),
    }
}

/// Undoes the byte-plane predictor over a row of numbers of `size` bytes, `stored` of them for each
/// pixel; the numbers become little-endian. `room` has the length of the row. The bytes of `room`
/// afterwards are unspecified.
pub fn undo_float_predictor(row: &mut [u8], room: &mut [u8], size: usize, stored: usize)
    requires size { IsSize size }
    requires stored { 0 < stored }
    requires whole { length row.old / size * size ≡ length row.old }
    requires room { length room.old ≡ length row.old }
    ensures { RowReplaced size (joined_number size stored (length row.old / size) row.old) row.old
        row.new }
{
    undo_horizontal(row, 1, stored);
    room.copy_from_slice(row);
    join_planes(room, size, row);
}

// Complements sixteen bytes at once.
#[inline(always)]
fn invert_lanes(part: &mut [u8])
    requires { length part.old ≡ 16 }
    ensures { EachIndex part.new (λ i. slice_index part.new i ≡ 255 - slice_index part.old i) }
{
    (u8x16::splat(255) - u8x16::from_slice(part)).copy_to_slice(part);
}

/// Complements each byte of a row, and thus each number of the row.
#[inline(never)]
pub fn invert(row: &mut [u8])
    ensures { EachIndex row.new (λ i. slice_index row.new i ≡ 255 - slice_index row.old i) }
{
    let parts = row.len() / 16;
    'parts: for k in 0..parts {
        let at = k * 16;
        invert_lanes(&mut row[at..at + 16]);
    }
    'rest: for i in parts * 16..row.len() {
        row[i] = 255 - row[i];
    }
}

//! Bytes that are turned, complemented and made differences many at once, compared with loops that
//! take one after another.

ghost use Rattle.std.specs.Prelude.{◌<◌, ◌≤◌, length};

use crate::library::told::Told;
use crate::numbers::number;
use std::alloc::Global;
use tiff_base::error::TiffResult;
use tiff_base::tags::{ByteOrder, Type};
use tiff_page::predictors::invert;
use tiff_value::encoder::horizontal_predictor::Sample;

// A number for each place of a row.
fn number_at(place: usize) -> u64 {
    number(place as u64)
}

// Bytes that differ.
fn bytes() -> [u8; 80] {
    let mut row = [0; 80];
    for i in 0..80 {
        row[i] = (number_at(i) % 256) as u8;
    }
    row
}

// Returns 1 for a row that is as a plain loop makes it, and 0 for another, which it adds beside
// that.
fn same(told: &mut Told, call: &str, row: &[u8], plain: &[u8]) -> u32 {
    if row == plain {
        return 1;
    }
    told.line(call, (row, plain));
    0
}

// The byte at a place after each whole number of `size` bytes was turned.
fn turned_at(row: &[u8], size: usize, at: usize) -> u8
    requires size { 0 < size }
    requires at { at < length row.now }
{
    let within = at % size;
    let first = at - within;
    if row.len() - first < size {
        row[at]
    } else {
        row[first + (size - 1 - within)]
    }
}

// A row whose first bytes are numbers that are turned.
fn turned_row(row: &[u8; 80], size: usize, len: usize) -> [u8; 80]
    requires size { 0 < size }
    requires len { len ≤ 80 }
{
    let mut turned = *row;
    for i in 0..len {
        turned[i] = turned_at(&row[..len], size, i);
    }
    turned
}

// Adds in how many rows, of 0 to 80 bytes, numbers of a type are turned as by a plain loop.
fn add_turned_rows(told: &mut Told, ty: Type, size: usize)
    requires { 0 < size }
{
    let row = bytes();
    let mut count = 0u32;
    for len in 0..81 {
        let mut turned = row;
        ByteOrder::LittleEndian.convert(ty, &mut turned[..len], ByteOrder::BigEndian);
        let plain = turned_row(&row, size, len);
        count = count.saturating_add(same(told, "ByteOrder::convert", &turned, &plain));
    }
    told.line("ByteOrder::convert", (ty, count));
}

/// Adds rows of numbers of each size that are turned.
pub fn add_turned(told: &mut Told) -> TiffResult<()> {
    add_turned_rows(told, Type::BYTE, 1);
    add_turned_rows(told, Type::SHORT, 2);
    add_turned_rows(told, Type::LONG, 4);
    add_turned_rows(told, Type::RATIONAL, 4);
    add_turned_rows(told, Type::DOUBLE, 8);
    Ok(())
}

// A row whose first bytes are complements.
fn complement_row(row: &[u8; 80], len: usize) -> [u8; 80]
    requires { len ≤ 80 }
{
    let mut complements = *row;
    for i in 0..len {
        complements[i] = 255 - row[i];
    }
    complements
}

/// Adds how many rows, of 0 to 80 bytes, are complemented as by a plain loop.
pub fn add_complements(told: &mut Told) -> TiffResult<()> {
    let row = bytes();
    let mut count = 0u32;
    for len in 0..81 {
        let mut complements = row;
        invert(&mut complements[..len]);
        let plain = complement_row(&row, len);
        count = count.saturating_add(same(told, "invert", &complements, &plain));
    }
    told.line("invert", count);
    Ok(())
}

// The bytes of a row's differences, one number after another; none if the row is shorter than the
// stride.
fn plain_bytes(alloc: Global, size: usize, len: usize, stride: usize) -> TiffResult<Vec<u8>> {
    let mut bytes = Vec::new(alloc);
    let some = if len < stride { 0 } else { len };
    for k in 0..some {
        let before = if k < stride { 0 } else { number_at(k - stride) };
        let difference = number_at(k).wrapping_sub(before).to_le_bytes();
        bytes.extend_from_slice(difference.get(..size).unwrap_or(&[]))?;
    }
    Ok(bytes)
}

fn samples<T: Sample>(alloc: Global, len: usize) -> TiffResult<Vec<T>> {
    let mut row = Vec::new(alloc);
    for k in 0..len {
        row.push(T::cut(number_at(k)))?;
    }
    Ok(row)
}

// Adds the bytes of a row's differences, which are made as numbers first.
fn push_spelled<T: Sample>(row: &[T], stride: usize, bytes: &mut Vec<u8>) -> TiffResult<()> {
    let mut differences = Vec::new(*bytes.allocator());
    T::predict_row(row, stride, &mut differences)?;
    T::push_all(&differences, bytes)
}

// Returns in how many rows of samples, of 0 to 80 samples by strides of 1 to 5, the differences are
// those of a plain loop: made as numbers first, and at once.
fn same_differences<T: Sample>(told: &mut Told, call: &str) -> TiffResult<(u32, u32)> {
    let alloc = told.alloc();
    let mut counts = (0u32, 0u32);
    for k in 0..405usize {
        let (len, stride) = (k % 81, 1 + k / 81);
        let plain = plain_bytes(alloc, usize::from(T::BYTE_LEN), len, stride)?;
        let row = samples::<T>(alloc, len)?;
        let mut spelled = Vec::new(alloc);
        push_spelled(&row, stride, &mut spelled)?;
        let mut pushed = Vec::new(alloc);
        T::push_row(&row, stride, &mut pushed)?;
        counts.0 = counts.0.saturating_add(same(told, call, &spelled, &plain));
        counts.1 = counts.1.saturating_add(same(told, call, &pushed, &plain));
    }
    Ok(counts)
}

fn add_difference_rows<T: Sample>(told: &mut Told, call: &str) {
    let counts = same_differences::<T>(told, call);
    told.line(call, counts);
}

/// Adds rows of samples of each type that become differences.
pub fn add_differences(told: &mut Told) -> TiffResult<()> {
    add_difference_rows::<u8>(told, "predict_row and push_row of u8");
    add_difference_rows::<i8>(told, "predict_row and push_row of i8");
    add_difference_rows::<u16>(told, "predict_row and push_row of u16");
    add_difference_rows::<i16>(told, "predict_row and push_row of i16");
    add_difference_rows::<u32>(told, "predict_row and push_row of u32");
    add_difference_rows::<i32>(told, "predict_row and push_row of i32");
    add_difference_rows::<u64>(told, "predict_row and push_row of u64");
    add_difference_rows::<i64>(told, "predict_row and push_row of i64");
    Ok(())
}

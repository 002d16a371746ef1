//! Converts numbers to the other byte order, sixteen bytes at once if a number has two, four or
//! eight bytes: number by number it takes more than ten times as long.

ghost use Rattle.std.specs.Prelude.{◌≡◌, ◌/◌, ◌<◌, length};
ghost use Rattle.tiff_base.specs.ByteOrders.{turned_units};

use std::simd::prelude::*;

// Reverses the bytes of each two-byte number in sixteen bytes.
#[inline(always)]
fn turn_lanes_2(part: &mut [u8])
    requires { length part.old ≡ 16 }
    ensures { part.new ≡ turned_units 2 8 part.old }
{
    u8x16::from_slice(part)
        .swizzle([1, 0, 3, 2, 5, 4, 7, 6, 9, 8, 11, 10, 13, 12, 15, 14])
        .copy_to_slice(part);
}

// Reverses the bytes of each four-byte number in sixteen bytes.
#[inline(always)]
fn turn_lanes_4(part: &mut [u8])
    requires { length part.old ≡ 16 }
    ensures { part.new ≡ turned_units 4 4 part.old }
{
    u8x16::from_slice(part)
        .swizzle([3, 2, 1, 0, 7, 6, 5, 4, 11, 10, 9, 8, 15, 14, 13, 12])
        .copy_to_slice(part);
}

// Reverses the bytes of each eight-byte number in sixteen bytes.
#[inline(always)]
fn turn_lanes_8(part: &mut [u8])
    requires { length part.old ≡ 16 }
    ensures { part.new ≡ turned_units 8 2 part.old }
{
    u8x16::from_slice(part)
        .swizzle([7, 6, 5, 4, 3, 2, 1, 0, 15, 14, 13, 12, 11, 10, 9, 8])
        .copy_to_slice(part);
}

// Reverses the bytes of each whole number of `size` bytes, one number at a time.
fn turn_plain(buffer: &mut [u8], size: usize)
    requires { 0 < size }
    ensures { buffer.new ≡ turned_units size (length buffer.old / size) buffer.old }
{
    let units = buffer.len() / size;
    'units: for i in 0..units {
        let at = i * size;
        buffer[at..at + size].reverse();
    }
}

// Reverses the bytes of each two-byte number, sixteen bytes at once, and the rest one by one.
fn swap_bytes_2(buffer: &mut [u8])
    ensures { buffer.new ≡ turned_units 2 (length buffer.old / 2) buffer.old }
{
    let parts = buffer.len() / 16;
    'parts: for k in 0..parts {
        let at = k * 16;
        turn_lanes_2(&mut buffer[at..at + 16]);
    }
    turn_plain(&mut buffer[parts * 16..], 2);
}

// Reverses the bytes of each four-byte number, sixteen bytes at once, and the rest one by one.
fn swap_bytes_4(buffer: &mut [u8])
    ensures { buffer.new ≡ turned_units 4 (length buffer.old / 4) buffer.old }
{
    let parts = buffer.len() / 16;
    'parts: for k in 0..parts {
        let at = k * 16;
        turn_lanes_4(&mut buffer[at..at + 16]);
    }
    turn_plain(&mut buffer[parts * 16..], 4);
}

// Reverses the bytes of each eight-byte number, sixteen bytes at once, and the rest one by one.
fn swap_bytes_8(buffer: &mut [u8])
    ensures { buffer.new ≡ turned_units 8 (length buffer.old / 8) buffer.old }
{
    let parts = buffer.len() / 16;
    'parts: for k in 0..parts {
        let at = k * 16;
        turn_lanes_8(&mut buffer[at..at + 16]);
    }
    turn_plain(&mut buffer[parts * 16..], 8);
}

// Reverses the bytes of each whole number of `size` bytes.
pub(crate) fn swap_bytes(buffer: &mut [u8], size: usize)
    requires { 0 < size }
    ensures { buffer.new ≡ turned_units size (length buffer.old / size) buffer.old }
{
    match size {
        2 => swap_bytes_2(buffer),
        4 => swap_bytes_4(buffer),
        8 => swap_bytes_8(buffer),
        _ => turn_plain(buffer, size),
    }
}

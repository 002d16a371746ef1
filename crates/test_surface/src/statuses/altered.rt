//! The calls on the file with other bytes.

use super::page::{print_chunks, print_pixels, print_samples, print_sides};
use super::tags::{BITS_PER_SAMPLE, print_numbers, print_tags, print_values};
use super::written::{AT, DIRECTORY, write};
use std::io;

const PHOTOMETRIC_INTERPRETATION: u16 = 262;

const X_RESOLUTION: u16 = 282;

const Y_RESOLUTION: u16 = 283;

// Where the entries of the page have the offset and the byte count of its strip.
const STRIP: usize = 118;

const BYTE_COUNT: usize = 154;

// Where the page has its interpretation, the types of its resolutions with their counts behind
// them, and the values of its resolutions.
const INTERPRETATION: usize = 106;

const X_TYPE: usize = 160;

const Y_TYPE: usize = 172;

const X_VALUE: usize = 8;

const Y_VALUE: usize = 16;

const HALF: [u8; 8] = [0, 0, 0, 0, 0, 0, 224, 63];

// How long the page's directory is, and where a copy of it is.
const DIRECTORY_LEN: usize = 174;

const COPY: usize = 222;

// Puts bytes over those of a file, from an offset on, as many as there are.
fn lay(file: &mut [u8], at: usize, bytes: &[u8]) {
    for (to, from) in file.iter_mut().skip(at).zip(bytes) {
        *to = *from;
    }
}

/// Prints the result of reading the pixels of the page, whose strip claims 128 MiB and a byte.
pub fn print_claim(rt: &HostRuntime) -> io::Result<()> {
    let mut file = [0u8; 300];
    let mut len = 0;
    let status = write(rt, &mut file, &mut len);
    file[BYTE_COUNT] = 1;
    file[BYTE_COUNT + 3] = 8;
    println!(rt; "a strip of 134217729 bytes: {status}, {len}")?;
    print_pixels(rt, &file[..len.min(300)], 0)
}

/// Prints the results of reading the pixels of the page, whose strip begins six bytes before the
/// end of the file.
pub fn print_cut(rt: &HostRuntime) -> io::Result<()> {
    let mut file = [0u8; 300];
    let mut len = 0;
    let status = write(rt, &mut file, &mut len);
    file[STRIP] = 216;
    println!(rt; "a strip of six bytes: {status}, {len}")?;
    let file = &file[..len.min(300)];
    print_pixels(rt, file, 0)?;
    print_chunks(rt, file, 0, 1)
}

/// Prints the calls on the page whose 0 is white, and of whose resolutions one is a floating-point
/// number, a half, and the other one a text.
pub fn print_retyped(rt: &HostRuntime) -> io::Result<()> {
    let mut file = [0u8; 300];
    let mut len = 0;
    let status = write(rt, &mut file, &mut len);
    file[INTERPRETATION] = 0;
    file[X_TYPE] = 12;
    lay(&mut file, X_VALUE, &HALF);
    file[Y_TYPE] = 2;
    file[Y_TYPE + 2] = 8;
    lay(&mut file, Y_VALUE, b"300 dpi\0");
    println!(rt; "white, a half and a text: {status}, {len}")?;
    let file = &file[..len.min(300)];
    print_samples(rt, file, 0)?;
    print_values(rt, file, 0, X_RESOLUTION)?;
    print_values(rt, file, 0, Y_RESOLUTION)
}

/// Prints the calls on a copy of the page's directory, behind the file, whose interpretation is
/// that of a color filter array. It is no page, but its tags can be read.
pub fn print_refused(rt: &HostRuntime) -> io::Result<()> {
    let mut file = [0u8; 400];
    let mut len = 0;
    let status = write(rt, &mut file, &mut len);
    file.copy_within(DIRECTORY..DIRECTORY + DIRECTORY_LEN, COPY);
    file[COPY + INTERPRETATION - DIRECTORY] = 35;
    file[COPY + INTERPRETATION - DIRECTORY + 1] = 128;
    println!(rt; "a color filter array: {status}, {len}")?;
    print_sides(rt, &file, AT + COPY)?;
    print_samples(rt, &file, AT + COPY)?;
    print_tags(rt, &file, AT + COPY)?;
    print_numbers(rt, &file, AT + COPY, PHOTOMETRIC_INTERPRETATION)?;
    print_values(rt, &file, AT + COPY, BITS_PER_SAMPLE)
}

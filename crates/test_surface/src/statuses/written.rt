//! The file that the calls are made on, which `write_image` writes.

use std::io;
use tiff_ffi::FrameLengths;
use tiff_ffi::writer::NewImage;

/// A page that is the directory at an offset has this number plus the offset.
pub const AT: usize = 1 << 63;

/// Where the directory of the page is.
pub const DIRECTORY: usize = 48;

// RGB of 8 bits, in a classic file, neither packed nor as differences.
const IMAGE: NewImage = NewImage {
    color: 10,
    width: 2,
    height: 2,
    version: 42,
    method: 1,
    predictor: 1,
};

const SAMPLES: [u8; 12] = [1, 2, 3, 4, 5, 6, 7, 8, 9, 10, 11, 12];

/// Writes the file into a buffer, and returns the status.
pub fn write(rt: &HostRuntime, buffer: &mut [u8], len: &mut usize) -> u32 {
    tiff_ffi::write_image(rt.alloc(), &IMAGE, &SAMPLES, buffer, len)
}

/// Prints the result of writing the file into a buffer that has no room for it.
pub fn print_too_long(rt: &HostRuntime) -> io::Result<()> {
    let mut buffer = [0u8; 100];
    let mut len = 0;
    let status = write(rt, &mut buffer, &mut len);
    println!(rt; "write_image into 100 bytes: {status}, {len}")
}

// Prints the result of writing what the file has around its samples into a buffer.
fn print_frame(rt: &HostRuntime, buffer: &mut [u8]) -> io::Result<()> {
    let mut frame = FrameLengths {
        front: 7,
        samples: 7,
        behind: 7,
    };
    let status = tiff_ffi::image_frame(rt.alloc(), &IMAGE, &SAMPLES, buffer, &mut frame);
    println!(rt; "image_frame: {status}, {frame:?}")
}

/// Prints the results of writing what the file has around its samples, with room for it and
/// without.
pub fn print_frames(rt: &HostRuntime) -> io::Result<()> {
    print_frame(rt, &mut [0u8; 300])?;
    print_frame(rt, &mut [0u8; 100])
}

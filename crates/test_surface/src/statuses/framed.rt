//! The call that writes pages around their samples.

use super::pages::{FAMILY, GRAY, PAGES, WORDS};
use std::io;
use tiff_ffi::PagesLengths;
use tiff_ffi::pages::{NewPage, PagesEnd};

// Two pages around whose samples a file is: the first with a tag of its own, the second of 16 bits
// in strips of a row.
const PLAIN: [NewPage<'static>; 2] = [
    NewPage {
        tags: &[WORDS],
        ..GRAY
    },
    NewPage {
        color: 1,
        height: 2,
        rows_per_strip: 1,
        samples: &[1, 0, 255, 255, 2, 1, 0, 128],
        ..GRAY
    },
];

// A page with a sample too many, in front of one that is well.
const LONG: [NewPage<'static>; 2] = [
    NewPage {
        samples: &[1, 2, 3],
        ..GRAY
    },
    GRAY,
];

// Puts bytes at a place of a file, as many as there is room for. Returns the place behind them.
fn put_at(file: &mut [u8], at: usize, bytes: &[u8]) -> usize {
    let at = at.min(file.len());
    let n = bytes.len().min(file.len() - at);
    file[at..at + n].copy_from_slice(&bytes[..n]);
    at + n
}

// Puts the bytes of a frame and the samples of its pages, one behind the other. Returns how many
// there are.
fn join(file: &mut [u8], around: &[u8], fronts: &[usize], pages: &[NewPage<'_>]) -> usize {
    let mut at = 0;
    let mut rest = around;
    for i in 0..fronts.len().min(pages.len()) {
        let (front, behind) = rest.split_at(fronts[i].min(rest.len()));
        at = put_at(file, at, front);
        at = put_at(file, at, pages[i].samples);
        rest = behind;
    }
    put_at(file, at, rest)
}

// A number that tells bytes apart.
fn sum_of(bytes: &[u8]) -> u32 {
    let mut sum = 0u32;
    for byte in bytes {
        sum = sum.wrapping_mul(31).wrapping_add(u32::from(*byte));
    }
    sum
}

// Writes pages around their samples into a buffer, with places for so many fronts, and prints the
// answer, and what the frame and the samples are together.
fn print_frame(
    rt: &HostRuntime,
    version: u16,
    pages: &[NewPage<'_>],
    buffer: &mut [u8],
    fronts: &mut [usize],
) -> io::Result<()> {
    let mut frame = PagesLengths {
        around: 0,
        framed: 0,
    };
    let mut end = PagesEnd { page: 7, field: 7 };
    let room = buffer.len();
    let status = tiff_ffi::pages_frame(
        rt.alloc(),
        version,
        pages,
        buffer,
        fronts,
        &mut frame,
        &mut end,
    );
    let mut file = [0u8; 2000];
    let mut len = 0;
    if status == 0 {
        let around = &buffer[..frame.around.min(buffer.len())];
        len = join(
            &mut file,
            around,
            &fronts[..frame.framed.min(fronts.len())],
            pages,
        );
    }
    let sum = sum_of(&file[..len.min(2000)]);
    println!(rt;
        "pages_frame into {room} bytes: {status}, {frame:?}, {fronts:?}, {len}, {sum}, {end:?}"
    )
}

// Prints pages in a file of this version, with places for all fronts, for one and for none.
fn print_version(rt: &HostRuntime, version: u16, pages: &[NewPage<'_>]) -> io::Result<()> {
    print_frame(rt, version, pages, &mut [0u8; 2000], &mut [0; 3])?;
    print_frame(rt, version, pages, &mut [0u8; 2000], &mut [0; 1])?;
    print_frame(rt, version, pages, &mut [0u8; 2000], &mut [])
}

// The bytes of two tiles.
fn tiles() -> [u8; 512] {
    let mut bytes = [0u8; 512];
    for i in 0..512 {
        bytes[i] = (i * 7 % 251) as u8;
    }
    bytes
}

// Prints a page that is given by its tiles, and what is refused of such pages.
fn print_tiles(rt: &HostRuntime) -> io::Result<()> {
    let samples = tiles();
    let page = NewPage {
        width: 20,
        height: 10,
        tile_width: 16,
        tile_length: 16,
        samples: &samples,
        tile_bytes: 256,
        ..GRAY
    };
    print_frame(rt, 42, &[page], &mut [0u8; 2000], &mut [0; 1])?;
    let packed = NewPage {
        method: 32773,
        ..page
    };
    print_frame(rt, 42, &[packed], &mut [0u8; 2000], &mut [0; 1])?;
    let wide = NewPage { color: 1, ..page };
    print_frame(rt, 42, &[wide], &mut [0u8; 2000], &mut [0; 1])?;
    let short = NewPage {
        samples: &samples[..256],
        ..page
    };
    print_frame(rt, 42, &[short], &mut [0u8; 2000], &mut [0; 1])?;
    let untiled = NewPage {
        tile_length: 0,
        ..page
    };
    print_frame(rt, 42, &[untiled], &mut [0u8; 2000], &mut [0; 1])
}

/// Prints pages that are written around their samples, pages that aren't, and what is refused.
pub fn print_all_frames(rt: &HostRuntime) -> io::Result<()> {
    print_version(rt, 42, &PLAIN)?;
    print_version(rt, 43, &PLAIN)?;
    print_version(rt, 42, &PAGES)?;
    print_frame(rt, 42, &LONG, &mut [0u8; 2000], &mut [0; 2])?;
    print_frame(rt, 42, &FAMILY, &mut [0u8; 2000], &mut [0; 5])?;
    print_frame(rt, 42, &[], &mut [0u8; 100], &mut [])?;
    print_frame(rt, 42, &PLAIN, &mut [0u8; 100], &mut [0; 2])?;
    print_frame(rt, 41, &PLAIN, &mut [0u8; 100], &mut [0; 2])?;
    let wrong = [GRAY, NewPage { color: 33, ..GRAY }];
    print_frame(rt, 42, &wrong, &mut [0u8; 100], &mut [0; 2])?;
    let flat = [GRAY, NewPage { height: 0, ..GRAY }];
    print_frame(rt, 42, &flat, &mut [0u8; 100], &mut [0; 2])?;
    print_tiles(rt)
}

//! The call that writes pages.

use super::file::print_directories;
use super::page::{print_parts, print_pixels, print_samples, print_sides};
use super::tags::print_values;
use std::io;
use tiff_ffi::pages::{Fraction, NewPage, NewTag, PagesEnd};

// ImageDescription, of the type ASCII; and ModelPixelScaleTag, of the type DOUBLE.
const DESCRIPTION: u16 = 270;

const SCALE: u16 = 33550;

const NO_RESOLUTION: Fraction = Fraction { n: 0, d: 0 };

/// A page of two samples of 8 bits, which each other page is made of.
pub const GRAY: NewPage<'static> = NewPage {
    color: 0,
    width: 2,
    height: 1,
    rows_per_strip: 0,
    tile_width: 0,
    tile_length: 0,
    method: 1,
    predictor: 1,
    planar: 1,
    resolution_unit: 0,
    x_resolution: NO_RESOLUTION,
    y_resolution: NO_RESOLUTION,
    extra_samples: &[],
    tags: &[],
    samples: &[1, 2],
    parent: 0,
    tile_bytes: 0,
};

/// A tag of six characters.
pub const WORDS: NewTag<'static> = NewTag {
    number: DESCRIPTION,
    value_type: 2,
    count: 6,
    values: b"words\0",
};

const ONE: NewTag<'static> = NewTag {
    number: SCALE,
    value_type: 12,
    count: 1,
    values: &[0, 0, 0, 0, 0, 0, 240, 63],
};

/// A page with tags of its own and a resolution, a page of 16 bits in two planes, and a page of a
/// tile, packed.
pub const PAGES: [NewPage<'static>; 3] = [
    NewPage {
        resolution_unit: 2,
        x_resolution: Fraction { n: 300, d: 1 },
        y_resolution: Fraction { n: 145, d: 2 },
        tags: &[WORDS, ONE],
        ..GRAY
    },
    NewPage {
        color: 1,
        planar: 2,
        extra_samples: &[2],
        samples: &[1, 0, 255, 255, 2, 1, 0, 128],
        ..GRAY
    },
    NewPage {
        height: 2,
        tile_width: 16,
        tile_length: 16,
        method: 32773,
        predictor: 2,
        samples: &[1, 2, 3, 4],
        ..GRAY
    },
];

// Tags of a type that is none, and with fewer bytes than they say.
const UNTYPED: NewTag<'static> = NewTag {
    value_type: 14,
    ..ONE
};

const SHORT: NewTag<'static> = NewTag { count: 2, ..ONE };

// Pages that are refused before one is written: a field each.
const REFUSED: [NewPage<'static>; 9] = [
    NewPage { color: 33, ..GRAY },
    NewPage { method: 5, ..GRAY },
    NewPage {
        predictor: 4,
        ..GRAY
    },
    NewPage { planar: 0, ..GRAY },
    NewPage {
        resolution_unit: 4,
        ..GRAY
    },
    NewPage {
        extra_samples: &[0, 3],
        ..GRAY
    },
    NewPage {
        tags: &[WORDS, UNTYPED],
        ..GRAY
    },
    NewPage {
        tags: &[WORDS, SHORT],
        ..GRAY
    },
    NewPage {
        color: 1,
        samples: &[1, 2, 3],
        ..GRAY
    },
];

// Pages that the encoder refuses: without a row, of a tile that is too narrow, of strips and tiles,
// and with too few samples.
const FAILED: [NewPage<'static>; 4] = [
    NewPage { height: 0, ..GRAY },
    NewPage {
        tile_width: 8,
        tile_length: 16,
        ..GRAY
    },
    NewPage {
        rows_per_strip: 1,
        tile_width: 16,
        tile_length: 16,
        ..GRAY
    },
    NewPage {
        samples: &[1],
        ..GRAY
    },
];

/// Two pages, and between them two in the SubIFDs of the first one, and one in those of the second
/// of these.
pub const FAMILY: [NewPage<'static>; 5] = [
    GRAY,
    NewPage { parent: 1, ..GRAY },
    NewPage { parent: 1, ..GRAY },
    NewPage { parent: 3, ..GRAY },
    GRAY,
];

// SubIFDs of a caller's own.
const LINK: NewTag<'static> = NewTag {
    number: 330,
    value_type: 13,
    count: 1,
    values: &[0, 0, 0, 0],
};

// A parent with SubIFDs of its own.
const LINKED: [NewPage<'static>; 2] = [
    NewPage {
        tags: &[LINK],
        ..GRAY
    },
    NewPage { parent: 1, ..GRAY },
];

// A page in SubIFDs that the encoder refuses.
const FAILED_CHILD: [NewPage<'static>; 2] = [
    GRAY,
    NewPage {
        height: 0,
        parent: 1,
        ..GRAY
    },
];

// Writes pages into a buffer, prints the answer, and returns how long the file is.
fn print_write(
    rt: &HostRuntime,
    version: u16,
    pages: &[NewPage<'_>],
    buffer: &mut [u8],
) -> io::Result<usize> {
    let mut len = 0;
    let mut end = PagesEnd { page: 7, field: 7 };
    let room = buffer.len();
    let status = tiff_ffi::write_pages(rt.alloc(), version, pages, buffer, &mut len, &mut end);
    println!(rt; "write_pages into {room} bytes: {status}, {len}, {end:?}")?;
    Ok(len)
}

// Prints the pages of a file that was written, the tags of the first one, and the samples of the
// others.
fn print_written(rt: &HostRuntime, file: &[u8]) -> io::Result<()> {
    for page in 0..3 {
        print_sides(rt, file, page)?;
        print_samples(rt, file, page)?;
        print_parts(rt, file, page)?;
    }
    print_values(rt, file, 0, DESCRIPTION)?;
    print_values(rt, file, 0, SCALE)?;
    print_values(rt, file, 1, DESCRIPTION)?;
    print_pixels(rt, file, 1)?;
    print_pixels(rt, file, 2)
}

// Prints the answer to a page behind one that is well.
fn print_second(rt: &HostRuntime, page: &NewPage<'_>) -> io::Result<()> {
    let mut buffer = [0u8; 300];
    let _len = print_write(rt, 43, &[GRAY, *page], &mut buffer)?;
    Ok(())
}

// Prints the answer to each of these pages.
fn print_seconds(rt: &HostRuntime, pages: &[NewPage<'_>]) -> io::Result<()> {
    for page in pages {
        print_second(rt, page)?;
    }
    Ok(())
}

// Prints the answer to pages that are well, and what was written.
fn print_well(rt: &HostRuntime) -> io::Result<()> {
    let mut buffer = [0u8; 1000];
    let len = print_write(rt, 42, &PAGES, &mut buffer)?;
    print_written(rt, &buffer[..len.min(1000)])
}

// Prints the directories of pages with parents.
fn print_family(rt: &HostRuntime, version: u16) -> io::Result<()> {
    let mut buffer = [0u8; 2000];
    let len = print_write(rt, version, &FAMILY, &mut buffer)?;
    print_directories(rt, &buffer[..len.min(2000)])
}

// Prints the answers to a page that is its own parent, to a parent with SubIFDs of its own, and to
// a page with a parent that the encoder refuses.
fn print_orphans(rt: &HostRuntime) -> io::Result<()> {
    print_second(rt, &NewPage { parent: 2, ..GRAY })?;
    let mut buffer = [0u8; 600];
    let _len = print_write(rt, 42, &LINKED, &mut buffer)?;
    let _len = print_write(rt, 42, &FAILED_CHILD, &mut buffer)?;
    Ok(())
}

/// Prints pages that are written, and each page that is refused.
pub fn print_all_pages(rt: &HostRuntime) -> io::Result<()> {
    print_well(rt)?;
    let mut short = [0u8; 100];
    let _len = print_write(rt, 42, &PAGES, &mut short)?;
    let _len = print_write(rt, 41, &PAGES, &mut short)?;
    let _len = print_write(rt, 42, &[], &mut short)?;
    print_seconds(rt, &REFUSED)?;
    print_seconds(rt, &FAILED)?;
    print_family(rt, 42)?;
    print_family(rt, 43)?;
    print_orphans(rt)
}

//! The calls that read a page.

use std::io;
use tiff_ffi::calls::{Chunks, Color, Layout, PageSamples, Sides};
use tiff_ffi::plan::PlannedPage;
use tiff_ffi::rewrite::PlacedChunk;

pub const NO_PLAN: PlannedPage = PlannedPage {
    offsets_count: 0,
    byte_counts_count: 0,
    offsets_value: [0; 8],
    byte_counts_value: [0; 8],
    width: 0,
    height: 0,
    chunk_width: 0,
    chunk_height: 0,
    version: 0,
    order: 0,
    photometric: 0,
    compression: 0,
    samples: 0,
    extra_count: 0,
    first_extra: 0,
    sample_format: 0,
    bits: 0,
    predictor: 0,
    planar: 0,
    chunk_kind: 0,
    subsampling_across: 0,
    subsampling_down: 0,
    offsets_type: 0,
    byte_counts_type: 0,
};

// The plan of the page.
pub const PLAN: PlannedPage = PlannedPage {
    offsets_count: 1,
    byte_counts_count: 1,
    offsets_value: [24, 0, 0, 0, 0, 0, 0, 0],
    byte_counts_value: [12, 0, 0, 0, 0, 0, 0, 0],
    width: 2,
    height: 2,
    chunk_width: 2,
    chunk_height: 166667,
    version: 42,
    order: 0,
    photometric: 2,
    compression: 1,
    samples: 3,
    extra_count: 0,
    first_extra: 0,
    sample_format: 1,
    bits: 8,
    predictor: 1,
    planar: 1,
    chunk_kind: 0,
    subsampling_across: 2,
    subsampling_down: 2,
    offsets_type: 4,
    byte_counts_type: 4,
};

// Plans that are refused: a number of each kind that names nothing; a page without pixels; a list
// without a number, and one behind the file's end; and a list of another type.
const REFUSED: [PlannedPage; 14] = [
    NO_PLAN,
    PlannedPage { order: 2, ..PLAN },
    PlannedPage {
        photometric: 7,
        ..PLAN
    },
    PlannedPage {
        first_extra: 3,
        ..PLAN
    },
    PlannedPage { bits: 264, ..PLAN },
    PlannedPage {
        predictor: 0,
        ..PLAN
    },
    PlannedPage { planar: 3, ..PLAN },
    PlannedPage {
        chunk_kind: 2,
        ..PLAN
    },
    PlannedPage {
        offsets_type: 14,
        ..PLAN
    },
    PlannedPage {
        byte_counts_type: 0,
        ..PLAN
    },
    PlannedPage { width: 0, ..PLAN },
    PlannedPage {
        offsets_count: 0,
        ..PLAN
    },
    PlannedPage {
        byte_counts_count: 4,
        byte_counts_value: [0, 1, 0, 0, 0, 0, 0, 0],
        ..PLAN
    },
    PlannedPage {
        offsets_type: 13,
        ..PLAN
    },
];

/// Prints the sides of a page and its color.
pub fn print_sides(rt: &HostRuntime, file: &[u8], page: usize) -> io::Result<()> {
    let mut sides = Sides {
        width: 0,
        height: 0,
    };
    let status = tiff_ffi::page_sides(rt.alloc(), file, page, &mut sides);
    println!(rt; "page_sides {page}: {status}, {sides:?}")?;
    let mut color = Color {
        kind: 0,
        bits: 0,
        samples: 0,
    };
    let status = tiff_ffi::page_color(rt.alloc(), file, page, &mut color);
    println!(rt; "page_color {page}: {status}, {color:?}")
}

/// Prints what the samples of a page are.
pub fn print_samples(rt: &HostRuntime, file: &[u8], page: usize) -> io::Result<()> {
    let mut samples = PageSamples {
        kind: 0,
        bits: 0,
        samples: 0,
        planes: 0,
        inverted: 0,
    };
    let status = tiff_ffi::page_samples(rt.alloc(), file, page, &mut samples);
    println!(rt; "page_samples {page}: {status}, {samples:?}")
}

/// Prints the chunks of a page and its layout.
pub fn print_parts(rt: &HostRuntime, file: &[u8], page: usize) -> io::Result<()> {
    let mut chunks = Chunks {
        kind: 0,
        count: 0,
        width: 0,
        height: 0,
    };
    let status = tiff_ffi::page_chunks(rt.alloc(), file, page, &mut chunks);
    println!(rt; "page_chunks {page}: {status}, {chunks:?}")?;
    let mut layout = Layout {
        len: 0,
        complete_len: 0,
    };
    let status = tiff_ffi::page_layout(rt.alloc(), file, page, &mut layout);
    println!(rt; "page_layout {page}: {status}, {layout:?}")
}

/// Prints the image of a page, its first chunk and its first coding unit.
pub fn print_pixels(rt: &HostRuntime, file: &[u8], page: usize) -> io::Result<()> {
    let mut image = [0u8; 14];
    let status = tiff_ffi::read_image_bytes(rt.alloc(), file, page, &mut image);
    println!(rt; "read_image_bytes {page}: {status}, {image:?}")?;
    let mut chunk = [0u8; 13];
    let status = tiff_ffi::read_chunk_bytes(rt.alloc(), file, page, 0, &mut chunk);
    println!(rt; "read_chunk_bytes {page}: {status}, {chunk:?}")?;
    let mut unit = [0u8; 12];
    let status = tiff_ffi::read_coding_unit_bytes(rt.alloc(), file, page, 0, &mut unit);
    println!(rt; "read_coding_unit_bytes {page}: {status}, {unit:?}")
}

/// Prints some chunks of page 0.
pub fn print_chunks(rt: &HostRuntime, file: &[u8], first: u32, count: u32) -> io::Result<()> {
    let mut chunks = [0u8; 14];
    let status = tiff_ffi::read_chunks(rt.alloc(), file, 0, first, count, &mut chunks);
    println!(rt; "read_chunks {first} {count}: {status}, {chunks:?}")
}

/// Prints the plan of a page.
pub fn print_plan(rt: &HostRuntime, file: &[u8], page: usize) -> io::Result<()> {
    let mut plan = NO_PLAN;
    let status = tiff_ffi::page_plan(rt.alloc(), file, page, &mut plan);
    println!(rt; "page_plan {page}: {status}, {plan:?}")
}

// Prints a chunk that is read by a plan.
fn print_planned(rt: &HostRuntime, file: &[u8], plan: &PlannedPage, n: u32) -> io::Result<()> {
    let mut chunk = [0u8; 13];
    let status = tiff_ffi::read_planned_chunk(rt.alloc(), file, plan, n, &mut chunk);
    println!(rt; "read_planned_chunk {n}: {status}, {chunk:?}")
}

// Prints some chunks that are read by a plan.
fn print_range(
    rt: &HostRuntime,
    file: &[u8],
    plan: &PlannedPage,
    first: u32,
    count: u32,
) -> io::Result<()> {
    let mut chunks = [0u8; 14];
    let status = tiff_ffi::read_planned_chunks(rt.alloc(), file, plan, first, count, &mut chunks);
    println!(rt; "read_planned_chunks {first} {count}: {status}, {chunks:?}")
}

/// Prints some chunks of page 0 by its plan, and the answers to plans that are refused: a number
/// that names nothing, before chunks that have no numbers, and a page without pixels.
pub fn print_ranges_by_plans(rt: &HostRuntime, file: &[u8]) -> io::Result<()> {
    print_range(rt, file, &PLAN, 0, 1)?;
    print_range(rt, file, &PLAN, 0, 2)?;
    print_range(rt, file, &PLAN, 1, u32::MAX)?;
    print_range(rt, file, &NO_PLAN, 1, u32::MAX)?;
    print_range(rt, file, &PlannedPage { width: 0, ..PLAN }, 0, 1)
}

// Prints where a chunk is, by a plan.
fn print_place(rt: &HostRuntime, file: &[u8], plan: &PlannedPage, n: u32) -> io::Result<()> {
    let mut place = PlacedChunk {
        offset: 0,
        byte_count: 0,
    };
    let status = tiff_ffi::chunk_place(rt.alloc(), file, plan, n, &mut place);
    println!(rt; "chunk_place {n}: {status}, {place:?}")
}

// Prints the bytes of chunk 0 that are made from samples, by a plan.
fn print_rewritten(
    rt: &HostRuntime,
    file: &[u8],
    plan: &PlannedPage,
    samples: &[u8],
    stored: &mut [u8],
) -> io::Result<()> {
    let status = tiff_ffi::rewrite_chunk(rt.alloc(), file, plan, 0, samples, stored);
    println!(rt; "rewrite_chunk {samples:?}: {status}, {stored:?}")
}

/// Prints where the chunk of page 0 is, and a chunk that isn't there; the bytes of the chunk with
/// other samples, too few samples and too few bytes; and those of three big-endian numbers, stored
/// as differences with white as zero.
pub fn print_rewrites(rt: &HostRuntime, file: &[u8]) -> io::Result<()> {
    print_place(rt, file, &PLAN, 0)?;
    print_place(rt, file, &PLAN, 1)?;
    let samples = [21, 22, 23, 24, 25, 26, 27, 28, 29, 30, 31, 32];
    print_rewritten(rt, file, &PLAN, &samples, &mut [7u8; 13])?;
    print_rewritten(rt, file, &PLAN, &samples[..11], &mut [7u8; 13])?;
    print_rewritten(rt, file, &PLAN, &samples, &mut [7u8; 11])?;
    let white = PlannedPage {
        width: 3,
        height: 1,
        chunk_width: 3,
        chunk_height: 1,
        order: 1,
        photometric: 0,
        samples: 1,
        bits: 16,
        predictor: 2,
        ..PLAN
    };
    print_rewritten(rt, file, &white, &[1, 0, 3, 0, 0, 1], &mut [7u8; 7])
}

/// Prints the chunk of page 0 by its plan, a chunk that isn't there, and the answers to plans that
/// are refused.
pub fn print_by_plans(rt: &HostRuntime, file: &[u8]) -> io::Result<()> {
    print_planned(rt, file, &PLAN, 0)?;
    print_planned(rt, file, &PLAN, 1)?;
    for plan in &REFUSED {
        print_planned(rt, file, plan, 0)?;
    }
    Ok(())
}

//! The calls on a file of which the caller has windows.

use super::file::NO_DIRECTORY;
use super::page::{NO_PLAN, PLAN};
use super::tags::{BITS_PER_SAMPLE, NO_ENTRY};
use std::io;
use tiff_base::windows::{Stretch, Window, Windows};
use tiff_ffi::list::NO_PAGE;

const NOTHING: Stretch = Stretch { offset: 0, len: 0 };

// Prints the lists of a file of which these windows are.
fn print_lists(rt: &HostRuntime, seen: &Windows<'_>) -> io::Result<()> {
    let (mut pages, mut count, mut wanted) = ([NO_PAGE], 7, NOTHING);
    let status = tiff_ffi::list_pages_in(rt.alloc(), seen, &mut pages, &mut count, &mut wanted);
    println!(rt;
        "list_pages_in: {status}, {count}, {}, {wanted:?}",
        pages[0].offset
    )?;
    let (mut directories, mut count, mut wanted) = ([NO_DIRECTORY], 7, NOTHING);
    let status = tiff_ffi::list_directories_in(
        rt.alloc(),
        seen,
        &mut directories,
        &mut count,
        &mut wanted,
    );
    println!(rt;
        "list_directories_in: {status}, {count}, {}, {wanted:?}",
        directories[0].fields
    )
}

// Prints the plan of page 0 of a file of which these windows are, and its chunk.
fn print_parts(rt: &HostRuntime, seen: &Windows<'_>) -> io::Result<()> {
    let (mut plan, mut wanted) = (NO_PLAN, NOTHING);
    let status = tiff_ffi::page_plan_in(rt.alloc(), seen, 0, &mut plan, &mut wanted);
    println!(rt; "page_plan_in: {status}, {}, {wanted:?}", plan.width)?;
    let (mut chunk, mut wanted) = ([0u8; 12], NOTHING);
    let status = tiff_ffi::read_planned_chunk_in(
        rt.alloc(),
        seen,
        &PLAN,
        0,
        &mut chunk,
        &mut wanted,
    );
    println!(rt; "read_planned_chunk_in: {status}, {chunk:?}, {wanted:?}")
}

// Prints what is read of so many chunks, from the first one on, of a file of which these windows
// are.
fn print_range(rt: &HostRuntime, seen: &Windows<'_>, count: u32) -> io::Result<()> {
    let (mut chunks, mut wanted) = ([0u8; 14], NOTHING);
    let status = tiff_ffi::read_planned_chunks_in(
        rt.alloc(),
        seen,
        &PLAN,
        0,
        count,
        &mut chunks,
        &mut wanted,
    );
    println!(rt; "read_planned_chunks_in 0 {count}: {status}, {chunks:?}, {wanted:?}")
}

// Prints the tags of page 0 of a file of which these windows are, and the bytes of BitsPerSample.
fn print_tags(rt: &HostRuntime, seen: &Windows<'_>) -> io::Result<()> {
    let (mut entries, mut count) = ([NO_ENTRY], 9);
    let mut wanted = Stretch { offset: 9, len: 9 };
    let status = tiff_ffi::list_tags_in(rt.alloc(), seen, 0, &mut entries, &mut count, &mut wanted);
    println!(rt;
        "list_tags_in: {status}, {count}, {}, {wanted:?}",
        entries[0].number
    )?;
    let (mut bytes, mut written, mut wanted) = ([0u8; 4], 0, NOTHING);
    let status = tiff_ffi::tag_bytes_in(
        rt.alloc(),
        seen,
        0,
        BITS_PER_SAMPLE,
        1,
        &mut bytes,
        &mut written,
        &mut wanted,
    );
    println!(rt; "tag_bytes_in: {status}, {written}, {bytes:?}, {wanted:?}")
}

/// Prints the calls on a file of which nothing, its header, all but its pixels, its whole and
/// windows in disorder are seen.
pub fn print_windows(rt: &HostRuntime, file: &[u8]) -> io::Result<()> {
    let len = file.len() as u64;
    let at = file.len().min(36);
    let header = Window {
        offset: 0,
        bytes: &file[..file.len().min(16)],
    };
    let rest = Window {
        offset: at as u64,
        bytes: &file[at..],
    };
    let whole = Window {
        offset: 0,
        bytes: file,
    };
    let cases: [&[Window<'_>]; 5] = [&[], &[header], &[header, rest], &[whole], &[rest, header]];
    for windows in cases {
        let seen = Windows { len, windows };
        print_lists(rt, &seen)?;
        print_parts(rt, &seen)?;
        print_range(rt, &seen, 1)?;
        print_range(rt, &seen, 2)?;
        print_tags(rt, &seen)?;
    }
    Ok(())
}

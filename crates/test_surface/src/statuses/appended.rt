//! The call that writes pages behind a file.

use super::file::{print_directories, print_list};
use super::page::{print_pixels, print_sides};
use super::pages::{FAMILY, GRAY, PAGES};
use std::io;
use tiff_ffi::appended::Appended;
use tiff_ffi::pages::{NewPage, PagesEnd};

// What no call leaves.
const OTHER: Appended = Appended {
    len: 7,
    link: 7,
    target: 7,
    width: 7,
    end: PagesEnd { page: 7, field: 7 },
};

// Makes a file of pages, and prints its length. Returns how many of the bytes it has.
fn print_made(
    rt: &HostRuntime,
    version: u16,
    pages: &[NewPage<'_>],
    file: &mut [u8],
) -> io::Result<usize> {
    let mut len = 0;
    let mut end = PagesEnd { page: 0, field: 0 };
    let status = tiff_ffi::write_pages(rt.alloc(), version, pages, file, &mut len, &mut end);
    println!(rt; "write_pages, to go on behind: {status}, {len}")?;
    Ok(len)
}

// Writes pages behind a file into a buffer, and prints the answer.
fn print_append(
    rt: &HostRuntime,
    file: &[u8],
    pages: &[NewPage<'_>],
    buffer: &mut [u8],
) -> io::Result<Appended> {
    let mut appended = OTHER;
    let room = buffer.len();
    let status = tiff_ffi::append_pages(rt.alloc(), file, pages, buffer, &mut appended);
    println!(rt; "append_pages into {room} bytes: {status}, {appended:?}")?;
    Ok(appended)
}

// Copies the first bytes of a buffer behind a file of `len` bytes, as many as there is room for.
// Returns how many bytes the file has then.
fn add(file: &mut [u8], len: usize, buffer: &[u8], count: usize) -> usize {
    let len = len.min(file.len());
    let n = count.min(buffer.len()).min(file.len() - len);
    file[len..len + n].copy_from_slice(&buffer[..n]);
    len + n
}

// Gives the last link of a file its new number.
fn put_link(file: &mut [u8], appended: &Appended) {
    let number = appended.target.to_le_bytes();
    let at = (appended.link as usize).min(file.len());
    let n = (appended.width as usize).min(8).min(file.len() - at);
    file[at..at + n].copy_from_slice(&number[..n]);
}

// Appends pages to a file of `len` bytes by the two writes, and prints the pages that it has after
// each. Returns how many bytes it has; none if the call was refused.
fn print_appended(
    rt: &HostRuntime,
    file: &mut [u8],
    len: usize,
    pages: &[NewPage<'_>],
) -> io::Result<usize> {
    let mut buffer = [0u8; 1200];
    let appended = print_append(rt, &file[..len.min(file.len())], pages, &mut buffer)?;
    let len = if appended.width == 0 {
        0
    } else {
        add(file, len, &buffer, appended.len)
    };
    let len = len.min(file.len());
    let file = &mut file[..len];
    print_list(rt, file)?;
    put_link(file, &appended);
    print_list(rt, file)?;
    Ok(len)
}

// Prints pages that are appended to a file of this version: first to one without a page.
fn print_version(rt: &HostRuntime, version: u16) -> io::Result<()> {
    let mut file = [0u8; 2000];
    let len = print_made(rt, version, &[], &mut file)?;
    let len = print_appended(rt, &mut file, len, &[GRAY])?;
    let len = print_appended(rt, &mut file, len, &PAGES)?;
    let len = print_appended(rt, &mut file, len, &[])?;
    let file = &file[..len.min(2000)];
    print_sides(rt, file, 3)?;
    print_pixels(rt, file, 0)?;
    print_pixels(rt, file, 3)
}

// Prints the directories of a file with a page, behind which pages with parents are appended.
fn print_family(rt: &HostRuntime) -> io::Result<()> {
    let mut file = [0u8; 2000];
    let len = print_made(rt, 42, &[GRAY], &mut file)?;
    let len = print_appended(rt, &mut file, len, &FAMILY)?;
    print_directories(rt, &file[..len.min(2000)])
}

// Prints the answers for a short buffer, for pages that are refused behind one that is well, and
// for a file whose directory links to itself.
fn print_refused_pages(rt: &HostRuntime) -> io::Result<()> {
    let mut file = [0u8; 300];
    let len = print_made(rt, 42, &[GRAY], &mut file)?;
    let file = &mut file[..len.min(300)];
    let mut buffer = [0u8; 300];
    let mut short = [0u8; 10];
    let _end = print_append(rt, file, &[GRAY], &mut short)?;
    let wrong = [GRAY, NewPage { color: 33, ..GRAY }];
    let _end = print_append(rt, file, &wrong, &mut buffer)?;
    let flat = [GRAY, NewPage { height: 0, ..GRAY }];
    let _end = print_append(rt, file, &flat, &mut buffer)?;
    let mut appended = print_append(rt, file, &[], &mut buffer)?;
    if let Some(first) = file.get(4) {
        appended.target = u64::from(*first);
    }
    put_link(file, &appended);
    let _end = print_append(rt, file, &[GRAY], &mut buffer)?;
    Ok(())
}

// Prints the answers for files that are refused: a big-endian one, one that ends within its header,
// and one that is no TIFF file.
fn print_refused_files(rt: &HostRuntime) -> io::Result<()> {
    let mut buffer = [0u8; 300];
    let _end = print_append(rt, b"MM\0\x2a\0\0\0\0", &[GRAY], &mut buffer)?;
    let _end = print_append(rt, b"II\x2a\0\x08\0", &[GRAY], &mut buffer)?;
    let _end = print_append(rt, b"GIF89a", &[GRAY], &mut buffer)?;
    Ok(())
}

/// Prints pages that are appended to files of both kinds, and what is refused.
pub fn print_all_appended(rt: &HostRuntime) -> io::Result<()> {
    print_version(rt, 42)?;
    print_version(rt, 43)?;
    print_family(rt)?;
    print_refused_pages(rt)?;
    print_refused_files(rt)
}

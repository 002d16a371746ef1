//! The calls that read a whole file, and the texts of statuses.

use std::io;
use tiff_ffi::directories::ListedDirectory;
use tiff_ffi::list::NO_PAGE;

/// Prints the byte order of a file and the number of its pages.
pub fn print_file(rt: &HostRuntime, file: &[u8]) -> io::Result<()> {
    let mut order = 7;
    let status = tiff_ffi::byte_order(file, &mut order);
    println!(rt; "byte_order: {status}, {order}")?;
    let mut pages = 7;
    let status = tiff_ffi::page_count(rt.alloc(), file, &mut pages);
    println!(rt; "page_count: {status}, {pages}")
}

pub const NO_DIRECTORY: ListedDirectory = ListedDirectory {
    offset: 0,
    parent: 0,
    fields: 0,
    depth: 0,
    tag: 0,
    found: 0,
    status: 0,
    page: NO_PAGE,
};

/// Prints the list of a file's pages, with room for one.
pub fn print_list(rt: &HostRuntime, file: &[u8]) -> io::Result<()> {
    let mut pages = [NO_PAGE];
    let mut count = 0;
    let status = tiff_ffi::list_pages(rt.alloc(), file, &mut pages, &mut count);
    println!(rt; "list_pages: {status}, {count}, {:?}", pages[0])
}

/// Prints the list of a file's directories, with room for one.
pub fn print_tree(rt: &HostRuntime, file: &[u8]) -> io::Result<()> {
    let mut directories = [NO_DIRECTORY];
    let mut count = 0;
    let status = tiff_ffi::list_directories(rt.alloc(), file, &mut directories, &mut count);
    println!(rt; "list_directories: {status}, {count}, {:?}", directories[0])
}

/// Prints a file's directories, with room for six.
pub fn print_directories(rt: &HostRuntime, file: &[u8]) -> io::Result<()> {
    let mut directories = [NO_DIRECTORY; 6];
    let mut count = 0;
    let status = tiff_ffi::list_directories(rt.alloc(), file, &mut directories, &mut count);
    println!(rt; "list_directories: {status}, {count}, {directories:?}")
}

/// Prints the text of a status, as far as there is room for it.
pub fn print_text(rt: &HostRuntime, status: u32) -> io::Result<()> {
    let mut text = [0u8; 8];
    let len = tiff_ffi::fault_text(status, &mut text);
    println!(rt; "fault_text {status}: {len}, {text:?}")
}

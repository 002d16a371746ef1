//! The calls that read tags.

use std::io;
use tiff_ffi::calls::FieldSize;
use tiff_ffi::entries::TagEntry;

/// The tag of several values that the page has.
pub const BITS_PER_SAMPLE: u16 = 258;

const IMAGE_WIDTH: u16 = 256;

/// Prints the field of a tag, a number and the bytes of values.
pub fn print_tags(rt: &HostRuntime, file: &[u8], page: usize) -> io::Result<()> {
    let mut field = FieldSize { kind: 0, count: 0 };
    let status = tiff_ffi::tag_field(rt.alloc(), file, page, BITS_PER_SAMPLE, &mut field);
    println!(rt; "tag_field {page}: {status}, {field:?}")?;
    let mut number = 0;
    let status = tiff_ffi::tag_number(rt.alloc(), file, page, IMAGE_WIDTH, &mut number);
    println!(rt; "tag_number {page}: {status}, {number}")?;
    let mut bytes = [0u8; 6];
    let mut count = 0;
    let (buf, written) = (&mut bytes, &mut count);
    let status = tiff_ffi::tag_bytes(rt.alloc(), file, page, BITS_PER_SAMPLE, 2, buf, written);
    println!(rt; "tag_bytes {page}: {status}, {count}, {bytes:?}")
}

/// An entry that no call put.
pub const NO_ENTRY: TagEntry = TagEntry {
    count: 9,
    offset: 9,
    number: 9,
    kind: 9,
    in_place: 9,
};

/// Prints the first entries of a directory.
pub fn print_entries(rt: &HostRuntime, file: &[u8], page: usize) -> io::Result<()> {
    let mut entries = [NO_ENTRY; 3];
    let mut count = 9;
    let (out, told) = (&mut entries, &mut count);
    let status = tiff_ffi::list_tags(rt.alloc(), file, page, out, told);
    println!(rt; "list_tags {page}: {status}, {count}, {entries:?}")
}

/// Prints the values of a tag as whole numbers.
pub fn print_numbers(rt: &HostRuntime, file: &[u8], page: usize, tag: u16) -> io::Result<()> {
    let mut numbers = [9u64; 2];
    let mut count = 9;
    let (out, told) = (&mut numbers, &mut count);
    let status = tiff_ffi::tag_numbers(rt.alloc(), file, page, tag, out, told);
    println!(rt; "tag_numbers {page} {tag}: {status}, {count}, {numbers:?}")
}

fn print_floats(rt: &HostRuntime, file: &[u8], page: usize, tag: u16) -> io::Result<()> {
    let mut numbers = [9u64; 2];
    let mut count = 9;
    let (out, told) = (&mut numbers, &mut count);
    let status = tiff_ffi::tag_floats(rt.alloc(), file, page, tag, out, told);
    println!(rt; "tag_floats {page} {tag}: {status}, {count}, {numbers:?}")
}

fn print_tag_text(rt: &HostRuntime, file: &[u8], page: usize, tag: u16) -> io::Result<()> {
    let mut text = [9u8; 4];
    let mut len = 9;
    let (out, told) = (&mut text, &mut len);
    let status = tiff_ffi::tag_text(rt.alloc(), file, page, tag, out, told);
    println!(rt; "tag_text {page} {tag}: {status}, {len}, {text:?}")
}

/// Prints the values of a tag as whole numbers, as floating-point numbers and as a text.
pub fn print_values(rt: &HostRuntime, file: &[u8], page: usize, tag: u16) -> io::Result<()> {
    print_numbers(rt, file, page, tag)?;
    print_floats(rt, file, page, tag)?;
    print_tag_text(rt, file, page, tag)
}

//! The calls of `tiff_ffi`, which `tiff_c` exports to C, on a file of one page that one of the
//! calls writes. Each is printed with its status and with what it put. There is no page 1: calls on
//! it are refused, and put nothing.

mod altered;
mod appended;
mod file;
mod framed;
mod jobs;
mod page;
mod pages;
mod tags;
mod windows;
mod written;

use altered::{print_claim, print_cut, print_refused, print_retyped};
use appended::print_all_appended;
use file::{print_file, print_list, print_text, print_tree};
use framed::print_all_frames;
use jobs::print_all_jobs;
use page::{
    print_by_plans, print_chunks, print_parts, print_pixels, print_plan, print_ranges_by_plans,
    print_rewrites, print_samples, print_sides,
};
use pages::print_all_pages;
use std::io;
use tags::{BITS_PER_SAMPLE, print_entries, print_tags, print_values};
use windows::print_windows;
use written::{AT, DIRECTORY, print_frames, print_too_long, write};

fn print_page(rt: &HostRuntime, file: &[u8], page: usize) -> io::Result<()> {
    print_sides(rt, file, page)?;
    print_samples(rt, file, page)?;
    print_parts(rt, file, page)?;
    print_pixels(rt, file, page)?;
    print_tags(rt, file, page)?;
    print_values(rt, file, page, BITS_PER_SAMPLE)
}

// Prints the calls on the page, on a page that isn't there, and on a range of its chunks.
fn print_pages(rt: &HostRuntime, file: &[u8]) -> io::Result<()> {
    print_page(rt, file, 0)?;
    print_page(rt, file, 1)?;
    print_entries(rt, file, 0)?;
    print_entries(rt, file, 1)?;
    print_entries(rt, file, AT + DIRECTORY)?;
    print_sides(rt, file, AT + DIRECTORY)?;
    print_sides(rt, file, AT + 400)?;
    print_chunks(rt, file, 0, 1)?;
    print_chunks(rt, file, 0, 2)?;
    print_chunks(rt, file, 1, u32::MAX)?;
    print_plan(rt, file, 0)?;
    print_plan(rt, file, 1)?;
    print_by_plans(rt, file)?;
    print_ranges_by_plans(rt, file)?;
    print_rewrites(rt, file)
}

// Prints the calls on the file, and on its first four bytes.
fn print_files(rt: &HostRuntime, file: &[u8]) -> io::Result<()> {
    let cut = &file[..file.len().min(4)];
    print_file(rt, file)?;
    print_file(rt, cut)?;
    print_list(rt, file)?;
    print_list(rt, cut)?;
    print_tree(rt, file)?;
    print_tree(rt, cut)?;
    print_windows(rt, file)
}

/// Prints each call with its status and with what it put.
pub fn print_calls(rt: &HostRuntime) -> io::Result<()> {
    print_too_long(rt)?;
    let mut buffer = [0u8; 300];
    let mut len = 0;
    let status = write(rt, &mut buffer, &mut len);
    println!(rt; "write_image: {status}, {len}")?;
    print_frames(rt)?;
    let file = &buffer[..len.min(300)];
    print_pages(rt, file)?;
    print_claim(rt)?;
    print_cut(rt)?;
    print_retyped(rt)?;
    print_refused(rt)?;
    print_files(rt, file)?;
    print_all_jobs(rt)?;
    print_all_pages(rt)?;
    print_all_frames(rt)?;
    print_all_appended(rt)?;
    println!(rt; "version: {}", tiff_ffi::version())?;
    print_text(rt, 0)?;
    print_text(rt, 22)
}

//! Names each public name of `tiff` by its path, makes public calls that no list of calls or of
//! jobs makes, the calls for C, and command lines of `tiffpage`, and prints each with its result.
//! The program depends on `tiff`, for the calls for C on `tiff_ffi`, and for the command lines on
//! `tiffpage_lib`, so every other name that it uses is reached from `tiff`; but `documents` has the
//! lists of pages of `tiff_pages`.
#![tactic(auto)]

mod borrowed;
mod color;
mod colortype;
mod commands;
mod directories;
mod directory;
mod documents;
mod error;
mod fields;
mod ifd;
mod io;
mod kinds;
mod migrating;
mod names;
mod report;
mod statuses;
mod stream;
mod tags;
mod values;
mod writer;

use report::Report;
use tiff::TiffResult;

// Adds the lines of what needs no file.
fn add_parts(report: &mut Report) -> TiffResult<()> {
    error::add_lines(report);
    color::add_lines(report)?;
    tags::add_lines(report)?;
    directory::add_lines(report)?;
    ifd::add_lines(report)
}

// Adds the lines of reading and writing.
fn add_files(report: &mut Report) -> TiffResult<()> {
    values::add_lines(report);
    colortype::add_lines(report);
    writer::add_lines(report);
    kinds::add_lines(report);
    stream::add_lines(report)?;
    io::add_lines(report)?;
    fields::add_lines(report)?;
    directories::add_lines(report)?;
    borrowed::add_lines(report)?;
    documents::add_lines(report)?;
    migrating::add_lines(report)?;
    commands::add_lines(report)
}

fn main(rt: HostRuntime) -> std::io::Result<()> {
    names::name_calls();
    let mut report = Report::new(rt.alloc());
    let parts = add_parts(&mut report);
    report.line("parts", parts);
    let files = add_files(&mut report);
    report.line("files", files);
    match report.into_text() {
        Some(lines) => print!(rt; "{lines}")?,
        None => println!(rt; "no memory for the lines")?,
    }
    statuses::print_calls(&rt)
}

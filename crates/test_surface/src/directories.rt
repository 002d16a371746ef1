//! `tiff::encoder`: directories.

use crate::report::Report;
use std::alloc::Global;
use tiff::TiffResult;
use tiff::directory::{Directory, Entry};
use tiff::encoder::{DirectoryEncoder, DirectoryOffset, HasDirectory, TiffEncoder, TiffKind};
use tiff::io::{MemorySink, Sink};
use tiff::tags::{Tag, Type, ValueBuffer};

// Writes values that are passed as they are.
fn add_values<W: Sink, K: TiffKind>(
    report: &mut Report,
    directory: &mut DirectoryEncoder<'_, W, K>,
) {
    let answer = directory.write_tag(Tag::Artist, "abcdef");
    report.line("DirectoryEncoder::write_tag", answer);
    let answer = directory.write_entry([1u32, 2]);
    report.line("DirectoryEncoder::write_entry", answer);
    let answer = directory.write_entry_bytes(Type::SHORT, &[1, 2, 3, 4]);
    report.line("DirectoryEncoder::write_entry_bytes", answer);
    let answer = directory.write_data([9u8, 8].as_slice());
    report.line("DirectoryEncoder::write_data", answer);
}

// Writes values that are passed as bytes, into a directory or an image.
fn add_buffers<W: Sink, K: TiffKind, D: HasDirectory>(
    report: &mut Report,
    directory: &mut DirectoryEncoder<'_, W, K, D>,
    buffer: &ValueBuffer,
) {
    let answer = directory.write_tag_buf(Tag::Make, buffer);
    report.line("DirectoryEncoder::write_tag_buf", answer);
    let answer = directory.write_entry_buf(buffer);
    report.line("DirectoryEncoder::write_entry_buf", answer);
    let answer = directory.write_data_buf(buffer);
    report.line("DirectoryEncoder::write_data_buf", answer);
}

// Writes a directory with all its values.
fn add_directory<W: Sink, K: TiffKind>(
    report: &mut Report,
    encoder: &mut TiffEncoder<W, K>,
    buffer: &ValueBuffer,
) -> TiffResult<()> {
    let mut directory = encoder.image_directory()?;
    add_values(report, &mut directory);
    add_buffers(report, &mut directory, buffer);
    directory.finish()
}

// Writes a directory of given fields out of the chain, and compares its offset with one that is
// made of its pointer and the fields.
fn add_offset<W: Sink>(
    report: &mut Report,
    encoder: &mut TiffEncoder<W>,
    fields: &Directory,
) -> TiffResult<()> {
    let mut directory = encoder.extra_directory()?;
    let answer = directory.extend_from(fields);
    report.line("DirectoryEncoder::extend_from", answer);
    let written = directory.finish_with_offsets()?;
    report.line("DirectoryOffset", (written.pointer, written.offset));
    let made = DirectoryOffset::new(written.pointer, fields)?;
    report.line("DirectoryOffset::new", (made.pointer, made.offset));
    report.line("DirectoryOffset::eq", made == written);
    Ok(())
}

// Two fields of one number each.
fn sides(alloc: Global) -> TiffResult<Directory> {
    let fields = [
        (Tag::ImageWidth, Entry::new(Type::LONG, 1, [100, 0, 0, 0])),
        (Tag::ImageLength, Entry::new(Type::LONG, 1, [200, 0, 0, 0])),
    ];
    Directory::from_iter(alloc, fields)
}

/// Adds the lines of directories.
pub fn add_lines(report: &mut Report) -> TiffResult<()> {
    let alloc = report.alloc();
    let buffer = ValueBuffer::from_value(alloc, &[1u16, 2, 3])?;
    let mut encoder = TiffEncoder::new(alloc, MemorySink::new(Vec::new(alloc)))?;
    let answer = add_directory(report, &mut encoder, &buffer);
    report.line("DirectoryEncoder::finish", answer);
    report.line("TiffEncoder::into_inner", encoder.into_inner().into_vec());
    let mut encoder = TiffEncoder::new(alloc, MemorySink::new(Vec::new(alloc)))?;
    add_offset(report, &mut encoder, &sides(alloc)?)
}

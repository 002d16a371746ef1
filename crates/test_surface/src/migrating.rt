//! The programs of docs/MIGRATING.md: what a program over the Rust crate `tiff` becomes.
//! `docs/definitions/quote --check` compares them.

use crate::report::Report;
use std::alloc::Global;
use tiff::TiffResult;
use tiff::decoder::stream::{EndianReader, PackBitsReader};
use tiff::decoder::{Decoder, DecodingResult, Limits};
use tiff::encoder::colortype::{ColorType, Gray8, Gray32Float, RGB8};
use tiff::encoder::compression::{CompressionAlgorithm, Packbits};
use tiff::encoder::writer::TiffWriter;
use tiff::encoder::{DirectoryEncoder, HasDirectory, TiffEncoder, TiffKind};
use tiff::io::{MemorySink, MemorySource, Sink, Source};
use tiff::tags::{Bits32, ByteOrder, Tag};

// The description of a page, and its samples.
fn read_page(alloc: Global, file: Vec<u8>) -> TiffResult<(String, DecodingResult)> {
    let mut decoder = Decoder::new(alloc, MemorySource::new(file))?;
    let description = decoder.get_tag_ascii_string(Tag::ImageDescription)?;
    let samples = decoder.read_image()?;
    Ok((description, samples))
}

// A decoder over a source that stays its owner's.
fn sides<R: Source>(alloc: Global, source: &mut R) -> TiffResult<(u32, u32)> {
    let mut decoder = Decoder::new(alloc, source)?;
    decoder.dimensions()
}

// Limits of one's own.
fn read_limited<R: Source>(alloc: Global, source: R) -> TiffResult<DecodingResult> {
    let mut limits = Limits::default();
    limits.decoding_buffer_size = 1 << 20;
    let mut decoder = Decoder::new(alloc, source)?.with_limits(limits);
    decoder.read_image()
}

// The number of samples, by their type.
fn sample_count(samples: &DecodingResult) -> usize {
    match samples {
        DecodingResult::U8(samples) => samples.len(),
        DecodingResult::U16(samples) => samples.len(),
        DecodingResult::F32(samples) => samples.len(),
        _ => 0,
    }
}

// A page of any color type.
fn write_any<W: Sink, C: ColorType>(
    encoder: &mut TiffEncoder<W>,
    width: u32,
    height: u32,
    samples: &[C::Inner],
) -> TiffResult<()> {
    encoder.write_image::<C>(width, height, samples)
}

// Two tags of a directory or of an image that is open.
fn write_names<W: Sink, K: TiffKind, D: HasDirectory>(
    directory: &mut DirectoryEncoder<'_, W, K, D>,
) -> TiffResult<()> {
    directory.write_tag(Tag::Artist, "a name")?;
    directory.write_tag(Tag::Unknown(65000), &[1u16, 2, 3][..])
}

// A page with tags: while it is open, no `?`.
fn write_page<W: Sink>(encoder: &mut TiffEncoder<W>, samples: &[u8]) -> TiffResult<()> {
    let mut image = encoder.new_image::<RGB8>(2, 1)?;
    let named = write_names(image.encoder());
    let placed = image.append_data(7u32);
    let ended = image.write_data(samples);
    named?;
    placed?;
    ended
}

// A page of floating-point numbers.
fn write_floats<W: Sink>(encoder: &mut TiffEncoder<W>, bits: u32) -> TiffResult<()> {
    encoder.write_image::<Gray32Float>(1, 1, &[Bits32(bits)])
}

// A file in memory, through a sink that stays its owner's.
fn write_file(alloc: Global) -> TiffResult<Vec<u8>> {
    let mut sink = MemorySink::new(Vec::new(alloc));
    let mut encoder = TiffEncoder::new(alloc, &mut sink)?;
    write_page(&mut encoder, &[1, 2, 3, 4, 5, 6])?;
    write_any::<_, Gray8>(&mut encoder, 2, 1, &[7, 8])?;
    write_floats(&mut encoder, 0x3fc0_0000)?;
    Ok(sink.into_vec())
}

// Bytes that are packed into a writer, and how many they are there.
fn pack(alloc: Global, bytes: &[u8]) -> TiffResult<u64> {
    let mut writer = TiffWriter::new(MemorySink::new(Vec::new(alloc)));
    Packbits::default().write_to(alloc, &mut writer, bytes)
}

// Bytes that are unpacked, as many as the buffer has room for.
fn unpack(packed: Vec<u8>, row: &mut [u8]) -> TiffResult<()> {
    let length = packed.len() as u64;
    let mut reader = PackBitsReader::new(MemorySource::new(packed), 0, length);
    reader.read_exact(row)
}

// A number at an offset.
fn number_at(alloc: Global, bytes: &[u8], offset: u64) -> TiffResult<Bits32> {
    let source = MemorySource::new(Vec::from_slice(alloc, bytes)?);
    let mut reader = EndianReader::new(source, ByteOrder::BigEndian);
    reader.goto_offset(offset)?;
    reader.read_f32()
}

// Adds the lines of a page that is written and read.
fn add_page(report: &mut Report) -> TiffResult<()> {
    let alloc = report.alloc();
    let file = write_file(alloc)?;
    let mut source = MemorySource::new(file);
    report.line("sides", sides(alloc, &mut source));
    report.line("limited", read_limited(alloc, &mut source));
    let page = Decoder::new(alloc, source)?.read_image()?;
    report.line("samples", sample_count(&page));
    Ok(())
}

// Adds the lines of bytes that are packed and unpacked.
fn add_packed(report: &mut Report) -> TiffResult<()> {
    let alloc = report.alloc();
    report.line("packed", pack(alloc, &[7; 9]));
    let packed = Vec::from_slice(alloc, &[0xf8, 7])?;
    let mut row = [0; 9];
    report.line("unpacked", unpack(packed, &mut row));
    report.line("unpacked row", row);
    report.line("number", number_at(alloc, &[0, 0x3f, 0x80, 0, 0], 1));
    Ok(())
}

/// Adds the lines of what docs/MIGRATING.md shows.
pub fn add_lines(report: &mut Report) -> TiffResult<()> {
    add_page(report)?;
    add_packed(report)
}

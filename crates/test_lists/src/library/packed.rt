//! Packed bytes are read one after another; those that are written of no bytes, and by default.

use crate::library::told::Told;
use tiff_base::error::TiffResult;
use tiff_base::io::{SliceSource, Source};
use tiff_ifd::stream::PackBitsReader;
use tiff_value::encoder::compression::{Compression, CompressionAlgorithm, Compressor, Packbits};
use tiff_value::encoder::writer::TiffWriter;

// Adds an empty read, a row of three bytes, another such row, which passes nothing, and the read of
// what is left, over nines.
fn add_reads<R: Source>(told: &mut Told, reader: &mut PackBitsReader<R>) {
    told.line("PackBitsReader::read, no bytes", reader.read(&mut []));
    let mut row = [0u8; 3];
    let answer = reader.read_exact(&mut row);
    told.line("PackBitsReader::read_exact", (answer, row));
    let mut row = [0u8; 3];
    told.line("PackBitsReader::read_exact", reader.read_exact(&mut row));
    let mut rest = [9u8; 3];
    let answer = reader.read(&mut rest);
    told.line("PackBitsReader::read", (answer, rest));
}

// Adds what a compressor returns, and what it writes.
fn add_stored(told: &mut Told, mut compressor: Compressor, bytes: &[u8]) -> TiffResult<()> {
    let mut writer = TiffWriter::new(told.empty_sink()?);
    let answer = compressor.write_to(told.alloc(), &mut writer, bytes);
    let written = writer.into_inner().into_vec();
    told.line("CompressionAlgorithm::write_to", (answer, written));
    Ok(())
}

/// Adds the lines of packed bytes: a run of three sevens, and an eight, from the second byte on.
pub fn add_lines(told: &mut Told) -> TiffResult<()> {
    let source = SliceSource::new(&[9, 0xFE, 7, 0, 8]);
    add_reads(told, &mut PackBitsReader::new(source, 1, 4));
    add_stored(told, Packbits.get_algorithm(), &[])?;
    add_stored(told, Compressor::default(), &[5, 5, 5])
}

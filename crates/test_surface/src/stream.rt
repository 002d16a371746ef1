//! `tiff::decoder::stream`: readers of numbers.

use crate::report::Report;
use tiff::TiffResult;
use tiff::decoder::stream::EndianReader;
use tiff::io::{MemorySource, Source};
use tiff::tags::ByteOrder;

const BYTES: [u8; 42] = [
    0x01, 0x02, 0xff, 0xfe, 0x00, 0x00, 0x01, 0x00, 0xff, 0xff, 0xff, 0xfd, // 2, 2, 4 and 4 bytes
    0x00, 0x00, 0x00, 0x01, 0x00, 0x00, 0x00, 0x00, // 8 bytes
    0xff, 0xff, 0xff, 0xff, 0xff, 0xff, 0xff, 0xfc, // 8 bytes
    0x3f, 0x80, 0x00, 0x00, // 4 bytes
    0x40, 0x00, 0x00, 0x00, 0x00, 0x00, 0x00, 0x00, // 8 bytes
    0x05, 0x06,
];

fn add_numbers<S: Source>(report: &mut Report, reader: &mut EndianReader<S>) {
    report.line("EndianReader::read_u16", reader.read_u16());
    report.line("EndianReader::read_i16", reader.read_i16());
    report.line("EndianReader::read_u32", reader.read_u32());
    report.line("EndianReader::read_i32", reader.read_i32());
    report.line("EndianReader::read_u64", reader.read_u64());
    report.line("EndianReader::read_i64", reader.read_i64());
    report.line("EndianReader::read_f32", reader.read_f32());
    report.line("EndianReader::read_f64", reader.read_f64());
    report.line("EndianReader::goto_offset", reader.goto_offset(40));
}

/// Adds the lines of a reader.
pub fn add_lines(report: &mut Report) -> TiffResult<()> {
    let bytes = Vec::from_slice(report.alloc(), &BYTES)?;
    let mut reader = EndianReader::new(MemorySource::new(bytes), ByteOrder::BigEndian);
    report.line("EndianReader::inner", reader.inner());
    add_numbers(report, &mut reader);
    report.line("EndianReader", &reader);
    Ok(())
}

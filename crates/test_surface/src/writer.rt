//! `tiff::encoder::writer`.

use crate::report::Report;
use tiff::encoder::compression::{Compressor, Packbits, pack_bits};
use tiff::encoder::writer::{TiffWriter, write_bigtiff_header, write_tiff_header};
use tiff::io::{MemorySink, Sink};
use tiff::tags::{Bits32, Bits64};

fn add_small<W: Sink>(report: &mut Report, writer: &mut TiffWriter<W>) {
    report.line("TiffWriter::write_u8", writer.write_u8(1));
    report.line("TiffWriter::write_i8", writer.write_i8(-2));
    report.line("TiffWriter::write_u16", writer.write_u16(772));
    report.line("TiffWriter::write_i16", writer.write_i16(-2));
    report.line("TiffWriter::write_u32", writer.write_u32(84281096));
    report.line("TiffWriter::write_i32", writer.write_i32(-3));
}

fn add_large<W: Sink>(report: &mut Report, writer: &mut TiffWriter<W>) {
    let number = 72623859790382856;
    report.line("TiffWriter::write_u64", writer.write_u64(number));
    report.line("TiffWriter::write_i64", writer.write_i64(-4));
    let bits = Bits32(1065353216);
    report.line("TiffWriter::write_f32", writer.write_f32(bits));
    let bits = Bits64(4611686018427387904);
    report.line("TiffWriter::write_f64", writer.write_f64(bits));
    report.line("TiffWriter::last_written", writer.last_written());
    report.line("TiffWriter::offset", writer.offset());
}

fn add_packed<W: Sink>(report: &mut Report, writer: &mut TiffWriter<W>) {
    let alloc = report.alloc();
    writer.set_compression(Compressor::Packbits(Packbits));
    let answer = writer.write_bytes(alloc, &[65, 65, 65]);
    report.line("TiffWriter::set_compression, write_bytes", answer);
    let answer = writer.write_plain(&[66, 66, 66]);
    report.line("TiffWriter::write_plain", answer);
    writer.reset_compression();
    let answer = writer.write_bytes(alloc, &[67, 67]);
    report.line("TiffWriter::reset_compression, write_bytes", answer);
}

fn add_moves<W: Sink>(report: &mut Report, writer: &mut TiffWriter<W>) {
    report.line("TiffWriter::pad_word_boundary", writer.pad_word_boundary());
    report.line("TiffWriter::goto_offset", writer.goto_offset(0));
    report.line("write_tiff_header", write_tiff_header(writer));
    report.line("write_bigtiff_header", write_bigtiff_header(writer));
    report.line("TiffWriter::len", writer.len());
    report.line("TiffWriter::has_failed", writer.has_failed());
}

/// Adds the lines of a writer, and the bytes that it wrote.
pub fn add_lines(report: &mut Report) {
    let mut writer = TiffWriter::new(MemorySink::new(Vec::new(report.alloc())));
    add_small(report, &mut writer);
    add_large(report, &mut writer);
    add_packed(report, &mut writer);
    add_moves(report, &mut writer);
    report.line("TiffWriter::into_inner", writer.into_inner().into_vec());
    report.line("pack_bits", pack_bits(report.alloc(), &[65, 65, 66, 66]));
}

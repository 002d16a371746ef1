//! `tiff::encoder`: the kinds of files.

use crate::report::Report;
use std::fmt::Debug;
use tiff::encoder::writer::TiffWriter;
use tiff::encoder::{TiffKind, TiffKindBig, TiffKindStandard};
use tiff::io::{MemorySink, Sink};

// The header of a kind of file, a count of entries and an offset.
fn add_parts<K: TiffKind, W: Sink>(report: &mut Report, writer: &mut TiffWriter<W>) {
    report.line("TiffKind::write_header", K::write_header(writer));
    let answer = K::write_entry_count(writer, 3);
    report.line("TiffKind::write_entry_count", answer);
    report.line("TiffKind::write_offset", K::write_offset(writer, 513));
}

// What a kind of file is, what it makes of offsets, and the bytes of its parts.
fn add_kind<K: TiffKind>(report: &mut Report)
where
    K::OffsetType: Debug + Drop,
{
    report.line("TiffKind::file_kind", K::file_kind());
    report.line("TiffKind::convert_offset", K::convert_offset(4294967295));
    report.line("TiffKind::convert_offset", K::convert_offset(4294967296));
    report.line("TiffKind::offset_at", K::offset_at(4294967296));
    let mut writer = TiffWriter::new(MemorySink::new(Vec::new(report.alloc())));
    add_parts::<K, MemorySink>(report, &mut writer);
    report.line("TiffKind", writer.into_inner().into_vec());
}

/// Adds the lines of both kinds of files.
pub fn add_lines(report: &mut Report) {
    add_kind::<TiffKindStandard>(report);
    add_kind::<TiffKindBig>(report);
}

//! A writer that goes back over bytes that it wrote, and on behind them.

use crate::library::told::Told;
use tiff_base::error::TiffResult;
use tiff_base::io::{MemorySink, Sink};
use tiff_value::encoder::writer::TiffWriter;

// Adds the results of writing numbers behind the bytes that are there, over them and on, and over
// the front, and of going behind the end.
fn add_writes<W: Sink>(told: &mut Told, writer: &mut TiffWriter<W>) {
    told.line("TiffWriter::write_u8", writer.write_u8(9));
    told.line("TiffWriter::pad_word_boundary", writer.pad_word_boundary());
    told.line("TiffWriter::write_u32", writer.write_u32(0x04030201));
    told.line("TiffWriter::goto_offset, 6", writer.goto_offset(6));
    let number = 0x0807060504030201;
    told.line("TiffWriter::write_u64", writer.write_u64(number));
    told.line("TiffWriter::last_written", writer.last_written());
    told.line("TiffWriter::offset", writer.offset());
    told.line("TiffWriter::goto_offset, 15", writer.goto_offset(15));
    told.line("TiffWriter::goto_offset, 0", writer.goto_offset(0));
    told.line("TiffWriter::write_u16", writer.write_u16(0x0605));
}

/// Adds the lines of a writer over a sink of two bytes, and then the sink's bytes.
pub fn add_lines(told: &mut Told) -> TiffResult<()> {
    let bytes = vec![in told.alloc(); 7, 8]?;
    let mut writer = TiffWriter::new(MemorySink::new(bytes));
    add_writes(told, &mut writer);
    told.line("TiffWriter::into_inner", writer.into_inner().into_vec());
    Ok(())
}

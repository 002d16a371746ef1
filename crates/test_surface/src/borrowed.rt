//! A borrowed sink and a borrowed source, which are their owner's again once the encoder or the
//! decoder is gone.

use crate::report::Report;
use tiff::TiffResult;
use tiff::decoder::Decoder;
use tiff::encoder::TiffEncoder;
use tiff::encoder::colortype::Gray8;
use tiff::io::{MemorySink, MemorySource, Sink, Source};
use tiff::tags::Tag;

// Writes a directory out of the chain, with a text, and returns its offset.
fn write_extra<W: Sink>(report: &mut Report, encoder: &mut TiffEncoder<W>) -> TiffResult<u32> {
    let mut extra = encoder.extra_directory()?;
    let answer = extra.write_tag(Tag::Artist, "Auxiliary-tiff");
    report.line("DirectoryEncoder::write_tag, a text", answer);
    let written = extra.finish_with_offsets()?;
    Ok(written.offset)
}

// Writes a page that leads to a directory, with a slice and with an array.
fn write_page<W: Sink>(
    report: &mut Report,
    encoder: &mut TiffEncoder<W>,
    offset: u32,
) -> TiffResult<()> {
    let numbers = [1u8, 2, 3];
    let mut image = encoder.new_image::<Gray8>(2, 1)?;
    let answer = image.encoder().write_tag(Tag::ExifDirectory, offset);
    report.line("ImageEncoder::encoder, write_tag", answer);
    let answer = image.write_tag(Tag::Unknown(65002), &numbers[..]);
    report.line("ImageEncoder::write_tag, a slice", answer);
    let answer = image.write_tag(Tag::Unknown(65013), [-1i16, 2, -3]);
    report.line("ImageEncoder::write_tag, an array", answer);
    image.write_data(&[1, 2])
}

// Writes a page, a directory out of the chain, and a page that leads to it.
fn write_file<W: Sink>(report: &mut Report, encoder: &mut TiffEncoder<W>) -> TiffResult<()> {
    encoder.write_image::<Gray8>(1, 1, &[1])?;
    let offset = write_extra(report, encoder)?;
    write_page(report, encoder, offset)
}

// What the second page leads to, and its numbers.
fn add_second<R: Source>(report: &mut Report, decoder: &mut Decoder<R>) -> TiffResult<()> {
    decoder.next_image()?;
    report.line("Decoder::dimensions", decoder.dimensions());
    let numbers = decoder.get_tag_u32_vec(Tag::Unknown(65002));
    report.line("Decoder::get_tag_u32_vec", numbers);
    let numbers = decoder.get_tag(Tag::Unknown(65013));
    report.line("Decoder::get_tag", numbers);
    let pointer = decoder.get_tag(Tag::ExifDirectory)?.into_ifd_pointer()?;
    report.line("Value::into_ifd_pointer", pointer);
    let directory = decoder.read_directory(pointer)?;
    let mut fields = decoder.read_directory_tags(&directory);
    let text = fields.get_tag_ascii_string(Tag::Artist);
    report.line("IfdDecoder::get_tag_ascii_string", text);
    Ok(())
}

// Writes a file into a sink that is lent.
fn add_written(report: &mut Report, sink: &mut MemorySink) -> TiffResult<()> {
    let mut encoder = TiffEncoder::new(report.alloc(), sink)?;
    let answer = write_file(report, &mut encoder);
    report.line("TiffEncoder::new, a borrowed sink", answer);
    Ok(())
}

// Reads a file from a source that is lent.
fn add_read(report: &mut Report, source: &mut MemorySource) -> TiffResult<()> {
    let mut decoder = Decoder::new(report.alloc(), source)?;
    let answer = add_second(report, &mut decoder);
    report.line("Decoder::new, a borrowed source", answer);
    Ok(())
}

/// Adds the lines of a file that is written into a borrowed sink and read from a borrowed source.
pub fn add_lines(report: &mut Report) -> TiffResult<()> {
    let mut sink = MemorySink::new(Vec::new(report.alloc()));
    add_written(report, &mut sink)?;
    report.line("MemorySink::append, behind the file", sink.append(&[6]));
    report.line("MemorySink::len", sink.len());
    let mut source = MemorySource::new(sink.into_vec());
    add_read(report, &mut source)?;
    let mut last = [0u8; 2];
    report.line(
        "MemorySource::read_at, behind the file",
        source.read_at(470, &mut last),
    );
    report.line("MemorySource::read_at", last);
    Ok(())
}

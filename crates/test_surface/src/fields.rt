//! `tiff::decoder`: the fields of a directory that is read apart, and the page of a directory that
//! isn't in the chain.

use crate::report::Report;
use std::alloc::Global;
use tiff::TiffResult;
use tiff::decoder::{Decoder, DecodingSampleType, IfdDecoder};
use tiff::directory::{Directory, Entry};
use tiff::io::{MemorySource, Source};
use tiff::tags::{IfdPointer, Tag, Type};

// A page of one pixel of one bit.
const PAGE: [u8; 75] = [
    0x49, 0x49, 0x2a, 0x00, 0x08, 0x00, 0x00, 0x00, // header
    0x05, 0x00, // directory of 5 entries
    0x00, 0x01, 0x03, 0x00, 0x01, 0x00, 0x00, 0x00, 0x01, 0x00, 0x00, 0x00, // ImageWidth
    0x01, 0x01, 0x03, 0x00, 0x01, 0x00, 0x00, 0x00, 0x01, 0x00, 0x00, 0x00, // ImageLength
    0x06, 0x01, 0x03, 0x00, 0x01, 0x00, 0x00, 0x00, 0x01, 0x00, 0x00, 0x00, // PhotometricInterpretation
    0x11, 0x01, 0x03, 0x00, 0x01, 0x00, 0x00, 0x00, 0x4a, 0x00, 0x00, 0x00, // StripOffsets
    0x17, 0x01, 0x03, 0x00, 0x01, 0x00, 0x00, 0x00, 0x01, 0x00, 0x00, 0x00, // StripByteCounts
    0x00, 0x00, 0x00, 0x00, // link
    0x80, // the sample
];

// The directory of that page, but two pixels wide: no other directory links to it.
fn wide_directory() -> [u8; 66] {
    let mut bytes = [0u8; 66];
    bytes.copy_from_slice(&PAGE[8..74]);
    bytes[10] = 2;
    bytes
}

const BYTES: Tag = Tag::Unknown(65001);

const FLOAT: Tag = Tag::Unknown(65002);

const DOUBLE: Tag = Tag::Unknown(65003);

// Fields of several types. The bytes and the double lie at the front of the file's header.
fn directory(alloc: Global) -> TiffResult<Directory> {
    let fields = [
        (Tag::ImageWidth, Entry::new(Type::SHORT, 1, [3, 0, 0, 0])),
        (Tag::Artist, Entry::new(Type::ASCII, 3, [97, 98, 0, 0])),
        (BYTES, Entry::new(Type::BYTE, 5, [0, 0, 0, 0])),
        (FLOAT, Entry::new(Type::FLOAT, 1, [0, 0, 192, 63])),
        (DOUBLE, Entry::new(Type::DOUBLE, 1, [0, 0, 0, 0])),
    ];
    Directory::from_iter(alloc, fields)
}

fn add_numbers<R: Source>(report: &mut Report, fields: &mut IfdDecoder<'_, R>) {
    report.line("IfdDecoder::find_tag", fields.find_tag(Tag::ImageWidth));
    report.line("IfdDecoder::get_tag", fields.get_tag(Tag::ImageWidth));
    let number = fields.find_tag_unsigned::<u8>(Tag::ImageWidth);
    report.line("IfdDecoder::find_tag_unsigned", number);
    let numbers = fields.find_tag_unsigned_vec::<u16>(BYTES);
    report.line("IfdDecoder::find_tag_unsigned_vec", numbers);
    let number = fields.get_tag_unsigned::<u64>(Tag::ImageWidth);
    report.line("IfdDecoder::get_tag_unsigned", number);
    let number = fields.get_tag_u32(Tag::ImageWidth);
    report.line("IfdDecoder::get_tag_u32", number);
    report.line("IfdDecoder::get_tag_f32", fields.get_tag_f32(FLOAT));
    report.line("IfdDecoder::get_tag_f64", fields.get_tag_f64(DOUBLE));
}

fn add_lists<R: Source>(report: &mut Report, fields: &mut IfdDecoder<'_, R>) {
    let text = fields.get_tag_ascii_string(Tag::Artist);
    report.line("IfdDecoder::get_tag_ascii_string", text);
    report.line("IfdDecoder::get_tag_u8_vec", fields.get_tag_u8_vec(BYTES));
    report.line("IfdDecoder::get_tag_u16_vec", fields.get_tag_u16_vec(BYTES));
    report.line("IfdDecoder::get_tag_u32_vec", fields.get_tag_u32_vec(BYTES));
    report.line("IfdDecoder::get_tag_u64_vec", fields.get_tag_u64_vec(BYTES));
    report.line("IfdDecoder::get_tag_f32_vec", fields.get_tag_f32_vec(FLOAT));
    report.line(
        "IfdDecoder::get_tag_f64_vec",
        fields.get_tag_f64_vec(DOUBLE),
    );
}

fn add_fields<R: Source>(report: &mut Report, mut fields: IfdDecoder<'_, R>) {
    report.line("IfdDecoder::directory", fields.directory().len());
    add_numbers(report, &mut fields);
    add_lists(report, &mut fields);
}

fn add_page<R: Source>(report: &mut Report, decoder: &mut Decoder<R>, directory: &Directory) {
    let number = decoder
        .read_directory_tags(directory)
        .get_tag_u64(Tag::ImageWidth);
    report.line("Decoder::read_directory_tags", number);
    add_fields(report, decoder.read_directory_tags(directory));
}

// The page of a directory that isn't in the chain, and its samples; an error leaves them.
fn add_shown<R: Source>(report: &mut Report, decoder: &mut Decoder<R>) -> TiffResult<()> {
    let shown = decoder.show_directory(IfdPointer(75));
    report.line("Decoder::show_directory", shown);
    let refused = decoder.show_directory(IfdPointer(140));
    report.line("Decoder::show_directory", refused);
    report.line("Decoder::dimensions", decoder.dimensions());
    report.line("Decoder::ifd_pointer", decoder.ifd_pointer());
    let mut image = decoder.read_image()?;
    let sample_type = image.sample_type();
    if let DecodingSampleType::U8 = sample_type {
        report.line("DecodingResult::u8_rest", &image.u8_rest(0)[..]);
    }
    report.line("DecodingResult::sample_type", sample_type);
    Ok(())
}

// Adds the lines of the fields of a page and of a directory.
fn add_page_lines(report: &mut Report) -> TiffResult<()> {
    let directory = directory(report.alloc())?;
    let page = Vec::from_slice(report.alloc(), &PAGE)?;
    let mut decoder = Decoder::new(report.alloc(), MemorySource::new(page))?;
    report.line("Decoder::inner", decoder.inner());
    add_page(report, &mut decoder, &directory);
    Ok(())
}

/// Adds the lines of a directory's fields.
pub fn add_lines(report: &mut Report) -> TiffResult<()> {
    add_page_lines(report)?;
    let mut file = Vec::from_slice(report.alloc(), &PAGE)?;
    file.extend_from_slice(&wide_directory())?;
    let mut decoder = Decoder::new(report.alloc(), MemorySource::new(file))?;
    add_shown(report, &mut decoder)
}

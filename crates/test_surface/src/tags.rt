//! `tiff::tags`.

use crate::report::Report;
use std::alloc::Global;
use std::fmt;
use std::fmt::{Display, Formatter, LowerHex, UpperHex, Write};
use tiff::TiffResult;
use tiff::encoder::Slice;
use tiff::tags::{
    Bits16, Bits32, Bits64, ByteOrder, CompressionMethod, ExtraSamples, FileKind, IfdPointer,
    PhotometricInterpretation, PlanarConfiguration, Predictor, ResolutionUnit, SampleFormat, Tag,
    Type, ValueBuffer,
};

fn add_tags(report: &mut Report) {
    report.line("Tag::from_u16", (Tag::from_u16(256), Tag::from_u16(65000)));
    report.line("Tag::from_u16_exhaustive", Tag::from_u16_exhaustive(65000));
    report.line("Tag::to_u16", Tag::GdalNodata.to_u16());
    report.line("Type::from_u16", (Type::from_u16(16), Type::from_u16(14)));
    report.line("Type::to_u16", Type::IFD8.to_u16());
    report.line("Type::byte_len", Type::SRATIONAL.byte_len());
}

fn add_methods(report: &mut Report) {
    let named = CompressionMethod::from_u16(32773);
    report.line(
        "CompressionMethod::from_u16",
        (named, CompressionMethod::from_u16(9)),
    );
    let any = CompressionMethod::from_u16_exhaustive(9);
    report.line("CompressionMethod::from_u16_exhaustive", any);
    report.line(
        "CompressionMethod::to_u16",
        CompressionMethod::OldDeflate.to_u16(),
    );
    let named = SampleFormat::from_u16(3);
    report.line("SampleFormat::from_u16", (named, SampleFormat::from_u16(5)));
    report.line(
        "SampleFormat::from_u16_exhaustive",
        SampleFormat::from_u16_exhaustive(5),
    );
    report.line("SampleFormat::to_u16", SampleFormat::Void.to_u16());
}

fn add_forms(report: &mut Report) {
    let named = PhotometricInterpretation::from_u16(8);
    let none = PhotometricInterpretation::from_u16(7);
    report.line("PhotometricInterpretation::from_u16", (named, none));
    let number = PhotometricInterpretation::ItuLab.to_u16();
    report.line("PhotometricInterpretation::to_u16", number);
    let named = PlanarConfiguration::from_u16(2);
    report.line(
        "PlanarConfiguration::from_u16",
        (named, PlanarConfiguration::from_u16(0)),
    );
    report.line(
        "PlanarConfiguration::to_u16",
        PlanarConfiguration::Chunky.to_u16(),
    );
}

fn add_small(report: &mut Report) {
    report.line(
        "Predictor::from_u16",
        (Predictor::from_u16(2), Predictor::from_u16(4)),
    );
    report.line("Predictor::to_u16", Predictor::FloatingPoint.to_u16());
    let named = ResolutionUnit::from_u16(3);
    report.line(
        "ResolutionUnit::from_u16",
        (named, ResolutionUnit::from_u16(0)),
    );
    report.line("ResolutionUnit::to_u16", ResolutionUnit::Inch.to_u16());
    let named = ExtraSamples::from_u16(1);
    report.line("ExtraSamples::from_u16", (named, ExtraSamples::from_u16(3)));
    report.line(
        "ExtraSamples::to_u16",
        ExtraSamples::UnassociatedAlpha.to_u16(),
    );
}

// The digits of a pointer, with small letters.
#[derive(Clone, Copy)]
struct Lower(IfdPointer);

impl Display for Lower {
    fn fmt<W: Write>(&self, f: &mut Formatter<W>) -> fmt::Result {
        LowerHex::fmt(&self.0, f)
    }
}

// The digits of a pointer, with capital letters.
#[derive(Clone, Copy)]
struct Upper(IfdPointer);

impl Display for Upper {
    fn fmt<W: Write>(&self, f: &mut Formatter<W>) -> fmt::Result {
        UpperHex::fmt(&self.0, f)
    }
}

fn pointer_text(alloc: Global, pointer: IfdPointer) -> TiffResult<String> {
    let (lower, upper) = (Lower(pointer), Upper(pointer));
    Ok(format!(in alloc; "{lower} {upper}")?)
}

fn add_numbers(report: &mut Report) {
    report.line(
        "IfdPointer",
        pointer_text(report.alloc(), IfdPointer(0xbeef)),
    );
    report.line("Bits16", Bits16(1));
    report.line("Bits32", Bits32(2));
    report.line("Bits64", Bits64(3));
    report.line("FileKind", (FileKind::Classic, FileKind::Big));
    report.line("ByteOrder::native", ByteOrder::native());
    let mut bytes = [1, 2, 3, 4, 5, 6, 7, 8, 9];
    ByteOrder::LittleEndian.convert(Type::RATIONAL, &mut bytes, ByteOrder::BigEndian);
    report.line("ByteOrder::convert", bytes);
}

fn add_buffers(report: &mut Report) -> TiffResult<()> {
    let empty = ValueBuffer::empty(report.alloc(), Type::SHORT);
    report.line(
        "ValueBuffer::empty",
        (empty.data_type(), empty.count(), empty.byte_order()),
    );
    let mut buffer = ValueBuffer::from_value(report.alloc(), &Slice::<u16>(&[258, 3]))?;
    report.line("ValueBuffer::from_value", buffer.as_bytes());
    report.line("ValueBuffer::data_type", buffer.data_type());
    report.line("ValueBuffer::count", buffer.count());
    buffer.set_byte_order(ByteOrder::BigEndian);
    report.line("ValueBuffer::set_byte_order", buffer.as_bytes());
    report.line("ValueBuffer::byte_order", buffer.byte_order());
    buffer.as_bytes_mut().fill(9);
    report.line("ValueBuffer::as_bytes_mut", buffer.as_bytes());
    let bytes = Vec::from_slice(report.alloc(), &[7, 8, 9])?;
    let parts = ValueBuffer::from_parts(ByteOrder::BigEndian, Type::SHORT, bytes);
    report.line("ValueBuffer::from_parts", parts);
    Ok(())
}

/// Adds the lines of enums, byte orders and values as bytes.
pub fn add_lines(report: &mut Report) -> TiffResult<()> {
    add_tags(report);
    add_methods(report);
    add_forms(report);
    add_small(report);
    add_numbers(report);
    add_buffers(report)
}

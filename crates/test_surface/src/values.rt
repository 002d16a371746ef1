//! `tiff::encoder`: values that are written.

use crate::report::Report;
use std::alloc::Global;
use tiff::TiffResult;
use tiff::encoder::writer::TiffWriter;
use tiff::encoder::{Ifd, Ifd8, Rational, SRational, Slice, Text, TiffValue};
use tiff::io::MemorySink;
use tiff::tags::{
    Bits32, Bits64, CompressionMethod, ExtraSamples, PhotometricInterpretation,
    PlanarConfiguration, Predictor, ResolutionUnit, SampleFormat, Type,
};

// The type of a value's field, and how many bytes each of its parts has.
fn form_of<T: TiffValue>() -> (Type, u8) {
    (T::FIELD_TYPE, T::BYTE_LEN)
}

// The bytes that a value is written as.
fn written<T: TiffValue>(alloc: Global, value: &T) -> TiffResult<Vec<u8>> {
    let mut writer = TiffWriter::new(MemorySink::new(Vec::new(alloc)));
    value.write(alloc, &mut writer)?;
    Ok(writer.into_inner().into_vec())
}

// The form, the count, the number of bytes and the bytes of a value, and the bytes that it is
// written as.
fn add_value<T: TiffValue + Drop>(report: &mut Report, name: &str, value: T) {
    let alloc = report.alloc();
    report.line(name, (form_of::<T>(), value.count(), value.bytes()));
    report.line("TiffValue::type_and_len", T::type_and_len());
    report.line("TiffValue::data", value.data(alloc));
    report.line("TiffValue::write", written(alloc, &value));
}

fn add_numbers(report: &mut Report) {
    add_value(report, "u8", 1u8);
    add_value(report, "i8", -1i8);
    add_value(report, "u16", 258u16);
    add_value(report, "i16", -2i16);
    add_value(report, "u32", 16909060u32);
    add_value(report, "i32", -3i32);
    add_value(report, "u64", 72623859790382856u64);
    add_value(report, "i64", -4i64);
    add_value(report, "Bits32", Bits32(1065353216));
    add_value(report, "Bits64", Bits64(4611686018427387904));
}

fn add_enums(report: &mut Report) {
    add_value(report, "CompressionMethod", CompressionMethod::PackBits);
    add_value(
        report,
        "PhotometricInterpretation",
        PhotometricInterpretation::RGB,
    );
    add_value(report, "PlanarConfiguration", PlanarConfiguration::Planar);
    add_value(report, "Predictor", Predictor::Horizontal);
    add_value(report, "ResolutionUnit", ResolutionUnit::Centimeter);
    add_value(report, "SampleFormat", SampleFormat::IEEEFP);
    add_value(report, "ExtraSamples", ExtraSamples::AssociatedAlpha);
}

fn add_others(report: &mut Report) {
    add_value(report, "Ifd", Ifd(513));
    add_value(report, "Ifd8", Ifd8(514));
    add_value(report, "Rational", Rational { n: 1, d: 2 });
    add_value(report, "SRational", SRational { n: -1, d: 2 });
    add_value(report, "&u16", &772u16);
    add_value(report, "Slice", Slice::<i16>(&[5, -6, 7]));
    add_value(report, "Text", Text("ab"));
    report.line("Text", Text("a\0").data(report.alloc()));
}

/// Adds the lines of values.
pub fn add_lines(report: &mut Report) {
    add_numbers(report);
    add_enums(report);
    add_others(report);
}

//! `tiff::decoder::ifd`: values.

use crate::report::Report;
use tiff::TiffResult;
use tiff::decoder::ifd::Value;
use tiff::tags::{Bits32, Bits64};

fn add_small(report: &mut Report) {
    report.line("Value::into_u8", Value::Byte(255).into_u8());
    report.line("Value::into_i8", Value::SignedByte(-128).into_i8());
    report.line("Value::into_u16", Value::Unsigned(65535).into_u16());
    report.line("Value::into_i16", Value::Signed(-32768).into_i16());
    report.line("Value::into_u32", Value::IfdBig(4294967295).into_u32());
    report.line("Value::into_i32", Value::SignedShort(-3).into_i32());
}

fn add_large(report: &mut Report) {
    report.line("Value::into_u64", Value::Ifd(7).into_u64());
    report.line("Value::into_i64", Value::SignedBig(-9).into_i64());
    report.line("Value::into_f32", Value::Float(Bits32(5)).into_f32());
    report.line("Value::into_f64", Value::Double(Bits64(6)).into_f64());
    let pointer = Value::IfdBig(8).into_ifd_pointer();
    report.line("Value::into_ifd_pointer", pointer);
}

fn add_unsigned_lists(report: &mut Report) {
    let alloc = report.alloc();
    report.line("Value::into_u8_vec", Value::Byte(3).into_u8_vec(alloc));
    report.line("Value::into_u16_vec", Value::Short(4).into_u16_vec(alloc));
    let pair = Value::Rational(1, 2);
    report.line("Value::into_u32_vec", pair.into_u32_vec(alloc));
    let pair = Value::RationalBig(1, 2);
    report.line("Value::into_u64_vec", pair.into_u64_vec(alloc));
    report.line("Value::into_ifd_vec", Value::Ifd(8).into_ifd_vec(alloc));
}

fn add_other_lists(report: &mut Report) {
    let alloc = report.alloc();
    let pair = Value::SRational(-1, 2);
    report.line("Value::into_i32_vec", pair.into_i32_vec(alloc));
    let pair = Value::SRationalBig(-1, 2);
    report.line("Value::into_i64_vec", pair.into_i64_vec(alloc));
    let float = Value::Float(Bits32(1));
    report.line("Value::into_f32_vec", float.into_f32_vec(alloc));
    let double = Value::Double(Bits64(5));
    report.line("Value::into_f64_vec", double.into_f64_vec(alloc));
}

fn add_text(report: &mut Report, text: Value) {
    report.line("Value::Ascii", &text);
    report.line("Value::into_string", text.into_string());
}

fn add_list(report: &mut Report, items: Vec<Value>) {
    report.line("Value::List", Value::List(items));
}

/// Adds the lines of values.
pub fn add_lines(report: &mut Report) -> TiffResult<()> {
    add_small(report);
    add_large(report);
    add_unsigned_lists(report);
    add_other_lists(report);
    add_list(
        report,
        vec![in report.alloc(); Value::Short(1), Value::Rational(1, 2)]?,
    );
    let text = String::from_str(report.alloc(), "ab")?;
    add_text(report, Value::Ascii(text));
    Ok(())
}

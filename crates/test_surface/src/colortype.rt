//! `tiff::encoder::colortype`: the differences of a row.

use crate::report::Report;
use std::alloc::Global;
use std::fmt::Debug;
use tiff::TiffResult;
use tiff::encoder::Sample;
use tiff::encoder::colortype::{
    CMYK8, ColorType, Gray8, Gray16, Gray32, Gray64, GrayI8, GrayI16, GrayI32, GrayI64, RGB8,
    RGB16, RGB64, YCbCr8,
};

// The differences of a row: by the samples of a pixel, and by two.
fn add_row<C: ColorType>(report: &mut Report, row: &[C::Inner])
where
    C::Inner: Debug + Drop,
{
    report.line("ColorType::sample_bits", C::sample_bits());
    report.line("ColorType::sample_formats", C::sample_formats());
    let mut out = Vec::new(report.alloc());
    let answer = C::horizontal_predict(row, &mut out);
    report.line("ColorType::horizontal_predict", answer);
    report.line("ColorType::horizontal_predict", out);
    let mut out = Vec::new(report.alloc());
    let answer = C::horizontal_predict_stride(row, 2, &mut out);
    report.line("ColorType::horizontal_predict_stride", answer);
    report.line("ColorType::horizontal_predict_stride", out);
}

// The differences of a row by the samples of a pixel.
fn differences<C: ColorType>(alloc: Global, row: &[C::Inner]) -> TiffResult<Vec<C::Inner>>
where
    C::Inner: Drop,
{
    let mut out = Vec::new(alloc);
    C::horizontal_predict(row, &mut out)?;
    Ok(out)
}

// Adds the line of the differences of a row.
fn add<C: ColorType>(report: &mut Report, name: &str, row: &[C::Inner])
where
    C::Inner: Debug + Drop,
{
    let told = differences::<C>(report.alloc(), row);
    report.line(name, told);
}

// The differences of the same numbers, by one to four samples.
fn add_differences(report: &mut Report) {
    let row = [1, 2, 3, 50, 100, 7, 8, 9, 10, 120, 11, 12];
    add::<Gray8>(report, "Gray8::horizontal_predict", &row);
    add::<RGB8>(report, "RGB8::horizontal_predict", &row);
    add::<CMYK8>(report, "CMYK8::horizontal_predict", &row);
    add::<YCbCr8>(report, "YCbCr8::horizontal_predict", &row);
    let row = [1, 2, 3, 50, 100, 7, 8, 9, 10, 120, 11, 12];
    add::<GrayI8>(report, "GrayI8::horizontal_predict", &row);
}

// The same of larger samples.
fn add_large_differences(report: &mut Report) {
    let row = [1, 2, 3, 50, 100, 7, 8, 9, 10, 120, 11, 12];
    add::<Gray16>(report, "Gray16::horizontal_predict", &row);
    add::<RGB16>(report, "RGB16::horizontal_predict", &row);
    let row = [1, 2, 3, 50, 100, 7, 8, 9, 10, 120, 11, 12];
    add::<GrayI16>(report, "GrayI16::horizontal_predict", &row);
    let row = [1, 2, 3, 50, 100, 7, 8, 9, 10, 120, 11, 12];
    add::<Gray32>(report, "Gray32::horizontal_predict", &row);
    let row = [1, 2, 3, 50, 100, 7, 8, 9, 10, 120, 11, 12];
    add::<RGB64>(report, "RGB64::horizontal_predict", &row);
}

// The sample of the lowest bits of a number.
fn cut<S: Sample>(number: u64) -> S {
    S::cut(number)
}

/// Adds the lines of rows of each integer type, and of a row of three samples a pixel.
pub fn add_lines(report: &mut Report) {
    add_row::<Gray8>(report, &[1, 3, 2]);
    add_row::<Gray16>(report, &[1, 3, 2]);
    add_row::<Gray32>(report, &[1, 3, 2]);
    add_row::<Gray64>(report, &[1, 3, 2]);
    add_row::<GrayI8>(report, &[100, -100, -1]);
    add_row::<GrayI16>(report, &[30000, -30000, -1]);
    add_row::<GrayI32>(report, &[2000000000, -2000000000, -1]);
    add_row::<GrayI64>(report, &[9223372036854775807, -2, -1]);
    add_row::<RGB8>(report, &[1, 2, 3, 5, 7, 9]);
    report.line("Sample::cut", cut::<u8>(258));
    add_differences(report);
    add_large_differences(report);
}

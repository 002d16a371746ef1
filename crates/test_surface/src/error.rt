//! `tiff::error`.

use crate::report::Report;
use std::alloc::{AllocError, Global};
use tiff::TiffResult;
use tiff::error::{TiffError, TiffFormatError, TiffUnsupportedError, UsageError};
use tiff::io::{DeviceFault, IoKind};

// Errors of each kind, converted to the error that every call returns.
fn add_kinds(report: &mut Report) {
    let format = TiffFormatError::InvalidDimensions(0, 5);
    report.line("TiffError::from(TiffFormatError)", TiffError::from(format));
    let unsupported = TiffUnsupportedError::UnknownInterpretation;
    report.line(
        "TiffError::from(TiffUnsupportedError)",
        TiffError::from(unsupported),
    );
    let usage = UsageError::WriterFailed;
    report.line("TiffError::from(UsageError)", TiffError::from(usage));
    report.line(
        "TiffError::from(IoKind)",
        TiffError::from(IoKind::WriteZero),
    );
    report.line("TiffError::from(DeviceFault)", TiffError::from(DeviceFault));
    report.line("TiffError::from(AllocError)", TiffError::from(AllocError));
    report.line("TiffError::LimitsExceeded", TiffError::LimitsExceeded);
}

// The error of a text that isn't UTF-8.
fn text_fault(alloc: Global) -> TiffResult<String> {
    let bytes = Vec::from_slice(alloc, &[0xff])?;
    Ok(String::from_utf8(bytes)?)
}

// The error of a part of a text that isn't UTF-8.
fn part_fault(bytes: &[u8]) -> TiffResult<&str> {
    Ok(std::str::from_utf8(bytes)?)
}

// The error of a number that is too large.
fn number_fault(number: u32) -> TiffResult<u8> {
    Ok(u8::try_from(number)?)
}

// Errors of std, converted to the error that every call returns.
fn add_conversions(report: &mut Report) {
    report.line("TiffError::from(FromUtf8Error)", text_fault(report.alloc()));
    report.line("TiffError::from(Utf8Error)", part_fault(&[0xff]));
    report.line("TiffError::from(TryFromIntError)", number_fault(256));
}

/// Adds the lines of errors.
pub fn add_lines(report: &mut Report) {
    add_kinds(report);
    add_conversions(report);
}

//! `tiff`: colors, and the lists that errors carry.

use crate::report::Report;
use std::alloc::AllocError;
use tiff::{ColorType, SampleBits, TiffResult};

const COLORS: [ColorType; 10] = [
    ColorType::Gray(1),
    ColorType::RGB(2),
    ColorType::Palette(3),
    ColorType::GrayA(4),
    ColorType::RGBA(5),
    ColorType::CMYK(6),
    ColorType::CMYKA(7),
    ColorType::YCbCr(8),
    ColorType::Lab(9),
    ColorType::Multiband {
        bit_depth: 10,
        num_samples: 11,
    },
];

// The bits and the samples of each color.
fn add_colors(report: &mut Report) {
    for color in COLORS {
        report.line("ColorType::bit_depth", color.bit_depth());
        report.line("ColorType::num_samples", color.num_samples());
    }
}

fn add_list(report: &mut Report, bits: SampleBits) {
    report.line("SampleBits::len", bits.len());
    report.line("SampleBits::as_slice", bits.as_slice());
    let copy: Result<SampleBits, AllocError> = bits.clone();
    report.line("SampleBits::clone", copy);
    report.line("SampleBits::into_vec", bits.into_vec());
}

/// Adds the lines of colors and lists.
pub fn add_lines(report: &mut Report) -> TiffResult<()> {
    add_colors(report);
    let bits = Vec::from_slice(report.alloc(), &[8, 16])?;
    add_list(report, SampleBits::from_vec(bits));
    Ok(())
}

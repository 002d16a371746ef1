//! Worked examples of the definitions of `tiff_value`: values that are written, and PackBits lists.

pub mod data;
pub mod packed;
pub mod values;

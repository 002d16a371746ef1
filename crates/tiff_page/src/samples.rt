//! Samples by their number type, and requests to read them.

use crate::layout::PlaneLayout;
use tiff_base::color::ColorType;
use tiff_base::tags::{Bits16, Bits32, Bits64};

/// Samples, row by row, by their number type.
#[derive(Debug, Drop)]
pub enum Samples {
    U8(Vec<u8>),
    U16(Vec<u16>),
    U32(Vec<u32>),
    U64(Vec<u64>),
    F16(Vec<Bits16>),
    F32(Vec<Bits32>),
    F64(Vec<Bits64>),
    I8(Vec<i8>),
    I16(Vec<i16>),
    I32(Vec<i32>),
    I64(Vec<i64>),
}

/// What to read: an image, or a chunk of one plane or several.
#[derive(Clone, Copy, Debug)]
pub enum ReadRequest {
    /// An image of a layout, in this number of planes.
    Image(PlaneLayout, u16),
    /// A chunk in a color, by its index, in this number of planes, and the number of bytes from a
    /// row to the next.
    Chunks(ColorType, u32, u16, usize),
}

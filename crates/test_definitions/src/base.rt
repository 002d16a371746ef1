//! Worked examples of the definitions of `tiff_base`: numbers, headers, directories, fields,
//! windows and PackBits lists.

pub mod answers;
pub mod directory;
pub mod field_bytes;
pub mod header;
pub mod number;
pub mod runs;
pub mod source_and_sink;
pub mod tags;
pub mod windows;

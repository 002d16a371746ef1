//! Worked examples of the definitions of `tiff_ffi`: calls on windows of a file, pages with
//! parents, and pages by tiles.

pub mod in_windows;
pub mod parents;
pub mod tiles;

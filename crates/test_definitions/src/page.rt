//! Worked examples of the definitions of `tiff_page`: the checks and the layout of a page, its
//! samples and their rows, and the bytes that reads need.

pub mod buffers;
pub mod checks;
pub mod early_faults;
pub mod layout;
pub mod pixel_calls;
pub mod pixels;
pub mod reach;
pub mod row;

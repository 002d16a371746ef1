//! The decoder: reads the pages of TIFF files.
#![tactic(auto)]

pub mod buffer;
mod call_name;
pub mod decoder;
pub mod ifd_decoder;
pub mod layouts;
pub mod low_level;
pub mod open;
pub mod pixels;
pub mod reply;
pub mod result;
pub mod script;
pub mod tag_iter;

//! The base of every other crate of this project: errors, sources and sinks of bytes, the numbers
//! of TIFF's enums, numbers in both byte orders, and directories.
#![tactic(auto)]

pub mod color;
mod count;
pub mod directory;
pub mod error;
mod gathered;
pub mod io;
pub mod laws;
pub mod lists;
mod place;
pub mod read;
pub mod tags;
mod turn;
pub mod windows;

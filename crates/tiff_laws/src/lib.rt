//! Laws of what is read and written, proved from the specifications of the other crates.
#![tactic(auto)]

pub mod costs;
pub mod decoder;
pub mod page;
pub mod pages;

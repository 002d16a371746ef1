//! Color types, values as bytes, and the writer that puts numbers and bytes into a sink.
#![tactic(auto)]

pub mod buffer;
pub mod encoder;
pub mod laws;

//! Writes TIFF files: directories and images, and what a file contains afterwards.
#![tactic(auto)]

pub mod encoder;

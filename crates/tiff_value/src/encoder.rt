//! The parts that writers of files use.

pub mod chunk;
pub mod color_visitor;
mod colors;
pub mod colortype;
pub mod compression;
mod fractions;
mod grays;
pub mod horizontal_predictor;
mod names;
mod numbers;
mod octets;
mod row_differences;
pub mod tiff_value;
pub mod writer;

//! The facts that the tags of a page define, the layout of its samples, and its pixels.
#![tactic(auto)]

pub mod buffers;
pub mod chunk_data;
pub mod chunk_rows;
pub mod counts;
pub mod faults;
pub mod laws;
pub mod layout;
pub mod lists;
pub mod numbers;
pub mod output_row;
pub mod page;
pub mod page_reader;
pub mod pixels;
pub mod position;
pub mod predictors;
pub mod read_page;
pub mod row_sink;
pub mod samples;

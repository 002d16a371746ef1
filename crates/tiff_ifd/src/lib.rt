//! The header, the directories and the tags of a TIFF file.
#![tactic(auto)]

pub mod cycles;
pub mod decode;
pub mod field_reader;
pub mod header;
pub mod laws;
pub mod limits;
pub mod lookup;
pub mod offsets;
pub mod packbits;
pub mod read_bytes;
pub mod read_numbers;
pub mod read_value;
pub mod stream;
pub mod value;
pub mod value_reader;
pub mod walk;

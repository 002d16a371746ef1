//! Every public name of `tiff` by its path: types and traits as exports, calls as values. Nothing
//! is called here.

mod decoder;
mod directory;
mod encoder;
mod fields;
mod images;
mod io;
mod laws;
mod tags;
pub mod types;
mod values;

use crate::io::FiveBytes;
use tiff::encoder::TiffKindStandard;
use tiff::encoder::colortype::Gray8;
use tiff::encoder::compression::Packbits;
use tiff::io::{MemorySink, MemorySource};

/// Names each public call.
pub fn name_calls() {
    tags::name_calls();
    directory::name_calls();
    io::name_calls::<MemorySource, MemorySink, FiveBytes>();
    fields::name_calls::<MemorySource>();
    decoder::name_calls::<MemorySource>();
    values::name_calls::<MemorySink, u8, Packbits, Gray8>();
    encoder::name_calls::<MemorySink, TiffKindStandard>();
    images::name_calls::<MemorySink, TiffKindStandard, Gray8>();
    laws::name_laws();
}

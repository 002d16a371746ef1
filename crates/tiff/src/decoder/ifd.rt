//! Fields of directories, and their values.

pub use tiff_base::directory::Entry;
pub use tiff_ifd::value::Value;

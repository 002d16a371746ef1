//! Reads and writes TIFF 6.0 and BigTIFF: the Rust crate `tiff` 0.11.3, with its names, proved.
//!
//! Each call that reads returns what the definitions of directories, pages, tags and samples give
//! for the bytes of its source, or the first error that they name, whatever the bytes are. Each
//! call that writes leaves a file in which these definitions find what was passed in.
//!
//! ```
//! // The samples of a file's first page.
//! let samples = Decoder::new(alloc, MemorySource::new(file))?.read_image()?;
//!
//! // A file of one gray page.
//! let mut encoder = TiffEncoder::new(alloc, MemorySink::new(Vec::new(alloc)))?;
//! encoder.write_image::<Gray8>(width, height, samples)?;
//! let file = encoder.into_inner().into_vec();
//! ```
//!
//! Where to begin:
//!
//! - [`decoder`]: `Decoder` opens a file, goes along its pages, and reads images, strips, tiles and
//!   tags; `DecodingResult` has samples by their number type; `Limits` bounds what a file may ask for.
//! - [`encoder`]: `TiffEncoder` writes pages, whole (`write_image`) or in parts (`new_image`), and
//!   directories of any tags; `colortype` has what a page's samples may be.
//! - [`tags`]: the names of tags, of types of values, and of values that TIFF names.
//! - [`Directory`]: the fields of a directory, as they are read and written.
//! - [`io`]: where bytes come from and go to: `Source` and `Sink`, in memory or of one's own.
//! - [`TiffError`]: why a call is refused; `TiffResult` is the result of nearly every call.
//! - `decoder::script` and `encoder::script`: calls as values, for lists of calls.
//!
//! The crates below this one are its parts, lowest first: `tiff_base`, `tiff_value`, `tiff_ifd`,
//! `tiff_page`, `tiff_decode` and `tiff_encode`.
#![tactic(auto)]

pub mod decoder;
pub mod encoder;
pub mod tags;

pub use tiff_base::color::ColorType;
pub use tiff_base::directory::Directory;
pub use tiff_base::error::{
    TiffError, TiffFormatError, TiffResult, TiffUnsupportedError, UsageError,
};
pub use tiff_base::lists::{SampleBits, SampleFormats};
pub use tiff_base::{directory, error, io};

//! Writing: `TiffEncoder`, images and directories, color types, compressors, laws, and lists of
//! jobs.

pub use tiff_base::tags::Predictor;
pub use tiff_encode::encoder::{
    Compression, DirectoryEncoder, DirectoryOffset, HasDirectory, ImageEncoder, OffsetNumber,
    TiffEncoder, TiffKind, TiffKindBig, TiffKindStandard, columns, laws, script,
};
pub use tiff_value::encoder::horizontal_predictor::Sample;
pub use tiff_value::encoder::tiff_value::{
    Ifd, Ifd8, Rational, SRational, Slice, Text, TiffScalar, TiffValue,
};
pub use tiff_value::encoder::{colortype, compression, writer};

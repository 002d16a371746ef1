//! Tags, types and the other enums of the standard, byte orders, and values as bytes.

pub use tiff_base::tags::{
    Bits16, Bits32, Bits64, ByteOrder, CompressionMethod, ExtraSamples, FileKind, IfdPointer,
    PhotometricInterpretation, PlanarConfiguration, Predictor, ResolutionUnit, SampleFormat, Tag,
    Type,
};
pub use tiff_value::buffer::ValueBuffer;

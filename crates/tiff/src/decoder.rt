//! Reading: `Decoder`, results and buffers of samples, layouts, limits, values of tags, and lists of
//! calls.

pub use tiff_base::color::ChunkType;
pub use tiff_decode::buffer::DecodingBuffer;
pub use tiff_decode::decoder::{Decoder, DecodingResult};
pub use tiff_decode::ifd_decoder::IfdDecoder;
pub use tiff_decode::open::opens_first;
pub use tiff_decode::tag_iter::TagIter;
pub use tiff_decode::{reply, script};
pub use tiff_ifd::limits::Limits;
pub use tiff_ifd::{cycles, stream};
pub use tiff_page::layout::{BufferLayoutPreference, DecodingSampleType, TiffCodingUnit};

pub mod ifd;

//! The public types and traits of `tiff`.

pub use tiff::{
    ColorType, Directory, SampleBits, SampleFormats, TiffError, TiffFormatError, TiffResult,
    TiffUnsupportedError, UsageError,
};

/// The types of `tiff::directory`, `tiff::error` and `tiff::io`.
pub mod base {
    pub use tiff::directory::{Directory, Entry, Iter, KeyCount};
    pub use tiff::error::{
        TiffError, TiffFormatError, TiffResult, TiffUnsupportedError, UsageError,
    };
    pub use tiff::io::{
        BufferedSource, ByteRun, ByteWitness, DeviceFault, IoKind, MemorySink, MemorySource, Sink,
        SinkFault, SliceSource, Source,
    };
}

/// The types of `tiff::tags`.
pub mod tags {
    pub use tiff::tags::{
        Bits16, Bits32, Bits64, ByteOrder, CompressionMethod, ExtraSamples, FileKind, IfdPointer,
        PhotometricInterpretation, PlanarConfiguration, Predictor, ResolutionUnit, SampleFormat,
        Tag, Type, ValueBuffer,
    };
}

/// The types of `tiff::decoder`.
pub mod decoder {
    pub use tiff::decoder::cycles::IfdCycles;
    pub use tiff::decoder::ifd::{Entry, Value};
    pub use tiff::decoder::script::{Call, Reply};
    pub use tiff::decoder::stream::{EndianReader, PackBitsReader};
    pub use tiff::decoder::{
        BufferLayoutPreference, ChunkType, Decoder, DecodingBuffer, DecodingResult,
        DecodingSampleType, IfdDecoder, Limits, TagIter, TiffCodingUnit,
    };
}

/// The types of `tiff::encoder`.
pub mod encoder {
    pub use tiff::encoder::script::{
        DirectoryEnd, DirectoryJob, DirectoryStep, EndReply, ImageEnd, ImageJob, ImageStep, Job,
        JobBuffer, JobReply, JobSamples, JobValue, StepReply,
    };
    pub use tiff::encoder::writer::TiffWriter;
    pub use tiff::encoder::{
        Compression, DirectoryEncoder, DirectoryOffset, HasDirectory, Ifd, Ifd8, ImageEncoder,
        OffsetNumber, Predictor, Rational, SRational, Sample, Slice, Text, TiffEncoder, TiffKind,
        TiffKindBig, TiffKindStandard, TiffScalar, TiffValue,
    };
}

/// The types of `tiff::encoder::compression`.
pub mod compression {
    pub use tiff::encoder::compression::{
        Compression, CompressionAlgorithm, Compressor, Packbits, Uncompressed,
    };
}

/// The types of `tiff::encoder::colortype`.
pub mod colortype {
    pub use tiff::encoder::colortype::{
        CMYK8, CMYK16, CMYK32, CMYK32Float, CMYK64, CMYK64Float, CMYKA8, ColorType, ColorTypeName,
        Gray1, Gray2, Gray4, Gray8, Gray16, Gray32, Gray32Float, Gray64, Gray64Float, GrayI8,
        GrayI16, GrayI32, GrayI64, NamedColorType, RGB8, RGB16, RGB32, RGB32Float, RGB64,
        RGB64Float, RGBA8, RGBA16, RGBA32, RGBA32Float, RGBA64, RGBA64Float, YCbCr8,
    };
}

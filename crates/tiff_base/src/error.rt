//! The errors of reads and writes of files.

ghost use Rattle.std.specs.Prelude.{◌≡◌};
ghost use Rattle.tiff_base.specs.declared.error.TiffError.TheVariants as tiff;
ghost use Rattle.tiff_base.specs.declared.error.TiffFormatError.TheVariants as format;
ghost use Rattle.tiff_base.specs.declared.io.IoKind.TheVariants as kind;

use crate::color::{ChunkType, ColorType};
use crate::io::{DeviceFault, IoKind, SinkFault};
use crate::lists::{SampleBits, SampleFormats};
use crate::tags::{
    CompressionMethod, PhotometricInterpretation, PlanarConfiguration, SampleFormat, Tag, Type,
};
use std::alloc::{AllocError, AllocFailed};
use std::num::TryFromIntError;
use std::str::Utf8Error;
use std::string::FromUtf8Error;
use thiserror::Error;

/// The result of a call: a value, or an error.
pub type TiffResult<T> = Result<T, TiffError>;

/// The file does not have the form of a TIFF file.
#[derive(Clone, Debug, PartialEq, Drop, Error)]
#[non_exhaustive]
pub enum TiffFormatError {
    #[error("TIFF signature not found")]
    TiffSignatureNotFound,
    #[error("TIFF signature invalid")]
    TiffSignatureInvalid,
    #[error("image file directory not found")]
    ImageFileDirectoryNotFound,
    #[error("inconsistent sizes encountered")]
    InconsistentSizesEncountered,
    #[error("invalid dimensions: {0}x{1}")]
    InvalidDimensions(u32, u32),
    #[error("image contains invalid tag")]
    InvalidTag,
    #[error("tag `{0:?}` did not have the expected value type")]
    InvalidTagValueType(Tag),
    #[error("required tag `{0:?}` not found")]
    RequiredTagNotFound(Tag),
    #[error("unknown predictor “{0}” encountered")]
    UnknownPredictor(u16),
    #[error("unknown planar configuration “{0}”")]
    UnknownPlanarConfiguration(u16),
    #[error("tag has invalid type")]
    InvalidTypeForTag,
    #[error("tag `{0:?}` with incorrect number of elements ({1}) encountered")]
    InvalidCountForTag(Tag, usize),
    #[error("file should contain either (StripByteCounts and StripOffsets) or (TileByteCounts and TileOffsets), other combination was found")]
    StripTileTagConflict,
    #[error("file contained a cycle in the list of IFDs")]
    CycleInOffsets,
    #[error("samples per pixel is zero")]
    SamplesPerPixelIsZero,
    /// The Rust crate has this name. This library never returns this error.
    #[error("compressed data is corrupt: {0}")]
    CompressedDataCorrupt(String),
}

/// The file needs a feature that this library does not support.
#[derive(Clone, Debug, PartialEq, Eq, Hash, Drop, Error)]
#[non_exhaustive]
pub enum TiffUnsupportedError {
    #[error("floating point predictor for {0:?} is unsupported")]
    FloatingPointPredictor(ColorType),
    #[error("horizontal predictor for {0:?} is unsupported")]
    HorizontalPredictor(ColorType),
    #[error("inconsistent bits per sample: {0:?}")]
    InconsistentBitsPerSample(SampleBits),
    #[error("Photometric interpretation {0:?} with bits per sample {1:?} is unsupported")]
    InterpretationWithBits(PhotometricInterpretation, SampleBits),
    #[error("unknown photometric interpretation")]
    UnknownInterpretation,
    /// The Rust crate has this name. This library never returns this error.
    #[error("unknown compression method")]
    UnknownCompressionMethod,
    #[error("compression method {0:?} is unsupported")]
    UnsupportedCompressionMethod(CompressionMethod),
    #[error("{0} samples per pixel is unsupported")]
    UnsupportedSampleDepth(u8),
    #[error("sample format {0:?} is unsupported")]
    UnsupportedSampleFormat(SampleFormats),
    #[error("color type {0:?} is unsupported")]
    UnsupportedColorType(ColorType),
    /// The Rust crate has this name. This library never returns this error.
    #[error("{0} bits per channel not supported")]
    UnsupportedBitsPerChannel(u8),
    /// The Rust crate has this name. The decoder and the encoder never return this error. The
    /// command-line program returns it for a picture whose samples lie in several planes.
    #[error("unsupported planar configuration “{0:?}”")]
    UnsupportedPlanarConfig(Option<PlanarConfiguration>),
    /// The Rust crate has this name. The decoder and the encoder never return this error. The
    /// command-line program returns it for a picture whose samples are signed or floating-point
    /// numbers.
    #[error("unsupported data type")]
    UnsupportedDataType,
    /// The Rust crate has this name. This library never returns this error.
    #[error("unsupported photometric interpretation {0:?}")]
    UnsupportedInterpretation(PhotometricInterpretation),
    #[error("chroma subsampling of YCbCr color is unsupported")]
    ChromaSubsampling,
    #[error("tile rows are not aligned to byte boundaries")]
    MisalignedTileBoundaries,
}

/// The call does not fit the file or an earlier call.
#[derive(Debug, Drop, Error)]
#[non_exhaustive]
pub enum UsageError {
    #[error("requested operation is only valid for images with chunk encoding of type {0:?} but got {1:?}")]
    InvalidChunkType(ChunkType, ChunkType),
    /// The Rust crate has this name. The decoder and the encoder never return this error. The C
    /// interface returns it if the first chunk plus the number of chunks of a call is 2^32 or more.
    #[error("invalid chunk index ({0}) requested")]
    InvalidChunkIndex(u32),
    /// The Rust crate has this name. This library never returns this error.
    #[error("invalid plane index ({0}) requested")]
    InvalidPlaneIndex(u16),
    #[error("out of bounds coding unit ({0}) requested, only {1} available")]
    InvalidCodingUnit(u32, u32),
    /// The Rust crate has this name. This library never returns this error.
    #[error("requested predictor is not compatible with the requested compression")]
    PredictorCompressionMismatch,
    #[error("the requested predictor is not compatible with the image's format")]
    PredictorIncompatible,
    #[error("the requested predictor is not available")]
    PredictorUnavailable,
    #[error("the borrowed output buffer is not large enough for the decoded data, needed {needed} but have {provided}")]
    InsufficientOutputBufferSize { needed: usize, provided: usize },
    #[error("the provided output row stride would alias rows of decoded data, needed {needed} but have {requested}")]
    InsufficientOutputRowStride { needed: usize, requested: usize },
    #[error("the offset 0 can not point to a valid IFD")]
    ZeroIfdPointer,
    #[error("attempted to reconfigure the encoder after image writing has started")]
    ReconfiguredAfterImageWrite,
    #[error("attempted to use data with a byte order that does not match the required one")]
    ByteOrderMismatch,
    #[error("the length of data is not a multiple of the size of the type {ty:?}, found {found}")]
    MismatchedEntryLength { ty: Type, found: usize },
    /// This project adds this error.
    #[error("the parent's link lies outside what was written")]
    ParentNotWritten,
    /// This project adds this error.
    #[error("an earlier write failed")]
    WriterFailed,
}

/// The error of a call.
#[derive(Debug, Drop, Error)]
pub enum TiffError {
    #[error("format error: {0}")]
    FormatError(TiffFormatError),
    #[error("unsupported error: {0}")]
    UnsupportedError(TiffUnsupportedError),
    #[error("{0}")]
    IoError(IoKind),
    #[error("decoder limits exceeded")]
    LimitsExceeded,
    #[error("platform or format size limits exceeded")]
    IntSizeError,
    #[error("usage error: {0}")]
    UsageError(UsageError),
    /// The allocator refused memory.
    #[error("out of memory")]
    OutOfMemory,
}

impl From<TiffFormatError> for TiffError {
    ghost from_gives = { λ x e. e ≡ tiff.FormatError x };

    fn from(e: TiffFormatError) -> TiffError {
        TiffError::FormatError(e)
    }
}

impl From<TiffUnsupportedError> for TiffError {
    ghost from_gives = { λ x e. e ≡ tiff.UnsupportedError x };

    fn from(e: TiffUnsupportedError) -> TiffError {
        TiffError::UnsupportedError(e)
    }
}

impl From<UsageError> for TiffError {
    ghost from_gives = { λ x e. e ≡ tiff.UsageError x };

    fn from(e: UsageError) -> TiffError {
        TiffError::UsageError(e)
    }
}

impl From<IoKind> for TiffError {
    ghost from_gives = { λ x e. e ≡ tiff.IoError x };

    fn from(e: IoKind) -> TiffError {
        TiffError::IoError(e)
    }
}

impl From<DeviceFault> for TiffError {
    ghost from_gives = { λ _ e. e ≡ tiff.IoError kind.Device };

    fn from(_e: DeviceFault) -> TiffError {
        TiffError::IoError(IoKind::Device)
    }
}

impl From<Utf8Error> for TiffError {
    ghost from_gives = { λ _ e. e ≡ tiff.FormatError format.InvalidTag };

    fn from(_e: Utf8Error) -> TiffError {
        TiffError::FormatError(TiffFormatError::InvalidTag)
    }
}

impl From<FromUtf8Error> for TiffError {
    ghost from_gives = { λ _ e. e ≡ tiff.FormatError format.InvalidTag };

    fn from(_e: FromUtf8Error) -> TiffError {
        TiffError::FormatError(TiffFormatError::InvalidTag)
    }
}

impl From<TryFromIntError> for TiffError {
    ghost from_gives = { λ _ e. e ≡ tiff.IntSizeError };

    fn from(_e: TryFromIntError) -> TiffError {
        TiffError::IntSizeError
    }
}

impl From<AllocError> for TiffError {
    ghost from_gives = { λ _ e. e ≡ tiff.OutOfMemory };

    fn from(_e: AllocError) -> TiffError {
        TiffError::OutOfMemory
    }
}

impl<T: Drop> From<AllocFailed<T>> for TiffError {
    ghost from_gives = { λ _ e. e ≡ tiff.OutOfMemory };

    fn from(_e: AllocFailed<T>) -> TiffError {
        TiffError::OutOfMemory
    }
}

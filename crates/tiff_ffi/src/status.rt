//! The number of each error.

ghost use Rattle.std.specs.Prelude.{◌≡◌, IfOk, OnErr};
ghost use Rattle.tiff_ffi.specs.Status as spec;

use tiff_base::error::{TiffError, TiffFormatError, TiffResult, TiffUnsupportedError, UsageError};
use tiff_base::io::IoKind;

/// What a call returns to C: that it is done, or its error. The numbers are those of `tiff_status`
/// in `include/mangohatch_tiff.h`.
#[derive(Clone, Copy, Debug, PartialEq, Eq)]
pub enum Status {
    Done = 0,
    LimitsExceeded = 1,
    IntSizeError = 2,
    OutOfMemory = 3,
    /// An error that has no number yet; no call returns it.
    LaterFault = 4,
    /// The call wants bytes of the file that no window has.
    BytesWanted = 5,
    UnexpectedEof = 10,
    InvalidData = 11,
    InvalidInput = 12,
    WriteZero = 13,
    Device = 14,
    TiffSignatureNotFound = 20,
    TiffSignatureInvalid = 21,
    ImageFileDirectoryNotFound = 22,
    InconsistentSizesEncountered = 23,
    InvalidDimensions = 24,
    InvalidTag = 25,
    InvalidTagValueType = 26,
    RequiredTagNotFound = 27,
    UnknownPredictor = 28,
    UnknownPlanarConfiguration = 29,
    InvalidTypeForTag = 30,
    InvalidCountForTag = 31,
    StripTileTagConflict = 32,
    CycleInOffsets = 33,
    SamplesPerPixelIsZero = 34,
    CompressedDataCorrupt = 35,
    FloatingPointPredictor = 40,
    HorizontalPredictor = 41,
    InconsistentBitsPerSample = 42,
    InterpretationWithBits = 43,
    UnknownInterpretation = 44,
    UnknownCompressionMethod = 45,
    UnsupportedCompressionMethod = 46,
    UnsupportedSampleDepth = 47,
    UnsupportedSampleFormat = 48,
    UnsupportedColorType = 49,
    UnsupportedBitsPerChannel = 50,
    UnsupportedPlanarConfig = 51,
    UnsupportedDataType = 52,
    UnsupportedInterpretation = 53,
    ChromaSubsampling = 54,
    MisalignedTileBoundaries = 55,
    InvalidChunkType = 60,
    InvalidChunkIndex = 61,
    InvalidPlaneIndex = 62,
    InvalidCodingUnit = 63,
    PredictorCompressionMismatch = 64,
    PredictorIncompatible = 65,
    PredictorUnavailable = 66,
    InsufficientOutputBufferSize = 67,
    InsufficientOutputRowStride = 68,
    ZeroIfdPointer = 69,
    ReconfiguredAfterImageWrite = 70,
    ByteOrderMismatch = 71,
    MismatchedEntryLength = 72,
    ParentNotWritten = 73,
    WriterFailed = 74,
}

// The number of an error of a file that doesn't have TIFF's form.
fn format_number(fault: &TiffFormatError) -> u32
    ensures { result ≡ spec.format_fault_number fault.now }
{
    let status = match fault {
        TiffFormatError::TiffSignatureNotFound => Status::TiffSignatureNotFound,
        TiffFormatError::TiffSignatureInvalid => Status::TiffSignatureInvalid,
        TiffFormatError::ImageFileDirectoryNotFound => Status::ImageFileDirectoryNotFound,
        TiffFormatError::InconsistentSizesEncountered => Status::InconsistentSizesEncountered,
        TiffFormatError::InvalidDimensions(_, _) => Status::InvalidDimensions,
        TiffFormatError::InvalidTag => Status::InvalidTag,
        TiffFormatError::InvalidTagValueType(_) => Status::InvalidTagValueType,
        TiffFormatError::RequiredTagNotFound(_) => Status::RequiredTagNotFound,
        TiffFormatError::UnknownPredictor(_) => Status::UnknownPredictor,
        TiffFormatError::UnknownPlanarConfiguration(_) => Status::UnknownPlanarConfiguration,
        TiffFormatError::InvalidTypeForTag => Status::InvalidTypeForTag,
        TiffFormatError::InvalidCountForTag(_, _) => Status::InvalidCountForTag,
        TiffFormatError::StripTileTagConflict => Status::StripTileTagConflict,
        TiffFormatError::CycleInOffsets => Status::CycleInOffsets,
        TiffFormatError::SamplesPerPixelIsZero => Status::SamplesPerPixelIsZero,
        TiffFormatError::CompressedDataCorrupt(_) => Status::CompressedDataCorrupt,
        _ => Status::LaterFault,
    };
    status as u32
}

// The number of an error for what is not supported.
fn unsupported_number(fault: &TiffUnsupportedError) -> u32
    ensures { result ≡ spec.unsupported_fault_number fault.now }
{
    let status = match fault {
        TiffUnsupportedError::FloatingPointPredictor(_) => Status::FloatingPointPredictor,
        TiffUnsupportedError::HorizontalPredictor(_) => Status::HorizontalPredictor,
        TiffUnsupportedError::InconsistentBitsPerSample(_) => Status::InconsistentBitsPerSample,
        TiffUnsupportedError::InterpretationWithBits(_, _) => Status::InterpretationWithBits,
        TiffUnsupportedError::UnknownInterpretation => Status::UnknownInterpretation,
        TiffUnsupportedError::UnknownCompressionMethod => Status::UnknownCompressionMethod,
        TiffUnsupportedError::UnsupportedCompressionMethod(_) =>
            Status::UnsupportedCompressionMethod,
        TiffUnsupportedError::UnsupportedSampleDepth(_) => Status::UnsupportedSampleDepth,
        TiffUnsupportedError::UnsupportedSampleFormat(_) => Status::UnsupportedSampleFormat,
        TiffUnsupportedError::UnsupportedColorType(_) => Status::UnsupportedColorType,
        TiffUnsupportedError::UnsupportedBitsPerChannel(_) => Status::UnsupportedBitsPerChannel,
        TiffUnsupportedError::UnsupportedPlanarConfig(_) => Status::UnsupportedPlanarConfig,
        TiffUnsupportedError::UnsupportedDataType => Status::UnsupportedDataType,
        TiffUnsupportedError::UnsupportedInterpretation(_) => Status::UnsupportedInterpretation,
        TiffUnsupportedError::ChromaSubsampling => Status::ChromaSubsampling,
        TiffUnsupportedError::MisalignedTileBoundaries => Status::MisalignedTileBoundaries,
        _ => Status::LaterFault,
    };
    status as u32
}

// The number of an error for a call that doesn't fit.
fn usage_number(fault: &UsageError) -> u32
    ensures { result ≡ spec.usage_fault_number fault.now }
{
    let status = match fault {
        UsageError::InvalidChunkType(_, _) => Status::InvalidChunkType,
        UsageError::InvalidChunkIndex(_) => Status::InvalidChunkIndex,
        UsageError::InvalidPlaneIndex(_) => Status::InvalidPlaneIndex,
        UsageError::InvalidCodingUnit(_, _) => Status::InvalidCodingUnit,
        UsageError::PredictorCompressionMismatch => Status::PredictorCompressionMismatch,
        UsageError::PredictorIncompatible => Status::PredictorIncompatible,
        UsageError::PredictorUnavailable => Status::PredictorUnavailable,
        UsageError::InsufficientOutputBufferSize { .. } => Status::InsufficientOutputBufferSize,
        UsageError::InsufficientOutputRowStride { .. } => Status::InsufficientOutputRowStride,
        UsageError::ZeroIfdPointer => Status::ZeroIfdPointer,
        UsageError::ReconfiguredAfterImageWrite => Status::ReconfiguredAfterImageWrite,
        UsageError::ByteOrderMismatch => Status::ByteOrderMismatch,
        UsageError::MismatchedEntryLength { .. } => Status::MismatchedEntryLength,
        UsageError::ParentNotWritten => Status::ParentNotWritten,
        UsageError::WriterFailed => Status::WriterFailed,
        _ => Status::LaterFault,
    };
    status as u32
}

// The number of an error of input or output.
fn io_number(fault: &IoKind) -> u32
    ensures { result ≡ spec.io_fault_number fault.now }
{
    let status = match fault {
        IoKind::UnexpectedEof => Status::UnexpectedEof,
        IoKind::InvalidData => Status::InvalidData,
        IoKind::InvalidInput => Status::InvalidInput,
        IoKind::WriteZero => Status::WriteZero,
        IoKind::Device => Status::Device,
    };
    status as u32
}

/// The number of an error; 0 is none.
pub fn fault_number(fault: &TiffError) -> u32
    ensures { result ≡ spec.fault_number fault.now }
{
    match fault {
        TiffError::FormatError(fault) => format_number(fault),
        TiffError::UnsupportedError(fault) => unsupported_number(fault),
        TiffError::IoError(kind) => io_number(kind),
        TiffError::UsageError(fault) => usage_number(fault),
        TiffError::LimitsExceeded => Status::LimitsExceeded as u32,
        TiffError::IntSizeError => Status::IntSizeError as u32,
        TiffError::OutOfMemory => Status::OutOfMemory as u32,
    }
}

/// The status of a result: 0, or the number of its error.
pub fn status_of<T: Drop>(answer: &TiffResult<T>) -> u32
    ensures { result ≡ spec.status answer.now }
{
    match answer {
        Ok(_) => Status::Done as u32,
        Err(fault) => fault_number(fault),
    }
}

/// The status of a call without a value: 0, or the number of its error.
pub fn unit_status(answer: TiffResult<()>) -> u32
    ensures { result ≡ spec.status answer }
{
    match answer {
        Ok(()) => Status::Done as u32,
        Err(fault) => fault_number(&fault),
    }
}

/// Puts the value of a result into `out`, and returns the status: 0, or the number of its error. An
/// error leaves `out` as it was.
pub fn put_value<T: Copy + Drop>(answer: TiffResult<T>, out: &mut T) -> u32
    ensures status { result ≡ spec.status answer }
    ensures put { IfOk answer (λ x. out.new ≡ x) }
    ensures kept { OnErr answer (out.new ≡ out.old) }
{
    match answer {
        Ok(x) => {
            *out = x;
            Status::Done as u32
        }
        Err(fault) => fault_number(&fault),
    }
}

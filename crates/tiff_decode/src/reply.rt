//! The text of replies.

ghost use Rattle.tiff_decode.specs.Steps.{Called};

use crate::decoder::Decoder;
use crate::script::{Call, Reply, run_call};
use std::alloc::{AllocError, Global};
use std::fmt::Debug;
use tiff_base::error::{TiffError, TiffResult};
use tiff_base::io::Source;

/// The text of an error reply: the message of the error, followed by the error in the form of
/// `Debug`.
pub fn refusal_text(alloc: Global, fault: &TiffError) -> Result<String, AllocError> {
    format!(in alloc; "refused: {fault} ({fault:?})")
}

// A value in the form of `Debug`.
fn told<T: Debug>(alloc: Global, value: &T) -> Result<String, AllocError> {
    format!(in alloc; "{value:?}")
}

// The text of a value or of an error.
fn answer<T: Debug>(alloc: Global, answered: &TiffResult<T>) -> Result<String, AllocError> {
    match answered {
        Ok(value) => told(alloc, value),
        Err(fault) => refusal_text(alloc, fault),
    }
}

// The text of a value or of an error, followed by the buffer that the call left.
fn answer_and_left<T: Debug, L: Debug>(
    alloc: Global,
    answered: &TiffResult<T>,
    left: &L,
) -> Result<String, AllocError> {
    let answer = answer(alloc, answered)?;
    format!(in alloc; "{answer}, {left:?}")
}

/// The text of a reply: the value that the call returned, in the form of `Debug`, or its error,
/// followed by the buffer that the call left, if it has one.
pub fn text_of(alloc: Global, reply: &Reply) -> Result<String, AllocError> {
    match reply {
        Reply::SetLimits => told(alloc, &()),
        Reply::Dimensions(answered) => answer(alloc, answered),
        Reply::Colortype(answered) => answer(alloc, answered),
        Reply::IfdPointer(value) => told(alloc, value),
        Reply::SeekToImage(answered) => answer(alloc, answered),
        Reply::NextImage(answered) => answer(alloc, answered),
        Reply::MoreImages(value) => told(alloc, value),
        Reply::ByteOrder(value) => told(alloc, value),
        Reply::ReadDirectory(answered) => answer(alloc, answered),
        Reply::GotoOffset(answered) => answer(alloc, answered),
        Reply::GotoOffsetU64(answered) => answer(alloc, answered),
        Reply::ReadIfdOffset(answered) => answer(alloc, answered),
        Reply::ReadByte(answered) => answer(alloc, answered),
        Reply::ReadShort(answered) => answer(alloc, answered),
        Reply::ReadSshort(answered) => answer(alloc, answered),
        Reply::ReadLong(answered) => answer(alloc, answered),
        Reply::ReadSlong(answered) => answer(alloc, answered),
        Reply::ReadLong8(answered) => answer(alloc, answered),
        Reply::ReadSlong8(answered) => answer(alloc, answered),
        Reply::ReadFloat(answered) => answer(alloc, answered),
        Reply::ReadDouble(answered) => answer(alloc, answered),
        Reply::ReadString(answered) => answer(alloc, answered),
        Reply::ReadOffset(answered) => answer(alloc, answered),
        Reply::ReadOffsetU64(answered) => answer(alloc, answered),
        Reply::GetChunkType(value) => told(alloc, value),
        Reply::StripCount(answered) => answer(alloc, answered),
        Reply::TileCount(answered) => answer(alloc, answered),
        Reply::ChunkDimensions(value) => told(alloc, value),
        Reply::ChunkDataDimensions(value) => told(alloc, value),
        Reply::ImageBufferLayout(answered) => answer(alloc, answered),
        Reply::ImageChunkBufferLayout(answered) => answer(alloc, answered),
        Reply::ImageCodingUnitLayout(answered) => answer(alloc, answered),
        Reply::ReadImage(answered) => answer(alloc, answered),
        Reply::ReadImageToBuffer(answered, left) => answer_and_left(alloc, answered, left),
        Reply::ReadImageBytes(answered, left) => answer_and_left(alloc, answered, left),
        Reply::ReadChunk(answered) => answer(alloc, answered),
        Reply::ReadChunkBytes(answered, left) => answer_and_left(alloc, answered, left),
        Reply::ReadChunkToBuffer(answered, left) => answer_and_left(alloc, answered, left),
        Reply::ReadCodingUnitBytes(answered, left) => answer_and_left(alloc, answered, left),
        Reply::FindTag(answered) => answer(alloc, answered),
        Reply::FindTagUnsigned(answered) => answer(alloc, answered),
        Reply::FindTagUnsignedVec(answered) => answer(alloc, answered),
        Reply::GetTag(answered) => answer(alloc, answered),
        Reply::GetTagUnsigned(answered) => answer(alloc, answered),
        Reply::GetTagU32(answered) => answer(alloc, answered),
        Reply::GetTagU64(answered) => answer(alloc, answered),
        Reply::GetTagF32(answered) => answer(alloc, answered),
        Reply::GetTagF64(answered) => answer(alloc, answered),
        Reply::GetTagU32Vec(answered) => answer(alloc, answered),
        Reply::GetTagU16Vec(answered) => answer(alloc, answered),
        Reply::GetTagU64Vec(answered) => answer(alloc, answered),
        Reply::GetTagF32Vec(answered) => answer(alloc, answered),
        Reply::GetTagF64Vec(answered) => answer(alloc, answered),
        Reply::GetTagU8Vec(answered) => answer(alloc, answered),
        Reply::GetTagAsciiString(answered) => answer(alloc, answered),
        Reply::TagIter(answered) => answer(alloc, answered),
        Reply::FindEntry(value) => told(alloc, value),
        Reply::FindTagBuf(answered, left) => answer_and_left(alloc, answered, left),
        Reply::FindTagBytes(answered, left) => answer_and_left(alloc, answered, left),
    }
}

/// Makes a call of a decoder and returns the text of its reply. Makes the call even where there is
/// no memory for the text.
pub fn reply_text<R: Source>(decoder: &mut Decoder<R>, call: &Call) -> Result<String, AllocError>
    ensures { Called decoder.old call.now decoder.new }
{
    let alloc = decoder.alloc;
    let reply = run_call(decoder, call);
    text_of(alloc, &reply)
}

//! Lists of calls of a decoder, and their replies.

ghost use Rattle.std.specs.Prelude.{◌≡◌, ◌+◌, ◌++◌, ◌∷◌, [], ◌<◌, ◌≤◌, vec_len, vec_capacity, replicate, OnOk, IfOk, IfErr};
ghost use Rattle.tiff_base.specs.declared.error.TiffError.TheVariants.{OutOfMemory};
ghost use Rattle.tiff_base.specs.declared.tags.«Type».TheVariants.{BYTE};
ghost use Rattle.tiff_value.specs.Buffer.{empty_buffer};
ghost use Rattle.tiff_base.specs.Sparing.{IsOkOrList};
ghost use Rattle.tiff_page.specs.EarlyFaults.{planes_early, strided_early};
ghost use Rattle.tiff_decode.specs.Machine.{Follows, FollowsBut};
ghost use Rattle.tiff_decode.specs.Outcome as outcome;
ghost use Rattle.tiff_decode.specs.Reader.{TagsRead};
ghost use Rattle.tiff_decode.specs.Result.{decoded_as};
ghost use Rattle.tiff_decode.specs.ReplyView.{items_of};
ghost use Rattle.tiff_decode.specs.Step.{BufferLeft, Step};
ghost use Rattle.tiff_decode.specs.Steps.{Ran};

use crate::decoder::Decoder;
use crate::result::DecodingResult;
use std::alloc::Global;
use tiff_base::color::{ChunkType, ColorType};
use tiff_base::directory::{Directory, Entry};
use tiff_base::error::{TiffError, TiffResult};
use tiff_base::io::Source;
use tiff_base::tags::{Bits32, Bits64, ByteOrder, IfdPointer, Tag, Type};
use tiff_ifd::limits::Limits;
use tiff_ifd::value::Value;
use tiff_page::layout::{BufferLayoutPreference, TiffCodingUnit};
use tiff_value::buffer::ValueBuffer;

/// A call of a decoder, or of the tags of its page. A slice is defined by its length and starts as
/// zeros. A list of samples starts empty, and a buffer of values starts as an empty one of
/// `Type::BYTE`. Calls that take a number type use `u64`.
#[derive(Drop)]
pub enum Call {
    SetLimits(Limits),
    Dimensions,
    Colortype,
    IfdPointer,
    SeekToImage(usize),
    NextImage,
    MoreImages,
    ByteOrder,
    ReadDirectory(IfdPointer),
    GotoOffset(u32),
    GotoOffsetU64(u64),
    ReadIfdOffset,
    ReadByte,
    ReadShort,
    ReadSshort,
    ReadLong,
    ReadSlong,
    ReadLong8,
    ReadSlong8,
    ReadFloat,
    ReadDouble,
    ReadString(usize),
    ReadOffset,
    ReadOffsetU64,
    GetChunkType,
    StripCount,
    TileCount,
    ChunkDimensions,
    ChunkDataDimensions(u32),
    ImageBufferLayout,
    ImageChunkBufferLayout(u32),
    ImageCodingUnitLayout(TiffCodingUnit),
    ReadImage,
    ReadImageToBuffer,
    ReadImageBytes(usize),
    ReadChunk(u32),
    ReadChunkBytes { chunk: u32, len: usize },
    ReadChunkToBuffer { chunk: u32, stride: usize },
    ReadCodingUnitBytes { unit: TiffCodingUnit, len: usize },
    FindTag(Tag),
    FindTagUnsigned(Tag),
    FindTagUnsignedVec(Tag),
    GetTag(Tag),
    GetTagUnsigned(Tag),
    GetTagU32(Tag),
    GetTagU64(Tag),
    GetTagF32(Tag),
    GetTagF64(Tag),
    GetTagU32Vec(Tag),
    GetTagU16Vec(Tag),
    GetTagU64Vec(Tag),
    GetTagF32Vec(Tag),
    GetTagF64Vec(Tag),
    GetTagU8Vec(Tag),
    GetTagAsciiString(Tag),
    TagIter,
    FindEntry(Tag),
    FindTagBuf(Tag),
    FindTagBytes { tag: Tag, len: usize, at: u64 },
}

/// The result of a call, and the slice, the list of samples or the buffer as the call left it.
#[derive(Drop)]
pub enum Reply {
    SetLimits,
    Dimensions(TiffResult<(u32, u32)>),
    Colortype(TiffResult<ColorType>),
    IfdPointer(Option<IfdPointer>),
    SeekToImage(TiffResult<()>),
    NextImage(TiffResult<()>),
    MoreImages(bool),
    ByteOrder(ByteOrder),
    ReadDirectory(TiffResult<Directory>),
    GotoOffset(TiffResult<()>),
    GotoOffsetU64(TiffResult<()>),
    ReadIfdOffset(TiffResult<u64>),
    ReadByte(TiffResult<u8>),
    ReadShort(TiffResult<u16>),
    ReadSshort(TiffResult<i16>),
    ReadLong(TiffResult<u32>),
    ReadSlong(TiffResult<i32>),
    ReadLong8(TiffResult<u64>),
    ReadSlong8(TiffResult<i64>),
    ReadFloat(TiffResult<Bits32>),
    ReadDouble(TiffResult<Bits64>),
    ReadString(TiffResult<String>),
    ReadOffset(TiffResult<[u8; 4]>),
    ReadOffsetU64(TiffResult<[u8; 8]>),
    GetChunkType(ChunkType),
    StripCount(TiffResult<u32>),
    TileCount(TiffResult<u32>),
    ChunkDimensions((u32, u32)),
    ChunkDataDimensions((u32, u32)),
    ImageBufferLayout(TiffResult<BufferLayoutPreference>),
    ImageChunkBufferLayout(TiffResult<BufferLayoutPreference>),
    ImageCodingUnitLayout(TiffResult<BufferLayoutPreference>),
    ReadImage(TiffResult<DecodingResult>),
    ReadImageToBuffer(TiffResult<BufferLayoutPreference>, DecodingResult),
    ReadImageBytes(TiffResult<()>, Vec<u8>),
    ReadChunk(TiffResult<DecodingResult>),
    ReadChunkBytes(TiffResult<()>, Vec<u8>),
    ReadChunkToBuffer(TiffResult<()>, DecodingResult),
    ReadCodingUnitBytes(TiffResult<()>, Vec<u8>),
    FindTag(TiffResult<Option<Value>>),
    FindTagUnsigned(TiffResult<Option<u64>>),
    FindTagUnsignedVec(TiffResult<Option<Vec<u64>>>),
    GetTag(TiffResult<Value>),
    GetTagUnsigned(TiffResult<u64>),
    GetTagU32(TiffResult<u32>),
    GetTagU64(TiffResult<u64>),
    GetTagF32(TiffResult<Bits32>),
    GetTagF64(TiffResult<Bits64>),
    GetTagU32Vec(TiffResult<Vec<u32>>),
    GetTagU16Vec(TiffResult<Vec<u16>>),
    GetTagU64Vec(TiffResult<Vec<u64>>),
    GetTagF32Vec(TiffResult<Vec<Bits32>>),
    GetTagF64Vec(TiffResult<Vec<Bits64>>),
    GetTagU8Vec(TiffResult<Vec<u8>>),
    GetTagAsciiString(TiffResult<String>),
    TagIter(TiffResult<Vec<TiffResult<(Tag, Value)>>>),
    FindEntry(Option<Entry>),
    FindTagBuf(TiffResult<Option<Entry>>, ValueBuffer),
    FindTagBytes(TiffResult<Option<usize>>, Vec<u8>),
}

// A copy of limits.
fn same_limits(limits: &Limits) -> Limits
    ensures { result ≡ limits.now }
{
    let mut same = Limits::unlimited();
    same.decoding_buffer_size = limits.decoding_buffer_size;
    same.ifd_value_size = limits.ifd_value_size;
    same.intermediate_buffer_size = limits.intermediate_buffer_size;
    same
}

// A list of `len` zeros.
fn zeros(alloc: Global, len: usize) -> TiffResult<Vec<u8>>
    ensures zeros { IfOk result (λ v. v.items ≡ replicate len 0) }
    ensures err { IfErr result (λ e. e ≡ OutOfMemory) }
{
    Ok(vec![in alloc; 0u8; len]?)
}

// Reads the image into an empty list of samples.
#[tactic(auto, using(crate::proofs::CallsMade::wanted_after))]
fn image_samples<R: Source>(
    decoder: &mut Decoder<R>,
) -> (TiffResult<BufferLayoutPreference>, DecodingResult)
    ensures { FollowsBut
        (IsOkOrList
        (planes_early decoder.old.bytes decoder.old.state.page decoder.old.state.limits))
        (λ x. (x, decoded_as result.1))
        (outcome.read_image_to_buffer decoder.old) result.0 decoder.old decoder.new }
{
    let mut samples = DecodingResult::U8(Vec::new(decoder.alloc));
    let result = decoder.read_image_to_buffer(&mut samples);
    (result, samples)
}

// Reads a chunk into an empty list of samples.
#[tactic(auto, using(crate::proofs::CallsMade::wanted_after))]
fn chunk_samples<R: Source>(
    decoder: &mut Decoder<R>,
    chunk: u32,
    stride: usize,
) -> (TiffResult<()>, DecodingResult)
    ensures { FollowsBut
        (IsOkOrList
        (strided_early decoder.old.bytes decoder.old.state.page decoder.old.state.limits chunk
        stride)) (λ _. decoded_as result.1)
        (outcome.read_chunk_to_buffer decoder.old chunk stride) result.0 decoder.old decoder.new }
{
    let mut samples = DecodingResult::U8(Vec::new(decoder.alloc));
    let result = decoder.read_chunk_to_buffer(&mut samples, chunk, stride);
    (result, samples)
}

// Reads the image into a slice of zeros.
#[tactic(auto, using(crate::proofs::CallsMade::stands_here, crate::proofs::CallsMade::image_bytes))]
fn image_bytes<R: Source>(decoder: &mut Decoder<R>, len: usize) -> (TiffResult<()>, Vec<u8>)
    ensures { Follows (λ _. items_of result.1)
        (outcome.read_image_bytes decoder.old (replicate len 0)) result.0 decoder.old decoder.new }
{
    let alloc = decoder.alloc;
    let Ok(mut bytes) = zeros(alloc, len) else {
        return (Err(TiffError::OutOfMemory), Vec::new(alloc));
    };
    let result = decoder.read_image_bytes(&mut bytes);
    (result, bytes)
}

// Reads a chunk into a slice of zeros.
#[tactic(auto, using(crate::proofs::CallsMade::stands_here, crate::proofs::CallsMade::chunk_bytes))]
fn chunk_bytes<R: Source>(
    decoder: &mut Decoder<R>,
    chunk: u32,
    len: usize,
) -> (TiffResult<()>, Vec<u8>)
    ensures { Follows (λ _. items_of result.1)
        (outcome.read_chunk_bytes decoder.old chunk (replicate len 0)) result.0
        decoder.old decoder.new }
{
    let alloc = decoder.alloc;
    let Ok(mut bytes) = zeros(alloc, len) else {
        return (Err(TiffError::OutOfMemory), Vec::new(alloc));
    };
    let result = decoder.read_chunk_bytes(chunk, &mut bytes);
    (result, bytes)
}

// Reads a coding unit into a slice of zeros.
#[tactic(auto, using(crate::proofs::CallsMade::stands_here, crate::proofs::CallsMade::unit_bytes))]
fn unit_bytes<R: Source>(
    decoder: &mut Decoder<R>,
    unit: TiffCodingUnit,
    len: usize,
) -> (TiffResult<()>, Vec<u8>)
    ensures { Follows (λ _. items_of result.1)
        (outcome.read_coding_unit_bytes decoder.old unit.0 (replicate len 0)) result.0
        decoder.old decoder.new }
{
    let alloc = decoder.alloc;
    let Ok(mut bytes) = zeros(alloc, len) else {
        return (Err(TiffError::OutOfMemory), Vec::new(alloc));
    };
    let result = decoder.read_coding_unit_bytes(unit, &mut bytes);
    (result, bytes)
}

// Reads the values of a tag into an empty buffer.
fn tag_buffer<R: Source>(
    decoder: &mut Decoder<R>,
    tag: Tag,
) -> (TiffResult<Option<Entry>>, ValueBuffer)
    ensures read { TagsRead (outcome.WantsBytes decoder.old tag (empty_buffer BYTE)) (λ x. (x, result.1))
        (outcome.find_tag_buf decoder.old tag (empty_buffer BYTE)) result.0 decoder.old
        decoder.new }
    ensures left { BufferLeft decoder.old.order (outcome.find_entry decoder.old tag) (empty_buffer BYTE)
        result.0 result.1 }
{
    let mut buffer = ValueBuffer::empty(decoder.alloc, Type::BYTE);
    let result = decoder.buf_in(None, tag, &mut buffer);
    (result, buffer)
}

// Reads the bytes of a tag's values into a slice of zeros.
#[tactic(auto, using(crate::proofs::CallsMade::nothing_read, crate::proofs::CallsMade::tag_bytes))]
fn tag_bytes<R: Source>(
    decoder: &mut Decoder<R>,
    tag: Tag,
    len: usize,
    at: u64,
) -> (TiffResult<Option<usize>>, Vec<u8>)
    ensures { TagsRead (Unit {0}) (λ x. (x, items_of result.1))
        (outcome.find_tag_bytes decoder.old tag (replicate len 0) at) result.0
        decoder.old decoder.new }
{
    let alloc = decoder.alloc;
    let Ok(mut bytes) = zeros(alloc, len) else {
        return (Err(TiffError::OutOfMemory), Vec::new(alloc));
    };
    let result = decoder.bytes_in(None, tag, &mut bytes, at);
    (result, bytes)
}

/// Makes one call.
#[tactic(auto, using(crate::proofs::CallsMade::wanted_after), unfolding(crate::specs::Outcome::colortype, crate::specs::Outcome::image_buffer_layout, crate::specs::Outcome::image_chunk_buffer_layout, crate::specs::Outcome::image_coding_unit_layout))]
pub fn run_call<R: Source>(decoder: &mut Decoder<R>, call: &Call) -> Reply
    ensures { Step decoder.old call.now result decoder.new }
{
    // In the order of the definition `promise`, so that the two can be compared line by line.
    match call {
        Call::SetLimits(limits) => {
            decoder.set_limits(same_limits(limits));
            Reply::SetLimits
        }
        Call::Dimensions => Reply::Dimensions(decoder.dimensions()),
        Call::Colortype => Reply::Colortype(decoder.colortype()),
        Call::IfdPointer => Reply::IfdPointer(decoder.ifd_pointer()),
        Call::SeekToImage(index) => Reply::SeekToImage(decoder.seek_to_image(*index)),
        Call::NextImage => Reply::NextImage(decoder.next_image()),
        Call::MoreImages => Reply::MoreImages(decoder.more_images()),
        Call::ByteOrder => Reply::ByteOrder(decoder.byte_order()),
        Call::ReadDirectory(pointer) => Reply::ReadDirectory(decoder.read_directory(*pointer)),
        Call::GotoOffset(offset) => Reply::GotoOffset(decoder.goto_offset(*offset)),
        Call::GotoOffsetU64(offset) => Reply::GotoOffsetU64(decoder.goto_offset_u64(*offset)),
        Call::ReadIfdOffset => Reply::ReadIfdOffset(decoder.read_ifd_offset()),
        Call::ReadByte => Reply::ReadByte(decoder.read_byte()),
        Call::ReadShort => Reply::ReadShort(decoder.read_short()),
        Call::ReadSshort => Reply::ReadSshort(decoder.read_sshort()),
        Call::ReadLong => Reply::ReadLong(decoder.read_long()),
        Call::ReadSlong => Reply::ReadSlong(decoder.read_slong()),
        Call::ReadLong8 => Reply::ReadLong8(decoder.read_long8()),
        Call::ReadSlong8 => Reply::ReadSlong8(decoder.read_slong8()),
        Call::ReadFloat => Reply::ReadFloat(decoder.read_float()),
        Call::ReadDouble => Reply::ReadDouble(decoder.read_double()),
        Call::ReadString(len) => Reply::ReadString(decoder.read_string(*len)),
        Call::ReadOffset => Reply::ReadOffset(decoder.read_offset()),
        Call::ReadOffsetU64 => Reply::ReadOffsetU64(decoder.read_offset_u64()),
        Call::GetChunkType => Reply::GetChunkType(decoder.get_chunk_type()),
        Call::StripCount => Reply::StripCount(decoder.strip_count()),
        Call::TileCount => Reply::TileCount(decoder.tile_count()),
        Call::ChunkDimensions => Reply::ChunkDimensions(decoder.chunk_dimensions()),
        Call::ChunkDataDimensions(chunk) => {
            Reply::ChunkDataDimensions(decoder.chunk_data_dimensions(*chunk))
        }
        Call::ImageBufferLayout => Reply::ImageBufferLayout(decoder.image_buffer_layout()),
        Call::ImageChunkBufferLayout(chunk) => {
            Reply::ImageChunkBufferLayout(decoder.image_chunk_buffer_layout(*chunk))
        }
        Call::ImageCodingUnitLayout(unit) => {
            Reply::ImageCodingUnitLayout(decoder.image_coding_unit_layout(*unit))
        }
        Call::ReadImage => Reply::ReadImage(decoder.read_image()),
        Call::ReadImageToBuffer => {
            let (result, samples) = image_samples(decoder);
            Reply::ReadImageToBuffer(result, samples)
        }
        Call::ReadImageBytes(len) => {
            let (result, bytes) = image_bytes(decoder, *len);
            Reply::ReadImageBytes(result, bytes)
        }
        Call::ReadChunk(chunk) => Reply::ReadChunk(decoder.read_chunk(*chunk)),
        Call::ReadChunkBytes { chunk, len } => {
            let (result, bytes) = chunk_bytes(decoder, *chunk, *len);
            Reply::ReadChunkBytes(result, bytes)
        }
        Call::ReadChunkToBuffer { chunk, stride } => {
            let (result, samples) = chunk_samples(decoder, *chunk, *stride);
            Reply::ReadChunkToBuffer(result, samples)
        }
        Call::ReadCodingUnitBytes { unit, len } => {
            let (result, bytes) = unit_bytes(decoder, *unit, *len);
            Reply::ReadCodingUnitBytes(result, bytes)
        }
        Call::FindTag(tag) => Reply::FindTag(decoder.find_tag(*tag)),
        // A reply has a `u64`, which the function below the generic public call returns.
        Call::FindTagUnsigned(tag) => Reply::FindTagUnsigned(decoder.number_in(None, *tag)),
        Call::FindTagUnsignedVec(tag) => Reply::FindTagUnsignedVec(decoder.numbers_in(None, *tag)),
        Call::GetTag(tag) => Reply::GetTag(decoder.get_tag(*tag)),
        Call::GetTagUnsigned(tag) => Reply::GetTagUnsigned(decoder.required_in(None, *tag)),
        Call::GetTagU32(tag) => Reply::GetTagU32(decoder.get_tag_u32(*tag)),
        Call::GetTagU64(tag) => Reply::GetTagU64(decoder.get_tag_u64(*tag)),
        Call::GetTagF32(tag) => Reply::GetTagF32(decoder.get_tag_f32(*tag)),
        Call::GetTagF64(tag) => Reply::GetTagF64(decoder.get_tag_f64(*tag)),
        Call::GetTagU32Vec(tag) => Reply::GetTagU32Vec(decoder.get_tag_u32_vec(*tag)),
        Call::GetTagU16Vec(tag) => Reply::GetTagU16Vec(decoder.get_tag_u16_vec(*tag)),
        Call::GetTagU64Vec(tag) => Reply::GetTagU64Vec(decoder.get_tag_u64_vec(*tag)),
        Call::GetTagF32Vec(tag) => Reply::GetTagF32Vec(decoder.get_tag_f32_vec(*tag)),
        Call::GetTagF64Vec(tag) => Reply::GetTagF64Vec(decoder.get_tag_f64_vec(*tag)),
        Call::GetTagU8Vec(tag) => Reply::GetTagU8Vec(decoder.get_tag_u8_vec(*tag)),
        Call::GetTagAsciiString(tag) => Reply::GetTagAsciiString(decoder.get_tag_ascii_string(
            *tag,
        )),
        Call::TagIter => Reply::TagIter(decoder.all_tags()),
        Call::FindEntry(tag) => Reply::FindEntry(decoder.entry_in(None, *tag)),
        Call::FindTagBuf(tag) => {
            let (result, buffer) = tag_buffer(decoder, *tag);
            Reply::FindTagBuf(result, buffer)
        }
        Call::FindTagBytes { tag, len, at } => {
            let (result, bytes) = tag_bytes(decoder, *tag, *len, *at);
            Reply::FindTagBytes(result, bytes)
        }
    }
}

/// Makes calls of a decoder one after another, and appends the reply of each to `replies`, also
/// where it is an error. First reserves memory for all replies; where that fails, returns
/// `OutOfMemory`, makes no call, and leaves `replies` unchanged.
#[tactic(auto, using(crate::proofs::CallsMade::turn, crate::proofs::CallsMade::none_made))]
pub fn run_calls<R: Source>(
    decoder: &mut Decoder<R>,
    calls: &[Call],
    replies: &mut Vec<Reply>,
) -> TiffResult<()>
    ensures made { OnOk result (Ran decoder.old calls.now replies.old.items replies.new.items decoder.new) }
    ensures refused { IfErr result (λ e. (e ≡ OutOfMemory) × (decoder.new ≡ decoder.old)
        × (replies.new.items ≡ replies.old.items)) }
{
    replies.try_reserve(calls.len())?;
    for call in calls {
        let reply = run_call(decoder, call);
        replies.push_reserved(reply);
    }
    Ok(())
}

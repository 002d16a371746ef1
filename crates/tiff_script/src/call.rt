//! Calls of a decoder as words, each its name and its numbers, and lists of calls as lines of text.

use std::alloc::{AllocError, Global};
use tiff_base::tags::{IfdPointer, Tag};
use tiff_decode::script::Call;
use tiff_ifd::limits::Limits;
use tiff_page::layout::TiffCodingUnit;

// The number that a word is, in decimal or as `max`.
fn number_of(word: &str) -> Option<u64> {
    match word {
        "max" => Some(u64::MAX),
        _ => word.parse::<u64>().ok(),
    }
}

// The numbers that words are; `None` if one is no number.
fn numbers_of(alloc: Global, words: &str) -> Result<Option<Vec<u64>>, AllocError> {
    let mut numbers = Vec::new(alloc);
    for word in words.split(' ') {
        let Some(number) = number_of(word) else {
            return Ok(None);
        };
        numbers.push(number)?;
    }
    Ok(Some(numbers))
}

// The call of a name that reads the next number, or the next bytes of an offset.
fn next_number_call(name: &str) -> Option<Call> {
    match name {
        "read_ifd_offset" => Some(Call::ReadIfdOffset),
        "read_byte" => Some(Call::ReadByte),
        "read_short" => Some(Call::ReadShort),
        "read_sshort" => Some(Call::ReadSshort),
        "read_long" => Some(Call::ReadLong),
        "read_slong" => Some(Call::ReadSlong),
        "read_long8" => Some(Call::ReadLong8),
        "read_slong8" => Some(Call::ReadSlong8),
        "read_float" => Some(Call::ReadFloat),
        "read_double" => Some(Call::ReadDouble),
        "read_offset" => Some(Call::ReadOffset),
        "read_offset_u64" => Some(Call::ReadOffsetU64),
        _ => None,
    }
}

// The call of a name that takes no number.
fn plain_call(name: &str) -> Option<Call> {
    match name {
        "dimensions" => Some(Call::Dimensions),
        "colortype" => Some(Call::Colortype),
        "ifd_pointer" => Some(Call::IfdPointer),
        "next_image" => Some(Call::NextImage),
        "more_images" => Some(Call::MoreImages),
        "byte_order" => Some(Call::ByteOrder),
        "get_chunk_type" => Some(Call::GetChunkType),
        "strip_count" => Some(Call::StripCount),
        "tile_count" => Some(Call::TileCount),
        "chunk_dimensions" => Some(Call::ChunkDimensions),
        "image_buffer_layout" => Some(Call::ImageBufferLayout),
        "read_image" => Some(Call::ReadImage),
        "read_image_to_buffer" => Some(Call::ReadImageToBuffer),
        "tag_iter" => Some(Call::TagIter),
        _ => next_number_call(name),
    }
}

// The call of a name that takes one number of 64 bits.
fn wide_call(name: &str, number: u64) -> Option<Call> {
    match name {
        "seek_to_image" => Some(Call::SeekToImage(number as usize)),
        "read_directory" => Some(Call::ReadDirectory(IfdPointer(number))),
        "goto_offset_u64" => Some(Call::GotoOffsetU64(number)),
        "read_string" => Some(Call::ReadString(number as usize)),
        "read_image_bytes" => Some(Call::ReadImageBytes(number as usize)),
        _ => None,
    }
}

// The call of a name that takes one number of 32 bits.
fn index_call(name: &str, number: u32) -> Option<Call> {
    match name {
        "goto_offset" => Some(Call::GotoOffset(number)),
        "chunk_data_dimensions" => Some(Call::ChunkDataDimensions(number)),
        "image_chunk_buffer_layout" => Some(Call::ImageChunkBufferLayout(number)),
        "image_coding_unit_layout" => Some(Call::ImageCodingUnitLayout(TiffCodingUnit(number))),
        "read_chunk" => Some(Call::ReadChunk(number)),
        _ => None,
    }
}

// The call of a name that takes a tag alone.
fn tag_call(name: &str, tag: Tag) -> Option<Call> {
    match name {
        "find_entry" => Some(Call::FindEntry(tag)),
        "find_tag" => Some(Call::FindTag(tag)),
        "find_tag_unsigned" => Some(Call::FindTagUnsigned(tag)),
        "find_tag_unsigned_vec" => Some(Call::FindTagUnsignedVec(tag)),
        "find_tag_buf" => Some(Call::FindTagBuf(tag)),
        "get_tag" => Some(Call::GetTag(tag)),
        "get_tag_unsigned" => Some(Call::GetTagUnsigned(tag)),
        "get_tag_u32" => Some(Call::GetTagU32(tag)),
        "get_tag_u64" => Some(Call::GetTagU64(tag)),
        "get_tag_f32" => Some(Call::GetTagF32(tag)),
        "get_tag_f64" => Some(Call::GetTagF64(tag)),
        "get_tag_u32_vec" => Some(Call::GetTagU32Vec(tag)),
        "get_tag_u16_vec" => Some(Call::GetTagU16Vec(tag)),
        "get_tag_u64_vec" => Some(Call::GetTagU64Vec(tag)),
        "get_tag_f32_vec" => Some(Call::GetTagF32Vec(tag)),
        "get_tag_f64_vec" => Some(Call::GetTagF64Vec(tag)),
        "get_tag_u8_vec" => Some(Call::GetTagU8Vec(tag)),
        "get_tag_ascii_string" => Some(Call::GetTagAsciiString(tag)),
        _ => None,
    }
}

// The call of a name that takes one number.
fn one_number_call(name: &str, number: u64) -> Option<Call> {
    if let Some(call) = wide_call(name, number) {
        return Some(call);
    }
    let number = u32::try_from(number).ok()?;
    if let Some(call) = index_call(name, number) {
        return Some(call);
    }
    let number = u16::try_from(number).ok()?;
    tag_call(name, Tag::from_u16_exhaustive(number))
}

// The call of a name that takes two numbers: an index, and a length or a stride.
fn two_numbers_call(name: &str, index: u32, len: usize) -> Option<Call> {
    match name {
        "read_chunk_bytes" => Some(Call::ReadChunkBytes { chunk: index, len }),
        "read_chunk_to_buffer" => Some(Call::ReadChunkToBuffer {
            chunk: index,
            stride: len,
        }),
        "read_coding_unit_bytes" => Some(Call::ReadCodingUnitBytes {
            unit: TiffCodingUnit(index),
            len,
        }),
        _ => None,
    }
}

// The call of a name that takes three numbers.
fn three_numbers_call(name: &str, first: u64, second: u64, third: u64) -> Option<Call> {
    match name {
        "set_limits" => {
            let mut limits = Limits::unlimited();
            limits.decoding_buffer_size = first as usize;
            limits.ifd_value_size = second as usize;
            limits.intermediate_buffer_size = third as usize;
            Some(Call::SetLimits(limits))
        }
        "find_tag_bytes" => Some(Call::FindTagBytes {
            tag: Tag::from_u16_exhaustive(u16::try_from(first).ok()?),
            len: second as usize,
            at: third,
        }),
        _ => None,
    }
}

// The call of a name with its numbers.
fn numbers_call(name: &str, numbers: &[u64]) -> Option<Call> {
    match numbers {
        [number] => one_number_call(name, *number),
        [index, len] => two_numbers_call(name, u32::try_from(*index).ok()?, *len as usize),
        [first, second, third] => three_numbers_call(name, *first, *second, *third),
        _ => None,
    }
}

/// The call that words stand for, its name and its numbers; `None` if they are no call.
pub fn call_of(alloc: Global, words: &str) -> Result<Option<Call>, AllocError> {
    let Some((name, rest)) = words.split_once(' ') else {
        return Ok(plain_call(words));
    };
    match numbers_of(alloc, rest)? {
        Some(numbers) => Ok(numbers_call(name, &numbers)),
        None => Ok(None),
    }
}

/// The calls that the lines of a text list; or the number, from 1, of the first line that is no
/// call. Empty lines and lines that begin with `#` are ignored.
pub fn calls_of(alloc: Global, text: &str) -> Result<Result<Vec<Call>, usize>, AllocError> {
    let mut calls = Vec::new(alloc);
    let mut number = 1usize;
    for line in text.lines() {
        if !line.is_empty() && !line.starts_with('#') {
            let Some(call) = call_of(alloc, line)? else {
                return Ok(Err(number));
            };
            calls.push(call)?;
        }
        number = number.saturating_add(1);
    }
    Ok(Ok(calls))
}

//! Slices, lists and buffers that a caller lends to a decoder, with contents of their own; the text
//! of a decoder.

use crate::library::told::Told;
use std::alloc::Global;
use tiff_base::error::TiffResult;
use tiff_base::io::Source;
use tiff_base::tags::{Tag, Type};
use tiff_decode::buffer::DecodingBuffer;
use tiff_decode::decoder::{Decoder, DecodingResult};
use tiff_ifd::limits::Limits;
use tiff_page::layout::{DecodingSampleType, TiffCodingUnit};
use tiff_value::buffer::ValueBuffer;

// A tag without a name.
const UNNAMED: Tag = Tag::Unknown(65000);

/// Adds the text of a decoder.
pub fn add_decoder<R: Source>(told: &mut Told, decoder: &mut Decoder<R>) -> TiffResult<()> {
    told.line("Decoder::fmt", &*decoder);
    Ok(())
}

// Adds a slice of 99 after the bytes of a tag from an offset on.
fn add_bytes<R: Source>(told: &mut Told, decoder: &mut Decoder<R>, offset: u64) {
    let mut slice = [99u8; 3];
    let counts = Tag::StripByteCounts;
    let answer = decoder
        .image_ifd()
        .find_tag_bytes(counts, &mut slice, offset);
    told.line("IfdDecoder::find_tag_bytes", (offset, answer, slice));
}

// Adds a slice after the image, and after the first coding unit. It was filled with 99.
fn add_image<R: Source>(told: &mut Told, decoder: &mut Decoder<R>, slice: &mut [u8]) {
    let answer = decoder.read_image_bytes(slice);
    told.line("Decoder::read_image_bytes", (answer, &*slice));
    slice.fill(99);
    let answer = decoder.read_coding_unit_bytes(TiffCodingUnit(0), slice);
    told.line("Decoder::read_coding_unit_bytes", (answer, &*slice));
}

/// Adds slices after calls that fill a part of each: the last byte of a value, and none of it; one
/// plane, and both.
pub fn add_slices<R: Source>(told: &mut Told, decoder: &mut Decoder<R>) -> TiffResult<()> {
    add_bytes(told, decoder, 7);
    add_bytes(told, decoder, u64::MAX);
    add_image(told, decoder, &mut [99; 3]);
    add_image(told, decoder, &mut [99; 5]);
    Ok(())
}

// Adds the entry of a tag, and then what the buffer is and holds.
fn add_buffer<R: Source>(
    told: &mut Told,
    decoder: &mut Decoder<R>,
    tag: Tag,
    buffer: &mut ValueBuffer,
) {
    let answer = decoder.image_ifd().find_tag_buf(tag, buffer);
    told.line("IfdDecoder::find_tag_buf", (tag, answer));
    let kind = (buffer.byte_order(), buffer.data_type(), buffer.count());
    told.line("ValueBuffer", (kind, buffer.as_bytes()));
}

/// Adds one buffer after a tag's bytes, after a tag that the page hasn't, and after one that is
/// cut.
pub fn add_buffers<R: Source>(told: &mut Told, decoder: &mut Decoder<R>) -> TiffResult<()> {
    let mut buffer = ValueBuffer::empty(told.alloc(), Type::BYTE);
    for tag in [Tag::ImageWidth, Tag::Artist, UNNAMED] {
        add_buffer(told, decoder, tag, &mut buffer);
    }
    Ok(())
}

/// Adds tags as numbers below 2^16: one that fits, one that is too large, and one that the page
/// hasn't.
pub fn add_numbers<R: Source>(told: &mut Told, decoder: &mut Decoder<R>) -> TiffResult<()> {
    for tag in [Tag::ImageWidth, Tag::RowsPerStrip, Tag::Artist] {
        let number = decoder.find_tag_unsigned::<u16>(tag);
        told.line("Decoder::find_tag_unsigned", (tag, number));
        let numbers = decoder.find_tag_unsigned_vec::<u16>(tag);
        told.line("Decoder::find_tag_unsigned_vec", (tag, numbers));
    }
    Ok(())
}

// Adds the samples of the second plane, read into a list of other samples, in rows of four bytes.
fn add_listed<R: Source>(told: &mut Told, decoder: &mut Decoder<R>) -> TiffResult<()> {
    let mut list = DecodingResult::U16(vec![in told.alloc(); 5; 9]?);
    let answer = decoder.read_chunk_to_buffer(&mut list, 1, 4);
    told.line("Decoder::read_chunk_to_buffer", (answer, list));
    Ok(())
}

// Adds a list that is resized to the page's layout, with another number type and length.
fn add_resized<R: Source>(
    told: &mut Told,
    decoder: &mut Decoder<R>,
    sample_type: Option<DecodingSampleType>,
    len: usize,
) -> TiffResult<()> {
    let mut layout = decoder.image_buffer_layout()?;
    layout.sample_type = sample_type;
    layout.complete_len = len;
    let mut list = DecodingResult::U8(vec![in told.alloc(); 5; 3]?);
    let answer = list.resize_to(&layout, &Limits::default());
    told.line("DecodingResult::resize_to", (answer, list));
    Ok(())
}

// Puts a number in front of a buffer.
fn put(buffer: &mut DecodingBuffer<'_>, n: u16) {
    if let DecodingBuffer::U16(samples) = buffer {
        if let Some(first) = samples.first_mut() {
            *first = n;
        }
    }
}

// Makes a list of two samples, and adds the length and the bytes of a buffer from the second one
// on, after a number was put there.
fn add_placed(told: &mut Told, list: &mut DecodingResult) -> TiffResult<()> {
    *list = DecodingResult::U16(vec![in told.alloc(); 0; 2]?);
    let mut buffer = list.as_buffer(1);
    put(&mut buffer, 258);
    let bytes = buffer.as_bytes(told.alloc());
    told.line("DecodingBuffer::as_bytes", (buffer.byte_len(), bytes));
    Ok(())
}

/// Adds lists that a decoder fills, that are resized, and that are written in place.
pub fn add_lists<R: Source>(told: &mut Told, decoder: &mut Decoder<R>) -> TiffResult<()> {
    add_listed(told, decoder)?;
    add_resized(told, decoder, Some(DecodingSampleType::U16), 3)?;
    let long = 268_435_457;
    add_resized(told, decoder, Some(DecodingSampleType::U16), long)?;
    add_resized(told, decoder, None, long)?;
    let mut list = DecodingResult::U16(Vec::new(told.alloc()));
    add_placed(told, &mut list)?;
    told.line("DecodingResult", list);
    Ok(())
}

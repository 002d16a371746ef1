//! The calls of `tiff::decoder`.

use tiff::decoder::reply::{refusal_text, reply_text, text_of};
use tiff::decoder::script::{Call, run_call, run_calls};
use tiff::decoder::{Decoder, DecodingBuffer, DecodingResult, Limits, opens_first};
use tiff::io::Source;

// Pages and limits.
fn name_pages<R: Source>() {
    let _call = Decoder::<R>::new;
    let _call = Decoder::<R>::open;
    let _call = Decoder::<R>::rewind;
    let _law = opens_first;
    let _call = Decoder::<R>::with_limits;
    let _call = Decoder::<R>::set_limits;
    let _call = Decoder::<R>::dimensions;
    let _call = Decoder::<R>::colortype;
    let _call = Decoder::<R>::ifd_pointer;
    let _call = Decoder::<R>::more_images;
    let _call = Decoder::<R>::allocator;
    let _call = Decoder::<R>::byte_order;
    let _call = Decoder::<R>::inner;
    let _call = Decoder::<R>::next_image;
    let _call = Decoder::<R>::seek_to_image;
    let _call = Decoder::<R>::read_directory;
    let _call = Decoder::<R>::show_directory;
    let _call = Decoder::<R>::read_directory_tags;
    let _call = Decoder::<R>::image_ifd;
    let _call = Limits::unlimited;
}

// The fields of a page.
fn name_tags<R: Source>() {
    let _call = Decoder::<R>::tag_iter;
    let _call = Decoder::<R>::find_tag;
    let _call = Decoder::<R>::find_tag_unsigned::<u16>;
    let _call = Decoder::<R>::find_tag_unsigned_vec::<u16>;
    let _call = Decoder::<R>::get_tag;
    let _call = Decoder::<R>::get_tag_unsigned::<u16>;
    let _call = Decoder::<R>::get_tag_u32;
    let _call = Decoder::<R>::get_tag_u64;
    let _call = Decoder::<R>::get_tag_f32;
    let _call = Decoder::<R>::get_tag_f64;
    let _call = Decoder::<R>::get_tag_u32_vec;
    let _call = Decoder::<R>::get_tag_u16_vec;
    let _call = Decoder::<R>::get_tag_u64_vec;
    let _call = Decoder::<R>::get_tag_f32_vec;
    let _call = Decoder::<R>::get_tag_f64_vec;
    let _call = Decoder::<R>::get_tag_u8_vec;
    let _call = Decoder::<R>::get_tag_ascii_string;
}

// Numbers at an offset.
fn name_numbers<R: Source>() {
    let _call = Decoder::<R>::goto_offset;
    let _call = Decoder::<R>::goto_offset_u64;
    let _call = Decoder::<R>::read_ifd_offset;
    let _call = Decoder::<R>::read_byte;
    let _call = Decoder::<R>::read_short;
    let _call = Decoder::<R>::read_sshort;
    let _call = Decoder::<R>::read_long;
    let _call = Decoder::<R>::read_slong;
    let _call = Decoder::<R>::read_long8;
    let _call = Decoder::<R>::read_slong8;
    let _call = Decoder::<R>::read_float;
    let _call = Decoder::<R>::read_double;
    let _call = Decoder::<R>::read_string;
    let _call = Decoder::<R>::read_offset;
    let _call = Decoder::<R>::read_offset_u64;
}

// Layouts and samples.
fn name_samples<R: Source>() {
    let _call = Decoder::<R>::has_sides;
    let _call = Decoder::<R>::get_chunk_type;
    let _call = Decoder::<R>::strip_count;
    let _call = Decoder::<R>::tile_count;
    let _call = Decoder::<R>::chunk_dimensions;
    let _call = Decoder::<R>::chunk_data_dimensions;
    let _call = Decoder::<R>::image_buffer_layout;
    let _call = Decoder::<R>::image_chunk_buffer_layout;
    let _call = Decoder::<R>::image_coding_unit_layout;
    let _call = Decoder::<R>::read_image;
    let _call = Decoder::<R>::read_image_to_buffer;
    let _call = Decoder::<R>::read_image_bytes;
    let _call = Decoder::<R>::read_chunk;
    let _call = Decoder::<R>::read_chunk_bytes;
    let _call = Decoder::<R>::read_chunk_to_buffer;
    let _call = Decoder::<R>::read_coding_unit_bytes;
}

// Lists of samples that were read.
fn name_results() {
    let _call = DecodingResult::resize_to;
    let _call = DecodingResult::sample_type;
    let _call = DecodingResult::as_buffer;
    let _call = DecodingResult::u8_rest;
    let _call = DecodingResult::u16_rest;
    let _call = DecodingResult::u32_rest;
    let _call = DecodingResult::u64_rest;
    let _call = DecodingResult::f16_rest;
    let _call = DecodingResult::f32_rest;
    let _call = DecodingResult::f64_rest;
    let _call = DecodingResult::i8_rest;
    let _call = DecodingResult::i16_rest;
    let _call = DecodingResult::i32_rest;
    let _call = DecodingResult::i64_rest;
    let _call = DecodingBuffer::byte_len;
    let _call = DecodingBuffer::as_bytes;
}

// Calls by their names.
fn name_scripts<R: Source>() {
    let _call = Call::name;
    let _call = run_call::<R>;
    let _call = run_calls::<R>;
    let _call = text_of;
    let _call = reply_text::<R>;
    let _call = refusal_text;
}

/// Names the calls.
pub fn name_calls<R: Source>() {
    name_pages::<R>();
    name_tags::<R>();
    name_numbers::<R>();
    name_samples::<R>();
    name_results();
    name_scripts::<R>();
}

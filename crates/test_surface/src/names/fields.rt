//! The calls of fields and their values: `tiff::decoder::{IfdDecoder, ifd, cycles}`.

use tiff::decoder::IfdDecoder;
use tiff::decoder::cycles::IfdCycles;
use tiff::decoder::ifd::Value;
use tiff::io::Source;

// A value as one number or text.
fn name_values() {
    let _call = Value::into_u8;
    let _call = Value::into_i8;
    let _call = Value::into_u16;
    let _call = Value::into_i16;
    let _call = Value::into_u32;
    let _call = Value::into_i32;
    let _call = Value::into_u64;
    let _call = Value::into_i64;
    let _call = Value::into_f32;
    let _call = Value::into_f64;
    let _call = Value::into_ifd_pointer;
    let _call = Value::into_string;
}

// A value as a list.
fn name_lists() {
    let _call = Value::into_u8_vec;
    let _call = Value::into_u16_vec;
    let _call = Value::into_u32_vec;
    let _call = Value::into_i32_vec;
    let _call = Value::into_u64_vec;
    let _call = Value::into_i64_vec;
    let _call = Value::into_f32_vec;
    let _call = Value::into_f64_vec;
    let _call = Value::into_ifd_vec;
    let _call = IfdCycles::new;
    let _call = IfdCycles::insert_next;
}

// The fields of a directory.
fn name_fields<R: Source>() {
    let _call = IfdDecoder::<R>::directory;
    let _call = IfdDecoder::<R>::find_entry;
    let _call = IfdDecoder::<R>::find_tag_buf;
    let _call = IfdDecoder::<R>::find_tag_bytes;
    let _call = IfdDecoder::<R>::find_tag;
    let _call = IfdDecoder::<R>::find_tag_unsigned::<u16>;
    let _call = IfdDecoder::<R>::find_tag_unsigned_vec::<u16>;
    let _call = IfdDecoder::<R>::get_tag;
    let _call = IfdDecoder::<R>::get_tag_unsigned::<u16>;
    let _call = IfdDecoder::<R>::get_tag_u32;
    let _call = IfdDecoder::<R>::get_tag_u64;
    let _call = IfdDecoder::<R>::get_tag_f32;
    let _call = IfdDecoder::<R>::get_tag_f64;
    let _call = IfdDecoder::<R>::get_tag_u32_vec;
    let _call = IfdDecoder::<R>::get_tag_u16_vec;
    let _call = IfdDecoder::<R>::get_tag_u64_vec;
    let _call = IfdDecoder::<R>::get_tag_f32_vec;
    let _call = IfdDecoder::<R>::get_tag_f64_vec;
    let _call = IfdDecoder::<R>::get_tag_u8_vec;
    let _call = IfdDecoder::<R>::get_tag_ascii_string;
    let _call = IfdDecoder::<R>::tag_iter;
}

/// Names the calls.
pub fn name_calls<R: Source>() {
    name_values();
    name_lists();
    name_fields::<R>();
}

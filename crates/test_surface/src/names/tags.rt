//! The calls of `tiff::tags`, of colors and of the lists that errors carry.

use tiff::tags::{
    ByteOrder, CompressionMethod, ExtraSamples, PhotometricInterpretation, PlanarConfiguration,
    Predictor, ResolutionUnit, SampleFormat, Tag, Type, ValueBuffer,
};
use tiff::{ColorType, SampleBits, SampleFormats};

// Enums that have a number.
fn name_numbers() {
    let _call = Tag::from_u16;
    let _call = Tag::from_u16_exhaustive;
    let _call = Tag::to_u16;
    let _call = Type::from_u16;
    let _call = Type::to_u16;
    let _call = Type::byte_len;
    let _call = CompressionMethod::from_u16;
    let _call = CompressionMethod::from_u16_exhaustive;
    let _call = CompressionMethod::to_u16;
    let _call = PhotometricInterpretation::from_u16;
    let _call = PhotometricInterpretation::to_u16;
    let _call = PlanarConfiguration::from_u16;
    let _call = PlanarConfiguration::to_u16;
    let _call = Predictor::from_u16;
    let _call = Predictor::to_u16;
    let _call = ResolutionUnit::from_u16;
    let _call = ResolutionUnit::to_u16;
    let _call = SampleFormat::from_u16;
    let _call = SampleFormat::from_u16_exhaustive;
    let _call = SampleFormat::to_u16;
    let _call = ExtraSamples::from_u16;
    let _call = ExtraSamples::to_u16;
}

// Byte orders and buffers.
fn name_buffers() {
    let _call = ByteOrder::native;
    let _call = ByteOrder::convert;
    let _call = ValueBuffer::empty;
    let _call = ValueBuffer::from_value::<u16>;
    let _call = ValueBuffer::from_parts;
    let _call = ValueBuffer::byte_order;
    let _call = ValueBuffer::data_type;
    let _call = ValueBuffer::count;
    let _call = ValueBuffer::as_bytes;
    let _call = ValueBuffer::as_bytes_mut;
    let _call = ValueBuffer::set_byte_order;
}

// Colors and lists.
fn name_colors() {
    let _call = ColorType::bit_depth;
    let _call = ColorType::num_samples;
    let _call = SampleBits::from_vec;
    let _call = SampleBits::as_slice;
    let _call = SampleBits::len;
    let _call = SampleBits::into_vec;
    let _call = SampleFormats::from_vec;
    let _call = SampleFormats::as_slice;
    let _call = SampleFormats::len;
    let _call = SampleFormats::into_vec;
}

/// Names the calls.
pub fn name_calls() {
    name_numbers();
    name_buffers();
    name_colors();
}

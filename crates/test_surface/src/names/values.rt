//! The calls of values, of color types and of `tiff::encoder::{compression, writer}`.

use tiff::encoder::colortype::{ColorType, ColorTypeName};
use tiff::encoder::compression::{Compression, CompressionAlgorithm, pack_bits};
use tiff::encoder::writer::{TiffWriter, write_bigtiff_header, write_tiff_header};
use tiff::encoder::{Sample, TiffScalar, TiffValue};
use tiff::io::Sink;

// Values that are written.
fn name_values<W: Sink, S: Sample>() {
    let _type = S::FIELD_TYPE;
    let _len = S::BYTE_LEN;
    let _call = <S as TiffValue>::type_and_len;
    let _call = <S as TiffValue>::count;
    let _call = <S as TiffValue>::bytes;
    let _call = <S as TiffValue>::check;
    let _call = <S as TiffValue>::push_to;
    let _call = <S as TiffValue>::data;
    let _call = <S as TiffValue>::write::<W>;
    let _call = <S as TiffScalar>::push_all;
    let _call = S::zero;
    let _call = S::cut;
    let _call = S::predict_row;
    let _call = S::push_row;
    let _call = S::put_part;
    let _call = S::as_bytes;
    let _call = S::from_bytes;
}

// Methods of compression and color types.
fn name_methods<W: Sink, M: Compression, C: ColorType>() {
    let _method = M::COMPRESSION_METHOD;
    let _call = M::get_algorithm;
    let _call = <M as CompressionAlgorithm>::write_to::<W>;
    let _call = pack_bits;
    let _color = C::TIFF_VALUE;
    let _bits = C::BITS_PER_SAMPLE;
    let _formats = C::SAMPLE_FORMAT;
    let _names = ColorTypeName::ALL;
    let _call = C::sample_bits;
    let _call = C::sample_formats;
    let _call = C::horizontal_predict;
    let _call = C::horizontal_predict_stride;
}

// Writers of bytes and numbers.
fn name_writers<W: Sink>() {
    let _call = TiffWriter::<W>::new;
    let _call = TiffWriter::<W>::set_compression;
    let _call = TiffWriter::<W>::reset_compression;
    let _call = TiffWriter::<W>::offset;
    let _call = TiffWriter::<W>::len;
    let _call = TiffWriter::<W>::last_written;
    let _call = TiffWriter::<W>::has_failed;
    let _call = TiffWriter::<W>::goto_offset;
    let _call = TiffWriter::<W>::reserve;
    let _call = TiffWriter::<W>::write_bytes;
    let _call = TiffWriter::<W>::write_plain;
    let _call = TiffWriter::<W>::write_u8;
    let _call = TiffWriter::<W>::write_i8;
    let _call = TiffWriter::<W>::write_u16;
    let _call = TiffWriter::<W>::write_i16;
    let _call = TiffWriter::<W>::write_u32;
    let _call = TiffWriter::<W>::write_i32;
    let _call = TiffWriter::<W>::write_u64;
    let _call = TiffWriter::<W>::write_i64;
    let _call = TiffWriter::<W>::write_f32;
    let _call = TiffWriter::<W>::write_f64;
    let _call = TiffWriter::<W>::pad_word_boundary;
    let _call = TiffWriter::<W>::into_inner;
    let _call = write_tiff_header::<W>;
    let _call = write_bigtiff_header::<W>;
}

/// Names the calls.
pub fn name_calls<W: Sink, S: Sample, M: Compression, C: ColorType>() {
    name_values::<W, S>();
    name_methods::<W, M, C>();
    name_writers::<W>();
}

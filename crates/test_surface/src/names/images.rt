//! The calls of `tiff::encoder`: images.

use tiff::encoder::colortype::ColorType;
use tiff::encoder::{ImageEncoder, TiffEncoder, TiffKind};
use tiff::io::Sink;

// Images, and their samples.
fn name_images<W: Sink, K: TiffKind, C: ColorType>() {
    let _call = TiffEncoder::<W, K>::new_image::<C>;
    let _call = TiffEncoder::<W, K>::write_image::<C>;
    let _call = ImageEncoder::<W, C, K>::encoder;
    let _call = ImageEncoder::<W, C, K>::next_strip_sample_count;
    let _call = ImageEncoder::<W, C, K>::next_chunk_sample_count;
    let _call = ImageEncoder::<W, C, K>::write_chunk;
    let _call = ImageEncoder::<W, C, K>::write_strip;
    let _call = ImageEncoder::<W, C, K>::write_data;
    let _call = ImageEncoder::<W, C, K>::append_data::<u8>;
    let _call = ImageEncoder::<W, C, K>::set_parent;
    let _call = ImageEncoder::<W, C, K>::finish;
    let _call = ImageEncoder::<W, C, K>::discard;
}

// The settings of an image.
fn name_settings<W: Sink, K: TiffKind, C: ColorType>() {
    let _call = ImageEncoder::<W, C, K>::extra_samples;
    let _call = ImageEncoder::<W, C, K>::rows_per_strip;
    let _call = ImageEncoder::<W, C, K>::tiles;
    let _call = ImageEncoder::<W, C, K>::planar;
    let _call = ImageEncoder::<W, C, K>::resolution;
    let _call = ImageEncoder::<W, C, K>::x_resolution;
    let _call = ImageEncoder::<W, C, K>::y_resolution;
    let _call = ImageEncoder::<W, C, K>::resolution_unit;
}

/// Names the calls.
pub fn name_calls<W: Sink, K: TiffKind, C: ColorType>() {
    name_images::<W, K, C>();
    name_settings::<W, K, C>();
}

//! The uses of `tiff_uses`, run on tiny files.

use crate::library::told::Told;
use tiff_base::error::TiffResult;
use tiff_base::io::Source;
use tiff_decode::decoder::Decoder;
use tiff_uses::{
    first_image, geo_key, gray_file, image_of_chunks, page_chunk, page_sides, written_and_read,
};
use tiff_value::encoder::colortype::{Gray1, RGB16};

/// Adds the image of an open file, in a slice of nines.
pub fn add_chunks<R: Source>(told: &mut Told, decoder: &mut Decoder<R>) -> TiffResult<()> {
    let mut buffer = [9; 4];
    let answer = image_of_chunks(decoder, &mut buffer);
    told.line("image_of_chunks", (answer, buffer));
    Ok(())
}

/// Adds a key that the page of an open file has, and one that it hasn't.
pub fn add_keys<R: Source>(told: &mut Told, decoder: &mut Decoder<R>) -> TiffResult<()> {
    told.line("geo_key, 2048", geo_key(decoder, 2048));
    told.line("geo_key, 3072", geo_key(decoder, 3072));
    Ok(())
}

/// Adds what is read of a gray page, and pages that are written and read: of whole numbers, and of
/// packed pixels, two rows of nine, each in two bytes.
pub fn add_lines(told: &mut Told) -> TiffResult<()> {
    let alloc = told.alloc();
    let file = gray_file(alloc, 3, 1, &[5, 6, 7])?;
    told.line("page_sides", page_sides(alloc, file.clone()?));
    told.line("first_image", first_image(alloc, file.clone()?));
    told.line("page_chunk", page_chunk(alloc, file, 0, 0));
    let samples = [1, 2, 3, 65535, 256, 7];
    let read = written_and_read::<RGB16>(alloc, 2, 1, &samples);
    told.line("written_and_read, RGB16", read);
    let read = written_and_read::<Gray1>(alloc, 9, 2, &[0xAB, 0x80, 0x12, 0]);
    told.line("written_and_read, Gray1", read);
    Ok(())
}

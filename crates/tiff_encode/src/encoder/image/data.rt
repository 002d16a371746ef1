//! Writes the samples of a whole image.

ghost use Rattle.std.specs.Prelude.{◌≡◌, ◌+◌, ◌*◌, ◌^◌, ◌<◌, ◌≤◌, ◌++◌, length, map, slice_index, MatchResult, None, Some, true};
ghost use Rattle.tiff_base.specs.Types.{type_size};
ghost use Rattle.tiff_page.specs.Counts.{all_chunks};
ghost use Rattle.tiff_page.specs.Pixels.{numbers_in, tabulate, stored_samples};
ghost use Rattle.tiff_page.specs.Rect.{rect};
ghost use Rattle.tiff_value.specs.ColorType.{sample_number};
ghost use Rattle.tiff_encode.specs.Causes.{image_samples, write_image_data_cause};
ghost use Rattle.tiff_encode.specs.Chunks.{chunk_samples, image_page, is_in_order, is_left, next_chunk_sample_count, parts_left, row_samples};
ghost use Rattle.tiff_encode.specs.Chunks as chunks;
ghost use Rattle.tiff_encode.specs.Given.{given_numbers, AreStorable, IsPlain};
ghost use Rattle.tiff_encode.specs.ImageData.{WritesChunks, WritesImage, WritesImageData};
ghost use Rattle.tiff_encode.specs.Parts.{next_part, next_slice, pixel_sample, rect_of, row_sample, IsPatch, WritesPart};

use crate::encoder::TiffEncoder;
use crate::encoder::image::chunks::ImageSamples;
use crate::encoder::image::state::{ImageState, parts_of};
use crate::encoder::kind::TiffKind;
use crate::encoder::settings::Compression;
use std::alloc::Global;
use tiff_base::error::{TiffError, TiffResult};
use tiff_base::io::{IoKind, Sink};
use tiff_base::tags::PlanarConfiguration;
use tiff_value::encoder::colortype::ColorType;
use tiff_value::encoder::horizontal_predictor::Sample;
use tiff_value::encoder::tiff_value::TiffValue;

// Appends samples of value 0.
fn push_zeros<T: Sample>(count: u64, out: &mut Vec<T>) -> TiffResult<()>
    ensures { MatchResult result
        (λ _. map (sample_number (type_size T.value_type) T.bits) out.new.items ≡ map
        (sample_number (type_size T.value_type) T.bits) out.old.items ++ tabulate count (λ _. 0))
        (λ e. e ≡ TiffError.OutOfMemory) }
{
    for _ in 0..count {
        out.push(T::zero())?;
    }
    Ok(())
}

// Appends the sample of the plane `plane` of each of `count` pixels. A pixel has `samples` samples.
fn push_plane<T: Sample>(
    pixels: &[T],
    count: usize,
    samples: usize,
    plane: usize,
    out: &mut Vec<T>,
) -> TiffResult<()>
    requires one { plane < samples }
    requires whole { count * samples ≤ length pixels.now }
    ensures { MatchResult result
        (λ _. map (sample_number (type_size T.value_type) T.bits) out.new.items ≡ map
        (sample_number (type_size T.value_type) T.bits) out.old.items ++ tabulate count
        (λ column.
        slice_index (map (sample_number (type_size T.value_type) T.bits) pixels.now)
        (column * samples + plane)))
        (λ e. e ≡ TiffError.OutOfMemory) }
{
    for column in 0..count {
        out.push(pixels[column * samples + plane])?;
    }
    Ok(())
}

/// The part of the image that a chunk contains, as a rectangle in pixels, and the plane of the
/// chunk.
#[derive(Clone, Copy, Drop)]
pub struct ChunkArea {
    pub plane: u64,
    pub x: u64,
    pub y: u64,
    pub width: u64,
    pub height: u64,
}

impl<T: Sample> ImageState<T> {
    // Returns the part of the image that a chunk contains.
    #[tactic(auto, unfolding(tiff_page::specs::Rect::rect))]
    fn chunk_area(&self, chunk: u64) -> ChunkArea
        ensures { rect_of result ≡ rect (image_page self.now) chunk }
    {
        let (wide, high) = (
            u64::from(self.form.chunk_width),
            u64::from(self.form.chunk_height),
        );
        let across = parts_of(self.width, self.form.chunk_width);
        let of_plane = across * parts_of(self.height, self.form.chunk_height);
        let x = chunk % of_plane % across * wide;
        let y = chunk % of_plane / across * high;
        ChunkArea {
            plane: chunk / of_plane,
            x,
            y,
            width: wide.min(u64::from(self.width).saturating_sub(x)),
            height: high.min(u64::from(self.height).saturating_sub(y)),
        }
    }

    // Appends the samples of one row of a part of the image.
    fn push_pixels(
        &self,
        samples: &[T],
        chunk_area: ChunkArea,
        row: u64,
        out: &mut Vec<T>,
    ) -> TiffResult<()>
        requires part { IsPatch (image_page self.now) (rect_of chunk_area) }
        requires row { row < chunk_area.height }
        requires fits { image_samples self.now < 2 ^ 64 }
        requires whole { image_samples self.now ≤ length samples.now }
        ensures { MatchResult result
            (λ _. map (sample_number (type_size T.value_type) T.bits) out.new.items
            ≡ map (sample_number (type_size T.value_type) T.bits) out.old.items
            ++ tabulate (chunk_area.width * stored_samples (image_page self.now))
            (pixel_sample (image_page self.now)
            (map (sample_number (type_size T.value_type) T.bits) samples.now)
            (rect_of chunk_area) row))
            (λ e. e ≡ TiffError.OutOfMemory) }
    {
        let width = u64::from(self.width);
        let all = self.samples();
        let start = ((chunk_area.y + row) * width + chunk_area.x) * all;
        let end = start + chunk_area.width * all;
        let pixels = &samples[start as usize..end as usize];
        match self.form.planar {
            PlanarConfiguration::Planar => push_plane(
                pixels,
                chunk_area.width as usize,
                all as usize,
                chunk_area.plane as usize,
                out,
            ),
            _ => Ok(out.extend_from_slice(pixels)?),
        }
    }

    // Appends one row of a chunk: the samples of a part of the image, and zeros up to the width of
    // the chunk.
    fn push_row(
        &self,
        samples: &[T],
        chunk_area: ChunkArea,
        row: u64,
        out: &mut Vec<T>,
    ) -> TiffResult<()>
        requires part { IsPatch (image_page self.now) (rect_of chunk_area) }
        requires fits { image_samples self.now < 2 ^ 64 }
        requires whole { image_samples self.now ≤ length samples.now }
        ensures { MatchResult result
            (λ _. map (sample_number (type_size T.value_type) T.bits) out.new.items
            ≡ map (sample_number (type_size T.value_type) T.bits) out.old.items
            ++ tabulate (row_samples (image_page self.now))
            (row_sample (image_page self.now)
            (map (sample_number (type_size T.value_type) T.bits) samples.now)
            (rect_of chunk_area) row))
            (λ e. e ≡ TiffError.OutOfMemory) }
    {
        if row >= chunk_area.height {
            return push_zeros(self.row_samples(), out);
        }
        self.push_pixels(samples, chunk_area, row, out)?;
        let rest = self.row_samples() - chunk_area.width * self.stored_samples();
        push_zeros(rest, out)
    }

    // Returns the samples of a chunk out of all samples of the image, with zeros beyond the edges
    // of the image.
    fn cut_out(&self, alloc: Global, samples: &[T], chunk: u64) -> TiffResult<Vec<T>>
        requires one { chunk < all_chunks (image_page self.now) }
        requires fits { image_samples self.now < 2 ^ 64 }
        requires whole { image_samples self.now ≤ length samples.now }
        ensures { MatchResult result
            (λ v. map (sample_number (type_size T.value_type) T.bits) v.items
            ≡ chunks.cut_out (image_page self.now)
            (map (sample_number (type_size T.value_type) T.bits) samples.now) chunk)
            (λ e. e ≡ TiffError.OutOfMemory) }
    {
        let chunk_area = self.chunk_area(chunk);
        let rows = self.rows_of(chunk);
        let row = u64::from(self.form.chunk_width) * self.stored_samples();
        let Some(count) = rows.checked_mul(row) else {
            return Err(TiffError::OutOfMemory);
        };
        let mut out = Vec::with_capacity(alloc, count as usize)?;
        for at in 0..rows {
            self.push_row(samples, chunk_area, at, &mut out)?;
        }
        Ok(out)
    }

    // Returns where the samples of the next strip begin and end among samples in row order, after
    // `written` strips of them were written.
    fn next_range(&self, written: u64) -> (u64, u64)
        requires order { is_in_order self.now.form ≡ true }
        requires left { is_left self.now ≡ true }
        requires known { written ≤ length self.now.chunks }
        requires fits { image_samples self.now < 2 ^ 64 }
        ensures start { result.0 ≡ written
            * (self.now.form.chunk_height * row_samples (image_page self.now)) }
        ensures end { result.1 ≡ result.0 + chunk_samples (image_page self.now)
            (length self.now.chunks) }
        ensures count { next_chunk_sample_count self.now ≡ chunk_samples (image_page self.now)
            (length self.now.chunks) }
        ensures within { result.1 ≤ image_samples self.now }
    {
        let start = written * u64::from(self.form.chunk_height) * self.row_samples();
        (start, start + self.next_samples())
    }

    // Returns the samples of the next strip out of samples in row order, after `written` strips of
    // them were written.
    fn slice_out<'a>(&self, samples: &'a [T], written: u64) -> &'a [T]
        requires order { is_in_order self.now.form ≡ true }
        requires left { is_left self.now ≡ true }
        requires known { written ≤ length self.now.chunks }
        requires fits { image_samples self.now < 2 ^ 64 }
        requires whole { image_samples self.now ≤ length samples.now }
        ensures part { result.now ≡ next_slice self.now samples.now written }
        ensures count { length result.now ≡ next_chunk_sample_count self.now }
    {
        let (start, end) = self.next_range(written);
        &samples[start as usize..end as usize]
    }

    // Returns the bytes of the next strip out of the bytes of samples in row order, after `written`
    // strips of them were written.
    fn bytes_out<'a>(&self, bytes: &'a [u8], written: u64) -> &'a [u8]
        requires order { is_in_order self.now.form ≡ true }
        requires left { is_left self.now ≡ true }
        requires known { written ≤ length self.now.chunks }
        requires fits { image_samples self.now < 2 ^ 64 }
        requires whole { image_samples self.now * type_size T.value_type ≤ length bytes.now }
        ensures part { numbers_in (type_size T.value_type) result.now
            ≡ next_slice self.now (numbers_in (type_size T.value_type) bytes.now) written }
        ensures count { length result.now ≡ next_chunk_sample_count self.now
            * type_size T.value_type }
    {
        let (_kind, len) = T::type_and_len();
        let size = usize::from(len);
        let (start, end) = self.next_range(written);
        &bytes[start as usize * size..end as usize * size]
    }
}

impl<W: Sink, K: TiffKind> TiffEncoder<W, K> {
    // Writes the next chunk out of all samples, after `written` chunks of them were written.
    fn write_typed<T: Sample>(
        &mut self,
        image: &mut ImageState<T>,
        samples: &[T],
        written: u64,
    ) -> TiffResult<()>
        requires left { is_left image.old ≡ true }
        requires known { written ≤ length image.old.chunks }
        requires fits { image_samples image.old < 2 ^ 64 }
        requires whole { image_samples image.old ≤ length samples.now }
        ensures { WritesPart image.old
            (next_part image.old (map (sample_number (type_size T.value_type) T.bits)
            samples.now) written) result self.old self.new image.new }
    {
        if image.is_in_order() {
            let part = image.slice_out(samples, written);
            return self.put_chunk(image, part);
        }
        // One at a time, in the memory of one chunk.
        let part = image.cut_out(self.alloc, samples, image.chunks.len() as u64)?;
        if part.len() == usize::MAX {
            return Err(TiffError::OutOfMemory);
        }
        self.put_chunk(image, &part)
    }

    // Writes the next strip out of the bytes of all samples, after `written` strips of them were
    // written.
    fn write_stored<T: Sample>(
        &mut self,
        image: &mut ImageState<T>,
        bytes: &[u8],
        written: u64,
    ) -> TiffResult<()>
        requires plain { IsPlain image.old }
        requires left { is_left image.old ≡ true }
        requires known { written ≤ length image.old.chunks }
        requires fits { image_samples image.old < 2 ^ 64 }
        requires whole { image_samples image.old * type_size T.value_type ≤ length bytes.now }
        ensures { WritesPart image.old
            (next_part image.old (numbers_in (type_size T.value_type) bytes.now) written)
            result self.old self.new image.new }
    {
        let part = image.bytes_out(bytes, written);
        self.put_bytes(image, part)
    }

    // Writes the next chunk out of all samples, after `written` chunks of them were written. Bytes
    // that are stored as they are go to the sink directly.
    fn write_part<T: Sample>(
        &mut self,
        image: &mut ImageState<T>,
        samples: ImageSamples<'_, T>,
        written: u64,
    ) -> TiffResult<()>
        requires storable { AreStorable (type_size T.value_type) image.old samples }
        requires left { is_left image.old ≡ true }
        requires known { written ≤ length image.old.chunks }
        requires fits { image_samples image.old < 2 ^ 64 }
        requires whole { image_samples image.old ≤ length
            (given_numbers (type_size T.value_type) T.bits samples) }
        ensures { WritesPart image.old
            (next_part image.old
            (given_numbers (type_size T.value_type) T.bits samples.entry) written)
            result self.old self.new image.new }
    {
        match samples {
            ImageSamples::Typed(samples) => self.write_typed(image, samples, written),
            ImageSamples::Stored(bytes) => self.write_stored(image, bytes, written),
        }
    }

    // Writes the chunks that are left, one after another. After an error the chunks before the one
    // that failed are in the file.
    fn write_chunks_left<T: Sample>(
        &mut self,
        image: &mut ImageState<T>,
        samples: ImageSamples<'_, T>,
    ) -> TiffResult<()>
        requires storable { AreStorable (type_size T.value_type) image.old samples }
        requires uncaused { write_image_data_cause self.old image.old (length
            (given_numbers (type_size T.value_type) T.bits samples)) ≡ None }
        ensures { WritesChunks image.old (parts_left image.old
            (given_numbers (type_size T.value_type) T.bits samples.entry)) result
            self.old self.new image.new }
    {
        for written in 0..image.chunks_left() {
            self.write_part(image, samples, written)?;
        }
        Ok(())
    }

    // Makes room in the sink for the data of an image that isn't compressed, before its first
    // chunk.
    fn reserve_data<T: Sample>(&mut self, image: &ImageState<T>)
        ensures { self.new ≡ self.old }
    {
        let (_kind, len) = T::type_and_len();
        let Some(samples) = image.image_samples() else {
            return;
        };
        if matches!(image.compression, Compression::Uncompressed) && !image.is_begun() {
            self.reserve(samples.saturating_mul(u64::from(len)));
        }
    }

    // Returns the first error of `write_data` of an image that applies to this number of samples,
    // before a chunk is written.
    #[tactic(auto, unfolding(crate::specs::Causes::write_image_data_cause))]
    fn check_data<T: Sample>(&self, image: &ImageState<T>, count: usize) -> TiffResult<()>
        ensures { MatchResult result
            (λ _. write_image_data_cause self.now image.now count ≡ None)
            (λ e. write_image_data_cause self.now image.now count ≡ Some e) }
    {
        self.end()?;
        let Some(all) = image.image_samples() else {
            return Err(TiffError::IoError(IoKind::InvalidInput));
        };
        if image.is_begun() && !image.is_in_order() {
            return Err(TiffError::IoError(IoKind::InvalidInput));
        }
        if (count as u64) < all {
            return Err(TiffError::IoError(IoKind::InvalidData));
        }
        if image.is_past_chunks() {
            return Err(TiffError::IntSizeError);
        }
        Ok(())
    }

    // `write_data` of an image: writes the chunks that are left, and then ends the image. After an
    // error the image must not be used.
    pub(crate) fn write_image_data<T: Sample>(
        &mut self,
        image: &mut ImageState<T>,
        samples: ImageSamples<'_, T>,
    ) -> TiffResult<()>
        requires { AreStorable (type_size T.value_type) image.old samples }
        ensures { WritesImageData image.old
            (given_numbers (type_size T.value_type) T.bits samples.entry) result
            self.old self.new }
    {
        self.check_data(image, samples.count())?;
        self.reserve_data(image);
        self.write_chunks_left(image, samples)?;
        self.finish_image(image)?;
        Ok(())
    }

    // `write_image`: begins an image and writes all of it.
    pub(crate) fn write_new_image<C: ColorType>(
        &mut self,
        width: u32,
        height: u32,
        samples: &[C::Inner],
    ) -> TiffResult<()>
        ensures { WritesImage C.described (type_size C.Inner.value_type) width height
            (map (sample_number (type_size C.Inner.value_type) C.Inner.bits) samples.now) result
            self.old self.new }
    {
        let mut image = self.begin_image::<C>(width, height)?;
        self.write_image_data(&mut image, ImageSamples::Typed(samples))?;
        Ok(())
    }
}

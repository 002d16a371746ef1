//! Writes chunks: the samples that are given for one, the buffers that compress it, and its place in
//! the file.

ghost use Rattle.std.specs.Prelude.{◌≡◌, ◌-◌, ◌*◌, ◌%◌, ◌^◌, ◌<◌, ◌≤◌, length, map, IfSome, MatchResult, None, Some};
ghost use Rattle.tiff_base.specs.Types.{type_size};
ghost use Rattle.tiff_value.specs.ColorType.{sample_number};
ghost use Rattle.tiff_encode.specs.Causes.{end_of, write_chunk_cause, write_strip_cause};
ghost use Rattle.tiff_page.specs.Pixels.{numbers_in, stored_samples};
ghost use Rattle.tiff_encode.specs.Chunks.{image_page, next_chunk_sample_count, row_samples};
ghost use Rattle.tiff_encode.specs.Given.{given_count, given_numbers, IsChunkStorable, StoresBytes};
ghost use Rattle.tiff_encode.specs.Storing.{AppendsChunk, StoresChunk, WritesStoredChunk};
ghost use Rattle.tiff_encode.specs.Machine.{compression_method};
ghost use Rattle.tiff_encode.specs.Stored.{IsChunkStored};
ghost use Rattle.tiff_base.specs.SourceAndSink.{AreOctets};
ghost use Rattle.tiff_encode.specs.ImageData.{AreNumbers};
ghost use Rattle.tiff_value.specs.Packed.{ArePackedRows, IsPacked};
ghost use Rattle.tiff_value.specs.Predicted.{row_bytes};
ghost use Rattle.tiff_base.specs.declared.tags.CompressionMethod.TheVariants as method;
ghost use Rattle.tiff_encode.specs.Calls as calls;
ghost use Rattle.tiff_encode.specs.Stored as stored;

use crate::encoder::TiffEncoder;
use crate::encoder::image::state::{Chunk, ImageState};
use crate::encoder::kind::{TiffKind, is_past_offset};
use crate::encoder::settings::Compression;
use std::alloc::Global;
use std::mem;
use tiff_base::color::ChunkType;
use tiff_base::error::{TiffError, TiffResult, UsageError};
use tiff_base::io::{IoKind, Sink};
use tiff_base::tags::Predictor;
use tiff_value::encoder::chunk::{SampleRows, pack_chunk, pack_chunk_rows, push_chunk};
use tiff_value::encoder::horizontal_predictor::Sample;
use tiff_value::encoder::tiff_value::TiffValue;

// Each byte is a number below 256.
fn fact_octets(bytes: &[u8])
    ensures { AreOctets bytes.now }
{
    let _count = bytes.len();
}

/// The samples of an image or a chunk: in the number type of its color type, or as bytes that are
/// stored as they are.
#[derive(Clone, Copy, Drop)]
pub(crate) enum ImageSamples<'a, S> {
    Typed(&'a [S]),
    Stored(&'a [u8]),
}

impl<'a, S: Sample> ImageSamples<'a, S> {
    /// Returns the number of samples.
    #[tactic(auto, using(crate::specs::lemmas::NumbersIn::count_numbers))]
    pub(crate) fn count(self) -> usize
        ensures numbers { result ≡ length (given_numbers (type_size S.value_type) S.bits self.entry) }
        ensures count { result ≡ given_count (type_size S.value_type) self.entry }
    {
        match self {
            ImageSamples::Typed(samples) => samples.len(),
            ImageSamples::Stored(bytes) => {
                let (_kind, len) = S::type_and_len();
                bytes.len().div_ceil(usize::from(len))
            }
        }
    }

    /// Each sample fits its number of bytes. A caller calls this where its proof needs the fact.
    pub(crate) fn fact_numbers(self)
        ensures { AreNumbers (type_size S.value_type)
            (given_numbers (type_size S.value_type) S.bits self.entry) }
    {
        match self {
            ImageSamples::Typed(_samples) => {}
            ImageSamples::Stored(bytes) => fact_octets(bytes),
        }
    }
}

/// The bytes of a chunk, and its compressed bytes. Both lists keep their memory from one chunk to
/// the next.
#[derive(Drop)]
pub struct ChunkScratch {
    plain: Vec<u8>,
    pub(crate) packed: Vec<u8>,
}

impl ChunkScratch {
    /// Returns two empty lists. It allocates nothing.
    pub(crate) fn empty(alloc: Global) -> ChunkScratch {
        ChunkScratch {
            plain: Vec::new(alloc),
            packed: Vec::new(alloc),
        }
    }

    // Replaces the bytes by those of rows of samples.
    fn fill<T: Sample>(&mut self, rows: SampleRows<'_, T>) -> TiffResult<()>
        requires stride { (0 < rows.stride) × (rows.stride ≤ rows.row) }
        requires whole { length rows.samples.now % rows.row ≡ 0 }
        ensures { MatchResult result
            (λ _. self.new.plain.items ≡ row_bytes T.value_type T.bits rows.entry)
            (λ e. e ≡ TiffError.OutOfMemory) }
    {
        self.plain.clear();
        push_chunk(rows, &mut self.plain)
    }

    /// Compresses rows of samples. The only error is `OutOfMemory`.
    pub(crate) fn pack<T: Sample>(&mut self, rows: SampleRows<'_, T>) -> TiffResult<()>
        requires stride { (0 < rows.stride) × (rows.stride ≤ rows.row) }
        requires whole { length rows.samples.now % rows.row ≡ 0 }
        ensures { MatchResult result
            (λ _. IsPacked (row_bytes T.value_type T.bits rows.entry) self.new.packed.items)
            (λ e. e ≡ TiffError.OutOfMemory) }
    {
        self.fill(rows)?;
        pack_chunk(&self.plain, &mut self.packed)
    }

    /// `pack` that compresses each row by itself.
    pub(crate) fn pack_rows<T: Sample>(&mut self, rows: SampleRows<'_, T>) -> TiffResult<()>
        requires stride { (0 < rows.stride) × (rows.stride ≤ rows.row) }
        requires whole { length rows.samples.now % rows.row ≡ 0 }
        requires few { rows.row < 2 ^ 48 }
        ensures { MatchResult result
            (λ _. ArePackedRows (rows.entry.row * type_size T.value_type)
            (row_bytes T.value_type T.bits rows.entry)
            self.new.packed.items)
            (λ e. e ≡ TiffError.OutOfMemory) }
    {
        let (_kind, len) = T::type_and_len();
        let row_bytes = rows.row * usize::from(len);
        self.fill(rows)?;
        pack_chunk_rows(&self.plain, row_bytes, &mut self.packed)
    }
}

// Returns the number of bytes of `count` samples. The only error is `OutOfMemory`, if `count` is
// `usize::MAX` or the number of bytes exceeds it: no memory holds so many samples.
fn byte_count<T: Sample>(count: usize) -> TiffResult<usize>
    ensures { MatchResult result (λ n. (n ≡ count * type_size T.value_type)
        × (count < 2 ^ 64 - 1)) (λ e. e ≡ TiffError.OutOfMemory) }
{
    // `next_chunk_sample_count` says this of more, too, for which such a slice would pass.
    if count == usize::MAX {
        return Err(TiffError::OutOfMemory);
    }
    let (_kind, len) = T::type_and_len();
    match count.checked_mul(usize::from(len)) {
        Some(bytes) => Ok(bytes),
        None => Err(TiffError::OutOfMemory),
    }
}

impl<T: Sample> ImageState<T> {
    // Returns the samples of the next chunk as rows.
    fn sample_rows<'a>(&self, samples: &'a [T]) -> SampleRows<'a, T>
        requires next { length samples.now ≡ next_chunk_sample_count self.now }
        requires few { length samples.now < 2 ^ 64 - 1 }
        ensures bytes { row_bytes T.value_type T.bits result ≡ stored.unpacked_chunk self.now
            (map (sample_number (type_size T.value_type) T.bits) samples.now) }
        ensures len { length samples.now * type_size T.value_type ≡ length
            (stored.unpacked_chunk self.now
            (map (sample_number (type_size T.value_type) T.bits) samples.now)) }
        ensures whole { length result.samples.now % result.row ≡ 0 }
        ensures row { result.row ≡ row_samples (image_page self.now) }
        ensures short { result.row < 2 ^ 48 }
        ensures stride { (0 < result.stride) × (result.stride ≤ result.row) }
    {
        SampleRows {
            samples,
            predictor: self.predictor,
            row: self.row_samples() as usize,
            stride: self.stored_samples() as usize,
        }
    }

    // Compresses the samples of the next chunk. The only error is `OutOfMemory`, also if the number
    // of bytes exceeds `usize`: no memory holds so many samples.
    fn pack_samples(&self, samples: &[T], scratch: &mut ChunkScratch) -> TiffResult<()>
        requires next { length samples.now ≡ next_chunk_sample_count self.now }
        requires packed { compression_method self.now.compression ≡ method.PackBits }
        ensures { MatchResult result
            (λ _. IsChunkStored self.now scratch.new.packed.items
            (map (sample_number (type_size T.value_type) T.bits) samples.now))
            (λ e. e ≡ TiffError.OutOfMemory) }
    {
        byte_count::<T>(samples.len())?;
        let rows = self.sample_rows(samples);
        match self.compression {
            Compression::PackbitsRows => scratch.pack_rows(rows),
            _ => scratch.pack(rows),
        }
    }

    // Returns the bytes to store for the samples of the next chunk, without a copy. Returns `None`
    // unless the samples have 8 bits and are neither compressed nor stored as differences.
    fn lent_bytes<'a>(&self, samples: &'a [T]) -> Option<&'a [u8]>
        ensures { IfSome result (λ b. IsChunkStored self.now b.now
            (map (sample_number (type_size T.value_type) T.bits) samples.now)) }
    {
        match self.compression {
            Compression::Uncompressed => match self.predictor {
                Predictor::None => T::as_bytes(samples),
                _ => None,
            },
            Compression::Packbits | Compression::PackbitsRows => None,
        }
    }
}

impl<W: Sink, K: TiffKind> TiffEncoder<W, K> {
    // Checks whether a chunk of `count` samples, stored as `stored` bytes, can be written at the
    // end of the file. Returns the end of the file, or the first error of `write_chunk` that
    // applies.
    #[tactic(auto, unfolding(crate::specs::Causes::write_chunk_cause))]
    fn chunk_offset<T: Sample>(
        &self,
        image: &ImageState<T>,
        count: usize,
        stored: usize,
    ) -> TiffResult<u64>
        ensures { MatchResult result
            (λ end. (self.now.fault ≡ None) × (end ≡ end_of self.now)
            × (write_chunk_cause self.now image.now count stored ≡ None))
            (λ e. write_chunk_cause self.now image.now count stored ≡ Some e) }
    {
        let end = self.end()?;
        let kind = self.file_kind();
        if image.is_past_chunks() {
            return Err(TiffError::IntSizeError);
        }
        if !image.is_left() || count as u64 != image.next_samples() {
            return Err(TiffError::IoError(IoKind::InvalidData));
        }
        if is_past_offset(kind, end) || is_past_offset(kind, stored as u64) {
            return Err(TiffError::IntSizeError);
        }
        Ok(end)
    }

    /// Appends a chunk of `count` samples, which is stored as the bytes `stored`.
    pub(crate) fn append_chunk<T: Sample>(
        &mut self,
        image: &mut ImageState<T>,
        count: usize,
        stored: &[u8],
    ) -> TiffResult<()>
        ensures { AppendsChunk (calls.write_chunk image.old count stored.now self.old) image.old
            result self.old self.new image.new }
    {
        let offset = self.chunk_offset(image, count, stored.len())?;
        // Before a byte is written: what is in the file can then be listed without memory.
        let Ok(()) = image.chunks.reserve(1) else {
            return Err(TiffError::OutOfMemory);
        };
        self.append(stored)?;
        image.chunks.push_reserved(Chunk {
            offset,
            stored: stored.len() as u64,
        });
        Ok(())
    }

    // Appends the next chunk of an image that isn't compressed. It converts the samples to bytes
    // while it writes them to the sink.
    fn append_samples<T: Sample>(
        &mut self,
        image: &mut ImageState<T>,
        samples: &[T],
    ) -> TiffResult<()>
        requires { length samples.now ≡ next_chunk_sample_count image.old }
        ensures { AppendsChunk
            (calls.write_chunk image.old (length samples.now) (stored.unpacked_chunk image.old
            (map (sample_number (type_size T.value_type) T.bits) samples.now)) self.old)
            image.old result self.old self.new image.new }
    {
        let bytes = byte_count::<T>(samples.len())?;
        let rows = image.sample_rows(samples);
        let offset = self.chunk_offset(image, samples.len(), bytes)?;
        let Ok(()) = image.chunks.reserve(1) else {
            return Err(TiffError::OutOfMemory);
        };
        self.append_rows(rows)?;
        image.chunks.push_reserved(Chunk {
            offset,
            stored: bytes as u64,
        });
        Ok(())
    }

    // Appends the next chunk of an image that is compressed, with the given buffers.
    fn append_packed<T: Sample>(
        &mut self,
        image: &mut ImageState<T>,
        samples: &[T],
        scratch: &mut ChunkScratch,
    ) -> TiffResult<()>
        requires next { length samples.now ≡ next_chunk_sample_count image.old }
        requires packed { compression_method image.old.compression ≡ method.PackBits }
        ensures { StoresChunk calls.write_chunk image.old
            (map (sample_number (type_size T.value_type) T.bits)
            samples.now) result self.old self.new image.new }
    {
        image.pack_samples(samples, scratch)?;
        self.append_chunk(image, samples.len(), &scratch.packed)
    }

    // Appends the next chunk of an image that is compressed, with the image's own buffers. The
    // image has its buffers again after the call.
    fn put_packed<T: Sample>(&mut self, image: &mut ImageState<T>, samples: &[T]) -> TiffResult<()>
        requires next { length samples.now ≡ next_chunk_sample_count image.old }
        requires packed { compression_method image.old.compression ≡ method.PackBits }
        ensures { StoresChunk calls.write_chunk image.old
            (map (sample_number (type_size T.value_type) T.bits)
            samples.now) result self.old self.new image.new }
    {
        // Taken out, since `append_packed` borrows the image beside them.
        let mut scratch = mem::replace(&mut image.scratch, ChunkScratch::empty(self.alloc));
        let result = self.append_packed(image, samples, &mut scratch);
        image.scratch = scratch;
        result
    }

    /// Appends the next chunk. `samples` has as many samples as this chunk. If the image isn't
    /// compressed, no list of bytes is allocated: samples of 8 bits that are stored as they are go
    /// to the sink directly. If it is compressed, the buffers of the previous chunk are used again.
    pub(crate) fn put_chunk<T: Sample>(
        &mut self,
        image: &mut ImageState<T>,
        samples: &[T],
    ) -> TiffResult<()>
        requires { length samples.now ≡ next_chunk_sample_count image.old }
        ensures { StoresChunk calls.write_chunk image.old
            (map (sample_number (type_size T.value_type) T.bits)
            samples.now) result self.old self.new image.new }
    {
        if let Some(bytes) = image.lent_bytes(samples) {
            return self.append_chunk(image, samples.len(), bytes);
        }
        match image.compression {
            Compression::Uncompressed => self.append_samples(image, samples),
            Compression::Packbits | Compression::PackbitsRows => self.put_packed(image, samples),
        }
    }

    /// Appends the next chunk, whose samples are stored as these bytes.
    pub(crate) fn put_bytes<T: Sample>(
        &mut self,
        image: &mut ImageState<T>,
        bytes: &[u8],
    ) -> TiffResult<()>
        requires stores { StoresBytes image.old }
        requires whole { length bytes.now % type_size T.value_type ≡ 0 }
        ensures { StoresChunk calls.write_chunk image.old
            (numbers_in (type_size T.value_type) bytes.now) result self.old self.new image.new }
    {
        image.fact_type();
        let samples = ImageSamples::<T>::Stored(bytes);
        self.append_chunk(image, samples.count(), bytes)
    }

    // Appends the next chunk. Bytes that are stored as they are go to the sink directly.
    fn put_given<T: Sample>(
        &mut self,
        image: &mut ImageState<T>,
        samples: ImageSamples<'_, T>,
    ) -> TiffResult<()>
        requires storable { IsChunkStorable (type_size T.value_type) image.old samples }
        requires next { given_count (type_size T.value_type) samples
            ≡ next_chunk_sample_count image.old }
        ensures { StoresChunk calls.write_chunk image.old
            (given_numbers (type_size T.value_type) T.bits samples.entry) result self.old
            self.new image.new }
    {
        match samples {
            ImageSamples::Typed(samples) => self.put_chunk(image, samples),
            ImageSamples::Stored(bytes) => self.put_bytes(image, bytes),
        }
    }

    /// `write_chunk`. It returns the errors that don't depend on the compressed bytes before it
    /// compresses the samples.
    pub(crate) fn store_chunk<T: Sample>(
        &mut self,
        image: &mut ImageState<T>,
        samples: ImageSamples<'_, T>,
    ) -> TiffResult<()>
        requires { IsChunkStorable (type_size T.value_type) image.old samples }
        ensures { WritesStoredChunk calls.write_chunk
            (write_chunk_cause self.old image.old
            (given_count (type_size T.value_type) samples.entry) 0) image.old
            (given_numbers (type_size T.value_type) T.bits samples.entry) result
            self.old self.new image.new }
    {
        self.chunk_offset(image, samples.count(), 0)?;
        self.put_given(image, samples)
    }

    // `write_strip`. For an image of tiles it returns `UsageError(InvalidChunkType)`.
    pub(crate) fn store_strip<T: Sample>(
        &mut self,
        image: &mut ImageState<T>,
        samples: &[T],
    ) -> TiffResult<()>
        ensures { WritesStoredChunk calls.write_strip
            (write_strip_cause self.old image.old (length samples.now) 0) image.old
            (map (sample_number (type_size T.value_type) T.bits) samples.now) result
            self.old self.new image.new }
    {
        self.end()?;
        if let ChunkType::Tile = image.form.chunk_type {
            return Err(TiffError::UsageError(UsageError::InvalidChunkType(
                ChunkType::Strip,
                ChunkType::Tile,
            )));
        }
        self.store_chunk(image, ImageSamples::Typed(samples))
    }
}

//! Writes images.

ghost use Rattle.std.specs.Prelude.{◌≡◌, ℕ, ◌^◌, ◌<◌, List, length, map, IfOk, Ok, Some, false};
ghost use Rattle.tiff_base.specs.Types.{type_size};
ghost use Rattle.tiff_value.specs.ColorType.{sample_number};
ghost use Rattle.tiff_encode.specs.Calls as calls;
ghost use Rattle.tiff_encode.specs.Causes.{end_of, write_chunk_cause, write_strip_cause};
ghost use Rattle.tiff_encode.specs.Chunks as chunks;
ghost use Rattle.tiff_encode.specs.Ends.{EndsSilently, EndsAsDefined};
ghost use Rattle.tiff_encode.specs.Given.{given_count, given_numbers, AreStorable, IsChunkStorable};
ghost use Rattle.tiff_encode.specs.ImageData.{LeavesChunk, LeavesData, LeavesNewImage, ShowsFinished, WritesImage, WritesImageData};
ghost use Rattle.tiff_encode.specs.Leaves.{LeavesLinked};
ghost use Rattle.tiff_value.specs.Model.{IsLink, Model, FileContains};
ghost use Rattle.tiff_encode.specs.Open.{RecordsImage, model_by};
ghost use Rattle.tiff_encode.specs.Storing.{WritesStoredChunk};

use crate::encoder::TiffEncoder;
use crate::encoder::directory::encoder::DirectoryEncoder;
use crate::encoder::image::chunks::ImageSamples;
use crate::encoder::image::state::ImageState;
use crate::encoder::kind::{TiffKind, TiffKindStandard};
use tiff_base::error::TiffResult;
use tiff_base::io::Sink;
use tiff_value::encoder::colortype::ColorType;
use tiff_value::encoder::horizontal_predictor::Sample;
use tiff_value::encoder::tiff_value::TiffScalar;

/// An open image in the file of an encoder, with its directory. It has the calls of the directory
/// too. It ends by `write_data`, `finish` or `discard`: the checker rejects code that ends it in
/// another way. After a write to the sink fails, each later call that writes returns
/// `UsageError(WriterFailed)`. After any other refusal of a call, the file and the open image are
/// as they were before the call.
pub type ImageEncoder<'a, W, C, K = TiffKindStandard> = DirectoryEncoder<
    'a,
    W,
    K,
    ImageState<<C as ColorType>::Inner>,
>;

impl<W: Sink, K: TiffKind> TiffEncoder<W, K> {
    ghost use Rattle.std.specs.Borrow.{sem};
    ghost use Rattle.tiff_encode.specs.Lending.{new_image_rests};

    /// Begins an image of a color type, `width` pixels wide and `height` rows high. A sample of
    /// packed pixels (`Gray1`, `Gray2`, `Gray4`) is a byte of them, and a row has as many bytes as
    /// its pixels fill. The call appends padding up to a multiple of 4 bytes, and writes the first
    /// tags of the image, with a resolution of 1/1. The chunks are strips of as many rows as make a
    /// million bytes, or of one row if they are compressed. Returns the first error that applies:
    /// `UsageError(WriterFailed)` if an earlier write to the sink failed;
    /// `FormatError(InvalidDimensions)` if the width or the height is 0;
    /// `UsageError(PredictorIncompatible)` for differences of floating point samples or of packed
    /// pixels; `UsageError(PredictorUnavailable)` for `Predictor::FloatingPoint`; `IntSizeError` if
    /// in a classic file the offset of a resolution exceeds 4 bytes. Otherwise `OutOfMemory` if an
    /// allocation fails, or the error of the sink, `IoError(Device)` or `OutOfMemory`.
    pub fn new_image<C: ColorType>(
        &mut self,
        width: u32,
        height: u32,
    ) -> TiffResult<ImageEncoder<'_, W, C, K>>
        ensures* rests { sem 𝓛 (new_image_rests W.row K.row K.OffsetType.row W.Sink K.TiffKind
            K.OffsetType.OffsetNumber K.OffsetType.TiffValue C.described
            (type_size C.Inner.value_type) width height self.entry result) }
        ensures same_reference { IfOk result (λ i. i.encoder.ghost_name ≡ self.entry.ghost_name) }
        ensures begun { IfOk result
            (λ i. EndsAsDefined
            (calls.new_image C.described (type_size C.Inner.value_type) width height
            self.entry.now) (Ok i.state) i.encoder.now) }

        // Everything that the file contained before the call is still in it. If the call fails,
        // `rests` states this.
        ensures leaves { (m : Model) → FileContains self.entry.now.kind self.entry.now.bytes m
            → IfOk result
            (λ i. FileContains self.entry.now.kind i.encoder.now.bytes
            (model_by self.entry.now m
            (calls.new_image C.described (type_size C.Inner.value_type) width height
            self.entry.now))) }
    {
        let image = self.begin_image::<C>(width, height)?;
        self.fact_fits();
        Ok(DirectoryEncoder {
            encoder: self,
            state: image,
        })
    }

    /// Writes a whole image of a color type: `new_image`, and then `write_data` of its samples, row
    /// by row and pixel by pixel, which ends the image. It ignores samples after the last one of
    /// the image. Errors: those of `new_image`, then those of `write_data`. After an error the
    /// bytes that the call appended stay in the file, unused, and the next image can begin.
    pub fn write_image<C: ColorType>(
        &mut self,
        width: u32,
        height: u32,
        samples: &[C::Inner],
    ) -> TiffResult<()>
        ensures answer { WritesImage C.described (type_size C.Inner.value_type) width height
            (map (sample_number (type_size C.Inner.value_type) C.Inner.bits) samples.now) result
            self.old self.new }

        // Everything that the file contained before the call is still in it, and the page shows the
        // samples. If the write of the last link of the IFD chain failed partway, everything except
        // that link is still in the file.
        ensures leaves { (m : Model) → FileContains self.old.kind self.old.bytes m
            → IsLink self.old.kind m self.old.chain
            → LeavesNewImage C.described (type_size C.Inner.value_type) width height
            (map (sample_number (type_size C.Inner.value_type) C.Inner.bits) samples.now) result
            self.old self.new m }
    {
        let _compression = &self.compression;
        let answer = self.write_new_image::<C>(width, height, samples);
        self.fact_short();
        answer
    }
}

impl<'a, W: Sink, K: TiffKind, T: Sample> DirectoryEncoder<'a, W, K, ImageState<T>> {
    /// Returns the image itself, which has the calls of its directory.
    pub fn encoder(&mut self) -> &mut Self
        ensures same { result.ghost_name ≡ self.entry.ghost_name }
        ensures value { result.now ≡ self.old }
    {
        self
    }

    /// Returns the number of samples of the next strip, at most `u64::MAX`; 0 after the last strip
    /// and for an image of tiles.
    pub fn next_strip_sample_count(&self) -> u64
        ensures { result ≡ chunks.next_strip_sample_count self.now.state }
    {
        self.state.next_strip_samples()
    }

    /// Returns the number of samples of the next strip or tile, at most `u64::MAX`; 0 after the
    /// last one. The last strip of a plane can have fewer rows; a tile is always whole. A chunk of
    /// one plane has one sample per pixel.
    pub fn next_chunk_sample_count(&self) -> u64
        ensures { result ≡ chunks.next_chunk_sample_count self.now.state }
    {
        self.state.next_samples()
    }

    /// Writes the next strip or tile, in the order of their numbers, one plane after another. The
    /// samples are in the order of rows, and in a row in the order of pixels. For a tile they
    /// include its padding, which the call writes as it is. Returns the first error that applies:
    /// `UsageError(WriterFailed)` if an earlier write to the sink failed; `IntSizeError` if the
    /// image has more chunks than 4 bytes can count; `IoError(InvalidData)` if the number of
    /// samples isn't `next_chunk_sample_count`, or no chunk is left; `IntSizeError` if in a classic
    /// file the offset or the number of bytes of the chunk exceeds 4 bytes. Otherwise `OutOfMemory`
    /// if an allocation fails, or the error of the sink, `IoError(Device)` or `OutOfMemory`. After
    /// an error this chunk is still the next one.
    pub fn write_chunk(&mut self, samples: &[T]) -> TiffResult<()>
        ensures same_reference { self.new.encoder.ghost_name ≡ self.old.encoder.ghost_name }
        ensures answer { WritesStoredChunk calls.write_chunk
            (write_chunk_cause self.old.encoder.now self.old.state
            (length samples.now) 0) self.old.state
            (map (sample_number (type_size T.value_type) T.bits) samples.now)
            result self.old.encoder.now self.new.encoder.now self.new.state }

        // Everything that the file contained before the call is still in it.
        ensures leaves { (m : Model) → FileContains self.old.encoder.now.kind self.old.encoder.now.bytes m
            → LeavesChunk calls.write_chunk self.old.state
            (map (sample_number (type_size T.value_type) T.bits) samples.now) result
            self.old.encoder.now self.new.encoder.now self.new.state m }
    {
        self.write_given_chunk(ImageSamples::Typed(samples))
    }

    /// `write_chunk` of samples in the number type of the color type, or of bytes that are stored
    /// as they are.
    pub(crate) fn write_given_chunk(&mut self, samples: ImageSamples<'_, T>) -> TiffResult<()>
        requires { IsChunkStorable (type_size T.value_type) self.old.state samples }
        ensures same_reference { self.new.encoder.ghost_name ≡ self.old.encoder.ghost_name }
        ensures answer { WritesStoredChunk calls.write_chunk
            (write_chunk_cause self.old.encoder.now self.old.state
            (given_count (type_size T.value_type) samples.entry) 0) self.old.state
            (given_numbers (type_size T.value_type) T.bits samples.entry)
            result self.old.encoder.now self.new.encoder.now self.new.state }

        // What `write_chunk` leaves in the file.
        ensures leaves { (m : Model) → FileContains self.old.encoder.now.kind self.old.encoder.now.bytes m
            → LeavesChunk calls.write_chunk self.old.state
            (given_numbers (type_size T.value_type) T.bits samples.entry) result
            self.old.encoder.now self.new.encoder.now self.new.state m }
    {
        self.state.fact_fits();
        let done = self.encoder.store_chunk(&mut self.state, samples);
        self.encoder.fact_short();
        done
    }

    /// Writes the next strip, as `write_chunk` does. Errors: those of `write_chunk`, and for an
    /// image of tiles `UsageError(InvalidChunkType(Strip, Tile))`, which comes after
    /// `UsageError(WriterFailed)` and before all others.
    pub fn write_strip(&mut self, samples: &[T]) -> TiffResult<()>
        ensures same_reference { self.new.encoder.ghost_name ≡ self.old.encoder.ghost_name }
        ensures answer { WritesStoredChunk calls.write_strip
            (write_strip_cause self.old.encoder.now self.old.state
            (length samples.now) 0) self.old.state
            (map (sample_number (type_size T.value_type) T.bits) samples.now)
            result self.old.encoder.now self.new.encoder.now self.new.state }

        // Everything that the file contained before the call is still in it.
        ensures leaves { (m : Model) → FileContains self.old.encoder.now.kind self.old.encoder.now.bytes m
            → LeavesChunk calls.write_strip self.old.state
            (map (sample_number (type_size T.value_type) T.bits) samples.now) result
            self.old.encoder.now self.new.encoder.now self.new.state m }
    {
        self.state.fact_fits();
        let done = self.encoder.store_strip(&mut self.state, samples);
        self.encoder.fact_short();
        done
    }

    /// Ends the image: writes the bits and the formats of its samples, and the offsets and byte
    /// counts of the chunks that are in the file, and then ends its directory. Returns the first
    /// error that applies: `UsageError(WriterFailed)` if an earlier write to the sink failed; then,
    /// for these tags one by one and after them for the directory, `IntSizeError` if a count or an
    /// offset exceeds what the kind of file can hold; `UsageError(ParentNotWritten)` if the
    /// parent's link isn't within the file. Otherwise `OutOfMemory` if an allocation fails, or the
    /// error of the sink, `IoError(Device)` or `OutOfMemory`. After an error the image has no
    /// directory, and the next image can begin.
    pub fn finish(self) -> TiffResult<()>
        ensures answer { EndsSilently (calls.finish_image self.entry.state self.entry.encoder.now) result
            self.entry.encoder.now
            self.exit.0.now }

        // Everything that the file contained before the call is still in it, except the parent's
        // link if the write of that link failed partway.
        ensures leaves { (m : Model)
            → FileContains self.entry.encoder.now.kind self.entry.encoder.now.bytes m
            → ((offset : ℕ) → self.entry.state.directory.parent ≡ Some offset
            → IsLink self.entry.encoder.now.kind m offset)
            → LeavesLinked (calls.finish_image self.entry.state self.entry.encoder.now) result
            self.entry.encoder.now self.exit.0.now m }

        // If all chunks of the image are in the file, the page shows the samples of the image.
        ensures shows { (m : Model) (samples : List (List ℕ))
            → FileContains self.entry.encoder.now.kind self.entry.encoder.now.bytes m
            → ((offset : ℕ) → self.entry.state.directory.parent ≡ Some offset
            → IsLink self.entry.encoder.now.kind m offset)
            → RecordsImage self.entry.encoder.now.kind m self.entry.state samples
            → chunks.is_left self.entry.state ≡ false
            → ShowsFinished self.entry.state samples result self.entry.encoder.now self.exit.0.now }

        // The file is shorter than 2^64 bytes.
        ensures short { end_of self.exit.0.now < 2 ^ 64 }
    {
        let DirectoryEncoder { encoder, mut state } = self;
        state.fact_fits();
        encoder.fact_fits();
        let done = encoder.finish_image(&mut state);
        encoder.fact_short();
        match done {
            Ok(_) => return Ok(()),
            Err(fault) => return Err(fault),
        }
    }

    /// Ends the image as `finish` does, with the chunks that are in the file, as the Rust crate
    /// does when it drops one. Errors: those of `finish`.
    pub fn discard(self) -> TiffResult<()>
        ensures answer { EndsSilently (calls.finish_image self.entry.state self.entry.encoder.now) result
            self.entry.encoder.now
            self.exit.0.now }

        // Everything that the file contained before the call is still in it, except the parent's
        // link if the write of that link failed partway.
        ensures leaves { (m : Model)
            → FileContains self.entry.encoder.now.kind self.entry.encoder.now.bytes m
            → ((offset : ℕ) → self.entry.state.directory.parent ≡ Some offset
            → IsLink self.entry.encoder.now.kind m offset)
            → LeavesLinked (calls.finish_image self.entry.state self.entry.encoder.now) result
            self.entry.encoder.now self.exit.0.now m }

        // If all chunks of the image are in the file, the page shows the samples of the image.
        ensures shows { (m : Model) (samples : List (List ℕ))
            → FileContains self.entry.encoder.now.kind self.entry.encoder.now.bytes m
            → ((offset : ℕ) → self.entry.state.directory.parent ≡ Some offset
            → IsLink self.entry.encoder.now.kind m offset)
            → RecordsImage self.entry.encoder.now.kind m self.entry.state samples
            → chunks.is_left self.entry.state ≡ false
            → ShowsFinished self.entry.state samples result self.entry.encoder.now self.exit.0.now }

        // The file is shorter than 2^64 bytes.
        ensures short { end_of self.exit.0.now < 2 ^ 64 }
    {
        self.finish()
    }

    /// Writes all samples of the image, row by row and pixel by pixel, and ends it as `finish`
    /// does. If strips are in the file already, the first of `samples` is the one after theirs;
    /// `samples` must still be as many as the whole image has. Tiles and planes are cut out of the
    /// image, with zeros beyond its edges. The call ignores samples after the last one that it
    /// needs. Returns the first error that applies: `UsageError(WriterFailed)` if an earlier write
    /// to the sink failed; `IoError(InvalidInput)` if the image has 2^64 samples or more, or if it
    /// has tiles or planes and one of them is in the file already; `IoError(InvalidData)` if there
    /// are fewer samples than the image has; `IntSizeError` if the image has more chunks than 4
    /// bytes can count. Then, chunk by chunk, the errors of `write_chunk`, and after them those of
    /// `finish`. After an error the image has no directory, the bytes that the call appended stay
    /// in the file, unused, and the next image can begin.
    pub fn write_data(self, samples: &[T]) -> TiffResult<()>
        ensures answer { WritesImageData self.entry.state
            (map (sample_number (type_size T.value_type) T.bits)
            samples.now) result self.entry.encoder.now self.exit.0.now }

        // Everything that the file contained before the call is still in it, and the page shows the
        // samples, except the parent's link if the write of that link failed partway.
        ensures leaves { (m : Model)
            → FileContains self.entry.encoder.now.kind self.entry.encoder.now.bytes m
            → ((offset : ℕ) → self.entry.state.directory.parent ≡ Some offset
            → IsLink self.entry.encoder.now.kind m offset)
            → LeavesData self.entry.state
            (map (sample_number (type_size T.value_type) T.bits) samples.now) result
            self.entry.encoder.now self.exit.0.now m }

        // The file is shorter than 2^64 bytes.
        ensures short { end_of self.exit.0.now < 2 ^ 64 }
    {
        self.write_given(ImageSamples::Typed(samples))
    }

    /// `write_data` of samples in the number type of the color type, or of bytes that are stored as
    /// they are.
    pub(crate) fn write_given(self, samples: ImageSamples<'_, T>) -> TiffResult<()>
        requires { AreStorable (type_size T.value_type) self.state samples }
        ensures answer { WritesImageData self.entry.state
            (given_numbers (type_size T.value_type) T.bits samples.entry) result
            self.entry.encoder.now self.exit.0.now }

        // What `write_data` leaves in the file.
        ensures leaves { (m : Model)
            → FileContains self.entry.encoder.now.kind self.entry.encoder.now.bytes m
            → ((offset : ℕ) → self.entry.state.directory.parent ≡ Some offset
            → IsLink self.entry.encoder.now.kind m offset)
            → LeavesData self.entry.state
            (given_numbers (type_size T.value_type) T.bits samples.entry) result
            self.entry.encoder.now self.exit.0.now m }

        // The file is shorter than 2^64 bytes.
        ensures short { end_of self.exit.0.now < 2 ^ 64 }
    {
        let DirectoryEncoder { encoder, mut state } = self;
        state.fact_fits();
        state.fact_type();
        samples.fact_numbers();
        let done = encoder.write_image_data(&mut state, samples);
        encoder.fact_short();
        done
    }
}

//! Reads pixels of the page: whole images, chunks, and coding units.

ghost use Rattle.std.specs.Prelude.{length};
ghost use Rattle.tiff_base.specs.Answers.{ReadsOnly};
ghost use Rattle.tiff_page.specs.PixelCalls.{planes_used, planes_within};
ghost use Rattle.tiff_page.specs.Reach.{ChunksReadable, ImageReadable};
ghost use Rattle.tiff_decode.specs.Machine.{Follows, source_of};
ghost use Rattle.tiff_page.specs.EarlyFaults.{AllocatesAfter, chunk_bytes_early, chunk_early, image_bytes_early, image_early, planes_early, strided_early, unit_bytes_early};
ghost use Rattle.tiff_decode.specs.Outcome as outcome;
ghost use Rattle.tiff_decode.specs.Result.{decoded_as};

use crate::decoder::Decoder;
use crate::result::DecodingResult;
use tiff_base::error::TiffResult;
use tiff_base::io::Source;
use tiff_page::layout::{BufferLayoutPreference, TiffCodingUnit};
use tiff_page::page_reader::PageReader;

/// These calls leave the decoder unchanged, also after an error. Each call returns the first of
/// these errors: those of the layout, as `image_buffer_layout` and `image_chunk_buffer_layout` list
/// them; those that the call lists; those of the chunks that it reads, in the order of the chunks,
/// and within a chunk in the order of the planes. The errors of a chunk are:
/// `InconsistentSizesEncountered` where the page lists no data for it; an `UnsupportedError` for a
/// depth, predictor, compression method or inversion that the library does not read;
/// `LimitsExceeded` for more bytes in the file than `intermediate_buffer_size`;
/// `IoError(UnexpectedEof)` for too few data. Bytes of samples are little-endian, in rows of whole
/// bytes. A call allocates memory only for an error that contains a list, or after the checks of
/// the layout, of the call and of the form of the first chunk. A call that returns a list allocates
/// it only after it checks the limit of the list, and finds in the source the last byte that the
/// first chunk needs at least.
impl<R: Source> Decoder<R> {
    /// Reads the samples of the page's image, row by row; on a planar page those of the first
    /// plane. Returns `UnsupportedSampleDepth` or `UnsupportedSampleFormat` for samples of no
    /// number type, and `LimitsExceeded` for more samples than `decoding_buffer_size` bytes hold.
    #[tactic(auto, unfolding(crate::specs::Outcome::read_image))]
    pub fn read_image(&mut self) -> TiffResult<DecodingResult>
        ensures follows { Follows decoded_as (outcome.read_image self.old) result self.old self.new }
        ensures memory { AllocatesAfter (image_early self.old.bytes self.old.state.page self.old.state.limits)
            result }
        ensures asked { ReadsOnly (ImageReadable (source_of self.old) self.old.state.page (λ l. 1)) result }
    {
        let reader = PageReader {
            alloc: self.alloc,
            order: self.tags.order,
            page: &self.page,
            limits: &self.tags.limits,
        };
        let samples = reader.read_image(&mut self.tags.source)?;
        Ok(DecodingResult::of(samples))
    }

    /// Reads the samples of the image into `samples`, with its planes one after another. Where the
    /// bytes of all planes exceed `decoding_buffer_size`, reads only those of the first plane. The
    /// returned layout is that of all planes. Returns `UnsupportedSampleDepth` or
    /// `UnsupportedSampleFormat` for samples of no number type, and `LimitsExceeded` for more
    /// samples than `decoding_buffer_size` bytes hold. After an error the contents of `samples` are
    /// unspecified.
    #[tactic(auto, unfolding(crate::specs::Outcome::read_image_to_buffer))]
    pub fn read_image_to_buffer(
        &mut self,
        samples: &mut DecodingResult,
    ) -> TiffResult<BufferLayoutPreference>
        ensures follows { Follows (λ layout. (layout, decoded_as samples.new))
            (outcome.read_image_to_buffer self.old) result self.old self.new }
        ensures memory { AllocatesAfter (planes_early self.old.bytes self.old.state.page self.old.state.limits)
            result }
        ensures asked { ReadsOnly
            (ImageReadable (source_of self.old) self.old.state.page
            (λ l. planes_within self.old.state.page self.old.state.limits l)) result }
    {
        let reader = PageReader {
            alloc: self.alloc,
            order: self.tags.order,
            page: &self.page,
            limits: &self.tags.limits,
        };
        let (layout, read) = reader.read_image_to_buffer(&mut self.tags.source)?;
        *samples = DecodingResult::of(read);
        Ok(layout)
    }

    /// Reads the image into a slice, as many whole planes as fit. The other bytes of the slice stay
    /// the same. Returns `InsufficientOutputBufferSize { needed, provided }` for a slice shorter
    /// than one plane. After an error the contents of the slice are unspecified.
    #[tactic(auto, unfolding(crate::specs::Outcome::read_image_bytes))]
    pub fn read_image_bytes(&mut self, buffer: &mut [u8]) -> TiffResult<()>
        ensures follows { Follows (λ _. buffer.new) (outcome.read_image_bytes self.old buffer.old) result
            self.old self.new }
        ensures memory { AllocatesAfter
            (image_bytes_early self.old.state.page self.old.state.limits (length buffer.old)) result }
        ensures asked { ReadsOnly
            (ImageReadable (source_of self.old) self.old.state.page
            (λ l. planes_used self.old.state.page l (length buffer.old))) result }
    {
        let reader = PageReader {
            alloc: self.alloc,
            order: self.tags.order,
            page: &self.page,
            limits: &self.tags.limits,
        };
        reader.read_image_bytes(&mut self.tags.source, buffer)
    }

    /// Reads the samples of a chunk in one plane, cropped to the image, row by row. Returns
    /// `UnsupportedSampleDepth` or `UnsupportedSampleFormat` for samples of no number type, and
    /// `LimitsExceeded` for more samples than `decoding_buffer_size` bytes hold.
    #[tactic(auto, unfolding(crate::specs::Outcome::read_chunk))]
    pub fn read_chunk(&mut self, chunk_index: u32) -> TiffResult<DecodingResult>
        ensures follows { Follows decoded_as (outcome.read_chunk self.old chunk_index) result self.old self.new }
        ensures memory { AllocatesAfter
            (chunk_early self.old.bytes self.old.state.page self.old.state.limits chunk_index)
            result }
        ensures asked { ReadsOnly
            (ChunksReadable (source_of self.old) self.old.state.page chunk_index (λ l. 1)) result }
    {
        let reader = PageReader {
            alloc: self.alloc,
            order: self.tags.order,
            page: &self.page,
            limits: &self.tags.limits,
        };
        let samples = reader.read_chunk(&mut self.tags.source, chunk_index)?;
        Ok(DecodingResult::of(samples))
    }

    /// Reads a chunk, cropped to the image, into a slice. The other bytes of the slice stay the
    /// same. Returns `InsufficientOutputBufferSize { needed, provided }` for a slice shorter than
    /// the chunk. After an error the contents of the slice are unspecified.
    #[tactic(auto, unfolding(crate::specs::Outcome::read_chunk_bytes))]
    pub fn read_chunk_bytes(&mut self, chunk_index: u32, buffer: &mut [u8]) -> TiffResult<()>
        ensures follows { Follows (λ _. buffer.new) (outcome.read_chunk_bytes self.old chunk_index buffer.old)
            result self.old self.new }
        ensures memory { AllocatesAfter (chunk_bytes_early self.old.state.page self.old.state.limits chunk_index
            (length buffer.old)) result }
        ensures asked { ReadsOnly
            (ChunksReadable (source_of self.old) self.old.state.page chunk_index (λ l. 1)) result }
    {
        let reader = PageReader {
            alloc: self.alloc,
            order: self.tags.order,
            page: &self.page,
            limits: &self.tags.limits,
        };
        reader.read_chunk_bytes(&mut self.tags.source, chunk_index, buffer)
    }

    /// Reads the samples of a chunk into `buffer`, with rows `output_width` bytes apart and zeros
    /// between them. Returns `InsufficientOutputRowStride { needed, requested }` for longer rows,
    /// `LimitsExceeded` where `output_width` bytes for each stored row of a chunk are 2^64 or more,
    /// `UnsupportedSampleDepth` or `UnsupportedSampleFormat` for samples of no number type, and
    /// `LimitsExceeded` for more samples than `decoding_buffer_size` bytes hold. After an error the
    /// contents of `buffer` are unspecified.
    #[tactic(auto, unfolding(crate::specs::Outcome::read_chunk_to_buffer))]
    pub fn read_chunk_to_buffer(
        &mut self,
        buffer: &mut DecodingResult,
        chunk_index: u32,
        output_width: usize,
    ) -> TiffResult<()>
        ensures follows { Follows (λ _. decoded_as buffer.new)
            (outcome.read_chunk_to_buffer self.old chunk_index output_width)
            result self.old self.new }
        ensures memory { AllocatesAfter
            (strided_early self.old.bytes self.old.state.page self.old.state.limits chunk_index
            output_width) result }
        ensures asked { ReadsOnly
            (ChunksReadable (source_of self.old) self.old.state.page chunk_index (λ l. 1)) result }
    {
        let reader = PageReader {
            alloc: self.alloc,
            order: self.tags.order,
            page: &self.page,
            limits: &self.tags.limits,
        };
        let read = reader.read_chunk_to_buffer(&mut self.tags.source, chunk_index, output_width)?;
        *buffer = DecodingResult::of(read);
        Ok(())
    }

    /// Reads the chunk of each plane of a coding unit into a slice, one after another, as many
    /// whole chunks as fit. The other bytes of the slice stay the same. Returns
    /// `InvalidCodingUnit(unit, chunks)` for a unit that is not below the number of chunks of a
    /// plane, and `InsufficientOutputBufferSize { needed, provided }` for a slice shorter than the
    /// chunk of one plane. After an error the contents of the slice are unspecified.
    #[tactic(auto, unfolding(crate::specs::Outcome::read_coding_unit_bytes))]
    pub fn read_coding_unit_bytes(
        &mut self,
        slice: TiffCodingUnit,
        buffer: &mut [u8],
    ) -> TiffResult<()>
        ensures follows { Follows (λ _. buffer.new) (outcome.read_coding_unit_bytes self.old slice.0 buffer.old)
            result self.old self.new }
        ensures memory { AllocatesAfter
            (unit_bytes_early self.old.state.page self.old.state.limits slice.0 (length buffer.old))
            result }
        ensures asked { ReadsOnly
            (ChunksReadable (source_of self.old) self.old.state.page slice.0
            (λ l. planes_used self.old.state.page l (length buffer.old))) result }
    {
        let reader = PageReader {
            alloc: self.alloc,
            order: self.tags.order,
            page: &self.page,
            limits: &self.tags.limits,
        };
        reader.read_coding_unit_bytes(&mut self.tags.source, slice.0, buffer)
    }
}

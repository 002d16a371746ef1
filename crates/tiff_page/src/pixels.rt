//! Reads pixels: whole images, chunks, and coding units.
//!
//! Each call returns the first error in this order: the errors of the layout of what it reads, in
//! all planes, as `buffers::image_buffer_layout` does; the errors of the call's own arguments; for
//! calls that return samples, `UnsupportedSampleDepth` or `UnsupportedSampleFormat`, then
//! `LimitsExceeded` if the samples are more than `decoding_buffer_size` bytes hold; then the error
//! of the first chunk, and in it of the first plane, that has one: those of `faults::form_fault` (a
//! form that isn't supported, or more bytes in the file than `intermediate_buffer_size`), then
//! `IoError(UnexpectedEof)` for too few data. After an error, the bytes of a slice are unspecified.
//! A call asks a source only for bytes that are needed of the chunks that it reads; of PackBits
//! data it may ask for all bytes that the byte count of the chunk includes.

ghost use Rattle.std.specs.Int.{div_ceil};
ghost use Rattle.std.specs.Prelude.{◌≡◌, ℕ, ◌*◌, ◌<◌, ◌≤◌, ◌^◌, Ok, IfOk, [], length, map};
ghost use Rattle.tiff_base.specs.Answers.{Answers, AnswersWithoutSource, ReadsOnly, Gives, IsKept};
ghost use Rattle.tiff_base.specs.Sparing.{AnswersOrNoMemory, IsListFault};
ghost use Rattle.tiff_page.specs.Buffers as buffers;
ghost use Rattle.tiff_page.specs.EarlyFaults.{AllocatesAfter, WantsWhere, chunk_bytes_early, chunk_early, image_bytes_early, image_early, planes_early, samples_early, strided_early, unit_bytes_early};
ghost use Rattle.tiff_page.specs.BufferPositions.{filled_to};
ghost use Rattle.tiff_page.specs.Layout as layouts;
ghost use Rattle.tiff_page.specs.PixelCalls as calls;
ghost use Rattle.tiff_page.specs.Reach.{ChunkReadable, ChunksReadable, ImageReadable};
ghost use Rattle.tiff_page.specs.Rect as rects;
ghost use Rattle.tiff_page.specs.Samples.{samples_as, color_in, first_in, IsLaid, room_of, request_early, request_bytes, request_samples, RequestReadable};
ghost use Rattle.tiff_page.specs.PageView as view;
ghost use Rattle.tiff_page.specs.declared.layout.DecodingSampleType.TheVariants as type;

use crate::buffers::{all_planes, unit_fault};
use crate::chunk_rows::Destination;
use crate::faults::{check_first_chunk, form_fault, limit_fault};
use crate::layout::{
    BufferLayoutPreference, DecodingSampleType, PlaneLayout, checked_byte_count,
    chunk_data_dimensions, planes, planes_layout, sample_type_of, size_of,
};
use crate::numbers::Number;
use crate::output_row::RowScratch;
use crate::page::Page;
use crate::page_reader::{ImagePlanes, PageReader, PlaneChunks};
use crate::row_sink::{ByteList, ByteSlice, NumberList, RowSink};
use crate::samples::{ReadRequest, Samples};
use std::alloc::Global;
use tiff_base::color::ColorType;
use tiff_base::error::{TiffResult, UsageError};
use tiff_base::io::Source;
use tiff_ifd::limits::Limits;

// Returns `InsufficientOutputBufferSize` if a slice has no room for one plane.
fn room_fault(provided: usize, needed: usize) -> TiffResult<()>
    ensures answer { Gives (λ _. tt) result (calls.room_fault provided needed) }
    ensures room { IfOk result (λ _. needed ≤ provided) }
{
    if provided < needed {
        return Err(UsageError::InsufficientOutputBufferSize { needed, provided }.into());
    }
    Ok(())
}

// Returns `InsufficientOutputRowStride` if rows that are `stride` bytes apart overlap.
fn stride_fault(stride: usize, row_bytes: usize) -> TiffResult<()>
    ensures answer { Gives (λ _. tt) result (calls.stride_fault stride row_bytes) }
    ensures columns { IfOk result (λ _. row_bytes ≤ stride) }
{
    if stride < row_bytes {
        return Err(UsageError::InsufficientOutputRowStride {
            needed: row_bytes,
            requested: stride,
        }
        .into());
    }
    Ok(())
}

// Returns how many whole planes a slice of `len` bytes holds.
#[tactic(auto, using(crate::specs::lemmas::Planes::whole_planes, crate::specs::lemmas::Planes::plane_held))]
fn planes_used(page: &Page, layout: PlaneLayout, len: usize) -> u16
    requires plane { 0 < layout.plane_stride }
    requires some { 0 < layouts.planes page.now.planar layout.color }
    requires room { layout.plane_stride ≤ len }
    ensures value { result ≡ calls.planes_used (view.page page.now) (view.layout layout) len }
    ensures some { 0 < result }
    ensures room { result * layout.plane_stride ≤ len }
{
    let all = usize::from(planes(page, layout.color));
    all.min(len / layout.plane_stride) as u16
}

// Returns the layout of a chunk as a part of its page.
#[tactic(auto, using(crate::specs::lemmas::Planes::colored, crate::specs::lemmas::Planes::columns, crate::specs::lemmas::Planes::stride))]
fn chunk_layout(page: &Page, alloc: Global, index: u32) -> TiffResult<PlaneLayout>
    ensures answer { AnswersWithoutSource view.layout result
        (buffers.planes_layout (view.page page.now) (rects.rect (view.page page.now) index).width
        (rects.rect (view.page page.now) index).height) }
    ensures memory { WantsWhere (IsListFault (layouts.color_of (view.page page.now))) result }
    ensures colored { IfOk result (λ l. layouts.color_of (view.page page.now) ≡ Ok l.color) }
    ensures columns { IfOk result (λ l. layouts.row_bytes (view.page page.now) l.color
        (rects.rect (view.page page.now) index).width ≤ l.row_bytes) }
    ensures stride { IfOk result
        (λ l. (rects.rect (view.page page.now) index).height * l.row_bytes ≡ l.plane_stride) }
    ensures plane { IfOk result (λ l. 0 < l.plane_stride) }
    ensures some { IfOk result (λ l. 0 < layouts.planes page.now.planar l.color) }
{
    let (width, height) = chunk_data_dimensions(page, index);
    planes_layout(page, alloc, width, height)
}

// Returns how many bytes the rows of a chunk take if they are `stride` bytes apart.
#[tactic(auto, using(crate::specs::lemmas::Planes::height_within, crate::specs::lemmas::Planes::rows_fit))]
fn rows_len(page: &Page, index: u32, stride: usize) -> usize
    requires wide { stride * page.now.chunk_height < 2 ^ 64 }
    ensures value { result ≡ stride * (rects.rect (view.page page.now) index).height }
    ensures room { (rects.rect (view.page page.now) index).height * stride ≤ result }
{
    let (_, height) = chunk_data_dimensions(page, index);
    stride * height as usize
}

// Returns the number of all planes of an image if their bytes are within the limit, else 1.
fn planes_within(page: &Page, limits: &Limits, layout: PlaneLayout) -> u16
    requires some { 0 < layouts.planes page.now.planar layout.color }
    requires fits { layout.plane_stride * layouts.planes page.now.planar layout.color < 2 ^ 64 }
    ensures value { result ≡ calls.planes_within (view.page page.now) limits.now (view.layout layout) }
    ensures some { 0 < result }
    ensures fits { layout.plane_stride * result < 2 ^ 64 }
{
    let all = planes(page, layout.color);
    if layout.plane_stride * usize::from(all) <= limits.decoding_buffer_size {
        return all;
    }
    1
}

impl ReadRequest {
    // Returns the color of the request.
    fn color(self) -> ColorType
        ensures { result ≡ color_in self }
    {
        match self {
            ReadRequest::Image(layout, _) => layout.color,
            ReadRequest::Chunks(color, _, _, _) => color,
        }
    }

    // Returns the index of the first chunk of the request.
    fn first(self) -> u32
        ensures { result ≡ first_in self }
    {
        match self {
            ReadRequest::Image(_, _) => 0,
            ReadRequest::Chunks(_, index, _, _) => index,
        }
    }
}

impl PageReader<'_> {
    // Returns an empty list with room for the samples of an image or a chunk in `len` bytes, if
    // these are within the limit and no error of its first chunk is found before memory is
    // allocated.
    fn allocate_output<R: Source, T: Number<N>, const N: usize>(
        &self,
        source: &mut R,
        request: ReadRequest,
        sample_type: DecodingSampleType,
        len: usize,
    ) -> TiffResult<Vec<T>>
        requires { 0 < N }
        ensures kept { IsKept R.contents R.failures result source.old source.new }
        ensures answer { AnswersOrNoMemory (λ _. tt) result (request_early (R.contents source.old).bytes
            self.now request sample_type len) (R.failures source.old) (R.failures source.new) }
        ensures asked { ReadsOnly (ChunkReadable (R.contents source.old) (view.page self.now.page.now)
            (color_in request) (first_in request)) result }
        ensures none { IfOk result (λ v. v.items ≡ []) }
    {
        let (page, limits) = (self.page, self.limits);
        limit_fault(limits, size_of(sample_type), len)?;
        check_first_chunk(page, limits, source, request.color(), request.first())?;
        Ok(Vec::with_capacity(self.alloc, len.div_ceil(N))?)
    }

    // Reads the image or the chunks of a request into a sink, which gets zeros where it has too few
    // bytes. Chunks of several planes go one after another.
    fn requested<R: Source, W: RowSink>(
        &self,
        source: &mut R,
        request: ReadRequest,
        sink: &mut W,
    ) -> TiffResult<()>
        requires laid { IsLaid (view.page self.now.page.now) request }
        requires room { room_of (view.page self.now.page.now) request ≤ W.room sink.old }
        requires few { room_of (view.page self.now.page.now) request < 2 ^ 64 }
        ensures later { W.goes_on sink.old sink.new }
        ensures kept { IsKept R.contents R.failures result source.old source.new }
        ensures answer { (total : ℕ) → W.whole (room_of (view.page self.now.page.now) request) ≤ total
            → Answers (λ _. filled_to total (W.bytes sink.new)) result
            (request_bytes (R.contents source.old).bytes self.now request (filled_to total (W.bytes sink.old)))
            (R.failures source.old) (R.failures source.new) }
        ensures asked { ReadsOnly (RequestReadable (R.contents source.old) self.now request) result }
    {
        match request {
            ReadRequest::Image(layout, planes) => {
                self.image(source, ImagePlanes { layout, planes }, sink)
            }
            ReadRequest::Chunks(color, index, planes, stride) => {
                let (_, rows) = chunk_data_dimensions(self.page, index);
                let first = Destination {
                    top: 0,
                    left: 0,
                    stride,
                };
                let chunks = PlaneChunks {
                    color,
                    index,
                    planes,
                    first,
                    rows,
                };
                self.plane_chunks(source, chunks, sink)
            }
        }
    }

    // Reads an image or chunks into a slice.
    fn request_into<R: Source>(
        &self,
        source: &mut R,
        request: ReadRequest,
        buf: &mut [u8],
    ) -> TiffResult<()>
        requires laid { IsLaid (view.page self.now.page.now) request }
        requires room { room_of (view.page self.now.page.now) request ≤ length buf.old }
        ensures kept { IsKept R.contents R.failures result source.old source.new }
        ensures answer { Answers (λ _. buf.new) result (request_bytes (R.contents source.old).bytes
            self.now request buf.old) (R.failures source.old) (R.failures source.new) }
        ensures asked { ReadsOnly (RequestReadable (R.contents source.old) self.now request) result }
    {
        let mut scratch = RowScratch::new(self.alloc);
        let mut sink = ByteSlice::new(buf, &mut scratch);
        self.requested(source, request, &mut sink)
    }

    // Returns the bytes of an image or a chunk whose samples are bytes.
    fn read_bytes<R: Source>(
        &self,
        source: &mut R,
        request: ReadRequest,
        len: usize,
    ) -> TiffResult<Vec<u8>>
        requires laid { IsLaid (view.page self.now.page.now) request }
        requires room { room_of (view.page self.now.page.now) request ≤ len }
        requires typed { layouts.sample_type_of (view.page self.now.page.now) ≡ Ok type.U8 }
        ensures kept { IsKept R.contents R.failures result source.old source.new }
        ensures memory { AllocatesAfter
            (request_early (R.contents source.old).bytes self.now request type.U8 len) result }
        ensures answer { Answers (λ v. record { sample_type = type.U8; numbers = v.items }) result
            (request_samples (R.contents source.old).bytes self.now request len)
            (R.failures source.old) (R.failures source.new) }
        ensures asked { ReadsOnly (RequestReadable (R.contents source.old) self.now request) result }
    {
        let bytes = self.allocate_output(source, request, DecodingSampleType::U8, len)?;
        let mut sink = ByteList::new(self.alloc, bytes);
        self.requested(source, request, &mut sink)?;
        sink.zeros_to(len)?;
        Ok(sink.into_bytes())
    }

    // Returns the numbers of an image or a chunk whose samples have a number type of `N` bytes.
    fn read_as<R: Source, T: Number<N>, const N: usize>(
        &self,
        source: &mut R,
        request: ReadRequest,
        sample_type: DecodingSampleType,
        len: usize,
    ) -> TiffResult<Vec<T>>
        requires some { 0 < N }
        requires laid { IsLaid (view.page self.now.page.now) request }
        requires room { room_of (view.page self.now.page.now) request ≤ len }
        requires typed { layouts.sample_type_of (view.page self.now.page.now) ≡ Ok sample_type }
        requires size { layouts.size_of sample_type ≡ N }
        ensures kept { IsKept R.contents R.failures result source.old source.new }
        ensures memory { AllocatesAfter
            (request_early (R.contents source.old).bytes self.now request sample_type len) result }
        ensures answer { Answers (λ v. record { sample_type = sample_type; numbers = map T.bits v.items })
            result
            (request_samples (R.contents source.old).bytes self.now request len)
            (R.failures source.old) (R.failures source.new) }
        ensures asked { ReadsOnly (RequestReadable (R.contents source.old) self.now request) result }
    {
        let numbers = self.allocate_output(source, request, sample_type, len)?;
        let mut sink = NumberList::<T, N>::new(self.alloc, numbers);
        self.requested(source, request, &mut sink)?;
        sink.zeros_to(len)?;
        Ok(sink.into_numbers())
    }

    // Returns the samples of an image or a chunk, in `len` bytes.
    #[tactic(auto, unfolding(crate::specs::PixelCalls::samples))]
    fn read_samples<R: Source>(
        &self,
        source: &mut R,
        request: ReadRequest,
        len: usize,
    ) -> TiffResult<Samples>
        requires laid { IsLaid (view.page self.now.page.now) request }
        requires room { room_of (view.page self.now.page.now) request ≤ len }
        ensures kept { IsKept R.contents R.failures result source.old source.new }
        ensures memory { AllocatesAfter
            (samples_early (R.contents source.old).bytes (view.page self.now.page.now)
            self.now.limits.now (color_in request) (first_in request) len) result }
        ensures answer { Answers samples_as result (request_samples (R.contents source.old).bytes self.now request len) (R.failures source.old)
            (R.failures source.new) }
        ensures asked { ReadsOnly (RequestReadable (R.contents source.old) self.now request) result }
    {
        let kind = sample_type_of(self.page, self.alloc)?;
        match kind {
            DecodingSampleType::U8 => self.read_bytes(source, request, len).map(Samples::U8),
            DecodingSampleType::U16 => self.read_as(source, request, kind, len).map(Samples::U16),
            DecodingSampleType::U32 => self.read_as(source, request, kind, len).map(Samples::U32),
            DecodingSampleType::U64 => self.read_as(source, request, kind, len).map(Samples::U64),
            DecodingSampleType::F16 => self.read_as(source, request, kind, len).map(Samples::F16),
            DecodingSampleType::F32 => self.read_as(source, request, kind, len).map(Samples::F32),
            DecodingSampleType::F64 => self.read_as(source, request, kind, len).map(Samples::F64),
            DecodingSampleType::I8 => self.read_as(source, request, kind, len).map(Samples::I8),
            DecodingSampleType::I16 => self.read_as(source, request, kind, len).map(Samples::I16),
            DecodingSampleType::I32 => self.read_as(source, request, kind, len).map(Samples::I32),
            DecodingSampleType::I64 => self.read_as(source, request, kind, len).map(Samples::I64),
        }
    }

    /// Returns the samples of an image, row by row; of a planar image, those of its first plane.
    #[tactic(auto, using(crate::specs::lemmas::Planes::image_is_first_plane, crate::specs::lemmas::PassedChecks::layout_wanted))]
    pub fn read_image<R: Source>(&self, source: &mut R) -> TiffResult<Samples>
        ensures kept { IsKept R.contents R.failures result source.old source.new }
        ensures memory { AllocatesAfter (image_early (R.contents source.old).bytes
            (view.page self.now.page.now) self.now.limits.now) result }
        ensures answer { Answers samples_as result (calls.image_of (R.contents source.old).bytes
            self.now.order (view.page self.now.page.now) self.now.limits.now)
            (R.failures source.old) (R.failures source.new) }
        ensures asked { ReadsOnly
            (ImageReadable (R.contents source.old) (view.page self.now.page.now) (λ l. 1)) result }
    {
        let page = self.page;
        let layout = planes_layout(page, self.alloc, page.width, page.height)?;
        let request = ReadRequest::Image(layout, 1);
        self.read_samples(source, request, layout.plane_stride)
    }

    /// Returns the samples of all planes of an image, with the layout of all planes. If all planes
    /// aren't within `decoding_buffer_size`, returns the samples of the first plane only.
    #[tactic(auto, using(crate::specs::lemmas::PassedChecks::layout_wanted), unfolding(crate::specs::PixelCalls::read_image_to_buffer))]
    pub fn read_image_to_buffer<R: Source>(
        &self,
        source: &mut R,
    ) -> TiffResult<(BufferLayoutPreference, Samples)>
        ensures kept { IsKept R.contents R.failures result source.old source.new }
        ensures memory { AllocatesAfter (planes_early (R.contents source.old).bytes
            (view.page self.now.page.now) self.now.limits.now) result }
        ensures answer { Answers (λ r. (r.0, samples_as r.1)) result (calls.read_image_to_buffer
            (R.contents source.old).bytes self.now.order (view.page self.now.page.now)
            self.now.limits.now) (R.failures source.old) (R.failures source.new) }
        ensures asked { ReadsOnly (ImageReadable (R.contents source.old) (view.page self.now.page.now)
            (λ l. calls.planes_within (view.page self.now.page.now) self.now.limits.now l)) result }
    {
        let page = self.page;
        let layout = planes_layout(page, self.alloc, page.width, page.height)?;
        let preference = all_planes(page, layout);
        let planes = planes_within(page, self.limits, layout);
        let len = layout.plane_stride * usize::from(planes);
        let request = ReadRequest::Image(layout, planes);
        let samples = self.read_samples(source, request, len)?;
        Ok((preference, samples))
    }

    /// Reads an image into a slice: as many whole planes as the slice holds, one after another. The
    /// bytes after them stay unchanged. Returns `InsufficientOutputBufferSize` if the slice has
    /// fewer bytes than a plane.
    #[tactic(auto, using(crate::specs::lemmas::PassedChecks::may_want, crate::specs::lemmas::PassedChecks::layout_wanted), unfolding(crate::specs::PixelCalls::read_image_bytes))]
    pub fn read_image_bytes<R: Source>(&self, source: &mut R, buf: &mut [u8]) -> TiffResult<()>
        ensures kept { IsKept R.contents R.failures result source.old source.new }
        ensures memory { AllocatesAfter (image_bytes_early (view.page self.now.page.now)
            self.now.limits.now (length buf.old)) result }
        ensures answer { Answers (λ _. buf.new) result (calls.read_image_bytes
            (R.contents source.old).bytes self.now.order (view.page self.now.page.now)
            self.now.limits.now buf.old) (R.failures source.old) (R.failures source.new) }
        ensures asked { ReadsOnly (ImageReadable (R.contents source.old) (view.page self.now.page.now)
            (λ l. calls.planes_used (view.page self.now.page.now) l (length buf.old))) result }
    {
        let page = self.page;
        let layout = planes_layout(page, self.alloc, page.width, page.height)?;
        room_fault(buf.len(), layout.plane_stride)?;
        let planes = planes_used(page, layout, buf.len());
        // Tested again below, where the contract lets `OutOfMemory` come in place of an error.
        form_fault(page, self.limits, layout.color, 0)?;
        self.request_into(source, ReadRequest::Image(layout, planes), buf)
    }

    /// Returns the samples of a chunk, in rows of its own width in the image. Returns
    /// `InconsistentSizesEncountered` if the index is past the list of chunks.
    #[tactic(auto, using(crate::specs::lemmas::PassedChecks::layout_wanted), unfolding(crate::specs::PixelCalls::read_chunk))]
    pub fn read_chunk<R: Source>(&self, source: &mut R, index: u32) -> TiffResult<Samples>
        ensures kept { IsKept R.contents R.failures result source.old source.new }
        ensures memory { AllocatesAfter (chunk_early (R.contents source.old).bytes
            (view.page self.now.page.now) self.now.limits.now index) result }
        ensures answer { Answers samples_as result (calls.read_chunk (R.contents source.old).bytes
            self.now.order (view.page self.now.page.now) self.now.limits.now index)
            (R.failures source.old) (R.failures source.new) }
        ensures asked { ReadsOnly (ChunksReadable (R.contents source.old) (view.page self.now.page.now)
            index (λ l. 1)) result }
    {
        let layout = chunk_layout(self.page, self.alloc, index)?;
        let request = ReadRequest::Chunks(layout.color, index, 1, layout.row_bytes);
        self.read_samples(source, request, layout.plane_stride)
    }

    /// Reads a chunk into a slice, in rows of its own width in the image. The bytes after the chunk
    /// stay unchanged. Returns `InsufficientOutputBufferSize` if the slice has fewer bytes than the
    /// chunk, and `InconsistentSizesEncountered` if the index is past the list of chunks.
    #[tactic(auto, using(crate::specs::lemmas::PassedChecks::may_want, crate::specs::lemmas::PassedChecks::layout_wanted), unfolding(crate::specs::PixelCalls::read_chunk_bytes))]
    pub fn read_chunk_bytes<R: Source>(
        &self,
        source: &mut R,
        index: u32,
        buf: &mut [u8],
    ) -> TiffResult<()>
        ensures kept { IsKept R.contents R.failures result source.old source.new }
        ensures memory { AllocatesAfter (chunk_bytes_early (view.page self.now.page.now)
            self.now.limits.now index (length buf.old)) result }
        ensures answer { Answers (λ _. buf.new) result (calls.read_chunk_bytes
            (R.contents source.old).bytes self.now.order (view.page self.now.page.now)
            self.now.limits.now index buf.old) (R.failures source.old) (R.failures source.new) }
        ensures asked { ReadsOnly (ChunksReadable (R.contents source.old) (view.page self.now.page.now)
            index (λ l. 1)) result }
    {
        let layout = chunk_layout(self.page, self.alloc, index)?;
        room_fault(buf.len(), layout.plane_stride)?;
        form_fault(self.page, self.limits, layout.color, index as usize)?;
        let request = ReadRequest::Chunks(layout.color, index, 1, layout.row_bytes);
        self.request_into(source, request, buf)
    }

    /// Returns the samples of a chunk, with its rows `stride` bytes apart and zeros between them.
    /// Returns `InsufficientOutputRowStride` if the stride is below the number of bytes of a row;
    /// `LimitsExceeded` if the stored height of a chunk in such rows has 2^64 bytes or more;
    /// `InconsistentSizesEncountered` if the index is past the list of chunks.
    #[tactic(auto, using(crate::specs::lemmas::PassedChecks::layout_wanted), unfolding(crate::specs::PixelCalls::read_chunk_to_buffer))]
    pub fn read_chunk_to_buffer<R: Source>(
        &self,
        source: &mut R,
        index: u32,
        stride: usize,
    ) -> TiffResult<Samples>
        ensures kept { IsKept R.contents R.failures result source.old source.new }
        ensures memory { AllocatesAfter (strided_early (R.contents source.old).bytes
            (view.page self.now.page.now) self.now.limits.now index stride) result }
        ensures answer { Answers samples_as result (calls.read_chunk_to_buffer
            (R.contents source.old).bytes self.now.order (view.page self.now.page.now)
            self.now.limits.now index stride) (R.failures source.old) (R.failures source.new) }
        ensures asked { ReadsOnly (ChunksReadable (R.contents source.old) (view.page self.now.page.now)
            index (λ l. 1)) result }
    {
        let page = self.page;
        let layout = chunk_layout(page, self.alloc, index)?;
        stride_fault(stride, layout.row_bytes)?;
        checked_byte_count(stride, page.chunk_height as usize)?;
        let len = rows_len(page, index, stride);
        let request = ReadRequest::Chunks(layout.color, index, 1, stride);
        self.read_samples(source, request, len)
    }

    /// Reads the chunk of each plane of a coding unit into a slice: as many whole chunks as the
    /// slice holds, one after another. The bytes after them stay unchanged. Returns
    /// `InvalidCodingUnit(unit, chunks)` if the unit isn't below the number of chunks of a plane,
    /// and `InsufficientOutputBufferSize` if the slice has fewer bytes than a chunk.
    #[tactic(auto, using(crate::specs::lemmas::PassedChecks::may_want, crate::specs::lemmas::PassedChecks::layout_wanted), unfolding(crate::specs::PixelCalls::read_coding_unit_bytes))]
    pub fn read_coding_unit_bytes<R: Source>(
        &self,
        source: &mut R,
        unit: u32,
        buf: &mut [u8],
    ) -> TiffResult<()>
        ensures kept { IsKept R.contents R.failures result source.old source.new }
        ensures memory { AllocatesAfter (unit_bytes_early (view.page self.now.page.now)
            self.now.limits.now unit (length buf.old)) result }
        ensures answer { Answers (λ _. buf.new) result (calls.read_coding_unit_bytes
            (R.contents source.old).bytes self.now.order (view.page self.now.page.now)
            self.now.limits.now unit buf.old) (R.failures source.old) (R.failures source.new) }
        ensures asked { ReadsOnly (ChunksReadable (R.contents source.old) (view.page self.now.page.now)
            unit (λ l. calls.planes_used (view.page self.now.page.now) l (length buf.old))) result }
    {
        let page = self.page;
        let layout = chunk_layout(page, self.alloc, unit)?;
        unit_fault(page, unit)?;
        room_fault(buf.len(), layout.plane_stride)?;
        let planes = planes_used(page, layout, buf.len());
        form_fault(page, self.limits, layout.color, unit as usize)?;
        let request = ReadRequest::Chunks(layout.color, unit, planes, layout.row_bytes);
        self.request_into(source, request, buf)
    }
}

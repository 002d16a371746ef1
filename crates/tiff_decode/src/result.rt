//! Lists of decoded samples.

ghost use Rattle.std.specs.Borrow.{sem, Lends, Array, u8, u16, u32, u64, i8, i16, i32, i64};
ghost use Rattle.std.specs.Prelude.{◌≡◌, ◌≤◌, length, drop, replicate, IfOk, OnErr};
ghost use Rattle.std.specs.Vec.{with_items_from};
ghost use Rattle.tiff_base.specs.Sparing.{GivesSparingly};
ghost use Rattle.tiff_page.specs.Buffers.{resized_samples};
ghost use Rattle.tiff_page.specs.Samples.{samples_as};
ghost use Rattle.tiff_page.specs.declared.layout.DecodingSampleType.TheVariants as type;
ghost use Rattle.tiff_decode.specs.Lending as lending;
ghost use Rattle.tiff_decode.specs.Lending.{lends_rest, vec_row};
ghost use Rattle.tiff_decode.specs.Result.{buffered_as, decoded_as};
ghost use Rattle.tiff_decode.specs.contracts.result.DecodingResult.{the_row};
ghost use Rattle.tiff_decode.specs.declared.buffer.DecodingBuffer.TheVariants as buffer;

use crate::buffer::DecodingBuffer;
use std::alloc::{AllocError, Global};
use tiff_base::error::{TiffResult, TiffUnsupportedError};
use tiff_base::tags::{Bits16, Bits32, Bits64};
use tiff_ifd::limits::Limits;
use tiff_page::faults::limit_fault;
use tiff_page::layout::{BufferLayoutPreference, DecodingSampleType, size_of};
use tiff_page::samples::Samples;

/// Decoded samples, row by row, by their number type.
#[derive(Debug, Drop)]
pub enum DecodingResult {
    U8(Vec<u8>),
    U16(Vec<u16>),
    U32(Vec<u32>),
    U64(Vec<u64>),
    F16(Vec<Bits16>),
    F32(Vec<Bits32>),
    F64(Vec<Bits64>),
    I8(Vec<i8>),
    I16(Vec<i16>),
    I32(Vec<i32>),
    I64(Vec<i64>),
}

// The items of a list from an index on.
fn rest<T>(list: &mut Vec<T>, start: usize) -> &mut [T]
    requires within { start ≤ length list.old.items }
    ensures* writes_back { sem 𝓛 (Lends (vec_row T.row) (Array T.row 0) list.entry result
        (with_items_from list.old start)) }
    ensures value { result.now ≡ drop start list.old.items }
{
    list.slice_mut(start..)
}

// A list of `len` zeros of a number type.
#[tactic(auto, using(crate::proofs::Samples::zeros_mapped))]
fn zeros(
    alloc: Global,
    sample_type: DecodingSampleType,
    len: usize,
) -> Result<DecodingResult, AllocError>
    ensures { IfOk result
        (λ r. decoded_as r ≡ record { sample_type = sample_type; numbers = replicate len 0 }) }
{
    match sample_type {
        DecodingSampleType::U8 => vec![in alloc; 0; len].map(DecodingResult::U8),
        DecodingSampleType::U16 => vec![in alloc; 0; len].map(DecodingResult::U16),
        DecodingSampleType::U32 => vec![in alloc; 0; len].map(DecodingResult::U32),
        DecodingSampleType::U64 => vec![in alloc; 0; len].map(DecodingResult::U64),
        DecodingSampleType::F16 => vec![in alloc; Bits16(0); len].map(DecodingResult::F16),
        DecodingSampleType::F32 => vec![in alloc; Bits32(0); len].map(DecodingResult::F32),
        DecodingSampleType::F64 => vec![in alloc; Bits64(0); len].map(DecodingResult::F64),
        DecodingSampleType::I8 => vec![in alloc; 0; len].map(DecodingResult::I8),
        DecodingSampleType::I16 => vec![in alloc; 0; len].map(DecodingResult::I16),
        DecodingSampleType::I32 => vec![in alloc; 0; len].map(DecodingResult::I32),
        DecodingSampleType::I64 => vec![in alloc; 0; len].map(DecodingResult::I64),
    }
}

impl DecodingResult {
    /// Makes a result of samples that were read, without copying them.
    pub(crate) fn of(samples: Samples) -> Self
        ensures { decoded_as result ≡ samples_as samples }
    {
        match samples {
            Samples::U8(list) => DecodingResult::U8(list),
            Samples::U16(list) => DecodingResult::U16(list),
            Samples::U32(list) => DecodingResult::U32(list),
            Samples::U64(list) => DecodingResult::U64(list),
            Samples::F16(list) => DecodingResult::F16(list),
            Samples::F32(list) => DecodingResult::F32(list),
            Samples::F64(list) => DecodingResult::F64(list),
            Samples::I8(list) => DecodingResult::I8(list),
            Samples::I16(list) => DecodingResult::I16(list),
            Samples::I32(list) => DecodingResult::I32(list),
            Samples::I64(list) => DecodingResult::I64(list),
        }
    }

    // The allocator of the list.
    fn allocator(&self) -> Global {
        match self {
            DecodingResult::U8(samples) => *samples.allocator(),
            DecodingResult::U16(samples) => *samples.allocator(),
            DecodingResult::U32(samples) => *samples.allocator(),
            DecodingResult::U64(samples) => *samples.allocator(),
            DecodingResult::F16(samples) => *samples.allocator(),
            DecodingResult::F32(samples) => *samples.allocator(),
            DecodingResult::F64(samples) => *samples.allocator(),
            DecodingResult::I8(samples) => *samples.allocator(),
            DecodingResult::I16(samples) => *samples.allocator(),
            DecodingResult::I32(samples) => *samples.allocator(),
            DecodingResult::I64(samples) => *samples.allocator(),
        }
    }

    /// Makes the result zeros of a layout's number type, as many whole samples as cover all bytes
    /// of the layout. Returns `UnknownInterpretation` for a layout without a number type, and
    /// `LimitsExceeded` for more samples than `decoding_buffer_size` bytes hold. Allocates memory
    /// only after these checks. After an error, `OutOfMemory` too, the result is unchanged.
    #[tactic(auto, unfolding(tiff_page::specs::Buffers::resized_samples))]
    pub fn resize_to(&mut self, layout: &BufferLayoutPreference, limits: &Limits) -> TiffResult<()>
        ensures resized { GivesSparingly (λ _. decoded_as self.new) result
            (resized_samples layout.now limits.now) }
        ensures stays { OnErr result (self.new ≡ self.old) }
    {
        let Some(sample_type) = layout.sample_type else {
            return Err(TiffUnsupportedError::UnknownInterpretation.into());
        };
        let size = size_of(sample_type);
        limit_fault(limits, size, layout.complete_len)?;
        *self = zeros(
            self.allocator(),
            sample_type,
            layout.complete_len.div_ceil(size),
        )?;
        Ok(())
    }

    /// The number type of the samples (this project's).
    pub fn sample_type(&self) -> DecodingSampleType
        ensures { result ≡ (decoded_as self.now).sample_type }
    {
        match self {
            DecodingResult::U8(_) => DecodingSampleType::U8,
            DecodingResult::U16(_) => DecodingSampleType::U16,
            DecodingResult::U32(_) => DecodingSampleType::U32,
            DecodingResult::U64(_) => DecodingSampleType::U64,
            DecodingResult::F16(_) => DecodingSampleType::F16,
            DecodingResult::F32(_) => DecodingSampleType::F32,
            DecodingResult::F64(_) => DecodingSampleType::F64,
            DecodingResult::I8(_) => DecodingSampleType::I8,
            DecodingResult::I16(_) => DecodingSampleType::I16,
            DecodingResult::I32(_) => DecodingSampleType::I32,
            DecodingResult::I64(_) => DecodingSampleType::I64,
        }
    }

    // The number type of the samples, of a result that the caller lends afterwards.
    fn sample_type_kept(&mut self) -> DecodingSampleType
        ensures sample_type { result ≡ (decoded_as self.old).sample_type }
        ensures kept { self.new ≡ self.old }
    {
        self.sample_type()
    }

    /// The samples from `start` on of a result of 8-bit unsigned numbers, as `as_buffer` lends
    /// them. The contract lets the caller prove what is in the result after the loan (this
    /// project's).
    #[tactic(auto, using(crate::proofs::Samples::length_mapped, crate::proofs::Samples::rest_mapped))]
    pub fn u8_rest(&mut self, start: usize) -> &mut [u8]
        requires sample_type { type.U8 ≡ (decoded_as self.old).sample_type }
        requires within { start ≤ length (decoded_as self.old).numbers }
        ensures* writes_back { sem 𝓛 (Lends the_row (Array u8 0) self.entry result (lending.with_u8 self.old start)) }
        ensures sample_type { (buffered_as (buffer.U8 result)).sample_type ≡ (decoded_as self.old).sample_type }
        ensures numbers { (buffered_as (buffer.U8 result)).numbers ≡ drop start (decoded_as self.old).numbers }
    {
        // The borrow checker proves what is left of a slice that a body returns, and not of an
        // enum of slices, as `as_buffer` lends it.
        match self {
            DecodingResult::U8(samples) => rest(samples, start),
            _ => unreachable!(),
        }
    }

    /// The samples from `start` on of a result of 16-bit unsigned numbers, as `as_buffer` lends
    /// them. The contract lets the caller prove what is in the result after the loan (this
    /// project's).
    #[tactic(auto, using(crate::proofs::Samples::length_mapped, crate::proofs::Samples::rest_mapped))]
    pub fn u16_rest(&mut self, start: usize) -> &mut [u16]
        requires sample_type { type.U16 ≡ (decoded_as self.old).sample_type }
        requires within { start ≤ length (decoded_as self.old).numbers }
        ensures* writes_back { sem 𝓛 (Lends the_row (Array u16 0) self.entry result
            (lending.with_u16 self.old start)) }
        ensures sample_type { (buffered_as (buffer.U16 result)).sample_type ≡ (decoded_as self.old).sample_type }
        ensures numbers { (buffered_as (buffer.U16 result)).numbers ≡ drop start (decoded_as self.old).numbers }
    {
        match self {
            DecodingResult::U16(samples) => rest(samples, start),
            _ => unreachable!(),
        }
    }

    /// The samples from `start` on of a result of 32-bit unsigned numbers, as `as_buffer` lends
    /// them. The contract lets the caller prove what is in the result after the loan (this
    /// project's).
    #[tactic(auto, using(crate::proofs::Samples::length_mapped, crate::proofs::Samples::rest_mapped))]
    pub fn u32_rest(&mut self, start: usize) -> &mut [u32]
        requires sample_type { type.U32 ≡ (decoded_as self.old).sample_type }
        requires within { start ≤ length (decoded_as self.old).numbers }
        ensures* writes_back { sem 𝓛 (Lends the_row (Array u32 0) self.entry result
            (lending.with_u32 self.old start)) }
        ensures sample_type { (buffered_as (buffer.U32 result)).sample_type ≡ (decoded_as self.old).sample_type }
        ensures numbers { (buffered_as (buffer.U32 result)).numbers ≡ drop start (decoded_as self.old).numbers }
    {
        match self {
            DecodingResult::U32(samples) => rest(samples, start),
            _ => unreachable!(),
        }
    }

    /// The samples from `start` on of a result of 64-bit unsigned numbers, as `as_buffer` lends
    /// them. The contract lets the caller prove what is in the result after the loan (this
    /// project's).
    #[tactic(auto, using(crate::proofs::Samples::length_mapped, crate::proofs::Samples::rest_mapped))]
    pub fn u64_rest(&mut self, start: usize) -> &mut [u64]
        requires sample_type { type.U64 ≡ (decoded_as self.old).sample_type }
        requires within { start ≤ length (decoded_as self.old).numbers }
        ensures* writes_back { sem 𝓛 (Lends the_row (Array u64 0) self.entry result
            (lending.with_u64 self.old start)) }
        ensures sample_type { (buffered_as (buffer.U64 result)).sample_type ≡ (decoded_as self.old).sample_type }
        ensures numbers { (buffered_as (buffer.U64 result)).numbers ≡ drop start (decoded_as self.old).numbers }
    {
        match self {
            DecodingResult::U64(samples) => rest(samples, start),
            _ => unreachable!(),
        }
    }

    /// The samples from `start` on of a result of 16-bit floating-point numbers, as `as_buffer`
    /// lends them. The contract lets the caller prove what is in the result after the loan (this
    /// project's).
    #[tactic(auto, using(crate::proofs::Samples::length_mapped, crate::proofs::Samples::rest_mapped))]
    pub fn f16_rest(&mut self, start: usize) -> &mut [Bits16]
        requires sample_type { type.F16 ≡ (decoded_as self.old).sample_type }
        requires within { start ≤ length (decoded_as self.old).numbers }
        ensures* writes_back { sem 𝓛 (Lends the_row (Array lending.F16s 0) self.entry result
            (lending.with_f16 self.old start)) }
        ensures sample_type { (buffered_as (buffer.F16 result)).sample_type ≡ (decoded_as self.old).sample_type }
        ensures numbers { (buffered_as (buffer.F16 result)).numbers ≡ drop start (decoded_as self.old).numbers }
    {
        match self {
            DecodingResult::F16(samples) => rest(samples, start),
            _ => unreachable!(),
        }
    }

    /// The samples from `start` on of a result of 32-bit floating-point numbers, as `as_buffer`
    /// lends them. The contract lets the caller prove what is in the result after the loan (this
    /// project's).
    #[tactic(auto, using(crate::proofs::Samples::length_mapped, crate::proofs::Samples::rest_mapped))]
    pub fn f32_rest(&mut self, start: usize) -> &mut [Bits32]
        requires sample_type { type.F32 ≡ (decoded_as self.old).sample_type }
        requires within { start ≤ length (decoded_as self.old).numbers }
        ensures* writes_back { sem 𝓛 (Lends the_row (Array lending.F32s 0) self.entry result
            (lending.with_f32 self.old start)) }
        ensures sample_type { (buffered_as (buffer.F32 result)).sample_type ≡ (decoded_as self.old).sample_type }
        ensures numbers { (buffered_as (buffer.F32 result)).numbers ≡ drop start (decoded_as self.old).numbers }
    {
        match self {
            DecodingResult::F32(samples) => rest(samples, start),
            _ => unreachable!(),
        }
    }

    /// The samples from `start` on of a result of 64-bit floating-point numbers, as `as_buffer`
    /// lends them. The contract lets the caller prove what is in the result after the loan (this
    /// project's).
    #[tactic(auto, using(crate::proofs::Samples::length_mapped, crate::proofs::Samples::rest_mapped))]
    pub fn f64_rest(&mut self, start: usize) -> &mut [Bits64]
        requires sample_type { type.F64 ≡ (decoded_as self.old).sample_type }
        requires within { start ≤ length (decoded_as self.old).numbers }
        ensures* writes_back { sem 𝓛 (Lends the_row (Array lending.F64s 0) self.entry result
            (lending.with_f64 self.old start)) }
        ensures sample_type { (buffered_as (buffer.F64 result)).sample_type ≡ (decoded_as self.old).sample_type }
        ensures numbers { (buffered_as (buffer.F64 result)).numbers ≡ drop start (decoded_as self.old).numbers }
    {
        match self {
            DecodingResult::F64(samples) => rest(samples, start),
            _ => unreachable!(),
        }
    }

    /// The samples from `start` on of a result of 8-bit signed numbers, as `as_buffer` lends them.
    /// The contract lets the caller prove what is in the result after the loan (this project's).
    #[tactic(auto, using(crate::proofs::Samples::length_mapped, crate::proofs::Samples::rest_mapped))]
    pub fn i8_rest(&mut self, start: usize) -> &mut [i8]
        requires sample_type { type.I8 ≡ (decoded_as self.old).sample_type }
        requires within { start ≤ length (decoded_as self.old).numbers }
        ensures* writes_back { sem 𝓛 (Lends the_row (Array i8 0) self.entry result (lending.with_i8 self.old start)) }
        ensures sample_type { (buffered_as (buffer.I8 result)).sample_type ≡ (decoded_as self.old).sample_type }
        ensures numbers { (buffered_as (buffer.I8 result)).numbers ≡ drop start (decoded_as self.old).numbers }
    {
        match self {
            DecodingResult::I8(samples) => rest(samples, start),
            _ => unreachable!(),
        }
    }

    /// The samples from `start` on of a result of 16-bit signed numbers, as `as_buffer` lends them.
    /// The contract lets the caller prove what is in the result after the loan (this project's).
    #[tactic(auto, using(crate::proofs::Samples::length_mapped, crate::proofs::Samples::rest_mapped))]
    pub fn i16_rest(&mut self, start: usize) -> &mut [i16]
        requires sample_type { type.I16 ≡ (decoded_as self.old).sample_type }
        requires within { start ≤ length (decoded_as self.old).numbers }
        ensures* writes_back { sem 𝓛 (Lends the_row (Array i16 0) self.entry result
            (lending.with_i16 self.old start)) }
        ensures sample_type { (buffered_as (buffer.I16 result)).sample_type ≡ (decoded_as self.old).sample_type }
        ensures numbers { (buffered_as (buffer.I16 result)).numbers ≡ drop start (decoded_as self.old).numbers }
    {
        match self {
            DecodingResult::I16(samples) => rest(samples, start),
            _ => unreachable!(),
        }
    }

    /// The samples from `start` on of a result of 32-bit signed numbers, as `as_buffer` lends them.
    /// The contract lets the caller prove what is in the result after the loan (this project's).
    #[tactic(auto, using(crate::proofs::Samples::length_mapped, crate::proofs::Samples::rest_mapped))]
    pub fn i32_rest(&mut self, start: usize) -> &mut [i32]
        requires sample_type { type.I32 ≡ (decoded_as self.old).sample_type }
        requires within { start ≤ length (decoded_as self.old).numbers }
        ensures* writes_back { sem 𝓛 (Lends the_row (Array i32 0) self.entry result
            (lending.with_i32 self.old start)) }
        ensures sample_type { (buffered_as (buffer.I32 result)).sample_type ≡ (decoded_as self.old).sample_type }
        ensures numbers { (buffered_as (buffer.I32 result)).numbers ≡ drop start (decoded_as self.old).numbers }
    {
        match self {
            DecodingResult::I32(samples) => rest(samples, start),
            _ => unreachable!(),
        }
    }

    /// The samples from `start` on of a result of 64-bit signed numbers, as `as_buffer` lends them.
    /// The contract lets the caller prove what is in the result after the loan (this project's).
    #[tactic(auto, using(crate::proofs::Samples::length_mapped, crate::proofs::Samples::rest_mapped))]
    pub fn i64_rest(&mut self, start: usize) -> &mut [i64]
        requires sample_type { type.I64 ≡ (decoded_as self.old).sample_type }
        requires within { start ≤ length (decoded_as self.old).numbers }
        ensures* writes_back { sem 𝓛 (Lends the_row (Array i64 0) self.entry result
            (lending.with_i64 self.old start)) }
        ensures sample_type { (buffered_as (buffer.I64 result)).sample_type ≡ (decoded_as self.old).sample_type }
        ensures numbers { (buffered_as (buffer.I64 result)).numbers ≡ drop start (decoded_as self.old).numbers }
    {
        match self {
            DecodingResult::I64(samples) => rest(samples, start),
            _ => unreachable!(),
        }
    }

    /// The samples from an index on, for the caller to write in place. `start` is at most the
    /// number of samples. After the loan the result has its former samples before `start`, followed
    /// by the written ones.
    pub fn as_buffer(&mut self, start: usize) -> DecodingBuffer<'_>
        requires { start ≤ length (decoded_as self.old).numbers }
        ensures* writes_back { sem 𝓛 (lends_rest self.entry start result) }
        ensures sample_type { (buffered_as result).sample_type ≡ (decoded_as self.old).sample_type }
        ensures numbers { (buffered_as result).numbers ≡ drop start (decoded_as self.old).numbers }
    {
        match self.sample_type_kept() {
            DecodingSampleType::U8 => DecodingBuffer::U8(self.u8_rest(start)),
            DecodingSampleType::U16 => DecodingBuffer::U16(self.u16_rest(start)),
            DecodingSampleType::U32 => DecodingBuffer::U32(self.u32_rest(start)),
            DecodingSampleType::U64 => DecodingBuffer::U64(self.u64_rest(start)),
            DecodingSampleType::F16 => DecodingBuffer::F16(self.f16_rest(start)),
            DecodingSampleType::F32 => DecodingBuffer::F32(self.f32_rest(start)),
            DecodingSampleType::F64 => DecodingBuffer::F64(self.f64_rest(start)),
            DecodingSampleType::I8 => DecodingBuffer::I8(self.i8_rest(start)),
            DecodingSampleType::I16 => DecodingBuffer::I16(self.i16_rest(start)),
            DecodingSampleType::I32 => DecodingBuffer::I32(self.i32_rest(start)),
            DecodingSampleType::I64 => DecodingBuffer::I64(self.i64_rest(start)),
        }
    }
}

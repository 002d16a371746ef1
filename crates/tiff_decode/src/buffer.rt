//! Buffers for samples that a caller writes in place.

ghost use Rattle.std.specs.Prelude.{◌≡◌, ◌*◌, length, map, Ok};
ghost use Rattle.std.specs.List.{flat_map};
ghost use Rattle.tiff_base.specs.Answers.{AnswersWithoutSource};
ghost use Rattle.tiff_base.specs.Number.{le};
ghost use Rattle.tiff_page.specs.Layout.{size_of};
ghost use Rattle.tiff_decode.specs.Result.{buffered_as, bytes_of};

use std::alloc::Global;
use tiff_base::error::TiffResult;
use tiff_base::tags::{Bits16, Bits32, Bits64};
use tiff_page::numbers::Number;

/// Samples that a caller writes in place, by their number type.
#[derive(Drop)]
pub enum DecodingBuffer<'a> {
    U8(&'a mut [u8]),
    U16(&'a mut [u16]),
    U32(&'a mut [u32]),
    U64(&'a mut [u64]),
    F16(&'a mut [Bits16]),
    F32(&'a mut [Bits32]),
    F64(&'a mut [Bits64]),
    I8(&'a mut [i8]),
    I16(&'a mut [i16]),
    I32(&'a mut [i32]),
    I64(&'a mut [i64]),
}

// The bytes of samples, in little-endian order.
#[tactic(auto, using(crate::proofs::SampleBytes::lowest_bytes))]
fn bytes_of<T: Number<N>, const N: usize>(alloc: Global, samples: &[T]) -> TiffResult<Vec<u8>>
    ensures { AnswersWithoutSource (λ v. v.items) result
        (Ok (flat_map (le N) (map T.bits samples.now))) }
{
    let mut bytes = Vec::with_capacity(alloc, samples.len().saturating_mul(N))?;
    for sample in samples {
        bytes.extend_from_slice(&sample.bytes())?;
    }
    Ok(bytes)
}

impl DecodingBuffer<'_> {
    /// The number of bytes of the samples.
    pub fn byte_len(&self) -> usize
        ensures { result ≡ length (buffered_as self.now).numbers
            * size_of (buffered_as self.now).sample_type }
    {
        match self {
            DecodingBuffer::U8(samples) => samples.len(),
            DecodingBuffer::U16(samples) => samples.len() * 2,
            DecodingBuffer::U32(samples) => samples.len() * 4,
            DecodingBuffer::U64(samples) => samples.len() * 8,
            DecodingBuffer::F16(samples) => samples.len() * 2,
            DecodingBuffer::F32(samples) => samples.len() * 4,
            DecodingBuffer::F64(samples) => samples.len() * 8,
            DecodingBuffer::I8(samples) => samples.len(),
            DecodingBuffer::I16(samples) => samples.len() * 2,
            DecodingBuffer::I32(samples) => samples.len() * 4,
            DecodingBuffer::I64(samples) => samples.len() * 8,
        }
    }

    /// A copy of the samples as bytes, in little-endian order.
    pub fn as_bytes(&self, alloc: Global) -> TiffResult<Vec<u8>>
        ensures { AnswersWithoutSource (λ v. v.items) result (Ok (bytes_of (buffered_as self.now))) }
    {
        match self {
            DecodingBuffer::U8(samples) => bytes_of::<u8, 1>(alloc, samples),
            DecodingBuffer::U16(samples) => bytes_of::<u16, 2>(alloc, samples),
            DecodingBuffer::U32(samples) => bytes_of::<u32, 4>(alloc, samples),
            DecodingBuffer::U64(samples) => bytes_of::<u64, 8>(alloc, samples),
            DecodingBuffer::F16(samples) => bytes_of::<Bits16, 2>(alloc, samples),
            DecodingBuffer::F32(samples) => bytes_of::<Bits32, 4>(alloc, samples),
            DecodingBuffer::F64(samples) => bytes_of::<Bits64, 8>(alloc, samples),
            DecodingBuffer::I8(samples) => bytes_of::<i8, 1>(alloc, samples),
            DecodingBuffer::I16(samples) => bytes_of::<i16, 2>(alloc, samples),
            DecodingBuffer::I32(samples) => bytes_of::<i32, 4>(alloc, samples),
            DecodingBuffer::I64(samples) => bytes_of::<i64, 8>(alloc, samples),
        }
    }
}

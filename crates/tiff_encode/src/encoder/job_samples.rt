//! The samples of jobs: numbers, or bytes that the caller lends.

ghost use Rattle.std.specs.Int.{w8, w16, w32, w64};
ghost use Rattle.std.specs.Prelude.{◌≡◌, ◌-◌, ◌^◌, ◌%◌, ◌<◌, ◌≤◌, length, map, IfSome, MatchResult};
ghost use Rattle.tiff_base.specs.Number.{number};
ghost use Rattle.tiff_base.specs.Types.{type_size};
ghost use Rattle.tiff_base.specs.declared.tags.ByteOrder.TheVariants.{LittleEndian};
ghost use Rattle.tiff_page.specs.Pixels.{numbers_in, width_of};
ghost use Rattle.tiff_value.specs.ColorType.{sample_number};
ghost use Rattle.tiff_encode.specs.JobSamples.{cut_items, samples_of_type};
ghost use Rattle.tiff_encode.specs.JobValues.{cut_to};

use std::alloc::Global;
use std::marker::Model;
use tiff_base::error::{TiffError, TiffResult, UsageError};
use tiff_base::tags::Type;
use tiff_value::encoder::horizontal_predictor::Sample;

// Where the samples of a job are: in a list of numbers, or in lent bytes, which are whole values of
// a field type.
#[derive(Drop)]
enum SamplesHeld<'a> {
    Numbers(Vec<u64>),
    Bytes(Type, &'a [u8]),
}

/// The samples of a job: numbers, or bytes that the caller lends, so that no list of them is made.
/// Contracts see the list of the numbers.
#[derive(Drop)]
pub struct JobSamples<'a> {
    held: SamplesHeld<'a>,
}

impl<'a> Model for JobSamples<'a> {
    ghost use Rattle.std.specs.Prelude.{ℕ, List};
    ghost use Rattle.std.specs.Coded.{coded_list, coded_ℕ};

    ghost Value = { List ℕ };

    ghost coded = { coded_list coded_ℕ };

    ghost use Rattle.tiff_encode.specs.JobSamples.{held_numbers, IsWhole};

    ghost view = { λ s. held_numbers s.held };

    ghost invariant = { λ s. IsWhole s.held };
}

/// Samples in the number type of a color type: lent, or in a list of their own.
#[derive(Drop)]
pub enum CutSamples<'a, S> {
    Lent(&'a [S]),
    Own(Vec<S>),
}

impl<'a, S> CutSamples<'a, S> {
    /// Returns the samples.
    pub fn as_slice(&self) -> &[S]
        ensures { result.now ≡ cut_items self.now }
    {
        match self {
            CutSamples::Lent(samples) => samples,
            CutSamples::Own(samples) => samples,
        }
    }
}

// An unsigned number of `N` bytes.
trait Number<const N: usize> {
    ghost use Rattle.std.specs.Prelude.{◌≡◌};
    ghost use Rattle.tiff_base.specs.declared.tags.ByteOrder.TheVariants.{LittleEndian};
    ghost use Rattle.tiff_base.specs.Number.{number};
    ghost use Rattle.tiff_page.specs.Pixels.{width_of};

    // The number that bytes are, the lowest byte first.
    fn of(bytes: [u8; N]) -> u64
        ensures { result ≡ number LittleEndian (width_of N) bytes.entry };
}

impl Number<1> for u8 {
    #[tactic(auto, unfolding(tiff_base::specs::Number::number))]
    fn of(bytes: [u8; 1]) -> u64
        ensures { result ≡ number LittleEndian w8 bytes }
    {
        u64::from(u8::from_le_bytes(bytes))
    }
}

impl Number<2> for u16 {
    #[tactic(auto, unfolding(tiff_base::specs::Number::number))]
    fn of(bytes: [u8; 2]) -> u64
        ensures { result ≡ number LittleEndian w16 bytes }
    {
        u64::from(u16::from_le_bytes(bytes))
    }
}

impl Number<4> for u32 {
    #[tactic(auto, unfolding(tiff_base::specs::Number::number))]
    fn of(bytes: [u8; 4]) -> u64
        ensures { result ≡ number LittleEndian w32 bytes }
    {
        u64::from(u32::from_le_bytes(bytes))
    }
}

impl Number<8> for u64 {
    #[tactic(auto, unfolding(tiff_base::specs::Number::number))]
    fn of(bytes: [u8; 8]) -> u64
        ensures { result ≡ number LittleEndian w64 bytes }
    {
        u64::from_le_bytes(bytes)
    }
}

// Returns samples, each of which is the lowest bits of a number. The only error is `OutOfMemory`.
fn cut_numbers<S: Sample>(alloc: Global, numbers: &[u64]) -> TiffResult<Vec<S>>
    ensures { MatchResult result
        (λ v. map (sample_number (type_size S.value_type) S.bits) v.items
        ≡ cut_to (type_size S.value_type) numbers.now)
        (λ e. e ≡ TiffError.OutOfMemory) }
{
    let mut samples = Vec::with_capacity(alloc, numbers.len())?;
    for number in numbers {
        samples.push_reserved(S::cut(*number));
    }
    Ok(samples)
}

// Returns samples, each of which is the lowest bits of a number of `N` bytes. The only error is
// `OutOfMemory`.
#[tactic(auto, using(crate::specs::lemmas::JobSamples::next_cut, crate::specs::lemmas::JobSamples::all_cut))]
fn cut_pieces<S: Sample, U: Number<N>, const N: usize>(
    alloc: Global,
    bytes: &[u8],
) -> TiffResult<Vec<S>>
    requires some { 0 < N }
    requires few { N ≤ 8 }
    requires whole { length bytes.now % N ≡ 0 }
    ensures { MatchResult result
        (λ v. map (sample_number (type_size S.value_type) S.bits) v.items
        ≡ cut_to (type_size S.value_type) (numbers_in N bytes.now))
        (λ e. e ≡ TiffError.OutOfMemory) }
{
    let (pieces, _) = bytes.as_chunks::<N>();
    let mut samples = Vec::with_capacity(alloc, pieces.len())?;
    for piece in pieces {
        samples.push_reserved(S::cut(U::of(*piece)));
    }
    Ok(samples)
}

// Returns samples, each of which is the lowest bits of a byte: the bytes themselves, if they are
// samples. The only error is `OutOfMemory`.
fn cut_octets<'a, S: Sample>(alloc: Global, bytes: &'a [u8]) -> TiffResult<CutSamples<'a, S>>
    ensures { MatchResult result
        (λ s. map (sample_number (type_size S.value_type) S.bits) (cut_items s)
        ≡ cut_to (type_size S.value_type) (numbers_in 1 bytes.now))
        (λ e. e ≡ TiffError.OutOfMemory) }
{
    match S::from_bytes(bytes) {
        Some(samples) => Ok(CutSamples::Lent(samples)),
        None => Ok(CutSamples::Own(cut_pieces::<S, u8, 1>(alloc, bytes)?)),
    }
}

// Returns samples, each of which is the lowest bits of a value of a field type. The only error is
// `OutOfMemory`.
fn cut_values<'a, S: Sample>(
    alloc: Global,
    ty: Type,
    bytes: &'a [u8],
) -> TiffResult<CutSamples<'a, S>>
    requires whole { length bytes.now % type_size ty ≡ 0 }
    ensures { MatchResult result
        (λ s. map (sample_number (type_size S.value_type) S.bits) (cut_items s)
        ≡ cut_to (type_size S.value_type) (numbers_in (type_size ty) bytes.now))
        (λ e. e ≡ TiffError.OutOfMemory) }
{
    match ty.byte_len() {
        1 => cut_octets(alloc, bytes),
        2 => Ok(CutSamples::Own(cut_pieces::<S, u16, 2>(alloc, bytes)?)),
        4 => Ok(CutSamples::Own(cut_pieces::<S, u32, 4>(alloc, bytes)?)),
        _ => Ok(CutSamples::Own(cut_pieces::<S, u64, 8>(alloc, bytes)?)),
    }
}

impl<'a> JobSamples<'a> {
    /// Samples that are given as numbers.
    pub fn from_numbers(numbers: Vec<u64>) -> Self
        ensures { result ≡ numbers.items }
    {
        JobSamples {
            held: SamplesHeld::Numbers(numbers),
        }
    }

    /// Samples that are lent as values of a field type, of each the lowest byte first. Returns
    /// `UsageError(MismatchedEntryLength)` if a part of a value is left over.
    pub fn from_bytes(ty: Type, bytes: &'a [u8]) -> TiffResult<Self>
        ensures { result ≡ samples_of_type ty bytes.now }
    {
        let found = bytes.len();
        if found % usize::from(ty.byte_len()) != 0 {
            return Err(UsageError::MismatchedEntryLength { ty, found }.into());
        }
        Ok(JobSamples {
            held: SamplesHeld::Bytes(ty, bytes),
        })
    }

    /// Returns samples, each of which is the lowest bits of a number. Lent bytes are lent on if
    /// each sample is one unsigned byte; else one list is made. The only error is `OutOfMemory`.
    pub fn cut<'b, S: Sample>(&'b self, alloc: Global) -> TiffResult<CutSamples<'b, S>>
        ensures { MatchResult result
            (λ s. map (sample_number (type_size S.value_type) S.bits) (cut_items s)
            ≡ cut_to (type_size S.value_type) self.now)
            (λ e. e ≡ TiffError.OutOfMemory) }
    {
        match &self.held {
            SamplesHeld::Numbers(numbers) => {
                let samples = cut_numbers(alloc, numbers)?;
                return Ok(CutSamples::Own(samples));
            }
            SamplesHeld::Bytes(ty, bytes) => return cut_values(alloc, *ty, bytes),
        }
    }

    /// Returns the lent bytes, if they are values of `size` bytes. Returns `None` for other
    /// samples.
    pub(crate) fn lent(&self, size: usize) -> Option<&[u8]>
        ensures numbers { IfSome result (λ bytes. self.now ≡ numbers_in size bytes.now) }
        ensures whole { IfSome result (λ bytes. length bytes.now % size ≡ 0) }
    {
        match &self.held {
            SamplesHeld::Bytes(ty, bytes) if usize::from(ty.byte_len()) == size => Some(bytes),
            _ => None,
        }
    }

    // States that the samples are fewer than the largest `u64`.
    pub(crate) fn are_few(&self)
        ensures { length self.now < 2 ^ 64 - 1 }
    {
        match &self.held {
            SamplesHeld::Numbers(numbers) => {
                let _count = numbers.len();
            }
            SamplesHeld::Bytes(_ty, bytes) => {
                let _count = bytes.len();
            }
        }
    }
}

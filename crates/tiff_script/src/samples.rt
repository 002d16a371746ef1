//! The samples of an image as words.

ghost use Rattle.std.specs.Prelude.{◌≡◌, ◌≤◌, ◌*◌, ◌++◌, ◌∷◌, [], ℕ, List, IfSome, None, Some, Ok, Err, if◌then◌else◌, nat_le};
ghost use Rattle.std.specs.Option.{option_map};
ghost use Rattle.tiff_script.specs.Line.{Reads};
ghost use Rattle.tiff_script.specs.declared.words.ParseError.TheVariants as parse_error;
ghost use Rattle.tiff_script.specs.Samples.{extended, float_type, most, ascending, range_ends, range_of, sample, sample_type, samples, sign_of, signed_type, tiled, unsigned_type, with_run, with_samples, written};

use crate::words::{FromWord, ParseError, parts, repeated};
use std::alloc::Global;
use tiff_base::tags::{Bits32, Bits64, SampleFormat};
use tiff_encode::encoder::columns;
use tiff_value::encoder::color_visitor::{ColorVisitor, by_name};
use tiff_value::encoder::colortype::{ColorTypeName, NamedColorType};

// The type of a sample.
#[derive(Clone, Copy)]
enum SampleType {
    U8,
    U16,
    U32,
    U64,
    I8,
    I16,
    I32,
    I64,
    F32,
    F64,
}

impl SampleType {
    // The bit that makes a number of a sample whose order is that of the samples, and of the number
    // the sample again; `None` of floating-point numbers.
    fn sign(self) -> Option<u64>
        ensures { result ≡ sign_of self }
    {
        match self {
            SampleType::U8 | SampleType::U16 | SampleType::U32 | SampleType::U64 => Some(0),
            SampleType::I8 | SampleType::I16 | SampleType::I32 | SampleType::I64 => Some(1 << 63),
            SampleType::F32 | SampleType::F64 => None,
        }
    }

    // The sample that a word stands for. A sample of a signed type keeps its sign in all 64 bits.
    #[tactic(auto, unfolding(crate::specs::Samples::sample))]
    fn sample(self, word: &str) -> Option<u64>
        ensures { result ≡ sample self word.now }
    {
        match self {
            SampleType::U8 => Some(u64::from(u8::from_word(word)?)),
            SampleType::U16 => Some(u64::from(u16::from_word(word)?)),
            SampleType::U32 => Some(u64::from(u32::from_word(word)?)),
            SampleType::U64 => u64::from_word(word),
            SampleType::I8 => Some(i64::from(i8::from_word(word)?).cast_unsigned()),
            SampleType::I16 => Some(i64::from(i16::from_word(word)?).cast_unsigned()),
            SampleType::I32 => Some(i64::from(i32::from_word(word)?).cast_unsigned()),
            SampleType::I64 => Some(i64::from_word(word)?.cast_unsigned()),
            SampleType::F32 => Some(u64::from(Bits32::from_word(word)?.0)),
            SampleType::F64 => Some(Bits64::from_word(word)?.0),
        }
    }
}

// The type of the samples of a color type in memory, and how many a column has: a pixel's, or one
// byte of packed pixels.
#[derive(Clone, Copy)]
struct Pixel {
    sample: SampleType,
    samples: u64,
}

// The type of unsigned samples of so many bits. Fewer than 8 are packed into bytes.
fn unsigned_type(bits: u16) -> SampleType
    ensures { result ≡ unsigned_type bits }
{
    match bits {
        0..=8 => SampleType::U8,
        16 => SampleType::U16,
        32 => SampleType::U32,
        _ => SampleType::U64,
    }
}

// The type of samples with a sign of so many bits.
fn signed_type(bits: u16) -> SampleType
    ensures { result ≡ signed_type bits }
{
    match bits {
        8 => SampleType::I8,
        16 => SampleType::I16,
        32 => SampleType::I32,
        _ => SampleType::I64,
    }
}

// The type of floating-point samples of so many bits.
fn float_type(bits: u16) -> SampleType
    ensures { result ≡ float_type bits }
{
    match bits {
        32 => SampleType::F32,
        _ => SampleType::F64,
    }
}

// The type of samples of a format and a number of bits.
fn sample_type(format: SampleFormat, bits: u16) -> SampleType
    ensures { result ≡ sample_type format bits }
{
    match format {
        SampleFormat::Int => signed_type(bits),
        SampleFormat::IEEEFP => float_type(bits),
        _ => unsigned_type(bits),
    }
}

// Gives the pixel of a color type, and the columns of an image of so many pixels a row.
struct PixelOf;

impl ColorVisitor<(), u32, (Pixel, u32)> for PixelOf {
    ghost use Rattle.std.specs.Prelude.{◌≡◌};
    ghost use Rattle.tiff_value.specs.ColorType.{columns_of};
    ghost use Rattle.tiff_value.specs.ColorTypes.{color_type};
    ghost use Rattle.tiff_script.specs.Samples.{pixel_of};

    ghost takes = { λ _ _ _. Unit };

    ghost visits = { λ name _ width found _.
        (found.0 ≡ pixel_of (color_type name)) × (found.1 ≡ columns_of (color_type name) width) };

    fn visit<C: NamedColorType>(_none: &mut (), width: u32) -> (Pixel, u32) {
        let format = C::sample_formats().first().copied();
        let bits = C::sample_bits();
        let pixel = Pixel {
            sample: sample_type(
                format.unwrap_or(SampleFormat::Uint),
                bits.first().copied().unwrap_or(8),
            ),
            samples: bits.len() as u64,
        };
        (pixel, columns::<C>(width))
    }
}

// The number of places of an area of these sides.
fn area(width: u32, height: u32) -> u64
    ensures { result ≡ width * height }
{
    u64::from(width) * u64::from(height)
}

// A range of samples: the numbers of both ends, and the bit that makes a sample of a number.
#[derive(Clone, Copy)]
struct SampleRange {
    first: u64,
    last: u64,
    sign: u64,
}

// Adds the samples of a range.
fn push_ascending(samples: &mut Vec<u64>, range: SampleRange) -> Result<(), ParseError>
    ensures { Reads (λ _. samples.new.items) (Some (samples.old.items ++ ascending range)) result }
{
    for number in range.first..=range.last {
        samples.push(number ^ range.sign)?;
    }
    Ok(())
}

// Both ends of a range, as `0` and `255` of `0..255`; `None` if a word is no range.
#[tactic(auto, unfolding(crate::specs::Samples::range_ends))]
fn range_ends(word: &str) -> Option<(&str, &str)>
    ensures { option_map {U = List ℕ × List ℕ} (λ ends. (ends.0.now, ends.1.now)) result
        ≡ range_ends word.now }
{
    let (first, rest) = parts(word, '.')?;
    Some((first, rest.strip_prefix('.')?))
}

/// How the samples of an image are written: of which type they are, and how many of them a word may
/// stand for.
#[derive(Clone, Copy)]
pub struct SampleWords {
    pixel: Pixel,
    columns: u64,
}

impl SampleWords {
    /// The samples of an image of these sides. A word stands for as many samples at most as the
    /// image has, and always for one. Pixels of fewer than 8 bits are bytes of packed pixels, and a
    /// row begins with a new byte.
    #[tactic(auto, unfolding(crate::specs::Samples::written))]
    pub fn new(color: ColorTypeName, width: u32, height: u32) -> Self
        ensures { result ≡ written color width height }
    {
        let (pixel, width) = by_name::<(), u32, (Pixel, u32), PixelOf>(color, &mut (), width);
        SampleWords {
            pixel,
            columns: area(width, height),
        }
    }

    /// The same in tiles of these sides: a word may stand for a tile that is larger than the image.
    #[tactic(auto, unfolding(crate::specs::Samples::tiled))]
    pub fn with_tiles(self, width: u32, height: u32) -> Self
        ensures { result ≡ tiled self width height }
    {
        SampleWords {
            columns: self.columns.max(area(width, height)),
            ..self
        }
    }

    /// The same with so many more samples in each pixel.
    #[tactic(auto, unfolding(crate::specs::Samples::extended))]
    pub fn with_extra_samples(self, count: usize) -> Self
        ensures { result ≡ extended self count }
    {
        SampleWords {
            pixel: Pixel {
                samples: self.pixel.samples.saturating_add(count as u64),
                ..self.pixel
            },
            ..self
        }
    }

    // The most samples that a word may stand for.
    fn most(self) -> u128
        ensures { result ≡ most self }
    {
        let all = u128::from(self.columns) * u128::from(self.pixel.samples);
        all.max(1)
    }

    // The range from one sample to another; `None` if it falls, and of floating-point numbers.
    #[tactic(auto, unfolding(crate::specs::Samples::range_of))]
    fn range(self, first: &str, last: &str) -> Option<SampleRange>
        ensures range { result ≡ range_of self.pixel.sample first.now last.now }
        ensures rises { IfSome result (λ r. r.first ≤ r.last) }
    {
        let sign = self.pixel.sample.sign()?;
        let first = self.pixel.sample.sample(first)? ^ sign;
        let last = self.pixel.sample.sample(last)? ^ sign;
        (first <= last).then_some(SampleRange { first, last, sign })
    }

    // Refuses more samples than a word may stand for, before there is memory for them.
    fn check_count(self, count: u128) -> Result<(), ParseError>
        ensures { result ≡ (if nat_le count (most self) then Ok tt else Err parse_error.Form) }
    {
        if count > self.most() {
            return Err(ParseError::Form);
        }
        Ok(())
    }

    // Adds the samples of a range as often as it counts: for `0..255` 256 samples.
    #[tactic(auto, using(crate::proofs::SampleRuns::length_ascending, crate::proofs::SampleRuns::run_more), unfolding(crate::specs::Samples::with_run))]
    fn push_range(
        self,
        samples: &mut Vec<u64>,
        range: SampleRange,
        count: u64,
    ) -> Result<(), ParseError>
        requires { range.first ≤ range.last }
        ensures { Reads (λ _. samples.new.items)
            (with_run self samples.old.items (ascending range) count) result }
    {
        self.check_count(u128::from(count) * (u128::from(range.last - range.first) + 1))?;
        for _ in 0..count {
            push_ascending(samples, range)?;
        }
        Ok(())
    }

    // Adds a sample as often as it counts.
    #[tactic(auto, using(crate::proofs::SampleRuns::run_of_one), unfolding(crate::specs::Samples::with_run))]
    fn push_copies(self, samples: &mut Vec<u64>, sample: u64, count: u64) -> Result<(), ParseError>
        ensures { Reads (λ _. samples.new.items)
            (with_run self samples.old.items (sample ∷ []) count) result }
    {
        self.check_count(u128::from(count))?;
        for _ in 0..count {
            samples.push(sample)?;
        }
        Ok(())
    }

    // Adds the samples of a word.
    #[tactic(auto, unfolding(crate::specs::Samples::with_samples))]
    fn push_word(self, samples: &mut Vec<u64>, word: &str) -> Result<(), ParseError>
        ensures { Reads (λ _. samples.new.items)
            (with_samples self samples.old.items word.now) result }
    {
        let (word, count) = repeated(word)?;
        match range_ends(word) {
            Some((first, last)) => {
                let range = self.range(first, last).ok_or(ParseError::Form)?;
                self.push_range(samples, range, count)
            }
            None => {
                let sample = self.pixel.sample.sample(word).ok_or(ParseError::Form)?;
                self.push_copies(samples, sample, count)
            }
        }
    }

    /// The samples that words stand for: numbers, or ranges from one to another, each once or a
    /// number of times. `Form` for words that aren't so, for a number that is no sample of the
    /// color type, for a falling range, and for a word of more samples than the image has.
    #[tactic(auto, unfolding(crate::specs::Samples::samples))]
    pub fn samples_of(self, alloc: Global, words: &str) -> Result<Vec<u64>, ParseError>
        ensures { Reads (λ list. list.items) (samples self words.now) result }
    {
        let mut samples = Vec::new(alloc);
        if words.is_empty() {
            return Ok(samples);
        }
        for word in words.split(' ') {
            self.push_word(&mut samples, word)?;
        }
        Ok(samples)
    }
}

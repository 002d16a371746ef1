//! What a page says about its samples, as an open image has it, and a value that is repeated, one
//! for each sample.

ghost use Rattle.std.specs.Prelude.{◌≡◌, ◌+◌, ◌^◌, ◌<◌, get_or, length, ◌++◌, replicate, MatchResult};
ghost use Rattle.tiff_encode.specs.Calls.{extended_by_first};
ghost use Rattle.tiff_value.specs.ColorType.{columns_of};
ghost use Rattle.std.specs.Io.{StartsWith};
ghost use Rattle.std.specs.List.{flat_map};
ghost use Rattle.tiff_base.specs.Types.{type_size};
ghost use Rattle.tiff_base.specs.declared.tags.SampleFormat.TheVariants as format;
ghost use Rattle.tiff_encode.specs.Causes as causes;
ghost use Rattle.tiff_value.specs.ColorType as color_type;

use std::marker::Model;
use tiff_base::error::{TiffError, TiffResult};
use tiff_base::tags::{PhotometricInterpretation, SampleFormat, Type};
use tiff_value::encoder::colortype::ColorType;
use tiff_value::encoder::tiff_value::{TiffScalar, TiffValue};

/// What a color type says about its samples: their photometric interpretation, their number in a
/// pixel, and the number of bits and the sample format of each.
// A value, so that the calls of an image are compiled once for each type of its samples, and not
// once for each color type.
#[derive(Drop)]
pub struct ImageColor {
    pub(crate) interpretation: PhotometricInterpretation,
    samples: u16,
    bits: u16,
    format: SampleFormat,
}

impl Model for ImageColor {
    ghost use Rattle.std.specs.Prelude.{◌<◌, replicate};
    ghost use Rattle.tiff_value.specs.ColorType.{ColorTypeRecord};

    ghost Value = { ColorTypeRecord };

    ghost view = { λ c. record {
      interpretation = c.interpretation;
      bits = replicate c.samples c.bits;
      formats = replicate c.samples c.format;
    } };

    ghost invariant = { λ c. (0 < c.samples) × (0 < c.bits) };
}

impl ImageColor {
    /// Returns what a color type says.
    pub(crate) fn of<C: ColorType>() -> Self
        ensures { result ≡ C.described }
    {
        let bits = C::sample_bits();
        ImageColor {
            interpretation: C::TIFF_VALUE,
            samples: bits.len() as u16,
            bits: first_of(bits),
            format: format_of(C::sample_formats()),
        }
    }

    /// Returns the number of samples of a pixel.
    pub(crate) fn samples(&self) -> u16
        ensures count { result ≡ length self.now.bits }
        ensures some { 0 < result }
    {
        self.samples
    }

    /// Returns the number of bits of the first sample of a pixel.
    pub(crate) fn first_bits(&self) -> u16
        ensures { result ≡ color_type.first_bits self.now }
    {
        self.bits
    }

    /// Returns whether several pixels are packed into a byte.
    pub(crate) fn is_packed(&self) -> bool
        ensures { result ≡ color_type.is_packed self.now }
    {
        self.first_bits() < 8
    }

    /// Returns whether the color type has no predictor: its samples aren't integers, or several are
    /// in a byte.
    pub(crate) fn is_unpredicted(&self) -> bool
        ensures { result ≡ causes.is_unpredicted self.now }
    {
        self.is_packed() || matches!(self.format, SampleFormat::IEEEFP | SampleFormat::Void)
    }

    /// `columns` of this color type.
    pub(crate) fn columns(&self, width: u32) -> u32
        ensures count { result ≡ columns_of self.now width }
        ensures some { 0 < width → 0 < result }
    {
        if !self.is_packed() {
            return width;
        }
        (u64::from(width) * u64::from(self.bits)).div_ceil(8) as u32
    }

    // Returns a value for each sample, and for `extra` more.
    fn for_samples<V>(&self, value: V, extra: usize) -> Repeated<V>
        requires { length self.now.bits + extra < 2 ^ 16 }
        ensures { result ≡ extended_by_first (replicate (length self.now.bits) value) extra }
    {
        Repeated::of(value, usize::from(self.samples) + extra)
    }

    /// Returns the number of bits of each sample, with `extra` more like the first.
    pub(crate) fn bits_with(&self, extra: usize) -> Repeated<u16>
        requires { length self.now.bits + extra < 2 ^ 16 }
        ensures { result ≡ extended_by_first self.now.bits extra }
    {
        self.for_samples(self.bits, extra)
    }

    /// Returns the format of each sample, with `extra` more like the first.
    pub(crate) fn formats_with(&self, extra: usize) -> Repeated<SampleFormat>
        requires { length self.now.bits + extra < 2 ^ 16 }
        ensures { result ≡ extended_by_first self.now.formats extra }
    {
        self.for_samples(self.format, extra)
    }
}

// Returns the number of bits of the first sample, 0 if there is none.
fn first_of(bits: &[u16]) -> u16
    ensures { result ≡ get_or bits.now 0 0 }
{
    match bits {
        [first, ..] => *first,
        [] => 0,
    }
}

// Returns the format of the first sample, that of integers if there is none.
fn format_of(formats: &[SampleFormat]) -> SampleFormat
    ensures { result ≡ get_or formats.now 0 format.Uint }
{
    match formats {
        [first, ..] => *first,
        [] => SampleFormat::Uint,
    }
}

// Appends the bytes of an item `count` times.
fn push_copies<T: TiffScalar>(item: &T, count: usize, out: &mut Vec<u8>) -> TiffResult<()>
    ensures answer { MatchResult result
        (λ _. out.new.items ≡ out.old.items ++ flat_map T.spelled (replicate count item.now))
        (λ e. e ≡ TiffError.OutOfMemory) }
    ensures front { StartsWith out.new.items out.old.items }
{
    for _ in 0..count {
        item.push_to(out)?;
    }
    Ok(())
}

/// `count` copies of a value.
#[derive(Drop)]
pub(crate) struct Repeated<T> {
    item: T,
    count: usize,
}

impl<T> Model for Repeated<T> {
    ghost use Rattle.std.specs.Prelude.{List, replicate};

    ghost Value = { List T };

    ghost view = { λ r. replicate r.count r.item };
}

impl<T> Repeated<T> {
    /// Returns `count` copies of a value.
    pub(crate) fn of(item: T, count: usize) -> Self
        ensures { result ≡ replicate count item }
    {
        Repeated { item, count }
    }
}

impl<T: TiffScalar> TiffValue for Repeated<T> {
    ghost use Rattle.std.specs.Prelude.{length, Ok};
    ghost use Rattle.tiff_value.specs.Data.{data_of};
    ghost use Rattle.tiff_value.specs.ValueLaws.{several};

    ghost value_type = { T.value_type };

    ghost value_count = { λ xs. length xs };

    ghost field_data = { λ xs. Ok (data_of (T.scalars xs)) };

    const BYTE_LEN: u8 = T::BYTE_LEN;

    const FIELD_TYPE: Type = T::FIELD_TYPE;

    fn type_and_len() -> (Type, u8)
        ensures kind { result.0 ≡ T.value_type }
        ensures len { result.1 ≡ type_size T.value_type }
    {
        T::type_and_len()
    }

    fn count(&self) -> usize {
        self.count
    }

    fn check(&self) -> TiffResult<()> {
        Ok(())
    }

    fn push_to(&self, out: &mut Vec<u8>) -> TiffResult<()> {
        push_copies(&self.item, self.count, out)
    }

    ghost sized = { λ xs. several T.value_type T.spelled T.scalars T.listed T.value_count T.field_data T.sized
        T.alone xs };
}

//! Single words of a line: numbers, and what numbers and names stand for.

ghost use Rattle.std.specs.Prelude.{◌≡◌, ◌<◌, ℕ, List, MatchOption, None, Option, Some, false, true};
ghost use Rattle.std.specs.Float.{binary32, binary64};
ghost use Rattle.std.specs.Float.Parse.{parse_float};
ghost use Rattle.std.specs.Option.{option_map};
ghost use Rattle.tiff_base.specs.Tags.{extra_of, format_of, interpretation_of, method_of, planar_of, predictor_of, tag_of, type_of, unit_of};
ghost use Rattle.tiff_script.specs.Digits.{bytes_in};
ghost use Rattle.tiff_script.specs.Numbers.{is_hexadecimal, magnitude, signed, unsigned};
ghost use Rattle.tiff_script.specs.Stands.{bits32, bits64, color, color_of_colors, color_of_inks, color_with_alpha, compression, decimal, fraction, ifd, ifd8, numbered, order, signed_fraction};
ghost use Rattle.tiff_script.specs.Line.{Reads, before, behind, count_of, first_word, has, items, pair, star, with_items, words_behind};
ghost use Rattle.tiff_script.specs.declared.words.ParseError.TheVariants as parse_error;

use crate::digits::bytes_of;
use crate::numbers::{magnitude, number, signed};
use std::alloc::{AllocError, AllocFailed, Global};
use tiff_base::tags::{
    Bits32, Bits64, ByteOrder, CompressionMethod, ExtraSamples, PhotometricInterpretation,
    PlanarConfiguration, Predictor, ResolutionUnit, SampleFormat, Tag, Type,
};
use tiff_encode::encoder::Compression;
use tiff_value::encoder::colortype::ColorTypeName;
use tiff_value::encoder::tiff_value::{Ifd, Ifd8, Rational, SRational};

/// Why words stand for nothing.
#[derive(Clone, Copy, Debug, Drop)]
pub enum ParseError {
    /// The words don't have the form that they need.
    Form,
    OutOfMemory,
}

impl From<AllocError> for ParseError {
    ghost from_gives = { λ _ e. e ≡ parse_error.OutOfMemory };

    fn from(_fault: AllocError) -> ParseError {
        ParseError::OutOfMemory
    }
}

impl<T: Drop> From<AllocFailed<T>> for ParseError {
    ghost from_gives = { λ _ e. e ≡ parse_error.OutOfMemory };

    fn from(_fault: AllocFailed<T>) -> ParseError {
        ParseError::OutOfMemory
    }
}

/// What a single word can stand for.
pub trait FromWord: Sized {
    ghost meaning: { List ℕ → Option Self };

    /// What the word stands for; `None` if it stands for nothing of this type.
    fn from_word(word: &str) -> Option<Self>
        ensures { result ≡ meaning word.now };
}

impl FromWord for u8 {
    ghost meaning = { unsigned 8 };

    fn from_word(word: &str) -> Option<u8> {
        u8::try_from(magnitude(word)?).ok()
    }
}

impl FromWord for i8 {
    ghost meaning = { signed 8 };

    fn from_word(word: &str) -> Option<i8> {
        i8::try_from(signed(word)?).ok()
    }
}

impl FromWord for u16 {
    ghost meaning = { unsigned 16 };

    fn from_word(word: &str) -> Option<u16> {
        u16::try_from(magnitude(word)?).ok()
    }
}

impl FromWord for i16 {
    ghost meaning = { signed 16 };

    fn from_word(word: &str) -> Option<i16> {
        i16::try_from(signed(word)?).ok()
    }
}

impl FromWord for u32 {
    ghost meaning = { unsigned 32 };

    fn from_word(word: &str) -> Option<u32> {
        u32::try_from(magnitude(word)?).ok()
    }
}

impl FromWord for i32 {
    ghost meaning = { signed 32 };

    fn from_word(word: &str) -> Option<i32> {
        i32::try_from(signed(word)?).ok()
    }
}

impl FromWord for u64 {
    ghost meaning = { magnitude };

    fn from_word(word: &str) -> Option<u64> {
        magnitude(word)
    }
}

impl FromWord for i64 {
    ghost meaning = { signed 64 };

    fn from_word(word: &str) -> Option<i64> {
        signed(word)
    }
}

impl FromWord for usize {
    ghost meaning = { magnitude };

    fn from_word(word: &str) -> Option<usize> {
        usize::try_from(magnitude(word)?).ok()
    }
}

// Whether a word has `0x` in front.
fn is_hexadecimal(word: &str) -> bool
    ensures { result ≡ is_hexadecimal word.now }
{
    word.starts_with("0x")
}

// The nearest number of 32 bits to a decimal one.
fn float32(word: &str) -> Option<f32>
    ensures { result ≡ parse_float binary32 word.now }
{
    word.parse::<f32>().ok()
}

// The nearest number of 64 bits to a decimal one.
fn float64(word: &str) -> Option<f64>
    ensures { result ≡ parse_float binary64 word.now }
{
    word.parse::<f64>().ok()
}

// Of NaN there are many, so its bits have to be given.
impl FromWord for Bits32 {
    ghost meaning = { bits32 };

    #[tactic(auto, unfolding(crate::specs::Stands::bits32))]
    fn from_word(word: &str) -> Option<Bits32> {
        if is_hexadecimal(word) {
            return Some(Bits32(u32::from_word(word)?));
        }
        let number = float32(word)?;
        if number.is_nan() {
            return None;
        }
        Some(Bits32(number.to_bits()))
    }
}

impl FromWord for Bits64 {
    ghost meaning = { bits64 };

    #[tactic(auto, unfolding(crate::specs::Stands::bits64))]
    fn from_word(word: &str) -> Option<Bits64> {
        if is_hexadecimal(word) {
            return Some(Bits64(u64::from_word(word)?));
        }
        let number = float64(word)?;
        if number.is_nan() {
            return None;
        }
        Some(Bits64(number.to_bits()))
    }
}

impl FromWord for Tag {
    ghost meaning = { numbered (λ n. Some (tag_of n)) };

    fn from_word(word: &str) -> Option<Tag> {
        Some(Tag::from_u16_exhaustive(u16::from_word(word)?))
    }
}

impl FromWord for Type {
    ghost meaning = { numbered type_of };

    fn from_word(word: &str) -> Option<Type> {
        Type::from_u16(u16::from_word(word)?)
    }
}

impl FromWord for CompressionMethod {
    ghost meaning = { numbered (λ n. Some (method_of n)) };

    fn from_word(word: &str) -> Option<CompressionMethod> {
        Some(CompressionMethod::from_u16_exhaustive(u16::from_word(word)?))
    }
}

impl FromWord for PhotometricInterpretation {
    ghost meaning = { numbered interpretation_of };

    fn from_word(word: &str) -> Option<PhotometricInterpretation> {
        PhotometricInterpretation::from_u16(u16::from_word(word)?)
    }
}

impl FromWord for PlanarConfiguration {
    ghost meaning = { numbered planar_of };

    fn from_word(word: &str) -> Option<PlanarConfiguration> {
        PlanarConfiguration::from_u16(u16::from_word(word)?)
    }
}

impl FromWord for Predictor {
    ghost meaning = { numbered predictor_of };

    fn from_word(word: &str) -> Option<Predictor> {
        Predictor::from_u16(u16::from_word(word)?)
    }
}

impl FromWord for ResolutionUnit {
    ghost meaning = { numbered unit_of };

    fn from_word(word: &str) -> Option<ResolutionUnit> {
        ResolutionUnit::from_u16(u16::from_word(word)?)
    }
}

impl FromWord for SampleFormat {
    ghost meaning = { numbered (λ n. Some (format_of n)) };

    fn from_word(word: &str) -> Option<SampleFormat> {
        Some(SampleFormat::from_u16_exhaustive(u16::from_word(word)?))
    }
}

impl FromWord for ExtraSamples {
    ghost meaning = { numbered extra_of };

    fn from_word(word: &str) -> Option<ExtraSamples> {
        ExtraSamples::from_u16(u16::from_word(word)?)
    }
}

impl FromWord for Ifd {
    ghost meaning = { ifd };

    fn from_word(word: &str) -> Option<Ifd> {
        Some(Ifd(u32::from_word(word)?))
    }
}

impl FromWord for Ifd8 {
    ghost meaning = { ifd8 };

    fn from_word(word: &str) -> Option<Ifd8> {
        Some(Ifd8(u64::from_word(word)?))
    }
}

/// The parts of a word in front of and behind the first such character, if it has one.
pub fn parts(word: &str, at: char) -> Option<(&str, &str)>
    requires { at < 128 }
    ensures { MatchOption result (has at word.now ≡ false) (λ parts. (has at word.now ≡ true)
        × (parts.0.now ≡ before at word.now) × (parts.1.now ≡ behind at word.now)) }
{
    word.split_once(at)
}

// The fraction that a decimal number is: `72.5` is 725/10.
#[tactic(auto, unfolding(crate::specs::Stands::decimal))]
fn decimal(whole: &str, digits: &str) -> Option<Rational>
    ensures { result ≡ decimal whole.now digits.now }
{
    // 10^9 is the largest power of ten below 2^32.
    if digits.len() > 9 {
        return None;
    }
    let d = 10u32.pow(digits.len() as u32);
    let whole = u128::from(number(whole, 10)?);
    let n = whole * u128::from(d) + u128::from(number(digits, 10)?);
    Some(Rational {
        n: u32::try_from(n).ok()?,
        d,
    })
}

impl FromWord for Rational {
    ghost meaning = { fraction };

    #[tactic(auto, unfolding(crate::specs::Stands::fraction))]
    fn from_word(word: &str) -> Option<Rational> {
        if let Some((whole, digits)) = parts(word, '.') {
            return decimal(whole, digits);
        }
        let (n, d) = parts(word, '/').unwrap_or((word, "1"));
        Some(Rational {
            n: u32::from_word(n)?,
            d: u32::from_word(d)?,
        })
    }
}

impl FromWord for SRational {
    ghost meaning = { signed_fraction };

    #[tactic(auto, unfolding(crate::specs::Stands::signed_fraction))]
    fn from_word(word: &str) -> Option<SRational> {
        let (n, d) = parts(word, '/').unwrap_or((word, "1"));
        Some(SRational {
            n: i32::from_word(n)?,
            d: i32::from_word(d)?,
        })
    }
}

impl FromWord for ByteOrder {
    ghost meaning = { order };

    #[tactic(auto, unfolding(crate::specs::Stands::order))]
    fn from_word(word: &str) -> Option<ByteOrder> {
        match word {
            "little" => Some(ByteOrder::LittleEndian),
            "big" => Some(ByteOrder::BigEndian),
            _ => None,
        }
    }
}

impl FromWord for Compression {
    ghost meaning = { compression };

    #[tactic(auto, unfolding(crate::specs::Stands::compression))]
    fn from_word(word: &str) -> Option<Compression> {
        match word {
            "uncompressed" => Some(Compression::Uncompressed),
            "packbits" => Some(Compression::PackbitsRows),
            "packbits-chunks" => Some(Compression::Packbits),
            _ => None,
        }
    }
}

// The color type of inks that a word is the name of.
#[tactic(auto, unfolding(crate::specs::Stands::color_of_inks))]
fn color_of_inks(word: &str) -> Option<ColorTypeName>
    ensures { result ≡ color_of_inks word.now }
{
    match word {
        "CMYK8" => Some(ColorTypeName::CMYK8),
        "CMYK16" => Some(ColorTypeName::CMYK16),
        "CMYK32" => Some(ColorTypeName::CMYK32),
        "CMYK64" => Some(ColorTypeName::CMYK64),
        "CMYK32Float" => Some(ColorTypeName::CMYK32Float),
        "CMYK64Float" => Some(ColorTypeName::CMYK64Float),
        "CMYKA8" => Some(ColorTypeName::CMYKA8),
        _ => None,
    }
}

// The color type with alpha or of inks that a word is the name of.
#[tactic(auto, unfolding(crate::specs::Stands::color_with_alpha))]
fn color_with_alpha(word: &str) -> Option<ColorTypeName>
    ensures { result ≡ color_with_alpha word.now }
{
    match word {
        "RGBA8" => Some(ColorTypeName::RGBA8),
        "RGBA16" => Some(ColorTypeName::RGBA16),
        "RGBA32" => Some(ColorTypeName::RGBA32),
        "RGBA64" => Some(ColorTypeName::RGBA64),
        "RGBA32Float" => Some(ColorTypeName::RGBA32Float),
        "RGBA64Float" => Some(ColorTypeName::RGBA64Float),
        _ => color_of_inks(word),
    }
}

// The color type of red, green and blue, of these with alpha or of inks that a word is the name of.
#[tactic(auto, unfolding(crate::specs::Stands::color_of_colors))]
fn color_of_colors(word: &str) -> Option<ColorTypeName>
    ensures { result ≡ color_of_colors word.now }
{
    match word {
        "RGB8" => Some(ColorTypeName::RGB8),
        "RGB16" => Some(ColorTypeName::RGB16),
        "RGB32" => Some(ColorTypeName::RGB32),
        "RGB64" => Some(ColorTypeName::RGB64),
        "RGB32Float" => Some(ColorTypeName::RGB32Float),
        "RGB64Float" => Some(ColorTypeName::RGB64Float),
        "YCbCr8" => Some(ColorTypeName::YCbCr8),
        _ => color_with_alpha(word),
    }
}

impl FromWord for ColorTypeName {
    ghost meaning = { color };

    #[tactic(auto, unfolding(crate::specs::Stands::color))]
    fn from_word(word: &str) -> Option<ColorTypeName> {
        match word {
            "Gray8" => Some(ColorTypeName::Gray8),
            "Gray16" => Some(ColorTypeName::Gray16),
            "Gray32" => Some(ColorTypeName::Gray32),
            "Gray64" => Some(ColorTypeName::Gray64),
            "GrayI8" => Some(ColorTypeName::GrayI8),
            "GrayI16" => Some(ColorTypeName::GrayI16),
            "GrayI32" => Some(ColorTypeName::GrayI32),
            "GrayI64" => Some(ColorTypeName::GrayI64),
            "Gray32Float" => Some(ColorTypeName::Gray32Float),
            "Gray64Float" => Some(ColorTypeName::Gray64Float),
            "Gray1" => Some(ColorTypeName::Gray1),
            "Gray2" => Some(ColorTypeName::Gray2),
            "Gray4" => Some(ColorTypeName::Gray4),
            _ => color_of_colors(word),
        }
    }
}

/// What a word stands for; `Form` if it stands for nothing of this type.
pub fn read<T: FromWord>(word: &str) -> Result<T, ParseError>
    ensures { Reads (λ x. x) (T.meaning word.now) result }
{
    T::from_word(word).ok_or(ParseError::Form)
}

/// The first word, and the words behind it.
pub fn first_word(words: &str) -> (&str, &str)
    ensures first { result.0.now ≡ first_word words.now }
    ensures behind { result.1.now ≡ words_behind words.now }
{
    parts(words, ' ').unwrap_or((words, ""))
}

/// What two words stand for; `Form` if one of them stands for nothing of its type.
pub fn pair_of<A: FromWord + Drop, B: FromWord>(words: &str) -> Result<(A, B), ParseError>
    ensures { Reads (λ x. x) (pair A.meaning B.meaning words.now) result }
{
    let (first, second) = first_word(words);
    let first = read::<A>(first)?;
    Ok((first, read::<B>(second)?))
}

// The most items that a word may stand for where no image sets a bound: 2^32.
const MOST_ITEMS: u64 = 1 << 32;

/// A word, and how often it counts: `7` once, or `7*20` twenty times.
pub fn repeated(word: &str) -> Result<(&str, u64), ParseError>
    ensures { Reads {B = List ℕ × ℕ} (λ r. (r.0.now, r.1))
        (option_map (λ count. (before star word.now, count)) (count_of word.now)) result }
{
    let (word, count) = parts(word, '*').unwrap_or((word, "1"));
    Ok((word, read(count)?))
}

// Adds what a word stands for, as often as it counts.
fn push_items<T: FromWord + Drop>(list: &mut Vec<T>, word: &str) -> Result<(), ParseError>
    ensures { Reads (λ _. list.new.items) (with_items T.meaning list.old.items word.now) result }
{
    let (word, count) = repeated(word)?;
    // Also a word that counts 0 times has to stand for something.
    let _item = read::<T>(word)?;
    if count > MOST_ITEMS {
        return Err(ParseError::Form);
    }
    for _ in 0..count {
        list.push(read::<T>(word)?)?;
    }
    Ok(())
}

/// What each word stands for, as often as it counts; no words are an empty list. Words that aren't
/// so: `Form`.
pub fn list_of<T: FromWord + Drop>(alloc: Global, words: &str) -> Result<Vec<T>, ParseError>
    ensures { Reads (λ list. list.items) (items T.meaning words.now) result }
{
    let mut list = Vec::new(alloc);
    if words.is_empty() {
        return Ok(list);
    }
    for word in words.split(' ') {
        push_items(&mut list, word)?;
    }
    Ok(list)
}

/// The bytes that hexadecimal digits are; `Form` for anything else.
pub fn digits_of(alloc: Global, word: &str) -> Result<Vec<u8>, ParseError>
    ensures { Reads (λ bytes. bytes.items) (bytes_in word.now) result }
{
    match bytes_of(alloc, word) {
        Ok(Some(bytes)) => Ok(bytes),
        Ok(None) => Err(ParseError::Form),
        Err(_) => Err(ParseError::OutOfMemory),
    }
}

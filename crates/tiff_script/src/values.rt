//! The values that jobs write, and the fields of directories, as words.

ghost use Rattle.std.specs.Prelude.{◌≡◌, List, ℕ};
ghost use Rattle.tiff_base.specs.declared.tags.«Type».{«Type»};
ghost use Rattle.tiff_base.specs.declared.tags.Tag.{Tag};
ghost use Rattle.tiff_script.specs.Line.{Reads};
ghost use Rattle.tiff_script.specs.Values.{buffer, buffer_held, field_bytes, fields, named_value, parted, place_value, tagged, typed, value, value_held, wide_value, with_field};

use crate::numbers::number;
use crate::words::{ParseError, digits_of, first_word, list_of, parts, read};
use std::alloc::Global;
use tiff_base::directory::{Directory, Entry};
use tiff_base::tags::{Tag, Type};
use tiff_encode::encoder::script::{JobBuffer, JobValue};

// A value of offsets or fractions.
#[tactic(auto, unfolding(crate::specs::Values::place_value))]
fn place_value(alloc: Global, name: &str, words: &str) -> Result<JobValue, ParseError>
    ensures { Reads value_held (place_value name.now words.now) result }
{
    match name {
        "ifd" => Ok(JobValue::Ifd(list_of(alloc, words)?)),
        "ifd8" => Ok(JobValue::Ifd8(list_of(alloc, words)?)),
        "rational" => Ok(JobValue::Rational(list_of(alloc, words)?)),
        "srational" => Ok(JobValue::SRational(list_of(alloc, words)?)),
        _ => Err(ParseError::Form),
    }
}

// A value of what numbers stand for, as a compression method or a predictor.
#[tactic(auto, unfolding(crate::specs::Values::named_value))]
fn named_value(alloc: Global, name: &str, words: &str) -> Result<JobValue, ParseError>
    ensures { Reads value_held (named_value name.now words.now) result }
{
    match name {
        "method" => Ok(JobValue::CompressionMethod(list_of(alloc, words)?)),
        "interpretation" => Ok(JobValue::PhotometricInterpretation(list_of(alloc, words)?)),
        "planar" => Ok(JobValue::PlanarConfiguration(list_of(alloc, words)?)),
        "predictor" => Ok(JobValue::Predictor(list_of(alloc, words)?)),
        "unit" => Ok(JobValue::ResolutionUnit(list_of(alloc, words)?)),
        "format" => Ok(JobValue::SampleFormat(list_of(alloc, words)?)),
        "extra" => Ok(JobValue::ExtraSamples(list_of(alloc, words)?)),
        _ => place_value(alloc, name, words),
    }
}

// A value of numbers of 32 or 64 bits.
#[tactic(auto, unfolding(crate::specs::Values::wide_value))]
fn wide_value(alloc: Global, name: &str, words: &str) -> Result<JobValue, ParseError>
    ensures { Reads value_held (wide_value name.now words.now) result }
{
    match name {
        "u32" => Ok(JobValue::U32(list_of(alloc, words)?)),
        "i32" => Ok(JobValue::I32(list_of(alloc, words)?)),
        "u64" => Ok(JobValue::U64(list_of(alloc, words)?)),
        "i64" => Ok(JobValue::I64(list_of(alloc, words)?)),
        "f32" => Ok(JobValue::Bits32(list_of(alloc, words)?)),
        "f64" => Ok(JobValue::Bits64(list_of(alloc, words)?)),
        _ => named_value(alloc, name, words),
    }
}

/// The value that words stand for: the name of a type, and a word for each number; or `text`, and
/// the text. Words that aren't so: `Form`.
#[tactic(auto, unfolding(crate::specs::Values::value))]
pub fn value_of(alloc: Global, words: &str) -> Result<JobValue, ParseError>
    ensures { Reads value_held (value words.now) result }
{
    let (name, words) = first_word(words);
    match name {
        "text" => Ok(JobValue::Text(String::from_str(alloc, words)?)),
        "u8" => Ok(JobValue::U8(list_of(alloc, words)?)),
        "i8" => Ok(JobValue::I8(list_of(alloc, words)?)),
        "u16" => Ok(JobValue::U16(list_of(alloc, words)?)),
        "i16" => Ok(JobValue::I16(list_of(alloc, words)?)),
        _ => wide_value(alloc, name, words),
    }
}

/// The bytes that words stand for: the number of a type, the byte order `little` or `big`, and the
/// bytes as hexadecimal digits. Words that aren't so: `Form`.
#[tactic(auto, unfolding(crate::specs::Values::buffer))]
pub fn buffer_of(alloc: Global, words: &str) -> Result<JobBuffer, ParseError>
    ensures { Reads buffer_held (buffer words.now) result }
{
    let (data_type, words) = first_word(words);
    let (order, digits) = first_word(words);
    Ok(JobBuffer {
        data_type: read(data_type)?,
        order: read(order)?,
        bytes: digits_of(alloc, digits)?,
    })
}

// The eight bytes that sixteen hexadecimal digits are.
#[tactic(auto, unfolding(crate::specs::Values::field_bytes))]
fn field_bytes(digits: &str) -> Option<[u8; 8]>
    ensures { result ≡ field_bytes digits.now }
{
    if digits.len() != 16 {
        return None;
    }
    Some(number(digits, 16)?.to_be_bytes())
}

// Both parts of `a:b`.
#[tactic(auto, unfolding(crate::specs::Values::parted))]
fn parted(word: &str) -> Result<(&str, &str), ParseError>
    ensures { Reads {B = List ℕ × List ℕ} (λ p. (p.0.now, p.1.now)) (parted word.now) result }
{
    parts(word, ':').ok_or(ParseError::Form)
}

// Sets the field that a word stands for: the number of its tag, the number of its type, how many
// values it has, and its eight bytes as digits, with `:` between them.
fn set_field(directory: &mut Directory, word: &str) -> Result<(), ParseError>
    ensures { Reads (λ _. directory.new) (with_field directory.old word.now) result }
{
    let (tag, word) = parted(word)?;
    let (data_type, word) = parted(word)?;
    let (count, digits) = parted(word)?;
    let value = field_bytes(digits).ok_or(ParseError::Form)?;
    let entry = Entry::new_u64(read::<Type>(data_type)?, read::<u64>(count)?, value);
    directory.insert(read::<u16>(tag)?, entry)?;
    Ok(())
}

/// The directory of the fields that words stand for; no words are no fields. Each word is the
/// number of a tag, the number of a type, the count of values and eight bytes as hexadecimal
/// digits, with `:` between them. Words that aren't so: `Form`.
#[tactic(auto, unfolding(crate::specs::Values::fields))]
pub fn directory_of(alloc: Global, words: &str) -> Result<Directory, ParseError>
    ensures { Reads (λ d. d) (fields words.now) result }
{
    let mut directory = Directory::empty(alloc);
    if words.is_empty() {
        return Ok(directory);
    }
    for word in words.split(' ') {
        set_field(&mut directory, word)?;
    }
    Ok(directory)
}

/// The tag whose number is the first word, and the words behind it. Another word: `Form`.
#[tactic(auto, unfolding(crate::specs::Values::tagged))]
pub fn tagged(words: &str) -> Result<(Tag, &str), ParseError>
    ensures { Reads {B = Tag × List ℕ} (λ t. (t.0, t.1.now)) (tagged words.now) result }
{
    let (tag, words) = first_word(words);
    Ok((read(tag)?, words))
}

/// The type whose number is the first word, and the bytes that the second word is as hexadecimal
/// digits. Words that aren't so: `Form`.
#[tactic(auto, unfolding(crate::specs::Values::typed))]
pub fn typed_bytes(alloc: Global, words: &str) -> Result<(Type, Vec<u8>), ParseError>
    ensures { Reads {B = «Type» × List ℕ} (λ t. (t.0, t.1.items)) (typed words.now) result }
{
    let (data_type, digits) = first_word(words);
    Ok((read(data_type)?, digits_of(alloc, digits)?))
}

//! The values that a writer puts into fields.

ghost use Rattle.std.specs.Prelude.{◌≡◌, ◌+◌, ◌++◌, length, Err, MatchResult};
ghost use Rattle.std.specs.Io.{StartsWith};
ghost use Rattle.std.specs.List.{flat_map, list_all};
ghost use Rattle.tiff_base.specs.Answers.{AnswersBut};
ghost use Rattle.tiff_base.specs.Types.{type_size};
ghost use Rattle.tiff_value.specs.Data.{is_letter};
ghost use Rattle.tiff_value.specs.Values.{byte_count, values_in, IsWritable, Pushes, WritesValue};

use crate::encoder::writer::TiffWriter;
use std::alloc::Global;
use tiff_base::error::{TiffError, TiffFormatError, TiffResult, UsageError};
use tiff_base::io::Sink;
use tiff_base::tags::Type;

/// The value of a field: values of one type.
pub trait TiffValue: Drop {
    ghost use Rattle.std.specs.Prelude.{ℕ, Result};
    ghost use Rattle.tiff_base.specs.declared.error.TiffError.{TiffError};
    ghost use Rattle.tiff_base.specs.declared.tags.«Type».{«Type»};
    ghost use Rattle.tiff_value.specs.Data.{FieldData};
    ghost use Rattle.tiff_value.specs.Values.{IsValue};

    // The type of the values.
    ghost value_type: { «Type» };

    // The number of values.
    ghost value_count: { Self → ℕ };

    // The field's data, or the error of a value that no field can have.
    ghost field_data: { Self → Result FieldData TiffError };

    /// The number of bytes of one value of this type.
    const BYTE_LEN: u8;

    /// The type of the values.
    const FIELD_TYPE: Type;

    /// Returns `FIELD_TYPE` and `BYTE_LEN`, with a contract that defines their values. This project
    /// adds this function.
    fn type_and_len() -> (Type, u8)
        ensures kind { result.0 ≡ value_type }
        ensures len { result.1 ≡ type_size value_type };

    /// Returns the number of values.
    fn count(&self) -> usize
        ensures { result ≡ value_count self.now };

    /// Returns the number of bytes of the values, or `usize::MAX` if that number is larger.
    final fn bytes(&self) -> usize
        ensures { result ≡ byte_count (value_count self.now) value_type }
    {
        let (_kind, len) = Self::type_and_len();
        self.count().saturating_mul(usize::from(len))
    }

    /// Checks whether a field can have this value. The check allocates nothing. Returns
    /// `FormatError(InvalidTag)` for a text that can't be written. This project adds this function.
    fn check(&self) -> TiffResult<()>
        ensures { MatchResult result (λ _. IsWritable (field_data self.now))
            (λ e. field_data self.now ≡ Err e) };

    /// Appends the bytes of the values, the least significant byte of each number first. Returns
    /// `FormatError(InvalidTag)` for a text that can't be written. The other error is
    /// `OutOfMemory`, only for a value that can be written. After it, `out` begins with its earlier
    /// contents.
    fn push_to(&self, out: &mut Vec<u8>) -> TiffResult<()>
        ensures answer { Pushes (field_data self.now) out.old.items out.new.items result }
        ensures front { StartsWith out.new.items out.old.items };

    /// Returns the bytes of the values, the least significant byte of each number first. Returns
    /// `FormatError(InvalidTag)` for a text that can't be written. The other error is
    /// `OutOfMemory`, only for a value that can be written.
    #[tactic(auto, using(crate::proofs::Values::value_made))]
    final fn data(&self, alloc: Global) -> TiffResult<Vec<u8>>
        ensures { AnswersBut (IsWritable (field_data self.now)) ⊥
            (λ v. values_in value_type (value_count self.now) v.items) result (field_data self.now) }
    {
        self.check()?;
        let mut bytes = Vec::with_capacity(alloc, self.bytes())?;
        self.push_to(&mut bytes)?;
        Ok(bytes)
    }

    /// Writes the bytes of the values at the writer's offset, as they are. Returns
    /// `UsageError(WriterFailed)` if an earlier write failed. Further errors are those of `data`
    /// and of `write_plain`.
    #[tactic(auto, using(crate::proofs::Values::value_written, crate::proofs::Values::value_stopped, crate::proofs::Values::value_wanting, crate::proofs::Values::value_refused))]
    final fn write<W: Sink>(&self, alloc: Global, writer: &mut TiffWriter<W>) -> TiffResult<()>
        ensures { WritesValue (field_data self.now) writer.old writer.new result }
    {
        if writer.has_failed() {
            return Err(TiffError::UsageError(UsageError::WriterFailed));
        }
        let data = self.data(alloc)?;
        writer.write_plain(&data)
    }

    // The number of bytes is that of the count and the type. The only refusal is that of a text
    // that can't be written.
    ghost sized: { (x : Self) → IsValue value_type (value_count x) (field_data x) };
}

/// A single value that can always be written. A `Slice` is several of them. This project adds this
/// trait.
pub trait TiffScalar: TiffValue + Sized {
    ghost use Rattle.std.specs.Io.{StartsWith};
    ghost use Rattle.std.specs.Prelude.{◌≡◌, ℕ, List, [], ◌∷◌, Ok};
    ghost use Rattle.tiff_value.specs.Data.{Scalars, data_by, data_of};

    // Values of this type, as a writer writes them.
    ghost scalars: { List Self → Scalars };

    // The bytes of one value.
    ghost spelled: { Self → List ℕ };

    /// Appends the bytes of several values. The only error is `OutOfMemory`, after which `out`
    /// begins with its earlier contents.
    #[tactic(auto, using(crate::specs::lemmas::Bytes::front_kept, crate::proofs::Values::scalar_pushed))]
    fn push_all(items: &[Self], out: &mut Vec<u8>) -> TiffResult<()>
        ensures answer { MatchResult result (λ _. out.new.items ≡ out.old.items ++ flat_map spelled items.now)
            (λ e. e ≡ TiffError.OutOfMemory) }
        ensures front { StartsWith out.new.items out.old.items }
    {
        for item in items {
            item.push_to(out)?;
        }
        Ok(())
    }

    // A value is written as the list that contains it alone.
    ghost alone: { (x : Self) → Self.field_data x ≡ Ok (data_of (scalars (x ∷ []))) };

    // A single value counts as one value.
    ghost one: { (x : Self) → Self.value_count x ≡ 1 };

    // The bytes of several values are the bytes of each, in order.
    ghost listed: { (xs : List Self) → data_of (scalars xs) ≡ data_by Self.value_type spelled xs };
}

impl<T: TiffValue> TiffValue for &T {
    ghost value_type = { T.value_type };

    ghost value_count = { λ x. T.value_count x.now };

    ghost field_data = { λ x. T.field_data x.now };

    const BYTE_LEN: u8 = T::BYTE_LEN;

    const FIELD_TYPE: Type = T::FIELD_TYPE;

    fn type_and_len() -> (Type, u8)
        ensures kind { result.0 ≡ T.value_type }
        ensures len { result.1 ≡ type_size T.value_type }
    {
        T::type_and_len()
    }

    fn count(&self) -> usize {
        (**self).count()
    }

    fn check(&self) -> TiffResult<()> {
        (**self).check()
    }

    fn push_to(&self, out: &mut Vec<u8>) -> TiffResult<()> {
        (**self).push_to(out)
    }

    ghost sized = { λ x. T.sized x.now };
}

impl<'a, T: TiffScalar> TiffValue for &'a [T] {
    ghost use Rattle.std.specs.Prelude.{length, Ok};
    ghost use Rattle.tiff_value.specs.Data.{data_of};
    ghost use Rattle.tiff_value.specs.ValueLaws.{several};

    ghost value_type = { T.value_type };

    ghost value_count = { λ s. length s.now };

    ghost field_data = { λ s. Ok (data_of (T.scalars s.now)) };

    const BYTE_LEN: u8 = T::BYTE_LEN;

    const FIELD_TYPE: Type = T::FIELD_TYPE;

    fn type_and_len() -> (Type, u8)
        ensures kind { result.0 ≡ T.value_type }
        ensures len { result.1 ≡ type_size T.value_type }
    {
        T::type_and_len()
    }

    fn count(&self) -> usize {
        self.len()
    }

    fn check(&self) -> TiffResult<()> {
        Ok(())
    }

    #[tactic(auto, using(crate::proofs::Values::several_pushed))]
    fn push_to(&self, out: &mut Vec<u8>) -> TiffResult<()> {
        T::push_all(self, out)
    }

    ghost sized = { λ s. several T.value_type T.spelled T.scalars T.listed T.value_count T.field_data T.sized
        T.alone s.now };
}

impl<T: TiffScalar, const N: usize> TiffValue for [T; N] {
    ghost use Rattle.std.specs.Prelude.{length, Ok};
    ghost use Rattle.tiff_value.specs.Data.{data_of};
    ghost use Rattle.tiff_value.specs.ValueLaws.{several};

    ghost value_type = { T.value_type };

    ghost value_count = { λ xs. length xs };

    ghost field_data = { λ xs. Ok (data_of (T.scalars xs)) };

    const BYTE_LEN: u8 = T::BYTE_LEN;

    const FIELD_TYPE: Type = T::FIELD_TYPE;

    fn type_and_len() -> (Type, u8)
        ensures kind { result.0 ≡ T.value_type }
        ensures len { result.1 ≡ type_size T.value_type }
    {
        T::type_and_len()
    }

    fn count(&self) -> usize {
        self.as_slice().count()
    }

    fn check(&self) -> TiffResult<()> {
        self.as_slice().check()
    }

    fn push_to(&self, out: &mut Vec<u8>) -> TiffResult<()> {
        self.as_slice().push_to(out)
    }

    ghost sized = { λ xs. several T.value_type T.spelled T.scalars T.listed T.value_count T.field_data T.sized
        T.alone xs };
}

/// Several values of one type, as `&[T]` is too.
#[derive(Drop)]
pub struct Slice<'a, T>(pub &'a [T]);

impl<'a, T: TiffScalar> TiffValue for Slice<'a, T> {
    ghost use Rattle.std.specs.Prelude.{length, Ok};
    ghost use Rattle.tiff_value.specs.Data.{data_of};
    ghost use Rattle.tiff_value.specs.ValueLaws.{several};

    ghost value_type = { T.value_type };

    ghost value_count = { λ s. length s.0.now };

    ghost field_data = { λ s. Ok (data_of (T.scalars s.0.now)) };

    const BYTE_LEN: u8 = T::BYTE_LEN;

    const FIELD_TYPE: Type = T::FIELD_TYPE;

    fn type_and_len() -> (Type, u8)
        ensures kind { result.0 ≡ T.value_type }
        ensures len { result.1 ≡ type_size T.value_type }
    {
        T::type_and_len()
    }

    fn count(&self) -> usize {
        self.0.count()
    }

    fn check(&self) -> TiffResult<()> {
        self.0.check()
    }

    fn push_to(&self, out: &mut Vec<u8>) -> TiffResult<()> {
        self.0.push_to(out)
    }

    ghost sized = { λ s. several T.value_type T.spelled T.scalars T.listed T.value_count T.field_data T.sized
        T.alone s.0.now };
}

// The number of bytes of a character of a text.
const CHARACTER_LEN: u8 = 1;

impl<'a> TiffValue for &'a str {
    ghost use Rattle.std.specs.Prelude.{length, ◌+◌};
    ghost use Rattle.tiff_base.specs.declared.tags.«Type».TheVariants.{ASCII};
    ghost use Rattle.tiff_value.specs.Data.{text_data};
    ghost use Rattle.tiff_value.specs.ValueLaws.{text_value};

    ghost value_type = { ASCII };

    ghost value_count = { λ t. length t.now + 1 };

    ghost field_data = { λ t. text_data t.now };

    const BYTE_LEN: u8 = CHARACTER_LEN;

    const FIELD_TYPE: Type = Type::ASCII;

    fn type_and_len() -> (Type, u8)
        ensures kind { result.0 ≡ Type.ASCII }
        ensures len { result.1 ≡ type_size Type.ASCII }
    {
        (Self::FIELD_TYPE, Self::BYTE_LEN)
    }

    fn count(&self) -> usize {
        self.len() + 1
    }

    #[tactic(auto, unfolding(crate::specs::Data::text_data))]
    fn check(&self) -> TiffResult<()> {
        if is_text(self.as_bytes()) {
            Ok(())
        } else {
            Err(TiffError::FormatError(TiffFormatError::InvalidTag))
        }
    }

    #[tactic(auto, unfolding(crate::specs::Data::text_data))]
    fn push_to(&self, out: &mut Vec<u8>) -> TiffResult<()> {
        self.check()?;
        out.extend_from_slice(self.as_bytes())?;
        out.push(0)?;
        Ok(())
    }

    ghost sized = { λ t. text_value t.now };
}

/// A text of ASCII without a zero byte, as `&str` is too. The written value has a zero byte after
/// it.
#[derive(Drop)]
pub struct Text<'a>(pub &'a str);

impl<'a> TiffValue for Text<'a> {
    ghost use Rattle.std.specs.Prelude.{length, ◌+◌};
    ghost use Rattle.tiff_base.specs.declared.tags.«Type».TheVariants.{ASCII};
    ghost use Rattle.tiff_value.specs.Data.{text_data};
    ghost use Rattle.tiff_value.specs.ValueLaws.{text_value};

    ghost value_type = { ASCII };

    ghost value_count = { λ t. length t.0.now + 1 };

    ghost field_data = { λ t. text_data t.0.now };

    const BYTE_LEN: u8 = CHARACTER_LEN;

    const FIELD_TYPE: Type = Type::ASCII;

    fn type_and_len() -> (Type, u8)
        ensures kind { result.0 ≡ Type.ASCII }
        ensures len { result.1 ≡ type_size Type.ASCII }
    {
        (Self::FIELD_TYPE, Self::BYTE_LEN)
    }

    fn count(&self) -> usize {
        self.0.count()
    }

    fn check(&self) -> TiffResult<()> {
        self.0.check()
    }

    fn push_to(&self, out: &mut Vec<u8>) -> TiffResult<()> {
        self.0.push_to(out)
    }

    ghost sized = { λ t. text_value t.0.now };
}

// Returns whether the bytes are ASCII without a zero byte.
fn is_text(bytes: &[u8]) -> bool
    ensures { result ≡ list_all is_letter bytes.now }
{
    bytes.iter().all(|b| *b < 128 && *b != 0)
}

/// The offset of a directory, 4 bytes.
#[derive(Clone, Drop)]
pub struct Ifd(pub u32);

/// The offset of a directory, 8 bytes.
#[derive(Clone, Drop)]
pub struct Ifd8(pub u64);

/// A fraction of unsigned numbers: numerator `n` and denominator `d`.
#[derive(Clone, Drop)]
pub struct Rational {
    pub n: u32,
    pub d: u32,
}

/// A fraction of signed numbers: numerator `n` and denominator `d`.
#[derive(Clone, Drop)]
pub struct SRational {
    pub n: i32,
    pub d: i32,
}

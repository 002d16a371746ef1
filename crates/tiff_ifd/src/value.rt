//! The values of fields.

ghost use Rattle.std.specs.Prelude.{◌≡◌, ◌^◌, Ok, map, [], ◌∷◌, ◌++◌, IfOk, length, take, string_bytes};
ghost use Rattle.tiff_ifd.specs.PlainValue.{plain_value_list_of};
ghost use Rattle.tiff_ifd.specs.Into as spec;
ghost use Rattle.tiff_ifd.specs.Same as equal;
ghost use Rattle.std.specs.Str.{chars as letters};
ghost use Rattle.tiff_base.specs.Answers.{AnswersWithoutSource, Gives};
ghost use Rattle.tiff_ifd.specs.View.{plain_value, plain_values};

use std::alloc::{AllocError, Global};
use tiff_base::error::{TiffError, TiffFormatError, TiffResult};
use tiff_base::tags::{Bits32, Bits64, IfdPointer};

/// The value of a field.
#[derive(Debug, Drop)]
#[non_exhaustive]
pub enum Value {
    Byte(u8),
    Short(u16),
    SignedByte(i8),
    SignedShort(i16),
    Signed(i32),
    SignedBig(i64),
    Unsigned(u32),
    UnsignedBig(u64),
    Float(Bits32),
    Double(Bits64),
    List(Vec<Value>),
    Rational(u32, u32),
    RationalBig(u64, u64),
    SRational(i32, i32),
    SRationalBig(i64, i64),
    Ascii(String),
    Ifd(u32),
    IfdBig(u64),
}

impl Value {
    /// Returns a byte. Another kind of value gives `InvalidTypeForTag`.
    pub fn into_u8(self) -> TiffResult<u8>
        ensures { Gives (λ n. n) result (spec.into_u8 (plain_value self)) }
    {
        match self {
            Value::Byte(n) => Ok(n),
            _ => Err(TiffError::FormatError(TiffFormatError::InvalidTypeForTag)),
        }
    }

    /// Returns a signed byte. Another kind of value gives `InvalidTypeForTag`.
    pub fn into_i8(self) -> TiffResult<i8>
        ensures { Gives (λ n. n) result (spec.into_i8 (plain_value self)) }
    {
        match self {
            Value::SignedByte(n) => Ok(n),
            _ => Err(TiffError::FormatError(TiffFormatError::InvalidTypeForTag)),
        }
    }

    /// Returns a signed number of 16 bits. Another kind of value gives `InvalidTypeForTag`, and a
    /// number that does not fit gives `IntSizeError`.
    pub fn into_i16(self) -> TiffResult<i16>
        ensures { Gives (λ n. n) result (spec.into_i16 (plain_value self)) }
    {
        match self {
            Value::SignedByte(n) => Ok(i16::from(n)),
            Value::SignedShort(n) => Ok(n),
            Value::Signed(n) => i16::try_from(n).map_err(|_| TiffError::IntSizeError),
            Value::SignedBig(n) => i16::try_from(n).map_err(|_| TiffError::IntSizeError),
            _ => Err(TiffError::FormatError(TiffFormatError::InvalidTypeForTag)),
        }
    }

    /// Returns a signed number of 32 bits. Another kind of value gives `InvalidTypeForTag`, and a
    /// number that does not fit gives `IntSizeError`.
    pub fn into_i32(self) -> TiffResult<i32>
        ensures { Gives (λ n. n) result (spec.into_i32 (plain_value self)) }
    {
        match self {
            Value::SignedByte(n) => Ok(i32::from(n)),
            Value::SignedShort(n) => Ok(i32::from(n)),
            Value::Signed(n) => Ok(n),
            Value::SignedBig(n) => i32::try_from(n).map_err(|_| TiffError::IntSizeError),
            _ => Err(TiffError::FormatError(TiffFormatError::InvalidTypeForTag)),
        }
    }

    /// Returns a signed number. Another kind of value gives `InvalidTypeForTag`.
    pub fn into_i64(self) -> TiffResult<i64>
        ensures { Gives (λ n. n) result (spec.into_i64 (plain_value self)) }
    {
        match self {
            Value::SignedByte(n) => Ok(i64::from(n)),
            Value::SignedShort(n) => Ok(i64::from(n)),
            Value::Signed(n) => Ok(i64::from(n)),
            Value::SignedBig(n) => Ok(n),
            _ => Err(TiffError::FormatError(TiffFormatError::InvalidTypeForTag)),
        }
    }

    /// Returns the bits of a 32-bit floating-point number. Another kind of value gives
    /// `InvalidTypeForTag`.
    pub fn into_f32(self) -> TiffResult<Bits32>
        ensures { Gives (λ x. x.0) result (spec.into_f32 (plain_value self)) }
    {
        match self {
            Value::Float(x) => Ok(x),
            _ => Err(TiffError::FormatError(TiffFormatError::InvalidTypeForTag)),
        }
    }

    /// Returns the bits of a 64-bit floating-point number. Another kind of value gives
    /// `InvalidTypeForTag`.
    pub fn into_f64(self) -> TiffResult<Bits64>
        ensures { Gives (λ x. x.0) result (spec.into_f64 (plain_value self)) }
    {
        match self {
            Value::Double(x) => Ok(x),
            _ => Err(TiffError::FormatError(TiffFormatError::InvalidTypeForTag)),
        }
    }

    /// Returns the offset of a directory. Another kind of value gives `InvalidTypeForTag`.
    pub fn into_ifd_pointer(self) -> TiffResult<IfdPointer>
        ensures { Gives (λ x. x.0) result (spec.into_ifd_pointer (plain_value self)) }
    {
        match self {
            Value::Unsigned(n) => Ok(IfdPointer(u64::from(n))),
            Value::Ifd(n) => Ok(IfdPointer(u64::from(n))),
            Value::IfdBig(n) => Ok(IfdPointer(n)),
            _ => Err(TiffError::FormatError(TiffFormatError::InvalidTypeForTag)),
        }
    }

    /// Returns a text. Another kind of value gives `InvalidTypeForTag`.
    pub fn into_string(self) -> TiffResult<String>
        ensures { Gives string_bytes result (spec.into_string (plain_value self)) }
    {
        match self {
            Value::Ascii(text) => Ok(text),
            _ => Err(TiffError::FormatError(TiffFormatError::InvalidTypeForTag)),
        }
    }

    /// Returns a number below 2^16. Another kind of value gives `InvalidTypeForTag`, and a larger
    /// number gives `IntSizeError`.
    pub fn into_u16(self) -> TiffResult<u16>
        ensures { Gives (λ n. n) result (spec.into_u16 (plain_value self)) }
    {
        match self {
            Value::Byte(n) => Ok(n as u16),
            Value::Short(n) => Ok(n),
            Value::Unsigned(n) => u16::try_from(n).map_err(|_| TiffError::IntSizeError),
            Value::UnsignedBig(n) => u16::try_from(n).map_err(|_| TiffError::IntSizeError),
            _ => Err(TiffError::FormatError(TiffFormatError::InvalidTypeForTag)),
        }
    }

    /// Returns a number below 2^32. Another kind of value gives `InvalidTypeForTag`, and a larger
    /// number gives `IntSizeError`.
    pub fn into_u32(self) -> TiffResult<u32>
        ensures { Gives (λ n. n) result (spec.into_u32 (plain_value self)) }
    {
        match self {
            Value::Byte(n) => Ok(n as u32),
            Value::Short(n) => Ok(n as u32),
            Value::Unsigned(n) => Ok(n),
            Value::UnsignedBig(n) => u32::try_from(n).map_err(|_| TiffError::IntSizeError),
            Value::Ifd(n) => Ok(n),
            Value::IfdBig(n) => u32::try_from(n).map_err(|_| TiffError::IntSizeError),
            _ => Err(TiffError::FormatError(TiffFormatError::InvalidTypeForTag)),
        }
    }

    /// Returns a number. Another kind of value gives `InvalidTypeForTag`.
    pub fn into_u64(self) -> TiffResult<u64>
        ensures { Gives (λ n. n) result (spec.into_u64 (plain_value self)) }
    {
        match self {
            Value::Byte(n) => Ok(n as u64),
            Value::Short(n) => Ok(n as u64),
            Value::Unsigned(n) => Ok(n as u64),
            Value::UnsignedBig(n) => Ok(n),
            Value::Ifd(n) => Ok(n as u64),
            Value::IfdBig(n) => Ok(n),
            _ => Err(TiffError::FormatError(TiffFormatError::InvalidTypeForTag)),
        }
    }

    /// Returns the bytes of a list, or one byte as a list. Returns the error of the first item that
    /// fails.
    #[tactic(auto, using(crate::proofs::Joined::as_they_are))]
    pub fn into_u8_vec(self, alloc: Global) -> TiffResult<Vec<u8>>
        ensures { AnswersWithoutSource (λ v. v.items) result (spec.into_u8_vec (plain_value self)) }
    {
        match self {
            Value::List(list) => each::<u8>(alloc, list),
            Value::Byte(n) => one(alloc, n),
            _ => Err(TiffError::FormatError(TiffFormatError::InvalidTypeForTag)),
        }
    }

    /// Returns numbers below 2^32: those of a list, one number, the two of a rational, or the
    /// characters of a text. Returns the error of the first item that fails; a number that does not
    /// fit gives `IntSizeError`.
    #[tactic(auto, using(crate::proofs::Joined::as_they_are))]
    pub fn into_u32_vec(self, alloc: Global) -> TiffResult<Vec<u32>>
        ensures { AnswersWithoutSource (λ v. v.items) result (spec.into_u32_vec (plain_value self)) }
    {
        match self {
            Value::List(list) => each::<u32>(alloc, list),
            Value::Rational(n, d) => two(alloc, n, d),
            Value::RationalBig(n, d) => two(alloc, narrow(n)?, narrow(d)?),
            Value::Ascii(text) => narrow_chars(alloc, text.as_str()),
            value => one(alloc, value.into_u32()?),
        }
    }

    /// Returns the bits of 32-bit floating-point numbers, of a list or of one value. Returns the
    /// error of the first item that fails.
    pub fn into_f32_vec(self, alloc: Global) -> TiffResult<Vec<Bits32>>
        ensures { AnswersWithoutSource (λ v. map (λ n. n.0) v.items) result
            (spec.into_f32_vec (plain_value self)) }
    {
        match self {
            Value::List(list) => each::<Bits32>(alloc, list),
            value => one(alloc, value.into_f32()?),
        }
    }

    /// Returns the bits of 64-bit floating-point numbers, of a list or of one value. Returns the
    /// error of the first item that fails.
    pub fn into_f64_vec(self, alloc: Global) -> TiffResult<Vec<Bits64>>
        ensures { AnswersWithoutSource (λ v. map (λ n. n.0) v.items) result
            (spec.into_f64_vec (plain_value self)) }
    {
        match self {
            Value::List(list) => each::<Bits64>(alloc, list),
            value => one(alloc, value.into_f64()?),
        }
    }

    /// Returns the offsets of directories, of a list or of one value. Returns the error of the
    /// first item that fails.
    pub fn into_ifd_vec(self, alloc: Global) -> TiffResult<Vec<IfdPointer>>
        ensures { AnswersWithoutSource (λ v. map (λ n. n.0) v.items) result
            (spec.into_ifd_vec (plain_value self)) }
    {
        match self {
            Value::List(list) => each::<IfdPointer>(alloc, list),
            value => one(alloc, value.into_ifd_pointer()?),
        }
    }

    /// Returns signed numbers of 32 bits, of a list or of one value. A signed rational gives two
    /// numbers. Returns the error of the first item that fails; a number that does not fit gives
    /// `IntSizeError`.
    pub fn into_i32_vec(self, alloc: Global) -> TiffResult<Vec<i32>>
        ensures { AnswersWithoutSource (λ v. v.items) result (spec.into_i32_vec (plain_value self)) }
    {
        match self {
            Value::List(list) => each_joined::<i32>(alloc, list),
            value => all_of::<i32>(alloc, value),
        }
    }

    /// Returns signed numbers, of a list or of one value. A signed rational gives two numbers.
    /// Returns the error of the first item that fails.
    pub fn into_i64_vec(self, alloc: Global) -> TiffResult<Vec<i64>>
        ensures { AnswersWithoutSource (λ v. v.items) result (spec.into_i64_vec (plain_value self)) }
    {
        match self {
            Value::List(list) => each_joined::<i64>(alloc, list),
            value => all_of::<i64>(alloc, value),
        }
    }

    /// Returns numbers below 2^16, of a list or of one number. Returns the error of the first item
    /// that fails.
    #[tactic(auto, using(crate::proofs::Joined::as_they_are))]
    pub fn into_u16_vec(self, alloc: Global) -> TiffResult<Vec<u16>>
        ensures { AnswersWithoutSource (λ v. v.items) result (spec.into_u16_vec (plain_value self)) }
    {
        match self {
            Value::List(list) => each::<u16>(alloc, list),
            Value::Byte(n) => one(alloc, n as u16),
            Value::Short(n) => one(alloc, n),
            _ => Err(TiffError::FormatError(TiffFormatError::InvalidTypeForTag)),
        }
    }

    /// Returns numbers: those of a list, one number, the two of a rational, or the characters of a
    /// text. Returns the error of the first item that fails.
    #[tactic(auto, using(crate::proofs::Joined::as_they_are))]
    pub fn into_u64_vec(self, alloc: Global) -> TiffResult<Vec<u64>>
        ensures { AnswersWithoutSource (λ v. v.items) result (spec.into_u64_vec (plain_value self)) }
    {
        match self {
            Value::List(list) => each::<u64>(alloc, list),
            Value::Rational(n, d) => two(alloc, n as u64, d as u64),
            Value::RationalBig(n, d) => two(alloc, n, d),
            Value::Ascii(text) => chars(alloc, text.as_str()),
            value => one(alloc, value.into_u64()?),
        }
    }
}

fn two<T: Drop>(alloc: Global, x: T, y: T) -> TiffResult<Vec<T>>
    ensures { AnswersWithoutSource (λ v. v.items) result (Ok (x ∷ y ∷ [])) }
{
    let mut all = Vec::new(alloc);
    all.push(x)?;
    all.push(y)?;
    Ok(all)
}

// By hand, as `clone`: what is derived for a type that contains itself has no clause.
impl PartialEq for Value {
    ghost use Rattle.std.specs.Cmp.{on_per};
    ghost use Rattle.tiff_ifd.specs.Same.{same, same_per};
    ghost use Rattle.tiff_ifd.specs.View.{plain_value};

    ghost eq = { λ v w. same (plain_value v) (plain_value w) };

    ghost laws = { on_per plain_value same_per };

    fn eq(&self, other: &Value) -> bool {
        same(self, other)
    }
}

impl Clone for Value {
    ghost use Rattle.tiff_ifd.specs.View.{plain_value};

    ghost is_clone = { λ v w. plain_value w ≡ plain_value v };

    fn clone(&self) -> Result<Value, AllocError> {
        copy(self)
    }
}

#[cycle(same)]
fn same(a: &Value, b: &Value) -> bool
    ensures { result ≡ equal.same (plain_value a.now) (plain_value b.now) }
{
    match a {
        Value::Byte(m) => matches!(b, Value::Byte(n) if m == n),
        Value::Short(m) => matches!(b, Value::Short(n) if m == n),
        Value::SignedByte(m) => matches!(b, Value::SignedByte(n) if m == n),
        Value::SignedShort(m) => matches!(b, Value::SignedShort(n) if m == n),
        Value::Signed(m) => matches!(b, Value::Signed(n) if m == n),
        Value::SignedBig(m) => matches!(b, Value::SignedBig(n) if m == n),
        Value::Unsigned(m) => matches!(b, Value::Unsigned(n) if m == n),
        Value::UnsignedBig(m) => matches!(b, Value::UnsignedBig(n) if m == n),
        Value::Float(m) => matches!(b, Value::Float(n) if m == n),
        Value::Double(m) => matches!(b, Value::Double(n) if m == n),
        Value::List(m) => {
            if let Value::List(n) = b {
                all_same(m, n)
            } else {
                false
            }
        }
        Value::Rational(m, c) => matches!(b, Value::Rational(n, d) if m == n && c == d),
        Value::RationalBig(m, c) => matches!(b, Value::RationalBig(n, d) if m == n && c == d),
        Value::SRational(m, c) => matches!(b, Value::SRational(n, d) if m == n && c == d),
        Value::SRationalBig(m, c) => matches!(b, Value::SRationalBig(n, d) if m == n && c == d),
        Value::Ascii(s) => matches!(b, Value::Ascii(t) if s == t),
        Value::Ifd(m) => matches!(b, Value::Ifd(n) if m == n),
        Value::IfdBig(m) => matches!(b, Value::IfdBig(n) if m == n),
    }
}

#[cycle(same)]
fn all_same(a: &[Value], b: &[Value]) -> bool
    ensures { result ≡ equal.all_same (plain_value_list_of (plain_values a.now))
        (plain_value_list_of (plain_values b.now)) }
{
    if a.len() != b.len() {
        return false;
    }
    for i in 0..a.len() {
        if !same(&a[i], &b[i]) {
            return false;
        }
    }
    true
}

#[cycle(copy)]
fn copy(value: &Value) -> Result<Value, AllocError>
    ensures { IfOk result (λ v. plain_value v ≡ plain_value value.now) }
{
    match value {
        Value::Byte(n) => Ok(Value::Byte(*n)),
        Value::Short(n) => Ok(Value::Short(*n)),
        Value::SignedByte(n) => Ok(Value::SignedByte(*n)),
        Value::SignedShort(n) => Ok(Value::SignedShort(*n)),
        Value::Signed(n) => Ok(Value::Signed(*n)),
        Value::SignedBig(n) => Ok(Value::SignedBig(*n)),
        Value::Unsigned(n) => Ok(Value::Unsigned(*n)),
        Value::UnsignedBig(n) => Ok(Value::UnsignedBig(*n)),
        Value::Float(n) => Ok(Value::Float(*n)),
        Value::Double(n) => Ok(Value::Double(*n)),
        Value::List(items) => Ok(Value::List(copy_list(items)?)),
        Value::Rational(n, d) => Ok(Value::Rational(*n, *d)),
        Value::RationalBig(n, d) => Ok(Value::RationalBig(*n, *d)),
        Value::SRational(n, d) => Ok(Value::SRational(*n, *d)),
        Value::SRationalBig(n, d) => Ok(Value::SRationalBig(*n, *d)),
        Value::Ascii(text) => Ok(Value::Ascii(text.clone()?)),
        Value::Ifd(n) => Ok(Value::Ifd(*n)),
        Value::IfdBig(n) => Ok(Value::IfdBig(*n)),
    }
}

#[cycle(copy)]
fn copy_list(list: &Vec<Value>) -> Result<Vec<Value>, AllocError>
    ensures { IfOk result (λ l. plain_values l.items ≡ plain_values list.now.items) }
{
    let mut items = Vec::with_capacity(*list.allocator(), list.len())?;
    for item in list {
        items.push(copy(item)?)?;
    }
    Ok(items)
}

/// A number type that a single value converts to.
pub trait FromValue: Sized {
    ghost use Rattle.std.specs.Prelude.{Result, ℕ};
    ghost use Rattle.tiff_base.specs.declared.error.TiffError.{TiffError};
    ghost use Rattle.tiff_ifd.specs.PlainValue.{PlainValue};

    // The result of converting a value, and the number that an item of the type represents.
    ghost into: { PlainValue → Result ℕ TiffError };

    ghost number: { Self → ℕ };

    fn from_value(value: Value) -> TiffResult<Self>
        ensures { Gives number result (into (plain_value value)) };
}

impl FromValue for u8 {
    ghost into = { spec.into_u8 };

    ghost number = { λ n. n };

    fn from_value(value: Value) -> TiffResult<u8> {
        value.into_u8()
    }
}

impl FromValue for u32 {
    ghost into = { spec.into_u32 };

    ghost number = { λ n. n };

    fn from_value(value: Value) -> TiffResult<u32> {
        value.into_u32()
    }
}

impl FromValue for u16 {
    ghost into = { spec.into_u16 };

    ghost number = { λ n. n };

    fn from_value(value: Value) -> TiffResult<u16> {
        value.into_u16()
    }
}

impl FromValue for u64 {
    ghost into = { spec.into_u64 };

    ghost number = { λ n. n };

    fn from_value(value: Value) -> TiffResult<u64> {
        value.into_u64()
    }
}

// Converts a number that has to be below 2^32.
fn narrow(n: u64) -> TiffResult<u32>
    ensures { Gives (λ n. n) result (spec.below_limit (2 ^ 32) n) }
{
    u32::try_from(n).map_err(|_| TiffError::IntSizeError)
}

fn narrow_chars(alloc: Global, text: &str) -> TiffResult<Vec<u32>>
    ensures { AnswersWithoutSource (λ v. v.items) result (Ok (letters text.now)) }
{
    let mut all = Vec::new(alloc);
    for c in text.chars() {
        all.push(c as u32)?;
    }
    Ok(all)
}

fn chars(alloc: Global, text: &str) -> TiffResult<Vec<u64>>
    ensures { AnswersWithoutSource (λ v. v.items) result (Ok (letters text.now)) }
{
    let mut all = Vec::new(alloc);
    for c in text.chars() {
        all.push(c as u32 as u64)?;
    }
    Ok(all)
}

impl FromValue for Bits32 {
    ghost into = { spec.into_f32 };

    ghost number = { λ n. n.0 };

    fn from_value(value: Value) -> TiffResult<Bits32> {
        value.into_f32()
    }
}

impl FromValue for Bits64 {
    ghost into = { spec.into_f64 };

    ghost number = { λ n. n.0 };

    fn from_value(value: Value) -> TiffResult<Bits64> {
        value.into_f64()
    }
}

impl FromValue for IfdPointer {
    ghost into = { spec.into_ifd_pointer };

    ghost number = { λ n. n.0 };

    fn from_value(value: Value) -> TiffResult<IfdPointer> {
        value.into_ifd_pointer()
    }
}

/// A number type of which a single value contains one or two numbers.
pub trait AppendValue: Sized {
    ghost use Rattle.std.specs.Prelude.{◌≡◌, Result, List, length, take};
    ghost use Rattle.tiff_base.specs.declared.error.TiffError.{TiffError};
    ghost use Rattle.tiff_ifd.specs.PlainValue.{PlainValue};

    // The numbers that a value converts to.
    ghost numbers: { PlainValue → Result (List Self) TiffError };

    // Appends the numbers of a value. After an error too, `out` begins with its former items.
    fn append_value(value: Value, out: &mut Vec<Self>) -> TiffResult<()>
        ensures answer { AnswersWithoutSource (λ _. out.new.items) result
            (spec.append_numbers out.old.items (numbers (plain_value value))) }
        ensures front { take (length out.old.items) out.new.items ≡ out.old.items };
}

impl AppendValue for i32 {
    ghost numbers = { spec.i32s_of };

    #[tactic(auto, using(crate::proofs::Joined::front_same))]
    fn append_value(value: Value, out: &mut Vec<i32>) -> TiffResult<()> {
        match value {
            Value::SRational(n, d) => append_two(out, n, d),
            Value::SRationalBig(n, d) => append_two(out, narrow_signed(n)?, narrow_signed(d)?),
            value => append_one(out, value.into_i32()?),
        }
    }
}

impl AppendValue for i64 {
    ghost numbers = { spec.i64s_of };

    #[tactic(auto, using(crate::proofs::Joined::front_same))]
    fn append_value(value: Value, out: &mut Vec<i64>) -> TiffResult<()> {
        match value {
            Value::SRational(n, d) => append_two(out, i64::from(n), i64::from(d)),
            Value::SRationalBig(n, d) => append_two(out, n, d),
            value => append_one(out, value.into_i64()?),
        }
    }
}

// Converts a signed number that has to fit into 32 bits.
fn narrow_signed(n: i64) -> TiffResult<i32>
    ensures { Gives (λ n. n) result (spec.in_signed_range (2 ^ 31) n) }
{
    i32::try_from(n).map_err(|_| TiffError::IntSizeError)
}

#[tactic(auto, using(crate::proofs::Joined::front_appended, crate::proofs::Joined::front_same))]
fn append_one<T: Drop>(out: &mut Vec<T>, x: T) -> TiffResult<()>
    ensures answer { AnswersWithoutSource (λ _. out.new.items) result (Ok (out.old.items ++ x ∷ [])) }
    ensures front { take (length out.old.items) out.new.items ≡ out.old.items }
{
    out.push(x)?;
    Ok(())
}

#[tactic(auto, using(crate::proofs::Joined::two_more, crate::proofs::Joined::front_appended, crate::proofs::Joined::front_same))]
fn append_two<T: Drop>(out: &mut Vec<T>, x: T, y: T) -> TiffResult<()>
    ensures answer { AnswersWithoutSource (λ _. out.new.items) result (Ok (out.old.items ++ x ∷ y ∷ [])) }
    ensures front { take (length out.old.items) out.new.items ≡ out.old.items }
{
    out.push(x)?;
    out.push(y)?;
    Ok(())
}

fn all_of<T: AppendValue + Drop>(alloc: Global, value: Value) -> TiffResult<Vec<T>>
    ensures { AnswersWithoutSource (λ v. v.items) result (T.numbers (plain_value value)) }
{
    let mut all = Vec::new(alloc);
    T::append_value(value, &mut all)?;
    Ok(all)
}

fn each_joined<T: AppendValue + Drop>(alloc: Global, list: Vec<Value>) -> TiffResult<Vec<T>>
    ensures { AnswersWithoutSource (λ v. v.items) result
        (spec.each_joined T.numbers (plain_value_list_of (plain_values list.items))) }
{
    let mut all = Vec::new(alloc);
    for item in list {
        T::append_value(item, &mut all)?;
    }
    Ok(all)
}

fn one<T: Drop>(alloc: Global, x: T) -> TiffResult<Vec<T>>
    ensures { AnswersWithoutSource (λ v. v.items) result (Ok (x ∷ [])) }
{
    let mut all = Vec::new(alloc);
    all.push(x)?;
    Ok(all)
}

#[tactic(auto, using(crate::proofs::Joined::one_seen))]
fn each<T: FromValue + Drop>(alloc: Global, list: Vec<Value>) -> TiffResult<Vec<T>>
    ensures { AnswersWithoutSource (λ v. map T.number v.items) result
        (spec.each_item T.into (plain_value_list_of (plain_values list.items))) }
{
    let mut all = Vec::new(alloc);
    for item in list {
        all.push(T::from_value(item)?)?;
    }
    Ok(all)
}

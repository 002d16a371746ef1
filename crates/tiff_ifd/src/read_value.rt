//! Reads the values of fields.

ghost use Rattle.std.specs.Prelude.{◌≡◌, ◌≤◌, ◌<◌, ◌*◌, ◌-◌, Ok, Err, None, if◌then◌else◌, ◌&&◌, length, slice_index, option_map, string_bytes};
ghost use Rattle.std.specs.Int.{byte_len, w8, w16, w32, w64};
ghost use Rattle.std.specs.List.{list_all, position_or_len, prefix_len, suffix_len};
ghost use Rattle.std.specs.Str.{is_utf8};
ghost use Rattle.tiff_base.specs.declared.error.TiffError.TheVariants as tiff;
ghost use Rattle.tiff_base.specs.declared.error.TiffFormatError.TheVariants as format;
ghost use Rattle.tiff_base.specs.Answers.{AnswersBut, AnswersWithoutSource, ReadsOnly, IsKept};
ghost use Rattle.tiff_base.specs.Sparing.{AnswersWithin, GivesSparingly};
ghost use Rattle.std.specs.FinMap.{get};
ghost use Rattle.tiff_base.specs.Tags.{tag_number};
ghost use Rattle.tiff_base.specs.Number.{number};
ghost use Rattle.tiff_base.specs.Directory.{offset_width};
ghost use Rattle.tiff_base.specs.FieldBytes.{field_len};
ghost use Rattle.tiff_base.specs.Types.{type_size};
ghost use Rattle.tiff_ifd.specs.PlainValue as f;
ghost use Rattle.tiff_ifd.specs.View.{plain_value, plain_values};
ghost use Rattle.tiff_ifd.specs.Item as spec;
ghost use Rattle.tiff_ifd.specs.FieldValue as value;
ghost use Rattle.tiff_base.specs.SourceAndSink.{AreReadable};
ghost use Rattle.tiff_ifd.specs.TagLookup.{look_in};
ghost use Rattle.tiff_ifd.specs.Stretches.{FieldReadable, TagReadable};

use crate::field_reader::FieldReader;
use crate::limits::Limits;
use crate::read_bytes::{len_of, offset_in, offset_len};
use crate::value::Value;
use std::alloc::Global;
use std::str;
use tiff_base::directory::{Directory, Entry};
use tiff_base::error::{TiffError, TiffFormatError, TiffResult};
use tiff_base::io::Source;
use tiff_base::read::{read_bytes_at, u16_from, u32_from, u64_from};
use tiff_base::tags::{Bits32, Bits64, ByteOrder, Tag, Type};

// How the values of a field are stored: in the entry itself or elsewhere in the file, their type,
// their byte order, and their number.
#[derive(Clone, Copy)]
struct StoredValues {
    inline: bool,
    field_type: Type,
    order: ByteOrder,
    count: u64,
}

// The number in one byte, the same in both byte orders.
#[tactic(auto, unfolding(tiff_base::specs::Number::number))]
fn u8_of(order: ByteOrder, bytes: &[u8]) -> u8
    requires { length bytes.now ≡ 1 }
    ensures { result ≡ number order w8 bytes.now }
{
    match order {
        ByteOrder::LittleEndian => u8::from_le_bytes([bytes[0]]),
        ByteOrder::BigEndian => u8::from_be_bytes([bytes[0]]),
    }
}

// The number in two bytes.
pub(crate) fn u16_of(order: ByteOrder, bytes: &[u8]) -> u16
    requires { length bytes.now ≡ 2 }
    ensures { result ≡ number order w16 bytes.now }
{
    u16_from(order, [bytes[0], bytes[1]])
}

// The number in four bytes.
pub(crate) fn u32_of(order: ByteOrder, bytes: &[u8]) -> u32
    requires { length bytes.now ≡ 4 }
    ensures { result ≡ number order w32 bytes.now }
{
    u32_from(order, [bytes[0], bytes[1], bytes[2], bytes[3]])
}

// The number in eight bytes.
pub(crate) fn u64_of(order: ByteOrder, bytes: &[u8]) -> u64
    requires { length bytes.now ≡ 8 }
    ensures { result ≡ number order w64 bytes.now }
{
    u64_from(
        order,
        [
            bytes[0], bytes[1], bytes[2], bytes[3], bytes[4], bytes[5], bytes[6], bytes[7],
        ],
    )
}

// Decodes one value of a type from its bytes.
fn item_from(field_type: Type, order: ByteOrder, bytes: &[u8]) -> Value
    requires { length bytes.now ≡ type_size field_type }
    ensures { plain_value result ≡ spec.item field_type order bytes.now }
{
    match field_type {
        Type::BYTE | Type::ASCII | Type::UNDEFINED => Value::Byte(u8_of(order, bytes)),
        Type::SBYTE => Value::SignedByte(u8_of(order, bytes).cast_signed()),
        Type::SHORT => Value::Short(u16_of(order, bytes)),
        Type::SSHORT => Value::SignedShort(u16_of(order, bytes).cast_signed()),
        Type::LONG => Value::Unsigned(u32_of(order, bytes)),
        Type::SLONG => Value::Signed(u32_of(order, bytes).cast_signed()),
        Type::FLOAT => Value::Float(Bits32(u32_of(order, bytes))),
        Type::IFD => Value::Ifd(u32_of(order, bytes)),
        Type::RATIONAL => Value::Rational(u32_of(order, &bytes[..4]), u32_of(order, &bytes[4..])),
        Type::SRATIONAL => {
            let n = u32_of(order, &bytes[..4]).cast_signed();
            Value::SRational(n, u32_of(order, &bytes[4..]).cast_signed())
        }
        Type::DOUBLE => Value::Double(Bits64(u64_of(order, bytes))),
        Type::LONG8 => Value::UnsignedBig(u64_of(order, bytes)),
        Type::SLONG8 => Value::SignedBig(u64_of(order, bytes).cast_signed()),
        // Type::IFD8
        _ => Value::IfdBig(u64_of(order, bytes)),
    }
}

// Decodes one of several values in the entry itself. BYTE and SBYTE values become 32-bit numbers.
fn inline_item(field_type: Type, order: ByteOrder, bytes: &[u8]) -> Value
    requires { length bytes.now ≡ type_size field_type }
    ensures { plain_value result ≡ spec.inline_item field_type order bytes.now }
{
    match field_type {
        Type::BYTE => Value::Unsigned(u32::from(u8_of(order, bytes))),
        Type::SBYTE => Value::Signed(i32::from(u8_of(order, bytes).cast_signed())),
        _ => item_from(field_type, order, bytes),
    }
}

// Decodes one of several values, in the entry itself or elsewhere in the file.
fn list_item(inline: bool, field_type: Type, order: ByteOrder, bytes: &[u8]) -> Value
    requires { length bytes.now ≡ type_size field_type }
    ensures { plain_value result ≡ spec.list_item inline field_type order bytes.now }
{
    if inline {
        inline_item(field_type, order, bytes)
    } else {
        item_from(field_type, order, bytes)
    }
}

// Decodes `stored.count` consecutive values.
fn list_from(alloc: Global, stored: StoredValues, bytes: &[u8]) -> TiffResult<Vec<Value>>
    requires { length bytes.now ≡ stored.count * type_size stored.field_type }
    ensures { AnswersWithoutSource (λ l. plain_values l.items) result
        (Ok (spec.items (spec.list_item stored.inline stored.field_type stored.order)
        (type_size stored.field_type) stored.count bytes.now)) }
{
    let width = usize::from(stored.field_type.byte_len());
    let mut all = Vec::new(alloc);
    let mut rest = bytes;
    let mut left = stored.count;
    while left > 0 {
        let (unit, after) = rest.split_at(width);
        all.push(list_item(stored.inline, stored.field_type, stored.order, unit))?;
        rest = after;
        left -= 1;
    }
    Ok(all)
}

// Decodes numbers: one number gives a single value, several numbers give a list.
fn numbers_from(alloc: Global, stored: StoredValues, bytes: &[u8]) -> TiffResult<Value>
    requires { length bytes.now ≡ stored.count * type_size stored.field_type }
    ensures { AnswersWithoutSource plain_value result
        (Ok (value.numbers stored.inline stored.field_type stored.order stored.count bytes.now)) }
{
    if stored.count == 1 {
        Ok(item_from(stored.field_type, stored.order, bytes))
    } else {
        Ok(Value::List(list_from(alloc, stored, bytes)?))
    }
}

// Makes a text from UTF-8 bytes. Other bytes give `InvalidTag`.
#[tactic(auto, using(crate::proofs::Texts::utf8))]
fn text_from(alloc: Global, bytes: &[u8]) -> TiffResult<Value>
    ensures { GivesSparingly plain_value result (if is_utf8 bytes.now then Ok (f.ascii bytes.now)
        else Err (tiff.FormatError format.InvalidTag)) }
{
    match str::from_utf8(bytes) {
        Ok(text) => Ok(Value::Ascii(String::from_str(alloc, text)?)),
        Err(_) => Err(TiffError::FormatError(TiffFormatError::InvalidTag)),
    }
}

// The index of the first zero byte, or the number of bytes where there is none.
fn first_zero(bytes: &[u8]) -> usize
    ensures value { result ≡ position_or_len value.is_zero bytes.now }
    ensures bound { result ≤ length bytes.now }
{
    let mut n = 0;
    while n < bytes.len() && bytes[n] != 0 {
        n += 1;
    }
    n
}

// Decodes a text outside the entry: the bytes before the first zero.
fn placed_text(alloc: Global, bytes: &[u8]) -> TiffResult<Value>
    ensures { GivesSparingly plain_value result (value.placed_text bytes.now) }
{
    text_from(alloc, &bytes[..first_zero(bytes)])
}

fn is_ascii(bytes: &[u8]) -> bool
    ensures { result ≡ list_all value.is_ascii_byte bytes.now }
{
    bytes.iter().all(|b| *b < 128)
}

// Whether all bytes are ASCII and the last one is zero.
fn is_inline_text(bytes: &[u8]) -> bool
    requires { 0 < length bytes.now }
    ensures { result
        ≡ (list_all value.is_ascii_byte bytes.now && value.is_zero
        (slice_index bytes.now (length bytes.now - 1))) }
{
    is_ascii(bytes) && bytes[bytes.len() - 1] == 0
}

// The number of zero bytes at the start.
fn zeros_in_front(bytes: &[u8]) -> usize
    ensures value { result ≡ prefix_len value.is_zero bytes.now }
    ensures bound { result ≤ length bytes.now }
{
    let mut n = 0;
    while n < bytes.len() && bytes[n] == 0 {
        n += 1;
    }
    n
}

// The number of bytes without the zeros at the end.
fn len_before_zeros(bytes: &[u8]) -> usize
    ensures value { result ≡ length bytes.now - suffix_len value.is_zero bytes.now }
    ensures bound { result ≤ length bytes.now }
{
    let mut n = bytes.len();
    while n > 0 && bytes[n - 1] == 0 {
        n -= 1;
    }
    n
}

fn without_zeros(bytes: &[u8]) -> &[u8]
    ensures { result.now ≡ value.without_zeros bytes.now }
{
    let rest = &bytes[zeros_in_front(bytes)..];
    &rest[..len_before_zeros(rest)]
}

// Decodes a text in the entry itself.
fn inline_text(alloc: Global, bytes: &[u8]) -> TiffResult<Value>
    requires { 0 < length bytes.now }
    ensures { GivesSparingly plain_value result (value.inline_text bytes.now) }
{
    if !is_inline_text(bytes) {
        return Err(TiffError::FormatError(TiffFormatError::InvalidTag));
    }
    text_from(alloc, without_zeros(bytes))
}

// Decodes the value of a field from all its bytes.
fn value_from(alloc: Global, stored: StoredValues, bytes: &[u8]) -> TiffResult<Value>
    requires whole { length bytes.now ≡ stored.count * type_size stored.field_type }
    requires some { 0 < stored.count }
    ensures { GivesSparingly plain_value result
        (value.value_from stored.inline stored.field_type stored.order stored.count bytes.now) }
{
    match stored.field_type {
        Type::ASCII if stored.inline => inline_text(alloc, bytes),
        Type::ASCII => placed_text(alloc, bytes),
        _ => numbers_from(alloc, stored, bytes),
    }
}

/// Reads a text of `len` bytes at an offset, up to its first zero. Returns `IoError(UnexpectedEof)`
/// where the source has fewer bytes, before it allocates memory. Returns `InvalidTag` for a text
/// that is not UTF-8.
#[tactic(auto, using(crate::specs::lemmas::Within::text_read_within))]
pub fn read_text_at<R: Source>(
    alloc: Global,
    source: &mut R,
    at: u64,
    len: usize,
) -> TiffResult<String>
    ensures kept { IsKept R.contents R.failures result source.old source.new }
    ensures answer { AnswersWithin string_bytes result (value.text_at (R.contents source.old).bytes at len)
        (R.failures source.old) (R.failures source.new) }
    ensures asked { ReadsOnly (AreReadable (R.contents source.old) at len) result }
{
    let bytes = read_bytes_at(alloc, source, at, len)?;
    placed_text(alloc, &bytes)?.into_string()
}

// Whether the limits allow `count` values outside the entry.
pub(crate) fn is_allowed(limits: &Limits, field_type: Type, count: u64) -> bool
    ensures { result ≡ value.is_allowed limits.now field_type count }
{
    let room = limits.decoding_buffer_size as u64;
    match field_type {
        Type::ASCII => count <= room,
        // The size of a `Value` of the Rust crate, which sets no limit to a single one.
        _ => count == 1 || count <= room / 32,
    }
}

impl FieldReader<'_> {
    // Reads the value of a field whose values are outside the entry. Returns the errors of
    // `read_value`.
    #[tactic(auto, using(crate::specs::lemmas::Within::value_within, crate::specs::lemmas::Within::read_within, crate::specs::lemmas::Within::exactly_unlimited, crate::specs::lemmas::Within::read_unlimited), unfolding(tiff_base::specs::FieldBytes::field_bytes))]
    fn read_placed_value<R: Source>(
        &self,
        source: &mut R,
        entry: &Entry,
        len: u64,
    ) -> TiffResult<Value>
        requires len { len ≡ field_len entry.now }
        requires some { 0 < entry.now.count }
        requires elsewhere { byte_len (offset_width self.now.kind) < len }
        ensures kept { IsKept R.contents R.failures result source.old source.new }
        ensures answer { AnswersWithin plain_value result
            (value.placed_value self.now.kind self.now.order (R.contents source.old).bytes
            self.now.limits.now entry.now)
            (R.failures source.old) (R.failures source.new) }
        ensures asked { ReadsOnly
            (FieldReadable (R.contents source.old) self.now.kind self.now.order entry.now) result }
        ensures limit { value.placed_value self.now.kind self.now.order (R.contents source.old).bytes
            self.now.limits.now entry.now ≡ Err tiff.LimitsExceeded
            → result ≡ Err tiff.LimitsExceeded }
    {
        let (field_type, count) = (entry.field_type(), entry.count());
        if !is_allowed(self.limits, field_type, count) {
            return Err(TiffError::LimitsExceeded);
        }
        let offset = offset_in(self.kind, self.order, entry.value());
        let bytes = read_bytes_at(self.alloc, source, offset, len as usize)?;
        let stored = StoredValues {
            inline: false,
            field_type,
            order: self.order,
            count,
        };
        value_from(self.alloc, stored, &bytes)
    }

    /// Reads the value of a field. Returns `LimitsExceeded` for 2^64 bytes or more, and for values
    /// outside the entry that are more than the limits allow, before it reads. Returns
    /// `IoError(UnexpectedEof)` for bytes past the end of the source. Returns `InvalidTag` for a
    /// text in the entry that does not end there, and for bytes that are no text. Allocates memory
    /// only for values within the limits and within the source, and for a value in the entry only
    /// where it is valid.
    #[tactic(auto, using(crate::specs::lemmas::Within::value_unlimited), unfolding(crate::specs::FieldValue::field_value))]
    pub fn read_value<R: Source>(&self, source: &mut R, entry: &Entry) -> TiffResult<Value>
        ensures kept { IsKept R.contents R.failures result source.old source.new }
        ensures answer { let given
            = value.field_value self.now.kind self.now.order (R.contents source.old).bytes
            self.now.limits.now entry.now
            in
            AnswersBut (value.WantsValue (value.stands_in_entry self.now.kind entry.now) given)
            (R.failures source.old < R.failures source.new) plain_value result given }
        ensures asked { ReadsOnly
            (FieldReadable (R.contents source.old) self.now.kind self.now.order entry.now) result }

        // A limit is checked before a byte is read.
        ensures limit { value.field_value self.now.kind self.now.order (R.contents source.old).bytes
            self.now.limits.now entry.now ≡ Err tiff.LimitsExceeded
            → result ≡ Err tiff.LimitsExceeded }
    {
        let count = entry.count();
        if count == 0 {
            return Ok(Value::List(Vec::new(self.alloc)));
        }
        let Some(len) = len_of(entry) else {
            return Err(TiffError::LimitsExceeded);
        };
        if len > offset_len(self.kind) {
            return self.read_placed_value(source, entry, len);
        }
        let stored = StoredValues {
            inline: true,
            field_type: entry.field_type(),
            order: self.order,
            count,
        };
        value_from(self.alloc, stored, &entry.value()[..len as usize])
    }

    /// Reads the value of a tag. Returns `None` if the directory does not have the tag.
    #[tactic(auto, using(crate::specs::lemmas::Within::found_wanted, crate::specs::lemmas::Within::found_limited), unfolding(crate::specs::TagLookup::look_in))]
    pub fn find_value<R: Source>(
        &self,
        source: &mut R,
        directory: &Directory,
        tag: Tag,
    ) -> TiffResult<Option<Value>>
        ensures kept { IsKept R.contents R.failures result source.old source.new }
        ensures none { get directory.now.entries (tag_number tag) ≡ None → result ≡ Ok None }
        ensures answer { let given
            = (look_in self.now.kind self.now.order (R.contents source.old).bytes self.now.limits.now
            directory.now.entries).value tag
            in
            AnswersBut
            (value.WantsFound self.now.kind (get directory.now.entries (tag_number tag)) given)
            (R.failures source.old < R.failures source.new) (λ v. option_map plain_value v) result
            given }
        ensures asked { ReadsOnly
            (TagReadable (R.contents source.old) self.now.kind self.now.order directory.now tag)
            result }

        // A limit is checked before a byte is read.
        ensures limit { (look_in self.now.kind self.now.order (R.contents source.old).bytes
            self.now.limits.now directory.now.entries).value tag ≡ Err tiff.LimitsExceeded
            → result ≡ Err tiff.LimitsExceeded }
    {
        match directory.get(tag) {
            None => Ok(None),
            Some(entry) => Ok(Some(self.read_value(source, entry)?)),
        }
    }
}

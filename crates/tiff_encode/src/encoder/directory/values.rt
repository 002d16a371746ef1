//! Writes values: alone, for a field, or as the tags of a directory, one after another.

ghost use Rattle.std.specs.Prelude.{◌≡◌, ◌<◌, IsSome, MatchResult, None, ◌≤◌, ◌/◌, ◌%◌, ◌++◌, [], ◌∷◌, length, IfErr, OnErr, Ok};
ghost use Rattle.tiff_base.specs.declared.tags.«Type».{«Type»};
ghost use Rattle.tiff_encode.specs.Causes.{end_of, field_cause, order_cause};
ghost use Rattle.tiff_encode.specs.Ends.{Ends};
ghost use Rattle.tiff_encode.specs.Machine.{by_cause};
ghost use Rattle.tiff_encode.specs.Placing.{Checks, Places};
ghost use Rattle.tiff_encode.specs.Rooms.{IsInRoom};
ghost use Rattle.tiff_value.specs.Fields.{data_in};
ghost use Rattle.tiff_base.specs.Types.{type_size};
ghost use Rattle.tiff_value.specs.Data.{data_of, rationals, u16s, u32s};
ghost use Rattle.tiff_encode.specs.Tagging.{StopsInPart, write_fields};
ghost use Rattle.tiff_encode.specs.Calls as calls;

use crate::encoder::TiffEncoder;
use crate::encoder::directory::state::{DirectoryState, HasDirectory};
use crate::encoder::kind::{TiffKind, check_field, fill, offset_size};
use std::marker::Model;
use tiff_base::directory::Entry;
use tiff_base::error::{TiffError, TiffResult, UsageError};
use tiff_base::io::Sink;
use tiff_base::tags::{ByteOrder, FileKind, Tag, Type};
use tiff_value::buffer::ValueBuffer;
use tiff_value::encoder::tiff_value::TiffValue;

// Returns `UsageError(ByteOrderMismatch)` unless the byte order is little-endian.
fn check_order(order: ByteOrder) -> TiffResult<()>
    ensures { Checks (order_cause order None) result }
{
    match order {
        ByteOrder::LittleEndian => Ok(()),
        ByteOrder::BigEndian => Err(TiffError::UsageError(UsageError::ByteOrderMismatch)),
    }
}

// Returns the bytes of two numbers of 2 bytes each.
fn join_shorts(a: [u8; 2], b: [u8; 2]) -> [u8; 4]
    ensures { result ≡ a ++ b }
{
    let mut bytes = [0u8; 4];
    bytes[..2].copy_from_slice(&a);
    bytes[2..].copy_from_slice(&b);
    bytes
}

// Returns the bytes of two numbers of 4 bytes each.
fn join_longs(a: [u8; 4], b: [u8; 4]) -> [u8; 8]
    ensures { result ≡ a ++ b }
{
    let mut bytes = [0u8; 8];
    bytes[..4].copy_from_slice(&a);
    bytes[4..].copy_from_slice(&b);
    bytes
}

/// A tag and its value, of at most 8 bytes.
#[derive(Clone, Copy, Drop)]
pub(crate) struct TagValue {
    tag: Tag,
    field_type: Type,
    len: usize,
    bytes: [u8; 8],
}

impl Model for TagValue {
    ghost use Rattle.std.specs.Prelude.{◌≡◌, ◌/◌, ◌%◌, ◌≤◌, length, take};
    ghost use Rattle.tiff_base.specs.declared.tags.Tag.{Tag};
    ghost use Rattle.tiff_base.specs.Types.{type_size};
    ghost use Rattle.tiff_value.specs.Data.{FieldData};
    ghost use Rattle.tiff_value.specs.Fields.{filled_field};

    ghost Value = { Tag × FieldData };

    ghost view = { λ v. (
      v.tag,
      record {
        field_type = v.field_type;
        count = v.len / type_size v.field_type;
        bytes = take v.len v.bytes;
      },
    ) };

    // The bytes after the value are zeros.
    ghost invariant = { λ v. (v.len ≤ 8) × (v.len % type_size v.field_type ≡ 0)
        × (length (take v.len v.bytes) ≡ v.len) × (filled_field (take v.len v.bytes) ≡ v.bytes) };

    ghost inverse = { λ d. record {
      tag = d.0;
      field_type = d.1.field_type;
      len = length d.1.bytes;
      bytes = filled_field d.1.bytes;
    } };

    ghost inverse_ok = { λ a h i. record { tag = a.tag; field_type = a.field_type; len = h.2 i; bytes = h.3 i } };
}

impl TagValue {
    // Returns a tag with whole values of a type.
    fn of(tag: Tag, field_type: Type, bytes: &[u8]) -> Self
        requires short { length bytes.now ≤ 8 }
        requires whole { length bytes.now % type_size field_type ≡ 0 }
        ensures { result
            ≡ (
              tag,
              record {
                field_type = field_type;
                count = length bytes.now / type_size field_type;
                bytes = bytes.now;
              },
            ) }
    {
        TagValue {
            tag,
            field_type,
            len: bytes.len(),
            bytes: fill(bytes),
        }
    }

    /// Returns a tag with one number of 4 bytes.
    pub(crate) fn long(tag: Tag, n: u32) -> Self
        ensures { result ≡ (tag, data_of (u32s (n ∷ []))) }
    {
        TagValue::of(tag, Type::LONG, &n.to_le_bytes())
    }

    /// Returns a tag with one number of 2 bytes.
    pub(crate) fn short(tag: Tag, n: u16) -> Self
        ensures { result ≡ (tag, data_of (u16s (n ∷ []))) }
    {
        TagValue::of(tag, Type::SHORT, &n.to_le_bytes())
    }

    /// Returns a tag with two numbers of 2 bytes each.
    pub(crate) fn shorts(tag: Tag, a: u16, b: u16) -> Self
        ensures { result ≡ (tag, data_of (u16s (a ∷ b ∷ []))) }
    {
        TagValue::of(
            tag,
            Type::SHORT,
            &join_shorts(a.to_le_bytes(), b.to_le_bytes()),
        )
    }

    /// Returns a tag with one fraction.
    pub(crate) fn rational(tag: Tag, n: u32, d: u32) -> Self
        ensures { result ≡ (tag, data_of (rationals ((n, d) ∷ []))) }
    {
        TagValue::of(
            tag,
            Type::RATIONAL,
            &join_longs(n.to_le_bytes(), d.to_le_bytes()),
        )
    }
}

impl<W: Sink, K: TiffKind> TiffEncoder<W, K> {
    // Returns the end of the file, where the next bytes are appended. Returns
    // `UsageError(WriterFailed)` if an earlier write to the sink failed.
    pub(crate) fn end(&self) -> TiffResult<u64>
        ensures { MatchResult result
            (λ end. (self.now.fault ≡ None) × (end ≡ end_of self.now))
            (λ e. IsSome self.now.fault × (e ≡ TiffError.UsageError UsageError.WriterFailed)) }
    {
        if self.writer.has_failed() {
            return Err(TiffError::UsageError(UsageError::WriterFailed));
        }
        Ok(self.writer.offset())
    }

    // Returns the kind of the file.
    pub(crate) fn file_kind(&self) -> FileKind
        ensures { result ≡ self.now.kind }
    {
        let _chain = &self.chain;
        K::file_kind()
    }

    // Writes a value for a field: appends its bytes if they don't fit into the entry.
    fn place_entry(&mut self, field_type: Type, count: u64, bytes: &[u8]) -> TiffResult<Entry>
        requires { self.old.fault ≡ None }
        ensures { Places (record { field_type = field_type; count = count; bytes = bytes.now })
            self.old self.new result }
    {
        if bytes.len() as u64 <= offset_size(self.file_kind()) {
            return Ok(Entry::new_u64(field_type, count, fill(bytes)));
        }
        let offset = self.writer.offset();
        self.append(bytes)?;
        Ok(Entry::new_u64(field_type, count, offset.to_le_bytes()))
    }

    // `write_entry`. Without room for the entry it appends nothing.
    pub(crate) fn place_value<T: TiffValue>(
        &mut self,
        value: &T,
        has_room: bool,
    ) -> TiffResult<Entry>
        ensures answer { Ends (λ e. e) (calls.write_entry (T.field_data value.now) self.old) result
            self.old self.new }
        ensures room { IsInRoom has_room self.old self.new result }
    {
        let end = self.end()?;
        value.check()?;
        let count = value.count() as u64;
        check_field(self.file_kind(), end, count, value.bytes())?;
        if !has_room {
            return Err(TiffError::OutOfMemory);
        }
        let data = value.data(self.alloc)?;
        let (field_type, _len) = T::type_and_len();
        self.place_entry(field_type, count, &data)
    }

    // Writes bytes for a field, as values of a type. It omits the bytes after the last whole value.
    fn place_data(
        &mut self,
        end: u64,
        field_type: Type,
        bytes: &[u8],
        has_room: bool,
    ) -> TiffResult<Entry>
        requires fresh { self.old.fault ≡ None }
        requires at_end { end ≡ end_of self.old }
        ensures answer { Ends (λ e. e) (by_cause (field_cause self.old (data_in field_type bytes.now))
            (calls.placed_field (data_in field_type bytes.now)) self.old) result self.old self.new }
        ensures room { IsInRoom has_room self.old self.new result }
    {
        let size = usize::from(field_type.byte_len());
        let count = bytes.len() / size;
        let whole = &bytes[..count * size];
        check_field(self.file_kind(), end, count as u64, whole.len())?;
        if !has_room {
            return Err(TiffError::OutOfMemory);
        }
        self.place_entry(field_type, count as u64, whole)
    }

    // `write_entry_buf` of values of a type, as bytes in a byte order.
    pub(crate) fn place_ordered(
        &mut self,
        order: ByteOrder,
        field_type: Type,
        bytes: &[u8],
        has_room: bool,
    ) -> TiffResult<Entry>
        ensures answer { Ends (λ e. e)
            (calls.write_entry_buf
            (record { order = order; data_type = field_type; bytes = bytes.now })
            self.old) result self.old self.new }
        ensures room { IsInRoom has_room self.old self.new result }
    {
        let end = self.end()?;
        check_order(order)?;
        self.place_data(end, field_type, bytes, has_room)
    }

    // `write_entry_buf` of a buffer.
    pub(crate) fn place_buffer(&mut self, buffer: &ValueBuffer, has_room: bool) -> TiffResult<Entry>
        ensures answer { Ends (λ e. e) (calls.write_entry_buf buffer.now self.old) result self.old self.new }
        ensures room { IsInRoom has_room self.old self.new result }
    {
        let (order, field_type) = (buffer.byte_order(), buffer.data_type());
        self.place_ordered(order, field_type, buffer.as_bytes(), has_room)
    }

    // `write_entry_bytes`
    pub(crate) fn place_entry_bytes(
        &mut self,
        field_type: Type,
        bytes: &[u8],
        has_room: bool,
    ) -> TiffResult<Entry>
        ensures answer { Ends (λ e. e) (calls.write_entry_bytes field_type bytes.now self.old) result
            self.old self.new }
        ensures room { IsInRoom has_room self.old self.new result }
    {
        let end = self.end()?;
        let found = bytes.len();
        if found % usize::from(field_type.byte_len()) != 0 {
            return Err(TiffError::UsageError(UsageError::MismatchedEntryLength {
                ty: field_type,
                found,
            }));
        }
        self.place_data(end, field_type, bytes, has_room)
    }

    // `write_data` of a directory
    pub(crate) fn append_value<T: TiffValue>(&mut self, value: &T) -> TiffResult<u64>
        ensures { Ends (λ n. n) (calls.write_data (T.field_data value.now) self.old) result self.old
            self.new }
    {
        let end = self.end()?;
        value.check()?;
        let data = value.data(self.alloc)?;
        self.append(&data)?;
        Ok(end)
    }

    // `write_data_buf` of bytes in a byte order. It writes them as they are, of any type.
    pub(crate) fn append_ordered(&mut self, order: ByteOrder, bytes: &[u8]) -> TiffResult<u64>
        ensures { (data_type : «Type») → Ends (λ n. n) (calls.write_data_buf
            (record { order = order; data_type = data_type; bytes = bytes.now }) self.old) result
            self.old self.new }
    {
        let end = self.end()?;
        check_order(order)?;
        self.append(bytes)?;
        Ok(end)
    }

    // `write_data_buf` of a buffer.
    pub(crate) fn append_buffer(&mut self, buffer: &ValueBuffer) -> TiffResult<u64>
        ensures { Ends (λ n. n) (calls.write_data_buf buffer.now self.old) result self.old self.new }
    {
        self.append_ordered(buffer.byte_order(), buffer.as_bytes())
    }
}

impl<W: Sink, K: TiffKind> TiffEncoder<W, K> {
    // `write_tag`: writes a value, and then sets the field of its tag. After an error the fields
    // don't change.
    pub(crate) fn set_tag<T: TiffValue>(
        &mut self,
        fields: &mut DirectoryState,
        tag: Tag,
        value: &T,
    ) -> TiffResult<()>
        ensures stays { OnErr result (fields.new ≡ fields.old) }
        ensures answer { Ends (λ _. fields.new)
            (calls.write_tag fields.old tag (T.field_data value.now) self.old) result
            self.old self.new }
    {
        let room = fields.make_room(tag);
        let placed = self.place_value(value, room.is_made());
        fields.settle(tag, room, placed)
    }

    // Writes a value of at most 8 bytes, and then sets the field of its tag. It allocates memory
    // for the directory only. After an error the fields don't change.
    fn set_value(&mut self, fields: &mut DirectoryState, value: &TagValue) -> TiffResult<()>
        ensures stays { OnErr result (fields.new ≡ fields.old) }
        ensures answer { Ends (λ _. fields.new)
            (calls.write_tag fields.old value.now.0 (Ok value.now.1) self.old) result
            self.old self.new }
    {
        let room = fields.make_room(value.tag);
        let bytes = &value.bytes[..value.len];
        let placed = self.place_entry_bytes(value.field_type, bytes, room.is_made());
        fields.settle(value.tag, room, placed)
    }

    // Writes tags one after another, each with a value of at most 8 bytes. It allocates memory for
    // the directory only. After an error the tags before the one that failed are set.
    pub(crate) fn set_tags(
        &mut self,
        fields: &mut DirectoryState,
        values: &[TagValue],
    ) -> TiffResult<()>
        ensures part { IfErr result (λ e. StopsInPart fields.old values.now e self.old self.new fields.new) }
        ensures answer { Ends (λ _. fields.new) (write_fields fields.old values.now self.old) result self.old
            self.new }
    {
        for value in values {
            self.set_value(fields, value)?;
        }
        Ok(())
    }
}

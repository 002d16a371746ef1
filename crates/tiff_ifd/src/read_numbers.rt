//! Reads the numbers of a field without making a `Value` of each.

ghost use Rattle.std.specs.Prelude.{◌≡◌, ◌*◌, ◌<◌, true, None, Ok, length, slice_index, EachIndex, option_map};
ghost use Rattle.std.specs.FinMap.{get};
ghost use Rattle.std.specs.Int.{byte_len};
ghost use Rattle.tiff_base.specs.Answers.{AnswersWithoutMemory, ReadsOnly, IsKept};
ghost use Rattle.tiff_base.specs.Sparing.{AnswersWithin, GivesSparingly};
ghost use Rattle.tiff_base.specs.Directory.{offset_width};
ghost use Rattle.tiff_base.specs.FieldBytes.{field_len};
ghost use Rattle.tiff_base.specs.Number.{number};
ghost use Rattle.tiff_base.specs.SourceAndSink.{bytes_at};
ghost use Rattle.tiff_base.specs.Tags.{tag_number};
ghost use Rattle.tiff_base.specs.Types.{type_size};
ghost use Rattle.tiff_ifd.specs.Into.{into_u64_vec};
ghost use Rattle.tiff_ifd.specs.TagLookup.{AnswersFound, find, look_in};
ghost use Rattle.tiff_ifd.specs.OneNumber.{NumberReadable, is_unsigned, one_number};
ghost use Rattle.tiff_ifd.specs.Stretches.{FieldReadable, TagReadable};
ghost use Rattle.tiff_ifd.specs.Unsigned.{IsUnsigned, field_numbers, numbers_from, placed_numbers, unsigned_width};

use crate::field_reader::FieldReader;
use crate::read_bytes::{len_of, offset_in, offset_len};
use crate::read_value::{is_allowed, u16_of, u32_of, u64_of};
use std::alloc::Global;
use tiff_base::directory::{Directory, Entry};
use tiff_base::error::{TiffError, TiffFormatError, TiffResult};
use tiff_base::io::Source;
use tiff_base::read::read_bytes_at;
use tiff_base::tags::{ByteOrder, Tag, Type};

/// Whether the values of a type are unsigned numbers of two, four or eight bytes.
pub fn is_unsigned(field_type: Type) -> bool
    ensures value { result ≡ is_unsigned field_type }
    ensures unsigned { result ≡ true → IsUnsigned field_type }
{
    matches!(field_type, Type::SHORT | Type::LONG | Type::LONG8)
}

// The number in the bytes of one value of type SHORT, LONG or LONG8.
fn unsigned_of(field_type: Type, order: ByteOrder, bytes: &[u8]) -> u64
    requires numbers { IsUnsigned field_type }
    requires whole { length bytes.now ≡ type_size field_type }
    ensures { result ≡ number order (unsigned_width field_type) bytes.now }
{
    match field_type {
        Type::SHORT => u64::from(u16_of(order, bytes)),
        Type::LONG => u64::from(u32_of(order, bytes)),
        // Type::LONG8
        _ => u64_of(order, bytes),
    }
}

// Decodes consecutive values of type SHORT, LONG or LONG8 into `numbers`. Where the type and the
// byte order are constants, the compiler specializes the loop for them.
#[inline(always)]
#[tactic(auto, using(crate::specs::lemmas::Unsigned::unit_within))]
fn fill_numbers(field_type: Type, order: ByteOrder, bytes: &[u8], numbers: &mut [u64])
    requires numbers { IsUnsigned field_type }
    requires whole { length bytes.now ≡ length numbers.old * type_size field_type }
    ensures { EachIndex numbers.new
        (λ k. slice_index numbers.new k ≡ number order (unsigned_width field_type)
        (bytes_at bytes.now (k * type_size field_type) (type_size field_type))) }
{
    let width = usize::from(field_type.byte_len());
    for k in 0..numbers.len() {
        let at = k * width;
        numbers[k] = unsigned_of(field_type, order, &bytes[at..at + width]);
    }
}

// Decodes consecutive values of type SHORT, LONG or LONG8 into `numbers`. Calls `fill_numbers` with
// constants for the types that most offsets have.
fn fill_by_type(field_type: Type, order: ByteOrder, bytes: &[u8], numbers: &mut [u64])
    requires numbers { IsUnsigned field_type }
    requires whole { length bytes.now ≡ length numbers.old * type_size field_type }
    ensures { EachIndex numbers.new
        (λ k. slice_index numbers.new k ≡ number order (unsigned_width field_type)
        (bytes_at bytes.now (k * type_size field_type) (type_size field_type))) }
{
    match (field_type, order) {
        (Type::SHORT, ByteOrder::LittleEndian) => {
            fill_numbers(Type::SHORT, ByteOrder::LittleEndian, bytes, numbers);
        }
        (Type::SHORT, ByteOrder::BigEndian) => {
            fill_numbers(Type::SHORT, ByteOrder::BigEndian, bytes, numbers);
        }
        (Type::LONG, ByteOrder::LittleEndian) => {
            fill_numbers(Type::LONG, ByteOrder::LittleEndian, bytes, numbers);
        }
        (Type::LONG, ByteOrder::BigEndian) => {
            fill_numbers(Type::LONG, ByteOrder::BigEndian, bytes, numbers);
        }
        _ => fill_numbers(field_type, order, bytes, numbers),
    }
}

// Decodes `count` consecutive values of type SHORT, LONG or LONG8.
#[tactic(auto, using(crate::specs::lemmas::Unsigned::unsigned_ok))]
fn unsigned_from(
    alloc: Global,
    field_type: Type,
    order: ByteOrder,
    count: u64,
    bytes: &[u8],
) -> TiffResult<Vec<u64>>
    requires numbers { IsUnsigned field_type }
    requires whole { length bytes.now ≡ count * type_size field_type }
    ensures { GivesSparingly (λ v. v.items) result (numbers_from field_type order count bytes.now) }
{
    let mut all = vec![in alloc; 0u64; count as usize]?;
    fill_by_type(field_type, order, bytes, &mut all);
    Ok(all)
}

impl FieldReader<'_> {
    // Reads the numbers of a SHORT, LONG or LONG8 field whose values are outside the entry.
    #[tactic(auto, using(crate::specs::lemmas::Within::placed_within), unfolding(tiff_base::specs::FieldBytes::field_bytes))]
    fn read_placed<R: Source>(
        &self,
        source: &mut R,
        entry: &Entry,
        len: u64,
    ) -> TiffResult<Vec<u64>>
        requires numbers { IsUnsigned entry.now.field_type }
        requires len { len ≡ field_len entry.now }
        requires elsewhere { byte_len (offset_width self.now.kind) < len }
        ensures kept { IsKept R.contents R.failures result source.old source.new }
        ensures answer { AnswersWithin (λ v. v.items) result
            (placed_numbers self.now.kind self.now.order (R.contents source.old).bytes
            self.now.limits.now entry.now)
            (R.failures source.old) (R.failures source.new) }
        ensures asked { ReadsOnly
            (FieldReadable (R.contents source.old) self.now.kind self.now.order entry.now) result }
    {
        let (field_type, count) = (entry.field_type(), entry.count());
        if !is_allowed(self.limits, field_type, count) {
            return Err(TiffError::LimitsExceeded);
        }
        let offset = offset_in(self.kind, self.order, entry.value());
        let bytes = read_bytes_at(self.alloc, source, offset, len as usize)?;
        unsigned_from(self.alloc, field_type, self.order, count, &bytes)
    }

    /// Reads the numbers of a field, converted as by `Value::into_u64_vec`. Returns the errors of
    /// `read_value` and of `Value::into_u64_vec`. Allocates memory only within the limits and the
    /// source.
    pub fn read_numbers<R: Source>(&self, source: &mut R, entry: &Entry) -> TiffResult<Vec<u64>>
        ensures kept { IsKept R.contents R.failures result source.old source.new }
        ensures answer { AnswersWithin (λ v. v.items) result
            (field_numbers self.now.kind self.now.order (R.contents source.old).bytes
            self.now.limits.now entry.now)
            (R.failures source.old) (R.failures source.new) }
        ensures asked { ReadsOnly
            (FieldReadable (R.contents source.old) self.now.kind self.now.order entry.now) result }
    {
        let Some(len) = len_of(entry) else {
            return Err(TiffError::LimitsExceeded);
        };
        // A page lists an offset for each chunk: so many numbers aren't made into a `Value` each.
        if is_unsigned(entry.field_type()) && len > offset_len(self.kind) {
            return self.read_placed(source, entry, len);
        }
        self.read_value(source, entry)?.into_u64_vec(self.alloc)
    }

    /// Reads the number with an index of a field of type SHORT, LONG or LONG8, and none of the
    /// others. Returns `InvalidTypeForTag` for another type, `LimitsExceeded` for a field of 2^64
    /// bytes or more, `InconsistentSizesEncountered` where `index` is not below the number of
    /// numbers and for an offset of 2^64 or more, and `IoError(UnexpectedEof)` for a number past
    /// the end of the source.
    #[tactic(auto, unfolding(crate::specs::OneNumber::one_number))]
    pub fn read_number<R: Source>(
        &self,
        source: &mut R,
        entry: &Entry,
        index: u64,
    ) -> TiffResult<u64>
        ensures kept { IsKept R.contents R.failures result source.old source.new }
        ensures answer { AnswersWithoutMemory (λ n. n) result
            (one_number self.now.kind self.now.order (R.contents source.old).bytes entry.now index)
            (R.failures source.old) (R.failures source.new) }
        ensures asked { ReadsOnly
            (NumberReadable (R.contents source.old) self.now.kind self.now.order entry.now index)
            result }
    {
        let field_type = entry.field_type();
        if !is_unsigned(field_type) {
            return Err(TiffFormatError::InvalidTypeForTag.into());
        }
        if len_of(entry).is_none() {
            return Err(TiffError::LimitsExceeded);
        }
        if entry.count() <= index {
            return Err(TiffFormatError::InconsistentSizesEncountered.into());
        }
        let size = usize::from(field_type.byte_len());
        let mut bytes = [0u8; 8];
        self.fill_part(source, entry, index * size as u64, &mut bytes[..size])?;
        Ok(unsigned_of(field_type, self.order, &bytes[..size]))
    }

    /// Reads the numbers of a tag. Returns `None` if the directory does not have the tag.
    #[tactic(auto, using(crate::specs::lemmas::Within::numbers_found), unfolding(crate::specs::TagLookup::look_in, crate::specs::TagLookup::find))]
    pub fn find_numbers<R: Source>(
        &self,
        source: &mut R,
        directory: &Directory,
        tag: Tag,
    ) -> TiffResult<Option<Vec<u64>>>
        ensures kept { IsKept R.contents R.failures result source.old source.new }
        ensures none { get directory.now.entries (tag_number tag) ≡ None → result ≡ Ok None }
        ensures answer { let look
            = look_in self.now.kind self.now.order (R.contents source.old).bytes self.now.limits.now
            directory.now.entries
            in
            AnswersFound (λ o. option_map (λ v. v.items) o) result (find into_u64_vec look tag) look
            tag (R.failures source.old) (R.failures source.new) }
        ensures asked { ReadsOnly
            (TagReadable (R.contents source.old) self.now.kind self.now.order directory.now tag)
            result }
    {
        match directory.get(tag) {
            None => Ok(None),
            Some(entry) => Ok(Some(self.read_numbers(source, entry)?)),
        }
    }
}

//! Reads the tags of a decoder's page, and of other directories.

ghost use Rattle.std.specs.Prelude.{◌≡◌, ◌<◌, ◌≤◌, ◌^◌, None, Some, Ok, Err, map, option_map, string_bytes};
ghost use Rattle.tiff_base.specs.declared.error.TiffError.TheVariants.{LimitsExceeded};
ghost use Rattle.tiff_base.specs.Answers.{AnswersWithoutMemory, NoneSwallowed};
ghost use Rattle.tiff_ifd.specs.Fitted.{fitted_numbers};
ghost use Rattle.tiff_ifd.specs.TagQueries.{refused_buffer};
ghost use Rattle.tiff_ifd.specs.View.{plain_value};
ghost use Rattle.tiff_decode.specs.Asked.{AsksForTag};
ghost use Rattle.tiff_decode.specs.Outcome as outcome;
ghost use Rattle.tiff_decode.specs.Reader.{directory_or, reader_of, reading, KeepsReading, ReadsTags, IsNumber, NumberAs, NumberIfAs, NumbersAs, NumbersIfAs, TagsRead};
ghost use Rattle.tiff_decode.specs.ReplyView.{bits_32, bits_64};
ghost use Rattle.tiff_decode.specs.Step.{BufferLeft};

use crate::decoder::Decoder;
use std::alloc::Global;
use tiff_base::directory::{Directory, Entry};
use tiff_base::error::{TiffError, TiffFormatError, TiffResult};
use tiff_base::io::Source;
use tiff_base::tags::{Bits32, Bits64, ByteOrder, Tag};
use tiff_ifd::field_reader::FieldReader;
use tiff_ifd::value::Value;
use tiff_value::buffer::ValueBuffer;

/// Reads the tags of a directory: of a decoder's page, or of another directory of its file.
pub struct IfdDecoder<'a, R: Source> {
    alloc: Global,
    pub(crate) decoder: &'a mut Decoder<R>,
    pub(crate) other: Option<&'a Directory>,
}

impl<R: Source> Drop for IfdDecoder<'_, R> {
    // Leaves the decoder as the last call left it.
    fn drop(self)
        ensures { self.exit.1.0.now ≡ self.entry.decoder.now }
    {
        let IfdDecoder {
            alloc: _,
            decoder: _,
            other: _,
        } = self;
    }
}

// The other directory if there is one, else this one.
pub(crate) fn chosen<'x>(own: &'x Directory, other: Option<&'x Directory>) -> &'x Directory
    ensures { result.now ≡ directory_or own.now (option_map (λ d. d.now) other.entry) }
{
    match other {
        None => own,
        Some(other) => other,
    }
}

// Converts a number to a number type.
fn as_type<T: TryFrom<u64>>(n: u64, tag: Tag) -> TiffResult<T>
where
    T::Error: Drop,
    ensures { IsNumber T.try_from_gives tag n result }
{
    match T::try_from(n) {
        Ok(x) => Ok(x),
        Err(_) => Err(TiffFormatError::InvalidTagValueType(tag).into()),
    }
}

// Converts numbers to a number type.
#[tactic(auto, using(crate::proofs::Numbers::next_number))]
fn all_as<T: TryFrom<u64> + Drop>(alloc: Global, numbers: &[u64], tag: Tag) -> TiffResult<Vec<T>>
where
    T::Error: Drop,
    ensures { NumbersAs T.try_from_gives tag numbers.now result }
{
    let mut all = Vec::with_capacity(alloc, numbers.len())?;
    for n in numbers {
        all.push(as_type(*n, tag)?)?;
    }
    Ok(all)
}

// Numbers of 64 bits are below 2^64.
fn all_fit(numbers: &[u64])
    ensures { (tag : _) → fitted_numbers tag (2 ^ 64) numbers.now ≡ Ok numbers.now }
{}

// Leaves in a buffer what the error of a field leaves there: no bytes of the field's type, or,
// where a limit refused the field, what the buffer had.
fn leave_refused(
    alloc: Global,
    order: ByteOrder,
    entry: &Entry,
    fault: &TiffError,
    buf: &mut ValueBuffer,
)
    ensures { buf.new ≡ refused_buffer order entry.now buf.old fault.now }
{
    if !matches!(fault, TiffError::LimitsExceeded) {
        *buf = ValueBuffer::from_parts(order, entry.field_type(), Vec::new(alloc));
    }
}

impl<R: Source> Decoder<R> {
    /// The tags of the page's directory.
    pub fn image_ifd(&mut self) -> IfdDecoder<'_, R>
        ensures same_reference { result.decoder.ghost_name ≡ self.entry.ghost_name }
        ensures decoder { result.decoder.now ≡ self.old }
        ensures other { result.other ≡ None }
    {
        let alloc = self.alloc;
        IfdDecoder {
            alloc,
            decoder: self,
            other: None,
        }
    }

    /// The tags of another directory of the file.
    pub fn read_directory_tags<'a>(&'a mut self, directory: &'a Directory) -> IfdDecoder<'a, R>
        ensures same_reference { result.decoder.ghost_name ≡ self.entry.ghost_name }
        ensures decoder { result.decoder.now ≡ self.old }
        ensures other { option_map (λ d. d.now) result.other ≡ Some directory.now }
    {
        let alloc = self.alloc;
        IfdDecoder {
            alloc,
            decoder: self,
            other: Some(directory),
        }
    }

    // Reads the value of a tag of the page's directory, or of another directory.
    #[tactic(auto, using(tiff_ifd::specs::lemmas::Within::look_within), unfolding(crate::specs::Outcome::find_tag, tiff_ifd::specs::TagLookup::look_in))]
    fn value_in(&mut self, other: Option<&Directory>, tag: Tag) -> TiffResult<Option<Value>>
        ensures read { TagsRead
            (outcome.WantsTag (reader_of self.old (option_map (λ d. d.now) other.entry)) tag)
            (option_map plain_value)
            (outcome.find_tag (reader_of self.old (option_map (λ d. d.now) other.entry)) tag) result
            self.old self.new }
        ensures none { outcome.find_entry (reader_of self.old (option_map (λ d. d.now) other.entry)) tag
            ≡ None → result ≡ Ok None }
        ensures asked { AsksForTag (reader_of self.old (option_map (λ d. d.now) other.entry)) tag result }
        ensures limit { (outcome.find_tag (reader_of self.old (option_map (λ d. d.now) other.entry)) tag).answer
            ≡ Err LimitsExceeded → result ≡ Err LimitsExceeded }
    {
        let tags = &mut self.tags;
        let directory = chosen(&tags.directory, other);
        let fields = FieldReader {
            alloc: self.alloc,
            kind: tags.kind,
            order: tags.order,
            limits: &tags.limits,
        };
        fields.find_value(&mut tags.source, directory, tag)
    }

    // The page's directory, or another directory.
    fn directory_of<'x>(&'x self, other: Option<&'x Directory>) -> &'x Directory
        ensures { result.now ≡ directory_or self.now.state.directory
            (option_map (λ d. d.now) other.entry) }
    {
        chosen(&self.tags.directory, other)
    }

    // The field of a tag of the page's directory, or of another directory.
    #[tactic(auto, unfolding(crate::specs::Outcome::find_entry))]
    pub(crate) fn entry_in(&self, other: Option<&Directory>, tag: Tag) -> Option<Entry>
        ensures { result
            ≡ outcome.find_entry (reader_of self.now (option_map (λ d. d.now) other.entry)) tag }
    {
        match chosen(&self.tags.directory, other).get(tag) {
            None => None,
            Some(entry) => Some(Entry::new_u64(entry.field_type(), entry.count(), entry.value())),
        }
    }

    // Reads a field and its bytes, of the page's directory or of another directory.
    #[tactic(auto, unfolding(crate::specs::Outcome::find_tag_buf))]
    pub(crate) fn buf_in(
        &mut self,
        other: Option<&Directory>,
        tag: Tag,
        buf: &mut ValueBuffer,
    ) -> TiffResult<Option<Entry>>
        ensures read { TagsRead
            (outcome.WantsBytes (reader_of self.old (option_map (λ d. d.now) other.entry)) tag
            buf.old)
            (λ e. (e, buf.new))
            (outcome.find_tag_buf (reader_of self.old (option_map (λ d. d.now) other.entry)) tag
            buf.old) result self.old self.new }
        ensures left { BufferLeft self.old.order
            (outcome.find_entry (reader_of self.old (option_map (λ d. d.now) other.entry))
            tag) buf.old result buf.new }
        ensures asked { AsksForTag (reader_of self.old (option_map (λ d. d.now) other.entry)) tag result }
    {
        let Some(entry) = self.entry_in(other, tag) else {
            return Ok(None);
        };
        let alloc = self.alloc;
        let tags = &mut self.tags;
        let fields = FieldReader {
            alloc,
            kind: tags.kind,
            order: tags.order,
            limits: &tags.limits,
        };
        match fields.read_field_bytes(&mut tags.source, &entry) {
            Ok(bytes) => {
                *buf = ValueBuffer::from_parts(tags.order, entry.field_type(), bytes);
                Ok(Some(entry))
            }
            Err(fault) => {
                leave_refused(alloc, tags.order, &entry, &fault, buf);
                return Err(fault);
            }
        }
    }

    // Reads the bytes of a field from an index on, of the page's directory or of another directory.
    #[tactic(auto, unfolding(crate::specs::Outcome::find_tag_bytes))]
    pub(crate) fn bytes_in(
        &mut self,
        other: Option<&Directory>,
        tag: Tag,
        buf: &mut [u8],
        at: u64,
    ) -> TiffResult<Option<usize>>
        ensures answer { AnswersWithoutMemory (λ n. (n, buf.new)) result
            (outcome.find_tag_bytes (reader_of self.old (option_map (λ d. d.now) other.entry)) tag
            buf.old at).answer
            self.old.failures self.new.failures }
        ensures state { self.new ≡ record self.old { failures = self.new.failures } }
        ensures count { self.old.failures ≤ self.new.failures }
        ensures swallowed { NoneSwallowed result self.old.failures self.new.failures }
        ensures asked { AsksForTag (reader_of self.old (option_map (λ d. d.now) other.entry)) tag result }
    {
        let Some(entry) = self.entry_in(other, tag) else {
            return Ok(None);
        };
        let tags = &mut self.tags;
        let fields = FieldReader {
            alloc: self.alloc,
            kind: tags.kind,
            order: tags.order,
            limits: &tags.limits,
        };
        let n = fields.read_part(&mut tags.source, &entry, at, buf)?;
        Ok(Some(n))
    }

    /// Reads the value of a tag of the page. Returns `None` if the page does not have the tag.
    /// Returns `LimitsExceeded` for a list of more values than `decoding_buffer_size / 32`, for a
    /// text of more bytes than `decoding_buffer_size`, and for values of 2^64 bytes or more.
    /// Returns `IoError(UnexpectedEof)` for values past the end of the source, and `InvalidTag` for
    /// bytes that are no text. Allocates no memory where the page does not have the tag.
    pub fn find_tag(&mut self, tag: Tag) -> TiffResult<Option<Value>>
        ensures read { TagsRead (outcome.WantsTag self.old tag) (option_map plain_value)
            (outcome.find_tag self.old tag) result self.old self.new }
        ensures none { outcome.find_entry self.old tag ≡ None → result ≡ Ok None }
        ensures asked { AsksForTag self.old tag result }

        // A limit is checked before a byte of the value is read.
        ensures limit { (outcome.find_tag self.old tag).answer ≡ Err LimitsExceeded
            → result ≡ Err LimitsExceeded }
    {
        self.value_in(None, tag)
    }

    // Reads the number of a tag of the page's directory, or of another directory.
    #[tactic(auto, unfolding(crate::specs::Outcome::find_tag, crate::specs::Outcome::find_tag_unsigned, tiff_ifd::specs::TagQueries::find_unsigned, tiff_ifd::specs::TagLookup::find))]
    pub(crate) fn number_in(
        &mut self,
        other: Option<&Directory>,
        tag: Tag,
    ) -> TiffResult<Option<u64>>
        ensures read { TagsRead
            (outcome.WantsTag (reader_of self.old (option_map (λ d. d.now) other.entry)) tag)
            (λ n. n) (outcome.find_tag_unsigned
            (reader_of self.old (option_map (λ d. d.now) other.entry)) tag)
            result self.old self.new }
        ensures asked { AsksForTag (reader_of self.old (option_map (λ d. d.now) other.entry)) tag result }
    {
        match self.value_in(other, tag)? {
            None => Ok(None),
            Some(value) => Ok(Some(value.into_u64()?)),
        }
    }

    // Reads the numbers of a tag of the page's directory, or of another directory.
    #[tactic(auto, unfolding(crate::specs::Outcome::find_tag, crate::specs::Outcome::find_tag_unsigned_vec, tiff_ifd::specs::TagQueries::find_unsigned_vec, tiff_ifd::specs::TagLookup::find))]
    pub(crate) fn numbers_in(
        &mut self,
        other: Option<&Directory>,
        tag: Tag,
    ) -> TiffResult<Option<Vec<u64>>>
        ensures read { TagsRead
            (outcome.WantsTag (reader_of self.old (option_map (λ d. d.now) other.entry)) tag)
            (λ o. option_map (λ v. v.items) o)
            (outcome.find_tag_unsigned_vec
            (reader_of self.old (option_map (λ d. d.now) other.entry)) tag) result self.old
            self.new }
        ensures asked { AsksForTag (reader_of self.old (option_map (λ d. d.now) other.entry)) tag result }
    {
        let alloc = self.alloc;
        match self.value_in(other, tag)? {
            None => Ok(None),
            Some(value) => {
                let numbers = value.into_u64_vec(alloc)?;
                all_fit(&numbers);
                Ok(Some(numbers))
            }
        }
    }

    // Reads the number of a required tag of the page's directory, or of another directory.
    #[tactic(auto, unfolding(crate::specs::Outcome::find_tag_unsigned, crate::specs::Outcome::get_tag_unsigned, tiff_ifd::specs::TagQueries::get_unsigned))]
    pub(crate) fn required_in(&mut self, other: Option<&Directory>, tag: Tag) -> TiffResult<u64>
        ensures read { TagsRead
            (outcome.WantsTag (reader_of self.old (option_map (λ d. d.now) other.entry)) tag)
            (λ n. n) (outcome.get_tag_unsigned
            (reader_of self.old (option_map (λ d. d.now) other.entry)) tag)
            result self.old self.new }
        ensures asked { AsksForTag (reader_of self.old (option_map (λ d. d.now) other.entry)) tag result }
    {
        match self.number_in(other, tag)? {
            None => Err(TiffFormatError::RequiredTagNotFound(tag).into()),
            Some(n) => Ok(n),
        }
    }

    /// Reads the number of a tag of the page as a `T`. Returns `None` if the page does not have the
    /// tag. Returns the errors of `find_tag` and of `Value::into_u64`, and `InvalidTagValueType`
    /// for a number that is no `T`.
    pub fn find_tag_unsigned<T: TryFrom<u64>>(&mut self, tag: Tag) -> TiffResult<Option<T>>
    where
        T::Error: Drop,
        ensures answer { NumberIfAs T.try_from_gives (outcome.WantsTag self.old tag)
            (self.old.failures < self.new.failures) tag
            (outcome.find_tag_unsigned self.old tag).answer result }
        ensures state { self.new ≡ record self.old { failures = self.new.failures } }
        ensures count { self.old.failures ≤ self.new.failures }
        ensures swallowed { NoneSwallowed result self.old.failures self.new.failures }
        ensures asked { AsksForTag self.old tag result }
    {
        match self.number_in(None, tag)? {
            None => Ok(None),
            Some(n) => Ok(Some(as_type(n, tag)?)),
        }
    }

    /// Reads the numbers of a tag of the page as a list of `T`. Returns `None` if the page does not
    /// have the tag. Returns the errors of `find_tag` and of `Value::into_u64_vec`, and
    /// `InvalidTagValueType` for a number that is no `T`.
    pub fn find_tag_unsigned_vec<T: TryFrom<u64> + Drop>(
        &mut self,
        tag: Tag,
    ) -> TiffResult<Option<Vec<T>>>
    where
        T::Error: Drop,
        ensures answer { NumbersIfAs T.try_from_gives (outcome.WantsTag self.old tag)
            (self.old.failures < self.new.failures) tag
            (outcome.find_tag_unsigned_vec self.old tag).answer result }
        ensures state { self.new ≡ record self.old { failures = self.new.failures } }
        ensures count { self.old.failures ≤ self.new.failures }
        ensures swallowed { NoneSwallowed result self.old.failures self.new.failures }
        ensures asked { AsksForTag self.old tag result }
    {
        let alloc = self.alloc;
        match self.numbers_in(None, tag)? {
            None => Ok(None),
            Some(numbers) => Ok(Some(all_as(alloc, &numbers, tag)?)),
        }
    }

    /// Reads the number of a required tag of the page as a `T`. Returns `RequiredTagNotFound` if
    /// the page does not have the tag, else the errors of `find_tag_unsigned`.
    pub fn get_tag_unsigned<T: TryFrom<u64>>(&mut self, tag: Tag) -> TiffResult<T>
    where
        T::Error: Drop,
        ensures answer { NumberAs T.try_from_gives (outcome.WantsTag self.old tag)
            (self.old.failures < self.new.failures) tag
            (outcome.get_tag_unsigned self.old tag).answer result }
        ensures state { self.new ≡ record self.old { failures = self.new.failures } }
        ensures count { self.old.failures ≤ self.new.failures }
        ensures swallowed { NoneSwallowed result self.old.failures self.new.failures }
        ensures asked { AsksForTag self.old tag result }
    {
        as_type(self.required_in(None, tag)?, tag)
    }

    /// Reads the value of a required tag of the page. Returns `RequiredTagNotFound` if the page
    /// does not have the tag, else the errors of `find_tag`.
    #[tactic(auto, unfolding(crate::specs::Outcome::get_tag, crate::specs::Outcome::find_tag, tiff_ifd::specs::TagLookup::require, tiff_ifd::specs::TagLookup::find))]
    pub fn get_tag(&mut self, tag: Tag) -> TiffResult<Value>
        ensures read { TagsRead (outcome.WantsTag self.old tag) plain_value (outcome.get_tag self.old tag)
            result self.old self.new }
        ensures asked { AsksForTag self.old tag result }
    {
        match self.find_tag(tag)? {
            None => Err(TiffFormatError::RequiredTagNotFound(tag).into()),
            Some(value) => Ok(value),
        }
    }

    /// Reads the number of a required tag, below 2^32. Returns `RequiredTagNotFound` if the
    /// directory does not have the tag, else the errors of `find_tag` and of `Value::into_u32`.
    #[tactic(auto, using(crate::proofs::Required::unconverted, crate::proofs::Required::required_by, crate::proofs::Required::value_found), unfolding(crate::specs::Outcome::get_tag_u32, crate::specs::Outcome::get_tag))]
    pub fn get_tag_u32(&mut self, tag: Tag) -> TiffResult<u32>
        ensures read { TagsRead (outcome.WantsTag self.old tag) (λ n. n) (outcome.get_tag_u32 self.old tag)
            result self.old self.new }
        ensures asked { AsksForTag self.old tag result }
    {
        self.get_tag(tag)?.into_u32()
    }

    /// Reads the number of a required tag, below 2^64. Returns `RequiredTagNotFound` if the
    /// directory does not have the tag, else the errors of `find_tag` and of `Value::into_u64`.
    #[tactic(auto, using(crate::proofs::Required::unconverted, crate::proofs::Required::required_by, crate::proofs::Required::value_found), unfolding(crate::specs::Outcome::get_tag_u64, crate::specs::Outcome::get_tag))]
    pub fn get_tag_u64(&mut self, tag: Tag) -> TiffResult<u64>
        ensures read { TagsRead (outcome.WantsTag self.old tag) (λ n. n) (outcome.get_tag_u64 self.old tag)
            result self.old self.new }
        ensures asked { AsksForTag self.old tag result }
    {
        self.get_tag(tag)?.into_u64()
    }

    /// Reads the bits of the 32-bit floating-point number of a required tag. Errors:
    /// `RequiredTagNotFound` without the tag, else those of `find_tag` and `Value::into_f32`.
    #[tactic(auto, using(crate::proofs::Required::unconverted, crate::proofs::Required::required_by, crate::proofs::Required::value_found), unfolding(crate::specs::Outcome::get_tag_f32, crate::specs::Outcome::get_tag))]
    pub fn get_tag_f32(&mut self, tag: Tag) -> TiffResult<Bits32>
        ensures read { TagsRead (outcome.WantsTag self.old tag) (bits_32) (outcome.get_tag_f32 self.old tag)
            result self.old self.new }
        ensures asked { AsksForTag self.old tag result }
    {
        self.get_tag(tag)?.into_f32()
    }

    /// Reads the bits of the 64-bit floating-point number of a required tag. Errors:
    /// `RequiredTagNotFound` without the tag, else those of `find_tag` and `Value::into_f64`.
    #[tactic(auto, using(crate::proofs::Required::unconverted, crate::proofs::Required::required_by, crate::proofs::Required::value_found), unfolding(crate::specs::Outcome::get_tag_f64, crate::specs::Outcome::get_tag))]
    pub fn get_tag_f64(&mut self, tag: Tag) -> TiffResult<Bits64>
        ensures read { TagsRead (outcome.WantsTag self.old tag) (bits_64) (outcome.get_tag_f64 self.old tag)
            result self.old self.new }
        ensures asked { AsksForTag self.old tag result }
    {
        self.get_tag(tag)?.into_f64()
    }

    /// Reads the numbers of a required tag, below 2^32. Returns `RequiredTagNotFound` if the
    /// directory does not have the tag, else the errors of `find_tag` and of `Value::into_u32_vec`.
    #[tactic(auto, using(crate::proofs::Required::unconverted, crate::proofs::Required::required_by, crate::proofs::Required::value_found), unfolding(crate::specs::Outcome::get_tag_u32_vec, crate::specs::Outcome::get_tag))]
    pub fn get_tag_u32_vec(&mut self, tag: Tag) -> TiffResult<Vec<u32>>
        ensures read { TagsRead (outcome.WantsTag self.old tag) (λ v. v.items)
            (outcome.get_tag_u32_vec self.old tag) result self.old self.new }
        ensures asked { AsksForTag self.old tag result }
    {
        let alloc = self.alloc;
        self.get_tag(tag)?.into_u32_vec(alloc)
    }

    /// Reads the numbers of a required tag, below 2^16. Returns `RequiredTagNotFound` if the
    /// directory does not have the tag, else the errors of `find_tag` and of `Value::into_u16_vec`.
    #[tactic(auto, using(crate::proofs::Required::unconverted, crate::proofs::Required::required_by, crate::proofs::Required::value_found), unfolding(crate::specs::Outcome::get_tag_u16_vec, crate::specs::Outcome::get_tag))]
    pub fn get_tag_u16_vec(&mut self, tag: Tag) -> TiffResult<Vec<u16>>
        ensures read { TagsRead (outcome.WantsTag self.old tag) (λ v. v.items)
            (outcome.get_tag_u16_vec self.old tag) result self.old self.new }
        ensures asked { AsksForTag self.old tag result }
    {
        let alloc = self.alloc;
        self.get_tag(tag)?.into_u16_vec(alloc)
    }

    /// Reads the numbers of a required tag, below 2^64. Returns `RequiredTagNotFound` if the
    /// directory does not have the tag, else the errors of `find_tag` and of `Value::into_u64_vec`.
    #[tactic(auto, using(crate::proofs::Required::unconverted, crate::proofs::Required::required_by, crate::proofs::Required::value_found), unfolding(crate::specs::Outcome::get_tag_u64_vec, crate::specs::Outcome::get_tag))]
    pub fn get_tag_u64_vec(&mut self, tag: Tag) -> TiffResult<Vec<u64>>
        ensures read { TagsRead (outcome.WantsTag self.old tag) (λ v. v.items)
            (outcome.get_tag_u64_vec self.old tag) result self.old self.new }
        ensures asked { AsksForTag self.old tag result }
    {
        let alloc = self.alloc;
        self.get_tag(tag)?.into_u64_vec(alloc)
    }

    /// Reads the bits of the 32-bit floating-point numbers of a required tag. Errors:
    /// `RequiredTagNotFound` without the tag, else those of `find_tag` and `Value::into_f32_vec`.
    #[tactic(auto, using(crate::proofs::Required::unconverted, crate::proofs::Required::required_by, crate::proofs::Required::value_found), unfolding(crate::specs::Outcome::get_tag_f32_vec, crate::specs::Outcome::get_tag))]
    pub fn get_tag_f32_vec(&mut self, tag: Tag) -> TiffResult<Vec<Bits32>>
        ensures read { TagsRead (outcome.WantsTag self.old tag) (λ v. map bits_32 v.items)
            (outcome.get_tag_f32_vec self.old tag) result self.old self.new }
        ensures asked { AsksForTag self.old tag result }
    {
        let alloc = self.alloc;
        self.get_tag(tag)?.into_f32_vec(alloc)
    }

    /// Reads the bits of the 64-bit floating-point numbers of a required tag. Errors:
    /// `RequiredTagNotFound` without the tag, else those of `find_tag` and `Value::into_f64_vec`.
    #[tactic(auto, using(crate::proofs::Required::unconverted, crate::proofs::Required::required_by, crate::proofs::Required::value_found), unfolding(crate::specs::Outcome::get_tag_f64_vec, crate::specs::Outcome::get_tag))]
    pub fn get_tag_f64_vec(&mut self, tag: Tag) -> TiffResult<Vec<Bits64>>
        ensures read { TagsRead (outcome.WantsTag self.old tag) (λ v. map bits_64 v.items)
            (outcome.get_tag_f64_vec self.old tag) result self.old self.new }
        ensures asked { AsksForTag self.old tag result }
    {
        let alloc = self.alloc;
        self.get_tag(tag)?.into_f64_vec(alloc)
    }

    /// Reads the bytes of a required tag. Returns `RequiredTagNotFound` if the directory does not
    /// have the tag, else the errors of `find_tag` and of `Value::into_u8_vec`.
    #[tactic(auto, using(crate::proofs::Required::unconverted, crate::proofs::Required::required_by, crate::proofs::Required::value_found), unfolding(crate::specs::Outcome::get_tag_u8_vec, crate::specs::Outcome::get_tag))]
    pub fn get_tag_u8_vec(&mut self, tag: Tag) -> TiffResult<Vec<u8>>
        ensures read { TagsRead (outcome.WantsTag self.old tag) (λ v. v.items)
            (outcome.get_tag_u8_vec self.old tag) result self.old self.new }
        ensures asked { AsksForTag self.old tag result }
    {
        let alloc = self.alloc;
        self.get_tag(tag)?.into_u8_vec(alloc)
    }

    /// Reads the text of a required tag. Returns `RequiredTagNotFound` if the directory does not
    /// have the tag, else the errors of `find_tag` and of `Value::into_string`.
    #[tactic(auto, using(crate::proofs::Required::unconverted, crate::proofs::Required::required_by, crate::proofs::Required::value_found), unfolding(crate::specs::Outcome::get_tag_ascii_string, crate::specs::Outcome::get_tag))]
    pub fn get_tag_ascii_string(&mut self, tag: Tag) -> TiffResult<String>
        ensures read { TagsRead (outcome.WantsTag self.old tag) (string_bytes)
            (outcome.get_tag_ascii_string self.old tag) result self.old self.new }
        ensures asked { AsksForTag self.old tag result }
    {
        self.get_tag(tag)?.into_string()
    }
}

impl<'a, R: Source> IfdDecoder<'a, R> {
    /// The directory whose tags the calls read.
    pub fn directory(&self) -> &Directory
        ensures { result.now ≡ directory_or self.now.decoder.now.state.directory
            (option_map (λ d. d.now) self.now.other) }
    {
        self.decoder.directory_of(self.other)
    }

    /// The field of a tag, if the directory has the tag.
    pub fn find_entry(&self, tag: Tag) -> Option<Entry>
        ensures { result ≡ outcome.find_entry (reading self.now) tag }
    {
        self.decoder.entry_in(self.other, tag)
    }

    /// Returns the field of a tag, if the directory has the tag, and reads its bytes into the
    /// buffer, in the file's byte order. Without such a tag the buffer stays the same. Returns
    /// `LimitsExceeded` for values of 2^64 bytes or more, and for more bytes than
    /// `decoding_buffer_size`; then the buffer stays the same. Returns `IoError(UnexpectedEof)` for
    /// values past the end of the source. After any error other than `LimitsExceeded` the buffer
    /// has the type of the field and no values.
    pub fn find_tag_buf(&mut self, tag: Tag, buf: &mut ValueBuffer) -> TiffResult<Option<Entry>>
        ensures read { ReadsTags (outcome.WantsBytes (reading self.old) tag buf.old) (λ e. (e, buf.new))
            (outcome.find_tag_buf (reading self.old) tag buf.old) result self.old self.new }
        ensures left { BufferLeft self.old.decoder.now.order (outcome.find_entry (reading self.old) tag)
            buf.old result buf.new }
        ensures asked { AsksForTag (reading self.old) tag result }
    {
        self.decoder.buf_in(self.other, tag, buf)
    }

    /// Copies the bytes of a tag's values from the byte `offset` on, as many as fit, and returns
    /// their number. Returns `None` if the directory does not have the tag, and 0 where the values
    /// have no such byte. Returns `LimitsExceeded` for values of 2^64 bytes or more,
    /// `InconsistentSizesEncountered` for an offset in the file of 2^64 or more, and
    /// `IoError(UnexpectedEof)` where it copies bytes past the end of the source.
    pub fn find_tag_bytes(
        &mut self,
        tag: Tag,
        buf: &mut [u8],
        offset: u64,
    ) -> TiffResult<Option<usize>>
        ensures kept { KeepsReading result self.old self.new }
        ensures answer { AnswersWithoutMemory (λ n. (n, buf.new)) result
            (outcome.find_tag_bytes (reading self.old) tag buf.old offset).answer
            self.old.decoder.now.failures
            self.new.decoder.now.failures }
        ensures asked { AsksForTag (reading self.old) tag result }
    {
        self.decoder.bytes_in(self.other, tag, buf, offset)
    }

    /// Reads the value of a tag. Returns `None` if the directory does not have the tag. Returns the
    /// errors of `Decoder::find_tag`.
    pub fn find_tag(&mut self, tag: Tag) -> TiffResult<Option<Value>>
        ensures read { ReadsTags (outcome.WantsTag (reading self.old) tag) (option_map plain_value)
            (outcome.find_tag (reading self.old) tag) result self.old self.new }
        ensures none { outcome.find_entry (reading self.old) tag ≡ None → result ≡ Ok None }
        ensures asked { AsksForTag (reading self.old) tag result }

        // A limit is checked before a byte of the value is read.
        ensures limit { (outcome.find_tag (reading self.old) tag).answer ≡ Err LimitsExceeded
            → result ≡ Err LimitsExceeded }
    {
        self.decoder.value_in(self.other, tag)
    }

    /// Reads the number of a tag as a `T`. Returns `None` if the directory does not have the tag.
    /// Returns the errors of `find_tag` and of `Value::into_u64`, and `InvalidTagValueType` for a
    /// number that is no `T`.
    pub fn find_tag_unsigned<T: TryFrom<u64>>(&mut self, tag: Tag) -> TiffResult<Option<T>>
    where
        T::Error: Drop,
        ensures answer { NumberIfAs T.try_from_gives (outcome.WantsTag (reading self.old) tag)
            (self.old.decoder.now.failures < self.new.decoder.now.failures) tag
            (outcome.find_tag_unsigned (reading self.old) tag).answer result }
        ensures kept { KeepsReading result self.old self.new }
        ensures asked { AsksForTag (reading self.old) tag result }
    {
        match self.decoder.number_in(self.other, tag)? {
            None => Ok(None),
            Some(n) => Ok(Some(as_type(n, tag)?)),
        }
    }

    /// Reads the numbers of a tag as a list of `T`. Returns `None` if the directory does not have
    /// the tag. Returns the errors of `find_tag` and of `Value::into_u64_vec`, and
    /// `InvalidTagValueType` for a number that is no `T`.
    pub fn find_tag_unsigned_vec<T: TryFrom<u64> + Drop>(
        &mut self,
        tag: Tag,
    ) -> TiffResult<Option<Vec<T>>>
    where
        T::Error: Drop,
        ensures answer { NumbersIfAs T.try_from_gives (outcome.WantsTag (reading self.old) tag)
            (self.old.decoder.now.failures < self.new.decoder.now.failures) tag
            (outcome.find_tag_unsigned_vec (reading self.old) tag).answer result }
        ensures kept { KeepsReading result self.old self.new }
        ensures asked { AsksForTag (reading self.old) tag result }
    {
        let alloc = self.alloc;
        match self.decoder.numbers_in(self.other, tag)? {
            None => Ok(None),
            Some(numbers) => Ok(Some(all_as(alloc, &numbers, tag)?)),
        }
    }

    /// Reads the number of a required tag as a `T`. Returns `RequiredTagNotFound` if the directory
    /// does not have the tag, else the errors of `find_tag_unsigned`.
    pub fn get_tag_unsigned<T: TryFrom<u64>>(&mut self, tag: Tag) -> TiffResult<T>
    where
        T::Error: Drop,
        ensures answer { NumberAs T.try_from_gives (outcome.WantsTag (reading self.old) tag)
            (self.old.decoder.now.failures < self.new.decoder.now.failures) tag
            (outcome.get_tag_unsigned (reading self.old) tag).answer result }
        ensures kept { KeepsReading result self.old self.new }
        ensures asked { AsksForTag (reading self.old) tag result }
    {
        as_type(self.decoder.required_in(self.other, tag)?, tag)
    }

    /// Reads the value of a required tag. Returns `RequiredTagNotFound` if the directory does not
    /// have the tag, else the errors of `find_tag`.
    #[tactic(auto, unfolding(crate::specs::Outcome::get_tag, crate::specs::Outcome::find_tag, tiff_ifd::specs::TagLookup::require, tiff_ifd::specs::TagLookup::find))]
    pub fn get_tag(&mut self, tag: Tag) -> TiffResult<Value>
        ensures read { ReadsTags (outcome.WantsTag (reading self.old) tag) plain_value
            (outcome.get_tag (reading self.old) tag) result self.old self.new }
        ensures asked { AsksForTag (reading self.old) tag result }
    {
        match self.find_tag(tag)? {
            None => Err(TiffFormatError::RequiredTagNotFound(tag).into()),
            Some(value) => Ok(value),
        }
    }

    /// Reads the number of a required tag, below 2^32. Returns `RequiredTagNotFound` if the
    /// directory does not have the tag, else the errors of `find_tag` and of `Value::into_u32`.
    #[tactic(auto, using(crate::proofs::Required::unconverted, crate::proofs::Required::required_by, crate::proofs::Required::value_found), unfolding(crate::specs::Outcome::get_tag_u32, crate::specs::Outcome::get_tag))]
    pub fn get_tag_u32(&mut self, tag: Tag) -> TiffResult<u32>
        ensures read { ReadsTags (outcome.WantsTag (reading self.old) tag) (λ n. n)
            (outcome.get_tag_u32 (reading self.old) tag) result self.old self.new }
        ensures asked { AsksForTag (reading self.old) tag result }
    {
        self.get_tag(tag)?.into_u32()
    }

    /// Reads the number of a required tag, below 2^64. Returns `RequiredTagNotFound` if the
    /// directory does not have the tag, else the errors of `find_tag` and of `Value::into_u64`.
    #[tactic(auto, using(crate::proofs::Required::unconverted, crate::proofs::Required::required_by, crate::proofs::Required::value_found), unfolding(crate::specs::Outcome::get_tag_u64, crate::specs::Outcome::get_tag))]
    pub fn get_tag_u64(&mut self, tag: Tag) -> TiffResult<u64>
        ensures read { ReadsTags (outcome.WantsTag (reading self.old) tag) (λ n. n)
            (outcome.get_tag_u64 (reading self.old) tag) result self.old self.new }
        ensures asked { AsksForTag (reading self.old) tag result }
    {
        self.get_tag(tag)?.into_u64()
    }

    /// Reads the bits of the 32-bit floating-point number of a required tag. Errors:
    /// `RequiredTagNotFound` without the tag, else those of `find_tag` and `Value::into_f32`.
    #[tactic(auto, using(crate::proofs::Required::unconverted, crate::proofs::Required::required_by, crate::proofs::Required::value_found), unfolding(crate::specs::Outcome::get_tag_f32, crate::specs::Outcome::get_tag))]
    pub fn get_tag_f32(&mut self, tag: Tag) -> TiffResult<Bits32>
        ensures read { ReadsTags (outcome.WantsTag (reading self.old) tag) bits_32
            (outcome.get_tag_f32 (reading self.old) tag) result self.old self.new }
        ensures asked { AsksForTag (reading self.old) tag result }
    {
        self.get_tag(tag)?.into_f32()
    }

    /// Reads the bits of the 64-bit floating-point number of a required tag. Errors:
    /// `RequiredTagNotFound` without the tag, else those of `find_tag` and `Value::into_f64`.
    #[tactic(auto, using(crate::proofs::Required::unconverted, crate::proofs::Required::required_by, crate::proofs::Required::value_found), unfolding(crate::specs::Outcome::get_tag_f64, crate::specs::Outcome::get_tag))]
    pub fn get_tag_f64(&mut self, tag: Tag) -> TiffResult<Bits64>
        ensures read { ReadsTags (outcome.WantsTag (reading self.old) tag) bits_64
            (outcome.get_tag_f64 (reading self.old) tag) result self.old self.new }
        ensures asked { AsksForTag (reading self.old) tag result }
    {
        self.get_tag(tag)?.into_f64()
    }

    /// Reads the numbers of a required tag, below 2^32. Returns `RequiredTagNotFound` if the
    /// directory does not have the tag, else the errors of `find_tag` and of `Value::into_u32_vec`.
    #[tactic(auto, using(crate::proofs::Required::unconverted, crate::proofs::Required::required_by, crate::proofs::Required::value_found), unfolding(crate::specs::Outcome::get_tag_u32_vec, crate::specs::Outcome::get_tag))]
    pub fn get_tag_u32_vec(&mut self, tag: Tag) -> TiffResult<Vec<u32>>
        ensures read { ReadsTags (outcome.WantsTag (reading self.old) tag) (λ v. v.items)
            (outcome.get_tag_u32_vec (reading self.old) tag) result self.old self.new }
        ensures asked { AsksForTag (reading self.old) tag result }
    {
        let alloc = self.alloc;
        self.get_tag(tag)?.into_u32_vec(alloc)
    }

    /// Reads the numbers of a required tag, below 2^16. Returns `RequiredTagNotFound` if the
    /// directory does not have the tag, else the errors of `find_tag` and of `Value::into_u16_vec`.
    #[tactic(auto, using(crate::proofs::Required::unconverted, crate::proofs::Required::required_by, crate::proofs::Required::value_found), unfolding(crate::specs::Outcome::get_tag_u16_vec, crate::specs::Outcome::get_tag))]
    pub fn get_tag_u16_vec(&mut self, tag: Tag) -> TiffResult<Vec<u16>>
        ensures read { ReadsTags (outcome.WantsTag (reading self.old) tag) (λ v. v.items)
            (outcome.get_tag_u16_vec (reading self.old) tag) result self.old self.new }
        ensures asked { AsksForTag (reading self.old) tag result }
    {
        let alloc = self.alloc;
        self.get_tag(tag)?.into_u16_vec(alloc)
    }

    /// Reads the numbers of a required tag, below 2^64. Returns `RequiredTagNotFound` if the
    /// directory does not have the tag, else the errors of `find_tag` and of `Value::into_u64_vec`.
    #[tactic(auto, using(crate::proofs::Required::unconverted, crate::proofs::Required::required_by, crate::proofs::Required::value_found), unfolding(crate::specs::Outcome::get_tag_u64_vec, crate::specs::Outcome::get_tag))]
    pub fn get_tag_u64_vec(&mut self, tag: Tag) -> TiffResult<Vec<u64>>
        ensures read { ReadsTags (outcome.WantsTag (reading self.old) tag) (λ v. v.items)
            (outcome.get_tag_u64_vec (reading self.old) tag) result self.old self.new }
        ensures asked { AsksForTag (reading self.old) tag result }
    {
        let alloc = self.alloc;
        self.get_tag(tag)?.into_u64_vec(alloc)
    }

    /// Reads the bits of the 32-bit floating-point numbers of a required tag. Errors:
    /// `RequiredTagNotFound` without the tag, else those of `find_tag` and `Value::into_f32_vec`.
    #[tactic(auto, using(crate::proofs::Required::unconverted, crate::proofs::Required::required_by, crate::proofs::Required::value_found), unfolding(crate::specs::Outcome::get_tag_f32_vec, crate::specs::Outcome::get_tag))]
    pub fn get_tag_f32_vec(&mut self, tag: Tag) -> TiffResult<Vec<Bits32>>
        ensures read { ReadsTags (outcome.WantsTag (reading self.old) tag) (λ v. map bits_32 v.items)
            (outcome.get_tag_f32_vec (reading self.old) tag) result self.old self.new }
        ensures asked { AsksForTag (reading self.old) tag result }
    {
        let alloc = self.alloc;
        self.get_tag(tag)?.into_f32_vec(alloc)
    }

    /// Reads the bits of the 64-bit floating-point numbers of a required tag. Errors:
    /// `RequiredTagNotFound` without the tag, else those of `find_tag` and `Value::into_f64_vec`.
    #[tactic(auto, using(crate::proofs::Required::unconverted, crate::proofs::Required::required_by, crate::proofs::Required::value_found), unfolding(crate::specs::Outcome::get_tag_f64_vec, crate::specs::Outcome::get_tag))]
    pub fn get_tag_f64_vec(&mut self, tag: Tag) -> TiffResult<Vec<Bits64>>
        ensures read { ReadsTags (outcome.WantsTag (reading self.old) tag) (λ v. map bits_64 v.items)
            (outcome.get_tag_f64_vec (reading self.old) tag) result self.old self.new }
        ensures asked { AsksForTag (reading self.old) tag result }
    {
        let alloc = self.alloc;
        self.get_tag(tag)?.into_f64_vec(alloc)
    }

    /// Reads the bytes of a required tag. Returns `RequiredTagNotFound` if the directory does not
    /// have the tag, else the errors of `find_tag` and of `Value::into_u8_vec`.
    #[tactic(auto, using(crate::proofs::Required::unconverted, crate::proofs::Required::required_by, crate::proofs::Required::value_found), unfolding(crate::specs::Outcome::get_tag_u8_vec, crate::specs::Outcome::get_tag))]
    pub fn get_tag_u8_vec(&mut self, tag: Tag) -> TiffResult<Vec<u8>>
        ensures read { ReadsTags (outcome.WantsTag (reading self.old) tag) (λ v. v.items)
            (outcome.get_tag_u8_vec (reading self.old) tag) result self.old self.new }
        ensures asked { AsksForTag (reading self.old) tag result }
    {
        let alloc = self.alloc;
        self.get_tag(tag)?.into_u8_vec(alloc)
    }

    /// Reads the text of a required tag. Returns `RequiredTagNotFound` if the directory does not
    /// have the tag, else the errors of `find_tag` and of `Value::into_string`.
    #[tactic(auto, using(crate::proofs::Required::unconverted, crate::proofs::Required::required_by, crate::proofs::Required::value_found), unfolding(crate::specs::Outcome::get_tag_ascii_string, crate::specs::Outcome::get_tag))]
    pub fn get_tag_ascii_string(&mut self, tag: Tag) -> TiffResult<String>
        ensures read { ReadsTags (outcome.WantsTag (reading self.old) tag) string_bytes
            (outcome.get_tag_ascii_string (reading self.old) tag) result self.old self.new }
        ensures asked { AsksForTag (reading self.old) tag result }
    {
        self.get_tag(tag)?.into_string()
    }
}

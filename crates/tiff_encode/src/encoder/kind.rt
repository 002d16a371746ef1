//! The two kinds of TIFF file that the encoder writes, what each can hold, and the offsets of a
//! directory in such a file.

ghost use Rattle.std.specs.Prelude.{◌≡◌, false, true, ℕ, ◌^◌, if◌then◌else◌, nat_le, None, Some, Ok, Err, ◌≤◌, length};
ghost use Rattle.tiff_base.specs.Answers.{Gives};
ghost use Rattle.tiff_base.specs.Directory.{link_offset};
ghost use Rattle.tiff_base.specs.Number.{le};
ghost use Rattle.tiff_base.specs.declared.error.TiffError.TheVariants.{IntSizeError};
ghost use Rattle.tiff_encode.specs.Calls.{new_offset};
ghost use Rattle.tiff_encode.specs.Causes.{is_past, is_past_count};
ghost use Rattle.tiff_base.specs.Types.{type_size};
ghost use Rattle.tiff_value.specs.FileBytes.{count_len, greatest_offset, offset_len};
ghost use Rattle.tiff_encode.specs.Kind.{WritesHeader, WritesWithin};
ghost use Rattle.tiff_encode.specs.Placing.{field_test, Checks};
ghost use Rattle.tiff_value.specs.Fields.{filled_field};
ghost use Rattle.std.specs.FinMap as map;
ghost use Rattle.tiff_base.specs.declared.tags.FileKind as kinds;

use std::alloc::AllocError;
use std::marker::{Model, PhantomData};
use tiff_base::directory::Directory;
use tiff_base::error::{TiffError, TiffResult, UsageError};
use tiff_base::io::Sink;
use tiff_base::tags::{FileKind, IfdPointer};
use tiff_value::encoder::tiff_value::TiffValue;
use tiff_value::encoder::writer::{TiffWriter, write_bigtiff_header, write_tiff_header};

/// A number type for offsets (this project's): `u32` or `u64`.
pub trait OffsetNumber: Copy {
    ghost use Rattle.std.specs.Prelude.{◌≡◌, ℕ};

    // The offset that a value of this type is.
    ghost number: { Self → ℕ };

    // The value of this type for an offset.
    ghost numbered: { ℕ → Self };

    // The value for the offset of a value is that value.
    ghost again: { (x : Self) → numbered (number x) ≡ x };
}

impl OffsetNumber for u32 {
    ghost use Rattle.std.specs.Prelude.{refl};

    ghost number = { λ offset. offset };

    ghost numbered = { λ offset. offset };

    ghost again = { λ x. refl };
}

impl OffsetNumber for u64 {
    ghost use Rattle.std.specs.Prelude.{refl};

    ghost number = { λ offset. offset };

    ghost numbered = { λ offset. offset };

    ghost again = { λ x. refl };
}

/// A kind of TIFF file, with its type of offsets.
pub trait TiffKind {
    /// The type of an offset in a file of this kind.
    type OffsetType: OffsetNumber + TiffValue;

    ghost kind: { kinds.FileKind };

    // The offset that a value of this type is.
    ghost offset_number: { Self.OffsetType → ℕ };

    /// Returns the kind of the file (this project's).
    fn file_kind() -> FileKind
        ensures { result ≡ kind };

    /// Converts an offset to the type of this kind. Returns `IntSizeError` if the offset exceeds
    /// the bytes of an offset of this kind.
    fn convert_offset(offset: u64) -> TiffResult<Self::OffsetType>
        ensures { Gives offset_number result (if is_past kind offset then Err IntSizeError
            else Ok offset) };

    /// Converts an offset to the type of this kind (this project's). Returns the greatest offset of
    /// this kind if the offset exceeds the bytes of an offset of this kind.
    fn offset_at(offset: u64) -> Self::OffsetType
        ensures within { is_past kind offset ≡ false → offset_number result ≡ offset }
        ensures past { is_past kind offset ≡ true → offset_number result ≡ greatest_offset kind };

    /// Writes an offset. Returns `IntSizeError` and writes nothing if the offset exceeds the bytes
    /// of an offset of this kind. Other errors: those of `TiffWriter::write_plain`.
    fn write_offset<W: Sink>(writer: &mut TiffWriter<W>, offset: u64) -> TiffResult<()>
        ensures { WritesWithin (is_past kind offset) (le (offset_len kind) offset) writer.old
            writer.new result };

    /// Writes the number of entries of a directory. Returns `IntSizeError` and writes nothing if
    /// the number exceeds the bytes of such a number in this kind. Other errors: those of
    /// `TiffWriter::write_plain`.
    fn write_entry_count<W: Sink>(writer: &mut TiffWriter<W>, count: usize) -> TiffResult<()>
        ensures { WritesWithin (is_past_count kind count) (le (count_len kind) count) writer.old
            writer.new result };

    /// Writes a header that links to no directory. Errors: those of `TiffWriter::write_plain`.
    fn write_header<W: Sink>(writer: &mut TiffWriter<W>) -> TiffResult<()>
        ensures { WritesHeader kind writer.old writer.new result };

    // A value of the type of offsets has as many bytes as an offset in a file of this kind.
    ghost whole: { type_size Self.OffsetType.value_type ≡ offset_len kind };

    // The offset of a value is the same by its number type and by this kind.
    ghost same_number: { (x : Self.OffsetType) → Self.OffsetType.number x ≡ offset_number x };
}

/// Classic TIFF (TIFF 6.0), with offsets of 4 bytes.
#[derive(Clone, Copy, Debug, PartialEq, Eq, Hash)]
pub struct TiffKindStandard;

impl TiffKind for TiffKindStandard {
    ghost use Rattle.std.specs.Prelude.{refl};
    ghost use Rattle.tiff_base.specs.declared.tags.FileKind.TheVariants.{Classic};

    type OffsetType = u32;

    ghost kind = { Classic };

    ghost offset_number = { λ offset. offset };

    fn file_kind() -> FileKind {
        FileKind::Classic
    }

    fn convert_offset(offset: u64) -> TiffResult<u32> {
        if offset > u64::from(u32::MAX) {
            return Err(TiffError::IntSizeError);
        }
        Ok(offset as u32)
    }

    fn offset_at(offset: u64) -> u32 {
        if offset > u64::from(u32::MAX) {
            return u32::MAX;
        }
        offset as u32
    }

    fn write_offset<W: Sink>(writer: &mut TiffWriter<W>, offset: u64) -> TiffResult<()> {
        if offset > u64::from(u32::MAX) {
            return Err(TiffError::IntSizeError);
        }
        writer.write_u32(offset as u32)
    }

    fn write_entry_count<W: Sink>(writer: &mut TiffWriter<W>, count: usize) -> TiffResult<()> {
        if count > usize::from(u16::MAX) {
            return Err(TiffError::IntSizeError);
        }
        writer.write_u16(count as u16)
    }

    fn write_header<W: Sink>(writer: &mut TiffWriter<W>) -> TiffResult<()> {
        write_tiff_header(writer)?;
        writer.write_u32(0)?;
        Ok(())
    }

    ghost whole = { refl };

    ghost same_number = { λ x. refl };
}

/// BigTIFF, with offsets of 8 bytes.
#[derive(Clone, Copy, Debug, PartialEq, Eq, Hash)]
pub struct TiffKindBig;

impl TiffKind for TiffKindBig {
    ghost use Rattle.std.specs.Prelude.{refl};
    ghost use Rattle.tiff_base.specs.declared.tags.FileKind.TheVariants.{Big};

    type OffsetType = u64;

    ghost kind = { Big };

    ghost offset_number = { λ offset. offset };

    fn file_kind() -> FileKind {
        FileKind::Big
    }

    fn convert_offset(offset: u64) -> TiffResult<u64> {
        Ok(offset)
    }

    fn offset_at(offset: u64) -> u64 {
        offset
    }

    fn write_offset<W: Sink>(writer: &mut TiffWriter<W>, offset: u64) -> TiffResult<()> {
        writer.write_u64(offset)
    }

    fn write_entry_count<W: Sink>(writer: &mut TiffWriter<W>, count: usize) -> TiffResult<()> {
        writer.write_u64(count as u64)
    }

    fn write_header<W: Sink>(writer: &mut TiffWriter<W>) -> TiffResult<()> {
        write_bigtiff_header(writer)?;
        writer.write_u64(0)?;
        Ok(())
    }

    ghost whole = { refl };

    ghost same_number = { λ x. refl };
}

/// The offset of a finished directory, as an offset of its kind of file and as a pointer, and the
/// offset of its link. The second type parameter follows from the first: write
/// `DirectoryOffset<K>`.
#[derive(Debug, PartialEq, Eq, Hash)]
pub struct DirectoryOffset<K: TiffKind, O: OffsetNumber = <K as TiffKind>::OffsetType> {
    pub offset: O,
    pub pointer: IfdPointer,
    link: u64,
    kind: PhantomData<K>,
}

impl<K: TiffKind, O: OffsetNumber> Model for DirectoryOffset<K, O> {
    ghost use Rattle.std.specs.Prelude.{◌≡◌};
    ghost use Rattle.std.specs.Prelude.{false};
    ghost use Rattle.std.proofs.Common.{ap, sym, ◌∙◌};
    ghost use Rattle.tiff_encode.specs.Calls.{Offsets};
    ghost use Rattle.tiff_encode.specs.Causes.{is_past};

    ghost Value = { Offsets };

    ghost view = { λ d. record { pointer = d.pointer.0; link = d.link } };

    // The offset fits the kind of file, and `offset` and `pointer` are the same offset.
    ghost invariant = { λ d. (is_past K.kind d.pointer.0 ≡ false) × (O.number d.offset ≡ d.pointer.0) };

    ghost inverse = { λ o. record {
      offset = O.numbered o.pointer;
      pointer = record { 0 = o.pointer };
      link = o.link;
      kind = record {};
    } };

    ghost inverse_ok = { λ a h. ap
        (λ o. record { offset = o; pointer = a.pointer; link = a.link; kind = record {} })
        (ap O.numbered (sym h.1) ∙ O.again a.offset) };
}

impl<K: TiffKind, O: OffsetNumber> Copy for DirectoryOffset<K, O> {}

impl<K: TiffKind, O: OffsetNumber> Clone for DirectoryOffset<K, O> {
    ghost use Rattle.std.specs.Prelude.{◌≡◌};

    ghost is_clone = { λ d e. e ≡ d };

    fn clone(&self) -> Result<Self, AllocError> {
        Ok(DirectoryOffset {
            offset: self.offset,
            pointer: self.pointer,
            link: self.link,
            kind: PhantomData,
        })
    }
}

// Returns the offset of the link of a directory at `offset` with `count` entries, or `None` if it
// is 2^64 or more.
fn link_of(kind: FileKind, offset: u64, count: usize) -> Option<u64>
    ensures { result ≡ (if nat_le (2 ^ 64) (link_offset kind offset count) then None
        else Some (link_offset kind offset count)) }
{
    let (head, entry) = match kind {
        FileKind::Classic => (2, 12),
        FileKind::Big => (8, 20),
    };
    let entries = (count as u64).checked_mul(entry)?;
    offset.checked_add(head)?.checked_add(entries)
}

impl<K: TiffKind> DirectoryOffset<K, K::OffsetType> {
    // Returns the offsets of a directory and of its link.
    pub(crate) fn at(offset: u64, link: u64) -> Self
        requires { is_past K.kind offset ≡ false }
        ensures { result ≡ record { pointer = offset; link = link } }
    {
        DirectoryOffset {
            offset: K::offset_at(offset),
            pointer: IfdPointer(offset),
            link,
            kind: PhantomData,
        }
    }

    // Returns the offset of the directory's link.
    pub(crate) fn link(&self) -> u64
        ensures { result ≡ self.now.link }
    {
        self.link
    }

    /// Returns the offsets of a directory at `pointer` with the entries of `directory`, and of its
    /// link. Returns the first error that applies: `IntSizeError` if `pointer` exceeds the bytes of
    /// an offset of the kind; `UsageError(ZeroIfdPointer)` if `pointer` is 0, or the offset of the
    /// link is 2^64 or more.
    #[tactic(auto, unfolding(crate::specs::Calls::new_offset, crate::specs::Causes::offset_cause))]
    pub fn new(pointer: IfdPointer, directory: &Directory) -> TiffResult<Self>
        ensures { Gives (λ o. o) result
            (new_offset K.kind pointer.0 (map.len directory.now.entries)) }
    {
        K::convert_offset(pointer.0)?;
        let Some(link) = link_of(K::file_kind(), pointer.0, directory.len()) else {
            return Err(UsageError::ZeroIfdPointer.into());
        };
        if pointer.0 == 0 {
            return Err(UsageError::ZeroIfdPointer.into());
        }
        Ok(DirectoryOffset::at(pointer.0, link))
    }
}

/// Returns the number of bytes of an offset and of a value field.
pub fn offset_size(kind: FileKind) -> u64
    ensures { result ≡ offset_len kind }
{
    match kind {
        FileKind::Classic => 4,
        FileKind::Big => 8,
    }
}

/// Returns whether a number exceeds the offsets, the counts and the lengths of a kind of file.
pub fn is_past_offset(kind: FileKind, n: u64) -> bool
    ensures { result ≡ is_past kind n }
{
    match kind {
        FileKind::Classic => n > u64::from(u32::MAX),
        FileKind::Big => false,
    }
}

/// Returns `IntSizeError` if `count` values of `len` bytes in all can't be a field at the end of a
/// file of `end` bytes.
#[tactic(auto, unfolding(crate::specs::Placing::field_test))]
pub fn check_field(kind: FileKind, end: u64, count: u64, len: usize) -> TiffResult<()>
    ensures { Checks (field_test kind end count len) result }
{
    if is_past_offset(kind, count) {
        return Err(TiffError::IntSizeError);
    }
    if len as u64 > offset_size(kind) && is_past_offset(kind, end) {
        return Err(TiffError::IntSizeError);
    }
    Ok(())
}

/// Returns the 8 bytes of a value field that contains these bytes, filled with zeros at the end.
#[tactic(auto, using(tiff_value::specs::lemmas::File::Listing::filled_whole))]
pub fn fill(bytes: &[u8]) -> [u8; 8]
    requires { length bytes.now ≤ 8 }
    ensures { result ≡ filled_field bytes.now }
{
    let mut wide = [0u8; 8];
    wide[..bytes.len()].copy_from_slice(bytes);
    wide
}

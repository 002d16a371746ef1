//! The entries of a directory, listed for C.

ghost use Rattle.std.specs.Prelude.{◌≡◌, MatchResult, OnErr};
ghost use Rattle.tiff_base.specs.Answers.{AnswersWithoutSource};
ghost use Rattle.tiff_base.specs.Header.{header_at};
ghost use Rattle.tiff_ffi.specs.Entries as spec;

use crate::calls::{open_tags, tags_of};
use crate::values::fill;
use std::alloc::Global;
use tiff_base::directory::{Directory, Entry};
use tiff_base::error::{TiffError, TiffResult};
use tiff_base::io::SliceSource;
use tiff_base::read::{u32_from, u64_from};
use tiff_base::tags::{ByteOrder, FileKind};
use tiff_ifd::header::{FileHeader, read_header};
use tiff_ifd::read_bytes::offset_len;

/// An entry of a directory: how many values it has; 0, or the offset of its values in the file; the
/// number of its tag and of its type; and 1 if its values are in the entry itself, else 0.
#[derive(Clone, Copy, Debug, PartialEq, Eq)]
#[repr(C)]
pub struct TagEntry {
    pub count: u64,
    pub offset: u64,
    pub number: u16,
    pub kind: u16,
    pub in_place: u32,
}

/// Whether the values of a field are in its entry.
pub(crate) fn is_in_place(kind: FileKind, entry: &Entry) -> bool
    ensures { result ≡ spec.is_in_place kind entry.now }
{
    let len = entry
        .count()
        .checked_mul(u64::from(entry.field_type().byte_len()));
    match len {
        Some(len) => len <= offset_len(kind),
        None => false,
    }
}

/// The offset of the values of a field that are elsewhere in the file; 0 for others.
#[tactic(auto, unfolding(tiff_base::specs::Number::number))]
pub(crate) fn values_at(kind: FileKind, order: ByteOrder, entry: &Entry) -> u64
    ensures { result ≡ spec.values_at kind order entry.now }
{
    if is_in_place(kind, entry) {
        return 0;
    }
    let value = entry.value();
    match kind {
        FileKind::Classic => {
            u64::from(u32_from(order, [value[0], value[1], value[2], value[3]]))
        }
        FileKind::Big => u64_from(order, value),
    }
}

// An entry, as C gets it.
fn entry_told(kind: FileKind, order: ByteOrder, number: u16, entry: &Entry) -> TagEntry
    ensures { result ≡ spec.entry_told kind order (number, entry.now) }
{
    TagEntry {
        count: entry.count(),
        offset: values_at(kind, order, entry),
        number,
        kind: entry.field_type().to_u16(),
        in_place: u32::from(is_in_place(kind, entry)),
    }
}

/// The entries of a directory of a file of a kind and a byte order, as C gets them.
pub(crate) fn entries_told(
    alloc: Global,
    kind: FileKind,
    order: ByteOrder,
    directory: &Directory,
) -> TiffResult<Vec<TagEntry>>
    ensures { MatchResult result
        (λ v. v.items ≡ spec.entries_told kind order directory.now)
        (λ e. e ≡ TiffError.OutOfMemory) }
{
    let mut told = Vec::new(alloc);
    for (tag, entry) in directory.iter() {
        told.push(entry_told(kind, order, tag.to_u16(), entry))?;
    }
    Ok(told)
}

// The header of a file that lies in a slice.
fn header_of(file: &[u8]) -> TiffResult<FileHeader>
    ensures { AnswersWithoutSource (λ h. record { order = h.order; kind = h.kind; first = h.first })
        result (header_at file.now) }
{
    read_header(&mut SliceSource::new(file))
}

/// Puts the entries of the directory of a page into `out`, in the order of their tags, as many as
/// fit, and returns how many there are. The first error: of the file or the page. An error leaves
/// `out` as it was.
pub fn list_tags(alloc: Global, file: &[u8], page: usize, out: &mut [TagEntry]) -> TiffResult<usize>
    ensures answer { AnswersWithoutSource (λ n. (n, out.new)) result
        (spec.list_tags file.now page out.old) }
    ensures stays { OnErr result (out.new ≡ out.old) }
{
    let header = header_of(file)?;
    let (mut decoder, other) = open_tags(alloc, file, page)?;
    let told = entries_told(
        alloc,
        header.kind,
        header.order,
        tags_of(&mut decoder, &other).directory(),
    )?;
    fill(out, &told);
    Ok(told.len())
}

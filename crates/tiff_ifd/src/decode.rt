//! Reads directories.

ghost use Rattle.std.specs.Prelude.{◌≡◌, ◌+◌, ◌*◌, ◌≤◌, ◌<◌, ◌++◌, ◌^◌, [], length, IfOk, IfErr, IfNone, OnOk};
ghost use Rattle.std.specs.Option.{IfSome};
ghost use Rattle.std.specs.List.{cons_option};
ghost use Rattle.tiff_base.specs.declared.error.TiffError.TheVariants as tiff;
ghost use Rattle.tiff_base.specs.declared.io.IoKind.TheVariants as io_kind;
ghost use Rattle.std.specs.Int.{w16, w32, w64, byte_len};
ghost use Rattle.tiff_base.specs.Answers.{Answers, AnswersWithoutMemory, ReadsOnly, IsCause, IsKept};
ghost use Rattle.tiff_base.specs.Number.{number_at};
ghost use Rattle.tiff_base.specs.Directory.{count_width, offset_width, entry_len, entry_of, entry_at, value_of, directory_at, entries_from, link_offset};
ghost use Rattle.tiff_base.specs.SourceAndSink.{AreReadable};
ghost use Rattle.tiff_ifd.specs.Chain.{link_of};
ghost use Rattle.tiff_ifd.specs.Stretches.{DirectoryReadable, LinkReadable};

use std::alloc::{AllocError, Global};
use tiff_base::directory::{Directory, Entry};
use tiff_base::error::{TiffError, TiffResult};
use tiff_base::io::{IoKind, Source};
use tiff_base::read::{
    read_exact_at, read_u16_at, read_u32_at, read_u64_at, u16_in, u32_in, u64_in,
};
use tiff_base::tags::{ByteOrder, FileKind, Type};

// The width of a directory's entry count, in bytes.
fn count_len(kind: FileKind) -> u64
    ensures { result ≡ byte_len (count_width kind) }
{
    match kind {
        FileKind::Classic => 2,
        FileKind::Big => 8,
    }
}

// The size of an entry, in bytes.
fn entry_len(kind: FileKind) -> usize
    ensures { result ≡ entry_len kind }
{
    match kind {
        FileKind::Classic => 12,
        FileKind::Big => 20,
    }
}

// The value field of an entry.
fn value_of(kind: FileKind, entry: &[u8]) -> [u8; 8]
    requires { entry_len kind ≤ length entry.now }
    ensures { result ≡ value_of kind entry.now }
{
    let mut value = [0u8; 8];
    match kind {
        FileKind::Classic => value[..4].copy_from_slice(&entry[8..12]),
        FileKind::Big => value.copy_from_slice(&entry[12..20]),
    }
    value
}

// The tag number and the field of an entry. Returns `None` for an unknown type.
#[tactic(auto, unfolding(tiff_base::specs::Directory::entry_of))]
fn entry_of(kind: FileKind, order: ByteOrder, entry: &[u8]) -> Option<(u16, Entry)>
    requires { entry_len kind ≤ length entry.now }
    ensures { result ≡ entry_of kind order entry.now }
{
    let field_type = Type::from_u16(u16_in(order, entry, 2))?;
    let count = match kind {
        FileKind::Classic => u64::from(u32_in(order, entry, 4)),
        FileKind::Big => u64_in(order, entry, 4),
    };
    let field = Entry::new_u64(field_type, count, value_of(kind, entry));
    Some((u16_in(order, entry, 0), field))
}

// Reads the entry at an offset. Returns `None` for an unknown type.
fn read_entry_at<R: Source>(
    source: &mut R,
    at: u64,
    kind: FileKind,
    order: ByteOrder,
) -> TiffResult<Option<(u16, Entry)>>
    ensures kept { IsKept R.contents R.failures result source.old source.new }
    ensures answer { AnswersWithoutMemory (λ e. e) result (entry_at kind order (R.contents source.old).bytes at)
        (R.failures source.old) (R.failures source.new) }
    ensures asked { ReadsOnly (AreReadable (R.contents source.old) at (entry_len kind)) result }
{
    let mut buf = [0u8; 20];
    let entry = &mut buf[..entry_len(kind)];
    read_exact_at(source, at, entry)?;
    Ok(entry_of(kind, order, entry))
}

// Reads the number of entries of the directory at an offset.
fn read_count_at<R: Source>(
    source: &mut R,
    at: u64,
    kind: FileKind,
    order: ByteOrder,
) -> TiffResult<u64>
    ensures kept { IsKept R.contents R.failures result source.old source.new }
    ensures answer { AnswersWithoutMemory (λ n. n) result
        (number_at order (count_width kind) (R.contents source.old).bytes at) (R.failures source.old)
        (R.failures source.new) }
    ensures asked { ReadsOnly (AreReadable (R.contents source.old) at (byte_len (count_width kind))) result }
{
    match kind {
        FileKind::Classic => Ok(u64::from(read_u16_at(source, at, order)?)),
        FileKind::Big => read_u64_at(source, at, order),
    }
}

/// Reads an offset as a directory contains it: 4 bytes, or 8 in BigTIFF. Returns
/// `IoError(UnexpectedEof)` where the source has fewer bytes.
pub fn read_link_at<R: Source>(
    source: &mut R,
    at: u64,
    kind: FileKind,
    order: ByteOrder,
) -> TiffResult<u64>
    ensures kept { IsKept R.contents R.failures result source.old source.new }
    ensures answer { AnswersWithoutMemory (λ n. n) result
        (number_at order (offset_width kind) (R.contents source.old).bytes at) (R.failures source.old)
        (R.failures source.new) }
    ensures asked { ReadsOnly (AreReadable (R.contents source.old) at (byte_len (offset_width kind))) result }
{
    match kind {
        FileKind::Classic => Ok(u64::from(read_u32_at(source, at, order)?)),
        FileKind::Big => read_u64_at(source, at, order),
    }
}

// Appends an entry if there is one.
fn add(entries: &mut Vec<(u16, Entry)>, entry: Option<(u16, Entry)>) -> Result<(), AllocError>
    ensures { OnOk result (entries.new.items ≡ entries.old.items ++ cons_option entry []) }
{
    if let Some(entry) = entry {
        entries.push(entry)?;
    }
    Ok(())
}

// A table of entries: the offset of its first entry, and their number.
#[derive(Clone, Copy)]
struct EntryTable {
    first: u64,
    count: u64,
}

// Reads the entries of a table. Returns the fields in file order, each with its tag number, and the
// offset after the entries.
#[tactic(auto, using(crate::specs::lemmas::Entries::no_entries, crate::specs::lemmas::Entries::read_there, crate::specs::lemmas::Entries::entries_more))]
fn read_entries<R: Source>(
    alloc: Global,
    source: &mut R,
    table: EntryTable,
    kind: FileKind,
    order: ByteOrder,
) -> TiffResult<(Vec<(u16, Entry)>, u64)>
    ensures kept { IsKept R.contents R.failures result source.old source.new }
    ensures fields { IfOk result
        (λ r. r.0.items
        ≡ entries_from kind order (R.contents source.old).bytes table.first table.count) }
    ensures offset { IfOk result (λ r. r.1 ≡ table.first + entry_len kind * table.count) }
    ensures cut { IfErr result (λ e. IsCause (Unit {0}) (R.failures source.old < R.failures source.new) e
        ((e ≡ tiff.IoError io_kind.UnexpectedEof)
        × (length (R.contents source.old).bytes ≤ table.first + entry_len kind * table.count))) }
    ensures asked { ReadsOnly
        (AreReadable (R.contents source.old) table.first (entry_len kind * table.count)) result }
{
    // No room is made for `count`, which may be forged: the list grows as entries come.
    let mut entries = Vec::new(alloc);
    let mut offset = table.first;
    for i in 0..table.count {
        let entry = read_entry_at(source, offset, kind, order)?;
        add(&mut entries, entry)?;
        offset += entry_len(kind) as u64;
    }
    Ok((entries, offset))
}

/// Reads the directory at an offset. Keeps the last entry of each tag and leaves out entries of
/// unknown type. Returns `IoError(UnexpectedEof)` where the source ends inside the directory.
#[tactic(auto, using(crate::specs::lemmas::Entries::directory_cut), unfolding(tiff_base::specs::Directory::directory_at))]
pub fn read_directory<R: Source>(
    alloc: Global,
    source: &mut R,
    at: u64,
    kind: FileKind,
    order: ByteOrder,
) -> TiffResult<Directory>
    ensures kept { IsKept R.contents R.failures result source.old source.new }
    ensures answer { Answers (λ d. d) result (directory_at kind order (R.contents source.old).bytes at)
        (R.failures source.old) (R.failures source.new) }
    ensures asked { ReadsOnly (DirectoryReadable (R.contents source.old) kind order at) result }
{
    let count = read_count_at(source, at, kind, order)?;
    let first = at + count_len(kind);
    let table = EntryTable { first, count };
    let (entries, offset) = read_entries(alloc, source, table, kind, order)?;
    let next = read_link_at(source, offset, kind, order)?;
    let mut directory = Directory::from_entries(entries)?;
    directory.link_to(next);
    Ok(directory)
}

// The offset of the link of a directory with `count` entries. Returns `None` where the offset is
// 2^64 or more.
fn link_offset(kind: FileKind, at: u64, count: u64) -> Option<u64>
    ensures there { IfSome result (λ offset. offset ≡ link_offset kind at count) }
    ensures past { IfNone result (2 ^ 64 ≤ link_offset kind at count) }
{
    let entries = count.checked_mul(entry_len(kind) as u64)?;
    let first = at.checked_add(count_len(kind))?;
    first.checked_add(entries)
}

/// Reads the link of the directory at an offset. Reads only the count and the link of the
/// directory. Returns `None` for a link of 0, and `IoError(UnexpectedEof)` where the source ends
/// before the count or the link is complete.
#[tactic(auto, using(crate::proofs::Passed::link_past))]
pub fn read_link_of<R: Source>(
    source: &mut R,
    at: u64,
    kind: FileKind,
    order: ByteOrder,
) -> TiffResult<Option<u64>>
    ensures kept { IsKept R.contents R.failures result source.old source.new }
    ensures answer { AnswersWithoutMemory (λ n. n) result (link_of kind order (R.contents source.old).bytes at)
        (R.failures source.old) (R.failures source.new) }
    ensures asked { ReadsOnly (LinkReadable (R.contents source.old) kind order at) result }
{
    let count = read_count_at(source, at, kind, order)?;
    let Some(offset) = link_offset(kind, at, count) else {
        return Err(TiffError::IoError(IoKind::UnexpectedEof));
    };
    let next = read_link_at(source, offset, kind, order)?;
    Ok(if next == 0 { None } else { Some(next) })
}

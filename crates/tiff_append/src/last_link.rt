//! The last link of a file, where an encoder goes on behind it.

ghost use Rattle.std.specs.Prelude.{◌≡◌, ◌+◌, ◌≤◌, ◌<◌, length, IfErr, IfOk, IfSome, IsOk, None, Some};
ghost use Rattle.tiff_base.specs.declared.tags.ByteOrder.TheVariants.{LittleEndian};
ghost use Rattle.tiff_base.specs.Answers.{AnswersWithoutSource, Gives, IsCause, IsKept};
ghost use Rattle.tiff_base.specs.Directory.{count_width, entry_len, offset_width};
ghost use Rattle.tiff_base.specs.Number.{number_at};
ghost use Rattle.tiff_ifd.specs.Chain.{chain, link_from};
ghost use Rattle.tiff_ifd.specs.IfdChainWalk.{ChainBegins, ChainEnds};
ghost use Rattle.tiff_value.specs.FileBytes.{count_len, offset_len};
ghost use Rattle.tiff_encode.specs.LongerChain.{last_link_at, link_offset_at};
ghost use Rattle.tiff_value.specs.Model.{header_link};
ghost use Rattle.tiff_append.specs.LastLink.{is_unlinked, kind_by, last_in, last_link, little_kind, order_and_kind, order_by, unlinked};

use std::alloc::Global;
use tiff_base::error::{TiffError, TiffFormatError, TiffResult, UsageError};
use tiff_base::io::{SliceSource, Source};
use tiff_base::read::{read_u16_at, read_u64_at};
use tiff_base::tags::{ByteOrder, FileKind};
use tiff_ifd::decode::read_link_at;
use tiff_ifd::header::read_header;
use tiff_ifd::walk::IfdChainWalk;

/// Where an encoder goes on behind a file (`TiffEncoder::append_to`): the kind of the file, and the
/// offset of the last link of its chain of directories, in bytes from the start of the file.
#[derive(Clone, Copy, Debug, PartialEq, Eq)]
pub struct LastLink {
    pub kind: FileKind,
    pub at: u64,
}

/// The number of bytes of a link in a file of this kind.
pub fn link_size(kind: FileKind) -> usize
    ensures { result ≡ offset_len kind }
{
    match kind {
        FileKind::Classic => 4,
        FileKind::Big => 8,
    }
}

/// The offset of the header's link, in bytes from the start of the file.
pub fn header_link(kind: FileKind) -> u64
    ensures { result ≡ header_link kind }
{
    match kind {
        FileKind::Classic => 4,
        FileKind::Big => 8,
    }
}

/// The number of bytes of the number of entries of a directory, and of an entry.
pub fn entry_sizes(kind: FileKind) -> (u64, u64)
    ensures count { result.0 ≡ count_len kind }
    ensures entry { result.1 ≡ entry_len kind }
{
    match kind {
        FileKind::Classic => (2, 12),
        FileKind::Big => (8, 20),
    }
}

// ---- the kind

// Whether an error says that a header links to no directory.
fn is_unlinked(fault: &TiffError) -> bool
    ensures { result ≡ is_unlinked fault.now }
{
    matches!(
        fault,
        TiffError::FormatError(TiffFormatError::ImageFileDirectoryNotFound)
    )
}

// The byte order of the mark of a file.
fn order_by(mark: u16) -> ByteOrder
    ensures { result ≡ order_by mark }
{
    match mark {
        0x4949 => ByteOrder::LittleEndian,
        _ => ByteOrder::BigEndian,
    }
}

// The kind of a file with this version in its header.
fn kind_by(version: u16) -> FileKind
    ensures { result ≡ kind_by version }
{
    match version {
        43 => FileKind::Big,
        _ => FileKind::Classic,
    }
}

// The byte order and the kind of a file whose header links to no directory.
fn unlinked(file: &[u8]) -> TiffResult<(ByteOrder, FileKind)>
    ensures { Gives (λ x. x) result (unlinked file.now) }
{
    let mut source = SliceSource::new(file);
    let order = order_by(read_u16_at(&mut source, 0, ByteOrder::LittleEndian)?);
    let kind = kind_by(read_u16_at(&mut source, 2, order)?);
    Ok((order, kind))
}

// The byte order and the kind of a file, whether its header links to a directory or not.
fn order_and_kind(file: &[u8]) -> TiffResult<(ByteOrder, FileKind)>
    ensures { Gives (λ x. x) result (order_and_kind file.now) }
{
    let mut source = SliceSource::new(file);
    match read_header(&mut source) {
        Ok(header) => Ok((header.order, header.kind)),
        Err(fault) => {
            if is_unlinked(&fault) {
                return unlinked(file);
            }
            Err(fault)
        }
    }
}

// The kind of a little-endian file.
fn little_kind(file: &[u8]) -> TiffResult<FileKind>
    ensures { Gives (λ x. x) result (little_kind file.now) }
{
    match order_and_kind(file)? {
        (ByteOrder::LittleEndian, kind) => Ok(kind),
        (ByteOrder::BigEndian, _) => Err(UsageError::ByteOrderMismatch.into()),
    }
}

// ---- the link

// The number of entries of the directory at an offset.
fn count_at(file: &[u8], kind: FileKind, at: u64) -> TiffResult<u64>
    ensures { Gives (λ n. n) result (number_at LittleEndian (count_width kind) file.now at) }
{
    let mut source = SliceSource::new(file);
    match kind {
        FileKind::Classic => {
            let count = read_u16_at(&mut source, at, ByteOrder::LittleEndian)?;
            Ok(u64::from(count))
        }
        FileKind::Big => read_u64_at(&mut source, at, ByteOrder::LittleEndian),
    }
}

// The number of the header's link.
#[tactic(auto, using(crate::proofs::LastLink::header_within))]
fn first_at(file: &[u8], kind: FileKind) -> TiffResult<u64>
    ensures answer { Gives (λ n. n) result (number_at LittleEndian (offset_width kind) file.now (header_link kind)) }
    ensures within { IfOk result (λ _. header_link kind + offset_len kind ≤ length file.now) }
{
    let mut source = SliceSource::new(file);
    read_link_at(
        &mut source,
        header_link(kind),
        kind,
        ByteOrder::LittleEndian,
    )
}

// The offset of the link of a directory that can be read.
#[tactic(auto, using(crate::proofs::LastLink::link_within))]
fn link_of(file: &[u8], kind: FileKind, offset: u64) -> TiffResult<u64>
    requires { IsOk (link_from kind LittleEndian file.now offset) }
    ensures answer { Gives (λ q. q) result (link_offset_at kind file.now offset) }
    ensures within { IfOk result (λ q. q + offset_len kind ≤ length file.now) }
{
    let count = count_at(file, kind, offset)?;
    let (first, entry) = entry_sizes(kind);
    Ok(offset + first + entry * count)
}

/// Enters all directories of the chain of a little-endian file, from its first one on. Errors: the
/// one by which the chain ends; `OutOfMemory`; `IoError(Device)`.
#[tactic(auto, using(crate::proofs::LastLink::none_there))]
pub fn walk_all<R: Source>(
    alloc: Global,
    source: &mut R,
    kind: FileKind,
    first: u64,
) -> TiffResult<IfdChainWalk>
    ensures kept { IsKept R.contents R.failures result source.old source.new }
    ensures begins { IfOk result (ChainBegins kind LittleEndian (R.contents source.old).bytes first) }
    ensures ends { IfOk result (λ walk. ChainEnds kind LittleEndian (R.contents source.old).bytes first walk None) }
    ensures cut { IfErr result
        (λ e. IsCause (Unit {0}) (R.failures source.old < R.failures source.new) e
        ((chain kind LittleEndian (R.contents source.old).bytes first).end ≡ Some e)) }
{
    let mut walk = IfdChainWalk::new(alloc, first);
    let order = ByteOrder::LittleEndian;
    // No chain is so long, so the walk goes to its end.
    let beyond = walk.offset_of(source, kind, order, usize::MAX)?;
    let _entered = walk.len();
    match beyond {
        None => Ok(walk),
        Some(_) => unreachable!(),
    }
}

// Enters all directories of the chain of a file, from its first one on, and returns the offset of
// the last one, if there is one.
fn last_directory(alloc: Global, file: &[u8], kind: FileKind, first: u64) -> TiffResult<Option<u64>>
    ensures answer { AnswersWithoutSource (λ x. x) result (last_in (chain kind LittleEndian file.now first)) }
    ensures reads { IfOk result (λ offset. IfSome offset
        (λ p. IsOk (link_from kind LittleEndian file.now p))) }
{
    let walk = walk_all(alloc, &mut SliceSource::new(file), kind, first)?;
    Ok(walk.last())
}

// The offset of the last link of a little-endian file of this kind.
#[tactic(auto, using(crate::proofs::LastLink::unread, crate::proofs::LastLink::no_chain, crate::proofs::LastLink::in_header, crate::proofs::LastLink::in_last, crate::proofs::LastLink::cut_off))]
fn link_in(alloc: Global, file: &[u8], kind: FileKind) -> TiffResult<u64>
    ensures answer { AnswersWithoutSource (λ q. q) result (last_link_at kind file.now) }
    ensures within { IfOk result (λ q. q + offset_len kind ≤ length file.now) }
{
    let first = first_at(file, kind)?;
    if first == 0 {
        return Ok(header_link(kind));
    }
    match last_directory(alloc, file, kind, first)? {
        Some(offset) => link_of(file, kind, offset),
        None => Ok(header_link(kind)),
    }
}

/// Where an encoder goes on behind a file: the kind of the file, and the offset of the link of the
/// last directory of its chain, or that of the header if it links to no directory (TIFF 6.0 section
/// 2). Returns the error of a header that is refused, but not that of one without a directory;
/// `UsageError(ByteOrderMismatch)` for a big-endian file, since encoders write little-endian files;
/// the error by which the chain ends, as `FormatError(CycleInOffsets)`; or `OutOfMemory`.
pub fn last_link(alloc: Global, file: &[u8]) -> TiffResult<LastLink>
    ensures answer { AnswersWithoutSource (λ l. l) result (last_link file.now) }

    // The link is within the file.
    ensures within { IfOk result (λ l. l.at + offset_len l.kind ≤ length file.now) }
{
    let kind = little_kind(file)?;
    let at = link_in(alloc, file, kind)?;
    Ok(LastLink { kind, at })
}

//! Reads the header of a file.

ghost use Rattle.tiff_base.specs.Answers.{AnswersWithoutMemory, ReadsOnly, Gives, IsKept};
ghost use Rattle.tiff_base.specs.Header.{big_at, header_at, header_of, order_at};
ghost use Rattle.tiff_base.specs.SourceAndSink.{AreReadable};
ghost use Rattle.tiff_ifd.specs.Stretches.{HeaderReadable};

use tiff_base::error::{TiffError, TiffFormatError, TiffResult};
use tiff_base::io::{IoKind, Source};
use tiff_base::read::{read_u16_at, read_u32_at, read_u64_at};
use tiff_base::tags::{ByteOrder, FileKind};

/// The contents of a file header.
#[derive(Clone, Copy, Debug, PartialEq, Eq)]
pub struct FileHeader {
    pub order: ByteOrder,
    pub kind: FileKind,
    /// The offset of the first directory, in bytes from the start of the file.
    pub first: u64,
}

fn read_order<R: Source>(source: &mut R) -> TiffResult<ByteOrder>
    ensures kept { IsKept R.contents R.failures result source.old source.new }
    ensures answer { AnswersWithoutMemory (λ o. o) result (order_at (R.contents source.old).bytes)
        (R.failures source.old) (R.failures source.new) }
    ensures asked { ReadsOnly (AreReadable (R.contents source.old) 0 2) result }
{
    // The bytes of each mark are equal, so either byte order reads it.
    let mark = match read_u16_at(source, 0, ByteOrder::LittleEndian) {
        Ok(mark) => mark,
        Err(TiffError::IoError(IoKind::UnexpectedEof)) => {
            // As in the Rust crate, which compares the bytes that are there with both marks.
            return Err(TiffError::FormatError(TiffFormatError::TiffSignatureNotFound));
        }
        Err(e) => return Err(e),
    };
    match mark {
        0x4949 => Ok(ByteOrder::LittleEndian),
        0x4d4d => Ok(ByteOrder::BigEndian),
        _ => Err(TiffError::FormatError(TiffFormatError::TiffSignatureNotFound)),
    }
}

// The header with the offset of its first directory. Returns `ImageFileDirectoryNotFound` for the
// offset 0.
fn header_from(order: ByteOrder, kind: FileKind, first: u64) -> TiffResult<FileHeader>
    ensures { Gives (λ h. record { order = h.order; kind = h.kind; first = h.first }) result
        (header_of order kind first) }
{
    if first == 0 {
        return Err(TiffError::FormatError(TiffFormatError::ImageFileDirectoryNotFound));
    }
    Ok(FileHeader { order, kind, first })
}

// Reads what follows the version in a header of BigTIFF.
fn read_big<R: Source>(source: &mut R, order: ByteOrder) -> TiffResult<FileHeader>
    ensures kept { IsKept R.contents R.failures result source.old source.new }
    ensures answer { AnswersWithoutMemory (λ h. record { order = h.order; kind = h.kind; first = h.first })
        result (big_at order (R.contents source.old).bytes) (R.failures source.old) (R.failures source.new) }
    ensures asked { ReadsOnly (AreReadable (R.contents source.old) 4 12) result }
{
    if read_u16_at(source, 4, order)? != 8 || read_u16_at(source, 6, order)? != 0 {
        return Err(TiffError::FormatError(TiffFormatError::TiffSignatureNotFound));
    }
    header_from(order, FileKind::Big, read_u64_at(source, 8, order)?)
}

/// Reads the header at the start of the file. Returns `TiffSignatureNotFound` where the file does
/// not begin with `II` or `MM`, or where the offset size and the reserved field of a BigTIFF header
/// are not 8 and 0. Returns `TiffSignatureInvalid` where the version is neither 42 nor 43. Returns
/// `IoError(UnexpectedEof)` where the source ends inside a later number, and
/// `ImageFileDirectoryNotFound` where the first offset is 0.
#[tactic(auto, unfolding(tiff_base::specs::Header::header_at))]
pub fn read_header<R: Source>(source: &mut R) -> TiffResult<FileHeader>
    ensures kept { IsKept R.contents R.failures result source.old source.new }
    ensures answer { AnswersWithoutMemory (λ h. record { order = h.order; kind = h.kind; first = h.first })
        result (header_at (R.contents source.old).bytes) (R.failures source.old) (R.failures source.new) }
    ensures asked { ReadsOnly (HeaderReadable (R.contents source.old)) result }
{
    let order = read_order(source)?;
    let version = read_u16_at(source, 2, order)?;
    match version {
        42 => header_from(
            order,
            FileKind::Classic,
            u64::from(read_u32_at(source, 4, order)?),
        ),
        43 => read_big(source, order),
        _ => Err(TiffError::FormatError(TiffFormatError::TiffSignatureInvalid)),
    }
}

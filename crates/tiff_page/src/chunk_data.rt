//! How the data of a chunk are read from its start.

ghost use Rattle.std.specs.Prelude.{◌≡◌, ◌+◌, ◌<◌, ◌≤◌, ℕ, List, if◌then◌else◌, length, drop, [], Ok, IfOk, IfErr, OnOk, OnErr};
ghost use Rattle.tiff_base.specs.Answers.{ReadsOnly, IsCause, IsKept};
ghost use Rattle.tiff_base.specs.SourceAndSink.{AreReadable, SourceRecord};
ghost use Rattle.tiff_ifd.specs.Unpacking.{PackedReadable, IsLastPart, left_at};
ghost use Rattle.tiff_page.specs.Methods.{data_by_method, is_packed, method_fault};
ghost use Rattle.tiff_page.specs.ChunkData.{bytes_left, Takes, Passes};
ghost use Rattle.tiff_page.specs.Reach.{StoredReadable, Moves};

use tiff_base::error::{TiffError, TiffResult};
use tiff_base::io::{IoKind, Source};
use tiff_base::read::read_exact_at;
use tiff_base::tags::CompressionMethod;
use tiff_ifd::packbits::PackBitsCursor;

/// A position in the data of a chunk: at an offset in the file, in PackBits data, or after the last
/// byte of these.
#[derive(Debug, Drop)]
pub enum ChunkCursor {
    Plain(u64),
    Packed(PackBitsCursor),
    Ended,
}

// The number of bytes that `read_grown` reads at once. A forged row may be far longer than its
// data, so memory for it grows with these.
const PIECE: usize = 65536;

// Skips `n` bytes of PackBits data after decompression. Returns whether so many were left.
#[inline(never)]
fn pass_packed<R: Source>(source: &mut R, position: &mut PackBitsCursor, n: u64) -> TiffResult<bool>
    ensures kept { IsKept R.contents R.failures result source.old source.new }
    ensures passed { IfOk result
        (λ more. (if more then (left_at (R.contents source.old).bytes position.new).out else [])
        ≡ drop n (left_at (R.contents source.old).bytes position.old).out) }
    ensures fault { IfErr result (λ e. IsCause ⊥ (R.failures source.old < R.failures source.new) e
        ⊥) }
    ensures asked { ReadsOnly (PackedReadable (R.contents source.old) position.old) result }
    ensures behind { IsLastPart position.old.at position.old.len position.new }
{
    // Where the bytes behind them are is known only once they are unpacked.
    let mut piece = [0u8; 512];
    let mut left = n;
    while left > 0 {
        let len = left.min(512);
        match position.read_exact(source, &mut piece[..len as usize]) {
            Ok(()) => {}
            Err(TiffError::IoError(IoKind::UnexpectedEof)) => return Ok(false),
            Err(fault) => return Err(fault),
        }
        left -= len;
    }
    Ok(true)
}

impl ChunkCursor {
    /// Returns a cursor at the start of the data of `count` bytes at offset `at`, which are
    /// uncompressed or compressed by PackBits.
    #[tactic(auto, using(crate::specs::lemmas::ChunkRows::unpacked_out))]
    pub fn new(method: CompressionMethod, at: u64, count: u64) -> Self
        requires { method_fault method ≡ Ok tt }
        ensures rest { (file : List ℕ) → bytes_left file result ≡ data_by_method file method at
            count }
        ensures readable { (source : SourceRecord) (n : ℕ) → AreReadable source at
            (if is_packed method then count else n) → StoredReadable source result n }
    {
        match method {
            CompressionMethod::PackBits => ChunkCursor::Packed(PackBitsCursor::new(at, count)),
            _ => ChunkCursor::Plain(at),
        }
    }

    /// Fills a buffer with the next bytes. Returns `IoError(UnexpectedEof)` if fewer bytes are
    /// left. After an error, all bytes are still left.
    #[inline(always)]
    pub fn read<R: Source>(&mut self, source: &mut R, buf: &mut [u8]) -> TiffResult<()>
        ensures kept { IsKept R.contents R.failures result source.old source.new }
        ensures taken { Takes (R.contents source.old).bytes self.old self.new ⊥
            (R.failures source.old < R.failures source.new) (length buf.old) buf.new result }
        ensures asked { ReadsOnly (StoredReadable (R.contents source.old) self.old (length buf.old))
            result }
        ensures moves { OnOk result (Moves self.old (length buf.old) self.new) }
        ensures stays { OnErr result (bytes_left (R.contents source.old).bytes self.new
            ≡ bytes_left (R.contents source.old).bytes self.old) }
    {
        match self {
            ChunkCursor::Plain(at) => {
                read_exact_at(source, *at, buf)?;
                *at += buf.len() as u64;
                Ok(())
            }
            ChunkCursor::Packed(position) => {
                position.read_exact(source, buf)?;
                Ok(())
            }
            ChunkCursor::Ended => {
                if buf.is_empty() {
                    return Ok(());
                }
                Err(TiffError::IoError(IoKind::UnexpectedEof))
            }
        }
    }

    /// Replaces a list by the next `len` bytes. The list grows as the bytes come, and is at most
    /// `PIECE` bytes, 65536, ahead of them. Returns `IoError(UnexpectedEof)` if fewer bytes are
    /// left; the list then holds some of them, and the cursor is behind these.
    pub fn read_grown<R: Source>(
        &mut self,
        source: &mut R,
        row: &mut Vec<u8>,
        len: usize,
    ) -> TiffResult<()>
        ensures kept { IsKept R.contents R.failures result source.old source.new }
        ensures taken { Takes (R.contents source.old).bytes self.old self.new (Unit {0})
            (R.failures source.old < R.failures source.new) len row.new.items result }
        ensures grown { length row.new.items
            ≤ length (bytes_left (R.contents source.old).bytes self.old) + PIECE }
        ensures asked { ReadsOnly (StoredReadable (R.contents source.old) self.old len) result }
        ensures moves { OnOk result (Moves self.old len self.new) }
    {
        row.clear();
        while row.len() < len {
            let from = row.len();
            row.resize(from + (len - from).min(PIECE), 0)?;
            self.read(source, &mut row[from..])?;
        }
        Ok(())
    }

    /// Skips `n` bytes, or all that are left if there are fewer.
    #[tactic(auto, using(crate::specs::lemmas::ChunkRows::passed_end))]
    #[inline(always)]
    pub fn pass<R: Source>(&mut self, source: &mut R, n: u64) -> TiffResult<()>
        ensures kept { IsKept R.contents R.failures result source.old source.new }
        ensures passed { Passes (R.contents source.old).bytes self.old self.new
            (R.failures source.old < R.failures source.new) n result }
        ensures asked { ReadsOnly (StoredReadable (R.contents source.old) self.old n) result }
        ensures moves { OnOk result (Moves self.old n self.new) }
    {
        match self {
            ChunkCursor::Plain(at) => match at.checked_add(n) {
                Some(next) => *at = next,
                // No source has an offset past 2^64, so no byte is left.
                None => *self = ChunkCursor::Ended,
            },
            ChunkCursor::Packed(position) => {
                if !pass_packed(source, position, n)? {
                    *self = ChunkCursor::Ended;
                }
            }
            ChunkCursor::Ended => {}
        }
        Ok(())
    }
}

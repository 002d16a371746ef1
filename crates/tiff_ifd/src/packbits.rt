//! Unpacks PackBits data in pieces of any size.

ghost use Rattle.std.specs.Prelude.{◌≡◌, ℕ, ◌+◌, ◌<◌, ◌≤◌, List, length, Ok, OnOk, IfOk, IfErr, IfSome, IfNone};
ghost use Rattle.tiff_base.specs.Answers.{ReadsOnly, IsCause, IsKept, NoneSwallowed};
ghost use Rattle.tiff_base.specs.Runs.{with_front};
ghost use Rattle.tiff_base.specs.SourceAndSink.{AreReadable};
ghost use Rattle.tiff_ifd.specs.Unpacking.{unpacked_at, left_at, unpacking, PackedReadable, IsLastPart, FindsLastPart, count_of, GivesNext, HasTooFew, ReadsByte, Finds, ReadsBlock, PieceReads, Fills, UnpacksFront};
ghost use Rattle.tiff_ifd.specs.declared.packbits.Block.TheVariants.{Literal, Run};

use std::marker::Model;
use tiff_base::error::{TiffError, TiffResult};
use tiff_base::io::{IoKind, Source};
use tiff_base::read::read_exact_at;

// The number of packed bytes that one read reads ahead. A block has fewer bytes.
const AHEAD: usize = 256;

// The rest of a block: a number of literal bytes, or one byte and how often it repeats.
#[derive(Clone, Copy, Debug)]
enum Block {
    Literal(usize),
    Run(u8, usize),
}

/// A position in packed bytes: the rest of a block, and the offset and the number of the packed
/// bytes behind it. A [`PackBitsReader`] is a position with its source. Each call on a position
/// takes the source as an argument, and the caller passes the same source each time.
#[derive(Clone, Copy, Debug)]
pub struct PackBitsCursor {
    block: Block,
    at: u64,
    len: u64,
}

impl Block {
    // The number of bytes left of the block.
    fn count(self) -> usize
        ensures { result ≡ count_of self }
    {
        match self {
            Block::Literal(count) | Block::Run(_, count) => count,
        }
    }
}

// Reads the byte at an offset.
#[tactic(auto, using(crate::specs::lemmas::Unpacking::byte_there, crate::specs::lemmas::Unpacking::byte_missing))]
fn read_byte<R: Source>(source: &mut R, at: u64) -> TiffResult<u8>
    ensures kept { IsKept R.contents R.failures result source.old source.new }
    ensures byte { ReadsByte (R.contents source.old).bytes at (R.failures source.old < R.failures source.new)
        result }
    ensures asked { ReadsOnly (AreReadable (R.contents source.old) at 1) result }
{
    let mut byte = [0u8; 1];
    read_exact_at(source, at, &mut byte)?;
    Ok(byte[0])
}

// Finds the next block of packed bytes. Skips headers of 128, which encode no bytes.
fn next_block<R: Source>(source: &mut R, at: u64, len: u64) -> TiffResult<Option<PackBitsCursor>>
    ensures kept { IsKept R.contents R.failures result source.old source.new }
    ensures block { Finds (R.contents source.old).bytes (unpacked_at (R.contents source.old).bytes at len)
        (R.failures source.old < R.failures source.new) result }
    ensures asked { ReadsOnly (AreReadable (R.contents source.old) at len) result }
    ensures rest { FindsLastPart at len result }
{
    let mut at = at;
    let mut len = len;
    while len > 0 {
        let header = read_byte(source, at)?;
        at += 1;
        len -= 1;
        if header < 128 {
            let block = Block::Literal(usize::from(header) + 1);
            return Ok(Some(PackBitsCursor { block, at, len }));
        }
        if header > 128 {
            if len == 0 {
                return Err(TiffError::IoError(IoKind::UnexpectedEof));
            }
            let value = read_byte(source, at)?;
            return Ok(Some(PackBitsCursor {
                block: Block::Run(value, 257 - usize::from(header)),
                at: at + 1,
                len: len - 1,
            }));
        }
    }
    Ok(None)
}

// The block of the next byte: the block of the position, or the next block where none of it is
// left.
#[tactic(auto, using(crate::specs::lemmas::Unpacking::used_up))]
fn begun_block<R: Source>(
    source: &mut R,
    offset: PackBitsCursor,
) -> TiffResult<Option<PackBitsCursor>>
    ensures kept { IsKept R.contents R.failures result source.old source.new }
    ensures block { Finds (R.contents source.old).bytes (left_at (R.contents source.old).bytes offset)
        (R.failures source.old < R.failures source.new) result }
    ensures asked { ReadsOnly (PackedReadable (R.contents source.old) offset) result }
    ensures rest { FindsLastPart offset.at offset.len result }
{
    if offset.block.count() > 0 {
        return Ok(Some(offset));
    }
    next_block(source, offset.at, offset.len)
}

// Reads bytes of a literal, as many as the source returns. Reads none only where the source or the
// packed bytes end.
fn read_literal<R: Source>(
    source: &mut R,
    offset: PackBitsCursor,
    count: usize,
    buf: &mut [u8],
) -> TiffResult<(usize, PackBitsCursor)>
    requires literal { offset.block ≡ Literal count }
    requires begun { 0 < count }
    requires some { 0 < length buf.old }
    ensures kept { IsKept R.contents R.failures result source.old source.new }
    ensures bytes { ReadsBlock (R.contents source.old).bytes offset
        (R.failures source.old < R.failures source.new) buf.old buf.new result }
    ensures asked { ReadsOnly (PackedReadable (R.contents source.old) offset) result }
    ensures rest { IfOk result (λ r. IsLastPart offset.at offset.len r.1) }
{
    let most = (count.min(buf.len()) as u64).min(offset.len) as usize;
    let n = source.read_at(offset.at, &mut buf[..most])?;
    Ok((
        n,
        PackBitsCursor {
            block: Block::Literal(count - n),
            at: offset.at + n as u64,
            len: offset.len - n as u64,
        },
    ))
}

// Writes bytes of a run.
fn repeat(
    offset: PackBitsCursor,
    value: u8,
    count: usize,
    buf: &mut [u8],
) -> (usize, PackBitsCursor)
    requires run { offset.block ≡ Run value count }
    requires begun { 0 < count }
    requires some { 0 < length buf.old }
    ensures bytes { (bytes : List ℕ)
        → GivesNext (left_at bytes offset) buf.old result.0 buf.new (left_at bytes result.1) }
    ensures rest { IsLastPart offset.at offset.len result.1 }
{
    let n = count.min(buf.len());
    buf[..n].fill(value);
    (
        n,
        PackBitsCursor {
            block: Block::Run(value, count - n),
            at: offset.at,
            len: offset.len,
        },
    )
}

// Reads bytes of a block that has some left.
fn read_block<R: Source>(
    source: &mut R,
    offset: PackBitsCursor,
    buf: &mut [u8],
) -> TiffResult<(usize, PackBitsCursor)>
    requires begun { 0 < count_of offset.block }
    requires some { 0 < length buf.old }
    ensures kept { IsKept R.contents R.failures result source.old source.new }
    ensures bytes { ReadsBlock (R.contents source.old).bytes offset
        (R.failures source.old < R.failures source.new) buf.old buf.new result }
    ensures asked { ReadsOnly (PackedReadable (R.contents source.old) offset) result }
    ensures rest { IfOk result (λ r. IsLastPart offset.at offset.len r.1) }
{
    match offset.block {
        Block::Literal(count) => read_literal(source, offset, count, buf),
        Block::Run(value, count) => Ok(repeat(offset, value, count, buf)),
    }
}

// Unpacks the first block of packed bytes to the front of a buffer. Returns the number of packed
// bytes that it used and the number of bytes that it wrote. Returns `None` where the packed bytes
// do not contain the whole block, or the buffer has no room for it.
#[tactic(auto, using(crate::proofs::Ahead::front_literal, crate::proofs::Ahead::front_nothing))]
fn unpack_block(packed: &[u8], buf: &mut [u8]) -> Option<(usize, usize)>
    requires { 1 < length packed.now }
    ensures some { IfSome result (λ r. (0 < r.0) × UnpacksFront packed.now buf.old r.0 r.1 buf.new) }
    ensures none { IfNone result (buf.new ≡ buf.old) }
{
    let header = packed[0];
    if header == 128 {
        return Some((1, 0));
    }
    if header < 128 {
        let n = usize::from(header) + 1;
        if n >= packed.len() || n > buf.len() {
            return None;
        }
        buf[..n].copy_from_slice(&packed[1..n + 1]);
        return Some((n + 1, n));
    }
    let n = 257 - usize::from(header);
    if n > buf.len() {
        return None;
    }
    buf[..n].fill(packed[1]);
    Some((2, n))
}

// Unpacks blocks of packed bytes to the front of a buffer, as many as `unpack_block` unpacks one
// after another.
#[tactic(auto, using(crate::proofs::Ahead::front_none))]
fn unpack_blocks(packed: &[u8], buf: &mut [u8]) -> (usize, usize)
    ensures { UnpacksFront packed.now buf.old result.0 result.1 buf.new }
{
    let mut used = 0;
    let mut done = 0;
    while used + 1 < packed.len() {
        match unpack_block(&packed[used..], &mut buf[done..]) {
            Some((more, n)) => {
                used += more;
                done += n;
            }
            None => return (used, done),
        }
    }
    (used, done)
}

impl PackBitsCursor {
    /// A position before the `length` packed bytes from `at` on. The source may end before the last
    /// of them.
    pub fn new(at: u64, length: u64) -> Self
        ensures rest { (bytes : List ℕ) → left_at bytes result ≡ unpacked_at bytes at length }
        ensures stretch { (result.at ≡ at) × (result.len ≡ length) }
    {
        PackBitsCursor {
            block: Block::Literal(0),
            at,
            len: length,
        }
    }

    /// Reads as [`PackBitsReader::read`] does, from a source that the caller lends.
    pub fn read<R: Source>(&mut self, source: &mut R, buf: &mut [u8]) -> TiffResult<usize>
        ensures empty { length buf.old ≡ 0 → (result ≡ Ok 0)
            × ((self.new ≡ self.old) × (source.new ≡ source.old)) }
        ensures kept { IsKept R.contents R.failures result source.old source.new }
        ensures piece { PieceReads result (unpacking R.contents R.failures source.old self.old)
            (unpacking R.contents R.failures source.new self.new) buf.old buf.new }
        ensures asked { ReadsOnly (PackedReadable (R.contents source.old) self.old) result }
        ensures behind { IsLastPart self.old.at self.old.len self.new }
    {
        if buf.is_empty() {
            return Ok(0);
        }
        let Some(offset) = begun_block(source, *self)? else {
            return Ok(0);
        };
        let (n, rest) = read_block(source, offset, buf)?;
        *self = rest;
        Ok(n)
    }

    // Reads as `read` does, but reads packed bytes ahead and unpacks all whole blocks of them at
    // once.
    fn read_blocks<R: Source>(&mut self, source: &mut R, buf: &mut [u8]) -> TiffResult<usize>
        ensures kept { IsKept R.contents R.failures result source.old source.new }
        ensures piece { PieceReads result (unpacking R.contents R.failures source.old self.old)
            (unpacking R.contents R.failures source.new self.new) buf.old buf.new }
        ensures asked { ReadsOnly (PackedReadable (R.contents source.old) self.old) result }
        ensures behind { IsLastPart self.old.at self.old.len self.new }
    {
        if self.block.count() > 0 {
            return self.read(source, buf);
        }
        // One read for many blocks; a device may fail at bytes of it that nobody needed.
        let mut ahead = [0u8; AHEAD];
        let wanted = AHEAD.min(buf.len().saturating_add(2));
        let most = (wanted as u64).min(self.len) as usize;
        let held = source.read_at(self.at, &mut ahead[..most])?;
        let (used, n) = unpack_blocks(&ahead[..held], buf);
        // The first block is cut here, or longer than the buffer: `read` takes a part of it.
        if n == 0 {
            return self.read(source, buf);
        }
        self.at += used as u64;
        self.len -= used as u64;
        Ok(n)
    }

    // Fills the buffer with the next bytes. After an error the position may be past some of them.
    #[tactic(auto, using(crate::specs::lemmas::Unpacking::short_by, crate::specs::lemmas::Unpacking::short_cause))]
    fn fill<R: Source>(&mut self, source: &mut R, buf: &mut [u8]) -> TiffResult<()>
        ensures kept { IsKept R.contents R.failures result source.old source.new }
        ensures ok { OnOk result
            (left_at (R.contents source.old).bytes self.old
            ≡ with_front buf.new (left_at (R.contents source.old).bytes self.new)) }
        ensures err { IfErr result
            (λ e. IsCause ⊥ (R.failures source.old < R.failures source.new) e
            (HasTooFew (left_at (R.contents source.old).bytes self.old) (length buf.old) e)) }
        ensures asked { ReadsOnly (PackedReadable (R.contents source.old) self.old) result }
        ensures behind { IsLastPart self.old.at self.old.len self.new }
    {
        let mut done = 0;
        while done < buf.len() {
            let n = self.read_blocks(source, &mut buf[done..])?;
            if n == 0 {
                return Err(TiffError::IoError(IoKind::UnexpectedEof));
            }
            done += n;
        }
        Ok(())
    }

    /// Reads as [`PackBitsReader::read_exact`] does, from a source that the caller lends.
    pub fn read_exact<R: Source>(&mut self, source: &mut R, buf: &mut [u8]) -> TiffResult<()>
        ensures kept { IsKept R.contents R.failures result source.old source.new }
        ensures filled { Fills result (unpacking R.contents R.failures source.old self.old)
            (unpacking R.contents R.failures source.new self.new) buf.new }
        ensures asked { ReadsOnly (PackedReadable (R.contents source.old) self.old) result }
        ensures behind { IsLastPart self.old.at self.old.len self.new }
    {
        // Filled by a copy, so that after an error the next read returns the same bytes.
        let mut offset = *self;
        offset.fill(source, buf)?;
        *self = offset;
        Ok(())
    }
}

/// Unpacks PackBits data of a source (TIFF 6.0 section 9) in pieces of any size. Asks the source
/// for no other bytes than the packed ones that are left. Allocates no memory.
#[derive(Debug, Drop)]
pub struct PackBitsReader<R: Source> {
    source: R,
    offset: PackBitsCursor,
}

impl<R: Source> Model for PackBitsReader<R> {
    ghost use Rattle.tiff_ifd.specs.Unpacking.{Unpacking, unpacking};

    ghost Value = { Unpacking };

    ghost view = { λ r. unpacking R.contents R.failures r.source r.offset };
}

impl<R: Source> PackBitsReader<R> {
    /// A reader of the `length` packed bytes from `at` on. The source may end before the last of
    /// them.
    pub fn new(source: R, at: u64, length: u64) -> Self
        ensures { result ≡ record {
          contents = R.contents source;
          failures = R.failures source;
          at = at;
          len = length;
          rest = unpacked_at (R.contents source).bytes at length;
        } }
    {
        PackBitsReader {
            source,
            offset: PackBitsCursor::new(at, length),
        }
    }

    /// Reads the next bytes to the front of the buffer and returns their number: at least one while
    /// bytes are left, but 0 for an empty buffer. The rest of the buffer stays as it is. After the
    /// last byte it returns 0, or `IoError(UnexpectedEof)` where the source ends before the packed
    /// bytes do or no byte follows the header of a run; each later read returns the same. Where the
    /// source or the packed bytes end inside a literal, it returns 0. After an error the next read
    /// returns the same bytes.
    pub fn read(&mut self, buf: &mut [u8]) -> TiffResult<usize>
        ensures empty { length buf.old ≡ 0 → (result ≡ Ok 0) × (self.new ≡ self.old) }
        ensures contents { self.new.contents ≡ self.old.contents }
        ensures failures { self.old.failures ≤ self.new.failures }
        ensures swallowed { NoneSwallowed result self.old.failures self.new.failures }
        ensures piece { PieceReads result self.old self.new buf.old buf.new }
        ensures asked { ReadsOnly (AreReadable self.old.contents self.old.at self.old.len) result }
        ensures start { self.old.at ≤ self.new.at }
        ensures end { self.new.at + self.new.len ≡ self.old.at + self.old.len }
    {
        self.offset.read(&mut self.source, buf)
    }

    /// Fills the buffer with the next bytes. Returns `IoError(UnexpectedEof)` where fewer bytes are
    /// left, however the packed bytes end. After an error the next read returns the same bytes.
    pub fn read_exact(&mut self, buf: &mut [u8]) -> TiffResult<()>
        ensures contents { self.new.contents ≡ self.old.contents }
        ensures failures { self.old.failures ≤ self.new.failures }
        ensures swallowed { NoneSwallowed result self.old.failures self.new.failures }
        ensures filled { Fills result self.old self.new buf.new }
        ensures asked { ReadsOnly (AreReadable self.old.contents self.old.at self.old.len) result }
        ensures start { self.old.at ≤ self.new.at }
        ensures end { self.new.at + self.new.len ≡ self.old.at + self.old.len }
    {
        self.offset.read_exact(&mut self.source, buf)
    }
}

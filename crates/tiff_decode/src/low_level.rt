//! Reads bytes and numbers at an offset of the file, as they are there.

ghost use Rattle.std.specs.Prelude.{string_bytes};
ghost use Rattle.std.specs.Int.{byte_len, w8};
ghost use Rattle.tiff_base.specs.Answers.{AnswersWithoutMemory, ReadsOnly, IsKept};
ghost use Rattle.tiff_base.specs.Directory.{offset_width};
ghost use Rattle.tiff_base.specs.Number.{number_at};
ghost use Rattle.tiff_base.specs.SourceAndSink.{AreReadable};
ghost use Rattle.tiff_base.specs.Sparing.{IsWithinLimits};
ghost use Rattle.tiff_decode.specs.Asked.{AsksHere};
ghost use Rattle.tiff_decode.specs.Machine.{FollowsBut, FollowsWithoutMemory, FollowsWithoutEither};
ghost use Rattle.tiff_decode.specs.Outcome as outcome;
ghost use Rattle.tiff_decode.specs.ReplyView.{bits_32, bits_64};

use crate::decoder::Decoder;
use tiff_base::error::{TiffFormatError, TiffResult};
use tiff_base::io::Source;
use tiff_base::read::{read_exact_at, read_u16_at, read_u32_at, read_u64_at};
use tiff_base::tags::{Bits32, Bits64, ByteOrder, FileKind};
use tiff_ifd::decode::read_link_at;
use tiff_ifd::read_bytes::offset_len;
use tiff_ifd::read_value::read_text_at;

// Reads the byte at an offset.
#[tactic(auto, unfolding(tiff_base::specs::Number::number))]
fn read_u8_at<R: Source>(source: &mut R, at: u64, order: ByteOrder) -> TiffResult<u8>
    ensures kept { IsKept R.contents R.failures result source.old source.new }
    ensures answer { AnswersWithoutMemory (λ n. n) result (number_at order w8 (R.contents source.old).bytes at)
        (R.failures source.old)
        (R.failures source.new) }
    ensures asked { ReadsOnly (AreReadable (R.contents source.old) at 1) result }
{
    let mut bytes = [0u8; 1];
    read_exact_at(source, at, &mut bytes)?;
    match order {
        ByteOrder::LittleEndian => Ok(u8::from_le_bytes(bytes)),
        ByteOrder::BigEndian => Ok(u8::from_be_bytes(bytes)),
    }
}

/// Low-level reads. The decoder has an offset for them, at first the end of the header. A read
/// moves the offset past the bytes that it returns. Where the source has too few bytes, a read
/// returns `IoError(UnexpectedEof)`. After an error the offset stays.
impl<R: Source> Decoder<R> {
    /// Moves the low-level reads to an offset. Accepts any offset.
    #[tactic(auto, unfolding(crate::specs::Outcome::goto_offset))]
    pub fn goto_offset(&mut self, offset: u32) -> TiffResult<()>
        ensures { FollowsWithoutEither (λ x. x) (outcome.goto_offset self.old offset) result
            self.old self.new }
    {
        self.offset = u64::from(offset);
        Ok(())
    }

    /// Moves the low-level reads to an offset. Accepts any offset.
    #[tactic(auto, unfolding(crate::specs::Outcome::goto_offset))]
    pub fn goto_offset_u64(&mut self, offset: u64) -> TiffResult<()>
        ensures { FollowsWithoutEither (λ x. x) (outcome.goto_offset self.old offset) result
            self.old self.new }
    {
        self.offset = offset;
        Ok(())
    }

    /// Reads the next offset: a number of 4 bytes, or of 8 bytes in BigTIFF.
    #[tactic(auto, unfolding(crate::specs::Outcome::read_ifd_offset))]
    pub fn read_ifd_offset(&mut self) -> TiffResult<u64>
        ensures follows { FollowsWithoutMemory (λ x. x) (outcome.read_ifd_offset self.old) result self.old
            self.new }
        ensures asked { AsksHere self.old (byte_len (offset_width self.old.kind)) result }
    {
        let kind = self.tags.kind;
        let n = read_link_at(&mut self.tags.source, self.offset, kind, self.tags.order)?;
        self.offset += offset_len(kind);
        Ok(n)
    }

    /// Reads the next byte.
    #[tactic(auto, unfolding(crate::specs::Outcome::read_byte))]
    pub fn read_byte(&mut self) -> TiffResult<u8>
        ensures follows { FollowsWithoutMemory (λ x. x) (outcome.read_byte self.old) result self.old self.new }
        ensures asked { AsksHere self.old 1 result }
    {
        let n = read_u8_at(&mut self.tags.source, self.offset, self.tags.order)?;
        self.offset += 1;
        Ok(n)
    }

    /// Reads the next two bytes as a number.
    #[tactic(auto, unfolding(crate::specs::Outcome::read_short))]
    pub fn read_short(&mut self) -> TiffResult<u16>
        ensures follows { FollowsWithoutMemory (λ x. x) (outcome.read_short self.old) result self.old self.new }
        ensures asked { AsksHere self.old 2 result }
    {
        let n = read_u16_at(&mut self.tags.source, self.offset, self.tags.order)?;
        self.offset += 2;
        Ok(n)
    }

    /// Reads the next two bytes as a signed number.
    #[tactic(auto, unfolding(crate::specs::Outcome::read_short, crate::specs::Outcome::read_sshort))]
    pub fn read_sshort(&mut self) -> TiffResult<i16>
        ensures follows { FollowsWithoutMemory (λ x. x) (outcome.read_sshort self.old) result self.old self.new }
        ensures asked { AsksHere self.old 2 result }
    {
        Ok(self.read_short()?.cast_signed())
    }

    /// Reads the next four bytes as a number.
    #[tactic(auto, unfolding(crate::specs::Outcome::read_long))]
    pub fn read_long(&mut self) -> TiffResult<u32>
        ensures follows { FollowsWithoutMemory (λ x. x) (outcome.read_long self.old) result self.old self.new }
        ensures asked { AsksHere self.old 4 result }
    {
        let n = read_u32_at(&mut self.tags.source, self.offset, self.tags.order)?;
        self.offset += 4;
        Ok(n)
    }

    /// Reads the next four bytes as a signed number.
    #[tactic(auto, unfolding(crate::specs::Outcome::read_long, crate::specs::Outcome::read_slong))]
    pub fn read_slong(&mut self) -> TiffResult<i32>
        ensures follows { FollowsWithoutMemory (λ x. x) (outcome.read_slong self.old) result self.old self.new }
        ensures asked { AsksHere self.old 4 result }
    {
        Ok(self.read_long()?.cast_signed())
    }

    /// Reads the next eight bytes as a number.
    #[tactic(auto, unfolding(crate::specs::Outcome::read_long8))]
    pub fn read_long8(&mut self) -> TiffResult<u64>
        ensures follows { FollowsWithoutMemory (λ x. x) (outcome.read_long8 self.old) result self.old self.new }
        ensures asked { AsksHere self.old 8 result }
    {
        let n = read_u64_at(&mut self.tags.source, self.offset, self.tags.order)?;
        self.offset += 8;
        Ok(n)
    }

    /// Reads the next eight bytes as a signed number.
    #[tactic(auto, unfolding(crate::specs::Outcome::read_long8, crate::specs::Outcome::read_slong8))]
    pub fn read_slong8(&mut self) -> TiffResult<i64>
        ensures follows { FollowsWithoutMemory (λ x. x) (outcome.read_slong8 self.old) result self.old self.new }
        ensures asked { AsksHere self.old 8 result }
    {
        Ok(self.read_long8()?.cast_signed())
    }

    /// Reads the next four bytes as a floating-point number.
    #[tactic(auto, unfolding(crate::specs::Outcome::read_long, crate::specs::Outcome::read_float))]
    pub fn read_float(&mut self) -> TiffResult<Bits32>
        ensures follows { FollowsWithoutMemory bits_32 (outcome.read_float self.old) result self.old self.new }
        ensures asked { AsksHere self.old 4 result }
    {
        Ok(Bits32(self.read_long()?))
    }

    /// Reads the next eight bytes as a floating-point number.
    #[tactic(auto, unfolding(crate::specs::Outcome::read_long8, crate::specs::Outcome::read_double))]
    pub fn read_double(&mut self) -> TiffResult<Bits64>
        ensures follows { FollowsWithoutMemory bits_64 (outcome.read_double self.old) result self.old self.new }
        ensures asked { AsksHere self.old 8 result }
    {
        Ok(Bits64(self.read_long8()?))
    }

    /// Reads the next `length` bytes as a text, which ends before its first zero. Returns
    /// `InvalidTag` for a text that is not UTF-8. Allocates memory only where the bytes are in the
    /// source.
    #[tactic(auto, unfolding(crate::specs::Outcome::read_string))]
    pub fn read_string(&mut self, length: usize) -> TiffResult<String>
        ensures follows { let given = outcome.read_string self.old length in
            FollowsBut (IsWithinLimits given.answer) string_bytes given result self.old self.new }
        ensures asked { AsksHere self.old length result }
    {
        let text = read_text_at(self.alloc, &mut self.tags.source, self.offset, length)?;
        self.offset += length as u64;
        Ok(text)
    }

    /// Reads the next four bytes as they are in the file. Returns `InconsistentSizesEncountered` in
    /// a BigTIFF file.
    #[tactic(auto, unfolding(crate::specs::Outcome::read_offset))]
    pub fn read_offset(&mut self) -> TiffResult<[u8; 4]>
        ensures follows { FollowsWithoutMemory (λ x. x) (outcome.read_offset self.old) result self.old self.new }
        ensures asked { AsksHere self.old 4 result }
    {
        match self.tags.kind {
            FileKind::Classic => (),
            FileKind::Big => return Err(TiffFormatError::InconsistentSizesEncountered.into()),
        }
        let mut bytes = [0u8; 4];
        read_exact_at(&mut self.tags.source, self.offset, &mut bytes)?;
        self.offset += 4;
        Ok(bytes)
    }

    /// Reads the next eight bytes as they are in the file.
    #[tactic(auto, unfolding(crate::specs::Outcome::read_offset_u64))]
    pub fn read_offset_u64(&mut self) -> TiffResult<[u8; 8]>
        ensures follows { FollowsWithoutMemory (λ x. x) (outcome.read_offset_u64 self.old) result self.old
            self.new }
        ensures asked { AsksHere self.old 8 result }
    {
        let mut bytes = [0u8; 8];
        read_exact_at(&mut self.tags.source, self.offset, &mut bytes)?;
        self.offset += 8;
        Ok(bytes)
    }
}

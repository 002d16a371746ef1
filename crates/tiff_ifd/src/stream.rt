//! Reads consecutive numbers, and packed bytes.

ghost use Rattle.std.specs.Prelude.{◌≡◌, Ok};
ghost use Rattle.std.specs.Int.{w16, w32, w64, cast_signed};
ghost use Rattle.tiff_base.specs.Answers.{ReadsOnly};
ghost use Rattle.tiff_base.specs.SourceAndSink.{AreReadable};
ghost use Rattle.tiff_ifd.specs.Stream.{NumberRead, of_bits_32, of_bits_64};

pub use crate::packbits::PackBitsReader;
use std::fmt;
use std::marker::Model;
use tiff_base::error::TiffResult;
use tiff_base::io::Source;
use tiff_base::read::{read_u16_at, read_u32_at, read_u64_at};
use tiff_base::tags::{Bits32, Bits64, ByteOrder};

/// Reads consecutive numbers in one byte order.
#[derive(Drop)]
pub struct EndianReader<R: Source> {
    source: R,
    byte_order: ByteOrder,
    offset: u64,
}

impl<R: Source> Model for EndianReader<R> {
    ghost use Rattle.tiff_ifd.specs.Stream.{Reading};

    ghost Value = { Reading };

    ghost view = { λ r. record {
      contents = R.contents r.source;
      failures = R.failures r.source;
      order = r.byte_order;
      offset = r.offset;
    } };
}

/// Shows the byte order and the offset. Does not read the source.
impl<R: Source> fmt::Debug for EndianReader<R> {
    fn fmt<W: fmt::Write>(&self, f: &mut fmt::Formatter<W>) -> fmt::Result {
        f.debug_struct("EndianReader")
            .field("byte_order", &self.byte_order)
            .field("offset", &self.offset)
            .finish_non_exhaustive()
    }
}

impl<R: Source> EndianReader<R> {
    /// A reader at the start of the source.
    pub fn new(source: R, byte_order: ByteOrder) -> Self
        ensures { result ≡ record {
          contents = R.contents source;
          failures = R.failures source;
          order = byte_order;
          offset = 0;
        } }
    {
        EndianReader {
            source,
            byte_order,
            offset: 0,
        }
    }

    /// The source.
    pub fn inner(&self) -> &R
        ensures contents { R.contents result.now ≡ self.now.contents }
        ensures failures { R.failures result.now ≡ self.now.failures }
    {
        &self.source
    }

    /// Moves to an offset, where the next read begins. Accepts any offset.
    pub fn goto_offset(&mut self, offset: u64) -> TiffResult<()>
        ensures answer { result ≡ Ok tt }
        ensures state { self.new ≡ record self.old { offset = offset } }
    {
        self.offset = offset;
        Ok(())
    }

    /// Reads the next two bytes as a number. This and each other read returns
    /// `IoError(UnexpectedEof)` where the source has fewer bytes, and asks the source for no other
    /// bytes than those of the number. After an error the offset stays.
    pub fn read_u16(&mut self) -> TiffResult<u16>
        ensures read { NumberRead w16 (λ n. n) result self.old self.new }
        ensures asked { ReadsOnly (AreReadable self.old.contents self.old.offset 2) result }
    {
        let n = read_u16_at(&mut self.source, self.offset, self.byte_order)?;
        self.offset += 2;
        Ok(n)
    }

    /// Reads the next two bytes as a signed number.
    pub fn read_i16(&mut self) -> TiffResult<i16>
        ensures read { NumberRead w16 (cast_signed w16) result self.old self.new }
        ensures asked { ReadsOnly (AreReadable self.old.contents self.old.offset 2) result }
    {
        Ok(self.read_u16()?.cast_signed())
    }

    /// Reads the next four bytes as a number.
    pub fn read_u32(&mut self) -> TiffResult<u32>
        ensures read { NumberRead w32 (λ n. n) result self.old self.new }
        ensures asked { ReadsOnly (AreReadable self.old.contents self.old.offset 4) result }
    {
        let n = read_u32_at(&mut self.source, self.offset, self.byte_order)?;
        self.offset += 4;
        Ok(n)
    }

    /// Reads the next four bytes as a signed number.
    pub fn read_i32(&mut self) -> TiffResult<i32>
        ensures read { NumberRead w32 (cast_signed w32) result self.old self.new }
        ensures asked { ReadsOnly (AreReadable self.old.contents self.old.offset 4) result }
    {
        Ok(self.read_u32()?.cast_signed())
    }

    /// Reads the next eight bytes as a number.
    pub fn read_u64(&mut self) -> TiffResult<u64>
        ensures read { NumberRead w64 (λ n. n) result self.old self.new }
        ensures asked { ReadsOnly (AreReadable self.old.contents self.old.offset 8) result }
    {
        let n = read_u64_at(&mut self.source, self.offset, self.byte_order)?;
        self.offset += 8;
        Ok(n)
    }

    /// Reads the next eight bytes as a signed number.
    pub fn read_i64(&mut self) -> TiffResult<i64>
        ensures read { NumberRead w64 (cast_signed w64) result self.old self.new }
        ensures asked { ReadsOnly (AreReadable self.old.contents self.old.offset 8) result }
    {
        Ok(self.read_u64()?.cast_signed())
    }

    /// Reads the next four bytes as a floating-point number.
    pub fn read_f32(&mut self) -> TiffResult<Bits32>
        ensures read { NumberRead w32 of_bits_32 result self.old self.new }
        ensures asked { ReadsOnly (AreReadable self.old.contents self.old.offset 4) result }
    {
        Ok(Bits32(self.read_u32()?))
    }

    /// Reads the next eight bytes as a floating-point number.
    pub fn read_f64(&mut self) -> TiffResult<Bits64>
        ensures read { NumberRead w64 of_bits_64 result self.old self.new }
        ensures asked { ReadsOnly (AreReadable self.old.contents self.old.offset 8) result }
    {
        Ok(Bits64(self.read_u64()?))
    }
}

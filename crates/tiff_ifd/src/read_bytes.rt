//! Reads the bytes of fields.

ghost use Rattle.std.specs.Prelude.{◌≡◌, ◌≤◌, ◌<◌, ◌+◌, ◌^◌, IfOk, length, take, drop};
ghost use Rattle.std.specs.Int.{byte_len};
ghost use Rattle.std.specs.Option.{SomeIff};
ghost use Rattle.tiff_base.specs.Answers.{AnswersWithoutMemory, ReadsOnly, IsKept};
ghost use Rattle.tiff_base.specs.Sparing.{AnswersOrNoMemory};
ghost use Rattle.tiff_base.specs.Number.{number};
ghost use Rattle.tiff_base.specs.Directory.{offset_width};
ghost use Rattle.tiff_base.specs.FieldBytes.{field_len};
ghost use Rattle.tiff_ifd.specs.Stretches.{FieldPartReadable, FieldReadable};
ghost use Rattle.tiff_ifd.specs.TagQueries.{buffer_of, part_from, part_of_field};

use crate::field_reader::FieldReader;
use tiff_base::directory::Entry;
use tiff_base::error::{TiffError, TiffFormatError, TiffResult};
use tiff_base::io::Source;
use tiff_base::read::{read_bytes_at, read_exact_at, u32_from, u64_from};
use tiff_base::tags::{ByteOrder, FileKind};

/// The size of an offset and of the value field of an entry, in bytes.
pub fn offset_len(kind: FileKind) -> u64
    ensures { result ≡ byte_len (offset_width kind) }
{
    match kind {
        FileKind::Classic => 4,
        FileKind::Big => 8,
    }
}

// The offset in a value field.
#[tactic(auto, unfolding(tiff_base::specs::Number::number))]
pub(crate) fn offset_in(kind: FileKind, order: ByteOrder, value: [u8; 8]) -> u64
    ensures { result ≡ number order (offset_width kind) value }
{
    match kind {
        FileKind::Classic => {
            u64::from(u32_from(order, [value[0], value[1], value[2], value[3]]))
        }
        FileKind::Big => u64_from(order, value),
    }
}

// The number of bytes of a field, if it is below 2^64.
pub(crate) fn len_of(entry: &Entry) -> Option<u64>
    ensures { SomeIff result (field_len entry.now < 2 ^ 64) (field_len entry.now) }
{
    entry
        .count()
        .checked_mul(u64::from(entry.field_type().byte_len()))
}

impl FieldReader<'_> {
    /// Reads the bytes of a field, in the file's byte order. Returns `LimitsExceeded` for 2^64
    /// bytes or more, and for more bytes than `decoding_buffer_size`. Returns
    /// `IoError(UnexpectedEof)` for bytes past the end of the source. Allocates memory only after
    /// these checks.
    #[tactic(auto, unfolding(crate::specs::TagQueries::buffer_of, tiff_base::specs::FieldBytes::field_bytes))]
    pub fn read_field_bytes<R: Source>(&self, source: &mut R, entry: &Entry) -> TiffResult<Vec<u8>>
        ensures kept { IsKept R.contents R.failures result source.old source.new }
        ensures answer { AnswersOrNoMemory
            (λ v. record {
              order = self.now.order;
              data_type = entry.now.field_type;
              bytes = v.items;
            }) result
            (buffer_of self.now.kind self.now.order (R.contents source.old).bytes self.now.limits.now
            entry.now) (R.failures source.old) (R.failures source.new) }
        ensures asked { ReadsOnly
            (FieldReadable (R.contents source.old) self.now.kind self.now.order entry.now) result }
    {
        let Some(len) = len_of(entry) else {
            return Err(TiffError::LimitsExceeded);
        };
        if len > self.limits.decoding_buffer_size as u64 {
            return Err(TiffError::LimitsExceeded);
        }
        let value = entry.value();
        if len <= offset_len(self.kind) {
            let mut bytes = vec![in self.alloc; 0u8; len as usize]?;
            bytes.copy_from_slice(&value[..len as usize]);
            return Ok(bytes);
        }
        read_bytes_at(
            self.alloc,
            source,
            offset_in(self.kind, self.order, value),
            len as usize,
        )
    }

    // Fills the buffer with the bytes of a field from the byte `at` on. Returns the errors of
    // `read_part`, but the buffer ends within the field.
    pub(crate) fn fill_part<R: Source>(
        &self,
        source: &mut R,
        entry: &Entry,
        at: u64,
        buf: &mut [u8],
    ) -> TiffResult<()>
        requires len { field_len entry.now < 2 ^ 64 }
        requires part { at + length buf.old ≤ field_len entry.now }
        ensures kept { IsKept R.contents R.failures result source.old source.new }
        ensures answer { AnswersWithoutMemory (λ _. buf.new) result
            (part_from self.now.kind self.now.order (R.contents source.old).bytes entry.now
            (length buf.old) at) (R.failures source.old) (R.failures source.new) }
        ensures asked { ReadsOnly
            (FieldPartReadable (R.contents source.old) self.now.kind self.now.order entry.now at
            (length buf.old)) result }
    {
        let len = entry.count() * u64::from(entry.field_type().byte_len());
        let value = entry.value();
        if len <= offset_len(self.kind) {
            let first = at as usize;
            buf.copy_from_slice(&value[first..first + buf.len()]);
            return Ok(());
        }
        let Some(offset) = offset_in(self.kind, self.order, value).checked_add(at) else {
            return Err(TiffError::FormatError(TiffFormatError::InconsistentSizesEncountered));
        };
        read_exact_at(source, offset, buf)
    }

    /// Copies the bytes of a field from the byte `at` on, as many as fit, and returns their number.
    /// Returns 0 where `at` is not below the number of bytes of the field. Returns `LimitsExceeded`
    /// for a field of 2^64 bytes or more, `InconsistentSizesEncountered` for an offset of 2^64 or
    /// more, and `IoError(UnexpectedEof)` where it copies bytes past the end of the source.
    #[tactic(auto, using(crate::proofs::Parts::part_of_readable))]
    pub fn read_part<R: Source>(
        &self,
        source: &mut R,
        entry: &Entry,
        at: u64,
        buf: &mut [u8],
    ) -> TiffResult<usize>
        ensures kept { IsKept R.contents R.failures result source.old source.new }
        ensures answer { AnswersWithoutMemory (λ n. take n buf.new) result
            (part_of_field self.now.kind self.now.order (R.contents source.old).bytes entry.now
            (length buf.old) at) (R.failures source.old) (R.failures source.new) }
        ensures asked { ReadsOnly
            (FieldReadable (R.contents source.old) self.now.kind self.now.order entry.now) result }
        ensures rest { IfOk result (λ n. (n ≤ length buf.old) × (drop n buf.new ≡ drop n buf.old)) }
    {
        let Some(len) = len_of(entry) else {
            return Err(TiffError::LimitsExceeded);
        };
        if len <= at {
            return Ok(0);
        }
        let n = (buf.len() as u64).min(len - at) as usize;
        self.fill_part(source, entry, at, &mut buf[..n])?;
        Ok(n)
    }
}

//! Several chunks of a page in one slice, one behind the other.

ghost use Rattle.std.specs.Prelude.{◌≡◌, ◌-◌, OnOk};
ghost use Rattle.tiff_base.specs.Answers.{Answers, IsKept};
ghost use Rattle.tiff_ffi.specs.Calls as calls;

use tiff_base::error::{TiffResult, UsageError};

// What reads the chunks of a page from a source, each by its number.
pub(crate) trait ReadsChunks {
    ghost use Rattle.std.specs.Prelude.{ℕ};
    ghost use Rattle.tiff_base.specs.SourceAndSink.{SourceRecord};
    ghost use Rattle.tiff_ffi.specs.Calls.{ChunkReading};

    // How many bytes a chunk has, and a slice after a chunk was read into it.
    ghost reading: { Self → ChunkReading };

    // The source, and the number of its reads that failed so far.
    ghost contents: { Self → SourceRecord };

    ghost failures: { Self → ℕ };

    // Returns how many bytes a chunk has.
    fn len_of(&mut self, chunk: u32) -> TiffResult<usize>
        ensures kept { IsKept contents failures result self.old self.new }
        ensures answer { Answers (λ len. len) result ((reading self.old).len_of chunk)
            (failures self.old) (failures self.new) }
        ensures stays { OnOk result (reading self.new ≡ reading self.old) };

    // Reads a chunk into a slice.
    fn read(&mut self, chunk: u32, buffer: &mut [u8]) -> TiffResult<()>
        ensures kept { IsKept contents failures result self.old self.new }
        ensures answer { Answers (λ _. buffer.new) result ((reading self.old).read chunk buffer.old)
            (failures self.old) (failures self.new) }
        ensures stays { OnOk result (reading self.new ≡ reading self.old) };
}

// Reads the chunks from the number `first` up to `end`, without `end`, into a slice.
fn chunks_between<R: ReadsChunks>(
    chunks: &mut R,
    first: u32,
    end: u32,
    buffer: &mut [u8],
) -> TiffResult<()>
    ensures kept { IsKept R.contents R.failures result chunks.old chunks.new }
    ensures answer { Answers (λ _. buffer.new) result
        (calls.chunks_in (R.reading chunks.old) (end - first) first buffer.old)
        (R.failures chunks.old) (R.failures chunks.new) }
{
    let mut at = 0;
    for chunk in first..end {
        let len = chunks.len_of(chunk)?;
        let provided = buffer.len() - at;
        if provided < len {
            return Err(UsageError::InsufficientOutputBufferSize {
                needed: len,
                provided,
            }
            .into());
        }
        chunks.read(chunk, &mut buffer[at..at + len])?;
        at += len;
    }
    Ok(())
}

// Reads `count` chunks from the number `first` on into a slice. The first error: `first` plus
// `count` of 2^32 or more, `InvalidChunkIndex`; and then, chunk by chunk, of its length; of a slice
// that has no room left for it, `InsufficientOutputBufferSize`; of reading it.
#[tactic(auto, using(crate::proofs::Ranges::are_counted))]
pub(crate) fn chunks_from<R: ReadsChunks>(
    chunks: &mut R,
    first: u32,
    count: u32,
    buffer: &mut [u8],
) -> TiffResult<()>
    ensures kept { IsKept R.contents R.failures result chunks.old chunks.new }
    ensures answer { Answers (λ _. buffer.new) result
        (calls.chunks_from (R.reading chunks.old) first count buffer.old) (R.failures chunks.old)
        (R.failures chunks.new) }
{
    match first.checked_add(count) {
        Some(end) => chunks_between(chunks, first, end, buffer),
        None => Err(UsageError::InvalidChunkIndex(u32::MAX).into()),
    }
}

//! Ends directories and images.

ghost use Rattle.std.specs.Prelude.{◌≡◌, ℕ, ◌+◌, ◌<◌, ◌≤◌, length, IfOk, MatchResult, if◌then◌else◌, None, Some, false, ◌++◌, OnOk, ◌^◌, map, Ok};
ghost use Rattle.tiff_encode.specs.Causes.{end_of, finish_cause, is_past, is_past_count};
ghost use Rattle.tiff_encode.specs.Ends.{Ends};
ghost use Rattle.tiff_encode.specs.Placing.{Lists, LinksFrom};
ghost use Rattle.tiff_value.specs.FileBytes.{offset_len, count_len, directory_bytes, entry_bytes};
ghost use Rattle.std.specs.List.{list_any, flat_map};
ghost use Rattle.std.specs.Io.{StartsWith};
ghost use Rattle.tiff_base.specs.Number.{le};
ghost use Rattle.tiff_base.specs.Types.{type_size};
ghost use Rattle.tiff_value.specs.Data.{data_of};
ghost use Rattle.tiff_encode.specs.LastTags.{bits_tags, list_tags, list_tags_of, number_of_part, samples_tags};
ghost use Rattle.tiff_encode.specs.Tagging.{fields_of, write_fields};
ghost use Rattle.tiff_value.specs.Fields.{offset_values};
ghost use Rattle.std.specs.FinMap as map;
ghost use Rattle.tiff_encode.specs.Calls as calls;

use crate::encoder::TiffEncoder;
use crate::encoder::directory::state::DirectoryState;
use crate::encoder::image::color::ImageColor;
use crate::encoder::image::state::{Chunk, ImageState};
use crate::encoder::kind::{DirectoryOffset, TiffKind, is_past_offset, offset_size};
use std::alloc::{AllocError, Global};
use std::marker::PhantomData;
use tiff_base::color::ChunkType;
use tiff_base::directory::{Directory, Entry};
use tiff_base::error::{TiffError, TiffResult, UsageError};
use tiff_base::io::Sink;
use tiff_base::tags::{FileKind, Tag, Type};
use tiff_value::encoder::horizontal_predictor::Sample;
use tiff_value::encoder::tiff_value::TiffValue;

// ---- directories

// Returns the number of bytes of the number of entries of a directory.
fn count_bytes(kind: FileKind) -> usize
    ensures { result ≡ count_len kind }
{
    match kind {
        FileKind::Classic => 2,
        FileKind::Big => 8,
    }
}

// Appends the bytes of an entry.
#[tactic(auto, using(tiff_value::specs::lemmas::File::Listing::le_offset))]
fn push_entry(out: &mut Vec<u8>, kind: FileKind, tag: u16, entry: &Entry) -> Result<(), AllocError>
    ensures { OnOk result (out.new.items ≡ out.old.items ++ entry_bytes kind (tag, entry.now)) }
{
    let width = offset_size(kind) as usize;
    out.extend_from_slice(&tag.to_le_bytes())?;
    out.extend_from_slice(&entry.field_type().to_u16().to_le_bytes())?;
    out.extend_from_slice(&entry.count().to_le_bytes()[..width])?;
    out.extend_from_slice(&entry.value()[..width])?;
    Ok(())
}

/// Returns the bytes of a directory with link 0 in a file of a kind: the number of entries, the
/// entries in ascending order of tag numbers, the link.
#[tactic(auto, unfolding(tiff_value::specs::FileBytes::directory_bytes), using(tiff_value::specs::lemmas::File::Listing::le_count, tiff_value::specs::lemmas::File::Listing::le_zero))]
pub fn directory_bytes(
    alloc: Global,
    kind: FileKind,
    directory: &Directory,
) -> Result<Vec<u8>, AllocError>
    ensures { IfOk result (λ v. v.items ≡ directory_bytes kind directory.now.entries) }
{
    let mut out = Vec::new(alloc);
    let count = directory.len() as u64;
    out.extend_from_slice(&count.to_le_bytes()[..count_bytes(kind)])?;
    for (tag, entry) in directory.iter() {
        push_entry(&mut out, kind, tag.to_u16(), entry)?;
    }
    out.extend_from_slice(&0u64.to_le_bytes()[..offset_size(kind) as usize])?;
    Ok(out)
}

// Returns whether a field has more values than a file of a kind can count.
fn has_far_count(kind: FileKind, directory: &Directory) -> bool
    ensures { result ≡ list_any (λ entry. is_past kind entry.1.count)
        (map.entries directory.now.entries) }
{
    for (_, entry) in directory.iter() {
        if is_past_offset(kind, entry.count()) {
            return true;
        }
    }
    false
}

// Returns whether there are more entries than a directory of a kind of file can count.
fn is_past_entries(kind: FileKind, count: usize) -> bool
    ensures { result ≡ is_past_count kind count }
{
    match kind {
        FileKind::Classic => count > usize::from(u16::MAX),
        FileKind::Big => false,
    }
}

impl<W: Sink, K: TiffKind> TiffEncoder<W, K> {
    // Appends a directory with link 0, and returns the offset of that link.
    fn append_listed(&mut self, fields: &DirectoryState) -> TiffResult<u64>
        requires { self.old.fault ≡ None }
        ensures listed { Lists fields.now self.old self.new result }
        ensures last { IfOk result (λ link. link + offset_len K.kind ≤ end_of self.new) }
    {
        fields.directory.entries_fit();
        let kind = K::file_kind();
        let Ok(bytes) = directory_bytes(self.alloc, kind, &fields.directory) else {
            return Err(TiffError::OutOfMemory);
        };
        self.append(&bytes)?;
        Ok(self.writer.offset() - offset_size(kind))
    }

    // Points the parent's link to a directory. It does nothing if there is no parent.
    fn link_from(&mut self, parent: Option<u64>, directory: u64) -> TiffResult<()>
        requires fresh { self.old.fault ≡ None }
        requires within { (offset : ℕ) → parent ≡ Some offset
            → offset + offset_len K.kind ≤ length self.old.bytes }
        requires near { is_past K.kind directory ≡ false }
        ensures { LinksFrom parent directory self.old self.new result }
    {
        let Some(offset) = parent else {
            return Ok(());
        };
        self.link(offset, directory)
    }

    // Returns the end of the file, where the directory is appended, or the first error of `finish`
    // that applies.
    #[tactic(auto, unfolding(crate::specs::Causes::finish_cause))]
    fn end_offset(&self, fields: &DirectoryState) -> TiffResult<u64>
        ensures { MatchResult result
            (λ end. (self.now.fault ≡ None) × (end ≡ end_of self.now)
            × (finish_cause self.now fields.now ≡ None))
            (λ e. finish_cause self.now fields.now ≡ Some e) }
    {
        let end = self.end()?;
        let kind = self.file_kind();
        if is_past_entries(kind, fields.directory.len())
            || has_far_count(kind, &fields.directory)
            || is_past_offset(kind, end)
        {
            return Err(TiffError::IntSizeError);
        }
        match fields.parent {
            Some(parent) if end.saturating_sub(parent) < offset_size(kind) => {
                Err(UsageError::ParentNotWritten.into())
            }
            _ => Ok(end),
        }
    }

    // Sets the last link of the IFD chain to the directory's own link, if the directory is in the
    // chain.
    fn chain_with(&mut self, chained: bool, link: u64)
        requires { link + offset_len K.kind ≤ length self.old.bytes }
        ensures { self.new ≡ (if chained then record self.old { chain = link } else self.old) }
    {
        if chained {
            self.chain = link;
        }
    }

    // `finish_with_offsets`
    pub(crate) fn finish_directory(
        &mut self,
        fields: &DirectoryState,
    ) -> TiffResult<DirectoryOffset<K>>
        ensures { Ends (λ d. d) (calls.finish fields.now self.old) result self.old self.new }
    {
        self.fact_kind();
        let end = self.end_offset(fields)?;
        let link = self.append_listed(fields)?;
        // Last, so that what is linked is whole, also where the sink fails on the way.
        self.link_from(fields.parent, end)?;
        self.chain_with(fields.chained, link);
        Ok(DirectoryOffset::at(end, link))
    }
}

// ---- the lists of chunks

/// A number of a chunk: its offset, or its number of bytes in the file.
#[derive(Clone, Copy, Drop)]
pub enum ChunkListKind {
    OffsetList,
    ByteCountList,
}

impl ChunkListKind {
    // Returns this number of a chunk.
    fn of(self, chunk: &Chunk) -> u64
        ensures { result ≡ number_of_part self chunk.now }
    {
        match self {
            ChunkListKind::OffsetList => chunk.offset,
            ChunkListKind::ByteCountList => chunk.stored,
        }
    }
}

/// One number of each chunk, as offsets of the kind of file.
#[derive(Drop)]
pub(crate) struct ChunkNumbers<'a, K: TiffKind> {
    chunks: &'a [Chunk],
    part: ChunkListKind,
    kind: PhantomData<K>,
}

impl<'a, K: TiffKind> TiffValue for ChunkNumbers<'a, K> {
    ghost use Rattle.std.specs.Prelude.{length, map, Ok};
    ghost use Rattle.tiff_value.specs.Data.{data_of};
    ghost use Rattle.tiff_encode.specs.LastTags.{number_of_part, offset_type, offsets_value};
    ghost use Rattle.tiff_value.specs.Fields.{offset_values};

    ghost value_type = { offset_type K.kind };

    ghost value_count = { λ p. length (map (number_of_part p.part) p.chunks.now) };

    ghost field_data = { λ p. Ok (data_of (offset_values K.kind (map (number_of_part p.part) p.chunks.now))) };

    const BYTE_LEN: u8 = K::OffsetType::BYTE_LEN;

    const FIELD_TYPE: Type = K::OffsetType::FIELD_TYPE;

    fn type_and_len() -> (Type, u8)
        ensures kind { result.0 ≡ offset_type K.kind }
        ensures len { result.1 ≡ type_size (offset_type K.kind) }
    {
        match K::file_kind() {
            FileKind::Classic => (Type::LONG, 4),
            FileKind::Big => (Type::LONG8, 8),
        }
    }

    fn count(&self) -> usize {
        self.chunks.len()
    }

    fn check(&self) -> TiffResult<()> {
        Ok(())
    }

    fn push_to(&self, out: &mut Vec<u8>) -> TiffResult<()> {
        push_offsets(K::file_kind(), self.chunks, self.part, out)
    }

    ghost sized = { λ p. offsets_value K.kind (map (number_of_part p.part) p.chunks.now) };
}

// Appends one number of each chunk, each with as many bytes as an offset in this kind of file.
fn push_offsets(
    kind: FileKind,
    chunks: &[Chunk],
    part: ChunkListKind,
    out: &mut Vec<u8>,
) -> TiffResult<()>
    ensures answer { MatchResult result (λ _. out.new.items ≡ out.old.items ++ flat_map (le (offset_len kind))
        (map (number_of_part part) chunks.now)) (λ e. e ≡ TiffError.OutOfMemory) }
    ensures front { StartsWith out.new.items out.old.items }
{
    for chunk in chunks {
        push_offset(kind, part.of(chunk), out)?;
    }
    Ok(())
}

// Appends a number with as many bytes as an offset in this kind of file.
fn push_offset(kind: FileKind, n: u64, out: &mut Vec<u8>) -> TiffResult<()>
    ensures answer { MatchResult result (λ _. out.new.items ≡ out.old.items ++ le (offset_len kind) n)
        (λ e. e ≡ TiffError.OutOfMemory) }
    ensures front { StartsWith out.new.items out.old.items }
{
    let bytes = n.to_le_bytes();
    match kind {
        FileKind::Classic => out.extend_from_slice(&bytes[..4])?,
        FileKind::Big => out.extend_from_slice(&bytes)?,
    }
    Ok(())
}

// Returns the tags of the offsets and of the byte counts of the chunks.
fn tags_of(chunk_type: ChunkType) -> (Tag, Tag)
    ensures { result ≡ list_tags_of chunk_type }
{
    match chunk_type {
        ChunkType::Strip => (Tag::StripOffsets, Tag::StripByteCounts),
        ChunkType::Tile => (Tag::TileOffsets, Tag::TileByteCounts),
    }
}

// ---- the last tags

impl<W: Sink, K: TiffKind> TiffEncoder<W, K> {
    // Sets the number of bits of each sample, and the number of samples if some are extra samples.
    fn set_bits(
        &mut self,
        fields: &mut DirectoryState,
        color: &ImageColor,
        extra: usize,
    ) -> TiffResult<()>
        requires { length color.now.bits + extra < 2 ^ 16 }
        ensures { Ends (λ _. fields.new)
            (write_fields fields.old (fields_of (bits_tags color.now.bits extra)) self.old) result
            self.old self.new }
    {
        self.set_tag(fields, Tag::BitsPerSample, &color.bits_with(extra))?;
        if extra == 0 {
            return Ok(());
        }
        let samples = color.samples() + extra as u16;
        self.set_tag(fields, Tag::SamplesPerPixel, &samples)?;
        Ok(())
    }

    // Sets the number of bits of each sample, the number of samples if some are extra samples, and
    // the format of each sample.
    fn set_samples(
        &mut self,
        fields: &mut DirectoryState,
        color: &ImageColor,
        extra: usize,
    ) -> TiffResult<()>
        requires { length color.now.bits + extra < 2 ^ 16 }
        ensures { Ends (λ _. fields.new)
            (write_fields fields.old (fields_of (samples_tags color.now.bits color.now.formats
            extra)) self.old) result self.old self.new }
    {
        self.set_bits(fields, color, extra)?;
        self.set_tag(fields, Tag::SampleFormat, &color.formats_with(extra))?;
        Ok(())
    }

    // Sets a tag to one number of each chunk.
    fn set_offsets(
        &mut self,
        fields: &mut DirectoryState,
        tag: Tag,
        chunks: &[Chunk],
        part: ChunkListKind,
    ) -> TiffResult<()>
        ensures { Ends (λ _. fields.new) (calls.write_tag fields.old tag
            (Ok (data_of (offset_values K.kind (map (number_of_part part) chunks.now)))) self.old)
            result self.old self.new }
    {
        let offsets = ChunkNumbers::<K> {
            chunks,
            part,
            kind: PhantomData,
        };
        self.set_tag(fields, tag, &offsets)
    }

    // Sets the offsets and the byte counts of the chunks.
    fn set_lists(
        &mut self,
        fields: &mut DirectoryState,
        chunk_type: ChunkType,
        chunks: &[Chunk],
    ) -> TiffResult<()>
        ensures { Ends (λ _. fields.new)
            (write_fields fields.old (fields_of (list_tags K.kind chunk_type chunks.now)) self.old)
            result self.old self.new }
    {
        let (offsets, byte_counts) = tags_of(chunk_type);
        self.set_offsets(fields, offsets, chunks, ChunkListKind::OffsetList)?;
        self.set_offsets(fields, byte_counts, chunks, ChunkListKind::ByteCountList)?;
        Ok(())
    }

    // Writes the tags that the end of an image writes. After an error the image must not be used.
    fn set_last<T: Sample>(&mut self, image: &mut ImageState<T>) -> TiffResult<()>
        ensures { Ends (λ _. image.new.directory) (write_fields image.old.directory
            (fields_of (calls.last_tags self.old.kind image.old)) self.old) result self.old self.new }
    {
        self.fact_kind();
        let extra = image.extra.len();
        let chunk_type = image.form.chunk_type;
        self.set_samples(&mut image.directory, &image.color, extra)?;
        self.set_lists(&mut image.directory, chunk_type, &image.chunks)?;
        Ok(())
    }

    // `finish` of an image: writes its last tags, and then ends its directory. After an error the
    // image must not be used.
    pub(crate) fn finish_image<T: Sample>(
        &mut self,
        image: &mut ImageState<T>,
    ) -> TiffResult<DirectoryOffset<K>>
        ensures { Ends (λ d. d) (calls.finish_image image.old self.old) result self.old self.new }
    {
        self.set_last(image)?;
        self.finish_directory(&image.directory)
    }
}

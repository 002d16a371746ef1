//! Writes directories with any tags.

ghost use Rattle.std.specs.Prelude.{◌≡◌, ℕ, ◌^◌, ◌<◌, length, IfOk, OnErr, Ok, None, Some};
ghost use Rattle.std.specs.FinMap as map;
ghost use Rattle.tiff_encode.specs.Calls as calls;
ghost use Rattle.tiff_value.specs.WriteOps.{model_after};
ghost use Rattle.tiff_encode.specs.Ends.{Ends, EndsSilently, EndsAsDefined};
ghost use Rattle.tiff_encode.specs.Extending.{Extends};
ghost use Rattle.tiff_encode.specs.Jobs.{open_directory};
ghost use Rattle.tiff_encode.specs.Leaves.{Leaves, LeavesLinked};
ghost use Rattle.tiff_value.specs.Model.{IsLink, Model, FileContains};
ghost use Rattle.tiff_encode.specs.Rooms.{StaysUnlessCut};

use crate::encoder::TiffEncoder;
use crate::encoder::directory::state::{DirectoryState, HasDirectory};
use crate::encoder::image::state::ImageState;
use crate::encoder::kind::{DirectoryOffset, TiffKind, TiffKindStandard};
use tiff_base::directory::{Directory, Entry};
use tiff_base::error::TiffResult;
use tiff_base::io::Sink;
use tiff_base::tags::{Tag, Type};
use tiff_value::buffer::ValueBuffer;
use tiff_value::encoder::horizontal_predictor::Sample;
use tiff_value::encoder::tiff_value::TiffValue;

/// An open directory in the file of an encoder, alone or with an image. It ends by `finish`,
/// `finish_with_offsets` or `discard`: the checker rejects code that ends it in another way. After
/// a write to the sink fails, each later call that writes returns `UsageError(WriterFailed)`. If a
/// call that writes an entry or a tag is refused for another reason, the file and the open
/// directory are as they were before the call.
pub struct DirectoryEncoder<'a, W: Sink, K: TiffKind = TiffKindStandard, D = DirectoryState> {
    pub(crate) encoder: &'a mut TiffEncoder<W, K>,
    pub(crate) state: D,
}

impl<W: Sink, K: TiffKind> TiffEncoder<W, K> {
    ghost use Rattle.std.specs.Borrow.{sem};
    ghost use Rattle.tiff_encode.specs.Lending.{image_rests, extra_rests};

    // `image_directory` or `extra_directory`, without the `DirectoryEncoder` around the directory.
    pub(crate) fn begin_directory(&mut self, chained: bool) -> TiffResult<DirectoryState>
        ensures answer { Ends (λ d. d) (open_directory chained self.old) result self.old self.new }
        ensures leaves { (m : Model) → FileContains self.old.kind self.old.bytes m
            → Leaves (open_directory chained self.old) result self.old self.new m }
    {
        self.pad()?;
        Ok(DirectoryState {
            directory: Directory::empty(self.alloc),
            parent: chained.then_some(self.chain),
            chained,
        })
    }

    /// Begins a directory of the IFD chain, and appends padding up to a multiple of 4 bytes. When
    /// the directory ends, the last link of the chain points to it, and its own link becomes the
    /// last link of the chain.
    pub fn image_directory(&mut self) -> TiffResult<DirectoryEncoder<'_, W, K>>
        ensures* rests { sem 𝓛 (image_rests W.row K.row K.OffsetType.row W.Sink K.TiffKind
            K.OffsetType.OffsetNumber K.OffsetType.TiffValue self.entry result) }
        ensures same_reference { IfOk result (λ d. d.encoder.ghost_name ≡ self.entry.ghost_name) }
        ensures begun { IfOk result
            (λ d. EndsAsDefined (calls.image_directory self.entry.now) (Ok d.state) d.encoder.now) }

        // Everything that the file contained before the call is still in it. If the call fails,
        // `rests` states this.
        ensures leaves { (m : Model) → FileContains self.entry.now.kind self.entry.now.bytes m
            → IfOk result
            (λ d. FileContains self.entry.now.kind d.encoder.now.bytes
            (model_after self.entry.now.kind self.entry.now.bytes m
            (calls.image_directory self.entry.now).ops)) }
    {
        let state = self.begin_directory(true)?;
        Ok(DirectoryEncoder {
            encoder: self,
            state,
        })
    }

    /// Begins a directory outside the IFD chain, and appends padding up to a multiple of 4 bytes.
    /// No link points to the directory unless `set_parent` names one.
    pub fn extra_directory(&mut self) -> TiffResult<DirectoryEncoder<'_, W, K>>
        ensures* rests { sem 𝓛 (extra_rests W.row K.row K.OffsetType.row W.Sink K.TiffKind
            K.OffsetType.OffsetNumber K.OffsetType.TiffValue self.entry result) }
        ensures same_reference { IfOk result (λ d. d.encoder.ghost_name ≡ self.entry.ghost_name) }
        ensures begun { IfOk result
            (λ d. EndsAsDefined (calls.extra_directory self.entry.now) (Ok d.state) d.encoder.now) }

        // Everything that the file contained before the call is still in it. If the call fails,
        // `rests` states this.
        ensures leaves { (m : Model) → FileContains self.entry.now.kind self.entry.now.bytes m
            → IfOk result
            (λ d. FileContains self.entry.now.kind d.encoder.now.bytes
            (model_after self.entry.now.kind self.entry.now.bytes m
            (calls.extra_directory self.entry.now).ops)) }
    {
        let state = self.begin_directory(false)?;
        Ok(DirectoryEncoder {
            encoder: self,
            state,
        })
    }
}

// States that a buffer has fewer than 2^64 bytes.
fn fits_short(buffer: &ValueBuffer)
    ensures { length buffer.now.bytes < 2 ^ 64 }
{
    let _length = buffer.as_bytes().len();
}

impl<'a, W: Sink, K: TiffKind, D: HasDirectory> DirectoryEncoder<'a, W, K, D> {
    /// Writes a value, and returns the entry that contains its bytes or their offset. The directory
    /// doesn't change. Returns the first error that applies: `UsageError(WriterFailed)` if an
    /// earlier write to the sink failed; `FormatError(InvalidTag)` for a text that can't be
    /// written; `IntSizeError` if in a classic file the count, or the offset of a value that
    /// doesn't fit into the entry, exceeds 4 bytes. Otherwise `OutOfMemory` if an allocation fails,
    /// or the error of the sink, `IoError(Device)` or `OutOfMemory`.
    pub fn write_entry<T: TiffValue>(&mut self, value: T) -> TiffResult<Entry>
        ensures same_reference { self.new.encoder.ghost_name ≡ self.old.encoder.ghost_name }
        ensures stays { self.new.state ≡ self.old.state }
        ensures answer { Ends (λ entry. entry) (calls.write_entry (T.field_data value) self.old.encoder.now)
            result
            self.old.encoder.now self.new.encoder.now }

        // Unless a write to the sink failed, an error leaves the file as it was.
        ensures unwritten { OnErr result (StaysUnlessCut self.old.encoder.now self.new.encoder.now) }

        // Everything that the file contained before the call is still in it.
        ensures leaves { (m : Model) → FileContains self.old.encoder.now.kind self.old.encoder.now.bytes m
            → Leaves (calls.write_entry (T.field_data value) self.old.encoder.now) result
            self.old.encoder.now self.new.encoder.now m }
    {
        let entry = self.encoder.place_value(&value, true)?;
        self.encoder.fact_fits();
        Ok(entry)
    }

    /// Writes the values of a buffer, as `write_entry` does. It omits the bytes after the last
    /// whole value. Errors: those of `write_entry`, with `UsageError(ByteOrderMismatch)` for a
    /// buffer of the other byte order in place of the error for a text.
    pub fn write_entry_buf(&mut self, buffer: &ValueBuffer) -> TiffResult<Entry>
        ensures same_reference { self.new.encoder.ghost_name ≡ self.old.encoder.ghost_name }
        ensures stays { self.new.state ≡ self.old.state }
        ensures answer { Ends (λ entry. entry) (calls.write_entry_buf buffer.now self.old.encoder.now) result
            self.old.encoder.now self.new.encoder.now }

        // Unless a write to the sink failed, an error leaves the file as it was.
        ensures unwritten { OnErr result (StaysUnlessCut self.old.encoder.now self.new.encoder.now) }

        // Everything that the file contained before the call is still in it.
        ensures leaves { (m : Model) → FileContains self.old.encoder.now.kind self.old.encoder.now.bytes m
            → Leaves (calls.write_entry_buf buffer.now self.old.encoder.now) result
            self.old.encoder.now self.new.encoder.now m }
    {
        fits_short(buffer);
        let entry = self.encoder.place_buffer(buffer, true)?;
        self.encoder.fact_fits();
        Ok(entry)
    }

    /// Writes bytes as the values of a type, as `write_entry` does. Errors: those of `write_entry`,
    /// with `UsageError(MismatchedEntryLength)` for bytes that end within a value in place of the
    /// error for a text.
    pub fn write_entry_bytes(&mut self, field_type: Type, bytes: &[u8]) -> TiffResult<Entry>
        ensures same_reference { self.new.encoder.ghost_name ≡ self.old.encoder.ghost_name }
        ensures stays { self.new.state ≡ self.old.state }
        ensures answer { Ends (λ entry. entry)
            (calls.write_entry_bytes field_type bytes.now self.old.encoder.now) result
            self.old.encoder.now self.new.encoder.now }

        // Unless a write to the sink failed, an error leaves the file as it was.
        ensures unwritten { OnErr result (StaysUnlessCut self.old.encoder.now self.new.encoder.now) }

        // Everything that the file contained before the call is still in it.
        ensures leaves { (m : Model) → FileContains self.old.encoder.now.kind self.old.encoder.now.bytes m
            → Leaves (calls.write_entry_bytes field_type bytes.now self.old.encoder.now) result
            self.old.encoder.now self.new.encoder.now m }
    {
        let entry = self.encoder.place_entry_bytes(field_type, bytes, true)?;
        self.encoder.fact_fits();
        Ok(entry)
    }

    /// Writes a value as `write_entry` does, and then sets the field of a tag. It replaces an
    /// earlier field of that tag. Errors: those of `write_entry`; after an error the fields don't
    /// change.
    pub fn write_tag<T: TiffValue>(&mut self, tag: Tag, value: T) -> TiffResult<()>
        ensures same_reference { self.new.encoder.ghost_name ≡ self.old.encoder.ghost_name }
        ensures stays { OnErr result (self.new.state ≡ self.old.state) }
        ensures rest { self.new.state ≡ D.with_directory self.old.state (D.open_directory self.new.state) }
        ensures answer { Ends (λ _. D.open_directory self.new.state)
            (calls.write_tag (D.open_directory self.old.state) tag (T.field_data value)
            self.old.encoder.now) result
            self.old.encoder.now self.new.encoder.now }

        // Room for the entry is made before a byte of the value is written: unless a write to the
        // sink failed, an error leaves the file as it was.
        ensures unwritten { OnErr result (StaysUnlessCut self.old.encoder.now self.new.encoder.now) }

        // Everything that the file contained before the call is still in it.
        ensures leaves { (m : Model) → FileContains self.old.encoder.now.kind self.old.encoder.now.bytes m
            → Leaves (calls.write_tag (D.open_directory self.old.state) tag (T.field_data value)
            self.old.encoder.now) result self.old.encoder.now self.new.encoder.now m }
    {
        let room = self.state.make_room(tag);
        let placed = self.encoder.place_value(&value, room.is_made());
        self.encoder.fact_fits();
        self.state.settle(tag, room, placed)
    }

    /// Writes the values of a buffer as `write_entry_buf` does, and then sets the field of a tag.
    /// It replaces an earlier field of that tag. Errors: those of `write_entry_buf`; after an error
    /// the fields don't change.
    pub fn write_tag_buf(&mut self, tag: Tag, buffer: &ValueBuffer) -> TiffResult<()>
        ensures same_reference { self.new.encoder.ghost_name ≡ self.old.encoder.ghost_name }
        ensures stays { OnErr result (self.new.state ≡ self.old.state) }
        ensures rest { self.new.state ≡ D.with_directory self.old.state (D.open_directory self.new.state) }
        ensures answer { Ends (λ _. D.open_directory self.new.state)
            (calls.write_tag_buf (D.open_directory self.old.state) tag buffer.now
            self.old.encoder.now) result
            self.old.encoder.now self.new.encoder.now }

        // Room for the entry is made before a byte of the value is written: unless a write to the
        // sink failed, an error leaves the file as it was.
        ensures unwritten { OnErr result (StaysUnlessCut self.old.encoder.now self.new.encoder.now) }

        // Everything that the file contained before the call is still in it.
        ensures leaves { (m : Model) → FileContains self.old.encoder.now.kind self.old.encoder.now.bytes m
            → Leaves (calls.write_tag_buf (D.open_directory self.old.state) tag buffer.now
            self.old.encoder.now) result self.old.encoder.now self.new.encoder.now m }
    {
        fits_short(buffer);
        let room = self.state.make_room(tag);
        let placed = self.encoder.place_buffer(buffer, room.is_made());
        self.encoder.fact_fits();
        self.state.settle(tag, room, placed)
    }

    /// Appends all bytes of a buffer, also those after the last whole value, and returns their
    /// offset in bytes from the start of the file. Errors: those of `write_data`, with
    /// `UsageError(ByteOrderMismatch)` for a buffer of the other byte order in place of the error
    /// for a text.
    pub fn write_data_buf(&mut self, buffer: &ValueBuffer) -> TiffResult<u64>
        ensures same_reference { self.new.encoder.ghost_name ≡ self.old.encoder.ghost_name }
        ensures stays { self.new.state ≡ self.old.state }
        ensures answer { Ends (λ offset. offset) (calls.write_data_buf buffer.now self.old.encoder.now) result
            self.old.encoder.now self.new.encoder.now }

        // Everything that the file contained before the call is still in it.
        ensures leaves { (m : Model) → FileContains self.old.encoder.now.kind self.old.encoder.now.bytes m
            → Leaves (calls.write_data_buf buffer.now self.old.encoder.now) result
            self.old.encoder.now self.new.encoder.now m }
    {
        self.encoder.append_buffer(buffer)
    }

    /// Sets each field of a directory in turn. Each field replaces an earlier field of its tag. The
    /// call writes nothing, and succeeds also after a write to the sink failed. The only error is
    /// `OutOfMemory`; then the fields before the one that failed are set.
    pub fn extend_from(&mut self, directory: &Directory) -> TiffResult<()>
        ensures same_reference { self.new.encoder.ghost_name ≡ self.old.encoder.ghost_name }
        ensures stays { self.new.encoder.now ≡ self.old.encoder.now }
        ensures state { Extends (map.entries directory.now.entries) (D.open_directory self.old.state)
            (D.open_directory self.new.state) result }
        ensures rest { self.new.state ≡ D.with_directory self.old.state (D.open_directory self.new.state) }
    {
        self.state.extend_from(directory)
    }
}

impl<'a, W: Sink, K: TiffKind> DirectoryEncoder<'a, W, K, DirectoryState> {
    /// Appends the bytes of a value, and returns their offset in bytes from the start of the file.
    /// Returns the first error that applies: `UsageError(WriterFailed)` if an earlier write to the
    /// sink failed; `FormatError(InvalidTag)` for a text that can't be written. Otherwise
    /// `OutOfMemory` if an allocation fails, or the error of the sink, `IoError(Device)` or
    /// `OutOfMemory`.
    pub fn write_data<T: TiffValue>(&mut self, value: T) -> TiffResult<u64>
        ensures same_reference { self.new.encoder.ghost_name ≡ self.old.encoder.ghost_name }
        ensures stays { self.new.state ≡ self.old.state }
        ensures answer { Ends (λ offset. offset) (calls.write_data (T.field_data value) self.old.encoder.now)
            result
            self.old.encoder.now self.new.encoder.now }

        // Everything that the file contained before the call is still in it.
        ensures leaves { (m : Model) → FileContains self.old.encoder.now.kind self.old.encoder.now.bytes m
            → Leaves (calls.write_data (T.field_data value) self.old.encoder.now) result
            self.old.encoder.now self.new.encoder.now m }
    {
        self.encoder.append_value(&value)
    }

    /// Names a finished directory as the parent: its link points to this directory when this
    /// directory ends. The call writes nothing.
    #[tactic(auto, unfolding(crate::specs::Calls::set_parent))]
    pub fn set_parent(&mut self, offset: &DirectoryOffset<K>)
        ensures same_reference { self.new.encoder.ghost_name ≡ self.old.encoder.ghost_name }
        ensures stays { self.new.encoder.now ≡ self.old.encoder.now }
        ensures state { self.new.state ≡ calls.set_parent self.old.state offset.now }
    {
        self.state.set_parent(offset.link());
    }

    /// Ends the directory: appends it with link 0, and then points the parent's link to it. Returns
    /// the first error that applies: `UsageError(WriterFailed)` if an earlier write to the sink
    /// failed; `IntSizeError` if the number of entries, the count of a field or the offset of the
    /// directory exceeds what the kind of file can hold; `UsageError(ParentNotWritten)` if the
    /// parent's link isn't within the file. Otherwise `OutOfMemory` if an allocation fails, or the
    /// error of the sink, `IoError(Device)` or `OutOfMemory`.
    pub fn finish(self) -> TiffResult<()>
        ensures answer { EndsSilently (calls.finish self.entry.state self.entry.encoder.now) result
            self.entry.encoder.now self.exit.0.now }

        // Everything that the file contained before the call is still in it, except the parent's
        // link if the write of that link failed partway.
        ensures leaves { (m : Model)
            → FileContains self.entry.encoder.now.kind self.entry.encoder.now.bytes m
            → ((offset : ℕ) → self.entry.state.parent ≡ Some offset
            → IsLink self.entry.encoder.now.kind m offset)
            → LeavesLinked (calls.finish self.entry.state self.entry.encoder.now) result
            self.entry.encoder.now self.exit.0.now m }
    {
        let DirectoryEncoder { encoder, state } = self;
        encoder.fact_fits();
        state.fact_fits();
        encoder.finish_directory(&state)?;
        Ok(())
    }

    /// Ends the directory as `finish` does, and returns its offset and the offset of its link.
    /// Errors: those of `finish`.
    pub fn finish_with_offsets(self) -> TiffResult<DirectoryOffset<K>>
        ensures answer { Ends (λ offsets. offsets) (calls.finish self.entry.state self.entry.encoder.now)
            result
            self.entry.encoder.now self.exit.0.now }

        // Everything that the file contained before the call is still in it, except the parent's
        // link if the write of that link failed partway.
        ensures leaves { (m : Model)
            → FileContains self.entry.encoder.now.kind self.entry.encoder.now.bytes m
            → ((offset : ℕ) → self.entry.state.parent ≡ Some offset
            → IsLink self.entry.encoder.now.kind m offset)
            → LeavesLinked (calls.finish self.entry.state self.entry.encoder.now) result
            self.entry.encoder.now self.exit.0.now m }
    {
        let DirectoryEncoder { encoder, state } = self;
        encoder.fact_fits();
        state.fact_fits();
        encoder.finish_directory(&state)
    }

    /// Ends the directory as `finish` does. It writes the directory, as the Rust crate does when it
    /// drops one. Errors: those of `finish`.
    pub fn discard(self) -> TiffResult<()>
        ensures answer { EndsSilently (calls.finish self.entry.state self.entry.encoder.now) result
            self.entry.encoder.now self.exit.0.now }

        // Everything that the file contained before the call is still in it, except the parent's
        // link if the write of that link failed partway.
        ensures leaves { (m : Model)
            → FileContains self.entry.encoder.now.kind self.entry.encoder.now.bytes m
            → ((offset : ℕ) → self.entry.state.parent ≡ Some offset
            → IsLink self.entry.encoder.now.kind m offset)
            → LeavesLinked (calls.finish self.entry.state self.entry.encoder.now) result
            self.entry.encoder.now self.exit.0.now m }
    {
        self.finish()
    }
}

impl<'a, W: Sink, K: TiffKind, T: Sample> DirectoryEncoder<'a, W, K, ImageState<T>> {
    /// Names a finished directory as the parent: when the image ends, the link of that directory
    /// points to the directory of this image, and the last link of the IFD chain doesn't. The call
    /// writes nothing.
    #[tactic(auto, unfolding(crate::specs::Calls::set_parent))]
    pub fn set_parent(&mut self, offset: &DirectoryOffset<K>)
        ensures same_reference { self.new.encoder.ghost_name ≡ self.old.encoder.ghost_name }
        ensures stays { self.new.encoder.now ≡ self.old.encoder.now }
        ensures state { self.new.state ≡ calls.with_directory_of self.old.state
            (calls.set_parent self.old.state.directory offset.now) }
    {
        self.state.directory.set_parent(offset.link());
    }

    /// Appends the bytes of a value and returns their offset, as `write_data` of a directory does.
    /// `write_data` of an image writes samples. Errors: those of `write_data` of a directory.
    pub fn append_data<V: TiffValue>(&mut self, value: V) -> TiffResult<u64>
        ensures same_reference { self.new.encoder.ghost_name ≡ self.old.encoder.ghost_name }
        ensures stays { self.new.state ≡ self.old.state }
        ensures answer { Ends (λ offset. offset) (calls.write_data (V.field_data value) self.old.encoder.now)
            result
            self.old.encoder.now self.new.encoder.now }

        // Everything that the file contained before the call is still in it.
        ensures leaves { (m : Model) → FileContains self.old.encoder.now.kind self.old.encoder.now.bytes m
            → Leaves (calls.write_data (V.field_data value) self.old.encoder.now) result
            self.old.encoder.now self.new.encoder.now m }
    {
        self.encoder.append_value(&value)
    }
}

//! Writes the values of jobs.

ghost use Rattle.tiff_encode.specs.Calls as calls;
ghost use Rattle.tiff_encode.specs.Ends.{Ends};
ghost use Rattle.tiff_encode.specs.GivenValues.{entry_of};
ghost use Rattle.tiff_encode.specs.JobValues.{buffer_in, given_in, value_data};
ghost use Rattle.tiff_encode.specs.Leaves.{Leaves};
ghost use Rattle.tiff_value.specs.Model.{Model, FileContains};
ghost use Rattle.tiff_encode.specs.Rooms.{IsInRoom};

use crate::encoder::TiffEncoder;
use crate::encoder::kind::TiffKind;
use crate::encoder::script::{JobBuffer, JobField, JobValue};
use std::alloc::Global;
use tiff_base::directory::Entry;
use tiff_base::error::TiffResult;
use tiff_base::io::Sink;
use tiff_value::encoder::tiff_value::{Slice, Text, TiffScalar, TiffValue};

// Passes a value of any type to a state, which returns an `A`.
trait ValueVisitor<E, A> {
    ghost use Rattle.std.specs.Prelude.{Result, Ok, string_bytes};
    ghost use Rattle.tiff_base.specs.declared.error.TiffError.{TiffError};
    ghost use Rattle.tiff_value.specs.Data.{FieldData, data_of, text_data};

    // The relation between a value (or the reason why it can't be written), the state before the
    // call, its result, and the state after it.
    ghost hands: { Result FieldData TiffError → E → Result A TiffError → E → Type 0 };

    // Passes several values of one type.
    fn list<T: TiffScalar>(state: &mut E, values: &Vec<T>) -> TiffResult<A>
        ensures { hands (Ok (data_of (T.scalars values.now.items))) state.old result state.new };

    // Passes a text.
    fn text(state: &mut E, text: &String) -> TiffResult<A>
        ensures { hands (text_data (string_bytes text.now)) state.old result state.new };
}

// Passes a value of a job to a state.
fn hand_in<E, A, H: ValueVisitor<E, A>>(state: &mut E, value: &JobValue) -> TiffResult<A>
    ensures { H.hands (value_data value.now) state.old result state.new }
{
    match value {
        JobValue::U8(list) => H::list(state, list),
        JobValue::I8(list) => H::list(state, list),
        JobValue::U16(list) => H::list(state, list),
        JobValue::I16(list) => H::list(state, list),
        JobValue::U32(list) => H::list(state, list),
        JobValue::I32(list) => H::list(state, list),
        JobValue::U64(list) => H::list(state, list),
        JobValue::I64(list) => H::list(state, list),
        JobValue::Bits32(list) => H::list(state, list),
        JobValue::Bits64(list) => H::list(state, list),
        JobValue::CompressionMethod(list) => H::list(state, list),
        JobValue::PhotometricInterpretation(list) => H::list(state, list),
        JobValue::PlanarConfiguration(list) => H::list(state, list),
        JobValue::Predictor(list) => H::list(state, list),
        JobValue::ResolutionUnit(list) => H::list(state, list),
        JobValue::SampleFormat(list) => H::list(state, list),
        JobValue::ExtraSamples(list) => H::list(state, list),
        JobValue::Ifd(list) => H::list(state, list),
        JobValue::Ifd8(list) => H::list(state, list),
        JobValue::Rational(list) => H::list(state, list),
        JobValue::SRational(list) => H::list(state, list),
        JobValue::Text(text) => H::text(state, text),
    }
}

// Passes a value to `write_entry`, for a directory that has room for the entry, or hasn't.
pub(crate) struct ForField<const ROOM: bool>;

impl<W: Sink, K: TiffKind, const ROOM: bool> ValueVisitor<TiffEncoder<W, K>, Entry>
    for ForField<ROOM> {
    ghost use Rattle.tiff_base.specs.Field.{Field};
    ghost use Rattle.tiff_encode.specs.Calls as calls;
    ghost use Rattle.tiff_encode.specs.Ends.{Ends};
    ghost use Rattle.tiff_encode.specs.GivenValues.{entry_of};
    ghost use Rattle.tiff_encode.specs.Leaves.{Leaves};
    ghost use Rattle.tiff_value.specs.Model.{Model, FileContains};
    ghost use Rattle.tiff_encode.specs.Rooms.{IsInRoom};

    ghost hands = { λ given old result new.
        Ends (λ (e : Field). e) (calls.write_entry given old) result old new
        × ((m : Model) → FileContains old.kind old.bytes m
        → Leaves (calls.write_entry given old) result old new m)
        × IsInRoom ROOM old new result };

    fn list<T: TiffScalar>(state: &mut TiffEncoder<W, K>, values: &Vec<T>) -> TiffResult<Entry> {
        state.place_given(&Slice(values), ROOM)
    }

    fn text(state: &mut TiffEncoder<W, K>, text: &String) -> TiffResult<Entry> {
        state.place_given(&Text(text), ROOM)
    }
}

// Passes a value to `write_data`.
pub(crate) struct ForData;

impl<W: Sink, K: TiffKind> ValueVisitor<TiffEncoder<W, K>, u64> for ForData {
    ghost use Rattle.std.specs.Prelude.{ℕ};
    ghost use Rattle.tiff_encode.specs.Calls as calls;
    ghost use Rattle.tiff_encode.specs.Ends.{Ends};
    ghost use Rattle.tiff_encode.specs.GivenValues.{entry_of};
    ghost use Rattle.tiff_encode.specs.Leaves.{Leaves};
    ghost use Rattle.tiff_value.specs.Model.{Model, FileContains};

    ghost hands = { λ given old result new. Ends (λ (n : ℕ). n) (calls.write_data given old) result old new
        × ((m : Model) → FileContains old.kind old.bytes m
        → Leaves (calls.write_data given old) result old new m) };

    fn list<T: TiffScalar>(state: &mut TiffEncoder<W, K>, values: &Vec<T>) -> TiffResult<u64> {
        state.append_given(&Slice(values))
    }

    fn text(state: &mut TiffEncoder<W, K>, text: &String) -> TiffResult<u64> {
        state.append_given(&Text(text))
    }
}

impl<W: Sink, K: TiffKind> TiffEncoder<W, K> {
    /// Returns the allocator of the encoder.
    pub(crate) fn alloc(&self) -> Global {
        self.alloc
    }

    // `write_entry` of a value. Everything that the file contained before the call is still in it.
    fn place_given<T: TiffValue>(&mut self, value: &T, has_room: bool) -> TiffResult<Entry>
        ensures answer { Ends (λ e. e) (calls.write_entry (T.field_data value.now) self.old) result self.old
            self.new }
        ensures room { IsInRoom has_room self.old self.new result }
        ensures leaves { (m : Model) → FileContains self.old.kind self.old.bytes m
            → Leaves (calls.write_entry (T.field_data value.now) self.old) result self.old self.new
            m }
    {
        let entry = self.place_value(value, has_room)?;
        self.fact_fits();
        Ok(entry)
    }

    // `write_data` of a value. Everything that the file contained before the call is still in it.
    fn append_given<T: TiffValue>(&mut self, value: &T) -> TiffResult<u64>
        ensures answer { Ends (λ n. n) (calls.write_data (T.field_data value.now) self.old) result self.old
            self.new }
        ensures leaves { (m : Model) → FileContains self.old.kind self.old.bytes m
            → Leaves (calls.write_data (T.field_data value.now) self.old) result self.old self.new m }
    {
        self.append_value(value)
    }

    /// `write_entry` of a value of a job.
    pub(crate) fn place_job_value(&mut self, value: &JobValue, has_room: bool) -> TiffResult<Entry>
        ensures answer { Ends (λ e. e) (calls.write_entry (value_data value.now) self.old) result self.old
            self.new }
        ensures room { IsInRoom has_room self.old self.new result }
        ensures leaves { (m : Model) → FileContains self.old.kind self.old.bytes m
            → Leaves (calls.write_entry (value_data value.now) self.old) result self.old self.new m }
    {
        if has_room {
            hand_in::<_, _, ForField<true>>(self, value)
        } else {
            hand_in::<_, _, ForField<false>>(self, value)
        }
    }

    /// `write_data` of a value of a job.
    pub(crate) fn append_job_value(&mut self, value: &JobValue) -> TiffResult<u64>
        ensures answer { Ends (λ n. n) (calls.write_data (value_data value.now) self.old) result self.old
            self.new }
        ensures leaves { (m : Model) → FileContains self.old.kind self.old.bytes m
            → Leaves (calls.write_data (value_data value.now) self.old) result self.old self.new m }
    {
        hand_in::<_, _, ForData>(self, value)
    }

    /// `write_entry_buf` of a buffer of a job.
    pub(crate) fn place_job_buffer(
        &mut self,
        buffer: &JobBuffer,
        has_room: bool,
    ) -> TiffResult<Entry>
        ensures answer { Ends (λ e. e) (calls.write_entry_buf (buffer_in buffer.now) self.old) result self.old
            self.new }
        ensures room { IsInRoom has_room self.old self.new result }
        ensures leaves { (m : Model) → FileContains self.old.kind self.old.bytes m
            → Leaves (calls.write_entry_buf (buffer_in buffer.now) self.old) result self.old
            self.new m }
    {
        let entry = self.place_ordered(buffer.order, buffer.data_type, &buffer.bytes, has_room)?;
        self.fact_fits();
        Ok(entry)
    }

    /// `write_entry` of a value of a job, or `write_entry_buf` of a buffer.
    pub(crate) fn place_job(&mut self, field: JobField<'_>, has_room: bool) -> TiffResult<Entry>
        ensures answer { Ends (λ e. e) (entry_of (given_in field.entry) self.old) result self.old self.new }
        ensures room { IsInRoom has_room self.old self.new result }
        ensures leaves { (m : Model) → FileContains self.old.kind self.old.bytes m
            → Leaves (entry_of (given_in field.entry) self.old) result self.old self.new m }
    {
        match field {
            JobField::Value(value) => self.place_job_value(value, has_room),
            JobField::Buffer(buffer) => self.place_job_buffer(buffer, has_room),
        }
    }

    /// `write_data_buf` of a buffer of a job.
    pub(crate) fn append_job_buffer(&mut self, buffer: &JobBuffer) -> TiffResult<u64>
        ensures answer { Ends (λ n. n) (calls.write_data_buf (buffer_in buffer.now) self.old) result self.old
            self.new }
        ensures leaves { (m : Model) → FileContains self.old.kind self.old.bytes m
            → Leaves (calls.write_data_buf (buffer_in buffer.now) self.old) result self.old self.new
            m }
    {
        self.append_ordered(buffer.order, &buffer.bytes)
    }
}

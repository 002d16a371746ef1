//! Runs the steps of a job in a directory.

ghost use Rattle.std.specs.Prelude.{◌≡◌, ◌+◌, ◌++◌, ◌∷◌, [], ◌<◌, ◌≤◌, length, vec_len, vec_capacity, OnErr};
ghost use Rattle.tiff_encode.specs.Ends.{Ends};
ghost use Rattle.tiff_encode.specs.GivenValues.{tag_of};
ghost use Rattle.tiff_encode.specs.ImageStepping.{reply_to, reply_by};
ghost use Rattle.tiff_encode.specs.JobValues.{given_in};
ghost use Rattle.tiff_encode.specs.Jobs.{AllStepped, DirectoryStepped};
ghost use Rattle.tiff_encode.specs.Leaves.{Leaves};
ghost use Rattle.tiff_value.specs.Model.{Model, FileContains};
ghost use Rattle.tiff_encode.specs.Stepping.{Moves};

use crate::encoder::directory::encoder::DirectoryEncoder;
use crate::encoder::directory::state::{DirectoryState, HasDirectory};
use crate::encoder::kind::TiffKind;
use crate::encoder::script::{DirectoryStep, JobField, StepReply};
use tiff_base::directory::Entry;
use tiff_base::error::TiffResult;
use tiff_base::io::Sink;
use tiff_base::tags::Tag;

// Returns the reply to a step whose call returns `()`.
pub(crate) fn replied(answer: TiffResult<()>) -> TiffResult<StepReply>
    ensures { result ≡ reply_to answer }
{
    answer?;
    Ok(StepReply::Nothing)
}

// Returns the reply to a step whose call returns an offset.
fn numbered(offset: TiffResult<u64>) -> TiffResult<StepReply>
    ensures { result ≡ reply_by StepReply.Number offset }
{
    Ok(StepReply::Number(offset?))
}

// Returns the reply to a step whose call returns an entry.
fn written(entry: TiffResult<Entry>) -> TiffResult<StepReply>
    ensures { result ≡ reply_by StepReply.Written entry }
{
    Ok(StepReply::Written(entry?))
}

impl<'a, W: Sink, K: TiffKind, D: HasDirectory> DirectoryEncoder<'a, W, K, D> {
    // `write_tag` of a value of a job, or `write_tag_buf` of a buffer.
    fn write_job_tag(&mut self, tag: Tag, field: JobField<'_>) -> TiffResult<()>
        ensures same_reference { self.new.encoder.ghost_name ≡ self.old.encoder.ghost_name }
        ensures stays { OnErr result (self.new.state ≡ self.old.state) }
        ensures rest { self.new.state ≡ D.with_directory self.old.state (D.open_directory self.new.state) }
        ensures answer { Ends (λ _. D.open_directory self.new.state)
            (tag_of (D.open_directory self.old.state) tag (given_in field.entry) self.old.encoder.now)
            result self.old.encoder.now self.new.encoder.now }
        ensures leaves { (m : Model) → FileContains self.old.encoder.now.kind self.old.encoder.now.bytes m
            → Leaves (tag_of (D.open_directory self.old.state) tag (given_in field.entry)
            self.old.encoder.now) result self.old.encoder.now self.new.encoder.now m }
    {
        let room = self.state.make_room(tag);
        let placed = self.encoder.place_job(field, room.is_made());
        self.state.settle(tag, room, placed)
    }

    /// Runs one step of a directory.
    pub(crate) fn step(&mut self, step: &DirectoryStep) -> TiffResult<StepReply>
        ensures same_reference { self.new.encoder.ghost_name ≡ self.old.encoder.ghost_name }
        ensures rest { self.new.state ≡ D.with_directory self.old.state (D.open_directory self.new.state) }
        ensures moves { Moves (λ s t. DirectoryStepped s (D.open_directory self.old.state) step.now result t
            (D.open_directory self.new.state)) self.old.encoder.now self.new.encoder.now }
    {
        match step {
            DirectoryStep::WriteTag(tag, value) => {
                replied(self.write_job_tag(*tag, JobField::Value(value)))
            }
            DirectoryStep::WriteTagBuf(tag, buffer) => {
                replied(self.write_job_tag(*tag, JobField::Buffer(buffer)))
            }
            DirectoryStep::WriteData(value) => numbered(self.encoder.append_job_value(value)),
            DirectoryStep::WriteDataBuf(buffer) => numbered(self.encoder.append_job_buffer(buffer)),
            DirectoryStep::WriteEntry(value) => {
                written(self.encoder.place_job_value(value, true))
            }
            DirectoryStep::WriteEntryBuf(buffer) => {
                written(self.encoder.place_job_buffer(buffer, true))
            }
            DirectoryStep::WriteEntryBytes(field_type, bytes) => {
                written(self.write_entry_bytes(*field_type, bytes))
            }
            DirectoryStep::ExtendFrom(directory) => replied(self.extend_from(directory)),
        }
    }
}

impl<'a, W: Sink, K: TiffKind> DirectoryEncoder<'a, W, K, DirectoryState> {
    /// Runs steps one after another, and appends their replies to a list that has room for them.
    pub(crate) fn steps(
        &mut self,
        steps: &[DirectoryStep],
        replies: &mut Vec<TiffResult<StepReply>>,
    )
        requires room { length steps.now ≤ vec_capacity replies.old }
        requires none { replies.old.items ≡ [] }
        ensures same_reference { self.new.encoder.ghost_name ≡ self.old.encoder.ghost_name }
        ensures moves { Moves (λ s t.
            AllStepped DirectoryStepped s self.old.state steps.now replies.new.items t
            self.new.state)
            self.old.encoder.now self.new.encoder.now }
    {
        for step in steps {
            let reply = self.step(step);
            replies.push_reserved(reply);
        }
    }
}

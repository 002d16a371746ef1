//! Runs the steps of a job in an image.

ghost use Rattle.std.specs.Prelude.{◌≡◌, ℕ, ◌-◌, ◌^◌, ◌<◌, ◌≤◌, List, [], length, vec_capacity};
ghost use Rattle.tiff_base.specs.Types.{type_size};
ghost use Rattle.tiff_encode.specs.Given.{given_numbers, IsChunkStorable};
ghost use Rattle.tiff_encode.specs.ImageStepping.{ChunkDraws, ResolutionDraws, StripDraws};
ghost use Rattle.tiff_encode.specs.JobValues.{cut_to};
ghost use Rattle.tiff_encode.specs.Stepping.{KeepsImage, StepsDraw};

use crate::encoder::directory::encoder::DirectoryEncoder;
use crate::encoder::image::chunks::ImageSamples;
use crate::encoder::image::state::ImageState;
use crate::encoder::jobs::directory_steps::replied;
use crate::encoder::kind::TiffKind;
use crate::encoder::script::{ImageStep, JobSamples, StepReply};
use tiff_base::error::TiffResult;
use tiff_base::io::Sink;
use tiff_base::tags::ResolutionUnit;
use tiff_value::encoder::horizontal_predictor::Sample;
use tiff_value::encoder::tiff_value::Rational;

// Returns a copy of a fraction.
fn copied(value: &Rational) -> Rational
    ensures { result ≡ value.now }
{
    Rational {
        n: value.n,
        d: value.d,
    }
}

impl<'a, W: Sink, K: TiffKind, T: Sample> DirectoryEncoder<'a, W, K, ImageState<T>> {
    // `write_strip` of samples, each of which is the lowest bits of a number.
    fn strip_step(&mut self, numbers: &JobSamples<'_>) -> TiffResult<StepReply>
        ensures same_reference { self.new.encoder.ghost_name ≡ self.old.encoder.ghost_name }
        ensures draws { StripDraws self.old.state numbers.now result self.old.encoder.now self.new.encoder.now
            self.new.state }
    {
        self.state.fact_type();
        numbers.are_few();
        let samples = numbers.cut::<T>(self.encoder.alloc())?;
        self.encoder.fact_short();
        let answer = self.write_strip(samples.as_slice());
        self.encoder.fact_short();
        replied(answer)
    }

    // `write_chunk` of samples, which are the lowest bits of any numbers.
    fn given_step(&mut self, samples: ImageSamples<'_, T>) -> TiffResult<StepReply>
        requires { IsChunkStorable (type_size T.value_type) self.old.state samples }
        ensures same_reference { self.new.encoder.ghost_name ≡ self.old.encoder.ghost_name }
        ensures draws { (numbers : List ℕ)
            → cut_to self.old.state.size numbers
            ≡ given_numbers (type_size T.value_type) T.bits samples.entry
            → length numbers < 2 ^ 64 - 1
            → ChunkDraws self.old.state numbers result self.old.encoder.now self.new.encoder.now
            self.new.state }
    {
        self.encoder.fact_short();
        let answer = self.write_given_chunk(samples);
        self.encoder.fact_short();
        replied(answer)
    }

    // `write_chunk` of samples, each of which is the lowest bits of a number. Bytes that can be
    // stored as they are go to the sink directly; else it makes a list of samples.
    fn chunk_step(&mut self, numbers: &JobSamples<'_>) -> TiffResult<StepReply>
        ensures same_reference { self.new.encoder.ghost_name ≡ self.old.encoder.ghost_name }
        ensures draws { ChunkDraws self.old.state numbers.now result self.old.encoder.now self.new.encoder.now
            self.new.state }
    {
        self.state.fact_type();
        numbers.are_few();
        if let Some(bytes) = self.state.chunk_bytes(numbers) {
            let samples = ImageSamples::<T>::Stored(bytes);
            samples.fact_numbers();
            return self.given_step(samples);
        }
        let samples = numbers.cut::<T>(self.encoder.alloc())?;
        self.given_step(ImageSamples::Typed(samples.as_slice()))
    }

    // `resolution`. After an error the first of its tags can be set.
    fn resolution_step(&mut self, unit: ResolutionUnit, value: Rational) -> TiffResult<StepReply>
        ensures same_reference { self.new.encoder.ghost_name ≡ self.old.encoder.ghost_name }
        ensures draws { ResolutionDraws self.old.state unit (value.n, value.d) result self.old.encoder.now
            self.new.encoder.now
            self.new.state }
    {
        self.state.fact_fits();
        let answer = self.resolution(unit, value);
        self.encoder.fact_short();
        replied(answer)
    }

    // Runs one step of an image.
    fn image_step(&mut self, step: &ImageStep<'_>) -> TiffResult<StepReply>
        ensures same_reference { self.new.encoder.ghost_name ≡ self.old.encoder.ghost_name }
        ensures draws { KeepsImage self.old.state step.now result self.old.encoder.now self.new.encoder.now
            self.new.state }
    {
        match step {
            ImageStep::Directory(step) => self.step(step),
            ImageStep::ExtraSamples(extra) => replied(self.extra_samples(extra)),
            ImageStep::Tiles(width, length) => replied(self.tiles(*width, *length)),
            ImageStep::Planar => replied(self.planar()),
            ImageStep::NextStripSampleCount => {
                Ok(StepReply::Number(self.next_strip_sample_count()))
            }
            ImageStep::NextChunkSampleCount => {
                Ok(StepReply::Number(self.next_chunk_sample_count()))
            }
            ImageStep::WriteStrip(numbers) => self.strip_step(numbers),
            ImageStep::WriteChunk(numbers) => self.chunk_step(numbers),
            ImageStep::Resolution(unit, value) => self.resolution_step(*unit, copied(value)),
            ImageStep::ResolutionUnit(unit) => replied(self.resolution_unit(*unit)),
            ImageStep::XResolution(value) => replied(self.x_resolution(copied(value))),
            ImageStep::YResolution(value) => replied(self.y_resolution(copied(value))),
            ImageStep::RowsPerStrip(rows) => replied(self.rows_per_strip(*rows)),
        }
    }

    /// Runs steps one after another, and appends their replies to a list that has room for them.
    pub(crate) fn image_steps(
        &mut self,
        steps: &[ImageStep<'_>],
        replies: &mut Vec<TiffResult<StepReply>>,
    )
        requires room { length steps.now ≤ vec_capacity replies.old }
        requires none { replies.old.items ≡ [] }
        ensures same_reference { self.new.encoder.ghost_name ≡ self.old.encoder.ghost_name }
        ensures draws { StepsDraw self.old.state steps.now replies.new.items self.old.encoder.now
            self.new.encoder.now self.new.state }
    {
        self.encoder.fact_kind();
        for step in steps {
            let reply = self.image_step(step);
            self.encoder.fact_kind();
            replies.push_reserved(reply);
        }
    }
}

//! Ends jobs.

ghost use Rattle.std.specs.Prelude.{◌≡◌, ◌%◌, length, IfSome};
ghost use Rattle.tiff_base.specs.Types.{type_size};
ghost use Rattle.tiff_page.specs.Pixels.{numbers_in};
ghost use Rattle.tiff_encode.specs.Calls as calls;
ghost use Rattle.tiff_encode.specs.Given.{given_numbers, AreStorable, IsPlain, StoresBytes};
ghost use Rattle.tiff_encode.specs.JobEnding.{DataHeld};
ghost use Rattle.tiff_encode.specs.JobValues.{cut_to};
ghost use Rattle.tiff_encode.specs.Jobs.{DirectoryEnds, FinishesSilently, FinishesWith, ImageEnds, WritesData, WritesDataIfFound};
ghost use Rattle.tiff_encode.specs.Stepping.{EndMoves, ImageHeld};

use crate::encoder::directory::encoder::DirectoryEncoder;
use crate::encoder::directory::state::DirectoryState;
use crate::encoder::image::chunks::ImageSamples;
use crate::encoder::image::state::ImageState;
use crate::encoder::kind::TiffKind;
use crate::encoder::script::{DirectoryEnd, EndReply, ImageEnd, JobSamples};
use tiff_base::error::TiffResult;
use tiff_base::io::Sink;
use tiff_value::encoder::horizontal_predictor::Sample;
use tiff_value::encoder::tiff_value::{TiffScalar, TiffValue};

impl<'a, W: Sink, K: TiffKind> DirectoryEncoder<'a, W, K, DirectoryState> {
    // `finish_with_offsets`
    fn end_with_offsets(self) -> TiffResult<EndReply>
        ensures { EndMoves
            (λ s t offset. FinishesWith (calls.finish self.entry.state s.file) result s t offset)
            self.entry.state.parent self.entry.encoder.now self.exit.0.now (λ s t offset. Unit {0}) }
    {
        self.encoder.fact_fits();
        self.state.fact_fits();
        let offsets = self.finish_with_offsets()?;
        Ok(EndReply::Offsets {
            pointer: offsets.pointer.0,
            link: offsets.link(),
        })
    }

    // `discard`
    fn end_silently(self) -> TiffResult<EndReply>
        ensures { EndMoves
            (λ s t offset.
            FinishesSilently (calls.finish self.entry.state s.file) result s t offset)
            self.entry.state.parent self.entry.encoder.now self.exit.0.now (λ s t offset. Unit {0}) }
    {
        self.encoder.fact_fits();
        self.state.fact_fits();
        self.discard()?;
        Ok(EndReply::Nothing)
    }

    /// Ends the directory of a job.
    pub(crate) fn end(self, end: DirectoryEnd) -> TiffResult<EndReply>
        ensures { EndMoves (λ s t offset. DirectoryEnds s self.entry.state end result t offset)
            self.entry.state.parent
            self.entry.encoder.now self.exit.0.now (λ s t offset. Unit {0}) }
    {
        match end {
            DirectoryEnd::Finish => return self.end_with_offsets(),
            DirectoryEnd::Discard => return self.end_silently(),
        }
    }
}

impl<T: Sample> ImageState<T> {
    /// Returns the bytes of samples, if the image stores them as they are in a chunk.
    pub(crate) fn chunk_bytes<'b>(&self, samples: &'b JobSamples<'_>) -> Option<&'b [u8]>
        ensures storable { IfSome result (λ bytes. StoresBytes self.now
            × (length bytes.now % type_size T.value_type ≡ 0)) }
        ensures same { IfSome result (λ bytes. samples.now
            ≡ numbers_in (type_size T.value_type) bytes.now) }
    {
        if !self.stores_bytes() {
            return None;
        }
        let (_kind, len) = T::type_and_len();
        samples.lent(usize::from(len))
    }

    // Returns the bytes of samples, if the image stores them as they are, one strip after another.
    fn storable_bytes<'b>(&self, samples: &'b JobSamples<'_>) -> Option<&'b [u8]>
        ensures storable { IfSome result (λ bytes. IsPlain self.now
            × (length bytes.now % type_size T.value_type ≡ 0)) }
        ensures same { IfSome result (λ bytes. samples.now
            ≡ numbers_in (type_size T.value_type) bytes.now) }
    {
        if !self.is_in_order() {
            return None;
        }
        self.chunk_bytes(samples)
    }
}

impl<'a, W: Sink, K: TiffKind, T: Sample> DirectoryEncoder<'a, W, K, ImageState<T>> {
    // Drops an open image. It writes no directory.
    fn abandon(self)
        ensures { self.exit.0.now ≡ self.entry.encoder.now }
    {
        let DirectoryEncoder {
            encoder: _,
            state: _,
        } = self;
    }

    // `write_data`
    fn write_samples(self, samples: ImageSamples<'_, T>) -> TiffResult<EndReply>
        requires { AreStorable (type_size T.value_type) self.state samples }
        ensures { EndMoves (λ s t offset. WritesData self.entry.state
            (given_numbers (type_size T.value_type) T.bits samples.entry) result s t
            offset)
            self.entry.state.directory.parent self.entry.encoder.now self.exit.0.now
            (DataHeld self.entry.state
            (given_numbers (type_size T.value_type) T.bits samples.entry)) }
    {
        self.state.fact_fits();
        self.state.fact_type();
        samples.fact_numbers();
        self.write_given(samples)?;
        Ok(EndReply::Nothing)
    }

    // `write_data` of samples, each of which is the lowest bits of a number. Bytes that can be
    // stored as they are go to the sink directly; else it makes a list of samples, and returns
    // `OutOfMemory` if there is no memory for it.
    fn write_numbers(self, numbers: &JobSamples<'_>) -> TiffResult<EndReply>
        ensures { EndMoves
            (λ s t offset.
            WritesDataIfFound self.entry.state (cut_to self.entry.state.size numbers.now) result
            s
            t offset) self.entry.state.directory.parent self.entry.encoder.now self.exit.0.now
            (DataHeld self.entry.state (cut_to self.entry.state.size numbers.now)) }
    {
        self.state.fact_type();
        if let Some(bytes) = self.state.storable_bytes(numbers) {
            let samples = ImageSamples::<T>::Stored(bytes);
            samples.fact_numbers();
            return self.write_samples(samples);
        }
        let samples = match numbers.cut::<T>(self.encoder.alloc()) {
            Ok(samples) => samples,
            Err(fault) => {
                self.abandon();
                return Err(fault);
            }
        };
        self.write_samples(ImageSamples::Typed(samples.as_slice()))
    }

    // Ends the image as both `finish` and `discard` do.
    fn finish_drawn(self) -> TiffResult<EndReply>
        ensures { EndMoves
            (λ s t offset. ImageEnds s self.entry.state ImageEnd.Finish result t offset)
            self.entry.state.directory.parent self.entry.encoder.now self.exit.0.now (ImageHeld self.entry.state ImageEnd.Finish) }
    {
        self.state.fact_fits();
        self.finish()?;
        Ok(EndReply::Nothing)
    }

    /// Ends the image of a job. If there is no memory for its samples, the image has no directory.
    pub(crate) fn end_image(self, end: &ImageEnd<'_>) -> TiffResult<EndReply>
        ensures { EndMoves (λ s t offset. ImageEnds s self.entry.state end.now result t offset)
            self.entry.state.directory.parent
            self.entry.encoder.now self.exit.0.now (ImageHeld self.entry.state end.now) }
    {
        match end {
            ImageEnd::WriteData(numbers) => return self.write_numbers(numbers),
            ImageEnd::Finish | ImageEnd::Discard => return self.finish_drawn(),
        }
    }
}

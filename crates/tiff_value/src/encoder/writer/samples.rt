//! Writes samples without a list of their bytes.

ghost use Rattle.std.specs.List.{flat_map};
ghost use Rattle.std.specs.Prelude.{◌≡◌, ◌%◌, ◌^◌, ◌<◌, ◌≤◌, length, map, MatchResult, None};
ghost use Rattle.tiff_base.specs.Number.{le};
ghost use Rattle.tiff_base.specs.Types.{type_size};
ghost use Rattle.tiff_value.specs.ColorType.{sample_number};
ghost use Rattle.tiff_value.specs.Differences.{predicted_row};
ghost use Rattle.tiff_value.specs.Predicted.{predicted_bytes, row_bytes};
ghost use Rattle.tiff_value.specs.Written.{writer_after, IsCut, WritesCounted, WritesRaw};

use super::TiffWriter;
use crate::encoder::chunk::SampleRows;
use crate::encoder::horizontal_predictor::Sample;
use std::alloc::AllocError;
use tiff_base::error::{TiffError, TiffResult, UsageError};
use tiff_base::io::{ByteRun, ByteWitness, Sink};
use tiff_base::tags::Predictor;

// The number of bytes that are computed before they go to the sink. It is small, so that the bytes
// stay in the processor's cache.
const BAND: usize = 8192;

// The bytes of samples.
#[derive(Clone, Copy)]
struct SampleRun<'a, T: Sample> {
    samples: &'a [T],
}

impl<T: Sample> ByteRun for SampleRun<'_, T> {
    ghost use Rattle.std.specs.List.{flat_map};

    ghost bytes = { λ run. flat_map T.spelled run.samples.now };

    fn len(&self) -> Option<usize> {
        let (_kind, width) = T::type_and_len();
        self.samples.len().checked_mul(usize::from(width))
    }

    fn push_to(&self, list: &mut Vec<u8>) -> Result<(), AllocError> {
        let start = list.len();
        if T::push_all(self.samples, list).is_err() {
            list.truncate(start);
            return Err(AllocError);
        }
        Ok(())
    }

    fn show_to<S: ByteWitness>(&self, witness: &mut S) {
        T::show_all(self.samples, witness);
    }
}

impl<W: Sink> TiffWriter<W> {
    // Writes the bytes of the differences of a row, by way of the buffer `room`, part by part.
    // Samples before `stride` are written as they are.
    fn write_row<T: Sample>(&mut self, row: &[T], stride: usize, room: &mut [u8]) -> TiffResult<()>
        requires stride { (0 < stride) × (stride ≤ length row.now) }
        requires room { length room.old ≡ BAND }
        requires fresh { self.old.fault ≡ None }
        ensures { MatchResult result
            (λ _. self.new ≡ writer_after self.old
            (flat_map (le (type_size T.value_type))
            (predicted_row (256 ^ type_size T.value_type) stride
            (map (sample_number (type_size T.value_type) T.bits) row.now))))
            (λ e. IsCut
            (flat_map (le (type_size T.value_type))
            (predicted_row (256 ^ type_size T.value_type) stride
            (map (sample_number (type_size T.value_type) T.bits) row.now))) e self.old
            self.new) }
    {
        let (_kind, len) = T::type_and_len();
        let width = usize::from(len);
        let most = BAND / width;
        // The call has no effect: its contract says that the offset is within the sink.
        let _start = self.offset();
        let mut at = 0;
        while at < row.len() {
            let end = at + most.min(row.len() - at);
            let band = &mut room[..(end - at) * width];
            T::put_part(row, at, end, stride, band);
            self.write_raw(band)?;
            at = end;
        }
        Ok(())
    }

    // Writes the bytes of the differences of several rows of `row` samples each, part by part.
    fn write_rows<T: Sample>(&mut self, samples: &[T], row: usize, stride: usize) -> TiffResult<()>
        requires stride { (0 < stride) × (stride ≤ row) }
        requires whole { length samples.now % row ≡ 0 }
        requires fresh { self.old.fault ≡ None }
        ensures { MatchResult result
            (λ _. self.new ≡ writer_after self.old
            (predicted_bytes T.value_type T.bits Predictor.Horizontal row stride samples.now))
            (λ e. IsCut
            (predicted_bytes T.value_type T.bits Predictor.Horizontal row stride samples.now) e
            self.old self.new) }
    {
        let mut room = [0u8; BAND];
        let _start = self.offset();
        let mut at = 0;
        while at < samples.len() {
            self.write_row(&samples[at..at + row], stride, &mut room)?;
            at += row;
        }
        Ok(())
    }

    // Writes all samples as they are: at once, if the sink can append them so, else as one row,
    // part by part.
    fn write_unpredicted<T: Sample>(&mut self, samples: &[T]) -> TiffResult<()>
        requires fresh { self.old.fault ≡ None }
        ensures { MatchResult result
            (λ _. self.new ≡ writer_after self.old
            (flat_map (le (type_size T.value_type))
            (map (sample_number (type_size T.value_type) T.bits) samples.now)))
            (λ e. IsCut
            (flat_map (le (type_size T.value_type))
            (map (sample_number (type_size T.value_type) T.bits) samples.now)) e self.old self.new) }
    {
        if samples.is_empty() {
            return Ok(());
        }
        // A sink in memory lends its list, so the bytes are made where they stay.
        if self.write_run(&SampleRun { samples })? {
            return Ok(());
        }
        self.write_rows(samples, samples.len(), samples.len())
    }

    // Writes all samples, without an update of `last_written`.
    fn write_predicted<T: Sample>(&mut self, rows: SampleRows<'_, T>) -> TiffResult<()>
        requires stride { (0 < rows.stride) × (rows.stride ≤ rows.row) }
        requires whole { length rows.samples.now % rows.row ≡ 0 }
        ensures { WritesRaw (row_bytes T.value_type T.bits rows.entry) self.old self.new result }
    {
        if self.failed {
            return Err(TiffError::UsageError(UsageError::WriterFailed));
        }
        match rows.predictor {
            Predictor::Horizontal => self.write_rows(rows.samples, rows.row, rows.stride),
            _ => self.write_unpredicted(rows.samples),
        }
    }

    // Writes all samples, as `write_chunk` does.
    pub(crate) fn write_samples<T: Sample>(&mut self, rows: SampleRows<'_, T>) -> TiffResult<()>
        requires stride { (0 < rows.stride) × (rows.stride ≤ rows.row) }
        requires whole { length rows.samples.now % rows.row ≡ 0 }
        ensures { WritesCounted (row_bytes T.value_type T.bits rows.entry) self.old self.new result }
    {
        let start = self.at;
        self.write_predicted(rows)?;
        self.last = self.at - start;
        Ok(())
    }
}

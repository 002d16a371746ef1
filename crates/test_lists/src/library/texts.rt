//! Texts of errors that no reply to a list of calls or of jobs has, and errors that are compared;
//! the text of a sink.

use crate::library::told::Told;
use std::alloc::Global;
use std::hash::{DefaultHasher, Hash, Hasher};
use tiff_base::error::{TiffError, TiffResult, TiffUnsupportedError, UsageError};
use tiff_base::io::{IoKind, MemorySink};
use tiff_base::lists::SampleFormats;
use tiff_base::tags::SampleFormat;

// Adds the text of an error.
fn add_text(told: &mut Told, fault: TiffError) -> TiffResult<()> {
    let text = format!(in told.alloc(); "{fault}")?;
    told.line("TiffError::fmt", (fault, text));
    Ok(())
}

// The error of samples of two formats.
fn unsupported(alloc: Global, formats: (u16, u16)) -> TiffResult<TiffUnsupportedError> {
    let formats = [
        SampleFormat::from_u16_exhaustive(formats.0),
        SampleFormat::from_u16_exhaustive(formats.1),
    ];
    let formats = SampleFormats::from_vec(Vec::from_slice(alloc, &formats)?);
    Ok(TiffUnsupportedError::UnsupportedSampleFormat(formats))
}

fn hash_of<T: Hash>(x: &T) -> u64 {
    let mut state = DefaultHasher::new();
    x.hash(&mut state);
    state.finish()
}

// Adds whether the errors of two pairs of formats are equal, and whether they have the same hash.
fn add_compared(told: &mut Told, first: (u16, u16), second: (u16, u16)) -> TiffResult<()> {
    let one = unsupported(told.alloc(), first)?;
    let other = unsupported(told.alloc(), second)?;
    let compared = (one == other, hash_of(&one) == hash_of(&other));
    told.line("TiffUnsupportedError::eq, hash", (first, second, compared));
    Ok(())
}

/// Adds the texts, and errors that are compared.
pub fn add_lines(told: &mut Told) -> TiffResult<()> {
    add_text(told, TiffError::from(IoKind::WriteZero))?;
    add_text(told, TiffError::from(UsageError::ZeroIfdPointer))?;
    let sink = MemorySink::new(Vec::from_slice(told.alloc(), &[9])?);
    told.line("MemorySink::fmt", sink);
    add_compared(told, (1, 9), (1, 9))?;
    add_compared(told, (1, 9), (1, 8))?;
    add_compared(told, (3, 1), (1, 3))
}

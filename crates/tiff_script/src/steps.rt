//! The steps of jobs as words.

ghost use Rattle.std.specs.Prelude.{◌≡◌};
ghost use Rattle.std.specs.Option.{option_map};
ghost use Rattle.tiff_script.specs.Line.{Reads};
ghost use Rattle.tiff_script.specs.Steps.{directory_step, directory_step_held, entry_step, image_step, image_step_held, inner_step, is_setting, other_step, plain_step, setting_step};

use crate::samples::SampleWords;
use crate::values::{buffer_of, directory_of, tagged, typed_bytes, value_of};
use crate::words::{ParseError, list_of, pair_of, read};
use std::alloc::Global;
use tiff_encode::encoder::script::{DirectoryStep, ImageStep, JobSamples};

// The step of a directory that writes an entry or sets fields.
#[tactic(auto, unfolding(crate::specs::Steps::entry_step))]
fn entry_step_of(alloc: Global, name: &str, words: &str) -> Result<DirectoryStep, ParseError>
    ensures { Reads directory_step_held (entry_step name.now words.now) result }
{
    match name {
        "write_entry" => Ok(DirectoryStep::WriteEntry(value_of(alloc, words)?)),
        "write_entry_buf" => Ok(DirectoryStep::WriteEntryBuf(buffer_of(alloc, words)?)),
        "write_entry_bytes" => {
            let (data_type, bytes) = typed_bytes(alloc, words)?;
            Ok(DirectoryStep::WriteEntryBytes(data_type, bytes))
        }
        "extend_from" => Ok(DirectoryStep::ExtendFrom(directory_of(alloc, words)?)),
        _ => Err(ParseError::Form),
    }
}

/// The step of a directory that a name and the words behind it stand for. Words that aren't so:
/// `Form`.
#[tactic(auto, unfolding(crate::specs::Steps::directory_step))]
pub fn directory_step_of(
    alloc: Global,
    name: &str,
    words: &str,
) -> Result<DirectoryStep, ParseError>
    ensures { Reads directory_step_held (directory_step name.now words.now) result }
{
    match name {
        "write_tag" => {
            let (tag, words) = tagged(words)?;
            Ok(DirectoryStep::WriteTag(tag, value_of(alloc, words)?))
        }
        "write_tag_buf" => {
            let (tag, words) = tagged(words)?;
            Ok(DirectoryStep::WriteTagBuf(tag, buffer_of(alloc, words)?))
        }
        "write_data" => Ok(DirectoryStep::WriteData(value_of(alloc, words)?)),
        "write_data_buf" => Ok(DirectoryStep::WriteDataBuf(buffer_of(alloc, words)?)),
        _ => entry_step_of(alloc, name, words),
    }
}

// Whether a name is that of a step of an image with a number, sides or a fraction.
fn is_setting(name: &str) -> bool
    ensures { result ≡ is_setting name.now }
{
    matches!(
        name,
        "tiles"
            | "rows_per_strip"
            | "resolution"
            | "resolution_unit"
            | "x_resolution"
            | "y_resolution"
    )
}

// The step of an image with a number, sides or a fraction.
#[tactic(auto, unfolding(crate::specs::Steps::setting_step))]
fn setting_step(name: &str, words: &str) -> Result<ImageStep<'static>, ParseError>
    ensures { Reads image_step_held (setting_step name.now words.now) result }
{
    match name {
        "tiles" => {
            let (width, height) = pair_of(words)?;
            Ok(ImageStep::Tiles(width, height))
        }
        "rows_per_strip" => Ok(ImageStep::RowsPerStrip(read(words)?)),
        "resolution" => {
            let (unit, x) = pair_of(words)?;
            Ok(ImageStep::Resolution(unit, x))
        }
        "resolution_unit" => Ok(ImageStep::ResolutionUnit(read(words)?)),
        "x_resolution" => Ok(ImageStep::XResolution(read(words)?)),
        "y_resolution" => Ok(ImageStep::YResolution(read(words)?)),
        _ => Err(ParseError::Form),
    }
}

// The step of an image that is a name alone.
#[tactic(auto, unfolding(crate::specs::Steps::plain_step))]
fn plain_step(name: &str) -> Option<ImageStep<'static>>
    ensures { option_map image_step_held result ≡ plain_step name.now }
{
    match name {
        "planar" => Some(ImageStep::Planar),
        "next_strip_sample_count" => Some(ImageStep::NextStripSampleCount),
        "next_chunk_sample_count" => Some(ImageStep::NextChunkSampleCount),
        _ => None,
    }
}

// The step of an image that is a step of its directory.
#[tactic(auto, unfolding(crate::specs::Steps::inner_step))]
fn inner_step(alloc: Global, name: &str, words: &str) -> Result<ImageStep<'static>, ParseError>
    ensures { Reads image_step_held (inner_step name.now words.now) result }
{
    let name = match name {
        "append_data" => "write_data",
        _ => name,
    };
    Ok(ImageStep::Directory(directory_step_of(alloc, name, words)?))
}

// The step of an image without samples.
#[tactic(auto, unfolding(crate::specs::Steps::other_step))]
fn other_step(alloc: Global, name: &str, words: &str) -> Result<ImageStep<'static>, ParseError>
    ensures { Reads image_step_held (other_step name.now words.now) result }
{
    if is_setting(name) {
        return setting_step(name, words);
    }
    if words.is_empty()
        && let Some(step) = plain_step(name)
    {
        return Ok(step);
    }
    inner_step(alloc, name, words)
}

/// The step of an image that a name and the words behind it stand for, where samples are written
/// so. Words that aren't so: `Form`.
#[tactic(auto, unfolding(crate::specs::Steps::image_step))]
pub fn image_step_of(
    alloc: Global,
    samples: SampleWords,
    name: &str,
    words: &str,
) -> Result<ImageStep<'static>, ParseError>
    ensures { Reads image_step_held (image_step samples name.now words.now) result }
{
    match name {
        "write_strip" => {
            let numbers = samples.samples_of(alloc, words)?;
            Ok(ImageStep::WriteStrip(JobSamples::from_numbers(numbers)))
        }
        "write_chunk" => {
            let numbers = samples.samples_of(alloc, words)?;
            Ok(ImageStep::WriteChunk(JobSamples::from_numbers(numbers)))
        }
        "extra_samples" => Ok(ImageStep::ExtraSamples(list_of(alloc, words)?)),
        _ => other_step(alloc, name, words),
    }
}

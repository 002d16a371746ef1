//! Calls of the library that no call of a list and no job makes.

mod directories;
mod lanes;
mod lent;
mod links;
mod packed;
mod texts;
mod told;
mod uses;
mod values;
mod writing;

use self::told::Told;
use crate::source::ScriptedSource;
use std::alloc::{AllocError, Global};
use tiff_base::error::TiffResult;
use tiff_decode::decoder::Decoder;
use tiff_decode::reply::refusal_text;

// Adds the lines of the calls with this name.
fn add_calls(told: &mut Told, name: &str) -> TiffResult<()> {
    match name {
        "complements" => lanes::add_complements(told),
        "differences" => lanes::add_differences(told),
        "directories" => directories::add_lines(told),
        "links" => links::add_lines(told),
        "packed" => packed::add_lines(told),
        "texts" => texts::add_lines(told),
        "turned" => lanes::add_turned(told),
        "uses" => uses::add_lines(told),
        "values" => values::add_lines(told),
        "writer" => writing::add_lines(told),
        _ => {
            told.line("no such calls", name);
            Ok(())
        }
    }
}

// Adds the lines of the calls with this name, which are made on an open file, or need none.
fn add_calls_on(
    told: &mut Told,
    decoder: &mut Decoder<ScriptedSource>,
    name: &str,
) -> TiffResult<()> {
    match name {
        "buffers" => lent::add_buffers(told, decoder),
        "chunks" => uses::add_chunks(told, decoder),
        "decoder" => lent::add_decoder(told, decoder),
        "keys" => uses::add_keys(told, decoder),
        "lists" => lent::add_lists(told, decoder),
        "numbers" => lent::add_numbers(told, decoder),
        "slices" => lent::add_slices(told, decoder),
        _ => add_calls(told, name),
    }
}

// The lines, or the error that ended the calls.
fn text_of(told: Told, made: TiffResult<()>) -> Result<String, AllocError> {
    match made {
        Ok(()) => told.into_text(),
        Err(fault) => refusal_text(told.alloc(), &fault),
    }
}

/// The results of the calls with this name: their number, and a line for each.
pub fn library_text(alloc: Global, name: &str) -> Result<String, AllocError> {
    let mut told = Told::new(alloc);
    let made = add_calls(&mut told, name);
    text_of(told, made)
}

/// The results of the calls with this name, where a file is open.
pub fn library_text_on(
    alloc: Global,
    decoder: &mut Decoder<ScriptedSource>,
    name: &str,
) -> Result<String, AllocError> {
    let mut told = Told::new(alloc);
    let made = add_calls_on(&mut told, decoder, name);
    text_of(told, made)
}

//! The entries of a page as lines.

ghost use Rattle.std.specs.Prelude.{◌≡◌, ◌≤◌, ◌++◌, IfOk, MatchResult, OnOk, map, string_bytes};
ghost use Rattle.std.specs.FinMap.{entries};
ghost use Rattle.tiff_decode.specs.Step.{Step};
ghost use Rattle.tiff_decode.specs.Steps.{Steps};
ghost use Rattle.tiff.specs.Answers.{Answers};
ghost use Rattle.tiff.specs.Machine.{Decoding};
ghost use Rattle.tiff.specs.Outcome.{read_directory};
ghost use Rattle.tiff.specs.Tags.{tag_of};
ghost use Rattle.tiffpage_lib.specs.AtPage.{AnswersIn, VisitsPage};
ghost use Rattle.tiffpage_lib.specs.Listing.{after, field_line, finds, line, lines, listing, listing_at, numbers_at, page_pointer, shown_bytes};

use crate::calls::{drop_value, next_of, replies_to_both, replies_to_calls, reply_to_one};
use crate::replies::{directory_read, field_found, pointer_of, seek_result};
use std::alloc::{AllocError, Global};
use std::fmt::Write;
use tiff::decoder::Decoder;
use tiff::decoder::ifd::Entry;
use tiff::decoder::script::{Call, Reply};
use tiff::io::{MemorySource, Source};
use tiff::tags::{IfdPointer, Tag, ValueBuffer};
use tiff::{Directory, TiffError, TiffResult};
use tiff_script::digits::push_digits;

// Appends each byte as two hexadecimal digits, or `-` if there is none.
fn push_bytes(text: &mut String, bytes: &[u8]) -> Result<(), AllocError>
    ensures { OnOk result (string_bytes text.new ≡ string_bytes text.old ++ shown_bytes bytes.now) }
{
    if bytes.is_empty() {
        return text.push_str("-");
    }
    push_digits(text, bytes)
}

// Appends the line of a field: the number of its tag, the number of its type, how many values it
// has, and their bytes.
fn push_line(text: &mut String, tag: u16, entry: &Entry, bytes: &[u8]) -> Result<(), AllocError>
    ensures { OnOk result
        (string_bytes text.new ≡ string_bytes text.old ++ line tag entry.now bytes.now) }
{
    let field_type = entry.field_type().to_u16();
    let count = entry.count();
    write!(text, "{tag} {field_type} {count} ")?;
    push_bytes(text, bytes)?;
    text.push_str("\n")
}

// Appends the line of a field that was found, or nothing if there is none.
#[tactic(auto, unfolding(tiff_decode::specs::Outcome::find_tag_buf))]
fn push_found(
    text: &mut String,
    number: u16,
    found: TiffResult<Option<Entry>>,
    values: &ValueBuffer,
) -> TiffResult<()>
    ensures { (old new : Decoding)
        → Step old (Call.FindTagBuf (tag_of number)) (Reply.FindTagBuf found values.now) new
        → Answers (λ _. string_bytes text.new) result
        (after (string_bytes text.old) (field_line old number)) old.failures new.failures }
{
    if let Some(entry) = found? {
        push_line(text, number, &entry, values.as_bytes())?;
    }
    Ok(())
}

// The calls that find the fields with these tag numbers.
fn calls_to_find(alloc: Global, numbers: &[u16]) -> Result<Vec<Call>, AllocError>
    ensures { IfOk result (λ calls. calls.items ≡ finds numbers.now) }
{
    let mut calls = Vec::new(alloc);
    for number in numbers {
        calls.push(Call::FindTagBuf(Tag::from_u16_exhaustive(*number)))?;
    }
    Ok(calls)
}

// The replies to the calls that find the fields with these tag numbers.
fn find_all<R: Source>(
    alloc: Global,
    decoder: &mut Decoder<R>,
    numbers: &[u16],
) -> TiffResult<Vec<Reply>>
    ensures { MatchResult result
        (λ replies. Steps decoder.old (finds numbers.now) replies.items decoder.new)
        (λ e. (e ≡ TiffError.OutOfMemory) × (decoder.new ≡ decoder.old)) }
{
    match calls_to_find(alloc, numbers) {
        Ok(calls) => replies_to_calls(alloc, decoder, &calls),
        Err(_) => Err(TiffError::OutOfMemory),
    }
}

// A line for the field with each tag number.
#[tactic(auto, using(crate::proofs::Lines::lines_all))]
fn list_tags<R: Source>(
    alloc: Global,
    decoder: &mut Decoder<R>,
    numbers: &[u16],
) -> TiffResult<String>
    ensures answer { Answers string_bytes result (lines decoder.old numbers.now) decoder.old.failures
        decoder.new.failures }
    ensures kept { decoder.new ≡ record decoder.old { failures = decoder.new.failures } }
    ensures failures { decoder.old.failures ≤ decoder.new.failures }
{
    let mut replies = find_all(alloc, decoder, numbers)?.into_iter();
    let mut text = String::new(alloc);
    for number in numbers {
        let (found, values) = field_found(next_of(&mut replies));
        match push_found(&mut text, *number, found, &values) {
            Ok(()) => {}
            Err(fault) => {
                drop_value(replies);
                return Err(fault);
            }
        }
    }
    drop_value(replies);
    Ok(text)
}

// The tag numbers of a directory, in ascending order.
fn tag_numbers(alloc: Global, directory: &Directory) -> Result<Vec<u16>, AllocError>
    ensures { IfOk result (λ v. v.items ≡ map (λ e. e.0) (entries directory.now.entries)) }
{
    let mut numbers = Vec::new(alloc);
    for (tag, _) in directory.iter() {
        numbers.push(tag.to_u16())?;
    }
    Ok(numbers)
}

// The directory at a pointer.
fn read_directory<R: Source>(
    alloc: Global,
    decoder: &mut Decoder<R>,
    pointer: IfdPointer,
) -> TiffResult<Directory>
    ensures answer { Answers (λ d. d) result (read_directory decoder.old pointer).answer decoder.old.failures
        decoder.new.failures }
    ensures kept { decoder.new ≡ record decoder.old { failures = decoder.new.failures } }
    ensures failures { decoder.old.failures ≤ decoder.new.failures }
{
    let reply = reply_to_one(alloc, decoder, Call::ReadDirectory(pointer))?;
    directory_read(reply)
}

// The tag numbers of the directory at a pointer, in ascending order.
fn numbers_at<R: Source>(
    alloc: Global,
    decoder: &mut Decoder<R>,
    pointer: IfdPointer,
) -> TiffResult<Vec<u16>>
    ensures answer { Answers (λ v. v.items) result (numbers_at decoder.old pointer) decoder.old.failures
        decoder.new.failures }
    ensures kept { decoder.new ≡ record decoder.old { failures = decoder.new.failures } }
    ensures failures { decoder.old.failures ≤ decoder.new.failures }
{
    let directory = read_directory(alloc, decoder, pointer)?;
    Ok(tag_numbers(alloc, &directory)?)
}

// A line for each entry of the directory at a pointer; none if there is no pointer.
fn list_directory<R: Source>(
    alloc: Global,
    decoder: &mut Decoder<R>,
    pointer: Option<IfdPointer>,
) -> TiffResult<String>
    ensures answer { Answers string_bytes result (listing_at decoder.old pointer) decoder.old.failures
        decoder.new.failures }
    ensures kept { decoder.new ≡ record decoder.old { failures = decoder.new.failures } }
    ensures failures { decoder.old.failures ≤ decoder.new.failures }
{
    let Some(pointer) = pointer else {
        return Ok(String::new(alloc));
    };
    let numbers = numbers_at(alloc, decoder, pointer)?;
    list_tags(alloc, decoder, &numbers)
}

// The pointer of a page's directory.
fn page_pointer<R: Source>(
    alloc: Global,
    decoder: &mut Decoder<R>,
    page: usize,
) -> TiffResult<Option<IfdPointer>>
    ensures { VisitsPage (λ p. p) page_pointer result page decoder.old decoder.new }
{
    let (seek, pointer) = replies_to_both(
        alloc,
        decoder,
        Call::SeekToImage(page),
        Call::IfdPointer,
    )?;
    seek_result(seek).and(Ok(pointer_of(pointer)))
}

/// Lists the entries of a page's directory, one line for each, in ascending order of the tag
/// number: the number of the tag, the number of the type, how many values the entry has, and their
/// bytes in the file's order. The first error: of the seek to the page; more bytes of an entry than
/// `decoding_buffer_size`, `LimitsExceeded`; bytes behind the end of the source,
/// `IoError(UnexpectedEof)`.
pub fn list_entries<R: Source>(
    alloc: Global,
    decoder: &mut Decoder<R>,
    page: usize,
) -> TiffResult<String>
    ensures { VisitsPage string_bytes listing result page decoder.old decoder.new }
{
    let pointer = page_pointer(alloc, decoder, page)?;
    list_directory(alloc, decoder, pointer)
}

/// Lists the entries of the directory of a page of a file, as [`list_entries`] does; or returns the
/// error of opening the file.
pub fn page_tags(alloc: Global, file: Vec<u8>, page: u32) -> TiffResult<String>
    ensures { AnswersIn string_bytes listing result file.items page }
{
    let mut decoder = Decoder::open(alloc, MemorySource::new(file))?;
    list_entries(alloc, &mut decoder, page as usize)
}

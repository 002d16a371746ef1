//! The values of a tag of a page, put into a slice of the caller's in the machine's byte order, as
//! many as fit.

ghost use Rattle.std.specs.Prelude.{◌≡◌, map, OnErr};
ghost use Rattle.tiff_base.specs.Answers.{AnswersWithoutSource};
ghost use Rattle.tiff_decode.specs.Reader.{reader_of};
ghost use Rattle.tiff_decode.specs.ReplyView.{bits_64};
ghost use Rattle.tiff_ffi.specs.List.{filled};
ghost use Rattle.tiff_ffi.specs.Values as values;

use crate::calls::{never_failed, open_tags, tags_of};
use std::alloc::Global;
use tiff_base::directory::Directory;
use tiff_base::error::TiffResult;
use tiff_base::io::{SliceSource, Source};
use tiff_base::tags::{Bits64, Tag};
use tiff_decode::decoder::Decoder;

// Puts as many items into a slice as fit; the elements behind them stay.
#[tactic(auto, using(crate::proofs::Filled::put_front))]
pub(crate) fn fill<T: Copy>(out: &mut [T], items: &[T])
    ensures { out.new ≡ filled items.now out.old }
{
    let count = out.len().min(items.len());
    out[..count].copy_from_slice(&items[..count]);
}

// Puts the bits of as many floating-point numbers into a slice as fit; the elements behind them
// stay.
fn fill_bits(out: &mut [u64], items: &[Bits64])
    ensures { out.new ≡ filled (map bits_64 items.now) out.old }
{
    let count = out.len().min(items.len());
    for i in 0..count {
        out[i] = items[i].0;
    }
}

// The values of a tag, as C gets them: words of a type, the first ones in a slice of the caller's.
trait TagValues<T>: Sized {
    ghost use Rattle.std.specs.Prelude.{◌≡◌, List, Result, length};
    ghost use Rattle.tiff_base.specs.declared.error.TiffError.{TiffError};
    ghost use Rattle.tiff_base.specs.declared.tags.Tag.{Tag};
    ghost use Rattle.tiff_base.specs.Answers.{Answers};
    ghost use Rattle.tiff_decode.specs.Machine.{Decoding};
    ghost use Rattle.tiff_decode.specs.Reader.{reader_of};
    ghost use Rattle.tiff_ffi.specs.List.{filled};

    // The words, and those that a decoder reads of a tag.
    ghost words: { Self → List T };

    ghost found: { Decoding → Tag → Result (List T) TiffError };

    // Reads the values of a tag: of a decoder's page, or of another directory of its file.
    fn read<R: Source>(
        decoder: &mut Decoder<R>,
        other: &Option<Directory>,
        tag: Tag,
    ) -> TiffResult<Self>
        ensures { Answers words result (found (reader_of decoder.old other.now) tag)
            decoder.old.failures decoder.new.failures };

    // Puts as many words into a slice as fit, and returns how many there are; the elements behind
    // them stay.
    fn put(&self, out: &mut [T]) -> usize
        ensures count { result ≡ length (words self.now) }
        ensures out { out.new ≡ filled (words self.now) out.old };
}

impl TagValues<u64> for Vec<u64> {
    ghost use Rattle.tiff_decode.specs.Outcome.{get_tag_u64_vec};

    ghost words = { λ v. v.items };

    ghost found = { λ d tag. (get_tag_u64_vec d tag).answer };

    fn read<R: Source>(
        decoder: &mut Decoder<R>,
        other: &Option<Directory>,
        tag: Tag,
    ) -> TiffResult<Self> {
        tags_of(decoder, other).get_tag_u64_vec(tag)
    }

    fn put(&self, out: &mut [u64]) -> usize {
        fill(out, self);
        self.len()
    }
}

impl TagValues<u64> for Vec<Bits64> {
    ghost use Rattle.std.specs.Prelude.{map};
    ghost use Rattle.tiff_decode.specs.Outcome.{get_tag_f64_vec};
    ghost use Rattle.tiff_decode.specs.ReplyView.{bits_64};

    ghost words = { λ v. map bits_64 v.items };

    ghost found = { λ d tag. (get_tag_f64_vec d tag).answer };

    fn read<R: Source>(
        decoder: &mut Decoder<R>,
        other: &Option<Directory>,
        tag: Tag,
    ) -> TiffResult<Self> {
        tags_of(decoder, other).get_tag_f64_vec(tag)
    }

    fn put(&self, out: &mut [u64]) -> usize {
        fill_bits(out, self);
        self.len()
    }
}

impl TagValues<u8> for String {
    ghost use Rattle.std.specs.Prelude.{string_bytes};
    ghost use Rattle.tiff_decode.specs.Outcome.{get_tag_ascii_string};

    ghost words = { string_bytes };

    ghost found = { λ d tag. (get_tag_ascii_string d tag).answer };

    fn read<R: Source>(
        decoder: &mut Decoder<R>,
        other: &Option<Directory>,
        tag: Tag,
    ) -> TiffResult<Self> {
        tags_of(decoder, other).get_tag_ascii_string(tag)
    }

    fn put(&self, out: &mut [u8]) -> usize {
        let bytes = self.as_bytes();
        fill(out, bytes);
        bytes.len()
    }
}

// The values of a tag, of a decoder whose reads never fail.
#[tactic(auto, using(crate::proofs::Slices::answer_here))]
fn values_here<T, V: TagValues<T>>(
    decoder: &mut Decoder<SliceSource<'_>>,
    other: &Option<Directory>,
    tag: Tag,
) -> TiffResult<V>
    ensures { AnswersWithoutSource V.words result (V.found (reader_of decoder.old other.now) tag) }
{
    never_failed(decoder);
    let answer = V::read(decoder, other, tag);
    never_failed(decoder);
    answer
}

// Puts the values of a tag of a page into `out`, as many as fit, and returns how many there are.
// The first error: of the file or the page; no such tag, `RequiredTagNotFound`; of reading the
// values.
fn put_values<T, V: TagValues<T> + Drop>(
    alloc: Global,
    file: &[u8],
    page: usize,
    number: u16,
    out: &mut [T],
) -> TiffResult<usize>
    ensures answer { AnswersWithoutSource (λ n. (n, out.new)) result
        (values.tag_values V.found file.now page number out.old) }
    ensures stays { OnErr result (out.new ≡ out.old) }
{
    let (mut decoder, other) = open_tags(alloc, file, page)?;
    let found: V = values_here(&mut decoder, &other, Tag::from_u16_exhaustive(number))?;
    Ok(found.put(out))
}

/// Puts the numbers of a tag of a page into `out`, as many as fit, and returns how many there are.
/// `number` is the tag's number. The first error: of the file or the page; no such tag,
/// `RequiredTagNotFound`; of reading the values, also of values that are no numbers below 2^64. An
/// error leaves `out` as it was.
pub fn tag_numbers(
    alloc: Global,
    file: &[u8],
    page: usize,
    number: u16,
    out: &mut [u64],
) -> TiffResult<usize>
    ensures answer { AnswersWithoutSource (λ n. (n, out.new)) result
        (values.tag_numbers file.now page number out.old) }
    ensures stays { OnErr result (out.new ≡ out.old) }
{
    put_values::<u64, Vec<u64>>(alloc, file, page, number, out)
}

/// Puts the bits of the floating-point numbers of a tag of a page into `out`, as many as fit, and
/// returns how many there are. `number` is the tag's number. The first error: of the file or the
/// page; no such tag, `RequiredTagNotFound`; of reading the values, also of values that aren't
/// floating-point numbers of 8 bytes. An error leaves `out` as it was.
pub fn tag_floats(
    alloc: Global,
    file: &[u8],
    page: usize,
    number: u16,
    out: &mut [u64],
) -> TiffResult<usize>
    ensures answer { AnswersWithoutSource (λ n. (n, out.new)) result
        (values.tag_floats file.now page number out.old) }
    ensures stays { OnErr result (out.new ≡ out.old) }
{
    put_values::<u64, Vec<Bits64>>(alloc, file, page, number, out)
}

/// Puts the bytes of the text of a tag of a page into `out`, as many as fit, and returns how many
/// there are. `number` is the tag's number. The first error: of the file or the page; no such tag,
/// `RequiredTagNotFound`; of reading the text, also of values that are no text. An error leaves
/// `out` as it was.
pub fn tag_text(
    alloc: Global,
    file: &[u8],
    page: usize,
    number: u16,
    out: &mut [u8],
) -> TiffResult<usize>
    ensures answer { AnswersWithoutSource (λ n. (n, out.new)) result
        (values.tag_text file.now page number out.old) }
    ensures stays { OnErr result (out.new ≡ out.old) }
{
    put_values::<u8, String>(alloc, file, page, number, out)
}

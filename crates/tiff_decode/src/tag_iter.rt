//! Iterates over the tags of a directory.

ghost use Rattle.std.specs.Prelude.{◌≡◌, ◌≤◌, ◌∷◌, ◌++◌, [], None, Ok, IfErr, OnOk, length, option_map, slice_get};
ghost use Rattle.std.specs.FinMap.{entries};
ghost use Rattle.std.specs.Iterator.{at_most};
ghost use Rattle.tiff_base.specs.Answers.{IsKept};
ghost use Rattle.tiff_base.specs.declared.error.TiffError.TheVariants.{OutOfMemory};
ghost use Rattle.tiff_decode.specs.Items.{fields_left, item_of, items_left, tags_left, NextItem};
ghost use Rattle.tiff_decode.specs.Outcome as outcome;
ghost use Rattle.tiff_decode.specs.Reader.{reader_of, IsBorrowed};
ghost use Rattle.tiff_decode.specs.Step.{ItemIs, Items};

use crate::decoder::Decoder;
use crate::ifd_decoder::{IfdDecoder, chosen};
use tiff_base::directory::{Directory, Entry};
use tiff_base::error::TiffResult;
use tiff_base::io::Source;
use tiff_base::tags::Tag;
use tiff_ifd::field_reader::FieldReader;
use tiff_ifd::value::Value;

// The field after a tag number, or the first field, with its tag number.
fn next_field(directory: &Directory, last: Option<u16>) -> Option<(u16, &Entry)>
    ensures { option_map (λ x. (x.0, x.1.now)) result
        ≡ slice_get (fields_left last (entries directory.now.entries)) 0 }
{
    // By the last number, and by no iterator: that would borrow the decoder that reads the values.
    match last {
        None => directory
            .iter()
            .next()
            .map(|(tag, entry)| (tag.to_u16(), entry)),
        Some(number) => directory.first_after(number),
    }
}

// Reads the value of a field, and returns it with the tag.
#[tactic(auto, using(crate::proofs::Items::item_refused))]
fn read_item<R: Source>(
    fields: &FieldReader<'_>,
    source: &mut R,
    number: u16,
    entry: &Entry,
) -> TiffResult<(Tag, Value)>
    ensures kept { IsKept R.contents R.failures result source.old source.new }
    ensures item { ItemIs (item_of fields.now.kind fields.now.order (R.contents source.old).bytes
        fields.now.limits.now (number, entry.now)) result (R.failures source.old)
        (R.failures source.new) }
{
    let value = fields.read_value(source, entry)?;
    Ok((Tag::from_u16_exhaustive(number), value))
}

// Appends an item to a list.
fn add<T: Drop>(items: &mut Vec<T>, item: T) -> TiffResult<()>
    ensures ok { OnOk result (items.new.items ≡ items.old.items ++ item ∷ []) }
    ensures err { IfErr result (λ e. e ≡ OutOfMemory) }
{
    items.push(item)?;
    Ok(())
}

impl<R: Source> Decoder<R> {
    // Reads the next item of the tags of the page's directory, or of another one: the field after
    // the tag number `last`, or the first field. Sets `last` to the number of that field, also
    // where its value has an error.
    pub(crate) fn next_item(
        &mut self,
        other: Option<&Directory>,
        last: &mut Option<u16>,
    ) -> Option<TiffResult<(Tag, Value)>>
        ensures state { self.new ≡ record self.old { failures = self.new.failures } }
        ensures count { self.old.failures ≤ self.new.failures }
        ensures item { NextItem
            (items_left (reader_of self.old (option_map (λ d. d.now) other.entry)) last.old) result
            (items_left (reader_of self.old (option_map (λ d. d.now) other.entry)) last.new)
            self.old.failures self.new.failures }
    {
        let alloc = self.alloc;
        let tags = &mut self.tags;
        let Some((number, entry)) = next_field(chosen(&tags.directory, other), *last) else {
            return None;
        };
        *last = Some(number);
        let fields = FieldReader {
            alloc,
            kind: tags.kind,
            order: tags.order,
            limits: &tags.limits,
        };
        Some(read_item(&fields, &mut tags.source, number, entry))
    }

    // Reads all tags of the page with their values. An item is a tag with its value, or the error
    // of the value.
    #[tactic(auto, using(crate::proofs::TagList::begun, crate::proofs::TagList::ended))]
    pub(crate) fn all_tags(&mut self) -> TiffResult<Vec<TiffResult<(Tag, Value)>>>
        ensures { Items (outcome.tag_iter self.old) result self.old self.new }
    {
        let mut items = Vec::new(self.alloc);
        let mut last = None;
        while let Some(item) = self.next_item(None, &mut last) {
            add(&mut items, item)?;
        }
        Ok(items)
    }

    /// Iterates over the tags of the page with their values, by ascending number, as
    /// `IfdDecoder::tag_iter`. An item is a tag with its value, or the error of the value.
    #[tactic(auto, unfolding(crate::specs::Outcome::tag_iter, tiff_ifd::specs::TagQueries::tag_items))]
    pub fn tag_iter(&mut self) -> TagIter<'_, R>
        ensures same_reference { result.reader.decoder.ghost_name ≡ self.entry.ghost_name }
        ensures decoder { result.reader.decoder.now ≡ self.old }
        ensures other { result.reader.other ≡ None }
        ensures left { items_left self.old result.last ≡ outcome.tag_iter self.old }
    {
        self.image_ifd().tag_iter()
    }
}

impl<'a, R: Source> IfdDecoder<'a, R> {
    /// Iterates over the tags with their values, by ascending number. An item whose value cannot be
    /// read is an error of `find_tag`; it does not name its tag, and later items still follow. The
    /// iterator allocates no memory of its own. An item takes one look-up and the read of its
    /// value.
    #[tactic(auto, unfolding(crate::specs::Outcome::tag_iter, tiff_ifd::specs::TagQueries::tag_items))]
    pub fn tag_iter(self) -> TagIter<'a, R>
        ensures same_reference { result.reader.decoder.ghost_name ≡ self.entry.decoder.ghost_name }
        ensures decoder { result.reader.decoder.now ≡ self.entry.decoder.now }
        ensures other { result.reader.other ≡ self.entry.other }
        ensures left { items_left
            (reader_of self.entry.decoder.now (option_map (λ d. d.now) self.entry.other))
            result.last ≡
            outcome.tag_iter (reader_of self.entry.decoder.now (option_map (λ d. d.now) self.entry.other)) }
    {
        TagIter {
            reader: self,
            last: None,
        }
    }
}

/// The tags of a directory with their values, by ascending number: the iterator of
/// `IfdDecoder::tag_iter`.
#[derive(Drop)]
pub struct TagIter<'a, R: Source> {
    reader: IfdDecoder<'a, R>,
    last: Option<u16>,
}

impl<'a, R: Source> Iterator for TagIter<'a, R> {
    type Item = TiffResult<(Tag, Value)>;

    // Keeps the decoder that it borrows and the directory, and returns the next item, if one is
    // left.
    ghost next_gives = { λ s r t. IsBorrowed s.reader.decoder t.reader.decoder × (t.reader.other ≡ s.reader.other)
        × NextItem (tags_left s.reader.decoder s.reader.other s.last) r
        (tags_left t.reader.decoder t.reader.other t.last) s.reader.decoder.now.failures
        t.reader.decoder.now.failures };

    ghost remaining = { λ s. at_most (length (tags_left s.reader.decoder s.reader.other s.last)) };

    fn next(&mut self) -> Option<TiffResult<(Tag, Value)>> {
        let other = self.reader.other;
        let decoder = &mut *self.reader.decoder;
        decoder.next_item(other, &mut self.last)
    }
}

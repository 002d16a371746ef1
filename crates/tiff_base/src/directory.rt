//! Directories (IFDs): a field for each of some tags.

ghost use Rattle.std.specs.Prelude.{◌≡◌, ℕ, ◌^◌, ◌<◌, ◌++◌, ◌∷◌, [], List, IfErr, IfOk, OnOk, OnErr, IsOk, None, true, option_map, slice_get, unwrap_or, ◌==◌};
ghost use Rattle.std.specs.FinMap as map;
ghost use Rattle.std.specs.Iterator.{Drains, ExtendsWithItems, IsFinite, YieldsFirstBy, item_count};
ghost use Rattle.std.specs.Option.{IfSome};
ghost use Rattle.tiff_base.specs.Tags.{tag_number, tag_of};
ghost use Rattle.tiff_base.specs.declared.tags.Tag.{Tag};
ghost use Rattle.tiff_base.specs.declared.error.TiffError.TheVariants.{OutOfMemory};
ghost use Rattle.tiff_base.specs.Directory.{with_entries, fields_after, last_of_each, link};
ghost use Rattle.tiff_base.specs.Field.{AreEntries, Field, IsEntry};
ghost use Rattle.tiff_base.specs.Place.{IsAscending, IsBehind, IsGapFor, IsPlaceOf};

use crate::error::TiffResult;
use crate::gathered::last_of_each_tag;
pub use crate::place::{KeyCount, find_place};
use crate::tags::{IfdPointer, Tag, Type};
use std::alloc::{AllocError, Global};
use std::marker::Model;
use std::{fmt, slice};

/// A field of a directory: the type of its values, their number, and their bytes or their offset.
#[derive(Clone, Debug, Drop)]
pub struct Entry {
    field_type: Type,
    count: u64,
    value: [u8; 8],
}

impl Model for Entry {
    ghost use Rattle.std.specs.Prelude.{◌≡◌, ◌^◌, ◌<◌, length};
    ghost use Rattle.tiff_base.specs.Field.{Field};
    ghost use Rattle.tiff_base.specs.SourceAndSink.{AreOctets};

    ghost Value = { Field };

    ghost view = { λ e. record { field_type = e.field_type; count = e.count; value = e.value } };

    ghost invariant = { λ e. (e.count < 2 ^ 64) × (length e.value ≡ 8) × AreOctets e.value };

    ghost inverse = { λ f. record { field_type = f.field_type; count = f.count; value = f.value } };
}

impl Entry {
    /// Makes a field from a value field of 4 bytes, followed by 4 zeros.
    pub fn new(field_type: Type, count: u32, value: [u8; 4]) -> Self
        ensures { result ≡ record {
          field_type = field_type;
          count = count;
          value = value ++ (0 ∷ 0 ∷ 0 ∷ 0 ∷ []);
        } }
    {
        let mut wide = [0u8; 8];
        wide[..4].copy_from_slice(&value);
        Entry::new_u64(field_type, u64::from(count), wide)
    }

    /// Makes a field from a value field of 8 bytes.
    pub fn new_u64(field_type: Type, count: u64, value: [u8; 8]) -> Self
        ensures { result ≡ record { field_type = field_type; count = count; value = value } }
    {
        Entry {
            field_type,
            count,
            value,
        }
    }

    /// Returns the type of the values.
    pub fn field_type(&self) -> Type
        ensures { result ≡ self.now.field_type }
    {
        self.field_type
    }

    /// Returns the number of values.
    pub fn count(&self) -> u64
        ensures { result ≡ self.now.count }
    {
        self.count
    }

    /// Returns the eight bytes of the value field.
    pub fn value(&self) -> [u8; 8]
        ensures { result ≡ self.now.value }
    {
        self.value
    }

    /// The contract states that the field, under each tag number of 16 bits, is an entry that a
    /// directory can have. The call has no effect.
    pub fn fits(&self)
        ensures { (tag : ℕ) → tag < 2 ^ 16 → IsEntry (tag, self.now) }
    {
        // The first use of a field opens the value: only then does the prover know its invariant.
        let _count = &self.count;
    }
}

/// The fields of a directory by their tags, and the offset of the next directory.
#[derive(Drop)]
pub struct Directory {
    // The pairs are in strictly ascending tag number.
    entries: Vec<(u16, Entry)>,
    next: u64,
}

impl Model for Directory {
    ghost use Rattle.std.specs.FinMap as map;
    ghost use Rattle.std.specs.Prelude.{ℕ};
    ghost use Rattle.tiff_base.specs.Field.{DirectoryRecord, Field, In, IsEntry};
    ghost use Rattle.tiff_base.specs.Place.{IsAscending};

    ghost Value = { DirectoryRecord };

    ghost use Rattle.std.specs.Coded.{codes};

    ghost coded = { Prim.hlevel (codes, map.code) };

    ghost use Rattle.tiff_base.specs.Directory.{link};

    ghost view = { λ d. record { entries = map.from_entries d.entries.items; next = link d.next } };

    ghost invariant = { λ d. IsAscending d.entries.items × ((e : ℕ × Field) → In e d.entries.items → IsEntry e) };
}

// Returns the index of the pair that has a tag number, or else the index where an insertion keeps
// the order.
fn place_in(entries: &Vec<(u16, Entry)>, number: u16) -> Result<usize, usize>
    requires { IsAscending entries.now.items }
    ensures found { IfOk result (IsPlaceOf number entries.now.items) }
    ensures absent { IfErr result (IsGapFor number entries.now.items) }
{
    let mut count = KeyCount::new();
    find_place(entries, number, &mut count)
}

// Returns how many pairs have at most this tag number.
#[tactic(auto, using(crate::proofs::Places::behind_place, crate::proofs::Places::behind_gap))]
fn behind(entries: &Vec<(u16, Entry)>, number: u16) -> usize
    requires { IsAscending entries.now.items }
    ensures { IsBehind number entries.now.items result }
{
    match place_in(entries, number) {
        Ok(at) => at + 1,
        Err(at) => at,
    }
}

impl Directory {
    /// Makes a directory with no field and no next directory.
    pub fn empty(alloc: Global) -> Self
        ensures { result ≡ record { entries = map.empty; next = None } }
    {
        Directory {
            entries: Vec::new(alloc),
            next: 0,
        }
    }

    /// Makes a directory of fields under their tag numbers. Of several fields with one number, it
    /// keeps the last. It has no next directory. Fields in strictly ascending number are taken as
    /// they are, and others are sorted.
    pub fn from_entries(entries: Vec<(u16, Entry)>) -> Result<Self, AllocError>
        ensures { IfOk result
            (λ d. d ≡ record { entries = last_of_each entries.items; next = None }) }
    {
        // Sorted once: 65,535 fields may come in descending order, and to insert each would move
        // all behind it.
        Ok(Directory {
            entries: last_of_each_tag(entries)?,
            next: 0,
        })
    }

    /// Returns the field of a tag, if there is one.
    #[tactic(auto, using(crate::proofs::Places::get_at))]
    pub fn get(&self, tag: Tag) -> Option<&Entry>
        ensures { option_map (λ e. e.now) result ≡ map.get self.now.entries (tag_number tag) }
    {
        match place_in(&self.entries, tag.to_u16()) {
            Ok(at) => Some(&self.entries[at].1),
            Err(_) => None,
        }
    }

    /// Returns whether there is a field of a tag.
    #[tactic(auto, using(crate::proofs::Places::contains_at))]
    pub fn contains(&self, tag: Tag) -> bool
        ensures { result ≡ map.contains_key self.now.entries (tag_number tag) }
    {
        match place_in(&self.entries, tag.to_u16()) {
            Ok(_) => true,
            Err(_) => false,
        }
    }

    /// Returns the number of fields.
    #[tactic(auto, using(crate::specs::lemmas::Maps::len_of_tree))]
    pub fn len(&self) -> usize
        ensures { result ≡ map.len self.now.entries }
    {
        self.entries.len()
    }

    /// Returns whether there is no field.
    #[tactic(auto, using(crate::specs::lemmas::Maps::len_of_tree))]
    pub fn is_empty(&self) -> bool
        ensures { result ≡ (map.len self.now.entries == 0) }
    {
        self.len() == 0
    }

    /// The contract states that each field, with its tag number, is an entry that a directory can
    /// have. The call has no effect.
    pub fn entries_fit(&self)
        ensures { AreEntries self.now.entries }
    {
        let _next = &self.next;
    }

    /// Returns the offset of the next directory, if there is one.
    pub fn next(&self) -> Option<IfdPointer>
        ensures { option_map (λ p. p.0) result ≡ self.now.next }
    {
        if self.next == 0 {
            None
        } else {
            Some(IfdPointer(self.next))
        }
    }

    /// Returns an iterator over the fields with their tags, in ascending tag number.
    #[tactic(auto, using(crate::specs::lemmas::Maps::entries_of_tree))]
    pub fn iter(&self) -> Iter<'_>
        ensures { result ≡ map.entries self.now.entries }
    {
        Iter {
            inner: self.entries.iter(),
        }
    }

    /// Returns the first field whose tag number is above `number`, with its tag number. It costs
    /// one look-up. This project adds this function.
    #[tactic(auto, using(crate::proofs::Places::none_behind, crate::proofs::Places::some_behind))]
    pub fn first_after(&self, number: u16) -> Option<(u16, &Entry)>
        ensures { option_map (λ x. (x.0, x.1.now)) result
            ≡ slice_get (fields_after number (map.entries self.now.entries)) 0 }
    {
        let at = behind(&self.entries, number);
        if at >= self.entries.len() {
            return None;
        }
        let (next, entry) = &self.entries[at];
        Some((*next, entry))
    }

    /// Reserves memory for the field of a tag, if the directory has no such field, so that setting
    /// this field allocates nothing after it. No clause says how much memory is reserved.
    pub fn make_room(&mut self, tag: Tag) -> Result<(), AllocError>
        ensures { self.new ≡ self.old }
    {
        if self.contains(tag) {
            return Ok(());
        }
        self.entries.reserve(1)
    }

    /// Sets the field of a tag number. After an error the directory is unchanged. A tag that has a
    /// field is set without an error.
    #[tactic(auto, using(crate::proofs::Places::inserted_in_gap, crate::proofs::Places::replaced_at))]
    pub fn insert(&mut self, tag: u16, entry: Entry) -> Result<(), AllocError>
        ensures ok { OnOk result
            (self.new ≡ record self.old { entries = map.insert self.old.entries tag entry }) }
        ensures err { OnErr result (self.new ≡ self.old) }
        ensures there { map.contains_key self.old.entries tag ≡ true → IsOk result }
    {
        entry.fits();
        match place_in(&self.entries, tag) {
            Ok(at) => self.entries[at] = (tag, entry),
            Err(at) => self.entries.insert(at, (tag, entry))?,
        }
        Ok(())
    }

    /// Removes the field of a tag and returns it, if there is one.
    #[tactic(auto, using(crate::proofs::Places::get_at, crate::proofs::Places::removed_at))]
    pub fn remove(&mut self, tag: Tag) -> Option<Entry>
        ensures taken { result ≡ map.get self.old.entries (tag_number tag) }
        ensures left { self.new ≡ record self.old { entries = map.remove self.old.entries (tag_number tag) } }
    {
        match place_in(&self.entries, tag.to_u16()) {
            Ok(at) => Some(self.entries.remove(at).1),
            Err(_) => None,
        }
    }

    /// Sets the fields of tags in turn. Of several fields with one number, the directory keeps the
    /// last. The only error is `OutOfMemory`, after which the fields before the failed one are set.
    pub fn extend<U: IntoIterator<Item = (Tag, Entry)>>(&mut self, iter: U) -> TiffResult<()>
        requires { (it : U.IntoIter) → U.into_iter_gives iter it
            → U.IntoIter.can_next it × IsFinite (U.IntoIter.remaining it) }
        ensures ran { ExtendsWithItems U.into_iter_gives U.IntoIter.next_gives
            (λ d items n. n ≡ with_entries d items)
            iter self.old self.new result }
        ensures err { IfErr result (λ e. e ≡ OutOfMemory) }
    {
        let mut rest = iter.into_iter();
        while let Some(item) = rest.next() {
            let (tag, entry) = item;
            self.insert(tag.to_u16(), entry)?;
        }
        Ok(())
    }

    /// Makes a directory of the fields of tags, set in turn. Of several fields with one number, it
    /// keeps the last. It has no next directory. The only error is `OutOfMemory`.
    pub fn from_iter<U: IntoIterator<Item = (Tag, Entry)>>(
        alloc: Global,
        iter: U,
    ) -> TiffResult<Self>
        requires { (it : U.IntoIter) → U.into_iter_gives iter it
            → U.IntoIter.can_next it × IsFinite (U.IntoIter.remaining it) }
        ensures ok { IfOk result (λ d. (it : U.IntoIter) × (items : List (Tag × Field))
            × U.into_iter_gives iter it
            × Drains U.IntoIter.next_gives it items
            × (d ≡ with_entries (record { entries = map.empty; next = None }) items)) }
        ensures err { IfErr result (λ e. e ≡ OutOfMemory) }
    {
        let mut directory = Directory::empty(alloc);
        directory.extend(iter)?;
        Ok(directory)
    }

    /// Sets the offset of the next directory. Both `None` and the offset 0 say that there is no
    /// next directory.
    pub fn set_next(&mut self, next: Option<IfdPointer>)
        ensures { self.new
            ≡ record self.old { next = link (unwrap_or (option_map (λ p. p.0) next) 0) } }
    {
        self.next = match next {
            Some(pointer) => pointer.0,
            None => 0,
        };
    }

    /// Sets the offset of the next directory. The offset 0 says that there is none.
    pub fn link_to(&mut self, offset: u64)
        ensures { self.new ≡ record self.old { next = link offset } }
    {
        self.next = offset;
    }
}

// The fields of a directory, for `Debug` to show as a map.
#[derive(Drop)]
struct ShownFields<'a> {
    entries: &'a [(u16, Entry)],
}

impl<'a> fmt::Debug for ShownFields<'a> {
    fn fmt<W: fmt::Write>(&self, f: &mut fmt::Formatter<W>) -> fmt::Result {
        let mut map = f.debug_map();
        for (tag, entry) in self.entries {
            map.entry(tag, entry);
        }
        map.finish()
    }
}

impl fmt::Debug for Directory {
    fn fmt<W: fmt::Write>(&self, f: &mut fmt::Formatter<W>) -> fmt::Result {
        let fields = ShownFields {
            entries: &self.entries,
        };
        f.debug_struct("Directory")
            .field("entries", &fields)
            .field("next", &self.next)
            .finish()
    }
}

/// An iterator over the fields of a directory with their tags, in ascending tag number.
#[derive(Drop)]
pub struct Iter<'a> {
    inner: slice::Iter<'a, (u16, Entry)>,
}

impl<'a> Model for Iter<'a> {
    ghost use Rattle.std.specs.Prelude.{List, ℕ};
    ghost use Rattle.std.specs.Slice.Iter.{iter_rest};
    ghost use Rattle.tiff_base.specs.Field.{Field};

    ghost Value = { List (ℕ × Field) };

    ghost view = { λ i. iter_rest i.inner };
}

// Returns a field with its tag.
#[tactic(auto, using(crate::proofs::Named::tags, crate::proofs::Named::tag_again))]
fn tagged(field: &(u16, Entry)) -> (Tag, &Entry)
    ensures pair { (tag_number result.0, result.1.now) ≡ field.now }
    ensures named { result.0 ≡ tag_of (tag_number result.0) }
{
    let (number, entry) = field;
    (Tag::from_u16_exhaustive(*number), entry)
}

impl<'a> Iterator for Iter<'a> {
    type Item = (Tag, &'a Entry);

    ghost next_gives = { λ old item new. YieldsFirstBy (λ x. (tag_number x.0, x.1.now)) (λ s. s) old item new
        × IfSome item (λ x. x.0 ≡ tag_of (tag_number x.0)) };

    ghost remaining = { item_count (λ s. s) };

    fn next(&mut self) -> Option<(Tag, &'a Entry)> {
        let field = self.inner.next()?;
        Some(tagged(field))
    }
}

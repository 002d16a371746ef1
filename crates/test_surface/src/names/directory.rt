//! The calls of `tiff::directory`.

use tiff::Directory;
use tiff::directory::{Entry, KeyCount, find_place};
use tiff::tags::Tag;

// Entries and the places of keys.
fn name_entries() {
    let _call = Entry::new;
    let _call = Entry::new_u64;
    let _call = Entry::field_type;
    let _call = Entry::count;
    let _call = Entry::value;
    let _call = Entry::fits;
    let _call = KeyCount::new;
    let _call = KeyCount::compare;
    let _call = find_place;
}

// Calls that ask a directory.
fn name_queries() {
    let _call = Directory::get;
    let _call = Directory::contains;
    let _call = Directory::len;
    let _call = Directory::is_empty;
    let _call = Directory::entries_fit;
    let _call = Directory::next;
    let _call = Directory::iter;
    let _call = Directory::first_after;
}

// Calls that make or change a directory.
fn name_changes<I: IntoIterator<Item = (Tag, Entry)>>() {
    let _call = Directory::empty;
    let _call = Directory::from_entries;
    let _call = Directory::from_iter::<I>;
    let _call = Directory::extend::<I>;
    let _call = Directory::make_room;
    let _call = Directory::insert;
    let _call = Directory::remove;
    let _call = Directory::set_next;
    let _call = Directory::link_to;
}

/// Names the calls.
pub fn name_calls() {
    name_entries();
    name_queries();
    name_changes::<[(Tag, Entry); 1]>();
}

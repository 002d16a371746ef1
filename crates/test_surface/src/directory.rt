//! `tiff::directory`.

use crate::report::Report;
use tiff::TiffResult;
use tiff::directory::{Directory, Entry, KeyCount};
use tiff::tags::{IfdPointer, Tag, Type};

fn add_entries(report: &mut Report) {
    let entry = Entry::new(Type::SHORT, 2, [1, 2, 3, 4]);
    report.line("Entry::field_type", entry.field_type());
    report.line("Entry::count", entry.count());
    report.line("Entry::value", entry.value());
    report.line("Entry::new", entry);
    let entry = Entry::new_u64(Type::LONG8, 1, [1, 2, 3, 4, 5, 6, 7, 8]);
    report.line("Entry::new_u64", entry);
    report.line("KeyCount::compare", KeyCount::new().compare(3, 4));
}

// An entry of `count` bytes.
fn bytes(count: u32) -> Entry {
    Entry::new(Type::BYTE, count, [0; 4])
}

// The count of each entry, in their order.
fn add_counts(report: &mut Report, call: &str, directory: &Directory) {
    for (tag, entry) in directory.iter() {
        report.line(call, (tag, entry.count()));
    }
}

// Sets fields of a directory, in no order, one of them twice.
fn add_fields(report: &mut Report, directory: &mut Directory) {
    report.line("Directory::is_empty", directory.is_empty());
    let items = [(Tag::Artist, bytes(3)), (Tag::Unknown(256), bytes(1))];
    report.line("Directory::extend", directory.extend(items));
    report.line("Directory::insert", directory.insert(272, bytes(9)));
    report.line("Directory::insert", directory.insert(272, bytes(2)));
    report.line("Directory::make_room", directory.make_room(Tag::Make));
    report.line("Directory::len", directory.len());
    report.line("Directory::is_empty", directory.is_empty());
    add_counts(report, "Directory::iter", directory);
}

// Sets one field three times.
fn add_last(report: &mut Report, directory: &mut Directory) {
    let tag = Tag::Unknown(1);
    let items = [(tag, bytes(0)), (tag, bytes(1)), (tag, bytes(65535))];
    report.line("Directory::extend", directory.extend(items));
    add_counts(report, "Directory::extend", directory);
}

// What a directory returns of its fields.
fn add_answers(report: &mut Report, directory: &mut Directory) {
    report.line("Directory::get", directory.get(Tag::ImageWidth));
    report.line("Directory::contains", directory.contains(Tag::ImageWidth));
    report.line("Directory::contains", directory.contains(Tag::Make));
    report.line("Directory::first_after", directory.first_after(256));
    report.line("Directory::remove", directory.remove(Tag::Artist));
    report.line("Directory::remove", directory.remove(Tag::Artist));
}

// The link of a directory.
fn add_links(report: &mut Report, directory: &mut Directory) {
    report.line("Directory::next", directory.next());
    directory.set_next(Some(IfdPointer(8)));
    report.line("Directory::set_next", directory.next());
    directory.set_next(Some(IfdPointer(0)));
    report.line("Directory::set_next", directory.next());
    directory.link_to(9);
    report.line("Directory::link_to", directory.next());
}

/// Adds the lines of directories.
pub fn add_lines(report: &mut Report) -> TiffResult<()> {
    add_entries(report);
    let mut directory = Directory::empty(report.alloc());
    add_fields(report, &mut directory);
    add_answers(report, &mut directory);
    add_links(report, &mut directory);
    let mut made = Directory::from_iter(report.alloc(), [(Tag::Make, bytes(4))])?;
    add_counts(report, "Directory::from_iter", &made);
    add_last(report, &mut made);
    Ok(())
}

//! Sorts fields into strictly ascending tag number.

ghost use Rattle.std.specs.Prelude.{◌≡◌, IfOk, All};
ghost use Rattle.std.specs.Bool.{OnTrue};
ghost use Rattle.std.specs.FinMap as map;
ghost use Rattle.tiff_base.specs.Directory.{last_of_each};
ghost use Rattle.tiff_base.specs.Field.{IsEntry};
ghost use Rattle.tiff_base.specs.Place.{IsAscending};

use crate::directory::Entry;
use std::alloc::AllocError;

// The contract states that each pair is an entry that a directory can have. The call has no effect.
fn each_fits(entries: &[(u16, Entry)])
    ensures { All IsEntry entries.now }
{
    for i in 0..entries.len() {
        let _number = entries[i].0;
        entries[i].1.fits();
    }
}

// Returns whether each tag number is below the next one.
fn ascends(entries: &[(u16, Entry)]) -> bool
    ensures { OnTrue result (IsAscending entries.now) }
{
    for i in 1..entries.len() {
        if entries[i].0 <= entries[i - 1].0 {
            return false;
        }
    }
    true
}

/// Returns the last pair of each tag number, in strictly ascending number. Pairs whose numbers
/// already ascend strictly stay unchanged.
pub fn last_of_each_tag(mut entries: Vec<(u16, Entry)>) -> Result<Vec<(u16, Entry)>, AllocError>
    ensures ascending { IfOk result (λ left. IsAscending left.items) }
    ensures last { IfOk result (λ left. map.from_entries left.items ≡ last_of_each entries.items) }
    ensures each { IfOk result (λ left. All IsEntry left.items) }
{
    each_fits(&entries);
    if ascends(&entries) {
        return Ok(entries);
    }
    // The last field of each number is then its first, which a stable sort and `dedup` keep.
    entries.reverse();
    entries.sort_by_key(|e| e.0)?;
    entries.dedup_by_key(|e| e.0);
    Ok(entries)
}

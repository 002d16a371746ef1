//! The search for a tag number among pairs in ascending tag number.

ghost use Rattle.std.specs.Prelude.{◌≡◌, ℕ, ◌+◌, ◌^◌, ◌<◌, ◌≤◌, length, IfErr, IfOk};
ghost use Rattle.std.specs.Ordering.{nat_cmp};
ghost use Rattle.tiff_base.specs.Place.{IsAscending, IsGapFor, IsPlaceOf};

use crate::count::Count;
use crate::directory::Entry;
use std::cmp::Ordering;
use std::marker::Model;

/// The number of compared keys. Only contracts see this number, and it has no upper bound.
#[derive(Drop)]
pub struct KeyCount {
    count: Count,
}

impl Model for KeyCount {
    ghost use Rattle.std.specs.Prelude.{ℕ};

    ghost Value = { ℕ };

    ghost view = { λ c. c.count };
}

impl KeyCount {
    /// Returns a count of zero.
    pub fn new() -> KeyCount
        ensures { result ≡ 0 }
    {
        KeyCount {
            count: Count::new(),
        }
    }

    /// Compares two keys and adds one to the count.
    pub fn compare(&mut self, a: u16, b: u16) -> Ordering
        ensures order { result ≡ nat_cmp a b }
        ensures counted { self.new ≡ self.old + 1 }
    {
        self.count.add();
        a.cmp(&b)
    }
}

/// Searches pairs in strictly ascending tag number for `number`. Returns `Ok` with the index of the
/// pair that has this number, or else `Err` with the index where an insertion keeps the order. The
/// search compares at most as many keys as the number of pairs has binary digits.
pub fn find_place(
    entries: &[(u16, Entry)],
    number: u16,
    count: &mut KeyCount,
) -> Result<usize, usize>
    requires { IsAscending entries.now }
    ensures found { IfOk result (IsPlaceOf number entries.now) }
    ensures absent { IfErr result (IsGapFor number entries.now) }
    ensures grows { count.old ≤ count.new }
    ensures few { (digits : ℕ) → length entries.now < 2 ^ digits → count.new ≤ count.old + digits }
{
    // By hand: the contracts of std's searches say nothing of how many keys they compare.
    let mut low = 0;
    let mut high = entries.len();
    'halves: while low < high {
        let middle = low + (high - low) / 2;
        match count.compare(entries[middle].0, number) {
            Ordering::Less => low = middle + 1,
            Ordering::Equal => return Ok(middle),
            Ordering::Greater => high = middle,
        }
    }
    Err(low)
}

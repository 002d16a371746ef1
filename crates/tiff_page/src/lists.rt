//! Lists that a page has.

ghost use Rattle.std.specs.Prelude.{◌≡◌, ◌<◌, length, replicate, slice_index};
ghost use Rattle.std.specs.List.{slice_get};
ghost use Rattle.tiff_page.specs.Lists.{one_known};

use std::marker::Model;
use tiff_base::tags::ExtraSamples;

/// What is known of the extra samples: all of them, or how many there are, which are alike.
#[derive(Drop)]
pub enum KnownSamples {
    All(Vec<ExtraSamples>),
    // A plan keeps their number and the first alone, by which a color is found.
    Alike { count: usize, sample: ExtraSamples },
}

/// What the samples beyond those of the color mean. Contracts see the list of the meanings.
#[derive(Drop)]
pub struct ExtraSampleList {
    known: KnownSamples,
}

impl Model for ExtraSampleList {
    ghost use Rattle.std.specs.Prelude.{List};
    ghost use Rattle.tiff_base.specs.declared.tags.ExtraSamples.{ExtraSamples};

    ghost Value = { List ExtraSamples };

    ghost use Rattle.tiff_page.specs.Lists.{samples_of};

    ghost view = { λ l. samples_of l.known };
}

impl ExtraSampleList {
    /// Returns a list of these meanings.
    pub fn from_vec(samples: Vec<ExtraSamples>) -> Self
        ensures { result ≡ samples.items }
    {
        ExtraSampleList {
            known: KnownSamples::All(samples),
        }
    }

    /// Returns a list of `count` times the same meaning. Takes no memory.
    pub fn alike(count: usize, sample: ExtraSamples) -> Self
        ensures { result ≡ replicate count sample }
    {
        ExtraSampleList {
            known: KnownSamples::Alike { count, sample },
        }
    }

    /// The number of extra samples.
    pub fn len(&self) -> usize
        ensures { result ≡ length self.now }
    {
        match &self.known {
            KnownSamples::All(samples) => samples.len(),
            KnownSamples::Alike { count, .. } => *count,
        }
    }

    /// The meaning of the first extra sample.
    pub fn first(&self) -> Option<ExtraSamples>
        ensures { result ≡ slice_get self.now 0 }
    {
        match &self.known {
            KnownSamples::All(samples) => samples.first().copied(),
            KnownSamples::Alike { count: 0, .. } => None,
            KnownSamples::Alike { sample, .. } => Some(*sample),
        }
    }
}

/// What is known of the numbers of a tag: all of them, or one of them.
#[derive(Drop)]
pub enum KnownNumbers {
    All(Vec<u64>),
    // A plan reads the numbers of one chunk, and makes the page for this chunk.
    One {
        count: usize,
        index: usize,
        number: u64,
    },
}

/// The numbers of a tag: all of them, or one of them, and the others read as 0. Contracts see the
/// list of the numbers.
#[derive(Drop)]
pub struct NumberList {
    known: KnownNumbers,
}

impl Model for NumberList {
    ghost use Rattle.std.specs.Prelude.{List, ℕ};
    ghost use Rattle.std.specs.Coded.{coded_list, coded_ℕ};

    ghost Value = { List ℕ };

    ghost coded = { coded_list coded_ℕ };

    ghost use Rattle.tiff_page.specs.Lists.{numbers_of};

    ghost view = { λ l. numbers_of l.known };
}

impl NumberList {
    /// Returns a list of which all numbers are known.
    pub fn from_vec(numbers: Vec<u64>) -> Self
        ensures { result ≡ numbers.items }
    {
        NumberList {
            known: KnownNumbers::All(numbers),
        }
    }

    /// Returns a list of `count` numbers of which the one at `index` is known. The others read as
    /// 0. Takes no memory.
    pub fn one(count: usize, index: usize, number: u64) -> Self
        ensures { result ≡ one_known count index number }
    {
        NumberList {
            known: KnownNumbers::One {
                count,
                index,
                number,
            },
        }
    }

    /// The number of numbers.
    pub fn len(&self) -> usize
        ensures { result ≡ length self.now }
    {
        match &self.known {
            KnownNumbers::All(numbers) => numbers.len(),
            KnownNumbers::One { count, .. } => *count,
        }
    }

    /// The number at an index, which is below the number of numbers.
    pub fn get(&self, index: usize) -> u64
        requires { index < length self.now }
        ensures { result ≡ slice_index self.now index }
    {
        match &self.known {
            KnownNumbers::All(numbers) => numbers[index],
            KnownNumbers::One {
                index: known,
                number,
                ..
            } if index == *known => *number,
            KnownNumbers::One { .. } => 0,
        }
    }
}

//! How a sink takes the bytes that it is offered.

ghost use Rattle.std.specs.Prelude.{◌≤◌, ◌<◌};

use crate::failure::Failure;
use tiff_base::io::SinkFault;

/// How many of the offered bytes a sink takes at once.
#[derive(Clone, Copy, Drop)]
pub enum Appetite {
    All,
    One,
    /// One byte less than offered, but at least one.
    OneLess,
}

impl Appetite {
    /// How many of `offered` bytes the sink takes.
    pub fn of(self, offered: usize) -> usize
        ensures at_most { result ≤ offered }
        ensures some { 0 < offered → 0 < result }
    {
        match self {
            Appetite::All => offered,
            Appetite::One => offered.min(1),
            Appetite::OneLess => { if offered > 1 { offered - 1 } else { offered } }
        }
    }
}

/// How a sink takes the bytes that it is offered: how many at once, at which call it fails, and
/// with which error.
#[derive(Clone, Copy, Drop)]
pub struct Manner {
    pub appetite: Appetite,
    pub failure: Failure,
    pub fault: SinkFault,
}

// The failure at the call with this number, counted from 1.
fn call_of(word: &str) -> Option<Failure> {
    Some(Failure::Behind(word.parse::<u64>().ok()?.checked_sub(1)?))
}

impl Manner {
    /// The sink has this appetite and doesn't fail.
    pub fn plain(appetite: Appetite) -> Self {
        Manner {
            appetite,
            failure: Failure::Never,
            fault: SinkFault::Device,
        }
    }

    /// The sink fails with this error after `calls` calls.
    pub fn failing(appetite: Appetite, calls: u64, fault: SinkFault) -> Self {
        Manner {
            appetite,
            failure: Failure::Behind(calls),
            fault,
        }
    }

    // The manner that the words after an appetite describe.
    fn with_failure(appetite: Appetite, words: &str) -> Option<Self> {
        if words.is_empty() {
            return Some(Manner::plain(appetite));
        }
        let (fault, failure) = match words.strip_prefix(" fails ") {
            Some(word) => (SinkFault::Device, call_of(word)?),
            None => (
                SinkFault::OutOfMemory,
                call_of(words.strip_prefix(" refuses ")?)?,
            ),
        };
        Some(Manner {
            appetite,
            failure,
            fault,
        })
    }

    /// The manner that the words describe, if they describe one.
    pub fn of_words(words: &str) -> Option<Self> {
        if let Some(words) = words.strip_prefix(" bytewise") {
            return Manner::with_failure(Appetite::One, words);
        }
        if let Some(words) = words.strip_prefix(" sparing") {
            return Manner::with_failure(Appetite::OneLess, words);
        }
        Manner::with_failure(Appetite::All, words)
    }
}

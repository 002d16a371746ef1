//! A count that only contracts see.

ghost use Rattle.std.specs.Prelude.{◌≡◌, ◌+◌};

use std::marker::Model;
use std::snapshot::Snapshot;

// The state of a count: a snapshot of the state before the last addition. A snapshot has no bytes.
#[derive(Drop)]
struct Steps {
    last: Option<Snapshot<Steps>>,
}

/// A natural number that only contracts see. It has no upper bound.
#[derive(Drop)]
pub struct Count {
    steps: Steps,
}

impl Model for Count {
    ghost use Rattle.std.specs.Prelude.{ℕ};

    ghost Value = { ℕ };

    ghost use Rattle.tiff_base.specs.Depth.{depth};

    ghost view = { λ c. depth c.steps };
}

impl Count {
    pub fn new() -> Count
        ensures { result ≡ 0 }
    {
        Count {
            steps: Steps { last: None },
        }
    }

    /// Adds one to the count.
    pub fn add(&mut self)
        ensures { self.new ≡ self.old + 1 }
    {
        let last = Snapshot::of(&self.steps);
        self.steps = Steps { last: Some(last) };
    }
}

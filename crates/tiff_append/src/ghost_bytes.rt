//! Bytes that only contracts see.

ghost use Rattle.std.specs.Prelude.{◌≡◌, [], ◌∷◌, ◌++◌};

use std::marker::Model;
use std::snapshot::Snapshot;
use tiff_base::io::ByteWitness;

// The state of ghost bytes: a snapshot of the state before the last byte came, and of that byte.
// The first state has no earlier state, and its byte does not count. A snapshot has no bytes.
#[derive(Drop)]
struct Pushes {
    last: Option<Snapshot<Pushes>>,
    byte: Snapshot<u8>,
}

/// Bytes that only contracts see. Nothing of them is stored.
#[derive(Drop)]
pub struct GhostBytes {
    pushes: Pushes,
}

impl Model for GhostBytes {
    ghost use Rattle.std.specs.Prelude.{ℕ, List};

    ghost Value = { List ℕ };

    ghost use Rattle.tiff_append.specs.GhostBytes.{pushed};

    ghost view = { λ u. pushed u.pushes };
}

impl GhostBytes {
    /// No bytes.
    pub fn new() -> GhostBytes
        ensures { result ≡ [] }
    {
        GhostBytes {
            pushes: Pushes {
                last: None,
                byte: Snapshot::of(&0),
            },
        }
    }

    /// Adds a byte at the end.
    pub fn push(&mut self, byte: u8)
        ensures { self.new ≡ self.old ++ byte ∷ [] }
    {
        let last = Snapshot::of(&self.pushes);
        self.pushes = Pushes {
            last: Some(last),
            byte: Snapshot::of(&byte),
        };
    }

    /// Adds bytes at the end. The loop does nothing that is left when the program runs.
    pub fn add(&mut self, bytes: &[u8])
        ensures { self.new ≡ self.old ++ bytes.now }
    {
        for byte in bytes {
            self.push(*byte);
        }
    }
}

impl ByteWitness for GhostBytes {
    ghost seen = { λ u. u };

    fn see(&mut self, byte: u8) {
        self.push(byte);
    }
}

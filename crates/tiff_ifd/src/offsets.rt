//! A sequence of offsets, and whether it contains a given offset.

ghost use Rattle.std.specs.Prelude.{◌≡◌, ◌++◌, ◌∷◌, [], ◌+◌, ◌-◌, ◌<◌, length, IfOk, OnOk, OnErr, nat_eq};
ghost use Rattle.std.specs.List.{list_any, slice_get};
ghost use Rattle.tiff_ifd.specs.Met.{HasFirst};

use std::alloc::{AllocError, Global};
use std::collections::BTreeSet;
use std::marker::Model;

// A tree of the first `count` offsets of a sequence.
#[derive(Debug, Drop)]
struct Filed {
    tree: BTreeSet<u64>,
    count: usize,
}

impl Filed {
    // Inserts one more offset into the tree.
    fn add(&mut self, offsets: &[u64]) -> Result<(), AllocError>
        requires files { HasFirst offsets.now self.old.tree.keys self.old.count }
        requires more { self.old.count < length offsets.now }
        ensures files { HasFirst offsets.now self.new.tree.keys self.new.count }
        ensures ok { OnOk result (self.new.count ≡ self.old.count + 1) }
    {
        self.tree.insert(offsets[self.count])?;
        self.count += 1;
        Ok(())
    }

    // Inserts the offsets that are not in the tree yet.
    fn add_all(&mut self, offsets: &[u64]) -> Result<(), AllocError>
        requires { HasFirst offsets.now self.old.tree.keys self.old.count }
        ensures files { HasFirst offsets.now self.new.tree.keys self.new.count }
        ensures all { OnOk result (self.new.count ≡ length offsets.now) }
    {
        'filing: while self.count < offsets.len() {
            self.add(offsets)?;
        }
        Ok(())
    }
}

/// Offsets in the order in which they were added. To look up an offset above all of them takes one
/// comparison, as in a file whose directories follow one another. To look up another offset takes a
/// search in a tree, and only that search inserts the offsets into the tree.
#[derive(Debug, Drop)]
pub struct Offsets {
    met: Vec<u64>,
    // The highest offset, or a number above all of them.
    highest: u64,
    filed: Filed,
}

impl Model for Offsets {
    ghost use Rattle.std.specs.Prelude.{List, ℕ};
    ghost use Rattle.tiff_ifd.specs.Met.{AreMet};

    ghost Value = { List ℕ };

    ghost view = { λ o. o.met.items };

    ghost invariant = { λ o. AreMet o.met.items o.highest o.filed.tree.keys o.filed.count };
}

impl Offsets {
    /// An empty sequence of offsets.
    #[tactic(auto, using(crate::proofs::MetAgain::none_met))]
    pub fn new(alloc: Global) -> Self
        ensures { result ≡ [] }
    {
        Offsets {
            met: Vec::new(alloc),
            highest: 0,
            filed: Filed {
                tree: BTreeSet::new(alloc),
                count: 0,
            },
        }
    }

    /// The number of offsets.
    pub fn len(&self) -> usize
        ensures { result ≡ length self.now }
    {
        self.met.len()
    }

    /// The offset at an index, from 0.
    pub fn get(&self, index: usize) -> Option<u64>
        ensures { result ≡ slice_get self.now index }
    {
        self.met.get(index).copied()
    }

    /// The offset that was added last.
    pub fn last(&self) -> Option<u64>
        ensures { result ≡ slice_get self.now (length self.now - 1) }
    {
        self.met.last().copied()
    }

    /// Appends an offset.
    #[tactic(auto, using(crate::proofs::MetAgain::one_more))]
    pub fn push(&mut self, offset: u64) -> Result<(), AllocError>
        ensures ok { OnOk result (self.new ≡ self.old ++ offset ∷ []) }
        ensures err { OnErr result (self.new ≡ self.old) }
    {
        self.met.push(offset)?;
        self.highest = self.highest.max(offset);
        Ok(())
    }

    /// Whether the sequence contains an offset. The only error is out of memory for the tree.
    #[tactic(auto, using(crate::proofs::MetAgain::in_tree))]
    pub fn contains(&mut self, offset: u64) -> Result<bool, AllocError>
        ensures found { IfOk result (λ found. found ≡ list_any (nat_eq offset) self.old) }
        ensures same { self.new ≡ self.old }
    {
        if offset > self.highest {
            return Ok(false);
        }
        self.filed.add_all(&self.met)?;
        Ok(self.filed.tree.contains(&offset))
    }
}

//! Enters the directories of a file one after another.

ghost use Rattle.std.specs.Prelude.{◌≡◌, ◌==◌, ◌<◌, ◌≤◌, ◌+◌, ◌-◌, ◌++◌, ◌∷◌, ℕ, List, [], reverse, length, IfOk, IfErr, IfNone, OnErr, MatchOption, nat_eq, Ok, Err, None, Some, false, option_map};
ghost use Rattle.std.specs.List.{list_any, slice_get};
ghost use Rattle.tiff_base.specs.Answers.{ReadsOnly, IsCause, IsKept};
ghost use Rattle.tiff_base.specs.declared.tags.ByteOrder.{ByteOrder};
ghost use Rattle.tiff_base.specs.declared.tags.FileKind.{FileKind};
ghost use Rattle.tiff_ifd.specs.Chain.{unless_met, chain};
ghost use Rattle.tiff_ifd.specs.IfdChainWalk.{StepsOver, WalkSteps, ChainBegins, ChainEnds, NextLinkReadable, NextReadable, WayReadable};

use crate::decode::{read_directory, read_link_of};
use crate::offsets::Offsets;
use std::alloc::{AllocError, Global};
use std::marker::Model;
use tiff_base::directory::Directory;
use tiff_base::error::{TiffError, TiffFormatError, TiffResult};
use tiff_base::io::Source;
use tiff_base::tags::{ByteOrder, FileKind};

/// The offsets of the directories that were entered so far, and the link of the last one.
#[derive(Debug, Drop)]
pub struct IfdChainWalk {
    offsets: Offsets,
    next: Option<u64>,
}

impl Model for IfdChainWalk {
    ghost use Rattle.tiff_ifd.specs.IfdChainWalk.{Walked};

    ghost Value = { Walked };

    ghost view = { λ w. record { offsets = w.offsets; next = w.next } };
}

// The offset that the link of a directory leads to.
fn behind(directory: &Directory) -> Option<u64>
    ensures { result ≡ directory.now.next }
{
    directory.next().map(|pointer| pointer.0)
}

impl IfdChainWalk {
    /// A walk that has entered no offset. `first` is the next offset.
    #[tactic(auto, using(crate::specs::lemmas::Begun::none_begun))]
    pub fn new(alloc: Global, first: u64) -> Self
        ensures walked { result ≡ record { offsets = []; next = Some first } }
        ensures begins { (kind : FileKind) (order : ByteOrder) (bytes : List ℕ)
            → ChainBegins kind order bytes first result }
    {
        IfdChainWalk {
            offsets: Offsets::new(alloc),
            next: Some(first),
        }
    }

    /// The number of entered offsets.
    pub fn len(&self) -> usize
        ensures { result ≡ length self.now.offsets }
    {
        self.offsets.len()
    }

    /// Whether the walk has entered no offset.
    pub fn is_empty(&self) -> bool
        ensures { result ≡ (length self.now.offsets == 0) }
    {
        self.len() == 0
    }

    /// The entered offset at an index, from 0.
    pub fn get(&self, index: usize) -> Option<u64>
        ensures { result ≡ slice_get self.now.offsets index }
    {
        self.offsets.get(index)
    }

    /// The offset that was entered last.
    pub fn last(&self) -> Option<u64>
        ensures { result ≡ slice_get self.now.offsets (length self.now.offsets - 1) }
    {
        self.offsets.last()
    }

    /// The next offset, if there is one.
    pub fn next(&self) -> Option<u64>
        ensures { result ≡ self.now.next }
    {
        self.next
    }

    // Whether a link leads to the next offset or to an entered one.
    #[tactic(auto, using(crate::specs::lemmas::Begun::is_itself, crate::specs::lemmas::Begun::is_among))]
    fn meets(&mut self, offset: u64, link: u64) -> Result<bool, AllocError>
        ensures met { IfOk result (λ met. met ≡ list_any (nat_eq link) (offset ∷ reverse self.old.offsets)) }
        ensures same { self.new ≡ self.old }
    {
        if link == offset {
            return Ok(true);
        }
        self.offsets.contains(link)
    }

    // Adds the next offset with its link. Returns `FormatError(CycleInOffsets)` where the link
    // leads to this offset or to an entered one.
    #[tactic(auto, using(crate::specs::lemmas::Begun::unmet, crate::specs::lemmas::Begun::none_met, crate::specs::lemmas::Begun::met))]
    fn add(&mut self, offset: u64, next: Option<u64>) -> TiffResult<()>
        ensures unmet { IfOk result (λ _. unless_met (offset ∷ reverse self.old.offsets) next ≡ Ok next) }
        ensures added { IfOk result
            (λ _. self.new ≡ record { offsets = self.old.offsets ++ offset ∷ []; next = next }) }
        ensures err { IfErr result
            (λ e. IsCause (Unit {0}) ⊥ e
            (unless_met (offset ∷ reverse self.old.offsets) next ≡ Err e)) }
        ensures stays { OnErr result (self.new ≡ self.old) }
    {
        if let Some(link) = next
            && self.meets(offset, link)?
        {
            return Err(TiffError::FormatError(TiffFormatError::CycleInOffsets));
        }
        self.offsets.push(offset)?;
        self.next = next;
        Ok(())
    }

    /// Enters the next offset and returns its directory. Returns `None` where there is no next
    /// offset. Returns `IoError(UnexpectedEof)` where the source ends inside the directory, and
    /// `FormatError(CycleInOffsets)` where its link leads to this offset or to an entered one. Also
    /// returns `OutOfMemory` and `IoError(Device)`. After an error the walk is unchanged.
    pub fn enter_next<R: Source>(
        &mut self,
        alloc: Global,
        source: &mut R,
        kind: FileKind,
        order: ByteOrder,
    ) -> TiffResult<Option<Directory>>
        ensures kept { IsKept R.contents R.failures result source.old source.new }
        ensures ok { IfOk result
            (λ entered.
            WalkSteps kind order (R.contents source.old).bytes self.old (Ok entered) self.new) }
        ensures err { IfErr result
            (λ e. IsCause (self.new ≡ self.old) ((R.failures source.old < R.failures source.new)
            × (self.new ≡ self.old)) e
            (WalkSteps kind order (R.contents source.old).bytes self.old (Err e) self.new)) }
        ensures begins { (first : ℕ)
            → ChainBegins kind order (R.contents source.old).bytes first self.old
            → ChainBegins kind order (R.contents source.old).bytes first self.new }
        ensures end { IfOk result
            (λ entered.
            IfNone entered ((first : ℕ)
            → ChainBegins kind order (R.contents source.old).bytes first self.old
            → ChainEnds kind order (R.contents source.old).bytes first self.old None)) }
        ensures cut { IfErr result
            (λ e. IsCause (Unit {0}) (R.failures source.old < R.failures source.new) e
            ((first : ℕ) → ChainBegins kind order (R.contents source.old).bytes first self.old
            → ChainEnds kind order (R.contents source.old).bytes first self.old (Some e))) }
        ensures asked { ReadsOnly (NextReadable (R.contents source.old) kind order self.old) result }
    {
        let Some(offset) = self.next else {
            return Ok(None);
        };
        let directory = read_directory(alloc, source, offset, kind, order)?;
        self.add(offset, behind(&directory))?;
        Ok(Some(directory))
    }

    // Enters the next offset, but reads only the count and the link of its directory. Returns true,
    // or false where there is no next offset. Returns the errors of `enter_next`; after an error
    // the walk is unchanged.
    fn pass_next<R: Source>(
        &mut self,
        source: &mut R,
        kind: FileKind,
        order: ByteOrder,
    ) -> TiffResult<bool>
        ensures kept { IsKept R.contents R.failures result source.old source.new }
        ensures ok { IfOk result
            (λ passed. StepsOver kind order (R.contents source.old).bytes self.old passed self.new) }
        ensures err { IfErr result
            (λ e. IsCause (self.new ≡ self.old) ((R.failures source.old < R.failures source.new)
            × (self.new ≡ self.old)) e
            (WalkSteps kind order (R.contents source.old).bytes self.old (Err e) self.new)) }
        ensures begins { (first : ℕ)
            → ChainBegins kind order (R.contents source.old).bytes first self.old
            → ChainBegins kind order (R.contents source.old).bytes first self.new }
        ensures end { IfOk result (λ passed. passed ≡ false → (first : ℕ)
            → ChainBegins kind order (R.contents source.old).bytes first self.old
            → ChainEnds kind order (R.contents source.old).bytes first self.old None) }
        ensures cut { IfErr result
            (λ e. IsCause (Unit {0}) (R.failures source.old < R.failures source.new) e
            ((first : ℕ) → ChainBegins kind order (R.contents source.old).bytes first self.old
            → ChainEnds kind order (R.contents source.old).bytes first self.old (Some e))) }
        ensures asked { ReadsOnly (NextLinkReadable (R.contents source.old) kind order self.old) result }
    {
        let Some(offset) = self.next else {
            return Ok(false);
        };
        // Directories may overlap, so that their entries are far more than the file's bytes.
        let next = read_link_of(source, offset, kind, order)?;
        self.add(offset, next)?;
        Ok(true)
    }

    /// The offset at an index, from 0, in the file's chain. Enters the offsets up to it that were
    /// not entered before, and reads nothing for an offset that was. Returns `None` where the chain
    /// ends before the index. Returns the error of `enter_next` where the directory at the index,
    /// or one before it, cannot be entered. The offsets that the call entered stay entered.
    pub fn offset_of<R: Source>(
        &mut self,
        source: &mut R,
        kind: FileKind,
        order: ByteOrder,
        index: usize,
    ) -> TiffResult<Option<u64>>
        ensures kept { IsKept R.contents R.failures result source.old source.new }
        ensures there { IfOk result (λ offset. offset ≡ slice_get self.new.offsets index) }
        ensures short { OnErr result (length self.new.offsets ≤ index) }
        ensures no_further { length self.old.offsets ≤ index → length self.new.offsets ≤ index + 1 }
        ensures longer { (more : List ℕ) × (self.new.offsets ≡ self.old.offsets ++ more) }
        ensures known { index < length self.old.offsets → (self.new ≡ self.old)
            × (source.new ≡ source.old) }
        ensures begins { (first : ℕ)
            → ChainBegins kind order (R.contents source.old).bytes first self.old
            → ChainBegins kind order (R.contents source.old).bytes first self.new }
        ensures offset { IfOk result (λ offset. (first : ℕ)
            → ChainBegins kind order (R.contents source.old).bytes first self.old
            → slice_get (chain kind order (R.contents source.old).bytes first).offsets index ≡ offset) }
        ensures end { IfOk result
            (λ offset.
            IfNone offset ((first : ℕ)
            → ChainBegins kind order (R.contents source.old).bytes first self.old
            → ChainEnds kind order (R.contents source.old).bytes first self.new None)) }
        ensures cut { IfErr result
            (λ e. IsCause (Unit {0}) (R.failures source.old < R.failures source.new) e
            ((first : ℕ) → ChainBegins kind order (R.contents source.old).bytes first self.old
            → (slice_get (chain kind order (R.contents source.old).bytes first).offsets index ≡ None)
            × ChainEnds kind order (R.contents source.old).bytes first self.new (Some e))) }
        ensures asked { (first : ℕ)
            → ChainBegins kind order (R.contents source.old).bytes first self.old
            → ReadsOnly (WayReadable (R.contents source.old) kind order first index) result }
    {
        'way: while self.len() <= index {
            if !self.pass_next(source, kind, order)? {
                return Ok(None);
            }
        }
        Ok(self.get(index))
    }
}

//! Accepts links between directories one by one, so that they never close a cycle.

ghost use Rattle.std.specs.Prelude.{◌≡◌, IfOk, IfErr, OnOk, OnErr, MatchBool, true, Ok, Err, None, Some, option_map};
ghost use Rattle.tiff_base.specs.declared.error.TiffError.TheVariants as tiff;
ghost use Rattle.tiff_base.specs.declared.error.TiffFormatError.TheVariants as format;
ghost use Rattle.std.specs.FinMap as map;
ghost use Rattle.tiff_base.specs.Answers.{IsCause};
ghost use Rattle.tiff_ifd.specs.Links.{link_target, Closes, IsClosing, IsNew, Inserts};

use std::alloc::{AllocError, Global};
use std::collections::BTreeMap;
use std::marker::Model;
use tiff_base::error::{TiffError, TiffFormatError, TiffResult};
use tiff_base::tags::IfdPointer;

/// The accepted links between directories. Each offset has at most one link, and the links close no
/// cycle.
#[derive(Debug, Drop)]
pub struct IfdCycles {
    links: BTreeMap<u64, Option<u64>>,
}

impl Model for IfdCycles {
    ghost use Rattle.std.specs.FinMap as map;
    ghost use Rattle.tiff_ifd.specs.Links.{Links};

    ghost Value = { Links };

    ghost use Rattle.std.specs.Coded.{codes};

    ghost coded = { Prim.hlevel (codes, map.code) };

    ghost view = { λ c. map.from_entries c.links.entries };
}

// The target of a link. The offset 0 is no target.
fn target(to: Option<IfdPointer>) -> Option<u64>
    ensures { result ≡ link_target (option_map (λ p. p.0) to) }
{
    match to {
        Some(IfdPointer(0)) | None => None,
        Some(offset) => Some(offset.0),
    }
}

impl IfdCycles {
    /// A set without accepted links.
    pub fn new(alloc: Global) -> Self
        ensures { result ≡ map.empty }
    {
        IfdCycles {
            links: BTreeMap::new(alloc),
        }
    }

    // The accepted link of an offset.
    #[tactic(auto, using(crate::proofs::Trees::get_of_tree))]
    fn link_of(&self, offset: u64) -> Option<Option<u64>>
        ensures { result ≡ map.get self.now offset }
    {
        self.links.get(&offset).copied()
    }

    // The number of accepted links.
    #[tactic(auto, using(tiff_base::specs::lemmas::Maps::len_of_tree))]
    fn len(&self) -> usize
        ensures { result ≡ map.len self.now }
    {
        self.links.len()
    }

    // Accepts the link of an offset.
    #[tactic(auto, using(crate::proofs::Trees::insert_of_tree))]
    fn insert(&mut self, from: u64, to: Option<u64>) -> Result<(), AllocError>
        ensures ok { OnOk result (self.new ≡ map.insert self.old from to) }
        ensures err { OnErr result (self.new ≡ self.old) }
    {
        self.links.insert(from, to)?;
        Ok(())
    }

    // Whether accepted links lead from an offset to another offset, which has no link. As many
    // steps as there are links are enough.
    #[tactic(auto, using(crate::proofs::Followed::still_here, crate::proofs::Followed::gone_on, crate::proofs::Followed::met, crate::proofs::Followed::ended, crate::proofs::Followed::too_far))]
    fn goes(&self, to: u64, from: u64) -> bool
        requires { map.get self.now from ≡ None }
        ensures { MatchBool result (Closes self.now from (Some to)) (Closes self.now from (Some to)
            → ⊥) }
    {
        let mut offset = to;
        for _step in 0..self.len() {
            if offset == from {
                return true;
            }
            match self.link_of(offset) {
                Some(Some(next)) => offset = next,
                _ => return false,
            }
        }
        offset == from
    }

    // Accepts the link of an offset without a link, unless the link closes a cycle.
    fn insert_new(&mut self, from: u64, to: Option<u64>) -> TiffResult<bool>
        requires { map.get self.old from ≡ None }
        ensures ok { IfOk result (λ new. (new ≡ true) × IsNew self.old from to
            × (self.new ≡ map.insert self.old from to)) }
        ensures err { IfErr result (λ e. IsCause (IsNew self.old from to × (self.new ≡ self.old)) ⊥ e
            ((e ≡ tiff.FormatError format.CycleInOffsets) × IsClosing self.old from to
            × (self.new ≡ self.old))) }
    {
        if let Some(to) = to
            && self.goes(to, from)
        {
            return Err(TiffError::FormatError(TiffFormatError::CycleInOffsets));
        }
        self.insert(from, to)?;
        Ok(true)
    }

    /// Accepts the link of the directory at `from`; the offset 0 means no link. Returns true where
    /// the call accepts the link, and false where the link is already accepted. Returns
    /// `FormatError(CycleInOffsets)` where `from` has another accepted link, or where accepted
    /// links lead from `to` to `from`. Returns `OutOfMemory` only for a link that it would
    /// otherwise accept. After an error the accepted links are unchanged.
    pub fn insert_next(&mut self, from: IfdPointer, to: Option<IfdPointer>) -> TiffResult<bool>
        ensures ok { IfOk result
            (λ new. Inserts self.old from.0 (option_map (λ p. p.0) to) (Ok new) self.new) }
        ensures err { IfErr result
            (λ e. IsCause (IsNew self.old from.0 (link_target (option_map (λ p. p.0) to))
            × (self.new ≡ self.old)) ⊥ e
            (Inserts self.old from.0 (option_map (λ p. p.0) to) (Err e) self.new)) }
        ensures stays { OnErr result (self.new ≡ self.old) }
    {
        let to = target(to);
        match self.link_of(from.0) {
            None => self.insert_new(from.0, to),
            Some(accepted) if accepted == to => Ok(false),
            Some(_) => Err(TiffError::FormatError(TiffFormatError::CycleInOffsets)),
        }
    }
}

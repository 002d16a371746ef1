//! The writes of a sink in memory that failed.

ghost use Rattle.std.specs.Prelude.{◌≡◌, ◌+◌, ◌<◌, true, false, None, Some, IfErr, OnOk, length};

use crate::ghost_bytes::GhostBytes;
use tiff_base::io::SinkFault;

/// The writes of a sink that failed: one byte for each, which only contracts see; whether there are
/// any; and the error of the last write, if it failed.
#[derive(Drop)]
pub struct FailedWrites {
    pub writes: GhostBytes,
    any: bool,
    pub last: Option<SinkFault>,
    ghost none: { any ≡ false → length writes ≡ 0 },
    ghost some: { any ≡ true → 0 < length writes },
}

impl FailedWrites {
    /// No write failed.
    pub fn none() -> FailedWrites
        ensures writes { length result.writes ≡ 0 }
        ensures last { result.last ≡ None }
    {
        FailedWrites {
            writes: GhostBytes::new(),
            any: false,
            last: None,
        }
    }

    /// Whether a write failed so far.
    pub fn any(&self) -> bool
        ensures none { result ≡ false → length self.now.writes ≡ 0 }
        ensures some { result ≡ true → 0 < length self.now.writes }
    {
        self.any
    }

    /// Counts a write that failed, and keeps the error of the last write. Returns the answer of the
    /// write.
    pub fn note(&mut self, answer: Result<usize, SinkFault>) -> Result<usize, SinkFault>
        ensures same { result ≡ answer }
        ensures ok { OnOk answer ((self.new.writes ≡ self.old.writes) × (self.new.last ≡ None)) }
        ensures err { IfErr answer (λ e. (length self.new.writes ≡ length self.old.writes + 1)
            × (self.new.last ≡ Some e)) }
    {
        self.last = answer.err();
        if self.last.is_some() {
            self.writes.push(0);
            self.any = true;
        }
        answer
    }
}

//! When a source or a sink fails.

ghost use Rattle.std.specs.Prelude.{◌≡◌, ◌+◌, if◌then◌else◌};
ghost use Rattle.test_lists.specs.Failed.{failed};

/// When a source or a sink fails.
#[derive(Clone, Copy, Debug, Drop)]
pub enum Failure {
    /// It never fails.
    Never,
    /// It fails at the call after this many others.
    Behind(u64),
    /// It failed, and doesn't fail again.
    Past,
}

impl Failure {
    /// Whether the next call fails.
    pub fn next(&mut self) -> bool
        ensures { failed self.new ≡ (if result then failed self.old + 1 else failed self.old) }
    {
        match *self {
            Failure::Behind(0) => {
                *self = Failure::Past;
                true
            }
            Failure::Behind(calls) => {
                *self = Failure::Behind(calls - 1);
                false
            }
            Failure::Never | Failure::Past => false,
        }
    }
}

//! The number of calls of a source or a sink.

ghost use Rattle.std.specs.Prelude.{◌<◌};

use std::alloc::{AllocError, Global};
use std::cell::Cell;
use std::rc::Rc;

/// The number of calls of a source or a sink. The source or sink and its observers share the
/// number.
#[derive(Drop)]
pub struct CallCount {
    calls: Rc<Cell<u64>>,
}

impl CallCount {
    /// A count of 0.
    pub fn new(alloc: Global) -> Result<Self, AllocError> {
        let calls = Rc::new(alloc, Cell::new(0))?;
        Ok(CallCount { calls })
    }

    /// Another handle to the same count.
    pub fn shared(&self) -> Result<Self, AllocError> {
        let calls = self.calls.clone()?;
        Ok(CallCount { calls })
    }

    /// Counts one more call.
    pub fn add(&self) {
        self.calls.set(self.calls.get().saturating_add(1));
    }

    /// The number of calls.
    pub fn get(&self) -> u64 {
        self.calls.get()
    }
}

// In a run of up to `EACH` calls, each call fails in a run of its own. In a run of more calls, one
// call in several fails, about `SAMPLE` in all.
const EACH: u64 = 10_000;

const SAMPLE: u64 = 40;

/// The step between the calls that fail, in a run of `calls` calls: each multiple of the step
/// fails. The step is 1 for up to `EACH` calls, and else greater than 1.
pub fn step_of(calls: u64) -> u64
    ensures { 0 < result }
{
    if calls <= EACH {
        return 1;
    }
    calls / SAMPLE + 1
}

/// Says in words which of the `calls` calls failed.
pub fn failed_text(alloc: Global, calls: u64, step: u64) -> Result<String, AllocError> {
    if step == 1 {
        format!(in alloc; "{calls}, each failed")
    } else {
        format!(in alloc; "{calls}, one in {step} failed")
    }
}

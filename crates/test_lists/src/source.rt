//! A source in memory that may give one byte at a time, may fail once, and records which bytes it
//! is asked for.

ghost use Rattle.std.specs.Prelude.{Some, []};
ghost use Rattle.test_lists.specs.Failed.{failed};

use crate::asked::Asked;
use crate::call_count::CallCount;
use crate::failure::Failure;
use std::alloc::{AllocError, Global};
use tiff_base::io::{DeviceFault, MemorySource, Source};

/// A source in memory that may give one byte at a time, and may fail once. It counts its reads, and
/// records the bytes that they ask for.
#[derive(Drop)]
pub struct ScriptedSource {
    inner: MemorySource,
    bytewise: bool,
    failure: Failure,
    reads: CallCount,
    asked: Asked,
}

impl ScriptedSource {
    /// The source of these bytes.
    pub fn new(
        bytes: Vec<u8>,
        bytewise: bool,
        failure: Failure,
        reads: CallCount,
    ) -> Result<Self, AllocError> {
        let asked = Asked::none(*bytes.allocator(), bytes.len())?;
        Ok(ScriptedSource {
            inner: MemorySource::new(bytes),
            bytewise,
            failure,
            reads,
            asked,
        })
    }

    /// The source of these bytes, which gives all that it is asked for and doesn't fail.
    pub fn of_bytes(bytes: Vec<u8>) -> Result<Self, AllocError> {
        let reads = CallCount::new(*bytes.allocator())?;
        ScriptedSource::new(bytes, false, Failure::Never, reads)
    }

    /// The bytes that the source was asked for so far.
    pub fn asked_text(&self, alloc: Global) -> Result<String, AllocError> {
        self.asked.text(alloc)
    }
}

impl Source for ScriptedSource {
    ghost contents = { λ s. record {
      bytes = (⟦<MemorySource as Source>⟧.contents s.inner).bytes;
      readable = Some [];
    } };

    ghost failures = { λ s. failed s.failure };

    ghost offsets = { λ s. s.inner.offsets };

    ghost octets = { λ s. s.inner.octets };

    #[tactic(auto, unfolding(tiff_base::specs::SourceAndSink::answers_for))]
    fn read_at(&mut self, at: u64, buf: &mut [u8]) -> Result<usize, DeviceFault> {
        // A read of no bytes doesn't fail.
        if buf.is_empty() {
            return Ok(0);
        }
        self.reads.add();
        self.asked.add(at, buf.len());
        if self.failure.next() {
            return Err(DeviceFault);
        }
        if !self.bytewise {
            return self.inner.read_at(at, buf);
        }
        let len = buf.len().min(1);
        self.inner.read_at(at, &mut buf[..len])
    }
}

//! A sink in memory that may take fewer bytes than offered, and may fail once.

ghost use Rattle.std.specs.Prelude.{◌+◌};
ghost use Rattle.test_lists.specs.Failed.{failed};

use crate::failure::Failure;
use crate::manner::{Appetite, Manner};
use crate::record::Record;
use tiff_base::io::{MemorySink, Sink, SinkFault};

/// A sink in memory that may take fewer bytes than offered, and may fail once. It records its
/// calls.
#[derive(Drop)]
pub struct ScriptedSink {
    inner: MemorySink,
    appetite: Appetite,
    failure: Failure,
    refusal: SinkFault,
    last: Option<SinkFault>,
    record: Record,
}

impl ScriptedSink {
    /// A sink that contains these bytes, and takes more with this manner.
    pub fn new(bytes: Vec<u8>, manner: Manner, record: Record) -> Self {
        ScriptedSink {
            inner: MemorySink::new(bytes),
            appetite: manner.appetite,
            failure: manner.failure,
            refusal: manner.fault,
            last: None,
            record,
        }
    }

    /// The bytes of the sink.
    pub fn into_vec(self) -> Vec<u8> {
        let ScriptedSink {
            inner,
            appetite: _,
            failure: _,
            refusal: _,
            last: _,
            record: _,
        } = self;
        inner.into_vec()
    }
}

impl Sink for ScriptedSink {
    ghost use Rattle.std.proofs.Common.{arith};

    ghost contents = { λ s. ⟦<MemorySink as Sink>⟧.contents s.inner };

    ghost failures = { λ s. ⟦<MemorySink as Sink>⟧.failures s.inner + failed s.failure };

    ghost fault = { λ s. s.last };

    ghost short = { λ s. Prim.omega (arith, s.inner.items.ok, s.inner.items.small) };

    fn len(&self) -> u64 {
        self.inner.len()
    }

    fn append(&mut self, bytes: &[u8]) -> Result<usize, SinkFault> {
        self.record.call();
        if self.failure.next() {
            self.last = Some(self.refusal);
            return Err(self.refusal);
        }
        let len = self.appetite.of(bytes.len());
        let at = self.inner.len();
        let answer = self.inner.append(&bytes[..len]);
        self.last = answer.err();
        if answer.is_ok() {
            self.record.write(at, &bytes[..len]);
        }
        answer
    }

    fn overwrite(&mut self, at: u64, bytes: &[u8]) -> Result<usize, SinkFault> {
        self.record.call();
        if self.failure.next() {
            self.last = Some(self.refusal);
            return Err(self.refusal);
        }
        let len = self.appetite.of(bytes.len());
        let answer = self.inner.overwrite(at, &bytes[..len]);
        self.last = answer.err();
        if answer.is_ok() {
            self.record.write(at, &bytes[..len]);
        }
        answer
    }
}

//! `tiff::io`: sources and sinks.

use crate::report::Report;
use std::alloc::AllocError;
use tiff::TiffResult;
use tiff::io::{BufferedSource, ByteRun, ByteWitness, MemorySink, Sink, SliceSource, Source};

const BYTES: [u8; 5] = [1, 2, 3, 4, 5];

// What a source returns for a read of three bytes from the fourth byte on, and the bytes.
fn add_read<S: Source>(report: &mut Report, call: &str, source: &mut S) {
    let mut buf = [0u8; 3];
    report.line(call, source.read_at(3, &mut buf));
    report.line(call, buf);
}

/// Five bytes that are made as they are appended.
pub struct FiveBytes {
    bytes: [u8; 5],
}

impl ByteRun for FiveBytes {
    ghost bytes = { λ run. run.bytes };

    fn len(&self) -> Option<usize> {
        Some(self.bytes.len())
    }

    fn push_to(&self, list: &mut Vec<u8>) -> Result<(), AllocError> {
        list.extend_from_slice(&self.bytes)
    }

    fn show_to<S: ByteWitness>(&self, witness: &mut S) {
        for byte in &self.bytes {
            witness.see(*byte);
        }
    }
}

// What a sink in memory returns for five bytes at once, and for one more and two over others, and
// its bytes.
fn add_sink(report: &mut Report) {
    let mut sink = MemorySink::new(Vec::new(report.alloc()));
    sink.reserve(6);
    report.line(
        "MemorySink::append_run",
        sink.append_run(&FiveBytes { bytes: BYTES }),
    );
    report.line("MemorySink::append", sink.append(&[6]));
    if sink.len() > 2 {
        report.line("MemorySink::overwrite", sink.overwrite(1, &[8, 9]));
    }
    report.line("MemorySink::len", sink.len());
    report.line("MemorySink::into_vec", sink.into_vec());
}

/// Adds the lines of sources and of sinks.
pub fn add_lines(report: &mut Report) -> TiffResult<()> {
    let mut source = SliceSource::new(&BYTES);
    add_read(report, "SliceSource::read_at", &mut source);
    let mut source = BufferedSource::new(report.alloc(), source)?;
    add_read(report, "BufferedSource::read_at", &mut source);
    let mut source = source.into_inner();
    add_read(report, "BufferedSource::into_inner", &mut source);
    add_sink(report);
    Ok(())
}

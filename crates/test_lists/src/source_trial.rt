//! The lines on a file, run over sources of which one read fails.

use crate::call_count::{CallCount, failed_text, step_of};
use crate::failure::Failure;
use crate::reader::{Reader, tells_of_pages};
use crate::script::{Script, ScriptLine};
use crate::sums::Sums;
use std::alloc::AllocError;

// The reply to a call in which a read fails.
const FAULT: &str = "refused: device fault (IoError(Device))";

// A run over a source of which one read fails. `failing` is its number, counted from 1, or 0 if
// none fails.
#[derive(Drop)]
struct Trial<'a> {
    script: &'a Script,
    bytewise: bool,
    failing: u64,
    reads: CallCount,
    reader: Reader,
}

// Whether a text is one item of a list of results.
fn is_one_item(text: &str) -> bool {
    (text.starts_with("Ok(") || text.starts_with("Err("))
        && !text.contains("), Ok(")
        && !text.contains("), Err(")
}

// Whether a list equals the wanted one except for one item, which is the error.
fn fails_in_one_item(reply: &str, wanted: &str) -> bool {
    let Some((head, tail)) = reply.split_once("Err(IoError(Device))") else {
        return false;
    };
    let item = wanted
        .strip_prefix(head)
        .and_then(|rest| rest.strip_suffix(tail));
    match item {
        Some(item) => is_one_item(item),
        None => false,
    }
}

// Whether a reply is the error, perhaps with the state that the call leaves. The reply to
// `tag_iter` is a list, of which one item is the error.
fn tells_fault(words: &str, reply: &str, wanted: &str) -> bool {
    if words == "tag_iter" {
        return fails_in_one_item(reply, wanted);
    }
    match reply.strip_prefix(FAULT) {
        Some(left) => left.is_empty() || left.starts_with(", "),
        None => false,
    }
}

impl<'a> Trial<'a> {
    // A run in which the read with this number fails.
    fn new(script: &'a Script, bytewise: bool, failing: u64) -> Result<Self, AllocError> {
        Ok(Trial {
            script,
            bytewise,
            failing,
            reads: CallCount::new(script.alloc)?,
            reader: Reader::new(script.alloc),
        })
    }

    // When the source of the run fails.
    fn failure(&self) -> Failure {
        match self.failing.checked_sub(1) {
            Some(reads) => Failure::Behind(reads),
            None => Failure::Never,
        }
    }

    // Follows a line, which opens a source with this failure or makes a call.
    fn follow(
        &mut self,
        line: &ScriptLine,
        opens: bool,
        failure: Failure,
    ) -> Result<String, AllocError> {
        if !opens {
            return self.reader.answer(&line.words);
        }
        let source = self
            .script
            .file
            .source_of(self.bytewise, failure, &self.reads)?;
        self.reader.open(source, self.script.file.by_header())
    }

    // The report of a mismatch, if the reply isn't the wanted one.
    fn mismatch(
        &self,
        line: &ScriptLine,
        told: &str,
        wanted: &str,
    ) -> Result<Option<String>, AllocError> {
        if told == wanted {
            return Ok(None);
        }
        let failing = self.failing;
        let words = line.words.as_str();
        Ok(Some(format!(in self.script.alloc;
            "MISMATCH: read {failing} fails: {words} -> {told}, expected {wanted}"
        )?))
    }

    // Checks that the decoder's state is unchanged, and that the same line then gets the reply
    // without a failure. The state isn't checked after a line on pages, as such a line goes from
    // page to page.
    fn go_on(&mut self, line: &ScriptLine, opens: bool) -> Result<Option<String>, AllocError> {
        if !tells_of_pages(&line.words) {
            let state = self.reader.state()?;
            if let Some(mismatch) = self.mismatch(line, &state, &line.state)? {
                return Ok(Some(mismatch));
            }
        }
        let again = self.follow(line, opens, Failure::Never)?;
        self.mismatch(line, &again, &line.reply)
    }

    // Follows a line. Returns the mismatch of its reply, if any.
    fn step(&mut self, line: &ScriptLine, opens: bool) -> Result<Option<String>, AllocError> {
        let before = self.reads.get();
        let failure = self.failure();
        let reply = self.follow(line, opens, failure)?;
        if self.failing <= before || self.failing > self.reads.get() {
            return self.mismatch(line, &reply, &line.reply);
        }
        if !tells_fault(&line.words, &reply, &line.reply) {
            return self.mismatch(line, &reply, FAULT);
        }
        self.go_on(line, opens)
    }

    // Follows all lines. Returns the number of reads, or the mismatch.
    fn run(&mut self) -> Result<Result<u64, String>, AllocError> {
        let script = self.script;
        for (index, line) in script.lines.iter().enumerate() {
            if let Some(mismatch) = self.step(line, index == 0)? {
                return Ok(Err(mismatch));
            }
        }
        let reads = self.reads.get();
        if reads < self.failing {
            return Ok(Err(format!(in script.alloc; "MISMATCH: of {reads} reads none fails")?));
        }
        Ok(Ok(reads))
    }
}

/// Makes each read of a script fail, or one in several, each in a run of its own. Returns the
/// report or the mismatch.
pub fn failing_reads(
    script: &Script,
    bytewise: bool,
    reads: u64,
    sums: &mut Sums,
) -> Result<Result<String, String>, AllocError> {
    let step = step_of(reads);
    for failing in 1..=reads {
        if failing % step == 0 {
            if let Err(mismatch) = Trial::new(script, bytewise, failing)?.run()? {
                return Ok(Err(mismatch));
            }
            sums.reads = sums.reads.saturating_add(1);
        }
    }
    Ok(Ok(failed_text(script.alloc, reads, step)?))
}

/// Runs a script over a source that gives one byte per read, and makes each of these reads fail.
/// Returns the report or the mismatch.
pub fn one_byte_reads(
    script: &Script,
    sums: &mut Sums,
) -> Result<Result<String, String>, AllocError> {
    let reads = match Trial::new(script, true, 0)?.run()? {
        Ok(reads) => reads,
        Err(mismatch) => return Ok(Err(mismatch)),
    };
    failing_reads(script, true, reads, sums)
}

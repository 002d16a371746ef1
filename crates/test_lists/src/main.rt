//! Makes the decoder calls, runs the writer jobs and makes the calls of the library that standard
//! input lists, and prints each line with its reply. Or compares the replies of the named lists
//! with the replies in those lists.
#![tactic(auto)]

mod asked;
mod call_count;
mod chain;
mod cuts;
mod expected;
mod failure;
mod file_line;
mod images;
mod job_lines;
mod job_list;
mod library;
mod manner;
mod numbers;
mod ranges;
mod reader;
mod record;
mod script;
mod session;
mod sink;
mod sink_trial;
mod source;
mod source_trial;
mod sums;
mod theme;
mod writer;

use session::Session;
use std::io;
use std::io::{BufRead, BufReader};
use theme::theme_text;

fn main(rt: HostRuntime) -> io::Result<()> {
    let mut session = Session::new(rt.alloc());
    for line in BufReader::new(rt.alloc(), rt.reader())?.lines(rt.alloc()) {
        let line = line?;
        if let Some(tried) = session.tried_before(line.as_str())? {
            println!(rt; "{tried}")?;
        }
        if !session.is_listing()
            && let Some(name) = line.as_str().strip_prefix("lists ")
        {
            match theme_text(&rt, &mut session, name)? {
                Some(told) => println!(rt; "{line} -> {told}")?,
                None => println!(rt; "{line} -> no such lists")?,
            }
            continue;
        }
        match session.reply(&rt, line.as_str())? {
            Some(reply) => println!(rt; "{line} -> {reply}")?,
            None => println!(rt; "{line}")?,
        }
    }
    if let Some(tried) = session.tried()? {
        println!(rt; "{tried}")?;
    }
    if let Some(sums) = session.sums(rt.alloc())? {
        println!(rt; "{sums}")?;
    }
    Ok(())
}

//! The program `tiffpage`. It writes the bytes of a file as a gray TIFF page, and the samples or
//! the picture of a page into a file; it lists the entries of a page and the pages of a file, and
//! reads every page whole; it makes the calls of a list, and writes the file of a list of jobs.
#![tactic(auto)]

mod files;
mod words;

use files::MachineFiles;
use std::io;
use std::marker::Brand;
use std::process::ExitCode;
use tiffpage_lib::program::run;
use words::words;

fn main(rt: HostRuntime) -> io::Result<ExitCode> {
    let words = match words(&rt)? {
        Ok(words) => words,
        Err(place) => {
            eprintln!(rt; "tiffpage: word {place} is not UTF-8")?;
            return Ok(ExitCode::from(2));
        }
    };
    let mut files = MachineFiles::new(&rt, rt.stdout());
    let mut out = rt.stdout();
    let mut err = rt.stderr();
    let status = run::<_, _, _, Brand>(
        rt.alloc(),
        words.as_slice(),
        &mut files,
        &mut out,
        &mut err,
    );
    Ok(ExitCode::from(status))
}

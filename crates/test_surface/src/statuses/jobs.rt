//! The call that writes a list of jobs.

use super::page::print_sides;
use std::io;
use tiff_ffi::jobs::JobsEnd;

// Jobs that write a page with a tag of its own.
const JOBS: &str = "image Gray8 2 1\nwrite_tag 270 text words\nwrite_data 1 2\n";

// Jobs of which the second is refused.
const REFUSED_JOBS: &str = "image Gray8 1 1\nwrite_data 7\nimage Gray8 0 1\nfinish\n";

// Jobs of which the second line is no job.
const NO_JOBS: &str = "image Gray8 2 1\nwrite_all 1 2\n";

fn print_jobs(rt: &HostRuntime, jobs: &str, room: usize) -> io::Result<()> {
    let mut buffer = [0u8; 300];
    let mut len = 0;
    let mut end = JobsEnd { line: 7, job: 7 };
    let room = &mut buffer[..room.min(300)];
    let (bytes, written, ended) = (jobs.as_bytes(), &mut len, &mut end);
    let status = tiff_ffi::write_jobs(rt.alloc(), 42, bytes, room, written, ended);
    println!(rt;
        "write_jobs into {} bytes: {status}, {len}, {end:?}",
        room.len()
    )?;
    print_sides(rt, &buffer[..len.min(300)], 0)
}

/// Prints each list of jobs, and the page that it wrote.
pub fn print_all_jobs(rt: &HostRuntime) -> io::Result<()> {
    print_jobs(rt, JOBS, 300)?;
    print_jobs(rt, JOBS, 100)?;
    print_jobs(rt, REFUSED_JOBS, 300)?;
    print_jobs(rt, NO_JOBS, 300)
}

//! What the program `tiffpage` does: it returns pages of files in memory as bytes and as lines, and
//! the replies to lists of calls and of jobs; and it runs the command line over files by their
//! names.
#![tactic(auto)]

pub mod calls;
mod command;
mod crc;
mod failure;
pub mod files;
mod help;
mod in_parts;
pub mod jobs;
mod links;
pub mod list;
pub mod listing;
mod parts;
mod png;
pub mod program;
mod replies;
pub mod samples;
pub mod view;
mod zlib;

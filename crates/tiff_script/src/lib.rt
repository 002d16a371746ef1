//! Lists of jobs and of calls as text, and the text of the replies to them.
#![tactic(auto)]

pub mod call;
pub mod digits;
pub mod jobs;
mod numbers;
pub mod replies;
mod samples;
mod steps;
mod values;
mod words;

/// The version of the calls for C, which is `MANGOHATCH_TIFF_VERSION` of their header. It is raised
/// when a call or a word of a list of jobs changes or is added.
pub const VERSION: u32 = 9;

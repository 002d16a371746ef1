//! Goes on behind a TIFF file that is there: where its last link is, and what jobs of an encoder
//! change, which are bytes behind the file and that link.
#![tactic(auto)]

pub mod failed_writes;
pub mod ghost_bytes;
pub mod last_link;
pub mod run;
pub mod sink;
pub mod source;

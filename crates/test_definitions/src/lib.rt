//! Worked examples of the definitions that the contracts of the other crates cite.
#![tactic(auto)]

pub mod base;
pub mod decode;
pub mod encode;
pub mod ifd;
pub mod page;
pub mod statuses;
pub mod value;

//! Rewrites one chunk of a page in place: makes the bytes that the file has of it from new samples.
#![tactic(auto)]

pub mod laws;
mod numbers;
pub mod planned;
pub mod rewrite;

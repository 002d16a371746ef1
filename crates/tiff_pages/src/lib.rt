//! The pages of a file, and how their chain ends: the facts of each page, or its first error; each
//! page read whole; and both as lines of text.
#![tactic(auto)]

pub mod adler;
pub mod check;
pub mod lines;
pub mod pages;
pub mod plan;
pub mod seen;
pub mod tree;

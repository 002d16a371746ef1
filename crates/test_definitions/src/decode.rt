//! Worked examples of the definitions of `tiff_decode`: results of calls, lists of calls, and
//! the tree of directories of `tiff_pages`.

pub mod asked;
pub mod machine;
pub mod outcome;
pub mod outcome_pixels;
pub mod outcome_queries;
pub mod reader;
pub mod steps;
pub mod tree;

//! Worked examples of the definitions of `tiff_ifd`: values of fields, chains, conversions and tag
//! queries.

pub mod chain;
pub mod field_value;
pub mod into;
pub mod look;
pub mod stream;
pub mod stretches;
pub mod tag_queries;
pub mod unpacking;
pub mod view;
pub mod walk;

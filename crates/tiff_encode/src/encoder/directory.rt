//! Open directories: their state, and their tags and values.

pub(crate) mod encoder;
pub(crate) mod state;
pub(crate) mod values;

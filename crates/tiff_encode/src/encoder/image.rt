//! Open images: how they begin, their state, their settings, and their chunks.

pub(crate) mod begin;
pub(crate) mod chunks;
pub(crate) mod color;
pub(crate) mod data;
pub(crate) mod encoder;
pub(crate) mod settings;
pub(crate) mod state;

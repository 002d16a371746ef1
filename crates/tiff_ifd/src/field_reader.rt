//! What a read of a field takes beside its source.

use crate::limits::Limits;
use std::alloc::Global;
use tiff_base::tags::{ByteOrder, FileKind};

/// Reads the values of fields: memory for them, the kind and the byte order of the file, and the
/// limits.
#[derive(Clone, Copy)]
pub struct FieldReader<'a> {
    pub alloc: Global,
    pub kind: FileKind,
    pub order: ByteOrder,
    pub limits: &'a Limits,
}

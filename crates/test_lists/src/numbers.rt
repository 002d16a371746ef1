//! Numbers of which all bits vary.

/// A number for each index.
pub fn number(index: u64) -> u64 {
    index.wrapping_add(1).wrapping_mul(0x9E37_79B9_7F4A_7C15)
}

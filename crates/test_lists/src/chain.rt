//! A file of many pages.

use std::alloc::{AllocError, Global};
use tiff_script::digits::bytes_of;

// A little-endian header whose first directory is at 8.
const HEADER: &str = "49492a0008000000";

// A directory of six entries without its link: one gray sample of 8 bits, the first byte of the
// file. With the link these are 78 bytes.
const PAGE: &str =
    "0600000103000100000001000000010103000100000001000000020103000100000008000000060103000100000001000000110104000100000000000000170104000100000001000000";

// The largest number of pages.
const MOST: u32 = 1_000_000;

/// A file of `count` consecutive pages, each of one gray sample. The directory of page N, counted
/// from 0, is at 8 + 78 N, and its link at 82 + 78 N. Returns `None` if there are too many pages.
pub fn chain_of(alloc: Global, count: u32) -> Result<Option<Vec<u8>>, AllocError> {
    let (Some(mut file), Some(page)) = (bytes_of(alloc, HEADER)?, bytes_of(alloc, PAGE)?) else {
        return Ok(None);
    };
    if count > MOST {
        return Ok(None);
    }
    for number in 0..count {
        let next = number + 1;
        let link = if next < count { 8 + 78 * next } else { 0 };
        file.extend_from_slice(&page)?;
        file.extend_from_slice(&link.to_le_bytes())?;
    }
    Ok(Some(file))
}

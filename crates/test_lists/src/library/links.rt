//! The links of a chain of directories.

use crate::library::told::Told;
use tiff_base::error::TiffResult;
use tiff_base::tags::IfdPointer;
use tiff_ifd::cycles::IfdCycles;

// Links from one offset to another, in the order in which they are added.
const LINKS: [(u64, Option<u64>); 8] = [
    (8, Some(20)),
    (8, Some(20)),
    (8, Some(30)),
    (20, Some(8)),
    (20, None),
    (20, Some(0)),
    (30, Some(20)),
    (40, Some(40)),
];

/// Adds the result of each link: a link that closes a cycle is refused.
pub fn add_lines(told: &mut Told) -> TiffResult<()> {
    let mut links = IfdCycles::new(told.alloc());
    for (from, to) in LINKS {
        let answer = links.insert_next(IfdPointer(from), to.map(IfdPointer));
        told.line("IfdCycles::insert_next", (from, to, answer));
    }
    Ok(())
}

//! The laws of a page. Each law is the contract of a function with an empty body.

ghost use Rattle.tiff_laws.specs.Bytes.{OneByte};
ghost use Rattle.tiff_laws.specs.Sides.{PageHasMethod, PageHasSides};

use crate::decoder::planes_covered;
use tiff_page::laws;

/// A page that the tags define, and each of its chunks, is at least one pixel wide and high. Its
/// pixels have at least one sample, and its samples at least one bit.
pub fn page_has_sides()
    ensures { PageHasSides }
{}

/// The compression method of a page that the tags define is the one that the tags define.
pub fn page_has_method()
    ensures { PageHasMethod }
{}

/// Each position of an image's planes contains one byte of one row of one chunk of one plane. The
/// position determines these, and these determine the position.
pub fn one_byte()
    ensures { OneByte }
{
    laws::chunks_within();
    planes_covered();
}

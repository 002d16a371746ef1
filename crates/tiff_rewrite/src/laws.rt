//! Laws of chunks that are rewritten in place. Each law is the contract of a function with an empty
//! body.
#![tactic(auto, using(crate::specs::lemmas::ChunkPut::shows_rewritten, crate::specs::lemmas::ChunkPut::keeps_apart))]

ghost use Rattle.tiff_rewrite.specs.RewriteLaws.{KeepsApart, ShowsRewritten};

/// Where the new bytes of a chunk are put at its offset in the file, the page shows the new samples
/// there, and a read of the chunk gives them.
pub fn shows_rewritten()
    ensures { ShowsRewritten }
{}

/// Where bytes are put into a file of data that aren't packed, each chunk of which what is read
/// lies apart from them is as it was.
pub fn keeps_apart()
    ensures { KeepsApart }
{}

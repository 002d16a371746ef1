//! The laws of chains, of accepted links, and of one number of a field. Each law is the contract of
//! a function that does nothing.

ghost use Rattle.tiff_ifd.specs.Chain.{IsLinkOfDirectory, IsTheChain, IsOneChain, IsLongestChain, IsChainApart};
ghost use Rattle.tiff_ifd.specs.Links.{IsAnswered, IsOneAnswer};
ghost use Rattle.tiff_ifd.specs.OneNumber.{OneOfNumbers};

/// The count and the link of a directory decide its link, and whether the directory is readable.
pub fn link_of_directory()
    ensures { IsLinkOfDirectory }
{}

/// Each first offset of each file has a chain, and `chain` is that chain.
pub fn the_chain()
    ensures { IsTheChain }
{}

/// A file has at most one chain from an offset.
pub fn one_chain()
    ensures { IsOneChain }
{}

/// The chain is the longest list of offsets that can be entered one after another.
pub fn longest_chain()
    ensures { IsLongestChain }
{}

/// The offsets of a chain differ, and each is below the number of bytes of the file.
pub fn apart_chain()
    ensures { IsChainApart }
{}

/// Each link has a result when it is offered, whatever links are accepted.
pub fn some_answer()
    ensures { IsAnswered }
{}

/// Each link that is offered has at most one result, and one set of accepted links after it.
pub fn one_answer()
    ensures { IsOneAnswer }
{}

/// A number of a field, read alone, is the one that a read of all numbers returns.
pub fn one_of_numbers()
    ensures { OneOfNumbers }
{}

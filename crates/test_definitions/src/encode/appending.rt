//! Worked examples of files that an encoder goes on behind.
#![tactic(auto, unfolding(tiff::proofs::OnLiterals::tiff_on_literals))]

ghost use Rattle.test_definitions.specs.Encode.Appending as s;

/// The last link of a file.
pub fn last_links()
    ensures { s.in_header × s.in_big_header × s.in_directory × s.in_second × s.no_last }
{}

/// Chains, and a chain that goes on.
pub fn chains()
    ensures { s.none_before × s.one_more }
{}

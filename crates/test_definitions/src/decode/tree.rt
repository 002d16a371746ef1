//! Worked examples of the tree of a file's directories.
#![tactic(auto, unfolding(tiff::proofs::OnLiterals::tiff_on_literals))]

ghost use Rattle.test_definitions.specs.Decode.Tree as s;

/// The tags that name directories.
pub fn names()
    ensures { s.sub_ifds × s.interoperability × s.of_type × s.no_pointer }
{}

/// What is found where a directory is named.
pub fn found()
    ensures { s.named_twice × s.no_values × s.values_taken × s.values_past_the_list × s.as_deep × s.too_deep × s.deep_but_met × s.met_stays }
{}

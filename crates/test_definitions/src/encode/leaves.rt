//! Worked examples of the steps that write a file, and of what calls leave.
#![tactic(auto, unfolding(tiff::proofs::OnLiterals::tiff_on_literals))]

ghost use Rattle.test_definitions.specs.Encode.Leaves as s;

/// Steps that write a file.
pub fn parts()
    ensures { s.short_value × s.link_past × s.appends_one × s.appends_none × s.header_goes
        × s.header_counted ×
        s.links_25 × s.links_stay }
{}

/// What calls leave in a file.
pub fn files()
    ensures computed { s.left_region × s.left_changed × s.given_two × s.given_few }
    ensures by_answer { s.left_other × s.left_torn × s.left_linked × s.left_broken }
{}

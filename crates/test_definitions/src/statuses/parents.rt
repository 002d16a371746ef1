//! Worked examples of pages with parents: where they are placed, and at which link each is written.
#![tactic(auto, unfolding(tiff::proofs::OnLiterals::tiff_on_literals))]

ghost use Rattle.test_definitions.specs.Statuses.Parents as s;

/// Pages in the chain and below others.
pub fn places()
    ensures { s.below × s.in_chain × s.own_parent × s.in_order }
{}

/// The tag SubIFDs of a page with children.
pub fn links()
    ensures { s.two_links × s.big_link × s.no_children × s.one_child }
{}

/// The link at which a page is written.
pub fn slots()
    ensures { s.two_chained × s.place_known × s.place_unknown × s.last_link × s.past_link ×
        s.past_big_link × s.former_link × s.cycle × s.whole_chain }
{}

/// The page that is told of where memory is out.
pub fn out_of_memory()
    ensures { s.out_at_the_first × s.out_at_none × s.out_behind_all }
{}

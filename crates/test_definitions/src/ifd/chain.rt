//! Worked examples of chains of directories, and of links that are accepted.
#![tactic(auto, using(crate::proofs::OfIfd::Chain::worked), unfolding(tiff::proofs::OnLiterals::tiff_on_literals))]

ghost use Rattle.test_definitions.specs.Ifd.Chain as s;

/// Chains that end at a link of 0, at a directory that is cut off, and at a link back.
pub fn chains()
    ensures { s.one_alone × s.two_linked × s.from_second × s.to_itself × s.second_to_itself × s.back
        ×
        s.next_past_end × s.second_cut × s.first_cut × s.big_linked }
{}

/// Links, and directories that are entered one after another.
pub fn entries()
    ensures computed { s.link_6 × s.link_0 × s.link_cut × s.entered_6 × s.not_entered
        × s.not_the_second ×
        s.no_chain }
    ensures by_lemma { s.the_first × s.both × s.a_chain }
{}

/// The longest list of offsets that are entered, and offsets that differ.
pub fn wholes()
    ensures { s.none_longest × s.one_not_longest × s.offsets_apart × s.offset_twice
        × s.offset_past_end }
{}

/// Links that are inserted one after another.
pub fn links()
    ensures { s.first_link × s.same_link × s.other_link × s.closing_link × s.last_link × s.zero_link
        ×
        s.second_parent × s.own_link }
{}

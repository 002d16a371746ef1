//! Worked examples of windows of a file.
#![tactic(auto, using(crate::proofs::OfBase::Windows::worked), unfolding(tiff::proofs::OnLiterals::tiff_on_literals, tiff_base::specs::Windows::file_of))]

ghost use Rattle.test_definitions.specs.Base.Windows as s;

/// The order of windows.
pub fn order()
    ensures ends { s.fourth_end × s.in_order × s.side_by_side × s.to_the_end × s.no_windows }
    ensures none { s.out_of_order × s.overlapping × s.past_the_end × s.disorder_before }
    ensures by_lemma { s.apart × s.apart_side_by_side × s.not_apart }
{}

/// The files that windows are of.
pub fn files()
    ensures of { s.of_file × s.another_byte_unseen }
    ensures by_lemma { s.another_byte_seen × s.of_shorter × s.of_no_bytes }
    ensures told { s.told_of_file × s.told_of_another × s.told_of_shorter × s.told_of_no_bytes }
    ensures made { s.itself × s.zeros_between × s.zeros_alone }
{}

/// The bytes that windows have, and those that are wanted.
pub fn stretches()
    ensures readable { s.front_readable × s.fourth_readable × s.gap_readable × s.end_readable × s.past_readable }
    ensures wanted { s.third_wanted × s.third_wanted_on }
    ensures unwanted { s.seen_wanted × s.none_wanted × s.past_wanted }
{}

//! Worked examples of opening files.
#![tactic(auto, using(crate::proofs::OfDecode::Outcome::worked), unfolding(tiff::proofs::OnLiterals::tiff_on_literals))]

ghost use Rattle.test_definitions.specs.Decode.Outcome as s;

/// Files that are refused before their tags are read.
pub fn openings()
    ensures { s.big_endian_0 × s.big_endian_44 × s.big_file_cut × s.big_file_4 × s.directory_cut
        × s.gray_cut }
{}

/// Files whose tags are read.
pub fn tags()
    ensures { s.no_tags × s.width_0 × s.lzw × s.count_0 × s.list_limited × s.list_within
        × s.next_unread }
{}

/// A big-endian file, and a BigTIFF file.
pub fn forms()
    ensures { s.big_endian × s.big }
{}

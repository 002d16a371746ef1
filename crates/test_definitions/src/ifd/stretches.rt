//! Worked examples of stretches: the bytes of a source that headers, directories and values need.
#![tactic(auto, using(crate::proofs::OfIfd::Stretches::worked), unfolding(tiff::proofs::OnLiterals::tiff_on_literals))]

ghost use Rattle.test_definitions.specs.Ifd.Stretches as s;

/// The bytes that headers and directories need.
pub fn directories()
    ensures computed { s.header_of_classic × s.header_of_big × s.header_of_none × s.whole_directory
        ×
        s.link_alone }
    ensures by_lemma { s.directory_with_link }
{}

/// The bytes that values need.
pub fn values()
    ensures computed { s.value_in_entry × s.value_elsewhere × s.value_there }
    ensures by_lemma { s.tag_missing }
{}

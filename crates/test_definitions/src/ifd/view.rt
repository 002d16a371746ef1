//! Worked examples of views.
#![tactic(auto, using(crate::proofs::OfIfd::View::worked), unfolding(tiff::proofs::OnLiterals::tiff_on_literals))]

ghost use Rattle.test_definitions.specs.Ifd.View as s;

/// Values and samples as plain data.
pub fn views()
    ensures computed { s.bytes_decoded × s.signed_decoded × s.floats_decoded × s.first_stays
        × s.zeros_behind ×
        s.no_zeros × s.wide_bytes }
    ensures by_lemma { s.byte_seen × s.list_seen × s.float_seen × s.two_seen }
{}

/// Values that are equal, and fields that are set one after another.
pub fn parts()
    ensures computed { s.bytes_same × s.byte_short × s.lists_same × s.lists_differ
        × s.rationals_differ ×
        s.texts_differ × s.none_set }
    ensures by_lemma { s.last_set }
{}

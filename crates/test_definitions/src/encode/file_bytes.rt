//! Worked examples of files of the writer.
#![tactic(auto, using(crate::proofs::OfEncode::FileBytes::worked), unfolding(tiff::proofs::OnLiterals::tiff_on_literals))]

ghost use Rattle.test_definitions.specs.Encode.FileBytes as s;

/// Headers, entries, padding and rows.
pub fn parts()
    ensures { s.classic_header × s.big_header × s.classic_entry × s.big_entry × s.padding_8
        × s.padding_199 ×
        s.padding_201 × s.rows_3 × s.rows_300 × s.rows_long }
{}

/// Directories.
pub fn files()
    ensures { s.two_fields × s.no_field }
{}

/// What a write does.
pub fn writes()
    ensures { s.appended × s.over }
{}

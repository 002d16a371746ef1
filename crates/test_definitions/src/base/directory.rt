//! Worked examples of entries and directories.
#![tactic(auto, using(crate::proofs::OfBase::Directory::worked), unfolding(tiff::proofs::OnLiterals::tiff_on_literals))]

ghost use Rattle.test_definitions.specs.Base.Directory as s;

/// Entries that are read, entries that are skipped, and entries that are cut off.
pub fn entries()
    ensures { s.classic_entry × s.big_endian_entry × s.unknown_entry × s.wide_entry
        × s.unknown_wide_entry ×
        s.entry_at_1 × s.cut_entry }
{}

/// Directories that are read, and directories that are cut off. Of several entries with one tag
/// number, the last one of a known type is kept.
pub fn directories()
    ensures computed { s.no_entries × s.linked × s.cut_link × s.past_end × s.twice_found
        × s.wide_directory }
    ensures by_lemma { s.last_stands × s.one_stands × s.first_stands }
{}

/// The directory of the file of one gray pixel.
pub fn gray()
    ensures computed { s.gray_length × s.gray_found × s.gray_cut }
    ensures by_lemma { s.gray_14 × s.gray_rows × s.gray_artist }
{}

//! Worked examples of what calls return and leave.
#![tactic(auto, using(crate::proofs::OfBase::Answers::worked), unfolding(tiff::proofs::OnLiterals::tiff_on_literals))]

ghost use Rattle.test_definitions.specs.Base.Answers as s;

/// What a call may return, and what it leaves of a source.
pub fn answers()
    ensures computed { s.given × s.another × s.fault_given × s.fault_another × s.fault_for_none
        × s.wanting ×
        s.not_wanting × s.failed × s.not_failed × s.end_given × s.kept × s.not_kept × s.swallowed × s.asks ×
        s.asks_not × s.never_fails × s.fails_elsewhere }
    ensures by_lemma { s.fails_from }
{}

/// The contents of a sink and of an in-memory directory.
pub fn memories()
    ensures computed { s.sink_errors × s.entry_fits × s.entry_not × s.one_in }
    ensures by_lemma { s.entries_fit }
{}

/// What a writer does.
pub fn writers()
    ensures { s.three_new × s.nine_moved × s.nines_written × s.none_moved × s.write_fails
        × s.write_fails_not ×
        s.fault_swapped × s.stopped × s.not_stopped × s.cut × s.not_cut × s.cut_swapped × s.cut_whole ×
        s.cut_twice × s.writes × s.writes_not }
{}

/// Tags by name.
pub fn names()
    ensures { s.tags_named × s.methods_named × s.formats_named × s.units_of }
{}

/// What color types are.
pub fn color_types()
    ensures { s.gray_type_is × s.two_grays × s.uneven_bits × s.narrow_bits × s.packed_gray
        × s.three_bits × s.packed_pairs × s.packed_samples × s.more_formats
        × s.no_samples ×
        s.two_formats }
{}

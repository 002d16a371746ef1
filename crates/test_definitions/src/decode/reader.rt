//! Worked examples of reads of tags: from the page's directory or another one, and numbers as
//! another type.
#![tactic(auto, using(crate::proofs::OfDecode::Reader::worked), unfolding(tiff::proofs::OnLiterals::tiff_on_literals))]

ghost use Rattle.test_definitions.specs.Decode.Reader as s;

/// The directory whose tags are read, and reads that move nothing.
pub fn directories()
    ensures { s.own_chosen × s.other_chosen × s.own_read × s.other_read × s.seven_read
        × s.eight_read ×
        s.failures_swallowed × s.failures_forgotten × s.offset_moved × s.seven_wanting × s.seven_failed ×
        s.seven_not_failed × s.held × s.held_moved × s.held_forgotten × s.reading_own × s.reading_another ×
        s.reading_counted × s.tags_eight }
{}

/// A number as another type.
pub fn numbers()
    ensures { s.fits × s.too_great × s.cut_off × s.other_tag × s.other_fault × s.fitting_refused ×
        s.number_fits × s.number_other × s.number_great × s.number_missing × s.number_missing_unfit ×
        s.number_missing_given × s.number_wanting × s.missing_wanting × s.number_failed × s.number_not_failed }
{}

/// The number of an optional tag.
pub fn options()
    ensures { s.none_none × s.none_some × s.none_unfit × s.some_fits × s.some_none × s.some_great ×
        s.some_great_none × s.if_no_number × s.if_no_number_unfit × s.if_wanting × s.if_failed ×
        s.if_not_failed }
{}

/// Lists of numbers as another type.
pub fn lists()
    ensures computed { s.each_fits × s.each_of_none × s.each_fewer × s.each_more × s.each_turned ×
        s.each_great × s.unfit_otherwise × s.numbers_fit × s.numbers_fewer × s.numbers_wanting ×
        s.numbers_not_failed }
    ensures by_lemma { s.second_unfit × s.none_is_unfit × s.no_list_unfit × s.numbers_great ×
        s.numbers_refused }
    ensures by_answer { s.third_later }
{}

/// The numbers of an optional tag.
pub fn whole_lists()
    ensures computed { s.lists_none × s.list_not_none × s.list_of_none × s.list_fits × s.list_fewer
        ×
        s.list_cut × s.list_cut_unfit × s.list_wanting × s.list_failed × s.list_not_failed }
    ensures by_lemma { s.list_great }
{}

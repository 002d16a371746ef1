//! Worked examples of image jobs.
#![tactic(auto, using(crate::proofs::OfEncode::ImageJobs::worked), unfolding(tiff::proofs::OnLiterals::tiff_on_literals))]

ghost use Rattle.test_definitions.specs.Encode.ImageJobs as s;

/// Strips and resolutions of jobs.
pub fn strips()
    ensures computed { s.uncalled × s.uncalled_fault × s.strip_stood × s.strip_found
        × s.strip_unfound ×
        s.strip_unpacked × s.strip_half × s.strip_few × s.strip_few_wanting × s.strip_number × s.resolved ×
        s.resolved_uncaused }
    ensures by_answer { s.strip_other × s.resolved_part × s.resolved_failed × s.resolved_wanting }
{}

/// Ends of an image.
pub fn ends()
    ensures computed { s.data_few × s.data_few_wanting × s.data_unfound × s.data_no_strip
        × s.data_offsets }
    ensures by_lemma { s.data_begun × s.data_done × s.data_found × s.image_ended }
{}

/// Whole image jobs.
pub fn pages()
    ensures computed { s.not_begun }
    ensures by_answer { s.no_side_job × s.strip_job × s.page_shown × s.data_job }
{}

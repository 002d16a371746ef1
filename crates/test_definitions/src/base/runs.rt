//! Worked examples of PackBits lists.
#![tactic(auto, using(crate::proofs::OfBase::Runs::worked), unfolding(tiff::proofs::OnLiterals::tiff_on_literals))]

ghost use Rattle.test_definitions.specs.Base.Runs as s;

/// Lists that unpack to their end, and lists that are broken.
pub fn runs()
    ensures { s.three_runs × s.nothing × s.nothing_told × s.skipped × s.broken_run × s.broken_second
        ×
        s.short_literal × s.early_literal × s.early_end × s.shortest_run × s.longest_run }
{}

/// Lists as blocks.
pub fn blocks()
    ensures computed { s.no_block }
    ensures by_lemma { s.three_blocks × s.short_block × s.bare_block × s.headless_128 × s.headless_2
        ×
        s.empty_early × s.empty_whole }
{}

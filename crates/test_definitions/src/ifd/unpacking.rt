//! Worked examples of reads of packed bytes in pieces.
#![tactic(auto, unfolding(tiff::proofs::OnLiterals::tiff_on_literals))]

ghost use Rattle.test_definitions.specs.Ifd.Unpacking as s;

/// The bytes that packed bytes at an offset unpack to, and the bytes that are left in a block.
pub fn offsets()
    ensures { s.at_offset × s.of_length × s.past_end × s.none_past_end × s.in_literal × s.in_run ×
        s.last_of_packed × s.not_the_last }
{}

/// Pieces that are read.
pub fn pieces()
    ensures { s.two_read × s.one_read × s.one_spills × s.one_passed × s.one_again × s.end_turned
        × s.none_read ×
        s.empty_read × s.plain_read × s.broken_read }
{}

/// Reads that are refused.
pub fn refusals()
    ensures { s.broken_told × s.broken_empty × s.plain_told × s.told_early × s.device_told
        × s.device_untold ×
        s.device_loses × s.memory_told }
{}

/// Rows that are filled, and rows that aren't.
pub fn filled()
    ensures { s.row_filled × s.row_short × s.row_short_loses × s.row_enough }
{}

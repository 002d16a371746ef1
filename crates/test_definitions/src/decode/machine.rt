//! Worked examples of the moves of decoders.
#![tactic(auto, using(crate::proofs::OfDecode::Machine::worked), unfolding(tiff::proofs::OnLiterals::tiff_on_literals))]

ghost use Rattle.test_definitions.specs.Decode.Machine as s;

/// Files that open, and files that don't.
pub fn openings()
    ensures computed { s.no_file × s.own_cycle × s.past_end }
    ensures by_lemma { s.gray_begins }
{}

/// Pages of chains.
pub fn pages()
    ensures computed { s.no_next × s.next_cycle × s.next_cut × s.seek_5 × s.seek_5_again
        × s.seek_cycle ×
        s.limits_set × s.limits_same × s.gone_0 }
    ensures by_lemma { s.next_bare × s.seek_1 × s.seek_0 }
{}

/// Numbers at the offset.
pub fn numbers()
    ensures { s.long_8 × s.byte_24 × s.long_cut × s.short_end × s.gone × s.byte_past × s.sshort_read
        ×
        s.sshort_cut × s.slong_read × s.slong_cut × s.long8_read × s.long8_cut × s.slong8_read × s.slong8_cut ×
        s.float_read × s.float_cut × s.double_read × s.double_cut }
{}

/// Offsets and texts at the offset.
pub fn texts()
    ensures { s.ifd_offset_read × s.ifd_offset_big × s.offset_read × s.offset_big
        × s.offset_u64_read ×
        s.offset_u64_cut × s.string_read × s.string_wild × s.string_cut × s.string_none }
{}

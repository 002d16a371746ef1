//! Worked examples of sources and sinks, and of values looked up in a directory.
#![tactic(auto, using(crate::proofs::OfBase::SourceAndSink::worked), unfolding(tiff::proofs::OnLiterals::tiff_on_literals))]

ghost use Rattle.test_definitions.specs.Base.SourceAndSink as s;

/// Reads of a source.
pub fn reads()
    ensures computed { s.two_in_middle × s.read_two × s.read_one × s.read_none × s.read_at_end ×
        s.read_past_end × s.read_elsewhere × s.read_into_none × s.octets × s.last_of_six × s.one_more_than_six ×
        s.nothing_readable }
    ensures by_lemma { s.no_octets }
{}

/// The readable bytes of a source, and of a buffered source.
pub fn stretches()
    ensures { s.second_stretch × s.within_gap × s.no_stretch × s.all_readable × s.nine_buffered ×
        s.ten_buffered × s.short_buffered × s.all_buffered }
{}

/// Writes of a sink.
pub fn writes()
    ensures appends { s.append_two × s.append_one × s.append_none × s.append_nothing × s.append_too_many }
    ensures runs { s.run_of_two × s.run_in_part × s.run_failed × s.run_half_failed × s.run_refused × s.run_refused_late }
    ensures overwrites { s.over_one × s.over_two × s.over_end × s.over_none × s.over_elsewhere }
{}

/// Values of a directory's fields.
pub fn look_ups()
    ensures computed { s.signed_byte_alone × s.wide_offset × s.wide_count × s.no_letters }
    ensures by_lemma { s.look_big_endian × s.look_placed × s.look_limited }
{}

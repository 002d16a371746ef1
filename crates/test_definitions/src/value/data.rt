//! Worked examples of values that are written, and of bytes in both byte orders.
#![tactic(auto, unfolding(tiff::proofs::OnLiterals::tiff_on_literals))]

ghost use Rattle.test_definitions.specs.Value.Data as s;

/// Numbers, offsets and rationals.
pub fn numbers()
    ensures { s.one_u8 × s.one_i8 × s.two_u16 × s.one_i16 × s.one_u32 × s.one_i32 × s.one_u64
        × s.one_i64 ×
        s.one_bits32 × s.one_bits64 × s.no_numbers × s.one_ifd × s.one_ifd8 × s.one_rational × s.one_srational }
{}

/// Enums and texts.
pub fn others()
    ensures { s.packbits × s.unknown_method × s.rgb × s.in_planes × s.horizontal × s.inch
        × s.int_uint ×
        s.unspecified × s.abcd × s.no_text × s.not_ascii × s.with_zero }
{}

/// Bytes in another byte order, and buffers.
pub fn orders()
    ensures { s.three_bytes × s.shorts_back × s.same_order × s.bytes × s.long_and_more × s.rational
        ×
        s.half_rational × s.double × s.short_count × s.rational_count × s.empty_count × s.empty_longs ×
        s.from_short × s.ordered_short × s.ordered_same }
{}

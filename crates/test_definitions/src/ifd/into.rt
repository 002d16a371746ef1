//! Worked examples of conversions to signed and floating-point numbers, offsets, texts, and lists
//! of them.
#![tactic(auto, unfolding(tiff::proofs::OnLiterals::tiff_on_literals))]

ghost use Rattle.test_definitions.specs.Ifd.Into as s;

/// Numbers that fit, numbers that don't, and other values.
pub fn numbers()
    ensures { s.u8_byte × s.u8_short × s.i8_minus_two × s.i8_byte × s.i16_most × s.i16_least
        × s.i16_too_great ×
        s.i16_too_small × s.i16_short × s.i32_signed × s.i32_least × s.i32_too_great × s.i32_long ×
        s.i64_least × s.i64_long }
{}

/// Floating-point numbers, offsets of directories, and texts.
pub fn others()
    ensures { s.f32_one × s.f32_double × s.f64_one × s.f64_float × s.pointer_long × s.pointer_big ×
        s.pointer_long8 × s.string_a × s.string_byte }
{}

/// Lists of numbers.
pub fn lists()
    ensures { s.u8s_list × s.u8s_one × s.u8s_longs × s.u32s_list × s.u32s_too_great
        × s.u32s_rational ×
        s.u32s_rational_big × s.u32s_big_fits × s.u32s_text × s.u32s_rational_item × s.f32s_list × s.f32s_one ×
        s.f32s_double × s.f64s_one × s.f64s_floats × s.pointers × s.pointers_one × s.pointers_long8 }
{}

/// Lists of signed numbers.
pub fn signed_lists()
    ensures { s.i32s_list × s.i32s_empty × s.i32s_one × s.i32s_rational × s.i32s_too_great
        × s.i32s_big_fits ×
        s.i32s_first_fault × s.i32s_first_kind × s.i32s_nested × s.i64s_rational × s.i64s_list × s.i64s_long }
{}

//! Numbers and offsets as values that are written: each is a number.

ghost use Rattle.std.specs.Int.{w8, w16, w32, w64};
ghost use Rattle.std.specs.Prelude.{◌≡◌, [], ◌∷◌, map, Ok, refl};
ghost use Rattle.tiff_base.specs.Number.{le};
ghost use Rattle.tiff_base.specs.declared.tags.«Type».TheVariants.{BYTE, SHORT, LONG, SBYTE, SSHORT, SLONG, FLOAT, DOUBLE, IFD, LONG8, SLONG8, IFD8};
ghost use Rattle.tiff_value.specs.Data.{data_of, signed_le, u8s, i8s, u16s, i16s, u32s, i32s, u64s, i64s, bits32s, bits64s, ifds, ifd8s};
ghost use Rattle.tiff_value.specs.ValueLaws.{mapped_values};

use super::octets::push_numbers;
use super::tiff_value::{Ifd, Ifd8, TiffScalar, TiffValue};
use tiff_base::error::TiffResult;
use tiff_base::tags::{Bits32, Bits64, Type};

// One impl a type: one for every `TiffScalar` would conflict with that for `&T`.
impl TiffValue for u8 {
    ghost value_type = { BYTE };

    ghost value_count = { λ _. 1 };

    ghost field_data = { λ n. Ok (data_of (u8s (n ∷ []))) };

    const BYTE_LEN: u8 = 1;

    const FIELD_TYPE: Type = Type::BYTE;

    fn type_and_len() -> (Type, u8) {
        (Self::FIELD_TYPE, Self::BYTE_LEN)
    }

    fn count(&self) -> usize {
        1
    }

    fn check(&self) -> TiffResult<()> {
        Ok(())
    }

    #[tactic(auto, unfolding(crate::specs::Data::data_of))]
    fn push_to(&self, out: &mut Vec<u8>) -> TiffResult<()> {
        out.extend_from_slice(&self.to_le_bytes())?;
        Ok(())
    }

    ghost sized = { λ n. unfold data_of in (refl, refl, refl) };
}

impl TiffScalar for u8 {
    ghost scalars = { u8s };

    ghost spelled = { le 1 };

    // one copy for all bytes
    fn push_all(items: &[u8], out: &mut Vec<u8>) -> TiffResult<()> {
        out.extend_from_slice(items)?;
        Ok(())
    }

    ghost alone = { λ n. refl };

    ghost one = { λ n. refl };

    ghost listed = { λ ns. unfold data_of in refl };
}

impl TiffValue for i8 {
    ghost value_type = { SBYTE };

    ghost value_count = { λ _. 1 };

    ghost field_data = { λ n. Ok (data_of (i8s (n ∷ []))) };

    const BYTE_LEN: u8 = 1;

    const FIELD_TYPE: Type = Type::SBYTE;

    fn type_and_len() -> (Type, u8) {
        (Self::FIELD_TYPE, Self::BYTE_LEN)
    }

    fn count(&self) -> usize {
        1
    }

    fn check(&self) -> TiffResult<()> {
        Ok(())
    }

    #[tactic(auto, unfolding(crate::specs::Data::data_of))]
    fn push_to(&self, out: &mut Vec<u8>) -> TiffResult<()> {
        out.extend_from_slice(&self.to_le_bytes())?;
        Ok(())
    }

    ghost sized = { λ n. unfold data_of in (refl, refl, refl) };
}

impl TiffScalar for i8 {
    ghost scalars = { i8s };

    ghost spelled = { signed_le w8 };

    fn push_all(items: &[i8], out: &mut Vec<u8>) -> TiffResult<()> {
        push_numbers(items, out)
    }

    ghost alone = { λ n. refl };

    ghost one = { λ n. refl };

    ghost listed = { λ ns. unfold data_of in refl };
}

impl TiffValue for u16 {
    ghost value_type = { SHORT };

    ghost value_count = { λ _. 1 };

    ghost field_data = { λ n. Ok (data_of (u16s (n ∷ []))) };

    const BYTE_LEN: u8 = 2;

    const FIELD_TYPE: Type = Type::SHORT;

    fn type_and_len() -> (Type, u8) {
        (Self::FIELD_TYPE, Self::BYTE_LEN)
    }

    fn count(&self) -> usize {
        1
    }

    fn check(&self) -> TiffResult<()> {
        Ok(())
    }

    #[tactic(auto, unfolding(crate::specs::Data::data_of))]
    fn push_to(&self, out: &mut Vec<u8>) -> TiffResult<()> {
        out.extend_from_slice(&self.to_le_bytes())?;
        Ok(())
    }

    ghost sized = { λ n. unfold data_of in (refl, refl, refl) };
}

impl TiffScalar for u16 {
    ghost scalars = { u16s };

    ghost spelled = { le 2 };

    fn push_all(items: &[u16], out: &mut Vec<u8>) -> TiffResult<()> {
        push_numbers(items, out)
    }

    ghost alone = { λ n. refl };

    ghost one = { λ n. refl };

    ghost listed = { λ ns. unfold data_of in refl };
}

impl TiffValue for i16 {
    ghost value_type = { SSHORT };

    ghost value_count = { λ _. 1 };

    ghost field_data = { λ n. Ok (data_of (i16s (n ∷ []))) };

    const BYTE_LEN: u8 = 2;

    const FIELD_TYPE: Type = Type::SSHORT;

    fn type_and_len() -> (Type, u8) {
        (Self::FIELD_TYPE, Self::BYTE_LEN)
    }

    fn count(&self) -> usize {
        1
    }

    fn check(&self) -> TiffResult<()> {
        Ok(())
    }

    #[tactic(auto, unfolding(crate::specs::Data::data_of))]
    fn push_to(&self, out: &mut Vec<u8>) -> TiffResult<()> {
        out.extend_from_slice(&self.to_le_bytes())?;
        Ok(())
    }

    ghost sized = { λ n. unfold data_of in (refl, refl, refl) };
}

impl TiffScalar for i16 {
    ghost scalars = { i16s };

    ghost spelled = { signed_le w16 };

    fn push_all(items: &[i16], out: &mut Vec<u8>) -> TiffResult<()> {
        push_numbers(items, out)
    }

    ghost alone = { λ n. refl };

    ghost one = { λ n. refl };

    ghost listed = { λ ns. unfold data_of in refl };
}

impl TiffValue for u32 {
    ghost value_type = { LONG };

    ghost value_count = { λ _. 1 };

    ghost field_data = { λ n. Ok (data_of (u32s (n ∷ []))) };

    const BYTE_LEN: u8 = 4;

    const FIELD_TYPE: Type = Type::LONG;

    fn type_and_len() -> (Type, u8) {
        (Self::FIELD_TYPE, Self::BYTE_LEN)
    }

    fn count(&self) -> usize {
        1
    }

    fn check(&self) -> TiffResult<()> {
        Ok(())
    }

    #[tactic(auto, unfolding(crate::specs::Data::data_of))]
    fn push_to(&self, out: &mut Vec<u8>) -> TiffResult<()> {
        out.extend_from_slice(&self.to_le_bytes())?;
        Ok(())
    }

    ghost sized = { λ n. unfold data_of in (refl, refl, refl) };
}

impl TiffScalar for u32 {
    ghost scalars = { u32s };

    ghost spelled = { le 4 };

    fn push_all(items: &[u32], out: &mut Vec<u8>) -> TiffResult<()> {
        push_numbers(items, out)
    }

    ghost alone = { λ n. refl };

    ghost one = { λ n. refl };

    ghost listed = { λ ns. unfold data_of in refl };
}

impl TiffValue for i32 {
    ghost value_type = { SLONG };

    ghost value_count = { λ _. 1 };

    ghost field_data = { λ n. Ok (data_of (i32s (n ∷ []))) };

    const BYTE_LEN: u8 = 4;

    const FIELD_TYPE: Type = Type::SLONG;

    fn type_and_len() -> (Type, u8) {
        (Self::FIELD_TYPE, Self::BYTE_LEN)
    }

    fn count(&self) -> usize {
        1
    }

    fn check(&self) -> TiffResult<()> {
        Ok(())
    }

    #[tactic(auto, unfolding(crate::specs::Data::data_of))]
    fn push_to(&self, out: &mut Vec<u8>) -> TiffResult<()> {
        out.extend_from_slice(&self.to_le_bytes())?;
        Ok(())
    }

    ghost sized = { λ n. unfold data_of in (refl, refl, refl) };
}

impl TiffScalar for i32 {
    ghost scalars = { i32s };

    ghost spelled = { signed_le w32 };

    fn push_all(items: &[i32], out: &mut Vec<u8>) -> TiffResult<()> {
        push_numbers(items, out)
    }

    ghost alone = { λ n. refl };

    ghost one = { λ n. refl };

    ghost listed = { λ ns. unfold data_of in refl };
}

impl TiffValue for u64 {
    ghost value_type = { LONG8 };

    ghost value_count = { λ _. 1 };

    ghost field_data = { λ n. Ok (data_of (u64s (n ∷ []))) };

    const BYTE_LEN: u8 = 8;

    const FIELD_TYPE: Type = Type::LONG8;

    fn type_and_len() -> (Type, u8) {
        (Self::FIELD_TYPE, Self::BYTE_LEN)
    }

    fn count(&self) -> usize {
        1
    }

    fn check(&self) -> TiffResult<()> {
        Ok(())
    }

    #[tactic(auto, unfolding(crate::specs::Data::data_of))]
    fn push_to(&self, out: &mut Vec<u8>) -> TiffResult<()> {
        out.extend_from_slice(&self.to_le_bytes())?;
        Ok(())
    }

    ghost sized = { λ n. unfold data_of in (refl, refl, refl) };
}

impl TiffScalar for u64 {
    ghost scalars = { u64s };

    ghost spelled = { le 8 };

    fn push_all(items: &[u64], out: &mut Vec<u8>) -> TiffResult<()> {
        push_numbers(items, out)
    }

    ghost alone = { λ n. refl };

    ghost one = { λ n. refl };

    ghost listed = { λ ns. unfold data_of in refl };
}

impl TiffValue for i64 {
    ghost value_type = { SLONG8 };

    ghost value_count = { λ _. 1 };

    ghost field_data = { λ n. Ok (data_of (i64s (n ∷ []))) };

    const BYTE_LEN: u8 = 8;

    const FIELD_TYPE: Type = Type::SLONG8;

    fn type_and_len() -> (Type, u8) {
        (Self::FIELD_TYPE, Self::BYTE_LEN)
    }

    fn count(&self) -> usize {
        1
    }

    fn check(&self) -> TiffResult<()> {
        Ok(())
    }

    #[tactic(auto, unfolding(crate::specs::Data::data_of))]
    fn push_to(&self, out: &mut Vec<u8>) -> TiffResult<()> {
        out.extend_from_slice(&self.to_le_bytes())?;
        Ok(())
    }

    ghost sized = { λ n. unfold data_of in (refl, refl, refl) };
}

impl TiffScalar for i64 {
    ghost scalars = { i64s };

    ghost spelled = { signed_le w64 };

    fn push_all(items: &[i64], out: &mut Vec<u8>) -> TiffResult<()> {
        push_numbers(items, out)
    }

    ghost alone = { λ n. refl };

    ghost one = { λ n. refl };

    ghost listed = { λ ns. unfold data_of in refl };
}

impl TiffValue for Bits32 {
    ghost value_type = { FLOAT };

    ghost value_count = { λ _. 1 };

    ghost field_data = { λ n. Ok (data_of (bits32s (n.0 ∷ []))) };

    const BYTE_LEN: u8 = 4;

    const FIELD_TYPE: Type = Type::FLOAT;

    fn type_and_len() -> (Type, u8) {
        (Self::FIELD_TYPE, Self::BYTE_LEN)
    }

    fn count(&self) -> usize {
        1
    }

    fn check(&self) -> TiffResult<()> {
        Ok(())
    }

    #[tactic(auto, unfolding(crate::specs::Data::data_of))]
    fn push_to(&self, out: &mut Vec<u8>) -> TiffResult<()> {
        out.extend_from_slice(&self.0.to_le_bytes())?;
        Ok(())
    }

    ghost sized = { λ n. unfold data_of in (refl, refl, refl) };
}

impl TiffScalar for Bits32 {
    ghost scalars = { λ ns. bits32s (map (λ n. n.0) ns) };

    ghost spelled = { λ n. le 4 n.0 };

    fn push_all(items: &[Bits32], out: &mut Vec<u8>) -> TiffResult<()> {
        push_numbers(items, out)
    }

    ghost alone = { λ n. refl };

    ghost one = { λ n. refl };

    ghost listed = { λ ns. unfold data_of in mapped_values FLOAT (λ n. n.0) (le 4) ns };
}

impl TiffValue for Bits64 {
    ghost value_type = { DOUBLE };

    ghost value_count = { λ _. 1 };

    ghost field_data = { λ n. Ok (data_of (bits64s (n.0 ∷ []))) };

    const BYTE_LEN: u8 = 8;

    const FIELD_TYPE: Type = Type::DOUBLE;

    fn type_and_len() -> (Type, u8) {
        (Self::FIELD_TYPE, Self::BYTE_LEN)
    }

    fn count(&self) -> usize {
        1
    }

    fn check(&self) -> TiffResult<()> {
        Ok(())
    }

    #[tactic(auto, unfolding(crate::specs::Data::data_of))]
    fn push_to(&self, out: &mut Vec<u8>) -> TiffResult<()> {
        out.extend_from_slice(&self.0.to_le_bytes())?;
        Ok(())
    }

    ghost sized = { λ n. unfold data_of in (refl, refl, refl) };
}

impl TiffScalar for Bits64 {
    ghost scalars = { λ ns. bits64s (map (λ n. n.0) ns) };

    ghost spelled = { λ n. le 8 n.0 };

    fn push_all(items: &[Bits64], out: &mut Vec<u8>) -> TiffResult<()> {
        push_numbers(items, out)
    }

    ghost alone = { λ n. refl };

    ghost one = { λ n. refl };

    ghost listed = { λ ns. unfold data_of in mapped_values DOUBLE (λ n. n.0) (le 8) ns };
}

impl TiffValue for Ifd {
    ghost value_type = { IFD };

    ghost value_count = { λ _. 1 };

    ghost field_data = { λ n. Ok (data_of (ifds (n.0 ∷ []))) };

    const BYTE_LEN: u8 = 4;

    const FIELD_TYPE: Type = Type::IFD;

    fn type_and_len() -> (Type, u8) {
        (Self::FIELD_TYPE, Self::BYTE_LEN)
    }

    fn count(&self) -> usize {
        1
    }

    fn check(&self) -> TiffResult<()> {
        Ok(())
    }

    #[tactic(auto, unfolding(crate::specs::Data::data_of))]
    fn push_to(&self, out: &mut Vec<u8>) -> TiffResult<()> {
        out.extend_from_slice(&self.0.to_le_bytes())?;
        Ok(())
    }

    ghost sized = { λ n. unfold data_of in (refl, refl, refl) };
}

impl TiffScalar for Ifd {
    ghost scalars = { λ ns. ifds (map (λ n. n.0) ns) };

    ghost spelled = { λ n. le 4 n.0 };

    ghost alone = { λ n. refl };

    ghost one = { λ n. refl };

    ghost listed = { λ ns. unfold data_of in mapped_values IFD (λ n. n.0) (le 4) ns };
}

impl TiffValue for Ifd8 {
    ghost value_type = { IFD8 };

    ghost value_count = { λ _. 1 };

    ghost field_data = { λ n. Ok (data_of (ifd8s (n.0 ∷ []))) };

    const BYTE_LEN: u8 = 8;

    const FIELD_TYPE: Type = Type::IFD8;

    fn type_and_len() -> (Type, u8) {
        (Self::FIELD_TYPE, Self::BYTE_LEN)
    }

    fn count(&self) -> usize {
        1
    }

    fn check(&self) -> TiffResult<()> {
        Ok(())
    }

    #[tactic(auto, unfolding(crate::specs::Data::data_of))]
    fn push_to(&self, out: &mut Vec<u8>) -> TiffResult<()> {
        out.extend_from_slice(&self.0.to_le_bytes())?;
        Ok(())
    }

    ghost sized = { λ n. unfold data_of in (refl, refl, refl) };
}

impl TiffScalar for Ifd8 {
    ghost scalars = { λ ns. ifd8s (map (λ n. n.0) ns) };

    ghost spelled = { λ n. le 8 n.0 };

    ghost alone = { λ n. refl };

    ghost one = { λ n. refl };

    ghost listed = { λ ns. unfold data_of in mapped_values IFD8 (λ n. n.0) (le 8) ns };
}

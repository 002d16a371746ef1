//! Fractions as values that are written: each is two numbers.

ghost use Rattle.std.specs.Int.{w32};
ghost use Rattle.std.specs.Prelude.{◌≡◌, [], ◌∷◌, ◌++◌, map, Ok, refl};
ghost use Rattle.tiff_base.specs.Number.{le};
ghost use Rattle.tiff_base.specs.declared.tags.«Type».TheVariants.{RATIONAL, SRATIONAL};
ghost use Rattle.tiff_value.specs.Data.{data_of, signed_le, rationals, srationals};
ghost use Rattle.tiff_value.specs.ValueLaws.{mapped_values};

use super::tiff_value::{Rational, SRational, TiffScalar, TiffValue};
use tiff_base::error::TiffResult;
use tiff_base::tags::Type;

impl TiffValue for Rational {
    ghost value_type = { RATIONAL };

    ghost value_count = { λ _. 1 };

    ghost field_data = { λ r. Ok (data_of (rationals ((r.n, r.d) ∷ []))) };

    const BYTE_LEN: u8 = 8;

    const FIELD_TYPE: Type = Type::RATIONAL;

    fn type_and_len() -> (Type, u8) {
        (Self::FIELD_TYPE, Self::BYTE_LEN)
    }

    fn count(&self) -> usize {
        1
    }

    fn check(&self) -> TiffResult<()> {
        Ok(())
    }

    #[tactic(auto, unfolding(crate::specs::Data::data_of))]
    fn push_to(&self, out: &mut Vec<u8>) -> TiffResult<()> {
        let Rational { n, d } = self;
        out.extend_from_slice(&n.to_le_bytes())?;
        out.extend_from_slice(&d.to_le_bytes())?;
        Ok(())
    }

    ghost sized = { λ r. unfold data_of in (refl, refl, refl) };
}

impl TiffScalar for Rational {
    ghost scalars = { λ rs. rationals (map (λ r. (r.n, r.d)) rs) };

    ghost spelled = { λ r. le 4 r.n ++ le 4 r.d };

    ghost alone = { λ r. refl };

    ghost one = { λ r. refl };

    ghost listed = { λ rs. unfold data_of in
        mapped_values RATIONAL (λ r. (r.n, r.d)) (λ r. le 4 r.0 ++ le 4 r.1) rs };
}

impl TiffValue for SRational {
    ghost value_type = { SRATIONAL };

    ghost value_count = { λ _. 1 };

    ghost field_data = { λ r. Ok (data_of (srationals ((r.n, r.d) ∷ []))) };

    const BYTE_LEN: u8 = 8;

    const FIELD_TYPE: Type = Type::SRATIONAL;

    fn type_and_len() -> (Type, u8) {
        (Self::FIELD_TYPE, Self::BYTE_LEN)
    }

    fn count(&self) -> usize {
        1
    }

    fn check(&self) -> TiffResult<()> {
        Ok(())
    }

    #[tactic(auto, unfolding(crate::specs::Data::data_of))]
    fn push_to(&self, out: &mut Vec<u8>) -> TiffResult<()> {
        let SRational { n, d } = self;
        out.extend_from_slice(&n.to_le_bytes())?;
        out.extend_from_slice(&d.to_le_bytes())?;
        Ok(())
    }

    ghost sized = { λ r. unfold data_of in (refl, refl, refl) };
}

impl TiffScalar for SRational {
    ghost scalars = { λ rs. srationals (map (λ r. (r.n, r.d)) rs) };

    ghost spelled = { λ r. signed_le w32 r.n ++ signed_le w32 r.d };

    ghost alone = { λ r. refl };

    ghost one = { λ r. refl };

    ghost listed = { λ rs. unfold data_of in
        mapped_values SRATIONAL (λ r. (r.n, r.d)) (λ r. signed_le w32 r.0 ++ signed_le w32 r.1) rs };
}

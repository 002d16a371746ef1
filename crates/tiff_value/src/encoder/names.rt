//! The enums of tags as values that are written: each is its number.

ghost use Rattle.std.specs.Prelude.{◌≡◌, [], ◌∷◌, Ok, refl};
ghost use Rattle.tiff_base.specs.Number.{le};
ghost use Rattle.tiff_base.specs.Tags.{method_number, interpretation_number, planar_number, predictor_number, unit_number, format_number, extra_number};
ghost use Rattle.tiff_base.specs.declared.tags.«Type».TheVariants.{SHORT};
ghost use Rattle.tiff_value.specs.Data.{data_of, methods, interpretations, planars, predictors, units, formats, extras};

use super::tiff_value::{TiffScalar, TiffValue};
use tiff_base::error::TiffResult;
use tiff_base::tags::{
    CompressionMethod, ExtraSamples, PhotometricInterpretation, PlanarConfiguration, Predictor,
    ResolutionUnit, SampleFormat, Type,
};

impl TiffValue for CompressionMethod {
    ghost value_type = { SHORT };

    ghost value_count = { λ _. 1 };

    ghost field_data = { λ m. Ok (data_of (methods (m ∷ []))) };

    const BYTE_LEN: u8 = 2;

    const FIELD_TYPE: Type = Type::SHORT;

    fn type_and_len() -> (Type, u8) {
        (Self::FIELD_TYPE, Self::BYTE_LEN)
    }

    fn count(&self) -> usize {
        1
    }

    fn check(&self) -> TiffResult<()> {
        Ok(())
    }

    #[tactic(auto, unfolding(crate::specs::Data::data_of))]
    fn push_to(&self, out: &mut Vec<u8>) -> TiffResult<()> {
        out.extend_from_slice(&self.to_u16().to_le_bytes())?;
        Ok(())
    }

    ghost sized = { λ m. unfold data_of in (refl, refl, refl) };
}

impl TiffScalar for CompressionMethod {
    ghost scalars = { methods };

    ghost spelled = { λ m. le 2 (method_number m) };

    ghost alone = { λ m. refl };

    ghost one = { λ m. refl };

    ghost listed = { λ ms. unfold data_of in refl };
}

impl TiffValue for PhotometricInterpretation {
    ghost value_type = { SHORT };

    ghost value_count = { λ _. 1 };

    ghost field_data = { λ i. Ok (data_of (interpretations (i ∷ []))) };

    const BYTE_LEN: u8 = 2;

    const FIELD_TYPE: Type = Type::SHORT;

    fn type_and_len() -> (Type, u8) {
        (Self::FIELD_TYPE, Self::BYTE_LEN)
    }

    fn count(&self) -> usize {
        1
    }

    fn check(&self) -> TiffResult<()> {
        Ok(())
    }

    #[tactic(auto, unfolding(crate::specs::Data::data_of))]
    fn push_to(&self, out: &mut Vec<u8>) -> TiffResult<()> {
        out.extend_from_slice(&self.to_u16().to_le_bytes())?;
        Ok(())
    }

    ghost sized = { λ i. unfold data_of in (refl, refl, refl) };
}

impl TiffScalar for PhotometricInterpretation {
    ghost scalars = { interpretations };

    ghost spelled = { λ i. le 2 (interpretation_number i) };

    ghost alone = { λ i. refl };

    ghost one = { λ i. refl };

    ghost listed = { λ is. unfold data_of in refl };
}

impl TiffValue for PlanarConfiguration {
    ghost value_type = { SHORT };

    ghost value_count = { λ _. 1 };

    ghost field_data = { λ p. Ok (data_of (planars (p ∷ []))) };

    const BYTE_LEN: u8 = 2;

    const FIELD_TYPE: Type = Type::SHORT;

    fn type_and_len() -> (Type, u8) {
        (Self::FIELD_TYPE, Self::BYTE_LEN)
    }

    fn count(&self) -> usize {
        1
    }

    fn check(&self) -> TiffResult<()> {
        Ok(())
    }

    #[tactic(auto, unfolding(crate::specs::Data::data_of))]
    fn push_to(&self, out: &mut Vec<u8>) -> TiffResult<()> {
        out.extend_from_slice(&self.to_u16().to_le_bytes())?;
        Ok(())
    }

    ghost sized = { λ p. unfold data_of in (refl, refl, refl) };
}

impl TiffScalar for PlanarConfiguration {
    ghost scalars = { planars };

    ghost spelled = { λ p. le 2 (planar_number p) };

    ghost alone = { λ p. refl };

    ghost one = { λ p. refl };

    ghost listed = { λ ps. unfold data_of in refl };
}

impl TiffValue for Predictor {
    ghost value_type = { SHORT };

    ghost value_count = { λ _. 1 };

    ghost field_data = { λ p. Ok (data_of (predictors (p ∷ []))) };

    const BYTE_LEN: u8 = 2;

    const FIELD_TYPE: Type = Type::SHORT;

    fn type_and_len() -> (Type, u8) {
        (Self::FIELD_TYPE, Self::BYTE_LEN)
    }

    fn count(&self) -> usize {
        1
    }

    fn check(&self) -> TiffResult<()> {
        Ok(())
    }

    #[tactic(auto, unfolding(crate::specs::Data::data_of))]
    fn push_to(&self, out: &mut Vec<u8>) -> TiffResult<()> {
        out.extend_from_slice(&self.to_u16().to_le_bytes())?;
        Ok(())
    }

    ghost sized = { λ p. unfold data_of in (refl, refl, refl) };
}

impl TiffScalar for Predictor {
    ghost scalars = { predictors };

    ghost spelled = { λ p. le 2 (predictor_number p) };

    ghost alone = { λ p. refl };

    ghost one = { λ p. refl };

    ghost listed = { λ ps. unfold data_of in refl };
}

impl TiffValue for ResolutionUnit {
    ghost value_type = { SHORT };

    ghost value_count = { λ _. 1 };

    ghost field_data = { λ u. Ok (data_of (units (u ∷ []))) };

    const BYTE_LEN: u8 = 2;

    const FIELD_TYPE: Type = Type::SHORT;

    fn type_and_len() -> (Type, u8) {
        (Self::FIELD_TYPE, Self::BYTE_LEN)
    }

    fn count(&self) -> usize {
        1
    }

    fn check(&self) -> TiffResult<()> {
        Ok(())
    }

    #[tactic(auto, unfolding(crate::specs::Data::data_of))]
    fn push_to(&self, out: &mut Vec<u8>) -> TiffResult<()> {
        out.extend_from_slice(&self.to_u16().to_le_bytes())?;
        Ok(())
    }

    ghost sized = { λ u. unfold data_of in (refl, refl, refl) };
}

impl TiffScalar for ResolutionUnit {
    ghost scalars = { units };

    ghost spelled = { λ u. le 2 (unit_number u) };

    ghost alone = { λ u. refl };

    ghost one = { λ u. refl };

    ghost listed = { λ us. unfold data_of in refl };
}

impl TiffValue for SampleFormat {
    ghost value_type = { SHORT };

    ghost value_count = { λ _. 1 };

    ghost field_data = { λ f. Ok (data_of (formats (f ∷ []))) };

    const BYTE_LEN: u8 = 2;

    const FIELD_TYPE: Type = Type::SHORT;

    fn type_and_len() -> (Type, u8) {
        (Self::FIELD_TYPE, Self::BYTE_LEN)
    }

    fn count(&self) -> usize {
        1
    }

    fn check(&self) -> TiffResult<()> {
        Ok(())
    }

    #[tactic(auto, unfolding(crate::specs::Data::data_of))]
    fn push_to(&self, out: &mut Vec<u8>) -> TiffResult<()> {
        out.extend_from_slice(&self.to_u16().to_le_bytes())?;
        Ok(())
    }

    ghost sized = { λ f. unfold data_of in (refl, refl, refl) };
}

impl TiffScalar for SampleFormat {
    ghost scalars = { formats };

    ghost spelled = { λ f. le 2 (format_number f) };

    ghost alone = { λ f. refl };

    ghost one = { λ f. refl };

    ghost listed = { λ fs. unfold data_of in refl };
}

impl TiffValue for ExtraSamples {
    ghost value_type = { SHORT };

    ghost value_count = { λ _. 1 };

    ghost field_data = { λ e. Ok (data_of (extras (e ∷ []))) };

    const BYTE_LEN: u8 = 2;

    const FIELD_TYPE: Type = Type::SHORT;

    fn type_and_len() -> (Type, u8) {
        (Self::FIELD_TYPE, Self::BYTE_LEN)
    }

    fn count(&self) -> usize {
        1
    }

    fn check(&self) -> TiffResult<()> {
        Ok(())
    }

    #[tactic(auto, unfolding(crate::specs::Data::data_of))]
    fn push_to(&self, out: &mut Vec<u8>) -> TiffResult<()> {
        out.extend_from_slice(&self.to_u16().to_le_bytes())?;
        Ok(())
    }

    ghost sized = { λ e. unfold data_of in (refl, refl, refl) };
}

impl TiffScalar for ExtraSamples {
    ghost scalars = { extras };

    ghost spelled = { λ e. le 2 (extra_number e) };

    ghost alone = { λ e. refl };

    ghost one = { λ e. refl };

    ghost listed = { λ es. unfold data_of in refl };
}

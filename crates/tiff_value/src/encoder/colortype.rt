//! Color types: what a page says about its samples.

ghost use Rattle.std.specs.Prelude.{◌≡◌};
ghost use Rattle.tiff_value.specs.ColorType.{ColorTypeRecord};

pub use super::colors::{
    CMYK8, CMYK16, CMYK32, CMYK32Float, CMYK64, CMYK64Float, CMYKA8, RGB8, RGB16, RGB32,
    RGB32Float, RGB64, RGB64Float, RGBA8, RGBA16, RGBA32, RGBA32Float, RGBA64, RGBA64Float, YCbCr8,
};
pub use super::grays::{
    Gray1, Gray2, Gray4, Gray16, Gray32, Gray32Float, Gray64, Gray64Float, GrayI8, GrayI16,
    GrayI32, GrayI64,
};
use super::horizontal_predictor::Sample;
use tiff_base::error::TiffResult;
use tiff_base::tags::{PhotometricInterpretation, SampleFormat};

/// A color type: what a page says about its samples.
pub trait ColorType {
    ghost use Rattle.std.specs.Prelude.{◌≡◌, length, map};
    ghost use Rattle.tiff_base.specs.declared.tags.PhotometricInterpretation.{PhotometricInterpretation};
    ghost use Rattle.tiff_base.specs.Types.{type_size};
    ghost use Rattle.tiff_value.specs.ColorType.{ColorTypeRecord, IsColorType};
    ghost use Rattle.tiff_value.specs.Predicted.{row_of_type, AppendsRow};

    /// The type of a sample in memory.
    type Inner: Sample;

    /// All that the page says about its samples.
    ghost described: { ColorTypeRecord };

    ghost TIFF_VALUE: { PhotometricInterpretation };

    /// The photometric interpretation of the samples.
    const TIFF_VALUE: PhotometricInterpretation;

    /// The number of bits of each sample of a pixel.
    const BITS_PER_SAMPLE: &'static [u16];

    /// The sample format of each sample of a pixel.
    const SAMPLE_FORMAT: &'static [SampleFormat];

    /// Returns `BITS_PER_SAMPLE`, with a contract that defines its value. This project adds this
    /// function.
    fn sample_bits() -> &'static [u16]
        ensures { result.now ≡ described.bits };

    /// Returns `SAMPLE_FORMAT`, with a contract that defines its value. This project adds this
    /// function.
    fn sample_formats() -> &'static [SampleFormat]
        ensures { result.now ≡ described.formats };

    /// Appends the first `stride` samples of a row, and then each further sample minus the sample
    /// `stride` before it, modulo its width. Appends nothing for a stride of 0 or for a row shorter
    /// than the stride. Returns `UsageError(PredictorIncompatible)` for floating-point samples.
    /// This project adds this function.
    final fn horizontal_predict_stride(
        row: &[Self::Inner],
        stride: usize,
        out: &mut Vec<Self::Inner>,
    ) -> TiffResult<()>
        ensures { AppendsRow Self.Inner.bits
            (row_of_type Self.Inner.value_type stride (map Self.Inner.bits row.now)) out.old.items
            out.new.items result }
    {
        Self::Inner::predict_row(row, stride, out)
    }

    /// Appends the differences of a row, as `horizontal_predict_stride` does, with a stride of the
    /// number of samples of a pixel.
    final fn horizontal_predict(row: &[Self::Inner], out: &mut Vec<Self::Inner>) -> TiffResult<()>
        ensures { AppendsRow Self.Inner.bits
            (row_of_type Self.Inner.value_type (length described.bits)
            (map Self.Inner.bits row.now)) out.old.items out.new.items result }
    {
        Self::horizontal_predict_stride(row, Self::sample_bits().len(), out)
    }

    ghost interpreted: { TIFF_VALUE ≡ described.interpretation };

    // What the color type says is what a page can say about such samples.
    ghost lawful: { IsColorType (type_size Self.Inner.value_type) described };
}

/// A color type with a name: one of the Rust crate, or `Gray1`, `Gray2` or `Gray4`. This project
/// adds this trait.
pub trait NamedColorType: ColorType {
    ghost use Rattle.std.specs.Prelude.{◌≡◌};
    ghost use Rattle.tiff_value.specs.ColorTypes.{color_type, inner_type};
    ghost use Rattle.tiff_value.specs.declared.encoder.colortype.ColorTypeName.{ColorTypeName};

    // The name of the color type.
    ghost name: { ColorTypeName };

    // The color type says what `color_type` defines for its name.
    ghost named: { Self.described ≡ color_type name };

    ghost in_memory: { Self.Inner.value_type ≡ inner_type name };
}

/// Gray, 8 bits.
pub struct Gray8;

impl ColorType for Gray8 {
    ghost use Rattle.std.proofs.Common.{[], ◌∷◌, refl, lit<};
    ghost use Rattle.tiff_base.specs.declared.tags.PhotometricInterpretation.TheVariants as interpretation;
    ghost use Rattle.tiff_base.specs.declared.tags.SampleFormat.TheVariants as format;
    ghost use Rattle.tiff_value.specs.ColorLaws.{samples_alike};

    type Inner = u8;

    ghost described = { record {
      interpretation = interpretation.BlackIsZero;
      bits = 8 ∷ [];
      formats = format.Uint ∷ [];
    } };

    ghost TIFF_VALUE = { interpretation.BlackIsZero };

    const TIFF_VALUE: PhotometricInterpretation = PhotometricInterpretation::BlackIsZero;

    const BITS_PER_SAMPLE: &'static [u16] = &[8];

    const SAMPLE_FORMAT: &'static [SampleFormat] = &[SampleFormat::Uint];

    fn sample_bits() -> &'static [u16] {
        Self::BITS_PER_SAMPLE
    }

    fn sample_formats() -> &'static [SampleFormat] {
        Self::SAMPLE_FORMAT
    }

    ghost interpreted = { refl };

    ghost lawful = { samples_alike interpretation.BlackIsZero 1 1 format.Uint (lit< tt) (lit< tt) };
}

impl NamedColorType for Gray8 {
    ghost use Rattle.std.specs.Prelude.{refl};
    ghost use Rattle.tiff_value.specs.ColorTypes.{color_type, inner_type};
    ghost use Rattle.tiff_value.specs.declared.encoder.colortype.ColorTypeName.TheVariants as name;

    ghost name = { name.Gray8 };

    ghost named = { unfold color_type in refl };

    ghost in_memory = { unfold inner_type in refl };
}

/// The name of each color type of a written page.
#[derive(Clone, Copy, Debug, PartialEq, Eq)]
pub enum ColorTypeName {
    Gray8,
    Gray16,
    Gray32,
    Gray64,
    GrayI8,
    GrayI16,
    GrayI32,
    GrayI64,
    Gray32Float,
    Gray64Float,
    RGB8,
    RGB16,
    RGB32,
    RGB64,
    RGB32Float,
    RGB64Float,
    RGBA8,
    RGBA16,
    RGBA32,
    RGBA64,
    RGBA32Float,
    RGBA64Float,
    CMYK8,
    CMYK16,
    CMYK32,
    CMYK64,
    CMYK32Float,
    CMYK64Float,
    YCbCr8,
    CMYKA8,
    Gray1,
    Gray2,
    Gray4,
}

impl ColorTypeName {
    /// All names, in the order of the numbers that C uses for them, which start from 0.
    pub const ALL: [ColorTypeName; 33] = [
        ColorTypeName::Gray8,
        ColorTypeName::Gray16,
        ColorTypeName::Gray32,
        ColorTypeName::Gray64,
        ColorTypeName::GrayI8,
        ColorTypeName::GrayI16,
        ColorTypeName::GrayI32,
        ColorTypeName::GrayI64,
        ColorTypeName::Gray32Float,
        ColorTypeName::Gray64Float,
        ColorTypeName::RGB8,
        ColorTypeName::RGB16,
        ColorTypeName::RGB32,
        ColorTypeName::RGB64,
        ColorTypeName::RGB32Float,
        ColorTypeName::RGB64Float,
        ColorTypeName::RGBA8,
        ColorTypeName::RGBA16,
        ColorTypeName::RGBA32,
        ColorTypeName::RGBA64,
        ColorTypeName::RGBA32Float,
        ColorTypeName::RGBA64Float,
        ColorTypeName::CMYK8,
        ColorTypeName::CMYK16,
        ColorTypeName::CMYK32,
        ColorTypeName::CMYK64,
        ColorTypeName::CMYK32Float,
        ColorTypeName::CMYK64Float,
        ColorTypeName::YCbCr8,
        ColorTypeName::CMYKA8,
        ColorTypeName::Gray1,
        ColorTypeName::Gray2,
        ColorTypeName::Gray4,
    ];
}

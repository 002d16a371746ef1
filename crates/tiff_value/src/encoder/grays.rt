//! The gray color types other than `Gray8`: those of whole bytes, named as in the Rust crate, and
//! this project's `Gray1`, `Gray2` and `Gray4`, which pack several pixels into a byte.

ghost use Rattle.std.proofs.Common.{inl, inr, refl, lit<};
ghost use Rattle.tiff_base.specs.declared.tags.PhotometricInterpretation.TheVariants as interpretation;
ghost use Rattle.tiff_base.specs.declared.tags.SampleFormat.TheVariants as format;
ghost use Rattle.tiff_value.specs.declared.encoder.colortype.ColorTypeName.TheVariants as name;
ghost use Rattle.tiff_value.specs.ColorLaws.{samples_alike, samples_packed};
ghost use Rattle.tiff_value.specs.ColorTypes.{color_type, inner_type, samples_of};

use super::colortype::{ColorType, NamedColorType};
use tiff_base::tags::{Bits32, Bits64, PhotometricInterpretation, SampleFormat};

/// Gray, 16 bits.
pub struct Gray16;

impl ColorType for Gray16 {
    type Inner = u16;

    ghost described = { samples_of interpretation.BlackIsZero 1 16 format.Uint };

    ghost TIFF_VALUE = { interpretation.BlackIsZero };

    const TIFF_VALUE: PhotometricInterpretation = PhotometricInterpretation::BlackIsZero;

    const BITS_PER_SAMPLE: &'static [u16] = &[16];

    const SAMPLE_FORMAT: &'static [SampleFormat] = &[SampleFormat::Uint];

    fn sample_bits() -> &'static [u16] {
        Self::BITS_PER_SAMPLE
    }

    fn sample_formats() -> &'static [SampleFormat] {
        Self::SAMPLE_FORMAT
    }

    ghost interpreted = { refl };

    ghost lawful = { samples_alike interpretation.BlackIsZero 1 2 format.Uint (lit< tt) (lit< tt) };
}

impl NamedColorType for Gray16 {
    ghost name = { name.Gray16 };

    ghost named = { unfold color_type in refl };

    ghost in_memory = { unfold inner_type in refl };
}

/// Gray, 32 bits.
pub struct Gray32;

impl ColorType for Gray32 {
    type Inner = u32;

    ghost described = { samples_of interpretation.BlackIsZero 1 32 format.Uint };

    ghost TIFF_VALUE = { interpretation.BlackIsZero };

    const TIFF_VALUE: PhotometricInterpretation = PhotometricInterpretation::BlackIsZero;

    const BITS_PER_SAMPLE: &'static [u16] = &[32];

    const SAMPLE_FORMAT: &'static [SampleFormat] = &[SampleFormat::Uint];

    fn sample_bits() -> &'static [u16] {
        Self::BITS_PER_SAMPLE
    }

    fn sample_formats() -> &'static [SampleFormat] {
        Self::SAMPLE_FORMAT
    }

    ghost interpreted = { refl };

    ghost lawful = { samples_alike interpretation.BlackIsZero 1 4 format.Uint (lit< tt) (lit< tt) };
}

impl NamedColorType for Gray32 {
    ghost name = { name.Gray32 };

    ghost named = { unfold color_type in refl };

    ghost in_memory = { unfold inner_type in refl };
}

/// Gray, 64 bits.
pub struct Gray64;

impl ColorType for Gray64 {
    type Inner = u64;

    ghost described = { samples_of interpretation.BlackIsZero 1 64 format.Uint };

    ghost TIFF_VALUE = { interpretation.BlackIsZero };

    const TIFF_VALUE: PhotometricInterpretation = PhotometricInterpretation::BlackIsZero;

    const BITS_PER_SAMPLE: &'static [u16] = &[64];

    const SAMPLE_FORMAT: &'static [SampleFormat] = &[SampleFormat::Uint];

    fn sample_bits() -> &'static [u16] {
        Self::BITS_PER_SAMPLE
    }

    fn sample_formats() -> &'static [SampleFormat] {
        Self::SAMPLE_FORMAT
    }

    ghost interpreted = { refl };

    ghost lawful = { samples_alike interpretation.BlackIsZero 1 8 format.Uint (lit< tt) (lit< tt) };
}

impl NamedColorType for Gray64 {
    ghost name = { name.Gray64 };

    ghost named = { unfold color_type in refl };

    ghost in_memory = { unfold inner_type in refl };
}

/// Gray, signed numbers of 8 bits.
pub struct GrayI8;

impl ColorType for GrayI8 {
    type Inner = i8;

    ghost described = { samples_of interpretation.BlackIsZero 1 8 format.Int };

    ghost TIFF_VALUE = { interpretation.BlackIsZero };

    const TIFF_VALUE: PhotometricInterpretation = PhotometricInterpretation::BlackIsZero;

    const BITS_PER_SAMPLE: &'static [u16] = &[8];

    const SAMPLE_FORMAT: &'static [SampleFormat] = &[SampleFormat::Int];

    fn sample_bits() -> &'static [u16] {
        Self::BITS_PER_SAMPLE
    }

    fn sample_formats() -> &'static [SampleFormat] {
        Self::SAMPLE_FORMAT
    }

    ghost interpreted = { refl };

    ghost lawful = { samples_alike interpretation.BlackIsZero 1 1 format.Int (lit< tt) (lit< tt) };
}

impl NamedColorType for GrayI8 {
    ghost name = { name.GrayI8 };

    ghost named = { unfold color_type in refl };

    ghost in_memory = { unfold inner_type in refl };
}

/// Gray, signed numbers of 16 bits.
pub struct GrayI16;

impl ColorType for GrayI16 {
    type Inner = i16;

    ghost described = { samples_of interpretation.BlackIsZero 1 16 format.Int };

    ghost TIFF_VALUE = { interpretation.BlackIsZero };

    const TIFF_VALUE: PhotometricInterpretation = PhotometricInterpretation::BlackIsZero;

    const BITS_PER_SAMPLE: &'static [u16] = &[16];

    const SAMPLE_FORMAT: &'static [SampleFormat] = &[SampleFormat::Int];

    fn sample_bits() -> &'static [u16] {
        Self::BITS_PER_SAMPLE
    }

    fn sample_formats() -> &'static [SampleFormat] {
        Self::SAMPLE_FORMAT
    }

    ghost interpreted = { refl };

    ghost lawful = { samples_alike interpretation.BlackIsZero 1 2 format.Int (lit< tt) (lit< tt) };
}

impl NamedColorType for GrayI16 {
    ghost name = { name.GrayI16 };

    ghost named = { unfold color_type in refl };

    ghost in_memory = { unfold inner_type in refl };
}

/// Gray, signed numbers of 32 bits.
pub struct GrayI32;

impl ColorType for GrayI32 {
    type Inner = i32;

    ghost described = { samples_of interpretation.BlackIsZero 1 32 format.Int };

    ghost TIFF_VALUE = { interpretation.BlackIsZero };

    const TIFF_VALUE: PhotometricInterpretation = PhotometricInterpretation::BlackIsZero;

    const BITS_PER_SAMPLE: &'static [u16] = &[32];

    const SAMPLE_FORMAT: &'static [SampleFormat] = &[SampleFormat::Int];

    fn sample_bits() -> &'static [u16] {
        Self::BITS_PER_SAMPLE
    }

    fn sample_formats() -> &'static [SampleFormat] {
        Self::SAMPLE_FORMAT
    }

    ghost interpreted = { refl };

    ghost lawful = { samples_alike interpretation.BlackIsZero 1 4 format.Int (lit< tt) (lit< tt) };
}

impl NamedColorType for GrayI32 {
    ghost name = { name.GrayI32 };

    ghost named = { unfold color_type in refl };

    ghost in_memory = { unfold inner_type in refl };
}

/// Gray, signed numbers of 64 bits.
pub struct GrayI64;

impl ColorType for GrayI64 {
    type Inner = i64;

    ghost described = { samples_of interpretation.BlackIsZero 1 64 format.Int };

    ghost TIFF_VALUE = { interpretation.BlackIsZero };

    const TIFF_VALUE: PhotometricInterpretation = PhotometricInterpretation::BlackIsZero;

    const BITS_PER_SAMPLE: &'static [u16] = &[64];

    const SAMPLE_FORMAT: &'static [SampleFormat] = &[SampleFormat::Int];

    fn sample_bits() -> &'static [u16] {
        Self::BITS_PER_SAMPLE
    }

    fn sample_formats() -> &'static [SampleFormat] {
        Self::SAMPLE_FORMAT
    }

    ghost interpreted = { refl };

    ghost lawful = { samples_alike interpretation.BlackIsZero 1 8 format.Int (lit< tt) (lit< tt) };
}

impl NamedColorType for GrayI64 {
    ghost name = { name.GrayI64 };

    ghost named = { unfold color_type in refl };

    ghost in_memory = { unfold inner_type in refl };
}

/// Gray, floating-point numbers of 32 bits.
pub struct Gray32Float;

impl ColorType for Gray32Float {
    type Inner = Bits32;

    ghost described = { samples_of interpretation.BlackIsZero 1 32 format.IEEEFP };

    ghost TIFF_VALUE = { interpretation.BlackIsZero };

    const TIFF_VALUE: PhotometricInterpretation = PhotometricInterpretation::BlackIsZero;

    const BITS_PER_SAMPLE: &'static [u16] = &[32];

    const SAMPLE_FORMAT: &'static [SampleFormat] = &[SampleFormat::IEEEFP];

    fn sample_bits() -> &'static [u16] {
        Self::BITS_PER_SAMPLE
    }

    fn sample_formats() -> &'static [SampleFormat] {
        Self::SAMPLE_FORMAT
    }

    ghost interpreted = { refl };

    ghost lawful = { samples_alike interpretation.BlackIsZero 1 4 format.IEEEFP (lit< tt) (lit< tt) };
}

impl NamedColorType for Gray32Float {
    ghost name = { name.Gray32Float };

    ghost named = { unfold color_type in refl };

    ghost in_memory = { unfold inner_type in refl };
}

/// Gray, floating-point numbers of 64 bits.
pub struct Gray64Float;

impl ColorType for Gray64Float {
    type Inner = Bits64;

    ghost described = { samples_of interpretation.BlackIsZero 1 64 format.IEEEFP };

    ghost TIFF_VALUE = { interpretation.BlackIsZero };

    const TIFF_VALUE: PhotometricInterpretation = PhotometricInterpretation::BlackIsZero;

    const BITS_PER_SAMPLE: &'static [u16] = &[64];

    const SAMPLE_FORMAT: &'static [SampleFormat] = &[SampleFormat::IEEEFP];

    fn sample_bits() -> &'static [u16] {
        Self::BITS_PER_SAMPLE
    }

    fn sample_formats() -> &'static [SampleFormat] {
        Self::SAMPLE_FORMAT
    }

    ghost interpreted = { refl };

    ghost lawful = { samples_alike interpretation.BlackIsZero 1 8 format.IEEEFP (lit< tt) (lit< tt) };
}

impl NamedColorType for Gray64Float {
    ghost name = { name.Gray64Float };

    ghost named = { unfold color_type in refl };

    ghost in_memory = { unfold inner_type in refl };
}

/// Gray, 1 bit, eight pixels to a byte. This project adds this type.
///
/// A sample in memory is a byte of pixels of one row, the leftmost pixel in the most significant
/// bits, where 0 is black. Each row begins with a new byte: it has as many bytes as its pixels
/// fill, the last one partly. These are the bytes that a reader of such a page returns. An image of
/// this type has strips, no extra samples and no predictor.
pub struct Gray1;

impl ColorType for Gray1 {
    type Inner = u8;

    ghost described = { samples_of interpretation.BlackIsZero 1 1 format.Uint };

    ghost TIFF_VALUE = { interpretation.BlackIsZero };

    const TIFF_VALUE: PhotometricInterpretation = PhotometricInterpretation::BlackIsZero;

    const BITS_PER_SAMPLE: &'static [u16] = &[1];

    const SAMPLE_FORMAT: &'static [SampleFormat] = &[SampleFormat::Uint];

    fn sample_bits() -> &'static [u16] {
        Self::BITS_PER_SAMPLE
    }

    fn sample_formats() -> &'static [SampleFormat] {
        Self::SAMPLE_FORMAT
    }

    ghost interpreted = { refl };

    ghost lawful = { samples_packed interpretation.BlackIsZero 1 format.Uint (inl refl) };
}

impl NamedColorType for Gray1 {
    ghost name = { name.Gray1 };

    ghost named = { unfold color_type in refl };

    ghost in_memory = { unfold inner_type in refl };
}

/// Gray, 2 bits, four pixels to a byte. This project adds this type.
///
/// A sample in memory is a byte of pixels of one row, the leftmost pixel in the most significant
/// bits, where 0 is black. Each row begins with a new byte: it has as many bytes as its pixels
/// fill, the last one partly. These are the bytes that a reader of such a page returns. An image of
/// this type has strips, no extra samples and no predictor.
pub struct Gray2;

impl ColorType for Gray2 {
    type Inner = u8;

    ghost described = { samples_of interpretation.BlackIsZero 1 2 format.Uint };

    ghost TIFF_VALUE = { interpretation.BlackIsZero };

    const TIFF_VALUE: PhotometricInterpretation = PhotometricInterpretation::BlackIsZero;

    const BITS_PER_SAMPLE: &'static [u16] = &[2];

    const SAMPLE_FORMAT: &'static [SampleFormat] = &[SampleFormat::Uint];

    fn sample_bits() -> &'static [u16] {
        Self::BITS_PER_SAMPLE
    }

    fn sample_formats() -> &'static [SampleFormat] {
        Self::SAMPLE_FORMAT
    }

    ghost interpreted = { refl };

    ghost lawful = { samples_packed interpretation.BlackIsZero 2 format.Uint (inr (inl refl)) };
}

impl NamedColorType for Gray2 {
    ghost name = { name.Gray2 };

    ghost named = { unfold color_type in refl };

    ghost in_memory = { unfold inner_type in refl };
}

/// Gray, 4 bits, two pixels to a byte. This project adds this type.
///
/// A sample in memory is a byte of pixels of one row, the leftmost pixel in the most significant
/// bits, where 0 is black. Each row begins with a new byte: it has as many bytes as its pixels
/// fill, the last one partly. These are the bytes that a reader of such a page returns. An image of
/// this type has strips, no extra samples and no predictor.
pub struct Gray4;

impl ColorType for Gray4 {
    type Inner = u8;

    ghost described = { samples_of interpretation.BlackIsZero 1 4 format.Uint };

    ghost TIFF_VALUE = { interpretation.BlackIsZero };

    const TIFF_VALUE: PhotometricInterpretation = PhotometricInterpretation::BlackIsZero;

    const BITS_PER_SAMPLE: &'static [u16] = &[4];

    const SAMPLE_FORMAT: &'static [SampleFormat] = &[SampleFormat::Uint];

    fn sample_bits() -> &'static [u16] {
        Self::BITS_PER_SAMPLE
    }

    fn sample_formats() -> &'static [SampleFormat] {
        Self::SAMPLE_FORMAT
    }

    ghost interpreted = { refl };

    ghost lawful = { samples_packed interpretation.BlackIsZero 4 format.Uint (inr (inr refl)) };
}

impl NamedColorType for Gray4 {
    ghost name = { name.Gray4 };

    ghost named = { unfold color_type in refl };

    ghost in_memory = { unfold inner_type in refl };
}

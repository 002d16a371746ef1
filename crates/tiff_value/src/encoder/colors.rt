//! The color types other than gray, named as in the Rust crate.

ghost use Rattle.std.proofs.Common.{refl, lit<};
ghost use Rattle.tiff_base.specs.declared.tags.PhotometricInterpretation.TheVariants as interpretation;
ghost use Rattle.tiff_base.specs.declared.tags.SampleFormat.TheVariants as format;
ghost use Rattle.tiff_value.specs.declared.encoder.colortype.ColorTypeName.TheVariants as name;
ghost use Rattle.tiff_value.specs.ColorLaws.{samples_alike};
ghost use Rattle.tiff_value.specs.ColorTypes.{color_type, inner_type, samples_of};

use super::colortype::{ColorType, NamedColorType};
use tiff_base::tags::{Bits32, Bits64, PhotometricInterpretation, SampleFormat};

/// Red, green and blue, 8 bits each.
pub struct RGB8;

impl ColorType for RGB8 {
    type Inner = u8;

    ghost described = { samples_of interpretation.RGB 3 8 format.Uint };

    ghost TIFF_VALUE = { interpretation.RGB };

    const TIFF_VALUE: PhotometricInterpretation = PhotometricInterpretation::RGB;

    const BITS_PER_SAMPLE: &'static [u16] = &[8; 3];

    const SAMPLE_FORMAT: &'static [SampleFormat] = &[SampleFormat::Uint; 3];

    fn sample_bits() -> &'static [u16] {
        Self::BITS_PER_SAMPLE
    }

    fn sample_formats() -> &'static [SampleFormat] {
        Self::SAMPLE_FORMAT
    }

    ghost interpreted = { refl };

    ghost lawful = { samples_alike interpretation.RGB 3 1 format.Uint (lit< tt) (lit< tt) };
}

impl NamedColorType for RGB8 {
    ghost name = { name.RGB8 };

    ghost named = { unfold color_type in refl };

    ghost in_memory = { unfold inner_type in refl };
}

/// Red, green and blue, 16 bits each.
pub struct RGB16;

impl ColorType for RGB16 {
    type Inner = u16;

    ghost described = { samples_of interpretation.RGB 3 16 format.Uint };

    ghost TIFF_VALUE = { interpretation.RGB };

    const TIFF_VALUE: PhotometricInterpretation = PhotometricInterpretation::RGB;

    const BITS_PER_SAMPLE: &'static [u16] = &[16; 3];

    const SAMPLE_FORMAT: &'static [SampleFormat] = &[SampleFormat::Uint; 3];

    fn sample_bits() -> &'static [u16] {
        Self::BITS_PER_SAMPLE
    }

    fn sample_formats() -> &'static [SampleFormat] {
        Self::SAMPLE_FORMAT
    }

    ghost interpreted = { refl };

    ghost lawful = { samples_alike interpretation.RGB 3 2 format.Uint (lit< tt) (lit< tt) };
}

impl NamedColorType for RGB16 {
    ghost name = { name.RGB16 };

    ghost named = { unfold color_type in refl };

    ghost in_memory = { unfold inner_type in refl };
}

/// Red, green and blue, 32 bits each.
pub struct RGB32;

impl ColorType for RGB32 {
    type Inner = u32;

    ghost described = { samples_of interpretation.RGB 3 32 format.Uint };

    ghost TIFF_VALUE = { interpretation.RGB };

    const TIFF_VALUE: PhotometricInterpretation = PhotometricInterpretation::RGB;

    const BITS_PER_SAMPLE: &'static [u16] = &[32; 3];

    const SAMPLE_FORMAT: &'static [SampleFormat] = &[SampleFormat::Uint; 3];

    fn sample_bits() -> &'static [u16] {
        Self::BITS_PER_SAMPLE
    }

    fn sample_formats() -> &'static [SampleFormat] {
        Self::SAMPLE_FORMAT
    }

    ghost interpreted = { refl };

    ghost lawful = { samples_alike interpretation.RGB 3 4 format.Uint (lit< tt) (lit< tt) };
}

impl NamedColorType for RGB32 {
    ghost name = { name.RGB32 };

    ghost named = { unfold color_type in refl };

    ghost in_memory = { unfold inner_type in refl };
}

/// Red, green and blue, 64 bits each.
pub struct RGB64;

impl ColorType for RGB64 {
    type Inner = u64;

    ghost described = { samples_of interpretation.RGB 3 64 format.Uint };

    ghost TIFF_VALUE = { interpretation.RGB };

    const TIFF_VALUE: PhotometricInterpretation = PhotometricInterpretation::RGB;

    const BITS_PER_SAMPLE: &'static [u16] = &[64; 3];

    const SAMPLE_FORMAT: &'static [SampleFormat] = &[SampleFormat::Uint; 3];

    fn sample_bits() -> &'static [u16] {
        Self::BITS_PER_SAMPLE
    }

    fn sample_formats() -> &'static [SampleFormat] {
        Self::SAMPLE_FORMAT
    }

    ghost interpreted = { refl };

    ghost lawful = { samples_alike interpretation.RGB 3 8 format.Uint (lit< tt) (lit< tt) };
}

impl NamedColorType for RGB64 {
    ghost name = { name.RGB64 };

    ghost named = { unfold color_type in refl };

    ghost in_memory = { unfold inner_type in refl };
}

/// Red, green and blue, floating-point numbers of 32 bits each.
pub struct RGB32Float;

impl ColorType for RGB32Float {
    type Inner = Bits32;

    ghost described = { samples_of interpretation.RGB 3 32 format.IEEEFP };

    ghost TIFF_VALUE = { interpretation.RGB };

    const TIFF_VALUE: PhotometricInterpretation = PhotometricInterpretation::RGB;

    const BITS_PER_SAMPLE: &'static [u16] = &[32; 3];

    const SAMPLE_FORMAT: &'static [SampleFormat] = &[SampleFormat::IEEEFP; 3];

    fn sample_bits() -> &'static [u16] {
        Self::BITS_PER_SAMPLE
    }

    fn sample_formats() -> &'static [SampleFormat] {
        Self::SAMPLE_FORMAT
    }

    ghost interpreted = { refl };

    ghost lawful = { samples_alike interpretation.RGB 3 4 format.IEEEFP (lit< tt) (lit< tt) };
}

impl NamedColorType for RGB32Float {
    ghost name = { name.RGB32Float };

    ghost named = { unfold color_type in refl };

    ghost in_memory = { unfold inner_type in refl };
}

/// Red, green and blue, floating-point numbers of 64 bits each.
pub struct RGB64Float;

impl ColorType for RGB64Float {
    type Inner = Bits64;

    ghost described = { samples_of interpretation.RGB 3 64 format.IEEEFP };

    ghost TIFF_VALUE = { interpretation.RGB };

    const TIFF_VALUE: PhotometricInterpretation = PhotometricInterpretation::RGB;

    const BITS_PER_SAMPLE: &'static [u16] = &[64; 3];

    const SAMPLE_FORMAT: &'static [SampleFormat] = &[SampleFormat::IEEEFP; 3];

    fn sample_bits() -> &'static [u16] {
        Self::BITS_PER_SAMPLE
    }

    fn sample_formats() -> &'static [SampleFormat] {
        Self::SAMPLE_FORMAT
    }

    ghost interpreted = { refl };

    ghost lawful = { samples_alike interpretation.RGB 3 8 format.IEEEFP (lit< tt) (lit< tt) };
}

impl NamedColorType for RGB64Float {
    ghost name = { name.RGB64Float };

    ghost named = { unfold color_type in refl };

    ghost in_memory = { unfold inner_type in refl };
}

/// Red, green, blue and alpha, 8 bits each.
pub struct RGBA8;

impl ColorType for RGBA8 {
    type Inner = u8;

    ghost described = { samples_of interpretation.RGB 4 8 format.Uint };

    ghost TIFF_VALUE = { interpretation.RGB };

    const TIFF_VALUE: PhotometricInterpretation = PhotometricInterpretation::RGB;

    const BITS_PER_SAMPLE: &'static [u16] = &[8; 4];

    const SAMPLE_FORMAT: &'static [SampleFormat] = &[SampleFormat::Uint; 4];

    fn sample_bits() -> &'static [u16] {
        Self::BITS_PER_SAMPLE
    }

    fn sample_formats() -> &'static [SampleFormat] {
        Self::SAMPLE_FORMAT
    }

    ghost interpreted = { refl };

    ghost lawful = { samples_alike interpretation.RGB 4 1 format.Uint (lit< tt) (lit< tt) };
}

impl NamedColorType for RGBA8 {
    ghost name = { name.RGBA8 };

    ghost named = { unfold color_type in refl };

    ghost in_memory = { unfold inner_type in refl };
}

/// Red, green, blue and alpha, 16 bits each.
pub struct RGBA16;

impl ColorType for RGBA16 {
    type Inner = u16;

    ghost described = { samples_of interpretation.RGB 4 16 format.Uint };

    ghost TIFF_VALUE = { interpretation.RGB };

    const TIFF_VALUE: PhotometricInterpretation = PhotometricInterpretation::RGB;

    const BITS_PER_SAMPLE: &'static [u16] = &[16; 4];

    const SAMPLE_FORMAT: &'static [SampleFormat] = &[SampleFormat::Uint; 4];

    fn sample_bits() -> &'static [u16] {
        Self::BITS_PER_SAMPLE
    }

    fn sample_formats() -> &'static [SampleFormat] {
        Self::SAMPLE_FORMAT
    }

    ghost interpreted = { refl };

    ghost lawful = { samples_alike interpretation.RGB 4 2 format.Uint (lit< tt) (lit< tt) };
}

impl NamedColorType for RGBA16 {
    ghost name = { name.RGBA16 };

    ghost named = { unfold color_type in refl };

    ghost in_memory = { unfold inner_type in refl };
}

/// Red, green, blue and alpha, 32 bits each.
pub struct RGBA32;

impl ColorType for RGBA32 {
    type Inner = u32;

    ghost described = { samples_of interpretation.RGB 4 32 format.Uint };

    ghost TIFF_VALUE = { interpretation.RGB };

    const TIFF_VALUE: PhotometricInterpretation = PhotometricInterpretation::RGB;

    const BITS_PER_SAMPLE: &'static [u16] = &[32; 4];

    const SAMPLE_FORMAT: &'static [SampleFormat] = &[SampleFormat::Uint; 4];

    fn sample_bits() -> &'static [u16] {
        Self::BITS_PER_SAMPLE
    }

    fn sample_formats() -> &'static [SampleFormat] {
        Self::SAMPLE_FORMAT
    }

    ghost interpreted = { refl };

    ghost lawful = { samples_alike interpretation.RGB 4 4 format.Uint (lit< tt) (lit< tt) };
}

impl NamedColorType for RGBA32 {
    ghost name = { name.RGBA32 };

    ghost named = { unfold color_type in refl };

    ghost in_memory = { unfold inner_type in refl };
}

/// Red, green, blue and alpha, 64 bits each.
pub struct RGBA64;

impl ColorType for RGBA64 {
    type Inner = u64;

    ghost described = { samples_of interpretation.RGB 4 64 format.Uint };

    ghost TIFF_VALUE = { interpretation.RGB };

    const TIFF_VALUE: PhotometricInterpretation = PhotometricInterpretation::RGB;

    const BITS_PER_SAMPLE: &'static [u16] = &[64; 4];

    const SAMPLE_FORMAT: &'static [SampleFormat] = &[SampleFormat::Uint; 4];

    fn sample_bits() -> &'static [u16] {
        Self::BITS_PER_SAMPLE
    }

    fn sample_formats() -> &'static [SampleFormat] {
        Self::SAMPLE_FORMAT
    }

    ghost interpreted = { refl };

    ghost lawful = { samples_alike interpretation.RGB 4 8 format.Uint (lit< tt) (lit< tt) };
}

impl NamedColorType for RGBA64 {
    ghost name = { name.RGBA64 };

    ghost named = { unfold color_type in refl };

    ghost in_memory = { unfold inner_type in refl };
}

/// Red, green, blue and alpha, floating-point numbers of 32 bits each.
pub struct RGBA32Float;

impl ColorType for RGBA32Float {
    type Inner = Bits32;

    ghost described = { samples_of interpretation.RGB 4 32 format.IEEEFP };

    ghost TIFF_VALUE = { interpretation.RGB };

    const TIFF_VALUE: PhotometricInterpretation = PhotometricInterpretation::RGB;

    const BITS_PER_SAMPLE: &'static [u16] = &[32; 4];

    const SAMPLE_FORMAT: &'static [SampleFormat] = &[SampleFormat::IEEEFP; 4];

    fn sample_bits() -> &'static [u16] {
        Self::BITS_PER_SAMPLE
    }

    fn sample_formats() -> &'static [SampleFormat] {
        Self::SAMPLE_FORMAT
    }

    ghost interpreted = { refl };

    ghost lawful = { samples_alike interpretation.RGB 4 4 format.IEEEFP (lit< tt) (lit< tt) };
}

impl NamedColorType for RGBA32Float {
    ghost name = { name.RGBA32Float };

    ghost named = { unfold color_type in refl };

    ghost in_memory = { unfold inner_type in refl };
}

/// Red, green, blue and alpha, floating-point numbers of 64 bits each.
pub struct RGBA64Float;

impl ColorType for RGBA64Float {
    type Inner = Bits64;

    ghost described = { samples_of interpretation.RGB 4 64 format.IEEEFP };

    ghost TIFF_VALUE = { interpretation.RGB };

    const TIFF_VALUE: PhotometricInterpretation = PhotometricInterpretation::RGB;

    const BITS_PER_SAMPLE: &'static [u16] = &[64; 4];

    const SAMPLE_FORMAT: &'static [SampleFormat] = &[SampleFormat::IEEEFP; 4];

    fn sample_bits() -> &'static [u16] {
        Self::BITS_PER_SAMPLE
    }

    fn sample_formats() -> &'static [SampleFormat] {
        Self::SAMPLE_FORMAT
    }

    ghost interpreted = { refl };

    ghost lawful = { samples_alike interpretation.RGB 4 8 format.IEEEFP (lit< tt) (lit< tt) };
}

impl NamedColorType for RGBA64Float {
    ghost name = { name.RGBA64Float };

    ghost named = { unfold color_type in refl };

    ghost in_memory = { unfold inner_type in refl };
}

/// Cyan, magenta, yellow and black, 8 bits each.
pub struct CMYK8;

impl ColorType for CMYK8 {
    type Inner = u8;

    ghost described = { samples_of interpretation.CMYK 4 8 format.Uint };

    ghost TIFF_VALUE = { interpretation.CMYK };

    const TIFF_VALUE: PhotometricInterpretation = PhotometricInterpretation::CMYK;

    const BITS_PER_SAMPLE: &'static [u16] = &[8; 4];

    const SAMPLE_FORMAT: &'static [SampleFormat] = &[SampleFormat::Uint; 4];

    fn sample_bits() -> &'static [u16] {
        Self::BITS_PER_SAMPLE
    }

    fn sample_formats() -> &'static [SampleFormat] {
        Self::SAMPLE_FORMAT
    }

    ghost interpreted = { refl };

    ghost lawful = { samples_alike interpretation.CMYK 4 1 format.Uint (lit< tt) (lit< tt) };
}

impl NamedColorType for CMYK8 {
    ghost name = { name.CMYK8 };

    ghost named = { unfold color_type in refl };

    ghost in_memory = { unfold inner_type in refl };
}

/// Cyan, magenta, yellow and black, 16 bits each.
pub struct CMYK16;

impl ColorType for CMYK16 {
    type Inner = u16;

    ghost described = { samples_of interpretation.CMYK 4 16 format.Uint };

    ghost TIFF_VALUE = { interpretation.CMYK };

    const TIFF_VALUE: PhotometricInterpretation = PhotometricInterpretation::CMYK;

    const BITS_PER_SAMPLE: &'static [u16] = &[16; 4];

    const SAMPLE_FORMAT: &'static [SampleFormat] = &[SampleFormat::Uint; 4];

    fn sample_bits() -> &'static [u16] {
        Self::BITS_PER_SAMPLE
    }

    fn sample_formats() -> &'static [SampleFormat] {
        Self::SAMPLE_FORMAT
    }

    ghost interpreted = { refl };

    ghost lawful = { samples_alike interpretation.CMYK 4 2 format.Uint (lit< tt) (lit< tt) };
}

impl NamedColorType for CMYK16 {
    ghost name = { name.CMYK16 };

    ghost named = { unfold color_type in refl };

    ghost in_memory = { unfold inner_type in refl };
}

/// Cyan, magenta, yellow and black, 32 bits each.
pub struct CMYK32;

impl ColorType for CMYK32 {
    type Inner = u32;

    ghost described = { samples_of interpretation.CMYK 4 32 format.Uint };

    ghost TIFF_VALUE = { interpretation.CMYK };

    const TIFF_VALUE: PhotometricInterpretation = PhotometricInterpretation::CMYK;

    const BITS_PER_SAMPLE: &'static [u16] = &[32; 4];

    const SAMPLE_FORMAT: &'static [SampleFormat] = &[SampleFormat::Uint; 4];

    fn sample_bits() -> &'static [u16] {
        Self::BITS_PER_SAMPLE
    }

    fn sample_formats() -> &'static [SampleFormat] {
        Self::SAMPLE_FORMAT
    }

    ghost interpreted = { refl };

    ghost lawful = { samples_alike interpretation.CMYK 4 4 format.Uint (lit< tt) (lit< tt) };
}

impl NamedColorType for CMYK32 {
    ghost name = { name.CMYK32 };

    ghost named = { unfold color_type in refl };

    ghost in_memory = { unfold inner_type in refl };
}

/// Cyan, magenta, yellow and black, 64 bits each.
pub struct CMYK64;

impl ColorType for CMYK64 {
    type Inner = u64;

    ghost described = { samples_of interpretation.CMYK 4 64 format.Uint };

    ghost TIFF_VALUE = { interpretation.CMYK };

    const TIFF_VALUE: PhotometricInterpretation = PhotometricInterpretation::CMYK;

    const BITS_PER_SAMPLE: &'static [u16] = &[64; 4];

    const SAMPLE_FORMAT: &'static [SampleFormat] = &[SampleFormat::Uint; 4];

    fn sample_bits() -> &'static [u16] {
        Self::BITS_PER_SAMPLE
    }

    fn sample_formats() -> &'static [SampleFormat] {
        Self::SAMPLE_FORMAT
    }

    ghost interpreted = { refl };

    ghost lawful = { samples_alike interpretation.CMYK 4 8 format.Uint (lit< tt) (lit< tt) };
}

impl NamedColorType for CMYK64 {
    ghost name = { name.CMYK64 };

    ghost named = { unfold color_type in refl };

    ghost in_memory = { unfold inner_type in refl };
}

/// Cyan, magenta, yellow and black, floating-point numbers of 32 bits each.
pub struct CMYK32Float;

impl ColorType for CMYK32Float {
    type Inner = Bits32;

    ghost described = { samples_of interpretation.CMYK 4 32 format.IEEEFP };

    ghost TIFF_VALUE = { interpretation.CMYK };

    const TIFF_VALUE: PhotometricInterpretation = PhotometricInterpretation::CMYK;

    const BITS_PER_SAMPLE: &'static [u16] = &[32; 4];

    const SAMPLE_FORMAT: &'static [SampleFormat] = &[SampleFormat::IEEEFP; 4];

    fn sample_bits() -> &'static [u16] {
        Self::BITS_PER_SAMPLE
    }

    fn sample_formats() -> &'static [SampleFormat] {
        Self::SAMPLE_FORMAT
    }

    ghost interpreted = { refl };

    ghost lawful = { samples_alike interpretation.CMYK 4 4 format.IEEEFP (lit< tt) (lit< tt) };
}

impl NamedColorType for CMYK32Float {
    ghost name = { name.CMYK32Float };

    ghost named = { unfold color_type in refl };

    ghost in_memory = { unfold inner_type in refl };
}

/// Cyan, magenta, yellow and black, floating-point numbers of 64 bits each.
pub struct CMYK64Float;

impl ColorType for CMYK64Float {
    type Inner = Bits64;

    ghost described = { samples_of interpretation.CMYK 4 64 format.IEEEFP };

    ghost TIFF_VALUE = { interpretation.CMYK };

    const TIFF_VALUE: PhotometricInterpretation = PhotometricInterpretation::CMYK;

    const BITS_PER_SAMPLE: &'static [u16] = &[64; 4];

    const SAMPLE_FORMAT: &'static [SampleFormat] = &[SampleFormat::IEEEFP; 4];

    fn sample_bits() -> &'static [u16] {
        Self::BITS_PER_SAMPLE
    }

    fn sample_formats() -> &'static [SampleFormat] {
        Self::SAMPLE_FORMAT
    }

    ghost interpreted = { refl };

    ghost lawful = { samples_alike interpretation.CMYK 4 8 format.IEEEFP (lit< tt) (lit< tt) };
}

impl NamedColorType for CMYK64Float {
    ghost name = { name.CMYK64Float };

    ghost named = { unfold color_type in refl };

    ghost in_memory = { unfold inner_type in refl };
}

/// Luminance and two chrominances, 8 bits each.
pub struct YCbCr8;

impl ColorType for YCbCr8 {
    type Inner = u8;

    ghost described = { samples_of interpretation.YCbCr 3 8 format.Uint };

    ghost TIFF_VALUE = { interpretation.YCbCr };

    const TIFF_VALUE: PhotometricInterpretation = PhotometricInterpretation::YCbCr;

    const BITS_PER_SAMPLE: &'static [u16] = &[8; 3];

    const SAMPLE_FORMAT: &'static [SampleFormat] = &[SampleFormat::Uint; 3];

    fn sample_bits() -> &'static [u16] {
        Self::BITS_PER_SAMPLE
    }

    fn sample_formats() -> &'static [SampleFormat] {
        Self::SAMPLE_FORMAT
    }

    ghost interpreted = { refl };

    ghost lawful = { samples_alike interpretation.YCbCr 3 1 format.Uint (lit< tt) (lit< tt) };
}

impl NamedColorType for YCbCr8 {
    ghost name = { name.YCbCr8 };

    ghost named = { unfold color_type in refl };

    ghost in_memory = { unfold inner_type in refl };
}

/// Cyan, magenta, yellow, black and alpha, 8 bits each.
pub struct CMYKA8;

impl ColorType for CMYKA8 {
    type Inner = u8;

    ghost described = { samples_of interpretation.CMYK 5 8 format.Uint };

    ghost TIFF_VALUE = { interpretation.CMYK };

    const TIFF_VALUE: PhotometricInterpretation = PhotometricInterpretation::CMYK;

    const BITS_PER_SAMPLE: &'static [u16] = &[8; 5];

    const SAMPLE_FORMAT: &'static [SampleFormat] = &[SampleFormat::Uint; 5];

    fn sample_bits() -> &'static [u16] {
        Self::BITS_PER_SAMPLE
    }

    fn sample_formats() -> &'static [SampleFormat] {
        Self::SAMPLE_FORMAT
    }

    ghost interpreted = { refl };

    ghost lawful = { samples_alike interpretation.CMYK 5 1 format.Uint (lit< tt) (lit< tt) };
}

impl NamedColorType for CMYKA8 {
    ghost name = { name.CMYKA8 };

    ghost named = { unfold color_type in refl };

    ghost in_memory = { unfold inner_type in refl };
}

//! The colors of pages, and the kinds of chunks.

ghost use Rattle.std.specs.Prelude.{◌≡◌};
ghost use Rattle.tiff_base.specs.Color.{bit_depth, num_samples};

/// The color of a page, with the number of bits of each sample.
#[derive(Clone, Copy, Debug, PartialEq, Eq, Hash)]
#[non_exhaustive]
pub enum ColorType {
    /// One gray sample.
    Gray(u8),
    /// Red, green, blue.
    RGB(u8),
    /// An index of a color map. This library never returns it as the color of a page.
    Palette(u8),
    /// Gray and alpha. This library never returns it as the color of a page.
    GrayA(u8),
    /// Red, green, blue, alpha.
    RGBA(u8),
    /// Cyan, magenta, yellow, black.
    CMYK(u8),
    /// Cyan, magenta, yellow, black, alpha.
    CMYKA(u8),
    /// Luminance and two chrominances.
    YCbCr(u8),
    /// CIE L*a*b* in the encoding of ICC.
    Lab(u8),
    /// Several samples of one kind.
    Multiband { bit_depth: u8, num_samples: u16 },
}

impl ColorType {
    /// Returns the number of bits of each sample.
    pub fn bit_depth(&self) -> u8
        ensures { result ≡ bit_depth self.now }
    {
        match *self {
            ColorType::Gray(n) => n,
            ColorType::RGB(n) => n,
            ColorType::Palette(n) => n,
            ColorType::GrayA(n) => n,
            ColorType::RGBA(n) => n,
            ColorType::CMYK(n) => n,
            ColorType::CMYKA(n) => n,
            ColorType::YCbCr(n) => n,
            ColorType::Lab(n) => n,
            ColorType::Multiband { bit_depth, .. } => bit_depth,
        }
    }

    /// Returns the number of samples that a pixel shows.
    pub fn num_samples(&self) -> u16
        ensures { result ≡ num_samples self.now }
    {
        match *self {
            ColorType::Gray(_) => 1,
            ColorType::RGB(_) => 3,
            ColorType::Palette(_) => 1,
            ColorType::GrayA(_) => 2,
            ColorType::RGBA(_) => 4,
            ColorType::CMYK(_) => 4,
            ColorType::CMYKA(_) => 5,
            ColorType::YCbCr(_) => 3,
            ColorType::Lab(_) => 3,
            ColorType::Multiband { num_samples, .. } => num_samples,
        }
    }
}

/// How an image is divided into chunks.
#[derive(Clone, Copy, Debug, PartialEq, Eq)]
pub enum ChunkType {
    /// Strips: rows of the whole width.
    Strip,
    /// Tiles: rectangles of one size.
    Tile,
}

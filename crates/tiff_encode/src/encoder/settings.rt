//! The settings of images.

/// The compression of the chunks of an image.
#[derive(Clone, Copy, PartialEq, Drop)]
pub enum Compression {
    /// No compression: the file contains the bytes as they are.
    Uncompressed,
    /// PackBits compression of a whole chunk, across its rows, as the Rust crate packs it. Readers
    /// that unpack a chunk row by row can't read a chunk of several rows.
    Packbits,
    /// PackBits compression of each row of a chunk by itself (TIFF 6.0 section 9: "Pack each row
    /// separately. Do not compress across row boundaries.").
    PackbitsRows,
}

impl Default for Compression {
    ghost use Rattle.std.specs.Prelude.{◌≡◌};
    ghost use Rattle.tiff_encode.specs.declared.encoder.settings.Compression.TheVariants as compression;

    ghost is_default = { λ c. c ≡ compression.Uncompressed };

    /// No compression: the file contains the bytes as they are.
    fn default() -> Self {
        Compression::Uncompressed
    }
}

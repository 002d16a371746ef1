//! Limits on the memory that a decoder allocates.

ghost use Rattle.std.specs.Prelude.{◌≡◌};
ghost use Rattle.tiff_ifd.specs.Limits.{unlimited};

/// Limits on the number of bytes that a decoder allocates (as in the Rust crate).
#[derive(Clone, Debug, Drop)]
#[non_exhaustive]
pub struct Limits {
    /// The maximum number of bytes that a call returns: of an image, a chunk or a text. Each value
    /// of a list counts as 32 bytes.
    pub decoding_buffer_size: usize,
    /// A field of the Rust crate. This library never reads it.
    pub ifd_value_size: usize,
    /// The maximum number of bytes of a chunk in the file.
    pub intermediate_buffer_size: usize,
}

impl Limits {
    /// No limit.
    pub fn unlimited() -> Self
        ensures { result ≡ unlimited }
    {
        Limits {
            decoding_buffer_size: usize::MAX,
            ifd_value_size: usize::MAX,
            intermediate_buffer_size: usize::MAX,
        }
    }
}

impl Default for Limits {
    ghost is_default = { λ l. l ≡ record {
      decoding_buffer_size = 268435456;
      ifd_value_size = 1048576;
      intermediate_buffer_size = 134217728;
    } };

    /// The default limits: 256 MiB, 1 MiB and 128 MiB.
    fn default() -> Self {
        Limits {
            decoding_buffer_size: 256 * 1024 * 1024,
            ifd_value_size: 1024 * 1024,
            intermediate_buffer_size: 128 * 1024 * 1024,
        }
    }
}

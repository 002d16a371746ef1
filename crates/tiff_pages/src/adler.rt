//! Adler-32, a checksum of bytes whose definition has three lines.

ghost use Rattle.std.specs.Prelude.{◌≡◌};
ghost use Rattle.tiff_pages.specs.Adler.{adler_32};

// The largest prime number below 2^16.
const BASE: u32 = 65521;

/// The Adler-32 of bytes (RFC 1950 section 8.2). The lower half is the sum of the bytes plus 1; the
/// upper half is the sum of what the lower half is after each byte; both modulo 65521.
pub fn adler_32(bytes: &[u8]) -> u32
    ensures { result ≡ adler_32 bytes.now }
{
    let mut first = 1;
    let mut second = 0;
    for byte in bytes {
        first = (first + u32::from(*byte)) % BASE;
        second = (second + first) % BASE;
    }
    second * 65536 + first
}

//! Reads a file that has other bytes over one of its links, and more bytes behind it.

ghost use Rattle.std.specs.Prelude.{◌≡◌, ◌+◌, ◌^◌, ◌≤◌, ◌<◌, length, None};
ghost use Rattle.tiff_base.specs.SourceAndSink.{AreOctets};
ghost use Rattle.tiff_append.specs.Added.{HasPart, added_to};

use tiff_base::io::{DeviceFault, SliceSource, Source};

/// A source of a file that has other bytes over one of its links, and more bytes behind it. All are
/// lent, and none is copied. No read of it fails.
#[derive(Drop)]
pub struct AddedSource<'a> {
    file: &'a [u8],
    at: usize,
    link: &'a [u8],
    more: &'a [u8],
    ghost within: { at + length link.now ≤ length file.now },
    ghost offsets: { length (added_to file.now at link.now more.now) < 2 ^ 64 },
    ghost octets: { AreOctets (added_to file.now at link.now more.now) },
}

impl<'a> AddedSource<'a> {
    ghost use Rattle.tiff_append.specs.Source.{added_bytes};

    /// Makes the source of a file alone.
    #[tactic(auto, using(crate::proofs::Added::none_added))]
    pub fn whole(file: &'a [u8]) -> Self
        ensures { added_bytes result ≡ file.now }
    {
        AddedSource::new(file, file.len(), &[], &[])
    }

    /// Makes the source of a file with these bytes over its link at an offset, and more bytes
    /// behind it.
    #[tactic(auto, using(crate::proofs::Added::length_short, crate::proofs::Added::octets_added))]
    pub(crate) fn new(file: &'a [u8], at: usize, link: &'a [u8], more: &'a [u8]) -> Self
        requires within { at + length link.now ≤ length file.now }
        requires short { length file.now + length more.now < 2 ^ 64 }
        ensures { added_bytes result ≡ added_to file.now at link.now more.now }
    {
        AddedSource {
            file,
            at,
            link,
            more,
        }
    }

    /// Returns the number of bytes.
    #[tactic(auto, using(crate::proofs::Added::length_parts))]
    pub fn size(&self) -> u64
        ensures { result ≡ length (added_bytes self.now) }
    {
        self.file.len() as u64 + self.more.len() as u64
    }

    // The part of the bytes that has the byte at an offset, and where it begins.
    #[tactic(auto, using(crate::proofs::Added::front_part, crate::proofs::Added::link_part, crate::proofs::Added::back_part, crate::proofs::Added::more_part))]
    fn part_at(&self, at: u64) -> (&'a [u8], u64)
        ensures { HasPart (added_bytes self.now) result.0.now result.1 at }
    {
        let end = self.at + self.link.len();
        if at < self.at as u64 {
            return (&self.file[..self.at], 0);
        }
        if at < end as u64 {
            return (self.link, self.at as u64);
        }
        if at < self.file.len() as u64 {
            return (&self.file[end..], end as u64);
        }
        (self.more, self.file.len() as u64)
    }
}

impl Source for AddedSource<'_> {
    ghost use Rattle.tiff_append.specs.Source.{added_bytes};

    ghost contents = { λ s. record { bytes = added_bytes s; readable = None } };

    ghost failures = { λ _. 0 };

    ghost offsets = { λ s. s.offsets };

    ghost octets = { λ s. s.octets };

    #[tactic(auto, using(crate::proofs::Added::reads_part))]
    fn read_at(&mut self, at: u64, buf: &mut [u8]) -> Result<usize, DeviceFault> {
        let (part, from) = self.part_at(at);
        SliceSource::new(part).read_at(at - from, buf)
    }
}

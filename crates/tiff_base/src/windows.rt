//! Windows of a file, and the source that they are: so a file is read of which most bytes are
//! elsewhere, as on a disk or behind a network.

ghost use Rattle.std.specs.Prelude.{◌≡◌, [], None, ℕ, ◌+◌, ◌-◌, ◌<◌, ◌≤◌, ◌^◌, List, IfSome, IsSome, MatchOption, length, All, nat_le, true, false};
ghost use Rattle.std.specs.Option.{ForSome};
ghost use Rattle.std.specs.List.Sorted.{IsPartitionPoint};
ghost use Rattle.tiff_base.specs.SourceAndSink.{AreOctets, AreReadable, answers_for};
ghost use Rattle.tiff_base.specs.Windows.{AreApart, AreWindowsOf, HasWindowAt, IsWanted, behind_window, behind_windows, end_of, file_of, seen_by};

use crate::count::Count;
use crate::io::{DeviceFault, Source, read_of};
use std::marker::{Brand, PhantomData};

/// A window of a file: its offset in the file, and its bytes.
#[derive(Clone, Copy)]
#[repr(C)]
pub struct Window<'a> {
    pub offset: u64,
    pub bytes: &'a [u8],
}

/// What a caller has of a file: its number of bytes, and windows of it in ascending order, which
/// don't overlap.
#[derive(Clone, Copy)]
#[repr(C)]
pub struct Windows<'a> {
    pub len: u64,
    pub windows: &'a [Window<'a>],
}

/// A stretch of a file: its offset, and its number of bytes.
#[derive(Clone, Copy, Debug, PartialEq, Eq)]
#[repr(C)]
pub struct Stretch {
    pub offset: u64,
    pub len: u64,
}

/// A file that windows are of. Only contracts see its bytes, so a caller that passes `Brand` picks
/// them.
pub trait SeenFile {
    ghost use Rattle.std.specs.Prelude.{ℕ, List};

    ghost bytes: { List ℕ };
}

impl SeenFile for Brand {
    ghost use Rattle.std.specs.Prelude.{[]};

    ghost bytes = { [] };
}

// A `u64` is below 2^64.
fn len_fits(len: u64)
    ensures { len < 2 ^ 64 }
{}

// The bytes of a slice fit a byte.
fn bytes_fit(bytes: &[u8])
    ensures { AreOctets bytes.now }
{
    let _len = bytes.len();
}

// Returns the offset behind a window within `len` bytes that begins at or behind an offset.
fn behind_window(len: u64, end: Option<u64>, window: &Window<'_>) -> Option<u64>
    ensures end { result ≡ behind_window len end window.now }
    ensures octets { AreOctets window.now.bytes.now }
{
    bytes_fit(window.bytes);
    let size = window.bytes.len() as u64;
    let end = end?;
    if window.offset < end {
        return None;
    }
    match window.offset.checked_add(size) {
        Some(end) if end <= len => Some(end),
        _ => None,
    }
}

// Returns the offset behind windows that lie within `len` bytes and follow one another without an
// overlap.
fn behind_windows(len: u64, windows: &[Window<'_>]) -> Option<u64>
    ensures end { result ≡ behind_windows len windows.now }
    ensures octets { All (λ w. AreOctets w.bytes.now) windows.now }
{
    let mut end = Some(0);
    for window in windows {
        end = behind_window(len, end, window);
    }
    end
}

// Returns how many windows begin at an offset or before it.
fn count_until(windows: &[Window<'_>], at: u64) -> usize
    requires { AreApart windows.now }
    ensures count { result ≤ length windows.now }
    ensures point { IsPartitionPoint (λ w. nat_le w.offset at ≡ true) (λ w. nat_le w.offset at ≡ false)
        windows.now result }
{
    windows.partition_point(
        |w: &Window<'_>| -> bool
            ensures { result ≡ nat_le w.now.offset at }
        { w.offset <= at },
    )
}

/// Windows that lie within their file and follow one another without an overlap.
#[derive(Drop)]
pub struct OrderedWindows<'a> {
    seen: Windows<'a>,
    ghost apart: { AreApart seen.windows.now },
}

impl<'a> Windows<'a> {
    /// Returns the windows as ones in order: they lie within the file, and follow one another
    /// without an overlap. If they do, there is a file that they are of. Returns `None` for others.
    pub fn in_order(&self) -> Option<OrderedWindows<'a>>
        ensures order { MatchOption result
            (behind_windows self.now.len self.now.windows.now ≡ None)
            (λ o. (o.seen ≡ self.now) × IsSome (behind_windows self.now.len self.now.windows.now)) }
        ensures file { IfSome result
            (λ o. (file : List ℕ) → AreWindowsOf (file_of file self.now) self.now) }
    {
        match behind_windows(self.len, self.windows) {
            Some(_end) => Some(OrderedWindows { seen: *self }),
            None => None,
        }
    }
}

impl OrderedWindows<'_> {
    // Returns the index of the window that has the byte at an offset.
    fn window_at(&self, at: u64) -> Option<usize>
        requires within { at < self.now.seen.len }
        ensures has { IfSome result (HasWindowAt self.now.seen.windows.now at) }
        ensures none { result ≡ None → answers_for (seen_by self.now.seen []).readable at ≡ false }
    {
        let windows = self.seen.windows;
        let count = count_until(windows, at);
        if count == 0 {
            return None;
        }
        let window = &windows[count - 1];
        if at - window.offset >= window.bytes.len() as u64 {
            return None;
        }
        Some(count - 1)
    }

    /// Returns the bytes of the file from its offset 0 on, up to `len` of them, that no window has:
    /// from the first such byte on. Returns `None` if the windows have them all.
    pub fn wanted_of_front(&self, len: u64) -> Option<Stretch>
        ensures wanted { IfSome result (IsWanted self.now.seen) }
        ensures none { result ≡ None → (file : List ℕ) → AreReadable (seen_by self.now.seen file) 0 len }
    {
        let end = len.min(self.seen.len);
        let mut at = 0;
        'windows: while at < end {
            match self.window_at(at) {
                Some(i) => {
                    let window = &self.seen.windows[i];
                    at = window.offset.saturating_add(window.bytes.len() as u64);
                }
                None => {
                    return Some(Stretch {
                        offset: at,
                        len: end - at,
                    });
                }
            }
        }
        None
    }
}

/// Windows of a file as a source. A read that begins outside them fails; the bytes that the last
/// such read asked for are kept as wanted.
#[derive(Drop)]
pub struct WindowSource<'a, F: SeenFile> {
    windows: OrderedWindows<'a>,
    wanted: Option<Stretch>,
    failed: Count,
    file: PhantomData<F>,
    ghost offsets: { length F.bytes < 2 ^ 64 },
    ghost of: { AreWindowsOf F.bytes windows.seen },
    ghost wants: { ForSome wanted (IsWanted windows.seen) },
    ghost noted: { wanted ≡ None → failed ≡ 0 },
}

impl<'a, F: SeenFile> WindowSource<'a, F> {
    /// Makes the source of these windows. The file that they are of is the one that only contracts
    /// see.
    pub fn new(windows: &OrderedWindows<'a>) -> Self
        requires of { AreWindowsOf F.bytes windows.now.seen }
        ensures seen { result.windows.seen ≡ windows.now.seen }
        ensures failed { result.failed ≡ 0 }
    {
        len_fits(windows.seen.len);
        WindowSource {
            windows: OrderedWindows { seen: windows.seen },
            wanted: None,
            failed: Count::new(),
            file: PhantomData,
        }
    }

    /// The bytes that the last failed read asked for, or `None` if no read failed.
    pub fn wanted(&self) -> Option<Stretch>
        ensures wanted { IfSome result (IsWanted self.now.windows.seen) }
        ensures none { result ≡ None → self.now.failed ≡ 0 }
        ensures len { length F.bytes ≡ self.now.windows.seen.len }
    {
        self.wanted
    }

    // Notes a read of `len` bytes that fails.
    fn miss(&mut self, at: u64, len: usize)
        requires some { 0 < len }
        requires within { at < self.old.windows.seen.len }
        requires unseen { answers_for (seen_by self.old.windows.seen []).readable at ≡ false }
        ensures seen { self.new.windows.seen ≡ self.old.windows.seen }
        ensures failed { self.new.failed ≡ self.old.failed + 1 }
    {
        self.wanted = Some(Stretch {
            offset: at,
            len: (len as u64).min(self.windows.seen.len - at),
        });
        self.failed.add();
    }
}

impl<F: SeenFile> Source for WindowSource<'_, F> {
    ghost contents = { λ s. seen_by s.windows.seen F.bytes };

    ghost failures = { λ s. s.failed };

    ghost offsets = { λ s. s.offsets };

    ghost octets = { λ s. s.of.octets };

    fn read_at(&mut self, at: u64, buf: &mut [u8]) -> Result<usize, DeviceFault> {
        if buf.is_empty() || at >= self.windows.seen.len {
            return Ok(0);
        }
        match self.windows.window_at(at) {
            Some(i) => {
                let window = &self.windows.seen.windows[i];
                Ok(read_of(window.bytes, at - window.offset, buf))
            }
            None => {
                self.miss(at, buf.len());
                Err(DeviceFault)
            }
        }
    }
}

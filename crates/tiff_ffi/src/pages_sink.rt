//! The frame of a file of pages: the bytes around their samples.

ghost use Rattle.std.specs.Prelude.{◌≡◌, ◌+◌, ◌^◌, ◌≤◌, ◌<◌, [], ◌∷◌, ◌++◌, length, map, sum, take, drop, true, false, None, Some, IfSome, IfOk, OnOk, OnErr};
ghost use Rattle.tiff_ffi.specs.Spliced.{samples_at, spliced};
ghost use Rattle.tiff_base.specs.SourceAndSink.{put};

use std::alloc::Global;
use std::marker::{Brand, PhantomData};
use tiff_append::failed_writes::FailedWrites;
use tiff_append::sink::{MAX_LEN, grow, overwrite_in};
use tiff_base::io::{Sink, SinkFault};

/// The samples of pages. Only contracts see them here, so a caller that passes `Brand` picks them.
/// A sink has them in its type, since an encoder returns a sink of the same type, and says no more
/// of it than its bytes.
pub trait LentSamples {
    ghost use Rattle.std.specs.Prelude.{ℕ, List};

    ghost samples: { List (List ℕ) };
}

impl LentSamples for Brand {
    ghost use Rattle.std.specs.Prelude.{[]};

    ghost samples = { [] };
}

/// The frame of a file of pages: the bytes that aren't samples which a caller has, in their order;
/// and of each of the first pages how many of these are in front of its samples, behind those of
/// the page before it.
#[derive(Drop)]
pub struct PagesFrame {
    pub around: Vec<u8>,
    pub fronts: Vec<usize>,
}

/// A sink in memory for a file of pages, which keeps its frame: where bytes are appended that equal
/// the next bytes of the samples of the page that is next, it counts them and doesn't store them.
/// Where the samples of a page don't all come, one behind the other, it stores the ones that it has
/// counted after all, so it contains what was written, whatever that is. It refuses to overwrite
/// samples that it doesn't store, and bytes in front of the samples of any page but the last one
/// whose samples are all there.
#[derive(Drop)]
pub struct PagesSink<'a, P: LentSamples> {
    // the samples of all pages
    samples: Vec<&'a [u8]>,
    lent: PhantomData<P>,
    // the bytes that aren't samples, but for the samples that are counted at the end
    around: Vec<u8>,
    // of each page whose samples are all there, how many of the bytes are in front of them
    fronts: Vec<usize>,
    // how many bytes these are
    kept: usize,
    // how many bytes of the samples that are next are at the end
    count: usize,
    // how many bytes there are in all
    size: u64,
    failed: FailedWrites,
    ghost are_lent: { map (λ s. s.now) samples.items ≡ P.samples },
    ghost in_fronts: { sum fronts.items ≡ kept },
    ghost in_around: { kept ≤ length around.items },
    ghost in_pages: { length fronts.items ≤ length samples.items },
    ghost in_next: { count ≤ length (samples_at (map (λ s. s.now) samples.items)
        (length fronts.items)) },
    ghost sized: { size ≡ length (spliced around.items fronts.items
        (map (λ s. s.now) samples.items)) + count },
    ghost short: { size < 2 ^ 63 },
}

// Adds a front to a list. Its only error leaves the list as it was.
fn push_front(fronts: &mut Vec<usize>, len: usize) -> Result<(), SinkFault>
    ensures ok { OnOk result (fronts.new.items ≡ fronts.old.items ++ len ∷ []) }
    ensures err { OnErr result (fronts.new.items ≡ fronts.old.items) }
{
    if fronts.push(len).is_err() {
        return Err(SinkFault::OutOfMemory);
    }
    Ok(())
}

// A stretch of the bytes that a sink stores: its offset in the file, the index of its first byte
// among the bytes that aren't samples, and its length.
#[derive(Clone, Copy)]
struct Stretch {
    at: u64,
    from: usize,
    len: usize,
}

impl Stretch {
    // Whether `len` bytes at an offset are within the stretch.
    fn has(self, at: u64, len: usize) -> bool
        ensures { result ≡ true → (self.at ≤ at) × (at + len ≤ self.at + self.len) }
    {
        if at < self.at {
            return false;
        }
        let from = at - self.at;
        let all = self.len as u64;
        from <= all && len as u64 <= all - from
    }
}

impl<'a, P: LentSamples> PagesSink<'a, P> {
    ghost use Rattle.tiff_base.specs.SourceAndSink.{Appends, Overwrites};
    ghost use Rattle.tiff_ffi.specs.PagesSink.{IsStored, failed_writes, next_samples, page_samples, pages_contents};

    /// An empty sink for pages with these samples. It allocates nothing.
    pub fn new(alloc: Global, samples: Vec<&'a [u8]>) -> Self
        requires { map (λ s. s.now) samples.items ≡ P.samples }
        ensures { pages_contents result ≡ [] }
    {
        PagesSink {
            samples,
            lent: PhantomData,
            around: Vec::new(alloc),
            fronts: Vec::new(alloc),
            kept: 0,
            count: 0,
            size: 0,
            failed: FailedWrites::none(),
        }
    }

    /// Whether a write failed so far.
    pub fn has_failed(&self) -> bool
        ensures none { result ≡ false → failed_writes self.now ≡ 0 }
        ensures some { result ≡ true → 0 < failed_writes self.now }
    {
        self.failed.any()
    }

    /// The frame of the file. `None` if memory is out.
    pub fn into_frame(self) -> Option<PagesFrame>
        ensures { IfSome result (λ f.
            (pages_contents self.entry ≡ spliced f.around.items f.fronts.items P.samples)
            × (length f.fronts.items ≤ length P.samples)) }
    {
        let mut sink = self;
        if sink.store_counted().is_err() {
            return None;
        }
        let PagesSink {
            samples: _,
            lent: _,
            around,
            fronts,
            kept: _,
            count: _,
            size: _,
            failed: _,
        } = sink;
        Some(PagesFrame { around, fronts })
    }

    // The samples of the page of this number; none if there is no such page.
    fn samples_of(&self, page: usize) -> &'a [u8]
        ensures { result.now ≡ samples_at (page_samples self.now) page }
    {
        match self.samples.get(page) {
            Some(samples) => samples,
            None => &[],
        }
    }

    // The samples of the page that is next; none if there is no such page.
    fn next(&self) -> &'a [u8]
        ensures { result.now ≡ next_samples self.now }
    {
        self.samples_of(self.fronts.len())
    }

    // How many of the bytes, all or as many as there are, go on with the samples that are next; or
    // 0.
    fn matching(&self, bytes: &[u8]) -> usize
        ensures in_bytes { result ≤ length bytes.now }
        ensures in_next { self.now.count + result ≤ length (next_samples self.now) }
        ensures same { take result bytes.now
            ≡ take result (drop self.now.count (next_samples self.now)) }
    {
        let next = self.next();
        let n = bytes.len().min(next.len() - self.count);
        if bytes[..n] == next[self.count..self.count + n] {
            n
        } else {
            0
        }
    }

    // Stores the samples that are counted at the end.
    fn store_counted(&mut self) -> Result<(), SinkFault>
        ensures contents { pages_contents self.new ≡ pages_contents self.old }
        ensures samples { page_samples self.new ≡ page_samples self.old }
        ensures count { OnOk result (self.new.count ≡ 0) }
        ensures size { self.new.size ≡ self.old.size }
        ensures failed { self.new.failed ≡ self.old.failed }
    {
        let next = self.next();
        grow(&mut self.around, &next[..self.count])?;
        self.count = 0;
        Ok(())
    }

    // Stores bytes at the end.
    fn store(&mut self, bytes: &[u8]) -> Result<(), SinkFault>
        requires count { self.old.count ≡ 0 }
        requires short { self.old.size + length bytes.now < 2 ^ 63 }
        ensures ok { OnOk result (pages_contents self.new ≡ pages_contents self.old ++ bytes.now) }
        ensures err { OnErr result (pages_contents self.new ≡ pages_contents self.old) }
        ensures failed { self.new.failed ≡ self.old.failed }
    {
        grow(&mut self.around, bytes)?;
        self.size += bytes.len() as u64;
        Ok(())
    }

    // Counts the last n bytes of the samples that are next, which are then all there.
    fn end_page(&mut self, n: usize) -> Result<(), SinkFault>
        requires some { 0 < n }
        requires all { self.old.count + n ≡ length (next_samples self.old) }
        requires short { self.old.size + n < 2 ^ 63 }
        ensures ok { OnOk result (pages_contents self.new
            ≡ pages_contents self.old ++ take n (drop self.old.count (next_samples self.old))) }
        ensures err { OnErr result (pages_contents self.new ≡ pages_contents self.old) }
        ensures failed { self.new.failed ≡ self.old.failed }
    {
        let all = self.around.len();
        push_front(&mut self.fronts, all - self.kept)?;
        self.kept = all;
        self.count = 0;
        self.size += n as u64;
        Ok(())
    }

    // Counts the next n bytes of the samples that are next.
    fn pass(&mut self, n: usize) -> Result<(), SinkFault>
        requires some { 0 < n }
        requires fits { self.old.count + n ≤ length (next_samples self.old) }
        requires short { self.old.size + n < 2 ^ 63 }
        ensures ok { OnOk result (pages_contents self.new
            ≡ pages_contents self.old ++ take n (drop self.old.count (next_samples self.old))) }
        ensures err { OnErr result (pages_contents self.new ≡ pages_contents self.old) }
        ensures failed { self.new.failed ≡ self.old.failed }
    {
        if self.count + n == self.next().len() {
            return self.end_page(n);
        }
        self.count += n;
        self.size += n as u64;
        Ok(())
    }

    // Returns how many of the bytes go on with the samples that are next; or 0, and then none of
    // these are counted.
    fn settle(&mut self, bytes: &[u8]) -> Result<usize, SinkFault>
        ensures contents { pages_contents self.new ≡ pages_contents self.old }
        ensures count { IfOk result (λ n. n ≡ 0 → self.new.count ≡ 0) }
        ensures in_bytes { IfOk result (λ n. n ≤ length bytes.now) }
        ensures in_next { IfOk result (λ n. self.new.count + n ≤ length (next_samples self.new)) }
        ensures same { IfOk result (λ n. take n bytes.now
            ≡ take n (drop self.new.count (next_samples self.new))) }
        ensures size { self.new.size ≡ self.old.size }
        ensures failed { self.new.failed ≡ self.old.failed }
    {
        let n = self.matching(bytes);
        if n > 0 {
            return Ok(n);
        }
        self.store_counted()?;
        Ok(self.matching(bytes))
    }

    // Takes bytes from the front of `bytes`, and returns how many.
    fn take_next(&mut self, bytes: &[u8]) -> Result<usize, SinkFault>
        ensures ok { IfOk result (λ n. Appends (pages_contents self.old) bytes.now n
            (pages_contents self.new)) }
        ensures err { OnErr result (pages_contents self.new ≡ pages_contents self.old) }
        ensures failed { self.new.failed ≡ self.old.failed }
    {
        if bytes.len() as u64 > MAX_LEN - self.size {
            return Err(SinkFault::Device);
        }
        if bytes.is_empty() {
            return Ok(0);
        }
        let n = self.settle(bytes)?;
        if n > 0 {
            self.pass(n)?;
            return Ok(n);
        }
        self.store(bytes)?;
        Ok(bytes.len())
    }

    // The bytes behind the last samples that are all there.
    fn behind(&self) -> Stretch
        ensures is { IsStored self.now result }
        ensures len { self.now.kept + result.len ≡ length self.now.around.items }
        ensures end { result.at + (result.len + self.now.count) ≡ self.now.size }
    {
        let len = self.around.len() - self.kept;
        Stretch {
            at: self.size - (len as u64 + self.count as u64),
            from: self.kept,
            len,
        }
    }

    // The bytes in front of the last samples that are all there, behind those of the page before.
    fn last_front(&self) -> Option<Stretch>
        ensures { IfSome result (λ s. IsStored self.now s) }
    {
        let pages = self.fronts.len();
        if pages == 0 {
            return None;
        }
        let page = pages - 1;
        let len = self.fronts[page];
        let samples = self.samples_of(page);
        Some(Stretch {
            at: self.behind().at - (len as u64 + samples.len() as u64),
            from: self.kept - len,
            len,
        })
    }

    // The stretch that has `len` bytes at an offset.
    fn stretch_at(&self, at: u64, len: usize) -> Option<Stretch>
        ensures is { IfSome result (λ s. IsStored self.now s) }
        ensures has { IfSome result (λ s. (s.at ≤ at) × (at + len ≤ s.at + s.len)) }
    {
        let behind = self.behind();
        if behind.has(at, len) {
            return Some(behind);
        }
        let front = self.last_front()?;
        if front.has(at, len) {
            return Some(front);
        }
        None
    }

    // Overwrites bytes of a stretch.
    fn put_in(&mut self, stretch: Stretch, at: u64, bytes: &[u8])
        requires is { IsStored self.old stretch }
        requires has { (stretch.at ≤ at) × (at + length bytes.now ≤ stretch.at + stretch.len) }
        ensures contents { pages_contents self.new ≡ put (pages_contents self.old) at bytes.now }
        ensures failed { self.new.failed ≡ self.old.failed }
    {
        overwrite_in(
            &mut self.around,
            stretch.from + (at - stretch.at) as usize,
            bytes,
        );
    }

    // Overwrites bytes that the sink stores, and that are behind the last samples that are all
    // there, or in front of these. It refuses to overwrite any others.
    fn change(&mut self, at: u64, bytes: &[u8]) -> Result<usize, SinkFault>
        ensures ok { IfOk result (λ n. Overwrites (pages_contents self.old) at bytes.now n
            (pages_contents self.new)) }
        ensures err { OnErr result (pages_contents self.new ≡ pages_contents self.old) }
        ensures failed { self.new.failed ≡ self.old.failed }
    {
        let Some(stretch) = self.stretch_at(at, bytes.len()) else {
            return Err(SinkFault::Device);
        };
        self.put_in(stretch, at, bytes);
        Ok(bytes.len())
    }
}

impl<P: LentSamples> Sink for PagesSink<'_, P> {
    ghost use Rattle.std.proofs.Common.{arith, length-append};
    ghost use Rattle.std.proofs.lemmas.List.{length-take-le};
    ghost use Rattle.tiff_ffi.specs.PagesSink.{failed_writes, next_samples, page_samples, pages_contents};

    ghost contents = { pages_contents };

    ghost failures = { failed_writes };

    ghost fault = { λ s. s.failed.last };

    ghost short = { λ s. Prim.omega (
      arith,
      length-append (spliced s.around.items s.fronts.items (page_samples s))
          (take s.count (next_samples s)),
      length-take-le s.count (next_samples s) s.in_next,
      s.sized,
      s.short,
    ) };

    fn len(&self) -> u64 {
        self.size
    }

    fn append(&mut self, bytes: &[u8]) -> Result<usize, SinkFault> {
        let answer = self.take_next(bytes);
        self.failed.note(answer)
    }

    fn overwrite(&mut self, at: u64, bytes: &[u8]) -> Result<usize, SinkFault> {
        let answer = self.change(at, bytes);
        self.failed.note(answer)
    }
}

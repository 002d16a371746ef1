//! Where the rows of chunks go: a slice of bytes, a list of bytes, or a list of numbers.

ghost use Rattle.std.specs.Prelude.{◌≡◌, ℕ, ◌+◌, ◌*◌, ◌/◌, ◌^◌, ◌<◌, ◌≤◌, ◌⊎◌, ⊤, List, length, map, false, OnOk, refl};
ghost use Rattle.std.proofs.Common.{◌∙◌};
ghost use Rattle.std.specs.Int.{div_ceil};
ghost use Rattle.tiff_base.specs.Answers.{ReadsOnly, IsKept};
ghost use Rattle.tiff_page.specs.Layout.{row_bytes};
ghost use Rattle.tiff_page.specs.BufferPositions.{filled_to};
ghost use Rattle.tiff_page.specs.NumberBytes.{IsPut, bytes_in, plain_enough};
ghost use Rattle.tiff_page.specs.Pixels.{needed_of_row, needs_whole_rows};
ghost use Rattle.tiff_page.specs.ReadablePage.{IsRead};
ghost use Rattle.tiff_page.specs.RowReads.{RowPut};
ghost use Rattle.tiff_page.specs.Reach.{StoredReadable, Moves};
ghost use Rattle.tiff_page.specs.PageView as view;

use crate::chunk_data::ChunkCursor;
use crate::numbers::{Number, append_row, grow, put_row};
use crate::output_row::{RowFormat, RowScratch};
use std::alloc::{AllocError, Global};
use tiff_base::error::TiffResult;
use tiff_base::io::Source;

/// The bytes of a chunk that are read next: the format of their rows, how many bytes they are when
/// they are returned, and the position of the first of these in a sink.
#[derive(Clone, Copy)]
pub struct RowTarget<'a> {
    pub format: RowFormat<'a>,
    pub len: usize,
    pub at: usize,
}

/// Where the rows of chunks go, seen as bytes. A slice has all its bytes, and those where no row
/// goes stay as they are; a list gets more, zeros where no row goes.
pub trait RowSink {
    /// The bytes that the sink has.
    ghost bytes: { Self → List ℕ };

    /// How many bytes it can have: a slice those that it has, a list 2^64.
    ghost room: { Self → ℕ };

    /// A number of bytes, rounded up to whole items.
    ghost whole: { ℕ → ℕ };

    /// What calls keep of a sink: a slice still borrows the same bytes. Of a list it says nothing.
    ghost goes_on: { Self → Self → Type 0 };

    /// How many bytes of rows longer than 8 KB are best read at once.
    const LONG_ROWS: usize;

    /// Whether the sink gets its bytes as rows come. Then it is faster to read the rows of an image
    /// one after another.
    const GROWS: bool;

    /// Adds zeros up to `len` bytes, rounded up to whole items, if there are fewer.
    fn zeros_to(&mut self, len: usize) -> Result<(), AllocError>
        requires room { len ≤ room self.old }
        ensures later { goes_on self.old self.new }
        ensures zeros { OnOk result (bytes self.new ≡ filled_to (whole len) (bytes self.old)) };

    /// Reads the next row of a chunk into bytes that the sink has.
    fn row<R: Source>(
        &mut self,
        source: &mut R,
        cursor: &mut ChunkCursor,
        next: &RowTarget<'_>,
    ) -> TiffResult<()>
        requires read { IsRead (view.page next.now.format.page.now) next.now.format.color }
        requires width { next.now.format.width ≤ next.now.format.page.now.chunk_width }
        requires len { next.now.len ≡ row_bytes (view.page next.now.format.page.now)
            next.now.format.color next.now.format.width }
        requires there { next.now.at + next.now.len ≤ length (bytes self.old) }
        requires fits { next.now.at + next.now.len < 2 ^ 64 }
        ensures later { goes_on self.old self.new }
        ensures kept { IsKept R.contents R.failures result source.old source.new }
        ensures row { RowPut (R.contents source.old).bytes next.now.format.order
            (view.page next.now.format.page.now) next.now.format.color cursor.old
            cursor.new (R.failures source.old < R.failures source.new) next.now.at next.now.len
            (bytes self.old) (bytes self.new) result }
        ensures asked { ReadsOnly (StoredReadable (R.contents source.old) cursor.old (needed_of_row
            (view.page next.now.format.page.now) next.now.format.color next.now.len)) result }
        ensures moves { OnOk result (Moves cursor.old
            (needed_of_row (view.page next.now.format.page.now) next.now.format.color next.now.len)
            cursor.new) };

    /// Reads the next bytes of a chunk, as they are returned, if this needs no whole stored rows. A
    /// sink that has too few bytes gets zeros first, as by `zeros_to`.
    fn rows<R: Source>(
        &mut self,
        source: &mut R,
        cursor: &mut ChunkCursor,
        next: &RowTarget<'_>,
    ) -> TiffResult<()>
        requires read { IsRead (view.page next.now.format.page.now) next.now.format.color }
        requires in_place { needs_whole_rows (view.page next.now.format.page.now)
            next.now.format.color ≡ false }
        requires whole { (next.now.format.page.now.depth < 8)
            ⊎ (next.now.len / (next.now.format.page.now.depth / 8) *
            (next.now.format.page.now.depth / 8) ≡ next.now.len) }
        requires room { next.now.at + next.now.len ≤ room self.old }
        requires fits { next.now.at + next.now.len < 2 ^ 64 }
        ensures later { goes_on self.old self.new }
        ensures kept { IsKept R.contents R.failures result source.old source.new }
        ensures row { RowPut (R.contents source.old).bytes next.now.format.order
            (view.page next.now.format.page.now) next.now.format.color cursor.old cursor.new
            (R.failures source.old < R.failures source.new) next.now.at next.now.len (filled_to
            (whole (next.now.at + next.now.len)) (bytes self.old)) (bytes self.new) result }
        ensures asked { ReadsOnly (StoredReadable (R.contents source.old) cursor.old next.now.len)
            result }
        ensures moves { OnOk result (Moves cursor.old next.now.len cursor.new) };

    /// Writes bytes to a position. A sink that has too few bytes gets zeros first, as by
    /// `zeros_to`.
    fn place(&mut self, at: usize, row: &[u8]) -> Result<(), AllocError>
        requires room { at + length row.now ≤ room self.old }
        requires fits { at + length row.now < 2 ^ 64 }
        ensures later { goes_on self.old self.new }
        ensures placed { OnOk result (IsPut at row.now (filled_to (whole (at + length row.now))
            (bytes self.old)) (bytes self.new)) };

    /// `goes_on` is reflexive.
    ghost itself: { (x : Self) → goes_on x x };

    /// `goes_on` is transitive.
    ghost further: { (x y z : Self) → goes_on x y → goes_on y z → goes_on x z };

    /// The room of a sink doesn't change.
    ghost room_kept: { (x y : Self) → goes_on x y → room x ≡ room y };

    /// `whole m` is at least `m`, and doesn't fall if `m` grows.
    ghost enough: { (m n : ℕ) → m ≤ n → (m ≤ whole m) × (whole m ≤ whole n) };
}

/// A slice of bytes. Rows are read straight to their positions.
pub struct ByteSlice<'a> {
    out: &'a mut [u8],
    scratch: &'a mut RowScratch,
}

impl<'a> ByteSlice<'a> {
    /// Returns a sink for the bytes of a slice.
    pub fn new(out: &'a mut [u8], scratch: &'a mut RowScratch) -> Self
        ensures same_reference { result.out.ghost_name ≡ out.entry.ghost_name }
        ensures bytes { result.out.now ≡ out.old }
    {
        ByteSlice { out, scratch }
    }
}

impl Drop for ByteSlice<'_> {
    // A drop without a contract would leave it open which bytes the slice has after the borrow.
    fn drop(self)
        ensures { self.exit.0.now ≡ self.entry.out.now }
    {
        let ByteSlice { out, scratch } = self;
    }
}

impl<'a> RowSink for ByteSlice<'a> {
    ghost bytes = { λ s. s.out.now };

    ghost room = { λ s. length s.out.now };

    ghost whole = { λ n. n };

    ghost goes_on = { λ s t. (s.out.ghost_name ≡ t.out.ghost_name)
        × (length s.out.now ≡ length t.out.now) };

    const LONG_ROWS: usize = 65536;

    const GROWS: bool = false;

    fn zeros_to(&mut self, _len: usize) -> Result<(), AllocError> {
        Ok(())
    }

    #[tactic(auto, using(crate::specs::lemmas::NumberBytes::put_in_place))]
    #[inline(always)]
    fn row<R: Source>(
        &mut self,
        source: &mut R,
        cursor: &mut ChunkCursor,
        next: &RowTarget<'_>,
    ) -> TiffResult<()> {
        let row = &mut self.out[next.at..next.at + next.len];
        next.format.read_row(source, cursor, self.scratch, row)
    }

    #[tactic(auto, using(crate::specs::lemmas::NumberBytes::put_in_place))]
    #[inline(always)]
    fn rows<R: Source>(
        &mut self,
        source: &mut R,
        cursor: &mut ChunkCursor,
        next: &RowTarget<'_>,
    ) -> TiffResult<()> {
        let row = &mut self.out[next.at..next.at + next.len];
        next.format.read_finished(source, cursor, self.scratch, row)
    }

    fn place(&mut self, at: usize, row: &[u8]) -> Result<(), AllocError> {
        self.out[at..at + row.len()].copy_from_slice(row);
        Ok(())
    }

    ghost itself = { λ s. (refl, refl) };

    ghost further = { λ r s t a b. (a.0 ∙ b.0, a.1 ∙ b.1) };

    ghost room_kept = { λ s t same. same.1 };

    ghost enough = { plain_enough };
}

// The number of bytes of the longest rows that go to a list of bytes by way of a scratch buffer.
// It would take the memory of a longer one again.
const LONGEST_COPIED: usize = 65536;

/// A list of bytes. Rows for which it has to grow are read into a scratch buffer and appended,
/// which is faster than to write zeros first; other rows are read straight to their positions.
#[derive(Drop)]
pub struct ByteList {
    pub(crate) bytes: Vec<u8>,
    row: Vec<u8>,
    scratch: RowScratch,
}

impl ByteList {
    /// Returns a sink that adds to a list.
    pub fn new(alloc: Global, bytes: Vec<u8>) -> Self
        ensures { result.bytes ≡ bytes }
    {
        ByteList {
            bytes,
            row: Vec::new(alloc),
            scratch: RowScratch::new(alloc),
        }
    }

    /// Returns the list.
    pub fn into_bytes(self) -> Vec<u8>
        ensures { result ≡ self.bytes }
    {
        let ByteList { bytes, .. } = self;
        bytes
    }
}

impl RowSink for ByteList {
    ghost bytes = { λ s. s.bytes.items };

    ghost room = { λ s. 2 ^ 64 };

    ghost whole = { λ n. n };

    ghost goes_on = { λ s t. ⊤ };

    // They go through a scratch buffer, which has to stay in the processor's nearest cache.
    const LONG_ROWS: usize = 8192;

    const GROWS: bool = true;

    #[tactic(auto, using(crate::specs::lemmas::NumberBytes::plain_zeros_behind))]
    fn zeros_to(&mut self, len: usize) -> Result<(), AllocError> {
        grow::<u8, 1>(&mut self.bytes, len)
    }

    #[inline(always)]
    fn row<R: Source>(
        &mut self,
        source: &mut R,
        cursor: &mut ChunkCursor,
        next: &RowTarget<'_>,
    ) -> TiffResult<()> {
        let row = &mut self.bytes[next.at..next.at + next.len];
        next.format.read_row(source, cursor, &mut self.scratch, row)
    }

    #[inline(always)]
    fn rows<R: Source>(
        &mut self,
        source: &mut R,
        cursor: &mut ChunkCursor,
        next: &RowTarget<'_>,
    ) -> TiffResult<()> {
        let end = next.at + next.len;
        if self.bytes.len() < end && next.len <= LONGEST_COPIED {
            self.row.resize(next.len, 0)?;
            next.format
                .read_finished(source, cursor, &mut self.scratch, &mut self.row)?;
            append_row::<u8, 1>(&mut self.bytes, next.at, &self.row)?;
            return Ok(());
        }
        self.zeros_to(end)?;
        let row = &mut self.bytes[next.at..next.at + next.len];
        next.format
            .read_finished(source, cursor, &mut self.scratch, row)
    }

    fn place(&mut self, at: usize, row: &[u8]) -> Result<(), AllocError> {
        append_row::<u8, 1>(&mut self.bytes, at, row)
    }

    ghost itself = { λ s. tt };

    ghost further = { λ r s t a b. tt };

    ghost room_kept = { λ s t same. refl };

    ghost enough = { plain_enough };
}

/// A list of numbers of `N` bytes. Rows are read into a scratch buffer, and their numbers go from
/// there into the list: no slice of numbers can be seen as bytes.
#[derive(Drop)]
pub struct NumberList<T, const N: usize> {
    pub(crate) numbers: Vec<T>,
    row: Vec<u8>,
    scratch: RowScratch,
}

impl<T: Number<N>, const N: usize> NumberList<T, N> {
    /// Returns a sink that adds to a list.
    pub fn new(alloc: Global, numbers: Vec<T>) -> Self
        ensures { result.numbers ≡ numbers }
    {
        NumberList {
            numbers,
            row: Vec::new(alloc),
            scratch: RowScratch::new(alloc),
        }
    }

    /// Returns the list.
    pub fn into_numbers(self) -> Vec<T>
        ensures { result ≡ self.numbers }
    {
        let NumberList { numbers, .. } = self;
        numbers
    }
}

impl<T: Number<N>, const N: usize> RowSink for NumberList<T, N> {
    ghost use Rattle.tiff_page.specs.NumberBytes.{whole_enough};

    ghost bytes = { λ s. bytes_in N (map T.bits s.numbers.items) };

    ghost room = { λ s. 2 ^ 64 };

    ghost whole = { λ n. div_ceil n N * N };

    ghost goes_on = { λ s t. ⊤ };

    // Rows go through a scratch buffer, which has to stay in the processor's nearest cache.
    const LONG_ROWS: usize = 8192;

    const GROWS: bool = true;

    #[tactic(auto, using(crate::specs::lemmas::Rows::some_size))]
    fn zeros_to(&mut self, len: usize) -> Result<(), AllocError> {
        grow(&mut self.numbers, len.div_ceil(N))
    }

    #[tactic(auto, using(crate::specs::lemmas::NumberBytes::put_from_room, crate::specs::lemmas::Rows::some_size))]
    #[inline(always)]
    fn row<R: Source>(
        &mut self,
        source: &mut R,
        cursor: &mut ChunkCursor,
        next: &RowTarget<'_>,
    ) -> TiffResult<()> {
        self.row.resize(next.len, 0)?;
        next.format
            .read_row(source, cursor, &mut self.scratch, &mut self.row)?;
        put_row(&mut self.numbers, next.at, &self.row);
        Ok(())
    }

    #[tactic(auto, using(crate::specs::lemmas::Rows::some_size))]
    #[inline(always)]
    fn rows<R: Source>(
        &mut self,
        source: &mut R,
        cursor: &mut ChunkCursor,
        next: &RowTarget<'_>,
    ) -> TiffResult<()> {
        self.row.resize(next.len, 0)?;
        next.format
            .read_finished(source, cursor, &mut self.scratch, &mut self.row)?;
        append_row(&mut self.numbers, next.at, &self.row)?;
        Ok(())
    }

    #[tactic(auto, using(crate::specs::lemmas::Rows::some_size))]
    fn place(&mut self, at: usize, row: &[u8]) -> Result<(), AllocError> {
        append_row(&mut self.numbers, at, row)
    }

    ghost itself = { λ s. tt };

    ghost further = { λ r s t a b. tt };

    ghost room_kept = { λ s t same. refl };

    ghost enough = { whole_enough N T.sized };
}

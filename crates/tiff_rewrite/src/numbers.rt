//! The numbers of a row of samples, and how they are stored in a row of a chunk.

ghost use Rattle.std.specs.Prelude.{◌≡◌, ℕ, ◌+◌, ◌*◌, ◌/◌, ◌^◌, ◌<◌, ◌≤◌, length, slice_index};
ghost use Rattle.std.specs.Int.{w16, w32, w64};
ghost use Rattle.tiff_base.specs.Number.{number};
ghost use Rattle.tiff_base.specs.declared.tags.ByteOrder.TheVariants.{LittleEndian};
ghost use Rattle.tiff_page.specs.Pixels.{row_number};
ghost use Rattle.tiff_page.specs.Row.{IsSize};
ghost use Rattle.tiff_rewrite.specs.StoredNumbers as spec;

use tiff_base::read::{u16_in, u32_in, u64_in};
use tiff_base::tags::{ByteOrder, PhotometricInterpretation, Predictor};

// Each function returns the bytes of a number in a byte order.
#[tactic(auto, unfolding(tiff_base::specs::Number::number))]
fn u16_bytes(order: ByteOrder, value: u16) -> [u8; 2]
    ensures { number order w16 result ≡ value }
{
    match order {
        ByteOrder::LittleEndian => value.to_le_bytes(),
        ByteOrder::BigEndian => value.to_be_bytes(),
    }
}

#[tactic(auto, unfolding(tiff_base::specs::Number::number))]
fn u32_bytes(order: ByteOrder, value: u32) -> [u8; 4]
    ensures { number order w32 result ≡ value }
{
    match order {
        ByteOrder::LittleEndian => value.to_le_bytes(),
        ByteOrder::BigEndian => value.to_be_bytes(),
    }
}

#[tactic(auto, unfolding(tiff_base::specs::Number::number))]
fn u64_bytes(order: ByteOrder, value: u64) -> [u8; 8]
    ensures { number order w64 result ≡ value }
{
    match order {
        ByteOrder::LittleEndian => value.to_le_bytes(),
        ByteOrder::BigEndian => value.to_be_bytes(),
    }
}

// Each function puts a number of one, two, four or eight bytes at one position of a row.
#[tactic(auto, using(crate::proofs::NumberPlaces::puts_byte))]
fn put_byte(order: ByteOrder, value: u8, k: usize, row: &mut [u8])
    requires { (k + 1) * 1 ≤ length row.old }
    ensures { spec.PutsNumber order 1 k value row.old row.new }
{
    row[k] = value;
}

fn put_u16(order: ByteOrder, value: u16, k: usize, row: &mut [u8])
    requires { (k + 1) * 2 ≤ length row.old }
    ensures { spec.PutsNumber order 2 k value row.old row.new }
{
    let at = k * 2;
    row[at..at + 2].copy_from_slice(&u16_bytes(order, value));
}

fn put_u32(order: ByteOrder, value: u32, k: usize, row: &mut [u8])
    requires { (k + 1) * 4 ≤ length row.old }
    ensures { spec.PutsNumber order 4 k value row.old row.new }
{
    let at = k * 4;
    row[at..at + 4].copy_from_slice(&u32_bytes(order, value));
}

fn put_u64(order: ByteOrder, value: u64, k: usize, row: &mut [u8])
    requires { (k + 1) * 8 ≤ length row.old }
    ensures { spec.PutsNumber order 8 k value row.old row.new }
{
    let at = k * 8;
    row[at..at + 8].copy_from_slice(&u64_bytes(order, value));
}

// Puts a number of `size` bytes at one position of a row.
fn put_number(order: ByteOrder, size: usize, value: u64, k: usize, row: &mut [u8])
    requires size { IsSize size }
    requires few { value < 256 ^ size }
    requires within { (k + 1) * size ≤ length row.old }
    ensures { spec.PutsNumber order size k value row.old row.new }
{
    match size {
        1 => put_byte(order, value as u8, k, row),
        2 => put_u16(order, value as u16, k, row),
        4 => put_u32(order, value as u32, k, row),
        _ => put_u64(order, value, k, row),
    }
}

// Returns the little-endian number of `size` bytes at one position of a row.
fn number_in(size: usize, row: &[u8], k: usize) -> u64
    requires size { IsSize size }
    requires within { (k + 1) * size ≤ length row.now }
    ensures value { result ≡ row_number LittleEndian size row.now k }
    ensures few { result < 256 ^ size }
{
    match size {
        1 => u64::from(row[k]),
        2 => u64::from(u16_in(ByteOrder::LittleEndian, row, k * 2)),
        4 => u64::from(u32_in(ByteOrder::LittleEndian, row, k * 4)),
        _ => u64_in(ByteOrder::LittleEndian, row, k * 8),
    }
}

// Returns the greatest number of `size` bytes.
fn greatest(size: usize) -> u64
    requires { IsSize size }
    ensures { result + 1 ≡ 256 ^ size }
{
    match size {
        1 => u64::from(u8::MAX),
        2 => u64::from(u16::MAX),
        4 => u64::from(u32::MAX),
        _ => u64::MAX,
    }
}

/// A row of samples: little-endian numbers of `size` bytes, `shown` of them a pixel; and what they
/// are stored by.
#[derive(Clone, Copy)]
pub(crate) struct SampleRow<'a> {
    pub(crate) samples: &'a [u8],
    pub(crate) size: usize,
    pub(crate) shown: usize,
    pub(crate) meaning: PhotometricInterpretation,
    pub(crate) predictor: Predictor,
}

impl SampleRow<'_> {
    // Returns a number of the row, complemented if white is zero.
    fn plain_number(&self, n: usize) -> u64
        requires size { IsSize self.now.size }
        requires within { (n + 1) * self.now.size ≤ length self.now.samples.now }
        ensures value { result ≡ spec.plain_number self.now.meaning self.now.size self.now.samples.now n }
        ensures few { result < 256 ^ self.now.size }
    {
        let number = number_in(self.size, self.samples, n);
        match self.meaning {
            PhotometricInterpretation::WhiteIsZero => greatest(self.size) - number,
            _ => number,
        }
    }

    // Returns what is stored of a number of the row.
    fn stored_number(&self, n: usize) -> u64
        requires size { IsSize self.now.size }
        requires within { (n + 1) * self.now.size ≤ length self.now.samples.now }
        ensures value { result ≡ spec.stored_by self.now.predictor (256 ^ self.now.size) self.now.shown
            (spec.plain_number self.now.meaning self.now.size self.now.samples.now) n }
        ensures few { result < 256 ^ self.now.size }
    {
        let number = self.plain_number(n);
        if !matches!(self.predictor, Predictor::Horizontal) || n < self.shown {
            return number;
        }
        let before = self.plain_number(n - self.shown);
        if number >= before {
            number - before
        } else {
            greatest(self.size) - (before - number) + 1
        }
    }

    /// Stores the numbers of the row as the first ones of the pixels of a stored row, in which a
    /// pixel has `stored` numbers.
    pub(crate) fn put_into(&self, order: ByteOrder, stored: usize, row: &mut [u8])
        requires size { IsSize self.now.size }
        requires some { 0 < self.now.shown }
        requires stored { self.now.shown ≤ stored }
        requires within { (n : ℕ) → (n + 1) * self.now.size ≤ length self.now.samples.now
            → (spec.place_of self.now.shown stored n + 1) * self.now.size ≤ length row.old }
        ensures numbers { (n : ℕ) → (n + 1) * self.now.size ≤ length self.now.samples.now
            → row_number order self.now.size row.new (spec.place_of self.now.shown stored n)
            ≡ spec.stored_by self.now.predictor (256 ^ self.now.size) self.now.shown
            (spec.plain_number self.now.meaning self.now.size self.now.samples.now) n }
        ensures others { (b : ℕ) → ((n : ℕ) → (n + 1) * self.now.size ≤ length self.now.samples.now
            → b / self.now.size ≡ spec.place_of self.now.shown stored n → ⊥)
            → slice_index row.new b ≡ slice_index row.old b }
    {
        for n in 0..self.samples.len() / self.size {
            let number = self.stored_number(n);
            let place = n / self.shown * stored + n % self.shown;
            put_number(order, self.size, number, place, row);
        }
    }
}

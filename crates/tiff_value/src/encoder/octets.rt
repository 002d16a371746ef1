//! Conversion of numbers to bytes in a list, many numbers at once.

ghost use Rattle.std.specs.Prelude.{◌≡◌, ◌+◌, ◌*◌, ◌≤◌, ◌++◌, length, MatchResult, refl};
ghost use Rattle.std.specs.Io.{StartsWith};
ghost use Rattle.std.specs.List.{flat_map};
ghost use Rattle.std.specs.Vec.{vec_len, vec_capacity};
ghost use Rattle.std.specs.Int.{w8, w16, w32, w64};
ghost use Rattle.tiff_base.specs.Number.{le};
ghost use Rattle.tiff_value.specs.Data.{signed_le};

use tiff_base::error::{TiffError, TiffResult};
use tiff_base::io::ByteWitness;
use tiff_base::tags::{Bits32, Bits64};

/// A number that is written as `N` bytes, the least significant first.
pub(crate) trait LittleEndianBytes<const N: usize>: Copy {
    ghost use Rattle.std.specs.Prelude.{◌≡◌, ◌+◌, ◌-◌, ℕ, List};

    // The bytes of the number, as they are written.
    ghost written: { Self → List ℕ };

    /// Returns the bytes of the number, as they are written.
    fn octets(self) -> [u8; N]
        ensures { result ≡ written self };

    // A number has at most eight bytes.
    ghost small: { N + (8 - N) ≡ 8 };
}

impl LittleEndianBytes<1> for i8 {
    ghost written = { signed_le w8 };

    fn octets(self) -> [u8; 1] {
        self.to_le_bytes()
    }

    ghost small = { refl };
}

impl LittleEndianBytes<2> for u16 {
    ghost written = { le 2 };

    fn octets(self) -> [u8; 2] {
        self.to_le_bytes()
    }

    ghost small = { refl };
}

impl LittleEndianBytes<2> for i16 {
    ghost written = { signed_le w16 };

    fn octets(self) -> [u8; 2] {
        self.to_le_bytes()
    }

    ghost small = { refl };
}

impl LittleEndianBytes<4> for u32 {
    ghost written = { le 4 };

    fn octets(self) -> [u8; 4] {
        self.to_le_bytes()
    }

    ghost small = { refl };
}

impl LittleEndianBytes<4> for i32 {
    ghost written = { signed_le w32 };

    fn octets(self) -> [u8; 4] {
        self.to_le_bytes()
    }

    ghost small = { refl };
}

impl LittleEndianBytes<8> for u64 {
    ghost written = { le 8 };

    fn octets(self) -> [u8; 8] {
        self.to_le_bytes()
    }

    ghost small = { refl };
}

impl LittleEndianBytes<8> for i64 {
    ghost written = { signed_le w64 };

    fn octets(self) -> [u8; 8] {
        self.to_le_bytes()
    }

    ghost small = { refl };
}

impl LittleEndianBytes<4> for Bits32 {
    ghost written = { λ n. le 4 n.0 };

    fn octets(self) -> [u8; 4] {
        self.0.to_le_bytes()
    }

    ghost small = { refl };
}

impl LittleEndianBytes<8> for Bits64 {
    ghost written = { λ n. le 8 n.0 };

    fn octets(self) -> [u8; 8] {
        self.0.to_le_bytes()
    }

    ghost small = { refl };
}

// Returns a list, which has room for them, with the bytes of a number after it. The list is passed
// by value, so that LLVM keeps its address and its length in registers.
fn push_octets<const N: usize>(list: Vec<u8>, octets: [u8; N]) -> Vec<u8>
    requires { vec_len list + N ≤ vec_capacity list }
    ensures items { result.items ≡ list.items ++ octets.entry }
    ensures len { vec_len result ≡ vec_len list + N }
    ensures capacity { vec_capacity result ≡ vec_capacity list }
{
    let mut list = list;
    for k in 0..N {
        list.push_reserved(octets[k]);
    }
    list
}

// Returns a list, which has room for them, with the bytes of numbers after it.
fn push_each<T: LittleEndianBytes<N>, const N: usize>(list: Vec<u8>, numbers: &[T]) -> Vec<u8>
    requires { vec_len list + length numbers.now * N ≤ vec_capacity list }
    ensures { result.items ≡ list.items ++ flat_map T.written numbers.now }
{
    let mut list = list;
    for k in 0..numbers.len() {
        list = push_octets(list, numbers[k].octets());
    }
    list
}

/// Appends the bytes of the numbers. The only error is `OutOfMemory`, after which `out` has its
/// earlier contents.
pub(crate) fn push_numbers<T: LittleEndianBytes<N>, const N: usize>(
    numbers: &[T],
    out: &mut Vec<u8>,
) -> TiffResult<()>
    ensures answer { MatchResult result (λ _. out.new.items ≡ out.old.items ++ flat_map T.written numbers.now)
        (λ e. e ≡ TiffError.OutOfMemory) }
    ensures front { StartsWith out.new.items out.old.items }
{
    out.reserve(numbers.len().saturating_mul(N))?;
    let empty = Vec::new(*out.allocator());
    let list = std::mem::replace(out, empty);
    *out = push_each(list, numbers);
    Ok(())
}

// Shows each byte of a number.
fn show_octets<const N: usize, S: ByteWitness>(octets: [u8; N], witness: &mut S)
    ensures { S.seen witness.new ≡ S.seen witness.old ++ octets.entry }
{
    for k in 0..N {
        witness.see(octets[k]);
    }
}

/// Shows each byte of the numbers. The loops do nothing that is left when the program runs, if the
/// witness keeps nothing.
pub(crate) fn show_numbers<T: LittleEndianBytes<N>, const N: usize, S: ByteWitness>(
    numbers: &[T],
    witness: &mut S,
)
    ensures { S.seen witness.new ≡ S.seen witness.old ++ flat_map T.written numbers.now }
{
    for k in 0..numbers.len() {
        show_octets(numbers[k].octets(), witness);
    }
}

/// Shows each of the bytes.
pub(crate) fn show_bytes<S: ByteWitness>(bytes: &[u8], witness: &mut S)
    ensures { S.seen witness.new ≡ S.seen witness.old ++ bytes.now }
{
    for byte in bytes {
        witness.see(*byte);
    }
}

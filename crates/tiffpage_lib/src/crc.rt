//! CRC-32, the checksum of the chunks of a PNG file.

ghost use Rattle.std.specs.Prelude.{◌≡◌, ◌++◌};
ghost use Rattle.tiffpage_lib.specs.Png.{IsTable, crc_32, crc_bit, crc_bits, crc_byte, crc_over};

// The polynomial of CRC-32 without its highest power; the lowest bit stands for the power below
// that.
const POLYNOMIAL: u32 = 0xedb8_8320;

// The CRC after one bit.
fn crc_bit(crc: u32) -> u32
    ensures { result ≡ crc_bit crc }
{
    if crc % 2 == 1 {
        (crc / 2) ^ POLYNOMIAL
    } else {
        crc / 2
    }
}

// The CRC after eight bits.
fn crc_bits(crc: u32) -> u32
    ensures { result ≡ crc_bits 8 crc }
{
    let mut left = crc;
    for _ in 0..8u32 {
        left = crc_bit(left);
    }
    left
}

// The table of what eight bits make of each byte.
fn crc_table() -> [u32; 256]
    ensures { IsTable result }
{
    let mut table = [0; 256];
    for byte in 0..256 {
        table[byte] = crc_bits(byte as u32);
    }
    table
}

// The CRC after one byte.
fn crc_byte(table: &[u32; 256], crc: u32, byte: u8) -> u32
    requires { IsTable table.now }
    ensures { result ≡ crc_byte crc byte }
{
    let mixed = crc ^ u32::from(byte);
    (mixed / 256) ^ table[(mixed % 256) as usize]
}

// The CRC after bytes, one after another.
fn crc_over(table: &[u32; 256], crc: u32, bytes: &[u8]) -> u32
    requires { IsTable table.now }
    ensures { result ≡ crc_over crc bytes.now }
{
    let mut sum = crc;
    for byte in bytes {
        sum = crc_byte(table, sum, *byte);
    }
    sum
}

/// The CRC-32 of bytes that stand in two parts (PNG, annex D), by a table of what each byte adds.
pub(crate) fn crc_32(front: &[u8], back: &[u8]) -> u32
    ensures { result ≡ crc_32 (front.now ++ back.now) }
{
    let table = crc_table();
    let crc = crc_over(&table, u32::MAX, front);
    crc_over(&table, crc, back) ^ u32::MAX
}

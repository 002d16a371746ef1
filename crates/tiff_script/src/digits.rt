//! Bytes as hexadecimal digits.

ghost use Rattle.std.specs.Prelude.{◌≡◌, ◌++◌, IfOk, OnOk, Some, flat_map, string_bytes};
ghost use Rattle.std.specs.Option.{option_map};
ghost use Rattle.tiff_script.specs.Digits.{bytes_in, digit, pair_byte, pairs, two_digits};

use std::alloc::{AllocError, Global};
use std::fmt::Write;

// The number that a hexadecimal digit is, of `0` to `9` and `a` to `f`.
fn digit(byte: u8) -> Option<u8>
    ensures { result ≡ digit byte }
{
    match byte {
        b'0'..=b'9' => Some(byte - b'0'),
        b'a'..=b'f' => Some(byte - b'a' + 10),
        _ => None,
    }
}

// The byte that two digits are.
fn byte_of(high: u8, low: u8) -> Option<u8>
    ensures { result ≡ pair_byte high low }
{
    Some(digit(high)? * 16 + digit(low)?)
}

// Appends a byte as two hexadecimal digits.
#[tactic(auto, using(std::proofs::lemmas::Fmt::hex_byte))]
fn push_byte(text: &mut String, byte: u8) -> Result<(), AllocError>
    ensures { OnOk result (string_bytes text.new ≡ string_bytes text.old ++ two_digits byte) }
{
    write!(text, "{byte:02x}")
}

// The bytes that pairs of digits are. `None` if one of them is none, or if a digit is left over.
fn bytes_of_pairs(alloc: Global, digits: &[u8]) -> Result<Option<Vec<u8>>, AllocError>
    ensures { IfOk result (λ answer.
        pairs digits.now ≡ option_map (λ bytes. bytes.items) answer) }
{
    let mut bytes = Vec::new(alloc);
    let mut rest = digits;
    while let [high, low, behind @ ..] = rest {
        let Some(byte) = byte_of(*high, *low) else {
            return Ok(None);
        };
        bytes.push(byte)?;
        rest = behind;
    }
    Ok(rest.is_empty().then_some(bytes))
}

/// The bytes that hexadecimal digits are, two digits for each; `-` is no bytes. `None` if the text
/// is anything else.
pub fn bytes_of(alloc: Global, digits: &str) -> Result<Option<Vec<u8>>, AllocError>
    ensures { IfOk result (λ answer.
        bytes_in digits.now ≡ option_map (λ bytes. bytes.items) answer) }
{
    if digits == "-" {
        return Ok(Some(Vec::new(alloc)));
    }
    bytes_of_pairs(alloc, digits.as_bytes())
}

/// Appends bytes to a text as hexadecimal digits, two small digits for each.
#[tactic(auto, using(crate::proofs::DigitPairs::digits_more))]
pub fn push_digits(text: &mut String, bytes: &[u8]) -> Result<(), AllocError>
    ensures { OnOk result
        (string_bytes text.new ≡ string_bytes text.old ++ flat_map two_digits bytes.now) }
{
    for byte in bytes {
        push_byte(text, *byte)?;
    }
    Ok(())
}

/// Bytes as hexadecimal digits, two small digits for each; `-` for no bytes.
pub fn digits_text(alloc: Global, bytes: &[u8]) -> Result<String, AllocError>
    ensures { IfOk result (λ text. bytes_in (string_bytes text) ≡ Some bytes.now) }
{
    if bytes.is_empty() {
        return String::from_str(alloc, "-");
    }
    let mut text = String::new(alloc);
    push_digits(&mut text, bytes)?;
    Ok(text)
}

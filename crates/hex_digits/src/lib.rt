// Bytes as hexadecimal digits, two to a byte, as recorded inputs and answers are written.
#![tactic(auto)]

ghost use Rattle.std.specs.Prelude.{◌≡◌, ℕ, ◌<◌, IfOk, string_bytes};
ghost use Rattle.hex_digits.specs.Hex.{digit_value, digit, bytes_from_hex, hex_of};

use std::alloc::{AllocError, Global};

/// The bytes that pairs of digits stand for; a digit that is none counts as 0, and an odd one at the end as nothing.
pub fn decode(heap: Global, digits: &[u8]) -> Result<Vec<u8>, AllocError>
    ensures { IfOk result (λ v. v.items ≡ bytes_from_hex digits.now) }
{
    let (pairs, _) = digits.as_chunks::<2>();
    pairs
        .iter()
        .map(|[high, low]| 16 * digit_value(*high) + digit_value(*low))
        .collect(heap)
}

// What a digit counts, and 0 for what is none; A to F are none.
fn digit_value(digit: u8) -> u8
    ensures is { result ≡ digit_value digit }
    ensures low { result < 16 }
{
    match digit {
        b'0'..=b'9' => digit - b'0',
        b'a'..=b'f' => digit - b'a' + 10,
        _ => 0,
    }
}

/// The digits of some bytes.
pub fn encode(heap: Global, bytes: &[u8]) -> Result<String, AllocError>
    ensures { IfOk result (λ s. string_bytes s ≡ hex_of bytes.now) }
{
    let mut text = String::new(heap);
    for byte in bytes {
        // for speed: formatted by `write!`, bytes took up to six times as long
        text.push(hex_digit(*byte / 16))?;
        text.push(hex_digit(*byte % 16))?;
    }
    Ok(text)
}

// The digit that counts a value.
fn hex_digit(value: u8) -> char
    requires { value < 16 }
    ensures { result ≡ digit value }
{
    char::from_digit(value as u32, 16).unwrap()
}

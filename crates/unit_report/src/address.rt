// Addresses as they are written: hexadecimal digits, with or without 0x before them.
ghost use Rattle.std.specs.Prelude.{◌≡◌};
ghost use Rattle.unit_report.specs.Addresses.{digit_of, with_digit, digits_of, address_of};

use std::fmt;

/// Why a word is no address.
#[derive(Clone, Copy, PartialEq, Eq, Debug)]
pub enum AddressError {
    NotHexadecimal,
    TooLarge,
}

impl fmt::Display for AddressError {
    fn fmt<W: fmt::Write>(&self, f: &mut fmt::Formatter<W>) -> fmt::Result {
        match self {
            AddressError::NotHexadecimal => write!(f, "is not a hexadecimal address"),
            AddressError::TooLarge => write!(f, "is an address of more than 64 bits"),
        }
    }
}

/// The address that a word names.
pub fn parse_address(word: &[u8]) -> Result<u64, AddressError>
    ensures { result ≡ address_of word.now }
{
    let digits = digits_of(word);
    if digits.is_empty() {
        return Err(AddressError::NotHexadecimal);
    }
    let mut value = 0;
    for byte in digits {
        value = with_digit(value, *byte)?;
    }
    Ok(value)
}

// what stands behind 0x, or the whole word where it does not begin so
fn digits_of(word: &[u8]) -> &[u8]
    ensures { result.now ≡ digits_of word.now }
{
    match word {
        [b'0', b'x' | b'X', digits @ ..] => digits,
        _ => word,
    }
}

// a number with a digit more
fn with_digit(value: u64, byte: u8) -> Result<u64, AddressError>
    ensures { result ≡ with_digit value byte }
{
    let digit = digit_of(byte).ok_or(AddressError::NotHexadecimal)?;
    let shifted = value.checked_mul(16).ok_or(AddressError::TooLarge)?;
    Ok(shifted + digit as u64)
}

fn digit_of(byte: u8) -> Option<u8>
    ensures { result ≡ digit_of byte }
{
    match byte {
        b'0'..=b'9' => Some(byte - b'0'),
        b'a'..=b'f' => Some(byte - b'a' + 10),
        b'A'..=b'F' => Some(byte - b'A' + 10),
        _ => None,
    }
}

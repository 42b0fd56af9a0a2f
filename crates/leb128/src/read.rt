// Reads of LEB128 numbers, written once for every reader.
ghost use Rattle.std.specs.Prelude.{◌≡◌, ◌+◌, ◌*◌, ◌%◌, ◌^◌, ◌<◌, ◌≤◌, pos, ◌-ℤ◌, length};
ghost use Rattle.readers.specs.Reading.{Meaning, past};
ghost use Rattle.readers.specs.Links.{Did};
ghost use Rattle.leb128.specs.Leb128.{unsigned_leb128, unsigned_leb128_32, unsigned_leb128_16, signed_leb128, leb128_skip};

use numbers::read_u8;
use readers::{Error, Reader, ReaderOffset};

/// Moves past a number, whatever its length.
pub fn skip_leb128<R: Reader>(reader: &mut R) -> Result<(), Error>
    ensures { Did (λ x. x) result (R.means reader.new) (leb128_skip (R.means reader.old)) }
{
    loop {
        let byte = read_u8(reader)?;
        if byte < 0x80 {
            return Ok(());
        }
    }
}

// The bits of i bytes, and above them the seven of the next.
#[tactic(auto, using(crate::proofs::Spelling::seven_fit))]
fn with_group(bits: u64, byte: u8, i: u32) -> u64
    requires few { i < 9 }
    requires fit { bits < 2 ^ (7 * i) }
    ensures value { result ≡ bits + 2 ^ (7 * i) * (byte % 128) }
    ensures fits { result < 2 ^ (7 * (i + 1)) }
{
    bits | ((byte & 0x7f) as u64) << (7 * i)
}

/// An unsigned number of at most ten bytes.
pub fn read_uleb128<R: Reader>(reader: &mut R) -> Result<u64, Error>
    ensures { Did (λ x. x) result (R.means reader.new) (unsigned_leb128 (R.means reader.old)) }
{
    let Some(bytes) = reader.next_ten() else {
        return read_by_bytes(reader);
    };
    let first = bytes[0];
    // one `Ok` for all lengths: where each has its own, a caller's compiled code may join the number byte by byte
    let value = if first < 0x80 {
        // by itself, since most numbers have one byte
        pass(reader, 1);
        first as u64
    } else {
        let mut result = with_group(0, first, 0);
        let (value, len) = 'value: {
            for i in 1..9u32 {
                let byte = bytes[i as usize];
                result = with_group(result, byte, i);
                if byte < 0x80 {
                    break 'value (result, i + 1);
                }
            }
            let tenth = bytes[9];
            if tenth > 0x01 {
                pass(reader, 10);
                return Err(Error::BadUnsignedLeb128);
            }
            (result | (tenth as u64) << 63, 10)
        };
        pass(reader, len);
        value
    };
    Ok(value)
}

// Moves past some of the bytes that are left.
fn pass<R: Reader>(reader: &mut R, len: u32)
    requires { len ≤ length (R.means reader.old).rest }
    ensures { R.means reader.new ≡ past len (R.means reader.old) }
{
    reader.skip(R::Offset::from_u32(len)).unwrap();
}

// An unsigned number where fewer than ten bytes may be left: each byte is asked for.
fn read_by_bytes<R: Reader>(reader: &mut R) -> Result<u64, Error>
    ensures { Did (λ x. x) result (R.means reader.new) (unsigned_leb128 (R.means reader.old)) }
{
    // a loop of its own: with one for unsigned and signed numbers, those of one byte took four times as long
    let mut result = 0u64;
    // one `Ok`, as above
    let value = 'value: {
        for i in 0..9u32 {
            let byte = read_u8(reader)?;
            result = with_group(result, byte, i);
            if byte < 0x80 {
                break 'value result;
            }
        }
        let last = read_u8(reader)?;
        if last > 0x01 {
            return Err(Error::BadUnsignedLeb128);
        }
        result | (last as u64) << 63
    };
    Ok(value)
}

/// An unsigned number that 32 bits hold.
pub fn read_uleb128_u32<R: Reader>(reader: &mut R) -> Result<u32, Error>
    ensures { Did (λ x. x) result (R.means reader.new) (unsigned_leb128_32 (R.means reader.old)) }
{
    let value = read_uleb128(reader)?;
    u32::try_from(value).map_err(|_| Error::BadUnsignedLeb128)
}

/// An unsigned number of at most three bytes, which 16 bits hold.
pub fn read_uleb128_u16<R: Reader>(reader: &mut R) -> Result<u16, Error>
    ensures { Did (λ x. x) result (R.means reader.new) (unsigned_leb128_16 (R.means reader.old)) }
{
    let first = read_u8(reader)?;
    if first < 0x80 {
        return Ok(first as u16);
    }
    let second = read_u8(reader)?;
    let result = (first & 0x7f) as u16 | ((second & 0x7f) as u16) << 7;
    if second < 0x80 {
        return Ok(result);
    }
    let third = read_u8(reader)?;
    if third > 0x03 {
        return Err(Error::BadUnsignedLeb128);
    }
    Ok(result | (third as u16) << 14)
}

// `value` less twice `half`; twice `half` may be more than an i64 holds. In the rule's words, the bits less 2^(7n): with
// the bits above the sign set instead, a reader would have to see that these mean the same.
fn less_twice(value: u64, half: u64) -> i64
    requires half { half < 2 ^ 63 }
    requires least { half ≤ value }
    requires below { value < 2 * half }
    ensures { result ≡ pos value -ℤ pos (2 * half) }
{
    (value - half) as i64 - half as i64
}

/// A signed number of at most ten bytes.
pub fn read_sleb128<R: Reader>(reader: &mut R) -> Result<i64, Error>
    ensures { Did (λ x. x) result (R.means reader.new) (signed_leb128 (R.means reader.old)) }
{
    let mut result = 0u64;
    for i in 0..9u32 {
        let byte = read_u8(reader)?;
        result = with_group(result, byte, i);
        if byte < 0x80 {
            if byte < 0x40 {
                return Ok(result as i64);
            }
            return Ok(less_twice(result, 1u64 << (7 * i + 6)));
        }
    }
    let last = read_u8(reader)?;
    match last {
        0x00 => Ok(result as i64),
        0x7f => Ok(i64::MIN + result as i64),
        _ => Err(Error::BadSignedLeb128),
    }
}

// Integers of a fixed width, words, initial lengths and address sizes: what a reader's trait would give with a body.
ghost use Rattle.std.specs.Prelude.{◌≡◌, ℕ, ◌≤◌, length, ◌==◌};
ghost use Rattle.readers.specs.Reading.{Meaning, copy_step, fixed_number, word, sized_number, sized_number_or, sized_word};
ghost use Rattle.readers.specs.Links.{Did, fault_is, format_word};
ghost use Rattle.numbers.specs.Numbers.{signed_number, uint, initial, initial_is, size_of_addresses};

use readers::{Error, Format, Reader, ReaderOffset, RunTimeEndian};

/// Whether no byte is left.
pub fn is_empty<R: Reader>(reader: &R) -> bool
    ensures { result ≡ (length (R.means reader.now).rest == 0) }
{
    reader.len().into_u64() == 0
}

// The next bytes, as many as the array has.
fn read_array<const N: usize, R: Reader>(reader: &mut R) -> Result<[u8; N], Error>
    requires { N ≤ 8 }
    ensures { Did (λ x. x) result (R.means reader.new) (copy_step N (R.means reader.old)) }
{
    let mut bytes = [0u8; N];
    reader.read_slice(&mut bytes)?;
    Ok(bytes)
}

/// An unsigned number of one byte.
pub fn read_u8<R: Reader>(reader: &mut R) -> Result<u8, Error>
    ensures { Did (λ x. x) result (R.means reader.new) (fixed_number 1 (R.means reader.old)) }
{
    let [byte] = read_array::<1, R>(reader)?;
    Ok(byte)
}

// A match on the order here and below: with the bytes turned over in `read_array`, a tuple of 8-byte addresses took
// 13 ns where this took 9.5.
/// An unsigned number of two bytes.
pub fn read_u16<R: Reader>(reader: &mut R) -> Result<u16, Error>
    ensures { Did (λ x. x) result (R.means reader.new) (fixed_number 2 (R.means reader.old)) }
{
    let bytes = read_array(reader)?;
    Ok(match reader.endian() {
        RunTimeEndian::Little => u16::from_le_bytes(bytes),
        RunTimeEndian::Big => u16::from_be_bytes(bytes),
    })
}

/// An unsigned number of four bytes.
pub fn read_u32<R: Reader>(reader: &mut R) -> Result<u32, Error>
    ensures { Did (λ x. x) result (R.means reader.new) (fixed_number 4 (R.means reader.old)) }
{
    let bytes = read_array(reader)?;
    Ok(match reader.endian() {
        RunTimeEndian::Little => u32::from_le_bytes(bytes),
        RunTimeEndian::Big => u32::from_be_bytes(bytes),
    })
}

/// An unsigned number of eight bytes.
pub fn read_u64<R: Reader>(reader: &mut R) -> Result<u64, Error>
    ensures { Did (λ x. x) result (R.means reader.new) (fixed_number 8 (R.means reader.old)) }
{
    let bytes = read_array(reader)?;
    Ok(match reader.endian() {
        RunTimeEndian::Little => u64::from_le_bytes(bytes),
        RunTimeEndian::Big => u64::from_be_bytes(bytes),
    })
}

/// A signed number of one byte.
pub fn read_i8<R: Reader>(reader: &mut R) -> Result<i8, Error>
    ensures { Did (λ x. x) result (R.means reader.new) (signed_number 1 (R.means reader.old)) }
{
    Ok(read_u8(reader)?.cast_signed())
}

/// A signed number of two bytes.
pub fn read_i16<R: Reader>(reader: &mut R) -> Result<i16, Error>
    ensures { Did (λ x. x) result (R.means reader.new) (signed_number 2 (R.means reader.old)) }
{
    Ok(read_u16(reader)?.cast_signed())
}

/// A signed number of four bytes.
pub fn read_i32<R: Reader>(reader: &mut R) -> Result<i32, Error>
    ensures { Did (λ x. x) result (R.means reader.new) (signed_number 4 (R.means reader.old)) }
{
    Ok(read_u32(reader)?.cast_signed())
}

/// A signed number of eight bytes.
pub fn read_i64<R: Reader>(reader: &mut R) -> Result<i64, Error>
    ensures { Did (λ x. x) result (R.means reader.new) (signed_number 8 (R.means reader.old)) }
{
    Ok(read_u64(reader)?.cast_signed())
}

/// A number of `n` bytes, at most 8.
pub fn read_uint<R: Reader>(reader: &mut R, n: usize) -> Result<u64, Error>
    ensures { Did (λ x. x) result (R.means reader.new) (uint n (R.means reader.old)) }
{
    if n > 8 {
        return Err(Error::BadLength(n));
    }
    let endian = reader.endian();
    let mut bytes = [0u8; 8];
    let low = &mut bytes[0..n];
    reader.read_slice(low)?;
    if endian == RunTimeEndian::Big {
        low.reverse();
    }
    Ok(u64::from_le_bytes(bytes))
}

/// A word of the format's width: an offset or a length.
#[inline(always)]
pub fn read_word<R: Reader>(reader: &mut R, format: Format) -> Result<R::Offset, Error>
    ensures { Did R.Offset.number result (R.means reader.new)
        (word R.Offset.limit (format_word format) (R.means reader.old)) }
{
    let value = match format {
        Format::Dwarf32 => read_u32(reader)? as u64,
        Format::Dwarf64 => read_u64(reader)?,
    };
    R::Offset::from_u64(value)
}

/// A length of the format's width.
pub fn read_length<R: Reader>(reader: &mut R, format: Format) -> Result<R::Offset, Error>
    ensures { Did R.Offset.number result (R.means reader.new)
        (word R.Offset.limit (format_word format) (R.means reader.old)) }
{
    read_word(reader, format)
}

/// An initial length, and the format that it shows.
pub fn read_initial_length<R: Reader>(reader: &mut R) -> Result<(R::Offset, Format), Error>
    ensures { Did (initial_is R.Offset.number) result (R.means reader.new)
        (initial R.Offset.limit (R.means reader.old)) }
{
    let value = read_u32(reader)?;
    // One `Ok` for both, here and in `read_sized`: where each has its own, the compiled code joins them byte by byte.
    let initial = if value < 0xffff_fff0 {
        (R::Offset::from_u32(value), Format::Dwarf32)
    } else if value == 0xffff_ffff {
        (read_word(reader, Format::Dwarf64)?, Format::Dwarf64)
    } else {
        return Err(Error::UnknownReservedLength(value));
    };
    Ok(initial)
}

/// A byte that is a size of addresses.
pub fn read_address_size<R: Reader>(reader: &mut R) -> Result<u8, Error>
    ensures { Did (λ x. x) result (R.means reader.new) (size_of_addresses (R.means reader.old)) }
{
    let size = read_u8(reader)?;
    match size {
        1 | 2 | 4 | 8 => Ok(size),
        _ => Err(Error::UnsupportedAddressSize(size)),
    }
}

// A number of 1, 2, 4 or 8 bytes; another size is refused with the error that is given.
fn read_sized<R: Reader>(reader: &mut R, size: u8, unsupported: Error) -> Result<u64, Error>
    ensures { Did (λ x. x) result (R.means reader.new)
        (sized_number_or (fault_is unsupported) size (R.means reader.old)) }
{
    let value = match size {
        1 => read_u8(reader)? as u64,
        2 => read_u16(reader)? as u64,
        4 => read_u32(reader)? as u64,
        8 => read_u64(reader)?,
        _ => return Err(unsupported),
    };
    Ok(value)
}

/// The address that stands in the bytes: what `read_address` answers where there is no relocation.
pub fn read_plain_address<R: Reader>(reader: &mut R, address_size: u8) -> Result<u64, Error>
    ensures { Did (λ x. x) result (R.means reader.new)
        (sized_number 4 address_size (R.means reader.old)) }
{
    read_sized(
        reader,
        address_size,
        Error::UnsupportedAddressSize(address_size),
    )
}

/// The offset that stands in the bytes: what `read_sized_offset` answers where there is no relocation.
pub fn read_plain_sized_offset<R: Reader>(reader: &mut R, size: u8) -> Result<R::Offset, Error>
    ensures { Did R.Offset.number result (R.means reader.new)
        (sized_word R.Offset.limit size (R.means reader.old)) }
{
    let value = read_sized(reader, size, Error::UnsupportedOffsetSize(size))?;
    R::Offset::from_u64(value)
}

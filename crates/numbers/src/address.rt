// Addresses of 1, 2, 4 or 8 bytes: their largest values, and sums that stay among them.
ghost use Rattle.std.specs.Prelude.{◌≡◌};
ghost use Rattle.readers.specs.Links.{outcome_is};
ghost use Rattle.numbers.specs.Numbers.{ones, tombstone, address_sum};

use readers::Error;

/// The largest address of a size.
pub fn ones_sized(size: u8) -> Result<u64, Error>
    ensures { outcome_is (λ x. x) result ≡ ones size }
{
    match size {
        1 => Ok(0xff),
        2 => Ok(0xffff),
        4 => Ok(0xffff_ffff),
        8 => Ok(u64::MAX),
        _ => Err(Error::UnsupportedAddressSize(size)),
    }
}

/// The least address that stands for code which is not there: the largest but one.
pub fn min_tombstone(size: u8) -> Result<u64, Error>
    ensures { outcome_is (λ x. x) result ≡ tombstone size }
{
    Ok(ones_sized(size)? - 1)
}

/// An address plus a length, which must be an address of the size too.
pub fn add_sized(address: u64, length: u64, size: u8) -> Result<u64, Error>
    ensures { outcome_is (λ x. x) result ≡ address_sum address length size }
{
    let ones = ones_sized(size)?;
    let end = address.checked_add(length).filter(|end| *end <= ones);
    end.ok_or(Error::AddressOverflow)
}

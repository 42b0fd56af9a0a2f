// What a reader is: its offsets, its meaning, and what each call answers and leaves.
ghost use Rattle.std.specs.Prelude.{◌≡◌, ℕ, ◌^◌, ◌≤◌, length, take, option_map, IfSome};
ghost use Rattle.readers.specs.Outcome.{Outcome};
ghost use Rattle.readers.specs.Reading.{Meaning, no_bytes, skip_step, truncate_step, split_step, copy_step, position, distance, distance_within, offset_number, address, offset, sized_offset};
ghost use Rattle.readers.specs.Links.{Did, Filled, is_big, outcome_is, format_word};

use crate::common::Format;
use crate::endianity::RunTimeEndian;
use crate::error::Error;

/// Names a byte of a section: the section's base number and the byte's place, added.
#[derive(Clone, Copy, PartialEq, Eq, Debug)]
pub struct ReaderOffsetId(pub u64);

/// An offset or a length within a section, of the width that a reader chooses.
pub trait ReaderOffset: Copy {
    // the number that an offset stands for
    ghost number: { Self → ℕ };

    // the first number that no offset stands for
    ghost limit: { ℕ };

    fn from_u8(offset: u8) -> Self
        ensures { number result ≡ offset }
    {
        Self::from_u32(offset as u32)
    }

    fn from_u32(offset: u32) -> Self
        ensures { number result ≡ offset };

    /// Refuses with `UnsupportedOffset` where the number does not fit.
    fn from_u64(offset: u64) -> Result<Self, Error>
        ensures { outcome_is number result ≡ offset_number limit offset };

    fn into_u64(self) -> u64
        ensures { result ≡ number self };
}

impl ReaderOffset for u32 {
    ghost number = { λ x. x };

    ghost limit = { 2 ^ 32 };

    fn from_u32(offset: u32) -> u32 {
        offset
    }

    fn from_u64(offset: u64) -> Result<u32, Error> {
        u32::try_from(offset).map_err(|_| Error::UnsupportedOffset)
    }

    fn into_u64(self) -> u64 {
        self as u64
    }
}

impl ReaderOffset for u64 {
    ghost number = { λ x. x };

    ghost limit = { 2 ^ 64 };

    fn from_u32(offset: u32) -> u64 {
        offset as u64
    }

    fn from_u64(offset: u64) -> Result<u64, Error> {
        Ok(offset)
    }

    fn into_u64(self) -> u64 {
        self
    }
}

impl ReaderOffset for usize {
    ghost number = { λ x. x };

    ghost limit = { 2 ^ 64 };

    fn from_u32(offset: u32) -> usize {
        offset as usize
    }

    fn from_u64(offset: u64) -> Result<usize, Error> {
        Ok(offset as usize)
    }

    fn into_u64(self) -> u64 {
        self as u64
    }
}

/// The bytes left of a section, read from the front.
pub trait Reader: Sized + Drop {
    /// The kind of offset in which lengths and distances are told.
    type Offset: ReaderOffset;

    // the id, the bytes left, the order and the relocation that a reader stands for
    ghost means: { Self → Meaning };

    fn endian(&self) -> RunTimeEndian
        ensures { is_big result ≡ (means self.now).big };

    /// How many bytes are left.
    fn len(&self) -> Self::Offset
        ensures { Self.Offset.number result ≡ length (means self.now).rest };

    /// The id of the next byte.
    fn offset_id(&self) -> ReaderOffsetId
        ensures { result.0 ≡ (means self.now).id };

    /// A second reader of equal meaning; it takes no memory, and never fails.
    fn clone(&self) -> Self
        ensures { means result ≡ means self.now };

    /// Leaves no bytes, and keeps the id.
    fn empty(&mut self)
        ensures { means self.new ≡ no_bytes (means self.old) };

    /// Keeps only the next `len` bytes.
    fn truncate(&mut self, len: Self::Offset) -> Result<(), Error>
        ensures { Did (λ x. x) result (means self.new)
            (truncate_step (Self.Offset.number len) (means self.old)) };

    /// Moves past the next `len` bytes.
    fn skip(&mut self, len: Self::Offset) -> Result<(), Error>
        ensures { Did (λ x. x) result (means self.new)
            (skip_step (Self.Offset.number len) (means self.old)) };

    /// Moves past the next `len` bytes, and answers them as a reader of their own.
    fn split(&mut self, len: Self::Offset) -> Result<Self, Error>
        ensures { Did means result (means self.new)
            (split_step (Self.Offset.number len) (means self.old)) };

    /// Moves past as many bytes as `buf` has, and copies them there.
    fn read_slice(&mut self, buf: &mut [u8]) -> Result<(), Error>
        ensures { Filled result (buf.old, buf.new) (means self.new)
            (copy_step (length buf.old) (means self.old)) };

    /// The next ten bytes, where the reader has them side by side in memory, so that a read tests
    /// once that they are there. It may answer None however many are left.
    fn next_ten(&self) -> Option<&[u8; 10]>
        ensures { IfSome result
            (λ bytes. (10 ≤ length (means self.now).rest)
            × (bytes.now ≡ take 10 (means self.now).rest)) }
    {
        None
    }

    /// The number of bytes in front of the first `byte`.
    fn find(&self, byte: u8) -> Result<Self::Offset, Error>
        ensures { outcome_is Self.Offset.number result ≡ position byte (means self.now) };

    /// The distance of an id from the next byte's, if the id is one of this reader's.
    fn lookup_offset_id(&self, id: ReaderOffsetId) -> Option<Self::Offset>
        ensures { option_map Self.Offset.number result ≡ distance (means self.now) id.0 };

    /// The distance from the start of `base`, if this reader's bytes lie within those of `base`.
    fn offset_from(&self, base: &Self) -> Option<Self::Offset>
        ensures { option_map Self.Offset.number result
            ≡ distance_within (means self.now) (means base.now) };
}

/// Reads of addresses and offsets, which relocation may change.
pub trait AddressReader: Reader {
    /// An address of 1, 2, 4 or 8 bytes.
    fn read_address(&mut self, address_size: u8) -> Result<u64, Error>
        ensures { Did (λ x. x) result (Self.means self.new)
            (address address_size (Self.means self.old)) };

    /// An offset of the format's width.
    fn read_offset(&mut self, format: Format) -> Result<Self::Offset, Error>
        ensures { Did Self.Offset.number result (Self.means self.new)
            (offset Self.Offset.limit (format_word format) (Self.means self.old)) };

    /// An offset of 1, 2, 4 or 8 bytes.
    fn read_sized_offset(&mut self, size: u8) -> Result<Self::Offset, Error>
        ensures { Did Self.Offset.number result (Self.means self.new)
            (sized_offset Self.Offset.limit size (Self.means self.old)) };
}

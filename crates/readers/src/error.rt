// The faults of every call: a closed list of fourteen.
ghost use Rattle.std.specs.Prelude.{◌≡◌, Some};
ghost use Rattle.readers.specs.Links.{fault_is};
ghost use Rattle.readers.specs.Names.{name_of, fault_text};

use crate::reader::ReaderOffsetId;
use std::fmt;

/// Why a call was refused.
#[derive(Clone, Copy, PartialEq, Eq, Debug)]
pub enum Error {
    /// The reader has too few bytes; the id is the reader's just before the step that lacked them.
    UnexpectedEof(ReaderOffsetId),
    /// An initial length that DWARF keeps for later use.
    UnknownReservedLength(u32),
    /// A version that is not read here.
    UnknownVersion(u16),
    /// A size of addresses other than 1, 2, 4 or 8.
    UnsupportedAddressSize(u8),
    /// A set with segment selectors.
    UnsupportedSegmentSize(u8),
    /// A number that the reader's kind of offset can't hold.
    UnsupportedOffset,
    /// A size of offsets other than 1, 2, 4 or 8.
    UnsupportedOffsetSize(u8),
    /// An unsigned LEB128 number that is too large, or too long.
    BadUnsignedLeb128,
    /// A signed LEB128 number that is too large, or too long.
    BadSignedLeb128,
    /// A range that ends past the largest address.
    AddressOverflow,
    /// A section whose places can't all be named.
    SectionTooLong,
    /// A call of the walk that needs a header or a tuple walk before there is one.
    NothingOpen,
    /// Relocation refused; the offset is the one that it was asked about.
    RelocationRefused(u64),
    /// A number of more bytes than eight.
    BadLength(usize),
}

impl Error {
    /// The fault's name, as output lines write it.
    pub fn name(self) -> &'static str
        ensures { result.now ≡ name_of (fault_is self).number }
    {
        match self {
            Error::UnexpectedEof(_) => "UnexpectedEof",
            Error::UnknownReservedLength(_) => "UnknownReservedLength",
            Error::UnknownVersion(_) => "UnknownVersion",
            Error::UnsupportedAddressSize(_) => "UnsupportedAddressSize",
            Error::UnsupportedSegmentSize(_) => "UnsupportedSegmentSize",
            Error::UnsupportedOffset => "UnsupportedOffset",
            Error::UnsupportedOffsetSize(_) => "UnsupportedOffsetSize",
            Error::BadUnsignedLeb128 => "BadUnsignedLeb128",
            Error::BadSignedLeb128 => "BadSignedLeb128",
            Error::AddressOverflow => "AddressOverflow",
            Error::SectionTooLong => "SectionTooLong",
            Error::NothingOpen => "NothingOpen",
            Error::RelocationRefused(_) => "RelocationRefused",
            Error::BadLength(_) => "BadLength",
        }
    }

    /// What the fault tells beside its name, 0 where that is nothing.
    pub fn payload(self) -> u64
        ensures { result ≡ (fault_is self).payload }
    {
        match self {
            Error::UnexpectedEof(id) => id.0,
            Error::UnknownReservedLength(value) => value as u64,
            Error::UnknownVersion(version) => version as u64,
            Error::UnsupportedAddressSize(size) => size as u64,
            Error::UnsupportedSegmentSize(size) => size as u64,
            Error::UnsupportedOffsetSize(size) => size as u64,
            Error::RelocationRefused(offset) => offset,
            Error::BadLength(len) => len as u64,
            Error::UnsupportedOffset
            | Error::BadUnsignedLeb128
            | Error::BadSignedLeb128
            | Error::AddressOverflow
            | Error::SectionTooLong
            | Error::NothingOpen => 0,
        }
    }
}

/// Writes a fault as its name and its payload.
impl fmt::Display for Error {
    ghost output = { λ error. Some (fault_text (fault_is error)) };

    fn fmt<W: fmt::Write>(&self, f: &mut fmt::Formatter<W>) -> fmt::Result {
        write!(f, "{} {}", self.name(), self.payload())
    }
}

impl std::error::Error for Error {}

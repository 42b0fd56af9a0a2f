// Why the relocations of a section can't be applied.
ghost use Rattle.std.specs.Prelude.{◌≡◌, Some};
ghost use Rattle.elf_relocations.specs.declared.error.RelocationError.TheVariants.{Elf, NoMemory};
ghost use Rattle.elf_relocations.specs.Texts.{relocation_error_text};

use elf::{ElfError, Machine};
use std::alloc::{AllocError, AllocFailed};
use std::fmt;

/// Why the relocations of a section can't be applied; an offset is that in the section.
#[derive(Clone, Copy, PartialEq, Eq, Debug)]
pub enum RelocationError {
    /// A part of the file can't be read.
    Elf(ElfError),
    NoMemory,
    /// The relocations of a machine are not known.
    UnknownMachine(u16),
    /// A kind of relocation that is not done here.
    UnsupportedRelocation {
        machine: Machine,
        kind: u32,
        offset: u64,
    },
    /// A symbol that no section of the file defines.
    SymbolWithoutAddress {
        symbol: u32,
        offset: u64,
    },
    /// An address is added, and the next relocation does not subtract one there.
    AddWithoutSub(u64),
    /// An address is subtracted, and the relocation before does not add one there.
    SubWithoutAdd(u64),
    /// An address is subtracted from one in another section, which only the linker can do.
    DifferentSections(u64),
    /// The place does not lie within the section.
    OutsideSection(u64),
    /// Two relocations of one place.
    TwoRelocations(u64),
    /// The section with the index has relocations in ELF's compact form (SHT_CREL).
    CompactRelocations(u64),
}

/// Writes one sentence.
impl fmt::Display for RelocationError {
    ghost output = { λ error. Some (relocation_error_text error) };

    fn fmt<W: fmt::Write>(&self, f: &mut fmt::Formatter<W>) -> fmt::Result {
        match self {
            RelocationError::Elf(error) => write!(f, "{error}"),
            RelocationError::NoMemory => write!(
                f,
                "there is not enough memory for the relocations"
            ),
            RelocationError::UnknownMachine(machine) => {
                write!(f, "the relocations of machine {machine} are not known")
            }
            RelocationError::UnsupportedRelocation {
                machine,
                kind,
                offset,
            } => {
                write!(
                    f,
                    "relocation {kind} of {machine} at offset {offset} is not supported"
                )
            }
            RelocationError::SymbolWithoutAddress { symbol, offset } => {
                write!(
                    f,
                    "the relocation at offset {offset} needs symbol {symbol}, which has no address in the file"
                )
            }
            RelocationError::AddWithoutSub(offset) => {
                write!(
                    f,
                    "the relocation at offset {offset} adds an address, and none is subtracted behind it"
                )
            }
            RelocationError::SubWithoutAdd(offset) => {
                write!(
                    f,
                    "the relocation at offset {offset} subtracts an address, and none is added before it"
                )
            }
            RelocationError::DifferentSections(offset) => {
                write!(
                    f,
                    "the relocations at offset {offset} need the distance between two sections"
                )
            }
            RelocationError::OutsideSection(offset) => {
                write!(
                    f,
                    "the place of the relocation at offset {offset} does not lie within the section"
                )
            }
            RelocationError::TwoRelocations(offset) => {
                write!(f, "two relocations are for the place at offset {offset}")
            }
            RelocationError::CompactRelocations(index) => {
                write!(
                    f,
                    "the relocations in section {index} are in the compact form, which is not read"
                )
            }
        }
    }
}

impl std::error::Error for RelocationError {}

impl From<ElfError> for RelocationError {
    ghost from_gives = { λ error r. r ≡ Elf error };

    fn from(error: ElfError) -> RelocationError {
        RelocationError::Elf(error)
    }
}

impl From<AllocError> for RelocationError {
    ghost from_gives = { λ _ r. r ≡ NoMemory };

    fn from(_error: AllocError) -> RelocationError {
        RelocationError::NoMemory
    }
}

// std tells want of memory by two types: a push hands back what it could not keep.
impl<T: Drop> From<AllocFailed<T>> for RelocationError {
    ghost from_gives = { λ _ r. r ≡ NoMemory };

    fn from(_refused: AllocFailed<T>) -> RelocationError {
        RelocationError::NoMemory
    }
}

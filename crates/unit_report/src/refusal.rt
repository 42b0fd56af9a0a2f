// Why a file has no report.
ghost use Rattle.std.specs.Prelude.{◌≡◌, Some};
ghost use Rattle.unit_report.specs.declared.refusal.Refusal.TheVariants.{Elf, Relocation, NoMemory};
ghost use Rattle.unit_report.specs.Refusals.{refusal_text};

use elf::ElfError;
use elf_relocations::RelocationError;
use std::alloc::{AllocError, AllocFailed};
use std::fmt;

/// Why a file has no report.
#[derive(Clone, Copy, PartialEq, Eq, Debug)]
pub enum Refusal {
    /// A part of the file can't be read.
    Elf(ElfError),
    /// The relocations of the section can't be applied.
    Relocation(RelocationError),
    /// There is no section `.debug_aranges`.
    NoSection,
    /// The section is compressed.
    Compressed,
    /// A relocation is of no number that is read, by its place.
    UnreadRelocation(u64),
    NoMemory,
}

/// Writes one sentence.
impl fmt::Display for Refusal {
    ghost output = { λ refusal. Some (refusal_text refusal) };

    fn fmt<W: fmt::Write>(&self, f: &mut fmt::Formatter<W>) -> fmt::Result {
        match self {
            Refusal::Elf(error) => write!(f, "{error}"),
            Refusal::Relocation(error) => write!(f, "{error}"),
            Refusal::NoSection => write!(f, "the file has no section .debug_aranges"),
            Refusal::Compressed => write!(
                f,
                "section .debug_aranges is compressed: \
                 objcopy --decompress-debug-sections undoes that"
            ),
            Refusal::UnreadRelocation(offset) => write!(
                f,
                "relocation at offset {offset} of .debug_aranges \
                 is of no address or offset that is read"
            ),
            Refusal::NoMemory => write!(f, "there is not enough memory for the report"),
        }
    }
}

impl std::error::Error for Refusal {}

impl From<ElfError> for Refusal {
    ghost from_gives = { λ error r. r ≡ Elf error };

    fn from(error: ElfError) -> Refusal {
        Refusal::Elf(error)
    }
}

impl From<RelocationError> for Refusal {
    ghost from_gives = { λ error r. r ≡ Relocation error };

    fn from(error: RelocationError) -> Refusal {
        Refusal::Relocation(error)
    }
}

impl From<AllocError> for Refusal {
    ghost from_gives = { λ _ r. r ≡ NoMemory };

    fn from(_error: AllocError) -> Refusal {
        Refusal::NoMemory
    }
}

// A push hands back what it could not keep.
impl<T: Drop> From<AllocFailed<T>> for Refusal {
    ghost from_gives = { λ _ r. r ≡ NoMemory };

    fn from(_refused: AllocFailed<T>) -> Refusal {
        Refusal::NoMemory
    }
}

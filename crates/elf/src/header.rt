// The header of an ELF file.
ghost use Rattle.std.specs.Prelude.{◌≡◌};
ghost use Rattle.elf.specs.Results.{result_is};
ghost use Rattle.elf.specs.Files.{words_of, header_of};
ghost use Rattle.elf.specs.Links.{words_is};

use crate::error::ElfError;
use crate::file::FileKind;
use crate::words::{Class, Words};
use readers::RunTimeEndian;

const MAGIC: &[u8] = b"\x7fELF";

/// What the header says, as it stands.
#[derive(Clone, Copy)]
pub struct Header {
    pub kind: FileKind,
    pub machine: u16,
    /// The place of the section table, the size of its entries, and their number.
    pub table: u64,
    pub entry_size: u16,
    pub count: u16,
    /// The index of the section that has the names of sections.
    pub names: u16,
}

/// The first bytes, which say how the others are read.
pub fn identify(bytes: &[u8]) -> Result<Words<'_>, ElfError>
    ensures { result_is words_is result ≡ words_of bytes.now }
{
    if bytes.len() < 16 || !bytes.starts_with(MAGIC) {
        return Err(ElfError::NotElf);
    }
    let class = match bytes[4] {
        1 => Class::Elf32,
        2 => Class::Elf64,
        other => return Err(ElfError::UnknownClass(other)),
    };
    let endian = match bytes[5] {
        1 => RunTimeEndian::Little,
        2 => RunTimeEndian::Big,
        other => return Err(ElfError::UnknownByteOrder(other)),
    };
    Ok(Words::new(bytes, endian, class))
}

/// The fields of the header that are used here.
pub fn read_header(words: &Words) -> Result<Header, ElfError>
    ensures { result ≡ header_of (words_is words.now) }
{
    let word = words.class.word_size();
    if words.bytes.len() < 40 + 3 * word {
        return Err(ElfError::HeaderCutOff);
    }
    Ok(Header {
        kind: FileKind::from(words.u16_at(16)),
        machine: words.u16_at(18),
        table: words.word_at(24 + 2 * word),
        entry_size: words.u16_at(34 + 3 * word),
        count: words.u16_at(36 + 3 * word),
        names: words.u16_at(38 + 3 * word),
    })
}

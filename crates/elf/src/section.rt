// The entries of the section table.
ghost use Rattle.std.specs.Prelude.{◌≡◌, ◌+◌, ◌≤◌, length};
ghost use Rattle.elf.specs.Kinds.{section_kind_of};
ghost use Rattle.elf.specs.Sections.{section_size, section_entry, is_compressed};
ghost use Rattle.elf.specs.Links.{class_word, words_is};

use crate::words::{Class, Words};

// which bit of the flags says that a section is compressed
const COMPRESSED_BIT: u32 = 11;

/// What a section holds (`sh_type`).
#[derive(Clone, Copy, PartialEq, Eq, Debug)]
pub enum SectionKind {
    /// Symbols (SHT_SYMTAB).
    SymbolTable,
    /// Relocation entries with addends (SHT_RELA).
    Rela,
    /// No bytes in the file (SHT_NOBITS).
    NoBits,
    /// Relocation entries without addends (SHT_REL).
    Rel,
    /// Symbols for the loader (SHT_DYNSYM).
    DynamicSymbols,
    /// The sections of a table's symbols where 16 bits are too few for them (SHT_SYMTAB_SHNDX).
    SymbolTableSections,
    /// Relocation entries in a compact form (SHT_CREL).
    Crel,
    Other(u32),
}

impl From<u32> for SectionKind {
    ghost from_gives = { λ number kind. kind ≡ section_kind_of number };

    fn from(number: u32) -> SectionKind {
        match number {
            2 => SectionKind::SymbolTable,
            4 => SectionKind::Rela,
            8 => SectionKind::NoBits,
            9 => SectionKind::Rel,
            11 => SectionKind::DynamicSymbols,
            18 => SectionKind::SymbolTableSections,
            0x4000_0014 => SectionKind::Crel,
            other => SectionKind::Other(other),
        }
    }
}

/// What the section table says of a section.
#[derive(Clone, Copy, PartialEq, Eq, Debug)]
pub struct Section {
    /// The place in the section table.
    pub index: u64,
    /// The place of the name in the table of section names.
    pub name: u32,
    pub kind: SectionKind,
    pub flags: u64,
    pub address: u64,
    /// The place of the bytes in the file.
    pub offset: u64,
    pub size: u64,
    pub link: u32,
    pub info: u32,
    pub entry_size: u64,
}

impl Section {
    /// Whether the bytes of the section are compressed (SHF_COMPRESSED).
    pub fn is_compressed(&self) -> bool
        ensures { result ≡ is_compressed self.now }
    {
        (self.flags >> COMPRESSED_BIT) % 2 == 1
    }
}

impl Class {
    /// How many bytes an entry of the section table takes.
    pub fn section_size(self) -> usize
        ensures { result ≡ section_size (class_word self) }
    {
        16 + 6 * self.word_size()
    }
}

/// The section whose entry is at a place: its fields stand in one order in both classes.
pub fn read_section(words: &Words, index: usize, at: usize) -> Section
    requires { at + section_size (class_word words.now.class) ≤ length words.now.bytes.now }
    ensures { result ≡ section_entry (words_is words.now) index at }
{
    let word = words.class.word_size();
    Section {
        index: index as u64,
        name: words.u32_at(at),
        kind: SectionKind::from(words.u32_at(at + 4)),
        flags: words.word_at(at + 8),
        address: words.word_at(at + 8 + word),
        offset: words.word_at(at + 8 + 2 * word),
        size: words.word_at(at + 8 + 3 * word),
        link: words.u32_at(at + 8 + 4 * word),
        info: words.u32_at(at + 12 + 4 * word),
        entry_size: words.word_at(at + 16 + 5 * word),
    }
}

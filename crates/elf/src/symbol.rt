// Symbol tables, and the symbols in them.
ghost use Rattle.std.specs.Prelude.{◌≡◌, ◌+◌, ◌*◌, ◌≤◌, length, find};
ghost use Rattle.elf.specs.Symbols.{place_in_section};

use crate::error::ElfError;
use crate::file::ElfFile;
use crate::section::{Section, SectionKind};
use crate::words::{Class, Words};

/// Where a symbol is defined.
#[derive(Clone, Copy, PartialEq, Eq, Debug)]
pub enum SymbolPlace {
    /// In another file.
    Undefined,
    /// In the section with the index.
    Section(u32),
    /// In no section: its value is a number that stays as it is.
    Absolute,
    /// In a section that only the linker makes.
    Common,
    /// In a place of the machine's or the system's own.
    Reserved(u16),
}

/// What a symbol table says of a symbol.
#[derive(Clone, Copy, PartialEq, Eq, Debug)]
pub struct Symbol {
    /// A place in its section, or a number that stays as it is.
    pub value: u64,
    pub place: SymbolPlace,
    /// The low four bits of `st_info`.
    pub kind: u8,
}

/// The symbols of a file.
#[derive(Clone, Copy)]
pub struct SymbolTable<'a> {
    entries: Words<'a>,
    // the sections of symbols by their indexes; no bytes where the file has none
    sections: Words<'a>,
}

impl Class {
    ghost use Rattle.elf.specs.Symbols.{symbol_size};
    ghost use Rattle.elf.specs.Links.{class_word};

    // how many bytes an entry of a symbol table takes
    fn symbol_size(self) -> usize
        ensures { result ≡ symbol_size (class_word self) }
    {
        8 + 2 * self.word_size()
    }
}

impl<'a> ElfFile<'a> {
    ghost use Rattle.elf.specs.Results.{result_is};
    ghost use Rattle.elf.specs.FileLinks.{file_is, table_is};
    ghost use Rattle.elf.specs.Files.{all_sections};
    ghost use Rattle.elf.specs.Symbols.{symbols_of, sections_of_symbols, is_for_table};

    /// The symbols of a section, which has to be a symbol table.
    pub fn symbols(&self, section: &Section) -> Result<SymbolTable<'a>, ElfError>
        ensures { result_is table_is result ≡ symbols_of (file_is self.now) section.now }
    {
        if !matches!(
            section.kind,
            SectionKind::SymbolTable | SectionKind::DynamicSymbols
        ) {
            return Err(ElfError::NoSymbolTable(section.index));
        }
        if section.entry_size != self.class().symbol_size() as u64 {
            return Err(ElfError::SymbolEntrySize(section.entry_size));
        }
        let entries = self.data(section)?;
        let sections = self.sections_of_symbols(section)?;
        Ok(SymbolTable {
            entries: self.words_in(entries),
            sections: self.words_in(sections),
        })
    }

    // the sections of a table's symbols, which stand in the first section that says so
    fn sections_of_symbols(&self, table: &Section) -> Result<&'a [u8], ElfError>
        ensures { result_is (λ x. x.now) result ≡ sections_of_symbols (file_is self.now) table.now }
    {
        match self.section_for_table(table.index) {
            Some(section) => self.data(&section),
            None => Ok(&[]),
        }
    }

    // the section that has the sections of a table's symbols
    fn section_for_table(&self, table: u64) -> Option<Section>
        ensures { result ≡ find (is_for_table table) (all_sections (file_is self.now)) }
    {
        self.sections().find(|section| {
            section.kind == SectionKind::SymbolTableSections && section.link as u64 == table
        })
    }
}

impl SymbolTable<'_> {
    ghost use Rattle.elf.specs.Symbols.{symbol_or, place_or};
    ghost use Rattle.elf.specs.FileLinks.{table_is};

    /// The symbol of an index; NoSymbol, or NoSectionOfSymbol where its place is not told.
    pub fn symbol(&self, index: u32) -> Result<Symbol, ElfError>
        ensures { result ≡ symbol_or (table_is self.now) index }
    {
        let class = self.entries.class;
        let size = class.symbol_size();
        let at = index as usize * size;
        if !self.entries.has_bytes(at as u64, size as u64) {
            return Err(ElfError::NoSymbol(index as u64));
        }
        // the value of 64 bits stands behind the fields that stand behind the value of 32 bits
        let info = match class {
            Class::Elf32 => at + 12,
            Class::Elf64 => at + 4,
        };
        let place = self.place(index, self.entries.u16_at(info + 2))?;
        Ok(Symbol {
            value: self.entries.word_at(at + class.word_size()),
            place,
            kind: self.entries.bytes[info] % 16,
        })
    }

    // the place that the number in a symbol tells
    fn place(&self, index: u32, number: u16) -> Result<SymbolPlace, ElfError>
        ensures { result ≡ place_or (table_is self.now) index number }
    {
        match number {
            0xfff1 => Ok(SymbolPlace::Absolute),
            0xfff2 => Ok(SymbolPlace::Common),
            0xffff => {
                let at = index as usize * 4;
                if !self.sections.has_bytes(at as u64, 4) {
                    return Err(ElfError::NoSectionOfSymbol(index as u64));
                }
                Ok(place_in_section(self.sections.u32_at(at)))
            }
            0xff00..=0xfffe => Ok(SymbolPlace::Reserved(number)),
            _ => Ok(place_in_section(number as u32)),
        }
    }
}

// the place by the index of a section, of which 0 is none
fn place_in_section(index: u32) -> SymbolPlace
    ensures { result ≡ place_in_section index }
{
    match index {
        0 => SymbolPlace::Undefined,
        section => SymbolPlace::Section(section),
    }
}

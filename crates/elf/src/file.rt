// An ELF file: what its header says, and where its section table is.
ghost use Rattle.std.specs.Prelude.{◌≡◌, ◌+◌, ◌*◌, ◌<◌, ◌≤◌, length};
ghost use Rattle.elf.specs.Kinds.{file_kind_of};
ghost use Rattle.elf.specs.Sections.{section_size};
ghost use Rattle.elf.specs.Words.{has_bytes};
ghost use Rattle.elf.specs.Links.{class_word, words_is};

use crate::error::ElfError;
use crate::header::{Header, identify, read_header};
use crate::machine::Machine;
use crate::section::{Section, SectionKind, read_section};
use crate::words::{Class, Words};
use numbers::read_uint;
use readers::RunTimeEndian;

// stands for an index of the names that the header has no room for
const NAMES_BEYOND: u16 = 0xffff;

/// What a file is for (`e_type`).
#[derive(Clone, Copy, PartialEq, Eq, Debug)]
pub enum FileKind {
    Relocatable,
    Executable,
    Shared,
    Other(u16),
}

impl From<u16> for FileKind {
    ghost from_gives = { λ number kind. kind ≡ file_kind_of number };

    fn from(number: u16) -> FileKind {
        match number {
            1 => FileKind::Relocatable,
            2 => FileKind::Executable,
            3 => FileKind::Shared,
            other => FileKind::Other(other),
        }
    }
}

/// An ELF file in memory.
#[derive(Clone, Copy)]
pub struct ElfFile<'a> {
    words: Words<'a>,
    kind: FileKind,
    machine: u16,
    // the section table: its place, how many sections it has, and which of them has the names
    table: usize,
    pub(crate) count: usize,
    names: u32,
    ghost within: { table + count * section_size (class_word words.class)
        ≤ length words.bytes.now },
}

impl<'a> ElfFile<'a> {
    ghost use Rattle.readers.specs.Links.{is_big};
    ghost use Rattle.elf.specs.Results.{result_is};
    ghost use Rattle.elf.specs.Kinds.{machine_of};
    ghost use Rattle.elf.specs.Words.{uint_or};
    ghost use Rattle.elf.specs.Files.{file_of, file_with_table, section_in, section_or, data_of, names_in, words_in};
    ghost use Rattle.elf.specs.FileLinks.{file_is};

    /// Reads the header of a file, and finds its section table, which has to lie within the bytes.
    pub fn parse(bytes: &'a [u8]) -> Result<ElfFile<'a>, ElfError>
        ensures { result_is file_is result ≡ file_of bytes.now }
    {
        let words = identify(bytes)?;
        let header = read_header(&words)?;
        if header.table == 0 {
            return Ok(ElfFile {
                words,
                kind: header.kind,
                machine: header.machine,
                table: 0,
                count: 0,
                names: 0,
            });
        }
        ElfFile::with_table(words, header)
    }

    // the file with the section table that its header tells
    fn with_table(words: Words<'a>, header: Header) -> Result<ElfFile<'a>, ElfError>
        ensures { result_is file_is result ≡ file_with_table (words_is words.entry) header }
    {
        let size = words.class.section_size();
        if header.entry_size as usize != size {
            return Err(ElfError::SectionEntrySize(header.entry_size));
        }
        if !has_entries(&words, header.table, 1) {
            return Err(ElfError::SectionTableCutOff);
        }
        let table = header.table as usize;
        let first = read_section(&words, 0, table);
        let count = if header.count == 0 {
            first.size
        } else {
            header.count as u64
        };
        let names = if header.names == NAMES_BEYOND {
            first.link
        } else {
            header.names as u32
        };
        if !has_entries(&words, header.table, count) {
            return Err(ElfError::SectionTableCutOff);
        }
        Ok(ElfFile {
            words,
            kind: header.kind,
            machine: header.machine,
            table,
            count: count as usize,
            names,
        })
    }

    /// Whether its words have 32 or 64 bits (`EI_CLASS`).
    pub fn class(&self) -> Class
        ensures { class_word result ≡ (file_is self.now).words.word }
    {
        self.words.class
    }

    /// The order of the bytes in its numbers (`EI_DATA`).
    pub fn endian(&self) -> RunTimeEndian
        ensures { is_big result ≡ (file_is self.now).words.big }
    {
        self.words.endian
    }

    /// What the file is for.
    pub fn kind(&self) -> FileKind
        ensures { result ≡ (file_is self.now).kind }
    {
        self.kind
    }

    /// The machine that the file is for, if its relocations are known.
    pub fn machine(&self) -> Option<Machine>
        ensures { result ≡ machine_of (file_is self.now).machine }
    {
        Machine::of(self.machine)
    }

    /// The number of the machine that the file is for (`e_machine`).
    pub fn machine_number(&self) -> u16
        ensures { result ≡ (file_is self.now).machine }
    {
        self.machine
    }

    /// How many sections the section table has, section 0 with them.
    pub fn section_count(&self) -> u64
        ensures { result ≡ (file_is self.now).count }
    {
        self.count as u64
    }

    // the section of an index below the number of sections
    #[tactic(auto, using(crate::proofs::Entries::entry_within))]
    pub(crate) fn section_at(&self, index: usize) -> Section
        requires { index < self.now.count }
        ensures { result ≡ section_in (file_is self.now) index }
    {
        let at = self.table + index * self.words.class.section_size();
        read_section(&self.words, index, at)
    }

    /// The section of an index; NoSection where there is none.
    pub fn section(&self, index: u64) -> Result<Section, ElfError>
        ensures { result ≡ section_or (file_is self.now) index }
    {
        if index < self.count as u64 {
            Ok(self.section_at(index as usize))
        } else {
            Err(ElfError::NoSection(index))
        }
    }

    /// The bytes of a section; NoBytes or SectionCutOff where the file has not all of them.
    pub fn data(&self, section: &Section) -> Result<&'a [u8], ElfError>
        ensures { result_is (λ x. x.now) result ≡ data_of (file_is self.now) section.now }
    {
        if section.kind == SectionKind::NoBits {
            return Err(ElfError::NoBytes(section.index));
        }
        if !self.words.has_bytes(section.offset, section.size) {
            return Err(ElfError::SectionCutOff(section.index));
        }
        let start = section.offset as usize;
        Ok(&self.words.bytes[start..start + section.size as usize])
    }

    /// The number of at most 8 bytes at a place of bytes, in the file's order, if they hold it.
    pub fn uint_in(&self, bytes: &'a [u8], at: u64, size: u8) -> Option<u64>
        ensures { result ≡ uint_or (words_in (file_is self.now) bytes.now) at size }
    {
        let words = self.words_in(bytes);
        if !words.has_bytes(at, size as u64) {
            return None;
        }
        read_uint(&mut words.reader_at(at as usize), size as usize).ok()
    }

    // the same file's numbers in other bytes
    pub(crate) fn words_in(&self, bytes: &'a [u8]) -> Words<'a>
        ensures { words_is result ≡ words_in (file_is self.now) bytes.now }
    {
        Words::new(bytes, self.words.endian, self.words.class)
    }

    // the table of section names
    pub(crate) fn names(&self) -> Result<&'a [u8], ElfError>
        ensures { result_is (λ x. x.now) result ≡ names_in (file_is self.now) }
    {
        if self.names == 0 {
            return Err(ElfError::NoSectionNames);
        }
        let section = self.section(self.names as u64)?;
        self.data(&section)
    }
}

// whether as many entries of sections lie behind a place
fn has_entries(words: &Words, at: u64, count: u64) -> bool
    ensures { result
        ≡ has_bytes (words_is words.now) at (count * section_size (class_word words.now.class)) }
{
    match count.checked_mul(words.class.section_size() as u64) {
        Some(size) => words.has_bytes(at, size),
        None => false,
    }
}

// Relocation sections, and the entries in them.
ghost use Rattle.std.specs.Prelude.{◌≡◌, ◌+◌, ◌*◌, ◌<◌, ◌≤◌, length, IsTrue};
ghost use Rattle.std.specs.Iterator.{YieldsFirst, item_count};
ghost use Rattle.elf.specs.Relocations.{relocation_size, sign_extension};
ghost use Rattle.elf.specs.Links.{class_word};

use crate::error::ElfError;
use crate::file::ElfFile;
use crate::machine::Machine;
use crate::section::{Section, SectionKind};
use crate::words::{Class, Words};
use readers::RunTimeEndian;
use std::ops::Range;

/// What a relocation section says of one place of the section that it is for.
#[derive(Clone, Copy, PartialEq, Eq, Debug)]
pub struct RelocationEntry {
    /// The place in the section that it is for.
    pub offset: u64,
    /// The index of the symbol.
    pub symbol: u32,
    /// What is done with the symbol, as a number of the machine's own.
    pub kind: u32,
    /// What is added to the symbol, modulo 2^64; where there is none, it stands in the place.
    pub addend: Option<u64>,
}

/// The entries of a relocation section from one of them on.
#[derive(Drop)]
pub struct Relocations<'a> {
    words: Words<'a>,
    // whether the entries have addends, and whether they are laid out as those of 64-bit MIPS
    addends: bool,
    mips64: bool,
    // those of the entries left
    indexes: Range<usize>,
    ghost within: { indexes.end * relocation_size (class_word words.class) addends
        ≤ length words.bytes.now },
}

impl<'a> ElfFile<'a> {
    ghost use Rattle.elf.specs.Results.{result_is};
    ghost use Rattle.elf.specs.Relocations.{relocations_of};
    ghost use Rattle.elf.specs.FileLinks.{file_is, entries_left};

    /// The entries of a section, which has to be a relocation section.
    pub fn relocations(&self, section: &Section) -> Result<Relocations<'a>, ElfError>
        ensures { result_is entries_left result ≡ relocations_of (file_is self.now) section.now }
    {
        let addends = match section.kind {
            SectionKind::Rela => true,
            SectionKind::Rel => false,
            _ => return Err(ElfError::NoRelocations(section.index)),
        };
        let size = self.class().relocation_size(addends);
        if section.entry_size != size as u64 {
            return Err(ElfError::RelocationEntrySize(section.entry_size));
        }
        let bytes = self.data(section)?;
        if bytes.len() % size != 0 {
            return Err(ElfError::RelocationCutOff(section.index));
        }
        Ok(Relocations {
            words: self.words_in(bytes),
            addends,
            mips64: matches!(
                (self.machine(), self.class()),
                (Some(Machine::Mips), Class::Elf64)
            ),
            indexes: 0..bytes.len() / size,
        })
    }
}

impl Class {
    // how many bytes an entry takes
    fn relocation_size(self, addends: bool) -> usize
        ensures { result ≡ relocation_size (class_word self) addends }
    {
        let words = if addends { 3 } else { 2 };
        words * self.word_size()
    }
}

impl Relocations<'_> {
    ghost use Rattle.elf.specs.Relocations.{entry_in, symbol_and_kind, addend_at};
    ghost use Rattle.elf.specs.FileLinks.{relocations_is};

    // the entry of an index below the number of entries
    #[tactic(auto, using(crate::proofs::Entries::entry_within))]
    fn entry(&self, index: usize) -> RelocationEntry
        requires { index < self.now.indexes.end }
        ensures { result ≡ entry_in (relocations_is self.now) index }
    {
        let word = self.words.class.word_size();
        let at = index * self.words.class.relocation_size(self.addends);
        let (symbol, kind) = self.symbol_and_kind(at + word);
        RelocationEntry {
            offset: self.words.word_at(at),
            symbol,
            kind,
            addend: self.addend(at + 2 * word),
        }
    }

    // from the second word of an entry, by its place
    fn symbol_and_kind(&self, at: usize) -> (u32, u32)
        requires { at + class_word self.now.words.class ≤ length self.now.words.bytes.now }
        ensures { result ≡ symbol_and_kind (relocations_is self.now) at }
    {
        match self.words.class {
            Class::Elf32 => {
                let info = self.words.u32_at(at);
                (info >> 8, info % (1 << 8))
            }
            Class::Elf64 if self.mips64 => {
                let mut words = self.words;
                words.endian = RunTimeEndian::Big;
                (self.words.u32_at(at), words.u32_at(at + 4))
            }
            Class::Elf64 => {
                let info = self.words.u64_at(at);
                ((info >> 32) as u32, (info % (1 << 32)) as u32)
            }
        }
    }

    // from the third word of an entry, by its place
    fn addend(&self, at: usize) -> Option<u64>
        requires { IsTrue self.now.addends
            → at + class_word self.now.words.class ≤ length self.now.words.bytes.now }
        ensures { result ≡ addend_at (relocations_is self.now) at }
    {
        if !self.addends {
            return None;
        }
        Some(match self.words.class {
            Class::Elf32 => sign_extension(self.words.u32_at(at)),
            Class::Elf64 => self.words.u64_at(at),
        })
    }
}

// a number in two's complement, in 64 bits
fn sign_extension(number: u32) -> u64
    ensures { result ≡ sign_extension number }
{
    i64::from(number.cast_signed()).cast_unsigned()
}

impl Iterator for Relocations<'_> {
    ghost use Rattle.elf.specs.FileLinks.{entries_left};

    type Item = RelocationEntry;

    ghost next_gives = { YieldsFirst entries_left };

    ghost remaining = { item_count entries_left };

    #[tactic(auto, using(crate::proofs::Entries::first_left))]
    fn next(&mut self) -> Option<RelocationEntry> {
        let index = self.indexes.next()?;
        Some(self.entry(index))
    }
}

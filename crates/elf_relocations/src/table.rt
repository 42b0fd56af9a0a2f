// The records of a section: what all relocation entries for it make, one after another.
ghost use Rattle.std.specs.Prelude.{◌≡◌, filter};
ghost use Rattle.elf.specs.FileLinks.{file_is};
ghost use Rattle.elf_relocations.specs.Tables.{relocates, distinct_records, table_of};
ghost use Rattle.elf_relocations.specs.Links.{AnswersGivenMemory};

use crate::action::Action;
use crate::error::RelocationError;
use crate::record::{Applied, Source, Waiting};
use elf::{ElfFile, FileKind, RelocationEntry, Relocations, Section, SectionKind};
use std::alloc::Global;
use std::collections::BTreeSet;

// the records that entries have made, and the last entry if it waits for the next
#[derive(Drop)]
struct Builder {
    records: Vec<Applied>,
    waiting: Option<Waiting>,
}

impl Builder {
    ghost use Rattle.elf.specs.Files.{all_sections};
    ghost use Rattle.elf.specs.FileLinks.{entries_left};
    ghost use Rattle.elf_relocations.specs.Tables.{no_records, with_entry, with_entries, with_section, with_sections};
    ghost use Rattle.elf_relocations.specs.Links.{source_is, builder_is};

    fn new(heap: Global) -> Builder
        ensures { builder_is result ≡ no_records }
    {
        Builder {
            records: Vec::new(heap),
            waiting: None,
        }
    }

    // the relocation sections of the section with an index one after another
    fn add_sections(
        &mut self,
        file: &ElfFile,
        target: u64,
        bytes: &[u8],
    ) -> Result<(), RelocationError>
        ensures { AnswersGivenMemory (λ _. builder_is self.new) result
            (with_sections (file_is file.now) bytes.now (builder_is self.old)
            (filter (relocates target) (all_sections (file_is file.now)))) }
    {
        for section in file.sections() {
            if relocates(&section, target) {
                self.add_section(file, bytes, &section)?;
            }
        }
        Ok(())
    }

    // the entries of one relocation section, whose link is the table of their symbols
    fn add_section(
        &mut self,
        file: &ElfFile,
        bytes: &[u8],
        section: &Section,
    ) -> Result<(), RelocationError>
        ensures { AnswersGivenMemory (λ _. builder_is self.new) result
            (with_section (file_is file.now) bytes.now (builder_is self.old) section.now) }
    {
        if section.kind == SectionKind::Crel {
            return Err(RelocationError::CompactRelocations(section.index));
        }
        let table = file.section(section.link as u64)?;
        let source = Source {
            file: *file,
            bytes,
            symbols: file.symbols(&table)?,
        };
        self.add_entries(&source, file.relocations(section)?)?;
        match self.waiting {
            Some(add) => Err(RelocationError::AddWithoutSub(add.entry.offset)),
            None => Ok(()),
        }
    }

    fn add_entries(&mut self, source: &Source, entries: Relocations) -> Result<(), RelocationError>
        ensures { AnswersGivenMemory (λ _. builder_is self.new) result
            (with_entries (source_is source.now) (builder_is self.old)
            (entries_left entries.entry)) }
    {
        for entry in entries {
            self.add_entry(source, entry)?;
        }
        Ok(())
    }

    fn add_entry(&mut self, source: &Source, entry: RelocationEntry) -> Result<(), RelocationError>
        ensures { AnswersGivenMemory (λ _. builder_is self.new) result
            (with_entry (source_is source.now) (builder_is self.old) entry) }
    {
        if let Some(add) = self.waiting {
            self.waiting = None;
            self.records.push(source.pair(&add, &entry)?)?;
            return Ok(());
        }
        match source.action(&entry)? {
            Action::Nothing => {}
            Action::Absolute(width) => self.records.push(source.address(&entry, width)?)?,
            Action::Add(width) => self.waiting = Some(Waiting { entry, width }),
            Action::Sub(_) => return Err(RelocationError::SubWithoutAdd(entry.offset)),
        }
        Ok(())
    }
}

/// The records for the section with an index, which a file that is linked has none of.
pub fn relocations_for(
    heap: Global,
    file: &ElfFile,
    section: u64,
) -> Result<Vec<Applied>, RelocationError>
    ensures { AnswersGivenMemory (λ v. v.items) result (table_of (file_is file.now) section) }
{
    let mut builder = Builder::new(heap);
    if file.kind() == FileKind::Relocatable {
        let bytes = file.data(&file.section(section)?)?;
        builder.add_sections(file, section, bytes)?;
        check_places(heap, &builder.records)?;
    }
    Ok(builder.records)
}

// whether a section has relocations of the section with an index
fn relocates(section: &Section, target: u64) -> bool
    ensures { result ≡ relocates target section.now }
{
    let entries = matches!(
        section.kind,
        SectionKind::Rela | SectionKind::Rel | SectionKind::Crel
    );
    entries && section.info as u64 == target
}

// no two records may be for one place: it would show only one of them
fn check_places(heap: Global, records: &[Applied]) -> Result<(), RelocationError>
    ensures { AnswersGivenMemory (λ _. records.now) result (distinct_records records.now) }
{
    let mut seen = BTreeSet::new(heap);
    for record in records {
        let offset = record.relocation.offset;
        if !seen.insert(offset)? {
            return Err(RelocationError::TwoRelocations(offset));
        }
    }
    Ok(())
}

// The sections of a file one after another, and those with a name.
ghost use Rattle.std.specs.Prelude.{◌≡◌, ◌≤◌, option_copied};
ghost use Rattle.std.specs.Iterator.{YieldsFirst, item_count};
ghost use Rattle.elf.specs.Names.{has_name, text_before_zero};

use crate::error::ElfError;
use crate::file::ElfFile;
use crate::section::Section;
use crate::words::rest_from;
use std::ops::Range;

/// The sections of a file from one of them on, in the order of their indexes.
#[derive(Drop)]
pub struct Sections<'a> {
    file: ElfFile<'a>,
    // those of the sections left
    indexes: Range<usize>,
    ghost on: { indexes.end ≤ file.count },
}

impl Iterator for Sections<'_> {
    ghost use Rattle.elf.specs.FileLinks.{sections_left};

    type Item = Section;

    ghost next_gives = { YieldsFirst sections_left };

    ghost remaining = { item_count sections_left };

    #[tactic(auto, using(crate::proofs::Entries::first_left))]
    fn next(&mut self) -> Option<Section> {
        let index = self.indexes.next()?;
        Some(self.file.section_at(index))
    }
}

impl<'a> ElfFile<'a> {
    ghost use Rattle.elf.specs.Results.{result_is};
    ghost use Rattle.elf.specs.FileLinks.{file_is, sections_left};
    ghost use Rattle.elf.specs.Files.{all_sections};
    ghost use Rattle.elf.specs.Names.{named_section, section_name};

    /// All sections of the file.
    pub fn sections(&self) -> Sections<'a>
        ensures { sections_left result ≡ all_sections (file_is self.now) }
    {
        Sections {
            file: *self,
            indexes: 0..self.count,
        }
    }

    /// The first section with a name, if there is one.
    pub fn section_named(&self, name: &[u8]) -> Result<Option<Section>, ElfError>
        ensures { result ≡ named_section (file_is self.now) name.now }
    {
        let names = self.names()?;
        let mut sections = self.sections();
        Ok(sections.find(|section| has_name(names, name, section)))
    }

    /// The name of a section; NoSectionNames, or NameCutOff where no zero byte ends it.
    pub fn name(&self, section: &Section) -> Result<&'a [u8], ElfError>
        ensures { result_is (λ x. x.now) result ≡ section_name (file_is self.now) section.now }
    {
        let rest = rest_from(self.names()?, section.name as usize);
        text_before_zero(rest).ok_or(ElfError::NameCutOff(section.index))
    }
}

// what stands in front of the first zero byte
fn text_before_zero(bytes: &[u8]) -> Option<&[u8]>
    ensures { option_copied result ≡ text_before_zero bytes.now }
{
    let end = bytes.iter().position(|byte| *byte == 0)?;
    Some(&bytes[..end])
}

// whether a name and the zero byte that ends it stand at the section's place among the names
fn has_name(names: &[u8], name: &[u8], section: &Section) -> bool
    ensures { result ≡ has_name names.now name.now section.now }
{
    let rest = rest_from(names, section.name as usize);
    rest.starts_with(name) && rest.get(name.len()) == Some(&0)
}

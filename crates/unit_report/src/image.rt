// The section `.debug_aranges` of an ELF file, and a reader of it that applies its relocations.
ghost use Rattle.std.specs.Prelude.{◌≡◌, length, IfOk, option_and_then, option_map};
ghost use Rattle.elf.specs.FileLinks.{file_is};
ghost use Rattle.elf.specs.Results.{result_is};
ghost use Rattle.lookup.specs.Links.{found_is};
ghost use Rattle.readers.specs.Reading.{plain_reader};
ghost use Rattle.relocate.specs.Relocating.{record_at};
ghost use Rattle.unit_report.specs.Images.{aranges_of, aranges_section, checked_image, image_of, image_with};

use crate::fields::check_records;
use crate::refusal::Refusal;
use aranges::DebugAranges;
use elf::{ElfFile, Section};
use elf_relocations::{Applied, relocations_for};
use lookup::Found;
use readers::Reader;
use relocate::{RelocateReader, RelocationTable};
use section_reader::EndianSlice;
use std::alloc::{AllocError, Global};

const NAME: &[u8] = b".debug_aranges";

// the name under which older compilers wrote it compressed
const COMPRESSED_NAME: &[u8] = b".zdebug_aranges";

/// A reader of the section that applies the records of a table.
pub type Relocated<'a> = RelocateReader<EndianSlice<'a>, &'a RelocationTable<Applied>>;

/// The section `.debug_aranges` of a file, its bytes and its relocations.
#[derive(Drop)]
pub struct Image<'a> {
    pub file: ElfFile<'a>,
    pub section: Section,
    bytes: &'a [u8],
    // what is put at each place, and the section that it names; nothing in a file that is linked
    table: RelocationTable<Applied>,
}

impl<'a> Image<'a> {
    ghost use Rattle.unit_report.specs.ImageLinks.{image_is, Answered};
    ghost use Rattle.unit_report.specs.Sections.{range_section};

    /// Finds the section in the bytes of a file.
    pub fn open(heap: Global, bytes: &'a [u8]) -> Result<Image<'a>, Refusal>
        ensures { Answered image_is result (image_of bytes.now) }
    {
        let file = ElfFile::parse(bytes)?;
        let section = find_section(&file)?;
        let bytes = file.data(&section)?;
        let records = relocations_for(heap, &file, section.index)?;
        Image::with_records(heap, file, section, bytes, &records)
    }

    // the relocations of a section, which are refused where one is of no number that is read
    fn with_records(
        heap: Global,
        file: ElfFile<'a>,
        section: Section,
        bytes: &'a [u8],
        records: &[Applied],
    ) -> Result<Image<'a>, Refusal>
        ensures { Answered image_is result (checked_image
            (image_with (file_is file.entry) section bytes.now records.now) records.now) }
    {
        let image = Image {
            file,
            section,
            bytes,
            table: sorted_table(heap, records)?,
        };
        check_records(heap, &image.aranges(), records)?;
        Ok(image)
    }

    /// The section as it is read, ids being places in it.
    pub fn aranges(&self) -> DebugAranges<Relocated<'_>>
        ensures { ⟦<Relocated<'static> as Reader>⟧.means result.section
            ≡ aranges_of (image_is self.now) }
    {
        DebugAranges::new(RelocateReader::new(self.reader(), &self.table))
    }

    // the section as its bytes stand
    fn reader(&self) -> EndianSlice<'a>
        ensures { ⟦<EndianSlice<'static> as Reader>⟧.means result
            ≡ plain_reader 0 self.now.bytes.now (file_is self.now.file).words.big }
    {
        EndianSlice::new(self.bytes, 0, self.file.endian()).unwrap()
    }

    /// How many places of the section are relocated.
    pub fn places(&self) -> usize
        ensures { result ≡ (image_is self.now).places }
    {
        self.table.records().len()
    }

    /// The name of the section in which a range lies that was found, where a relocation tells it.
    pub fn range_section(&self, found: &Found<usize>) -> Result<Option<&'a [u8]>, Refusal>
        ensures { result_is (option_map (λ x. x.now)) result
            ≡ range_section (image_is self.now) (found_is (λ x. x) found.now) }
    {
        let Some(index) = self.section_at(found.id.0) else {
            return Ok(None);
        };
        let section = self.file.section(index as u64)?;
        Ok(Some(self.file.name(&section)?))
    }

    // the index of the section that the relocation of a place names
    fn section_at(&self, place: u64) -> Option<u32>
        ensures { result
            ≡ option_and_then (λ r. r.section) ((image_is self.now).applied_at place) }
    {
        self.table.record_at(place)?.section
    }
}

// the same records, to be found by their places
#[tactic(auto, using(std::proofs::lemmas::List::Sorted::length_permutation))]
fn sorted_table(heap: Global, records: &[Applied]) -> Result<RelocationTable<Applied>, AllocError>
    ensures found { IfOk result (λ t. record_at (λ a. a.relocation) t
        ≡ record_at (λ a. a.relocation) records.now) }
    ensures count { IfOk result (λ t. length t ≡ length records.now) }
{
    RelocationTable::new(Vec::from_slice(heap, records)?)
}

// the section of the name, which may not be compressed
fn find_section(file: &ElfFile) -> Result<Section, Refusal>
    ensures { result ≡ aranges_section (file_is file.now) }
{
    match file.section_named(NAME)? {
        Some(section) if !section.is_compressed() => Ok(section),
        Some(_) => Err(Refusal::Compressed),
        None => match file.section_named(COMPRESSED_NAME)? {
            Some(_) => Err(Refusal::Compressed),
            None => Err(Refusal::NoSection),
        },
    }
}

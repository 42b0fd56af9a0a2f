// What an input says before its commands, and the section opened as it says.
ghost use Rattle.std.specs.Prelude.{◌≡◌, ◌^◌, ◌<◌, length, nat_lt};
ghost use Rattle.readers.specs.Sections.{section_opening};
ghost use Rattle.readers.specs.Links.{is_big, outcome_is};
ghost use Rattle.relocate.specs.Relocating.{layer};
ghost use Rattle.section_reader.specs.Means.{section_means};

use crate::input::ReaderKind;
use readers::{Error, Reader, ReaderOffset, RunTimeEndian};
use relocate::{RelocateReader, RelocationTable};
use section_reader::SectionReader;

/// What an input says before its commands.
#[derive(Drop)]
pub struct Head<'a> {
    pub kind: ReaderKind,
    pub endian: RunTimeEndian,
    pub table: RelocationTable,
    pub section: &'a [u8],
    // a length of four bytes stands before the section
    ghost short: { length section.now < 2 ^ 32 },
}

impl<'a> Head<'a> {
    ghost use Rattle.transcript.specs.Input.{heading_is};

    /// The section with offsets of some kind; one that can tell its length is never refused.
    pub fn open<O: ReaderOffset>(&self) -> Result<SectionReader<'a, O>, Error>
        ensures { outcome_is section_means result
            ≡ section_opening (nat_lt (length self.now.section.now) O.limit) 0 self.now.section.now
            (is_big self.now.endian) }
    {
        SectionReader::new(self.section, 0, self.endian)
    }

    /// A reader of the section, relocated by the records.
    pub fn relocated<R: Reader>(&self, section: R) -> RelocateReader<R, &RelocationTable>
        ensures { ⟦<RelocateReader<R, &'a RelocationTable> as Reader>⟧.means result
            ≡ layer R.Offset.limit (heading_is self.now).policy (R.means section).id
            (R.means section) }
    {
        RelocateReader::new(section, &self.table)
    }
}

// What one relocation, or a pair of them, makes of its place: a record of a relocation table.
ghost use Rattle.std.specs.Prelude.{◌≡◌};
ghost use Rattle.elf_relocations.specs.Records.{replacement_at};

use crate::action::{Action, Width};
use crate::error::RelocationError;
use elf::{ElfFile, RelocationEntry, SymbolPlace, SymbolTable};
use relocate::{Record, Relocation, RelocationKind};

/// A record, the section that it names a place of, and how many bytes of its own place it changes.
#[derive(Clone, Copy)]
pub struct Applied {
    pub relocation: Relocation,
    /// The index of the section in which the address lies; none for a number that is no address.
    pub section: Option<u32>,
    pub width: Width,
}

impl Record for Applied {
    ghost relocation = { λ a. a.relocation };

    fn relocation(&self) -> Relocation {
        self.relocation
    }
}

/// An entry that adds an address, and waits for the next one to subtract another.
#[derive(Clone, Copy)]
pub struct Waiting {
    pub entry: RelocationEntry,
    pub width: Width,
}

// the address of a symbol, and the section in which it lies
#[derive(Clone, Copy)]
struct Target {
    address: u64,
    section: Option<u32>,
}

/// What the entries of one relocation section are read by.
#[derive(Clone, Copy)]
pub struct Source<'a> {
    pub file: ElfFile<'a>,
    /// The bytes of the section that they are for.
    pub bytes: &'a [u8],
    pub symbols: SymbolTable<'a>,
}

impl Source<'_> {
    ghost use Rattle.elf_relocations.specs.Records.{target_of, standing_number, action_or, address_record, pair_record};
    ghost use Rattle.elf_relocations.specs.Links.{source_is};

    // the address of an entry's symbol plus the addend
    fn target(&self, entry: &RelocationEntry) -> Result<Target, RelocationError>
        ensures { result ≡ target_of (source_is self.now) entry.now }
    {
        let symbol = self.symbols.symbol(entry.symbol)?;
        let value = symbol.value.wrapping_add(entry.addend.unwrap_or(0));
        match symbol.place {
            SymbolPlace::Section(index) => {
                let section = self.file.section(index as u64)?;
                Ok(Target {
                    address: value.wrapping_add(section.address),
                    section: Some(index),
                })
            }
            SymbolPlace::Absolute => Ok(Target {
                address: value,
                section: None,
            }),
            SymbolPlace::Undefined | SymbolPlace::Common | SymbolPlace::Reserved(_) => {
                Err(RelocationError::SymbolWithoutAddress {
                    symbol: entry.symbol,
                    offset: entry.offset,
                })
            }
        }
    }

    // the number that stands at a place of the section
    fn standing_number(&self, offset: u64, width: Width) -> Result<u64, RelocationError>
        ensures { result ≡ standing_number (source_is self.now) offset width }
    {
        let number = self.file.uint_in(self.bytes, offset, width.bytes());
        number.ok_or(RelocationError::OutsideSection(offset))
    }

    /// What an entry does; a machine or a kind that is not known is refused.
    pub fn action(&self, entry: &RelocationEntry) -> Result<Action, RelocationError>
        ensures { result ≡ action_or (source_is self.now) entry.now }
    {
        let unknown = RelocationError::UnknownMachine(self.file.machine_number());
        let machine = self.file.machine().ok_or(unknown)?;
        Action::of(machine, entry.kind).ok_or(RelocationError::UnsupportedRelocation {
            machine,
            kind: entry.kind,
            offset: entry.offset,
        })
    }

    /// The record of an address; where the entry has no addend, it stands at the place.
    pub fn address(&self, entry: &RelocationEntry, width: Width) -> Result<Applied, RelocationError>
        ensures { result ≡ address_record (source_is self.now) entry.now width }
    {
        let target = self.target(entry)?;
        let standing = self.standing_number(entry.offset, width)?;
        let address = match entry.addend {
            Some(_) => target.address,
            None => target.address.wrapping_add(standing),
        };
        Ok(record_at(entry.offset, width, address, target.section))
    }

    /// The record of a distance, from the address of the second entry to that of the first, added
    /// to what stands at their place.
    pub fn pair(&self, add: &Waiting, sub: &RelocationEntry) -> Result<Applied, RelocationError>
        ensures { result ≡ pair_record (source_is self.now) add.now sub.now }
    {
        let offset = add.entry.offset;
        if sub.offset != offset || self.action(sub)? != Action::Sub(add.width) {
            return Err(RelocationError::AddWithoutSub(offset));
        }
        let end = self.target(&add.entry)?;
        let start = self.target(sub)?;
        if end.section != start.section {
            return Err(RelocationError::DifferentSections(offset));
        }
        let standing = self.standing_number(offset, add.width)?;
        let distance = end.address.wrapping_sub(start.address);
        Ok(record_at(
            offset,
            add.width,
            distance.wrapping_add(standing),
            end.section,
        ))
    }
}

// the record that puts the low bytes of a number in a place
fn record_at(offset: u64, width: Width, number: u64, section: Option<u32>) -> Applied
    ensures { result ≡ replacement_at offset width number section }
{
    Applied {
        relocation: Relocation {
            offset,
            kind: RelocationKind::Replace,
            amount: width.wrap(number),
        },
        section,
        width,
    }
}

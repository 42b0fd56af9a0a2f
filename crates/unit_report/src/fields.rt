// The fields of a section, which are the numbers that are read of it, and the check of relocations.
ghost use Rattle.std.specs.Prelude.{◌≡◌};
ghost use Rattle.aranges.specs.Answers.{items_in};
ghost use Rattle.unit_report.specs.Fields.{fields_check};
ghost use Rattle.unit_report.specs.ImageLinks.{Answered};

use crate::refusal::Refusal;
use aranges::{Answer, ArangeHeader, DebugAranges, Visitor};
use elf_relocations::Applied;
use readers::{AddressReader, DebugArangesOffset, Error, Reader, ReaderOffset};
use std::alloc::{AllocError, Global};
use std::collections::BTreeSet;
use std::ops::ControlFlow;

/// Refuses the first record that is of no field of its width. None is refused at or behind a header that
/// can't be read.
pub fn check_records<R: AddressReader>(
    heap: Global,
    section: &DebugAranges<R>,
    records: &[Applied],
) -> Result<(), Refusal>
    ensures { Answered (λ x. x) result
        (fields_check (items_in R.Offset.limit (R.means section.now.section)) records.now) }
{
    // a file that is linked has none, and may have many fields
    if records.is_empty() {
        return Ok(());
    }
    let fields = Fields::of(heap, section)?;
    match fields.first_unread(records) {
        Some(record) => Err(Refusal::UnreadRelocation(record.relocation.offset)),
        None => Ok(()),
    }
}

// a number that is read: the place of its first byte, and how many bytes it has
#[derive(Clone, Copy, PartialEq, Eq, PartialOrd, Ord)]
struct Field {
    place: u64,
    size: u8,
}

#[derive(Drop)]
struct Fields {
    known: BTreeSet<Field>,
    // the place of a header that can't be read, behind which nothing is
    end: Option<u64>,
}

impl Fields {
    ghost use Rattle.std.specs.Prelude.{◌||◌, not, option_map, find, IfOk, OnOk};
    ghost use Rattle.std.specs.List.{list_any};
    ghost use Rattle.aranges.specs.Links.{header_is};
    ghost use Rattle.unit_report.specs.Fields.{field, tuple_fields, set_fields, is_of, is_read};
    ghost use Rattle.unit_report.specs.FieldLinks.{is_known};

    fn of<R: AddressReader>(heap: Global, section: &DebugAranges<R>) -> Result<Fields, AllocError>
        ensures { IfOk result (λ f.
            is_known f ≡ is_read (items_in R.Offset.limit (R.means section.now.section))) }
    {
        let mut fields = Fields {
            known: BTreeSet::new(heap),
            end: None,
        };
        match section.visit(&mut fields) {
            ControlFlow::Continue(()) => Ok(fields),
            ControlFlow::Break(()) => Err(AllocError),
        }
    }

    // the info offset of a set, and its tuples
    fn add_set<R: AddressReader>(&mut self, header: &ArangeHeader<R>) -> Result<(), AllocError>
        ensures { OnOk result ((r : _) → is_known self.new r
            ≡ (is_known self.old r
            || list_any (is_of r) (set_fields (header_is R.means R.Offset.number header.now)))) }
    {
        let encoding = header.encoding();
        let length_size = encoding.format.initial_length_size() as u64;
        let start = header.offset().0.wrapping_add(length_size);
        // behind the version
        self.add(start.wrapping_add(2), encoding.format.word_size())?;
        let end = start.wrapping_add(header.length().into_u64());
        let first = header.entries().offset_id().0;
        let tuple_size = 2 * encoding.address_size as u64;
        let count = end
            .saturating_sub(first)
            .checked_div(tuple_size)
            .unwrap_or(0);
        self.add_tuples(count, first, encoding.address_size)
    }

    // the begin and the length of each of some tuples from a place on
    fn add_tuples(&mut self, count: u64, start: u64, size: u8) -> Result<(), AllocError>
        ensures { OnOk result ((r : _) → is_known self.new r
            ≡ (is_known self.old r || list_any (is_of r) (tuple_fields count start size))) }
    {
        let mut place = start;
        for _ in 0..count {
            self.add(place, size)?;
            self.add(place.wrapping_add(size as u64), size)?;
            place = place.wrapping_add(2 * size as u64);
        }
        Ok(())
    }

    fn add(&mut self, place: u64, size: u8) -> Result<(), AllocError>
        ensures { OnOk result ((r : _) → is_known self.new r
            ≡ (is_known self.old r || is_of r (field place size))) }
    {
        self.known.insert(Field { place, size })?;
        Ok(())
    }

    fn first_unread<'a>(&self, records: &'a [Applied]) -> Option<&'a Applied>
        ensures { option_map (λ r. r.now) result
            ≡ find (λ r. not (is_known self.now r)) records.now }
    {
        records.iter().find(|record| !self.has(record))
    }

    // whether a record is of a field and of its width, or of none that could be read
    fn has(&self, applied: &Applied) -> bool
        ensures { result ≡ is_known self.now applied.now }
    {
        let place = applied.relocation.offset;
        let size = applied.width.bytes();
        self.end.is_some_and(|end| end <= place) || self.known.contains(&Field { place, size })
    }
}

impl<R: AddressReader> Visitor<R> for Fields {
    ghost use Rattle.unit_report.specs.FieldLinks.{Learns};

    ghost visits = { Learns };

    fn enter(&mut self, header: &ArangeHeader<R>) -> ControlFlow<()> {
        match self.add_set(header) {
            Ok(()) => ControlFlow::Continue(()),
            Err(_) => ControlFlow::Break(()),
        }
    }

    fn answer(&mut self, _header: &ArangeHeader<R>, _answer: Answer) -> ControlFlow<()> {
        ControlFlow::Continue(())
    }

    fn spoilt(&mut self, offset: DebugArangesOffset<u64>, _error: Error) -> ControlFlow<()> {
        let place = self.end.map_or(offset.0, |end| end.min(offset.0));
        self.end = Some(place);
        ControlFlow::Continue(())
    }
}

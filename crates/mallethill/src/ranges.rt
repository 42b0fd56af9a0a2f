// The ranges of a set.
ghost use Rattle.std.specs.Prelude.{◌≡◌};
ghost use Rattle.readers.specs.Links.{outcome_is};
ghost use Rattle.aranges.specs.Answers.{answers_on};
ghost use Rattle.aranges.specs.Links.{header_is};
ghost use Rattle.mallethill.specs.Told.{returned_fault, answer_or, buffer_with, outcome_map};
ghost use Rattle.mallethill.specs.Ranges.{ranges_of, ranges_read, set_at};

use crate::fault::{Fault, settle};
use crate::header::open_set;
use aranges::{Answer, ArangeHeader, Visitor};
use readers::{AddressReader, DebugArangesOffset, Error};
use std::ops::ControlFlow;

/// The addresses from `begin` on, up to `end` and without it.
#[repr(C)]
#[derive(Clone, Copy)]
pub struct AddressRange {
    pub begin: u64,
    pub end: u64,
}

/// How many ranges a set has, how many faulty tuples were passed, the set's unit, and the offset behind the set.
#[repr(C)]
#[derive(Clone, Copy)]
pub struct RangesRead {
    pub count: u64,
    pub passed: u64,
    pub debug_info_offset: u64,
    pub next: u64,
}

// Writes the ranges that it is shown while there is room, and counts them all, and the faulty tuples.
#[derive(Drop)]
struct RangeWriter<'a> {
    ranges: &'a mut [AddressRange],
    count: usize,
    passed: u64,
}

impl<R: AddressReader> Visitor<R> for RangeWriter<'_> {
    ghost use Rattle.mallethill.specs.Writing.{Writes};

    ghost visits = { Writes };

    #[inline(always)]
    fn enter(&mut self, _header: &ArangeHeader<R>) -> ControlFlow<()> {
        ControlFlow::Continue(())
    }

    // each range and each fault took a byte, so their numbers are ones of u64
    #[inline(always)]
    fn answer(&mut self, _header: &ArangeHeader<R>, answer: Answer) -> ControlFlow<()> {
        match answer.outcome {
            Ok(entry) => {
                let range = entry.range();
                if self.count < self.ranges.len() {
                    self.ranges[self.count] = AddressRange {
                        begin: range.begin,
                        end: range.end,
                    };
                }
                self.count = self.count.saturating_add(1);
            }
            Err(_) => self.passed = self.passed.saturating_add(1),
        }
        ControlFlow::Continue(())
    }

    #[inline(always)]
    fn spoilt(&mut self, _offset: DebugArangesOffset<u64>, _error: Error) -> ControlFlow<()> {
        ControlFlow::Continue(())
    }
}

/// The ranges of the set at an offset of a section: those for which there is room are written, all are counted.
#[unsafe(no_mangle)]
pub extern "C" fn mallethill_ranges(
    section: &[u8],
    big_endian: bool,
    offset: u64,
    ranges: &mut [AddressRange],
    answer: &mut RangesRead,
) -> Fault
    ensures fault { result ≡ returned_fault (set_at section.now big_endian offset) }
    ensures answer { answer.new
        ≡ answer_or answer.old (outcome_map ranges_read (set_at section.now big_endian offset)) }
    ensures ranges { ranges.new
        ≡ answer_or ranges.old
        (outcome_map (λ h. buffer_with ranges.old (ranges_of h))
        (set_at section.now big_endian offset)) }
{
    settle(read_set(section, big_endian, offset, ranges), answer)
}

impl RangeWriter<'_> {
    ghost use Rattle.mallethill.specs.Writing.{written_by, with_answers};

    // Writes the ranges of a set.
    fn write<R: AddressReader>(&mut self, header: &ArangeHeader<R>)
        ensures name { self.new.ranges.ghost_name ≡ self.old.ranges.ghost_name }
        ensures written { written_by self.new
            ≡ with_answers (written_by self.old)
            (answers_on (header_is R.means R.Offset.number header.now)) }
    {
        header.visit(self);
    }
}

// The same as a result; only where the header is read does it write.
fn read_set(
    section: &[u8],
    big_endian: bool,
    offset: u64,
    ranges: &mut [AddressRange],
) -> Result<RangesRead, Error>
    ensures answer { outcome_is (λ x. x) result
        ≡ outcome_map ranges_read (set_at section.now big_endian offset) }
    ensures ranges { ranges.new
        ≡ answer_or ranges.old
        (outcome_map (λ h. buffer_with ranges.old (ranges_of h))
        (set_at section.now big_endian offset)) }
{
    let set = open_set(section, big_endian, offset)?;
    let mut writer = RangeWriter {
        ranges,
        count: 0,
        passed: 0,
    };
    writer.write(&set.header);
    Ok(RangesRead {
        count: writer.count as u64,
        passed: writer.passed,
        debug_info_offset: set.fields.debug_info_offset,
        next: set.fields.next,
    })
}

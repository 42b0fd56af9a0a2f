// What a section answers, shown to a visitor.
ghost use Rattle.std.specs.Prelude.{◌≡◌, Bool, ◌+◌, ◌^◌, ◌<◌, ◌≤◌, map, length, IfSome};
ghost use Rattle.readers.specs.Links.{fault_is};
ghost use Rattle.aranges.specs.Sets.{Header};
ghost use Rattle.aranges.specs.Answers.{Item, set, tuple, spoilt, answers_left, answers_on, items_in, Shown};
ghost use Rattle.aranges.specs.Links.{header_is, answer_is, answers_are, is_break};

use crate::aranges::{ArangeEntry, ArangeHeader, DebugAranges, next_outcome};
use readers::{AddressReader, DebugArangesOffset, Error, Reader, ReaderOffset, ReaderOffsetId};
use std::ops::ControlFlow;

/// An answer of `next` on a set, and where its tuple stands.
#[derive(Clone, Copy)]
pub struct Answer {
    /// The tuple's number in its set, counted from 0 with null pairs.
    pub number: u64,
    /// The id of the tuple's first byte.
    pub id: ReaderOffsetId,
    /// The range, or the fault that spoils the tuple.
    pub outcome: Result<ArangeEntry, Error>,
}

/// What goes over the sets of a section and their answers, and may stop at any.
pub trait Visitor<R: AddressReader> {
    // relates the visitor before an item, the item, whether it stops there, and the visitor after it
    ghost visits: { Self → Item → Bool → Self → Type 0 };

    /// At a set, before its answers.
    fn enter(&mut self, header: &ArangeHeader<R>) -> ControlFlow<()>
        ensures { visits self.old (set (header_is R.means R.Offset.number header.now))
            (is_break result) self.new };

    /// At an answer of `next` on a set.
    fn answer(&mut self, header: &ArangeHeader<R>, answer: Answer) -> ControlFlow<()>
        ensures { visits self.old
            (tuple (answer_is (header_is R.means R.Offset.number header.now) answer))
            (is_break result) self.new };

    /// At a header that can't be read, behind which nothing is.
    fn spoilt(&mut self, offset: DebugArangesOffset<u64>, error: Error) -> ControlFlow<()>
        ensures { visits self.old (spoilt offset.0 (fault_is error)) (is_break result) self.new };
}

impl<R: AddressReader> DebugAranges<R> {
    /// Shows a visitor each set and its answers, and the fault of a header, which ends the section.
    #[inline(always)]
    pub fn visit<V: Visitor<R>>(&self, visitor: &mut V) -> ControlFlow<()>
        ensures { Shown V.visits visitor.old (items_in R.Offset.limit (R.means self.now.section))
            (is_break result) visitor.new }
    {
        let mut headers = self.headers();
        loop {
            let offset = headers.offset();
            match headers.next() {
                Ok(Some(header)) => {
                    visitor.enter(&header)?;
                    header.visit(visitor)?;
                }
                Ok(None) => return ControlFlow::Continue(()),
                Err(error) => return visitor.spoilt(offset, error),
            }
        }
    }
}

impl<R: AddressReader> ArangeHeader<R> {
    /// Shows a visitor what `next` answers on the set.
    pub fn visit<V: Visitor<R>>(&self, visitor: &mut V) -> ControlFlow<()>
        ensures { Shown V.visits visitor.old
            (map tuple (answers_on (header_is R.means R.Offset.number self.now)))
            (is_break result) visitor.new }
    {
        // for speed, a loop of its own for each of the usual sizes
        match self.encoding().address_size {
            4 => visit_sized(self, 4, visitor),
            8 => visit_sized(self, 8, visitor),
            address_size => visit_sized(self, address_size, visitor),
        }
    }
}

// The same, where the set's addresses have this size.
#[inline(always)]
fn visit_sized<R: AddressReader, V: Visitor<R>>(
    header: &ArangeHeader<R>,
    address_size: u8,
    visitor: &mut V,
) -> ControlFlow<()>
    requires { address_size ≡ header.now.encoding.address_size }
    ensures { Shown V.visits visitor.old
        (map tuple (answers_on (header_is R.means R.Offset.number header.now)))
        (is_break result) visitor.new }
{
    let mut input = header.entries.clone();
    // each tuple takes bytes, so their number stays within the reader's length
    let total = input.len().into_u64();
    let mut number = 0;
    prove!(number <= total);
    while let Some(answer) = next_answer(&mut input, address_size, &mut number) {
        visitor.answer(header, answer)?;
    }
    ControlFlow::Continue(())
}

// The next answer, where the next tuple has this number. It leaves the number of the tuple behind.
#[inline(always)]
fn next_answer<R: AddressReader>(
    input: &mut R,
    address_size: u8,
    number: &mut u64,
) -> Option<Answer>
    requires { number.old + length (R.means input.old).rest < 2 ^ 64 }
    ensures answers { (h : Header)
        → answers_left h number.old (record { size = address_size; tuples = R.means input.old })
        ≡ answers_are h result
        (answers_left h number.new (record { size = address_size; tuples = R.means input.new })) }
    ensures bound { IfSome result (λ _. number.new + length (R.means input.new).rest
        ≤ number.old + length (R.means input.old).rest) }
    ensures shorter { IfSome result (λ _.
        length (R.means input.new).rest < length (R.means input.old).rest) }
{
    loop {
        let id = input.offset_id();
        let outcome = next_outcome(input, address_size)?;
        let answer_number = *number;
        *number += 1;
        if let Some(outcome) = outcome.transpose() {
            return Some(Answer {
                number: answer_number,
                id,
                outcome,
            });
        }
    }
}

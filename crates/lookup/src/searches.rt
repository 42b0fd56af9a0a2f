// Searches for many addresses at once.
ghost use Rattle.std.specs.Prelude.{◌≡◌, false};
ghost use Rattle.readers.specs.Links.{fault_is};
ghost use Rattle.aranges.specs.Answers.{tuple, spoilt};
ghost use Rattle.aranges.specs.Links.{header_is, answer_is};
ghost use Rattle.lookup.specs.Links.{WentEach};

use crate::search::Search;
use aranges::{Answer, ArangeHeader, Visitor};
use readers::{AddressReader, DebugArangesOffset, Error, ReaderOffset};
use std::ops::ControlFlow;

// A search for each of some addresses.
#[derive(Drop)]
pub(crate) struct Searches<O>(pub(crate) Vec<Search<O>>);

impl<R: AddressReader> Visitor<R> for Searches<R::Offset> {
    ghost visits = { λ s x b t. WentEach R.Offset.number s.0.items x b t.0.items };

    #[inline(always)]
    fn enter(&mut self, _header: &ArangeHeader<R>) -> ControlFlow<()> {
        ControlFlow::Continue(())
    }

    #[inline(always)]
    fn answer(&mut self, header: &ArangeHeader<R>, answer: Answer) -> ControlFlow<()> {
        answer_each(&mut self.0, header, answer);
        ControlFlow::Continue(())
    }

    #[inline(always)]
    fn spoilt(&mut self, offset: DebugArangesOffset<u64>, error: Error) -> ControlFlow<()> {
        spoil_each::<R>(&mut self.0, offset, error);
        ControlFlow::Continue(())
    }
}

// Shows an answer to each search that is open.
#[inline(always)]
fn answer_each<R: AddressReader>(
    searches: &mut [Search<R::Offset>],
    header: &ArangeHeader<R>,
    answer: Answer,
)
    ensures { WentEach R.Offset.number searches.old
        (tuple (answer_is (header_is R.means R.Offset.number header.now) answer)) false
        searches.new }
{
    for search in searches.iter_mut() {
        if search.is_open() {
            search.answer(header, answer);
        }
    }
}

// Shows a header's fault to each search that is open.
#[inline(always)]
fn spoil_each<R: AddressReader>(
    searches: &mut [Search<R::Offset>],
    offset: DebugArangesOffset<u64>,
    error: Error,
)
    ensures { WentEach R.Offset.number searches.old (spoilt offset.0 (fault_is error)) false
        searches.new }
{
    for search in searches.iter_mut() {
        if search.is_open() {
            Visitor::<R>::spoilt(search, offset, error);
        }
    }
}

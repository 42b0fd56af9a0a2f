// A search for the first range that holds an address, answer by answer.
ghost use Rattle.std.specs.Prelude.{◌≡◌};
ghost use Rattle.lookup.specs.Searches.{is_open};
ghost use Rattle.lookup.specs.Links.{so_far, Sought, new_search, lookup_of};

use aranges::{Answer, ArangeEntry, ArangeHeader, Visitor};
use readers::{
    AddressReader, DebugArangesOffset, DebugInfoOffset, Error, ReaderOffset, ReaderOffsetId,
};
use std::ops::ControlFlow;

/// A tuple whose range holds an address, with its unit and the set in which it stands.
#[derive(Clone, Copy)]
pub struct Found<O> {
    pub entry: ArangeEntry,
    pub debug_info_offset: DebugInfoOffset<O>,
    pub set: DebugArangesOffset<u64>,
    /// The id of the tuple's first byte.
    pub id: ReaderOffsetId,
}

/// What a lookup came to, with the number of faulty tuples that it passed.
#[derive(Clone, Copy)]
pub struct Lookup<O> {
    pub found: Option<Found<O>>,
    pub passed: u64,
}

// A lookup under way: until it has found a range, or was shown a header's fault.
#[derive(Clone, Copy)]
pub(crate) struct Search<O> {
    address: u64,
    passed: u64,
    found: Result<Option<Found<O>>, Error>,
}

impl<O: ReaderOffset> Search<O> {
    pub(crate) fn new(address: u64) -> Search<O>
        ensures { result ≡ new_search address }
    {
        Search {
            address,
            passed: 0,
            found: Ok(None),
        }
    }

    // What it came to.
    pub(crate) fn finish(self) -> Result<Lookup<O>, Error>
        ensures { result ≡ lookup_of self }
    {
        Ok(Lookup {
            found: self.found?,
            passed: self.passed,
        })
    }

    #[inline(always)]
    pub(crate) fn is_open(&self) -> bool
        ensures { result ≡ is_open (so_far O.number self.now) }
    {
        matches!(self.found, Ok(None))
    }
}

impl<R: AddressReader> Visitor<R> for Search<R::Offset> {
    ghost visits = { Sought R.Offset.number };

    #[inline(always)]
    fn enter(&mut self, _header: &ArangeHeader<R>) -> ControlFlow<()> {
        ControlFlow::Continue(())
    }

    #[inline(always)]
    fn answer(&mut self, header: &ArangeHeader<R>, answer: Answer) -> ControlFlow<()> {
        match answer.outcome {
            Ok(entry) => {
                let range = entry.range();
                if range.begin <= self.address && self.address < range.end {
                    self.found = Ok(Some(Found {
                        entry,
                        debug_info_offset: header.debug_info_offset(),
                        set: header.offset(),
                        id: answer.id,
                    }));
                    return ControlFlow::Break(());
                }
            }
            // each fault took a byte, so their number is one of u64
            Err(_) => self.passed = self.passed.wrapping_add(1),
        }
        ControlFlow::Continue(())
    }

    #[inline(always)]
    fn spoilt(&mut self, _offset: DebugArangesOffset<u64>, error: Error) -> ControlFlow<()> {
        self.found = Err(error);
        ControlFlow::Break(())
    }
}

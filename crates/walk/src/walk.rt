// The open walk: the headers of a section, and the tuples of one set.
ghost use Rattle.std.specs.Prelude.{◌≡◌, ℕ, option_map};
ghost use Rattle.readers.specs.Links.{outcome_is};
ghost use Rattle.aranges.specs.Tuples.{raw, converted};
ghost use Rattle.aranges.specs.Links.{header_is, told_is};
ghost use Rattle.lookup.specs.Lookups.{look_in};
ghost use Rattle.lookup.specs.Links.{looked_is};
ghost use Rattle.walk.specs.Events.{header as headed, entries as entered, told};
ghost use Rattle.walk.specs.State.{open_walk, turn_header, turn_entries, turn_next};
ghost use Rattle.walk.specs.Links.{walk_is, Took};

use aranges::{ArangeEntry, ArangeEntryIter, ArangeHeader, ArangeHeaderIter, DebugAranges};
use lookup::{Lookup, lookup_address};
use readers::{AddressReader, Error, Reader};

/// A walk over the sets of a section and the tuples of one set.
#[derive(Drop)]
pub struct Walk<R: AddressReader> {
    section: DebugAranges<R>,
    headers: ArangeHeaderIter<R>,
    // the header that was answered last
    latest: Option<ArangeHeader<R>>,
    tuples: Option<ArangeEntryIter<R>>,
}

impl<R: AddressReader> Walk<R> {
    /// Opens a walk at the first set of a section.
    pub fn new(section: R) -> Walk<R>
        ensures { walk_is R.means R.Offset.number result ≡ open_walk (R.means section) }
    {
        let section = DebugAranges::new(section);
        let headers = section.headers();
        Walk {
            section,
            headers,
            latest: None,
            tuples: None,
        }
    }

    /// The next header, which is the latest then. A fault leaves no more headers.
    pub fn next_header(&mut self) -> Result<Option<ArangeHeader<R>>, Error>
        ensures { Took (headed (outcome_is (option_map (header_is R.means R.Offset.number)) result))
            (walk_is R.means R.Offset.number self.new)
            (turn_header R.Offset.limit (walk_is R.means R.Offset.number self.old)) }
    {
        let next = self.headers.next()?;
        if let Some(header) = &next {
            self.latest = Some(header.clone());
        }
        Ok(next)
    }

    /// Goes to the first tuple of the latest header's set.
    pub fn entries(&mut self) -> Result<(), Error>
        ensures { Took (entered (outcome_is (λ x. x) result))
            (walk_is R.means R.Offset.number self.new)
            (turn_entries (walk_is R.means R.Offset.number self.old)) }
    {
        let header = self.latest.as_ref().ok_or(Error::NothingOpen)?;
        self.tuples = Some(header.entries());
        Ok(())
    }

    /// The next range of the set that `entries` went to.
    pub fn next(&mut self) -> Result<Option<ArangeEntry>, Error>
        ensures { Took (told converted (told_is result)) (walk_is R.means R.Offset.number self.new)
            (turn_next converted (walk_is R.means R.Offset.number self.old)) }
    {
        self.tuples.as_mut().ok_or(Error::NothingOpen)?.next()
    }

    /// The next tuple of that set as it stands.
    pub fn next_raw(&mut self) -> Result<Option<ArangeEntry>, Error>
        ensures { Took (told raw (told_is result)) (walk_is R.means R.Offset.number self.new)
            (turn_next raw (walk_is R.means R.Offset.number self.old)) }
    {
        self.tuples.as_mut().ok_or(Error::NothingOpen)?.next_raw()
    }

    /// Looks an address up in the whole section, wherever the walk stands.
    pub fn lookup(&self, address: u64) -> Result<Lookup<R::Offset>, Error>
        ensures { looked_is R.Offset.number result
            ≡ look_in R.Offset.limit address (walk_is R.means R.Offset.number self.now).whole }
    {
        lookup_address(&self.section, address)
    }
}

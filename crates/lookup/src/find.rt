// The lookup of an address, and of many at once.
ghost use Rattle.std.specs.Prelude.{◌≡◌, Bool, map, length, IfOk};
ghost use Rattle.aranges.specs.Answers.{Shown, items_in};
ghost use Rattle.lookup.specs.Lookups.{look_in};
ghost use Rattle.lookup.specs.Links.{looked_is, new_search, lookup_of};

use crate::search::{Lookup, Search};
use crate::searches::Searches;
use aranges::{DebugAranges, Visitor};
use readers::{AddressReader, Error, Reader, ReaderOffset};
use std::alloc::{AllocError, Global};

/// The first range of a section that holds an address; a header's fault ends the search.
pub fn lookup_address<R: AddressReader>(
    section: &DebugAranges<R>,
    address: u64,
) -> Result<Lookup<R::Offset>, Error>
    ensures { looked_is R.Offset.number result
        ≡ look_in R.Offset.limit address (R.means section.now.section) }
{
    let mut search = Search::new(address);
    visit(section, &mut search);
    search.finish()
}

// Shows a visitor what a section answers, and tells how many bytes it has: there are no more faults.
#[inline(always)]
fn visit<R: AddressReader, V: Visitor<R>>(section: &DebugAranges<R>, visitor: &mut V) -> u64
    ensures shown { (b : Bool) × Shown V.visits visitor.old
        (items_in R.Offset.limit (R.means section.now.section)) b visitor.new }
    ensures length { result ≡ length (R.means section.now.section).rest }
{
    section.visit(visitor);
    section.len().into_u64()
}

/// What a lookup of each address gives, in one pass over the section.
pub fn lookup_addresses<R: AddressReader>(
    heap: Global,
    section: &DebugAranges<R>,
    addresses: &[u64],
) -> Result<Vec<Result<Lookup<R::Offset>, Error>>, AllocError>
    ensures { IfOk result (λ lookups. map (looked_is R.Offset.number) lookups.items
        ≡ map (λ a. look_in R.Offset.limit a (R.means section.now.section)) addresses.now) }
{
    let mut searches = Searches(open_searches(heap, addresses)?);
    visit(section, &mut searches);
    finish_searches(heap, &searches.0)
}

fn open_searches<O: ReaderOffset>(
    heap: Global,
    addresses: &[u64],
) -> Result<Vec<Search<O>>, AllocError>
    ensures { IfOk result (λ searches. searches.items ≡ map new_search addresses.now) }
{
    addresses.iter().map(|a| Search::new(*a)).collect(heap)
}

fn finish_searches<O: ReaderOffset>(
    heap: Global,
    searches: &[Search<O>],
) -> Result<Vec<Result<Lookup<O>, Error>>, AllocError>
    ensures { IfOk result (λ lookups. lookups.items ≡ map lookup_of searches.now) }
{
    searches.iter().map(|search| search.finish()).collect(heap)
}

// The calls of an open walk as values, and the run of a list of them.
ghost use Rattle.std.specs.Prelude.{◌≡◌, ℕ, map, IfOk};
ghost use Rattle.walk.specs.Links.{walk_is, Took};
ghost use Rattle.histories.specs.Law.{call};
ghost use Rattle.histories.specs.Owed.{Owed};
ghost use Rattle.histories.specs.Turns.{step};
ghost use Rattle.histories.specs.Links.{call_is, event_is};

use aranges::{ArangeEntry, ArangeHeader};
use lookup::Lookup;
use readers::{AddressReader, Error, Reader};
use std::alloc::{AllocError, Global};
use walk::Walk;

/// A call of an open walk.
#[derive(Clone, Copy, PartialEq, Eq, Debug)]
pub enum Call {
    NextHeader,
    Entries,
    Next,
    NextRaw,
    Lookup(u64),
}

/// What a call answered; of a lookup, also its address.
#[derive(Drop)]
pub enum Answer<R: AddressReader> {
    Header(Result<Option<ArangeHeader<R>>, Error>),
    Entries(Result<(), Error>),
    Next(Result<Option<ArangeEntry>, Error>),
    NextRaw(Result<Option<ArangeEntry>, Error>),
    Lookup(u64, Result<Lookup<R::Offset>, Error>),
}

/// The answers of a fresh walk over a section to a list of calls, one after another.
pub fn answer_calls<R: AddressReader>(
    heap: Global,
    section: R,
    calls: &[Call],
) -> Result<Vec<Answer<R>>, AllocError>
    ensures asked { IfOk result (λ v. map call (map (event_is R.means R.Offset.number) v.items)
        ≡ map call_is calls.now) }
    ensures owed { IfOk result (λ v. Owed R.Offset.limit (R.means section)
        (map (event_is R.means R.Offset.number) v.items)) }
{
    let mut walk = Walk::new(section);
    let mut answers = Vec::new(heap);
    for call in calls {
        answers.push(answer_call(&mut walk, *call))?;
    }
    Ok(answers)
}

// One call of the walk, and its answer.
fn answer_call<R: AddressReader>(walk: &mut Walk<R>, call: Call) -> Answer<R>
    ensures { Took (event_is R.means R.Offset.number result)
        (walk_is R.means R.Offset.number walk.new)
        (step R.Offset.limit (call_is call) (walk_is R.means R.Offset.number walk.old)) }
{
    match call {
        Call::NextHeader => Answer::Header(walk.next_header()),
        Call::Entries => Answer::Entries(walk.entries()),
        Call::Next => Answer::Next(walk.next()),
        Call::NextRaw => Answer::NextRaw(walk.next_raw()),
        Call::Lookup(address) => Answer::Lookup(address, walk.lookup(address)),
    }
}

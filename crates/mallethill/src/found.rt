// The range that holds an address.
ghost use Rattle.std.specs.Prelude.{◌≡◌};
ghost use Rattle.readers.specs.Links.{outcome_is};
ghost use Rattle.mallethill.specs.Told.{returned_fault, answer_or};
ghost use Rattle.mallethill.specs.Lookups.{found_of, lookup_answer};
ghost use Rattle.readers.specs.Outcome.{answer as answered};
ghost use Rattle.lookup.specs.Links.{looked_is};

use crate::fault::{Fault, settle};
use crate::section::open;
use aranges::DebugAranges;
use lookup::{Lookup, lookup_address};
use readers::Error;

/// What a lookup came to: the range that holds the address with its unit and its set, if one does; and the number of
/// faulty tuples that were passed. Where none does, the other fields are 0.
#[repr(C)]
#[derive(Clone, Copy)]
pub struct FoundRange {
    pub debug_info_offset: u64,
    pub set: u64,
    pub begin: u64,
    pub end: u64,
    pub passed: u64,
    pub found: bool,
}

/// The first range of a section that holds an address.
#[unsafe(no_mangle)]
pub extern "C" fn mallethill_lookup(
    section: &[u8],
    big_endian: bool,
    address: u64,
    answer: &mut FoundRange,
) -> Fault
    ensures fault { result ≡ returned_fault (lookup_answer section.now big_endian address) }
    ensures answer { answer.new
        ≡ answer_or answer.old (lookup_answer section.now big_endian address) }
{
    settle(look_up(section, big_endian, address), answer)
}

// The same as a result.
fn look_up(section: &[u8], big_endian: bool, address: u64) -> Result<FoundRange, Error>
    ensures { outcome_is (λ x. x) result ≡ lookup_answer section.now big_endian address }
{
    let section = DebugAranges::new(open(section, big_endian));
    let lookup = lookup_address(&section, address)?;
    Ok(found_range(lookup))
}

// What C is told of a lookup that was not refused.
fn found_range(lookup: Lookup<usize>) -> FoundRange
    ensures { answered result ≡ found_of (looked_is (λ x. x) (Ok lookup)) }
{
    match lookup.found {
        Some(found) => {
            let range = found.entry.range();
            FoundRange {
                debug_info_offset: found.debug_info_offset.0 as u64,
                set: found.set.0,
                begin: range.begin,
                end: range.end,
                passed: lookup.passed,
                found: true,
            }
        }
        None => FoundRange {
            debug_info_offset: 0,
            set: 0,
            begin: 0,
            end: 0,
            passed: lookup.passed,
            found: false,
        },
    }
}

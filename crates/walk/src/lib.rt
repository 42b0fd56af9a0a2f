// The open walk over a section: next header, entries, next, next raw, and the lookup of an address.
#![tactic(auto)]

mod walk;

pub use walk::Walk;

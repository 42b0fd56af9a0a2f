// The lookup of addresses: for each the first range of a section that holds it.
#![tactic(auto)]

mod find;
mod search;
mod searches;

pub use find::{lookup_address, lookup_addresses};
pub use search::{Found, Lookup};

// The C interface: lookup, headers, ranges and LEB128 numbers, on sections that lie in the caller's memory.
#![tactic(auto)]

mod fault;
mod found;
mod header;
mod ranges;
mod section;
mod uleb128;

pub use fault::Fault;
pub use found::FoundRange;
pub use header::{HeadersRead, SetHeader};
pub use ranges::{AddressRange, RangesRead};
pub use uleb128::NumbersRead;

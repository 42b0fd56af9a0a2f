// Relocation: what becomes of the addresses and offsets that are read from an unlinked section.
#![tactic(auto)]

mod no_relocation;
mod record;
mod relocate;
mod table;

pub use no_relocation::NoRelocation;
pub use record::{Record, Relocation, RelocationKind};
pub use relocate::{Relocate, RelocateReader};
pub use table::RelocationTable;

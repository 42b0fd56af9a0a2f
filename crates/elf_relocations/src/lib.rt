// From the relocation sections of an object file to the records of a relocation table.
#![tactic(auto)]

mod action;
mod error;
mod record;
mod table;

pub use action::Width;
pub use error::RelocationError;
pub use record::Applied;
pub use table::relocations_for;

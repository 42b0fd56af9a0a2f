// Address range sections: the headers of sets, and the tuples of a set.
#![tactic(auto)]

mod answers;
mod aranges;
mod rnglists;

pub use answers::{Answer, Visitor};
pub use aranges::{ArangeEntry, ArangeEntryIter, ArangeHeader, ArangeHeaderIter, DebugAranges};
pub use rnglists::Range;

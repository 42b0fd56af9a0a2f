// What a reader of a section is: faults, byte order, formats, offsets, and the two reader traits.
#![tactic(auto)]

mod common;
mod endianity;
mod error;
mod reader;

pub use common::{DebugArangesOffset, DebugInfoOffset, Encoding, Format};
pub use endianity::RunTimeEndian;
pub use error::Error;
pub use reader::{AddressReader, Reader, ReaderOffset, ReaderOffsetId};

// Readers of a section in memory: one, written for every width of offset, and the two that it is used as.
#![tactic(auto)]

mod endian_reader;
mod endian_slice;
mod section_reader;

pub use endian_reader::EndianReader;
pub use endian_slice::EndianSlice;
pub use section_reader::SectionReader;

// The reader with offsets of usize.

use crate::section_reader::SectionReader;

/// A reader of any section that lies in memory.
pub type EndianSlice<'a> = SectionReader<'a, usize>;

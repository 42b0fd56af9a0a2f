// The reader with offsets of u32.

use crate::section_reader::SectionReader;

/// A reader of a section of fewer than 2^32 bytes.
pub type EndianReader<'a> = SectionReader<'a, u32>;

// The caller's section as a reader.
ghost use Rattle.std.specs.Prelude.{◌≡◌};
ghost use Rattle.readers.specs.Reading.{plain_reader};
ghost use Rattle.section_reader.specs.Means.{section_means};

use readers::RunTimeEndian;
use section_reader::EndianSlice;

/// A reader at the first byte of a section, which has the id 0.
pub fn open(section: &[u8], big_endian: bool) -> EndianSlice<'_>
    ensures { section_means result ≡ plain_reader 0 section.now big_endian }
{
    let endian = if big_endian {
        RunTimeEndian::Big
    } else {
        RunTimeEndian::Little
    };
    // no fault can come of it: with ids from 0 on, any slice in memory can be named
    EndianSlice::new(section, 0, endian).unwrap()
}

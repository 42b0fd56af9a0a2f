// Numbers in the bytes of a file: of fixed widths, and words, whose width the file's class tells.
ghost use Rattle.std.specs.Prelude.{◌≡◌, ◌+◌, ◌^◌, ◌<◌, ◌≤◌, length, drop};
ghost use Rattle.readers.specs.Reading.{plain_reader};
ghost use Rattle.readers.specs.Links.{is_big};

use numbers::{read_u16, read_u32, read_u64};
use readers::RunTimeEndian;
use section_reader::EndianSlice;

/// Whether a file's addresses and offsets have 32 or 64 bits.
#[derive(Clone, Copy, PartialEq, Eq, Debug)]
pub enum Class {
    Elf32,
    Elf64,
}

impl Class {
    ghost use Rattle.elf.specs.Links.{class_word};

    /// How many bytes an address or an offset takes.
    pub fn word_size(self) -> usize
        ensures { result ≡ class_word self }
    {
        match self {
            Class::Elf32 => 4,
            Class::Elf64 => 8,
        }
    }
}

/// Bytes with the order and the class of the numbers in them.
#[derive(Clone, Copy)]
pub struct Words<'a> {
    pub bytes: &'a [u8],
    pub endian: RunTimeEndian,
    pub class: Class,
    // so that each place in the bytes is a number of the code
    ghost short: { length bytes.now < 2 ^ 64 },
}

impl<'a> Words<'a> {
    ghost use Rattle.section_reader.specs.Means.{section_means};
    ghost use Rattle.elf.specs.Words.{has_bytes, number_at, word_at, words_by};
    ghost use Rattle.elf.specs.Links.{class_word, words_is};

    /// Bytes with the numbers of a file.
    pub fn new(bytes: &'a [u8], endian: RunTimeEndian, class: Class) -> Words<'a>
        ensures { words_is result ≡ words_by bytes.now (is_big endian) (class_word class) }
    {
        // its length is known to be a number of the code once it is asked
        let _len = bytes.len();
        Words {
            bytes,
            endian,
            class,
        }
    }

    /// Whether as many bytes lie behind a place.
    pub fn has_bytes(&self, at: u64, size: u64) -> bool
        ensures { result ≡ has_bytes (words_is self.now) at size }
    {
        at.checked_add(size)
            .is_some_and(|end| end <= self.bytes.len() as u64)
    }

    /// A reader of the bytes from a place on.
    pub fn reader_at(&self, at: usize) -> EndianSlice<'a>
        ensures { section_means result
            ≡ plain_reader 0 (drop at self.now.bytes.now) (is_big self.now.endian) }
    {
        EndianSlice::new(rest_from(self.bytes, at), 0, self.endian).unwrap()
    }

    /// The number of 2 bytes at a place, and so below of 4, of 8, and of a word.
    pub fn u16_at(&self, at: usize) -> u16
        requires { at + 2 ≤ length self.now.bytes.now }
        ensures { result ≡ number_at (words_is self.now) at 2 }
    {
        read_u16(&mut self.reader_at(at)).unwrap()
    }

    pub fn u32_at(&self, at: usize) -> u32
        requires { at + 4 ≤ length self.now.bytes.now }
        ensures { result ≡ number_at (words_is self.now) at 4 }
    {
        read_u32(&mut self.reader_at(at)).unwrap()
    }

    pub fn u64_at(&self, at: usize) -> u64
        requires { at + 8 ≤ length self.now.bytes.now }
        ensures { result ≡ number_at (words_is self.now) at 8 }
    {
        read_u64(&mut self.reader_at(at)).unwrap()
    }

    pub fn word_at(&self, at: usize) -> u64
        requires { at + class_word self.now.class ≤ length self.now.bytes.now }
        ensures { result ≡ word_at (words_is self.now) at }
    {
        match self.class {
            Class::Elf32 => self.u32_at(at) as u64,
            Class::Elf64 => self.u64_at(at),
        }
    }
}

/// What stands from a place on.
pub fn rest_from(bytes: &[u8], at: usize) -> &[u8]
    ensures { result.now ≡ drop at bytes.now }
{
    bytes.get(at..).unwrap_or(&[])
}

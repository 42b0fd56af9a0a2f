// What the sections of DWARF share: formats, encodings, and offsets into a section.
ghost use Rattle.std.specs.Prelude.{◌≡◌};
ghost use Rattle.readers.specs.Reading.{length_size};
ghost use Rattle.readers.specs.Links.{format_word};

/// Whether the format of a unit is 32- or 64-bit.
#[derive(Clone, Copy, PartialEq, Eq, Debug)]
pub enum Format {
    Dwarf64,
    Dwarf32,
}

impl Format {
    /// How many bytes an initial length takes.
    pub fn initial_length_size(self) -> u8
        ensures { result ≡ length_size (format_word self) }
    {
        match self {
            Format::Dwarf32 => 4,
            Format::Dwarf64 => 12,
        }
    }

    /// How many bytes an offset or a length takes.
    pub fn word_size(self) -> u8
        ensures { result ≡ format_word self }
    {
        match self {
            Format::Dwarf32 => 4,
            Format::Dwarf64 => 8,
        }
    }
}

/// What the numbers of a unit or a set are read by.
#[derive(Clone, Copy)]
pub struct Encoding {
    pub address_size: u8,
    pub format: Format,
    pub version: u16,
}

/// An offset into `.debug_aranges`.
#[derive(Clone, Copy)]
pub struct DebugArangesOffset<T>(pub T);

/// An offset into `.debug_info`.
#[derive(Clone, Copy)]
pub struct DebugInfoOffset<T>(pub T);

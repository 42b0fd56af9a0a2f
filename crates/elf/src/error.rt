// Why an ELF file, or a part of one, can't be read.
ghost use Rattle.std.specs.Prelude.{Some};
ghost use Rattle.elf.specs.Texts.{elf_error_text};

use std::fmt;

/// Why an ELF file, or a part of one, can't be read; sections and symbols go by their indexes.
#[derive(Clone, Copy, PartialEq, Eq, Debug)]
pub enum ElfError {
    /// The file does not begin as an ELF file does.
    NotElf,
    /// A class other than 1 and 2, for 32 and 64 bits.
    UnknownClass(u8),
    /// A byte order other than 1 and 2, for the lowest and the highest byte first.
    UnknownByteOrder(u8),
    /// The file ends within its header.
    HeaderCutOff,
    /// The entries of the section table have another size than the class says.
    SectionEntrySize(u16),
    /// The section table does not lie within the file.
    SectionTableCutOff,
    /// There is no section with the index.
    NoSection(u64),
    /// The file has no names of sections.
    NoSectionNames,
    /// The name of the section does not end within the names.
    NameCutOff(u64),
    /// The section takes no bytes in the file.
    NoBytes(u64),
    /// The bytes of the section do not lie within the file.
    SectionCutOff(u64),
    /// The section is no symbol table.
    NoSymbolTable(u64),
    /// The entries of the symbol table have another size than the class says.
    SymbolEntrySize(u64),
    /// There is no symbol with the index.
    NoSymbol(u64),
    /// The section of the symbol stands in a table that the file has not, or that is too short.
    NoSectionOfSymbol(u64),
    /// The section is no relocation section.
    NoRelocations(u64),
    /// The entries of the relocation section have another size than its kind and the class say.
    RelocationEntrySize(u64),
    /// The relocation section ends within an entry.
    RelocationCutOff(u64),
}

/// Writes one sentence.
impl fmt::Display for ElfError {
    ghost output = { λ error. Some (elf_error_text error) };

    fn fmt<W: fmt::Write>(&self, f: &mut fmt::Formatter<W>) -> fmt::Result {
        match self {
            ElfError::NotElf => write!(f, "this is not an ELF file"),
            ElfError::UnknownClass(class) => {
                write!(f, "the ELF class {class} is unknown: it should be 1 or 2")
            }
            ElfError::UnknownByteOrder(order) => {
                write!(
                    f,
                    "the ELF byte order {order} is unknown: it should be 1 or 2"
                )
            }
            ElfError::HeaderCutOff => write!(f, "the file ends within its ELF header"),
            ElfError::SectionEntrySize(size) => {
                write!(
                    f,
                    "entries of the section table have {size} bytes, which this ELF class has not"
                )
            }
            ElfError::SectionTableCutOff => write!(
                f,
                "the file ends before its section table does"
            ),
            ElfError::NoSection(index) => write!(f, "the file has no section {index}"),
            ElfError::NoSectionNames => write!(f, "the file has no table of section names"),
            ElfError::NameCutOff(index) => write!(f, "the name of section {index} has no end"),
            ElfError::NoBytes(index) => write!(f, "section {index} has no bytes in the file"),
            ElfError::SectionCutOff(index) => write!(
                f,
                "the file ends before section {index} does"
            ),
            ElfError::NoSymbolTable(index) => write!(f, "section {index} is not a symbol table"),
            ElfError::SymbolEntrySize(size) => {
                write!(
                    f,
                    "entries of the symbol table have {size} bytes, which this ELF class has not"
                )
            }
            ElfError::NoSymbol(index) => write!(f, "the file has no symbol {index}"),
            ElfError::NoSectionOfSymbol(index) => {
                write!(f, "the file does not tell the section of symbol {index}")
            }
            ElfError::NoRelocations(index) => {
                write!(f, "section {index} is not a relocation section")
            }
            ElfError::RelocationEntrySize(size) => {
                write!(
                    f,
                    "entries of a relocation section have {size} bytes, which this ELF class has not"
                )
            }
            ElfError::RelocationCutOff(index) => {
                write!(f, "section {index} ends within a relocation entry")
            }
        }
    }
}

impl std::error::Error for ElfError {}

// Reads ELF files: the header, the table of sections, their names and bytes, and symbols.
#![tactic(auto)]

mod error;
mod file;
mod header;
mod machine;
mod relocation;
mod section;
mod sections;
mod symbol;
mod words;

pub use error::ElfError;
pub use file::{ElfFile, FileKind};
pub use machine::Machine;
pub use relocation::{RelocationEntry, Relocations};
pub use section::{Section, SectionKind};
pub use sections::Sections;
pub use symbol::{Symbol, SymbolPlace, SymbolTable};
pub use words::Class;

// The command line, and the lines of addresses that stand for its addresses where it has none.
ghost use Rattle.std.specs.Prelude.{◌≡◌, map, string_bytes};
ghost use Rattle.unit_report.specs.declared.arguments.UsageError.TheVariants.{NoMemory};
ghost use Rattle.unit_report.specs.Arguments.{argument_of};
ghost use Rattle.unit_report.specs.ArgumentLinks.{Named, OnLine};

use crate::address::{AddressError, parse_address};
use std::alloc::{AllocError, AllocFailed, Global};
use std::fmt;

/// What a command line asks for.
#[derive(Drop)]
pub enum Command<'a> {
    Help,
    Version,
    Report(Request<'a>),
}

/// A report of a file at some addresses.
#[derive(Drop)]
pub struct Request<'a> {
    pub file: &'a str,
    /// Whether to halt at the first oddity.
    pub strict: bool,
    pub addresses: Vec<u64>,
}

/// Why a command line, or a line of addresses, can't be followed.
#[derive(Clone, Copy, Debug)]
pub enum UsageError<'a> {
    NoFile,
    UnknownOption(&'a str),
    BadAddress(&'a str, AddressError),
    NoMemory,
}

/// Writes one sentence.
impl fmt::Display for UsageError<'_> {
    fn fmt<W: fmt::Write>(&self, f: &mut fmt::Formatter<W>) -> fmt::Result {
        match self {
            UsageError::NoFile => write!(f, "no file is named: addr2unit --help tells the usage"),
            UsageError::UnknownOption(word) => {
                write!(
                    f,
                    "there is no option {word:?}: addr2unit --help tells the usage"
                )
            }
            UsageError::BadAddress(word, error) => write!(f, "{word:?} {error}"),
            UsageError::NoMemory => write!(f, "there is not enough memory for the addresses"),
        }
    }
}

impl From<AllocError> for UsageError<'_> {
    ghost from_gives = { λ _ r. r ≡ NoMemory };

    fn from(_error: AllocError) -> Self {
        UsageError::NoMemory
    }
}

impl<T: Drop> From<AllocFailed<T>> for UsageError<'_> {
    ghost from_gives = { λ _ r. r ≡ NoMemory };

    fn from(_refused: AllocFailed<T>) -> Self {
        UsageError::NoMemory
    }
}

// what a word of the command line is for
#[derive(Clone, Copy, PartialEq, Eq, Debug)]
enum Argument {
    Help,
    Version,
    Strict,
    UnknownOption,
    /// The file, or an address.
    Plain,
}

impl Argument {
    fn of(word: &str) -> Argument
        ensures { result ≡ argument_of word.now }
    {
        if word == "--help" || word == "-h" {
            return Argument::Help;
        }
        if word == "--version" || word == "-V" {
            return Argument::Version;
        }
        if word == "--strict" {
            return Argument::Strict;
        }
        match word.as_bytes() {
            [b'-', ..] => Argument::UnknownOption,
            _ => Argument::Plain,
        }
    }
}

// what the words so far tell
#[derive(Drop)]
struct Settings<'a> {
    strict: bool,
    file: Option<&'a str>,
    addresses: Vec<u64>,
}

impl<'a> Settings<'a> {
    ghost use Rattle.unit_report.specs.Arguments.{word_step, report_with};
    ghost use Rattle.unit_report.specs.ArgumentLinks.{settings_is, Stepped, Parsed};

    // one word more; the command, where it decides alone
    fn add(&mut self, word: &'a str) -> Result<Option<Command<'a>>, UsageError<'a>>
        ensures { Stepped result (settings_is self.new)
            (word_step (settings_is self.old) word.now (argument_of word.now)) }
    {
        match Argument::of(word) {
            Argument::Help => return Ok(Some(Command::Help)),
            Argument::Version => return Ok(Some(Command::Version)),
            Argument::Strict => self.strict = true,
            Argument::UnknownOption => return Err(UsageError::UnknownOption(word)),
            Argument::Plain if self.file.is_none() => self.file = Some(word),
            Argument::Plain => self.addresses.push(address_of(word)?)?,
        }
        Ok(None)
    }

    fn command(self) -> Result<Command<'a>, UsageError<'a>>
        ensures { Parsed result (report_with (settings_is self.entry)) }
    {
        match self.file {
            Some(file) => Ok(Command::Report(Request {
                file,
                strict: self.strict,
                addresses: self.addresses,
            })),
            None => Err(UsageError::NoFile),
        }
    }
}

impl<'a> Command<'a> {
    ghost use Rattle.unit_report.specs.Arguments.{purpose_of, no_settings};
    ghost use Rattle.unit_report.specs.ArgumentLinks.{Parsed};

    /// Reads the words behind the program's name; the first that decides alone ends it.
    pub fn parse(heap: Global, words: &'a [String]) -> Result<Command<'a>, UsageError<'a>>
        ensures { Parsed result (purpose_of no_settings (map string_bytes words.now)) }
    {
        let mut settings = Settings {
            strict: false,
            file: None,
            addresses: Vec::new(heap),
        };
        for word in words {
            if let Some(command) = settings.add(word.as_str())? {
                return Ok(command);
            }
        }
        settings.command()
    }
}

/// The address on a line, where it is not blank.
pub fn parse_line(line: &str) -> Result<Option<u64>, UsageError<'_>>
    ensures { OnLine line.now result }
{
    let word = line.trim_ascii();
    if word.is_empty() {
        return Ok(None);
    }
    Ok(Some(address_of(word)?))
}

// the address that a word names, or the sentence why it names none
fn address_of(word: &str) -> Result<u64, UsageError<'_>>
    ensures { Named word.now result }
{
    match parse_address(word.as_bytes()) {
        Ok(address) => Ok(address),
        Err(error) => Err(UsageError::BadAddress(word, error)),
    }
}

/// What --help prints.
pub const HELP: &str = "\
addr2unit tells which compilation unit holds each address of a firmware file.

Usage: addr2unit [--strict] FILE [ADDRESS..]

FILE is an ELF image or object with a section .debug_aranges. Each ADDRESS is
hexadecimal, with or without 0x; where none is given, standard input has one
to a line.

  --strict       halt at the first spoilt tuple or spoilt header
  -h, --help     print this text
  -V, --version  print the program's version

Exit status: 0 where the report is complete, 1 where the file can't be read
or --strict halted, 2 where the command line or an address can't be read.
";

/// What --version prints.
pub const VERSION: &str = "addr2unit 0.1.0\n";

// The lines of a report, each of one fact.
ghost use Rattle.std.specs.Prelude.{◌≡◌, ◌≤◌, Some, Ok, map, option_map};
ghost use Rattle.elf.specs.FileLinks.{file_is};
ghost use Rattle.elf.specs.Links.{class_word};
ghost use Rattle.readers.specs.Links.{is_big};
ghost use Rattle.lookup.specs.Lookups.{range};
ghost use Rattle.lookup.specs.Links.{looked_is, found_is};
ghost use Rattle.unit_report.specs.Lines.{class_text, order_text, kind_text, machine_text, file_line, section_line, relocated_line, oddity_line, survey_line, answer_text, place_text, shown_byte, total_line};
ghost use Rattle.unit_report.specs.SurveyLinks.{oddity_is, survey_is};
ghost use Rattle.unit_report.specs.LineLinks.{halts, Appends};

use crate::survey::{Oddity, Survey};
use elf::{Class, ElfFile, FileKind, Machine, Section};
use lookup::{Found, Lookup};
use readers::{Error, RunTimeEndian};
use std::alloc::AllocError;
use std::fmt;

/// What a lookup of an address in the section comes to.
pub type LookupResult = Result<Lookup<usize>, Error>;

/// Whether the reading goes on behind an oddity.
#[derive(Clone, Copy, PartialEq, Eq, Debug)]
pub enum Then {
    GoesOn,
    Halts,
}

impl Then {
    ghost use Rattle.unit_report.specs.Lines.{tuple_end, header_end};

    // what follows a spoilt tuple
    fn tuple_end(self) -> &'static str
        ensures { result.now ≡ tuple_end (halts self) }
    {
        match self {
            Then::GoesOn => "passed",
            Then::Halts => "halted",
        }
    }

    // what follows a spoilt header
    fn header_end(self) -> &'static str
        ensures { result.now ≡ header_end (halts self) }
    {
        match self {
            Then::GoesOn => "the section ends here",
            Then::Halts => "halted",
        }
    }
}

// what kind of file it is
#[derive(Drop)]
struct Kind(FileKind);

impl fmt::Display for Kind {
    ghost output = { λ kind. Some (kind_text kind.0) };

    fn fmt<W: fmt::Write>(&self, f: &mut fmt::Formatter<W>) -> fmt::Result {
        match self.0 {
            FileKind::Relocatable => write!(f, "relocatable"),
            FileKind::Executable => write!(f, "executable"),
            FileKind::Shared => write!(f, "shared"),
            FileKind::Other(kind) => write!(f, "kind {kind}"),
        }
    }
}

// the number of a machine, and its name where it is known
#[derive(Drop)]
struct MachineNumber(u16);

impl fmt::Display for MachineNumber {
    ghost output = { λ machine. Some (machine_text machine.0) };

    fn fmt<W: fmt::Write>(&self, f: &mut fmt::Formatter<W>) -> fmt::Result {
        let number = self.0;
        match Machine::of(number) {
            Some(name) => write!(f, "{number} ({name})"),
            None => write!(f, "{number}"),
        }
    }
}

fn class_text(class: Class) -> &'static str
    ensures { result.now ≡ class_text (class_word class) }
{
    match class {
        Class::Elf32 => "ELF32",
        Class::Elf64 => "ELF64",
    }
}

fn order_text(endian: RunTimeEndian) -> &'static str
    ensures { result.now ≡ order_text (is_big endian) }
{
    match endian {
        RunTimeEndian::Little => "little-endian",
        RunTimeEndian::Big => "big-endian",
    }
}

/// What the file is.
pub fn write_file(out: &mut String, file: &ElfFile) -> Result<(), AllocError>
    ensures { Appends result out.old out.new (file_line (file_is file.now)) }
{
    let class = class_text(file.class());
    let order = order_text(file.endian());
    let kind = Kind(file.kind());
    let machine = MachineNumber(file.machine_number());
    write!(out, "file: {class}, {order}, {kind}, machine {machine}\n")
}

/// Where the section is.
pub fn write_section(out: &mut String, section: &Section) -> Result<(), AllocError>
    ensures { Appends result out.old out.new (section_line section.now) }
{
    let size = section.size;
    let offset = section.offset;
    write!(
        out,
        "section: .debug_aranges, {size} bytes at 0x{offset:x}\n"
    )
}

/// How many places of the section are relocated, in a file that is not linked.
pub fn write_relocated(out: &mut String, kind: FileKind, places: usize) -> Result<(), AllocError>
    ensures { Appends result out.old out.new (relocated_line kind places) }
{
    match kind {
        FileKind::Relocatable => write!(out, "relocated: {places} places\n"),
        FileKind::Executable | FileKind::Shared | FileKind::Other(_) => Ok(()),
    }
}

/// What is odd, and what follows.
pub fn write_oddity(out: &mut String, oddity: &Oddity, then: Then) -> Result<(), AllocError>
    ensures { Appends result out.old out.new (oddity_line (halts then) (oddity_is oddity.now)) }
{
    match *oddity {
        Oddity::Tuple { set, tuple, fault } => {
            let end = then.tuple_end();
            write!(
                out,
                "spoilt tuple: set 0x{set:x}, tuple {tuple}: {fault}; {end}\n"
            )
        }
        Oddity::Header { set, fault } => {
            let end = then.header_end();
            write!(out, "spoilt header: set 0x{set:x}: {fault}; {end}\n")
        }
    }
}

/// How much was read.
pub fn write_survey(out: &mut String, survey: &Survey) -> Result<(), AllocError>
    ensures { Appends result out.old out.new (survey_line (survey_is survey.now)) }
{
    let sets = survey.sets;
    let ranges = survey.ranges;
    let spoilt = survey.spoilt_tuples();
    write!(
        out,
        "read: sets {sets}, ranges {ranges}, spoilt tuples {spoilt}\n"
    )
}

/// The answer at an address, without the section of its range and the end of the line.
pub fn write_answer(out: &mut String, address: u64, answer: &LookupResult) -> Result<(), AllocError>
    ensures { Appends result out.old out.new
        (answer_text address (looked_is (λ x. x) answer.now)) }
{
    match answer {
        Ok(lookup) => {
            let passed = lookup.passed;
            match lookup.found {
                Some(found) => write_found(out, address, &found, passed),
                None => write!(out, "0x{address:x}: no unit, tuples passed {passed}"),
            }
        }
        Err(fault) => write!(
            out,
            "0x{address:x}: no unit before the spoilt header, {fault}"
        ),
    }
}

fn write_found(
    out: &mut String,
    address: u64,
    found: &Found<usize>,
    passed: u64,
) -> Result<(), AllocError>
    ensures { Appends result out.old out.new
        (answer_text address (range (found_is (λ x. x) found.now) passed)) }
{
    let unit = found.debug_info_offset.0;
    let begin = found.entry.range().begin;
    let end = found.entry.range().end;
    let set = found.set.0;
    write!(
        out,
        "0x{address:x}: unit 0x{unit:x}, range 0x{begin:x}..0x{end:x}, \
         set 0x{set:x}, tuples passed {passed}"
    )
}

/// The section in which a range lies, where it is known; a byte that would not show stands as `?`.
pub fn write_place(out: &mut String, name: Option<&[u8]>) -> Result<(), AllocError>
    ensures { Appends result out.old out.new (place_text (option_map (λ x. x.now) name.entry)) }
{
    match name {
        Some(name) => {
            out.push_str(", in ")?;
            write_shown(out, name)
        }
        None => Ok(()),
    }
}

fn write_shown(out: &mut String, name: &[u8]) -> Result<(), AllocError>
    ensures { Appends result out.old out.new (map shown_byte name.now) }
{
    for byte in name {
        out.push(shown_byte(*byte) as char)?;
    }
    Ok(())
}

fn shown_byte(byte: u8) -> u8
    ensures { result ≡ shown_byte byte }
{
    if byte > 0x20 && byte < 0x7f {
        byte
    } else {
        b'?'
    }
}

/// The last line.
pub fn write_totals(out: &mut String, all: usize, found: usize) -> Result<(), AllocError>
    requires { found ≤ all }
    ensures { Appends result out.old out.new (total_line all found) }
{
    let missing = all - found;
    write!(
        out,
        "total: addresses {all}, found {found}, not found {missing}\n"
    )
}

// rangewalk's input: reader kind, byte order, relocation records, and commands.
ghost use Rattle.std.specs.Prelude.{◌≡◌, ◌^◌, ◌<◌, map, length, IfOk, IfErr, vec_items, OnOk};
ghost use Rattle.std.specs.Option.{ok_or};
ghost use Rattle.readers.specs.Links.{Did, is_big};
ghost use Rattle.section_reader.specs.Means.{section_means};
ghost use Rattle.histories.specs.Links.{call_is};
ghost use Rattle.transcript.specs.declared.input.Stop.TheVariants.{Malformed, NoMemory};
ghost use Rattle.transcript.specs.Input.{Read, Asked, kind_for, kind_step, order_step, record_step, records_step, policy_of, policy_step, section_step, heading_is, heading_step, command_for, call_step};

use crate::head::Head;
use histories::Call;
use numbers::{read_u8, read_u16, read_u32, read_u64};
use readers::{Error, Reader, RunTimeEndian};
use relocate::{Relocation, RelocationKind, RelocationTable};
use section_reader::EndianSlice;
use std::alloc::{AllocError, AllocFailed, Global};

const MAX_RECORDS: u16 = 256;

/// Why the reading of an input ended early.
#[derive(Clone, Copy, PartialEq, Eq, Debug)]
pub enum Stop {
    /// The input is cut short, or has a letter or a value that means nothing.
    Malformed,
    NoMemory,
}

impl From<Error> for Stop {
    ghost from_gives = { λ _ r. r ≡ Malformed };

    fn from(_error: Error) -> Stop {
        Stop::Malformed
    }
}

impl From<AllocError> for Stop {
    ghost from_gives = { λ _ r. r ≡ NoMemory };

    fn from(_error: AllocError) -> Stop {
        Stop::NoMemory
    }
}

// std tells want of memory by two types: a push hands back what it could not keep.
impl<T: Drop> From<AllocFailed<T>> for Stop {
    ghost from_gives = { λ _ r. r ≡ NoMemory };

    fn from(_refused: AllocFailed<T>) -> Stop {
        Stop::NoMemory
    }
}

/// Which reader the section is opened with.
#[derive(Clone, Copy, PartialEq, Eq, Debug)]
pub enum ReaderKind {
    EndianSlice,
    EndianReader,
    RelocatedSlice,
    RelocatedReader,
}

impl TryFrom<u8> for ReaderKind {
    type Error = Stop;

    ghost try_from_gives = { λ n r. r ≡ ok_or (kind_for n) Malformed };

    fn try_from(number: u8) -> Result<ReaderKind, Stop> {
        match number {
            0 => Ok(ReaderKind::EndianSlice),
            1 => Ok(ReaderKind::EndianReader),
            2 => Ok(ReaderKind::RelocatedSlice),
            3 => Ok(ReaderKind::RelocatedReader),
            _ => Err(Stop::Malformed),
        }
    }
}

fn read_kind(input: &mut EndianSlice) -> Result<ReaderKind, Stop>
    ensures { Read (λ x. x) result (section_means input.new) (kind_step (section_means input.old)) }
{
    ReaderKind::try_from(read_u8(input)?)
}

fn read_order(input: &mut EndianSlice) -> Result<RunTimeEndian, Stop>
    ensures { Read is_big result (section_means input.new) (order_step (section_means input.old)) }
{
    match read_u8(input)? {
        0 => Ok(RunTimeEndian::Little),
        1 => Ok(RunTimeEndian::Big),
        _ => Err(Stop::Malformed),
    }
}

// The records as a table.
fn read_table(heap: Global, input: &mut EndianSlice) -> Result<RelocationTable, Stop>
    ensures { Read policy_of result (section_means input.new)
        (policy_step (section_means input.old)) }
{
    let records = read_records(heap, input)?;
    Ok(RelocationTable::new(records)?)
}

// The number of records, and the records.
fn read_records(heap: Global, input: &mut EndianSlice) -> Result<Vec<Relocation>, Stop>
    ensures { Read vec_items result (section_means input.new)
        (records_step (section_means input.old)) }
{
    let count = read_u16(input)?;
    if count > MAX_RECORDS {
        return Err(Stop::Malformed);
    }
    let mut records = Vec::new(heap);
    for _ in 0..count {
        records.push(read_record(input)?)?;
    }
    Ok(records)
}

fn read_record(input: &mut EndianSlice) -> Result<Relocation, Error>
    ensures { Did (λ x. x) result (section_means input.new)
        (record_step (section_means input.old)) }
{
    let offset = read_u64(input)?;
    let kind = RelocationKind::from(read_u8(input)?);
    let amount = read_u64(input)?;
    Ok(Relocation {
        offset,
        kind,
        amount,
    })
}

// The section's length, and its bytes.
fn read_section<'a>(input: &mut EndianSlice<'a>) -> Result<&'a [u8], Error>
    ensures read { Did (λ x. x.now) result (section_means input.new)
        (section_step (section_means input.old)) }
    ensures short { IfOk result (λ s. length s.now < 2 ^ 32) }
{
    let length = read_u32(input)? as usize;
    let section = input.split(length)?;
    Ok(section.slice())
}

pub fn read_head<'a>(heap: Global, input: &mut EndianSlice<'a>) -> Result<Head<'a>, Stop>
    ensures { Read heading_is result (section_means input.new)
        (heading_step (section_means input.old)) }
{
    let kind = read_kind(input)?;
    let endian = read_order(input)?;
    let table = read_table(heap, input)?;
    let section = read_section(input)?;
    Ok(Head {
        kind,
        endian,
        table,
        section,
    })
}

/// What a command letter stands for.
#[derive(Clone, Copy, PartialEq, Eq, Debug)]
pub enum Command {
    NextHeader,
    Entries,
    Next,
    NextRaw,
    /// An address follows, of eight bytes.
    Lookup,
}

impl TryFrom<char> for Command {
    type Error = Stop;

    ghost try_from_gives = { λ l r. r ≡ ok_or (command_for l) Malformed };

    fn try_from(letter: char) -> Result<Command, Stop> {
        match letter {
            'H' => Ok(Command::NextHeader),
            'E' => Ok(Command::Entries),
            'N' => Ok(Command::Next),
            'R' => Ok(Command::NextRaw),
            'L' => Ok(Command::Lookup),
            _ => Err(Stop::Malformed),
        }
    }
}

/// Adds the calls that the commands ask for, up to the first bad command.
pub fn read_commands(mut input: EndianSlice, calls: &mut Vec<Call>) -> Result<(), Stop>
    ensures { Asked result (section_means input.entry) (map call_is calls.old.items)
        (map call_is calls.new.items) }
{
    while input.len() > 0 {
        calls.push(read_call(&mut input)?)?;
    }
    Ok(())
}

fn read_call(input: &mut EndianSlice) -> Result<Call, Stop>
    ensures read { Read call_is result (section_means input.new)
        (call_step (section_means input.old)) }
    ensures malformed { IfErr result (λ e. e ≡ Malformed) }
    ensures shorter { OnOk result
        (length (section_means input.new).rest < length (section_means input.old).rest) }
{
    let letter = read_u8(input)?;
    match Command::try_from(letter as char)? {
        Command::NextHeader => Ok(Call::NextHeader),
        Command::Entries => Ok(Call::Entries),
        Command::Next => Ok(Call::Next),
        Command::NextRaw => Ok(Call::NextRaw),
        Command::Lookup => Ok(Call::Lookup(read_u64(input)?)),
    }
}

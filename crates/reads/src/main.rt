// reads: makes one reader call for each line of standard input, and writes what it answered and how many bytes are left.
//
// `KIND ORDER HEX CALL` or `KIND ORDER HEX CALL:NUMBER` makes a call on a fresh reader (kind 0 EndianSlice, 1 EndianReader;
// order 0 Little, 1 Big; `-` for no bytes); `wu NUMBER` and `ws NUMBER` write LEB128;
// `reloc KIND ORDER HEX RECORDS RECORDS SKIP CALL:NUMBER` skips bytes under one table and calls under two.
#![tactic(auto)]

use hex_digits::{decode, encode};
use leb128::{Leb128, read_sleb128, read_uleb128, read_uleb128_u16, read_uleb128_u32, skip_leb128};
use numbers::{
    read_address_size, read_i8, read_i16, read_i32, read_i64, read_initial_length, read_length,
    read_u8, read_u16, read_u32, read_u64, read_uint, read_word,
};
use readers::{AddressReader, Error, Format, Reader, ReaderOffset, RunTimeEndian};
use relocate::{RelocateReader, Relocation, RelocationTable};
use section_reader::{EndianReader, EndianSlice};
use std::alloc::{AllocError, Global};
use std::io::{BufRead, BufReader};
use std::{fmt, io};

// What a line asks.
#[derive(Clone, Copy, PartialEq, Eq, Debug)]
enum Request<'a> {
    WriteUnsigned(u64),
    WriteSigned(i64),
    Read(Section<'a>, ReadCall),
    ReadRelocated(Section<'a>, Layers<&'a str>, ReadCall),
}

// The bytes of a section in digits, and by what they are read.
#[derive(Clone, Copy, PartialEq, Eq, Debug)]
struct Section<'a> {
    kind: Kind,
    order: RunTimeEndian,
    digits: &'a str,
}

#[derive(Clone, Copy, PartialEq, Eq, Debug)]
enum Kind {
    Slice,
    Reader,
}

// Two tables, and how many bytes are skipped under the first before a call is made under both.
#[derive(Clone, Copy, PartialEq, Eq, Debug)]
struct Layers<T> {
    first: T,
    second: T,
    skipped: u64,
}

// A reader call with its argument.
#[derive(Clone, Copy, PartialEq, Eq, Debug)]
enum ReadCall {
    U8,
    U16,
    U32,
    U64,
    I8,
    I16,
    I32,
    I64,
    InitialLength,
    AddressSize,
    Uleb128,
    Uleb128U32,
    Uleb128U16,
    Sleb128,
    SkipLeb128,
    Uint(usize),
    Word(Format),
    Length(Format),
    Offset(Format),
    Address(u8),
    SizedOffset(u8),
    Find(u8),
    Skip(u64),
    Truncate(u64),
    Split(u64),
}

// What a call answered, and how many bytes it left.
#[derive(Clone, Copy, PartialEq, Eq, Debug)]
struct Reading {
    answer: Result<Values, Error>,
    left: u64,
}

// What a call answers: nothing, a number, or two.
#[derive(Clone, Copy, PartialEq, Eq, Debug)]
enum Values {
    Nothing,
    One(u64),
    Signed(i64),
    Two(u64, u64),
}

impl fmt::Display for Reading {
    fn fmt<W: fmt::Write>(&self, f: &mut fmt::Formatter<W>) -> fmt::Result {
        let left = self.left;
        match self.answer {
            Ok(Values::Nothing) => write!(f, "ok left {left}"),
            Ok(Values::One(x)) => write!(f, "ok {x} left {left}"),
            Ok(Values::Signed(x)) => write!(f, "ok {x} left {left}"),
            Ok(Values::Two(x, y)) => write!(f, "ok {x} {y} left {left}"),
            Err(error) => write!(f, "! {error} left {left}"),
        }
    }
}

// What a line asks; a bad line asks nothing.
fn request_of(line: &str) -> Option<Request<'_>> {
    match line.split_once(' ') {
        Some(("wu", number)) => Some(Request::WriteUnsigned(number.parse::<u64>().ok()?)),
        Some(("ws", number)) => Some(Request::WriteSigned(number.parse::<i64>().ok()?)),
        Some(("reloc", rest)) => relocated_read(rest),
        _ => plain_read(line),
    }
}

// `KIND ORDER HEX CALL`
fn plain_read(text: &str) -> Option<Request<'_>> {
    let mut words = text.split(' ');
    let section = Section::new(words.next()?, words.next()?, words.next()?);
    Some(Request::Read(section, call_of(words.next()?)?))
}

// `KIND ORDER HEX RECORDS RECORDS SKIP CALL`
fn relocated_read(text: &str) -> Option<Request<'_>> {
    let mut words = text.split(' ');
    let section = Section::new(words.next()?, words.next()?, words.next()?);
    let layers = Layers {
        first: words.next()?,
        second: words.next()?,
        skipped: words.next()?.parse::<u64>().ok()?,
    };
    Some(Request::ReadRelocated(section, layers, call_of(words.next()?)?))
}

impl<'a> Section<'a> {
    fn new(kind: &str, order: &str, digits: &'a str) -> Section<'a> {
        Section {
            kind: match kind {
                "0" => Kind::Slice,
                _ => Kind::Reader,
            },
            order: match order {
                "0" => RunTimeEndian::Little,
                _ => RunTimeEndian::Big,
            },
            digits,
        }
    }

    // Makes a call on a fresh reader over the bytes, under the tables if there are any.
    fn read(
        &self,
        bytes: &[u8],
        tables: Option<Layers<&RelocationTable>>,
        call: ReadCall,
    ) -> Result<Reading, Error> {
        match self.kind {
            Kind::Slice => read_under(EndianSlice::new(bytes, 0, self.order)?, tables, call),
            Kind::Reader => read_under(EndianReader::new(bytes, 0, self.order)?, tables, call),
        }
    }
}

// `CALL` or `CALL:NUMBER`
fn call_of(text: &str) -> Option<ReadCall> {
    match text.split_once(':') {
        Some((name, number)) => call_with(name, number.parse::<u64>().ok()?),
        None => call_without(text),
    }
}

// The call of a name that takes no argument.
fn call_without(name: &str) -> Option<ReadCall> {
    Some(match name {
        "u8" => ReadCall::U8,
        "u16" => ReadCall::U16,
        "u32" => ReadCall::U32,
        "u64" => ReadCall::U64,
        "i8" => ReadCall::I8,
        "i16" => ReadCall::I16,
        "i32" => ReadCall::I32,
        "i64" => ReadCall::I64,
        "initial_length" => ReadCall::InitialLength,
        "address_size" => ReadCall::AddressSize,
        "uleb" => ReadCall::Uleb128,
        "uleb32" => ReadCall::Uleb128U32,
        "uleb16" => ReadCall::Uleb128U16,
        "sleb" => ReadCall::Sleb128,
        "skip_leb" => ReadCall::SkipLeb128,
        _ => return None,
    })
}

// The call of a name that takes a number.
fn call_with(name: &str, number: u64) -> Option<ReadCall> {
    Some(match name {
        "uint" => ReadCall::Uint(number as usize),
        "word" => ReadCall::Word(format_of(number)?),
        "length" => ReadCall::Length(format_of(number)?),
        "offset" => ReadCall::Offset(format_of(number)?),
        "address" => ReadCall::Address(u8::try_from(number).ok()?),
        "sized_offset" => ReadCall::SizedOffset(u8::try_from(number).ok()?),
        "find" => ReadCall::Find(u8::try_from(number).ok()?),
        "skip" => ReadCall::Skip(number),
        "truncate" => ReadCall::Truncate(number),
        "split" => ReadCall::Split(number),
        _ => return None,
    })
}

// The format whose words have so many bytes.
fn format_of(word_size: u64) -> Option<Format> {
    match word_size {
        4 => Some(Format::Dwarf32),
        8 => Some(Format::Dwarf64),
        _ => None,
    }
}

// The answer to a line.
fn answer(heap: Global, line: &str) -> Result<String, AllocError> {
    match request_of(line) {
        Some(Request::WriteUnsigned(number)) => encode(heap, Leb128::unsigned(number).bytes()),
        Some(Request::WriteSigned(number)) => encode(heap, Leb128::signed(number).bytes()),
        Some(Request::Read(section, call)) => {
            let bytes = decode(heap, section.digits.as_bytes())?;
            reading_text(heap, section.read(&bytes, None, call))
        }
        Some(Request::ReadRelocated(section, layers, call)) => {
            let bytes = decode(heap, section.digits.as_bytes())?;
            let tables = Layers {
                first: &table_of(heap, layers.first)?,
                second: &table_of(heap, layers.second)?,
                skipped: layers.skipped,
            };
            reading_text(heap, section.read(&bytes, Some(tables), call))
        }
        None => String::from_str(heap, "bad line"),
    }
}

// What a reading is written as, or why there is none.
fn reading_text(heap: Global, reading: Result<Reading, Error>) -> Result<String, AllocError> {
    match reading {
        Ok(reading) => format!(in heap; "{reading}"),
        Err(error) => format!(in heap; "! {error}"),
    }
}

// The table of some records: `OFFSET,KIND,AMOUNT`, parted by semicolons, or `-` for none. What is no record is left out.
fn table_of(heap: Global, text: &str) -> Result<RelocationTable, AllocError> {
    RelocationTable::new(text.split(';').filter_map(record_of).collect(heap)?)
}

fn record_of(text: &str) -> Option<Relocation> {
    let mut numbers = text.split(',');
    Some(Relocation {
        offset: numbers.next()?.parse::<u64>().ok()?,
        kind: numbers.next()?.parse::<u8>().ok()?.into(),
        amount: numbers.next()?.parse::<u64>().ok()?,
    })
}

// Makes a call on a reader, or under two tables behind the bytes that are skipped under the first.
fn read_under<R: AddressReader>(
    reader: R,
    tables: Option<Layers<&RelocationTable>>,
    call: ReadCall,
) -> Result<Reading, Error> {
    let Some(tables) = tables else {
        return Ok(read(reader, call));
    };
    let mut below = RelocateReader::new(reader, tables.first);
    skip(&mut below, tables.skipped)?;
    Ok(read(RelocateReader::new(below, tables.second), call))
}

// Makes a call on a reader, and sees how many bytes are left.
fn read<R: AddressReader>(mut reader: R, call: ReadCall) -> Reading {
    let answer = perform(&mut reader, call);
    Reading {
        answer,
        left: reader.len().into_u64(),
    }
}

// Makes a call on a reader.
fn perform<R: AddressReader>(reader: &mut R, call: ReadCall) -> Result<Values, Error> {
    Ok(match call {
        ReadCall::U8 => Values::One(read_u8(reader)? as u64),
        ReadCall::U16 => Values::One(read_u16(reader)? as u64),
        ReadCall::U32 => Values::One(read_u32(reader)? as u64),
        ReadCall::U64 => Values::One(read_u64(reader)?),
        ReadCall::I8 => Values::Signed(read_i8(reader)? as i64),
        ReadCall::I16 => Values::Signed(read_i16(reader)? as i64),
        ReadCall::I32 => Values::Signed(read_i32(reader)? as i64),
        ReadCall::I64 => Values::Signed(read_i64(reader)?),
        ReadCall::InitialLength => {
            let (length, format) = read_initial_length(reader)?;
            Values::Two(length.into_u64(), format.word_size() as u64)
        }
        ReadCall::AddressSize => Values::One(read_address_size(reader)? as u64),
        ReadCall::Uleb128 => Values::One(read_uleb128(reader)?),
        ReadCall::Uleb128U32 => Values::One(read_uleb128_u32(reader)? as u64),
        ReadCall::Uleb128U16 => Values::One(read_uleb128_u16(reader)? as u64),
        ReadCall::Sleb128 => Values::Signed(read_sleb128(reader)?),
        ReadCall::SkipLeb128 => {
            skip_leb128(reader)?;
            Values::Nothing
        }
        ReadCall::Uint(n) => Values::One(read_uint(reader, n)?),
        ReadCall::Word(format) => Values::One(read_word(reader, format)?.into_u64()),
        ReadCall::Length(format) => Values::One(read_length(reader, format)?.into_u64()),
        ReadCall::Offset(format) => Values::One(reader.read_offset(format)?.into_u64()),
        ReadCall::Address(size) => Values::One(reader.read_address(size)?),
        ReadCall::SizedOffset(size) => Values::One(reader.read_sized_offset(size)?.into_u64()),
        ReadCall::Find(byte) => Values::One(reader.find(byte)?.into_u64()),
        ReadCall::Skip(len) => {
            skip(reader, len)?;
            Values::Nothing
        }
        ReadCall::Truncate(len) => {
            reader.truncate(R::Offset::from_u64(len)?)?;
            Values::Nothing
        }
        ReadCall::Split(len) => {
            let start = reader.offset_id().0;
            let part = reader.split(R::Offset::from_u64(len)?)?;
            let place = part.offset_id().0.saturating_sub(start);
            Values::Two(place, part.len().into_u64())
        }
    })
}

// Skips as many bytes, if the reader's offsets hold the number.
fn skip<R: Reader>(reader: &mut R, len: u64) -> Result<(), Error> {
    reader.skip(R::Offset::from_u64(len)?)
}

fn main(rt: HostRuntime) -> io::Result<()> {
    let heap = rt.alloc();
    for line in BufReader::new(heap, rt.stdin())?.lines(heap) {
        let line = line?;
        rt.println(answer(heap, line.as_str())?)?;
    }
    Ok(())
}

// The headers of sets.
ghost use Rattle.std.specs.Prelude.{◌≡◌, ◌^◌, length, IfOk};
ghost use Rattle.readers.specs.Links.{outcome_is};
ghost use Rattle.aranges.specs.Links.{header_is};
ghost use Rattle.aranges.specs.Sets.{header_past};
ghost use Rattle.readers.specs.Reading.{plain_reader};
ghost use Rattle.section_reader.specs.Means.{section_means};
ghost use Rattle.mallethill.specs.Told.{returned_fault, answer_or, buffer_with};
ghost use Rattle.mallethill.specs.Headers.{fields_of, set_header_at, headers_from, headers_read, Within};

use crate::fault::{Fault, settle};
use crate::section::open;
use aranges::{ArangeHeader, DebugAranges};
use readers::{DebugArangesOffset, Error};
use section_reader::EndianSlice;

/// The header of a set, and the offset behind the set.
#[repr(C)]
#[derive(Clone, Copy)]
pub struct SetHeader {
    pub offset: u64,
    pub length: u64,
    pub debug_info_offset: u64,
    pub next: u64,
    pub version: u16,
    pub address_size: u8,
    pub word_size: u8,
}

/// The header of the set at an offset of a section.
#[unsafe(no_mangle)]
pub extern "C" fn mallethill_header(
    section: &[u8],
    big_endian: bool,
    offset: u64,
    answer: &mut SetHeader,
) -> Fault
    ensures fault { result ≡ returned_fault (set_header_at section.now big_endian offset) }
    ensures answer { answer.new
        ≡ answer_or answer.old (set_header_at section.now big_endian offset) }
{
    settle(read_header(section, big_endian, offset), answer)
}

/// How many headers were read, and the offset behind the last of their sets.
#[repr(C)]
#[derive(Clone, Copy)]
pub struct HeadersRead {
    pub count: u64,
    pub next: u64,
}

/// The headers of the sets from an offset of a section on, until the section or the room ends. At a header that cannot
/// be read, the fault comes beside the headers before it.
#[unsafe(no_mangle)]
pub extern "C" fn mallethill_headers(
    section: &[u8],
    big_endian: bool,
    offset: u64,
    headers: &mut [SetHeader],
    answer: &mut HeadersRead,
) -> Fault
    ensures fault { result
        ≡ (headers_from section.now big_endian (length headers.old) offset).ended }
    ensures answer { answer.new
        ≡ headers_read (headers_from section.now big_endian (length headers.old) offset) }
    ensures headers { headers.new
        ≡ buffer_with headers.old
        (headers_from section.now big_endian (length headers.old) offset).items }
{
    let (read, fault) = read_headers(section, big_endian, offset, headers);
    *answer = read;
    fault
}

fn read_headers(
    section: &[u8],
    big_endian: bool,
    offset: u64,
    headers: &mut [SetHeader],
) -> (HeadersRead, Fault)
    ensures fault { result.1
        ≡ (headers_from section.now big_endian (length headers.old) offset).ended }
    ensures answer { result.0
        ≡ headers_read (headers_from section.now big_endian (length headers.old) offset) }
    ensures headers { headers.new
        ≡ buffer_with headers.old
        (headers_from section.now big_endian (length headers.old) offset).items }
{
    let mut count = 0usize;
    let mut next = offset;
    while count < headers.len() && next != section.len() as u64 {
        match read_header(section, big_endian, next) {
            Ok(header) => {
                next = header.next;
                headers[count] = header;
            }
            Err(error) => {
                let count = count as u64;
                return (HeadersRead { count, next }, Fault::from(error));
            }
        }
        count += 1;
    }
    let count = count as u64;
    (HeadersRead { count, next }, Fault::NONE)
}

// One header, as a result.
#[inline(always)]
fn read_header(section: &[u8], big_endian: bool, offset: u64) -> Result<SetHeader, Error>
    ensures { outcome_is (λ x. x) result ≡ set_header_at section.now big_endian offset }
{
    Ok(open_set(section, big_endian, offset)?.fields)
}

/// A set of a section: its header, and what C is told of it.
#[derive(Drop)]
pub struct OpenSet<'a> {
    pub header: ArangeHeader<EndianSlice<'a>>,
    pub fields: SetHeader,
}

/// The set at an offset of a section.
#[inline(always)]
pub fn open_set(section: &[u8], big_endian: bool, offset: u64) -> Result<OpenSet<'_>, Error>
    ensures reads { outcome_is (λ s. header_is section_means (λ x. x) s.header) result
        ≡ header_past (2 ^ 64) offset (plain_reader 0 section.now big_endian) }
    ensures fields { IfOk result
        (λ s. s.fields ≡ fields_of (header_is section_means (λ x. x) s.header)) }
    ensures inside { IfOk result
        (λ s. Within (length section.now) (header_is section_means (λ x. x) s.header)) }
{
    let header = header_within(section, big_endian, offset)?;
    let encoding = header.encoding();
    let size = encoding.format.initial_length_size() as u64 + header.length() as u64;
    let fields = SetHeader {
        offset: header.offset().0,
        length: header.length() as u64,
        debug_info_offset: header.debug_info_offset().0 as u64,
        next: header.offset().0 + size,
        version: encoding.version,
        address_size: encoding.address_size,
        word_size: encoding.format.word_size(),
    };
    Ok(OpenSet { header, fields })
}

// The header of a set, which lies in its section.
#[inline(always)]
fn header_within(
    section: &[u8],
    big_endian: bool,
    offset: u64,
) -> Result<ArangeHeader<EndianSlice<'_>>, Error>
    ensures reads { outcome_is (header_is section_means (λ x. x)) result
        ≡ header_past (2 ^ 64) offset (plain_reader 0 section.now big_endian) }
    ensures inside { IfOk result
        (λ h. Within (length section.now) (header_is section_means (λ x. x) h)) }
{
    let section = DebugAranges::new(open(section, big_endian));
    section.header(DebugArangesOffset(offset as usize))
}

// The section `.debug_aranges`: sets, each with a header and the tuples of one unit.
ghost use Rattle.std.specs.Prelude.{◌≡◌, ℕ, true, length, MatchResult, if◌then◌else◌, ◌-◌, ◌%◌, ◌<◌, option_map};
ghost use Rattle.readers.specs.Outcome.{fault_of};
ghost use Rattle.readers.specs.Reading.{no_bytes, skip_step, is_size};
ghost use Rattle.readers.specs.Links.{Did, outcome_is, format_word};
ghost use Rattle.numbers.specs.Numbers.{initial_is};
ghost use Rattle.aranges.specs.Sets.{version as versioned, sizes, padding as padded, header_size, header_past, fields, set_step};
ghost use Rattle.aranges.specs.Tuples.{two, convert, raw, converted, pair};
ghost use Rattle.aranges.specs.Iterators.{entries_of, next_set, next_two, next_says, draw};
ghost use Rattle.aranges.specs.Links.{header_is, entry_is, outcome_of, entries_is, Drew};

use crate::rnglists::Range;
use numbers::{
    add_sized, is_empty, min_tombstone, read_address_size, read_initial_length, read_u8, read_u16,
};
use readers::{
    AddressReader, DebugArangesOffset, DebugInfoOffset, Encoding, Error, Format, Reader,
    ReaderOffset, ReaderOffsetId,
};

/// A `.debug_aranges` section.
#[derive(Drop)]
pub struct DebugAranges<R: AddressReader> {
    section: R,
}

impl<R: AddressReader> DebugAranges<R> {
    pub fn new(section: R) -> DebugAranges<R>
        ensures { result.section ≡ section }
    {
        DebugAranges { section }
    }

    /// How many bytes the section has.
    pub fn len(&self) -> R::Offset
        ensures { R.Offset.number result ≡ length (R.means self.now.section).rest }
    {
        self.section.len()
    }

    /// The headers of the section's sets.
    pub fn headers(&self) -> ArangeHeaderIter<R>
        ensures input { R.means result.input ≡ R.means self.now.section }
        ensures start { result.start ≡ (R.means self.now.section).id }
    {
        ArangeHeaderIter {
            input: self.section.clone(),
            start: self.section.offset_id().0,
        }
    }

    /// The header at an offset of the section.
    #[inline(always)]
    pub fn header(&self, offset: DebugArangesOffset<R::Offset>) -> Result<ArangeHeader<R>, Error>
        ensures { outcome_is (header_is R.means R.Offset.number) result
            ≡ header_past R.Offset.limit (R.Offset.number offset.0) (R.means self.now.section) }
    {
        let mut input = self.section.clone();
        input.skip(offset.0)?;
        ArangeHeader::parse(&mut input, DebugArangesOffset(offset.0.into_u64()))
    }
}

/// An iterator over the headers of a section.
#[derive(Drop)]
pub struct ArangeHeaderIter<R: AddressReader> {
    input: R,
    // the id of the section's first byte
    start: u64,
}

impl<R: AddressReader> ArangeHeaderIter<R> {
    /// The place of the next set in the section.
    #[inline(always)]
    pub fn offset(&self) -> DebugArangesOffset<u64>
        ensures { result.0 ≡ (R.means self.now.input).id - self.now.start }
    {
        DebugArangesOffset(self.input.offset_id().0.saturating_sub(self.start))
    }

    /// The next header; a fault leaves no more.
    #[inline(always)]
    pub fn next(&mut self) -> Result<Option<ArangeHeader<R>>, Error>
        ensures did { Did (option_map (header_is R.means R.Offset.number)) result
            (R.means self.new.input)
            (next_set R.Offset.limit self.old.start (R.means self.old.input)) }
        ensures start { self.new.start ≡ self.old.start }
    {
        if is_empty(&self.input) {
            return Ok(None);
        }
        let offset = self.offset();
        // a match: with `map_err` and `map` the header is copied, and a set took 33 ns where this took 18
        match ArangeHeader::parse(&mut self.input, offset) {
            Ok(header) => Ok(Some(header)),
            Err(error) => {
                self.input.empty();
                Err(error)
            }
        }
    }
}

/// The header of a set of tuples, all of one unit.
#[derive(Drop)]
pub struct ArangeHeader<R: AddressReader> {
    // a distance of ids, so it has their width
    offset: DebugArangesOffset<u64>,
    encoding: Encoding,
    length: R::Offset,
    debug_info_offset: DebugInfoOffset<R::Offset>,
    pub(crate) entries: R,
}

impl<R: AddressReader> ArangeHeader<R> {
    // The header of the set at the front of `input`, which moves past the set.
    #[inline(always)]
    fn parse(input: &mut R, offset: DebugArangesOffset<u64>) -> Result<ArangeHeader<R>, Error>
        ensures { Did (header_is R.means R.Offset.number) result (R.means input.new)
            (set_step R.Offset.limit offset.0 (R.means input.old)) }
    {
        let (length, format) = read_initial_length(input)?;
        let rest = input.split(length)?;
        ArangeHeader::parse_fields(rest, offset, length, format)
    }

    // The fields behind the initial length.
    #[inline(always)]
    fn parse_fields(
        mut rest: R,
        offset: DebugArangesOffset<u64>,
        length: R::Offset,
        format: Format,
    ) -> Result<ArangeHeader<R>, Error>
        ensures { outcome_is (header_is R.means R.Offset.number) result
            ≡ (fields R.Offset.limit offset.0 (initial_is R.Offset.number (length, format))
            (R.means rest)).outcome }
    {
        let version = read_version(&mut rest)?;
        let debug_info_offset = rest.read_offset(format)?;
        let address_size = read_sizes(&mut rest)?;
        skip_padding(&mut rest, format, address_size)?;
        let encoding = Encoding {
            address_size,
            format,
            version,
        };
        Ok(ArangeHeader {
            offset,
            encoding,
            length,
            debug_info_offset: DebugInfoOffset(debug_info_offset),
            entries: rest,
        })
    }

    /// The set's place in the section.
    pub fn offset(&self) -> DebugArangesOffset<u64>
        ensures { result.0 ≡ (header_is R.means R.Offset.number self.now).place }
    {
        self.offset
    }

    /// The length of the set behind its initial length.
    pub fn length(&self) -> R::Offset
        ensures { R.Offset.number result ≡ (header_is R.means R.Offset.number self.now).length }
    {
        self.length
    }

    /// What the set's numbers are read by.
    pub fn encoding(&self) -> Encoding
        ensures { result ≡ self.now.encoding }
    {
        self.encoding
    }

    /// The place of the set's unit in `.debug_info`.
    pub fn debug_info_offset(&self) -> DebugInfoOffset<R::Offset>
        ensures { R.Offset.number result.0 ≡ (header_is R.means R.Offset.number self.now).info }
    {
        self.debug_info_offset
    }

    /// A second header of equal meaning.
    pub fn clone(&self) -> ArangeHeader<R>
        ensures { header_is R.means R.Offset.number result
            ≡ header_is R.means R.Offset.number self.now }
    {
        ArangeHeader {
            offset: self.offset,
            encoding: self.encoding,
            length: self.length,
            debug_info_offset: self.debug_info_offset,
            entries: self.entries.clone(),
        }
    }

    /// The tuples of the set.
    pub fn entries(&self) -> ArangeEntryIter<R>
        ensures { entries_is R.means result
            ≡ entries_of (header_is R.means R.Offset.number self.now) }
    {
        ArangeEntryIter {
            input: self.entries.clone(),
            encoding: self.encoding,
        }
    }
}

// The version of a set, 2 or 3.
#[inline(always)]
fn read_version<R: Reader>(reader: &mut R) -> Result<u16, Error>
    ensures { Did (λ x. x) result (R.means reader.new) (versioned (R.means reader.old)) }
{
    let version = read_u16(reader)?;
    match version {
        2 | 3 => Ok(version),
        _ => Err(Error::UnknownVersion(version)),
    }
}

// The size of an address, behind which stands a segment size of 0.
#[inline(always)]
fn read_sizes<R: Reader>(reader: &mut R) -> Result<u8, Error>
    ensures { Did (λ x. x) result (R.means reader.new) (sizes (R.means reader.old)) }
{
    let address_size = read_address_size(reader)?;
    let segment_size = read_u8(reader)?;
    if segment_size != 0 {
        return Err(Error::UnsupportedSegmentSize(segment_size));
    }
    Ok(address_size)
}

// Moves to the first tuple, which stands at a multiple of a tuple's size from the set's start.
#[inline(always)]
fn skip_padding<R: Reader>(reader: &mut R, format: Format, address_size: u8) -> Result<(), Error>
    ensures { Did (λ x. x) result (R.means reader.new)
        (skip_step (padded (format_word format) address_size) (R.means reader.old)) }
{
    reader.skip(R::Offset::from_u32(padding(format, address_size)))
}

// How many bytes the fields of a header take, from the set's start.
#[inline(always)]
fn header_length(format: Format) -> u32
    ensures { result ≡ header_size (format_word format) }
{
    // initial length, version, offset, address size, segment size
    format.initial_length_size() as u32 + 2 + format.word_size() as u32 + 1 + 1
}

// How many bytes fill those fields to a multiple of a tuple's size.
#[inline(always)]
fn padding(format: Format, address_size: u8) -> u32
    ensures { result ≡ padded (format_word format) address_size }
{
    let length = header_length(format);
    // for speed, a division by a constant in each arm, which is none where code is compiled: with one division for
    // all sizes, a lookup over sets of one tuple took a fifth longer
    match address_size {
        8 => to_multiple(length, 16),
        4 => to_multiple(length, 8),
        0 => 0,
        _ => to_multiple(length, 2 * (address_size as u32)),
    }
}

// How many bytes there are from a place to the next that is a multiple of a size.
#[inline(always)]
fn to_multiple(place: u32, size: u32) -> u32
    requires { 0 < size }
    ensures { result ≡ (size - place % size) % size }
{
    (size - place % size) % size
}

/// An iterator over the tuples of a set.
#[derive(Drop)]
pub struct ArangeEntryIter<R: AddressReader> {
    input: R,
    encoding: Encoding,
}

impl<R: AddressReader> ArangeEntryIter<R> {
    /// The id of the next tuple's first byte.
    pub fn offset_id(&self) -> ReaderOffsetId
        ensures { result.0 ≡ (R.means self.now.input).id }
    {
        self.input.offset_id()
    }

    /// The next tuple that answers a range. An `AddressOverflow` of a tuple's end passes that tuple only.
    #[inline(always)]
    pub fn next(&mut self) -> Result<Option<ArangeEntry>, Error>
        ensures { Drew result (entries_is R.means self.new)
            (draw converted (entries_is R.means self.old)) }
    {
        let address_size = self.encoding.address_size;
        while let Some(outcome) = next_outcome(&mut self.input, address_size) {
            if let Some(entry) = outcome? {
                return Ok(Some(entry));
            }
        }
        Ok(None)
    }

    /// The next tuple that is no null pair, as it stands, with an end of 0.
    #[inline(always)]
    pub fn next_raw(&mut self) -> Result<Option<ArangeEntry>, Error>
        ensures { Drew result (entries_is R.means self.new)
            (draw raw (entries_is R.means self.old)) }
    {
        let address_size = self.encoding.address_size;
        while let Some((begin, length)) = next_tuple(&mut self.input, address_size)? {
            if begin != 0 || length != 0 {
                return Ok(Some(ArangeEntry {
                    range: Range { begin, end: 0 },
                    length,
                }));
            }
        }
        Ok(None)
    }

    /// The range of a tuple from `next_raw`, or none if its begin stands for code that is not there.
    #[inline(always)]
    pub fn convert_raw(&self, entry: ArangeEntry) -> Result<Option<ArangeEntry>, Error>
        ensures { outcome_is (option_map entry_is) result
            ≡ (if is_size self.now.encoding.address_size
            then outcome_of (convert self.now.encoding.address_size entry.range.begin entry.length)
            else fault_of 4 self.now.encoding.address_size) }
    {
        convert_range(self.encoding.address_size, entry.range.begin, entry.length)
    }
}

// What the next tuple answers, which is none for a null pair or for code that is not there.
#[inline(always)]
pub(crate) fn next_outcome<R: AddressReader>(
    input: &mut R,
    address_size: u8,
) -> Option<Result<Option<ArangeEntry>, Error>>
    ensures answers { option_map (outcome_is (option_map entry_is)) result
        ≡ option_map outcome_of (next_says converted address_size (R.means input.old)) }
    ensures leaves { R.means input.new ≡ (next_two address_size (R.means input.old)).after }
{
    match next_tuple(input, address_size) {
        Ok(Some((begin, length))) => Some(convert_pair(address_size, begin, length)),
        Ok(None) => None,
        Err(error) => Some(Err(error)),
    }
}

// The two addresses of the next tuple, a null pair too; a fault leaves no more.
#[inline(always)]
fn next_tuple<R: AddressReader>(
    input: &mut R,
    address_size: u8,
) -> Result<Option<(u64, u64)>, Error>
    ensures { Did (λ x. x) result (R.means input.new) (next_two address_size (R.means input.old)) }
{
    let tuple_length = 2 * (address_size as u64);
    if tuple_length == 0 || input.len().into_u64() < tuple_length {
        input.empty();
        return Ok(None);
    }
    let tuple = read_tuple(input, address_size);
    or_empty(input, tuple).map(Some)
}

// What the two addresses of a tuple answer.
#[inline(always)]
fn convert_pair(address_size: u8, begin: u64, length: u64) -> Result<Option<ArangeEntry>, Error>
    requires { is_size address_size ≡ true }
    ensures { outcome_is (option_map entry_is) result
        ≡ outcome_of (pair converted address_size begin length) }
{
    if begin == 0 && length == 0 {
        return Ok(None);
    }
    convert_range(address_size, begin, length)
}

// The range from a begin on, or none if the begin stands for code that is not there.
#[inline(always)]
fn convert_range(address_size: u8, begin: u64, length: u64) -> Result<Option<ArangeEntry>, Error>
    ensures { outcome_is (option_map entry_is) result
        ≡ (if is_size address_size then outcome_of (convert address_size begin length)
        else fault_of 4 address_size) }
{
    if begin >= min_tombstone(address_size)? {
        return Ok(None);
    }
    let end = add_sized(begin, length, address_size)?;
    Ok(Some(ArangeEntry {
        range: Range { begin, end },
        length,
    }))
}

// A read's outcome, where a fault leaves no bytes.
#[inline(always)]
fn or_empty<R: Reader, T>(input: &mut R, outcome: Result<T, Error>) -> Result<T, Error>
    ensures same { result ≡ outcome }
    ensures left { MatchResult result (λ _. R.means input.new ≡ R.means input.old)
        (λ _. R.means input.new ≡ no_bytes (R.means input.old)) }
{
    if outcome.is_err() {
        input.empty();
    }
    outcome
}

// The two addresses of a tuple.
#[inline(always)]
fn read_tuple<R: AddressReader>(input: &mut R, address_size: u8) -> Result<(u64, u64), Error>
    ensures { Did (λ x. x) result (R.means input.new) (two address_size (R.means input.old)) }
{
    let begin = input.read_address(address_size)?;
    let length = input.read_address(address_size)?;
    Ok((begin, length))
}

/// One tuple of a set.
#[derive(Clone, Copy)]
pub struct ArangeEntry {
    range: Range,
    length: u64,
}

impl ArangeEntry {
    /// The first address.
    pub fn address(&self) -> u64
        ensures { result ≡ (entry_is self.now).begin }
    {
        self.range.begin
    }

    /// How many addresses there are.
    pub fn length(&self) -> u64
        ensures { result ≡ (entry_is self.now).length }
    {
        self.length
    }

    /// From the first address up to the end, which is 0 in a tuple from `next_raw`.
    pub fn range(&self) -> Range
        ensures { result ≡ self.now.range }
    {
        self.range
    }
}

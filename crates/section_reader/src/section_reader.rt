// A reader of a section in memory, whatever the width of its offsets.
ghost use Rattle.std.specs.Prelude.{◌≡◌, ℕ, ◌+◌, ◌^◌, ◌<◌, ◌≤◌, ◌&&◌, length, nat_le, nat_lt, IfOk, ⊤};
ghost use Rattle.readers.specs.Links.{Did, Filled, outcome_is, is_big};
ghost use Rattle.readers.specs.Sections.{part, section_opening, highest_id};
ghost use Rattle.readers.specs.Reading.{no_bytes, skip_step, truncate_step, split_step, copy_step};

use numbers::{read_plain_address, read_plain_sized_offset, read_word};
use readers::{AddressReader, Error, Format, Reader, ReaderOffset, ReaderOffsetId, RunTimeEndian};
use std::alloc::AllocError;
use std::marker::PhantomData;

/// A part of the caller's section that is read from the front, with a byte order and a kind of offset.
pub struct SectionReader<'a, O: ReaderOffset> {
    // the whole section beside a place in it and not the bytes left alone, so that contracts can tell the place
    section: &'a [u8],
    // the place of the next byte, and how many are left
    first: usize,
    len: usize,
    // the id of place 0
    base: u64,
    endian: RunTimeEndian,
    offset: PhantomData<O>,
    ghost within: { first + len ≤ length section.now },
    // each place has an id, and the number of bytes left is an offset
    ghost named: { base + length section.now < 2 ^ 64 },
    ghost told: { len < O.limit },
}

impl<O: ReaderOffset> Clone for SectionReader<'_, O> {
    ghost is_clone = { λ x y. y ≡ x };

    ghost is_infallible = { λ _. ⊤ };

    fn clone(&self) -> Result<Self, AllocError> {
        Ok(*self)
    }
}

impl<O: ReaderOffset> Copy for SectionReader<'_, O> {}

impl<'a, O: ReaderOffset> SectionReader<'a, O> {
    ghost use Rattle.section_reader.specs.Means.{section_means, Kept};

    /// Opens a section whose first byte has the id `base`.
    pub fn new(
        section: &'a [u8],
        base: u64,
        endian: RunTimeEndian,
    ) -> Result<SectionReader<'a, O>, Error>
        ensures opens { outcome_is section_means result
            ≡ section_opening
            (nat_le (base + length section.now) highest_id && nat_lt (length section.now) O.limit)
            base section.now (is_big endian) }
        ensures whole { IfOk result
            (λ s. (s.section.now ≡ section.now) × (s.first ≡ 0) × (s.len ≡ length section.now)) }
    {
        let len = section.len();
        if O::from_u64(len as u64).is_err() || len as u64 > u64::MAX - base {
            return Err(Error::SectionTooLong);
        }
        Ok(SectionReader {
            section,
            first: 0,
            len,
            base,
            endian,
            offset: PhantomData,
        })
    }

    /// The bytes left, as a part of the section.
    pub fn slice(&self) -> &'a [u8]
        ensures place { result.now ≡ part self.now.first self.now.len self.now.section.now }
        ensures left { result.now ≡ (section_means self.now).rest }
    {
        &self.section[self.first..self.first + self.len]
    }

    // the id of the next byte
    fn id(&self) -> u64
        ensures { result ≡ (section_means self.now).id }
    {
        self.base + self.first as u64
    }

    // moves past the next `len` bytes, and answers them
    fn take(&mut self, len: usize) -> Result<&'a [u8], Error>
        ensures did { Did (λ x. x.now) result (section_means self.new)
            (copy_step len (section_means self.old)) }
        ensures kept { Kept self.new self.old }
    {
        if len > self.len {
            return Err(Error::UnexpectedEof(self.offset_id()));
        }
        let bytes = &self.section[self.first..self.first + len];
        self.first += len;
        self.len -= len;
        Ok(bytes)
    }
}

impl<O: ReaderOffset> Reader for SectionReader<'_, O> {
    ghost use Rattle.section_reader.specs.Means.{section_means, Kept};

    type Offset = O;

    ghost means = { section_means };

    fn endian(&self) -> RunTimeEndian {
        self.endian
    }

    fn len(&self) -> O {
        O::from_u64(self.len as u64).unwrap()
    }

    fn offset_id(&self) -> ReaderOffsetId {
        ReaderOffsetId(self.id())
    }

    fn clone(&self) -> Self {
        *self
    }

    // `kept`, here and below, ties the reader to the one before the call, which no invariant of the type can
    fn empty(&mut self)
        ensures did { section_means self.new ≡ no_bytes (section_means self.old) }
        ensures kept { Kept self.new self.old }
    {
        self.len = 0;
    }

    fn truncate(&mut self, len: O) -> Result<(), Error>
        ensures did { Did (λ x. x) result (section_means self.new)
            (truncate_step (O.number len) (section_means self.old)) }
        ensures kept { Kept self.new self.old }
    {
        let len = len.into_u64() as usize;
        if len > self.len {
            return Err(Error::UnexpectedEof(self.offset_id()));
        }
        self.len = len;
        Ok(())
    }

    fn skip(&mut self, len: O) -> Result<(), Error>
        ensures did { Did (λ x. x) result (section_means self.new)
            (skip_step (O.number len) (section_means self.old)) }
        ensures kept { Kept self.new self.old }
    {
        self.take(len.into_u64() as usize)?;
        Ok(())
    }

    fn split(&mut self, len: O) -> Result<Self, Error>
        ensures did { Did section_means result (section_means self.new)
            (split_step (O.number len) (section_means self.old)) }
        ensures kept { Kept self.new self.old }
        ensures part { IfOk result (λ front. Kept front self.old) }
    {
        let mut front = *self;
        front.len = self.take(len.into_u64() as usize)?.len();
        Ok(front)
    }

    fn read_slice(&mut self, buf: &mut [u8]) -> Result<(), Error>
        ensures did { Filled result (buf.old, buf.new) (section_means self.new)
            (copy_step (length buf.old) (section_means self.old)) }
        ensures kept { Kept self.new self.old }
    {
        let bytes = self.take(buf.len())?;
        buf.copy_from_slice(bytes);
        Ok(())
    }

    fn next_ten(&self) -> Option<&[u8; 10]> {
        self.slice().first_chunk()
    }

    fn find(&self, byte: u8) -> Result<O, Error> {
        match self.slice().iter().position(|other| *other == byte) {
            Some(place) => O::from_u64(place as u64),
            None => Err(Error::UnexpectedEof(self.offset_id())),
        }
    }

    fn lookup_offset_id(&self, id: ReaderOffsetId) -> Option<O> {
        let distance = id.0.checked_sub(self.id())?;
        if distance <= self.len as u64 {
            O::from_u64(distance).ok()
        } else {
            None
        }
    }

    fn offset_from(&self, base: &Self) -> Option<O> {
        let distance = self.id().checked_sub(base.id())?;
        if distance + self.len as u64 <= base.len as u64 {
            O::from_u64(distance).ok()
        } else {
            None
        }
    }
}

impl<O: ReaderOffset> AddressReader for SectionReader<'_, O> {
    #[inline(always)]
    fn read_address(&mut self, address_size: u8) -> Result<u64, Error> {
        read_plain_address(self, address_size)
    }

    #[inline(always)]
    fn read_offset(&mut self, format: Format) -> Result<O, Error> {
        read_word(self, format)
    }

    fn read_sized_offset(&mut self, size: u8) -> Result<O, Error> {
        read_plain_sized_offset(self, size)
    }
}

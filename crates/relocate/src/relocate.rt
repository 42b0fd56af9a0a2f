// The trait of relocation policies, and the reader that asks one about what it reads.
ghost use Rattle.std.specs.Prelude.{◌≡◌, ◌-◌};
ghost use Rattle.readers.specs.Reading.{offset_number};
ghost use Rattle.readers.specs.Links.{outcome_is};
ghost use Rattle.relocate.specs.Relocating.{Policy, layer, outcome_then};

use readers::{AddressReader, Error, Format, Reader, ReaderOffset, ReaderOffsetId, RunTimeEndian};

/// What becomes of an address or an offset that was read at an offset of a section.
pub trait Relocate: Copy {
    ghost policy: { Self → Policy };

    fn relocate_address(&self, offset: u64, value: u64) -> Result<u64, Error>
        ensures { outcome_is (λ x. x) result ≡ (policy self.now).address offset value };

    fn relocate_offset(&self, offset: u64, value: u64) -> Result<u64, Error>
        ensures { outcome_is (λ x. x) result ≡ (policy self.now).offset offset value };
}

/// A reader whose addresses and offsets are relocated.
#[derive(Drop)]
pub struct RelocateReader<R: Reader, T: Relocate> {
    reader: R,
    // the id at which the layer was made
    start: u64,
    relocate: T,
}

impl<R: Reader, T: Relocate> RelocateReader<R, T> {
    /// A layer over a reader, whose offsets count from where the reader is.
    pub fn new(reader: R, relocate: T) -> RelocateReader<R, T>
        ensures { ⟦<RelocateReader<R, T> as Reader>⟧.means result
            ≡ layer R.Offset.limit (T.policy relocate) (R.means reader).id (R.means reader) }
    {
        let start = reader.offset_id().0;
        RelocateReader {
            reader,
            start,
            relocate,
        }
    }

    /// The reader below.
    pub fn inner(&self) -> &R
        ensures { result.now ≡ self.now.reader }
    {
        &self.reader
    }

    // how far the reader is from where the layer was made
    #[inline(always)]
    fn offset(&self) -> u64
        ensures { result ≡ (R.means self.now.reader).id - self.now.start }
    {
        let id = self.reader.offset_id().0;
        id.saturating_sub(self.start)
    }

    // what the policy makes of an offset that was read there, if it fits again
    #[inline(always)]
    fn relocate_offset(&self, offset: u64, value: R::Offset) -> Result<R::Offset, Error>
        ensures { outcome_is R.Offset.number result
            ≡ outcome_then
            ((T.policy self.now.relocate).offset offset (R.Offset.number value))
            (offset_number R.Offset.limit) }
    {
        let moved = self.relocate.relocate_offset(offset, value.into_u64())?;
        R::Offset::from_u64(moved)
    }
}

impl<R: Reader, T: Relocate> Reader for RelocateReader<R, T> {
    type Offset = R::Offset;

    ghost means = { λ s. layer R.Offset.limit (T.policy s.relocate) s.start (R.means s.reader) };

    fn endian(&self) -> RunTimeEndian {
        self.reader.endian()
    }

    fn len(&self) -> R::Offset {
        self.reader.len()
    }

    fn offset_id(&self) -> ReaderOffsetId {
        self.reader.offset_id()
    }

    fn clone(&self) -> Self {
        RelocateReader {
            reader: self.reader.clone(),
            start: self.start,
            relocate: self.relocate,
        }
    }

    fn empty(&mut self) {
        self.reader.empty()
    }

    fn truncate(&mut self, len: R::Offset) -> Result<(), Error> {
        self.reader.truncate(len)
    }

    fn skip(&mut self, len: R::Offset) -> Result<(), Error> {
        self.reader.skip(len)
    }

    fn split(&mut self, len: R::Offset) -> Result<Self, Error> {
        let reader = self.reader.split(len)?;
        Ok(RelocateReader {
            reader,
            start: self.start,
            relocate: self.relocate,
        })
    }

    fn read_slice(&mut self, buf: &mut [u8]) -> Result<(), Error> {
        self.reader.read_slice(buf)
    }

    fn next_ten(&self) -> Option<&[u8; 10]> {
        self.reader.next_ten()
    }

    fn find(&self, byte: u8) -> Result<R::Offset, Error> {
        self.reader.find(byte)
    }

    fn lookup_offset_id(&self, id: ReaderOffsetId) -> Option<R::Offset> {
        self.reader.lookup_offset_id(id)
    }

    fn offset_from(&self, base: &Self) -> Option<R::Offset> {
        self.reader.offset_from(&base.reader)
    }
}

impl<R: AddressReader, T: Relocate> AddressReader for RelocateReader<R, T> {
    #[inline(always)]
    #[tactic(auto, using(crate::proofs::Layers::address_layer))]
    fn read_address(&mut self, address_size: u8) -> Result<u64, Error> {
        let offset = self.offset();
        let value = self.reader.read_address(address_size)?;
        self.relocate.relocate_address(offset, value)
    }

    #[inline(always)]
    #[tactic(auto, using(crate::proofs::Layers::offset_layer))]
    fn read_offset(&mut self, format: Format) -> Result<R::Offset, Error> {
        let offset = self.offset();
        let value = self.reader.read_offset(format)?;
        self.relocate_offset(offset, value)
    }

    #[inline(always)]
    #[tactic(auto, using(crate::proofs::Layers::sized_offset_layer))]
    fn read_sized_offset(&mut self, size: u8) -> Result<R::Offset, Error> {
        let offset = self.offset();
        let value = self.reader.read_sized_offset(size)?;
        self.relocate_offset(offset, value)
    }
}

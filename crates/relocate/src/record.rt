// The records of a relocation table.
ghost use Rattle.std.specs.Prelude.{◌≡◌};
ghost use Rattle.readers.specs.Links.{outcome_is};
ghost use Rattle.relocate.specs.Relocating.{by_kind, kind_of};

use readers::Error;

/// What a relocation does with the value that stands at its offset.
#[derive(Clone, Copy, PartialEq, Eq, Debug)]
pub enum RelocationKind {
    /// Adds the amount modulo 2^64.
    Add,
    /// Puts the amount in the value's place.
    Replace,
    /// Any other kind, which is refused.
    Unknown,
}

impl From<u8> for RelocationKind {
    ghost from_gives = { λ number kind. kind ≡ kind_of number };

    fn from(number: u8) -> RelocationKind {
        match number {
            0 => RelocationKind::Add,
            1 => RelocationKind::Replace,
            _ => RelocationKind::Unknown,
        }
    }
}

/// The amount by which the value at an offset of a section is changed, and how.
#[derive(Clone, Copy)]
pub struct Relocation {
    pub offset: u64,
    pub kind: RelocationKind,
    pub amount: u64,
}

impl Relocation {
    /// What becomes of a value; `RelocationRefused` with the offset where the kind is unknown.
    #[inline(always)]
    pub fn apply(&self, value: u64) -> Result<u64, Error>
        ensures { outcome_is (λ x. x) result ≡ by_kind self.now.kind self.now value }
    {
        match self.kind {
            RelocationKind::Add => Ok(value.wrapping_add(self.amount)),
            RelocationKind::Replace => Ok(self.amount),
            RelocationKind::Unknown => Err(Error::RelocationRefused(self.offset)),
        }
    }
}

/// A relocation, and maybe more that is known of its place.
pub trait Record: Copy {
    ghost use Rattle.relocate.specs.declared.record.Relocation.{Relocation};

    ghost relocation: { Self → Relocation };

    fn relocation(&self) -> Relocation
        ensures { result ≡ relocation self.now };
}

impl Record for Relocation {
    ghost relocation = { λ r. r };

    #[inline(always)]
    fn relocation(&self) -> Relocation {
        *self
    }
}

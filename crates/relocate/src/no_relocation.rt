// The policy that changes nothing.
ghost use Rattle.readers.specs.Reading.{no_relocation};
ghost use Rattle.relocate.specs.Relocating.{uniform_policy};

use crate::relocate::Relocate;
use readers::Error;

/// The policy that changes nothing.
#[derive(Clone, Copy)]
pub struct NoRelocation;

impl Relocate for NoRelocation {
    ghost policy = { λ _. uniform_policy no_relocation };

    fn relocate_address(&self, _offset: u64, value: u64) -> Result<u64, Error> {
        Ok(value)
    }

    fn relocate_offset(&self, _offset: u64, value: u64) -> Result<u64, Error> {
        Ok(value)
    }
}

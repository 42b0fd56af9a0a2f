// What the kinds of relocations of each machine do.
ghost use Rattle.std.specs.Prelude.{◌≡◌};
ghost use Rattle.elf_relocations.specs.Actions.{action_of, bytes_of, low_part};

use elf::Machine;

/// How many bytes a relocation changes: the low ones of a sum are kept.
#[derive(Clone, Copy, PartialEq, Eq, Debug)]
pub enum Width {
    Four,
    Eight,
}

/// What a kind of relocation does with its place.
#[derive(Clone, Copy, PartialEq, Eq, Debug)]
pub enum Action {
    /// Leaves it as it is.
    Nothing,
    /// Puts an address there.
    Absolute(Width),
    /// Adds an address, and comes before one that subtracts another there.
    Add(Width),
    /// Subtracts an address.
    Sub(Width),
}

impl Action {
    /// What a kind of relocation does, if that is done here; 0 is no relocation on each machine.
    pub fn of(machine: Machine, kind: u32) -> Option<Action>
        ensures { result ≡ action_of machine kind }
    {
        match (machine, kind) {
            (_, 0) => Some(Action::Nothing),
            (Machine::I386, 1) => Some(Action::Absolute(Width::Four)),
            (Machine::Mips, 2) => Some(Action::Absolute(Width::Four)),
            (Machine::Mips, 18) => Some(Action::Absolute(Width::Eight)),
            (Machine::PowerPc, 1) => Some(Action::Absolute(Width::Four)),
            (Machine::PowerPc64, 1) => Some(Action::Absolute(Width::Four)),
            (Machine::PowerPc64, 38) => Some(Action::Absolute(Width::Eight)),
            (Machine::Arm, 2) => Some(Action::Absolute(Width::Four)),
            (Machine::X8664, 1) => Some(Action::Absolute(Width::Eight)),
            (Machine::X8664, 10) => Some(Action::Absolute(Width::Four)),
            (Machine::AArch64, 257) => Some(Action::Absolute(Width::Eight)),
            (Machine::AArch64, 258) => Some(Action::Absolute(Width::Four)),
            (Machine::RiscV, 1) => Some(Action::Absolute(Width::Four)),
            (Machine::RiscV, 2) => Some(Action::Absolute(Width::Eight)),
            (Machine::RiscV, 35) => Some(Action::Add(Width::Four)),
            (Machine::RiscV, 36) => Some(Action::Add(Width::Eight)),
            (Machine::RiscV, 39) => Some(Action::Sub(Width::Four)),
            (Machine::RiscV, 40) => Some(Action::Sub(Width::Eight)),
            _ => None,
        }
    }
}

impl Width {
    /// 4 or 8.
    pub fn bytes(self) -> u8
        ensures { result ≡ bytes_of self }
    {
        match self {
            Width::Four => 4,
            Width::Eight => 8,
        }
    }

    /// The low bytes of a number, as many as the width has.
    pub fn wrap(self, number: u64) -> u64
        ensures { result ≡ low_part self number }
    {
        match self {
            Width::Four => number % (1 << 32),
            Width::Eight => number,
        }
    }
}

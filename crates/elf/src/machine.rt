// The machines whose relocations are known.
ghost use Rattle.std.specs.Prelude.{◌≡◌, Some};
ghost use Rattle.elf.specs.Kinds.{machine_of};
ghost use Rattle.elf.specs.Texts.{machine_name};

use std::fmt;

/// A machine whose relocations are known.
#[derive(Clone, Copy, PartialEq, Eq, Debug)]
pub enum Machine {
    I386,
    Mips,
    PowerPc,
    PowerPc64,
    Arm,
    X8664,
    AArch64,
    RiscV,
}

impl Machine {
    /// The machine of a number in a file's header (`e_machine`), if its relocations are known.
    pub fn of(number: u16) -> Option<Machine>
        ensures { result ≡ machine_of number }
    {
        match number {
            3 => Some(Machine::I386),
            8 => Some(Machine::Mips),
            20 => Some(Machine::PowerPc),
            21 => Some(Machine::PowerPc64),
            40 => Some(Machine::Arm),
            62 => Some(Machine::X8664),
            183 => Some(Machine::AArch64),
            243 => Some(Machine::RiscV),
            _ => None,
        }
    }
}

/// Writes the machine's name.
impl fmt::Display for Machine {
    ghost output = { λ machine. Some (machine_name machine) };

    fn fmt<W: fmt::Write>(&self, f: &mut fmt::Formatter<W>) -> fmt::Result {
        let name = match self {
            Machine::I386 => "i386",
            Machine::Mips => "MIPS",
            Machine::PowerPc => "PowerPC",
            Machine::PowerPc64 => "PowerPC64",
            Machine::Arm => "ARM",
            Machine::X8664 => "x86-64",
            Machine::AArch64 => "AArch64",
            Machine::RiscV => "RISC-V",
        };
        write!(f, "{name}")
    }
}

//! Why a text is not read.

ghost use Rattle.std.specs.Prelude.{◌≡◌};

use base_types::Memory;
use std::fmt;

/// Why a text of N-Quads is not read.
#[derive(Clone, Copy, Debug, PartialEq, Eq)]
pub enum NqFault {
    /// The line that begins at this byte is no line of N-Quads. It is the first that is none.
    At(u64),
    /// The text says more statements than this.
    TooManyStatements(u64),
    /// The statements mention more blank nodes than this.
    TooManyBlanks(u64),
    /// There was not enough memory.
    Memory,
}

impl From<Memory> for NqFault {
    ghost use Rattle.nquads.specs.declared.fault.NqFault.TheVariants as fault;

    ghost from_gives = { λ _ e. e ≡ fault.Memory };

    fn from(_memory: Memory) -> NqFault {
        NqFault::Memory
    }
}

impl fmt::Display for NqFault {
    ghost use Rattle.std.specs.Prelude.{Some};
    ghost use Rattle.nquads.specs.Faults.{fault_line};

    ghost output = { λ fault. Some (fault_line fault) };

    fn fmt<W: fmt::Write>(&self, f: &mut fmt::Formatter<W>) -> fmt::Result {
        match self {
            NqFault::At(at) => write!(f, "what begins at byte {at} is no line of N-Quads"),
            NqFault::TooManyStatements(most) => write!(
                f,
                "the text says more than {most} statements"
            ),
            NqFault::TooManyBlanks(most) => write!(
                f,
                "the text mentions more than {most} blank nodes"
            ),
            NqFault::Memory => write!(f, "out of memory"),
        }
    }
}

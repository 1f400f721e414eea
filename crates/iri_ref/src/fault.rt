//! Why a text or a reference is refused.
use base_types::Memory;
use std::fmt;

/// The text holds a character that no IRI holds; the first stands at the byte `at`.
#[derive(Clone, Copy, Debug, PartialEq, Eq)]
pub struct BadAt {
    pub at: u64,
}

impl fmt::Display for BadAt {
    fn fmt<W: fmt::Write>(&self, f: &mut fmt::Formatter<W>) -> fmt::Result {
        write!(f, "no IRI holds the character at byte {}", self.at)
    }
}

/// Why a reference has no meaning at a base.
#[derive(Clone, Copy, Debug, PartialEq, Eq)]
pub enum IriFault {
    /// The reference holds a character that no IRI holds; the first stands at this byte.
    BadIri(u64),
    /// Out of memory.
    Memory,
}

impl fmt::Display for IriFault {
    fn fmt<W: fmt::Write>(&self, f: &mut fmt::Formatter<W>) -> fmt::Result {
        match self {
            IriFault::BadIri(at) => write!(f, "no IRI holds the character at byte {at}"),
            IriFault::Memory => f.write_str("out of memory"),
        }
    }
}

impl From<Memory> for IriFault {
    ghost use Rattle.std.specs.Prelude.{◌≡◌};
    ghost use Rattle.iri_ref.specs.declared.fault.IriFault.TheVariants as fault;

    ghost from_gives = { λ _ e. e ≡ fault.Memory };

    fn from(_memory: Memory) -> IriFault {
        IriFault::Memory
    }
}

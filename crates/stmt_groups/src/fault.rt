//! Why a part is none.

ghost use Rattle.std.specs.Prelude.{◌≡◌};

use base_types::{Memory, Text};
use std::fmt;

/// Why a dataset and two lists of statements are not marked.
#[derive(Debug, Drop, PartialEq, Eq)]
pub enum PartFault {
    /// A statement is out of place: a part has it and the whole does not, or it is mandatory and
    /// not chosen. This is its line without the LF, in which each blank node is `_:x`. No other
    /// statement that is out of place has a lesser one.
    NotPart(Text),
    /// There was not enough memory.
    Memory,
}

impl From<Memory> for PartFault {
    ghost use Rattle.stmt_groups.specs.declared.fault.PartFault.TheVariants as fault;

    ghost from_gives = { λ _ e. e ≡ fault.Memory };

    fn from(_memory: Memory) -> PartFault {
        PartFault::Memory
    }
}

impl fmt::Display for PartFault {
    fn fmt<W: fmt::Write>(&self, f: &mut fmt::Formatter<W>) -> fmt::Result {
        match self {
            PartFault::NotPart(text) => {
                let text = text.as_str();
                write!(f, "the statement is not part of the whole: {text}")
            }
            PartFault::Memory => f.write_str("out of memory"),
        }
    }
}

//! Why blank nodes are not labelled.

ghost use Rattle.std.specs.Prelude.{◌≡◌};

use base_types::Memory as NoMemory;
use std::fmt;

/// Why blank nodes are not labelled.
#[derive(Clone, Copy, Debug, PartialEq, Eq)]
pub enum LabelFault {
    /// These two canonical numbers have one label; the lesser is the first.
    Clash(u64, u64),
    /// Out of memory.
    Memory,
}

impl fmt::Display for LabelFault {
    fn fmt<W: fmt::Write>(&self, f: &mut fmt::Formatter<W>) -> fmt::Result {
        match self {
            LabelFault::Clash(first, second) => write!(
                f,
                "the canonical numbers {first} and {second} have one label"
            ),
            LabelFault::Memory => f.write_str("out of memory"),
        }
    }
}

impl From<NoMemory> for LabelFault {
    ghost use Rattle.hmac_labels.specs.declared.fault.LabelFault.TheVariants as fault;

    ghost from_gives = { λ _ e. e ≡ fault.Memory };

    fn from(_memory: NoMemory) -> LabelFault {
        LabelFault::Memory
    }
}

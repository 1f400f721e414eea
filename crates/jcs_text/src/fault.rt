//! Why a tree has no canonical text.

use base_types::Memory;
use std::alloc::AllocError;
use std::fmt;

/// Why a tree has no canonical text.
#[derive(Clone, Copy, Debug, PartialEq, Eq)]
pub enum JcsFault {
    /// The tree holds a version number, which need not be whole.
    Version,
    /// Out of memory.
    Memory,
}

impl fmt::Display for JcsFault {
    fn fmt<W: fmt::Write>(&self, f: &mut fmt::Formatter<W>) -> fmt::Result {
        match self {
            JcsFault::Version => f.write_str("the tree holds a version number"),
            JcsFault::Memory => f.write_str("out of memory"),
        }
    }
}

impl From<Memory> for JcsFault {
    ghost use Rattle.std.specs.Prelude.{◌≡◌};
    ghost use Rattle.jcs_text.specs.declared.fault.JcsFault.TheVariants as fault;

    ghost from_gives = { λ _ e. e ≡ fault.Memory };

    fn from(_error: Memory) -> JcsFault {
        JcsFault::Memory
    }
}

impl From<AllocError> for JcsFault {
    ghost use Rattle.std.specs.Prelude.{◌≡◌};
    ghost use Rattle.jcs_text.specs.declared.fault.JcsFault.TheVariants as fault;

    ghost from_gives = { λ _ e. e ≡ fault.Memory };

    fn from(_error: AllocError) -> JcsFault {
        JcsFault::Memory
    }
}

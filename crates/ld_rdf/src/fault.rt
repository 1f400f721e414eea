//! Why a request gives no statements.

use base_types::Memory;
use std::alloc::AllocFailed;
use std::fmt;

/// Why a request gives no statements.
#[derive(Clone, Copy, Debug, PartialEq, Eq)]
pub enum FlatFault {
    /// The request is not flat.
    NotBuilt,
    /// Out of memory.
    Memory,
}

impl fmt::Display for FlatFault {
    fn fmt<W: fmt::Write>(&self, f: &mut fmt::Formatter<W>) -> fmt::Result {
        match self {
            FlatFault::NotBuilt => f.write_str("the request is not flat"),
            FlatFault::Memory => f.write_str("out of memory"),
        }
    }
}

impl From<Memory> for FlatFault {
    ghost use Rattle.std.specs.Prelude.{◌≡◌};
    ghost use Rattle.ld_rdf.specs.declared.fault.FlatFault.TheVariants as fault;

    ghost from_gives = { λ _ e. e ≡ fault.Memory };

    fn from(_error: Memory) -> FlatFault {
        FlatFault::Memory
    }
}

impl<T: Drop> From<AllocFailed<T>> for FlatFault {
    ghost use Rattle.std.specs.Prelude.{◌≡◌};
    ghost use Rattle.ld_rdf.specs.declared.fault.FlatFault.TheVariants as fault;

    ghost from_gives = { λ _ e. e ≡ fault.Memory };

    fn from(_error: AllocFailed<T>) -> FlatFault {
        FlatFault::Memory
    }
}

//! Why a text is no pointer, and why pointers select nothing.
use base_types::Memory;
use std::alloc::AllocFailed;
use std::fmt;

/// Why a text gives no pointer.
#[derive(Clone, Copy, Debug, PartialEq, Eq)]
pub enum PointerFault {
    /// The text leaves the grammar, at this byte first: byte 0 is no `/`, or neither `0` nor `1`
    /// follows the `~` that stands there. RFC 6901, section 3.
    BadPointer(u64),
    /// Out of memory.
    Memory,
}

/// Why pointers give no part of a tree.
#[derive(Clone, Copy, Debug, PartialEq, Eq)]
pub enum SelectFault {
    /// The pointer of this index names no place, and each before it names one.
    Missing(u64),
    /// Out of memory.
    Memory,
}

impl fmt::Display for PointerFault {
    fn fmt<W: fmt::Write>(&self, f: &mut fmt::Formatter<W>) -> fmt::Result {
        match self {
            PointerFault::BadPointer(at) => write!(f, "no JSON Pointer: it fails at byte {at}"),
            PointerFault::Memory => f.write_str("out of memory"),
        }
    }
}

impl fmt::Display for SelectFault {
    fn fmt<W: fmt::Write>(&self, f: &mut fmt::Formatter<W>) -> fmt::Result {
        match self {
            SelectFault::Missing(index) => write!(f, "pointer {index} names no place"),
            SelectFault::Memory => f.write_str("out of memory"),
        }
    }
}

impl From<Memory> for PointerFault {
    ghost use Rattle.std.specs.Prelude.{◌≡◌};
    ghost use Rattle.pointer_select.specs.declared.fault.PointerFault.TheVariants as fault;

    ghost from_gives = { λ _ e. e ≡ fault.Memory };

    fn from(_memory: Memory) -> PointerFault {
        PointerFault::Memory
    }
}

impl From<Memory> for SelectFault {
    ghost use Rattle.std.specs.Prelude.{◌≡◌};
    ghost use Rattle.pointer_select.specs.declared.fault.SelectFault.TheVariants as fault;

    ghost from_gives = { λ _ e. e ≡ fault.Memory };

    fn from(_memory: Memory) -> SelectFault {
        SelectFault::Memory
    }
}

impl<T: Drop> From<AllocFailed<T>> for SelectFault {
    ghost use Rattle.std.specs.Prelude.{◌≡◌};
    ghost use Rattle.pointer_select.specs.declared.fault.SelectFault.TheVariants as fault;

    ghost from_gives = { λ _ e. e ≡ fault.Memory };

    fn from(_error: AllocFailed<T>) -> SelectFault {
        SelectFault::Memory
    }
}

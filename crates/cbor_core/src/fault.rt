//! Why bytes are refused.

ghost use Rattle.std.specs.Prelude.{◌≡◌};

use base_types::Memory;
use std::fmt;

/// Why bytes are not one item: the first refusal from left to right. A number is a place in the
/// input, counted in bytes from 0.
#[derive(Clone, Copy, Debug, PartialEq, Eq)]
pub enum CborFault {
    /// The input ends inside the item. It carries the input's length.
    Truncated(u64),
    /// The argument of the head at this byte has a shorter spelling (RFC 8949, 4.2.1).
    NotShortest(u64),
    /// The head at this byte has another major type than 0, 2, 3, 4 and 5, an argument code of 28 to
    /// 31, a text that is not UTF-8, or a list or map that nests more than 4 deep; or it is a key and
    /// no whole number.
    Forbidden(u64),
    /// The key at this byte stands in its map before.
    RepeatedKey(u64),
    /// Bytes follow the item, the first of them here.
    Trailing(u64),
    /// More than 100,000 items begin, keys counted.
    TooMany,
    /// There was not enough memory.
    Memory,
}

impl From<Memory> for CborFault {
    ghost use Rattle.cbor_core.specs.declared.fault.CborFault.TheVariants as fault;

    ghost from_gives = { λ _ e. e ≡ fault.Memory };

    fn from(_memory: Memory) -> CborFault {
        CborFault::Memory
    }
}

impl fmt::Display for CborFault {
    ghost use Rattle.std.specs.Prelude.{Some};
    ghost use Rattle.cbor_core.specs.Lines.{fault_line};

    ghost output = { λ fault. Some (fault_line fault) };

    fn fmt<W: fmt::Write>(&self, f: &mut fmt::Formatter<W>) -> fmt::Result {
        match self {
            CborFault::Truncated(at) => write!(f, "the input ends at byte {at}, inside an item"),
            CborFault::NotShortest(at) => write!(f, "the head at byte {at} has a shorter spelling"),
            CborFault::Forbidden(at) => write!(f, "what begins at byte {at} may not stand there"),
            CborFault::RepeatedKey(at) => write!(
                f,
                "the key at byte {at} stands in its map before"
            ),
            CborFault::Trailing(at) => write!(f, "bytes follow the item, from byte {at} on"),
            CborFault::TooMany => write!(f, "more than 100,000 items begin"),
            CborFault::Memory => write!(f, "out of memory"),
        }
    }
}

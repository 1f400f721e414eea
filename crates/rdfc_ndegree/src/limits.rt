//! Limits, what was spent, faults, issuers (RDF Dataset Canonicalization, 4.3).
ghost use Rattle.std.specs.Prelude.{◌≡◌};

use base_types::{Memory, Sequence};
use digest_mac::HexDigest;
use std::alloc::AllocFailed;
use std::fmt;
use term_store::TermId;

/// How many arrangements may be evaluated.
#[derive(Clone, Copy, Debug, PartialEq, Eq)]
pub struct Limits {
    pub work: u64,
}

/// The arrangements evaluated so far, and the limit.
#[derive(Clone, Copy, Debug, PartialEq, Eq)]
pub struct Meter {
    pub spent: u64,
    pub limits: Limits,
}

/// Why a dataset was not labelled.
#[derive(Clone, Copy, Debug, PartialEq, Eq)]
pub enum CanonFault {
    /// More arrangements than this limit would be evaluated.
    TooMuchWork(u64),
    /// Out of memory.
    Memory,
}

impl fmt::Display for CanonFault {
    fn fmt<W: fmt::Write>(&self, f: &mut fmt::Formatter<W>) -> fmt::Result {
        match self {
            CanonFault::TooMuchWork(most) => write!(
                f,
                "more than {most} arrangements would be evaluated"
            ),
            CanonFault::Memory => f.write_str("out of memory"),
        }
    }
}

impl From<Memory> for CanonFault {
    ghost use Rattle.rdfc_ndegree.specs.declared.limits.CanonFault.TheVariants as fault;

    ghost from_gives = { λ _ e. e ≡ fault.Memory };

    fn from(_memory: Memory) -> CanonFault {
        CanonFault::Memory
    }
}

impl<T: Drop> From<AllocFailed<T>> for CanonFault {
    ghost use Rattle.rdfc_ndegree.specs.declared.limits.CanonFault.TheVariants as fault;

    ghost from_gives = { λ _ e. e ≡ fault.Memory };

    fn from(_error: AllocFailed<T>) -> CanonFault {
        CanonFault::Memory
    }
}

/// An identifier issuer (RDF Dataset Canonicalization, 4.3): the blank nodes that it has named, in
/// order, by their numbers in a store. A node's place is the number of its identifier.
#[derive(Debug, Drop)]
pub struct Issuer {
    pub order: Sequence<TermId>,
}

/// What n-degree hashing gives: the hash, the issuer, and whether a tie was met that counts.
#[derive(Debug, Drop)]
pub struct Path {
    pub hash: HexDigest,
    pub issuer: Issuer,
    pub tie: bool,
}

//! What gives bytes, and how all of them are read.
ghost use Rattle.std.specs.Prelude.{◌≡◌, ℕ, ◌+◌, ◌<◌, ◌≤◌, length, take, Err, IfOk, OnOk, OnErr, IsErrOf};
ghost use Rattle.std.specs.Io.KnownBytes.{IsAtEnd};
ghost use Rattle.base_types.specs.Counts.{HasRisen};
ghost use Rattle.vc_io.specs.Bytes.{SourceMeaning, Gave, GaveAll, GaveFirst, IsAllOf, IsMoreThan};

use std::alloc::{AllocError, Global};
use std::fmt;

/// How many bytes `read_all` asks a source for at once, at most: what a pipe holds.
const PIECE: usize = 65_536;

/// A read or a write failed. The count of faults of its source or sink rose.
#[derive(Clone, Copy, Debug, PartialEq, Eq)]
pub struct Failed;

impl fmt::Display for Failed {
    fn fmt<W: fmt::Write>(&self, f: &mut fmt::Formatter<W>) -> fmt::Result {
        f.write_str("a read or a write failed")
    }
}

/// What gives bytes.
pub trait Source {
    /// The bytes that it will still give, where it tells them, and how often it failed.
    ghost means: { Self → SourceMeaning };

    /// Puts some bytes at the front of `into`, and answers how many. 0 for an `into` that is not
    /// empty is the end. `Failed`: the read failed.
    fn read(&mut self, into: &mut [u8]) -> Result<usize, Failed>
        ensures within { IfOk result (λ n. n ≤ length into.old) }
        ensures gave { IfOk result (λ n. Gave (means self.old) (means self.new) (take n into.new)) }
        ensures end { IfOk result (λ n.
            n ≡ 0 → 0 < length into.old → IsAtEnd (means self.old).left) }
        ensures counted { (means self.old).faults ≤ (means self.new).faults }
        ensures failed { OnErr result (HasRisen (means self.old).faults (means self.new).faults) };
}

/// Why `read_all` gave no bytes.
#[derive(Clone, Copy, Debug, PartialEq, Eq)]
pub enum ReadAllFault {
    /// A read failed.
    Failed,
    /// The source gave more than so many bytes, the most that were allowed.
    TooLong(u64),
    /// Out of memory.
    Memory,
}

impl fmt::Display for ReadAllFault {
    fn fmt<W: fmt::Write>(&self, f: &mut fmt::Formatter<W>) -> fmt::Result {
        match self {
            ReadAllFault::Failed => f.write_str("a read failed"),
            ReadAllFault::TooLong(most) => write!(f, "there are more than {most} bytes"),
            ReadAllFault::Memory => f.write_str("out of memory"),
        }
    }
}

impl From<Failed> for ReadAllFault {
    ghost use Rattle.vc_io.specs.declared.source.ReadAllFault.TheVariants as fault;

    ghost from_gives = { λ _ e. e ≡ fault.Failed };

    fn from(_failed: Failed) -> ReadAllFault {
        ReadAllFault::Failed
    }
}

impl From<AllocError> for ReadAllFault {
    ghost use Rattle.vc_io.specs.declared.source.ReadAllFault.TheVariants as fault;

    ghost from_gives = { λ _ e. e ≡ fault.Memory };

    fn from(_error: AllocError) -> ReadAllFault {
        ReadAllFault::Memory
    }
}

/// So many zeros, on the heap.
fn zeros(alloc: Global, count: usize) -> Result<Vec<u8>, AllocError>
    ensures { IfOk result (λ bytes. length bytes.items ≡ count) }
{
    vec![in alloc; 0u8; count]
}

/// All bytes of `source` to its end, at most `max` of them.
///
/// `TooLong(max)`: it gave one byte more than that, and reading stopped there.
/// `Failed`: a read failed.
#[tactic(auto, using(crate::proofs::Moves::turns))]
pub fn read_all<S: Source>(alloc: Global, source: &mut S, max: u64) -> Result<Vec<u8>, ReadAllFault>
    ensures all { IfOk result (λ bytes. IsAllOf (S.means source.old) bytes.items) }
    ensures at_most { IfOk result (λ bytes. length bytes.items ≤ max) }
    ensures used_up { OnOk result (GaveAll (S.means source.old) (S.means source.new)) }
    ensures too_long { (m : ℕ) → result ≡ Err (ReadAllFault.TooLong m)
        → (m ≡ max) × IsMoreThan max (S.means source.old) }
    ensures stops { (m : ℕ) → result ≡ Err (ReadAllFault.TooLong m)
        → GaveFirst (max + 1) (S.means source.old) (S.means source.new) }
    ensures failed { IsErrOf result ReadAllFault.Failed
        → HasRisen (S.means source.old).faults (S.means source.new).faults }
    ensures counted { (S.means source.old).faults ≤ (S.means source.new).faults }
{
    let mut bytes = Vec::new(alloc);
    let mut room = zeros(alloc, PIECE)?;
    let piece = room.as_mut_slice();
    while bytes.len() as u64 <= max {
        // At most one byte past `max`. The sum cannot overflow, even where `max` is `u64::MAX`.
        let wanted = (max - bytes.len() as u64).min(PIECE as u64 - 1) + 1;
        let into = &mut piece[..wanted as usize];
        let taken = source.read(into)?;
        if taken == 0 {
            return Ok(bytes);
        }
        bytes.extend_from_slice(&into[..taken])?;
    }
    Err(ReadAllFault::TooLong(max))
}

//! What takes bytes, and how all of them are written.
ghost use Rattle.std.specs.Prelude.{◌<◌, ◌≤◌, length, take, IfOk, OnOk, OnErr};
ghost use Rattle.base_types.specs.Counts.{HasRisen};
ghost use Rattle.vc_io.specs.Bytes.{SinkMeaning, Wrote, WrotePrefix};

use crate::source::Failed;
use std::fmt;

/// What takes bytes.
pub trait Sink {
    /// The bytes that it took so far, where it tells them, and how often it failed.
    ghost means: { Self → SinkMeaning };

    /// Takes some first bytes of `from`, at least one where there is one, and answers how many.
    /// `Failed`: the write failed, and some first bytes of `from` may have been taken.
    fn write(&mut self, from: &[u8]) -> Result<usize, Failed>
        ensures within { IfOk result (λ n. n ≤ length from.now) }
        ensures some { IfOk result (λ n. 0 < length from.now → 0 < n) }
        ensures wrote { IfOk result (λ n.
            Wrote (means self.old) (means self.new) (take n from.now)) }
        ensures prefix { OnErr result (WrotePrefix (means self.old) (means self.new) from.now) }
        ensures counted { (means self.old).faults ≤ (means self.new).faults }
        ensures failed { OnErr result (HasRisen (means self.old).faults (means self.new).faults) };
}

/// A write failed before all bytes were taken. The sink's count of faults rose.
#[derive(Clone, Copy, Debug, PartialEq, Eq)]
pub struct WriteFailed;

impl fmt::Display for WriteFailed {
    fn fmt<W: fmt::Write>(&self, f: &mut fmt::Formatter<W>) -> fmt::Result {
        f.write_str("a write failed")
    }
}

impl From<Failed> for WriteFailed {
    fn from(_failed: Failed) -> WriteFailed {
        WriteFailed
    }
}

/// Writes all of `bytes`. It takes no memory.
///
/// `WriteFailed`: a write failed. The sink then took a first part of `bytes`.
#[tactic(auto, using(crate::proofs::Moves::writes))]
pub fn write_all<K: Sink>(sink: &mut K, bytes: &[u8]) -> Result<(), WriteFailed>
    ensures all { OnOk result (Wrote (K.means sink.old) (K.means sink.new) bytes.now) }
    ensures prefix { OnErr result (WrotePrefix (K.means sink.old) (K.means sink.new) bytes.now) }
    ensures failed { OnErr result (HasRisen (K.means sink.old).faults (K.means sink.new).faults) }
    ensures counted { (K.means sink.old).faults ≤ (K.means sink.new).faults }
{
    let mut at = 0;
    while at < bytes.len() {
        at += sink.write(&bytes[at..])?;
    }
    Ok(())
}

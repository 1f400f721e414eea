//! A sink over a writer of std.
ghost use Rattle.std.specs.Prelude.{◌≡◌, ◌<◌, ◌≤◌, [], length, take, IfOk, OnOk, OnErr};
ghost use Rattle.base_types.specs.Counts.{HasRisen, one_more};
ghost use Rattle.vc_io.specs.Bytes.{Wrote, WrotePrefix};
ghost use Rattle.vc_io.specs.Adapters.{writer_of, write_faults, writer_meaning};

use crate::sink::Sink;
use crate::source::Failed;
use std::io::Write;

/// A sink over a writer of std. It tells what the writer tells. Each error is a fault, an
/// interrupted write too, and so is a write that takes nothing of a piece that is not empty.
#[derive(Debug, Drop)]
pub struct WriterSink<W> {
    writer: W,
    count: u64,
}

impl<W: Write> WriterSink<W> {
    /// A sink over `writer`, which has not failed yet.
    pub fn new(writer: W) -> WriterSink<W>
        ensures writer { writer_of result ≡ writer }
        ensures faults { write_faults result ≡ 0 }
    {
        WriterSink { writer, count: 0 }
    }

    /// How many writes failed.
    pub fn faults(&self) -> u64
        ensures { result ≡ write_faults self.now }
    {
        self.count
    }

    /// The writer.
    pub fn into_inner(self) -> W
        ensures { result ≡ writer_of self }
    {
        self.writer
    }
}

impl<W: Write> Sink for WriterSink<W> {
    ghost means = { writer_meaning W.contents };

    fn write(&mut self, from: &[u8]) -> Result<usize, Failed>
        ensures within { IfOk result (λ n. n ≤ length from.now) }
        ensures some { IfOk result (λ n. 0 < length from.now → 0 < n) }
        ensures wrote { let means = writer_meaning W.contents in
            IfOk result (λ n. Wrote (means self.old) (means self.new) (take n from.now)) }
        ensures prefix { let means = writer_meaning W.contents in
            OnErr result (WrotePrefix (means self.old) (means self.new) from.now) }
        ensures counted { write_faults self.old ≤ write_faults self.new }
        ensures failed { OnErr result (HasRisen (write_faults self.old) (write_faults self.new)) }
        // the count rises at a fault, by one, and at nothing else
        ensures one_more { OnErr result (write_faults self.new ≡ one_more (write_faults self.old)) }
        ensures no_more { OnOk result (write_faults self.new ≡ write_faults self.old) }
        // a fault takes no byte
        ensures kept { let means = writer_meaning W.contents in
            OnErr result (Wrote (means self.old) (means self.new) []) }
    {
        match self.writer.write(from) {
            Ok(taken) if taken > 0 || from.is_empty() => Ok(taken),
            _ => {
                self.count = self.count.saturating_add(1);
                Err(Failed)
            }
        }
    }
}

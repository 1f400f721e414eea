//! A source over a reader of std.
ghost use Rattle.std.specs.Prelude.{◌≡◌, ◌<◌, ◌≤◌, [], length, take, IfOk, OnOk, OnErr};
ghost use Rattle.std.specs.Io.KnownBytes.{IsAtEnd};
ghost use Rattle.base_types.specs.Counts.{HasRisen, one_more};
ghost use Rattle.vc_io.specs.Bytes.{Gave};
ghost use Rattle.vc_io.specs.Adapters.{reader_of, read_faults, reader_meaning};

use crate::source::{Failed, Source};
use std::io::Read;

/// A source over a reader of std. It tells what the reader tells. Each error is a fault, an
/// interrupted read too.
#[derive(Debug, Drop)]
pub struct ReaderSource<R> {
    reader: R,
    count: u64,
}

impl<R: Read> ReaderSource<R> {
    /// A source over `reader`, which has not failed yet.
    pub fn new(reader: R) -> ReaderSource<R>
        ensures reader { reader_of result ≡ reader }
        ensures faults { read_faults result ≡ 0 }
    {
        ReaderSource { reader, count: 0 }
    }

    /// How many reads failed.
    pub fn faults(&self) -> u64
        ensures { result ≡ read_faults self.now }
    {
        self.count
    }

    /// The reader.
    pub fn into_inner(self) -> R
        ensures { result ≡ reader_of self }
    {
        self.reader
    }
}

impl<R: Read> Source for ReaderSource<R> {
    ghost means = { reader_meaning R.remaining };

    fn read(&mut self, into: &mut [u8]) -> Result<usize, Failed>
        ensures within { IfOk result (λ n. n ≤ length into.old) }
        ensures gave { let means = reader_meaning R.remaining in
            IfOk result (λ n. Gave (means self.old) (means self.new) (take n into.new)) }
        ensures end { let means = reader_meaning R.remaining in
            IfOk result (λ n. n ≡ 0 → 0 < length into.old → IsAtEnd (means self.old).left) }
        ensures counted { read_faults self.old ≤ read_faults self.new }
        ensures failed { OnErr result (HasRisen (read_faults self.old) (read_faults self.new)) }
        // the count rises at an error, by one, and at nothing else
        ensures one_more { OnErr result (read_faults self.new ≡ one_more (read_faults self.old)) }
        ensures no_more { OnOk result (read_faults self.new ≡ read_faults self.old) }
        // an error takes no byte
        ensures kept { let means = reader_meaning R.remaining in
            OnErr result (Gave (means self.old) (means self.new) []) }
    {
        match self.reader.read(into) {
            Ok(taken) => Ok(taken),
            Err(_) => {
                self.count = self.count.saturating_add(1);
                Err(Failed)
            }
        }
    }
}

//! A sink into memory, which fails at chosen calls.
ghost use Rattle.std.specs.Prelude.{◌≡◌, [], ◌<◌, ◌≤◌, ◌↔◌, length, take, IfOk, OnErr, IsErr};
ghost use Rattle.base_types.specs.Counts.{HasRisen};
ghost use Rattle.vc_io.specs.Bytes.{Wrote, WrotePrefix};
ghost use Rattle.vc_io.specs.InMemory.{empty_sink, sink_meaning, WriteFails, write_count, after_write, after_failed_write};

use crate::memory_source::move_count;
use crate::sink::Sink;
use crate::source::Failed;
use base_types::Memory;
use std::alloc::Global;
use std::marker::Model;

/// A sink into memory for `room` bytes, which it takes at the start, so that a write takes none.
/// Each write takes as many bytes as it can, at most `piece` (0 counts as 1). It fails exactly at
/// the calls whose numbers, from 1, stand in `fails`, and where there are bytes to take and no room
/// is left.
#[derive(Debug, Drop)]
pub struct MemorySink {
    bytes: Vec<u8>,
    room: usize,
    piece: u64,
    fails: Vec<u64>,
    calls: u64,
    count: u64,
}

impl Model for MemorySink {
    ghost use Rattle.std.specs.Prelude.{◌≤◌, vec_len, vec_capacity};
    ghost use Rattle.vc_io.specs.InMemory.{SinkState};

    ghost Value = { SinkState };

    ghost view = { λ s. record {
      written = s.bytes.items;
      room = s.room;
      piece = s.piece;
      fails = s.fails.items;
      calls = s.calls;
      count = s.count;
    } };

    ghost invariant = { λ s. (vec_len s.bytes ≤ s.room) × (s.room ≤ vec_capacity s.bytes) };
}

impl MemorySink {
    /// An empty sink, called no time yet, with the memory for `room` bytes.
    pub fn new(alloc: Global, room: u64, piece: u64, fails: Vec<u64>) -> Result<MemorySink, Memory>
        ensures { IfOk result (λ s. s ≡ empty_sink room piece fails.items) }
    {
        let room = room as usize;
        Ok(MemorySink {
            bytes: Vec::with_capacity(alloc, room)?,
            room,
            piece,
            fails,
            calls: 0,
            count: 0,
        })
    }

    /// The bytes written so far.
    pub fn written(&self) -> &[u8]
        ensures bytes { result.now ≡ self.now.written }
        ensures fits { length result.now ≤ self.now.room }
    {
        self.bytes.as_slice()
    }

    /// The bytes written so far.
    pub fn into_written(self) -> Vec<u8>
        ensures { result.items ≡ self.written }
    {
        let MemorySink {
            bytes,
            room: _,
            piece: _,
            fails,
            calls: _,
            count: _,
        } = self;
        drop(fails);
        bytes
    }

    /// How many writes failed.
    pub fn faults(&self) -> u64
        ensures { result ≡ self.now.count }
    {
        self.count
    }
}

impl Sink for MemorySink {
    ghost means = { sink_meaning };

    fn write(&mut self, from: &[u8]) -> Result<usize, Failed>
        ensures within { IfOk result (λ n. n ≤ length from.now) }
        ensures some { IfOk result (λ n. 0 < length from.now → 0 < n) }
        ensures wrote { IfOk result (λ n.
            Wrote (sink_meaning self.old) (sink_meaning self.new) (take n from.now)) }
        ensures prefix { OnErr result (
            WrotePrefix (sink_meaning self.old) (sink_meaning self.new) from.now) }
        ensures counted { self.old.count ≤ self.new.count }
        ensures failed { OnErr result (HasRisen self.old.count self.new.count) }
        // and exactly what it does
        ensures fails { IsErr result ↔ WriteFails self.old (length from.now) }
        ensures count { IfOk result (λ n. n ≡ write_count self.old (length from.now)) }
        ensures after { IfOk result (λ n. self.new ≡ after_write self.old (take n from.now)) }
        ensures after_failure { OnErr result (self.new ≡ after_failed_write self.old) }
    {
        self.calls = self.calls.saturating_add(1);
        let available = self.room - self.bytes.len();
        if self.fails.contains(&self.calls) || (available == 0 && !from.is_empty()) {
            self.count = self.count.saturating_add(1);
            return Err(Failed);
        }
        let moved = move_count(self.piece, from.len(), available);
        match self.bytes.extend_from_slice(&from[..moved]) {
            Ok(()) => Ok(moved),
            Err(_) => unreachable!(),
        }
    }
}

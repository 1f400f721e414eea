//! A source over bytes in memory, which fails at chosen calls.
ghost use Rattle.std.specs.Prelude.{◌≡◌, ◌<◌, ◌≤◌, ◌↔◌, ◌++◌, length, take, drop, IfOk, OnErr, IsErr};
ghost use Rattle.std.specs.Io.KnownBytes.{IsAtEnd};
ghost use Rattle.base_types.specs.Counts.{HasRisen};
ghost use Rattle.vc_io.specs.Bytes.{Gave};
ghost use Rattle.vc_io.specs.InMemory.{moved_count, uncalled_source, source_meaning, ReadFails, read_count, after_read, after_failed_read};

use crate::source::{Failed, Source};
use std::marker::Model;

/// A source over bytes in memory. Each read gives as many bytes as it can, at most `piece` (0
/// counts as 1), and fails exactly at the calls whose numbers, from 1, stand in `fails`.
#[derive(Debug, Drop)]
pub struct MemorySource {
    bytes: Vec<u8>,
    at: usize,
    piece: u64,
    fails: Vec<u64>,
    calls: u64,
    count: u64,
}

impl Model for MemorySource {
    ghost use Rattle.std.specs.Prelude.{◌≤◌, length, drop};
    ghost use Rattle.vc_io.specs.InMemory.{SourceState};

    ghost Value = { SourceState };

    ghost view = { λ s. record {
      left = drop s.at s.bytes.items;
      piece = s.piece;
      fails = s.fails.items;
      calls = s.calls;
      count = s.count;
    } };

    ghost invariant = { λ s. s.at ≤ length s.bytes.items };
}

impl MemorySource {
    /// A source that gives `bytes`, called no time yet. It takes no memory.
    pub fn new(bytes: Vec<u8>, piece: u64, fails: Vec<u64>) -> MemorySource
        ensures { result ≡ uncalled_source bytes.items piece fails.items }
    {
        MemorySource {
            bytes,
            at: 0,
            piece,
            fails,
            calls: 0,
            count: 0,
        }
    }

    /// How many reads failed.
    pub fn faults(&self) -> u64
        ensures { result ≡ self.now.count }
    {
        self.count
    }
}

/// How many bytes one call moves, where so many are handed in and so many available.
pub(crate) fn move_count(piece: u64, handed: usize, available: usize) -> usize
    ensures { result ≡ moved_count piece handed available }
{
    let most = piece.max(1);
    let there = handed.min(available);
    if most < there as u64 {
        most as usize
    } else {
        there
    }
}

impl Source for MemorySource {
    ghost means = { source_meaning };

    fn read(&mut self, into: &mut [u8]) -> Result<usize, Failed>
        ensures within { IfOk result (λ n. n ≤ length into.old) }
        ensures gave { IfOk result (λ n.
            Gave (source_meaning self.old) (source_meaning self.new) (take n into.new)) }
        ensures end { IfOk result (λ n.
            n ≡ 0 → 0 < length into.old → IsAtEnd (source_meaning self.old).left) }
        ensures counted { self.old.count ≤ self.new.count }
        ensures failed { OnErr result (HasRisen self.old.count self.new.count) }
        // and exactly what it does
        ensures fails { IsErr result ↔ ReadFails self.old }
        ensures count { IfOk result (λ n. n ≡ read_count self.old (length into.old)) }
        ensures after { IfOk result (λ n. self.new ≡ after_read self.old n) }
        ensures bytes { IfOk result (λ n. into.new ≡ take n self.old.left ++ drop n into.old) }
        ensures after_failure { OnErr result (self.new ≡ after_failed_read self.old) }
        ensures nothing_moved { OnErr result (into.new ≡ into.old) }
    {
        self.calls = self.calls.saturating_add(1);
        if self.fails.contains(&self.calls) {
            self.count = self.count.saturating_add(1);
            return Err(Failed);
        }
        let moved = move_count(self.piece, into.len(), self.bytes.len() - self.at);
        into[..moved].copy_from_slice(&self.bytes[self.at..self.at + moved]);
        self.at += moved;
        Ok(moved)
    }
}

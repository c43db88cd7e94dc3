ghost use Rattle.std.specs.Prelude.{◌≡◌, ◌↔◌, ℕ, ◌<◌, ◌≤◌, [], ◌++◌, Some, length, take, drop, min, Contains, IsErr, IfOk, OnErr, MatchResult};
ghost use Rattle.mama_edge.specs.Count.{Rose, raised};

use crate::source::{ReadFailed, Source};
use std::marker::Model;

/// A source over memory, which tells its bytes. A call gives as many bytes as the piece, the buffer and what is left
/// allow; the calls whose numbers, from 1, are listed as failing fail.
///
/// Contracts see what is left, the piece, the numbers of failing calls, and how many calls were made and failed. A call
/// looks through the whole list of failing numbers.
#[derive(Debug, Drop)]
pub struct MemorySource {
    bytes: Vec<u8>,
    start: usize,
    piece: usize,
    failing: Vec<u64>,
    calls: u64,
    faults: u64,
}

impl Model for MemorySource {
    ghost use Rattle.std.specs.Prelude.{◌<◌, ◌≤◌, drop, vec_len};
    ghost use Rattle.mama_edge.specs.Memory.{SourceState};

    ghost Value = { SourceState };

    ghost view = { λ s. record {
      left = drop s.start s.bytes.items;
      piece = s.piece;
      failing = s.failing.items;
      calls = s.calls;
      faults = s.faults;
    } };

    ghost invariant = { λ s. (s.start ≤ vec_len s.bytes) × (0 < s.piece) };
}

impl MemorySource {
    /// A source of these bytes, of which a call gives at most `piece`.
    pub fn new(bytes: Vec<u8>, piece: usize, failing: Vec<u64>) -> MemorySource
        requires { 0 < piece }
        ensures { result ≡ record {
          left = bytes.items;
          piece = piece;
          failing = failing.items;
          calls = 0;
          faults = 0;
        } }
    {
        MemorySource {
            bytes,
            start: 0,
            piece,
            failing,
            calls: 0,
            faults: 0,
        }
    }

    /// The bytes that are not yet read.
    pub fn left(&self) -> &[u8]
        ensures { result.now ≡ self.now.left }
    {
        &self.bytes[self.start..]
    }
}

impl Source for MemorySource {
    ghost left = { λ s. Some s.left };

    ghost faults = { λ s. s.faults };

    /// As the trait says; and it fails exactly where the call's number is listed, and gives just as many bytes as it may.
    fn read(&mut self, buf: &mut [u8]) -> Result<usize, ReadFailed>
        requires { 0 < length buf.old }
        ensures bound { IfOk result (λ n. n ≤ length buf.new) }
        ensures given { IfOk result (λ n. self.old.left ≡ take n buf.new ++ self.new.left) }
        ensures end { IfOk result (λ n. (n ≡ 0) ↔ (self.old.left ≡ [])) }

        ensures failed { OnErr result (Rose self.old.faults self.new.faults) }
        ensures unchanged { OnErr result (self.new.left ≡ self.old.left) }
        ensures never_falls { self.old.faults ≤ self.new.faults }

        ensures listed { IsErr result ↔ Contains self.old.failing (raised self.old.calls) }
        ensures amount { IfOk result (λ n. n ≡ min self.old.piece (min (length buf.old) (length self.old.left))) }
        ensures after { MatchResult result
            (λ n. self.new ≡ record self.old { left = drop n self.old.left; calls = raised self.old.calls })
            (λ _. self.new ≡ record self.old { calls = raised self.old.calls; faults = raised self.old.faults }) }
    {
        self.calls = self.calls.saturating_add(1);
        if self.failing.contains(&self.calls) {
            self.faults = self.faults.saturating_add(1);
            return Err(ReadFailed);
        }
        let count = copy_front(&self.bytes[self.start..], self.piece, buf);
        self.start += count;
        Ok(count)
    }
}

/// Copies as many bytes of the front of `from` to the front of `buf` as `most` and the two allow, and answers how many.
fn copy_front(from: &[u8], most: usize, buf: &mut [u8]) -> usize
    ensures count { result ≡ min most (min (length buf.old) (length from.now)) }
    ensures bytes { take result buf.new ≡ take result from.now }
{
    let count = most.min(buf.len().min(from.len()));
    buf[..count].copy_from_slice(&from[..count]);
    count
}

ghost use Rattle.std.specs.Prelude.{◌≡◌, ◌↔◌, ◌⊎◌, ◌+◌, ◌-◌, ◌<◌, ◌≤◌, [], ◌++◌, Some, length, take, min, Contains, IsErr, IfOk, OnErr, MatchResult, vec_len, vec_capacity};
ghost use Rattle.mama_edge.specs.Count.{Rose, raised};

use crate::room::append_reserved;
use crate::sink::{Sink, WriteFailed};
use mama_memory::OutOfMemory;
use std::alloc::Global;
use std::marker::Model;

/// A sink over memory, which tells its bytes. A call fails exactly where its number, from 1, is listed as failing or
/// the sink is full. Any other call takes as many bytes as the piece, the buffer and the room allow.
///
/// Contracts see what was written, the room, the piece, the numbers of failing calls, and how many calls were made and
/// failed. A call looks through the whole list of failing numbers.
#[derive(Debug, Drop)]
pub struct MemorySink {
    bytes: Vec<u8>,
    room: usize,
    piece: usize,
    failing: Vec<u64>,
    calls: u64,
    faults: u64,
}

impl Model for MemorySink {
    ghost use Rattle.std.specs.Prelude.{◌<◌, ◌≤◌, vec_len, vec_capacity};
    ghost use Rattle.mama_edge.specs.Memory.{SinkState};

    ghost Value = { SinkState };

    ghost view = { λ s. record {
      written = s.bytes.items;
      room = s.room;
      piece = s.piece;
      failing = s.failing.items;
      calls = s.calls;
      faults = s.faults;
    } };

    ghost invariant = { λ s. (vec_len s.bytes ≤ s.room) × (s.room ≤ vec_capacity s.bytes) × (0 < s.piece) };
}

impl MemorySink {
    /// An empty sink with room for so many bytes, for which it takes the memory at once.
    pub fn new(
        alloc: Global,
        room: usize,
        piece: usize,
        failing: Vec<u64>,
    ) -> Result<MemorySink, OutOfMemory>
        requires { 0 < piece }
        ensures { IfOk result (λ sink. sink ≡ record {
          written = [];
          room = room;
          piece = piece;
          failing = failing.items;
          calls = 0;
          faults = 0;
        }) }
    {
        let bytes = Vec::with_capacity(alloc, room)?;
        Ok(MemorySink {
            bytes,
            room,
            piece,
            failing,
            calls: 0,
            faults: 0,
        })
    }

    /// The bytes that were written.
    pub fn written(&self) -> &[u8]
        ensures { result.now ≡ self.now.written }
    {
        &self.bytes
    }
}

impl Sink for MemorySink {
    ghost written = { λ s. Some s.written };

    ghost faults = { λ s. s.faults };

    /// As the trait says; and it fails exactly where the call's number is listed or the sink is full, and takes just
    /// as many bytes as it may.
    fn write(&mut self, buf: &[u8]) -> Result<usize, WriteFailed>
        requires { 0 < length buf.now }
        ensures some { IfOk result (λ n. 0 < n) }
        ensures bound { IfOk result (λ n. n ≤ length buf.now) }
        ensures appended { IfOk result (λ n. self.new.written ≡ self.old.written ++ take n buf.now) }

        ensures failed { OnErr result (Rose self.old.faults self.new.faults) }
        ensures unchanged { OnErr result (self.new.written ≡ self.old.written) }
        ensures never_falls { self.old.faults ≤ self.new.faults }

        ensures refused { IsErr result ↔ (Contains self.old.failing (raised self.old.calls)
            ⊎ (length self.old.written ≡ self.old.room)) }
        ensures amount { IfOk result (λ n. n ≡
            min self.old.piece (min (length buf.now) (self.old.room - length self.old.written))) }
        ensures after { MatchResult result
            (λ n. self.new ≡ record self.old
            { written = self.old.written ++ take n buf.now; calls = raised self.old.calls })
            (λ _. self.new ≡ record self.old { calls = raised self.old.calls; faults = raised self.old.faults }) }
    {
        self.calls = self.calls.saturating_add(1);
        if self.failing.contains(&self.calls) || self.bytes.len() == self.room {
            self.faults = self.faults.saturating_add(1);
            return Err(WriteFailed);
        }
        let room = self.room - self.bytes.len();
        let count = self.piece.min(buf.len().min(room));
        append_reserved(&mut self.bytes, &buf[..count]);
        Ok(count)
    }
}

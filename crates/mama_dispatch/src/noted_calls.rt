ghost use Rattle.std.specs.Prelude.{◌≡◌, ◌<◌, ◌≤◌, ◌+◌, ◌-◌, [], ◌∷◌, ◌++◌, OnOk, OnErr, IfOk, vec_len, vec_capacity};

use mama_event::{CallNote, Callback, GivenOrders};
use mama_memory::OutOfMemory;
use std::alloc::Global;

/// The callbacks that were noted of an object, with room that was taken ahead for more of them.
#[derive(Drop)]
pub(crate) struct NotedCalls {
    pub(crate) notes: Vec<CallNote>,
    pub(crate) room: usize,
    ghost spare: { vec_len notes + room ≤ vec_capacity notes },
}

impl NotedCalls {
    /// No callbacks, with room for the first.
    pub(crate) fn new(alloc: Global) -> Result<NotedCalls, OutOfMemory>
        ensures notes { IfOk result (λ calls. calls.notes.items ≡ []) }
        ensures room { IfOk result (λ calls. calls.room ≡ 1) }
    {
        Ok(NotedCalls {
            notes: Vec::with_capacity(alloc, 4)?,
            room: 1,
        })
    }

    /// Makes room for so many callbacks.
    pub(crate) fn reserve(&mut self, wanted: usize) -> Result<(), OutOfMemory>
        ensures notes { self.new.notes.items ≡ self.old.notes.items }
        ensures ok { OnOk result (self.new.room ≡ wanted) }
        ensures err { OnErr result (self.new.room ≡ self.old.room) }
    {
        self.notes.reserve(wanted)?;
        self.room = wanted;
        Ok(())
    }

    /// Gives all room up. The answer is for how many callbacks it was.
    pub(crate) fn give_up(&mut self) -> usize
        ensures notes { self.new.notes.items ≡ self.old.notes.items }
        ensures room { self.new.room ≡ 0 }
        ensures result { result ≡ self.old.room }
    {
        let room = self.room;
        self.room = 0;
        room
    }

    /// Notes a callback with the orders that were given in it. It takes no memory.
    pub(crate) fn push(&mut self, call: Callback, orders: GivenOrders)
        requires { 0 < self.old.room }
        ensures notes { self.new.notes.items ≡ self.old.notes.items ++ record { call = call; orders = orders } ∷ [] }
        ensures room { self.new.room ≡ self.old.room - 1 }
    {
        self.notes.push_reserved(CallNote { call, orders });
        self.room -= 1;
    }

    /// The callbacks with their orders.
    pub(crate) fn into_notes(self) -> Vec<CallNote>
        ensures { result.items ≡ self.notes.items }
    {
        let NotedCalls { notes, room: _ } = self;
        notes
    }
}

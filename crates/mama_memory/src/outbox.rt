ghost use Rattle.std.specs.Prelude.{◌≡◌, ◌+◌, ◌<◌, ◌≤◌, ◌↔◌, [], ◌∷◌, ◌++◌, length, IsTrue, IsOk, OnOk, OnErr, IfErr, IfSome, IfNone};

use crate::OutOfMemory;
use std::alloc::Global;
use std::collections::VecDeque;
use std::marker::Model;

/// What an actor or a link puts out, in order, until it is taken. Its spare is how many items more find room without
/// memory.
#[derive(Drop)]
pub struct Outbox<T> {
    items: VecDeque<T>,
}

impl<T> Model for Outbox<T> {
    ghost use Rattle.std.specs.Prelude.{◌-◌};
    ghost use Rattle.std.specs.VecDeque.{deque_len, deque_capacity};
    ghost use Rattle.mama_memory.specs.Outbox.{Parcels};

    ghost Value = { Parcels T };

    ghost view = { λ o. record { items = o.items.items; spare = deque_capacity o.items - deque_len o.items } };
}

impl<T> Outbox<T> {
    /// An empty outbox. It takes no memory.
    pub fn new(alloc: Global) -> Outbox<T>
        ensures { result.items ≡ [] }
    {
        Outbox {
            items: VecDeque::new(alloc),
        }
    }

    /// The number of items.
    pub fn len(&self) -> usize
        ensures { result ≡ length self.now.items }
    {
        self.items.len()
    }

    /// Whether there are no items.
    pub fn is_empty(&self) -> bool
        ensures { IsTrue result ↔ (self.now.items ≡ []) }
    {
        self.items.is_empty()
    }

    /// Takes the first item out.
    pub fn take_first(&mut self) -> Option<T>
        ensures some { IfSome result (λ first. self.old.items ≡ first ∷ self.new.items) }
        ensures none { IfNone result (self.old.items ≡ []) }
        ensures unchanged { IfNone result (self.new.items ≡ []) }
        ensures spare { self.old.spare ≤ self.new.spare }
    {
        self.items.pop_front()
    }

    /// Makes room for this many items more.
    pub fn reserve(&mut self, more: usize) -> Result<(), OutOfMemory>
        ensures items { self.new.items ≡ self.old.items }
        ensures ok { OnOk result (more ≤ self.new.spare) }
        ensures spare { self.old.spare ≤ self.new.spare }
        ensures succeeds { more ≤ self.old.spare → IsOk result }
    {
        Ok(self.items.reserve(more)?)
    }

    /// Puts an item last, or gives it back.
    pub fn push(&mut self, item: T) -> Result<(), T>
        ensures ok { OnOk result (self.new.items ≡ self.old.items ++ item ∷ []) }
        ensures refused { IfErr result (λ back. back ≡ item) }
        ensures unchanged { OnErr result (self.new.items ≡ self.old.items) }
        ensures spare { self.old.spare ≤ self.new.spare + 1 }
        ensures succeeds { 0 < self.old.spare → IsOk result }
    {
        self.items.push_back(item).map_err(|failed| failed.value)
    }

    /// Puts an item last, where there is room. It takes no memory.
    pub fn push_reserved(&mut self, item: T)
        requires { 0 < self.old.spare }
        ensures items { self.new.items ≡ self.old.items ++ item ∷ [] }
        ensures spare { self.new.spare + 1 ≡ self.old.spare }
    {
        self.items.push_back_reserved(item);
    }

    /// Moves all items of another outbox to the end of this one.
    pub fn append(&mut self, other: &mut Outbox<T>) -> Result<(), OutOfMemory>
        ensures ok { OnOk result (self.new.items ≡ self.old.items ++ other.old.items) }
        ensures moved { OnOk result (other.new.items ≡ []) }
        ensures unchanged { OnErr result (self.new.items ≡ self.old.items) }
        ensures other_unchanged { OnErr result (other.new.items ≡ other.old.items) }
        ensures spare { self.old.spare ≤ self.new.spare + length other.old.items }
        ensures other_spare { other.old.spare ≤ other.new.spare }
        ensures succeeds { length other.old.items ≤ self.old.spare → IsOk result }
    {
        Ok(self.items.append(&mut other.items)?)
    }
}

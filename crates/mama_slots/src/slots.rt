ghost use Rattle.std.specs.Prelude.{◌≡◌, ℕ, ◌+◌, ◌<◌, ◌^◌, ◌==◌, ◌&&◌, ◌||◌, true, false, not, is_some, List, IfSome, IfNone, IfOk, OnOk, OnErr};
ghost use Rattle.std.specs.List.{list_any};
ghost use Rattle.mama_journal.specs.Journal.{least_free};
ghost use Rattle.mama_slots.specs.Slots.{in_use, has_queue, is_freed, top_of, IsNext};

use mama_memory::OutOfMemory;
use std::alloc::Global;
use std::collections::{BTreeMap, BTreeSet};
use std::marker::Model;
use std::ops::Bound;

/// The slots of each queue: how many were ever in use, and which of those are free.
#[derive(Drop)]
pub struct Slots {
    tops: BTreeMap<u32, u32>,
    freed: BTreeSet<(u32, u32)>,
}

impl Model for Slots {
    ghost use Rattle.mama_slots.specs.Slots.{SlotData};
    ghost use Rattle.mama_slots.specs.Tops.{IsBelowTops};

    ghost Value = { SlotData };

    ghost view = { λ s. record { tops = s.tops.entries; freed = s.freed.keys } };

    ghost invariant = { λ s. IsBelowTops (record { tops = s.tops.entries; freed = s.freed.keys }) };
}

/// The next slot after as many as were ever in use, if there is one more number.
fn below_most(top: u32) -> Option<u32>
    ensures { IfSome result (λ slot. (slot ≡ top) × (slot + 1 < 2 ^ 32)) }
{
    if top == u32::MAX { None } else { Some(top) }
}

impl Slots {
    /// All slots of all queues are free. It takes no memory.
    pub fn new(alloc: Global) -> Slots
        ensures { (queue slot : ℕ) → in_use result queue slot ≡ false }
    {
        Slots {
            tops: BTreeMap::new(alloc),
            freed: BTreeSet::new(alloc),
        }
    }

    /// How many slots of a queue were ever in use.
    fn top(&self, queue: u32) -> u32
        ensures { result ≡ top_of self.now queue }
    {
        match self.tops.get(&queue) {
            Some(top) => *top,
            None => 0,
        }
    }

    /// The least slot of a queue that is free. None is left where 2^32 - 1 are in use.
    fn least(&self, queue: u32) -> Option<u32>
        ensures free { IfSome result (λ slot. in_use self.now queue slot ≡ false) }
        ensures least { IfSome result (λ slot. (k : ℕ) → k < slot → in_use self.now queue k ≡ true) }
        ensures few { IfSome result (λ slot. slot + 1 < 2 ^ 32) }
    {
        let _ = &self.tops;
        let top = self.top(queue);
        match self.first_freed(queue) {
            Some(slot) => Some(slot),
            None => below_most(top),
        }
    }

    /// The least slot of a queue that is free again.
    fn first_freed(&self, queue: u32) -> Option<u32>
        ensures freed { IfSome result (λ slot. is_freed self.now queue slot ≡ true) }
        ensures least { IfSome result (λ slot. (k : ℕ) → k < slot → is_freed self.now queue k ≡ false) }
        ensures none { IfNone result ((k : ℕ) → k < 2 ^ 32 → is_freed self.now queue k ≡ false) }
    {
        let from = Bound::Included((queue, 0));
        let upto = Bound::Included((queue, u32::MAX));
        let mut of_queue = self.freed.range((from, upto));
        match of_queue.next() {
            Some(&(_, slot)) => Some(slot),
            None => None,
        }
    }

    /// Makes room for one more slot of a queue.
    fn prepare(&mut self, queue: u32) -> Result<(), OutOfMemory>
        ensures same { (of slot : ℕ) → in_use self.new of slot ≡ in_use self.old of slot }
        ensures ready { OnOk result (has_queue self.new queue ≡ true) }
    {
        if !self.tops.contains_key(&queue) {
            self.tops.insert(queue, 0)?;
        }
        Ok(())
    }

    /// Tells the least slot of a queue that is free, and makes room to hold it. The error is want of memory, or that
    /// 2^32 - 1 are in use.
    pub fn next(&mut self, queue: u32) -> Result<u32, OutOfMemory>
        ensures next { IfOk result (λ slot. IsNext self.new queue slot) }
        ensures least { IfOk result (λ slot. (used : List ℕ) → ((k : ℕ) → in_use self.old queue k ≡ list_any (λ n. n == k) used) → slot ≡ least_free used) }
        ensures same { (of slot : ℕ) → in_use self.new of slot ≡ in_use self.old of slot }
    {
        self.prepare(queue)?;
        match self.least(queue) {
            Some(slot) => Ok(slot),
            None => Err(OutOfMemory),
        }
    }

    /// Puts the least free slot of a queue in use. There is room for it, so that it takes no memory.
    pub fn hold(&mut self, queue: u32, slot: u32)
        requires { IsNext self.old queue slot }
        ensures { (of k : ℕ) → in_use self.new of k ≡ (in_use self.old of k || (of == queue && k == slot)) }
    {
        if self.freed.remove(&(queue, slot)) {
            return;
        }
        if let Some(top) = self.tops.get_mut(&queue) {
            *top = slot + 1;
        }
    }

    /// Lets a slot go. Nothing changes if it is free.
    pub fn release(&mut self, queue: u32, slot: u32) -> Result<(), OutOfMemory>
        ensures ok { OnOk result ((of k : ℕ) → in_use self.new of k ≡ (in_use self.old of k && not (of == queue && k == slot))) }
        ensures err { OnErr result (self.new ≡ self.old) }
    {
        if slot < self.top(queue) {
            self.freed.insert((queue, slot))?;
        }
        Ok(())
    }
}

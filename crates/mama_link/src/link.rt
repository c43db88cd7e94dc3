ghost use Rattle.std.specs.Prelude.{◌≡◌, ◌+◌, ◌<◌, ◌≤◌, ◌++◌, [], ◌∷◌, List, length, IsOk, IfOk, OnOk, IfErr, OnErr, option_to_list};
ghost use Rattle.std.specs.List.{flat_map};
ghost use Rattle.mama_link.specs.Link.{emit, rest, messages};
ghost use Rattle.mama_link.specs.Standing.{standing_after, StandsFor};
ghost use Rattle.mama_link.specs.Prepared.{IsPreparedFor};

use crate::cuttable::Cuttable;
use crate::faults::Faults;
use crate::prepared::Prepared;
use crate::slots::{count_found, count_slot, fault_at_cursor, keep, make_room, put_all, release};
use mama_memory::{Duplicate, OutOfMemory, Outbox};
use std::alloc::Global;
use std::marker::Model;

/// Messages pass a link one by one, and its fault rows say which of them are lost, repeated, held back or cut.
#[derive(Drop)]
pub struct Link<T> {
    faults: Faults,
    passed: u64,
    held: usize,
    slots: Vec<Option<T>>,
}

impl<T> Model for Link<T> {
    ghost use Rattle.std.specs.Prelude.{◌-◌, vec_len};
    ghost use Rattle.std.specs.Vec.{vec_capacity};
    ghost use Rattle.mama_link.specs.Standing.{LinkData};

    ghost Value = { LinkData T };

    ghost use Rattle.mama_link.specs.Table.{table_of};
    ghost use Rattle.mama_link.specs.Slots.{held_in, IsKept};

    ghost view = { λ l. record { standing = record { rows = l.faults; passed = l.passed; held = held_in (table_of l.faults) l.slots.items }; room = vec_capacity l.slots - vec_len l.slots } };

    ghost invariant = { λ l. IsKept (table_of l.faults) l.passed l.held l.slots.items };
}

impl<T> Link<T> {
    /// A link that no message has passed. It takes no memory.
    pub fn new(alloc: Global, faults: Faults) -> Link<T>
        ensures { result.standing ≡ standing_after faults [] }
    {
        // No row has the index 0, so the first message comes before or at the first entry.
        let _ = faults.table();
        Link {
            faults,
            passed: 0,
            held: 0,
            slots: Vec::new(alloc),
        }
    }

    /// How many messages are held. It takes no memory.
    pub fn held(&self) -> usize
        ensures { result ≡ length self.now.standing.held }
    {
        self.held
    }
}

impl<T: Duplicate + Cuttable> Link<T> {
    /// Makes the copy and the room for the next pass, or gives the message back.
    fn ready(&mut self, message: T) -> Result<Prepared<T>, T>
        ensures prepared { IfOk result (λ prepared. IsPreparedFor T.cut_to self.new prepared) }
        ensures message { IfOk result (λ prepared. prepared.message ≡ message) }
        ensures len { IfOk result (λ prepared. (x : List T) → StandsFor x self.old.standing → prepared.len ≡ length (emit T.cut_to self.old.standing.rows (x ++ message ∷ []) (length x + 1))) }
        ensures refused { IfErr result (λ back. back ≡ message) }
        ensures standing { self.new.standing ≡ self.old.standing }
        ensures room { self.old.room ≤ self.new.room }
    {
        if self.passed == u64::MAX {
            return Err(message);
        }
        let place = self.passed + 1;
        let fault = fault_at_cursor(self.faults.table(), self.slots.len(), place);
        if make_room(&mut self.slots, fault.is_some()).is_err() {
            return Err(message);
        }
        let due = count_found(self.faults.due_at(place), self.slots.as_slice());
        Prepared::new(place, fault, message, due)
    }

    /// Makes the copies and the room that the next pass takes, which is to be of this message. What the link holds stays,
    /// and what was prepared before stays prepared. The error is want of memory, and also the answer of a link that
    /// 2^64 - 1 messages have passed.
    pub fn prepare(&mut self, message: &T) -> Result<Prepared<T>, OutOfMemory>
        ensures prepared { IfOk result (λ prepared. IsPreparedFor T.cut_to self.new prepared) }
        ensures message { IfOk result (λ prepared. prepared.message ≡ message.now) }
        ensures len { IfOk result (λ prepared. (x : List T) → StandsFor x self.old.standing → prepared.len ≡ length (emit T.cut_to self.old.standing.rows (x ++ message.now ∷ []) (length x + 1))) }
        ensures standing { self.new.standing ≡ self.old.standing }
        ensures room { self.old.room ≤ self.new.room }
    {
        let copy = message.try_clone()?;
        self.ready(copy).map_err(|_| OutOfMemory)
    }

    /// Passes the message that was prepared, as [`Link::pass`] does. It takes no memory.
    pub fn pass_prepared(&mut self, prepared: Prepared<T>, out: &mut Outbox<T>)
        requires prepared { IsPreparedFor T.cut_to self.old prepared }
        requires spare { prepared.len ≤ out.old.spare }
        ensures out { (x : List T) → StandsFor x self.old.standing → out.new.items ≡ out.old.items ++ emit T.cut_to self.old.standing.rows (x ++ prepared.message ∷ []) (length x + 1) }
        ensures standing { (x : List T) → StandsFor x self.old.standing → StandsFor (x ++ prepared.message ∷ []) self.new.standing }
        ensures rows { self.new.standing.rows ≡ self.old.standing.rows }
        ensures spare { out.old.spare ≤ out.new.spare + prepared.len }
    {
        let place = prepared.place();
        let faulty = prepared.fault().is_some();
        let own = prepared.put_own(out);
        let released = release(self.faults.due_at(place), &mut self.slots, out);
        self.held = self.held - released + count_slot(&own);
        keep(&mut self.slots, faulty, own);
        self.passed = place;
    }

    /// Passes the message, the next of the link. Err is want of memory, and gives the message back. It is also the
    /// answer of a link that 2^64 - 1 messages have passed.
    pub fn pass(&mut self, message: T, out: &mut Outbox<T>) -> Result<(), T>
        ensures out { OnOk result ((x : List T) → StandsFor x self.old.standing → out.new.items ≡ out.old.items ++ emit T.cut_to self.old.standing.rows (x ++ message ∷ []) (length x + 1)) }
        ensures standing { OnOk result ((x : List T) → StandsFor x self.old.standing → StandsFor (x ++ message ∷ []) self.new.standing) }
        ensures rows { self.new.standing.rows ≡ self.old.standing.rows }
        ensures refused { IfErr result (λ back. back ≡ message) }
        ensures unchanged { OnErr result (self.new.standing ≡ self.old.standing) }
        ensures out_unchanged { OnErr result (out.new.items ≡ out.old.items) }
    {
        let prepared = self.ready(message)?;
        if out.reserve(prepared.len()).is_err() {
            return Err(prepared.into_message());
        }
        self.pass_prepared(prepared, out);
        Ok(())
    }
}

impl<T: Drop> Link<T> {
    /// What the end puts out: the messages still held, in order of number and not of dueness.
    fn into_held(self) -> Vec<Option<T>>
        ensures { flat_map option_to_list result.items ≡ messages self.standing.held }
    {
        self.slots
    }

    /// Puts out the messages that are still held. Err is want of memory, and gives the link back.
    pub fn finish(self, out: &mut Outbox<T>) -> Result<(), Link<T>>
        ensures out { OnOk result ((x : List T) → StandsFor x self.standing → out.new.items ≡ out.old.items ++ rest self.standing.rows x) }
        ensures refused { IfErr result (λ back. back ≡ self) }
        ensures unchanged { OnErr result (out.new.items ≡ out.old.items) }
        ensures succeeds { length self.standing.held ≤ out.old.spare → IsOk result }
        ensures spare { OnOk result (out.old.spare ≤ out.new.spare + length self.standing.held) }
    {
        if out.reserve(self.held).is_err() {
            return Err(self);
        }
        put_all(self.into_held(), out);
        Ok(())
    }
}

ghost use Rattle.std.specs.Prelude.{◌≡◌, ◌<◌, ◌^◌, ℕ, List, [], length, map, IfOk};
ghost use Rattle.std.specs.List.{All, flat_map};
ghost use Rattle.mama_journal.specs.Journal.{numbers_below};
ghost use Rattle.mama_event.specs.declared.group.GroupNote.{GroupNote};
ghost use Rattle.mama_group.specs.Listener as groups;
ghost use Rattle.mama_plans.specs.Numbered.{numbered, lists_put};
ghost use Rattle.mama_grouped.specs.Closing.{lists_of, lists_in, AreBy, AreFound, AreInOrder};
ghost use Rattle.mama_grouped.specs.Seat.{HasHeard};

use crate::hearing::Hearing;
use crate::seat::GroupedSeat;
use mama_carry::Listener;
use mama_crew::Seat;
use mama_event::GroupNote;
use mama_group::GroupListener;
use mama_memory::OutOfMemory;
use mama_plans::{numbered_lists, put_list};
use std::alloc::Global;

/// The seats of a crew without their groups; what each group heard, in the order of the groups; and the listener of each, in the
/// place of its group.
#[derive(Drop)]
pub struct Heard<L: Listener, H: GroupListener> {
    pub seats: Vec<Seat<L>>,
    pub lists: Vec<(u32, Vec<GroupNote>)>,
    pub listeners: Vec<Option<H>>,
}

impl<L: Listener, H: GroupListener> Heard<L, H> {
    /// Takes so many groups from the seats. That a place is filled no clause says: [`listeners_in_order`] answers the error where one
    /// is empty. A listener whose number is not below the count is let go. The error is want of memory; then the seats are dropped.
    pub fn of(
        alloc: Global,
        count: usize,
        seats: Vec<GroupedSeat<L, H>>,
    ) -> Result<Heard<L, H>, OutOfMemory>
        requires { count < 2 ^ 32 }
        ensures seats { IfOk result (λ r. r.seats.items ≡ map (λ s. s.seat) seats.items) }
        ensures lists { IfOk result (λ r. numbered r.lists.items ≡ lists_put (flat_map lists_in seats.items) (map (λ n. (n, [])) (numbers_below count))) }
        ensures listeners { IfOk result (λ r. (by : ℕ → List GroupNote) → All (λ s. AreBy by s.hearing) seats.items → AreFound (groups.told H.tagged H.calls H.heard) by r.listeners.items) }
        ensures long { IfOk result (λ r. length r.listeners.items ≡ count) }
    {
        let alone = Vec::with_capacity(alloc, seats.len())?;
        let lists = numbered_lists(alloc, count)?;
        let listeners = no_listeners(alloc, count)?;
        let mut heard = Heard {
            seats: alone,
            lists,
            listeners,
        };
        for seat in seats {
            let GroupedSeat { seat, hearing } = seat;
            heard.seats.push(seat)?;
            heard.add(hearing);
        }
        Ok(heard)
    }

    // Puts what the groups of a seat heard, and their listeners, in the places of their numbers.
    fn add(&mut self, hearing: Option<Hearing<H>>)
        ensures seats { self.new.seats ≡ self.old.seats }
        ensures lists { numbered self.new.lists.items ≡ lists_put (lists_of hearing) (numbered self.old.lists.items) }
        ensures listeners { (by : ℕ → List GroupNote) → AreBy by hearing → AreFound (groups.told H.tagged H.calls H.heard) by self.old.listeners.items → AreFound (groups.told H.tagged H.calls H.heard) by self.new.listeners.items }
        ensures long { length self.new.listeners.items ≡ length self.old.listeners.items }
    {
        match hearing {
            Some(hearing) => put_parts(
                &mut self.lists,
                &mut self.listeners,
                hearing.groups.into_parts(),
            ),
            None => {}
        }
    }
}

// Puts what groups heard, and their listeners, in the places of their numbers.
fn put_parts<H: GroupListener>(
    lists: &mut Vec<(u32, Vec<GroupNote>)>,
    listeners: &mut Vec<Option<H>>,
    parts: Vec<(u32, Vec<GroupNote>, H)>,
)
    ensures lists { numbered lists.new.items ≡ lists_put (map (λ p. (p.0, p.1.items)) parts.items) (numbered lists.old.items) }
    ensures listeners { (by : ℕ → List GroupNote) → All (λ p. HasHeard p.0 (by p.0) (groups.told H.tagged H.calls H.heard p.2)) parts.items → AreFound (groups.told H.tagged H.calls H.heard) by listeners.old.items → AreFound (groups.told H.tagged H.calls H.heard) by listeners.new.items }
    ensures long { length listeners.new.items ≡ length listeners.old.items }
{
    for part in parts {
        let (number, notes, listener) = part;
        put_list(lists, number, notes);
        put_listener(listeners, number, listener);
    }
}

// Puts a listener in the place of its number, if there is the place.
fn put_listener<H: GroupListener>(listeners: &mut Vec<Option<H>>, number: u32, listener: H)
    ensures listeners { (by : ℕ → List GroupNote) → HasHeard number (by number) (groups.told H.tagged H.calls H.heard listener) → AreFound (groups.told H.tagged H.calls H.heard) by listeners.old.items → AreFound (groups.told H.tagged H.calls H.heard) by listeners.new.items }
    ensures long { length listeners.new.items ≡ length listeners.old.items }
{
    let place = number as usize;
    if place < listeners.len() {
        listeners[place] = Some(listener);
    }
}

// A place, still empty, for the listener of each of so many groups.
fn no_listeners<H: GroupListener>(
    alloc: Global,
    count: usize,
) -> Result<Vec<Option<H>>, OutOfMemory>
    ensures listeners { IfOk result (λ r. (by : ℕ → List GroupNote) → AreFound (groups.told H.tagged H.calls H.heard) by r.items) }
    ensures long { IfOk result (λ r. length r.items ≡ count) }
{
    let mut listeners = Vec::with_capacity(alloc, count)?;
    for _place in 0..count {
        listeners.push(None)?;
    }
    Ok(listeners)
}

/// The listeners in the order of their places, each with its number. The error is want of memory, or a place that is empty, which
/// no crew has.
pub fn listeners_in_order<H: GroupListener>(
    alloc: Global,
    found: Vec<Option<H>>,
) -> Result<Vec<(u32, H)>, OutOfMemory>
    requires { length found.items < 2 ^ 32 }
    ensures listeners { IfOk result (λ r. (by : ℕ → List GroupNote) → AreFound (groups.told H.tagged H.calls H.heard) by found.items → AreInOrder (groups.told H.tagged H.calls H.heard) by 0 r.items) }
    ensures long { IfOk result (λ r. length r.items ≡ length found.items) }
{
    let mut listeners = Vec::with_capacity(alloc, found.len())?;
    for place in found {
        let number = listeners.len() as u32;
        let Some(listener) = place else {
            return Err(OutOfMemory);
        };
        listeners.push((number, listener))?;
    }
    Ok(listeners)
}

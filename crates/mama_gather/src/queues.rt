ghost use Rattle.std.specs.Prelude.{◌≡◌, ◌<◌, ◌^◌, ℕ, List, [], ◌∷◌, ◌++◌, length, map, OnOk, IfOk};
ghost use Rattle.std.specs.List.{All, flat_map};
ghost use Rattle.mama_journal.specs.Journal.{numbers_below};
ghost use Rattle.mama_event.specs.declared.ids.ObjectId.{ObjectId};
ghost use Rattle.mama_event.specs.declared.callback.CallNote.{CallNote};
ghost use Rattle.mama_event.specs.Listener.{told};
ghost use Rattle.mama_record.specs.RunView.{events_of};
ghost use Rattle.mama_posts_clients.specs.Queue.{IsQueueOf, HasComeBack, calls_by};
ghost use Rattle.mama_plans.specs.Numbered.{numbered, lists_put};
ghost use Rattle.mama_gather.specs.Left.{events_by, noted_by, none_noted};
ghost use Rattle.mama_gather.specs.Places.{calls_on, AreCallsFound, AreListenersFound};

use crate::places::{Places, no_values};
use mama_carry::{Carried, Listener, ToBridge, ToQueue, ToTimers};
use mama_dispatch::ServingNotes;
use mama_event::{CallNote, ObjectId, QueueNote, WatchNote};
use mama_lane::{Port, Taker};
use mama_memory::OutOfMemory;
use mama_plans::{Plans, numbered_lists, put_list};
use mama_posts_clients::{QueueParts, QueuePost};
use std::alloc::Global;

/// The queues' takers, their ports on the lanes of both services, and the journal of each, in the order of the queues; the
/// callbacks and the listener of each object, at the object's place; and what each watch noted, at the place of its number.
#[derive(Drop)]
pub struct QueueEnds<L: Listener> {
    pub takers: Vec<Taker<ToQueue<Carried<L>>>>,
    pub to_bridge: Vec<Port<ToBridge<Carried<L>>>>,
    pub to_timers: Vec<Port<ToTimers<Carried<L>>>>,
    pub journals: Vec<Vec<(u32, QueueNote)>>,
    pub calls: Vec<Option<Vec<CallNote>>>,
    pub listeners: Vec<Option<L>>,
    pub noted: Vec<(u32, Vec<WatchNote>)>,
}

impl<L: Listener> QueueEnds<L> {
    /// Takes the seats of the queues apart; there are so many watches. That an object's place is filled no clause says. The error is
    /// want of memory, or an object that came to another queue than its own, or twice, which no crew has.
    pub fn of(
        alloc: Global,
        plans: &Plans,
        watches: usize,
        seats: Vec<(u32, QueuePost<L>)>,
    ) -> Result<QueueEnds<L>, OutOfMemory>
        requires numbers { map (λ s. s.0) seats.items ≡ numbers_below (length seats.items) }
        requires keeps { All (λ s. IsQueueOf plans.now s.0 s.1) seats.items }
        requires few { watches < 2 ^ 32 }
        ensures takers { IfOk result (λ ends. ends.takers.items ≡ map (λ s. s.1.inlet.taker) seats.items) }
        ensures to_bridge { IfOk result (λ ends. ends.to_bridge.items ≡ map (λ s. s.1.ports.to_bridge) seats.items) }
        ensures to_timers { IfOk result (λ ends. ends.to_timers.items ≡ map (λ s. s.1.ports.to_timers) seats.items) }
        ensures journals { IfOk result (λ ends. events_of ends.journals.items ≡ map events_by seats.items) }
        ensures calls { IfOk result (λ ends. AreCallsFound (calls_on plans.now (map events_by seats.items)) plans.now ends.calls.items) }
        ensures listeners { IfOk result (λ ends. AreListenersFound (told L.tagged L.calls L.heard L.given L.plan) (calls_on plans.now (map events_by seats.items)) plans.now ends.listeners.items) }
        ensures noted { IfOk result (λ ends. numbered ends.noted.items ≡ lists_put (flat_map noted_by seats.items) (map none_noted (numbers_below watches))) }
    {
        let places = Places::of(alloc, plans)?;
        let mut ends = QueueEnds::none(alloc, plans, watches)?;
        for seat in seats {
            let (number, post) = seat;
            ends.add(plans, &places, number, post)?;
        }
        Ok(ends)
    }

    // Those of no queue.
    fn none(alloc: Global, plans: &Plans, watches: usize) -> Result<QueueEnds<L>, OutOfMemory>
        requires { watches < 2 ^ 32 }
        ensures takers { IfOk result (λ ends. ends.takers.items ≡ []) }
        ensures to_bridge { IfOk result (λ ends. ends.to_bridge.items ≡ []) }
        ensures to_timers { IfOk result (λ ends. ends.to_timers.items ≡ []) }
        ensures journals { IfOk result (λ ends. ends.journals.items ≡ []) }
        ensures calls { IfOk result (λ ends. (calls : ℕ → ObjectId → List CallNote) → AreCallsFound calls plans.now ends.calls.items) }
        ensures listeners { IfOk result (λ ends. (calls : ℕ → ObjectId → List CallNote) → AreListenersFound (told L.tagged L.calls L.heard L.given L.plan) calls plans.now ends.listeners.items) }
        ensures noted { IfOk result (λ ends. numbered ends.noted.items ≡ map none_noted (numbers_below watches)) }
    {
        Ok(QueueEnds {
            takers: Vec::new(alloc),
            to_bridge: Vec::new(alloc),
            to_timers: Vec::new(alloc),
            journals: Vec::new(alloc),
            calls: no_values(alloc, plans)?,
            listeners: no_values(alloc, plans)?,
            noted: numbered_lists(alloc, watches)?,
        })
    }

    // Adds what the seat of the queue of this number gives up.
    fn add(
        &mut self,
        plans: &Plans,
        places: &Places,
        number: u32,
        post: QueuePost<L>,
    ) -> Result<(), OutOfMemory>
        requires keeps { IsQueueOf plans.now number post }
        ensures takers { OnOk result (self.new.takers.items ≡ self.old.takers.items ++ post.inlet.taker ∷ []) }
        ensures to_bridge { OnOk result (self.new.to_bridge.items ≡ self.old.to_bridge.items ++ post.ports.to_bridge ∷ []) }
        ensures to_timers { OnOk result (self.new.to_timers.items ≡ self.old.to_timers.items ++ post.ports.to_timers ∷ []) }
        ensures journals { OnOk result (events_of self.new.journals.items ≡ events_of self.old.journals.items ++ post.served.journal ∷ []) }
        ensures calls { OnOk result ((calls : ℕ → ObjectId → List CallNote) → ((o : ObjectId) → calls number o ≡ calls_by plans.now post.served.journal o) → AreCallsFound calls plans.now self.old.calls.items → AreCallsFound calls plans.now self.new.calls.items) }
        ensures listeners { OnOk result ((calls : ℕ → ObjectId → List CallNote) → ((o : ObjectId) → calls number o ≡ calls_by plans.now post.served.journal o) → AreListenersFound (told L.tagged L.calls L.heard L.given L.plan) calls plans.now self.old.listeners.items → AreListenersFound (told L.tagged L.calls L.heard L.given L.plan) calls plans.now self.new.listeners.items) }
        ensures noted { OnOk result (numbered self.new.noted.items ≡ lists_put (noted_by (number, post)) (numbered self.old.noted.items)) }
    {
        let QueueParts {
            taker,
            to_bridge,
            to_timers,
            notes,
            watches,
            listeners,
        } = post.into_parts();
        let ServingNotes {
            taken,
            calls,
            images: _,
        } = notes;
        put_calls(plans, places, &mut self.calls, number, calls)?;
        put_listeners(plans, places, &mut self.listeners, number, listeners)?;
        put_noted(&mut self.noted, watches);
        self.takers.push(taker)?;
        self.to_bridge.push(to_bridge)?;
        self.to_timers.push(to_timers)?;
        self.journals.push(taken)?;
        Ok(())
    }
}

// Moves what the watches of a queue noted to the places of their numbers.
fn put_noted(noted: &mut Vec<(u32, Vec<WatchNote>)>, lists: Vec<(u32, Vec<WatchNote>)>)
    ensures { numbered noted.new.items ≡ lists_put (numbered lists.items) (numbered noted.old.items) }
{
    for entry in lists {
        let (number, notes) = entry;
        put_list(noted, number, notes);
    }
}

// Moves the callbacks of the objects of a queue to the objects' places.
fn put_calls(
    plans: &Plans,
    places: &Places,
    found: &mut Vec<Option<Vec<CallNote>>>,
    queue: u32,
    lists: Vec<(ObjectId, Vec<CallNote>)>,
) -> Result<(), OutOfMemory>
    ensures { OnOk result ((calls : ℕ → ObjectId → List CallNote) → All (λ l. l.1.items ≡ calls queue l.0) lists.items → AreCallsFound calls plans.now found.old.items → AreCallsFound calls plans.now found.new.items) }
{
    for list in lists {
        let (object, notes) = list;
        places.put(plans, found, queue, object, notes)?;
    }
    Ok(())
}

// Moves the listeners that came back to a queue to their objects' places.
fn put_listeners<L: Listener>(
    plans: &Plans,
    places: &Places,
    found: &mut Vec<Option<L>>,
    queue: u32,
    listeners: Vec<(ObjectId, L)>,
) -> Result<(), OutOfMemory>
    ensures { OnOk result ((calls : ℕ → ObjectId → List CallNote) → All (λ b. HasComeBack (calls queue b.0) (b.0, told L.tagged L.calls L.heard L.given L.plan b.1)) listeners.items → AreListenersFound (told L.tagged L.calls L.heard L.given L.plan) calls plans.now found.old.items → AreListenersFound (told L.tagged L.calls L.heard L.given L.plan) calls plans.now found.new.items) }
{
    for entry in listeners {
        let (object, listener) = entry;
        places.put(plans, found, queue, object, listener)?;
    }
    Ok(())
}

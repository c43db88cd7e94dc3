ghost use Rattle.std.specs.Prelude.{◌≡◌, [], ◌∷◌, None, Some, IfOk, IfErr, IfSome, IfNone, OnOk, OnErr};
ghost use Rattle.mama_dispatch.specs.Turns.{put_note};
ghost use Rattle.mama_event.specs.ToBridge.{note_of as bridge_note_of};
ghost use Rattle.mama_plans.specs.Put.{note_of, notes_of};
ghost use Rattle.mama_seats.specs.Waiting.{waits};

use mama_carry::{
    Carried, Listener, ObjectId, ToBridge, ToTimers, dress_for_bridge, dress_for_timers,
};
use mama_ends::Waiting;
use mama_event::ToService;
use mama_memory::{OutOfMemory, Outbox};
use std::alloc::Global;
use std::collections::VecDeque;
use std::marker::Model;

/// The listeners of a client's objects, of each kind in the order of their numbers.
#[derive(Drop)]
pub struct ClientListeners<L: Listener> {
    pub subs: VecDeque<Carried<L>>,
    pub timers: VecDeque<Carried<L>>,
    pub inboxes: VecDeque<Carried<L>>,
}

/// What a client has left to put. An event that makes an object takes the object's listener along when its turn comes.
#[derive(Drop)]
pub(crate) struct Dressing<L: Listener> {
    listeners: ClientListeners<L>,
    // The first event with its listener, where its lane found no room for it.
    dressed: Option<ToService<Carried<L>>>,
    events: Waiting<ToService<ObjectId>>,
}

impl<L: Listener> Model for Dressing<L> {
    ghost use Rattle.std.specs.Option.{option_map};
    ghost use Rattle.mama_rules_queue.specs.Queue.{QueuePut};
    ghost use Rattle.mama_dispatch.specs.Turns.{put_note};
    ghost use Rattle.mama_plans.specs.Put.{notes_of};
    ghost use Rattle.mama_seats.specs.Waiting.{Queued, waits};

    ghost Value = { Queued QueuePut };

    ghost view = { λ d. record { apart = option_map (put_note (λ c. L.tagged c.listener)) d.dressed; rest = notes_of (waits d.events) } };
}

impl<L: Listener> Dressing<L> {
    /// Nothing is left, and no listener has gone yet.
    pub(crate) fn new(alloc: Global, listeners: ClientListeners<L>) -> Dressing<L>
        ensures { waits result ≡ [] }
    {
        Dressing {
            listeners,
            dressed: None,
            events: Waiting::all(Outbox::new(alloc)),
        }
    }

    /// An empty outbox, with the room that events which are gone have left. What is left is as before.
    pub(crate) fn lend(&mut self, alloc: Global) -> Outbox<ToService<ObjectId>>
        ensures empty { result.items ≡ [] }
        ensures same { self.new ≡ self.old }
    {
        self.events.lend(alloc)
    }

    /// Where nothing is left, these are left now.
    pub(crate) fn lay(&mut self, events: Outbox<ToService<ObjectId>>)
        requires { waits self.old ≡ [] }
        ensures { waits self.new ≡ notes_of events.items }
    {
        self.events = Waiting::all(events);
    }

    /// Takes the first event out, with its listener. The error is a listener that is not there, which no crew has; then all
    /// is as before. Else none is apart.
    pub(crate) fn take_first(&mut self) -> Result<Option<ToService<Carried<L>>>, OutOfMemory>
        ensures some { IfOk result (λ first. IfSome first (λ event. waits self.old ≡ put_note (λ c. L.tagged c.listener) event ∷ waits self.new)) }
        ensures none { IfOk result (λ first. IfNone first (waits self.old ≡ [])) }
        ensures unchanged { IfOk result (λ first. IfNone first (waits self.new ≡ [])) }
        ensures apart { OnOk result (self.new.apart ≡ None) }
        ensures err { OnErr result (waits self.new ≡ waits self.old) }
        ensures stuck { OnErr result (waits self.old ≡ [] → ⊥) }
    {
        if let Some(event) = self.dressed.take() {
            return Ok(Some(event));
        }
        let Some(event) = self.events.take_first() else {
            return Ok(None);
        };
        match dress(event, &mut self.listeners) {
            Ok(event) => Ok(Some(event)),
            Err(event) => {
                self.events.put_back(event);
                Err(OutOfMemory)
            }
        }
    }

    /// Puts back the event that was taken last. It takes no memory.
    pub(crate) fn put_back(&mut self, event: ToService<Carried<L>>)
        requires { self.old.apart ≡ None }
        ensures { waits self.new ≡ put_note (λ c. L.tagged c.listener) event ∷ waits self.old }
    {
        self.dressed = Some(event);
    }
}

// The event with its listener, if it makes an object. Where the listener is not there the event is given back.
fn dress<L: Listener>(
    event: ToService<ObjectId>,
    listeners: &mut ClientListeners<L>,
) -> Result<ToService<Carried<L>>, ToService<ObjectId>>
    ensures noted { IfOk result (λ given. put_note (λ c. L.tagged c.listener) given ≡ note_of event) }
    ensures back { IfErr result (λ given. given ≡ event) }
{
    match event {
        ToService::Bridge(event) => match dress_by_kind(event, listeners) {
            Ok(event) => Ok(ToService::Bridge(event)),
            Err(event) => Err(ToService::Bridge(event)),
        },
        ToService::Timers(event) => match dress_for_timers(event, &mut listeners.timers) {
            Ok(event) => Ok(ToService::Timers(event)),
            Err(event) => Err(ToService::Timers(event)),
        },
    }
}

// The same of an event to the bridge: an inbox has its listener among those of inboxes.
fn dress_by_kind<L: Listener>(
    event: ToBridge<ObjectId>,
    listeners: &mut ClientListeners<L>,
) -> Result<ToBridge<Carried<L>>, ToBridge<ObjectId>>
    ensures noted { IfOk result (λ given. bridge_note_of (λ c. L.tagged c.listener) given ≡ bridge_note_of (λ object. object) event) }
    ensures back { IfErr result (λ given. given ≡ event) }
{
    if opens_inbox(&event) {
        dress_for_bridge(event, &mut listeners.inboxes)
    } else {
        dress_for_bridge(event, &mut listeners.subs)
    }
}

fn opens_inbox(event: &ToBridge<ObjectId>) -> bool {
    match event {
        ToBridge::OpenInbox {
            inbox: _,
            terms: _,
            listener: _,
        } => true,
        _ => false,
    }
}

ghost use Rattle.std.specs.Prelude.{◌≡◌, ◌↔◌, ℕ, ◌<◌, ◌≤◌, ◌+◌, List, [], ◌∷◌, ◌++◌, length, map, true, Ok, IsOk, IfOk, IfErr, IfSome, OnOk, OnErr, vec_len, vec_capacity};
ghost use mathlib.Core.List.{IsPrefix};
ghost use Rattle.mama_event.specs.Listener.{told};
ghost use Rattle.mama_event.specs.ToQueue.{note_of};
ghost use Rattle.mama_rules_rounds.specs.Client.{Planned};
ghost use Rattle.mama_plans.specs.Orders.{orders_in};
ghost use Rattle.mama_carry.specs.Brought.{brought_to_queue};
ghost use Rattle.mama_carry.specs.Fresh.{IsFresh};
ghost use Rattle.mama_dispatch.specs.Hearing.{ArePlanned};
ghost use Rattle.mama_rules_queue.specs.Queue.{deeds};
ghost use Rattle.mama_dispatch.specs.Journals.{context_after, image_in, images_left, notes_of};
ghost use Rattle.mama_dispatch.specs.Notes.{lists_of, calls_made};
ghost use Rattle.mama_lane.specs.Values.{note_of_port, after_learn};
ghost use Rattle.mama_posts_clients.specs.Outlets.{with_put};
ghost use Rattle.mama_dispatch.specs.Turns.{put_note};
ghost use Rattle.mama_timeout.specs.Table.{AreApart, event_puts, new_watch, part_of};
ghost use Rattle.mama_posts_clients.specs.Queue.{plan_of, handed_back, told_back, rows_of_watches, notes_given, IsQueueOf, HasEnded, HasServedAll, MadeStep, IsCaughtUp, holding};

use crate::outlets::{Outlets, put_all};
use mama_carry::{Carried, Listener, ObjectId, PlanRow, ToBridge, ToQueue, ToTimers, undress};
use mama_dispatch::{
    ImageHead, Serving, ServingNotes, Turn, callbacks_are_streams, lawful_may_come,
};
use mama_ends::{Inlet, Lane, Pace, Port, PutNote, Taker, Waiting};
use mama_event::{CallNote, QueueNote, SubId, ToService, WatchNote, WatchRow};
use mama_laws_allowed::queue_puts_are_lawful;
use mama_memory::{OutOfMemory, Outbox};
use mama_msg::Msg;
use mama_plans::Plans;
use mama_timeout::{WatchTable, tick_of, turns_are_watched};
use std::alloc::Global;
use std::marker::Model;
use std::sync::Wait;

/// The seat of a queue with its dispatcher: what is served, the ends of its lanes, its watches, what it has left to put, and
/// the listeners that came back.
#[derive(Drop)]
pub struct QueuePost<L: Listener> {
    alloc: Global,
    serving: Serving<L>,
    watches: WatchTable,
    inlet: Inlet<ToQueue<Carried<L>>>,
    ports: Outlets<L>,
    left: Waiting<ToService<Carried<L>>>,
    // The wish of a watch, which is put behind what is left.
    wish: Option<ToBridge<Carried<L>>>,
    // Whether nothing is left, and no wish.
    clear: bool,
    back: Vec<(ObjectId, L)>,
}

impl<L: Listener> Model for QueuePost<L> {
    ghost use Rattle.std.specs.Prelude.{◌≡◌, ◌↔◌, ◌++◌, true, [], map};
    ghost use Rattle.mama_event.specs.Listener.{told};
    ghost use Rattle.mama_dispatch.specs.Turns.{put_note};
    ghost use Rattle.mama_seats.specs.Waiting.{waits};
    ghost use Rattle.mama_timeout.specs.Table.{event_puts};
    ghost use Rattle.mama_posts_clients.specs.Queue.{QueuePostValue, told_back};

    ghost Value = { QueuePostValue };

    ghost view = { λ p. record { served = p.serving; watches = p.watches.watches; inlet = p.inlet; ports = p.ports; left = map (put_note (λ c. L.tagged c.listener)) (waits p.left) ++ event_puts (λ c. L.tagged c.listener) p.wish; back = told_back (told L.tagged L.calls L.heard L.given L.plan) p.back.items } };

    ghost invariant = { λ p. (p.clear ≡ true) ↔ (map (put_note (λ c. L.tagged c.listener)) (waits p.left) ++ event_puts (λ c. L.tagged c.listener) p.wish ≡ []) };
}

/// What a queue's seat gives up at its end.
#[derive(Drop)]
pub struct QueueParts<L: Listener> {
    pub taker: Taker<ToQueue<Carried<L>>>,
    pub to_bridge: Port<ToBridge<Carried<L>>>,
    pub to_timers: Port<ToTimers<Carried<L>>>,
    /// What the queue took, and what came of it.
    pub notes: ServingNotes,
    /// What each watch noted, with its number.
    pub watches: Vec<(u32, Vec<WatchNote>)>,
    /// The listeners that came back, each with its object, in the order of the Gones.
    pub listeners: Vec<(ObjectId, L)>,
}

// A copy of the plan of the object that an event makes; no rows where it makes none.
fn plan_for<L: Listener>(
    alloc: Global,
    plans: &Plans,
    event: &ToQueue<Carried<L>>,
) -> Result<Vec<PlanRow>, OutOfMemory>
    ensures { IfOk result (λ rows. IfSome (brought_to_queue event.now) (λ b. rows.items ≡ plan_of plans.now b.0)) }
{
    match event {
        ToQueue::Create {
            slot: _,
            object,
            make: _,
            listener: _,
        } => Ok(Vec::from_slice(alloc, plans.plan(object))?),
        _ => Ok(Vec::new(alloc)),
    }
}

// An event that was undressed with its listener beside its plan again.
fn dress_again<L: Listener>(event: ToQueue<L>, plan: Vec<PlanRow>) -> ToQueue<Carried<L>>
    requires { IfSome (brought_to_queue event) (λ b. IsFresh b.0 plan.items (told L.tagged L.calls L.heard L.given L.plan b.1)) }
    ensures { note_of (λ c. L.tagged c.listener) result ≡ note_of L.tagged event }
{
    match event {
        ToQueue::Create {
            slot,
            object,
            make,
            listener,
        } => ToQueue::Create {
            slot,
            object,
            make,
            listener: Carried { listener, plan },
        },
        ToQueue::Deliver { slot, sub, msg } => ToQueue::Deliver { slot, sub, msg },
        ToQueue::Reply { slot, inbox, body } => ToQueue::Reply { slot, inbox, body },
        ToQueue::Tick {
            slot,
            timer,
            moment,
        } => ToQueue::Tick {
            slot,
            timer,
            moment,
        },
        ToQueue::Gone { slot, object } => ToQueue::Gone { slot, object },
        ToQueue::Fin => ToQueue::Fin,
    }
}

// Makes room for one listener more among those that came back, if memory is found.
fn make_room<L: Listener>(back: &mut Vec<(ObjectId, L)>) -> bool
    ensures room { result ≡ true → vec_len back.new < vec_capacity back.new }
    ensures items { back.new.items ≡ back.old.items }
{
    back.reserve(1).is_ok()
}

// Adds the listener that a turn handed back, if it did, to those that came back. There is room for it.
fn add_back<L: Listener>(back: &mut Vec<(ObjectId, L)>, turn: Turn<L>)
    requires { vec_len back.old < vec_capacity back.old }
    ensures { back.new.items ≡ back.old.items ++ handed_back turn }
{
    if let Turn::Ended { object, listener } = turn {
        back.push_reserved((object, listener));
    }
}

// Whether there is nothing to put.
fn is_nothing<L: Listener>(
    out: &Outbox<ToService<Carried<L>>>,
    wish: &Option<ToBridge<Carried<L>>>,
) -> bool
    ensures { (result ≡ true) ↔ (map (put_note (λ c. L.tagged c.listener)) out.now.items ++ event_puts (λ c. L.tagged c.listener) wish.now ≡ []) }
{
    match wish {
        Some(_) => false,
        None => out.is_empty(),
    }
}

impl<L: Listener> QueuePost<L> {
    /// The seat of the queue of this number, with watches, each with its number, which has done nothing yet. Its lane has two
    /// ports: the bridge's, and then the timer service's. The number says whose seat it is. The error is want of memory.
    pub fn new(
        alloc: Global,
        number: u32,
        watches: Vec<(u32, WatchRow)>,
        taker: Taker<ToQueue<Carried<L>>>,
        to_bridge: Port<ToBridge<Carried<L>>>,
        to_timers: Port<ToTimers<Carried<L>>>,
    ) -> Result<QueuePost<L>, OutOfMemory>
        requires watches { AreApart watches.items }
        requires taker { (taker.taken ≡ []) × (taker.ports ≡ 2) }
        requires put { (to_bridge.put ≡ []) × (to_timers.put ≡ []) }
        ensures seat { IfOk result (λ post. (objects : List Planned) → IsQueueOf objects number post) }
        ensures start { IfOk result (λ post. (post.served ≡ record { queue = number; journal = []; seats = [] }) × (post.left ≡ []) × (post.back ≡ [])) }
        ensures watched { IfOk result (λ post. post.watches ≡ map new_watch watches.items) }
        ensures ends { IfOk result (λ post. (post.inlet ≡ record { taker = taker; kept = [] }) × (post.ports ≡ record { to_bridge = to_bridge; to_timers = to_timers })) }
    {
        let watches = WatchTable::new(alloc, watches)?;
        let serving = Serving::new(alloc, number);
        let inlet = Inlet::new(taker);
        let ports = Outlets::new(to_bridge, to_timers);
        let out = Outbox::new(alloc);
        let left = Waiting::all(out);
        let back = Vec::new(alloc);
        Ok(QueuePost {
            alloc,
            serving,
            watches,
            inlet,
            ports,
            left,
            wish: None,
            clear: true,
            back,
        })
    }

    /// Whether it has ended.
    pub fn ended(&self) -> bool
        ensures { (result ≡ true) ↔ HasEnded self.now }
    {
        if !self.clear {
            return false;
        }
        if !self.inlet.is_clear() {
            return false;
        }
        if !self.inlet.ended(0) {
            return false;
        }
        self.inlet.ended(1)
    }

    /// Puts what is left of the seat's puts, in order. The plans and the number say whose seat it is. The error is want of
    /// memory: then the rest is still left.
    pub fn finish<Rt: Wait + Copy>(
        &mut self,
        rt: Rt,
        bridge: &Lane<ToBridge<Carried<L>>>,
        timers: &Lane<ToTimers<Carried<L>>>,
        _plans: &Plans,
        _number: u32,
    ) -> Result<(), OutOfMemory>
        requires seat { IsQueueOf _plans.now _number self.old }
        requires bridge { self.old.ports.to_bridge.lane ≡ bridge.now.id }
        requires timers { self.old.ports.to_timers.lane ≡ timers.now.id }
        ensures seat { IsQueueOf _plans.now _number self.new }
        ensures place { self.new.ports ≡ with_put self.old.ports self.new.ports.to_bridge.put self.new.ports.to_timers.put }
        ensures same { (self.new.served ≡ self.old.served) × (self.new.inlet ≡ self.old.inlet) × (self.new.back ≡ self.old.back) }
        ensures watches { self.new.watches ≡ self.old.watches }
        ensures clear { OnOk result (self.new.left ≡ []) }
    {
        queue_puts_are_lawful();
        let put = put_all(
            rt,
            bridge,
            timers,
            &mut self.ports,
            &mut self.left,
            &mut self.wish,
        );
        self.clear = put.is_ok();
        put
    }

    /// A turn: it puts what was left of the turn before; or else it takes the next event, makes its callbacks, and puts what
    /// follows from them. A listener that a Gone hands back is kept.
    ///
    /// The error is want of memory, or a listener that is not as it was made for its object and the object's plan, which no
    /// crew has. Then an event that was not taken is kept, and what was not put is left, for the next turn.
    pub fn turn<Rt: Wait + Copy>(
        &mut self,
        rt: Rt,
        lane: &Lane<ToQueue<Carried<L>>>,
        bridge: &Lane<ToBridge<Carried<L>>>,
        timers: &Lane<ToTimers<Carried<L>>>,
        plans: &Plans,
        number: u32,
    ) -> Result<Pace, OutOfMemory>
        requires seat { IsQueueOf plans.now number self.old }
        requires lane { self.old.inlet.taker.lane ≡ lane.now.id }
        requires bridge { self.old.ports.to_bridge.lane ≡ bridge.now.id }
        requires timers { self.old.ports.to_timers.lane ≡ timers.now.id }
        ensures seat { IsQueueOf plans.now number self.new }
        ensures place { self.new.ports ≡ with_put self.old.ports self.new.ports.to_bridge.put self.new.ports.to_timers.put }
        ensures taker { self.new.inlet.taker ≡ record self.old.inlet.taker { taken = self.new.inlet.taker.taken } }
        ensures grows { IsPrefix self.old.served.journal self.new.served.journal }
        ensures few { length self.new.served.journal ≤ length self.old.served.journal + 1 }
        ensures rows { rows_of_watches self.new.watches ≡ rows_of_watches self.old.watches }
        ensures waiting { result ≡ Ok Pace.Waiting → (self.new ≡ self.old) × (self.old.left ≡ []) × (self.old.inlet.kept ≡ []) × IsCaughtUp self.old.inlet }
        ensures ended { (result ≡ Ok Pace.Ended) ↔ HasEnded self.old }
        ensures over { result ≡ Ok Pace.Ended → self.new ≡ self.old }
        ensures moved { result ≡ Ok Pace.Moved → MadeStep self.old self.new × (self.new.left ≡ []) }
    {
        let pace = self.advance(rt, lane, plans, number)?;
        match pace {
            Pace::Moved => {
                self.finish(rt, bridge, timers, plans, number)?;
                Ok(Pace::Moved)
            }
            Pace::Waiting => Ok(Pace::Waiting),
            Pace::Ended => Ok(Pace::Ended),
        }
    }

    // A turn up to what it puts, which is left. Where something was left, that was the step.
    fn advance<Rt: Wait + Copy>(
        &mut self,
        rt: Rt,
        lane: &Lane<ToQueue<Carried<L>>>,
        plans: &Plans,
        number: u32,
    ) -> Result<Pace, OutOfMemory>
        requires seat { IsQueueOf plans.now number self.old }
        requires lane { self.old.inlet.taker.lane ≡ lane.now.id }
        ensures seat { IsQueueOf plans.now number self.new }
        ensures ports { self.new.ports ≡ self.old.ports }
        ensures taker { self.new.inlet.taker ≡ record self.old.inlet.taker { taken = self.new.inlet.taker.taken } }
        ensures grows { IsPrefix self.old.served.journal self.new.served.journal }
        ensures few { length self.new.served.journal ≤ length self.old.served.journal + 1 }
        ensures rows { rows_of_watches self.new.watches ≡ rows_of_watches self.old.watches }
        ensures waiting { result ≡ Ok Pace.Waiting → (self.new ≡ self.old) × (self.old.left ≡ []) × (self.old.inlet.kept ≡ []) × IsCaughtUp self.old.inlet }
        ensures ended { (result ≡ Ok Pace.Ended) ↔ HasEnded self.old }
        ensures over { result ≡ Ok Pace.Ended → self.new ≡ self.old }
        ensures moved { result ≡ Ok Pace.Moved → MadeStep self.old self.new }
    {
        if !self.clear {
            return Ok(Pace::Moved);
        }
        if self.ended() {
            return Ok(Pace::Ended);
        }
        match self.inlet.fetch(rt, lane) {
            Some((port, event)) => self.serve(plans, number, port, event),
            None => Ok(Pace::Waiting),
        }
    }

    // Serves an event that was fetched, or else keeps it.
    fn serve(
        &mut self,
        plans: &Plans,
        number: u32,
        port: u32,
        event: ToQueue<Carried<L>>,
    ) -> Result<Pace, OutOfMemory>
        requires seat { IsQueueOf plans.now number (holding self.old port (note_of (λ c. L.tagged c.listener) event)) }
        requires kept { self.old.inlet.kept ≡ [] }
        requires left { self.old.left ≡ [] }
        ensures seat { IsQueueOf plans.now number self.new }
        ensures ports { self.new.ports ≡ self.old.ports }
        ensures taker { self.new.inlet.taker ≡ self.old.inlet.taker }
        ensures rows { rows_of_watches self.new.watches ≡ rows_of_watches self.old.watches }
        ensures moved { IfOk result (λ pace. pace ≡ Pace.Moved) }
        ensures took { OnOk result (self.new.served.journal ≡ self.old.served.journal ++ (port, note_of (λ c. L.tagged c.listener) event) ∷ []) }
        ensures served { OnOk result (self.new.inlet.kept ≡ []) }
        ensures back { OnErr result (self.new ≡ holding self.old port (note_of (λ c. L.tagged c.listener) event)) }
    {
        match self.try_serve(plans, number, port, event) {
            Ok(()) => Ok(Pace::Moved),
            Err(event) => {
                self.inlet.keep(port, event);
                Err(OutOfMemory)
            }
        }
    }

    // Serves an event that was fetched, if its listener, where it brings one, is as it was made. Else the event is given
    // back. What is undressed can be dressed again, since a copy of the plan was made first.
    fn try_serve(
        &mut self,
        plans: &Plans,
        number: u32,
        port: u32,
        event: ToQueue<Carried<L>>,
    ) -> Result<(), ToQueue<Carried<L>>>
        requires seat { IsQueueOf plans.now number (holding self.old port (note_of (λ c. L.tagged c.listener) event)) }
        requires kept { self.old.inlet.kept ≡ [] }
        requires left { self.old.left ≡ [] }
        ensures seat { OnOk result (IsQueueOf plans.now number self.new) }
        ensures ports { self.new.ports ≡ self.old.ports }
        ensures inlet { self.new.inlet ≡ self.old.inlet }
        ensures rows { rows_of_watches self.new.watches ≡ rows_of_watches self.old.watches }
        ensures took { OnOk result (self.new.served.journal ≡ self.old.served.journal ++ (port, note_of (λ c. L.tagged c.listener) event) ∷ []) }
        ensures err { OnErr result (self.new ≡ self.old) }
        ensures back { IfErr result (λ given. note_of (λ c. L.tagged c.listener) given ≡ note_of (λ c. L.tagged c.listener) event) }
    {
        let Ok(plan) = plan_for(self.alloc, plans, &event) else {
            return Err(event);
        };
        let event = undress(event, plan.as_slice())?;
        match self.serve_alone(plans, number, port, event) {
            Ok(()) => Ok(()),
            Err(event) => Err(dress_again(event, plan)),
        }
    }

    // Serves an event whose listener, where it brings one, is as it was made for its object here.
    fn serve_alone(
        &mut self,
        plans: &Plans,
        _number: u32,
        port: u32,
        event: ToQueue<L>,
    ) -> Result<(), ToQueue<L>>
        requires seat { IsQueueOf plans.now _number (holding self.old port (note_of L.tagged event)) }
        requires kept { self.old.inlet.kept ≡ [] }
        requires left { self.old.left ≡ [] }
        requires fresh { IfSome (brought_to_queue event) (λ b. IsFresh b.0 (plan_of plans.now b.0) (told L.tagged L.calls L.heard L.given L.plan b.1)) }
        ensures seat { OnOk result (IsQueueOf plans.now _number self.new) }
        ensures ports { self.new.ports ≡ self.old.ports }
        ensures inlet { self.new.inlet ≡ self.old.inlet }
        ensures rows { rows_of_watches self.new.watches ≡ rows_of_watches self.old.watches }
        ensures took { OnOk result (self.new.served.journal ≡ self.old.served.journal ++ (port, note_of L.tagged event) ∷ []) }
        ensures err { OnErr result (self.new ≡ self.old) }
        ensures back { IfErr result (λ given. given ≡ event) }
    {
        if !make_room(&mut self.back) {
            return Err(event);
        }
        let Ok(()) = self.watches.prepare() else {
            return Err(event);
        };
        lawful_may_come();
        let tick = tick_of(&event);
        let mut out = self.left.lend(self.alloc);
        let turn = self.serving.turn(port, event, &mut out)?;
        self.serving.planned_orders_fit();
        callbacks_are_streams();
        turns_are_watched::<L>();
        let wish = self.watches.behind(tick, &turn, &self.serving);
        self.clear = is_nothing(&out, &wish);
        self.left = Waiting::all(out);
        self.wish = wish;
        add_back(&mut self.back, turn);
        Ok(())
    }

    /// From now on the seat knows that the note's port has put what the note names. It takes no memory.
    pub fn learn<Rt: Copy>(
        &mut self,
        rt: Rt,
        lane: &Lane<ToQueue<Carried<L>>>,
        note: PutNote<ToQueue<Carried<L>>>,
    )
        requires taker { self.old.inlet.taker.lane ≡ lane.now.id }
        requires note { note.lane ≡ lane.now.id }
        ensures { self.new ≡ record self.old { inlet = record self.old.inlet { taker = after_learn self.old.inlet.taker note } } }
    {
        self.inlet.learn(rt, lane, note);
    }

    /// A note of what it has put on the bridge's lane so far. It takes no memory, and always succeeds.
    pub fn tell_bridge<Rt: Copy>(
        &mut self,
        rt: Rt,
        lane: &Lane<ToBridge<Carried<L>>>,
    ) -> Result<PutNote<ToBridge<Carried<L>>>, OutOfMemory>
        requires { self.old.ports.to_bridge.lane ≡ lane.now.id }
        ensures ok { IsOk result }
        ensures note { IfOk result (λ note. note ≡ note_of_port self.old.ports.to_bridge) }
        ensures same { self.new ≡ self.old }
    {
        self.ports.tell_bridge(rt, lane)
    }

    /// A note of what it has put on the timer service's lane so far. It takes no memory, and always succeeds.
    pub fn tell_timers<Rt: Copy>(
        &mut self,
        rt: Rt,
        lane: &Lane<ToTimers<Carried<L>>>,
    ) -> Result<PutNote<ToTimers<Carried<L>>>, OutOfMemory>
        requires { self.old.ports.to_timers.lane ≡ lane.now.id }
        ensures ok { IsOk result }
        ensures note { IfOk result (λ note. note ≡ note_of_port self.old.ports.to_timers) }
        ensures same { self.new ≡ self.old }
    {
        self.ports.tell_timers(rt, lane)
    }

    /// What it took and served so far, each event with its port.
    pub fn journal(&self) -> &[(u32, QueueNote)]
        ensures { result.now ≡ self.now.served.journal }
    {
        self.serving.taken()
    }

    /// The callbacks made so far of an object; none of an object that never came.
    pub fn notes(&self, object: ObjectId) -> &[CallNote]
        ensures { (objects : List Planned) → ArePlanned (orders_in objects) self.now.served.seats → result.now ≡ notes_of object (deeds (orders_in objects) self.now.served.journal) }
    {
        self.serving.planned_orders_fit();
        self.serving.notes(object)
    }

    /// A copy of the image of a subscription, if it has one.
    pub fn image_of(&self, sub: SubId) -> Result<Option<(ImageHead, Msg)>, OutOfMemory>
        ensures { IfOk result (λ found. (objects : List Planned) → ArePlanned (orders_in objects) self.now.served.seats → found ≡ image_in (context_after (orders_in objects) self.now.served.journal sub)) }
    {
        self.serving.planned_orders_fit();
        self.serving.image_of(sub)
    }

    /// The ends of its lanes, what it took with what came of that, and the listeners that came back. Where it has ended,
    /// all that it took is in its journal, and it has put all that its journal puts. What is left is dropped, and so is an
    /// event that is kept.
    pub fn into_parts(self) -> QueueParts<L>
        ensures taker { result.taker ≡ self.inlet.taker }
        ensures ports { self.ports ≡ record { to_bridge = result.to_bridge; to_timers = result.to_timers } }
        ensures journal { result.notes.taken.items ≡ self.served.journal }
        ensures calls { (objects : List Planned) → ArePlanned (orders_in objects) self.served.seats → lists_of result.notes.calls.items ≡ calls_made (orders_in objects) self.served.journal }
        ensures images { (objects : List Planned) → ArePlanned (orders_in objects) self.served.seats → result.notes.images.items ≡ images_left (orders_in objects) self.served.journal }
        ensures watches { map notes_given result.watches.items ≡ map part_of self.watches }
        ensures listeners { told_back (told L.tagged L.calls L.heard L.given L.plan) result.listeners.items ≡ self.back }
        ensures done { (objects : List Planned) (number : ℕ) → IsQueueOf objects number self → HasEnded self → HasServedAll objects (rows_of_watches self.watches) result.notes.taken.items result.taker result.to_bridge.put result.to_timers.put }
    {
        self.serving.planned_orders_fit();
        let QueuePost {
            alloc: _,
            serving,
            watches,
            inlet,
            ports,
            left: _,
            wish: _,
            clear: _,
            back,
        } = self;
        let (to_bridge, to_timers) = ports.into_ports();
        QueueParts {
            taker: inlet.into_taker(),
            to_bridge,
            to_timers,
            notes: serving.into_notes(),
            watches: watches.into_notes(),
            listeners: back,
        }
    }
}

ghost use Rattle.std.specs.Prelude.{◌≡◌, ℕ, ◌+◌, ◌^◌, ◌<◌, if◌then◌else◌, ◌&&◌, not, ◌++◌, [], ◌∷◌, length, map, true, false, Some, None, is_some, IfSome, IfOk, IfErr, IsTrue, ◌↔◌, OnOk, OnErr};
ghost use Rattle.mama_event.specs.Ports.{clients_of, queues_of};
ghost use Rattle.mama_rules_services.specs.Ports.{timers_putter};
ghost use Rattle.std.specs.List.{list_any, flat_map};
ghost use Rattle.mama_rules_services.specs.Timers.{put_by, heard, has_ending, arms_timer, is_armed, clock, live_timers, gone, place_of, timers_puts, timers_puts_at};
ghost use Rattle.mama_journal.specs.Journal.{turns};
ghost use Rattle.mama_timer.specs.Stands.{IsStill, IsNoWord};
ghost use Rattle.std.specs.Option.{option_map};
ghost use Rattle.mama_event.specs.declared.ids.TimerId.{TimerId as Id};
ghost use Rattle.mama_event.specs.Object.{same_timer};
ghost use Rattle.mama_timer.specs.Rows.{row_of, is_listed, laid_down};
ghost use Rattle.mama_timer.specs.Out.{out_note, listeners, puts_create, brought};
ghost use Rattle.mama_timer.specs.Putting.{created_puts, gone_puts, gone_note};
ghost use Rattle.mama_timer.specs.Heard.{event_of, IsPlain};
ghost use Rattle.mama_event.specs.ToTimers.{note_of};
ghost use Rattle.mama_timer.specs.Service.{taken, is_last_bye};

use crate::ending::{Leaving, all_leaving};
use crate::firing::{firings, list_next, reached, set_next, strike};
use crate::heard::{Arming, Heard, hear};
use crate::out::{TimerOut, put_ending, put_if_created, put_if_gone, put_ticks, reserve_ending};
use crate::roll::Roll;
use mama_event::{Shape, Stream, Tagged, TimerId, TimersNote, ToTimers, Took, Topics};
use mama_memory::{OutOfMemory, Outbox};
use mama_slots::Slots;
use std::alloc::Global;
use std::collections::{BTreeMap, BTreeSet};
use std::marker::Model;

/// The latest moment that the clock tells, in milliseconds.
const LAST_MOMENT: u64 = 9_223_372_036_854_775_807;

/// A timer that was armed: where it stands, its interval, when it is due, and whether no Disarm came yet.
#[derive(Clone, Copy)]
pub(crate) struct Row {
    pub(crate) queue: u32,
    pub(crate) slot: u32,
    pub(crate) interval: u32,
    pub(crate) due: u64,
    pub(crate) armed: bool,
}

/// What the service knows: its journal, and what follows from it.
///
/// The due moment of each live timer stands among `dues`. Others may stand there too, after want of memory; they are
/// struck out when the clock reaches them.
#[derive(Drop)]
pub(crate) struct Table {
    alloc: Global,
    shape: Shape,
    clock: u64,
    timers: BTreeMap<TimerId, Row>,
    dues: BTreeSet<(u64, TimerId)>,
    slots: Slots,
    clients_done: Roll,
    bridge_done: bool,
    queues_done: Roll,
    journal: Vec<(u32, TimersNote)>,
}

impl Model for Table {
    ghost use Rattle.mama_timer.specs.Service.{Service};

    ghost Value = { Service };

    ghost view = { λ t. record { shape = t.shape; journal = t.journal.items } };

    ghost use Rattle.mama_timer.specs.Kept.{Kept};

    ghost invariant = { λ t. Kept t.shape t.journal.items t.clock t.timers.entries t.dues.keys t.slots t.clients_done t.bridge_done t.queues_done };
}

/// A copy of a shape.
fn copied(alloc: Global, shape: &Shape) -> Result<Shape, OutOfMemory>
    ensures { IfOk result (λ copy. copy ≡ shape.now) }
{
    let topics = Vec::from_slice(alloc, shape.publisher_topics.as_slice())?;
    Ok(Shape {
        clients: shape.clients,
        publisher_topics: Topics::new(topics),
        bounds: shape.bounds,
        strategy: shape.strategy,
    })
}

/// When a timer of this interval is due that is armed or ticks at this clock.
fn due_after(clock: u64, interval: u32) -> u64
    requires { clock < 2 ^ 63 }
    ensures { result ≡ clock + interval }
{
    clock + u64::from(interval)
}

/// Whether something holds that did not hold before.
fn newly(had: bool, has: bool) -> bool
    ensures { result ≡ (has && not had) }
{
    has && !had
}

/// Whether both hold.
fn both(one: bool, other: bool) -> bool
    ensures { result ≡ (one && other) }
{
    one && other
}

/// What a service answers that took the last queue's last word, or something else.
fn ended_if(last: bool) -> Took
    ensures { (result ≡ Took.Ended) ↔ IsTrue last }
{
    if last { Took::Ended } else { Took::Running }
}

/// A timer is armed no more.
fn lay_down(timers: &mut BTreeMap<TimerId, Row>, timer: TimerId)
    ensures { (one : Id) → row_of timers.new.entries one ≡ (if same_timer timer one then option_map laid_down (row_of timers.old.entries one) else row_of timers.old.entries one) }
{
    if let Some(row) = timers.get_mut(&timer) {
        row.armed = false;
    }
}

/// A due moment of a timer is written down no more.
fn unlist(dues: &mut BTreeSet<(u64, TimerId)>, timer: TimerId, due: u64)
    ensures { (key : ℕ × Id) → same_timer timer key.1 ≡ false → is_listed dues.old.keys key ≡ true → is_listed dues.new.keys key ≡ true }
{
    dues.remove(&(due, timer));
}

impl Table {
    /// A service that took nothing yet.
    pub(crate) fn new(alloc: Global, shape: &Shape) -> Result<Table, OutOfMemory>
        ensures { IfOk result (λ table. table ≡ record { shape = shape.now; journal = [] }) }
    {
        let clients_done = Roll::new(alloc, shape.clients)?;
        let queues_done = Roll::new(alloc, shape.bounds.queues)?;
        Ok(Table {
            alloc,
            shape: copied(alloc, shape)?,
            clock: 0,
            timers: BTreeMap::new(alloc),
            dues: BTreeSet::new(alloc),
            slots: Slots::new(alloc),
            clients_done,
            bridge_done: false,
            queues_done,
            journal: Vec::new(alloc),
        })
    }

    /// The journal. It takes no memory.
    pub(crate) fn into_journal(self) -> Vec<(u32, TimersNote)>
        ensures { result.items ≡ self.journal }
    {
        self.journal
    }

    /// What an event of this note means that came by this port.
    pub(crate) fn hear(&self, port: u32, note: TimersNote) -> Heard
        ensures { event_of result ≡ put_by (timers_putter self.now.shape port) note }
    {
        hear(&self.shape, port, note)
    }

    /// Whether every client is done and the bridge has said Fin.
    fn has_ended(&self) -> bool
        ensures { result ≡ has_ending self.now.shape (heard self.now.shape self.now.journal) }
    {
        self.clients_done.is_full() && self.bridge_done
    }

    /// Whether a timer was armed, ever.
    fn knows(&self, timer: TimerId) -> bool
        ensures { result ≡ list_any (arms_timer timer) (heard self.now.shape self.now.journal) }
    {
        self.timers.contains_key(&timer)
    }

    /// What is kept of a timer that is armed.
    fn armed_row(&self, timer: TimerId) -> Option<Row>
        ensures armed { is_some result ≡ is_armed timer (heard self.now.shape self.now.journal) }
        ensures place { IfSome result (λ row. place_of timer (timers_puts self.now.shape self.now.journal) ≡ Some (row.queue, row.slot)) }
    {
        match self.timers.get(&timer) {
            Some(row) if row.armed => Some(*row),
            _ => None,
        }
    }

    /// Takes an event that changes nothing.
    fn remember(&mut self, port: u32, note: TimersNote) -> Result<(), OutOfMemory>
        requires still { IsStill (heard self.old.shape self.old.journal) (put_by (timers_putter self.old.shape port) note) }
        requires no_word { IsNoWord (put_by (timers_putter self.old.shape port) note) }
        requires quiet { timers_puts_at self.old.shape self.old.journal (port, note) ≡ [] }
        ensures ok { OnOk result (self.new ≡ taken self.old (port, note)) }
        ensures err { OnErr result (self.new ≡ self.old) }
    {
        self.journal.push((port, note))?;
        Ok(())
    }

    /// Takes an event that means nothing.
    pub(crate) fn pass_over(&mut self, port: u32, note: TimersNote) -> Result<(), OutOfMemory>
        requires { put_by (timers_putter self.old.shape port) note ≡ event_of Heard.Nothing }
        ensures ok { OnOk result (self.new ≡ taken self.old (port, note)) }
        ensures puts { timers_puts_at self.old.shape self.old.journal (port, note) ≡ [] }
        ensures err { OnErr result (self.new ≡ self.old) }
    {
        self.remember(port, note)
    }

    /// Takes the arming of a timer, and tells the slot that it gets, if this is the first arming of its id.
    pub(crate) fn arm(
        &mut self,
        port: u32,
        note: TimersNote,
        arming: Arming,
    ) -> Result<Option<u32>, OutOfMemory>
        requires { put_by (timers_putter self.old.shape port) note ≡ event_of (Heard.Arms arming) }
        ensures ok { OnOk result (self.new ≡ taken self.old (port, note)) }
        ensures puts { IfOk result (λ slot. timers_puts_at self.old.shape self.old.journal (port, note) ≡ created_puts arming slot) }
        ensures err { OnErr result (self.new ≡ self.old) }
    {
        if self.knows(arming.timer) {
            self.remember(port, note)?;
            return Ok(None);
        }
        if self.has_ended() {
            self.arm_late(port, note, arming)?;
            return Ok(Some(0));
        }
        let slot = self.arm_first(port, note, arming)?;
        Ok(Some(slot))
    }

    /// Takes the first arming of a timer after the ending. The timer is never live.
    fn arm_late(&mut self, port: u32, note: TimersNote, arming: Arming) -> Result<(), OutOfMemory>
        requires means { put_by (timers_putter self.old.shape port) note ≡ event_of (Heard.Arms arming) }
        requires new { list_any (arms_timer arming.timer) (heard self.old.shape self.old.journal) ≡ false }
        requires ended { has_ending self.old.shape (heard self.old.shape self.old.journal) ≡ true }
        ensures ok { OnOk result (self.new ≡ taken self.old (port, note)) }
        ensures puts { OnOk result (timers_puts_at self.old.shape self.old.journal (port, note) ≡ created_puts arming (Some 0)) }
        ensures err { OnErr result (self.new ≡ self.old) }
    {
        self.journal.reserve(1)?;
        let row = Row {
            queue: arming.queue,
            slot: 0,
            interval: arming.interval,
            due: 0,
            armed: true,
        };
        self.timers.insert(arming.timer, row)?;
        self.journal.push_reserved((port, note));
        Ok(())
    }

    /// Takes the first arming of a timer, and tells the slot that it gets.
    fn arm_first(&mut self, port: u32, note: TimersNote, arming: Arming) -> Result<u32, OutOfMemory>
        requires means { put_by (timers_putter self.old.shape port) note ≡ event_of (Heard.Arms arming) }
        requires new { list_any (arms_timer arming.timer) (heard self.old.shape self.old.journal) ≡ false }
        requires yet { has_ending self.old.shape (heard self.old.shape self.old.journal) ≡ false }
        ensures ok { OnOk result (self.new ≡ taken self.old (port, note)) }
        ensures puts { IfOk result (λ slot. timers_puts_at self.old.shape self.old.journal (port, note) ≡ created_puts arming (Some slot)) }
        ensures err { OnErr result (self.new ≡ self.old) }
    {
        self.journal.reserve(1)?;
        let slot = self.slots.next(arming.queue)?;
        let due = due_after(self.clock, arming.interval);
        self.dues.insert((due, arming.timer))?;
        let row = Row {
            queue: arming.queue,
            slot,
            interval: arming.interval,
            due,
            armed: true,
        };
        self.timers.insert(arming.timer, row)?;
        self.slots.hold(arming.queue, slot);
        self.journal.push_reserved((port, note));
        Ok(slot)
    }

    /// Takes the end of a timer, and tells the place that it leaves, if it was live.
    pub(crate) fn disarm(
        &mut self,
        port: u32,
        note: TimersNote,
        timer: TimerId,
    ) -> Result<Option<Leaving>, OutOfMemory>
        requires { put_by (timers_putter self.old.shape port) note ≡ event_of (Heard.Disarms timer) }
        ensures ok { OnOk result (self.new ≡ taken self.old (port, note)) }
        ensures puts { IfOk result (λ left. timers_puts_at self.old.shape self.old.journal (port, note) ≡ gone_puts left) }
        ensures err { OnErr result (self.new ≡ self.old) }
    {
        let Some(row) = self.armed_row(timer) else {
            self.remember(port, note)?;
            return Ok(None);
        };
        if self.has_ended() {
            self.disarm_late(port, note, timer, row.due)?;
            return Ok(None);
        }
        let leaving = Leaving {
            timer,
            queue: row.queue,
            slot: row.slot,
        };
        self.disarm_live(port, note, leaving, row.due)?;
        Ok(Some(leaving))
    }

    /// Takes the end of an armed timer after the ending.
    fn disarm_late(
        &mut self,
        port: u32,
        note: TimersNote,
        timer: TimerId,
        due: u64,
    ) -> Result<(), OutOfMemory>
        requires means { put_by (timers_putter self.old.shape port) note ≡ event_of (Heard.Disarms timer) }
        requires armed { is_armed timer (heard self.old.shape self.old.journal) ≡ true }
        requires ended { has_ending self.old.shape (heard self.old.shape self.old.journal) ≡ true }
        ensures ok { OnOk result (self.new ≡ taken self.old (port, note)) }
        ensures err { OnErr result (self.new ≡ self.old) }
    {
        self.journal.reserve(1)?;
        lay_down(&mut self.timers, timer);
        unlist(&mut self.dues, timer, due);
        self.journal.push_reserved((port, note));
        Ok(())
    }

    /// Takes the end of a live timer, which leaves this place.
    fn disarm_live(
        &mut self,
        port: u32,
        note: TimersNote,
        leaving: Leaving,
        due: u64,
    ) -> Result<(), OutOfMemory>
        requires means { put_by (timers_putter self.old.shape port) note ≡ event_of (Heard.Disarms leaving.timer) }
        requires armed { is_armed leaving.timer (heard self.old.shape self.old.journal) ≡ true }
        requires yet { has_ending self.old.shape (heard self.old.shape self.old.journal) ≡ false }
        requires place { place_of leaving.timer (timers_puts self.old.shape self.old.journal) ≡ Some (leaving.queue, leaving.slot) }
        ensures ok { OnOk result (self.new ≡ taken self.old (port, note)) }
        ensures err { OnErr result (self.new ≡ self.old) }
    {
        self.journal.reserve(1)?;
        self.slots.release(leaving.queue, leaving.slot)?;
        lay_down(&mut self.timers, leaving.timer);
        unlist(&mut self.dues, leaving.timer, due);
        self.journal.push_reserved((port, note));
        Ok(())
    }

    /// The clock after a moment is told.
    fn clock_after(&self, moment: u64) -> u64
        ensures { result ≡ clock (heard self.now.shape self.now.journal ++ event_of (Heard.Now moment) ∷ []) }
    {
        self.clock.max(moment.min(LAST_MOMENT))
    }

    /// Takes a moment, and puts the ticks that it brings.
    pub(crate) fn now<L: Tagged>(
        &mut self,
        port: u32,
        note: TimersNote,
        moment: u64,
        out: &mut Outbox<TimerOut<L>>,
    ) -> Result<(), OutOfMemory>
        requires { put_by (timers_putter self.old.shape port) note ≡ event_of (Heard.Now moment) }
        ensures ok { OnOk result (self.new ≡ taken self.old (port, note)) }
        ensures puts { OnOk result (map (out_note L.tagged) out.new.items ≡ map (out_note L.tagged) out.old.items ++ timers_puts_at self.old.shape self.old.journal (port, note)) }
        ensures listener { OnOk result (listeners out.new.items ≡ listeners out.old.items) }
        ensures err { OnErr result (self.new ≡ self.old) }
        ensures out_err { OnErr result (out.new.items ≡ out.old.items) }
    {
        if self.has_ended() {
            return self.now_late(port, note, moment);
        }
        self.now_yet(port, note, moment, out)
    }

    /// Takes a moment after the ending.
    fn now_late(&mut self, port: u32, note: TimersNote, moment: u64) -> Result<(), OutOfMemory>
        requires means { put_by (timers_putter self.old.shape port) note ≡ event_of (Heard.Now moment) }
        requires ended { has_ending self.old.shape (heard self.old.shape self.old.journal) ≡ true }
        ensures ok { OnOk result (self.new ≡ taken self.old (port, note)) }
        ensures err { OnErr result (self.new ≡ self.old) }
    {
        let clock = self.clock_after(moment);
        self.journal.reserve(1)?;
        self.clock = clock;
        self.journal.push_reserved((port, note));
        Ok(())
    }

    /// Takes a moment before the ending, and puts the ticks that it brings.
    fn now_yet<L: Tagged>(
        &mut self,
        port: u32,
        note: TimersNote,
        moment: u64,
        out: &mut Outbox<TimerOut<L>>,
    ) -> Result<(), OutOfMemory>
        requires means { put_by (timers_putter self.old.shape port) note ≡ event_of (Heard.Now moment) }
        requires yet { has_ending self.old.shape (heard self.old.shape self.old.journal) ≡ false }
        ensures ok { OnOk result (self.new ≡ taken self.old (port, note)) }
        ensures puts { OnOk result (map (out_note L.tagged) out.new.items ≡ map (out_note L.tagged) out.old.items ++ timers_puts_at self.old.shape self.old.journal (port, note)) }
        ensures listener { OnOk result (listeners out.new.items ≡ listeners out.old.items) }
        ensures err { OnErr result (self.new ≡ self.old) }
        ensures out_err { OnErr result (out.new.items ≡ out.old.items) }
    {
        let clock = self.clock_after(moment);
        self.journal.reserve(1)?;
        let first_dues = reached(self.alloc, &self.dues, clock)?;
        let keys = first_dues.as_slice();
        let found = firings(self.alloc, &self.timers, keys, clock)?;
        let firings = found.as_slice();
        out.reserve(firings.len())?;
        list_next(&mut self.dues, firings)?;
        set_next(&mut self.timers, firings);
        strike(&mut self.dues, &self.timers, keys);
        self.clock = clock;
        self.journal.push_reserved((port, note));
        put_ticks(clock, firings, out);
        Ok(())
    }

    /// Takes a queue's last word, and tells whether it is the last queue's.
    pub(crate) fn bye(
        &mut self,
        port: u32,
        note: TimersNote,
        queue: u32,
    ) -> Result<bool, OutOfMemory>
        requires { put_by (timers_putter self.old.shape port) note ≡ event_of (Heard.Bye queue) }
        ensures ok { OnOk result (self.new ≡ taken self.old (port, note)) }
        ensures puts { timers_puts_at self.old.shape self.old.journal (port, note) ≡ [] }
        ensures last { IfOk result (λ last. last ≡ is_last_bye self.old (port, note)) }
        ensures err { OnErr result (self.new ≡ self.old) }
    {
        self.journal.reserve(1)?;
        let had = self.queues_done.is_full();
        self.queues_done.mark(queue);
        let has = self.queues_done.is_full();
        self.journal.push_reserved((port, note));
        Ok(newly(had, has))
    }

    /// Whether the ending comes with this client's last word.
    fn ends_with_client(&self, port: u32, note: TimersNote, client: u32) -> bool
        requires { put_by (timers_putter self.now.shape port) note ≡ event_of (Heard.ClientDone client) }
        ensures { result ≡ turns (has_ending self.now.shape) (heard self.now.shape self.now.journal) (event_of (Heard.ClientDone client)) }
    {
        let had = self.has_ended();
        let full = self.clients_done.is_full_with(client);
        newly(had, both(full, self.bridge_done))
    }

    /// Whether the ending comes with the bridge's last word.
    fn ends_with_bridge(&self) -> bool
        ensures { result ≡ turns (has_ending self.now.shape) (heard self.now.shape self.now.journal) (event_of Heard.Fin) }
    {
        let had = self.has_ended();
        newly(had, self.clients_done.is_full())
    }

    /// The places that all live timers leave, in order of the timers' ids, where the ending has not come.
    fn leaving(&self) -> Result<Vec<Leaving>, OutOfMemory>
        requires { has_ending self.now.shape (heard self.now.shape self.now.journal) ≡ false }
        ensures { IfOk result (λ left. map gone_note left.items ≡ flat_map (gone (timers_puts self.now.shape self.now.journal)) (live_timers self.now.shape (heard self.now.shape self.now.journal))) }
    {
        all_leaving(self.alloc, &self.timers)
    }

    /// The number of queues.
    fn queues(&self) -> u32
        ensures { result ≡ queues_of self.now.shape }
    {
        self.shape.bounds.queues
    }

    /// Writes a client's last word down.
    fn mark_client(&mut self, port: u32, note: TimersNote, client: u32) -> Result<(), OutOfMemory>
        requires { put_by (timers_putter self.old.shape port) note ≡ event_of (Heard.ClientDone client) }
        ensures ok { OnOk result (self.new ≡ taken self.old (port, note)) }
        ensures err { OnErr result (self.new ≡ self.old) }
    {
        self.journal.reserve(1)?;
        self.clients_done.mark(client);
        self.journal.push_reserved((port, note));
        Ok(())
    }

    /// Writes the bridge's last word down.
    fn mark_bridge(&mut self, port: u32, note: TimersNote) -> Result<(), OutOfMemory>
        requires { put_by (timers_putter self.old.shape port) note ≡ event_of Heard.Fin }
        ensures ok { OnOk result (self.new ≡ taken self.old (port, note)) }
        ensures err { OnErr result (self.new ≡ self.old) }
    {
        self.journal.reserve(1)?;
        self.bridge_done = true;
        self.journal.push_reserved((port, note));
        Ok(())
    }

    /// Takes a client's last word, and puts the ending's events if the ending comes with it.
    fn client_done<L: Tagged>(
        &mut self,
        port: u32,
        note: TimersNote,
        client: u32,
        out: &mut Outbox<TimerOut<L>>,
    ) -> Result<(), OutOfMemory>
        requires { put_by (timers_putter self.old.shape port) note ≡ event_of (Heard.ClientDone client) }
        ensures ok { OnOk result (self.new ≡ taken self.old (port, note)) }
        ensures puts { OnOk result (map (out_note L.tagged) out.new.items ≡ map (out_note L.tagged) out.old.items ++ timers_puts_at self.old.shape self.old.journal (port, note)) }
        ensures listener { OnOk result (listeners out.new.items ≡ listeners out.old.items) }
        ensures err { OnErr result (self.new ≡ self.old) }
        ensures out_err { OnErr result (out.new.items ≡ out.old.items) }
    {
        if !self.ends_with_client(port, note, client) {
            return self.mark_client(port, note, client);
        }
        let left = self.leaving()?;
        let leaving = left.as_slice();
        let queues = self.queues();
        reserve_ending(leaving, queues, out)?;
        self.mark_client(port, note, client)?;
        put_ending(leaving, queues, out);
        Ok(())
    }

    /// Takes the bridge's last word, and puts the ending's events if the ending comes with it.
    fn fin<L: Tagged>(
        &mut self,
        port: u32,
        note: TimersNote,
        out: &mut Outbox<TimerOut<L>>,
    ) -> Result<(), OutOfMemory>
        requires { put_by (timers_putter self.old.shape port) note ≡ event_of Heard.Fin }
        ensures ok { OnOk result (self.new ≡ taken self.old (port, note)) }
        ensures puts { OnOk result (map (out_note L.tagged) out.new.items ≡ map (out_note L.tagged) out.old.items ++ timers_puts_at self.old.shape self.old.journal (port, note)) }
        ensures listener { OnOk result (listeners out.new.items ≡ listeners out.old.items) }
        ensures err { OnErr result (self.new ≡ self.old) }
        ensures out_err { OnErr result (out.new.items ≡ out.old.items) }
    {
        if !self.ends_with_bridge() {
            return self.mark_bridge(port, note);
        }
        let left = self.leaving()?;
        let leaving = left.as_slice();
        let queues = self.queues();
        reserve_ending(leaving, queues, out)?;
        self.mark_bridge(port, note)?;
        put_ending(leaving, queues, out);
        Ok(())
    }

    /// Takes an event that brings no listener and is no queue's last word.
    fn take_plain<L: Tagged>(
        &mut self,
        port: u32,
        note: TimersNote,
        heard: Heard,
        out: &mut Outbox<TimerOut<L>>,
    ) -> Result<(), OutOfMemory>
        requires means { put_by (timers_putter self.old.shape port) note ≡ event_of heard }
        requires plain { IsPlain heard }
        ensures ok { OnOk result (self.new ≡ taken self.old (port, note)) }
        ensures puts { OnOk result (map (out_note L.tagged) out.new.items ≡ map (out_note L.tagged) out.old.items ++ timers_puts_at self.old.shape self.old.journal (port, note)) }
        ensures listener { OnOk result (listeners out.new.items ≡ listeners out.old.items) }
        ensures err { OnErr result (self.new ≡ self.old) }
        ensures out_err { OnErr result (out.new.items ≡ out.old.items) }
    {
        match heard {
            Heard::Disarms { timer } => self.take_disarm(port, note, timer, out),
            Heard::Now { moment } => self.now(port, note, moment, out),
            Heard::ClientDone { client } => self.client_done(port, note, client, out),
            Heard::Fin => self.fin(port, note, out),
            Heard::Nothing => self.take_nothing(port, note, out),
            // The condition leaves these two out.
            Heard::Arms { .. } => Ok(()),
            Heard::Bye { .. } => Ok(()),
        }
    }

    /// Takes the end of a timer, and puts that it is gone, if it was live.
    fn take_disarm<L: Tagged>(
        &mut self,
        port: u32,
        note: TimersNote,
        timer: TimerId,
        out: &mut Outbox<TimerOut<L>>,
    ) -> Result<(), OutOfMemory>
        requires { put_by (timers_putter self.old.shape port) note ≡ event_of (Heard.Disarms timer) }
        ensures ok { OnOk result (self.new ≡ taken self.old (port, note)) }
        ensures puts { OnOk result (map (out_note L.tagged) out.new.items ≡ map (out_note L.tagged) out.old.items ++ timers_puts_at self.old.shape self.old.journal (port, note)) }
        ensures listener { OnOk result (listeners out.new.items ≡ listeners out.old.items) }
        ensures err { OnErr result (self.new ≡ self.old) }
        ensures out_err { OnErr result (out.new.items ≡ out.old.items) }
    {
        out.reserve(1)?;
        let left = self.disarm(port, note, timer)?;
        put_if_gone(left, out);
        Ok(())
    }

    /// Takes an event that means nothing.
    fn take_nothing<L: Tagged>(
        &mut self,
        port: u32,
        note: TimersNote,
        out: &mut Outbox<TimerOut<L>>,
    ) -> Result<(), OutOfMemory>
        requires { put_by (timers_putter self.old.shape port) note ≡ event_of Heard.Nothing }
        ensures ok { OnOk result (self.new ≡ taken self.old (port, note)) }
        ensures puts { OnOk result (map (out_note L.tagged) out.new.items ≡ map (out_note L.tagged) out.old.items ++ timers_puts_at self.old.shape self.old.journal (port, note)) }
        ensures listener { listeners out.new.items ≡ listeners out.old.items }
        ensures err { OnErr result (self.new ≡ self.old) }
        ensures out_err { out.new.items ≡ out.old.items }
    {
        self.pass_over(port, note)?;
        Ok(())
    }

    /// Takes the arming of a timer, and puts its Create, if this is the first arming of its id.
    fn take_arm<L: Tagged>(
        &mut self,
        port: u32,
        note: TimersNote,
        arming: Arming,
        event: ToTimers<L>,
        out: &mut Outbox<TimerOut<L>>,
    ) -> Result<Took, ToTimers<L>>
        requires noted { note ≡ note_of L.tagged event }
        requires means { put_by (timers_putter self.old.shape port) note ≡ event_of (Heard.Arms arming) }
        ensures ok { OnOk result (self.new ≡ taken self.old (port, note)) }
        ensures puts { OnOk result (map (out_note L.tagged) out.new.items ≡ map (out_note L.tagged) out.old.items ++ timers_puts_at self.old.shape self.old.journal (port, note)) }
        ensures listener { OnOk result (listeners out.new.items ≡ listeners out.old.items ++ (if puts_create (timers_puts_at self.old.shape self.old.journal (port, note)) then brought event else [])) }
        ensures running { IfOk result (λ took. took ≡ Took.Running) }
        ensures back { IfErr result (λ given. given ≡ event) }
        ensures err { OnErr result (self.new ≡ self.old) }
        ensures out_err { OnErr result (out.new.items ≡ out.old.items) }
    {
        if out.reserve(1).is_err() {
            return Err(event);
        }
        match self.arm(port, note, arming) {
            Ok(slot) => {
                put_if_created(event, slot, out);
                Ok(Took::Running)
            }
            Err(_) => Err(event),
        }
    }

    /// Takes an event that is no timer's arming and no queue's last word.
    fn take_other<L: Tagged>(
        &mut self,
        port: u32,
        note: TimersNote,
        heard: Heard,
        event: ToTimers<L>,
        out: &mut Outbox<TimerOut<L>>,
    ) -> Result<Took, ToTimers<L>>
        requires means { put_by (timers_putter self.old.shape port) note ≡ event_of heard }
        requires plain { IsPlain heard }
        ensures ok { OnOk result (self.new ≡ taken self.old (port, note)) }
        ensures puts { OnOk result (map (out_note L.tagged) out.new.items ≡ map (out_note L.tagged) out.old.items ++ timers_puts_at self.old.shape self.old.journal (port, note)) }
        ensures listener { OnOk result (listeners out.new.items ≡ listeners out.old.items ++ (if puts_create (timers_puts_at self.old.shape self.old.journal (port, note)) then brought event else [])) }
        ensures running { IfOk result (λ took. took ≡ Took.Running) }
        ensures not_last { is_last_bye self.old (port, note) ≡ false }
        ensures back { IfErr result (λ given. given ≡ event) }
        ensures err { OnErr result (self.new ≡ self.old) }
        ensures out_err { OnErr result (out.new.items ≡ out.old.items) }
    {
        if self.take_plain(port, note, heard, out).is_err() {
            return Err(event);
        }
        Ok(Took::Running)
    }

    /// Takes the next event, and puts what follows from it at the end of `out`.
    pub(crate) fn take<L: Tagged>(
        &mut self,
        port: u32,
        event: ToTimers<L>,
        out: &mut Outbox<TimerOut<L>>,
    ) -> Result<Took, ToTimers<L>>
        ensures journal { OnOk result (self.new ≡ taken self.old (port, note_of L.tagged event)) }
        ensures puts { OnOk result (map (out_note L.tagged) out.new.items ≡ map (out_note L.tagged) out.old.items ++ timers_puts_at self.old.shape self.old.journal (port, note_of L.tagged event)) }
        ensures listener { OnOk result (listeners out.new.items ≡ listeners out.old.items ++ (if puts_create (timers_puts_at self.old.shape self.old.journal (port, note_of L.tagged event)) then brought event else [])) }
        ensures ended { IfOk result (λ took. (took ≡ Took.Ended) ↔ IsTrue (is_last_bye self.old (port, note_of L.tagged event))) }
        ensures back { IfErr result (λ given. given ≡ event) }
        ensures err { OnErr result (self.new ≡ self.old) }
        ensures out_err { OnErr result (out.new.items ≡ out.old.items) }
    {
        let note = match event.note() {
            Ok(note) => note,
            Err(_) => return Err(event),
        };
        match self.hear(port, note) {
            Heard::Arms { arming } => self.take_arm(port, note, arming, event, out),
            Heard::Bye { queue } => match self.bye(port, note, queue) {
                Ok(last) => Ok(ended_if(last)),
                Err(_) => Err(event),
            },
            heard => self.take_other(port, note, heard, event, out),
        }
    }
}

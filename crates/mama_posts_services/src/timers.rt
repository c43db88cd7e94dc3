ghost use Rattle.std.specs.Prelude.{◌≡◌, ◌↔◌, ℕ, ◌<◌, Some, true, false, [], ◌∷◌, ◌++◌, length, map, IfOk, IsOk, OnOk, OnErr};
ghost use Rattle.std.specs.List.{slice_get};
ghost use mathlib.Core.List.{IsPrefix};
ghost use Rattle.mama_event.specs.ToTimers.{note_of as timers_note_of};
ghost use Rattle.mama_event.specs.declared.to_queue.QueueNote.{QueueNote};
ghost use Rattle.mama_event.specs.Ports.{queues_of, queue_port_of_timers};
ghost use Rattle.mama_event.specs.declared.shape.Shape.{Shape as ShapeData};
ghost use Rattle.mama_lane.specs.Values.{note_of_port, after_learn};
ghost use Rattle.mama_posts_services.specs.Ports.{lanes_of, ids_of, place_of, ArePutting};
ghost use Rattle.mama_posts_services.specs.Service.{HasEnded, IsIdle, MadeStep, IsNewTaker, holding};
ghost use Rattle.mama_posts_services.specs.Timers.{IsTimersOf, timers_ports, is_over};

use crate::ports::{put_to, tell_of};
use crate::took::is_end;
use mama_carry::{Carried, Listener};
use mama_ends::{Inlet, Lane, Pace, Port, PutNote, Taker, Waiting};
use mama_event::{Shape, TimersNote, ToQueue, ToTimers};
use mama_laws_timers::lawful_clients_get_lawful_streams;
use mama_memory::{OutOfMemory, Outbox};
use mama_timer::{TimerOut, Timers};
use std::alloc::Global;
use std::marker::Model;
use std::sync::Wait;

/// The timer service's seat: the service with its journal, the ends of its lanes, and what it has left to put.
#[derive(Drop)]
pub struct TimersPost<L: Listener> {
    alloc: Global,
    timers: Timers<Carried<L>>,
    inlet: Inlet<ToTimers<Carried<L>>>,
    queues: Vec<Port<ToQueue<Carried<L>>>>,
    left: Waiting<TimerOut<Carried<L>>>,
    /// Whether the last queue's `Bye` was taken.
    over: bool,
}

impl<L: Listener> Model for TimersPost<L> {
    ghost use Rattle.std.specs.Prelude.{◌≡◌, map};
    ghost use Rattle.mama_timer.specs.Out.{out_note};
    ghost use Rattle.mama_seats.specs.Waiting.{waits};
    ghost use Rattle.mama_posts_services.specs.Timers.{TimersPostValue, is_over};

    ghost Value = { TimersPostValue };

    ghost view = { λ p. record { service = record { shape = p.timers.shape; journal = p.timers.journal; inlet = p.inlet; left = map (out_note (λ c. L.tagged c.listener)) (waits p.left) }; queues = p.queues.items } };

    ghost invariant = { λ p. p.over ≡ is_over p.timers.shape p.timers.journal };
}

/// What a timer service's seat has where it is taken apart: its taker, its ports, and its journal.
#[derive(Drop)]
pub struct TimersParts<L: Listener> {
    pub taker: Taker<ToTimers<Carried<L>>>,
    pub queues: Vec<Port<ToQueue<Carried<L>>>>,
    pub journal: Vec<(u32, TimersNote)>,
}

impl<L: Listener> TimersPost<L> {
    /// The seat of the timer service of this shape, which has done nothing yet. The ports are in the order of the queues'
    /// numbers. The error is want of memory.
    pub fn new(
        alloc: Global,
        shape: &Shape,
        taker: Taker<ToTimers<Carried<L>>>,
        queues: Vec<Port<ToQueue<Carried<L>>>>,
    ) -> Result<TimersPost<L>, OutOfMemory>
        requires taker { IsNewTaker shape.now.bounds (timers_ports shape.now) taker }
        requires queues { ArePutting shape.now.bounds queue_port_of_timers (queues_of shape.now) (λ q. []) (λ q. []) queues.items }
        ensures seat { IfOk result (λ seat. IsTimersOf shape.now seat) }
        ensures value { IfOk result (λ seat. seat ≡ record { service = record { shape = shape.now; journal = []; inlet = record { taker = taker; kept = [] }; left = [] }; queues = queues.items }) }
    {
        Ok(TimersPost {
            alloc,
            timers: Timers::new(alloc, shape)?,
            inlet: Inlet::new(taker),
            queues,
            left: Waiting::all(Outbox::new(alloc)),
            over: shape.bounds.queues == 0,
        })
    }

    /// Puts what is left of the seat's puts, in order, each on the lane of its queue. The error is want of memory: then the
    /// rest is still left.
    pub fn finish<Rt: Wait + Copy>(
        &mut self,
        rt: Rt,
        queues: &[Lane<ToQueue<Carried<L>>>],
    ) -> Result<(), OutOfMemory>
        requires seat { IsTimersOf self.old.service.shape self.old }
        requires queues { lanes_of self.old.queues ≡ ids_of queues.now }
        ensures seat { IsTimersOf self.old.service.shape self.new }
        ensures place { map place_of self.new.queues ≡ map place_of self.old.queues }
        ensures same { self.new.service ≡ record self.old.service { left = self.new.service.left } }
        ensures clear { OnOk result (self.new.service.left ≡ []) }
    {
        'puts: while self.put_first(rt, queues)? {}
        Ok(())
    }

    // Puts the first of what is left, if something is.
    fn put_first<Rt: Wait + Copy>(
        &mut self,
        rt: Rt,
        queues: &[Lane<ToQueue<Carried<L>>>],
    ) -> Result<bool, OutOfMemory>
        requires seat { IsTimersOf self.old.service.shape self.old }
        requires queues { lanes_of self.old.queues ≡ ids_of queues.now }
        ensures seat { IsTimersOf self.old.service.shape self.new }
        ensures place { map place_of self.new.queues ≡ map place_of self.old.queues }
        ensures same { self.new.service ≡ record self.old.service { left = self.new.service.left } }
        ensures put { result ≡ Ok true → (first : ℕ × QueueNote) × (self.old.service.left ≡ first ∷ self.new.service.left) }
        ensures clear { result ≡ Ok false → self.new.service.left ≡ [] }
    {
        lawful_clients_get_lawful_streams();
        let Some(out) = self.left.take_first() else {
            return Ok(false);
        };
        let TimerOut { queue, event } = out;
        match put_to(rt, queues, &mut self.queues, queue, event) {
            Ok(()) => Ok(true),
            Err(event) => {
                self.left.put_back(TimerOut { queue, event });
                Err(OutOfMemory)
            }
        }
    }

    /// A turn: it puts what was left of the turn before; or else it takes the next event, and puts what the service
    /// puts then. A turn that takes wants an allocation.
    ///
    /// The error is want of memory. Then an event that was not taken is kept, and what was not put is left, for the next
    /// turn.
    pub fn turn<Rt: Wait + Copy>(
        &mut self,
        rt: Rt,
        lane: &Lane<ToTimers<Carried<L>>>,
        queues: &[Lane<ToQueue<Carried<L>>>],
    ) -> Result<Pace, OutOfMemory>
        requires seat { IsTimersOf self.old.service.shape self.old }
        requires lane { self.old.service.inlet.taker.lane ≡ lane.now.id }
        requires queues { lanes_of self.old.queues ≡ ids_of queues.now }
        ensures seat { IsTimersOf self.old.service.shape self.new }
        ensures place { map place_of self.new.queues ≡ map place_of self.old.queues }
        ensures taker { self.new.service.inlet.taker ≡ record self.old.service.inlet.taker { taken = self.new.service.inlet.taker.taken } }
        ensures grows { IsPrefix self.old.service.journal self.new.service.journal }
        ensures waiting { result ≡ Ok Pace.Waiting → (self.new ≡ self.old) × IsIdle self.old.service }
        ensures ended { (result ≡ Ok Pace.Ended) ↔ HasEnded (is_over self.old.service.shape) self.old.service }
        ensures over { result ≡ Ok Pace.Ended → self.new ≡ self.old }
        ensures moved { result ≡ Ok Pace.Moved → MadeStep self.old.service self.new.service × (self.new.service.left ≡ []) }
    {
        let pace = self.advance(rt, lane)?;
        match pace {
            Pace::Moved => {
                self.finish(rt, queues)?;
                Ok(Pace::Moved)
            }
            Pace::Waiting => Ok(Pace::Waiting),
            Pace::Ended => Ok(Pace::Ended),
        }
    }

    // A turn up to what it puts, which is left. Where something was left, that was the step.
    fn advance<Rt: Wait + Copy>(
        &mut self,
        rt: Rt,
        lane: &Lane<ToTimers<Carried<L>>>,
    ) -> Result<Pace, OutOfMemory>
        requires seat { IsTimersOf self.old.service.shape self.old }
        requires lane { self.old.service.inlet.taker.lane ≡ lane.now.id }
        ensures seat { IsTimersOf self.old.service.shape self.new }
        ensures queues { self.new.queues ≡ self.old.queues }
        ensures taker { self.new.service.inlet.taker ≡ record self.old.service.inlet.taker { taken = self.new.service.inlet.taker.taken } }
        ensures grows { IsPrefix self.old.service.journal self.new.service.journal }
        ensures waiting { result ≡ Ok Pace.Waiting → (self.new ≡ self.old) × IsIdle self.old.service }
        ensures ended { (result ≡ Ok Pace.Ended) ↔ HasEnded (is_over self.old.service.shape) self.old.service }
        ensures over { result ≡ Ok Pace.Ended → self.new ≡ self.old }
        ensures moved { result ≡ Ok Pace.Moved → MadeStep self.old.service self.new.service }
    {
        if self.has_left() {
            return Ok(Pace::Moved);
        }
        if self.over {
            return Ok(Pace::Ended);
        }
        match self.inlet.fetch(rt, lane) {
            Some((port, event)) => self.serve(port, event),
            None => Ok(Pace::Waiting),
        }
    }

    // Whether something is left to put.
    fn has_left(&mut self) -> bool
        ensures clear { (result ≡ false) ↔ (self.old.service.left ≡ []) }
        ensures same { self.new ≡ self.old }
    {
        match self.left.take_first() {
            Some(out) => {
                self.left.put_back(out);
                true
            }
            None => false,
        }
    }

    // Takes an event that was fetched, or else keeps it.
    fn serve(&mut self, port: u32, event: ToTimers<Carried<L>>) -> Result<Pace, OutOfMemory>
        requires seat { IsTimersOf self.old.service.shape (record self.old { service = holding self.old.service port (timers_note_of (λ c. L.tagged c.listener) event) }) }
        requires going { is_over self.old.service.shape self.old.service.journal ≡ false }
        requires kept { self.old.service.inlet.kept ≡ [] }
        requires left { self.old.service.left ≡ [] }
        ensures seat { IsTimersOf self.old.service.shape self.new }
        ensures queues { self.new.queues ≡ self.old.queues }
        ensures taker { self.new.service.inlet.taker ≡ self.old.service.inlet.taker }
        ensures moved { IfOk result (λ pace. pace ≡ Pace.Moved) }
        ensures took { OnOk result (self.new.service.journal ≡ self.old.service.journal ++ (port, timers_note_of (λ c. L.tagged c.listener) event) ∷ []) }
        ensures served { OnOk result (self.new.service.inlet.kept ≡ []) }
        ensures back { OnErr result (self.new ≡ record self.old { service = holding self.old.service port (timers_note_of (λ c. L.tagged c.listener) event) }) }
    {
        let mut out = self.left.lend(self.alloc);
        match self.timers.take(port, event, &mut out) {
            Ok(took) => {
                self.over = is_end(took);
                self.left = Waiting::all(out);
                Ok(Pace::Moved)
            }
            Err(event) => {
                self.inlet.keep(port, event);
                Err(OutOfMemory)
            }
        }
    }

    /// Whether it has ended.
    pub fn ended(&mut self) -> bool
        ensures ended { (result ≡ true) ↔ HasEnded (is_over self.old.service.shape) self.old.service }
        ensures same { self.new ≡ self.old }
    {
        if self.has_left() {
            return false;
        }
        self.over
    }

    /// From now on the seat knows that the note's port has put what the note names. It takes no memory.
    pub fn learn<Rt: Copy>(
        &mut self,
        rt: Rt,
        lane: &Lane<ToTimers<Carried<L>>>,
        note: PutNote<ToTimers<Carried<L>>>,
    )
        requires lane { self.old.service.inlet.taker.lane ≡ lane.now.id }
        requires note { note.lane ≡ lane.now.id }
        ensures seat { (shape : ShapeData) → IsTimersOf shape self.old → IsTimersOf shape self.new }
        ensures learnt { self.new ≡ record self.old { service = record self.old.service { inlet = record self.old.service.inlet { taker = after_learn self.old.service.inlet.taker note } } } }
    {
        self.inlet.learn(rt, lane, note);
    }

    /// A note of what was put to the queue of this number so far. It takes no memory, and always succeeds.
    pub fn tell_queue<Rt: Copy>(
        &mut self,
        rt: Rt,
        queues: &[Lane<ToQueue<Carried<L>>>],
        queue: u32,
    ) -> Result<PutNote<ToQueue<Carried<L>>>, OutOfMemory>
        requires queues { lanes_of self.old.queues ≡ ids_of queues.now }
        requires there { queue < length self.old.queues }
        ensures ok { IsOk result }
        ensures note { IfOk result (λ note. slice_get (map note_of_port self.old.queues) queue ≡ Some note) }
        ensures same { self.new ≡ self.old }
    {
        tell_of(rt, queues, &mut self.queues, queue)
    }

    /// The taker, the ports and the journal. An event that is kept, and what is left, are dropped. It takes no memory.
    pub fn into_parts(self) -> TimersParts<L>
        ensures taker { result.taker ≡ self.service.inlet.taker }
        ensures queues { result.queues.items ≡ self.queues }
        ensures journal { result.journal.items ≡ self.service.journal }
    {
        let TimersPost {
            alloc: _,
            timers,
            inlet,
            queues,
            left: _,
            over: _,
        } = self;
        TimersParts {
            taker: inlet.into_taker(),
            queues,
            journal: timers.into_journal(),
        }
    }
}

ghost use Rattle.std.specs.Prelude.{◌≡◌, ◌↔◌, ◌<◌, Some, true, false, [], ◌∷◌, ◌++◌, length, map, IfOk, IsOk, OnOk, OnErr, IfErr};
ghost use Rattle.std.specs.List.{slice_get};
ghost use mathlib.Core.List.{IsPrefix};
ghost use Rattle.mama_event.specs.ToBridge.{note_of as bridge_note_of};
ghost use Rattle.mama_event.specs.Ports.{bridge_ports, publishers_of, queues_of, timers_port_of_bridge, queue_port_of_bridge};
ghost use Rattle.mama_rules_services.specs.Bridge.{BridgePut};
ghost use Rattle.mama_bridge.specs.Outs.{put_note};
ghost use Rattle.mama_event.specs.declared.shape.Shape.{Shape as ShapeData};
ghost use Rattle.mama_lane.specs.Values.{note_of_port, after_learn};
ghost use Rattle.mama_posts_services.specs.Ports.{lanes_of, ids_of, IsPutting, ArePutting};
ghost use Rattle.mama_posts_services.specs.Service.{HasEnded, IsIdle, MadeStep, IsNewTaker, holding};
ghost use Rattle.mama_posts_services.specs.Bridge.{IsBridgeOf, StayPlaced, is_over};
ghost use Rattle.mama_posts_services.specs.Laying.{laid, MayLay};

use crate::ports::{put_to, tell_of};
use crate::took::is_end;
use mama_bridge::{Bridge, BridgeOut, MemoryBridge};
use mama_carry::{Carried, Listener};
use mama_ends::{Inlet, Lane, Pace, Port, PutNote, Taker, Waiting};
use mama_event::{BridgeNote, Shape, ToBridge, ToPublisher, ToQueue, ToTimers};
use mama_laws_lawful::lawful_clients_get_lawful_streams;
use mama_memory::{OutOfMemory, Outbox};
use std::alloc::Global;
use std::marker::Model;
use std::sync::Wait;

/// The bridge's ports: one on the lane of each publisher and of each queue, and one on that of the timer service.
#[derive(Drop)]
struct BridgePorts<L: Listener> {
    publishers: Vec<Port<ToPublisher>>,
    queues: Vec<Port<ToQueue<Carried<L>>>>,
    timers: Port<ToTimers<Carried<L>>>,
}

impl<L: Listener> Model for BridgePorts<L> {
    ghost use Rattle.mama_posts_services.specs.Bridge.{BridgePortsValue};

    ghost Value = { BridgePortsValue };

    ghost view = { λ p. record { publishers = p.publishers.items; queues = p.queues.items; timers = p.timers } };
}

impl<L: Listener> BridgePorts<L> {
    // Puts an event on the lane of its actor. Where there is no such actor the event is dropped. Where memory runs out the
    // event comes back.
    fn put<Rt: Wait + Copy>(
        &mut self,
        rt: Rt,
        publishers: &[Lane<ToPublisher>],
        queues: &[Lane<ToQueue<Carried<L>>>],
        timers: &Lane<ToTimers<Carried<L>>>,
        out: BridgeOut<Carried<L>>,
    ) -> Result<(), BridgeOut<Carried<L>>>
        requires publishers { lanes_of self.old.publishers ≡ ids_of publishers.now }
        requires queues { lanes_of self.old.queues ≡ ids_of queues.now }
        requires timers { self.old.timers.lane ≡ timers.now.id }
        requires lawful { MayLay (put_note (λ c. L.tagged c.listener) out) self.old }
        ensures ok { OnOk result (self.new ≡ laid (put_note (λ c. L.tagged c.listener) out) self.old) }
        ensures err { OnErr result (self.new ≡ self.old) }
        ensures back { IfErr result (λ back. back ≡ out) }
    {
        match out {
            BridgeOut::Publisher(number, event) => {
                match put_to(rt, publishers, &mut self.publishers, number, event) {
                    Ok(()) => Ok(()),
                    Err(event) => Err(BridgeOut::Publisher(number, event)),
                }
            }
            BridgeOut::Queue(number, event) => {
                match put_to(rt, queues, &mut self.queues, number, event) {
                    Ok(()) => Ok(()),
                    Err(event) => Err(BridgeOut::Queue(number, event)),
                }
            }
            BridgeOut::Timers(event) => match self.timers.put(rt, timers, event) {
                Ok(()) => Ok(()),
                Err(event) => Err(BridgeOut::Timers(event)),
            },
        }
    }
}

/// The bridge's seat: the bridge with its journal, the ends of its lanes, and what it has left to put.
#[derive(Drop)]
pub struct BridgePost<L: Listener> {
    alloc: Global,
    bridge: MemoryBridge<Carried<L>>,
    inlet: Inlet<ToBridge<Carried<L>>>,
    ports: BridgePorts<L>,
    left: Waiting<BridgeOut<Carried<L>>>,
    /// Whether the last queue's `Bye` was taken.
    over: bool,
}

impl<L: Listener> Model for BridgePost<L> {
    ghost use Rattle.std.specs.Prelude.{◌≡◌, map};
    ghost use Rattle.mama_bridge.specs.Outs.{put_note};
    ghost use Rattle.mama_seats.specs.Waiting.{waits};
    ghost use Rattle.mama_posts_services.specs.Bridge.{BridgePostValue, is_over};

    ghost Value = { BridgePostValue };

    ghost view = { λ p. record { service = record { shape = p.bridge.shape; journal = p.bridge.journal; inlet = p.inlet; left = map (put_note (λ c. L.tagged c.listener)) (waits p.left) }; ports = p.ports } };

    ghost invariant = { λ p. p.over ≡ is_over p.bridge.shape p.bridge.journal };
}

/// What a bridge's seat has where it is taken apart: its taker, its ports, and its journal.
#[derive(Drop)]
pub struct BridgeParts<L: Listener> {
    pub taker: Taker<ToBridge<Carried<L>>>,
    pub publishers: Vec<Port<ToPublisher>>,
    pub queues: Vec<Port<ToQueue<Carried<L>>>>,
    pub timers: Port<ToTimers<Carried<L>>>,
    pub journal: Vec<(u32, BridgeNote)>,
}

impl<L: Listener> BridgePost<L> {
    /// The seat of the bridge of this shape, which has done nothing yet. The ports are in the order of the publishers' and
    /// of the queues' numbers. The error is want of memory, or more publishers than numbers of them.
    pub fn new(
        alloc: Global,
        shape: &Shape,
        taker: Taker<ToBridge<Carried<L>>>,
        publishers: Vec<Port<ToPublisher>>,
        queues: Vec<Port<ToQueue<Carried<L>>>>,
        timers: Port<ToTimers<Carried<L>>>,
    ) -> Result<BridgePost<L>, OutOfMemory>
        requires taker { IsNewTaker shape.now.bounds (bridge_ports shape.now) taker }
        requires publishers { ArePutting shape.now.bounds 0 (publishers_of shape.now) (λ p. []) (λ p. []) publishers.items }
        requires queues { ArePutting shape.now.bounds queue_port_of_bridge (queues_of shape.now) (λ q. []) (λ q. []) queues.items }
        requires timers { IsPutting shape.now.bounds (timers_port_of_bridge shape.now) [] [] timers }
        ensures seat { IfOk result (λ seat. IsBridgeOf shape.now seat) }
        ensures value { IfOk result (λ seat. seat ≡ record { service = record { shape = shape.now; journal = []; inlet = record { taker = taker; kept = [] }; left = [] }; ports = record { publishers = publishers.items; queues = queues.items; timers = timers } }) }
    {
        Ok(BridgePost {
            alloc,
            bridge: MemoryBridge::new(alloc, shape)?,
            inlet: Inlet::new(taker),
            ports: BridgePorts {
                publishers,
                queues,
                timers,
            },
            left: Waiting::all(Outbox::new(alloc)),
            over: shape.bounds.queues == 0,
        })
    }

    /// Puts what is left of the seat's puts, in order, each on the lane of its actor. The error is want of memory: then
    /// the rest is still left.
    pub fn finish<Rt: Wait + Copy>(
        &mut self,
        rt: Rt,
        publishers: &[Lane<ToPublisher>],
        queues: &[Lane<ToQueue<Carried<L>>>],
        timers: &Lane<ToTimers<Carried<L>>>,
    ) -> Result<(), OutOfMemory>
        requires seat { IsBridgeOf self.old.service.shape self.old }
        requires publishers { lanes_of self.old.ports.publishers ≡ ids_of publishers.now }
        requires queues { lanes_of self.old.ports.queues ≡ ids_of queues.now }
        requires timers { self.old.ports.timers.lane ≡ timers.now.id }
        ensures seat { IsBridgeOf self.old.service.shape self.new }
        ensures place { StayPlaced self.old.ports self.new.ports }
        ensures same { self.new.service ≡ record self.old.service { left = self.new.service.left } }
        ensures clear { OnOk result (self.new.service.left ≡ []) }
    {
        'puts: while self.put_first(rt, publishers, queues, timers)? {}
        Ok(())
    }

    // Puts the first of what is left, if something is.
    fn put_first<Rt: Wait + Copy>(
        &mut self,
        rt: Rt,
        publishers: &[Lane<ToPublisher>],
        queues: &[Lane<ToQueue<Carried<L>>>],
        timers: &Lane<ToTimers<Carried<L>>>,
    ) -> Result<bool, OutOfMemory>
        requires seat { IsBridgeOf self.old.service.shape self.old }
        requires publishers { lanes_of self.old.ports.publishers ≡ ids_of publishers.now }
        requires queues { lanes_of self.old.ports.queues ≡ ids_of queues.now }
        requires timers { self.old.ports.timers.lane ≡ timers.now.id }
        ensures seat { IsBridgeOf self.old.service.shape self.new }
        ensures place { StayPlaced self.old.ports self.new.ports }
        ensures same { self.new.service ≡ record self.old.service { left = self.new.service.left } }
        ensures put { result ≡ Ok true → (first : BridgePut) × (self.old.service.left ≡ first ∷ self.new.service.left) }
        ensures clear { result ≡ Ok false → self.new.service.left ≡ [] }
    {
        lawful_clients_get_lawful_streams();
        let Some(out) = self.left.take_first() else {
            return Ok(false);
        };
        match self.ports.put(rt, publishers, queues, timers, out) {
            Ok(()) => Ok(true),
            Err(out) => {
                self.left.put_back(out);
                Err(OutOfMemory)
            }
        }
    }

    /// A turn: it puts what was left of the turn before; or else it takes the next event, and puts what the bridge puts
    /// then. A turn that takes wants an allocation.
    ///
    /// The error is want of memory. Then an event that was not taken is kept, and what was not put is left, for the next
    /// turn.
    pub fn turn<Rt: Wait + Copy>(
        &mut self,
        rt: Rt,
        lane: &Lane<ToBridge<Carried<L>>>,
        publishers: &[Lane<ToPublisher>],
        queues: &[Lane<ToQueue<Carried<L>>>],
        timers: &Lane<ToTimers<Carried<L>>>,
    ) -> Result<Pace, OutOfMemory>
        requires seat { IsBridgeOf self.old.service.shape self.old }
        requires lane { self.old.service.inlet.taker.lane ≡ lane.now.id }
        requires publishers { lanes_of self.old.ports.publishers ≡ ids_of publishers.now }
        requires queues { lanes_of self.old.ports.queues ≡ ids_of queues.now }
        requires timers { self.old.ports.timers.lane ≡ timers.now.id }
        ensures seat { IsBridgeOf self.old.service.shape self.new }
        ensures place { StayPlaced self.old.ports self.new.ports }
        ensures taker { self.new.service.inlet.taker ≡ record self.old.service.inlet.taker { taken = self.new.service.inlet.taker.taken } }
        ensures grows { IsPrefix self.old.service.journal self.new.service.journal }
        ensures waiting { result ≡ Ok Pace.Waiting → (self.new ≡ self.old) × IsIdle self.old.service }
        ensures ended { (result ≡ Ok Pace.Ended) ↔ HasEnded (is_over self.old.service.shape) self.old.service }
        ensures over { result ≡ Ok Pace.Ended → self.new ≡ self.old }
        ensures moved { result ≡ Ok Pace.Moved → MadeStep self.old.service self.new.service × (self.new.service.left ≡ []) }
    {
        let pace = self.advance(rt, lane)?;
        match pace {
            Pace::Moved => {
                self.finish(rt, publishers, queues, timers)?;
                Ok(Pace::Moved)
            }
            Pace::Waiting => Ok(Pace::Waiting),
            Pace::Ended => Ok(Pace::Ended),
        }
    }

    // A turn up to what it puts, which is left. Where something was left, that was the step.
    fn advance<Rt: Wait + Copy>(
        &mut self,
        rt: Rt,
        lane: &Lane<ToBridge<Carried<L>>>,
    ) -> Result<Pace, OutOfMemory>
        requires seat { IsBridgeOf self.old.service.shape self.old }
        requires lane { self.old.service.inlet.taker.lane ≡ lane.now.id }
        ensures seat { IsBridgeOf self.old.service.shape self.new }
        ensures ports { self.new.ports ≡ self.old.ports }
        ensures taker { self.new.service.inlet.taker ≡ record self.old.service.inlet.taker { taken = self.new.service.inlet.taker.taken } }
        ensures grows { IsPrefix self.old.service.journal self.new.service.journal }
        ensures waiting { result ≡ Ok Pace.Waiting → (self.new ≡ self.old) × IsIdle self.old.service }
        ensures ended { (result ≡ Ok Pace.Ended) ↔ HasEnded (is_over self.old.service.shape) self.old.service }
        ensures over { result ≡ Ok Pace.Ended → self.new ≡ self.old }
        ensures moved { result ≡ Ok Pace.Moved → MadeStep self.old.service self.new.service }
    {
        if self.has_left() {
            return Ok(Pace::Moved);
        }
        if self.over {
            return Ok(Pace::Ended);
        }
        match self.inlet.fetch(rt, lane) {
            Some((port, event)) => self.serve(port, event),
            None => Ok(Pace::Waiting),
        }
    }

    // Whether something is left to put.
    fn has_left(&mut self) -> bool
        ensures clear { (result ≡ false) ↔ (self.old.service.left ≡ []) }
        ensures same { self.new ≡ self.old }
    {
        match self.left.take_first() {
            Some(out) => {
                self.left.put_back(out);
                true
            }
            None => false,
        }
    }

    // Takes an event that was fetched, or else keeps it.
    fn serve(&mut self, port: u32, event: ToBridge<Carried<L>>) -> Result<Pace, OutOfMemory>
        requires seat { IsBridgeOf self.old.service.shape (record self.old { service = holding self.old.service port (bridge_note_of (λ c. L.tagged c.listener) event) }) }
        requires going { is_over self.old.service.shape self.old.service.journal ≡ false }
        requires kept { self.old.service.inlet.kept ≡ [] }
        requires left { self.old.service.left ≡ [] }
        ensures seat { IsBridgeOf self.old.service.shape self.new }
        ensures ports { self.new.ports ≡ self.old.ports }
        ensures taker { self.new.service.inlet.taker ≡ self.old.service.inlet.taker }
        ensures moved { IfOk result (λ pace. pace ≡ Pace.Moved) }
        ensures took { OnOk result (self.new.service.journal ≡ self.old.service.journal ++ (port, bridge_note_of (λ c. L.tagged c.listener) event) ∷ []) }
        ensures served { OnOk result (self.new.service.inlet.kept ≡ []) }
        ensures back { OnErr result (self.new ≡ record self.old { service = holding self.old.service port (bridge_note_of (λ c. L.tagged c.listener) event) }) }
    {
        let mut out = self.left.lend(self.alloc);
        match self.bridge.take(port, event, &mut out) {
            Ok(took) => {
                self.over = is_end(took);
                self.left = Waiting::all(out);
                Ok(Pace::Moved)
            }
            Err(event) => {
                self.inlet.keep(port, event);
                Err(OutOfMemory)
            }
        }
    }

    /// Whether it has ended.
    pub fn ended(&mut self) -> bool
        ensures ended { (result ≡ true) ↔ HasEnded (is_over self.old.service.shape) self.old.service }
        ensures same { self.new ≡ self.old }
    {
        if self.has_left() {
            return false;
        }
        self.over
    }

    /// From now on the seat knows that the note's port has put what the note names. It takes no memory.
    pub fn learn<Rt: Copy>(
        &mut self,
        rt: Rt,
        lane: &Lane<ToBridge<Carried<L>>>,
        note: PutNote<ToBridge<Carried<L>>>,
    )
        requires lane { self.old.service.inlet.taker.lane ≡ lane.now.id }
        requires note { note.lane ≡ lane.now.id }
        ensures seat { (shape : ShapeData) → IsBridgeOf shape self.old → IsBridgeOf shape self.new }
        ensures learnt { self.new ≡ record self.old { service = record self.old.service { inlet = record self.old.service.inlet { taker = after_learn self.old.service.inlet.taker note } } } }
    {
        self.inlet.learn(rt, lane, note);
    }

    /// A note of what was put to the publisher of this number so far. It takes no memory, and always succeeds.
    pub fn tell_publisher<Rt: Copy>(
        &mut self,
        rt: Rt,
        publishers: &[Lane<ToPublisher>],
        publisher: u32,
    ) -> Result<PutNote<ToPublisher>, OutOfMemory>
        requires publishers { lanes_of self.old.ports.publishers ≡ ids_of publishers.now }
        requires there { publisher < length self.old.ports.publishers }
        ensures ok { IsOk result }
        ensures note { IfOk result (λ note. slice_get (map note_of_port self.old.ports.publishers) publisher ≡ Some note) }
        ensures same { self.new ≡ self.old }
    {
        tell_of(rt, publishers, &mut self.ports.publishers, publisher)
    }

    /// A note of what was put to the queue of this number so far. It takes no memory, and always succeeds.
    pub fn tell_queue<Rt: Copy>(
        &mut self,
        rt: Rt,
        queues: &[Lane<ToQueue<Carried<L>>>],
        queue: u32,
    ) -> Result<PutNote<ToQueue<Carried<L>>>, OutOfMemory>
        requires queues { lanes_of self.old.ports.queues ≡ ids_of queues.now }
        requires there { queue < length self.old.ports.queues }
        ensures ok { IsOk result }
        ensures note { IfOk result (λ note. slice_get (map note_of_port self.old.ports.queues) queue ≡ Some note) }
        ensures same { self.new ≡ self.old }
    {
        tell_of(rt, queues, &mut self.ports.queues, queue)
    }

    /// A note of what was put to the timer service so far. It takes no memory, and always succeeds.
    pub fn tell_timers<Rt: Copy>(
        &mut self,
        rt: Rt,
        timers: &Lane<ToTimers<Carried<L>>>,
    ) -> Result<PutNote<ToTimers<Carried<L>>>, OutOfMemory>
        requires timers { self.old.ports.timers.lane ≡ timers.now.id }
        ensures ok { IsOk result }
        ensures note { IfOk result (λ note. note ≡ note_of_port self.old.ports.timers) }
        ensures same { self.new ≡ self.old }
    {
        self.ports.timers.tell(rt, timers)
    }

    /// The taker, the ports and the journal. An event that is kept, and what is left, are dropped. It takes no memory.
    pub fn into_parts(self) -> BridgeParts<L>
        ensures taker { result.taker ≡ self.service.inlet.taker }
        ensures publishers { result.publishers.items ≡ self.ports.publishers }
        ensures queues { result.queues.items ≡ self.ports.queues }
        ensures timers { result.timers ≡ self.ports.timers }
        ensures journal { result.journal.items ≡ self.service.journal }
    {
        let BridgePost {
            alloc: _,
            bridge,
            inlet,
            ports,
            left: _,
            over: _,
        } = self;
        let BridgePorts {
            publishers,
            queues,
            timers,
        } = ports;
        BridgeParts {
            taker: inlet.into_taker(),
            publishers,
            queues,
            timers,
            journal: bridge.into_journal(),
        }
    }
}

ghost use Rattle.std.specs.Prelude.{◌≡◌, ◌↔◌, ℕ, ◌+◌, ◌^◌, ◌<◌, ◌≤◌, true, false, [], ◌∷◌, ◌++◌, length, IfOk, IsOk, OnOk, OnErr, Ok};
ghost use Rattle.std.specs.List.{list_any};
ghost use mathlib.Core.List.{IsPrefix};
ghost use Rattle.mama_event.specs.ToPublisher.{note_of as publisher_note_of};
ghost use Rattle.mama_rules_legal.specs.Edges.{taken_by};
ghost use Rattle.mama_rules_legal.specs.Lines.{is_done, takes_settle};
ghost use Rattle.mama_laws_allowed.specs.Allowed.{comes_in_time};
ghost use Rattle.mama_journal.specs.Lane.{from_port};
ghost use Rattle.mama_script.specs.declared.publisher.PublisherPart.{PublisherPart as PublisherPartData};
ghost use Rattle.mama_lane.specs.Values.{note_of_port, after_learn};
ghost use Rattle.mama_posts_services.specs.Publisher.{IsPublisherOf, HasEnded, DidLine, MadeStep, IsCaughtUp, holding};

use mama_carry::{Carried, Listener};
use mama_ends::{Inlet, Lane, Pace, Port, PutNote, Taker, Waiting, flush};
use mama_event::{PublisherEntry, ToBridge, ToPublisher};
use mama_laws_allowed::publisher_puts_are_lawful;
use mama_memory::{OutOfMemory, Outbox};
use mama_script::PublisherPart;
use mama_seats::PublisherState;
use std::alloc::Global;
use std::marker::Model;
use std::sync::Wait;

/// A publisher's seat: where the publisher stands in its section, the ends of its lanes, and what it has left to put.
#[derive(Drop)]
pub struct PublisherPost<L: Listener> {
    alloc: Global,
    state: PublisherState,
    inlet: Inlet<ToPublisher>,
    port: Port<ToBridge<Carried<L>>>,
    left: Waiting<ToBridge<Carried<L>>>,
    /// Whether a `Settle` was taken.
    settled: bool,
}

impl<L: Listener> Model for PublisherPost<L> {
    ghost use Rattle.std.specs.Prelude.{◌≡◌, map};
    ghost use Rattle.std.specs.List.{list_any};
    ghost use Rattle.mama_event.specs.ToBridge.{note_of};
    ghost use Rattle.mama_rules_legal.specs.Lines.{takes_settle};
    ghost use Rattle.mama_seats.specs.Waiting.{waits};
    ghost use Rattle.mama_posts_services.specs.Publisher.{PublisherPostValue};

    ghost Value = { PublisherPostValue };

    ghost view = { λ p. record { progress = p.state; inlet = p.inlet; port = p.port; left = map (note_of (λ c. L.tagged c.listener)) (waits p.left) } };

    ghost invariant = { λ p. p.settled ≡ list_any takes_settle p.state.journal };
}

/// What a publisher's seat has where it is taken apart: its taker, its port, and its journal.
#[derive(Drop)]
pub struct PublisherParts<L: Listener> {
    pub taker: Taker<ToPublisher>,
    pub port: Port<ToBridge<Carried<L>>>,
    pub journal: Vec<PublisherEntry>,
}

// Whether the event is a Settle.
fn is_settle(event: &ToPublisher) -> bool
    ensures { result ≡ takes_settle (PublisherEntry.Took (publisher_note_of event.now)) }
{
    matches!(event, ToPublisher::Settle)
}

impl<L: Listener> PublisherPost<L> {
    /// The seat of the publisher of this number and section, which has done nothing yet.
    pub fn new(
        alloc: Global,
        number: u32,
        part: &PublisherPart,
        taker: Taker<ToPublisher>,
        port: Port<ToBridge<Carried<L>>>,
    ) -> Result<PublisherPost<L>, OutOfMemory>
        requires number { number + 1 < 2 ^ 32 }
        requires base { length part.now.base ≤ 64 }
        requires taker { taker.taken ≡ [] }
        requires port { port.put ≡ [] }
        ensures seat { IfOk result (λ seat. IsPublisherOf part.now number seat) }
        ensures value { IfOk result (λ seat. seat ≡ record { progress = record { publisher = record { number = number; held = part.now.base; seq = 0 }; journal = []; line = 0; pause = 0; over = false }; inlet = record { taker = taker; kept = [] }; port = port; left = [] }) }
    {
        Ok(PublisherPost {
            alloc,
            state: PublisherState::new(alloc, number, part)?,
            inlet: Inlet::new(taker),
            port,
            left: Waiting::all(Outbox::new(alloc)),
            settled: false,
        })
    }

    /// Puts what is left of the seat's puts, in order. The section and the number say whose seat it is. The error is want of
    /// memory: then the rest is still left.
    pub fn finish<Rt: Wait + Copy>(
        &mut self,
        rt: Rt,
        lane: &Lane<ToBridge<Carried<L>>>,
        _part: &PublisherPart,
        _number: u32,
    ) -> Result<(), OutOfMemory>
        requires seat { IsPublisherOf _part.now _number self.old }
        requires lane { self.old.port.lane ≡ lane.now.id }
        ensures seat { IsPublisherOf _part.now _number self.new }
        ensures place { self.new.port ≡ record self.old.port { put = self.new.port.put } }
        ensures same { (self.new.progress ≡ self.old.progress) × (self.new.inlet ≡ self.old.inlet) }
        ensures clear { OnOk result (self.new.left ≡ []) }
    {
        publisher_puts_are_lawful();
        flush(rt, lane, &mut self.port, &mut self.left)
    }

    /// A turn: it puts what was left of the turn before; or else it takes the next event; or else, where none came, it does
    /// the next line. What the event or the line puts is put. A turn that puts wants an allocation.
    ///
    /// The error is want of memory, a record or a number that no accepted script has, or an event that does
    /// not come in time, as a `Settle` before the last line, which no bridge puts. Then an event that was not taken is kept,
    /// and what was not put is left, for the next turn.
    pub fn turn<Rt: Wait + Copy>(
        &mut self,
        rt: Rt,
        lane: &Lane<ToPublisher>,
        bridge: &Lane<ToBridge<Carried<L>>>,
        part: &PublisherPart,
        number: u32,
    ) -> Result<Pace, OutOfMemory>
        requires seat { IsPublisherOf part.now number self.old }
        requires lane { self.old.inlet.taker.lane ≡ lane.now.id }
        requires bridge { self.old.port.lane ≡ bridge.now.id }
        ensures seat { IsPublisherOf part.now number self.new }
        ensures place { self.new.port ≡ record self.old.port { put = self.new.port.put } }
        ensures taker { self.new.inlet.taker ≡ record self.old.inlet.taker { taken = self.new.inlet.taker.taken } }
        ensures grows { IsPrefix self.old.progress.journal self.new.progress.journal }
        ensures waiting { result ≡ Ok Pace.Waiting → (self.new ≡ self.old) × (self.old.progress.over ≡ true) × (self.old.left ≡ []) × IsCaughtUp self.old.inlet }
        ensures ended { (result ≡ Ok Pace.Ended) ↔ HasEnded self.old }
        ensures over { result ≡ Ok Pace.Ended → self.new ≡ self.old }
        ensures moved { result ≡ Ok Pace.Moved → MadeStep part.now self.old self.new × (self.new.left ≡ []) }
    {
        let pace = self.advance(rt, lane, part, number)?;
        match pace {
            Pace::Moved => {
                self.finish(rt, bridge, part, number)?;
                Ok(Pace::Moved)
            }
            Pace::Waiting => Ok(Pace::Waiting),
            Pace::Ended => Ok(Pace::Ended),
        }
    }

    /// Whether it has ended.
    pub fn ended(&mut self) -> bool
        requires { self.old.inlet.taker.taken ≡ from_port 0 (taken_by self.old.progress.journal) ++ self.old.inlet.kept }
        ensures ended { (result ≡ true) ↔ HasEnded self.old }
        ensures same { self.new ≡ self.old }
    {
        if self.has_left() {
            return false;
        }
        self.has_ended()
    }

    /// From now on the seat knows that the note's port has put what the note names. It takes no memory.
    pub fn learn<Rt: Copy>(&mut self, rt: Rt, lane: &Lane<ToPublisher>, note: PutNote<ToPublisher>)
        requires lane { self.old.inlet.taker.lane ≡ lane.now.id }
        requires note { note.lane ≡ lane.now.id }
        ensures seat { (part : PublisherPartData) (number : ℕ) → IsPublisherOf part number self.old → IsPublisherOf part number self.new }
        ensures learnt { self.new ≡ record self.old { inlet = record self.old.inlet { taker = after_learn self.old.inlet.taker note } } }
    {
        self.inlet.learn(rt, lane, note);
    }

    /// A note of what was put to the bridge so far. It takes no memory, and always succeeds.
    pub fn tell_bridge<Rt: Copy>(
        &mut self,
        rt: Rt,
        bridge: &Lane<ToBridge<Carried<L>>>,
    ) -> Result<PutNote<ToBridge<Carried<L>>>, OutOfMemory>
        requires { self.old.port.lane ≡ bridge.now.id }
        ensures ok { IsOk result }
        ensures note { IfOk result (λ note. note ≡ note_of_port self.old.port) }
        ensures same { self.new ≡ self.old }
    {
        self.port.tell(rt, bridge)
    }

    /// The taker, the port and the journal. An event that is kept, and what is left, are dropped. It takes no memory.
    pub fn into_parts(self) -> PublisherParts<L>
        ensures taker { result.taker ≡ self.inlet.taker }
        ensures port { result.port ≡ self.port }
        ensures journal { result.journal.items ≡ self.progress.journal }
    {
        let PublisherPost {
            alloc: _,
            state,
            inlet,
            port,
            left: _,
            settled: _,
        } = self;
        PublisherParts {
            taker: inlet.into_taker(),
            port,
            journal: state.into_journal(),
        }
    }

    // A turn up to what it puts, which is left. Where something was left, that was the step.
    fn advance<Rt: Wait + Copy>(
        &mut self,
        rt: Rt,
        lane: &Lane<ToPublisher>,
        part: &PublisherPart,
        number: u32,
    ) -> Result<Pace, OutOfMemory>
        requires seat { IsPublisherOf part.now number self.old }
        requires lane { self.old.inlet.taker.lane ≡ lane.now.id }
        ensures seat { IsPublisherOf part.now number self.new }
        ensures port { self.new.port ≡ self.old.port }
        ensures taker { self.new.inlet.taker ≡ record self.old.inlet.taker { taken = self.new.inlet.taker.taken } }
        ensures grows { IsPrefix self.old.progress.journal self.new.progress.journal }
        ensures waiting { result ≡ Ok Pace.Waiting → (self.new ≡ self.old) × (self.old.progress.over ≡ true) × (self.old.left ≡ []) × IsCaughtUp self.old.inlet }
        ensures ended { (result ≡ Ok Pace.Ended) ↔ HasEnded self.old }
        ensures over { result ≡ Ok Pace.Ended → self.new ≡ self.old }
        ensures moved { result ≡ Ok Pace.Moved → MadeStep part.now self.old self.new }
    {
        if self.has_left() {
            return Ok(Pace::Moved);
        }
        if self.has_ended() {
            return Ok(Pace::Ended);
        }
        match self.inlet.fetch(rt, lane) {
            Some((port, event)) => self.serve(part, number, port, event),
            None => self.go_on(part, number),
        }
    }

    // Whether something is left to put.
    fn has_left(&mut self) -> bool
        ensures clear { (result ≡ false) ↔ (self.old.left ≡ []) }
        ensures same { self.new ≡ self.old }
    {
        match self.left.take_first() {
            Some(event) => {
                self.left.put_back(event);
                true
            }
            None => false,
        }
    }

    // Whether a seat with nothing left has ended.
    #[tactic(auto, using(crate::proofs::PublisherLemmas::tells_end))]
    fn has_ended(&self) -> bool
        requires left { self.now.left ≡ [] }
        requires taken { self.now.inlet.taker.taken ≡ from_port 0 (taken_by self.now.progress.journal) ++ self.now.inlet.kept }
        ensures { (result ≡ true) ↔ HasEnded self.now }
    {
        if !self.state.is_over() {
            return false;
        }
        if !self.inlet.is_clear() {
            return false;
        }
        self.inlet.ended(0)
    }

    // Takes an event that was fetched, or else keeps it.
    fn serve(
        &mut self,
        part: &PublisherPart,
        number: u32,
        port: u32,
        event: ToPublisher,
    ) -> Result<Pace, OutOfMemory>
        requires seat { IsPublisherOf part.now number (holding self.old port (publisher_note_of event)) }
        requires kept { self.old.inlet.kept ≡ [] }
        requires left { self.old.left ≡ [] }
        ensures seat { IsPublisherOf part.now number self.new }
        ensures port { self.new.port ≡ self.old.port }
        ensures taker { self.new.inlet.taker ≡ self.old.inlet.taker }
        ensures moved { IfOk result (λ pace. pace ≡ Pace.Moved) }
        ensures took { OnOk result (self.new.progress ≡ record self.old.progress { journal = self.old.progress.journal ++ PublisherEntry.Took (publisher_note_of event) ∷ [] }) }
        ensures served { OnOk result (self.new.inlet.kept ≡ []) }
        ensures back { OnErr result (self.new ≡ holding self.old port (publisher_note_of event)) }
    {
        match self.try_take(part, number, port, &event) {
            Ok(()) => Ok(Pace::Moved),
            Err(_) => {
                self.inlet.keep(port, event);
                Err(OutOfMemory)
            }
        }
    }

    // Takes an event that was fetched, if it came by the one port there is and in time.
    fn try_take(
        &mut self,
        part: &PublisherPart,
        number: u32,
        port: u32,
        event: &ToPublisher,
    ) -> Result<(), OutOfMemory>
        requires seat { IsPublisherOf part.now number (holding self.old port (publisher_note_of event.now)) }
        requires kept { self.old.inlet.kept ≡ [] }
        requires left { self.old.left ≡ [] }
        ensures seat { OnOk result (IsPublisherOf part.now number self.new) }
        ensures port { self.new.port ≡ self.old.port }
        ensures inlet { self.new.inlet ≡ self.old.inlet }
        ensures took { OnOk result (self.new.progress ≡ record self.old.progress { journal = self.old.progress.journal ++ PublisherEntry.Took (publisher_note_of event.now) ∷ [] }) }
        ensures err { OnErr result (self.new ≡ self.old) }
    {
        if port != 0 || !self.is_in_time(event) {
            return Err(OutOfMemory);
        }
        self.take(part, number, *event)
    }

    // Whether the event comes in time.
    fn is_in_time(&self, event: &ToPublisher) -> bool
        requires { self.now.progress.over ≡ list_any is_done self.now.progress.journal }
        ensures { result ≡ comes_in_time self.now.progress.journal (PublisherEntry.Took (publisher_note_of event.now)) }
    {
        match event {
            ToPublisher::Settle => self.state.is_over() && !self.settled,
            ToPublisher::Fin => true,
            ToPublisher::Want { sub: _, kind: _ } => !self.settled,
            ToPublisher::Ask { inbox: _, fids: _ } => !self.settled,
        }
    }

    // Takes an event that came in time.
    fn take(
        &mut self,
        part: &PublisherPart,
        _number: u32,
        event: ToPublisher,
    ) -> Result<(), OutOfMemory>
        requires seat { IsPublisherOf part.now _number (holding self.old 0 (publisher_note_of event)) }
        requires in_time { comes_in_time self.old.progress.journal (PublisherEntry.Took (publisher_note_of event)) ≡ true }
        requires kept { self.old.inlet.kept ≡ [] }
        requires left { self.old.left ≡ [] }
        ensures seat { OnOk result (IsPublisherOf part.now _number self.new) }
        ensures port { self.new.port ≡ self.old.port }
        ensures inlet { self.new.inlet ≡ self.old.inlet }
        ensures took { OnOk result (self.new.progress ≡ record self.old.progress { journal = self.old.progress.journal ++ PublisherEntry.Took (publisher_note_of event) ∷ [] }) }
        ensures err { OnErr result (self.new ≡ self.old) }
    {
        let settles = is_settle(&event);
        let mut out = self.left.lend(self.alloc);
        self.state.take(event, &mut out)?;
        self.settled = self.settled || settles;
        self.left = Waiting::all(out);
        Ok(())
    }

    // Does the next line, if one is left. No event is there to take.
    fn go_on(&mut self, part: &PublisherPart, number: u32) -> Result<Pace, OutOfMemory>
        requires seat { IsPublisherOf part.now number self.old }
        requires left { self.old.left ≡ [] }
        ensures seat { IsPublisherOf part.now number self.new }
        ensures port { self.new.port ≡ self.old.port }
        ensures inlet { self.new.inlet ≡ self.old.inlet }
        ensures grows { IsPrefix self.old.progress.journal self.new.progress.journal }
        ensures waiting { result ≡ Ok Pace.Waiting → (self.new ≡ self.old) × (self.old.progress.over ≡ true) }
        ensures ended { result ≡ Ok Pace.Ended → ⊥ }
        ensures did { result ≡ Ok Pace.Moved → DidLine part.now self.old self.new }
    {
        if self.state.is_over() {
            return Ok(Pace::Waiting);
        }
        self.do_line(part, number)?;
        Ok(Pace::Moved)
    }

    // Does the next line, or a step of a pause.
    fn do_line(&mut self, part: &PublisherPart, _number: u32) -> Result<(), OutOfMemory>
        requires seat { IsPublisherOf part.now _number self.old }
        requires left { self.old.left ≡ [] }
        requires going { self.old.progress.over ≡ false }
        ensures seat { IsPublisherOf part.now _number self.new }
        ensures port { self.new.port ≡ self.old.port }
        ensures inlet { self.new.inlet ≡ self.old.inlet }
        ensures grows { IsPrefix self.old.progress.journal self.new.progress.journal }
        ensures did { OnOk result (DidLine part.now self.old self.new) }
    {
        let mut out = self.left.lend(self.alloc);
        self.state.step(part, &mut out)?;
        self.left = Waiting::all(out);
        Ok(())
    }
}

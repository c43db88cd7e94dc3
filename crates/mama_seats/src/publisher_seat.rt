ghost use Rattle.std.specs.Prelude.{◌≡◌, ◌+◌, ◌-◌, ◌^◌, ◌<◌, ◌≤◌, length, [], ◌∷◌, ◌++◌, map, false, ◌||◌, nat_le, None, Some, if◌then◌else◌, IfOk, IfErr, OnOk, OnErr};
ghost use Rattle.mama_event.specs.ToBridge.{note_of};
ghost use Rattle.mama_event.specs.ToPublisher.{note_of as publisher_note_of};
ghost use Rattle.mama_plans.specs.Put.{own_tag};
ghost use Rattle.mama_rules_rounds.specs.World.{is_empty};
ghost use Rattle.mama_seats.specs.Sender.{script_of, taken, taken_puts, IsSenderStep};

use crate::publisher_state::PublisherState;
use mama_event::{ObjectId, PublisherEntry, ToBridge, ToPublisher};
use mama_memory::{OutOfMemory, Outbox};
use mama_script::PublisherPart;
use std::alloc::Global;
use std::collections::VecDeque;
use std::marker::Model;

/// A publisher beside its section of the script, with what waits on its lane.
#[derive(Drop)]
pub struct PublisherSeat<'a> {
    alloc: Global,
    part: &'a PublisherPart,
    state: PublisherState,
    lane: VecDeque<ToPublisher>,
}

impl<'a> Model for PublisherSeat<'a> {
    ghost use Rattle.std.specs.Prelude.{map};
    ghost use Rattle.mama_event.specs.ToPublisher.{note_of};
    ghost use Rattle.mama_seats.specs.Sender.{Sender, sender_of, IsSeatedAt};

    ghost Value = { Sender };

    ghost view = { λ s. record (sender_of s.part.now s.state) { lane = map note_of s.lane.items } };

    ghost invariant = { λ s. IsSeatedAt s.part.now s.state };
}

impl<'a> PublisherSeat<'a> {
    /// The publisher of this number and section, which has done nothing yet, as [`PublisherState::new`] makes it.
    pub fn new(
        alloc: Global,
        number: u32,
        part: &'a PublisherPart,
    ) -> Result<PublisherSeat<'a>, OutOfMemory>
        requires number { number + 1 < 2 ^ 32 }
        requires base { length part.now.base ≤ 64 }
        ensures { IfOk result (λ seat. seat ≡ record { script = script_of number part.now.base part.now.lines; journal = []; lane = []; over = false; pause = 0; lines = part.now.lines }) }
    {
        Ok(PublisherSeat {
            alloc,
            part,
            state: PublisherState::new(alloc, number, part)?,
            lane: VecDeque::new(alloc),
        })
    }

    /// Whether nothing waits on its lane.
    pub fn is_quiet(&self) -> bool
        ensures { result ≡ is_empty self.now.lane }
    {
        self.lane.is_empty()
    }

    /// Whether it has made all its steps.
    pub fn is_over(&self) -> bool
        ensures { result ≡ self.now.over }
    {
        self.state.is_over()
    }

    /// How many steps it still pauses; none where it is over.
    pub fn pause(&self) -> Option<u32>
        ensures { result ≡ if self.now.over then None else Some self.now.pause }
    {
        self.state.pause()
    }

    /// Whether a pause covers as many steps, or it has none left to make.
    pub fn is_idle(&self, steps: u32) -> bool
        ensures { result ≡ (self.now.over || nat_le steps self.now.pause) }
    {
        self.state.is_idle(steps)
    }

    /// Passes over as many steps of a pause.
    pub fn rest(&mut self, steps: u32)
        ensures { self.new ≡ record self.old { pause = self.old.pause - steps } }
    {
        self.state.rest(steps);
    }

    /// The journal.
    pub fn into_journal(self) -> Vec<PublisherEntry>
        ensures { result.items ≡ self.entry.journal }
    {
        let PublisherSeat {
            alloc: _,
            part: _,
            state,
            lane: _,
        } = self;
        state.into_journal()
    }

    /// Puts an event at the end of the lane. Where no memory is found the event is given back, and all is as before.
    pub fn put(&mut self, event: ToPublisher) -> Result<(), ToPublisher>
        ensures lane { OnOk result (self.new ≡ record self.old { lane = self.old.lane ++ publisher_note_of event ∷ [] }) }
        ensures back { IfErr result (λ given. given ≡ event) }
        ensures err { OnErr result (self.new ≡ self.old) }
    {
        match self.lane.push_back(event) {
            Ok(()) => Ok(()),
            Err(failed) => Err(failed.value),
        }
    }

    /// Takes the first event of the lane, if there is one, and gives what it puts. Where no memory is found all is as
    /// before.
    pub fn turn(&mut self) -> Result<Outbox<ToBridge<ObjectId>>, OutOfMemory>
        ensures seat { OnOk result (self.new ≡ taken self.old self.old.lane) }
        ensures puts { IfOk result (λ out. map (note_of own_tag) out.items ≡ taken_puts self.old self.old.lane) }
        ensures err { OnErr result (self.new ≡ self.old) }
    {
        let mut out = Outbox::new(self.alloc);
        let Some(event) = self.lane.front().copied() else {
            return Ok(out);
        };
        self.state.take(event, &mut out)?;
        let _taken = self.lane.pop_front();
        Ok(out)
    }

    /// Makes the next step, and gives what it puts, as [`PublisherState::step`] does.
    pub fn step(&mut self) -> Result<Outbox<ToBridge<ObjectId>>, OutOfMemory>
        ensures step { IfOk result (λ out. IsSenderStep self.old self.new (map (note_of own_tag) out.items)) }
        ensures err { OnErr result (self.new ≡ self.old) }
    {
        let mut out = Outbox::new(self.alloc);
        self.state.step(self.part, &mut out)?;
        Ok(out)
    }
}

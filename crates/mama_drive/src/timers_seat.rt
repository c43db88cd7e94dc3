ghost use Rattle.std.specs.Prelude.{◌≡◌, [], ◌∷◌, ◌++◌, map, OnOk, OnErr, IfOk, IfErr};
ghost use Rattle.mama_event.specs.ToTimers.{note_of};
ghost use Rattle.mama_rules_services.specs.Timers.{timers_puts_at};
ghost use Rattle.mama_rules_rounds.specs.World.{is_empty};
ghost use Rattle.mama_timer.specs.Out.{out_note};
ghost use Rattle.mama_plans.specs.Put.{own_tag};
ghost use Rattle.mama_drive.specs.Seat.{took, took_puts};

use mama_event::{ObjectId, Shape, TimersNote, ToTimers};
use mama_memory::{OutOfMemory, Outbox};
use mama_timer::{TimerOut, Timers};
use std::alloc::Global;
use std::collections::VecDeque;
use std::marker::Model;

/// The timer service with its journal, and what waits on its lane.
#[derive(Drop)]
pub struct TimersSeat {
    alloc: Global,
    timers: Timers<ObjectId>,
    lane: VecDeque<(u32, ToTimers<ObjectId>)>,
}

impl Model for TimersSeat {
    ghost use Rattle.std.specs.Prelude.{map};
    ghost use Rattle.mama_event.specs.declared.to_timers.TimersNote.{TimersNote};
    ghost use Rattle.mama_drive.specs.Seat.{ServiceSeat};

    ghost Value = { ServiceSeat TimersNote };

    ghost use Rattle.mama_drive.specs.Entry.{timers_entry};

    ghost view = { λ s. record { shape = s.timers.shape; journal = s.timers.journal; lane = map timers_entry s.lane.items } };
}

impl TimersSeat {
    /// A timer service of this shape that has done nothing yet.
    pub(crate) fn new(alloc: Global, shape: &Shape) -> Result<TimersSeat, OutOfMemory>
        ensures { IfOk result (λ seat. seat ≡ record { shape = shape.now; journal = []; lane = [] }) }
    {
        Ok(TimersSeat {
            alloc,
            timers: Timers::new(alloc, shape)?,
            lane: VecDeque::new(alloc),
        })
    }

    /// Whether nothing waits on its lane.
    pub(crate) fn is_quiet(&self) -> bool
        ensures { result ≡ is_empty self.now.lane }
    {
        self.lane.is_empty()
    }

    /// Puts an event of a port at the end of the lane. Where no memory is found the event is given back, and all is as
    /// before.
    pub(crate) fn put(
        &mut self,
        port: u32,
        event: ToTimers<ObjectId>,
    ) -> Result<(), ToTimers<ObjectId>>
        ensures lane { OnOk result (self.new ≡ record self.old { lane = self.old.lane ++ (port, note_of own_tag event) ∷ [] }) }
        ensures shape { self.new.shape ≡ self.old.shape }
        ensures back { IfErr result (λ given. given ≡ event) }
        ensures err { OnErr result (self.new ≡ self.old) }
    {
        match self.lane.push_back((port, event)) {
            Ok(()) => Ok(()),
            Err(failed) => Err(failed.value.1),
        }
    }

    /// Takes the first event of the lane, if there is one, and gives what it puts. Where no memory is found all is as
    /// before.
    pub(crate) fn turn(&mut self) -> Result<Outbox<TimerOut<ObjectId>>, OutOfMemory>
        ensures seat { OnOk result (self.new ≡ took self.old self.old.lane) }
        ensures puts { IfOk result (λ out. map (out_note own_tag) out.items ≡ took_puts timers_puts_at self.old self.old.lane) }
        ensures shape { self.new.shape ≡ self.old.shape }
        ensures err { OnErr result (self.new ≡ self.old) }
    {
        let mut out = Outbox::new(self.alloc);
        let Some((port, event)) = self.lane.pop_front() else {
            return Ok(out);
        };
        match self.timers.take(port, event, &mut out) {
            Ok(_) => Ok(out),
            Err(event) => {
                // There is room for it since it was taken.
                self.lane.push_front_reserved((port, event));
                Err(OutOfMemory)
            }
        }
    }

    /// The journal.
    pub(crate) fn into_journal(self) -> Vec<(u32, TimersNote)>
        ensures { result.items ≡ self.journal }
    {
        let TimersSeat {
            alloc: _,
            timers,
            lane: _,
        } = self;
        timers.into_journal()
    }
}

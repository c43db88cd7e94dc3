ghost use Rattle.std.specs.Prelude.{◌≡◌, ◌-◌, false, ◌||◌, nat_le, [], None, Some, if◌then◌else◌, IfOk, OnOk, OnErr};
ghost use Rattle.mama_plans.specs.Put.{notes_of};
ghost use Rattle.mama_seats.specs.Stand.{IsStep, IsReading};

use crate::client_state::ClientState;
use mama_edge::Clock;
use mama_event::{ObjectId, ToService};
use mama_memory::{OutOfMemory, Outbox};
use mama_script::ClientLine;
use std::alloc::Global;
use std::marker::Model;

/// A client beside its lines.
#[derive(Drop)]
pub struct ClientSeat<'a> {
    alloc: Global,
    lines: &'a [ClientLine],
    state: ClientState,
}

impl<'a> Model for ClientSeat<'a> {
    ghost use Rattle.mama_seats.specs.Stand.{Stand, stand_of};

    ghost Value = { Stand };

    ghost view = { λ s. stand_of s.lines.now s.state };
}

impl<'a> ClientSeat<'a> {
    /// The client of this number and these lines, where there are so many queues. It has done nothing yet.
    pub fn new(alloc: Global, number: u32, queues: u32, lines: &'a [ClientLine]) -> ClientSeat<'a>
        ensures { result ≡ record { number = number; queues = queues; over = false; pause = 0; names = record { subs = 0; timers = 0; inboxes = 0; turns = 0 }; lines = lines.now; read = [] } }
    {
        ClientSeat {
            alloc,
            lines,
            state: ClientState::new(alloc, number, queues),
        }
    }

    /// Whether it has made all its steps.
    pub fn is_over(&self) -> bool
        ensures { result ≡ self.now.over }
    {
        self.state.is_over()
    }

    /// How many steps it still pauses; none where it is over.
    pub fn pause(&self) -> Option<u32>
        ensures { result ≡ if self.now.over then None else Some self.now.pause }
    {
        self.state.pause()
    }

    /// Whether a pause covers as many steps, or it has none left to make.
    pub fn is_idle(&self, steps: u32) -> bool
        ensures { result ≡ (self.now.over || nat_le steps self.now.pause) }
    {
        self.state.is_idle(steps)
    }

    /// Passes over as many steps of a pause.
    pub fn rest(&mut self, steps: u32)
        ensures { self.new ≡ record self.old { pause = self.old.pause - steps } }
    {
        self.state.rest(steps);
    }

    /// The moments that it has read, in order.
    pub fn into_moments(self) -> Vec<u64>
        ensures { result.items ≡ self.entry.read }
    {
        let ClientSeat {
            alloc: _,
            lines: _,
            state,
        } = self;
        state.into_moments()
    }

    /// Makes the next step, and gives what it puts, as [`ClientState::step`] does.
    pub fn step<C: Clock>(
        &mut self,
        clock: &mut C,
    ) -> Result<Outbox<ToService<ObjectId>>, OutOfMemory>
        ensures step { IfOk result (λ out. IsStep self.old self.new (notes_of out.items)) }
        ensures clock { OnOk result (IsReading (C.left clock.old) (C.left clock.new) self.old self.new) }
        ensures err { OnErr result (self.new ≡ self.old) }
        ensures clock_err { OnErr result (C.left clock.new ≡ C.left clock.old) }
    {
        let mut out = Outbox::new(self.alloc);
        self.state.step(self.lines, clock, &mut out)?;
        Ok(out)
    }
}

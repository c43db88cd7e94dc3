ghost use Rattle.std.specs.Prelude.{◌≡◌, ◌+◌, ◌-◌, ◌≤◌, List, ℕ, false, ◌||◌, nat_le, [], ◌∷◌, ◌++◌, None, Some, if◌then◌else◌, IfOk, OnOk, OnErr};
ghost use Rattle.mama_rules_queue.specs.Queue.{QueuePut};
ghost use Rattle.mama_rules_rounds.specs.Client.{reads_clock};
ghost use Rattle.mama_plans.specs.Put.{notes_of};
ghost use Rattle.mama_seats.specs.Stand.{stand_of, reads_next, IsStep, IsReading};
ghost use Rattle.mama_seats.specs.Said.{notes_in};

use crate::line::next_at;
use mama_edge::Clock;
use mama_event::{ObjectId, ToBridge, ToService, ToTimers};
use mama_memory::{OutOfMemory, Outbox};
use mama_plans::{Doing, Names};
use mama_script::ClientLine;
use std::alloc::Global;
use std::marker::Model;

/// Where a client stands in its lines: which is next, what it has named so far, and the moments that it has read. The
/// lines are handed in: always the same, those of the client in its script.
#[derive(Drop)]
pub struct ClientState {
    number: u32,
    queues: u32,
    over: bool,
    pause: u32,
    names: Names,
    line: usize,
    moments: Vec<u64>,
}

impl Model for ClientState {
    ghost use Rattle.mama_seats.specs.Stand.{Walk};

    ghost Value = { Walk };

    ghost view = { λ s. record { number = s.number; queues = s.queues; over = s.over; pause = s.pause; names = s.names; line = s.line; read = s.moments.items } };
}

/// What a client puts in a step.
#[derive(Drop)]
enum Said {
    Nothing,
    Put(ToService<ObjectId>),
    /// It tells the timer service, and then the bridge, that it is done.
    Done,
}

impl ClientState {
    /// The client of this number, where there are so many queues. It has done nothing yet.
    pub fn new(alloc: Global, number: u32, queues: u32) -> ClientState
        ensures { result ≡ record { number = number; queues = queues; over = false; pause = 0; names = record { subs = 0; timers = 0; inboxes = 0; turns = 0 }; line = 0; read = [] } }
    {
        ClientState {
            number,
            queues,
            over: false,
            pause: 0,
            names: Names::none(),
            line: 0,
            moments: Vec::new(alloc),
        }
    }

    /// Whether it has made all its steps.
    pub fn is_over(&self) -> bool
        ensures { result ≡ self.now.over }
    {
        self.over
    }

    /// How many steps it still pauses; none where it is over.
    pub fn pause(&self) -> Option<u32>
        ensures { result ≡ if self.now.over then None else Some self.now.pause }
    {
        if self.over { None } else { Some(self.pause) }
    }

    /// Whether a pause covers as many steps, or it has none left to make.
    pub fn is_idle(&self, steps: u32) -> bool
        ensures { result ≡ (self.now.over || nat_le steps self.now.pause) }
    {
        self.over || steps <= self.pause
    }

    /// Passes over as many steps of a pause.
    pub fn rest(&mut self, steps: u32)
        ensures { self.new ≡ record self.old { pause = self.old.pause - steps } }
    {
        self.pause = self.pause.saturating_sub(steps);
    }

    /// The moments that it has read, in order.
    pub fn into_moments(self) -> Vec<u64>
        ensures { result.items ≡ self.read }
    {
        self.moments
    }

    /// Whether its next step reads the clock.
    pub fn reads_clock(&self, lines: &[ClientLine]) -> bool
        ensures { result ≡ reads_next (stand_of lines.now self.now) }
    {
        if self.over {
            return false;
        }
        if self.pause > 0 {
            return false;
        }
        let line = next_at(lines, self.line);
        if line >= lines.len() {
            return false;
        }
        is_reading(&lines[line])
    }

    /// Makes the next step, and puts what it puts at the end of the outbox: nothing during a pause and after the last
    /// step. A line that reads the clock calls it once, and no other step calls it. The error is want of memory, and comes
    /// also where [`Names::line`] finds no number left; then all is as before, and the clock was not called.
    pub fn step<C: Clock>(
        &mut self,
        lines: &[ClientLine],
        clock: &mut C,
        out: &mut Outbox<ToService<ObjectId>>,
    ) -> Result<(), OutOfMemory>
        ensures step { OnOk result ((puts : List QueuePut) × (notes_of out.new.items ≡ notes_of out.old.items ++ puts) × IsStep (stand_of lines.now self.old) (stand_of lines.now self.new) puts) }
        ensures clock { OnOk result (IsReading (C.left clock.old) (C.left clock.new) (stand_of lines.now self.old) (stand_of lines.now self.new)) }
        ensures err { OnErr result (self.new ≡ self.old) }
        ensures clock_err { OnErr result (C.left clock.new ≡ C.left clock.old) }
        ensures out_err { OnErr result (out.new.items ≡ out.old.items) }
    {
        if self.over {
            return Ok(());
        }
        if self.pause > 0 {
            self.pause -= 1;
            return Ok(());
        }
        // The room comes first: a moment that was read is put and kept.
        out.reserve(2)?;
        let said = self.go_on(lines, clock)?;
        lay(said, out);
        Ok(())
    }

    /// Does the next line, or says the last words.
    fn go_on<C: Clock>(&mut self, lines: &[ClientLine], clock: &mut C) -> Result<Said, OutOfMemory>
        requires going { self.old.over ≡ false }
        requires awake { self.old.pause ≡ 0 }
        ensures step { IfOk result (λ said. IsStep (stand_of lines.now self.old) (stand_of lines.now self.new) (notes_in said)) }
        ensures clock { OnOk result (IsReading (C.left clock.old) (C.left clock.new) (stand_of lines.now self.old) (stand_of lines.now self.new)) }
        ensures err { OnErr result (self.new ≡ self.old) }
        ensures clock_err { OnErr result (C.left clock.new ≡ C.left clock.old) }
    {
        let line = next_at(lines, self.line);
        if line >= lines.len() {
            self.line = line;
            self.over = true;
            return Ok(Said::Done);
        }
        match self.names.line(self.number, self.queues, &lines[line])? {
            Doing::Puts(put, names) => {
                self.names = names;
                self.line = line + 1;
                Ok(Said::Put(put))
            }
            Doing::Pauses(steps) => {
                self.pause = steps - 1;
                self.line = line + 1;
                Ok(Said::Nothing)
            }
            Doing::ReadsClock => {
                self.moments.reserve(1)?;
                let moment = clock.now();
                self.moments.push_reserved(moment);
                self.line = line + 1;
                Ok(Said::Put(ToService::Timers(ToTimers::Now { moment })))
            }
        }
    }
}

/// Whether a line reads the clock.
fn is_reading(line: &ClientLine) -> bool
    ensures { result ≡ reads_clock line.now }
{
    match line {
        ClientLine::NowClock => true,
        _ => false,
    }
}

/// Puts what was said at the end of an outbox with room for it.
fn lay(said: Said, out: &mut Outbox<ToService<ObjectId>>)
    requires { 2 ≤ out.old.spare }
    ensures { notes_of out.new.items ≡ notes_of out.old.items ++ notes_in said }
{
    match said {
        Said::Nothing => {}
        Said::Put(put) => out.push_reserved(put),
        Said::Done => {
            out.push_reserved(ToService::Timers(ToTimers::ClientDone));
            out.push_reserved(ToService::Bridge(ToBridge::ClientDone));
        }
    }
}

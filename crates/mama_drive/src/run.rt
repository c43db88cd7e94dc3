ghost use Rattle.std.specs.Prelude.{◌≡◌, ◌+◌, ◌^◌, ◌<◌, ◌≤◌, length, true, IfSome, IfOk, OnOk, OnErr};
ghost use Rattle.mama_event.specs.Ports.{clients_of, publishers_of, queues_of};
ghost use Rattle.mama_rules_rounds.specs.World as world;
ghost use Rattle.mama_rules_rounds.specs.Stage as stage;
ghost use Rattle.mama_drive.specs.Heard.{Hears, StepRead};
ghost use Rattle.mama_drive.specs.Marks.{IsNextOf};
ghost use Rattle.mama_drive.specs.Scene.{setting_in, world_in, Moves, Advances, Stepped, ArePassed};

use crate::held::{Held, settle};
use crate::laws::lawful_runs_serve;
use crate::system::System;
use mama_edge::Clock;
use mama_memory::OutOfMemory;
use std::marker::Model;

/// A system in the middle of a run: what the last actor put is held until there is room for it on its lanes. To a reader
/// of the run it lies there already. A method that makes one turn of one actor leaves the run as it was where no memory
/// is found, so that the turn can be made again.
#[derive(Drop)]
pub struct Run<'a> {
    pub(crate) system: System<'a>,
    pub(crate) held: Held,
}

impl<'a> Model for Run<'a> {
    ghost use Rattle.mama_drive.specs.Scene.{Scene};
    ghost use Rattle.mama_drive.specs.Held.{seen};
    ghost use Rattle.mama_drive.specs.Lawful.{IsLawfulRun};

    ghost Value = { Scene };

    ghost view = { λ r. seen r.held r.system };

    ghost invariant = { λ r. IsLawfulRun (seen r.held r.system) };
}

impl<'a> Run<'a> {
    /// The bridge takes the first event of its lane, if there is one.
    pub(crate) fn bridge_turn(&mut self) -> Result<(), OutOfMemory>
        ensures turn { OnOk result (Moves self.old self.new (world.bridge_turn (setting_in self.old) (world_in self.old))) }
        ensures err { OnErr result (self.new ≡ self.old) }
    {
        settle(&mut self.system, &mut self.held)?;
        let held = self.system.bridge_turn()?;
        self.held = held;
        Ok(())
    }

    /// The timer service takes the first event of its lane, if there is one.
    pub(crate) fn timers_turn(&mut self) -> Result<(), OutOfMemory>
        ensures turn { OnOk result (Moves self.old self.new (world.timers_turn (setting_in self.old) (world_in self.old))) }
        ensures err { OnErr result (self.new ≡ self.old) }
    {
        settle(&mut self.system, &mut self.held)?;
        let held = self.system.timers_turn()?;
        self.held = held;
        Ok(())
    }

    /// A publisher takes the first event of its lane, if there is one.
    pub(crate) fn publisher_turn(&mut self, number: u32) -> Result<(), OutOfMemory>
        requires { number < length self.old.senders }
        ensures turn { OnOk result (Moves self.old self.new (world.publisher_turn (setting_in self.old) number (world_in self.old))) }
        ensures err { OnErr result (self.new ≡ self.old) }
    {
        settle(&mut self.system, &mut self.held)?;
        let held = self.system.publisher_turn(number)?;
        self.held = held;
        Ok(())
    }

    /// A queue takes the first event of its lane, if there is one, and makes its callbacks.
    pub(crate) fn queue_turn(&mut self, number: u32) -> Result<(), OutOfMemory>
        requires { number < length self.old.servers }
        ensures turn { OnOk result (Moves self.old self.new (world.queue_turn (setting_in self.old) number (world_in self.old))) }
        ensures err { OnErr result (self.new ≡ self.old) }
    {
        settle(&mut self.system, &mut self.held)?;
        lawful_runs_serve();
        let held = self.system.queue_turn(number)?;
        self.held = held;
        Ok(())
    }

    /// A client makes its next step, if it has one. Where no memory is found the clock was not read either.
    pub(crate) fn client_turn<C: Clock>(
        &mut self,
        number: u32,
        clock: &mut C,
    ) -> Result<(), OutOfMemory>
        requires { number < length self.old.clients }
        ensures step { OnOk result (Advances (Stepped stage.client_step number) self.old self.new) }
        ensures clock { OnOk result (Hears (StepRead number) (C.left clock.old) (C.left clock.new) self.old.clients self.new.clients) }
        ensures err { OnErr result (self.new ≡ self.old) }
        ensures clock_err { OnErr result (C.left clock.new ≡ C.left clock.old) }
    {
        settle(&mut self.system, &mut self.held)?;
        let held = self.system.client_turn(number, clock)?;
        self.held = held;
        Ok(())
    }

    /// A publisher makes its next step, if it has one.
    pub(crate) fn sender_turn(&mut self, number: u32) -> Result<(), OutOfMemory>
        requires { number < length self.old.senders }
        ensures step { OnOk result (Advances (Stepped stage.publisher_step number) self.old self.new) }
        ensures clients { OnOk result (self.new.clients ≡ self.old.clients) }
        ensures err { OnErr result (self.new ≡ self.old) }
    {
        settle(&mut self.system, &mut self.held)?;
        let held = self.system.sender_turn(number)?;
        self.held = held;
        Ok(())
    }

    /// The first publisher from this number on that has not made all its steps, or their count, where nothing waits and
    /// nothing is held; otherwise this number. So those that are over cost a look each, and no turn.
    pub(crate) fn next_sender(&self, from: u32) -> u32
        ensures { from ≤ publishers_of self.now.shape → ArePassed from result self.now }
    {
        if !self.held.is_empty() {
            return from;
        }
        self.system.next_sender(from)
    }

    /// The next publisher from this number on for whom an event may wait, once what is held lies on its lanes. Nothing that
    /// a reader of the run sees changes.
    pub(crate) fn next_publisher(&mut self, from: u32) -> Result<Option<u32>, OutOfMemory>
        ensures next { IfOk result (λ next. IsNextOf (world_in self.new).to_publishers from next) }
        ensures within { IfOk result (λ next. IfSome next (λ n. (n < publishers_of self.new.shape) × (n + 1 < 2 ^ 32))) }
        ensures same { self.new ≡ self.old }
    {
        settle(&mut self.system, &mut self.held)?;
        Ok(self.system.next_publisher(from))
    }

    /// The next queue from this number on for which an event may wait, in the same way.
    pub(crate) fn next_queue(&mut self, from: u32) -> Result<Option<u32>, OutOfMemory>
        ensures next { IfOk result (λ next. IsNextOf (world_in self.new).to_queues from next) }
        ensures within { IfOk result (λ next. IfSome next (λ n. (n < queues_of self.new.shape) × (n + 1 < 2 ^ 32))) }
        ensures same { self.new ≡ self.old }
    {
        settle(&mut self.system, &mut self.held)?;
        Ok(self.system.next_queue(from))
    }

    /// Whether nothing waits on any lane, and nothing is held.
    pub(crate) fn is_quiet(&self) -> bool
        ensures { result ≡ true → world.IsQuiet (world_in self.now) }
    {
        self.held.is_empty() && self.system.is_quiet()
    }

    /// How many clients there are.
    pub(crate) fn client_count(&self) -> u32
        ensures number { result ≡ length self.now.clients }
        ensures shape { result ≡ clients_of self.now.shape }
    {
        self.system.client_count()
    }

    /// How many publishers there are.
    pub(crate) fn publisher_count(&self) -> u32
        ensures number { result ≡ length self.now.senders }
        ensures shape { result ≡ publishers_of self.now.shape }
    {
        self.system.publisher_count()
    }
}

ghost use Rattle.std.specs.Prelude.{◌≡◌, ◌^◌, ◌<◌, length, true, IfOk, OnOk, OnErr};
ghost use Rattle.mama_event.specs.Ports.{bridge_port_of_queue};
ghost use Rattle.mama_rules_rounds.specs.World as world;
ghost use Rattle.mama_rules_rounds.specs.Stage as stage;
ghost use Rattle.mama_drive.specs.Heard.{Hears, StepRead};
ghost use Rattle.mama_drive.specs.Held.{lay_told, seen};
ghost use Rattle.mama_drive.specs.Lawful.{comes_first};
ghost use Rattle.mama_drive.specs.Scene.{setting_in, world_in, AreTold, Moves, Advances, Stepped};

use crate::held::Held;
use crate::marks::unmark;
use crate::system::{System, publishers_in};
use mama_edge::Clock;
use mama_event::Shape;
use mama_memory::OutOfMemory;
use mama_seats::{ServedTurn, Waiting};

impl<'a> System<'a> {
    /// The bridge takes the first event of its lane, if there is one, and gives what it puts. Where no memory is found
    /// the event stays the first of the lane.
    pub(crate) fn bridge_turn(&mut self) -> Result<Held, OutOfMemory>
        ensures turn { IfOk result (λ held. Moves self.old (seen held self.new) (world.bridge_turn (setting_in self.old) (world_in self.old))) }
        ensures err { OnErr result (self.new ≡ self.old) }
    {
        let out = self.bridge.turn()?;
        Ok(Held::Routed(Waiting::all(out)))
    }

    /// The timer service takes the first event of its lane, in the same way.
    pub(crate) fn timers_turn(&mut self) -> Result<Held, OutOfMemory>
        ensures turn { IfOk result (λ held. Moves self.old (seen held self.new) (world.timers_turn (setting_in self.old) (world_in self.old))) }
        ensures err { OnErr result (self.new ≡ self.old) }
    {
        let out = self.timers.turn()?;
        Ok(Held::Ticked(Waiting::all(out)))
    }

    /// A publisher takes the first event of its lane, in the same way.
    pub(crate) fn publisher_turn(&mut self, number: u32) -> Result<Held, OutOfMemory>
        requires { number < length self.old.senders }
        ensures turn { IfOk result (λ held. Moves self.old (seen held self.new) (world.publisher_turn (setting_in self.old) number (world_in self.old))) }
        ensures err { OnErr result (self.new ≡ self.old) }
    {
        let port = self.shape.clients + number;
        let seat = &mut self.publishers[number as usize];
        let out = seat.turn()?;
        let is_empty = seat.is_quiet();
        unmark(&mut self.marked_publishers, number, is_empty);
        Ok(Held::Sent {
            port,
            events: Waiting::all(out),
        })
    }

    /// A queue takes the first event of its lane, in the same way, and makes its callbacks.
    pub(crate) fn queue_turn(&mut self, number: u32) -> Result<Held, OutOfMemory>
        requires number { number < length self.old.servers }
        requires comes { comes_first number (world_in self.old) ≡ true }
        requires heard { AreTold self.old }
        ensures turn { IfOk result (λ held. Moves self.old (seen held self.new) (world.queue_turn (setting_in self.old) number (world_in self.old))) }
        ensures err { OnErr result (self.new ≡ self.old) }
    {
        let timers_port = self.shape.clients + number;
        let bridge_port = port_of_queue(self.shape, number);
        let seat = &mut self.queues[number as usize];
        let served = seat.turn()?;
        let is_empty = seat.is_quiet();
        unmark(&mut self.marked_queues, number, is_empty);
        self.ready = false;
        let ServedTurn { outs, wish } = served;
        Ok(Held::Served {
            queue: number,
            bridge_port,
            timers_port,
            outs: Waiting::all(outs),
            wish,
            untold: true,
        })
    }

    /// The groups of the queue of this number, if there is one, are told its last turn. Where no memory is found they are told
    /// nothing.
    pub(crate) fn tell(&mut self, queue: u32) -> Result<(), OutOfMemory>
        ensures ok { OnOk result (self.new ≡ lay_told queue self.old) }
        ensures err { OnErr result (self.new ≡ self.old) }
    {
        if (queue as usize) >= self.queues.len() {
            return Ok(());
        }
        let seat = &mut self.queues[queue as usize];
        seat.tell()
    }

    /// A client makes its next step, if it has one, and gives what it puts. Where no memory is found it has made no
    /// step, and the clock was not read.
    pub(crate) fn client_turn<C: Clock>(
        &mut self,
        number: u32,
        clock: &mut C,
    ) -> Result<Held, OutOfMemory>
        requires { number < length self.old.clients }
        ensures step { IfOk result (λ held. Advances (Stepped stage.client_step number) self.old (seen held self.new)) }
        ensures clock { IfOk result (λ held. Hears (StepRead number) (C.left clock.old) (C.left clock.new) self.old.clients (seen held self.new).clients) }
        ensures err { OnErr result (self.new ≡ self.old) }
        ensures clock_err { OnErr result (C.left clock.new ≡ C.left clock.old) }
    {
        let seat = &mut self.clients[number as usize];
        let outs = seat.step(clock)?;
        Ok(Held::Given {
            bridge_port: number,
            timers_port: number,
            outs: Waiting::all(outs),
        })
    }

    /// A publisher makes its next step, if it has one, and gives what it puts.
    pub(crate) fn sender_turn(&mut self, number: u32) -> Result<Held, OutOfMemory>
        requires { number < length self.old.senders }
        ensures step { IfOk result (λ held. Advances (Stepped stage.publisher_step number) self.old (seen held self.new)) }
        ensures clients { IfOk result (λ held. (seen held self.new).clients ≡ self.old.clients) }
        ensures err { OnErr result (self.new ≡ self.old) }
    {
        let port = self.shape.clients + number;
        let seat = &mut self.publishers[number as usize];
        let out = seat.step()?;
        Ok(Held::Sent {
            port,
            events: Waiting::all(out),
        })
    }
}

/// The bridge's port of a queue.
fn port_of_queue(shape: &Shape, number: u32) -> u32
    requires { bridge_port_of_queue shape.now number < 2 ^ 32 }
    ensures { result ≡ bridge_port_of_queue shape.now number }
{
    shape.clients + publishers_in(shape) + number
}

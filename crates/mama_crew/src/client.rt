ghost use Rattle.std.specs.Prelude.{◌≡◌, ◌↔◌, ◌<◌, true, [], Ok, IsOk, IfOk};
ghost use mathlib.Core.List.{IsPrefix};
ghost use Rattle.mama_event.specs.Ports.{clients_of, bridge_port_of_client, timers_port_of_client};
ghost use Rattle.mama_lane.specs.Values.{new_port, note_of_port};
ghost use Rattle.mama_posts_clients.specs.Client.{HasEnded, MadeStep};
ghost use Rattle.mama_crew.specs.Client.{reads_now};
ghost use Rattle.mama_crew.specs.Hall.{AreLanesOf};
ghost use Rattle.mama_crew.specs.Seat.{IsClientIn, HasNotWalked};

use crate::hall::Hall;
use mama_carry::{Carried, Listener, ToBridge, ToTimers};
use mama_ends::{Pace, Port, PutNote};
use mama_memory::OutOfMemory;
use mama_posts_clients::{ClientListeners, ClientPost};
use mama_script::Script;
use std::alloc::Global;
use std::marker::Model;
use std::sync::Wait;

/// A client's seat in a crew.
#[derive(Drop)]
pub struct ClientSeat<L: Listener> {
    post: ClientPost<L>,
    // Whether its next step reads the clock.
    reads: bool,
}

impl<L: Listener> Model for ClientSeat<L> {
    ghost use Rattle.mama_crew.specs.Client.{ClientSeatValue};

    ghost Value = { ClientSeatValue };

    ghost view = { λ s. record { post = s.post; reads = s.reads } };
}

// Whether the next step of a client's post reads the clock.
fn is_reading<L: Listener>(post: &ClientPost<L>, script: &Script, number: u32) -> bool
    ensures { result ≡ reads_now script.now number post.now }
{
    post.reads_clock(script, number)
}

impl<L: Listener> ClientSeat<L> {
    // The seat of the client of this number, with its listeners and its ports, by which nothing was put. It takes no memory.
    pub(crate) fn new(
        alloc: Global,
        script: &Script,
        _hall: &Hall<L>,
        number: u32,
        listeners: ClientListeners<L>,
        to_bridge: Port<ToBridge<Carried<L>>>,
        to_timers: Port<ToTimers<Carried<L>>>,
    ) -> ClientSeat<L>
        requires lanes { AreLanesOf script.now.shape _hall.now }
        requires there { number < clients_of script.now.shape }
        requires bridge { to_bridge ≡ new_port _hall.now.to_bridge (bridge_port_of_client script.now.shape number) }
        requires timers { to_timers ≡ new_port _hall.now.to_timers (timers_port_of_client script.now.shape number) }
        ensures seat { IsClientIn script.now _hall.now number result }
        ensures new { HasNotWalked result.post }
    {
        let post = ClientPost::new(alloc, number, script, listeners, to_bridge, to_timers);
        let reads = is_reading(&post, script, number);
        ClientSeat { post, reads }
    }

    // Whether it has ended.
    pub(crate) fn ended(&self) -> bool
        ensures { (result ≡ true) ↔ HasEnded self.now.post }
    {
        self.post.ended()
    }

    // Whether its next step reads the clock.
    pub(crate) fn reads_clock(&self) -> bool
        ensures { result ≡ self.now.reads }
    {
        self.reads
    }

    // A note of what it has put to the bridge so far. It takes no memory, and always succeeds.
    pub(crate) fn tell_bridge<Rt: Copy>(
        &mut self,
        rt: Rt,
        hall: &Hall<L>,
    ) -> Result<PutNote<ToBridge<Carried<L>>>, OutOfMemory>
        requires { self.old.post.ports.to_bridge.lane ≡ hall.now.to_bridge.id }
        ensures ok { IsOk result }
        ensures note { IfOk result (λ note. note ≡ note_of_port self.old.post.ports.to_bridge) }
        ensures same { self.new ≡ self.old }
    {
        self.post.tell_bridge(rt, hall.to_bridge())
    }

    // The same of the timer service.
    pub(crate) fn tell_timers<Rt: Copy>(
        &mut self,
        rt: Rt,
        hall: &Hall<L>,
    ) -> Result<PutNote<ToTimers<Carried<L>>>, OutOfMemory>
        requires { self.old.post.ports.to_timers.lane ≡ hall.now.to_timers.id }
        ensures ok { IsOk result }
        ensures note { IfOk result (λ note. note ≡ note_of_port self.old.post.ports.to_timers) }
        ensures same { self.new ≡ self.old }
    {
        self.post.tell_timers(rt, hall.to_timers())
    }

    // A turn of the seat of the client of this number.
    pub(crate) fn turn<Rt: Wait + Copy>(
        &mut self,
        rt: Rt,
        script: &Script,
        hall: &Hall<L>,
        number: u32,
        moment: u64,
    ) -> Result<Pace, OutOfMemory>
        requires { IsClientIn script.now hall.now number self.old }
        ensures seat { IsClientIn script.now hall.now number self.new }
        ensures grows { IsPrefix self.old.post.walk.read self.new.post.walk.read }
        ensures waiting { result ≡ Ok Pace.Waiting → (self.new ≡ self.old) × ⊥ }
        ensures ended { (result ≡ Ok Pace.Ended) ↔ HasEnded self.old.post }
        ensures over { result ≡ Ok Pace.Ended → self.new ≡ self.old }
        ensures moved { result ≡ Ok Pace.Moved → MadeStep script.now number moment self.old.post self.new.post × (self.new.post.left ≡ []) }
    {
        let bridge = hall.to_bridge();
        let timers = hall.to_timers();
        let pace = self.post.turn(rt, bridge, timers, script, number, moment);
        let reads = is_reading(&self.post, script, number);
        self.reads = reads;
        pace
    }

    /// The client with its ports. It takes no memory.
    pub fn into_post(self) -> ClientPost<L>
        ensures { result ≡ self.post }
    {
        let ClientSeat { post, reads: _ } = self;
        post
    }
}

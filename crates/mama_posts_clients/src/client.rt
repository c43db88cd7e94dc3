ghost use Rattle.std.specs.Prelude.{◌≡◌, ◌↔◌, ℕ, ◌∷◌, [], true, false, if◌then◌else◌, Some, IsOk, IfOk, OnOk, OnErr, Ok};
ghost use mathlib.Core.List.{IsPrefix};
ghost use Rattle.mama_event.specs.Ports.{queues_of};
ghost use Rattle.mama_lane.specs.Values.{note_of_port};
ghost use Rattle.mama_script.specs.Script.{ScriptData};
ghost use Rattle.mama_seats.specs.Stand.{reads_next};
ghost use Rattle.mama_seats.specs.Waiting.{waits};
ghost use Rattle.mama_posts_clients.specs.Outlets.{with_put, after_puts, MayPut};
ghost use Rattle.mama_posts_clients.specs.Client.{walk_at_first, lines_of, stand_at, IsClientOf, HasEnded, HasDoneAll, DidLine, MadeStep};

use crate::dressing::{ClientListeners, Dressing};
use crate::outlets::Outlets;
use mama_carry::{Carried, Listener, ToBridge, ToTimers};
use mama_edge::Clock;
use mama_ends::{Lane, Pace, Port, PutNote};
use mama_laws_allowed::client_puts_are_lawful;
use mama_memory::OutOfMemory;
use mama_script::{ClientLine, Script};
use mama_seats::ClientState;
use std::alloc::Global;
use std::marker::Model;
use std::sync::Wait;

/// A client's seat: where the client stands in its lines, its ports, its listeners that have not gone yet, and what it has
/// left to put.
#[derive(Drop)]
pub struct ClientPost<L: Listener> {
    alloc: Global,
    state: ClientState,
    ports: Outlets<L>,
    left: Dressing<L>,
    // Whether nothing is left.
    clear: bool,
}

impl<L: Listener> Model for ClientPost<L> {
    ghost use Rattle.std.specs.Prelude.{◌≡◌, ◌↔◌, true, []};
    ghost use Rattle.mama_seats.specs.Waiting.{waits};
    ghost use Rattle.mama_posts_clients.specs.Client.{ClientPostValue};

    ghost Value = { ClientPostValue };

    ghost view = { λ p. record { walk = p.state; ports = p.ports; left = waits p.left } };

    ghost invariant = { λ p. (p.clear ≡ true) ↔ (waits p.left ≡ []) };
}

/// What a client's seat gives up at its end.
#[derive(Drop)]
pub struct ClientParts<L: Listener> {
    pub to_bridge: Port<ToBridge<Carried<L>>>,
    pub to_timers: Port<ToTimers<Carried<L>>>,
    /// The moments that the client has read, in order.
    pub moments: Vec<u64>,
}

// A clock that always tells the one moment which a turn was handed.
#[derive(Drop)]
struct OneMoment {
    moment: u64,
}

impl Clock for OneMoment {
    ghost left = { λ c. Some (c.moment ∷ []) };

    fn now(&mut self) -> u64 {
        self.moment
    }
}

// The lines of the client of a number.
fn lines_in(script: &Script, number: u32) -> &[ClientLine]
    ensures { result.now ≡ lines_of script.now number }
{
    match script.clients().get(number as usize) {
        Some(lines) => lines.as_slice(),
        None => &[],
    }
}

// Passes over a pause as a whole.
fn rest_whole(state: &mut ClientState)
    ensures state { state.new ≡ record state.old { pause = state.new.pause } }
    ensures awake { state.old.over ≡ false → state.new.pause ≡ 0 }
{
    match state.pause() {
        Some(steps) => state.rest(steps),
        None => {}
    }
}

// Puts what a client has left, in order, each event with its listener on its lane. Where memory runs out the answer is
// the error, and what was not put is still left.
fn flush_dressed<L: Listener, Rt: Wait + Copy>(
    rt: Rt,
    bridge: &Lane<ToBridge<Carried<L>>>,
    timers: &Lane<ToTimers<Carried<L>>>,
    ports: &mut Outlets<L>,
    left: &mut Dressing<L>,
) -> Result<(), OutOfMemory>
    requires bridge { ports.old.to_bridge.lane ≡ bridge.now.id }
    requires timers { ports.old.to_timers.lane ≡ timers.now.id }
    requires lawful { MayPut ports.old (waits left.old) }
    ensures puts { after_puts ports.new (waits left.new) ≡ after_puts ports.old (waits left.old) }
    ensures clear { OnOk result (waits left.new ≡ []) }
    ensures stuck { OnErr result (waits left.new ≡ [] → ⊥) }
{
    while let Some(event) = left.take_first()? {
        if let Err(event) = ports.put(rt, bridge, timers, event) {
            left.put_back(event);
            return Err(OutOfMemory);
        }
    }
    Ok(())
}

impl<L: Listener> ClientPost<L> {
    /// The seat of the client of this number, which has done nothing yet. It takes no memory.
    pub fn new(
        alloc: Global,
        number: u32,
        script: &Script,
        listeners: ClientListeners<L>,
        to_bridge: Port<ToBridge<Carried<L>>>,
        to_timers: Port<ToTimers<Carried<L>>>,
    ) -> ClientPost<L>
        requires put { (to_bridge.put ≡ []) × (to_timers.put ≡ []) }
        requires bounds { (to_bridge.bounds ≡ script.now.shape.bounds) × (to_timers.bounds ≡ script.now.shape.bounds) }
        ensures seat { IsClientOf script.now number result }
        ensures start { (result.walk ≡ walk_at_first number (queues_of script.now.shape)) × (result.left ≡ []) }
        ensures ends { result.ports ≡ record { to_bridge = to_bridge; to_timers = to_timers } }
    {
        ClientPost {
            alloc,
            state: ClientState::new(alloc, number, script.shape().bounds.queues),
            ports: Outlets::new(to_bridge, to_timers),
            left: Dressing::new(alloc, listeners),
            clear: true,
        }
    }

    /// Whether it has ended.
    pub fn ended(&self) -> bool
        ensures { (result ≡ true) ↔ HasEnded self.now }
    {
        if !self.clear {
            return false;
        }
        self.state.is_over()
    }

    /// Whether its next turn reads the clock: nothing is left to put, and the next line is one that reads it.
    pub fn reads_clock(&self, script: &Script, number: u32) -> bool
        ensures { (result ≡ true) ↔ ((self.now.left ≡ []) × (reads_next (stand_at script.now number self.now.walk) ≡ true)) }
    {
        if !self.clear {
            return false;
        }
        self.state.reads_clock(lines_in(script, number))
    }

    /// Puts what is left of the seat's puts, in order. The script and the number say whose seat it is. The error is want of
    /// memory, or a listener that is not there, which no crew has: then the rest is still left.
    pub fn finish<Rt: Wait + Copy>(
        &mut self,
        rt: Rt,
        bridge: &Lane<ToBridge<Carried<L>>>,
        timers: &Lane<ToTimers<Carried<L>>>,
        script: &Script,
        _number: u32,
    ) -> Result<(), OutOfMemory>
        requires seat { IsClientOf script.now _number self.old }
        requires bridge { self.old.ports.to_bridge.lane ≡ bridge.now.id }
        requires timers { self.old.ports.to_timers.lane ≡ timers.now.id }
        ensures seat { IsClientOf script.now _number self.new }
        ensures place { self.new.ports ≡ with_put self.old.ports self.new.ports.to_bridge.put self.new.ports.to_timers.put }
        ensures same { self.new.walk ≡ self.old.walk }
        ensures clear { OnOk result (self.new.left ≡ []) }
    {
        let _shape = script.shape();
        client_puts_are_lawful();
        let put = flush_dressed(rt, bridge, timers, &mut self.ports, &mut self.left);
        self.clear = put.is_ok();
        put
    }

    /// A turn: it puts what was left of the turn before; or else it does the next line, or says that it is done, and puts
    /// what that puts. A line that reads the clock reads this moment. A pause is one turn. A client takes nothing, so it
    /// never waits.
    ///
    /// The error is want of memory, an object without a number left, or a listener that is not there, which no crew has.
    /// Then what was not put is left for the next turn, and a moment that was read stays read.
    pub fn turn<Rt: Wait + Copy>(
        &mut self,
        rt: Rt,
        bridge: &Lane<ToBridge<Carried<L>>>,
        timers: &Lane<ToTimers<Carried<L>>>,
        script: &Script,
        number: u32,
        moment: u64,
    ) -> Result<Pace, OutOfMemory>
        requires seat { IsClientOf script.now number self.old }
        requires bridge { self.old.ports.to_bridge.lane ≡ bridge.now.id }
        requires timers { self.old.ports.to_timers.lane ≡ timers.now.id }
        ensures seat { IsClientOf script.now number self.new }
        ensures place { self.new.ports ≡ with_put self.old.ports self.new.ports.to_bridge.put self.new.ports.to_timers.put }
        ensures grows { IsPrefix self.old.walk.read self.new.walk.read }
        ensures waiting { result ≡ Ok Pace.Waiting → ⊥ }
        ensures ended { (result ≡ Ok Pace.Ended) ↔ HasEnded self.old }
        ensures over { result ≡ Ok Pace.Ended → self.new ≡ self.old }
        ensures moved { result ≡ Ok Pace.Moved → MadeStep script.now number moment self.old self.new × (self.new.left ≡ []) }
    {
        let pace = self.advance(script, number, moment)?;
        match pace {
            Pace::Moved => {
                self.finish(rt, bridge, timers, script, number)?;
                Ok(Pace::Moved)
            }
            Pace::Waiting => Ok(Pace::Waiting),
            Pace::Ended => Ok(Pace::Ended),
        }
    }

    // A turn up to what it puts, which is left. Where something was left, that was the step.
    fn advance(&mut self, script: &Script, number: u32, moment: u64) -> Result<Pace, OutOfMemory>
        requires seat { IsClientOf script.now number self.old }
        ensures seat { IsClientOf script.now number self.new }
        ensures ports { self.new.ports ≡ self.old.ports }
        ensures grows { IsPrefix self.old.walk.read self.new.walk.read }
        ensures waiting { result ≡ Ok Pace.Waiting → ⊥ }
        ensures ended { (result ≡ Ok Pace.Ended) ↔ HasEnded self.old }
        ensures over { result ≡ Ok Pace.Ended → self.new ≡ self.old }
        ensures moved { result ≡ Ok Pace.Moved → MadeStep script.now number moment self.old self.new }
    {
        if !self.clear {
            return Ok(Pace::Moved);
        }
        if self.state.is_over() {
            return Ok(Pace::Ended);
        }
        self.do_line(script, number, moment)?;
        Ok(Pace::Moved)
    }

    // Does the next line, or says the last words.
    fn do_line(&mut self, script: &Script, number: u32, moment: u64) -> Result<(), OutOfMemory>
        requires seat { IsClientOf script.now number self.old }
        requires left { self.old.left ≡ [] }
        requires going { self.old.walk.over ≡ false }
        ensures seat { IsClientOf script.now number self.new }
        ensures ports { self.new.ports ≡ self.old.ports }
        ensures grows { IsPrefix self.old.walk.read self.new.walk.read }
        ensures did { OnOk result (DidLine script.now number moment self.old.walk self.new.walk) }
        ensures err { OnErr result (self.new ≡ self.old) }
    {
        let mut out = self.left.lend(self.alloc);
        let mut clock = OneMoment { moment };
        self.state
            .step(lines_in(script, number), &mut clock, &mut out)?;
        rest_whole(&mut self.state);
        self.clear = out.is_empty();
        self.left.lay(out);
        Ok(())
    }

    /// A note of what it has put on the bridge's lane so far. It takes no memory, and always succeeds.
    pub fn tell_bridge<Rt: Copy>(
        &mut self,
        rt: Rt,
        lane: &Lane<ToBridge<Carried<L>>>,
    ) -> Result<PutNote<ToBridge<Carried<L>>>, OutOfMemory>
        requires { self.old.ports.to_bridge.lane ≡ lane.now.id }
        ensures ok { IsOk result }
        ensures note { IfOk result (λ note. note ≡ note_of_port self.old.ports.to_bridge) }
        ensures same { self.new ≡ self.old }
    {
        self.ports.tell_bridge(rt, lane)
    }

    /// A note of what it has put on the timer service's lane so far. It takes no memory, and always succeeds.
    pub fn tell_timers<Rt: Copy>(
        &mut self,
        rt: Rt,
        lane: &Lane<ToTimers<Carried<L>>>,
    ) -> Result<PutNote<ToTimers<Carried<L>>>, OutOfMemory>
        requires { self.old.ports.to_timers.lane ≡ lane.now.id }
        ensures ok { IsOk result }
        ensures note { IfOk result (λ note. note ≡ note_of_port self.old.ports.to_timers) }
        ensures same { self.new ≡ self.old }
    {
        self.ports.tell_timers(rt, lane)
    }

    /// Its ports, and the moments that it has read. Where it has ended, it has put all that its lines put, and read a moment
    /// for each of its lines that read the clock. What is left is dropped, and so are listeners that have not gone.
    pub fn into_parts(self) -> ClientParts<L>
        ensures ports { self.ports ≡ record { to_bridge = result.to_bridge; to_timers = result.to_timers } }
        ensures moments { result.moments.items ≡ self.walk.read }
        ensures done { (script : ScriptData) (number : ℕ) → IsClientOf script number self → HasEnded self → HasDoneAll script number result.to_bridge.put result.to_timers.put result.moments.items }
    {
        let ClientPost {
            alloc: _,
            state,
            ports,
            left: _,
            clear: _,
        } = self;
        let (to_bridge, to_timers) = ports.into_ports();
        ClientParts {
            to_bridge,
            to_timers,
            moments: state.into_moments(),
        }
    }
}

ghost use Rattle.std.specs.Prelude.{◌≡◌, ◌↔◌, ◌≤◌, ◌+◌, length, true, Ok};
ghost use Rattle.mama_script.specs.Script.{ScriptData};
ghost use Rattle.mama_crew.specs.Hall.{HallValue};
ghost use Rattle.mama_crew.specs.Seat.{actor_of, IsSeatOf, HasEnded, IsIdle, ReadsClock, Grows, MadeStep, journal_in};

use crate::bridge::BridgeSeat;
use crate::client::ClientSeat;
use crate::hall::Hall;
use crate::publisher::PublisherSeat;
use crate::queue::turn_queue;
use crate::timers::TimersSeat;
use mama_carry::Listener;
use mama_edge::GateActor;
use mama_ends::Pace;
use mama_memory::OutOfMemory;
use mama_posts_clients::QueuePost;
use mama_script::Script;
use std::sync::Wait;

/// The seat of an actor: the actor's state and its ends of lanes. Clients, publishers and queues have numbers.
#[derive(Drop)]
pub enum Seat<L: Listener> {
    Client(u32, ClientSeat<L>),
    Publisher(u32, PublisherSeat<L>),
    Bridge(BridgeSeat<L>),
    Timers(TimersSeat<L>),
    Queue(u32, QueuePost<L>),
}

impl<L: Listener> Seat<L> {
    /// Whose seat it is.
    pub fn actor(&self) -> GateActor
        ensures { result ≡ actor_of self.now }
    {
        match self {
            Seat::Client(number, _) => GateActor::Client(*number),
            Seat::Publisher(number, _) => GateActor::Publisher(*number),
            Seat::Bridge(_) => GateActor::Bridge,
            Seat::Timers(_) => GateActor::Timers,
            Seat::Queue(number, _) => GateActor::Queue(*number),
        }
    }

    /// Whether it has ended.
    pub fn ended(&self) -> bool
        ensures { (result ≡ true) ↔ HasEnded self.now }
    {
        match self {
            Seat::Client(_, seat) => seat.ended(),
            Seat::Publisher(_, seat) => seat.ended(),
            Seat::Bridge(seat) => seat.ended(),
            Seat::Timers(seat) => seat.ended(),
            Seat::Queue(_, post) => post.ended(),
        }
    }

    /// Whether its next step is a line that reads the clock.
    pub fn reads_clock(&self) -> bool
        ensures { (script : ScriptData) (hall : HallValue) → IsSeatOf script hall self.now → ((result ≡ true) ↔ ReadsClock script self.now) }
    {
        match self {
            Seat::Client(_, seat) => seat.reads_clock(),
            Seat::Publisher(_, _) => false,
            Seat::Bridge(_) => false,
            Seat::Timers(_) => false,
            Seat::Queue(_, _) => false,
        }
    }

    /// A turn: it puts what was left of the turn before; or else it makes the actor's next step, and puts what that puts. A
    /// line that reads the clock reads this moment.
    ///
    /// The error is want of memory, or an event that no actor of a crew puts. Then what was taken is kept, and so is a moment
    /// that was read, and what was not put is left, for the next turn.
    pub fn turn<Rt: Wait + Copy>(
        &mut self,
        rt: Rt,
        script: &Script,
        hall: &Hall<L>,
        moment: u64,
    ) -> Result<Pace, OutOfMemory>
        requires { IsSeatOf script.now hall.now self.old }
        ensures seat { IsSeatOf script.now hall.now self.new }
        ensures actor { actor_of self.new ≡ actor_of self.old }
        ensures grows { Grows self.old self.new }
        ensures few { length (journal_in self.new) ≤ length (journal_in self.old) + 1 }
        ensures waiting { result ≡ Ok Pace.Waiting → (self.new ≡ self.old) × IsIdle self.old }
        ensures ended { (result ≡ Ok Pace.Ended) ↔ HasEnded self.old }
        ensures over { result ≡ Ok Pace.Ended → self.new ≡ self.old }
        ensures moved { result ≡ Ok Pace.Moved → MadeStep script.now moment self.old self.new }
    {
        match self {
            Seat::Client(number, seat) => seat.turn(rt, script, hall, *number, moment),
            Seat::Publisher(number, seat) => seat.turn(rt, script, hall, *number),
            Seat::Bridge(seat) => seat.turn(rt, script, hall),
            Seat::Timers(seat) => seat.turn(rt, script, hall),
            Seat::Queue(number, post) => turn_queue(post, rt, script, hall, *number),
        }
    }
}

impl<L: Listener> mama_work::Seat for Seat<L> {
    type Script = Script;

    type Hall = Hall<L>;

    ghost sits = { IsSeatOf };

    ghost acts = { actor_of };

    ghost is_over = { HasEnded };

    fn actor(&self) -> GateActor {
        self.actor()
    }

    fn reads_clock(&self) -> bool {
        self.reads_clock()
    }

    fn ended(&self) -> bool {
        self.ended()
    }

    fn turn<Rt: Wait + Copy>(
        &mut self,
        rt: Rt,
        script: &Script,
        hall: &Hall<L>,
        moment: u64,
    ) -> Result<bool, OutOfMemory> {
        let pace = self.turn(rt, script, hall, moment)?;
        Ok(matches!(pace, Pace::Moved))
    }
}

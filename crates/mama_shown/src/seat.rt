ghost use Rattle.std.specs.Prelude.{◌≡◌, ◌↔◌, ◌≤◌, ◌+◌, true, length, Ok, IsOk};
ghost use Rattle.mama_script.specs.Script.{ScriptData};
ghost use Rattle.mama_crew.specs.Hall.{HallValue};
ghost use Rattle.mama_crew.specs.Seat as crew;
ghost use Rattle.mama_crew.specs.Seat.{ReadsClock, Grows, journal_in};
ghost use Rattle.mama_crew.specs.Informed.{AreOfOneCrew, informed};
ghost use Rattle.mama_shown.specs.Seat.{actor_of, IsSeatOf, HasSealed, HasEnded, GoesOn, IsIdle, MadeStep};

use crate::showing::Showing;
use crate::turning::turn_queue;
use mama_carry::Listener;
use mama_crew::{Hall, Pace, Script};
use mama_edge::GateActor;
use mama_grouped::{GroupListener, GroupedSeat};
use mama_memory::OutOfMemory;
use std::sync::Wait;

/// The seat of an actor, and if it is a queue's, the groups of the queue and the board on which it shows its images.
#[derive(Drop)]
pub struct ShownSeat<L: Listener, H: GroupListener, Rt: Wait + Drop> {
    pub(crate) seat: GroupedSeat<L, H>,
    pub(crate) showing: Option<Showing<Rt>>,
}

impl<L: Listener, H: GroupListener, Rt: Wait + Drop> ShownSeat<L, H, Rt> {
    /// Whose seat it is.
    pub fn actor(&self) -> GateActor
        ensures { result ≡ actor_of self.now }
    {
        self.seat.actor()
    }

    /// Whether it has ended: all is done, told and shown, and the board is sealed.
    pub fn ended(&self) -> bool
        ensures { (result ≡ true) ↔ HasEnded self.now }
    {
        if !self.has_sealed() {
            return false;
        }
        self.seat.ended()
    }

    // Whether its board is sealed, if it has one.
    fn has_sealed(&self) -> bool
        ensures { (result ≡ true) ↔ HasSealed self.now.showing }
    {
        match &self.showing {
            Some(showing) => showing.has_told(),
            None => true,
        }
    }

    /// Whether its next step is a line that reads the clock.
    pub fn reads_clock(&self) -> bool
        ensures { (script : ScriptData) (hall : HallValue) → crew.IsSeatOf script hall self.now.seat.seat → ((result ≡ true) ↔ ReadsClock script self.now.seat.seat) }
    {
        self.seat.reads_clock()
    }

    /// A turn. That of a queue shows the next entry that is still to be shown; or else, where the queue has ended, it seals the
    /// board. Else it is a turn of the seat with its groups, and a queue then shows the image that it changed. A line that reads
    /// the clock reads `moment`, in milliseconds.
    ///
    /// The error is want of memory, or an event that no actor of a crew puts. Then what was taken is kept, what was not put is
    /// left, and what was not told or shown is still to be, for the next turn.
    pub fn turn<R: Wait + Copy>(
        &mut self,
        rt: R,
        script: &Script,
        hall: &Hall<L>,
        moment: u64,
    ) -> Result<Pace, OutOfMemory>
        requires { IsSeatOf script.now hall.now self.old }
        ensures seat { IsSeatOf script.now hall.now self.new }
        ensures actor { actor_of self.new ≡ actor_of self.old }
        ensures grows { Grows self.old.seat.seat self.new.seat.seat }
        ensures onward { GoesOn self.old.showing self.new.showing }
        ensures few { length (journal_in self.new.seat.seat) ≤ length (journal_in self.old.seat.seat) + 1 }
        ensures waiting { result ≡ Ok Pace.Waiting → (self.new ≡ self.old) × IsIdle self.old }
        ensures ended { (result ≡ Ok Pace.Ended) ↔ HasEnded self.old }
        ensures over { result ≡ Ok Pace.Ended → self.new ≡ self.old }
        ensures moved { result ≡ Ok Pace.Moved → MadeStep script.now moment self.old self.new }
    {
        match &mut self.showing {
            Some(showing) => turn_queue(&mut self.seat, showing, rt, script, hall, moment),
            None => self.seat.turn(rt, script, hall, moment),
        }
    }

    /// Lets the other seat know all that this seat has put to it so far. So the other's next turn waits only where it has taken
    /// that. Where this seat puts nothing to the other, nothing changes. It takes no memory, and always succeeds.
    pub fn inform<R: Copy>(
        &mut self,
        rt: R,
        hall: &Hall<L>,
        other: &mut ShownSeat<L, H, Rt>,
    ) -> Result<(), OutOfMemory>
        requires { AreOfOneCrew hall.now self.old.seat.seat other.old.seat.seat }
        ensures ok { IsOk result }
        ensures informed { other.new ≡ record other.old { seat = record other.old.seat { seat = informed self.old.seat.seat other.old.seat.seat } } }
        ensures seat { (script : ScriptData) → IsSeatOf script hall.now other.old → IsSeatOf script hall.now other.new }
        ensures same { self.new ≡ self.old }
    {
        self.seat.inform(rt, hall, &mut other.seat)
    }
}

impl<L: Listener, H: GroupListener, Rt: Wait + Drop> mama_work::Seat for ShownSeat<L, H, Rt> {
    type Script = Script;

    type Hall = Hall<L>;

    ghost sits = { IsSeatOf };

    ghost acts = { actor_of };

    ghost is_over = { HasEnded };

    fn actor(&self) -> GateActor {
        self.actor()
    }

    fn reads_clock(&self) -> bool {
        self.reads_clock()
    }

    fn ended(&self) -> bool {
        self.ended()
    }

    fn turn<R: Wait + Copy>(
        &mut self,
        rt: R,
        script: &Script,
        hall: &Hall<L>,
        moment: u64,
    ) -> Result<bool, OutOfMemory> {
        let pace = self.turn(rt, script, hall, moment)?;
        Ok(matches!(pace, Pace::Moved))
    }
}

ghost use Rattle.std.specs.Prelude.{◌≡◌, ◌↔◌, ◌⊎◌, ◌≤◌, ◌+◌, true, length, Ok, IsOk};
ghost use Rattle.mama_script.specs.Script.{ScriptData};
ghost use Rattle.mama_crew.specs.Hall.{HallValue};
ghost use Rattle.mama_crew.specs.Seat.{ReadsClock, Grows, journal_in};
ghost use Rattle.mama_crew.specs.Informed.{AreOfOneCrew, informed};
ghost use Rattle.mama_crew.specs.Seat as crew;
ghost use Rattle.mama_grouped.specs.Seat.{actor_of, IsHearing, IsSeatOf, HasEnded, IsIdle, MadeStep};

use crate::hearing::Hearing;
use mama_carry::Listener;
use mama_crew::{Hall, Pace, Script, Seat};
use mama_edge::GateActor;
use mama_group::GroupListener;
use mama_memory::OutOfMemory;
use std::sync::Wait;

/// The seat of an actor, and if it is a queue's, the groups of the queue.
#[derive(Drop)]
pub struct GroupedSeat<L: Listener, H: GroupListener> {
    pub(crate) seat: Seat<L>,
    pub(crate) hearing: Option<Hearing<H>>,
}

impl<L: Listener, H: GroupListener> GroupedSeat<L, H> {
    /// Whose seat it is.
    pub fn actor(&self) -> GateActor
        ensures { result ≡ actor_of self.now }
    {
        self.seat.actor()
    }

    /// The seat alone, without the groups.
    pub fn crew_seat(&self) -> &Seat<L>
        ensures { result.now ≡ self.now.seat }
    {
        &self.seat
    }

    /// Whether it has ended: all is done and told.
    pub fn ended(&self) -> bool
        ensures { (result ≡ true) ↔ HasEnded self.now }
    {
        match &self.hearing {
            Some(hearing) => hearing.is_told(&self.seat) && self.seat.ended(),
            None => self.seat.ended(),
        }
    }

    /// Whether its next step is a line that reads the clock.
    pub fn reads_clock(&self) -> bool
        ensures { (script : ScriptData) (hall : HallValue) → crew.IsSeatOf script hall self.now.seat → ((result ≡ true) ↔ ReadsClock script self.now.seat) }
    {
        self.seat.reads_clock()
    }

    /// A turn. That of a queue tells the groups what is still to be told; or else it is a turn of the seat, and the group of the
    /// turn's subscription is then told, so that nothing is still to be told. A line that reads the clock reads `moment`, in
    /// milliseconds.
    ///
    /// The error is want of memory, or an event that no actor of a crew puts. Then what was taken is kept, what was not put is
    /// left, and what was not told is still to be told, for the next turn.
    pub fn turn<R: Wait + Copy>(
        &mut self,
        rt: R,
        script: &Script,
        hall: &Hall<L>,
        moment: u64,
    ) -> Result<Pace, OutOfMemory>
        requires { IsSeatOf script.now hall.now self.old }
        ensures seat { IsSeatOf script.now hall.now self.new }
        ensures actor { actor_of self.new ≡ actor_of self.old }
        ensures grows { Grows self.old.seat self.new.seat }
        ensures few { length (journal_in self.new.seat) ≤ length (journal_in self.old.seat) + 1 }
        ensures waiting { result ≡ Ok Pace.Waiting → (self.new ≡ self.old) × IsIdle self.old }
        ensures ended { (result ≡ Ok Pace.Ended) ↔ HasEnded self.old }
        ensures over { result ≡ Ok Pace.Ended → self.new ≡ self.old }
        ensures moved { result ≡ Ok Pace.Moved → MadeStep script.now moment self.old self.new }
    {
        match &mut self.hearing {
            Some(hearing) => turn_queue(&mut self.seat, hearing, rt, script, hall, moment),
            None => self.seat.turn(rt, script, hall, moment),
        }
    }

    /// Lets the other seat know all that this seat has put to it so far. So the other's next turn waits only where it has taken
    /// that. Where this seat puts nothing to the other, nothing changes. It takes no memory, and always succeeds.
    pub fn inform<R: Copy>(
        &mut self,
        rt: R,
        hall: &Hall<L>,
        other: &mut GroupedSeat<L, H>,
    ) -> Result<(), OutOfMemory>
        requires { AreOfOneCrew hall.now self.old.seat other.old.seat }
        ensures ok { IsOk result }
        ensures informed { other.new ≡ record other.old { seat = informed self.old.seat other.old.seat } }
        ensures seat { (script : ScriptData) → IsSeatOf script hall.now other.old → IsSeatOf script hall.now other.new }
        ensures same { self.new ≡ self.old }
    {
        self.seat.inform(rt, hall, &mut other.seat)
    }
}

// A turn of the seat of a queue with its groups.
fn turn_queue<L: Listener, H: GroupListener, R: Wait + Copy>(
    seat: &mut Seat<L>,
    hearing: &mut Hearing<H>,
    rt: R,
    script: &Script,
    hall: &Hall<L>,
    moment: u64,
) -> Result<Pace, OutOfMemory>
    requires sits { crew.IsSeatOf script.now hall.now seat.old }
    requires hears { IsHearing script.now hall.now seat.old hearing.old.groups hearing.old.told }
    ensures sits { crew.IsSeatOf script.now hall.now seat.new }
    ensures hears { IsHearing script.now hall.now seat.new hearing.new.groups hearing.new.told }
    ensures actor { crew.actor_of seat.new ≡ crew.actor_of seat.old }
    ensures grows { Grows seat.old seat.new }
    ensures few { length (journal_in seat.new) ≤ length (journal_in seat.old) + 1 }
    ensures waiting { result ≡ Ok Pace.Waiting → (seat.new ≡ seat.old) × (hearing.new ≡ hearing.old) × crew.IsIdle seat.old × (length (journal_in seat.old) ≡ hearing.old.told) }
    ensures ended { (result ≡ Ok Pace.Ended) ↔ (crew.HasEnded seat.old × (length (journal_in seat.old) ≡ hearing.old.told)) }
    ensures over { result ≡ Ok Pace.Ended → (seat.new ≡ seat.old) × (hearing.new ≡ hearing.old) }
    ensures moved { result ≡ Ok Pace.Moved → ((seat.new ≡ seat.old) × (hearing.new.told ≡ hearing.old.told + 1)) ⊎ (crew.MadeStep script.now moment seat.old seat.new × (length (journal_in seat.new) ≡ hearing.new.told)) }
{
    let told = hearing.tell_next(script, hall, seat)?;
    if told {
        return Ok(Pace::Moved);
    }
    let pace = seat.turn(rt, script, hall, moment)?;
    hearing.tell_next(script, hall, seat)?;
    Ok(pace)
}

impl<L: Listener, H: GroupListener> mama_work::Seat for GroupedSeat<L, H> {
    type Script = Script;

    type Hall = Hall<L>;

    ghost sits = { IsSeatOf };

    ghost acts = { actor_of };

    ghost is_over = { HasEnded };

    fn actor(&self) -> GateActor {
        self.actor()
    }

    fn reads_clock(&self) -> bool {
        self.reads_clock()
    }

    fn ended(&self) -> bool {
        self.ended()
    }

    fn turn<R: Wait + Copy>(
        &mut self,
        rt: R,
        script: &Script,
        hall: &Hall<L>,
        moment: u64,
    ) -> Result<bool, OutOfMemory> {
        let pace = self.turn(rt, script, hall, moment)?;
        Ok(matches!(pace, Pace::Moved))
    }
}

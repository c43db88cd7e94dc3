//! A turn of the seat of a queue, with its board.
ghost use Rattle.std.specs.Prelude.{◌≡◌, ◌↔◌, ◌≤◌, ◌+◌, true, false, Ok, None, length, is_some, OnOk};
ghost use mathlib.Core.List.{IsPrefix};
ghost use Rattle.mama_crew.specs.Seat as crew;
ghost use Rattle.mama_crew.specs.Seat.{Grows, journal_in};
ghost use Rattle.mama_grouped.specs.Seat as grouped;
ghost use Rattle.mama_shown.specs.Images.{all_sets, AreShown};
ghost use Rattle.mama_shown.specs.Seat.{IsShowing};
ghost use Rattle.mama_shown.specs.Turn.{Steps};

use crate::showing::Showing;
use mama_carry::Listener;
use mama_crew::{Hall, Pace, Script};
use mama_grouped::{GroupListener, GroupedSeat};
use mama_memory::OutOfMemory;
use std::sync::Wait;

/// A turn of the seat of a queue: it shows the next entry that is still to be shown; or else, where the queue has ended, it seals
/// the board; or else it is a turn of the queue, which then shows what that changed.
pub(crate) fn turn_queue<L: Listener, H: GroupListener, Rt: Wait + Drop, R: Wait + Copy>(
    seat: &mut GroupedSeat<L, H>,
    showing: &mut Showing<Rt>,
    rt: R,
    script: &Script,
    hall: &Hall<L>,
    moment: u64,
) -> Result<Pace, OutOfMemory>
    requires sits { grouped.IsSeatOf script.now hall.now seat.old }
    requires shows { IsShowing hall.now.objects seat.old showing.old }
    ensures sits { grouped.IsSeatOf script.now hall.now seat.new }
    ensures shows { IsShowing hall.now.objects seat.new showing.new }
    ensures actor { grouped.actor_of seat.new ≡ grouped.actor_of seat.old }
    ensures grows { Grows seat.old.seat seat.new.seat }
    ensures onward { IsPrefix showing.old.board.sets showing.new.board.sets }
    ensures few { length (journal_in seat.new.seat) ≤ length (journal_in seat.old.seat) + 1 }
    ensures waiting { result ≡ Ok Pace.Waiting → (seat.new ≡ seat.old) × (showing.new ≡ showing.old) × grouped.IsIdle seat.old × (length (journal_in seat.old.seat) ≡ showing.old.shown) }
    ensures ended { (result ≡ Ok Pace.Ended) ↔ (is_some showing.old.told ≡ true) }
    ensures over { result ≡ Ok Pace.Ended → (seat.new ≡ seat.old) × (showing.new ≡ showing.old) }
    ensures moved { result ≡ Ok Pace.Moved → Steps script.now moment seat.old showing.old seat.new showing.new }
{
    if showing.has_told() {
        return Ok(Pace::Ended);
    }
    let shown = show(showing, rt, script, hall, seat)?;
    if shown {
        return Ok(Pace::Moved);
    }
    turn_shown(seat, showing, rt, script, hall, moment)
}

// Shows the next entry of the seat's journal, if one is still to be shown, and says whether one was.
fn show<L: Listener, H: GroupListener, Rt: Wait + Drop, R: Wait + Copy>(
    showing: &mut Showing<Rt>,
    rt: R,
    script: &Script,
    hall: &Hall<L>,
    seat: &GroupedSeat<L, H>,
) -> Result<bool, OutOfMemory>
    requires sits { crew.IsSeatOf script.now hall.now seat.now.seat }
    requires shows { AreShown hall.now.objects (journal_in seat.now.seat) showing.old.shown (all_sets showing.old.board) }
    requires unsealed { showing.old.board.sealed ≡ false }
    ensures shows { AreShown hall.now.objects (journal_in seat.now.seat) showing.new.shown (all_sets showing.new.board) }
    ensures next { result ≡ Ok true → showing.new.shown ≡ showing.old.shown + 1 }
    ensures all { result ≡ Ok false → (showing.new ≡ showing.old) × (length (journal_in seat.now.seat) ≡ showing.old.shown) }
    ensures last { OnOk result (length (journal_in seat.now.seat) ≤ showing.old.shown + 1 → length (journal_in seat.now.seat) ≡ showing.new.shown) }
    ensures same { showing.new.told ≡ showing.old.told }
    ensures board { (showing.new.board.queue ≡ showing.old.board.queue) × (showing.new.board.sealed ≡ false) × IsPrefix showing.old.board.sets showing.new.board.sets }
{
    showing.show_next(rt, script, hall, seat.crew_seat())
}

// A turn of a queue of which all is shown: where the queue has ended, it seals the board; or else it is a turn of the queue.
fn turn_shown<L: Listener, H: GroupListener, Rt: Wait + Drop, R: Wait + Copy>(
    seat: &mut GroupedSeat<L, H>,
    showing: &mut Showing<Rt>,
    rt: R,
    script: &Script,
    hall: &Hall<L>,
    moment: u64,
) -> Result<Pace, OutOfMemory>
    requires sits { grouped.IsSeatOf script.now hall.now seat.old }
    requires shows { IsShowing hall.now.objects seat.old showing.old }
    requires untold { showing.old.told ≡ None }
    requires all { length (journal_in seat.old.seat) ≡ showing.old.shown }
    ensures sits { grouped.IsSeatOf script.now hall.now seat.new }
    ensures shows { IsShowing hall.now.objects seat.new showing.new }
    ensures actor { grouped.actor_of seat.new ≡ grouped.actor_of seat.old }
    ensures grows { Grows seat.old.seat seat.new.seat }
    ensures onward { IsPrefix showing.old.board.sets showing.new.board.sets }
    ensures few { length (journal_in seat.new.seat) ≤ length (journal_in seat.old.seat) + 1 }
    ensures waiting { result ≡ Ok Pace.Waiting → (seat.new ≡ seat.old) × (showing.new ≡ showing.old) × grouped.IsIdle seat.old }
    ensures not_ended { result ≡ Ok Pace.Ended → ⊥ }
    ensures moved { result ≡ Ok Pace.Moved → Steps script.now moment seat.old showing.old seat.new showing.new }
{
    if seat.ended() {
        showing.seal(rt)?;
        return Ok(Pace::Moved);
    }
    step(seat, showing, rt, script, hall, moment)
}

// A turn of a queue that has not ended and has nothing left to show, and what it shows of that.
fn step<L: Listener, H: GroupListener, Rt: Wait + Drop, R: Wait + Copy>(
    seat: &mut GroupedSeat<L, H>,
    showing: &mut Showing<Rt>,
    rt: R,
    script: &Script,
    hall: &Hall<L>,
    moment: u64,
) -> Result<Pace, OutOfMemory>
    requires sits { grouped.IsSeatOf script.now hall.now seat.old }
    requires shows { IsShowing hall.now.objects seat.old showing.old }
    requires untold { showing.old.told ≡ None }
    requires all { length (journal_in seat.old.seat) ≡ showing.old.shown }
    requires goes_on { grouped.HasEnded seat.old → ⊥ }
    ensures sits { grouped.IsSeatOf script.now hall.now seat.new }
    ensures shows { IsShowing hall.now.objects seat.new showing.new }
    ensures actor { grouped.actor_of seat.new ≡ grouped.actor_of seat.old }
    ensures grows { Grows seat.old.seat seat.new.seat }
    ensures onward { IsPrefix showing.old.board.sets showing.new.board.sets }
    ensures few { length (journal_in seat.new.seat) ≤ length (journal_in seat.old.seat) + 1 }
    ensures waiting { result ≡ Ok Pace.Waiting → (seat.new ≡ seat.old) × (showing.new ≡ showing.old) × grouped.IsIdle seat.old }
    ensures not_ended { result ≡ Ok Pace.Ended → ⊥ }
    ensures moved { result ≡ Ok Pace.Moved → grouped.MadeStep script.now moment seat.old seat.new × (length (journal_in seat.new.seat) ≡ showing.new.shown) }
{
    let pace = seat.turn(rt, script, hall, moment)?;
    match pace {
        Pace::Moved => {
            show(showing, rt, script, hall, seat)?;
            Ok(Pace::Moved)
        }
        Pace::Waiting => Ok(Pace::Waiting),
        Pace::Ended => Ok(Pace::Ended),
    }
}

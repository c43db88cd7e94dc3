//! A crew whose queues show their images, turned on one thread by its own calls.
ghost use Rattle.std.specs.Prelude.{◌≡◌, true, IfOk};
ghost use Rattle.std.specs.List.{All};
ghost use Rattle.mama_rules_legal.specs.Legal.{IsLegal};
ghost use Rattle.mama_shown.specs.Crew.{IsCrew};
ghost use Rattle.mama_shown.specs.Seat.{HasEnded};

use mama_carry::{PlanListener, PlanMaker};
use mama_event::SubId;
use mama_record::RunRecord;
use mama_shown::{
    Hall, ImageReader, OutOfMemory, Pace, Script, ShownCrew, ShownSeat, SilentGroup, SilentGroups,
    close_shown, open_shown,
};
use std::alloc::Global;
use std::process::Abort;
use std::sync::Wait;

const SUB: SubId = SubId {
    client: 0,
    number: 0,
};

// After so many rounds each seat of a small script has ended.
const MOST_ROUNDS: u32 = 1000;

/// The last update in the first subscription's image, as the first queue's reader saw it before the first turn and once all seats
/// had ended, and the record.
#[derive(Drop)]
pub struct Shown {
    pub before: u32,
    pub after: u32,
    pub run: RunRecord,
}

// Turns the seat at this place.
fn turn_at<Rt: Wait + Copy + Drop>(
    rt: Rt,
    script: &Script,
    hall: &Hall<PlanListener>,
    seats: &mut Vec<ShownSeat<PlanListener, SilentGroup, Rt>>,
    place: usize,
) -> Result<Pace, OutOfMemory>
    requires { IsCrew script.now hall.now seats.old.items }
    ensures { IsCrew script.now hall.now seats.new.items }
{
    match seats.get_mut(place) {
        Some(seat) => seat.turn(rt, script, hall, 7),
        None => Err(OutOfMemory),
    }
}

// Turns the seats at these places, and says whether each answered that it has ended.
fn round<Rt: Wait + Copy + Drop>(
    rt: Rt,
    script: &Script,
    hall: &Hall<PlanListener>,
    seats: &mut Vec<ShownSeat<PlanListener, SilentGroup, Rt>>,
    places: &[usize],
) -> Result<bool, OutOfMemory>
    requires { IsCrew script.now hall.now seats.old.items }
    ensures { IsCrew script.now hall.now seats.new.items }
{
    let mut ended = true;
    for place in places {
        let pace = turn_at(rt, script, hall, seats, *place)?;
        ended = ended && pace == Pace::Ended;
    }
    Ok(ended)
}

// Whether all seats have ended.
fn have_ended<Rt: Wait + Drop>(seats: &[ShownSeat<PlanListener, SilentGroup, Rt>]) -> bool
    ensures { result ≡ true → All HasEnded seats.now }
{
    seats.iter().all(|seat| seat.ended())
}

// Turns the seats at these places in rotation until each answers that it has ended, and says whether then all have.
fn turn_out<Rt: Wait + Copy + Drop>(
    rt: Rt,
    script: &Script,
    hall: &Hall<PlanListener>,
    seats: &mut Vec<ShownSeat<PlanListener, SilentGroup, Rt>>,
    places: &[usize],
) -> Result<bool, OutOfMemory>
    requires { IsCrew script.now hall.now seats.old.items }
    ensures crew { IsCrew script.now hall.now seats.new.items }
    ensures ended { IfOk result (λ ended. ended ≡ true → All HasEnded seats.new.items) }
{
    for _ in 0..MOST_ROUNDS {
        if round(rt, script, hall, seats, places)? {
            return Ok(have_ended(seats));
        }
    }
    Ok(false)
}

// The last update in the image as the first reader sees it, 0 where there is none.
fn last_of<Rt: Copy>(rt: Rt, readers: &mut Vec<ImageReader>) -> Result<u32, OutOfMemory> {
    let Some(reader) = readers.get_mut(0) else {
        return Err(OutOfMemory);
    };
    match reader.fixed(rt, SUB) {
        Ok(Some(head)) => Ok(head.last),
        Ok(None) => Ok(0),
        Err(OutOfMemory) => Err(OutOfMemory),
    }
}

/// Opens the crew of a script, turns the seats at these places in rotation until all have ended, and closes the crew. Where that
/// fails the test ends at once: so no proof is about letting a crew go.
pub fn play_shown<Rt: Wait + Abort + Copy + Drop>(
    rt: Rt,
    alloc: Global,
    script: &Script,
    places: &[usize],
) -> Shown
    ensures { IsLegal script.now result.run }
{
    let mut maker = PlanMaker::new();
    let mut groups = SilentGroups::new();
    let crew = open_shown(rt, alloc, script, &mut maker, &mut groups);
    let ShownCrew {
        hall,
        mut seats,
        mut readers,
    } = crew.expect(&rt, "a crew");
    let before = last_of(rt, &mut readers).expect(&rt, "a look before the first turn");
    let ended = turn_out(rt, script, &hall, &mut seats, places).expect(&rt, "rounds");
    assert!(rt; ended, "the seats go on");
    let after = last_of(rt, &mut readers).expect(&rt, "a look after the last turn");
    let closed = close_shown(rt, alloc, script, hall, seats, readers);
    let (run, _, _) = closed.expect(&rt, "a record");
    Shown { before, after, run }
}

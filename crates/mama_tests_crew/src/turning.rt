//! The seats of a crew that are turned on one thread.
ghost use Rattle.std.specs.Prelude.{◌≡◌, ◌∷◌, ◌<◌, true, map, vec_len, IfOk};
ghost use Rattle.std.specs.List.{All};
ghost use Rattle.mama_crew.specs.Crew.{IsCrew};
ghost use Rattle.mama_crew.specs.Seat.{actor_of, IsSeatOf, HasEnded};

use mama_carry::PlanListener;
use mama_crew::{Hall, OutOfMemory, Pace, Script, Seat};
use std::process::Abort;
use std::sync::Wait;

/// The places of the seats of the first client, the bridge and the first queue, where there is one client and one publisher.
const CLIENT: usize = 0;

const BRIDGE: usize = 2;

const QUEUE: usize = 4;

// After so many rounds each seat of a small script has ended.
const MOST_ROUNDS: u32 = 1000;

// Turns the seat at this place.
fn turn_at<Rt: Wait + Copy>(
    rt: Rt,
    script: &Script,
    hall: &Hall<PlanListener>,
    seats: &mut Vec<Seat<PlanListener>>,
    place: usize,
) -> Result<Pace, OutOfMemory>
    requires { IsCrew script.now hall.now seats.old.items }
    ensures { IsCrew script.now hall.now seats.new.items }
{
    match seats.get_mut(place) {
        Some(seat) => seat.turn(rt, script, hall, 7),
        None => Err(OutOfMemory),
    }
}

// A seat informs the second of those behind it.
fn inform_second<Rt: Copy>(
    rt: Rt,
    _script: &Script,
    hall: &Hall<PlanListener>,
    first: &mut Seat<PlanListener>,
    rest: &mut Vec<Seat<PlanListener>>,
) -> Result<(), OutOfMemory>
    requires first { IsSeatOf _script.now hall.now first.old }
    requires rest { All (IsSeatOf _script.now hall.now) rest.old.items }
    ensures same { first.new ≡ first.old }
    ensures actors { map actor_of rest.new.items ≡ map actor_of rest.old.items }
    ensures each { All (IsSeatOf _script.now hall.now) rest.new.items }
{
    match rest.get_mut(1) {
        Some(third) => first.inform(rt, hall, third),
        None => Err(OutOfMemory),
    }
}

// Takes the first of these out.
fn first_out<T>(items: &mut Vec<T>) -> T
    requires { 0 < vec_len items.old }
    ensures { items.old.items ≡ result ∷ items.new.items }
{
    items.remove(0)
}

// Puts one before these. Where there is no room the test ends at once.
fn put_first<Rt: Abort + Copy, T: Drop>(rt: Rt, items: &mut Vec<T>, first: T)
    ensures { items.new.items ≡ first ∷ items.old.items }
{
    let put = items.insert(0, first).is_ok();
    assert!(rt; put, "no room");
}

// The first seat informs the one two places behind it. It is taken out while it does, since both are changed.
fn inform_third<Rt: Abort + Copy>(
    rt: Rt,
    script: &Script,
    hall: &Hall<PlanListener>,
    seats: &mut Vec<Seat<PlanListener>>,
) -> Result<(), OutOfMemory>
    requires { IsCrew script.now hall.now seats.old.items }
    ensures { IsCrew script.now hall.now seats.new.items }
{
    assert!(rt; !seats.is_empty(), "no seats");
    let mut first = first_out(seats);
    let informed = inform_second(rt, script, hall, &mut first, seats);
    put_first(rt, seats, first);
    informed
}

/// What the first turns of bridge, queue and client come to, and then the bridge's next, once the client has informed it.
pub fn first_paces<Rt: Wait + Abort + Copy>(
    rt: Rt,
    script: &Script,
    hall: &Hall<PlanListener>,
    seats: &mut Vec<Seat<PlanListener>>,
) -> Result<[Pace; 4], OutOfMemory>
    requires { IsCrew script.now hall.now seats.old.items }
    ensures { IsCrew script.now hall.now seats.new.items }
{
    let looked = turn_at(rt, script, hall, seats, BRIDGE)?;
    let idle = turn_at(rt, script, hall, seats, QUEUE)?;
    let joined = turn_at(rt, script, hall, seats, CLIENT)?;
    inform_third(rt, script, hall, seats)?;
    let took = turn_at(rt, script, hall, seats, BRIDGE)?;
    Ok([looked, idle, joined, took])
}

// Turns the seats at these places, and says whether each answered that it has ended.
fn round<Rt: Wait + Copy>(
    rt: Rt,
    script: &Script,
    hall: &Hall<PlanListener>,
    seats: &mut Vec<Seat<PlanListener>>,
    places: &[usize],
) -> Result<bool, OutOfMemory>
    requires { IsCrew script.now hall.now seats.old.items }
    ensures { IsCrew script.now hall.now seats.new.items }
{
    let mut ended = true;
    for place in places {
        let pace = turn_at(rt, script, hall, seats, *place)?;
        ended = ended && pace == Pace::Ended;
    }
    Ok(ended)
}

// Whether all seats have ended.
fn have_ended(seats: &[Seat<PlanListener>]) -> bool
    ensures { result ≡ true → All HasEnded seats.now }
{
    seats.iter().all(|seat| seat.ended())
}

/// Turns the seats at these places in rotation until each answers that it has ended, and says whether then all have.
pub fn turn_out<Rt: Wait + Copy>(
    rt: Rt,
    script: &Script,
    hall: &Hall<PlanListener>,
    seats: &mut Vec<Seat<PlanListener>>,
    places: &[usize],
) -> Result<bool, OutOfMemory>
    requires { IsCrew script.now hall.now seats.old.items }
    ensures crew { IsCrew script.now hall.now seats.new.items }
    ensures ended { IfOk result (λ ended. ended ≡ true → All HasEnded seats.new.items) }
{
    for _ in 0..MOST_ROUNDS {
        if round(rt, script, hall, seats, places)? {
            return Ok(have_ended(seats));
        }
    }
    Ok(false)
}

ghost use Rattle.std.specs.Prelude.{◌≡◌, true, length, map};
ghost use Rattle.std.specs.List.{All};

use crate::seat::Seat;
use crossbeam_utils::Backoff;
use mama_edge::{Clock, Gate};
use mama_memory::OutOfMemory;
use std::alloc::Global;
use std::sync::atomic::Ordering::SeqCst;
use std::sync::atomic::{AtomicBool, AtomicUsize};
use std::sync::{Mutex, Wait};

/// What all threads share: the script and the hall of their seats, the clock, the gate, a flag by which all leave off, how many
/// of so many queues have ended, and how often one was taken from another thread's.
#[derive(Drop)]
pub(crate) struct Shared<'s, 'c, S: Seat, C: Clock, G: Gate> {
    pub(crate) script: &'s S::Script,
    pub(crate) hall: &'s S::Hall,
    pub(crate) clock: &'s Mutex<&'c mut C>,
    pub(crate) gate: &'s G,
    pub(crate) stop: &'s AtomicBool,
    pub(crate) finished: &'s AtomicUsize,
    pub(crate) stolen: &'s AtomicUsize,
    pub(crate) queues: usize,
    pub(crate) alloc: Global,
}

/// Whether both of these hold.
pub(crate) fn hold_both(first: bool, second: bool) -> bool
    ensures { result ≡ true → (first ≡ true) × (second ≡ true) }
{
    first && second
}

/// The seats of a thread that left off, and whether it did since all of them have ended.
#[derive(Drop)]
pub(crate) struct Report<S: Seat> {
    pub(crate) seats: Vec<S>,
    pub(crate) ended: bool,
}

/// Makes a step of a seat that has not ended, and says whether there was one to make. The clock is locked only where the step
/// uses a moment.
pub(crate) fn step<S: Seat, C: Clock, G: Gate, Rt: Wait + Copy>(
    rt: Rt,
    shared: &Shared<'_, '_, S, C, G>,
    seat: &mut S,
) -> Result<bool, OutOfMemory>
    requires { S.sits shared.now.script.now shared.now.hall.now seat.old }
    ensures sits { S.sits shared.now.script.now shared.now.hall.now seat.new }
    ensures actor { S.acts seat.new ≡ S.acts seat.old }
{
    if seat.ended() {
        return Ok(false);
    }
    shared.gate.turn(seat.actor());
    let moment = if seat.reads_clock() {
        shared.clock.lock(&rt).now()
    } else {
        0
    };
    seat.turn(rt, shared.script, shared.hall, moment)
}

/// How many turns a seat is given at most before another's.
const MOST_TURNS: u32 = 64;

/// Makes steps of a seat until it has ended or there is none to make, 64 at most, and says whether there was one.
pub(crate) fn steps<S: Seat, C: Clock, G: Gate, Rt: Wait + Copy>(
    rt: Rt,
    shared: &Shared<'_, '_, S, C, G>,
    seat: &mut S,
) -> Result<bool, OutOfMemory>
    requires { S.sits shared.now.script.now shared.now.hall.now seat.old }
    ensures sits { S.sits shared.now.script.now shared.now.hall.now seat.new }
    ensures actor { S.acts seat.new ≡ S.acts seat.old }
{
    let mut moved = false;
    for _ in 0..MOST_TURNS {
        if !step(rt, shared, seat)? {
            return Ok(moved);
        }
        moved = true;
    }
    Ok(moved)
}

/// Makes steps of each seat that has not ended, 64 at most, and says whether one moved. So a seat with much to do does not wait
/// for a look at each other seat behind each of its steps.
pub(crate) fn round<S: Seat, C: Clock, G: Gate, Rt: Wait + Copy>(
    rt: Rt,
    shared: &Shared<'_, '_, S, C, G>,
    seats: &mut Vec<S>,
) -> Result<bool, OutOfMemory>
    requires { All (S.sits shared.now.script.now shared.now.hall.now) seats.old.items }
    ensures sits { All (S.sits shared.now.script.now shared.now.hall.now) seats.new.items }
    ensures all { length seats.new.items ≡ length seats.old.items }
    ensures actors { map S.acts seats.new.items ≡ map S.acts seats.old.items }
{
    let mut moved = false;
    for seat in seats.iter_mut() {
        moved = steps(rt, shared, seat)? || moved;
    }
    Ok(moved)
}

/// Whether all seats have ended.
pub(crate) fn have_ended<S: Seat>(seats: &[S]) -> bool
    ensures { result ≡ true → All S.is_over seats.now }
{
    seats.iter().all(|seat| seat.ended())
}

/// Turns the seats in rotation until all have ended, or until the flag is raised, which a turn that finds no memory does.
pub(crate) fn work<S: Seat, C: Clock, G: Gate, Rt: Wait + Copy>(
    rt: Rt,
    shared: &Shared<'_, '_, S, C, G>,
    seats: Vec<S>,
) -> Report<S>
    requires { All (S.sits shared.now.script.now shared.now.hall.now) seats.items }
    ensures seats { All (S.sits shared.now.script.now shared.now.hall.now) result.seats.items }
    ensures all { length result.seats.items ≡ length seats.items }
    ensures actors { map S.acts result.seats.items ≡ map S.acts seats.items }
    ensures ended { result.ended ≡ true → All S.is_over result.seats.items }
{
    let mut seats = seats;
    let backoff = Backoff::new();
    for _ in rt.forever() {
        if have_ended(seats.as_slice()) {
            return Report { seats, ended: true };
        }
        if shared.stop.load(SeqCst) {
            break;
        }
        match round(rt, shared, &mut seats) {
            Ok(true) => backoff.reset(),
            Ok(false) => backoff.snooze(),
            Err(OutOfMemory) => shared.stop.store(true, SeqCst),
        }
    }
    Report {
        seats,
        ended: false,
    }
}

/// The same; but where the group's own flag stands the seats come back as they are.
pub(crate) fn work_or_hold<S: Seat, C: Clock, G: Gate, Rt: Wait + Copy>(
    rt: Rt,
    shared: &Shared<'_, '_, S, C, G>,
    held: &AtomicBool,
    seats: Vec<S>,
) -> Report<S>
    requires { All (S.sits shared.now.script.now shared.now.hall.now) seats.items }
    ensures seats { All (S.sits shared.now.script.now shared.now.hall.now) result.seats.items }
    ensures all { length result.seats.items ≡ length seats.items }
    ensures ended { result.ended ≡ true → All S.is_over result.seats.items }
{
    if held.load(SeqCst) {
        return Report {
            seats,
            ended: false,
        };
    }
    work(rt, shared, seats)
}

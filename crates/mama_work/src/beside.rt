// A thread that turns seats and serves queues beside them.
ghost use Rattle.std.specs.Prelude.{◌≡◌, true, length};
ghost use Rattle.std.specs.List.{All};
ghost use Rattle.mama_work.specs.Serving.{Follows, numbers_of};

use crate::dispatcher::Crew;
use crate::seat::Seat;
use crate::serving::{Served, is_served, serve_next};
use crate::worker::{Report, Shared, have_ended, round};
use crossbeam_utils::Backoff;
use mama_edge::{Clock, Gate};
use mama_memory::OutOfMemory;
use std::sync::Wait;
use std::sync::atomic::Ordering::SeqCst;

// Makes a step of each seat that has not ended, and says whether one moved. Where one finds no memory it raises the flag.
fn round_or_stop<S: Seat, C: Clock, G: Gate, Rt: Wait + Copy>(
    rt: Rt,
    shared: &Shared<'_, '_, S, C, G>,
    seats: &mut Vec<S>,
) -> bool
    requires { All (S.sits shared.now.script.now shared.now.hall.now) seats.old.items }
    ensures sits { All (S.sits shared.now.script.now shared.now.hall.now) seats.new.items }
    ensures all { length seats.new.items ≡ length seats.old.items }
{
    match round(rt, shared, seats) {
        Ok(moved) => moved,
        Err(OutOfMemory) => {
            shared.stop.store(true, SeqCst);
            false
        }
    }
}

/// Turns the seats in rotation, and serves queues by a hand beside them, until all seats and all queues have ended, or until the
/// flag is raised by which all leave off.
pub fn work_and_serve<S: Seat, K: Crew<S>, C: Clock, G: Gate, Rt: Wait + Copy>(
    rt: Rt,
    shared: &Shared<'_, '_, S, C, G>,
    seats: Vec<S>,
    served: Served<S, K>,
) -> (Report<S>, Served<S, K>)
    requires from { (seat : S) → K.has seat → S.sits shared.now.script.now shared.now.hall.now seat }
    requires to { (seat : S) → S.sits shared.now.script.now shared.now.hall.now seat → K.has seat }
    requires sits { All (S.sits shared.now.script.now shared.now.hall.now) seats.items }
    ensures seats { All (S.sits shared.now.script.now shared.now.hall.now) result.0.seats.items }
    ensures all { length result.0.seats.items ≡ length seats.items }
    ensures ended { result.0.ended ≡ true → All S.is_over result.0.seats.items }
    ensures hand { Follows served.hand result.1.hand (numbers_of S.acts served.kept.items) (numbers_of S.acts result.1.kept.items) }
{
    let mut seats = seats;
    let Served { mut hand, mut kept } = served;
    let backoff = Backoff::new();
    for _ in rt.forever() {
        if shared.stop.load(SeqCst) || have_ended(seats.as_slice()) && is_served(shared) {
            break;
        }
        let moved = round_or_stop(rt, shared, &mut seats);
        if serve_next(rt, shared, &mut hand, &mut kept) || moved {
            backoff.reset();
        } else {
            backoff.snooze();
        }
    }
    let ended = have_ended(seats.as_slice());
    (Report { seats, ended }, Served { hand, kept })
}

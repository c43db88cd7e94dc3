// A thread that serves queues: it takes dispatchers of its hand's deque, or of another's, and gives them turns.
ghost use Rattle.std.specs.Prelude.{◌≡◌, ◌≢◌, ◌<◌, ◌≤◌, ℕ, [], ◌∷◌, ◌++◌, length, map, vec_len, vec_capacity, option_to_list};
ghost use Rattle.mama_work.specs.Dispatcher.{queue_number};
ghost use Rattle.mama_work.specs.Serving.{Follows, numbers_of};

use crate::dispatcher::{Crew, Dispatcher};
use crate::seat::Seat;
use crate::worker::Shared;
use crossbeam_utils::Backoff;
use mama_edge::{Clock, Gate};
use mama_pool::{Hand, Numbered};
use std::sync::Wait;
use std::sync::atomic::Ordering::SeqCst;
use std::sync::atomic::{AtomicBool, AtomicUsize};

/// The hand of a thread that left off, and the dispatchers that it keeps: those that have ended, and at want of memory what it
/// had in its hand.
#[derive(Drop)]
pub struct Served<S: Seat, K: Crew<S>> {
    pub hand: Hand<Dispatcher<S, K>>,
    pub kept: Vec<Dispatcher<S, K>>,
}

// Takes an item of the first deque among those of these hands that has one, and counts that.
fn steal<D: Numbered, Rt: Wait + Copy>(
    rt: Rt,
    stolen: &AtomicUsize,
    hand: &mut Hand<D>,
    first: u32,
    end: u32,
) -> Option<D>
    requires end { end ≤ length hand.old.shares }
    requires others { (from : ℕ) → first ≤ from → from < end → from ≢ hand.old.number }
    ensures { Follows hand.old hand.new [] (map D.numbered (option_to_list result)) }
{
    for from in first..end {
        if let Some(item) = hand.steal(rt, from) {
            stolen.fetch_add(1, SeqCst);
            return Some(item);
        }
    }
    None
}

// Takes an item of the own deque, or else of those of the hands with the next numbers, in order.
fn next<D: Numbered, Rt: Wait + Copy>(rt: Rt, stolen: &AtomicUsize, hand: &mut Hand<D>) -> Option<D>
    ensures { Follows hand.old hand.new [] (map D.numbered (option_to_list result)) }
{
    let own = hand.number();
    let all = hand.hands();
    if let Some(item) = hand.pop(rt) {
        return Some(item);
    }
    if let Some(item) = steal(rt, stolen, hand, own + 1, all) {
        return Some(item);
    }
    steal(rt, stolen, hand, 0, own)
}

// Gives a dispatcher turns. Where one finds no memory it raises the flag by which all leave off.
fn turn<S: Seat, K: Crew<S>, C: Clock, G: Gate, Rt: Wait + Copy>(
    rt: Rt,
    shared: &Shared<'_, '_, S, C, G>,
    item: &mut Dispatcher<S, K>,
) -> bool
    requires from { (seat : S) → K.has seat → S.sits shared.now.script.now shared.now.hall.now seat }
    requires to { (seat : S) → S.sits shared.now.script.now shared.now.hall.now seat → K.has seat }
    ensures { S.acts item.new ≡ S.acts item.old }
{
    match item.turns(rt, shared) {
        Ok(moved) => moved,
        Err(_) => {
            shared.stop.store(true, SeqCst);
            false
        }
    }
}

// Gives a dispatcher turns and pushes it back; one that has ended is kept, and counted. Where it cannot be pushed it is given
// turns again; it is kept where all leave off. The answer says whether it made a step.
fn serve<S: Seat, K: Crew<S>, C: Clock, G: Gate, Rt: Wait + Copy>(
    rt: Rt,
    shared: &Shared<'_, '_, S, C, G>,
    hand: &mut Hand<Dispatcher<S, K>>,
    kept: &mut Vec<Dispatcher<S, K>>,
    item: Dispatcher<S, K>,
) -> bool
    requires from { (seat : S) → K.has seat → S.sits shared.now.script.now shared.now.hall.now seat }
    requires to { (seat : S) → S.sits shared.now.script.now shared.now.hall.now seat → K.has seat }
    requires room { vec_len kept.old < vec_capacity kept.old }
    ensures { Follows hand.old hand.new (numbers_of S.acts kept.old.items ++ queue_number (S.acts item) ∷ []) (numbers_of S.acts kept.new.items) }
{
    let mut item = item;
    let mut moved = false;
    for _ in rt.forever() {
        moved = turn(rt, shared, &mut item) || moved;
        let has_ended = item.ended();
        if has_ended {
            shared.finished.fetch_add(1, SeqCst);
        }
        if has_ended || shared.stop.load(SeqCst) {
            kept.push_reserved(item);
            return moved;
        }
        match hand.push(rt, item) {
            Ok(()) => return moved,
            Err(back) => item = back,
        }
    }
    unreachable!()
}

/// Takes a dispatcher and serves it, if there is one. The answer says whether it made a step. Where no memory is found to keep one
/// it raises the flag by which all leave off.
pub fn serve_next<S: Seat, K: Crew<S>, C: Clock, G: Gate, Rt: Wait + Copy>(
    rt: Rt,
    shared: &Shared<'_, '_, S, C, G>,
    hand: &mut Hand<Dispatcher<S, K>>,
    kept: &mut Vec<Dispatcher<S, K>>,
) -> bool
    requires from { (seat : S) → K.has seat → S.sits shared.now.script.now shared.now.hall.now seat }
    requires to { (seat : S) → S.sits shared.now.script.now shared.now.hall.now seat → K.has seat }
    ensures { Follows hand.old hand.new (numbers_of S.acts kept.old.items) (numbers_of S.acts kept.new.items) }
{
    if kept.reserve(1).is_err() {
        shared.stop.store(true, SeqCst);
        return false;
    }
    match next(rt, shared.stolen, hand) {
        Some(item) => serve(rt, shared, hand, kept, item),
        None => false,
    }
}

/// Whether all queues have ended.
pub fn is_served<S: Seat, C: Clock, G: Gate>(shared: &Shared<'_, '_, S, C, G>) -> bool {
    shared.finished.load(SeqCst) >= shared.queues
}

/// Serves until all queues have ended, or until the flag is raised by which all leave off.
pub fn serve_all<S: Seat, K: Crew<S>, C: Clock, G: Gate, Rt: Wait + Copy>(
    rt: Rt,
    shared: &Shared<'_, '_, S, C, G>,
    hand: Hand<Dispatcher<S, K>>,
) -> Served<S, K>
    requires from { (seat : S) → K.has seat → S.sits shared.now.script.now shared.now.hall.now seat }
    requires to { (seat : S) → S.sits shared.now.script.now shared.now.hall.now seat → K.has seat }
    ensures { Follows hand result.hand [] (numbers_of S.acts result.kept.items) }
{
    let mut hand = hand;
    let mut kept = Vec::new(shared.alloc);
    let backoff = Backoff::new();
    for _ in rt.forever() {
        if is_served(shared) || shared.stop.load(SeqCst) {
            break;
        }
        if serve_next(rt, shared, &mut hand, &mut kept) {
            backoff.reset();
        } else {
            backoff.snooze();
        }
    }
    Served { hand, kept }
}

/// The same; but where the thread's own flag stands the hand comes back as it is.
pub fn serve_or_hold<S: Seat, K: Crew<S>, C: Clock, G: Gate, Rt: Wait + Copy>(
    rt: Rt,
    shared: &Shared<'_, '_, S, C, G>,
    held: &AtomicBool,
    hand: Hand<Dispatcher<S, K>>,
) -> Served<S, K>
    requires from { (seat : S) → K.has seat → S.sits shared.now.script.now shared.now.hall.now seat }
    requires to { (seat : S) → S.sits shared.now.script.now shared.now.hall.now seat → K.has seat }
    ensures { Follows hand result.hand [] (numbers_of S.acts result.kept.items) }
{
    if held.load(SeqCst) {
        let kept = Vec::new(shared.alloc);
        return Served { hand, kept };
    }
    serve_all(rt, shared, hand)
}

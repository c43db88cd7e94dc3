// The hands of a crew's queues: dispatchers are dealt out among them, threads serve by them, and at the end all is taken back.
ghost use Rattle.std.specs.Prelude.{◌≡◌, ◌+◌, ◌++◌, ◌≤◌, [], ◌∷◌, true, false, ℕ, length, map, vec_len, vec_capacity, IfOk, IfErr, OnOk};
ghost use Rattle.std.specs.List.{All};
ghost use Rattle.std.specs.VecDeque.{deque_len, deque_capacity};
ghost use Rattle.mama_pool.specs.Values.{IsPool, KnowsEmpty, SamePlaces, total, taken_weight};
ghost use Rattle.mama_work.specs.Serving.{Follows, AllFollow, AllKeep, ArePlaced, numbers_of};

use crate::beside::work_and_serve;
use crate::dispatcher::{Crew, Dispatcher, number_of};
use crate::seat::Seat;
use crate::serving::{Served, serve_or_hold};
use crate::worker::{Report, Shared, hold_both, work};
use mama_edge::{Clock, Gate};
use mama_memory::OutOfMemory;
use mama_pool::{Hand, Numbered, all_was_taken, close_pool};
use std::collections::VecDeque;
use std::snapshot::Snapshot;
use std::sync::Wait;
use std::sync::atomic::AtomicBool;
use std::sync::atomic::Ordering::SeqCst;
use std::thread::{Promise, PromisedHandle, Scope, Threads};

/// What a thread that serves promises: nothing was lost or made by its hand.
#[derive(Drop)]
pub struct HandKept<S: Seat, K: Crew<S>> {
    pub start: Snapshot<Hand<Dispatcher<S, K>>>,
}

impl<S: Seat, K: Crew<S>> Promise<Served<S, K>> for HandKept<S, K> {
    ghost kept_by = { λ p r. Follows p.start.value r.hand [] (numbers_of S.acts r.kept.items) };
}

/// A thread that serves by a hand.
pub type Server<S, K> = PromisedHandle<Served<S, K>, HandKept<S, K>>;

// Pushes a seat to the deque of one of the hands.
fn deal<S: Seat, K: Crew<S>, Rt: Wait + Copy>(
    rt: Rt,
    hands: &mut Vec<Hand<Dispatcher<S, K>>>,
    at: usize,
    seat: S,
) -> Result<(), OutOfMemory>
    requires { K.has seat }
    ensures { OnOk result (AllFollow hands.old.items hands.new.items (numbers_of S.acts (seat ∷ [])) []) }
{
    if at >= hands.len() {
        return Err(OutOfMemory);
    }
    match hands[at].push(rt, Dispatcher::new(seat)) {
        Ok(()) => Ok(()),
        Err(_) => Err(OutOfMemory),
    }
}

/// Pushes the seats of queues to the deques of these hands, each to that of its number modulo theirs. The error is want of memory.
pub fn deal_out<S: Seat, K: Crew<S>, Rt: Wait + Copy>(
    rt: Rt,
    hands: Vec<Hand<Dispatcher<S, K>>>,
    queues: Vec<S>,
) -> Result<Vec<Hand<Dispatcher<S, K>>>, OutOfMemory>
    requires { All K.has queues.items }
    ensures { IfOk result (λ dealt. AllFollow hands.items dealt.items (numbers_of S.acts queues.items) []) }
{
    let mut hands = hands;
    for seat in queues {
        let number = number_of(seat.actor()) as usize;
        let at = number.checked_rem(hands.len()).unwrap_or(0);
        deal(rt, &mut hands, at, seat)?;
    }
    Ok(hands)
}

// Starts a thread that serves by this hand. Where none can be made the hand comes back.
fn start<
    's,
    'c: 's,
    E,
    S: Seat + Send + 's,
    K: Crew<S> + Send + Sync + 's,
    C: Clock + Send + 'c,
    G: Gate + Sync,
    Rt: Threads + Wait + Copy + Sync,
>(
    scope: &Scope<'s, E>,
    rt: &'s Rt,
    shared: &'s Shared<'s, 'c, S, C, G>,
    held: &'s AtomicBool,
    hand: Hand<Dispatcher<S, K>>,
) -> Result<Server<S, K>, Served<S, K>>
where
    S::Script: Sync,
    S::Hall: Sync,
    requires from { (seat : S) → K.has seat → S.sits shared.now.script.now shared.now.hall.now seat }
    requires to { (seat : S) → S.sits shared.now.script.now shared.now.hall.now seat → K.has seat }
    ensures started { IfOk result (λ h. h.promise.start.value ≡ hand) }
    ensures refused { IfErr result (λ r. Follows hand r.hand [] (numbers_of S.acts r.kept.items)) }
{
    let promise = HandKept {
        start: Snapshot::of(&hand),
    };
    let job = move || -> Served<S, K>
        requires from { (seat : S) → K.has seat → S.sits shared.now.script.now shared.now.hall.now seat }
        requires to { (seat : S) → S.sits shared.now.script.now shared.now.hall.now seat → K.has seat }
        ensures { Follows hand result.hand [] (numbers_of S.acts result.kept.items) }
    { serve_or_hold(*rt, shared, held, hand) };
    match scope.spawn_with(promise, job) {
        Ok(child) => Ok(child),
        Err(refused) => {
            held.store(true, SeqCst);
            Err((refused.value)())
        }
    }
}

/// The threads that serve by the first of the hands; the hands whose threads were not started, since one could not be; and the
/// dispatchers that are kept.
#[derive(Drop)]
pub struct Serving<S: Seat + Send, K: Crew<S> + Send> {
    pub servers: Vec<Server<S, K>>,
    pub hands: VecDeque<Hand<Dispatcher<S, K>>>,
    pub kept: Vec<Dispatcher<S, K>>,
}

/// Starts a thread for each of the hands, until one cannot be started. There is a flag for each, and room.
pub fn start_serving<
    's,
    'c: 's,
    E,
    S: Seat + Send + 's,
    K: Crew<S> + Send + Sync + 's,
    C: Clock + Send + 'c,
    G: Gate + Sync,
    Rt: Threads + Wait + Copy + Sync,
>(
    scope: &Scope<'s, E>,
    rt: &'s Rt,
    shared: &'s Shared<'s, 'c, S, C, G>,
    flags: &'s [AtomicBool],
    hands: Vec<Hand<Dispatcher<S, K>>>,
    room: Vec<Server<S, K>>,
) -> Serving<S, K>
where
    S::Script: Sync,
    S::Hall: Sync,
    requires from { (seat : S) → K.has seat → S.sits shared.now.script.now shared.now.hall.now seat }
    requires to { (seat : S) → S.sits shared.now.script.now shared.now.hall.now seat → K.has seat }
    requires room { (room.items ≡ []) × (vec_len hands ≤ vec_capacity room) }
    ensures room { vec_len result.servers + deque_len result.hands ≤ deque_capacity result.hands }
    ensures hands { AllFollow hands.items (map (λ s. s.promise.start.value) result.servers.items ++ result.hands.items) [] (numbers_of S.acts result.kept.items) }
{
    let mut servers = room;
    let mut hands = VecDeque::from_vec(hands);
    for held in flags.iter() {
        let Some(hand) = hands.pop_front() else {
            break;
        };
        match start(scope, rt, shared, held, hand) {
            Ok(server) => servers.push_reserved(server),
            Err(Served { hand, kept }) => {
                hands.push_front_reserved(hand);
                return Serving {
                    servers,
                    hands,
                    kept,
                };
            }
        }
    }
    let kept = Vec::new(shared.alloc);
    Serving {
        servers,
        hands,
        kept,
    }
}

/// Turns the seats; where threads of some hands were not started, serves by the first of these beside them.
pub fn turn_own<S: Seat + Send, K: Crew<S> + Send, C: Clock, G: Gate, Rt: Wait + Copy>(
    rt: Rt,
    shared: &Shared<'_, '_, S, C, G>,
    seats: Vec<S>,
    serving: Serving<S, K>,
) -> (Report<S>, Serving<S, K>)
    requires from { (seat : S) → K.has seat → S.sits shared.now.script.now shared.now.hall.now seat }
    requires to { (seat : S) → S.sits shared.now.script.now shared.now.hall.now seat → K.has seat }
    requires sits { All (S.sits shared.now.script.now shared.now.hall.now) seats.items }
    requires room { vec_len serving.servers + deque_len serving.hands ≤ deque_capacity serving.hands }
    ensures seats { All (S.sits shared.now.script.now shared.now.hall.now) result.0.seats.items }
    ensures all { length result.0.seats.items ≡ length seats.items }
    ensures ended { result.0.ended ≡ true → All S.is_over result.0.seats.items }
    ensures room { vec_len result.1.servers + deque_len result.1.hands ≤ deque_capacity result.1.hands }
    ensures servers { result.1.servers.items ≡ serving.servers.items }
    ensures hands { AllFollow serving.hands.items result.1.hands.items (numbers_of S.acts serving.kept.items) (numbers_of S.acts result.1.kept.items) }
{
    let Serving {
        servers,
        mut hands,
        kept,
    } = serving;
    let Some(hand) = hands.pop_front() else {
        let report = work(rt, shared, seats);
        return (
            report,
            Serving {
                servers,
                hands,
                kept,
            },
        );
    };
    let (report, Served { hand, kept }) = work_and_serve(rt, shared, seats, Served { hand, kept });
    hands.push_front_reserved(hand);
    (
        report,
        Serving {
            servers,
            hands,
            kept,
        },
    )
}

/// The hands that are back, in the order of their numbers, and the dispatchers that were kept. It is whole where none of these
/// was lost; one is only where no memory was found.
#[derive(Drop)]
pub struct Back<S: Seat, K: Crew<S>> {
    pub hands: Vec<Hand<Dispatcher<S, K>>>,
    pub kept: Vec<Dispatcher<S, K>>,
    pub is_whole: bool,
}

// Waits for a thread, and adds what it kept. The answer says whether there was memory for that.
fn join<S: Seat + Send, K: Crew<S> + Send, Rt: Threads>(
    rt: &Rt,
    server: Server<S, K>,
    kept: &mut Vec<Dispatcher<S, K>>,
) -> (Hand<Dispatcher<S, K>>, bool)
    ensures place { SamePlaces server.promise.start.value result.0 }
    ensures hand { result.1 ≡ true → Follows server.promise.start.value result.0 (numbers_of S.acts kept.old.items) (numbers_of S.acts kept.new.items) }
{
    let Served {
        hand,
        kept: mut more,
    } = server.join(rt);
    let is_there = kept.append(&mut more).is_ok();
    (hand, is_there)
}

/// Waits for all threads that serve.
pub fn join_serving<S: Seat + Send, K: Crew<S> + Send, Rt: Threads>(
    rt: &Rt,
    serving: Serving<S, K>,
) -> Back<S, K>
    requires room { vec_len serving.servers + deque_len serving.hands ≤ deque_capacity serving.hands }
    ensures places { ArePlaced (map (λ s. s.promise.start.value) serving.servers.items ++ serving.hands.items) result.hands.items }
    ensures hands { result.is_whole ≡ true → AllKeep (map (λ s. s.promise.start.value) serving.servers.items ++ serving.hands.items) result.hands.items (numbers_of S.acts serving.kept.items) (numbers_of S.acts result.kept.items) }
{
    let Serving {
        mut servers,
        mut hands,
        mut kept,
    } = serving;
    let mut is_whole = true;
    while let Some(server) = servers.pop() {
        let (hand, is_there) = join(rt, server, &mut kept);
        hands.push_front_reserved(hand);
        is_whole = hold_both(is_whole, is_there);
    }
    Back {
        hands: Vec::from(hands),
        kept,
        is_whole,
    }
}

// Takes what is left in the deque of a hand. The answer says whether there was memory for that.
fn empty<D: Numbered, Rt: Wait + Copy>(rt: Rt, hand: &mut Hand<D>, taken: &mut Vec<D>) -> bool
    ensures hand { Follows hand.old hand.new (map D.numbered taken.old.items) (map D.numbered taken.new.items) }
    ensures all { result ≡ true → KnowsEmpty hand.new }
{
    let _own = hand.number();
    for _ in rt.forever() {
        if taken.reserve(1).is_err() {
            return false;
        }
        match hand.pop(rt) {
            Some(item) => taken.push_reserved(item),
            None => return true,
        }
    }
    unreachable!()
}

// Takes what is left in the deques of all hands. The answer says whether there was memory for that.
fn empty_all<D: Numbered, Rt: Wait + Copy>(
    rt: Rt,
    hands: &mut Vec<Hand<D>>,
    taken: &mut Vec<D>,
) -> bool
    ensures hands { AllFollow hands.old.items hands.new.items (map D.numbered taken.old.items) (map D.numbered taken.new.items) }
    ensures all { result ≡ true → All KnowsEmpty hands.new.items }
{
    for i in 0..hands.len() {
        if !empty(rt, &mut hands[i], taken) {
            return false;
        }
    }
    true
}

// The seats of these dispatchers. The error is want of memory.
fn into_seats<S: Seat, K: Crew<S>, C: Clock, G: Gate>(
    shared: &Shared<'_, '_, S, C, G>,
    dispatchers: Vec<Dispatcher<S, K>>,
) -> Result<Vec<S>, OutOfMemory>
    requires { (seat : S) → K.has seat → S.sits shared.now.script.now shared.now.hall.now seat }
    ensures sits { IfOk result (λ seats. All (S.sits shared.now.script.now shared.now.hall.now) seats.items) }
    ensures all { IfOk result (λ seats. seats.items ≡ dispatchers.items) }
{
    let mut seats = Vec::new(shared.alloc);
    for dispatcher in dispatchers {
        seats.push(dispatcher.into_seat())?;
    }
    Ok(seats)
}

/// Takes what is left in the deques, closes the pool, and turns what has not ended to its end, unless the flag was raised. The
/// seats of all queues come back; where not all have ended some may be lost, since no memory was found.
pub fn finish<S: Seat, K: Crew<S>, C: Clock, G: Gate, Rt: Wait + Copy>(
    rt: Rt,
    shared: &Shared<'_, '_, S, C, G>,
    hands: Vec<Hand<Dispatcher<S, K>>>,
    kept: Vec<Dispatcher<S, K>>,
) -> Report<S>
    requires from { (seat : S) → K.has seat → S.sits shared.now.script.now shared.now.hall.now seat }
    requires pool { IsPool hands.items }
    ensures seats { All (S.sits shared.now.script.now shared.now.hall.now) result.seats.items }
    ensures ended { result.ended ≡ true → All S.is_over result.seats.items }
    ensures all { result.ended ≡ true → (weight : ℕ → ℕ) → total weight (numbers_of S.acts result.seats.items) + total (taken_weight weight) hands.items ≡ total (λ h. total weight h.pushed) hands.items + total weight (numbers_of S.acts kept.items) }
{
    let mut hands = hands;
    let mut kept = kept;
    let are_empty = empty_all(rt, &mut hands, &mut kept);
    all_was_taken();
    close_pool(rt, hands);
    let Ok(seats) = into_seats(shared, kept) else {
        return Report {
            seats: Vec::new(shared.alloc),
            ended: false,
        };
    };
    let Report { seats, ended } = work(rt, shared, seats);
    let ended = hold_both(ended, are_empty);
    Report { seats, ended }
}

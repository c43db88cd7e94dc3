ghost use Rattle.std.specs.Prelude.{◌≡◌, ◌+◌, ◌<◌, ◌≤◌, [], true, false, ℕ, length, map, vec_len, vec_capacity, IfOk, sum_by};
ghost use Rattle.std.specs.List.{All};
ghost use Rattle.mama_pool.specs.Values.{IsPool, total};
ghost use Rattle.mama_work.specs.Serving.{AllKeep, ArePlaced, AreBack, numbers_of};

use crate::dispatcher::{Crew, Dispatcher};
use crate::groups::{Started, join_all, start_all};
use crate::hands::{Back, Server, deal_out, finish, join_serving, start_serving, turn_own};
use crate::seat::Seat;
use crate::worker::{Report, Shared, hold_both};
use crossbeam_utils::CachePadded;
use mama_edge::{Clock, Gate};
use mama_memory::OutOfMemory;
use mama_pool::{Hand, open_pool};
use std::alloc::Global;
use std::marker::Brand;
use std::sync::atomic::Ordering::SeqCst;
use std::sync::atomic::{AtomicBool, AtomicUsize};
use std::sync::{Mutex, Wait};
use std::thread;
use std::thread::{Scope, Threads};

/// The seats after all threads left off, those of queues apart, and whether they did since all of them have ended. Beside that
/// it is told how often a thread took a queue of another's.
#[derive(Drop)]
pub struct Turned<S: Seat> {
    pub seats: Vec<S>,
    pub queues: Vec<S>,
    pub ended: bool,
    pub stolen: usize,
}

// What there is to turn: groups of seats, and the hands among which the seats of queues were dealt out, with room for the threads
// that serve by them.
#[derive(Drop)]
struct Work<S: Seat + Send, K: Crew<S> + Send> {
    groups: Vec<Vec<S>>,
    hands: Vec<Hand<Dispatcher<S, K>>>,
    room: Vec<Server<S, K>>,
}

// Flags for the threads of the groups and of the hands.
#[derive(Drop)]
struct Flags {
    groups: Vec<AtomicBool>,
    hands: Vec<AtomicBool>,
}

// Starts the threads, turns what is left to this one, and waits for all.
fn turn_all<
    's,
    'c: 's,
    E,
    S: Seat + Send + 's,
    K: Crew<S> + Send + Sync + 's,
    C: Clock + Send + 'c,
    G: Gate + Sync,
    Rt: Threads + Wait + Copy + Sync,
>(
    scope: &Scope<'s, E>,
    rt: &'s Rt,
    shared: &'s Shared<'s, 'c, S, C, G>,
    flags: &'s Flags,
    work: Work<S, K>,
) -> (Report<S>, Back<S, K>)
where
    S::Script: Sync,
    S::Hall: Sync,
    requires from { (seat : S) → K.has seat → S.sits shared.now.script.now shared.now.hall.now seat }
    requires to { (seat : S) → S.sits shared.now.script.now shared.now.hall.now seat → K.has seat }
    requires groups { All (λ group. All (S.sits shared.now.script.now shared.now.hall.now) group.items) work.groups.items }
    requires room { (work.room.items ≡ []) × (vec_len work.hands ≤ vec_capacity work.room) }
    ensures seats { All (S.sits shared.now.script.now shared.now.hall.now) result.0.seats.items }
    ensures ended { result.0.ended ≡ true → All S.is_over result.0.seats.items }
    ensures all { result.0.ended ≡ true → length result.0.seats.items ≡ sum_by (λ group. length group.items) work.groups.items }
    ensures places { ArePlaced work.hands.items result.1.hands.items }
    ensures hands { result.1.is_whole ≡ true → AllKeep work.hands.items result.1.hands.items [] (numbers_of S.acts result.1.kept.items) }
{
    let Work {
        groups,
        hands,
        room,
    } = work;
    let Started {
        children,
        left,
        short,
    } = start_all(scope, rt, shared, flags.groups.as_slice(), groups);
    if short {
        shared.stop.store(true, SeqCst);
    }
    let serving = start_serving(scope, rt, shared, flags.hands.as_slice(), hands, room);
    let (own, serving) = turn_own(*rt, shared, left, serving);
    let Report { seats, ended } = join_all(rt, shared.script, shared.hall, children, own);
    let back = join_serving(rt, serving);
    let report = Report {
        seats,
        ended: ended && !short,
    };
    (report, back)
}

// Turns all, with what the threads share.
fn turn_with<
    'a,
    'c: 'a,
    S: Seat + Send,
    K: Crew<S> + Send + Sync,
    C: Clock + Send,
    G: Gate + Sync,
    Rt: Threads + Wait + Copy + Sync,
>(rt: &'a Rt, shared: &'a Shared<'a, 'c, S, C, G>, flags: &'a Flags, work: Work<S, K>) -> Turned<S>
where
    S::Script: Sync,
    S::Hall: Sync,
    requires from { (seat : S) → K.has seat → S.sits shared.now.script.now shared.now.hall.now seat }
    requires to { (seat : S) → S.sits shared.now.script.now shared.now.hall.now seat → K.has seat }
    requires groups { All (λ group. All (S.sits shared.now.script.now shared.now.hall.now) group.items) work.groups.items }
    requires room { (work.room.items ≡ []) × (vec_len work.hands ≤ vec_capacity work.room) }
    requires pool { IsPool work.hands.items }
    ensures seats { All (S.sits shared.now.script.now shared.now.hall.now) result.seats.items }
    ensures queues { All (S.sits shared.now.script.now shared.now.hall.now) result.queues.items }
    ensures ended { result.ended ≡ true → All S.is_over result.seats.items × All S.is_over result.queues.items }
    ensures all { result.ended ≡ true → length result.seats.items ≡ sum_by (λ group. length group.items) work.groups.items }
    ensures each { result.ended ≡ true → AreBack work.hands.items (numbers_of S.acts result.queues.items) }
{
    let (report, back) = thread::scope(
        thread::scope_env(),
        rt,
        move |scope| -> (Report<S>, Back<S, K>)
            requires from { (seat : S) → K.has seat → S.sits shared.now.script.now shared.now.hall.now seat }
            requires to { (seat : S) → S.sits shared.now.script.now shared.now.hall.now seat → K.has seat }
            requires groups { All (λ group. All (S.sits shared.now.script.now shared.now.hall.now) group.items) work.groups.items }
            requires room { (work.room.items ≡ []) × (vec_len work.hands ≤ vec_capacity work.room) }
            ensures seats { All (S.sits shared.entry.now.script.now shared.entry.now.hall.now) result.0.seats.items }
            ensures ended { result.0.ended ≡ true → All S.is_over result.0.seats.items }
            ensures all { result.0.ended ≡ true → length result.0.seats.items ≡ sum_by (λ group. length group.items) work.groups.items }
            ensures places { ArePlaced work.hands.items result.1.hands.items }
            ensures hands { result.1.is_whole ≡ true → AllKeep work.hands.items result.1.hands.items [] (numbers_of S.acts result.1.kept.items) }
        { turn_all(scope, rt, shared, flags, work) },
    );
    let Report { seats, ended } = report;
    let Back {
        hands,
        kept,
        is_whole,
    } = back;
    let Report {
        seats: queues,
        ended: are_served,
    } = finish(*rt, shared, hands, kept);
    let ended = hold_both(hold_both(ended, are_served), is_whole);
    Turned {
        seats,
        queues,
        ended,
        stolen: shared.stolen.load(SeqCst),
    }
}

// Flags that are down, so many.
fn flags_for(alloc: Global, number: usize) -> Result<Vec<AtomicBool>, OutOfMemory> {
    let mut flags = Vec::with_capacity(alloc, number)?;
    for _ in 0..number {
        flags.push(AtomicBool::new(false))?;
    }
    Ok(flags)
}

// What the threads of a crew share and cannot tell from its seats.
#[derive(Drop)]
struct Counters {
    stop: CachePadded<AtomicBool>,
    finished: CachePadded<AtomicUsize>,
    stolen: CachePadded<AtomicUsize>,
    queues: usize,
}

// Turns all, with what the threads share.
fn turn_under<
    'a,
    'c: 'a,
    S: Seat + Send,
    K: Crew<S> + Send + Sync,
    C: Clock + Send,
    G: Gate + Sync,
    Rt: Threads + Wait + Copy + Sync,
>(
    rt: &'a Rt,
    alloc: Global,
    script: &'a S::Script,
    hall: &'a S::Hall,
    clock: &'a Mutex<&'c mut C>,
    gate: &'a G,
    counters: &'a Counters,
    flags: &'a Flags,
    work: Work<S, K>,
) -> Turned<S>
where
    S::Script: Sync,
    S::Hall: Sync,
    requires from { (seat : S) → K.has seat → S.sits script.now hall.now seat }
    requires to { (seat : S) → S.sits script.now hall.now seat → K.has seat }
    requires groups { All (λ group. All (S.sits script.now hall.now) group.items) work.groups.items }
    requires room { (work.room.items ≡ []) × (vec_len work.hands ≤ vec_capacity work.room) }
    requires pool { IsPool work.hands.items }
    ensures seats { All (S.sits script.now hall.now) result.seats.items }
    ensures queues { All (S.sits script.now hall.now) result.queues.items }
    ensures ended { result.ended ≡ true → All S.is_over result.seats.items × All S.is_over result.queues.items }
    ensures all { result.ended ≡ true → length result.seats.items ≡ sum_by (λ group. length group.items) work.groups.items }
    ensures each { result.ended ≡ true → AreBack work.hands.items (numbers_of S.acts result.queues.items) }
{
    let shared = Shared {
        script,
        hall,
        clock,
        gate,
        stop: &counters.stop,
        finished: &counters.finished,
        stolen: &counters.stolen,
        queues: counters.queues,
        alloc,
    };
    turn_with(rt, &shared, flags, work)
}

// The same, for a crew of which a type tells which seats it has.
fn turn_crew<
    S: Seat + Send,
    K: Crew<S> + Send + Sync,
    C: Clock + Send,
    G: Gate + Sync,
    Rt: Threads + Wait + Copy + Sync,
>(
    rt: &Rt,
    alloc: Global,
    script: &S::Script,
    hall: &S::Hall,
    clock: &mut C,
    gate: &G,
    workers: u32,
    groups: Vec<Vec<S>>,
    queues: Vec<S>,
) -> Result<Turned<S>, OutOfMemory>
where
    S::Script: Sync,
    S::Hall: Sync,
    requires from { (seat : S) → K.has seat → S.sits script.now hall.now seat }
    requires to { (seat : S) → S.sits script.now hall.now seat → K.has seat }
    requires workers { (0 < workers) × (workers ≤ 64) }
    requires groups { All (λ group. All (S.sits script.now hall.now) group.items) groups.items }
    requires queues { All K.has queues.items }
    ensures seats { IfOk result (λ turned. All (S.sits script.now hall.now) turned.seats.items) }
    ensures queues { IfOk result (λ turned. All (S.sits script.now hall.now) turned.queues.items) }
    ensures ended { IfOk result (λ turned. turned.ended ≡ true → All S.is_over turned.seats.items × All S.is_over turned.queues.items) }
    ensures all { IfOk result (λ turned. turned.ended ≡ true → length turned.seats.items ≡ sum_by (λ group. length group.items) groups.items) }
    ensures each { IfOk result (λ turned. turned.ended ≡ true → (weight : ℕ → ℕ) → total weight (numbers_of S.acts turned.queues.items) ≡ total weight (numbers_of S.acts queues.items)) }
{
    let flags = Flags {
        groups: flags_for(alloc, groups.len())?,
        hands: flags_for(alloc, workers as usize)?,
    };
    let counters = Counters {
        stop: CachePadded::new(AtomicBool::new(false)),
        finished: CachePadded::new(AtomicUsize::new(0)),
        stolen: CachePadded::new(AtomicUsize::new(0)),
        queues: queues.len(),
    };
    let room = Vec::with_capacity(alloc, workers as usize)?;
    let new = open_pool::<Dispatcher<S, K>, Rt>(*rt, alloc, workers)?;
    let hands = deal_out(*rt, new, queues)?;
    let work = Work {
        groups,
        hands,
        room,
    };
    let clock = Mutex::new(&mut *clock);
    Ok(turn_under(
        rt, alloc, script, hall, &clock, gate, &counters, &flags, work,
    ))
}

/// Turns seats in threads until all have ended, or until one finds no memory. The seats of each group have a thread of their own.
/// The seats of queues move among as many threads as there are workers, 1 to 64: each begins with those of the queues of its
/// number modulo the workers, gives one after another up to 64 turns, and where it has none takes one of another thread's. What
/// the threads leave is turned to its end by the calling thread, and so are seats whose thread could not be started. Each turn of
/// a seat begins with a call of the gate, and a seat that reads the clock is handed the clock's next moment.
///
/// The error is want of memory before any seat was turned. It starts a thread for each group and each worker.
pub fn turn_groups<
    S: Seat + Send,
    C: Clock + Send,
    G: Gate + Sync,
    Rt: Threads + Wait + Copy + Sync,
>(
    rt: &Rt,
    alloc: Global,
    script: &S::Script,
    hall: &S::Hall,
    clock: &mut C,
    gate: &G,
    workers: u32,
    groups: Vec<Vec<S>>,
    queues: Vec<S>,
) -> Result<Turned<S>, OutOfMemory>
where
    S::Script: Sync,
    S::Hall: Sync,
    requires workers { (0 < workers) × (workers ≤ 64) }
    requires groups { All (λ group. All (S.sits script.now hall.now) group.items) groups.items }
    requires queues { All (S.sits script.now hall.now) queues.items }
    ensures seats { IfOk result (λ turned. All (S.sits script.now hall.now) turned.seats.items) }
    ensures queues { IfOk result (λ turned. All (S.sits script.now hall.now) turned.queues.items) }
    ensures ended { IfOk result (λ turned. turned.ended ≡ true → All S.is_over turned.seats.items × All S.is_over turned.queues.items) }
    ensures all { IfOk result (λ turned. turned.ended ≡ true → length turned.seats.items ≡ sum_by (λ group. length group.items) groups.items) }
    // Each queue comes back as often as it was given: weigh its number 1, and others 0.
    ensures each { IfOk result (λ turned. turned.ended ≡ true → (weight : ℕ → ℕ) → total weight (numbers_of S.acts turned.queues.items) ≡ total weight (numbers_of S.acts queues.items)) }
{
    turn_crew::<S, Brand, C, G, Rt>(
        rt, alloc, script, hall, clock, gate, workers, groups, queues,
    )
}

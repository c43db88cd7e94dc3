ghost use Rattle.std.specs.Prelude.{◌≡◌, ◌+◌, true, false, length, IfOk, IfErr, sum_by};
ghost use Rattle.std.specs.List.{All};
ghost use Rattle.mama_work.specs.Kept.{IsOf, seats_of};

use crate::seat::Seat;
use crate::worker::{Report, Shared, work_or_hold};
use mama_edge::{Clock, Gate};
use std::snapshot::Snapshot;
use std::sync::Wait;
use std::sync::atomic::AtomicBool;
use std::sync::atomic::Ordering::SeqCst;
use std::thread::{Promise, PromisedHandle, Scope, Threads};

/// What a thread answers: as many seats as it was given, which are of this script and hall still.
#[derive(Drop)]
pub struct Kept<S: Seat> {
    script: Snapshot<S::Script>,
    hall: Snapshot<S::Hall>,
    number: usize,
}

impl<S: Seat> Promise<Report<S>> for Kept<S> {
    ghost kept_by = { λ p r. All (S.sits p.script.value p.hall.value) r.seats.items × (length r.seats.items ≡ p.number) × (r.ended ≡ true → All S.is_over r.seats.items) };
}

// Starts the thread of a group. Where none can be made the seats come back unturned.
fn start<
    's,
    'c: 's,
    E,
    S: Seat + Send + 's,
    C: Clock + Send + 'c,
    G: Gate + Sync,
    Rt: Threads + Wait + Copy + Sync,
>(
    scope: &Scope<'s, E>,
    rt: &'s Rt,
    shared: &'s Shared<'s, 'c, S, C, G>,
    held: &'s AtomicBool,
    seats: Vec<S>,
) -> Result<PromisedHandle<Report<S>, Kept<S>>, Report<S>>
where
    S::Script: Sync,
    S::Hall: Sync,
    requires { All (S.sits shared.now.script.now shared.now.hall.now) seats.items }
    ensures started { IfOk result (λ h. IsOf shared.now.script.now shared.now.hall.now h.promise × (h.promise.number ≡ length seats.items)) }
    ensures refused { IfErr result (λ r. All (S.sits shared.now.script.now shared.now.hall.now) r.seats.items × (length r.seats.items ≡ length seats.items)) }
{
    let promise = Kept {
        script: Snapshot::of(shared.script),
        hall: Snapshot::of(shared.hall),
        number: seats.len(),
    };
    let job = move || -> Report<S>
        requires { All (S.sits shared.now.script.now shared.now.hall.now) seats.items }
        ensures seats { All (S.sits shared.entry.now.script.now shared.entry.now.hall.now) result.seats.items }
        ensures all { length result.seats.items ≡ length seats.items }
        ensures ended { result.ended ≡ true → All S.is_over result.seats.items }
    { work_or_hold(*rt, shared, held, seats) };
    match scope.spawn_with(promise, job) {
        Ok(child) => Ok(child),
        Err(refused) => {
            held.store(true, SeqCst);
            Err((refused.value)())
        }
    }
}

/// Threads that were started, and the seats of those that could not be. It is short where a thread or a seat was lost, since no
// room for it was found.
#[derive(Drop)]
pub struct Started<S: Seat + Send> {
    pub children: Vec<PromisedHandle<Report<S>, Kept<S>>>,
    pub left: Vec<S>,
    pub short: bool,
}

// The seats of two reports. Those of the second are dropped where there is no room for them; then not all have ended.
fn both<S: Seat>(
    _script: &S::Script,
    _hall: &S::Hall,
    first: Report<S>,
    second: Report<S>,
) -> Report<S>
    requires first { All (S.sits _script.now _hall.now) first.seats.items }
    requires second { All (S.sits _script.now _hall.now) second.seats.items }
    requires first_ended { first.ended ≡ true → All S.is_over first.seats.items }
    requires second_ended { second.ended ≡ true → All S.is_over second.seats.items }
    ensures seats { All (S.sits _script.now _hall.now) result.seats.items }
    ensures ended { result.ended ≡ true → All S.is_over result.seats.items }
    ensures all { result.ended ≡ true → (first.ended ≡ true) × (length result.seats.items ≡ length first.seats.items + length second.seats.items) }
{
    let Report { mut seats, ended } = first;
    let Report {
        seats: mut more,
        ended: other,
    } = second;
    if seats.append(&mut more).is_err() {
        return Report {
            seats,
            ended: false,
        };
    }
    if !ended {
        return Report {
            seats,
            ended: false,
        };
    }
    Report {
        seats,
        ended: other,
    }
}

// Waits for a thread, and adds its seats to those that are back.
fn join<S: Seat + Send, Rt: Threads>(
    rt: &Rt,
    script: &S::Script,
    hall: &S::Hall,
    child: PromisedHandle<Report<S>, Kept<S>>,
    back: Report<S>,
) -> Report<S>
    requires child { IsOf script.now hall.now child.promise }
    requires seats { All (S.sits script.now hall.now) back.seats.items }
    requires ended { back.ended ≡ true → All S.is_over back.seats.items }
    ensures seats { All (S.sits script.now hall.now) result.seats.items }
    ensures ended { result.ended ≡ true → All S.is_over result.seats.items }
    ensures all { result.ended ≡ true → (back.ended ≡ true) × (length result.seats.items ≡ length back.seats.items + child.promise.number) }
{
    let report = child.join(rt);
    both(script, hall, back, report)
}

/// Waits for all threads.
pub fn join_all<S: Seat + Send, Rt: Threads>(
    rt: &Rt,
    script: &S::Script,
    hall: &S::Hall,
    children: Vec<PromisedHandle<Report<S>, Kept<S>>>,
    back: Report<S>,
) -> Report<S>
    requires children { All (λ h. IsOf script.now hall.now h.promise) children.items }
    requires seats { All (S.sits script.now hall.now) back.seats.items }
    requires ended { back.ended ≡ true → All S.is_over back.seats.items }
    ensures seats { All (S.sits script.now hall.now) result.seats.items }
    ensures ended { result.ended ≡ true → All S.is_over result.seats.items }
    ensures all { result.ended ≡ true → (back.ended ≡ true) × (length result.seats.items ≡ length back.seats.items + seats_of children.items) }
{
    let mut back = back;
    for child in children {
        back = join(rt, script, hall, child, back);
    }
    back
}

// Starts the thread of a group beside those that were started. Where none can be made the seats are left to the caller. A
// group without a flag is lost.
fn start_one<
    's,
    'c: 's,
    E,
    S: Seat + Send + 's,
    C: Clock + Send + 'c,
    G: Gate + Sync,
    Rt: Threads + Wait + Copy + Sync,
>(
    scope: &Scope<'s, E>,
    rt: &'s Rt,
    shared: &'s Shared<'s, 'c, S, C, G>,
    held: Option<&'s AtomicBool>,
    seats: Vec<S>,
    started: Started<S>,
) -> Started<S>
where
    S::Script: Sync,
    S::Hall: Sync,
    requires seats { All (S.sits shared.now.script.now shared.now.hall.now) seats.items }
    requires children { All (λ h. IsOf shared.now.script.now shared.now.hall.now h.promise) started.children.items }
    requires left { All (S.sits shared.now.script.now shared.now.hall.now) started.left.items }
    ensures children { All (λ h. IsOf shared.now.script.now shared.now.hall.now h.promise) result.children.items }
    ensures left { All (S.sits shared.now.script.now shared.now.hall.now) result.left.items }
    ensures all { result.short ≡ false → (started.short ≡ false) × (seats_of result.children.items + length result.left.items ≡ seats_of started.children.items + length started.left.items + length seats.items) }
{
    let Started {
        mut children,
        mut left,
        short,
    } = started;
    let Some(held) = held else {
        return Started {
            children,
            left,
            short: true,
        };
    };
    match start(scope, rt, shared, held, seats) {
        Ok(child) => {
            let is_lost = children.push(child).is_err();
            Started {
                children,
                left,
                short: short || is_lost,
            }
        }
        Err(back) => {
            let Report {
                mut seats,
                ended: _,
            } = back;
            let is_lost = left.append(&mut seats).is_err();
            Started {
                children,
                left,
                short: short || is_lost,
            }
        }
    }
}

/// Starts the threads of all groups. There is a flag for each.
pub fn start_all<
    's,
    'c: 's,
    E,
    S: Seat + Send + 's,
    C: Clock + Send + 'c,
    G: Gate + Sync,
    Rt: Threads + Wait + Copy + Sync,
>(
    scope: &Scope<'s, E>,
    rt: &'s Rt,
    shared: &'s Shared<'s, 'c, S, C, G>,
    flags: &'s [AtomicBool],
    groups: Vec<Vec<S>>,
) -> Started<S>
where
    S::Script: Sync,
    S::Hall: Sync,
    requires { All (λ group. All (S.sits shared.now.script.now shared.now.hall.now) group.items) groups.items }
    ensures children { All (λ h. IsOf shared.now.script.now shared.now.hall.now h.promise) result.children.items }
    ensures left { All (S.sits shared.now.script.now shared.now.hall.now) result.left.items }
    ensures all { result.short ≡ false → seats_of result.children.items + length result.left.items ≡ sum_by (λ group. length group.items) groups.items }
{
    let mut started = Started {
        children: Vec::new(shared.alloc),
        left: Vec::new(shared.alloc),
        short: false,
    };
    let mut flags = flags.iter();
    for group in groups {
        let held = flags.next();
        started = start_one(scope, rt, shared, held, group, started);
    }
    started
}

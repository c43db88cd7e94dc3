ghost use Rattle.std.specs.Prelude.{◌≡◌, ◌≤◌, map, IfOk};
ghost use Rattle.std.specs.List.{All};
ghost use Rattle.mama_event.specs.Listener.{told};
ghost use Rattle.mama_rules_legal.specs.Legal.{IsLegal};
ghost use Rattle.mama_check.specs.Verdict.{IsTrue};
ghost use Rattle.mama_crew.specs.Crew.{actors_of};
ghost use Rattle.mama_group.specs.Listener as groups;
ghost use Rattle.mama_grouped.specs.Back.{HaveHeard};
ghost use Rattle.mama_close.specs.Back.{AreBack};
ghost use Rattle.mama_shown.specs.Seat.{actor_of, IsSeatOf, HasEnded};

use crate::groups::{Groups, in_groups, queue_threads};
use crate::observer::{NoObserver, Observer};
use crate::order::in_order;
use mama_board::ImageReader;
use mama_carry::{Listener, Maker};
use mama_check::legal_records_are_true;
use mama_crew::{Hall, Script};
use mama_edge::{Clock, Gate};
use mama_event::ObjectId;
use mama_memory::OutOfMemory;
use mama_record::RunRecord;
use mama_shown::{
    GroupListener, GroupMaker, ShownCrew, ShownSeat, SilentGroups, close_shown, open_shown,
};
use mama_work::{Turned, turn_groups};
use std::alloc::Global;
use std::sync::Wait;
use std::thread;
use std::thread::Threads;

/// Plays a script on threads: one turns the bridge, one the timer service, at most `workers` the queues, and at most as many the
/// clients and publishers; one more is the observer's, which here returns at once. A queue begins with the thread of its number
/// modulo those for queues, and moves to one that has nothing to do. The record has what the groups of the script heard; for
/// listeners of theirs there is [`play_groups`], and for an observer that reads images meanwhile [`play_observed`]. It returns
/// when all have ended, or when one of them found no memory; that it returns is not promised.
///
/// The record is legal for the script, whichever thread turned which actor when. So what is promised of legal records is
/// true of it: each object is told what is meant for it, and nothing after its destroy notice; and an image that is ok is its
/// sender's record. The listeners come back in the order of the objects: each has counted its callbacks in the record, and
/// what it has heard, where it tells that, is they. The clock is read where a client's line is `now clock`, and the gate is
/// called before each turn, which no clause tells. `workers` is from 1 to 64.
///
/// The error is want of memory. Then there is no record, and the maker may have made listeners.
pub fn play<
    L: Listener + Send,
    M: Maker<L>,
    C: Clock + Send,
    G: Gate + Sync,
    Rt: Threads + Wait + Copy + Drop + Send + Sync,
>(
    rt: &Rt,
    alloc: Global,
    script: &Script,
    maker: &mut M,
    clock: &mut C,
    gate: &G,
    workers: u32,
) -> Result<(RunRecord, Vec<(ObjectId, L)>), OutOfMemory>
    requires workers { (1 ≤ workers) × (workers ≤ 64) }
    ensures legal { IfOk result (λ r. IsLegal script.now r.0) }
    ensures promised { IfOk result (λ r. IsTrue script.now r.0) }
    ensures listeners { IfOk result (λ r. AreBack (told L.tagged L.calls L.heard L.given L.plan) r.0.calls r.1.items) }
{
    let mut groups = SilentGroups::new();
    let (run, listeners, _) = play_groups(
        rt,
        alloc,
        script,
        maker,
        &mut groups,
        clock,
        gate,
        workers,
    )?;
    Ok((run, listeners))
}

/// Plays a script on threads as [`play`] does, with listeners of its groups. These come back in the order of the groups, each with
/// its number: each has counted what its group heard in the record, and what it has heard, where it tells that, is that.
pub fn play_groups<
    L: Listener + Send,
    H: GroupListener + Send,
    M: Maker<L>,
    N: GroupMaker<H>,
    C: Clock + Send,
    G: Gate + Sync,
    Rt: Threads + Wait + Copy + Drop + Send + Sync,
>(
    rt: &Rt,
    alloc: Global,
    script: &Script,
    maker: &mut M,
    group_maker: &mut N,
    clock: &mut C,
    gate: &G,
    workers: u32,
) -> Result<(RunRecord, Vec<(ObjectId, L)>, Vec<(u32, H)>), OutOfMemory>
    requires workers { (1 ≤ workers) × (workers ≤ 64) }
    ensures legal { IfOk result (λ r. IsLegal script.now r.0) }
    ensures promised { IfOk result (λ r. IsTrue script.now r.0) }
    ensures listeners { IfOk result (λ r. AreBack (told L.tagged L.calls L.heard L.given L.plan) r.0.calls r.1.items) }
    ensures groups { IfOk result (λ r. HaveHeard (groups.told H.tagged H.calls H.heard) r.0.groups r.2.items) }
{
    play_observed(
        rt,
        alloc,
        script,
        maker,
        group_maker,
        clock,
        gate,
        &NoObserver,
        workers,
    )
}

/// Plays a script as [`play_groups`] does, while an observer reads the images of the queues. It looks on a thread beside those that
/// play, or, where none can be made, on the calling thread at the end. Then the same readers learn what the boards' seals told, and
/// what they read is the last images of the record.
///
/// No clause says that the observer is called, with the readers of which boards, or when; that it ever returns; that an image
/// which it reads ever was its subscription's; or that the last images were read. Where the play finds no memory the boards may
/// go while the observer looks, and each look is then refused.
pub fn play_observed<
    L: Listener + Send,
    H: GroupListener + Send,
    M: Maker<L>,
    N: GroupMaker<H>,
    C: Clock + Send,
    G: Gate + Sync,
    O: Observer + Sync,
    Rt: Threads + Wait + Copy + Drop + Send + Sync,
>(
    rt: &Rt,
    alloc: Global,
    script: &Script,
    maker: &mut M,
    group_maker: &mut N,
    clock: &mut C,
    gate: &G,
    observer: &O,
    workers: u32,
) -> Result<(RunRecord, Vec<(ObjectId, L)>, Vec<(u32, H)>), OutOfMemory>
    requires workers { (1 ≤ workers) × (workers ≤ 64) }
    ensures legal { IfOk result (λ r. IsLegal script.now r.0) }
    ensures promised { IfOk result (λ r. IsTrue script.now r.0) }
    ensures listeners { IfOk result (λ r. AreBack (told L.tagged L.calls L.heard L.given L.plan) r.0.calls r.1.items) }
    ensures groups { IfOk result (λ r. HaveHeard (groups.told H.tagged H.calls H.heard) r.0.groups r.2.items) }
{
    let ShownCrew {
        hall,
        seats,
        readers,
    } = open_shown(*rt, alloc, script, maker, group_maker)?;
    let (readers, seats) = turned_beside(
        rt, alloc, script, &hall, clock, gate, observer, workers, readers, seats,
    )?;
    let _shape = script.shape();
    legal_records_are_true();
    close_shown(*rt, alloc, script, hall, seats, readers)
}

// Turns all seats until they have ended, while an observer reads images, and gives readers and seats back.
fn turned_beside<
    L: Listener + Send,
    H: GroupListener + Send,
    C: Clock + Send,
    G: Gate + Sync,
    O: Observer + Sync,
    Rt: Threads + Wait + Copy + Drop + Send + Sync,
>(
    rt: &Rt,
    alloc: Global,
    script: &Script,
    hall: &Hall<L>,
    clock: &mut C,
    gate: &G,
    observer: &O,
    workers: u32,
    readers: Vec<ImageReader>,
    seats: Vec<ShownSeat<L, H, Rt>>,
) -> Result<(Vec<ImageReader>, Vec<ShownSeat<L, H, Rt>>), OutOfMemory>
    requires workers { (1 ≤ workers) × (workers ≤ 64) }
    requires seats { All (IsSeatOf script.now hall.now) seats.items }
    ensures actors { IfOk result (λ r. map actor_of r.1.items ≡ actors_of script.now.shape) }
    ensures seats { IfOk result (λ r. All (IsSeatOf script.now hall.now) r.1.items) }
    ensures ended { IfOk result (λ r. All HasEnded r.1.items) }
{
    let (readers, turned) = thread::join(
        rt,
        move || -> Vec<ImageReader> { looked(*rt, observer, readers) },
        move || -> Result<Vec<ShownSeat<L, H, Rt>>, OutOfMemory>
            requires workers { (1 ≤ workers) × (workers ≤ 64) }
            requires seats { All (IsSeatOf script.now hall.now) seats.items }
            ensures actors { IfOk result (λ r. map actor_of r.items ≡ actors_of script.entry.now.shape) }
            ensures seats { IfOk result (λ r. All (IsSeatOf script.entry.now hall.entry.now) r.items) }
            ensures ended { IfOk result (λ r. All HasEnded r.items) }
        { all_turned(rt, alloc, script, hall, clock, gate, workers, seats) },
    );
    let seats = turned?;
    Ok((readers, seats))
}

// The readers after an observer looked by them.
fn looked<O: Observer, Rt: Threads + Copy>(
    rt: Rt,
    observer: &O,
    mut readers: Vec<ImageReader>,
) -> Vec<ImageReader> {
    observer.look(rt, readers.as_mut_slice());
    readers
}

// Turns all seats of a crew on threads until they have ended, and gives them back in the order of their actors.
fn all_turned<
    L: Listener + Send,
    H: GroupListener + Send,
    C: Clock + Send,
    G: Gate + Sync,
    Rt: Threads + Wait + Copy + Drop + Send + Sync,
>(
    rt: &Rt,
    alloc: Global,
    script: &Script,
    hall: &Hall<L>,
    clock: &mut C,
    gate: &G,
    workers: u32,
    seats: Vec<ShownSeat<L, H, Rt>>,
) -> Result<Vec<ShownSeat<L, H, Rt>>, OutOfMemory>
    requires workers { (1 ≤ workers) × (workers ≤ 64) }
    requires seats { All (IsSeatOf script.now hall.now) seats.items }
    ensures actors { IfOk result (λ r. map actor_of r.items ≡ actors_of script.now.shape) }
    ensures seats { IfOk result (λ r. All (IsSeatOf script.now hall.now) r.items) }
    ensures ended { IfOk result (λ r. All HasEnded r.items) }
{
    let Groups { groups, queues } = in_groups(alloc, script, hall, workers, seats)?;
    let threads = queue_threads(script.shape(), workers);
    let Turned {
        mut seats,
        mut queues,
        ended,
        stolen: _,
    } = turn_groups(
        rt, alloc, script, hall, clock, gate, threads, groups, queues,
    )?;
    if !ended {
        return Err(OutOfMemory);
    }
    seats.append(&mut queues)?;
    in_order(script, hall, seats)
}

//! The groups of seats that are turned by one thread each, and the seats of queues, which move among threads.
ghost use Rattle.std.specs.Prelude.{◌≤◌, ◌<◌, IfOk, OnOk};
ghost use Rattle.std.specs.List.{All};
ghost use Rattle.mama_shown.specs.Seat.{IsSeatOf};
ghost use Rattle.mama_play.specs.Adding.{IsAdded};

use mama_carry::Listener;
use mama_crew::{GateActor, Hall, Script};
use mama_event::Shape;
use mama_memory::OutOfMemory;
use mama_shown::{GroupListener, ShownSeat};
use std::alloc::Global;
use std::sync::Wait;

/// How many threads there are for queues: at most `workers`, no more than there are queues, and at least one.
pub fn queue_threads(shape: &Shape, workers: u32) -> u32
    requires { (1 ≤ workers) × (workers ≤ 64) }
    ensures { (0 < result) × (result ≤ 64) }
{
    workers.min(shape.bounds.queues).max(1)
}

// How many threads there are for clients and publishers: at most `workers`, and no more than the larger of their numbers.
fn other_threads(shape: &Shape, workers: u32) -> u32 {
    let publishers = u32::try_from(shape.publisher_topics.len()).unwrap_or(u32::MAX);
    workers.min(shape.clients.max(publishers))
}

// Which thread turns an actor's seat: the bridge and the timer service have one each, then come those for clients and publishers.
// The seat of a queue has none of its own.
fn group_of(others: u32, actor: GateActor) -> Option<usize> {
    match actor {
        GateActor::Bridge => Some(0),
        GateActor::Timers => Some(1),
        GateActor::Queue(_) => None,
        GateActor::Client(number) | GateActor::Publisher(number) => {
            Some(2 + number.checked_rem(others).unwrap_or(0) as usize)
        }
    }
}

/// The seats of a crew in groups, for one thread each, and the seats of its queues.
#[derive(Drop)]
pub struct Groups<L: Listener, H: GroupListener, Rt: Wait + Drop> {
    pub groups: Vec<Vec<ShownSeat<L, H, Rt>>>,
    pub queues: Vec<ShownSeat<L, H, Rt>>,
}

// So many groups without seats.
fn empty_groups<L: Listener, H: GroupListener, Rt: Wait + Drop>(
    alloc: Global,
    _script: &Script,
    _hall: &Hall<L>,
    number: usize,
) -> Result<Vec<Vec<ShownSeat<L, H, Rt>>>, OutOfMemory>
    ensures seats { IfOk result (λ groups. All (λ group. All (IsSeatOf _script.now _hall.now) group.items) groups.items) }
{
    let mut groups = Vec::with_capacity(alloc, number)?;
    for _ in 0..number {
        groups.push(Vec::new(alloc))?;
    }
    Ok(groups)
}

// Adds a seat to its group.
fn add_to_group<L: Listener, H: GroupListener, Rt: Wait + Drop>(
    _script: &Script,
    _hall: &Hall<L>,
    groups: &mut Vec<Vec<ShownSeat<L, H, Rt>>>,
    number: usize,
    seat: ShownSeat<L, H, Rt>,
) -> Result<(), OutOfMemory>
    requires seats { All (λ group. All (IsSeatOf _script.now _hall.now) group.items) groups.old.items }
    requires seat { IsSeatOf _script.now _hall.now seat }
    ensures seats { OnOk result (All (λ group. All (IsSeatOf _script.now _hall.now) group.items) groups.new.items) }
{
    add_to(groups, number, seat)
}

// Adds an item to the list of this number. The items are of any type, so that one that finds no list is let go of here alone.
fn add_to<T: Drop>(lists: &mut Vec<Vec<T>>, number: usize, item: T) -> Result<(), OutOfMemory>
    ensures { OnOk result (IsAdded number item lists.old.items lists.new.items) }
{
    match lists.get_mut(number) {
        Some(list) => list.push(item)?,
        None => return Err(OutOfMemory),
    }
    Ok(())
}

// Adds the seat of a queue.
fn add_to_queues<L: Listener, H: GroupListener, Rt: Wait + Drop>(
    _script: &Script,
    _hall: &Hall<L>,
    queues: &mut Vec<ShownSeat<L, H, Rt>>,
    seat: ShownSeat<L, H, Rt>,
) -> Result<(), OutOfMemory>
    requires seats { All (IsSeatOf _script.now _hall.now) queues.old.items }
    requires seat { IsSeatOf _script.now _hall.now seat }
    ensures seats { OnOk result (All (IsSeatOf _script.now _hall.now) queues.new.items) }
{
    queues.push(seat)?;
    Ok(())
}

// Adds a seat to the group of this number, or to the queues.
fn add<L: Listener, H: GroupListener, Rt: Wait + Drop>(
    script: &Script,
    hall: &Hall<L>,
    made: &mut Groups<L, H, Rt>,
    number: Option<usize>,
    seat: ShownSeat<L, H, Rt>,
) -> Result<(), OutOfMemory>
    requires groups { All (λ group. All (IsSeatOf script.now hall.now) group.items) made.old.groups.items }
    requires queues { All (IsSeatOf script.now hall.now) made.old.queues.items }
    requires seat { IsSeatOf script.now hall.now seat }
    ensures groups { OnOk result (All (λ group. All (IsSeatOf script.now hall.now) group.items) made.new.groups.items) }
    ensures queues { OnOk result (All (IsSeatOf script.now hall.now) made.new.queues.items) }
{
    match number {
        Some(number) => add_to_group(script, hall, &mut made.groups, number, seat),
        None => add_to_queues(script, hall, &mut made.queues, seat),
    }
}

/// The seats of a crew in groups, for one thread each: the bridge's, the timer service's, and those of clients and publishers by
/// their numbers modulo the number of threads for them; and apart from these the seats of the queues. The error is want of memory.
pub fn in_groups<L: Listener, H: GroupListener, Rt: Wait + Drop>(
    alloc: Global,
    script: &Script,
    hall: &Hall<L>,
    workers: u32,
    seats: Vec<ShownSeat<L, H, Rt>>,
) -> Result<Groups<L, H, Rt>, OutOfMemory>
    requires { All (IsSeatOf script.now hall.now) seats.items }
    ensures groups { IfOk result (λ r. All (λ group. All (IsSeatOf script.now hall.now) group.items) r.groups.items) }
    ensures queues { IfOk result (λ r. All (IsSeatOf script.now hall.now) r.queues.items) }
{
    let others = other_threads(script.shape(), workers);
    let groups = empty_groups(alloc, script, hall, 2 + others as usize)?;
    let queues = Vec::new(alloc);
    let mut made = Groups { groups, queues };
    for seat in seats {
        let number = group_of(others, seat.actor());
        add(script, hall, &mut made, number, seat)?;
    }
    Ok(made)
}

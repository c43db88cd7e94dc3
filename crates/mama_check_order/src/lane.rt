ghost use Rattle.std.specs.Prelude.{◌≡◌, ◌↔◌, true, is_some, map, IfOk, IfSome};
ghost use Rattle.mama_check_order.specs.Taken.{AreWhole, needs_of};

use crate::Need;
use crate::walk::walk;
use mama_event::{BridgeNote, QueueNote, TimersNote};
use mama_memory::OutOfMemory;
use std::alloc::Global;

/// What each entry of the bridge's journal needs, if on every edge what it took is all that was put: lists has what each
/// port put, each event with the number of the entry that put it, and actors names the actor behind each port. The answer
/// is `None` where what was taken is not all that was put; the error is want of memory. So it is of the next two.
pub fn needs_of_bridge(
    alloc: Global,
    actors: &[usize],
    lists: &[&[(usize, BridgeNote)]],
    journal: &[(u32, BridgeNote)],
) -> Result<Option<Vec<Option<Need>>>, OutOfMemory>
    ensures whole { IfOk result (λ found. (is_some found ≡ true) ↔ AreWhole (map (λ list. list.now) lists.now) journal.now) }
    ensures needs { IfOk result (λ found. IfSome found (λ needs. needs.items ≡ needs_of actors.now (map (λ list. list.now) lists.now) journal.now)) }
{
    walk(alloc, actors, lists, journal)
}

/// The same of the timer service's journal.
pub fn needs_of_timers(
    alloc: Global,
    actors: &[usize],
    lists: &[&[(usize, TimersNote)]],
    journal: &[(u32, TimersNote)],
) -> Result<Option<Vec<Option<Need>>>, OutOfMemory>
    ensures whole { IfOk result (λ found. (is_some found ≡ true) ↔ AreWhole (map (λ list. list.now) lists.now) journal.now) }
    ensures needs { IfOk result (λ found. IfSome found (λ needs. needs.items ≡ needs_of actors.now (map (λ list. list.now) lists.now) journal.now)) }
{
    walk(alloc, actors, lists, journal)
}

/// The same of a queue's journal.
pub fn needs_of_queue(
    alloc: Global,
    actors: &[usize],
    lists: &[&[(usize, QueueNote)]],
    journal: &[(u32, QueueNote)],
) -> Result<Option<Vec<Option<Need>>>, OutOfMemory>
    ensures whole { IfOk result (λ found. (is_some found ≡ true) ↔ AreWhole (map (λ list. list.now) lists.now) journal.now) }
    ensures needs { IfOk result (λ found. IfSome found (λ needs. needs.items ≡ needs_of actors.now (map (λ list. list.now) lists.now) journal.now)) }
{
    walk(alloc, actors, lists, journal)
}

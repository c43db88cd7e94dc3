ghost use Rattle.std.specs.Prelude.{◌≡◌, ◌++◌, ◌∷◌, [], map, IfOk, OnOk};
ghost use Rattle.std.specs.List.{flat_map};
ghost use Rattle.mama_check_order.specs.Numbered.{from_entry};
ghost use Rattle.mama_event.specs.Ports.{queues_of};
ghost use Rattle.mama_rules_services.specs.Timers.{timers_puts_at};
ghost use Rattle.mama_timer.specs.Out.{out_note};
ghost use Rattle.mama_check_puts.specs.Puts.{AreLists, tick_part, timers_put_to};
ghost use Rattle.mama_check_puts.specs.Dealing.{Grow, own_tag};

use crate::dealing::{deal, empty_lists, if_taken};
use crate::notes::{queue_note, timers_event};
use mama_event::{ObjectId, QueueNote, Shape, TimersNote};
use mama_memory::{OutOfMemory, Outbox};
use mama_timer::{TimerOut, Timers};
use std::alloc::Global;

/// What the timer service of a shape put to each queue by its journal, each event with the number of the entry that put
/// it, counted from 0. The error is want of memory, as of [`Timers::take`].
pub fn puts_of_timers(
    alloc: Global,
    shape: &Shape,
    journal: &[(u32, TimersNote)],
) -> Result<Vec<Vec<(usize, QueueNote)>>, OutOfMemory>
    ensures { IfOk result (λ lists. AreLists (map (λ list. list.items) lists.items) (queues_of shape.now) (timers_put_to shape.now journal.now)) }
{
    let mut timers: Timers<ObjectId> = Timers::new(alloc, shape)?;
    let mut lists = empty_lists(alloc, shape.bounds.queues as usize)?;
    for (entry, (port, note)) in journal.iter().enumerate() {
        let out = taken(alloc, &mut timers, *port, *note)?;
        deal_all(&mut lists, entry, out)?;
    }
    Ok(lists)
}

/// What the service puts at its next entry.
fn taken(
    alloc: Global,
    timers: &mut Timers<ObjectId>,
    port: u32,
    note: TimersNote,
) -> Result<Outbox<TimerOut<ObjectId>>, OutOfMemory>
    ensures journal { OnOk result (timers.new ≡ record { shape = timers.old.shape; journal = timers.old.journal ++ (port, note) ∷ [] }) }
    ensures puts { IfOk result (λ out. map (out_note own_tag) out.items ≡ timers_puts_at timers.old.shape timers.old.journal (port, note)) }
{
    let mut out = Outbox::new(alloc);
    let answer = timers.take(port, timers_event(note), &mut out);
    if_taken(out, answer)
}

/// Deals what an entry put to the lists of the queues.
fn deal_all(
    lists: &mut Vec<Vec<(usize, QueueNote)>>,
    entry: usize,
    out: Outbox<TimerOut<ObjectId>>,
) -> Result<(), OutOfMemory>
    ensures { OnOk result (Grow (map (λ list. list.items) lists.old.items) (map (λ list. list.items) lists.new.items) (λ q. from_entry entry (flat_map (tick_part q) (map (out_note own_tag) out.items)))) }
{
    let mut out = out;
    while let Some(put) = out.take_first() {
        let note = queue_note(put.event)?;
        deal(lists, put.queue, entry, note)?;
    }
    Ok(())
}

ghost use Rattle.std.specs.Prelude.{◌≡◌, ◌++◌, ◌∷◌, [], map, IfOk, OnOk};
ghost use Rattle.mama_event.specs.Ports.{publishers_of, queues_of};
ghost use Rattle.mama_rules_services.specs.Bridge.{bridge_puts_at};
ghost use Rattle.mama_bridge.specs.Outs.{put_note};
ghost use Rattle.mama_check_puts.specs.Puts.{AreLists, bridge_put_to_publisher, bridge_put_to_queue, bridge_put_to_timers};
ghost use Rattle.mama_check_puts.specs.Dealing.{own_tag};
ghost use Rattle.mama_check_puts.specs.Bridge.{GrowByOne, GrowByAll};

use crate::dealing::{deal, empty_lists, if_taken};
use crate::notes::{bridge_event, publisher_note, queue_note, timers_note};
use mama_bridge::{Bridge, BridgeOut, MemoryBridge};
use mama_event::{BridgeNote, ObjectId, PublisherNote, QueueNote, Shape, TimersNote};
use mama_memory::{OutOfMemory, Outbox};
use std::alloc::Global;

/// What a bridge put to each publisher, to each queue and to the timer service, each event with the number of the entry
/// that put it, counted from 0.
#[derive(Debug, Drop)]
pub struct BridgePuts {
    pub to_publishers: Vec<Vec<(usize, PublisherNote)>>,
    pub to_queues: Vec<Vec<(usize, QueueNote)>>,
    pub to_timers: Vec<(usize, TimersNote)>,
}

/// What the bridge of a shape put by its journal. The error is want of memory, as of [`Bridge::take`]. It also comes where the
/// bridge took a message of more than 64 fields, which no publisher sends and no log tells.
pub fn puts_of_bridge(
    alloc: Global,
    shape: &Shape,
    journal: &[(u32, BridgeNote)],
) -> Result<BridgePuts, OutOfMemory>
    ensures publishers { IfOk result (λ puts. AreLists (map (λ list. list.items) puts.to_publishers.items) (publishers_of shape.now) (bridge_put_to_publisher shape.now journal.now)) }
    ensures queues { IfOk result (λ puts. AreLists (map (λ list. list.items) puts.to_queues.items) (queues_of shape.now) (bridge_put_to_queue shape.now journal.now)) }
    ensures timers { IfOk result (λ puts. puts.to_timers.items ≡ bridge_put_to_timers shape.now journal.now) }
{
    let mut bridge: MemoryBridge<ObjectId> = MemoryBridge::new(alloc, shape)?;
    let mut puts = BridgePuts {
        to_publishers: empty_lists(alloc, shape.publisher_topics.len())?,
        to_queues: empty_lists(alloc, shape.bounds.queues as usize)?,
        to_timers: Vec::new(alloc),
    };
    for (entry, (port, note)) in journal.iter().enumerate() {
        let out = taken(alloc, &mut bridge, *port, note)?;
        deal_all(&mut puts, entry, out)?;
    }
    Ok(puts)
}

/// What the bridge puts at its next entry.
fn taken(
    alloc: Global,
    bridge: &mut MemoryBridge<ObjectId>,
    port: u32,
    note: &BridgeNote,
) -> Result<Outbox<BridgeOut<ObjectId>>, OutOfMemory>
    ensures journal { OnOk result (bridge.new ≡ record { shape = bridge.old.shape; journal = bridge.old.journal ++ (port, note.now) ∷ [] }) }
    ensures puts { IfOk result (λ out. map (put_note own_tag) out.items ≡ bridge_puts_at bridge.old.shape bridge.old.journal (port, note.now)) }
{
    let event = bridge_event(alloc, note)?;
    let mut out = Outbox::new(alloc);
    let answer = bridge.take(port, event, &mut out);
    if_taken(out, answer)
}

/// Deals one event that an entry put to the list that it goes to.
fn deal_one(
    puts: &mut BridgePuts,
    entry: usize,
    event: BridgeOut<ObjectId>,
) -> Result<(), OutOfMemory>
    ensures { OnOk result (GrowByOne puts.old puts.new entry (put_note own_tag event)) }
{
    match event {
        BridgeOut::Publisher(number, event) => deal(
            &mut puts.to_publishers,
            number,
            entry,
            publisher_note(event),
        ),
        BridgeOut::Queue(number, event) => {
            let note = queue_note(event)?;
            deal(&mut puts.to_queues, number, entry, note)
        }
        BridgeOut::Timers(event) => {
            puts.to_timers.push((entry, timers_note(event)))?;
            Ok(())
        }
    }
}

/// Deals what an entry put.
fn deal_all(
    puts: &mut BridgePuts,
    entry: usize,
    out: Outbox<BridgeOut<ObjectId>>,
) -> Result<(), OutOfMemory>
    ensures { OnOk result (GrowByAll puts.old puts.new entry (map (put_note own_tag) out.items)) }
{
    let mut out = out;
    while let Some(event) = out.take_first() {
        deal_one(puts, entry, event)?;
    }
    Ok(())
}

//! What the entries of each actor need, found where the actor took all that was put to it.
ghost use Rattle.std.specs.Prelude.{◌≡◌, ◌↔◌, ◌++◌, ◌∷◌, [], true, length, map, replicate, None, IfOk, IfNone, OnOk};
ghost use Rattle.std.specs.Bool.{OnTrue};
ghost use Rattle.mama_event.specs.Ports.{queues_of};
ghost use Rattle.mama_script.specs.Tree.{IsShaped};
ghost use Rattle.mama_check_puts.specs.Puts.{AreLists, timers_put_to};
ghost use Rattle.mama_check.specs.First.{IsFirst};
ghost use Rattle.mama_check.specs.Puts.{AreClientPuts, AreBridgePuts, AreServed, publisher_to_bridge};
ghost use Rattle.mama_check.specs.Rules.{KeepsPublisherEdge, KeepsBridgeEdges, KeepsTimersEdges, KeepsQueueEdges};
ghost use Rattle.mama_check.specs.Causal.{of_each, client_needs, publisher_needs, bridge_needs, timers_needs, queue_needs};

use crate::takes::{needs_in_bridge, needs_in_publisher, needs_in_queue, needs_in_timers};
use mama_check_order::Need;
use mama_check_puts::{BridgePuts, ClientPuts};
use mama_check_queue::ServedQueue;
use mama_event::{BridgeNote, QueueNote};
use mama_memory::OutOfMemory;
use mama_record::RunRecord;
use mama_script::Script;
use std::alloc::Global;

/// What so many entries need that take nothing.
fn no_needs(alloc: Global, count: usize) -> Result<Vec<Option<Need>>, OutOfMemory>
    ensures { IfOk result (λ needs. needs.items ≡ replicate count None) }
{
    Ok(vec![in alloc; None; count]?)
}

/// Adds what the entries of each client need: for each line, and one more, nothing.
pub(crate) fn add_clients(
    alloc: Global,
    needs: &mut Vec<Vec<Option<Need>>>,
    script: &Script,
) -> Result<(), OutOfMemory>
    ensures { OnOk result (map (λ actor. actor.items) needs.new.items ≡ map (λ actor. actor.items) needs.old.items ++ of_each (length script.now.clients) (client_needs script.now)) }
{
    let clients = script.clients();
    for lines in clients {
        needs.push(no_needs(alloc, lines.as_slice().len() + 1)?)?;
    }
    Ok(())
}

/// Adds what the entries of each publisher need. The answer is the first that did not take all that the bridge put to it, in
/// order: then those from it on are left out.
pub(crate) fn add_publishers(
    alloc: Global,
    needs: &mut Vec<Vec<Option<Need>>>,
    script: &Script,
    run: &RunRecord,
    bridge: &BridgePuts,
) -> Result<Option<usize>, OutOfMemory>
    requires shaped { IsShaped script.now }
    requires journals { length run.now.publishers ≡ length script.now.publishers }
    requires bridge { AreBridgePuts script.now run.now bridge.now }
    ensures first { IfOk result (λ first. IsFirst (KeepsPublisherEdge script.now run.now) (length script.now.publishers) first) }
    ensures needs { IfOk result (λ first. IfNone first (map (λ actor. actor.items) needs.new.items ≡ map (λ actor. actor.items) needs.old.items ++ of_each (length script.now.publishers) (publisher_needs script.now run.now))) }
{
    for p in 0..script.publishers().len() {
        match needs_in_publisher(alloc, script, run, bridge, p)? {
            Some(own) => needs.push(own)?,
            None => return Ok(Some(p)),
        }
    }
    Ok(None)
}

/// Adds what the entries of the bridge need, if it took by each port all that was put there, in order, and nothing by other
/// ports. The answer is whether it did.
pub(crate) fn add_bridge(
    alloc: Global,
    needs: &mut Vec<Vec<Option<Need>>>,
    script: &Script,
    run: &RunRecord,
    clients: &[ClientPuts],
    publishers: &[Vec<(usize, BridgeNote)>],
    queues: &[ServedQueue],
) -> Result<bool, OutOfMemory>
    requires shaped { IsShaped script.now }
    requires journals { length run.now.queues ≡ queues_of script.now.shape }
    requires clients { AreClientPuts script.now run.now clients.now }
    requires publishers { AreLists (map (λ list. list.items) publishers.now) (length script.now.publishers) (publisher_to_bridge script.now run.now) }
    requires queues { AreServed script.now run.now queues.now }
    ensures whole { IfOk result (λ whole. (whole ≡ true) ↔ KeepsBridgeEdges script.now run.now) }
    ensures needs { IfOk result (λ whole. OnTrue whole (map (λ actor. actor.items) needs.new.items ≡ map (λ actor. actor.items) needs.old.items ++ bridge_needs script.now run.now ∷ [])) }
{
    match needs_in_bridge(alloc, script, run, clients, publishers, queues)? {
        Some(own) => {
            needs.push(own)?;
            Ok(true)
        }
        None => Ok(false),
    }
}

/// The same of the timer service.
pub(crate) fn add_timers(
    alloc: Global,
    needs: &mut Vec<Vec<Option<Need>>>,
    script: &Script,
    run: &RunRecord,
    clients: &[ClientPuts],
    queues: &[ServedQueue],
    bridge: &BridgePuts,
) -> Result<bool, OutOfMemory>
    requires shaped { IsShaped script.now }
    requires journals { length run.now.queues ≡ queues_of script.now.shape }
    requires clients { AreClientPuts script.now run.now clients.now }
    requires queues { AreServed script.now run.now queues.now }
    requires bridge { AreBridgePuts script.now run.now bridge.now }
    ensures whole { IfOk result (λ whole. (whole ≡ true) ↔ KeepsTimersEdges script.now run.now) }
    ensures needs { IfOk result (λ whole. OnTrue whole (map (λ actor. actor.items) needs.new.items ≡ map (λ actor. actor.items) needs.old.items ++ timers_needs script.now run.now ∷ [])) }
{
    match needs_in_timers(alloc, script, run, clients, queues, bridge)? {
        Some(own) => {
            needs.push(own)?;
            Ok(true)
        }
        None => Ok(false),
    }
}

/// Adds what the entries of each queue need. The answer is the first that did not take by both its ports all that was put
/// there, in order, or took something by another: then those from it on are left out.
pub(crate) fn add_queues(
    alloc: Global,
    needs: &mut Vec<Vec<Option<Need>>>,
    script: &Script,
    run: &RunRecord,
    bridge: &BridgePuts,
    timers: &[Vec<(usize, QueueNote)>],
) -> Result<Option<usize>, OutOfMemory>
    requires journals { length run.now.queues ≡ queues_of script.now.shape }
    requires bridge { AreBridgePuts script.now run.now bridge.now }
    requires timers { AreLists (map (λ list. list.items) timers.now) (queues_of script.now.shape) (timers_put_to script.now.shape run.now.timers) }
    ensures first { IfOk result (λ first. IsFirst (KeepsQueueEdges script.now run.now) (queues_of script.now.shape) first) }
    ensures needs { IfOk result (λ first. IfNone first (map (λ actor. actor.items) needs.new.items ≡ map (λ actor. actor.items) needs.old.items ++ of_each (queues_of script.now.shape) (queue_needs script.now run.now))) }
{
    for q in 0..run.queues().len() {
        match needs_in_queue(alloc, script, run, bridge, timers, q)? {
            Some(own) => needs.push(own)?,
            None => return Ok(Some(q)),
        }
    }
    Ok(None)
}

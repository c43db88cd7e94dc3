ghost use Rattle.std.specs.Prelude.{◌≡◌, ◌↔◌, ◌<◌, true, [], length, map, is_some, slice_index_or, IfOk, IfSome};
ghost use Rattle.mama_event.specs.Ports.{queues_of};
ghost use Rattle.mama_script.specs.Tree.{IsShaped};
ghost use Rattle.mama_check_puts.specs.Puts.{AreLists, timers_put_to};
ghost use Rattle.mama_check.specs.Puts.{AreClientPuts, AreBridgePuts, AreServed, publisher_to_bridge};
ghost use Rattle.mama_check.specs.Rules.{KeepsPublisherEdge, KeepsBridgeEdges, KeepsTimersEdges, KeepsQueueEdges};
ghost use Rattle.mama_check.specs.Causal.{publisher_needs, bridge_needs, timers_needs, queue_needs};

use crate::actors::{bridge_putters, places_in, timers_putters};
use crate::gather::{lists_to_bridge, lists_to_timers};
use mama_check_order::{Need, needs_of_bridge, needs_of_queue, needs_of_sender, needs_of_timers};
use mama_check_puts::{BridgePuts, ClientPuts};
use mama_check_queue::ServedQueue;
use mama_event::{BridgeNote, QueueNote};
use mama_memory::OutOfMemory;
use mama_record::RunRecord;
use mama_script::Script;
use std::alloc::Global;

/// The list of a number.
fn list_at<X>(lists: &[Vec<X>], number: usize) -> &[X]
    requires { number < length lists.now }
    ensures { result.now ≡ slice_index_or (map (λ list. list.items) lists.now) number [] }
{
    let list = &lists[number];
    list.as_slice()
}

/// What the entries of a publisher need, if it took all that the bridge put to it, in order.
pub(crate) fn needs_in_publisher(
    alloc: Global,
    script: &Script,
    run: &RunRecord,
    bridge: &BridgePuts,
    publisher: usize,
) -> Result<Option<Vec<Option<Need>>>, OutOfMemory>
    requires shaped { IsShaped script.now }
    requires publisher { publisher < length script.now.publishers }
    requires journals { length run.now.publishers ≡ length script.now.publishers }
    requires bridge { AreBridgePuts script.now run.now bridge.now }
    ensures whole { IfOk result (λ found. (is_some found ≡ true) ↔ KeepsPublisherEdge script.now run.now publisher) }
    ensures needs { IfOk result (λ found. IfSome found (λ needs. needs.items ≡ publisher_needs script.now run.now publisher)) }
{
    let places = places_in(script.shape());
    let list = list_at(bridge.to_publishers.as_slice(), publisher);
    let journal = list_at(run.publishers(), publisher);
    let needs = needs_of_sender(alloc, places.bridge, list, journal)?;
    Ok(needs)
}

/// What the entries of the bridge need, if it took by each port all that was put there, in order, and nothing by other
/// ports.
pub(crate) fn needs_in_bridge(
    alloc: Global,
    script: &Script,
    run: &RunRecord,
    clients: &[ClientPuts],
    publishers: &[Vec<(usize, BridgeNote)>],
    queues: &[ServedQueue],
) -> Result<Option<Vec<Option<Need>>>, OutOfMemory>
    requires shaped { IsShaped script.now }
    requires journals { length run.now.queues ≡ queues_of script.now.shape }
    requires clients { AreClientPuts script.now run.now clients.now }
    requires publishers { AreLists (map (λ list. list.items) publishers.now) (length script.now.publishers) (publisher_to_bridge script.now run.now) }
    requires queues { AreServed script.now run.now queues.now }
    ensures whole { IfOk result (λ found. (is_some found ≡ true) ↔ KeepsBridgeEdges script.now run.now) }
    ensures needs { IfOk result (λ found. IfSome found (λ needs. needs.items ≡ bridge_needs script.now run.now)) }
{
    let actors = bridge_putters(alloc, script.shape())?;
    let lists = lists_to_bridge(alloc, clients, publishers, queues)?;
    let needs = needs_of_bridge(alloc, &actors, &lists, run.bridge())?;
    Ok(needs)
}

/// The same of the timer service.
pub(crate) fn needs_in_timers(
    alloc: Global,
    script: &Script,
    run: &RunRecord,
    clients: &[ClientPuts],
    queues: &[ServedQueue],
    bridge: &BridgePuts,
) -> Result<Option<Vec<Option<Need>>>, OutOfMemory>
    requires shaped { IsShaped script.now }
    requires journals { length run.now.queues ≡ queues_of script.now.shape }
    requires clients { AreClientPuts script.now run.now clients.now }
    requires queues { AreServed script.now run.now queues.now }
    requires bridge { AreBridgePuts script.now run.now bridge.now }
    ensures whole { IfOk result (λ found. (is_some found ≡ true) ↔ KeepsTimersEdges script.now run.now) }
    ensures needs { IfOk result (λ found. IfSome found (λ needs. needs.items ≡ timers_needs script.now run.now)) }
{
    let actors = timers_putters(alloc, script.shape())?;
    let lists = lists_to_timers(alloc, clients, queues, bridge.to_timers.as_slice())?;
    let needs = needs_of_timers(alloc, &actors, &lists, run.timers())?;
    Ok(needs)
}

/// The same of a queue, which has two ports.
pub(crate) fn needs_in_queue(
    alloc: Global,
    script: &Script,
    run: &RunRecord,
    bridge: &BridgePuts,
    timers: &[Vec<(usize, QueueNote)>],
    queue: usize,
) -> Result<Option<Vec<Option<Need>>>, OutOfMemory>
    requires queue { queue < queues_of script.now.shape }
    requires journals { length run.now.queues ≡ queues_of script.now.shape }
    requires bridge { AreBridgePuts script.now run.now bridge.now }
    requires timers { AreLists (map (λ list. list.items) timers.now) (queues_of script.now.shape) (timers_put_to script.now.shape run.now.timers) }
    ensures whole { IfOk result (λ found. (is_some found ≡ true) ↔ KeepsQueueEdges script.now run.now queue) }
    ensures needs { IfOk result (λ found. IfSome found (λ needs. needs.items ≡ queue_needs script.now run.now queue)) }
{
    let places = places_in(script.shape());
    let actors = [places.bridge, places.timers];
    let from_bridge = list_at(bridge.to_queues.as_slice(), queue);
    let from_timers = list_at(timers, queue);
    let lists = [from_bridge, from_timers];
    let journal = list_at(run.queues(), queue);
    let needs = needs_of_queue(alloc, &actors, &lists, journal)?;
    Ok(needs)
}

ghost use Rattle.std.specs.Prelude.{◌≡◌, ◌++◌, [], ◌∷◌, map, OnOk, IfOk};
ghost use Rattle.mama_check_queue.specs.Served.{bridge_puts, timers_puts};
ghost use Rattle.mama_check.specs.Puts.{to_bridge_in, to_timers_in};

use mama_check_puts::ClientPuts;
use mama_check_queue::ServedQueue;
use mama_event::{BridgeNote, TimersNote};
use mama_memory::OutOfMemory;
use std::alloc::Global;

/// Adds what each client put to the bridge.
fn add_clients<'a>(
    lists: &mut Vec<&'a [(usize, BridgeNote)]>,
    clients: &'a [ClientPuts],
) -> Result<(), OutOfMemory>
    ensures { OnOk result (map (λ list. list.now) lists.new.items ≡ map (λ list. list.now) lists.old.items ++ to_bridge_in clients.now) }
{
    for client in clients {
        lists.push(client.to_bridge.as_slice())?;
    }
    Ok(())
}

/// Adds what each publisher put to the bridge.
fn add_publishers<'a>(
    lists: &mut Vec<&'a [(usize, BridgeNote)]>,
    publishers: &'a [Vec<(usize, BridgeNote)>],
) -> Result<(), OutOfMemory>
    ensures { OnOk result (map (λ list. list.now) lists.new.items ≡ map (λ list. list.now) lists.old.items ++ map (λ list. list.items) publishers.now) }
{
    for list in publishers {
        lists.push(list.as_slice())?;
    }
    Ok(())
}

/// Adds what each queue put to the bridge.
fn add_queues<'a>(
    lists: &mut Vec<&'a [(usize, BridgeNote)]>,
    queues: &'a [ServedQueue<'a>],
) -> Result<(), OutOfMemory>
    ensures { OnOk result (map (λ list. list.now) lists.new.items ≡ map (λ list. list.now) lists.old.items ++ map bridge_puts queues.now) }
{
    for queue in queues {
        lists.push(queue.to_bridge())?;
    }
    Ok(())
}

/// What was put on the bridge's lane: by each client, by each publisher, and by each queue.
pub(crate) fn lists_to_bridge<'a>(
    alloc: Global,
    clients: &'a [ClientPuts],
    publishers: &'a [Vec<(usize, BridgeNote)>],
    queues: &'a [ServedQueue<'a>],
) -> Result<Vec<&'a [(usize, BridgeNote)]>, OutOfMemory>
    ensures { IfOk result (λ lists. map (λ list. list.now) lists.items ≡ (to_bridge_in clients.now ++ map (λ list. list.items) publishers.now) ++ map bridge_puts queues.now) }
{
    let mut lists = Vec::new(alloc);
    add_clients(&mut lists, clients)?;
    add_publishers(&mut lists, publishers)?;
    add_queues(&mut lists, queues)?;
    Ok(lists)
}

/// Adds what each client put to the timer service.
fn add_timing_clients<'a>(
    lists: &mut Vec<&'a [(usize, TimersNote)]>,
    clients: &'a [ClientPuts],
) -> Result<(), OutOfMemory>
    ensures { OnOk result (map (λ list. list.now) lists.new.items ≡ map (λ list. list.now) lists.old.items ++ to_timers_in clients.now) }
{
    for client in clients {
        lists.push(client.to_timers.as_slice())?;
    }
    Ok(())
}

/// Adds what each queue put to the timer service.
fn add_timing_queues<'a>(
    lists: &mut Vec<&'a [(usize, TimersNote)]>,
    queues: &'a [ServedQueue<'a>],
) -> Result<(), OutOfMemory>
    ensures { OnOk result (map (λ list. list.now) lists.new.items ≡ map (λ list. list.now) lists.old.items ++ map timers_puts queues.now) }
{
    for queue in queues {
        lists.push(queue.to_timers())?;
    }
    Ok(())
}

/// What was put on the timer service's lane: by each client, by each queue, and by the bridge.
pub(crate) fn lists_to_timers<'a>(
    alloc: Global,
    clients: &'a [ClientPuts],
    queues: &'a [ServedQueue<'a>],
    bridge: &'a [(usize, TimersNote)],
) -> Result<Vec<&'a [(usize, TimersNote)]>, OutOfMemory>
    ensures { IfOk result (λ lists. map (λ list. list.now) lists.items ≡ (to_timers_in clients.now ++ map timers_puts queues.now) ++ bridge.now ∷ []) }
{
    let mut lists = Vec::new(alloc);
    add_timing_clients(&mut lists, clients)?;
    add_timing_queues(&mut lists, queues)?;
    lists.push(bridge)?;
    Ok(lists)
}

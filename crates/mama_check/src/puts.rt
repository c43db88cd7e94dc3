ghost use Rattle.std.specs.Prelude.{◌≡◌, ◌<◌, ◌^◌, length, map, IfOk};
ghost use Rattle.mama_check_puts.specs.Puts.{AreLists};
ghost use Rattle.mama_check.specs.Puts.{AreClientPuts, AreBridgePuts, publisher_to_bridge};

use mama_check_puts::{BridgePuts, ClientPuts, puts_of_bridge, puts_of_client, puts_of_publisher};
use mama_event::BridgeNote;
use mama_memory::OutOfMemory;
use mama_record::RunRecord;
use mama_script::Script;
use std::alloc::Global;

/// The number of the client or publisher at a place of an accepted script.
fn number_at(place: usize) -> u32
    requires { place < 2 ^ 32 }
    ensures { result ≡ place }
{
    place as u32
}

/// What each client put, by its lines and the moments that the record says it read. The record has a list of moments
/// for each client.
pub fn puts_of_clients(
    alloc: Global,
    script: &Script,
    run: &RunRecord,
) -> Result<Vec<ClientPuts>, OutOfMemory>
    requires { length run.now.clients ≡ length script.now.clients }
    ensures { IfOk result (λ clients. AreClientPuts script.now run.now clients.items) }
{
    let queues = script.shape().bounds.queues;
    let clients = script.clients();
    let moments = run.clients();
    let mut all = Vec::new(alloc);
    for (c, lines) in clients.iter().enumerate() {
        let number = number_at(c);
        all.push(puts_of_client(alloc, number, queues, &moments[c], lines.as_slice())?)?;
    }
    Ok(all)
}

/// What each publisher put, by its lines and its journal. The record has a journal for each publisher.
pub fn puts_of_publishers(
    alloc: Global,
    script: &Script,
    run: &RunRecord,
) -> Result<Vec<Vec<(usize, BridgeNote)>>, OutOfMemory>
    requires { length run.now.publishers ≡ length script.now.publishers }
    ensures { IfOk result (λ lists. AreLists (map (λ list. list.items) lists.items) (length script.now.publishers) (publisher_to_bridge script.now run.now)) }
{
    let _shape = script.shape();
    let publishers = script.publishers();
    let journals = run.publishers();
    let mut all = Vec::new(alloc);
    for (p, part) in publishers.iter().enumerate() {
        let number = number_at(p);
        all.push(puts_of_publisher(
            alloc,
            number,
            &part.base,
            part.lines.as_slice(),
            &journals[p],
        )?)?;
    }
    Ok(all)
}

/// What the bridge put, by its journal.
pub fn puts_of_the_bridge(
    alloc: Global,
    script: &Script,
    run: &RunRecord,
) -> Result<BridgePuts, OutOfMemory>
    ensures { IfOk result (λ puts. AreBridgePuts script.now run.now puts) }
{
    puts_of_bridge(alloc, script.shape(), run.bridge())
}

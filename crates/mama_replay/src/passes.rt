ghost use Rattle.std.specs.Prelude.{◌≡◌, ◌+◌, ◌<◌, ◌≤◌, ◌^◌, ◌++◌, ℕ, [], map, length, slice_get, slice_index_or, option_map, IfOk, OnOk};
ghost use Rattle.mama_journal.specs.Lane.{by_port};
ghost use Rattle.mama_record.specs.RunView.{entries_of, events_of};
ghost use Rattle.mama_check_puts.specs.Puts.{one_for};
ghost use Rattle.mama_replay.specs.Dealt.{Dealt, client_dealt, publisher_step, publisher_dealt, taker_step, taker_dealt, clients_dealt, publishers_dealt, queues_dealt, all_dealt, port_in, in_passes};

use crate::step::Step;
use mama_check::Actor;
use mama_event::{PublisherEntry, QueueNote};
use mama_memory::OutOfMemory;
use mama_record::RunRecord;
use std::alloc::Global;

/// The steps of all passes, where ranks has in which pass each step of each actor comes. There are so many clients.
pub(crate) fn steps_of(
    alloc: Global,
    clients: u32,
    run: &RunRecord,
    ranks: &[Vec<usize>],
) -> Result<Vec<Step>, OutOfMemory>
    requires publishers { length run.now.publishers < 2 ^ 32 }
    requires queues { length run.now.queues < 2 ^ 32 }
    ensures { IfOk result (λ steps. (count : ℕ) × (steps.items ≡ in_passes count (all_dealt clients run.now (map (λ own. own.items) ranks.now)))
        × ((m : ℕ) → count ≤ m → by_port m (all_dealt clients run.now (map (λ own. own.items) ranks.now)) ≡ [])) }
{
    let passes = all_passes(alloc, clients, run, ranks)?;
    let mut steps = Vec::new(alloc);
    for pass in &passes {
        steps.extend_from_slice(pass.as_slice())?;
    }
    Ok(steps)
}

/// The steps of each pass.
fn all_passes(
    alloc: Global,
    clients: u32,
    run: &RunRecord,
    ranks: &[Vec<usize>],
) -> Result<Vec<Vec<Step>>, OutOfMemory>
    requires publishers { length run.now.publishers < 2 ^ 32 }
    requires queues { length run.now.queues < 2 ^ 32 }
    ensures { IfOk result (λ passes. (m : ℕ) → slice_index_or (map (λ pass. pass.items) passes.items) m [] ≡ by_port m (all_dealt clients run.now (map (λ own. own.items) ranks.now))) }
{
    let publishers = clients as usize;
    let bridge = publishers + run.publishers().len();
    let mut passes = Vec::new(alloc);
    deal_lines(alloc, &mut passes, clients, run.publishers(), ranks)?;
    let own = ranks_in(ranks, bridge);
    deal_taker(alloc, &mut passes, Actor::Bridge, run.bridge(), own)?;
    let own = ranks_in(ranks, bridge + 1);
    deal_taker(alloc, &mut passes, Actor::Timers, run.timers(), own)?;
    deal_queues(alloc, &mut passes, run.queues(), ranks, bridge + 2)?;
    Ok(passes)
}

/// Adds the steps of all clients to their passes, and behind them in each pass those of all publishers.
fn deal_lines(
    alloc: Global,
    passes: &mut Vec<Vec<Step>>,
    clients: u32,
    journals: &[Vec<PublisherEntry>],
    ranks: &[Vec<usize>],
) -> Result<(), OutOfMemory>
    requires { length journals.now < 2 ^ 32 }
    ensures { OnOk result (Dealt (map (λ pass. pass.items) passes.old.items) (map (λ pass. pass.items) passes.new.items) (clients_dealt (map (λ own. own.items) ranks.now) clients
        ++ publishers_dealt (map (λ own. own.items) ranks.now) clients (entries_of journals.now) (length journals.now))) }
{
    deal_clients(alloc, passes, clients, ranks)?;
    deal_publishers(alloc, passes, journals, ranks, clients as usize)?;
    Ok(())
}

/// Adds the steps of all clients to their passes.
fn deal_clients(
    alloc: Global,
    passes: &mut Vec<Vec<Step>>,
    clients: u32,
    ranks: &[Vec<usize>],
) -> Result<(), OutOfMemory>
    ensures { OnOk result (Dealt (map (λ pass. pass.items) passes.old.items) (map (λ pass. pass.items) passes.new.items) (clients_dealt (map (λ own. own.items) ranks.now) clients)) }
{
    for c in 0..clients {
        deal_client(alloc, passes, c, ranks_in(ranks, c as usize))?;
    }
    Ok(())
}

/// Adds the steps of all publishers to their passes. The first has this number among the actors.
fn deal_publishers(
    alloc: Global,
    passes: &mut Vec<Vec<Step>>,
    journals: &[Vec<PublisherEntry>],
    ranks: &[Vec<usize>],
    first: usize,
) -> Result<(), OutOfMemory>
    requires count { length journals.now < 2 ^ 32 }
    requires first { first + length journals.now < 2 ^ 64 }
    ensures { OnOk result (Dealt (map (λ pass. pass.items) passes.old.items) (map (λ pass. pass.items) passes.new.items)
        (publishers_dealt (map (λ own. own.items) ranks.now) first (entries_of journals.now) (length journals.now))) }
{
    for (p, journal) in journals.iter().enumerate() {
        let own = ranks_in(ranks, first + p);
        deal_publisher(alloc, passes, p as u32, journal.as_slice(), own)?;
    }
    Ok(())
}

/// Adds the steps of all queues to their passes. The first has this number among the actors.
fn deal_queues(
    alloc: Global,
    passes: &mut Vec<Vec<Step>>,
    journals: &[Vec<(u32, QueueNote)>],
    ranks: &[Vec<usize>],
    first: usize,
) -> Result<(), OutOfMemory>
    requires count { length journals.now < 2 ^ 32 }
    requires first { first + length journals.now < 2 ^ 64 }
    ensures { OnOk result (Dealt (map (λ pass. pass.items) passes.old.items) (map (λ pass. pass.items) passes.new.items)
        (queues_dealt (map (λ own. own.items) ranks.now) first (events_of journals.now) (length journals.now))) }
{
    for (q, journal) in journals.iter().enumerate() {
        let own = ranks_in(ranks, first + q);
        deal_taker(
            alloc,
            passes,
            Actor::Queue(q as u32),
            journal.as_slice(),
            own,
        )?;
    }
    Ok(())
}

/// The passes of the steps of an actor, by its number.
fn ranks_in(ranks: &[Vec<usize>], actor: usize) -> &[usize]
    ensures { result.now ≡ slice_index_or (map (λ own. own.items) ranks.now) actor [] }
{
    match ranks.get(actor) {
        None => &[],
        Some(own) => own.as_slice(),
    }
}

/// Adds the steps of a client to their passes.
fn deal_client(
    alloc: Global,
    passes: &mut Vec<Vec<Step>>,
    client: u32,
    ranks: &[usize],
) -> Result<(), OutOfMemory>
    ensures { OnOk result (Dealt (map (λ pass. pass.items) passes.old.items) (map (λ pass. pass.items) passes.new.items) (client_dealt client ranks.now)) }
{
    let step = Step {
        actor: Actor::Client(client),
        port: None,
    };
    for rank in ranks {
        deal(alloc, passes, *rank, step)?;
    }
    Ok(())
}

/// Adds the steps of a publisher to their passes.
fn deal_publisher(
    alloc: Global,
    passes: &mut Vec<Vec<Step>>,
    publisher: u32,
    journal: &[PublisherEntry],
    ranks: &[usize],
) -> Result<(), OutOfMemory>
    ensures { OnOk result (Dealt (map (λ pass. pass.items) passes.old.items) (map (λ pass. pass.items) passes.new.items) (publisher_dealt publisher ranks.now journal.now)) }
{
    for (k, rank) in ranks.iter().enumerate() {
        deal_entry(alloc, passes, publisher, *rank, entry_at(journal, k))?;
    }
    Ok(())
}

/// The entry of a journal, if there is one.
fn entry_at(journal: &[PublisherEntry], k: usize) -> Option<PublisherEntry>
    ensures { result ≡ slice_get journal.now k }
{
    match journal.get(k) {
        None => None,
        Some(entry) => Some(*entry),
    }
}

/// Adds the step of an entry of a publisher to its pass, if there is one.
fn deal_entry(
    alloc: Global,
    passes: &mut Vec<Vec<Step>>,
    publisher: u32,
    rank: usize,
    entry: Option<PublisherEntry>,
) -> Result<(), OutOfMemory>
    ensures { OnOk result (Dealt (map (λ pass. pass.items) passes.old.items) (map (λ pass. pass.items) passes.new.items) (publisher_step publisher rank entry)) }
{
    match entry {
        None => Ok(()),
        Some(entry) => {
            let step = Step {
                actor: Actor::Publisher(publisher),
                port: port_of(&entry),
            };
            deal(alloc, passes, rank, step)
        }
    }
}

/// The port by which an entry of a publisher takes an event. It has one.
fn port_of(entry: &PublisherEntry) -> Option<u32>
    ensures { result ≡ port_in entry.now }
{
    match entry {
        PublisherEntry::Took(_) => Some(0),
        PublisherEntry::Send | PublisherEntry::Done => None,
    }
}

/// Adds the steps of an actor that only takes to their passes.
fn deal_taker<N>(
    alloc: Global,
    passes: &mut Vec<Vec<Step>>,
    actor: Actor,
    journal: &[(u32, N)],
    ranks: &[usize],
) -> Result<(), OutOfMemory>
    ensures { OnOk result (Dealt (map (λ pass. pass.items) passes.old.items) (map (λ pass. pass.items) passes.new.items) (taker_dealt actor ranks.now journal.now)) }
{
    for (k, rank) in ranks.iter().enumerate() {
        deal_taken(alloc, passes, actor, *rank, port_at(journal, k))?;
    }
    Ok(())
}

/// The port by which an entry of a journal takes, if there is one.
fn port_at<N>(journal: &[(u32, N)], k: usize) -> Option<u32>
    ensures { result ≡ option_map (λ e. e.0) (slice_get journal.now k) }
{
    match journal.get(k) {
        None => None,
        Some(entry) => Some(entry.0),
    }
}

/// Adds a step that takes by a port to its pass, if there is one.
fn deal_taken(
    alloc: Global,
    passes: &mut Vec<Vec<Step>>,
    actor: Actor,
    rank: usize,
    port: Option<u32>,
) -> Result<(), OutOfMemory>
    ensures { OnOk result (Dealt (map (λ pass. pass.items) passes.old.items) (map (λ pass. pass.items) passes.new.items) (taker_step actor rank port)) }
{
    match port {
        None => Ok(()),
        Some(_) => deal(alloc, passes, rank, Step { actor, port }),
    }
}

/// Adds a step last in the pass of this number.
fn deal(
    alloc: Global,
    passes: &mut Vec<Vec<Step>>,
    rank: usize,
    step: Step,
) -> Result<(), OutOfMemory>
    ensures { OnOk result ((m : ℕ) → slice_index_or (map (λ pass. pass.items) passes.new.items) m [] ≡ slice_index_or (map (λ pass. pass.items) passes.old.items) m [] ++ one_for rank step m) }
{
    while passes.len() <= rank {
        passes.push(Vec::new(alloc))?;
    }
    let pass = &mut passes[rank];
    pass.push(step)?;
    Ok(())
}

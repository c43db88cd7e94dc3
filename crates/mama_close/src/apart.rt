ghost use Rattle.std.specs.Prelude.{◌≡◌, ◌<◌, ◌^◌, ℕ, List, length, map, IfOk, OnOk};
ghost use Rattle.std.specs.List.{All, flat_map};
ghost use Rattle.mama_journal.specs.Journal.{numbers_below};
ghost use Rattle.mama_event.specs.Listener.{told};
ghost use Rattle.mama_posts_clients.specs.Queue.{IsQueueOf};
ghost use Rattle.mama_record.specs.RunView.{moments_of, entries_of};
ghost use Rattle.mama_plans.specs.Numbered.{numbered, lists_put};
ghost use Rattle.mama_gather.specs.Left.{events_by, noted_by, none_noted};
ghost use Rattle.mama_close.specs.Kinds.{read_by, entries_by};
ghost use Rattle.mama_close.specs.InKinds.{kinds_in};
ghost use Rattle.mama_gather.specs.Places.{calls_on, AreCallsFound, AreListenersFound};
ghost use Rattle.mama_close.specs.Apart.{AreParts, BelongTo, AreEdgesOf};

use crate::clients::ClientEnds;
use crate::kinds::SeatsByKind;
use crate::publishers::PublisherEnds;
use mama_carry::{Carried, Listener, ToBridge, ToQueue, ToTimers};
use mama_crew::{BridgeSeat, ClientSeat, PublisherSeat, TimersSeat};
use mama_event::{
    BridgeNote, CallNote, PublisherEntry, QueueNote, TimersNote, ToPublisher, WatchNote,
};
use mama_gather::{QueueEnds, close_each, close_pairs, close_service};
use mama_lane::Lane;
use mama_memory::OutOfMemory;
use mama_plans::Plans;
use mama_posts_services::{BridgeParts, TimersParts};
use std::alloc::Global;
use std::sync::Wait;

/// The seats of a crew, taken apart: the ends of all lanes, and what each seat leaves.
#[derive(Drop)]
pub(crate) struct Apart<L: Listener> {
    pub(crate) clients: ClientEnds<L>,
    pub(crate) publishers: PublisherEnds<L>,
    pub(crate) queues: QueueEnds<L>,
    pub(crate) bridge: BridgeParts<L>,
    pub(crate) timers: TimersParts<L>,
}

impl<L: Listener> Apart<L> {
    /// Takes the seats apart; there are so many watches. The error is want of memory, or an object that came to another queue
    /// than its own, which no crew has.
    pub(crate) fn of(
        alloc: Global,
        plans: &Plans,
        watches: usize,
        seats: SeatsByKind<L>,
    ) -> Result<Apart<L>, OutOfMemory>
        requires numbers { map (λ s. s.0) seats.queues.items ≡ numbers_below (length seats.queues.items) }
        requires keeps { All (λ s. IsQueueOf plans.now s.0 s.1) seats.queues.items }
        requires few { watches < 2 ^ 32 }
        ensures parts { IfOk result (λ apart. AreParts (kinds_in seats) apart) }
        ensures calls { IfOk result (λ apart. AreCallsFound (calls_on plans.now (map events_by seats.queues.items)) plans.now apart.queues.calls.items) }
        ensures listeners { IfOk result (λ apart. AreListenersFound (told L.tagged L.calls L.heard L.given L.plan) (calls_on plans.now (map events_by seats.queues.items)) plans.now apart.queues.listeners.items) }
        ensures noted { IfOk result (λ apart. numbered apart.queues.noted.items ≡ lists_put (flat_map noted_by seats.queues.items) (map none_noted (numbers_below watches))) }
    {
        let SeatsByKind {
            clients,
            publishers,
            bridge,
            timers,
            queues,
        } = seats;
        let services = services_apart(bridge, timers);
        let senders = senders_apart(alloc, clients, publishers)?;
        let queues = QueueEnds::of(alloc, plans, watches, queues)?;
        let Services { bridge, timers } = services;
        let Senders {
            clients,
            publishers,
        } = senders;
        Ok(Apart {
            clients,
            publishers,
            queues,
            bridge,
            timers,
        })
    }
}

// What the seats of both services leave, in one value, so that there is one to let go where no memory is found.
#[derive(Drop)]
struct Services<L: Listener> {
    bridge: BridgeParts<L>,
    timers: TimersParts<L>,
}

// What the seats of clients and publishers leave.
#[derive(Drop)]
struct Senders<L: Listener> {
    clients: ClientEnds<L>,
    publishers: PublisherEnds<L>,
}

// The seats of both services, taken apart.
fn services_apart<L: Listener>(bridge: BridgeSeat<L>, timers: TimersSeat<L>) -> Services<L>
    ensures bridge_taker { result.bridge.taker ≡ bridge.service.inlet.taker }
    ensures bridge_publishers { result.bridge.publishers.items ≡ bridge.ports.publishers }
    ensures bridge_queues { result.bridge.queues.items ≡ bridge.ports.queues }
    ensures bridge_timers { result.bridge.timers ≡ bridge.ports.timers }
    ensures bridge_journal { result.bridge.journal.items ≡ bridge.service.journal }
    ensures timers_taker { result.timers.taker ≡ timers.service.inlet.taker }
    ensures timers_queues { result.timers.queues.items ≡ timers.queues }
    ensures timers_journal { result.timers.journal.items ≡ timers.service.journal }
{
    Services {
        bridge: bridge_apart(bridge),
        timers: timers_apart(timers),
    }
}

// The seats of clients and publishers, taken apart.
fn senders_apart<L: Listener>(
    alloc: Global,
    clients: Vec<(u32, ClientSeat<L>)>,
    publishers: Vec<(u32, PublisherSeat<L>)>,
) -> Result<Senders<L>, OutOfMemory>
    ensures clients_bridge { IfOk result (λ ends. ends.clients.to_bridge.items ≡ map (λ s. s.1.post.ports.to_bridge) clients.items) }
    ensures clients_timers { IfOk result (λ ends. ends.clients.to_timers.items ≡ map (λ s. s.1.post.ports.to_timers) clients.items) }
    ensures moments { IfOk result (λ ends. moments_of ends.clients.moments.items ≡ map read_by clients.items) }
    ensures publishers_takers { IfOk result (λ ends. ends.publishers.takers.items ≡ map (λ s. s.1.inlet.taker) publishers.items) }
    ensures publishers_bridge { IfOk result (λ ends. ends.publishers.to_bridge.items ≡ map (λ s. s.1.port) publishers.items) }
    ensures entries { IfOk result (λ ends. entries_of ends.publishers.journals.items ≡ map entries_by publishers.items) }
{
    let clients = ClientEnds::of(alloc, clients)?;
    let publishers = PublisherEnds::of(alloc, publishers)?;
    Ok(Senders {
        clients,
        publishers,
    })
}

// The bridge's seat, taken apart.
fn bridge_apart<L: Listener>(seat: BridgeSeat<L>) -> BridgeParts<L>
    ensures taker { result.taker ≡ seat.service.inlet.taker }
    ensures publishers { result.publishers.items ≡ seat.ports.publishers }
    ensures queues { result.queues.items ≡ seat.ports.queues }
    ensures timers { result.timers ≡ seat.ports.timers }
    ensures journal { result.journal.items ≡ seat.service.journal }
{
    seat.into_post().into_parts()
}

// The timer service's seat, taken apart.
fn timers_apart<L: Listener>(seat: TimersSeat<L>) -> TimersParts<L>
    ensures taker { result.taker ≡ seat.service.inlet.taker }
    ensures queues { result.queues.items ≡ seat.queues }
    ensures journal { result.journal.items ≡ seat.service.journal }
{
    seat.into_post().into_parts()
}

/// What the seats leave once all lanes are closed: moments and journals; callbacks and listeners, each at the place of its
/// object; and what each watch noted.
#[derive(Drop)]
pub(crate) struct Gathered<L: Listener> {
    pub(crate) moments: Vec<Vec<u64>>,
    pub(crate) entries: Vec<Vec<PublisherEntry>>,
    pub(crate) bridge: Vec<(u32, BridgeNote)>,
    pub(crate) timers: Vec<(u32, TimersNote)>,
    pub(crate) events: Vec<Vec<(u32, QueueNote)>>,
    pub(crate) calls: Vec<Option<Vec<CallNote>>>,
    pub(crate) listeners: Vec<Option<L>>,
    pub(crate) noted: Vec<(u32, Vec<WatchNote>)>,
}

/// Closes all lanes, and gives what the seats leave.
pub(crate) fn close_lanes<L: Listener, Rt: Wait + Copy>(
    rt: Rt,
    alloc: Global,
    to_bridge: Lane<ToBridge<Carried<L>>>,
    to_timers: Lane<ToTimers<Carried<L>>>,
    to_publishers: Vec<Lane<ToPublisher>>,
    to_queues: Vec<Lane<ToQueue<Carried<L>>>>,
    apart: Apart<L>,
) -> Result<Gathered<L>, OutOfMemory>
    requires { BelongTo to_bridge to_timers to_publishers.items to_queues.items apart }
    ensures edges { OnOk result (AreEdgesOf apart) }
    ensures moments { IfOk result (λ r. r.moments ≡ apart.clients.moments) }
    ensures entries { IfOk result (λ r. r.entries ≡ apart.publishers.journals) }
    ensures bridge { IfOk result (λ r. r.bridge ≡ apart.bridge.journal) }
    ensures timers { IfOk result (λ r. r.timers ≡ apart.timers.journal) }
    ensures events { IfOk result (λ r. r.events ≡ apart.queues.journals) }
    ensures calls { IfOk result (λ r. r.calls ≡ apart.queues.calls) }
    ensures listeners { IfOk result (λ r. r.listeners ≡ apart.queues.listeners) }
    ensures noted { IfOk result (λ r. r.noted ≡ apart.queues.noted) }
{
    let Apart {
        clients,
        publishers,
        queues,
        bridge,
        timers,
    } = apart;
    let mut alone = Vec::new(alloc);
    alone.push(bridge.timers)?;
    close_service(
        rt,
        to_bridge,
        clients.to_bridge,
        publishers.to_bridge,
        queues.to_bridge,
        bridge.taker,
    )?;
    close_service(
        rt,
        to_timers,
        clients.to_timers,
        queues.to_timers,
        alone,
        timers.taker,
    )?;
    close_each(
        rt,
        alloc,
        to_publishers,
        bridge.publishers,
        publishers.takers,
    )?;
    close_pairs(
        rt,
        alloc,
        to_queues,
        bridge.queues,
        timers.queues,
        queues.takers,
    )?;
    Ok(Gathered {
        moments: clients.moments,
        entries: publishers.journals,
        bridge: bridge.journal,
        timers: timers.journal,
        events: queues.journals,
        calls: queues.calls,
        listeners: queues.listeners,
        noted: queues.noted,
    })
}

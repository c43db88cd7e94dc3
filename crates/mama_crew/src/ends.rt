// The ends of a hall's lanes, by the kind of actor that has them.
ghost use Rattle.std.specs.Prelude.{◌≡◌, ◌+◌, map, IfOk};
ghost use Rattle.mama_event.specs.Ports.{clients_of, publishers_of, queues_of, timers_port_of_bridge, queue_port_of_bridge, queue_port_of_timers};
ghost use Rattle.mama_hall.specs.Ends.{ports_from};
ghost use Rattle.mama_lane.specs.Values.{new_port, new_taker};
ghost use Rattle.mama_crew.specs.Hall.{IsHallOf};

use crate::hall::Hall;
use mama_carry::{Carried, Listener, ToBridge, ToQueue, ToTimers};
use mama_ends::{Port, Taker};
use mama_event::ToPublisher;
use mama_hall::{BridgeLane, PublisherLanes, QueueLanes, TimersLane};
use mama_memory::OutOfMemory;
use mama_plans::plans_of;
use mama_script::Script;
use std::alloc::Global;

/// The ends that clients have, in the order of their numbers.
#[derive(Drop)]
pub(crate) struct ClientEnds<L: Listener> {
    pub to_bridge: Vec<Port<ToBridge<Carried<L>>>>,
    pub to_timers: Vec<Port<ToTimers<Carried<L>>>>,
}

/// The ends that publishers have, in the order of their numbers.
#[derive(Drop)]
pub(crate) struct PublisherEnds<L: Listener> {
    pub takers: Vec<Taker<ToPublisher>>,
    pub to_bridge: Vec<Port<ToBridge<Carried<L>>>>,
}

/// The ends that the bridge has, those of publishers and queues in the order of their numbers.
#[derive(Drop)]
pub(crate) struct BridgeEnds<L: Listener> {
    pub taker: Taker<ToBridge<Carried<L>>>,
    pub to_publishers: Vec<Port<ToPublisher>>,
    pub to_queues: Vec<Port<ToQueue<Carried<L>>>>,
    pub to_timers: Port<ToTimers<Carried<L>>>,
}

/// The ends that the timer service has, those of queues in the order of their numbers.
#[derive(Drop)]
pub(crate) struct TimersEnds<L: Listener> {
    pub taker: Taker<ToTimers<Carried<L>>>,
    pub to_queues: Vec<Port<ToQueue<Carried<L>>>>,
}

/// The ends that queues have, in the order of their numbers.
#[derive(Drop)]
pub(crate) struct QueueEnds<L: Listener> {
    pub takers: Vec<Taker<ToQueue<Carried<L>>>>,
    pub to_bridge: Vec<Port<ToBridge<Carried<L>>>>,
    pub to_timers: Vec<Port<ToTimers<Carried<L>>>>,
}

/// The ends of all lanes of a hall.
#[derive(Drop)]
pub(crate) struct Ends<L: Listener> {
    pub clients: ClientEnds<L>,
    pub publishers: PublisherEnds<L>,
    pub bridge: BridgeEnds<L>,
    pub timers: TimersEnds<L>,
    pub queues: QueueEnds<L>,
}

/// The hall of a script, with the ends of its lanes, by which nothing was put or taken. The error is want of memory.
pub(crate) fn open_hall<L: Listener, Rt: Copy>(
    rt: Rt,
    alloc: Global,
    script: &Script,
) -> Result<(Hall<L>, Ends<L>), OutOfMemory>
    ensures hall { IfOk result (λ r. IsHallOf script.now r.0) }
    ensures clients_bridge { IfOk result (λ r. r.1.clients.to_bridge.items ≡ ports_from r.0.to_bridge 0 (clients_of script.now.shape)) }
    ensures clients_timers { IfOk result (λ r. r.1.clients.to_timers.items ≡ ports_from r.0.to_timers 0 (clients_of script.now.shape)) }
    ensures publishers_takers { IfOk result (λ r. r.1.publishers.takers.items ≡ map new_taker r.0.to_publishers) }
    ensures publishers_bridge { IfOk result (λ r. r.1.publishers.to_bridge.items ≡ ports_from r.0.to_bridge (clients_of script.now.shape) (publishers_of script.now.shape)) }
    ensures bridge_taker { IfOk result (λ r. r.1.bridge.taker ≡ new_taker r.0.to_bridge) }
    ensures bridge_publishers { IfOk result (λ r. r.1.bridge.to_publishers.items ≡ map (λ lane. new_port lane 0) r.0.to_publishers) }
    ensures bridge_queues { IfOk result (λ r. r.1.bridge.to_queues.items ≡ map (λ lane. new_port lane queue_port_of_bridge) r.0.to_queues) }
    ensures bridge_timers { IfOk result (λ r. r.1.bridge.to_timers ≡ new_port r.0.to_timers (timers_port_of_bridge script.now.shape)) }
    ensures timers_taker { IfOk result (λ r. r.1.timers.taker ≡ new_taker r.0.to_timers) }
    ensures timers_queues { IfOk result (λ r. r.1.timers.to_queues.items ≡ map (λ lane. new_port lane queue_port_of_timers) r.0.to_queues) }
    ensures queues_takers { IfOk result (λ r. r.1.queues.takers.items ≡ map new_taker r.0.to_queues) }
    ensures queues_bridge { IfOk result (λ r. r.1.queues.to_bridge.items ≡ ports_from r.0.to_bridge (clients_of script.now.shape + publishers_of script.now.shape) (queues_of script.now.shape)) }
    ensures queues_timers { IfOk result (λ r. r.1.queues.to_timers.items ≡ ports_from r.0.to_timers (clients_of script.now.shape) (queues_of script.now.shape)) }
{
    let shape = script.shape();
    let plans = plans_of(alloc, script)?;
    let bridge = BridgeLane::open(rt, alloc, shape)?;
    let timers = TimersLane::open(rt, alloc, shape)?;
    let publishers = PublisherLanes::open(rt, alloc, shape.bounds, shape.publisher_topics.len())?;
    let queues = QueueLanes::open(rt, alloc, shape.bounds, shape.bounds.queues as usize)?;
    let hall = Hall::new(
        plans,
        bridge.lane,
        timers.lane,
        publishers.lanes,
        queues.lanes,
    );
    let ends = Ends {
        clients: ClientEnds {
            to_bridge: bridge.clients,
            to_timers: timers.clients,
        },
        publishers: PublisherEnds {
            takers: publishers.takers,
            to_bridge: bridge.publishers,
        },
        bridge: BridgeEnds {
            taker: bridge.taker,
            to_publishers: publishers.bridge,
            to_queues: queues.bridge,
            to_timers: timers.bridge,
        },
        timers: TimersEnds {
            taker: timers.taker,
            to_queues: queues.timers,
        },
        queues: QueueEnds {
            takers: queues.takers,
            to_bridge: bridge.queues,
            to_timers: timers.queues,
        },
    };
    Ok((hall, ends))
}

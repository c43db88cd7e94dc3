ghost use Rattle.std.specs.Prelude.{◌≡◌, ◌+◌, ◌^◌, ◌<◌, IfOk};
ghost use Rattle.mama_event.specs.Ports.{clients_of, publishers_of, queues_of, bridge_ports};
ghost use Rattle.mama_lane.specs.Values.{new_taker};
ghost use Rattle.mama_hall.specs.Ends.{ports_from, IsLaneOf};

use crate::ends::{open, part};
use mama_carry::{Carried, Listener};
use mama_event::{OutOfMemory, Shape, ToBridge};
use mama_lane::{Lane, Port, Taker};
use std::alloc::Global;

/// The bridge's lane with its ends: a port of each client, publisher and queue, and the bridge's taker.
#[derive(Drop)]
pub struct BridgeLane<L: Listener> {
    pub lane: Lane<ToBridge<Carried<L>>>,
    pub clients: Vec<Port<ToBridge<Carried<L>>>>,
    pub publishers: Vec<Port<ToBridge<Carried<L>>>>,
    pub queues: Vec<Port<ToBridge<Carried<L>>>>,
    pub taker: Taker<ToBridge<Carried<L>>>,
}

impl<L: Listener> BridgeLane<L> {
    /// The bridge's lane for a shape. The error is want of memory.
    pub fn open<Rt: Copy>(
        rt: Rt,
        alloc: Global,
        shape: &Shape,
    ) -> Result<BridgeLane<L>, OutOfMemory>
        requires few { bridge_ports shape.now < 2 ^ 32 }
        ensures lane { IfOk result (λ r. IsLaneOf shape.now.bounds (bridge_ports shape.now) r.lane) }
        ensures clients { IfOk result (λ r. r.clients.items ≡ ports_from r.lane 0 (clients_of shape.now)) }
        ensures publishers { IfOk result (λ r. r.publishers.items ≡ ports_from r.lane (clients_of shape.now) (publishers_of shape.now)) }
        ensures queues { IfOk result (λ r. r.queues.items ≡ ports_from r.lane (clients_of shape.now + publishers_of shape.now) (queues_of shape.now)) }
        ensures taker { IfOk result (λ r. r.taker ≡ new_taker r.lane) }
    {
        let clients = shape.clients;
        let publishers = shape.publisher_topics.len() as u32;
        let others = clients + publishers;
        let (lane, mut ports, taker) = open(rt, alloc, others + shape.bounds.queues, shape.bounds)?;
        let queues = part(&lane, &mut ports, others, shape.bounds.queues)?;
        let publishers = part(&lane, &mut ports, clients, publishers)?;
        Ok(BridgeLane {
            lane,
            clients: ports,
            publishers,
            queues,
            taker,
        })
    }
}

ghost use Rattle.std.specs.Prelude.{◌≡◌, ◌+◌, ◌^◌, ◌<◌, ◌∷◌, [], IfOk};
ghost use Rattle.mama_event.specs.Ports.{clients_of, queues_of, timers_port_of_bridge};
ghost use Rattle.mama_lane.specs.Values.{new_port, new_taker};
ghost use Rattle.mama_hall.specs.Ends.{ports_from, IsLaneOf};

use crate::ends::{open, part};
use mama_carry::{Carried, Listener};
use mama_event::{OutOfMemory, Shape, ToTimers};
use mama_lane::{Lane, Port, Taker};
use std::alloc::Global;

/// The timer service's lane with its ends: a port of each client and queue and of the bridge, and the service's taker.
#[derive(Drop)]
pub struct TimersLane<L: Listener> {
    pub lane: Lane<ToTimers<Carried<L>>>,
    pub clients: Vec<Port<ToTimers<Carried<L>>>>,
    pub queues: Vec<Port<ToTimers<Carried<L>>>>,
    pub bridge: Port<ToTimers<Carried<L>>>,
    pub taker: Taker<ToTimers<Carried<L>>>,
}

impl<L: Listener> TimersLane<L> {
    /// The timer service's lane for a shape. The error is want of memory.
    pub fn open<Rt: Copy>(
        rt: Rt,
        alloc: Global,
        shape: &Shape,
    ) -> Result<TimersLane<L>, OutOfMemory>
        requires few { timers_port_of_bridge shape.now + 1 < 2 ^ 32 }
        ensures lane { IfOk result (λ r. IsLaneOf shape.now.bounds (timers_port_of_bridge shape.now + 1) r.lane) }
        ensures clients { IfOk result (λ r. r.clients.items ≡ ports_from r.lane 0 (clients_of shape.now)) }
        ensures queues { IfOk result (λ r. r.queues.items ≡ ports_from r.lane (clients_of shape.now) (queues_of shape.now)) }
        ensures bridge { IfOk result (λ r. r.bridge ≡ new_port r.lane (timers_port_of_bridge shape.now)) }
        ensures taker { IfOk result (λ r. r.taker ≡ new_taker r.lane) }
    {
        let clients = shape.clients;
        let others = clients + shape.bounds.queues;
        let (lane, mut ports, taker) = open(rt, alloc, others + 1, shape.bounds)?;
        let mut last = part(&lane, &mut ports, others, 1)?;
        let bridge = last.pop().unwrap();
        let queues = part(&lane, &mut ports, clients, shape.bounds.queues)?;
        Ok(TimersLane {
            lane,
            clients: ports,
            queues,
            bridge,
            taker,
        })
    }
}

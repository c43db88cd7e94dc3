ghost use Rattle.std.specs.Prelude.{IfOk};
ghost use Rattle.std.specs.List.{All};
ghost use Rattle.mama_crew.specs.Crew.{IsCrew};
ghost use Rattle.mama_crew.specs.New.{HasDoneNothing};

use crate::ends::open_hall;
use crate::hall::Hall;
use crate::listeners::make_listeners;
use crate::opening::{seat_bridge, seat_clients, seat_publishers, seat_queues, seat_timers};
use crate::seat::Seat;
use mama_carry::{Listener, Maker};
use mama_memory::OutOfMemory;
use mama_plans::watches_by_queue;
use mama_script::Script;
use std::alloc::Global;

/// A crew: the seats of all actors of a script, and what they share.
#[derive(Drop)]
pub struct Crew<L: Listener> {
    pub hall: Hall<L>,
    /// Clients, publishers, the bridge, the timer service and queues, each kind in the order of its numbers.
    pub seats: Vec<Seat<L>>,
}

/// Opens the crew of a script, in which nothing was done yet. The maker makes the listeners of all objects, in the order of the
/// objects: subscriptions, timers and inboxes, each by client and number. The error is want of memory.
///
/// No clause says that each client has the listeners of its objects: a seat shows no listener that has not gone yet.
pub fn open_crew<L: Listener, M: Maker<L>, Rt: Copy>(
    rt: Rt,
    alloc: Global,
    script: &Script,
    maker: &mut M,
) -> Result<Crew<L>, OutOfMemory>
    ensures crew { IfOk result (λ crew. IsCrew script.now crew.hall crew.seats.items) }
    ensures new { IfOk result (λ crew. All HasDoneNothing crew.seats.items) }
{
    let (hall, ends) = open_hall(rt, alloc, script)?;
    let watches = watches_by_queue(alloc, script, hall.plans())?;
    let listeners = make_listeners(alloc, maker, hall.plans(), script.shape().clients)?;
    let mut seats = Vec::new(alloc);
    seat_clients(alloc, script, &hall, listeners, ends.clients, &mut seats)?;
    seat_publishers(alloc, script, &hall, ends.publishers, &mut seats)?;
    seat_bridge(alloc, script, &hall, ends.bridge, &mut seats)?;
    seat_timers(alloc, script, &hall, ends.timers, &mut seats)?;
    seat_queues(alloc, script, &hall, watches, ends.queues, &mut seats)?;
    Ok(Crew { hall, seats })
}

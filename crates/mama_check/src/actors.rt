ghost use Rattle.std.specs.Prelude.{◌≡◌, ◌+◌, ◌++◌, ◌<◌, ◌^◌, IfOk, OnOk};
ghost use Rattle.mama_event.specs.Ports.{publishers_of, clients_of};
ghost use Rattle.mama_check.specs.Causal.{bridge_actor, timers_actor, of_each, actors_to_bridge, actors_to_timers};

use mama_event::Shape;
use mama_memory::OutOfMemory;
use std::alloc::Global;

/// The numbers of the first publisher, the bridge, the timer service and the first queue among all actors; clients are
/// numbered from 0.
#[derive(Clone, Copy)]
pub(crate) struct Places {
    pub(crate) publishers: usize,
    pub(crate) bridge: usize,
    pub(crate) timers: usize,
    pub(crate) queues: usize,
}

/// Where the actors of a shape stand.
pub(crate) fn places_in(shape: &Shape) -> Places
    ensures publishers { result.publishers ≡ clients_of shape.now }
    ensures bridge { result.bridge ≡ bridge_actor shape.now }
    ensures timers { result.timers ≡ timers_actor shape.now }
    ensures queues { result.queues ≡ clients_of shape.now + publishers_of shape.now + 2 }
    ensures room { result.queues < 2 ^ 63 }
{
    let publishers = shape.clients as usize;
    let bridge = publishers + shape.publisher_topics.as_slice().len();
    Places {
        publishers,
        bridge,
        timers: bridge + 1,
        queues: bridge + 2,
    }
}

/// Adds the numbers of so many actors, from one on.
fn add_actors(actors: &mut Vec<usize>, first: usize, count: usize) -> Result<(), OutOfMemory>
    requires { first + count < 2 ^ 64 }
    ensures { OnOk result (actors.new.items ≡ actors.old.items ++ of_each count (λ k. first + k)) }
{
    for k in 0..count {
        actors.push(first + k)?;
    }
    Ok(())
}

/// The actors behind the ports of the bridge's lane.
pub(crate) fn bridge_putters(alloc: Global, shape: &Shape) -> Result<Vec<usize>, OutOfMemory>
    ensures { IfOk result (λ actors. actors.items ≡ actors_to_bridge shape.now) }
{
    let places = places_in(shape);
    let mut actors = Vec::new(alloc);
    add_actors(&mut actors, 0, shape.clients as usize)?;
    add_actors(
        &mut actors,
        places.publishers,
        shape.publisher_topics.as_slice().len(),
    )?;
    add_actors(&mut actors, places.queues, shape.bounds.queues as usize)?;
    Ok(actors)
}

/// The actors behind the ports of the timer service's lane.
pub(crate) fn timers_putters(alloc: Global, shape: &Shape) -> Result<Vec<usize>, OutOfMemory>
    ensures { IfOk result (λ actors. actors.items ≡ actors_to_timers shape.now) }
{
    let places = places_in(shape);
    let mut actors = Vec::new(alloc);
    add_actors(&mut actors, 0, shape.clients as usize)?;
    add_actors(&mut actors, places.queues, shape.bounds.queues as usize)?;
    actors.push(places.bridge)?;
    Ok(actors)
}

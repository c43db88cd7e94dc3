// The seats of the actors of each kind, in the order of their numbers.
ghost use Rattle.std.specs.Prelude.{◌≡◌, ◌+◌, ◌<◌, [], ◌∷◌, ◌++◌, length, map, OnOk};
ghost use Rattle.std.specs.List.{All};
ghost use Rattle.std.specs.Vec.Iter.{into_iter_items};
ghost use Rattle.mama_edge.specs.declared.gate.GateActor.TheVariants as gate;
ghost use Rattle.mama_event.specs.Ports.{clients_of, publishers_of, queues_of, timers_port_of_bridge, queue_port_of_bridge, queue_port_of_timers};
ghost use Rattle.mama_rules_rounds.specs.Sections.{setting_of};
ghost use Rattle.mama_plans.specs.Lists.{watches_on_each};
ghost use Rattle.mama_hall.specs.Ends.{ports_from};
ghost use Rattle.mama_lane.specs.Values.{new_port, new_taker};
ghost use Rattle.mama_crew.specs.Hall.{AreLanesOf};
ghost use Rattle.mama_crew.specs.Seat.{actor_of};
ghost use Rattle.mama_crew.specs.Crew.{client_actors, publisher_actors, queue_actors};
ghost use Rattle.mama_crew.specs.New.{IsNewSeatOf};

use crate::bridge::BridgeSeat;
use crate::client::ClientSeat;
use crate::ends::{BridgeEnds, ClientEnds, PublisherEnds, QueueEnds, TimersEnds};
use crate::hall::Hall;
use crate::publisher::PublisherSeat;
use crate::queue::new_queue;
use crate::seat::Seat;
use crate::timers::TimersSeat;
use mama_carry::Listener;
use mama_event::WatchRow;
use mama_memory::OutOfMemory;
use mama_posts_clients::ClientListeners;
use mama_script::Script;
use std::alloc::Global;
use std::vec::IntoIter;

// The next of some ends, where one is left.
fn next_of<T>(ends: &mut IntoIter<T>) -> T
    requires { 0 < length (into_iter_items ends.old) }
    ensures { into_iter_items ends.old ≡ result ∷ into_iter_items ends.new }
{
    match ends.next() {
        Some(end) => end,
        None => unreachable!(),
    }
}

// Adds a new seat to new ones.
fn add<L: Listener>(
    _script: &Script,
    _hall: &Hall<L>,
    seats: &mut Vec<Seat<L>>,
    seat: Seat<L>,
) -> Result<(), OutOfMemory>
    requires seats { All (IsNewSeatOf _script.now _hall.now) seats.old.items }
    requires seat { IsNewSeatOf _script.now _hall.now seat }
    ensures actors { OnOk result (map actor_of seats.new.items ≡ map actor_of seats.old.items ++ actor_of seat ∷ []) }
    ensures seats { OnOk result (All (IsNewSeatOf _script.now _hall.now) seats.new.items) }
{
    seats.push(seat)?;
    Ok(())
}

/// Adds the seats of the clients, each with its listeners and its ports.
pub(crate) fn seat_clients<L: Listener>(
    alloc: Global,
    script: &Script,
    hall: &Hall<L>,
    listeners: Vec<ClientListeners<L>>,
    ends: ClientEnds<L>,
    seats: &mut Vec<Seat<L>>,
) -> Result<(), OutOfMemory>
    requires lanes { AreLanesOf script.now.shape hall.now }
    requires listeners { length listeners.items ≡ clients_of script.now.shape }
    requires bridge { ends.to_bridge.items ≡ ports_from hall.now.to_bridge 0 (clients_of script.now.shape) }
    requires timers { ends.to_timers.items ≡ ports_from hall.now.to_timers 0 (clients_of script.now.shape) }
    requires seats { All (IsNewSeatOf script.now hall.now) seats.old.items }
    ensures actors { OnOk result (map actor_of seats.new.items ≡ map actor_of seats.old.items ++ client_actors script.now.shape) }
    ensures seats { OnOk result (All (IsNewSeatOf script.now hall.now) seats.new.items) }
{
    let mut owned = listeners.into_iter();
    let mut bridge_ports = ends.to_bridge.into_iter();
    let mut timer_ports = ends.to_timers.into_iter();
    for number in 0..script.shape().clients {
        let own = next_of(&mut owned);
        let bridge = next_of(&mut bridge_ports);
        let timers = next_of(&mut timer_ports);
        let seat = ClientSeat::new(alloc, script, hall, number, own, bridge, timers);
        add(script, hall, seats, Seat::Client(number, seat))?;
    }
    Ok(())
}

/// Adds the seats of the publishers, each with the ends of its lanes.
pub(crate) fn seat_publishers<L: Listener>(
    alloc: Global,
    script: &Script,
    hall: &Hall<L>,
    ends: PublisherEnds<L>,
    seats: &mut Vec<Seat<L>>,
) -> Result<(), OutOfMemory>
    requires lanes { AreLanesOf script.now.shape hall.now }
    requires takers { ends.takers.items ≡ map new_taker hall.now.to_publishers }
    requires bridge { ends.to_bridge.items ≡ ports_from hall.now.to_bridge (clients_of script.now.shape) (publishers_of script.now.shape) }
    requires seats { All (IsNewSeatOf script.now hall.now) seats.old.items }
    ensures actors { OnOk result (map actor_of seats.new.items ≡ map actor_of seats.old.items ++ publisher_actors script.now.shape) }
    ensures seats { OnOk result (All (IsNewSeatOf script.now hall.now) seats.new.items) }
{
    let mut inlets = ends.takers.into_iter();
    let mut bridge_ports = ends.to_bridge.into_iter();
    for number in 0..script.shape().publisher_topics.len() as u32 {
        let taker = next_of(&mut inlets);
        let bridge = next_of(&mut bridge_ports);
        let seat = PublisherSeat::new(alloc, script, hall, number, taker, bridge)?;
        add(script, hall, seats, Seat::Publisher(number, seat))?;
    }
    Ok(())
}

/// Adds the bridge's seat with the ends of its lanes.
pub(crate) fn seat_bridge<L: Listener>(
    alloc: Global,
    script: &Script,
    hall: &Hall<L>,
    ends: BridgeEnds<L>,
    seats: &mut Vec<Seat<L>>,
) -> Result<(), OutOfMemory>
    requires lanes { AreLanesOf script.now.shape hall.now }
    requires taker { ends.taker ≡ new_taker hall.now.to_bridge }
    requires publishers { ends.to_publishers.items ≡ map (λ lane. new_port lane 0) hall.now.to_publishers }
    requires queues { ends.to_queues.items ≡ map (λ lane. new_port lane queue_port_of_bridge) hall.now.to_queues }
    requires timers { ends.to_timers ≡ new_port hall.now.to_timers (timers_port_of_bridge script.now.shape) }
    requires seats { All (IsNewSeatOf script.now hall.now) seats.old.items }
    ensures actors { OnOk result (map actor_of seats.new.items ≡ map actor_of seats.old.items ++ gate.Bridge ∷ []) }
    ensures seats { OnOk result (All (IsNewSeatOf script.now hall.now) seats.new.items) }
{
    let seat = BridgeSeat::new(alloc, script, hall, ends)?;
    add(script, hall, seats, Seat::Bridge(seat))
}

/// Adds the timer service's seat with the ends of its lanes.
pub(crate) fn seat_timers<L: Listener>(
    alloc: Global,
    script: &Script,
    hall: &Hall<L>,
    ends: TimersEnds<L>,
    seats: &mut Vec<Seat<L>>,
) -> Result<(), OutOfMemory>
    requires lanes { AreLanesOf script.now.shape hall.now }
    requires taker { ends.taker ≡ new_taker hall.now.to_timers }
    requires queues { ends.to_queues.items ≡ map (λ lane. new_port lane queue_port_of_timers) hall.now.to_queues }
    requires seats { All (IsNewSeatOf script.now hall.now) seats.old.items }
    ensures actors { OnOk result (map actor_of seats.new.items ≡ map actor_of seats.old.items ++ gate.Timers ∷ []) }
    ensures seats { OnOk result (All (IsNewSeatOf script.now hall.now) seats.new.items) }
{
    let seat = TimersSeat::new(alloc, script, hall, ends)?;
    add(script, hall, seats, Seat::Timers(seat))
}

/// Adds the seats of the queues, each with its watches and the ends of its lanes.
pub(crate) fn seat_queues<L: Listener>(
    alloc: Global,
    script: &Script,
    hall: &Hall<L>,
    watches: Vec<Vec<(u32, WatchRow)>>,
    ends: QueueEnds<L>,
    seats: &mut Vec<Seat<L>>,
) -> Result<(), OutOfMemory>
    requires lanes { AreLanesOf script.now.shape hall.now }
    requires watches { map (λ list. list.items) watches.items ≡ watches_on_each (queues_of script.now.shape) (setting_of script.now).watches }
    requires takers { ends.takers.items ≡ map new_taker hall.now.to_queues }
    requires bridge { ends.to_bridge.items ≡ ports_from hall.now.to_bridge (clients_of script.now.shape + publishers_of script.now.shape) (queues_of script.now.shape) }
    requires timers { ends.to_timers.items ≡ ports_from hall.now.to_timers (clients_of script.now.shape) (queues_of script.now.shape) }
    requires seats { All (IsNewSeatOf script.now hall.now) seats.old.items }
    ensures actors { OnOk result (map actor_of seats.new.items ≡ map actor_of seats.old.items ++ queue_actors script.now.shape) }
    ensures seats { OnOk result (All (IsNewSeatOf script.now hall.now) seats.new.items) }
{
    let mut inlets = ends.takers.into_iter();
    let mut bridge_ports = ends.to_bridge.into_iter();
    let mut timer_ports = ends.to_timers.into_iter();
    let mut lists = watches.into_iter();
    for number in 0..script.shape().bounds.queues {
        let watches = next_of(&mut lists);
        let taker = next_of(&mut inlets);
        let bridge = next_of(&mut bridge_ports);
        let timers = next_of(&mut timer_ports);
        let seat = new_queue(alloc, script, hall, number, watches, taker, bridge, timers)?;
        add(script, hall, seats, Seat::Queue(number, seat))?;
    }
    Ok(())
}

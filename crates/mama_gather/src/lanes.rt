// The closing of lanes, each with its ports and its taker.
ghost use Rattle.std.specs.Prelude.{◌≡◌, map, OnOk};
ghost use Rattle.std.specs.List.{All, AllZip};
ghost use Rattle.mama_posts_services.specs.Ports.{lanes_of, ids_of};
ghost use Rattle.mama_gather.specs.Edge.{IsEdgeOf};

use mama_event::Stream;
use mama_lane::{Lane, Port, Taker, close_lane};
use mama_memory::OutOfMemory;
use std::alloc::Global;
use std::sync::Wait;

/// Closes the lane of a service, on which three kinds of actors put. The error is want of memory; then the lane is dropped, and
/// nothing is told of it.
pub fn close_service<E: Stream, Rt: Wait + Copy>(
    rt: Rt,
    lane: Lane<E>,
    first: Vec<Port<E>>,
    second: Vec<Port<E>>,
    third: Vec<Port<E>>,
    taker: Taker<E>,
) -> Result<(), OutOfMemory>
    requires first { All (λ port. port.lane ≡ lane.id) first.items }
    requires second { All (λ port. port.lane ≡ lane.id) second.items }
    requires third { All (λ port. port.lane ≡ lane.id) third.items }
    requires taker { taker.lane ≡ lane.id }
    ensures first { OnOk result (All (IsEdgeOf E.last taker) first.items) }
    ensures second { OnOk result (All (IsEdgeOf E.last taker) second.items) }
    ensures third { OnOk result (All (IsEdgeOf E.last taker) third.items) }
{
    let mut ports = first;
    let mut second = second;
    let mut third = third;
    ports.append(&mut second)?;
    ports.append(&mut third)?;
    close_lane(rt, lane, ports, taker);
    Ok(())
}

/// Closes the lanes of actors of one kind, each of which has one port, lane by lane. The error is want of memory; then all that is
/// left is dropped.
pub fn close_each<E: Stream, Rt: Wait + Copy>(
    rt: Rt,
    alloc: Global,
    lanes: Vec<Lane<E>>,
    ports: Vec<Port<E>>,
    takers: Vec<Taker<E>>,
) -> Result<(), OutOfMemory>
    requires ports { lanes_of ports.items ≡ ids_of lanes.items }
    requires takers { map (λ taker. taker.lane) takers.items ≡ ids_of lanes.items }
    ensures { OnOk result (AllZip (λ port taker. IsEdgeOf E.last taker port) ports.items takers.items) }
{
    let mut lanes = lanes;
    let mut ports = ports;
    let mut takers = takers;
    'lanes: while let Some(lane) = lanes.pop() {
        let Some(port) = ports.pop() else {
            unreachable!()
        };
        let Some(taker) = takers.pop() else {
            unreachable!()
        };
        close_one(rt, alloc, lane, port, taker)?;
    }
    Ok(())
}

// Closes a lane that has one port.
fn close_one<E: Stream, Rt: Wait + Copy>(
    rt: Rt,
    alloc: Global,
    lane: Lane<E>,
    port: Port<E>,
    taker: Taker<E>,
) -> Result<(), OutOfMemory>
    requires port { port.lane ≡ lane.id }
    requires taker { taker.lane ≡ lane.id }
    ensures { OnOk result (IsEdgeOf E.last taker port) }
{
    let mut ports = Vec::new(alloc);
    ports.push(port)?;
    close_lane(rt, lane, ports, taker);
    Ok(())
}

/// Closes the lanes of actors of one kind, each of which has two ports, lane by lane. The error is want of memory; then all that
/// is left is dropped.
pub fn close_pairs<E: Stream, Rt: Wait + Copy>(
    rt: Rt,
    alloc: Global,
    lanes: Vec<Lane<E>>,
    first: Vec<Port<E>>,
    second: Vec<Port<E>>,
    takers: Vec<Taker<E>>,
) -> Result<(), OutOfMemory>
    requires first { lanes_of first.items ≡ ids_of lanes.items }
    requires second { lanes_of second.items ≡ ids_of lanes.items }
    requires takers { map (λ taker. taker.lane) takers.items ≡ ids_of lanes.items }
    ensures first { OnOk result (AllZip (λ port taker. IsEdgeOf E.last taker port) first.items takers.items) }
    ensures second { OnOk result (AllZip (λ port taker. IsEdgeOf E.last taker port) second.items takers.items) }
{
    let mut lanes = lanes;
    let mut first = first;
    let mut second = second;
    let mut takers = takers;
    'lanes: while let Some(lane) = lanes.pop() {
        let Some(one) = first.pop() else {
            unreachable!()
        };
        let Some(other) = second.pop() else {
            unreachable!()
        };
        let Some(taker) = takers.pop() else {
            unreachable!()
        };
        close_two(rt, alloc, lane, one, other, taker)?;
    }
    Ok(())
}

// Closes a lane that has two ports.
fn close_two<E: Stream, Rt: Wait + Copy>(
    rt: Rt,
    alloc: Global,
    lane: Lane<E>,
    one: Port<E>,
    other: Port<E>,
    taker: Taker<E>,
) -> Result<(), OutOfMemory>
    requires one { one.lane ≡ lane.id }
    requires other { other.lane ≡ lane.id }
    requires taker { taker.lane ≡ lane.id }
    ensures one { OnOk result (IsEdgeOf E.last taker one) }
    ensures other { OnOk result (IsEdgeOf E.last taker other) }
{
    let mut ports = Vec::new(alloc);
    ports.push(one)?;
    ports.push(other)?;
    close_lane(rt, lane, ports, taker);
    Ok(())
}

ghost use Rattle.std.specs.Prelude.{◌≡◌, ◌+◌, ◌≤◌, [], vec_capacity, IfOk};
ghost use Rattle.crossbeam_queue.specs.SegTies.{IsSegPassOf};
ghost use Rattle.mama_lane.specs.Steps.{opened};
ghost use Rattle.mama_lane.specs.Values.{new_port, new_ports, new_taker};

use crate::ahead::AHEAD;
use crate::lane::Lane;
use crate::looker::Looker;
use crate::port::Port;
use crate::rule::{Pass, Queue};
use crate::steps;
use crate::taker::Taker;
use mama_event::{Bounds, OutOfMemory, Stream};
use std::alloc::Global;
use std::collections::VecDeque;
use std::marker::Brand;

/// A lane with its ports, in the order of their numbers, which count from 0, and its taker. Nothing was put or taken.
///
/// A port may put what its stream's law allows within `bounds`. The error is want of memory.
pub fn open_lane<E: Stream, Rt: Copy>(
    _rt: Rt,
    alloc: Global,
    ports: u32,
    bounds: Bounds,
) -> Result<(Lane<E>, Vec<Port<E>>, Taker<E>), OutOfMemory>
    ensures lane { IfOk result (λ r. (r.0.bounds ≡ bounds) × (r.0.ports ≡ ports)) }
    ensures ports { IfOk result (λ r. r.1.items ≡ new_ports r.0 ports) }
    ensures taker { IfOk result (λ r. r.2 ≡ new_taker r.0) }
{
    let ended = Vec::from_elem(alloc, false, ports as usize)?;
    let room = Vec::with_capacity(alloc, ports as usize)?;
    let buffer = VecDeque::with_capacity(alloc, AHEAD)?;
    let (queue, mut pass) = Queue::<E>::with_rule(alloc)?;
    steps::bind::<E, Brand>(&queue, &mut pass, bounds);
    let lane = Lane {
        queue,
        bounds,
        ports,
    };
    let made = make_ports(&lane, &mut pass, room);
    let taker = Taker {
        looker: Looker { pass },
        ended,
        buffer,
    };
    Ok((lane, made, taker))
}

// Makes all ports of the lane, for which there is room.
fn make_ports<E: Stream>(lane: &Lane<E>, pass: &mut Pass<E>, room: Vec<Port<E>>) -> Vec<Port<E>>
    requires room { (room.items ≡ []) × (lane.now.ports ≤ vec_capacity room) }
    requires pass { IsSegPassOf lane.now.id pass.old × (pass.old.id ≡ 0) }
    requires view { pass.old.me.view.client ≡ opened lane.now.bounds 0 }
    ensures pass { IsSegPassOf lane.now.id pass.new × (pass.new.id ≡ 0) }
    ensures view { pass.new.me.view.client ≡ opened lane.now.bounds lane.now.ports }
    ensures ports { result.items ≡ new_ports lane.now lane.now.ports }
{
    let mut made = room;
    for number in 0..lane.ports {
        made.push_reserved(make_port(lane, pass, number));
    }
    made
}

// Makes the port of the next number.
fn make_port<E: Stream>(lane: &Lane<E>, pass: &mut Pass<E>, number: u32) -> Port<E>
    requires pass { IsSegPassOf lane.now.id pass.old × (pass.old.id ≡ 0) }
    requires view { pass.old.me.view.client ≡ opened lane.now.bounds number }
    ensures pass { IsSegPassOf lane.now.id pass.new × (pass.new.id ≡ 0) }
    ensures view { pass.new.me.view.client ≡ opened lane.now.bounds (number + 1) }
    ensures port { result ≡ new_port lane.now number }
{
    let port = steps::make_port(&lane.queue, pass);
    Port { number, pass: port }
}

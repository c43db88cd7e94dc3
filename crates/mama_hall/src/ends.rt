ghost use Rattle.std.specs.Prelude.{◌≡◌, ◌+◌, IfOk, OnOk};
ghost use Rattle.mama_lane.specs.Values.{new_taker};
ghost use Rattle.mama_hall.specs.Ends.{ports_from, IsLaneOf};

use mama_event::{Bounds, OutOfMemory, Stream};
use mama_lane::{Lane, Port, Taker, open_lane};
use std::alloc::Global;

/// A lane with its ports from number 0 on, and its taker.
#[tactic(auto, using(crate::proofs::PortLemmas::new_ports_count))]
pub(crate) fn open<E: Stream, Rt: Copy>(
    rt: Rt,
    alloc: Global,
    ports: u32,
    bounds: Bounds,
) -> Result<(Lane<E>, Vec<Port<E>>, Taker<E>), OutOfMemory>
    ensures lane { IfOk result (λ r. IsLaneOf bounds ports r.0) }
    ensures ports { IfOk result (λ r. r.1.items ≡ ports_from r.0 0 ports) }
    ensures taker { IfOk result (λ r. r.2 ≡ new_taker r.0) }
{
    let (lane, ports, taker) = open_lane(rt, alloc, ports, bounds)?;
    Ok((lane, ports, taker))
}

/// Parts the ports of a lane: those before this number stay, and those from it on come back. The error is want of memory.
pub(crate) fn part<E: Stream>(
    _lane: &Lane<E>,
    ports: &mut Vec<Port<E>>,
    front: u32,
    _back: u32,
) -> Result<Vec<Port<E>>, OutOfMemory>
    requires { ports.old.items ≡ ports_from _lane.now 0 (front + _back) }
    ensures front { OnOk result (ports.new.items ≡ ports_from _lane.now 0 front) }
    ensures back { IfOk result (λ back. back.items ≡ ports_from _lane.now front _back) }
{
    Ok(ports.split_off(front as usize)?)
}

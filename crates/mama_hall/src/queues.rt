ghost use Rattle.std.specs.Prelude.{◌≡◌, ◌+◌, length, map, IfOk, OnOk};
ghost use Rattle.std.specs.List.{All};
ghost use Rattle.mama_lane.specs.Values.{new_port, new_taker};
ghost use Rattle.mama_hall.specs.Ends.{IsLaneOf};

use crate::ends::open;
use mama_carry::{Carried, Listener};
use mama_event::{Bounds, OutOfMemory, ToQueue};
use mama_lane::{Lane, Port, Taker};
use std::alloc::Global;

/// The queues' lanes with their ends, in the order of the queues' numbers: the ports of the bridge and of the timer service, and
/// the queue's taker of each.
#[derive(Drop)]
pub struct QueueLanes<L: Listener> {
    pub lanes: Vec<Lane<ToQueue<Carried<L>>>>,
    pub bridge: Vec<Port<ToQueue<Carried<L>>>>,
    pub timers: Vec<Port<ToQueue<Carried<L>>>>,
    pub takers: Vec<Taker<ToQueue<Carried<L>>>>,
}

impl<L: Listener> QueueLanes<L> {
    /// The lanes of so many queues. The error is want of memory.
    pub fn open<Rt: Copy>(
        rt: Rt,
        alloc: Global,
        bounds: Bounds,
        number: usize,
    ) -> Result<QueueLanes<L>, OutOfMemory>
        ensures number { IfOk result (λ r. length r.lanes.items ≡ number) }
        ensures lanes { IfOk result (λ r. All (IsLaneOf bounds 2) r.lanes.items) }
        ensures bridge { IfOk result (λ r. r.bridge.items ≡ map (λ lane. new_port lane 0) r.lanes.items) }
        ensures timers { IfOk result (λ r. r.timers.items ≡ map (λ lane. new_port lane 1) r.lanes.items) }
        ensures takers { IfOk result (λ r. r.takers.items ≡ map new_taker r.lanes.items) }
    {
        let mut opened = QueueLanes {
            lanes: Vec::with_capacity(alloc, number)?,
            bridge: Vec::with_capacity(alloc, number)?,
            timers: Vec::with_capacity(alloc, number)?,
            takers: Vec::with_capacity(alloc, number)?,
        };
        for _ in 0..number {
            opened.open_next(rt, alloc, bounds)?;
        }
        Ok(opened)
    }

    // Opens the lane of the next queue.
    fn open_next<Rt: Copy>(
        &mut self,
        rt: Rt,
        alloc: Global,
        bounds: Bounds,
    ) -> Result<(), OutOfMemory>
        requires lanes { All (IsLaneOf bounds 2) self.old.lanes.items }
        requires bridge { self.old.bridge.items ≡ map (λ lane. new_port lane 0) self.old.lanes.items }
        requires timers { self.old.timers.items ≡ map (λ lane. new_port lane 1) self.old.lanes.items }
        requires takers { self.old.takers.items ≡ map new_taker self.old.lanes.items }
        ensures number { OnOk result (length self.new.lanes.items ≡ length self.old.lanes.items + 1) }
        ensures lanes { OnOk result (All (IsLaneOf bounds 2) self.new.lanes.items) }
        ensures bridge { OnOk result (self.new.bridge.items ≡ map (λ lane. new_port lane 0) self.new.lanes.items) }
        ensures timers { OnOk result (self.new.timers.items ≡ map (λ lane. new_port lane 1) self.new.lanes.items) }
        ensures takers { OnOk result (self.new.takers.items ≡ map new_taker self.new.lanes.items) }
    {
        let (lane, mut ports, taker) = open(rt, alloc, 2, bounds)?;
        let timers = ports.pop().unwrap();
        let bridge = ports.pop().unwrap();
        self.lanes.push(lane)?;
        self.bridge.push(bridge)?;
        self.timers.push(timers)?;
        self.takers.push(taker)?;
        Ok(())
    }
}

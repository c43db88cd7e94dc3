ghost use Rattle.std.specs.Prelude.{◌≡◌, ◌+◌, length, map, IfOk, OnOk};
ghost use Rattle.std.specs.List.{All};
ghost use Rattle.mama_lane.specs.Values.{new_port, new_taker};
ghost use Rattle.mama_hall.specs.Ends.{IsLaneOf};

use crate::ends::open;
use mama_event::{Bounds, OutOfMemory, ToPublisher};
use mama_lane::{Lane, Port, Taker};
use std::alloc::Global;

/// The publishers' lanes with their ends, in the order of the publishers' numbers: the bridge's port and the publisher's taker
/// of each.
#[derive(Drop)]
pub struct PublisherLanes {
    pub lanes: Vec<Lane<ToPublisher>>,
    pub bridge: Vec<Port<ToPublisher>>,
    pub takers: Vec<Taker<ToPublisher>>,
}

impl PublisherLanes {
    /// The lanes of so many publishers. The error is want of memory.
    pub fn open<Rt: Copy>(
        rt: Rt,
        alloc: Global,
        bounds: Bounds,
        number: usize,
    ) -> Result<PublisherLanes, OutOfMemory>
        ensures number { IfOk result (λ r. length r.lanes.items ≡ number) }
        ensures lanes { IfOk result (λ r. All (IsLaneOf bounds 1) r.lanes.items) }
        ensures bridge { IfOk result (λ r. r.bridge.items ≡ map (λ lane. new_port lane 0) r.lanes.items) }
        ensures takers { IfOk result (λ r. r.takers.items ≡ map new_taker r.lanes.items) }
    {
        let mut opened = PublisherLanes {
            lanes: Vec::with_capacity(alloc, number)?,
            bridge: Vec::with_capacity(alloc, number)?,
            takers: Vec::with_capacity(alloc, number)?,
        };
        for _ in 0..number {
            opened.open_next(rt, alloc, bounds)?;
        }
        Ok(opened)
    }

    // Opens the lane of the next publisher.
    fn open_next<Rt: Copy>(
        &mut self,
        rt: Rt,
        alloc: Global,
        bounds: Bounds,
    ) -> Result<(), OutOfMemory>
        requires lanes { All (IsLaneOf bounds 1) self.old.lanes.items }
        requires bridge { self.old.bridge.items ≡ map (λ lane. new_port lane 0) self.old.lanes.items }
        requires takers { self.old.takers.items ≡ map new_taker self.old.lanes.items }
        ensures number { OnOk result (length self.new.lanes.items ≡ length self.old.lanes.items + 1) }
        ensures lanes { OnOk result (All (IsLaneOf bounds 1) self.new.lanes.items) }
        ensures bridge { OnOk result (self.new.bridge.items ≡ map (λ lane. new_port lane 0) self.new.lanes.items) }
        ensures takers { OnOk result (self.new.takers.items ≡ map new_taker self.new.lanes.items) }
    {
        let (lane, mut ports, taker) = open(rt, alloc, 1, bounds)?;
        let bridge = ports.pop().unwrap();
        self.lanes.push(lane)?;
        self.bridge.push(bridge)?;
        self.takers.push(taker)?;
        Ok(())
    }
}

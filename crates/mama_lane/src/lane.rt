use crate::rule::Queue;
use mama_event::{Bounds, Stream};
use std::marker::Model;

/// What several ports put and one taker takes, in whatever threads they are. A lane is shared by reference; a program
/// that gives up may drop it, and the events left in it with it.
///
/// In a clause a lane is a record of which lane it is, the bounds within which its ports put, and how many ports it
/// has. None of these ever changes.
pub struct Lane<E: Stream> {
    pub(crate) queue: Queue<E>,
    pub(crate) bounds: Bounds,
    pub(crate) ports: u32,
}

impl<E: Stream> Model for Lane<E> {
    ghost use Rattle.mama_lane.specs.Values.{LaneValue};

    ghost Value = { LaneValue };

    ghost view = { λ lane. record { id = lane.queue; bounds = lane.bounds; ports = lane.ports } };
}

impl<E: Stream> Drop for Lane<E> {
    fn drop(self) {
        let Lane {
            queue,
            bounds: _,
            ports: _,
        } = self;
        queue.destroy();
    }
}

//! The lanes of a script's actors, with their ends in the order of the actors' numbers.
//!
//! [`BridgeLane::open`], [`TimersLane::open`], [`PublisherLanes::open`] and [`QueueLanes::open`] open the lanes for a shape: who
//! puts by which port is the rule of `mama_event/specs/Ports.antt`. Nothing was put or taken.
#![tactic(auto)]

mod bridge;
mod ends;
mod publishers;
mod queues;
mod timers;

pub use bridge::BridgeLane;
pub use mama_carry::{Carried, Listener};
pub use mama_event::{OutOfMemory, Shape};
pub use mama_lane::{Lane, Port, Taker};
pub use publishers::PublisherLanes;
pub use queues::QueueLanes;
pub use timers::TimersLane;

//! The ends of an actor's lanes: what it takes by, and how it puts what it has left.
//!
//! An [`Inlet`] is a taker that keeps an event which its actor could not take yet, and gives that one before any other: so
//! what was taken is what the actor has done, and then what is kept. [`flush`] puts what an actor has left on a lane, in
//! order; where memory runs out the rest is still left. So what was put, and then what is left, is always the same list. A
//! [`Pace`] is what a turn of an actor came to.
#![tactic(auto)]

mod flushing;
mod inlet;
mod pace;

pub use flushing::flush;
pub use inlet::Inlet;
pub use mama_event::{OutOfMemory, Stream};
pub use mama_lane::{Lane, Port, PutNote, Taker};
pub use mama_seats::Waiting;
pub use pace::Pace;

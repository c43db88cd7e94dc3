//! The closing of a crew whose seats have all ended: from the seats and the hall to the record of the run, which is legal, and
//! the listeners of its objects.
//!
//! [`close_crew`] takes the seats apart, kind by kind ([`kinds`], [`clients`], [`publishers`]), and closes each lane with its
//! ports and its taker ([`apart`]): so of each port, what was taken begins what was put, and is all of it where the last event
//! was taken (`AreClosed` of `specs/Closed.antt`). With what the seats keep, the record is legal, whichever thread turned which
//! seat when. [`close_imaged`] does the same where the last images, and what groups heard, are handed in. What the posts of the
//! queues leave is gathered by [`mama_gather`].
#![tactic(auto)]

mod apart;
mod clients;
mod closing;
mod kinds;
mod publishers;

pub use closing::{close_crew, close_imaged};
pub use mama_memory::OutOfMemory;

//! What the posts of a crew's queues leave when all has ended, and the closing of the lanes.
//!
//! [`QueueEnds`] takes the posts of the queues apart: callbacks and listeners are moved to the places of their objects
//! ([`places`]), and what each watch noted to the place of its number. [`all_images`] copies the last image of each subscription.
//! [`close_service`], [`close_each`] and [`close_pairs`] close a lane with its ports and its taker: so of each port, what was
//! taken begins what was put, and is all of it where the last event was taken (`IsEdgeOf` of `specs/Edge.antt`).
//!
//! It knows of no seats: `mama_close` takes those of a crew apart, and makes the record.
#![tactic(auto)]

mod images;
mod lanes;
mod places;
mod queues;

pub use images::all_images;
pub use lanes::{close_each, close_pairs, close_service};
pub use mama_memory::OutOfMemory;
pub use places::in_order;
pub use queues::QueueEnds;

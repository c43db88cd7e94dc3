//! The posts of clients and of queues: each is an actor with the ends of its lanes, and keeps no part of the script.
//!
//! [`ClientPost`] is a client's (`IsClientOf` of `specs/Client.antt`), and [`QueuePost`] that of a queue with its dispatcher
//! (`IsQueueOf` of `specs/Queue.antt`). Of each, what it put on a lane, and then what it has left for it, is the lane's part of
//! what its lines or its journal put; and what a queue took is its journal's and then what it keeps.
#![tactic(auto)]

mod client;
mod dressing;
mod outlets;
mod queue;

pub use client::{ClientParts, ClientPost};
pub use dressing::ClientListeners;
pub use mama_ends::Pace;
pub use queue::{QueueParts, QueuePost};

//! The posts of the services and of publishers: each is an actor with the ends of its lanes, and keeps no part of the script.
//!
//! [`PublisherPost`] is a publisher's. What it keeps stands in `IsPublisherOf` of `specs/Publisher.antt`: a predicate that names
//! the section and the number, since the seat may go to another thread and its section stays. [`BridgePost`] is the bridge's
//! and [`TimersPost`] the timer service's (`IsBridgeOf`, `IsTimersOf`). Of each, what it took is its journal's and then what it
//! keeps, and what it put on a lane, and then what it has left for it, is the lane's part of what its journal or its lines put.
#![tactic(auto)]

mod bridge;
mod laws;
mod ports;
mod publisher;
mod timers;
mod took;

pub use bridge::{BridgeParts, BridgePost};
pub use laws::{bridges_end_by_byes, timers_end_by_byes};
pub use mama_ends::Pace;
pub use publisher::{PublisherParts, PublisherPost};
pub use timers::{TimersParts, TimersPost};

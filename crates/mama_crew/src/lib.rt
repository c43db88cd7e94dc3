//! The crew of a script: the seats of all its actors, and the hall with their lanes. Threads may turn the seats in any order.
//!
//! A [`Seat`] keeps the state of its actor and the actor's ends of lanes; script and hall are shared, and handed to each turn.
//! What a seat keeps from turn to turn is `IsSeatOf` of `specs/Seat.antt`. [`Seat::turn`] makes one step. [`Seat::inform`] lets
//! another seat know what was put to it, which its turn then finds.
#![tactic(auto)]

mod bridge;
mod client;
mod crew;
mod ends;
mod hall;
mod informing;
mod listeners;
mod opening;
mod publisher;
mod queue;
mod seat;
mod timers;

pub use bridge::BridgeSeat;
pub use client::ClientSeat;
pub use crew::{Crew, open_crew};
pub use hall::{Hall, HallParts};
pub use mama_carry::{Listener, Maker};
pub use mama_edge::GateActor;
pub use mama_ends::Pace;
pub use mama_memory::OutOfMemory;
pub use mama_script::Script;
pub use publisher::PublisherSeat;
pub use seat::Seat;
pub use timers::TimersSeat;

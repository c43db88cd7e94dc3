//! What each actor put by its journal, each event with the number of the entry that put it.
//!
//! A checker of a recorded run has journals that may be any lists of entries, and asks what they put on each lane. The
//! actors themselves answer that here: each takes its journal again, entry by entry, and what it puts is dealt to the
//! lists of the actors that it goes to. The contracts say that each list is what the rules say: `numbered` puts of the
//! journal, `parted` by where they go. See [`puts_of_bridge`], [`puts_of_timers`] and [`puts_of_publisher`]. A client
//! takes nothing; [`puts_of_client`] tells what it put by its lines and the moments that it read, by the number of the
//! line.
//!
//! Each goes once over its journal or its lines. Memory goes by their length and by what was put.
#![tactic(auto)]

mod bridge;
mod client;
mod dealing;
mod notes;
mod publisher;
mod timers;

pub use bridge::{BridgePuts, puts_of_bridge};
pub use client::{ClientPuts, puts_of_client};
pub use mama_memory::OutOfMemory;
pub use publisher::puts_of_publisher;
pub use timers::puts_of_timers;

//! The seats of clients, publishers and queues: each moves by the lines of its part of a script, step by step, or takes
//! the events of its lane one by one.
//!
//! [`ClientState`] and [`PublisherState`] are where a client and a publisher stand: their lines are handed in, so that
//! who holds them may go to another thread. [`ClientSeat`], [`PublisherSeat`] and [`QueueSeat`] stand beside what they
//! read. [`Waiting`] is what was put and is on no lane yet. `served` and `served_puts` of `specs/Server.antt` say what a
//! turn makes of a queue's seat, and what it puts.
#![tactic(auto)]

mod client_seat;
mod client_state;
mod line;
mod listening;
mod publisher_seat;
mod publisher_state;
mod queue_seat;
mod served_turn;
mod waiting;

pub use client_seat::ClientSeat;
pub use client_state::ClientState;
pub use mama_memory::{OutOfMemory, Outbox};
pub use publisher_seat::PublisherSeat;
pub use publisher_state::PublisherState;
pub use queue_seat::{QueueParts, QueueSeat};
pub use served_turn::ServedTurn;
pub use waiting::Waiting;

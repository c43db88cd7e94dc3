//! A client: it makes objects and ends them, by events that its caller puts.
//!
//! [`Client`] numbers the objects of each kind from 0 and refuses what is out of bounds; `specs/Client.antt` says when.
//! What its calls put, in order, is what a client's ports may put ([`calls_are_lawful`], `specs/Calls.antt`).
//! [`QueueGroup`] gives the queues in turn.
#![tactic(auto)]

mod client;
mod fault;
mod laws;
mod queue_group;

pub use client::Client;
pub use fault::{AskFault, ClientFault, Closed};
pub use laws::calls_are_lawful;
pub use mama_event::{
    Bounds, Fids, InboxId, InboxTerms, SubId, SubTerms, TimerId, ToBridge, ToTimers,
};
pub use queue_group::QueueGroup;

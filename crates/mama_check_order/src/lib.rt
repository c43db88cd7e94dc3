//! What was taken, against what was put: whether each edge is whole, and whether all entries have one order.
//!
//! The journal of a taker is walked once, with what each port put and what is left of it: `AreWhole` says of a lane that
//! on each edge what was taken is all that was put, in order, and `needs_of` which entry put what each entry took
//! (`specs/Taken.antt`). [`has_order`] tells whether the entries of several actors can be put into one order in which
//! each comes after the one that it needs (`specs/Order.antt`), and [`order_of`] gives that order, or else who stops it
//! (`specs/Turns.antt`). Plain data is compared exactly here, and so it is for others that judge a record, by
//! [`are_same_calls`], [`are_same_group_notes`], [`are_same_watch_notes`], [`is_same_head`] and [`is_same_message`].
#![tactic(auto)]

mod compare;
mod exact;
mod lane;
mod order;
mod sender;
mod walk;

pub use compare::{
    are_same_calls, are_same_group_notes, are_same_watch_notes, is_same_head, is_same_message,
};
pub use lane::{needs_of_bridge, needs_of_queue, needs_of_timers};
pub use mama_memory::OutOfMemory;
pub use order::{Need, Stuck, has_order, order_of};
pub use sender::needs_of_sender;

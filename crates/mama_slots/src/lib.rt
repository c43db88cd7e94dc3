//! The slots of queues: each object of a queue has one, and gets the least that is free.
//!
//! What is kept is seen by one test, `in_use` of `specs/Slots.antt`: whether a slot of a queue is in use. A queue's next
//! slot is told and held by two calls, [`Slots::next`] and [`Slots::hold`], so that all memory is taken before anything
//! changes. Where the slots in use are those of a list, the next one is the `least_free` of it.
//!
//! Each call costs a logarithm of the queues and of the slots that are free again.
#![tactic(auto)]

mod slots;

pub use mama_memory::OutOfMemory;
pub use slots::Slots;

//! The timer service: it keeps the greatest moment that was told, and lets the timers that are due tick.
//!
//! What the service puts is `timers_puts_at` of `mama_rules_services`: the reaction to an entry of its journal, given the
//! journal before it. The contract of [`Timers::take`] says so of every event that comes by any port, in any order,
//! and that the listener of a `Create` is the one that the event of that entry brought. The laws of the definition, as
//! that each queue is put what it may be put, stand in `mama_laws_timers`.
//!
//! A moment costs the timers that are due and a logarithm for each; arming and disarming a timer cost a logarithm.
//! Want of memory leaves the service and the outbox as they were.
#![tactic(auto)]

mod ending;
mod firing;
mod heard;
mod out;
mod roll;
mod table;
mod timers;

pub use mama_memory::OutOfMemory;
pub use out::TimerOut;
pub use timers::Timers;

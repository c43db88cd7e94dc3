//! Plays a script on one thread: the seats of the actors, the lanes between them, and the rounds in which they move.
//!
//! A client or a publisher moves by its lines; every other actor moves by taking the first event of its lane. After
//! each step of a client or a publisher everything is drained, so that no event waits when the next step begins.
//!
//! A turn of an actor takes the memory that it needs before anything changes that a reader of the run can see: what the
//! actor puts is held by the run ([`held`]) until there is room for it on its lanes. So a [`SerialRun`] always stands
//! between two turns, and goes on from there after want of memory. `IsGoneOn` of `specs/Course.antt` and `HasGrown` of
//! `specs/Grown.antt` say what a call that goes on with it keeps. `IsLawfulRun` of `specs/Lawful.antt` is what a run keeps so
//! that what waits for a queue may come.
#![tactic(auto)]

mod bridge_seat;
mod held;
mod laws;
mod marks;
mod place;
mod playing;
mod putting;
mod recording;
mod resting;
mod rounds;
mod run;
mod serial_run;
mod starting;
mod system;
mod timers_seat;
mod turn;
mod turning;

pub use mama_memory::OutOfMemory;
pub use playing::serial;
pub use serial_run::SerialRun;

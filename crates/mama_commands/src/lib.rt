//! All commands of the program over a source of bytes, a sink of bytes and a clock, play and soak among them.
//!
//! [`run`] plays a script on threads and writes its log, or plays that of a seed and writes what its record counts; it hands
//! every other command to `run_plain`. What the log of such a run tells is said by `specs/Played.antt`, what the counts are by
//! `specs/Soak.antt` of `mama_soak`, and which words are a command by `specs/Words.antt`.
#![tactic(auto)]

mod command;
mod play;
mod soak;
mod words;

pub use command::run;
pub use mama_edge::{Clock, Gate, GateActor, OpenGate, Sink, Source};
pub use mama_plain::Status;

//! A whole run that judges itself: the script of a seed is played on threads, its record is judged, and what it counts is
//! told in four lines.
//!
//! `specs/Soak.antt` says what the lines count: of the record that was played, and that it is legal.
#![tactic(auto)]

mod counts;
mod soaking;
mod text;

pub use mama_edge::{Gate, GateActor};
pub use mama_memory::OutOfMemory;
pub use soaking::soak;

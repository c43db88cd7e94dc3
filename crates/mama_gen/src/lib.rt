//! The script of a seed: as much as one run can do, and another for each seed.
//!
//! Sixteen topics have a publisher each, with 250 updates; four clients join all topics, each over links that lose, repeat
//! and hold back messages. What is sent and which messages have faults is drawn from the seed. `specs/Draws.antt` says what
//! a draw is, and `specs/Generated.antt` which script the draws make (`script_of_seed`) and its text (`generated`).
//!
//! [`generated`] gives just that text, and [`generate`] just that script: each text of a seed is accepted, so no answer but
//! want of memory stands beside it.
#![tactic(auto)]

mod draws;
mod generating;
mod text;

pub use generating::{generate, seeds_make_scripts};
pub use mama_memory::OutOfMemory;
pub use text::generated;

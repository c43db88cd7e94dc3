//! A recorded run, followed again on one thread.
//!
//! [`replay`] takes the record of a legal run and tells the steps that lead to it on one thread, where the entries of all
//! actors have one causal order; else it names who cannot go on, and at which entry. `specs/Followed.antt` says what a step
//! does, and which record some steps lead to; `specs/Passes.antt` says which steps are told: in a pass each actor makes its
//! next step, if it can, and passes go on until one makes none.
//!
//! No pass is made here. What each entry needs says in which pass it comes, once the entries stand in any order in which each
//! comes after what it needs; and the entries of each pass stand in the order of the actors. So all passes together cost the
//! entries and what they need once. The record that is given back is a copy: that the steps lead to it is what is proved.
#![tactic(auto)]

mod copies;
mod needs;
mod passes;
mod ranks;
mod replaying;
mod step;

pub use mama_memory::OutOfMemory;
pub use replaying::replay;
pub use step::{ReplayFault, Step};

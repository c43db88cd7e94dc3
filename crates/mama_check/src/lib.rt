//! The verdict on the record of a run: which of the rules of a legal record are kept, and who is the first to break one.
//!
//! `specs/Rules.antt` says each rule, for one actor, and `specs/First.antt` what the first actor is that does not keep it.
//! A function for each rule finds that actor, and [`kept_rules_are_legal`] says that a record is legal exactly where all
//! keep all of them (`specs/Kept.antt`). [`check`] gives the verdict on a whole record: legal, or the first rule that is
//! broken and its first actor. What an entry needs is found as its actor's edges are walked. [`is_causal`] says whether all
//! entries could be taken one after another, each after what it needs, and [`needs_of_run`] what that is for each. [`has_sent_all`] decides whether a publisher did all its
//! lines, was settled and told the end; [`sends_of`] and [`clock_lines_of`] count lines.
#![tactic(auto)]

mod actors;
mod all;
mod broken;
mod causal;
mod edges;
mod gather;
mod images;
mod judging;
mod laws;
mod lines;
mod lists;
mod objects;
mod puts;
mod sends;
mod sent;
mod takes;
mod verdict;

pub use causal::{actors_have_their_numbers, is_causal, needs_of_run};
pub use images::first_of_images;
pub use judging::check;
pub use laws::{kept_rules_are_legal, legal_records_are_formed, legal_records_are_true};
pub use lines::{first_of_lines, first_of_moments};
pub use lists::{first_of_groups, first_of_watches};
pub use mama_memory::OutOfMemory;
pub use objects::first_of_calls;
pub use puts::{puts_of_clients, puts_of_publishers, puts_of_the_bridge};
pub use sends::{clock_lines_of, sends_of};
pub use sent::has_sent_all;
pub use verdict::{Actor, Verdict};

//! The log of a run, read by its script.
//!
//! A log is lines, and each line is an entry of a journal, a callback, an order, a moment, an image, or what a group heard or
//! a watch noted, in its one spelling (`mama_record`'s `specs/LogText.antt`). What a line may name is given by the script: [`Names`] has what the
//! script declares. `specs/Entering.antt` says which notes come by which kind of port, and what they may name. The terms
//! of a subscription, a timer or an inbox are not printed: they are those of the script's line with that id.
//!
//! Each reader of a line gives the entry that is spelled so, and none only where no entry that the log may have is:
//! the clauses `found` and `again`. `specs/Journal.antt` and `specs/Calls.antt` have the reading word by word. The words of a
//! line are parted into a list that the caller keeps for many lines, whatever stands in it.
#![tactic(auto)]

mod bridge;
mod calls;
mod head;
mod image;
mod lists;
mod names;
mod publisher;
mod queue;
mod timers;
mod word;

pub use bridge::bridge_entry_in;
pub use calls::{call_in, clock_in, may_be_order, order_line_in};
pub use image::image_in;
pub use lists::{group_note_in, watch_note_in};
pub use mama_memory::OutOfMemory;
pub use names::{Names, TimerTerms};
pub use publisher::publisher_entry_in;
pub use queue::queue_entry_in;
pub use timers::timers_entry_in;

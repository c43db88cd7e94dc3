//! The seats of a crew whose queues tell their groups what was called back.
//!
//! A [`GroupedSeat`] is a seat of a crew. That of a queue has the groups of the queue beside it ([`Hearing`]): behind each turn the
//! group of the turn's subscription hears what was called back, and then its state where that changed. [`open_grouped`] opens a
//! crew with the groups of its script, and [`Heard::of`] takes the groups from seats that have ended: what each heard, and its
//! listener. `mama_crew` and `mama_close` know of no listeners of groups.
//!
//! What a seat keeps stands in `IsSeatOf` of `specs/Seat.antt`: each group has heard what its rules say of as much of the
//! queue's journal as was told, which is all but at most the last entry.
#![tactic(auto)]

mod crew;
mod heard;
mod hearing;
mod queries;
mod seat;

pub use crew::{GroupedCrew, open_grouped};
pub use heard::{Heard, listeners_in_order};
pub use hearing::Hearing;
pub use mama_crew::{GateActor, Hall, Listener, Maker, OutOfMemory, Pace, Script};
pub use mama_group::{GroupListener, GroupMaker, SilentGroup, SilentGroups};
pub use queries::journal_of;
pub use seat::GroupedSeat;

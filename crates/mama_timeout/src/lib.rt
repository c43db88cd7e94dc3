//! Watches: a subscription without an image is asked for again at the ticks of a timer, so many times, and then a timeout is
//! told once.
//!
//! [`WatchTable`] keeps the watches of a queue. Before the turn of a tick [`WatchTable::prepare`] takes the memory that a note
//! needs, and behind a tick that was called back [`WatchTable::after`] notes what the watch of the timer makes of it, and
//! answers with the wish that it puts; [`WatchTable::behind`] does so behind any turn. [`watches_note_turn_by_turn`] and
//! [`turns_are_watched`] say that this is what `watch_notes_at` and `wishes_at` of `mama_rules_queue` say of the queue's journal.
//!
//! A tick costs its own watch and no other: each keeps one count.
#![tactic(auto)]

mod laws;
mod table;
mod turns;

pub use laws::watches_note_turn_by_turn;
pub use mama_event::{SubId, TimerId, ToBridge, WatchNote, WatchRow};
pub use mama_memory::OutOfMemory;
pub use table::WatchTable;
pub use turns::{tick_of, turns_are_watched};

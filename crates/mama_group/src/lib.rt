//! Groups: one listener hears the callbacks of many subscriptions of a queue, and is told one state for all of them.
//!
//! [`GroupTable`] keeps the groups of a queue. After each turn of the queue [`GroupTable::after`] tells the group of the turn's
//! subscription what was called back, and then its state where that changed. What a group hears of a turn is `turn_notes` of
//! `mama_rules_queue`, and [`groups_hear_turn_by_turn`] says that this is what `group_notes` there says of the queue's journal.
//! `specs/Table.antt` says what contracts see of a table, and `specs/Listener.antt` what they see of a listener.
//!
//! A turn costs what it called back, and not how many members a group has: how many of them wait, are stale, and are ended
//! is counted.
#![tactic(auto)]

mod counts;
mod group;
mod laws;
mod listener;
mod member;
mod silent;
mod table;

pub use laws::groups_hear_turn_by_turn;
pub use listener::{GroupListener, GroupMaker};
pub use mama_event::{Callback, GroupNote, GroupRow, GroupState, Members, SubId};
pub use mama_memory::OutOfMemory;
pub use silent::{SilentGroup, SilentGroups};
pub use table::GroupTable;

//! What a queue put, called back and left, by its journal and the plans of its objects, for those that judge a record.
//!
//! The journal may be any list of entries, since it comes from a log that may be wrong. [`serve_all`] serves all queues
//! again, where listeners give the orders of their plans, by the rules of queues as they stand for every list (`deeds` and
//! `queue_puts_at` of the rules' crate), and shares no code with the queues that run but the strategy's step, the tables of
//! groups and watches, and the plans. A [`ServedQueue`] tells what was put, each event with the number of the entry that put it, and the callbacks and
//! the last image of each object: what it keeps of an object is `seen_of` of `specs/Seen.antt`.
#![tactic(auto)]

mod lists;
mod objects;
mod orders;
mod puts;
mod replay;
mod seen;
mod served;
mod serving;

pub use mama_dispatch::ImageRow;
pub use mama_event::{BridgeNote, CallNote, ObjectId, PlanRow, QueueNote, SubId, TimersNote};
pub use mama_group::SilentGroup;
pub use mama_memory::OutOfMemory;
pub use mama_plans::{PlannedObject, Plans};
pub use served::ServedQueue;
pub use serving::serve_all;

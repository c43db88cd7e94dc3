//! The record of a run, and the text of its log.
#![tactic(auto)]

mod calls;
mod compared;
mod lists;
mod log;
mod notes;
mod record;
mod words;

pub use log::print_log;
pub use mama_memory::OutOfMemory;
pub use record::RunRecord;
pub use words::{put_bridge_putter, put_queue_putter, put_timers_putter};

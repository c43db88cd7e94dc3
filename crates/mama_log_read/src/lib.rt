//! The text of a log, read by its script.
//!
//! [`parse_log`] gives the record that a log tells, or the first line that does not fit. `specs/Logged.antt` says which
//! records a log of a script can tell, and `specs/Unfit.antt` which line is the first that does not fit.
#![tactic(auto)]

mod built;
mod calls;
mod entries;
mod fault;
mod images;
mod parsing;
mod section;

pub use fault::LogFault;
pub use mama_memory::OutOfMemory;
pub use parsing::parse_log;

//! What the lines of clients name: the objects of a script with their plans, and what a line puts.
//!
//! [`plans_of`] gives the objects of a script, and [`Plans`] finds the plan of each by its id. [`Names`] is what a client
//! has named so far: with it [`Names::line`] does a line, under the next number of its kind and on the queue that its
//! word names. [`groups_by_queue`] and [`watches_by_queue`] are the groups and watches of each queue. Who plays a script and who
//! reads or checks the log of a run stand on the same answers.
#![tactic(auto)]

mod lists;
mod names;
mod numbered;
mod planning;
mod plans;
mod put;

pub use lists::{groups_by_queue, watches_by_queue};
pub use mama_event::{ObjectId, PlanRow, ToService};
pub use mama_memory::OutOfMemory;
pub use names::{Doing, Names};
pub use numbered::{numbered_lists, put_list};
pub use planning::plans_of;
pub use plans::{PlannedObject, Plans};
pub use put::put_of;

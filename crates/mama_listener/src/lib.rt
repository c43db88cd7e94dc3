//! Listeners: what is called back for an object, and may give orders in each callback.
//!
//! [`Listener`] is the interface, of `mama_event`, where `Heard` of `specs/Listener.antt` says what a callback makes of
//! a listener; a `Box<dyn Listener + Send>` is one too. [`PlanListener`] is a listener whose orders were planned: it
//! tells its plan, a list of rows of which [`has_few_rows`] says whether a callback can give them all, and which
//! [`order_rows`] puts in the order in which they are given fastest.
//!
//! No clause says that a callback is kept, that rows are put in order or counted: [`PlanListener::heard`] may answer None,
//! `order_rows` false, and `has_few_rows` its error, as if no memory was found. What is told is then still true, and no
//! order is lost. Tests show that none of these is answered where memory is ample.
#![tactic(auto)]

mod few;
mod plan_listener;
mod planned;

pub use few::has_few_rows;
pub use mama_event::{Callback, Listener, MarketMsg, ObjectId, Orders, PlanRow, Quality, Tagged};
pub use mama_msg::Msg;
pub use plan_listener::PlanListener;
pub use planned::order_rows;

//! Listeners that travel: each is made before a run begins, goes with the event that makes its object, from the client to
//! the bridge or the timer service and on to a queue, and is served there.
//!
//! A [`Carried`] is a listener with its plan, and knows that the listener tells just that plan. A [`Maker`] makes the
//! listeners, [`PlanMaker`] those that the program has of its own; [`carry`] puts one beside its plan.
//! [`dress_for_bridge`] and [`dress_for_timers`] put the listener into the event that names its object, and [`undress`]
//! takes from a queue's event the listener alone, where it is as it was made.
#![tactic(auto)]

mod carried;
mod dressing;
mod maker;
mod undressing;

pub use carried::{Carried, carry};
pub use dressing::{dress_for_bridge, dress_for_timers};
pub use maker::{Maker, PlanMaker};
pub use mama_event::{
    Listener, ObjectId, OutOfMemory, PlanRow, Tagged, ToBridge, ToQueue, ToTimers,
};
pub use mama_listener::PlanListener;
pub use undressing::undress;

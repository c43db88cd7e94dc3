//! The bridge: it routes what publishers send over the links of subscriptions and inboxes, gives each object a slot of
//! its queue, and decides the ending.
//!
//! What the bridge puts is `bridge_puts_at` of `mama_rules_services`: the reaction to an entry of its journal, given the journal
//! before it. The contract of [`Bridge::take`] says so of every event that comes by any port, in any order, and
//! that the listener of a `Create` is the one that the event of that entry brought.
//!
//! A bridge keeps a link for each live subscription and each open inbox, and not what it heard. The links of
//! subscriptions stand by topic: a publish costs the links of its topic, what comes out of them, and a logarithm of the
//! topics. An image, a wish and a Leave cost what comes out of one link, and a logarithm of all that joined before; a
//! Leave also moves links of its topic together, where more than half of their places are empty, which costs a
//! logarithm a Leave in the long run. A reply and the end of an inbox cost what comes out of its link, and a logarithm
//! of all inboxes that were opened before. A Join, an Ask and the opening of an inbox cost logarithms: of the topics, of
//! those that joined or were opened before, and of the slots that are free again. All links and places are looked at
//! where settling begins and where the ending comes. Want of memory leaves the bridge and the outbox as they were.
#![tactic(auto)]

mod bridge;
mod chart;
mod desk;
mod done;
mod ending;
mod ends;
mod entry;
mod flags;
mod hearing;
mod inboxes;
mod links;
mod live;
mod memory;
mod numbers;
mod out;
mod places;
mod putter;
mod routes;
mod subs;
mod tally;

pub use bridge::Bridge;
pub use memory::MemoryBridge;
pub use out::BridgeOut;

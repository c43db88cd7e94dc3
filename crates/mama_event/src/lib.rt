//! The words of the market data layer: ids of objects, messages of the market, callbacks and orders, and the events
//! that actors put on each other's lanes.
//!
//! Everything here is plain data, except that an event that makes an object brings its listener. Each event has a
//! note, which is plain data with the listener's tag in the listener's place: journals are lists of notes. What an
//! actor does with an event stands in the actor's own crate. [`plain_data_is_compared_exactly`] says of `==` that it
//! holds exactly where both sides are the same data.
//!
//! The trait [`Stream`] says of the events of one lane which lists a port may put, by their notes; `IsLawful` carries
//! that promise, with `fits` of each lane for what an event asks of those before it. Nothing follows a last event, and
//! every prefix of a lawful list is lawful. The words for what a publisher puts over its journal are here too, as
//! `publisher_puts_at`, and so are those for a publisher's record, `record_after`, and for a genuine message.
//!
//! A message of the market that travels is a [`WireMsg`], with its body packed, and behind a link a [`PieceMsg`], whose body
//! may have been cut. `specs/Wire.antt` says what arrives of it: a message, or bytes that spell none, of which a listener is
//! told by a code ([`error_code`]). The notes of events hold messages, and the bytes only where they spell none.
#![tactic(auto)]

mod boxed;
mod callback;
mod fids;
mod given;
mod group;
mod ids;
mod laws;
mod listener;
mod market;
mod order;
mod publisher_entry;
mod shape;
mod stream;
mod to_bridge;
mod to_publisher;
mod to_queue;
mod to_service;
mod to_timers;
mod watch;
mod wire;

pub use callback::{CallNote, Callback};
pub use fids::{Fids, MOST_FIDS};
pub use given::{GivenOrders, OrdersRoom};
pub use group::{GroupNote, GroupRow, GroupState, Members};
pub use ids::{InboxId, ObjectId, SubId, TimerId};
pub use laws::plain_data_is_compared_exactly;
pub use listener::Listener;
pub use mama_memory::{Duplicate, OutOfMemory};
pub use mama_packet::{Packet, Piece};
pub use market::{ImageHead, MarketMsg, MsgKind, Quality, SubKind};
pub use order::{MOST_ORDERS, Order, Orders, PlanRow};
pub use publisher_entry::PublisherEntry;
pub use shape::{Bounds, Shape, Strategy, Took, Topics};
pub use stream::{Stream, Tagged};
pub use to_bridge::{BridgeNote, InboxTerms, SubTerms, ToBridge};
pub use to_publisher::{PublisherNote, ToPublisher};
pub use to_queue::{Make, QueueNote, ToQueue};
pub use to_service::ToService;
pub use to_timers::{TimersNote, ToTimers};
pub use watch::{WatchNote, WatchRow};
pub use wire::{PieceMsg, WireMsg, code_of, error_code, packed_messages_arrive};

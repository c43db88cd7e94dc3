//! A publisher: the record of one topic's sender, kept running.
//!
//! A publisher has a base record and applies its updates to it one by one. It sends each update under the next
//! number, and its whole record, under the number of the last update in it, to whoever asks.
//!
//! What a publisher puts is `publisher_puts_at` of `mama_event`: the puts of each entry of its journal, given its part
//! of the script. The contracts of [`Publisher::send`], [`Publisher::image`] and [`Publisher::take`] speak of the
//! record and the number that it holds; the laws of this crate say that these are, after every call, the record and
//! the number of updates of its journal, so that what the calls put is what the definition says.
//!
//! Messages travel packed. What [`Publisher::send`] and [`Publisher::image`] answer is packed by the caller, before it is put
//! ([`packed_message`], or [`packed`] before the send and [`with_body`] behind it).
#![tactic(auto)]

mod asked;
mod laws;
mod packing;
mod publisher;

pub use laws::{
    a_new_publisher_has_its_base, sending_a_recap, sending_an_update, taking_an_event,
    telling_the_end_of_sends,
};
pub use mama_memory::OutOfMemory;
pub use packing::{packed, packed_message, with_body};
pub use publisher::{MOST_FIELDS, Publisher, SendFault};

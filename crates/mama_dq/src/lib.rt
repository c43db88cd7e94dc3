//! The data quality of a subscription: what each message makes of its image, and what its listener is told.
//!
//! A context keeps an image of a record that a sender changes by numbered updates. It finds gaps between the
//! numbers, asks for recaps, and heals the image by a recap and the updates that it cached meanwhile. What a message
//! does is stated by `step_by` of `specs/Strategy.antt`, over the table `decided` of `specs/Table.antt`, and
//! [`DqContext::step`] does exactly that, or changes nothing where it finds no memory.
//!
//! There are two strategies, which differ in the table alone: with the first, the first image takes the updates that came
//! before it, and late updates are passed over; with the second, those updates are kept until the first gap, and late
//! updates are told. `docs/STRATEGY.md` compares them. All promises hold for both.
//!
//! The promises hold for every list of messages, whatever links lose, repeat and reorder. [`image_law`]: an image
//! that is ok is its sender's record (`ImageLaw` of `specs/Image.antt`). [`basic_law`]: a
//! basic subscription has none. [`gap_law`] and [`stale_law`]: no gap that
//! is told is false, and an image is called stale for a reason (`specs/Gap.antt`). [`orderly_law`]: over a link
//! without faults, from one sender, each message from the first image on is told once, and nothing else is
//! (`specs/Orderly.antt`). [`kept_law`]: which updates are kept past an image (`specs/Kept.antt`).
#![tactic(auto)]

mod cache;
mod callbacks;
mod calls;
mod context;
mod laws;
mod table;

pub use calls::Calls;
pub use context::DqContext;
pub use laws::{basic_law, gap_law, image_law, kept_law, orderly_law, stale_law};
pub use mama_event::{Callback, MarketMsg, MsgKind, Quality, Strategy, SubKind};
pub use mama_memory::OutOfMemory;
pub use mama_msg::Msg;
pub use table::{Action, CELLS, CELLS_OF_TWO, Phase, Relation, Table, decide};

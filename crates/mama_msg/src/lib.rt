//! Messages: lists of typed fields with distinct keys.
//!
//! A [`Field`] has a fid, a [`Name`] and a [`Value`] of one of fifteen types. Its key is its fid, or its name where the
//! fid is 0, and no two fields of a [`Msg`] have one key. Every part is made by a constructor that refuses what is out
//! of form, and keeps that form from then on.
//!
//! Contracts see a message as the list of its fields (`specs/Field`, `specs/Message`), however it is kept. `Msg::of` makes
//! one of a list (`AreDistinct`), `add` puts a field last (`has_key` says when it may not), `update` replaces or adds one
//! (`updated`), `apply` does so with all fields of another message (`apply`), `find` looks one up (`asked_for`) and the
//! getters read its value (`specs/Get`). The laws of `apply` stand in `laws`. After want of memory a message is as it was.
//!
//! A message is 16 bytes beside a block with its fields, and a copy is one owner more of the block: it takes no memory, and
//! no time by the fields. A message whose block has one owner is written in place; else its first change copies the
//! fields, and those of text, bytes or numbers take memory of their own then. Nothing is indexed: what asks for a key goes through
//! the fields.
#![tactic(auto)]

mod body;
mod distinct;
mod field;
mod get;
pub mod laws;
mod msg;
mod name;
mod numbers;
mod price;
mod raw;
mod rows;
mod scan;
mod text;
mod value;

pub use field::{Field, Key};
pub use get::GetFault;
pub use mama_memory::{Duplicate, OutOfMemory};
pub use msg::{AddFault, Msg};
pub use name::{Name, is_name_byte};
pub use numbers::NumbersValue;
pub use price::Price;
pub use raw::BytesValue;
pub use text::{TextValue, is_printable};
pub use value::Value;

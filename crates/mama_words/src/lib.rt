//! The words that scripts and logs are written with: lines and words, numbers, quoted texts, ids, kinds, qualities,
//! strategies, fields and orders; and the versions of these texts.
//!
//! Each word has a spelling, a function of what it stands for (`decimal`, `quoted`, `id_text`, `field_text`,
//! `order_words` ..), and a reading, which gives the value or the number of its fault (`number_in`, `field_in`,
//! `message_in`, `order_in` ..). A reader of this crate gives just what reading gives, unless no memory is found, and a
//! printer appends just the spelling, or leaves what it writes to as it was. That the two belong together (what is read
//! is spelled so, and what is spelled so is read) is said by the laws at the end: [`fields_are_spelled`] and the others.
//! The definitions stand in `specs/`, a file for each kind of word.
//!
//! The type `nums` of a field is known in some texts alone: its readers are told by a [`Nums`].
//!
//! The faults are those of a script's line: 2 for a line that has no words, 4 for a missing or wrong word, 5 for a number
//! or an id, 6 for a field's name or its colons, 7 for a field's fid, type or value, 8 for a repeated key, a field with
//! neither fid nor name, or fids that do not ascend.
#![tactic(auto)]

mod appending;
mod error;
mod field;
mod id;
mod kind;
mod laws;
mod number;
mod number_list;
mod nums;
mod order;
mod parting;
mod quote;
mod value;
mod value_type;
mod version;

pub use error::ReadError;
pub use field::{print_field, print_fields, read_field, read_message};
pub use id::{
    IdWord, print_inbox_id, print_object_id, print_sub_id, print_timer_id, read_inbox_id,
    read_sub_id, read_timer_id,
};
pub use kind::{
    print_group_state, print_msg_kind, print_quality, print_strategy, print_sub_kind,
    read_group_state, read_msg_kind, read_quality, read_strategy, read_sub_kind,
};
pub use laws::{
    fields_are_spelled, ids_are_spelled, kinds_are_spelled, lines_are_words, numbers_are_spelled,
    orders_are_spelled, pieces_are_cut, spellings_are_words, texts_are_spelled,
};
pub use mama_memory::OutOfMemory;
pub use number::{read_below, read_between, read_int, read_number};
pub use nums::Nums;
pub use order::{OrderKind, OrderWord, print_order, read_order};
pub use parting::{Place, cut_at, parted, parted_into};
pub use quote::read_quoted_word;
pub use value::{print_block, read_block, read_text, read_value, type_of};
pub use value_type::ValueType;
pub use version::Version;

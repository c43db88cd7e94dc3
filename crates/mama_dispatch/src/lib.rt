//! Serving a queue: the callbacks of its objects, one by one, and what follows from them.
//!
//! [`Serving::turn`] takes an event and makes its callbacks. Which ones are made, what they put and what the turn answers is
//! told of the journal (`mama_rules_queue`, `Answering.antt`), and what each listener heard and ordered of its seat
//! (`Hearing.antt`). [`Serving::into_notes`] gives up what came of all turns (`Notes.antt`), and [`Serving::into_callbacks`]
//! the callbacks alone, to be taken out object by object (`Callbacks.antt`).
//!
//! A turn gives its event back only where an allocation was refused: nothing that is counted here can pass its type. No
//! clause says so, and a body that always gave the event back would meet them all; tests take turns where there is memory.
#![tactic(auto)]

mod arms;
mod blocks;
mod callbacks;
mod calling;
mod entries;
mod laws;
mod noted_calls;
mod notes;
mod puts;
mod row;
mod seats;
mod serve;
mod serving;
mod state;
mod turn;

pub use callbacks::Callbacks;
pub use laws::{
    callbacks_are_streams, lawful_may_come, no_objects_at_first, notes_are_compared_exactly,
    serving_an_entry, slots_are_kept, slots_are_of_one, two_ports_suffice,
};
pub use mama_event::{
    CallNote, Callback, ImageHead, Listener, ObjectId, Order, Orders, QueueNote, ToQueue, ToService,
};
pub use notes::ServingNotes;
pub use row::ImageRow;
pub use serving::Serving;
pub use state::ObjectState;
pub use turn::Turn;

//! What a record of a script promises of each object's callbacks.
//!
//! Laws of the definitions, with no code. Between its create and its destroy notice a subscription is told, in order and
//! each once, what its strategy makes of exactly the messages that its link lets through of what was sent while it was
//! joined; a timer its ticks; an inbox exactly the replies that its link lets through; and of each message or reply that a
//! cut left broken the code of its fault. If the object was muted, it is told so up to the order that muted it; nothing
//! follows the notice; and while it is not muted it is told at once (`specs/Told.antt`). So it is in every legal record,
//! whichever thread ran what when ([`legal_records_tell_all`]). Over a plain link that is each message from the first image
//! on, as ok ([`legal_records_tell_plainly`], `specs/Plain.antt`). And the last word on quality is true of the image
//! ([`last_words_are_true`], `specs/Word.antt`). A watch tells its timeout only after its retries, at a tick that found no
//! image ([`legal_watches_are_true`], `specs/Watched.antt`). A group is told its state, and where that is fresh each member that is
//! not ended has its sender's record ([`legal_groups_are_true`], `specs/Grouped.antt`).
#![tactic(auto)]

mod laws;

pub use laws::{
    last_words_are_true, legal_groups_are_true, legal_records_tell_all, legal_records_tell_plainly,
    legal_watches_are_true,
};

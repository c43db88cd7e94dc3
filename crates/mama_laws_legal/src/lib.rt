//! When the record of a run is legal for a script, and that the record of a run in rounds is.
//!
//! `IsLegal` says what legal is: no line, send or event is left out, and nothing is made up. Its parts say what each actor
//! put on each lane, and that just that was taken, that each line was done, and which callbacks and images there are. They
//! speak of a script and a record alone, and not of rounds, so a run on threads can be held to them too.
//!
//! [`legal_records_have_streams`] is the law for every legal record: what each subscription, inbox and timer got, and that
//! each last event was taken. [`round_is_legal`] says that a run in rounds is legal; the other laws are their parts, each
//! with the premises that it needs. There is no code here but functions with empty bodies, whose contracts are the laws.
#![tactic(auto)]

mod laws;

pub use laws::{
    inboxes_get_their_streams, legal_records_have_streams, one_record, queues_are_there,
    round_is_legal, rounds_are_shaped, rounds_are_whole, rounds_do_all_lines, rounds_tell_calls,
    subs_get_their_streams, timers_get_their_streams,
};

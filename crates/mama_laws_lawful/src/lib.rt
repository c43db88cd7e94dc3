//! That what the bridge puts on each lane is what it may put there, for every journal.
//!
//! What a bridge puts is a function of its journal, `bridge_puts` of `mama_rules_services`, whatever is taken in whatever order.
//! The contracts of this crate's functions are laws of that function: what goes to each queue, to each publisher and
//! to the timers is lawful there (`StreamsAreLawful` in `specs/Laws.antt`), where each client put what it may. Then each
//! object is created once, in the least free slot of its queue, and it is gone once when the ending has come; and every
//! lane is told `Fin` exactly with the ending. There is no code here but functions with empty bodies.
#![tactic(auto)]

mod laws;

pub use laws::{
    each_create_has_its_gone, fins_tell_the_ending, lawful_clients_are_timely,
    lawful_clients_get_lawful_streams, slots_are_least, timely_streams_are_lawful,
    timers_get_a_lawful_stream,
};

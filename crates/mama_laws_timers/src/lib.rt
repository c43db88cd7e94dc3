//! That what the timer service puts on each queue is what it may put there, for every journal.
//!
//! What the service puts is a function of its journal, `timers_puts` of `mama_rules_services`, whatever is taken in
//! whatever order. The contracts of this crate's functions are laws of that function: what goes to each queue is lawful
//! there, where each client put what it may. Then each timer is created once, in the least of the queue's timer slots
//! that is free, and it is gone once when the ending has come; and every queue is told `Fin` exactly with the ending.
//! There is no code here but functions with empty bodies.
#![tactic(auto)]

mod laws;

pub use laws::{
    each_create_has_its_gone, fins_tell_the_ending, lawful_clients_are_timely,
    lawful_clients_get_lawful_streams, slots_are_least, timely_streams_are_lawful,
};

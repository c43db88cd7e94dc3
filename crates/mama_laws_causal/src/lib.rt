//! What a record of a run in rounds promises of the order in which things happened.
//!
//! A law of the definitions, with no code: one order of all entries and client lines keeps each actor's own order and has
//! each event taken after it was put ([`rounds_are_causal`], `specs/Causal.antt`). The order is the one in which the
//! rounds ran, but for the clients: what they do needs nothing, so it may all come first.
#![tactic(auto)]

mod laws;

pub use laws::rounds_are_causal;

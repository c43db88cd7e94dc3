//! Links with faults: messages pass a link one by one, and its fault rows say which are lost, repeated, held back or cut.
//!
//! What a link promises is said of the whole list of messages that went in, numbered from 1. `specs/Link.antt` carries
//! the promise: what comes out at a place (`emit`), what is still held (`held`), what the end puts out (`rest`), and all
//! that comes out (`through`). A link stands for a list (`StandsFor`) where it passed as many messages as the list has
//! and holds exactly those that are not yet due. A new link stands for no messages; each call of [`Link`] says what it
//! puts out, for every list for which the link stood, and that the link stands for one message more.
//!
//! Messages are of any type that tells what a cut leaves of one ([`Cuttable`]); the definitions take that as `cut`.
//!
//! [`passes_all`], [`shares_out`], [`loses_nothing`], [`at_most_twice`], [`cuts_keep_all`] and [`long_cuts_are_none`] are laws of
//! those definitions: their contracts are the laws, and the calls do nothing. [`faults_are_compared_exactly`] says the same of
//! `==`.
//!
//! A pass costs time by what comes out at its place, and a logarithm of the number of rows. A link keeps a slot for each
//! row whose message came, and the slots that are due at a place are listed when the rows are read ([`Faults::new`]).
#![tactic(auto)]

mod cuttable;
mod faults;
mod laws;
mod link;
mod prepared;
mod slots;

pub use cuttable::Cuttable;
pub use faults::{Fault, FaultRow, Faults, FaultsFault};
pub use laws::{
    at_most_twice, cuts_keep_all, faults_are_compared_exactly, long_cuts_are_none, loses_nothing,
    passes_all, shares_out,
};
pub use link::Link;
pub use mama_memory::{Duplicate, OutOfMemory};
pub use prepared::Prepared;

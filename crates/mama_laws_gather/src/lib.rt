//! What is gathered of a run on threads makes a legal record.
//!
//! Laws of the definitions, with no code and no word on threads, lanes or time. Of each port, what was taken begins what was
//! put, and is all of it where its last event was taken (`AreGathered` of `specs/Gathered.antt`). Where all that take have
//! ended besides, every edge is whole, and the record is legal ([`gathered_is_legal`]); its lines were done where each client
//! and each publisher did its own (`HaveDoneLines` of `specs/Done.antt`, by [`gathered_do_lines`]).
#![tactic(auto)]

mod laws;

pub use laws::{gathered_do_lines, gathered_is_legal};

//! The rules of a queue, as functions of its journal.
#![tactic(auto)]

//! The tests of an image board: its rows on one thread, and a reader beside the writer.
#![tactic(auto)]

#[cfg(test)]
mod boards;

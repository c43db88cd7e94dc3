//! Tests of the parts of the checker, and of the checker itself on small records.
//!
//! Journals and what was put stand as logs have them, and a bar ends each line of a row.
#![tactic(auto)]

#[cfg(test)]
mod judging;
#[cfg(test)]
mod lanes;
#[cfg(test)]
mod lists;
#[cfg(test)]
mod order;
#[cfg(test)]
mod puts;
#[cfg(test)]
mod queues;

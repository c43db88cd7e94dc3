//! The tests of a pool: two hands that share their items, in one thread and in two, and four of which each takes from the
//! next; and of threads that turn seats, of which those of queues move between them.
#![tactic(auto)]

#[cfg(test)]
mod hands;
#[cfg(test)]
mod threads;
#[cfg(test)]
mod turning;

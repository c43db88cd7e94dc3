//! Tests of a crew on one thread: it is opened, its seats are turned and informed until all have ended, and it is closed; and of one
//! whose queues show their images.
#![tactic(auto)]

#[cfg(test)]
mod crews;
#[cfg(test)]
mod played;
#[cfg(test)]
mod shown;
#[cfg(test)]
mod turning;

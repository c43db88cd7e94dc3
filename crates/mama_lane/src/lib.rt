//! Lanes: what several ports put, in any threads, one taker takes, in the order of each port, and nothing is lost or
//! made.
//!
//! [`open_lane`] makes a [`Lane`], its numbered [`Port`]s and its one [`Taker`]. The lane is shared by reference; ports,
//! the taker and notes go to whatever threads their callers like. For every schedule of those threads:
//!
//! - What a port puts is lawful, and its put list grows by the event ([`Port::put`]).
//! - What the taker takes came from one of the ports, and what it took from each port is lawful ([`Taker::take`]). It
//!   finds nothing only by a look at a lane that holds nothing, so that by then it took all that the notes which it
//!   learnt name ([`Port::tell`], [`Taker::learn`]).
//! - It takes events ahead of its calls, as many as leave the lane in one step and 31 at most, and answers them one by
//!   one in their order. What it took is what it answered.
//! - At the end, what was taken from a port begins what the port put, and is all of it where its last event was taken
//!   ([`close_lane`], [`Taker::ended`]).
//!
//! Nothing is promised of waiting: not that an event is ever taken, nor that a call that takes a `Wait` returns.
//!
//! # The rule
//!
//! A lane is a queue under a rule. Each opener, port, taker and note has a pass, by which it makes its steps; what the
//! pass knows is its view (`View`). The rule (`Kept` of `specs/Rule.antt`) holds after every step: of each port, what
//! was taken and then what the lane holds is what the port put, and that is lawful. `specs/Steps.antt` says what each
//! step does to views, and `specs/Values.antt` what clauses see of a lane, a port, a note and a taker. These are all
//! the kinds of step:
//!
//! | step | call | pass that steps | what changes | what it tells |
//! |---|---|---|---|---|
//! | bind | `open_lane` | the opener's | it knows the bounds within which ports put | |
//! | split | `open_lane` | the opener's | the next port number gets a view with an empty put list | |
//! | put | `Port::put` | the port's | the event goes last in the lane; the port's put list grows | |
//! | take | `Taker::take` | the taker's | some of the first events leave the lane; the taken list grows | each event came from a port; what was taken from each port is lawful |
//! | empty look | `Taker::take`, where nothing was taken ahead | the taker's | nothing | of each note that was learnt, what it names begins what was taken from its port |
//! | tell | `Port::tell` | the port's | a note gets a view with a copy of the put list | |
//! | learn | `Taker::learn` | the taker's and the note's | the taker's view keeps what the note names; the note's view is spent | |
//! | join | `close_lane` | the taker's and the port's | the taker's view keeps the port's put list; the port's view is spent | |
//! | last look | `close_lane` | the taker's | nothing | of each port that was joined, what was taken from it begins what it put, which is lawful |
//!
//! The opener's pass goes on as the taker's. Where nothing is taken ahead, a call of `Taker::take` makes one step: a take,
//! or an empty look. The queue then reads each event of a take by a pass of its own, which makes no other step.
#![tactic(auto)]

mod ahead;
mod close;
mod lane;
mod looker;
mod note;
mod open;
mod port;
mod rule;
mod steps;
mod taker;
#[cfg(test)]
mod tests;
mod view;

pub use close::close_lane;
pub use lane::Lane;
pub use mama_event::OutOfMemory;
pub use note::PutNote;
pub use open::open_lane;
pub use port::Port;
pub use taker::Taker;

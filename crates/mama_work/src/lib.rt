//! Threads that turn the seats of actors, until all have ended.
//!
//! [`turn_groups`] starts a thread for each group of seats, which turns them in rotation, up to 64 times each; where none of them
//! moves it waits a little, longer each time, and looks again. A group whose thread could not be started is turned by the calling thread.
//!
//! The seats of queues move: each is a dispatcher, dealt to a hand of a pool, and each hand has a thread. The thread takes a
//! dispatcher of its own deque, or where it is empty of the next hands' in order, gives it up to 64 turns, and pushes it back to its
//! own. One that has ended it keeps. What is left in the deques when the threads have left off, the calling thread turns to its end.
//!
//! A turn that finds no memory raises a flag, by which every thread leaves off.
//!
//! What is promised of any kind of [`Seat`]: the seats that come back keep what each turn keeps; and where all threads went to
//! their end, all seats of groups are back, of each queue's number as many seats as were given, and all have ended. That rests on
//! what each hand pushed and took (`specs/Serving.antt`), and on no count that threads share. Nothing is promised of waiting: not
//! that a seat ever moves, nor that the call returns. No clause says that the gate is called, that a moment is the clock's, or how
//! often a queue was taken from another thread's.
#![tactic(auto)]

mod beside;
mod dispatcher;
mod groups;
mod hands;
mod seat;
mod serving;
mod turning;
mod worker;

pub use mama_edge::{Clock, Gate, GateActor};
pub use mama_memory::OutOfMemory;
pub use seat::Seat;
pub use turning::{Turned, turn_groups};

use std::error::Error;
use std::fmt;

/// Why no object was made. The listener is given back.
#[derive(Debug, Drop)]
pub enum ClientFault<L> {
    /// The client is done.
    Closed(L),
    /// There is no such topic.
    BadTopic(L),
    /// There is no such queue.
    BadQueue(L),
    /// A timer's interval is 0.
    ZeroInterval(L),
    /// All numbers of this kind of object were given.
    NumbersSpent(L),
}

/// The client is done.
#[derive(Clone, Copy, Debug, PartialEq, Eq)]
pub struct Closed;

impl fmt::Display for Closed {
    fn fmt<W: fmt::Write>(&self, f: &mut fmt::Formatter<W>) -> fmt::Result {
        write!(f, "the client is done")
    }
}

impl Error for Closed {}

/// Why nothing was asked.
#[derive(Clone, Copy, Debug, PartialEq, Eq)]
pub enum AskFault {
    /// The client is done.
    Closed,
    /// There is no such topic.
    BadTopic,
}

impl fmt::Display for AskFault {
    fn fmt<W: fmt::Write>(&self, f: &mut fmt::Formatter<W>) -> fmt::Result {
        match self {
            AskFault::Closed => write!(f, "the client is done"),
            AskFault::BadTopic => write!(f, "there is no such topic"),
        }
    }
}

impl Error for AskFault {}

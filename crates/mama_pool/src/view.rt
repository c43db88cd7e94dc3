//! What passes of a deque and of its tally know. It exists in proofs alone.

use std::collections::LinkedList;

/// What a pass of a deque knows. In a clause a `LinkedList` is a list. No value of it is made.
pub struct View {
    /// How many of the 65 shares in the deque it has. Who has all knows what all hands took.
    pub shares: u64,
    /// Of the deque's own hand: the numbers that it pushed.
    pub pushed: LinkedList<u32>,
    /// The numbers that it took.
    pub took: LinkedList<u32>,
}

/// What a pass of a tally knows. No value of it is made.
pub struct Count {
    /// How many of the 65 shares in the tally it has.
    pub shares: u64,
    /// How many pushes it counted.
    pub pushes: u64,
    /// How many takes it counted.
    pub takes: u64,
    /// How many of the first pushes it knows to be taken.
    pub known: u64,
    /// How many of the first pushes it learnt of.
    pub learnt: u64,
}

//! What a pass of a lane knows. It exists in proofs alone.

use mama_event::Bounds;
use std::collections::LinkedList;

/// Whose steps a pass makes. A spent pass makes none.
pub enum Role {
    Taker,
    Port,
    Note,
    Spent,
}

/// What a pass knows. In a clause a `LinkedList` is a list. No value of it is made.
pub struct View<N> {
    pub role: Role,
    /// Of the taker and the ports: the bounds within which they put.
    pub bounds: Bounds,
    /// Of a port and a note: the port's number.
    pub number: u32,
    /// Of the taker: how many ports were made.
    pub made: u32,
    /// Of a port: what it put. Of a note: what its port had put.
    pub put: LinkedList<N>,
    /// Of the taker: what it took, with the port's number.
    pub taken: LinkedList<(u32, N)>,
    /// Of the taker: the notes that it learnt.
    pub learnt: LinkedList<(u32, LinkedList<N>)>,
    /// Of the taker: the ports that were joined to it, with all that they had put.
    pub closed: LinkedList<(u32, LinkedList<N>)>,
}

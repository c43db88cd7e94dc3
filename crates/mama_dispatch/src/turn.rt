use mama_event::ObjectId;

/// What a turn of a queue was.
#[derive(Debug, Drop)]
pub enum Turn<L> {
    /// This many callbacks were made of an object that was not muted before.
    Called { count: u64 },
    /// The object was muted before: nothing was made.
    Muted { object: ObjectId },
    /// The object is gone, and here is the listener that came with it.
    Ended { object: ObjectId, listener: L },
    /// Nothing more comes by one port.
    Running,
    /// Nothing more comes by either port.
    Finished,
}

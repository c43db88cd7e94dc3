use mama_event::ObjectId;

/// An actor of a run, as a verdict names it.
#[derive(Clone, Copy, Debug, PartialEq, Eq)]
pub enum Actor {
    /// The client of this number.
    Client(u32),
    /// The publisher of this number.
    Publisher(u32),
    /// The bridge.
    Bridge,
    /// The timer service.
    Timers,
    /// The queue of this number.
    Queue(u32),
    /// A subscription, a timer or an inbox.
    Object(ObjectId),
    /// The group of this number.
    Group(u32),
    /// The watch of this number.
    Watch(u32),
}

/// What a checker says of a record.
#[derive(Clone, Copy, Debug, PartialEq, Eq)]
pub enum Verdict {
    /// The record is a legal run of its script. It is causal, if one order of all its entries has every take after what put
    /// it.
    Legal { causal: bool },
    /// The first rule that is broken, from 1 to 11 as docs/LOG.md numbers them, and for it the first actor. The rules 4 and
    /// 9 follow from the others, so neither is ever the first.
    NotLegal { rule: u8, actor: Actor },
}

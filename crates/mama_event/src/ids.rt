/// A subscription: the client that asked for it, and its number among that client's subscriptions, both from 0.
#[derive(Clone, Copy, Debug, PartialEq, Eq, Hash, PartialOrd, Ord)]
pub struct SubId {
    pub client: u32,
    pub number: u32,
}

/// A timer: the client that armed it, and its number among that client's timers, both from 0.
#[derive(Clone, Copy, Debug, PartialEq, Eq, Hash, PartialOrd, Ord)]
pub struct TimerId {
    pub client: u32,
    pub number: u32,
}

/// An inbox: the client that opened it, and its number among that client's inboxes, both from 0.
#[derive(Clone, Copy, Debug, PartialEq, Eq, Hash, PartialOrd, Ord)]
pub struct InboxId {
    pub client: u32,
    pub number: u32,
}

/// An object that gets callbacks on a queue. Numbers of each kind count for themselves.
#[derive(Clone, Copy, Debug, PartialEq, Eq, Hash, PartialOrd, Ord)]
pub enum ObjectId {
    Sub(SubId),
    Timer(TimerId),
    Inbox(InboxId),
}

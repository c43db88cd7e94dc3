ghost use Rattle.std.specs.Prelude.{◌≡◌, ◌↔◌, true};

use mama_event::{
    BridgeNote, CallNote, GroupNote, ImageHead, PublisherNote, QueueNote, TimersNote, WatchNote,
};
use mama_msg::Msg;

/// Plain data, of which two values are found the same where they are one, and nowhere else.
pub trait Exact {
    /// Whether both are one.
    fn is_same(&self, other: &Self) -> bool
        ensures { (result ≡ true) ↔ (self.now ≡ other.now) };
}

impl Exact for BridgeNote {
    fn is_same(&self, other: &BridgeNote) -> bool {
        self == other
    }
}

impl Exact for TimersNote {
    fn is_same(&self, other: &TimersNote) -> bool {
        self == other
    }
}

impl Exact for QueueNote {
    fn is_same(&self, other: &QueueNote) -> bool {
        self == other
    }
}

impl Exact for PublisherNote {
    fn is_same(&self, other: &PublisherNote) -> bool {
        self == other
    }
}

impl Exact for CallNote {
    fn is_same(&self, other: &CallNote) -> bool {
        self == other
    }
}

impl Exact for GroupNote {
    fn is_same(&self, other: &GroupNote) -> bool {
        self == other
    }
}

impl Exact for WatchNote {
    fn is_same(&self, other: &WatchNote) -> bool {
        self == other
    }
}

impl Exact for ImageHead {
    fn is_same(&self, other: &ImageHead) -> bool {
        self == other
    }
}

impl Exact for Msg {
    fn is_same(&self, other: &Msg) -> bool {
        self == other
    }
}

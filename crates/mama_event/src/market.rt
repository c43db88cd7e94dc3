ghost use Rattle.std.specs.Prelude.{◌≡◌, IfOk};

use mama_memory::{Duplicate, OutOfMemory};
use mama_msg::Msg;

/// What a message of the market is.
#[derive(Clone, Copy, Debug, PartialEq, Eq, Hash)]
pub enum MsgKind {
    /// The whole record, sent because a subscription asked for a first image.
    Initial,
    /// The fields that one update changes.
    Update,
    /// The whole record, sent again.
    Recap,
}

/// Whether an image is the sender's record, or may lack updates.
#[derive(Clone, Copy, Debug, PartialEq, Eq, Hash)]
pub enum Quality {
    Ok,
    Stale,
}

/// How a subscription treats its messages.
#[derive(Clone, Copy, Debug, PartialEq, Eq, Hash)]
pub enum SubKind {
    /// An initial image, then updates with gaps found and healed by recaps.
    Market,
    /// The first image alone.
    Snapshot,
    /// Each message as it comes, with neither image nor quality.
    Basic,
}

/// A message of the market. The sender is the publisher's number plus one. An update is numbered one above the
/// update before it; an image carries the number of the last update in it.
#[derive(Debug, Drop)]
pub struct MarketMsg {
    pub kind: MsgKind,
    pub sender: u32,
    pub seq: u32,
    pub body: Msg,
}

impl PartialEq for MarketMsg {
    ghost use Rattle.std.specs.Prelude.{◌≡◌};
    ghost use Rattle.std.specs.Cmp.{partial_equiv_from_equiv};
    ghost use Rattle.mama_event.specs.Equality.{same_market_msg};
    ghost use Rattle.mama_event.specs.EqualityLaws.{same_market_msg_equivalence};

    ghost eq = { same_market_msg };

    ghost laws = { partial_equiv_from_equiv same_market_msg_equivalence };

    fn eq(&self, other: &MarketMsg) -> bool
        ensures { result ≡ same_market_msg self.now other.now }
    {
        self.kind == other.kind
            && self.sender == other.sender
            && self.seq == other.seq
            && self.body == other.body
    }
}

impl Eq for MarketMsg {
    ghost use Rattle.mama_event.specs.EqualityLaws.{same_market_msg_equivalence};

    ghost laws = { same_market_msg_equivalence };
}

impl Duplicate for MarketMsg {
    fn try_clone(&self) -> Result<MarketMsg, OutOfMemory> {
        let body = self.body.try_clone()?;
        Ok(MarketMsg {
            kind: self.kind,
            sender: self.sender,
            seq: self.seq,
            body,
        })
    }
}

/// What is told of an image beside its fields: whose record it is, the last update in it, and its quality.
#[derive(Clone, Copy, Debug, PartialEq, Eq)]
pub struct ImageHead {
    pub sender: u32,
    pub last: u32,
    pub quality: Quality,
}

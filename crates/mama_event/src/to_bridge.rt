ghost use Rattle.std.specs.Prelude.{◌≡◌, IfOk};

use crate::fids::Fids;
use crate::ids::{InboxId, ObjectId, SubId};
use crate::market::{MarketMsg, SubKind};
use crate::stream::{Stream, Tagged};
use crate::wire::WireMsg;
use mama_link::Faults;
use mama_memory::{Duplicate, OutOfMemory};
use mama_msg::Msg;
use mama_packet::Packet;

/// What a client asks of a subscription: its topic, its kind, the queue that gets its callbacks, the most updates
/// that it caches, the most recaps that may be asked for it, and the faults of its link.
#[derive(Debug, Drop)]
pub struct SubTerms {
    pub topic: u32,
    pub kind: SubKind,
    pub queue: u32,
    pub cache: u32,
    pub recaps: u32,
    pub faults: Faults,
}

impl PartialEq for SubTerms {
    ghost use Rattle.std.specs.Prelude.{◌≡◌};
    ghost use Rattle.std.specs.Cmp.{partial_equiv_from_equiv};
    ghost use Rattle.mama_event.specs.Equality.{same_sub_terms};
    ghost use Rattle.mama_event.specs.EqualityLaws.{same_sub_terms_equivalence};

    ghost eq = { same_sub_terms };

    ghost laws = { partial_equiv_from_equiv same_sub_terms_equivalence };

    fn eq(&self, other: &SubTerms) -> bool
        ensures { result ≡ same_sub_terms self.now other.now }
    {
        self.topic == other.topic
            && self.kind == other.kind
            && self.queue == other.queue
            && self.cache == other.cache
            && self.recaps == other.recaps
            && self.faults == other.faults
    }
}

impl Eq for SubTerms {
    ghost use Rattle.mama_event.specs.EqualityLaws.{same_sub_terms_equivalence};

    ghost laws = { same_sub_terms_equivalence };
}

impl Duplicate for SubTerms {
    fn try_clone(&self) -> Result<SubTerms, OutOfMemory> {
        let faults = self.faults.try_clone()?;
        Ok(SubTerms {
            topic: self.topic,
            kind: self.kind,
            queue: self.queue,
            cache: self.cache,
            recaps: self.recaps,
            faults,
        })
    }
}

/// What a client asks of an inbox: the queue that gets its callbacks, and the faults of its link.
#[derive(Debug, Drop)]
pub struct InboxTerms {
    pub queue: u32,
    pub faults: Faults,
}

impl PartialEq for InboxTerms {
    ghost use Rattle.std.specs.Prelude.{◌≡◌};
    ghost use Rattle.std.specs.Cmp.{partial_equiv_from_equiv};
    ghost use Rattle.mama_event.specs.Equality.{same_inbox_terms};
    ghost use Rattle.mama_event.specs.EqualityLaws.{same_inbox_terms_equivalence};

    ghost eq = { same_inbox_terms };

    ghost laws = { partial_equiv_from_equiv same_inbox_terms_equivalence };

    fn eq(&self, other: &InboxTerms) -> bool
        ensures { result ≡ same_inbox_terms self.now other.now }
    {
        self.queue == other.queue && self.faults == other.faults
    }
}

impl Eq for InboxTerms {
    ghost use Rattle.mama_event.specs.EqualityLaws.{same_inbox_terms_equivalence};

    ghost laws = { same_inbox_terms_equivalence };
}

impl Duplicate for InboxTerms {
    fn try_clone(&self) -> Result<InboxTerms, OutOfMemory> {
        let faults = self.faults.try_clone()?;
        Ok(InboxTerms {
            queue: self.queue,
            faults,
        })
    }
}

/// What the bridge takes: from clients, from publishers, and from queues.
#[derive(Debug, Drop)]
pub enum ToBridge<L> {
    /// A client subscribes.
    Join {
        sub: SubId,
        terms: SubTerms,
        listener: L,
    },
    /// A client or a queue ends a subscription.
    Leave {
        sub: SubId,
    },
    /// A client opens an inbox.
    OpenInbox {
        inbox: InboxId,
        terms: InboxTerms,
        listener: L,
    },
    /// A client or a queue closes an inbox.
    CloseInbox {
        inbox: InboxId,
    },
    /// A client or a queue asks the first publisher of a topic for fields, to be sent to an inbox.
    Ask {
        inbox: InboxId,
        topic: u32,
        fids: Fids,
    },
    /// A publisher sends to all subscriptions of its topic.
    Publish {
        msg: WireMsg,
    },
    /// A publisher sends its record to one subscription.
    Image {
        sub: SubId,
        msg: WireMsg,
    },
    /// A publisher answers an inbox.
    Reply {
        inbox: InboxId,
        body: Packet,
    },
    /// A queue asks for a recap of this sender's record.
    RecapWish {
        sub: SubId,
        sender: u32,
    },
    /// A client puts nothing more.
    ClientDone,
    /// A publisher has sent the last of its own accord.
    SendsDone,
    /// A publisher puts nothing more.
    Settled,
    /// A queue puts nothing more.
    Bye,
}

/// A `ToBridge` as plain data.
#[derive(Debug, Drop)]
pub enum BridgeNote {
    Join {
        sub: SubId,
        terms: SubTerms,
        tag: ObjectId,
    },
    Leave {
        sub: SubId,
    },
    OpenInbox {
        inbox: InboxId,
        terms: InboxTerms,
        tag: ObjectId,
    },
    CloseInbox {
        inbox: InboxId,
    },
    Ask {
        inbox: InboxId,
        topic: u32,
        fids: Fids,
    },
    Publish {
        msg: MarketMsg,
    },
    Image {
        sub: SubId,
        msg: MarketMsg,
    },
    Reply {
        inbox: InboxId,
        body: Msg,
    },
    RecapWish {
        sub: SubId,
        sender: u32,
    },
    ClientDone,
    SendsDone,
    Settled,
    Bye,
}

impl PartialEq for BridgeNote {
    ghost use Rattle.std.specs.Prelude.{◌≡◌};
    ghost use Rattle.std.specs.Cmp.{partial_equiv_from_equiv};
    ghost use Rattle.mama_event.specs.Equality.{same_bridge_note};
    ghost use Rattle.mama_event.specs.EqualityLaws.{same_bridge_note_equivalence};

    ghost eq = { same_bridge_note };

    ghost laws = { partial_equiv_from_equiv same_bridge_note_equivalence };

    fn eq(&self, other: &BridgeNote) -> bool
        ensures { result ≡ same_bridge_note self.now other.now }
    {
        match (self, other) {
            (
                BridgeNote::Join { sub, terms, tag },
                BridgeNote::Join {
                    sub: other_sub,
                    terms: other_terms,
                    tag: other_tag,
                },
            ) => sub == other_sub && terms == other_terms && tag == other_tag,
            (BridgeNote::Leave { sub }, BridgeNote::Leave { sub: other_sub }) => sub == other_sub,
            (
                BridgeNote::OpenInbox { inbox, terms, tag },
                BridgeNote::OpenInbox {
                    inbox: other_inbox,
                    terms: other_terms,
                    tag: other_tag,
                },
            ) => inbox == other_inbox && terms == other_terms && tag == other_tag,
            (BridgeNote::CloseInbox { inbox }, BridgeNote::CloseInbox { inbox: other_inbox }) =>
                inbox == other_inbox,
            (
                BridgeNote::Ask { inbox, topic, fids },
                BridgeNote::Ask {
                    inbox: other_inbox,
                    topic: other_topic,
                    fids: other_fids,
                },
            ) => inbox == other_inbox && topic == other_topic && fids == other_fids,
            (BridgeNote::Publish { msg }, BridgeNote::Publish { msg: other_msg }) => msg
                == other_msg,
            (
                BridgeNote::Image { sub, msg },
                BridgeNote::Image {
                    sub: other_sub,
                    msg: other_msg,
                },
            ) => sub == other_sub && msg == other_msg,
            (
                BridgeNote::Reply { inbox, body },
                BridgeNote::Reply {
                    inbox: other_inbox,
                    body: other_body,
                },
            ) => inbox == other_inbox && body == other_body,
            (
                BridgeNote::RecapWish { sub, sender },
                BridgeNote::RecapWish {
                    sub: other_sub,
                    sender: other_sender,
                },
            ) => sub == other_sub && sender == other_sender,
            (BridgeNote::ClientDone, BridgeNote::ClientDone) => true,
            (BridgeNote::SendsDone, BridgeNote::SendsDone) => true,
            (BridgeNote::Settled, BridgeNote::Settled) => true,
            (BridgeNote::Bye, BridgeNote::Bye) => true,
            _ => false,
        }
    }
}

impl Eq for BridgeNote {
    ghost use Rattle.mama_event.specs.EqualityLaws.{same_bridge_note_equivalence};

    ghost laws = { same_bridge_note_equivalence };
}

impl<L: Tagged> Stream for ToBridge<L> {
    ghost use Rattle.mama_event.specs.Lawful.{IsLawful};
    ghost use Rattle.mama_event.specs.LawfulLaws.{IsLawful-start, IsLawful-prefix, IsLawful-end};
    ghost use Rattle.mama_event.specs.ToBridge.{note_of, is_last, fits};

    type Note = BridgeNote;

    ghost noted = { note_of L.tagged };

    ghost last = { is_last };

    ghost lawful = { λ bounds port. IsLawful is_last (fits bounds) };

    ghost lawful_start = { λ bounds port. IsLawful-start is_last (fits bounds) };

    ghost lawful_prefix = { λ bounds port. IsLawful-prefix is_last (fits bounds) };

    ghost lawful_end = { λ bounds port. IsLawful-end is_last (fits bounds) };

    fn note(&self) -> Result<BridgeNote, OutOfMemory> {
        match self {
            ToBridge::Join {
                sub,
                terms,
                listener,
            } => Ok(BridgeNote::Join {
                sub: *sub,
                terms: terms.try_clone()?,
                tag: listener.tag(),
            }),
            ToBridge::Leave { sub } => Ok(BridgeNote::Leave { sub: *sub }),
            ToBridge::OpenInbox {
                inbox,
                terms,
                listener,
            } => Ok(BridgeNote::OpenInbox {
                inbox: *inbox,
                terms: terms.try_clone()?,
                tag: listener.tag(),
            }),
            ToBridge::CloseInbox { inbox } => Ok(BridgeNote::CloseInbox { inbox: *inbox }),
            ToBridge::Ask { inbox, topic, fids } => Ok(BridgeNote::Ask {
                inbox: *inbox,
                topic: *topic,
                fids: *fids,
            }),
            ToBridge::Publish { msg } => Ok(BridgeNote::Publish {
                msg: msg.into_market()?,
            }),
            ToBridge::Image { sub, msg } => Ok(BridgeNote::Image {
                sub: *sub,
                msg: msg.into_market()?,
            }),
            ToBridge::Reply { inbox, body } => Ok(BridgeNote::Reply {
                inbox: *inbox,
                body: body.unpack()?,
            }),
            ToBridge::RecapWish { sub, sender } => Ok(BridgeNote::RecapWish {
                sub: *sub,
                sender: *sender,
            }),
            ToBridge::ClientDone => Ok(BridgeNote::ClientDone),
            ToBridge::SendsDone => Ok(BridgeNote::SendsDone),
            ToBridge::Settled => Ok(BridgeNote::Settled),
            ToBridge::Bye => Ok(BridgeNote::Bye),
        }
    }

    fn is_last(&self) -> bool {
        matches!(
            self,
            ToBridge::ClientDone | ToBridge::Settled | ToBridge::Bye
        )
    }
}

ghost use Rattle.std.specs.Prelude.{◌≡◌, ◌&&◌, IfOk};
ghost use Rattle.mama_event.specs.Object.{same_object};
ghost use Rattle.mama_event.specs.Equality.{same_make, same_heads};
ghost use Rattle.mama_event.specs.ToQueue.{note_of as noted_as, note_code};
ghost use Rattle.mama_event.specs.Noted.{delivered_note, replied_note};
ghost use Rattle.mama_event.specs.Wire.{arrival_of, reply_of};

use crate::ids::{InboxId, ObjectId, SubId, TimerId};
use crate::market::{MarketMsg, MsgKind, SubKind};
use crate::shape::Strategy;
use crate::stream::{Stream, Tagged};
use crate::wire::{PieceMsg, error_code};
use mama_memory::{Duplicate, OutOfMemory};
use mama_msg::Msg;
use mama_packet::Piece;
use mama_payload::DecodeFault;

/// What an object is made as. It is of the object's kind.
#[derive(Clone, Copy, Debug, PartialEq, Eq)]
pub enum Make {
    /// A subscription, with the most updates that it caches, and what becomes of those that come early or late.
    Sub {
        kind: SubKind,
        cache: u32,
        strategy: Strategy,
    },
    Timer,
    Inbox,
}

/// What a queue takes: from the bridge for subscriptions and inboxes, and from the timer service for timers. An
/// object has a slot from its `Create` to its `Gone`.
#[derive(Debug, Drop)]
pub enum ToQueue<L> {
    /// An object is there, in this slot, with its listener.
    Create {
        slot: u32,
        object: ObjectId,
        make: Make,
        listener: L,
    },
    /// A message for a subscription, whose body may have been cut.
    Deliver {
        slot: u32,
        sub: SubId,
        msg: PieceMsg,
    },
    /// A reply to an inbox, which may have been cut.
    Reply {
        slot: u32,
        inbox: InboxId,
        body: Piece,
    },
    /// A timer ticks, at this moment in milliseconds.
    Tick {
        slot: u32,
        timer: TimerId,
        moment: u64,
    },
    /// An object is gone, and its slot is free.
    Gone {
        slot: u32,
        object: ObjectId,
    },
    /// Nothing more comes by this port.
    Fin,
}

/// A `ToQueue` as plain data, with the message that was read, or with the bytes where they spell none.
#[derive(Debug, Drop)]
pub enum QueueNote {
    Create {
        slot: u32,
        object: ObjectId,
        make: Make,
        tag: ObjectId,
    },
    Deliver {
        slot: u32,
        sub: SubId,
        msg: MarketMsg,
    },
    Reply {
        slot: u32,
        inbox: InboxId,
        body: Msg,
    },
    /// Bytes for a subscription that spell no message, under the head of the message that was cut.
    Bad {
        slot: u32,
        sub: SubId,
        kind: MsgKind,
        sender: u32,
        seq: u32,
        bytes: Piece,
    },
    /// Bytes for an inbox that spell no reply.
    BadReply {
        slot: u32,
        inbox: InboxId,
        bytes: Piece,
    },
    Tick {
        slot: u32,
        timer: TimerId,
        moment: u64,
    },
    Gone {
        slot: u32,
        object: ObjectId,
    },
    Fin,
}

/// Whether two ids name one object.
fn same(a: &ObjectId, b: &ObjectId) -> bool
    ensures { result ≡ same_object a.now b.now }
{
    a == b
}

/// Whether two objects are made alike.
fn made_alike(a: &Make, b: &Make) -> bool
    ensures { result ≡ same_make a.now b.now }
{
    a == b
}

/// Whether an object, what it is made as and its listener's tag are the same on both sides.
fn same_making(
    object: &ObjectId,
    make: &Make,
    tag: &ObjectId,
    other_object: &ObjectId,
    other_make: &Make,
    other_tag: &ObjectId,
) -> bool
    ensures { result ≡ (same_object object.now other_object.now && same_make make.now other_make.now && same_object tag.now other_tag.now) }
{
    same(object, other_object) && made_alike(make, other_make) && same(tag, other_tag)
}

/// Whether two messages are of one kind, sender and number.
fn same_head(
    kind: MsgKind,
    sender: u32,
    seq: u32,
    other_kind: MsgKind,
    other_sender: u32,
    other_seq: u32,
) -> bool
    ensures { result ≡ same_heads kind sender seq other_kind other_sender other_seq }
{
    kind == other_kind && sender == other_sender && seq == other_seq
}

impl PartialEq for QueueNote {
    ghost use Rattle.std.specs.Prelude.{◌≡◌};
    ghost use Rattle.std.specs.Cmp.{partial_equiv_from_equiv};
    ghost use Rattle.mama_event.specs.Equality.{same_queue_note};
    ghost use Rattle.mama_event.specs.EqualityLaws.{same_queue_note_equivalence};

    ghost eq = { same_queue_note };

    ghost laws = { partial_equiv_from_equiv same_queue_note_equivalence };

    fn eq(&self, other: &QueueNote) -> bool
        ensures { result ≡ same_queue_note self.now other.now }
    {
        match (self, other) {
            (
                QueueNote::Create {
                    slot,
                    object,
                    make,
                    tag,
                },
                QueueNote::Create {
                    slot: other_slot,
                    object: other_object,
                    make: other_make,
                    tag: other_tag,
                },
            ) => slot == other_slot
                && same_making(object, make, tag, other_object, other_make, other_tag),
            (
                QueueNote::Deliver { slot, sub, msg },
                QueueNote::Deliver {
                    slot: other_slot,
                    sub: other_sub,
                    msg: other_msg,
                },
            ) => slot == other_slot && sub == other_sub && msg == other_msg,
            (
                QueueNote::Reply { slot, inbox, body },
                QueueNote::Reply {
                    slot: other_slot,
                    inbox: other_inbox,
                    body: other_body,
                },
            ) => slot == other_slot && inbox == other_inbox && body == other_body,
            (
                QueueNote::Bad {
                    slot,
                    sub,
                    kind,
                    sender,
                    seq,
                    bytes,
                },
                QueueNote::Bad {
                    slot: other_slot,
                    sub: other_sub,
                    kind: other_kind,
                    sender: other_sender,
                    seq: other_seq,
                    bytes: other_bytes,
                },
            ) => slot == other_slot
                && sub == other_sub
                && same_head(*kind, *sender, *seq, *other_kind, *other_sender, *other_seq)
                && bytes == other_bytes,
            (
                QueueNote::BadReply { slot, inbox, bytes },
                QueueNote::BadReply {
                    slot: other_slot,
                    inbox: other_inbox,
                    bytes: other_bytes,
                },
            ) => slot == other_slot && inbox == other_inbox && bytes == other_bytes,
            (
                QueueNote::Tick {
                    slot,
                    timer,
                    moment,
                },
                QueueNote::Tick {
                    slot: other_slot,
                    timer: other_timer,
                    moment: other_moment,
                },
            ) => slot == other_slot && timer == other_timer && moment == other_moment,
            (
                QueueNote::Gone { slot, object },
                QueueNote::Gone {
                    slot: other_slot,
                    object: other_object,
                },
            ) => slot == other_slot && object == other_object,
            (QueueNote::Fin, QueueNote::Fin) => true,
            _ => false,
        }
    }
}

impl Eq for QueueNote {
    ghost use Rattle.mama_event.specs.EqualityLaws.{same_queue_note_equivalence};

    ghost laws = { same_queue_note_equivalence };
}

/// Reads a message that may have been cut, and tells the code of the fault where it spells none.
fn read_delivered(slot: u32, sub: SubId, msg: &PieceMsg) -> Result<(QueueNote, u8), OutOfMemory>
    ensures note { IfOk result (λ read. read.0 ≡ delivered_note slot sub (arrival_of msg.now)) }
    ensures code { IfOk result (λ read. read.1 ≡ note_code read.0) }
{
    match msg.into_market() {
        Ok(msg) => Ok((QueueNote::Deliver { slot, sub, msg }, 0)),
        Err(DecodeFault::OutOfMemory) => Err(OutOfMemory),
        Err(fault) => {
            let bytes = msg.body.try_clone()?;
            let note = QueueNote::Bad {
                slot,
                sub,
                kind: msg.kind,
                sender: msg.sender,
                seq: msg.seq,
                bytes,
            };
            Ok((note, error_code(fault)))
        }
    }
}

/// Reads a reply that may have been cut, and tells the code of the fault where it spells none.
fn read_replied(slot: u32, inbox: InboxId, body: &Piece) -> Result<(QueueNote, u8), OutOfMemory>
    ensures note { IfOk result (λ read. read.0 ≡ replied_note slot inbox (reply_of body.now)) }
    ensures code { IfOk result (λ read. read.1 ≡ note_code read.0) }
{
    match body.unpack() {
        Ok(body) => Ok((QueueNote::Reply { slot, inbox, body }, 0)),
        Err(DecodeFault::OutOfMemory) => Err(OutOfMemory),
        Err(fault) => {
            let bytes = body.try_clone()?;
            let note = QueueNote::BadReply { slot, inbox, bytes };
            Ok((note, error_code(fault)))
        }
    }
}

impl<L: Tagged> ToQueue<L> {
    /// The event's note, and the code of the fault where its bytes spell no message, which is 0 where they do. The error is
    /// want of memory.
    pub fn read(&self) -> Result<(QueueNote, u8), OutOfMemory>
        ensures note { IfOk result (λ read. read.0 ≡ noted_as L.tagged self.now) }
        ensures code { IfOk result (λ read. read.1 ≡ note_code read.0) }
    {
        match self {
            ToQueue::Create {
                slot,
                object,
                make,
                listener,
            } => {
                let note = QueueNote::Create {
                    slot: *slot,
                    object: *object,
                    make: *make,
                    tag: listener.tag(),
                };
                Ok((note, 0))
            }
            ToQueue::Deliver { slot, sub, msg } => read_delivered(*slot, *sub, msg),
            ToQueue::Reply { slot, inbox, body } => read_replied(*slot, *inbox, body),
            ToQueue::Tick {
                slot,
                timer,
                moment,
            } => {
                let note = QueueNote::Tick {
                    slot: *slot,
                    timer: *timer,
                    moment: *moment,
                };
                Ok((note, 0))
            }
            ToQueue::Gone { slot, object } => {
                let note = QueueNote::Gone {
                    slot: *slot,
                    object: *object,
                };
                Ok((note, 0))
            }
            ToQueue::Fin => Ok((QueueNote::Fin, 0)),
        }
    }
}

impl<L: Tagged> Stream for ToQueue<L> {
    ghost use Rattle.mama_event.specs.Lawful.{IsLawful};
    ghost use Rattle.mama_event.specs.LawfulLaws.{IsLawful-start, IsLawful-prefix, IsLawful-end};
    ghost use Rattle.mama_event.specs.ToQueue.{note_of, is_last, fits};

    type Note = QueueNote;

    ghost noted = { note_of L.tagged };

    ghost last = { is_last };

    ghost lawful = { λ bounds port. IsLawful is_last (fits port) };

    ghost lawful_start = { λ bounds port. IsLawful-start is_last (fits port) };

    ghost lawful_prefix = { λ bounds port. IsLawful-prefix is_last (fits port) };

    ghost lawful_end = { λ bounds port. IsLawful-end is_last (fits port) };

    fn note(&self) -> Result<QueueNote, OutOfMemory> {
        let (note, _code) = self.read()?;
        Ok(note)
    }

    fn is_last(&self) -> bool {
        matches!(self, ToQueue::Fin)
    }
}

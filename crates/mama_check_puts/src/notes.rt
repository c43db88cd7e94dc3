ghost use Rattle.std.specs.Prelude.{◌≡◌, IfOk};
ghost use Rattle.mama_event.specs.ToBridge.{note_of as bridge_note_of};
ghost use Rattle.mama_event.specs.ToPublisher.{note_of as publisher_note_of};
ghost use Rattle.mama_event.specs.ToQueue.{note_of as queue_note_of};
ghost use Rattle.mama_event.specs.ToTimers.{note_of as timers_note_of};
ghost use Rattle.mama_check_puts.specs.Dealing.{own_tag};

use mama_event::{
    BridgeNote, ObjectId, PublisherNote, QueueNote, Stream, TimersNote, ToBridge, ToPublisher,
    ToQueue, ToTimers,
};
use mama_memory::{Duplicate, OutOfMemory};
use mama_publisher::{packed, packed_message};
use std::alloc::Global;

/// The event of a note, whose listener is the tag itself.
pub(crate) fn timers_event(note: TimersNote) -> ToTimers<ObjectId>
    ensures { timers_note_of own_tag result ≡ note }
{
    match note {
        TimersNote::Arm {
            timer,
            queue,
            interval,
            tag,
        } => ToTimers::Arm {
            timer,
            queue,
            interval,
            listener: tag,
        },
        TimersNote::Disarm { timer } => ToTimers::Disarm { timer },
        TimersNote::Now { moment } => ToTimers::Now { moment },
        TimersNote::ClientDone => ToTimers::ClientDone,
        TimersNote::Bye => ToTimers::Bye,
        TimersNote::Fin => ToTimers::Fin,
    }
}

/// The note of an event to a queue.
pub(crate) fn queue_note(event: ToQueue<ObjectId>) -> Result<QueueNote, OutOfMemory>
    ensures { IfOk result (λ note. note ≡ queue_note_of own_tag event) }
{
    event.note()
}

/// The note of an event to the timer service.
pub(crate) fn timers_note(event: ToTimers<ObjectId>) -> TimersNote
    ensures { result ≡ timers_note_of own_tag event }
{
    event.note().unwrap()
}

/// The event of a note to a publisher.
pub(crate) fn publisher_event(note: PublisherNote) -> ToPublisher
    ensures { publisher_note_of result ≡ note }
{
    match note {
        PublisherNote::Want { sub, kind } => ToPublisher::Want { sub, kind },
        PublisherNote::Ask { inbox, fids } => ToPublisher::Ask { inbox, fids },
        PublisherNote::Settle => ToPublisher::Settle,
        PublisherNote::Fin => ToPublisher::Fin,
    }
}

/// The note of an event to a publisher.
pub(crate) fn publisher_note(event: ToPublisher) -> PublisherNote
    ensures { result ≡ publisher_note_of event }
{
    event.note().unwrap()
}

/// A copy of a note to the bridge as an event, whose listener is the tag itself. The error is want of memory, and comes also
/// where the message has more than 64 fields, which no log tells.
pub(crate) fn bridge_event(
    alloc: Global,
    note: &BridgeNote,
) -> Result<ToBridge<ObjectId>, OutOfMemory>
    ensures { IfOk result (λ event. bridge_note_of own_tag event ≡ note.now) }
{
    match note {
        BridgeNote::Join { sub, terms, tag } => Ok(ToBridge::Join {
            sub: *sub,
            terms: terms.try_clone()?,
            listener: *tag,
        }),
        BridgeNote::Leave { sub } => Ok(ToBridge::Leave { sub: *sub }),
        BridgeNote::OpenInbox { inbox, terms, tag } => Ok(ToBridge::OpenInbox {
            inbox: *inbox,
            terms: terms.try_clone()?,
            listener: *tag,
        }),
        BridgeNote::CloseInbox { inbox } => Ok(ToBridge::CloseInbox { inbox: *inbox }),
        BridgeNote::Ask { inbox, topic, fids } => Ok(ToBridge::Ask {
            inbox: *inbox,
            topic: *topic,
            fids: *fids,
        }),
        BridgeNote::Publish { msg } => Ok(ToBridge::Publish {
            msg: packed_message(alloc, msg)?,
        }),
        BridgeNote::Image { sub, msg } => Ok(ToBridge::Image {
            sub: *sub,
            msg: packed_message(alloc, msg)?,
        }),
        BridgeNote::Reply { inbox, body } => Ok(ToBridge::Reply {
            inbox: *inbox,
            body: packed(alloc, body)?,
        }),
        BridgeNote::RecapWish { sub, sender } => Ok(ToBridge::RecapWish {
            sub: *sub,
            sender: *sender,
        }),
        BridgeNote::ClientDone => Ok(ToBridge::ClientDone),
        BridgeNote::SendsDone => Ok(ToBridge::SendsDone),
        BridgeNote::Settled => Ok(ToBridge::Settled),
        BridgeNote::Bye => Ok(ToBridge::Bye),
    }
}

/// The note of an event to the bridge.
pub(crate) fn bridge_note(event: ToBridge<ObjectId>) -> Result<BridgeNote, OutOfMemory>
    ensures { IfOk result (λ note. note ≡ bridge_note_of own_tag event) }
{
    event.note()
}

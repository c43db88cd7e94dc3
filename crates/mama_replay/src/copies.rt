ghost use Rattle.std.specs.Prelude.{◌≡◌, IfOk};
ghost use Rattle.mama_record.specs.RunView.{moments_of, entries_of, events_of, calls_of, images_of, groups_of, watches_of};

use mama_event::{
    BridgeNote, CallNote, GroupNote, ImageHead, ObjectId, PublisherEntry, QueueNote, SubId,
    TimersNote, WatchNote,
};
use mama_memory::{Duplicate, OutOfMemory};
use mama_msg::Msg;
use mama_record::RunRecord;
use std::alloc::Global;

/// A copy of a record. Messages are shared.
pub(crate) fn copy_of(alloc: Global, run: &RunRecord) -> Result<RunRecord, OutOfMemory>
    ensures { IfOk result (λ copy. copy ≡ run.now) }
{
    let clients = moments_in(alloc, run.clients())?;
    let publishers = entries_in(alloc, run.publishers())?;
    let bridge = bridge_in(alloc, run.bridge())?;
    let timers = timers_in(alloc, run.timers())?;
    let queues = queues_in(alloc, run.queues())?;
    let calls = all_calls(alloc, run.calls())?;
    let images = images_in(alloc, run.images())?;
    let groups = groups_in(alloc, run.groups())?;
    let watches = watches_in(alloc, run.watches())?;
    Ok(RunRecord::new(
        clients, publishers, bridge, timers, queues, calls, images, groups, watches,
    ))
}

fn moments_in(alloc: Global, clients: &[Vec<u64>]) -> Result<Vec<Vec<u64>>, OutOfMemory>
    ensures { IfOk result (λ copy. moments_of copy.items ≡ moments_of clients.now) }
{
    let mut copy = Vec::with_capacity(alloc, clients.len())?;
    for moments in clients {
        copy.push(Vec::from_slice(alloc, moments.as_slice())?)?;
    }
    Ok(copy)
}

fn entries_in(
    alloc: Global,
    publishers: &[Vec<PublisherEntry>],
) -> Result<Vec<Vec<PublisherEntry>>, OutOfMemory>
    ensures { IfOk result (λ copy. entries_of copy.items ≡ entries_of publishers.now) }
{
    let mut copy = Vec::with_capacity(alloc, publishers.len())?;
    for journal in publishers {
        copy.push(Vec::from_slice(alloc, journal.as_slice())?)?;
    }
    Ok(copy)
}

fn bridge_in(
    alloc: Global,
    journal: &[(u32, BridgeNote)],
) -> Result<Vec<(u32, BridgeNote)>, OutOfMemory>
    ensures { IfOk result (λ copy. copy.items ≡ journal.now) }
{
    let mut copy = Vec::with_capacity(alloc, journal.len())?;
    for (port, note) in journal {
        copy.push((*port, bridge_note(note)?))?;
    }
    Ok(copy)
}

fn timers_in(
    alloc: Global,
    journal: &[(u32, TimersNote)],
) -> Result<Vec<(u32, TimersNote)>, OutOfMemory>
    ensures { IfOk result (λ copy. copy.items ≡ journal.now) }
{
    Ok(Vec::from_slice(alloc, journal)?)
}

fn queues_in(
    alloc: Global,
    queues: &[Vec<(u32, QueueNote)>],
) -> Result<Vec<Vec<(u32, QueueNote)>>, OutOfMemory>
    ensures { IfOk result (λ copy. events_of copy.items ≡ events_of queues.now) }
{
    let mut copy = Vec::with_capacity(alloc, queues.len())?;
    for journal in queues {
        copy.push(queue_in(alloc, journal.as_slice())?)?;
    }
    Ok(copy)
}

fn queue_in(
    alloc: Global,
    journal: &[(u32, QueueNote)],
) -> Result<Vec<(u32, QueueNote)>, OutOfMemory>
    ensures { IfOk result (λ copy. copy.items ≡ journal.now) }
{
    let mut copy = Vec::with_capacity(alloc, journal.len())?;
    for (port, note) in journal {
        copy.push((*port, queue_note(note)?))?;
    }
    Ok(copy)
}

fn all_calls(
    alloc: Global,
    objects: &[(ObjectId, Vec<CallNote>)],
) -> Result<Vec<(ObjectId, Vec<CallNote>)>, OutOfMemory>
    ensures { IfOk result (λ copy. calls_of copy.items ≡ calls_of objects.now) }
{
    let mut copy = Vec::with_capacity(alloc, objects.len())?;
    for (object, calls) in objects {
        copy.push((*object, calls_in(alloc, calls.as_slice())?))?;
    }
    Ok(copy)
}

fn calls_in(alloc: Global, calls: &[CallNote]) -> Result<Vec<CallNote>, OutOfMemory>
    ensures { IfOk result (λ copy. copy.items ≡ calls.now) }
{
    let mut copy = Vec::with_capacity(alloc, calls.len())?;
    for call in calls {
        copy.push(call.try_clone()?)?;
    }
    Ok(copy)
}

fn images_in(
    alloc: Global,
    images: &[(SubId, ImageHead, Msg)],
) -> Result<Vec<(SubId, ImageHead, Msg)>, OutOfMemory>
    ensures { IfOk result (λ copy. images_of copy.items ≡ images_of images.now) }
{
    let mut copy = Vec::with_capacity(alloc, images.len())?;
    for (sub, head, body) in images {
        copy.push((*sub, *head, body.try_clone()?))?;
    }
    Ok(copy)
}

fn groups_in(
    alloc: Global,
    groups: &[(u32, Vec<GroupNote>)],
) -> Result<Vec<(u32, Vec<GroupNote>)>, OutOfMemory>
    ensures { IfOk result (λ copy. groups_of copy.items ≡ groups_of groups.now) }
{
    let mut copy = Vec::with_capacity(alloc, groups.len())?;
    for (group, notes) in groups {
        copy.push((*group, heard_in(alloc, notes.as_slice())?))?;
    }
    Ok(copy)
}

fn heard_in(alloc: Global, notes: &[GroupNote]) -> Result<Vec<GroupNote>, OutOfMemory>
    ensures { IfOk result (λ copy. copy.items ≡ notes.now) }
{
    let mut copy = Vec::with_capacity(alloc, notes.len())?;
    for note in notes {
        copy.push(note.try_clone()?)?;
    }
    Ok(copy)
}

fn watches_in(
    alloc: Global,
    watches: &[(u32, Vec<WatchNote>)],
) -> Result<Vec<(u32, Vec<WatchNote>)>, OutOfMemory>
    ensures { IfOk result (λ copy. watches_of copy.items ≡ watches_of watches.now) }
{
    let mut copy = Vec::with_capacity(alloc, watches.len())?;
    for (watch, notes) in watches {
        copy.push((*watch, Vec::from_slice(alloc, notes.as_slice())?))?;
    }
    Ok(copy)
}

/// A copy of a note to the bridge.
fn bridge_note(note: &BridgeNote) -> Result<BridgeNote, OutOfMemory>
    ensures { IfOk result (λ copy. copy ≡ note.now) }
{
    match note {
        BridgeNote::Join { sub, terms, tag } => Ok(BridgeNote::Join {
            sub: *sub,
            terms: terms.try_clone()?,
            tag: *tag,
        }),
        BridgeNote::Leave { sub } => Ok(BridgeNote::Leave { sub: *sub }),
        BridgeNote::OpenInbox { inbox, terms, tag } => Ok(BridgeNote::OpenInbox {
            inbox: *inbox,
            terms: terms.try_clone()?,
            tag: *tag,
        }),
        BridgeNote::CloseInbox { inbox } => Ok(BridgeNote::CloseInbox { inbox: *inbox }),
        BridgeNote::Ask { inbox, topic, fids } => Ok(BridgeNote::Ask {
            inbox: *inbox,
            topic: *topic,
            fids: *fids,
        }),
        BridgeNote::Publish { msg } => Ok(BridgeNote::Publish {
            msg: msg.try_clone()?,
        }),
        BridgeNote::Image { sub, msg } => Ok(BridgeNote::Image {
            sub: *sub,
            msg: msg.try_clone()?,
        }),
        BridgeNote::Reply { inbox, body } => Ok(BridgeNote::Reply {
            inbox: *inbox,
            body: body.try_clone()?,
        }),
        BridgeNote::RecapWish { sub, sender } => Ok(BridgeNote::RecapWish {
            sub: *sub,
            sender: *sender,
        }),
        BridgeNote::ClientDone => Ok(BridgeNote::ClientDone),
        BridgeNote::SendsDone => Ok(BridgeNote::SendsDone),
        BridgeNote::Settled => Ok(BridgeNote::Settled),
        BridgeNote::Bye => Ok(BridgeNote::Bye),
    }
}

/// A copy of a note to a queue.
fn queue_note(note: &QueueNote) -> Result<QueueNote, OutOfMemory>
    ensures { IfOk result (λ copy. copy ≡ note.now) }
{
    match note {
        QueueNote::Create {
            slot,
            object,
            make,
            tag,
        } => Ok(QueueNote::Create {
            slot: *slot,
            object: *object,
            make: *make,
            tag: *tag,
        }),
        QueueNote::Deliver { slot, sub, msg } => Ok(QueueNote::Deliver {
            slot: *slot,
            sub: *sub,
            msg: msg.try_clone()?,
        }),
        QueueNote::Reply { slot, inbox, body } => Ok(QueueNote::Reply {
            slot: *slot,
            inbox: *inbox,
            body: body.try_clone()?,
        }),
        QueueNote::Bad {
            slot,
            sub,
            kind,
            sender,
            seq,
            bytes,
        } => Ok(QueueNote::Bad {
            slot: *slot,
            sub: *sub,
            kind: *kind,
            sender: *sender,
            seq: *seq,
            bytes: bytes.try_clone()?,
        }),
        QueueNote::BadReply { slot, inbox, bytes } => Ok(QueueNote::BadReply {
            slot: *slot,
            inbox: *inbox,
            bytes: bytes.try_clone()?,
        }),
        QueueNote::Tick {
            slot,
            timer,
            moment,
        } => Ok(QueueNote::Tick {
            slot: *slot,
            timer: *timer,
            moment: *moment,
        }),
        QueueNote::Gone { slot, object } => Ok(QueueNote::Gone {
            slot: *slot,
            object: *object,
        }),
        QueueNote::Fin => Ok(QueueNote::Fin),
    }
}

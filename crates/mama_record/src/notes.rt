ghost use Rattle.std.specs.Prelude.{◌≡◌, codes, ◌∷◌, ◌++◌, OnOk};
ghost use Rattle.mama_edge.specs.Decimal.{decimal};
ghost use Rattle.mama_words.specs.Id.{sub_text};
ghost use Rattle.mama_words.specs.Kind.{msg_kind_text};
ghost use Rattle.mama_words.specs.Order.{spaced_number};
ghost use Rattle.mama_words.specs.Value.{bytes_text};
ghost use Rattle.mama_record.specs.LogText as text;

use crate::words::{
    put_bridge_putter, put_fids, put_msg, put_number, put_queue_putter, put_spaced_number,
    put_timers_putter,
};
use mama_edge::print_u64;
use mama_event::{
    BridgeNote, MsgKind, PublisherEntry, PublisherNote, QueueNote, Shape, SubId, TimersNote,
};
use mama_memory::OutOfMemory;
use mama_words::{
    print_block, print_fields, print_inbox_id, print_msg_kind, print_object_id, print_sub_id,
    print_timer_id,
};

pub fn put_bridge_note(note: &BridgeNote, out: &mut Vec<u8>) -> Result<(), OutOfMemory>
    ensures { OnOk result (out.new.items ≡ out.old.items ++ text.bridge_note_text note.now) }
{
    match note {
        BridgeNote::Join {
            sub,
            terms: _,
            tag: _,
        } => {
            out.extend_from_slice(b"join ")?;
            print_sub_id(*sub, out)
        }
        BridgeNote::Leave { sub } => {
            out.extend_from_slice(b"leave ")?;
            print_sub_id(*sub, out)
        }
        BridgeNote::OpenInbox {
            inbox,
            terms: _,
            tag: _,
        } => {
            out.extend_from_slice(b"open ")?;
            print_inbox_id(*inbox, out)
        }
        BridgeNote::CloseInbox { inbox } => {
            out.extend_from_slice(b"close ")?;
            print_inbox_id(*inbox, out)
        }
        BridgeNote::Ask { inbox, topic, fids } => {
            out.extend_from_slice(b"ask ")?;
            print_inbox_id(*inbox, out)?;
            put_spaced_number(*topic, out)?;
            put_fids(fids, out)
        }
        BridgeNote::Publish { msg } => {
            out.extend_from_slice(b"publish ")?;
            put_msg(msg, out)
        }
        BridgeNote::Image { sub, msg } => {
            out.extend_from_slice(b"image ")?;
            print_sub_id(*sub, out)?;
            out.push(b' ')?;
            put_msg(msg, out)
        }
        BridgeNote::Reply { inbox, body } => {
            out.extend_from_slice(b"reply ")?;
            print_inbox_id(*inbox, out)?;
            print_fields(body, out)
        }
        BridgeNote::RecapWish { sub, sender } => {
            out.extend_from_slice(b"recap ")?;
            print_sub_id(*sub, out)?;
            put_spaced_number(*sender, out)
        }
        BridgeNote::ClientDone => Ok(out.extend_from_slice(b"done")?),
        BridgeNote::SendsDone => Ok(out.extend_from_slice(b"done")?),
        BridgeNote::Settled => Ok(out.extend_from_slice(b"settled")?),
        BridgeNote::Bye => Ok(out.extend_from_slice(b"bye")?),
    }
}

pub fn put_timers_note(note: &TimersNote, out: &mut Vec<u8>) -> Result<(), OutOfMemory>
    ensures { OnOk result (out.new.items ≡ out.old.items ++ text.timers_note_text note.now) }
{
    match note {
        TimersNote::Arm {
            timer,
            queue: _,
            interval: _,
            tag: _,
        } => {
            out.extend_from_slice(b"arm ")?;
            print_timer_id(*timer, out)
        }
        TimersNote::Disarm { timer } => {
            out.extend_from_slice(b"disarm ")?;
            print_timer_id(*timer, out)
        }
        TimersNote::Now { moment } => {
            out.extend_from_slice(b"now ")?;
            print_u64(*moment, out)
        }
        TimersNote::ClientDone => Ok(out.extend_from_slice(b"done")?),
        TimersNote::Bye => Ok(out.extend_from_slice(b"bye")?),
        TimersNote::Fin => Ok(out.extend_from_slice(b"fin")?),
    }
}

fn put_bad(slot: u32, sub: SubId, out: &mut Vec<u8>) -> Result<(), OutOfMemory>
    ensures { OnOk result (out.new.items ≡ out.old.items ++ (codes "bad " ++ decimal slot ++ 32 ∷ sub_text sub)) }
{
    out.extend_from_slice(b"bad ")?;
    put_number(slot, out)?;
    out.push(b' ')?;
    print_sub_id(sub, out)
}

// What is printed of a message beside its fields.
fn put_msg_head(kind: MsgKind, sender: u32, seq: u32, out: &mut Vec<u8>) -> Result<(), OutOfMemory>
    ensures { OnOk result (out.new.items ≡ out.old.items ++ (32 ∷ msg_kind_text kind ++ spaced_number sender ++ spaced_number seq)) }
{
    out.push(b' ')?;
    print_msg_kind(kind, out)?;
    put_spaced_number(sender, out)?;
    put_spaced_number(seq, out)
}

fn put_spaced_block(bytes: &[u8], out: &mut Vec<u8>) -> Result<(), OutOfMemory>
    ensures { OnOk result (out.new.items ≡ out.old.items ++ 32 ∷ bytes_text bytes.now) }
{
    out.push(b' ')?;
    print_block(bytes, out)
}

pub fn put_queue_note(note: &QueueNote, out: &mut Vec<u8>) -> Result<(), OutOfMemory>
    ensures { OnOk result (out.new.items ≡ out.old.items ++ text.queue_note_text note.now) }
{
    match note {
        QueueNote::Create {
            slot,
            object,
            make: _,
            tag: _,
        } => {
            out.extend_from_slice(b"create ")?;
            put_number(*slot, out)?;
            out.push(b' ')?;
            print_object_id(*object, out)
        }
        QueueNote::Deliver { slot, sub, msg } => {
            out.extend_from_slice(b"data ")?;
            put_number(*slot, out)?;
            out.push(b' ')?;
            print_sub_id(*sub, out)?;
            out.push(b' ')?;
            put_msg(msg, out)
        }
        QueueNote::Reply { slot, inbox, body } => {
            out.extend_from_slice(b"reply ")?;
            put_number(*slot, out)?;
            out.push(b' ')?;
            print_inbox_id(*inbox, out)?;
            print_fields(body, out)
        }
        QueueNote::Bad {
            slot,
            sub,
            kind,
            sender,
            seq,
            bytes,
        } => {
            put_bad(*slot, *sub, out)?;
            put_msg_head(*kind, *sender, *seq, out)?;
            put_spaced_block(bytes.bytes(), out)
        }
        QueueNote::BadReply { slot, inbox, bytes } => {
            out.extend_from_slice(b"badreply ")?;
            put_number(*slot, out)?;
            out.push(b' ')?;
            print_inbox_id(*inbox, out)?;
            put_spaced_block(bytes.bytes(), out)
        }
        QueueNote::Tick {
            slot,
            timer,
            moment,
        } => {
            out.extend_from_slice(b"tick ")?;
            put_number(*slot, out)?;
            out.push(b' ')?;
            print_timer_id(*timer, out)?;
            out.push(b' ')?;
            print_u64(*moment, out)
        }
        QueueNote::Gone { slot, object } => {
            out.extend_from_slice(b"gone ")?;
            put_number(*slot, out)?;
            out.push(b' ')?;
            print_object_id(*object, out)
        }
        QueueNote::Fin => Ok(out.extend_from_slice(b"fin")?),
    }
}

pub fn put_publisher_entry(entry: &PublisherEntry, out: &mut Vec<u8>) -> Result<(), OutOfMemory>
    ensures { OnOk result (out.new.items ≡ out.old.items ++ text.publisher_entry_text entry.now) }
{
    match entry {
        PublisherEntry::Send => Ok(out.extend_from_slice(b"send")?),
        PublisherEntry::Done => Ok(out.extend_from_slice(b"done")?),
        PublisherEntry::Took(note) => put_publisher_note(note, out),
    }
}

fn put_publisher_note(note: &PublisherNote, out: &mut Vec<u8>) -> Result<(), OutOfMemory>
    ensures { OnOk result (out.new.items ≡ out.old.items ++ text.publisher_note_text note.now) }
{
    match note {
        PublisherNote::Want { sub, kind } => {
            out.extend_from_slice(b"want ")?;
            print_sub_id(*sub, out)?;
            out.push(b' ')?;
            print_msg_kind(*kind, out)
        }
        PublisherNote::Ask { inbox, fids } => {
            out.extend_from_slice(b"ask ")?;
            print_inbox_id(*inbox, out)?;
            put_fids(fids, out)
        }
        PublisherNote::Settle => Ok(out.extend_from_slice(b"settle")?),
        PublisherNote::Fin => Ok(out.extend_from_slice(b"fin")?),
    }
}

pub fn put_bridge_entry(
    shape: &Shape,
    port: u32,
    note: &BridgeNote,
    out: &mut Vec<u8>,
) -> Result<(), OutOfMemory>
    ensures { OnOk result (out.new.items ≡ out.old.items ++ text.bridge_entry_line shape.now (port, note.now)) }
{
    put_bridge_putter(shape, port, out)?;
    out.push(b' ')?;
    put_bridge_note(note, out)?;
    Ok(out.push(b'\n')?)
}

pub fn put_timers_entry(
    shape: &Shape,
    port: u32,
    note: &TimersNote,
    out: &mut Vec<u8>,
) -> Result<(), OutOfMemory>
    ensures { OnOk result (out.new.items ≡ out.old.items ++ text.timers_entry_line shape.now (port, note.now)) }
{
    put_timers_putter(shape, port, out)?;
    out.push(b' ')?;
    put_timers_note(note, out)?;
    Ok(out.push(b'\n')?)
}

pub fn put_queue_entry(port: u32, note: &QueueNote, out: &mut Vec<u8>) -> Result<(), OutOfMemory>
    ensures { OnOk result (out.new.items ≡ out.old.items ++ text.queue_entry_line (port, note.now)) }
{
    put_queue_putter(port, out)?;
    out.push(b' ')?;
    put_queue_note(note, out)?;
    Ok(out.push(b'\n')?)
}

ghost use Rattle.std.specs.Prelude.{◌≡◌, ℕ, [], ◌∷◌, ◌++◌, map, Some, IfOk, IfSome};
ghost use Rattle.mama_words.specs.Answer.{Gives};
ghost use Rattle.mama_event.specs.declared.to_queue.QueueNote.{QueueNote};
ghost use Rattle.mama_record.specs.LogText.{queue_entry_line};
ghost use Rattle.mama_log_line.specs.Entering.{MayEnterQueue};
ghost use Rattle.mama_log_line.specs.Journal as journals;

use crate::head::{Head, read_head};
use crate::names::Names;
use crate::word::{
    alone, read_body, read_inbox, read_linked, read_market, read_moment, read_small, read_sub,
    read_timer, without_fault,
};
use mama_event::{ObjectId, Piece, PieceMsg, QueueNote};
use mama_memory::OutOfMemory;
use mama_payload::DecodeFault;
use mama_words::{ReadError, parted_into, read_block, read_msg_kind};
use std::alloc::Global;

#[tactic(auto, unfolding(crate::specs::Journal::created_in))]
fn created(names: &Names, slot: u32, object: ObjectId) -> Result<QueueNote, ReadError>
    ensures { Gives (λ x. x) result (journals.created_in names.now slot object) }
{
    let make = names.make(object).ok_or(ReadError::Fault(10))?;
    Ok(QueueNote::Create {
        slot,
        object,
        make,
        tag: object,
    })
}

#[tactic(auto, unfolding(crate::specs::Journal::create_linked_in))]
fn read_create_linked(names: &Names, words: &[&[u8]]) -> Result<QueueNote, ReadError>
    ensures { Gives (λ x. x) result (journals.create_linked_in names.now (map (λ w. w.now) words.now)) }
{
    match words {
        [slot, object] => {
            let slot = read_small(slot)?;
            let object = read_linked(names, object)?;
            created(names, slot, object)
        }
        _ => Err(ReadError::Fault(4)),
    }
}

#[tactic(auto, unfolding(crate::specs::Journal::create_timer_in))]
fn read_create_timer(names: &Names, words: &[&[u8]]) -> Result<QueueNote, ReadError>
    ensures { Gives (λ x. x) result (journals.create_timer_in names.now (map (λ w. w.now) words.now)) }
{
    match words {
        [slot, timer] => {
            let slot = read_small(slot)?;
            let timer = read_timer(names, timer)?;
            created(names, slot, ObjectId::Timer(timer))
        }
        _ => Err(ReadError::Fault(4)),
    }
}

#[tactic(auto, unfolding(crate::specs::Journal::data_in))]
fn read_data(alloc: Global, names: &Names, words: &[&[u8]]) -> Result<QueueNote, ReadError>
    ensures { Gives (λ x. x) result (journals.data_in names.now (map (λ w. w.now) words.now)) }
{
    match words {
        [slot, sub, rest @ ..] => {
            let slot = read_small(slot)?;
            let sub = read_sub(names, sub)?;
            let msg = read_market(alloc, names.nums(), rest)?;
            Ok(QueueNote::Deliver { slot, sub, msg })
        }
        _ => Err(ReadError::Fault(4)),
    }
}

#[tactic(auto, unfolding(crate::specs::Journal::reply_in))]
fn read_reply(alloc: Global, names: &Names, words: &[&[u8]]) -> Result<QueueNote, ReadError>
    ensures { Gives (λ x. x) result (journals.reply_in names.now (map (λ w. w.now) words.now)) }
{
    match words {
        [slot, inbox, rest @ ..] => {
            let slot = read_small(slot)?;
            let inbox = read_inbox(names, inbox)?;
            let body = read_body(alloc, names.nums(), rest)?;
            Ok(QueueNote::Reply { slot, inbox, body })
        }
        _ => Err(ReadError::Fault(4)),
    }
}

// Bytes that spell no message.
#[tactic(auto, unfolding(crate::specs::Journal::broken_in))]
fn read_broken(alloc: Global, word: &[u8]) -> Result<Piece, ReadError>
    ensures { Gives (λ x. x) result (journals.broken_in word.now) }
{
    let block = read_block(alloc, word)?;
    let bytes = Piece::of_bytes(alloc, &block)?;
    match bytes.unpack() {
        Ok(_) => Err(ReadError::Fault(7)),
        Err(DecodeFault::OutOfMemory) => Err(ReadError::Memory),
        Err(_) => Ok(bytes),
    }
}

// A message whose bytes spell none.
#[tactic(auto, unfolding(crate::specs::Journal::piece_in))]
fn read_piece(
    alloc: Global,
    kind: &[u8],
    sender: &[u8],
    seq: &[u8],
    bytes: &[u8],
) -> Result<PieceMsg, ReadError>
    ensures { Gives (λ x. x) result (journals.piece_in kind.now sender.now seq.now bytes.now) }
{
    let kind = read_msg_kind(kind).ok_or(ReadError::Fault(4))?;
    let sender = read_small(sender)?;
    let seq = read_small(seq)?;
    let body = read_broken(alloc, bytes)?;
    Ok(PieceMsg {
        kind,
        sender,
        seq,
        body,
    })
}

#[tactic(auto, unfolding(crate::specs::Journal::bad_in))]
fn read_bad(alloc: Global, names: &Names, words: &[&[u8]]) -> Result<QueueNote, ReadError>
    ensures { Gives (λ x. x) result (journals.bad_in names.now (map (λ w. w.now) words.now)) }
{
    match words {
        [slot, sub, kind, sender, seq, bytes] => {
            let slot = read_small(slot)?;
            let sub = read_sub(names, sub)?;
            let msg = read_piece(alloc, kind, sender, seq, bytes)?;
            Ok(QueueNote::Bad {
                slot,
                sub,
                kind: msg.kind,
                sender: msg.sender,
                seq: msg.seq,
                bytes: msg.body,
            })
        }
        _ => Err(ReadError::Fault(4)),
    }
}

#[tactic(auto, unfolding(crate::specs::Journal::bad_reply_in))]
fn read_bad_reply(alloc: Global, names: &Names, words: &[&[u8]]) -> Result<QueueNote, ReadError>
    ensures { Gives (λ x. x) result (journals.bad_reply_in names.now (map (λ w. w.now) words.now)) }
{
    match words {
        [slot, inbox, bytes] => {
            let slot = read_small(slot)?;
            let inbox = read_inbox(names, inbox)?;
            let bytes = read_broken(alloc, bytes)?;
            Ok(QueueNote::BadReply { slot, inbox, bytes })
        }
        _ => Err(ReadError::Fault(4)),
    }
}

#[tactic(auto, unfolding(crate::specs::Journal::tick_in))]
fn read_tick(names: &Names, words: &[&[u8]]) -> Result<QueueNote, ReadError>
    ensures { Gives (λ x. x) result (journals.tick_in names.now (map (λ w. w.now) words.now)) }
{
    match words {
        [slot, timer, moment] => {
            let slot = read_small(slot)?;
            let timer = read_timer(names, timer)?;
            let moment = read_moment(moment)?;
            Ok(QueueNote::Tick {
                slot,
                timer,
                moment,
            })
        }
        _ => Err(ReadError::Fault(4)),
    }
}

#[tactic(auto, unfolding(crate::specs::Journal::gone_linked_in))]
fn read_gone_linked(names: &Names, words: &[&[u8]]) -> Result<QueueNote, ReadError>
    ensures { Gives (λ x. x) result (journals.gone_linked_in names.now (map (λ w. w.now) words.now)) }
{
    match words {
        [slot, object] => {
            let slot = read_small(slot)?;
            let object = read_linked(names, object)?;
            Ok(QueueNote::Gone { slot, object })
        }
        _ => Err(ReadError::Fault(4)),
    }
}

#[tactic(auto, unfolding(crate::specs::Journal::gone_timer_in))]
fn read_gone_timer(names: &Names, words: &[&[u8]]) -> Result<QueueNote, ReadError>
    ensures { Gives (λ x. x) result (journals.gone_timer_in names.now (map (λ w. w.now) words.now)) }
{
    match words {
        [slot, timer] => {
            let slot = read_small(slot)?;
            let timer = read_timer(names, timer)?;
            Ok(QueueNote::Gone {
                slot,
                object: ObjectId::Timer(timer),
            })
        }
        _ => Err(ReadError::Fault(4)),
    }
}

// What the bridge puts.
fn bridge_note(
    alloc: Global,
    names: &Names,
    head: Head,
    words: &[&[u8]],
) -> Result<QueueNote, ReadError>
    ensures { Gives (λ x. x) result (journals.queue_bridge_in names.now head (map (λ w. w.now) words.now)) }
{
    match head {
        Head::Create => read_create_linked(names, words),
        Head::Data => read_data(alloc, names, words),
        Head::Reply => read_reply(alloc, names, words),
        Head::Bad => read_bad(alloc, names, words),
        Head::BadReply => read_bad_reply(alloc, names, words),
        Head::Gone => read_gone_linked(names, words),
        Head::Fin => alone(QueueNote::Fin, words),
        _ => Err(ReadError::Fault(3)),
    }
}

// What the timer service puts.
fn timers_note(names: &Names, head: Head, words: &[&[u8]]) -> Result<QueueNote, ReadError>
    ensures { Gives (λ x. x) result (journals.queue_timers_in names.now head (map (λ w. w.now) words.now)) }
{
    match head {
        Head::Create => read_create_timer(names, words),
        Head::Tick => read_tick(names, words),
        Head::Gone => read_gone_timer(names, words),
        Head::Fin => alone(QueueNote::Fin, words),
        _ => Err(ReadError::Fault(3)),
    }
}

// By the letter that is the port: the bridge's or the timer service's.
#[tactic(auto, unfolding(crate::specs::Journal::queue_by))]
fn read_by(
    alloc: Global,
    names: &Names,
    port: &[u8],
    head: Head,
    words: &[&[u8]],
) -> Result<(u32, QueueNote), ReadError>
    ensures { Gives (λ x. x) result (journals.queue_by names.now port.now head (map (λ w. w.now) words.now)) }
{
    match port {
        [letter] => {
            if *letter == b'b' {
                let note = bridge_note(alloc, names, head, words)?;
                Ok((0, note))
            } else if *letter == b't' {
                let note = timers_note(names, head, words)?;
                Ok((1, note))
            } else {
                Err(ReadError::Fault(5))
            }
        }
        _ => Err(ReadError::Fault(5)),
    }
}

#[tactic(auto, unfolding(crate::specs::Journal::queue_words_in))]
fn read_words(alloc: Global, names: &Names, words: &[&[u8]]) -> Result<(u32, QueueNote), ReadError>
    ensures { Gives (λ x. x) result (journals.queue_words_in names.now (map (λ w. w.now) words.now)) }
{
    match words {
        [port, head, rest @ ..] => {
            let head = read_head(head).ok_or(ReadError::Fault(3))?;
            read_by(alloc, names, port, head, rest)
        }
        _ => Err(ReadError::Fault(4)),
    }
}

#[tactic(auto, unfolding(crate::specs::Journal::queue_line_in))]
fn read_line<'a>(
    alloc: Global,
    names: &Names,
    words: &mut Vec<&'a [u8]>,
    line: &'a [u8],
) -> Result<(u32, QueueNote), ReadError>
    ensures { Gives (λ x. x) result (journals.queue_line_in names.now line.now) }
{
    parted_into(words, line)?;
    read_words(alloc, names, words)
}

/// The entry of a queue's journal that a line without its line feed spells, with its port. None where it spells none
/// that such a journal may have.
pub fn queue_entry_in<'a>(
    alloc: Global,
    names: &Names,
    words: &mut Vec<&'a [u8]>,
    line: &'a [u8],
) -> Result<Option<(u32, QueueNote)>, OutOfMemory>
    ensures found { IfOk result (λ o. IfSome o (λ e. MayEnterQueue names.now e × (line.now ++ 10 ∷ [] ≡ queue_entry_line e))) }
    ensures again { IfOk result (λ o. (e : ℕ × QueueNote) → MayEnterQueue names.now e → line.now ++ 10 ∷ [] ≡ queue_entry_line e → o ≡ Some e) }
{
    without_fault(read_line(alloc, names, words, line))
}

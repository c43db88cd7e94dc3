ghost use Rattle.std.specs.Prelude.{◌≡◌, ◌<◌, ◌^◌, ℕ, [], ◌∷◌, ◌++◌, map, Some, IfOk, IfSome};
ghost use Rattle.mama_words.specs.Answer.{Gives};
ghost use Rattle.mama_event.specs.declared.to_bridge.BridgeNote.{BridgeNote};
ghost use Rattle.mama_record.specs.LogText.{bridge_entry_line};
ghost use Rattle.mama_log_line.specs.Entering.{MayEnterBridge};
ghost use Rattle.mama_log_line.specs.Journal as journals;

use crate::head::{Head, read_head};
use crate::names::Names;
use crate::word::{
    alone, read_body, read_fids, read_inbox, read_market, read_port, read_small, read_sub,
    read_topic, without_fault,
};
use mama_event::{BridgeNote, ObjectId};
use mama_memory::{Duplicate, OutOfMemory};
use mama_words::{ReadError, parted_into};
use std::alloc::Global;

#[tactic(auto, unfolding(crate::specs::Journal::join_in))]
fn read_join(names: &Names, words: &[&[u8]]) -> Result<BridgeNote, ReadError>
    ensures { Gives (λ x. x) result (journals.join_in names.now (map (λ w. w.now) words.now)) }
{
    match words {
        [word] => {
            let sub = read_sub(names, word)?;
            let terms = names.terms(sub).ok_or(ReadError::Fault(10))?;
            let terms = terms.try_clone()?;
            Ok(BridgeNote::Join {
                sub,
                terms,
                tag: ObjectId::Sub(sub),
            })
        }
        _ => Err(ReadError::Fault(4)),
    }
}

#[tactic(auto, unfolding(crate::specs::Journal::leave_in))]
fn read_leave(names: &Names, words: &[&[u8]]) -> Result<BridgeNote, ReadError>
    ensures { Gives (λ x. x) result (journals.leave_in names.now (map (λ w. w.now) words.now)) }
{
    match words {
        [word] => {
            let sub = read_sub(names, word)?;
            Ok(BridgeNote::Leave { sub })
        }
        _ => Err(ReadError::Fault(4)),
    }
}

#[tactic(auto, unfolding(crate::specs::Journal::open_in))]
fn read_open(names: &Names, words: &[&[u8]]) -> Result<BridgeNote, ReadError>
    ensures { Gives (λ x. x) result (journals.open_in names.now (map (λ w. w.now) words.now)) }
{
    match words {
        [word] => {
            let inbox = read_inbox(names, word)?;
            let terms = names.inbox_terms(inbox).ok_or(ReadError::Fault(10))?;
            let terms = terms.try_clone()?;
            Ok(BridgeNote::OpenInbox {
                inbox,
                terms,
                tag: ObjectId::Inbox(inbox),
            })
        }
        _ => Err(ReadError::Fault(4)),
    }
}

#[tactic(auto, unfolding(crate::specs::Journal::close_in))]
fn read_close(names: &Names, words: &[&[u8]]) -> Result<BridgeNote, ReadError>
    ensures { Gives (λ x. x) result (journals.close_in names.now (map (λ w. w.now) words.now)) }
{
    match words {
        [word] => {
            let inbox = read_inbox(names, word)?;
            Ok(BridgeNote::CloseInbox { inbox })
        }
        _ => Err(ReadError::Fault(4)),
    }
}

#[tactic(auto, unfolding(crate::specs::Journal::ask_in))]
fn read_ask(names: &Names, words: &[&[u8]]) -> Result<BridgeNote, ReadError>
    ensures { Gives (λ x. x) result (journals.ask_in names.now (map (λ w. w.now) words.now)) }
{
    match words {
        [inbox, topic, fids @ ..] => {
            let inbox = read_inbox(names, inbox)?;
            let topic = read_topic(names, topic)?;
            let fids = read_fids(fids)?;
            Ok(BridgeNote::Ask { inbox, topic, fids })
        }
        _ => Err(ReadError::Fault(4)),
    }
}

#[tactic(auto, unfolding(crate::specs::Journal::publish_in))]
fn read_publish(alloc: Global, names: &Names, words: &[&[u8]]) -> Result<BridgeNote, ReadError>
    ensures { Gives (λ x. x) result (journals.publish_in names.now (map (λ w. w.now) words.now)) }
{
    let msg = read_market(alloc, names.nums(), words)?;
    Ok(BridgeNote::Publish { msg })
}

#[tactic(auto, unfolding(crate::specs::Journal::image_in))]
fn read_image(alloc: Global, names: &Names, words: &[&[u8]]) -> Result<BridgeNote, ReadError>
    ensures { Gives (λ x. x) result (journals.image_in names.now (map (λ w. w.now) words.now)) }
{
    match words {
        [sub, rest @ ..] => {
            let sub = read_sub(names, sub)?;
            let msg = read_market(alloc, names.nums(), rest)?;
            Ok(BridgeNote::Image { sub, msg })
        }
        [] => Err(ReadError::Fault(4)),
    }
}

#[tactic(auto, unfolding(crate::specs::Journal::answer_in))]
fn read_answer(alloc: Global, names: &Names, words: &[&[u8]]) -> Result<BridgeNote, ReadError>
    ensures { Gives (λ x. x) result (journals.answer_in names.now (map (λ w. w.now) words.now)) }
{
    match words {
        [inbox, rest @ ..] => {
            let inbox = read_inbox(names, inbox)?;
            let body = read_body(alloc, names.nums(), rest)?;
            Ok(BridgeNote::Reply { inbox, body })
        }
        [] => Err(ReadError::Fault(4)),
    }
}

#[tactic(auto, unfolding(crate::specs::Journal::wish_in))]
fn read_wish(names: &Names, words: &[&[u8]]) -> Result<BridgeNote, ReadError>
    ensures { Gives (λ x. x) result (journals.wish_in names.now (map (λ w. w.now) words.now)) }
{
    match words {
        [sub, sender] => {
            let sub = read_sub(names, sub)?;
            let sender = read_small(sender)?;
            Ok(BridgeNote::RecapWish { sub, sender })
        }
        _ => Err(ReadError::Fault(4)),
    }
}

// What a client puts.
fn client_note(names: &Names, head: Head, words: &[&[u8]]) -> Result<BridgeNote, ReadError>
    ensures { Gives (λ x. x) result (journals.bridge_client_in names.now head (map (λ w. w.now) words.now)) }
{
    match head {
        Head::Join => read_join(names, words),
        Head::Leave => read_leave(names, words),
        Head::Open => read_open(names, words),
        Head::Close => read_close(names, words),
        Head::Ask => read_ask(names, words),
        Head::Done => alone(BridgeNote::ClientDone, words),
        _ => Err(ReadError::Fault(3)),
    }
}

// What a publisher puts.
fn publisher_note(
    alloc: Global,
    names: &Names,
    head: Head,
    words: &[&[u8]],
) -> Result<BridgeNote, ReadError>
    ensures { Gives (λ x. x) result (journals.bridge_publisher_in names.now head (map (λ w. w.now) words.now)) }
{
    match head {
        Head::Publish => read_publish(alloc, names, words),
        Head::Image => read_image(alloc, names, words),
        Head::Reply => read_answer(alloc, names, words),
        Head::Done => alone(BridgeNote::SendsDone, words),
        Head::Settled => alone(BridgeNote::Settled, words),
        _ => Err(ReadError::Fault(3)),
    }
}

// What a queue puts.
fn queue_note(names: &Names, head: Head, words: &[&[u8]]) -> Result<BridgeNote, ReadError>
    ensures { Gives (λ x. x) result (journals.bridge_queue_in names.now head (map (λ w. w.now) words.now)) }
{
    match head {
        Head::Leave => read_leave(names, words),
        Head::Close => read_close(names, words),
        Head::Ask => read_ask(names, words),
        Head::Recap => read_wish(names, words),
        Head::Bye => alone(BridgeNote::Bye, words),
        _ => Err(ReadError::Fault(3)),
    }
}

fn from_client(
    names: &Names,
    digits: &[u8],
    head: Head,
    words: &[&[u8]],
) -> Result<(u32, BridgeNote), ReadError>
    ensures { Gives (λ x. x) result (journals.came_by (journals.bridge_client_port names.now digits.now) (journals.bridge_client_in names.now head (map (λ w. w.now) words.now))) }
{
    let port = client_port(names, digits).ok_or(ReadError::Fault(9))?;
    let note = client_note(names, head, words)?;
    Ok((port, note))
}

fn from_publisher(
    alloc: Global,
    names: &Names,
    digits: &[u8],
    head: Head,
    words: &[&[u8]],
) -> Result<(u32, BridgeNote), ReadError>
    ensures { Gives (λ x. x) result (journals.came_by (journals.bridge_publisher_port names.now digits.now) (journals.bridge_publisher_in names.now head (map (λ w. w.now) words.now))) }
{
    let port = publisher_port(names, digits).ok_or(ReadError::Fault(9))?;
    let note = publisher_note(alloc, names, head, words)?;
    Ok((port, note))
}

fn from_queue(
    names: &Names,
    digits: &[u8],
    head: Head,
    words: &[&[u8]],
) -> Result<(u32, BridgeNote), ReadError>
    ensures { Gives (λ x. x) result (journals.came_by (journals.bridge_queue_port names.now digits.now) (journals.bridge_queue_in names.now head (map (λ w. w.now) words.now))) }
{
    let port = queue_port(names, digits).ok_or(ReadError::Fault(9))?;
    let note = queue_note(names, head, words)?;
    Ok((port, note))
}

fn client_port(names: &Names, digits: &[u8]) -> Option<u32>
    ensures { result ≡ journals.bridge_client_port names.now digits.now }
{
    read_port(0, u64::from(names.shape().clients), digits)
}

fn publisher_port(names: &Names, digits: &[u8]) -> Option<u32>
    ensures { result ≡ journals.bridge_publisher_port names.now digits.now }
{
    let shape = names.shape();
    let publishers = shape.publisher_topics.len() as u64;
    read_port(u64::from(shape.clients), publishers, digits)
}

#[tactic(auto, using(crate::proofs::Ports::port_past))]
fn queue_port(names: &Names, digits: &[u8]) -> Option<u32>
    ensures { result ≡ journals.bridge_queue_port names.now digits.now }
{
    let shape = names.shape();
    let publishers = shape.publisher_topics.len() as u64;
    match u64::from(shape.clients).checked_add(publishers) {
        Some(first) => read_port(first, u64::from(shape.bounds.queues), digits),
        None => None,
    }
}

// By the letter of the port: a client's, a publisher's or a queue's.
#[tactic(auto, unfolding(crate::specs::Journal::bridge_by))]
fn read_by(
    alloc: Global,
    names: &Names,
    port: &[u8],
    head: Head,
    words: &[&[u8]],
) -> Result<(u32, BridgeNote), ReadError>
    ensures { Gives (λ x. x) result (journals.bridge_by names.now port.now head (map (λ w. w.now) words.now)) }
{
    match port {
        [] => Err(ReadError::Fault(5)),
        [letter, digits @ ..] => {
            if *letter == b'c' {
                from_client(names, digits, head, words)
            } else if *letter == b'p' {
                from_publisher(alloc, names, digits, head, words)
            } else if *letter == b'q' {
                from_queue(names, digits, head, words)
            } else {
                Err(ReadError::Fault(5))
            }
        }
    }
}

#[tactic(auto, unfolding(crate::specs::Journal::bridge_words_in))]
fn read_words(alloc: Global, names: &Names, words: &[&[u8]]) -> Result<(u32, BridgeNote), ReadError>
    ensures { Gives (λ x. x) result (journals.bridge_words_in names.now (map (λ w. w.now) words.now)) }
{
    match words {
        [port, head, rest @ ..] => {
            let head = read_head(head).ok_or(ReadError::Fault(3))?;
            read_by(alloc, names, port, head, rest)
        }
        _ => Err(ReadError::Fault(4)),
    }
}

#[tactic(auto, unfolding(crate::specs::Journal::bridge_line_in))]
fn read_line<'a>(
    alloc: Global,
    names: &Names,
    words: &mut Vec<&'a [u8]>,
    line: &'a [u8],
) -> Result<(u32, BridgeNote), ReadError>
    ensures { Gives (λ x. x) result (journals.bridge_line_in names.now line.now) }
{
    parted_into(words, line)?;
    read_words(alloc, names, words)
}

/// The entry of the bridge's journal that a line without its line feed spells, with its port. None where it spells none
/// that the journal may have: the port is none of the lane, its actor puts no such note, or what the note names is not
/// the script's.
pub fn bridge_entry_in<'a>(
    alloc: Global,
    names: &Names,
    words: &mut Vec<&'a [u8]>,
    line: &'a [u8],
) -> Result<Option<(u32, BridgeNote)>, OutOfMemory>
    ensures found { IfOk result (λ o. IfSome o (λ e. MayEnterBridge names.now e × (line.now ++ 10 ∷ [] ≡ bridge_entry_line names.now.shape e))) }
    ensures again { IfOk result (λ o. (e : ℕ × BridgeNote) → MayEnterBridge names.now e → line.now ++ 10 ∷ [] ≡ bridge_entry_line names.now.shape e → o ≡ Some e) }
{
    without_fault(read_line(alloc, names, words, line))
}

ghost use Rattle.std.specs.Prelude.{◌≡◌, ◌++◌, ◌≤◌, length, take, map, OnOk, OnErr};
ghost use Rattle.std.specs.Option.{option_map};
ghost use Rattle.mama_words.specs.Reading.{or_fault};
ghost use Rattle.mama_words.specs.Answer.{Gives};

use crate::appending::all_or_nothing;
use crate::error::ReadError;
use crate::id::{
    IdWord, inbox_word, put_id, read_inbox_id, read_sub_id, read_timer_id, sub_word, timer_word,
};
use crate::number::{read_between, read_number};
use mama_edge::print_u64;
use mama_event::{Fids, InboxId, Order};
use mama_memory::OutOfMemory;

/// What an order does.
#[derive(Clone, Copy, Debug, PartialEq, Eq)]
pub enum OrderKind {
    Stop,
    Disarm,
    Close,
    Ask,
}

/// An order as a text names it: its ids and its topic may be none that a run can have.
#[derive(Clone, Copy, Debug, PartialEq, Eq)]
pub enum OrderWord {
    Stop(IdWord),
    Disarm(IdWord),
    Close(IdWord),
    Ask {
        inbox: IdWord,
        topic: u64,
        fids: Fids,
    },
}

ghost use Rattle.mama_words.specs.Order as orders;

#[tactic(auto, unfolding(crate::specs::Order::order_kind_in))]
fn read_order_kind(word: &[u8]) -> Option<OrderKind>
    ensures { result ≡ orders.order_kind_in word.now }
{
    if word == b"stop".as_slice() {
        Some(OrderKind::Stop)
    } else if word == b"disarm".as_slice() {
        Some(OrderKind::Disarm)
    } else if word == b"close".as_slice() {
        Some(OrderKind::Close)
    } else if word == b"ask".as_slice() {
        Some(OrderKind::Ask)
    } else {
        None
    }
}

// The fids that the words spell, in front of an array.
fn read_fids(words: &[&[u8]]) -> Option<[u16; 8]>
    requires { length words.now ≤ 8 }
    ensures { option_map (λ fids. take (length words.now) fids) result ≡ orders.fids_in (map (λ w. w.now) words.now) }
{
    let mut fids = [0; 8];
    for (i, word) in words.iter().enumerate() {
        let fid = read_between(1, 65535, word)?;
        fids[i] = fid as u16;
    }
    Some(fids)
}

#[tactic(auto, unfolding(crate::specs::Order::asked_in))]
fn read_asked(words: &[&[u8]]) -> Result<Fids, ReadError>
    requires { length words.now ≤ 8 }
    ensures { Gives (λ x. x) result (orders.asked_in (map (λ w. w.now) words.now)) }
{
    let fids = read_fids(words).ok_or(ReadError::Fault(5))?;
    Fids::new(&fids[..words.len()]).ok_or(ReadError::Fault(8))
}

#[tactic(auto, unfolding(crate::specs::Order::ask_in))]
fn read_ask(inbox: &[u8], topic: &[u8], words: &[&[u8]]) -> Result<OrderWord, ReadError>
    requires { length words.now ≤ 8 }
    ensures { Gives (λ x. x) result (orders.ask_in inbox.now topic.now (map (λ w. w.now) words.now)) }
{
    let inbox = read_inbox_id(inbox).ok_or(ReadError::Fault(5))?;
    let topic = read_number(topic).ok_or(ReadError::Fault(5))?;
    let fids = read_asked(words)?;
    Ok(OrderWord::Ask { inbox, topic, fids })
}

#[tactic(auto, unfolding(crate::specs::Order::order_of))]
fn read_order_of(kind: OrderKind, words: &[&[u8]]) -> Result<OrderWord, ReadError>
    ensures { Gives (λ x. x) result (orders.order_of kind (map (λ w. w.now) words.now)) }
{
    match (kind, words) {
        (OrderKind::Stop, [id]) => {
            let id = read_sub_id(id).ok_or(ReadError::Fault(5))?;
            Ok(OrderWord::Stop(id))
        }
        (OrderKind::Disarm, [id]) => {
            let id = read_timer_id(id).ok_or(ReadError::Fault(5))?;
            Ok(OrderWord::Disarm(id))
        }
        (OrderKind::Close, [id]) => {
            let id = read_inbox_id(id).ok_or(ReadError::Fault(5))?;
            Ok(OrderWord::Close(id))
        }
        (OrderKind::Ask, [inbox, topic, fids @ ..]) if 1 <= fids.len() && fids.len() <= 8 => {
            read_ask(inbox, topic, fids)
        }
        _ => Err(ReadError::Fault(4)),
    }
}

/// The order that the words spell. Fault 4 where it is no order or has not the number of words of its form, 5 where an
/// id, a topic's number or a fid is none, and 8 where the fids do not ascend strictly.
#[tactic(auto, unfolding(crate::specs::Order::order_in))]
pub fn read_order(words: &[&[u8]]) -> Result<OrderWord, ReadError>
    ensures { Gives (λ x. x) result (orders.order_in (map (λ w. w.now) words.now)) }
{
    match words {
        [] => Err(ReadError::Fault(4)),
        [head, rest @ ..] => {
            let kind = read_order_kind(head).ok_or(ReadError::Fault(4))?;
            read_order_of(kind, rest)
        }
    }
}

// Appends a space and the spelling of each fid.
fn put_fids(fids: &Fids, out: &mut Vec<u8>) -> Result<(), OutOfMemory>
    ensures ok { OnOk result (out.new.items ≡ out.old.items ++ flat_map orders.spaced_number fids.now) }
    ensures err { OnErr result (take (length out.old.items) out.new.items ≡ out.old.items) }
{
    for i in 0..fids.len() {
        out.push(b' ')?;
        print_u64(u64::from(fids.at(i)), out)?;
    }
    Ok(())
}

ghost use Rattle.std.specs.List.{flat_map};

fn put_ask(inbox: InboxId, topic: u32, fids: &Fids, out: &mut Vec<u8>) -> Result<(), OutOfMemory>
    ensures ok { OnOk result (out.new.items ≡ out.old.items ++ orders.order_text (orders.ask_word inbox topic fids.now)) }
    ensures err { OnErr result (take (length out.old.items) out.new.items ≡ out.old.items) }
{
    out.extend_from_slice(b"ask ")?;
    put_id(b'i', inbox_word(inbox), out)?;
    out.push(b' ')?;
    print_u64(u64::from(topic), out)?;
    put_fids(fids, out)?;
    Ok(())
}

fn put_named(head: &[u8], letter: u8, id: IdWord, out: &mut Vec<u8>) -> Result<(), OutOfMemory>
    ensures ok { OnOk result (out.new.items ≡ out.old.items ++ (head.now ++ id_text letter id)) }
    ensures err { OnErr result (take (length out.old.items) out.new.items ≡ out.old.items) }
{
    out.extend_from_slice(head)?;
    put_id(letter, id, out)?;
    Ok(())
}

ghost use Rattle.mama_words.specs.Id.{id_text};

// Appends the spelling of an order.
fn put_order(order: &Order, out: &mut Vec<u8>) -> Result<(), OutOfMemory>
    ensures ok { OnOk result (out.new.items ≡ out.old.items ++ orders.order_text (orders.word_of order.now)) }
    ensures err { OnErr result (take (length out.old.items) out.new.items ≡ out.old.items) }
{
    match order {
        Order::Stop(id) => put_named(b"stop ", b's', sub_word(*id), out),
        Order::Disarm(id) => put_named(b"disarm ", b't', timer_word(*id), out),
        Order::Close(id) => put_named(b"close ", b'i', inbox_word(*id), out),
        Order::Ask { inbox, topic, fids } => put_ask(*inbox, *topic, fids, out),
    }
}

/// Appends the spelling of an order. Where no memory is found, nothing is appended.
pub fn print_order(order: &Order, out: &mut Vec<u8>) -> Result<(), OutOfMemory>
    ensures ok { OnOk result (out.new.items ≡ out.old.items ++ orders.order_text (orders.word_of order.now)) }
    ensures err { OnErr result (out.new.items ≡ out.old.items) }
{
    let start = out.len();
    let printed = put_order(order, out);
    all_or_nothing(printed, start, out)
}

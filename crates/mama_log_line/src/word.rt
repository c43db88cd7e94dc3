//! The words of a log. What does not fit gets the number of the fault that it would have in a script's line, and the
//! readers of lines throw the number away.
ghost use Rattle.std.specs.Prelude.{◌≡◌, ◌<◌, ◌≤◌, ◌^◌, ℕ, Result, length, take, map, true, is_some, IfOk};
ghost use Rattle.std.specs.Option.{option_map, option_and_then};
ghost use Rattle.mama_words.specs.Reading.{or_fault};
ghost use Rattle.mama_words.specs.Answer.{Gives};
ghost use Rattle.mama_words.specs.Order as orders;
ghost use Rattle.mama_log_line.specs.Names as names;
ghost use Rattle.mama_log_line.specs.Word as texts;
ghost use Rattle.mama_log_line.specs.Journal as journals;

use crate::names::Names;
use mama_event::{Fids, InboxId, MarketMsg, MsgKind, ObjectId, SubId, TimerId};
use mama_memory::OutOfMemory;
use mama_msg::Msg;
use mama_words::{
    IdWord, Nums, ReadError, read_below, read_between, read_inbox_id, read_message, read_msg_kind,
    read_number, read_sub_id, read_timer_id,
};
use std::alloc::Global;

/// The value, where no word follows.
#[tactic(auto, unfolding(crate::specs::Journal::alone_in))]
pub fn alone<T: Drop>(value: T, words: &[&[u8]]) -> Result<T, ReadError>
    ensures { Gives (λ x. x) result (journals.alone_in value (map (λ w. w.now) words.now)) }
{
    match words {
        [] => Ok(value),
        _ => Err(ReadError::Fault(4)),
    }
}

/// What was read, without the number of a fault.
pub fn without_fault<T>(read: Result<T, ReadError>) -> Result<Option<T>, OutOfMemory>
    ensures { (gives : Result T ℕ) → Gives (λ x. x) read gives → IfOk result (λ o. o ≡ journals.told gives) }
{
    match read {
        Ok(value) => Ok(Some(value)),
        Err(ReadError::Fault(_)) => Ok(None),
        Err(ReadError::Memory) => Err(OutOfMemory),
    }
}

fn is_small(id: IdWord) -> bool
    ensures { result ≡ texts.is_small id }
{
    id.client < 1 << 32 && id.number < 1 << 32
}

fn sub_of(id: IdWord) -> SubId
    requires { texts.is_small id ≡ true }
    ensures { result ≡ texts.sub_of id }
{
    SubId {
        client: id.client as u32,
        number: id.number as u32,
    }
}

fn timer_of(id: IdWord) -> TimerId
    requires { texts.is_small id ≡ true }
    ensures { result ≡ texts.timer_of id }
{
    TimerId {
        client: id.client as u32,
        number: id.number as u32,
    }
}

fn inbox_of(id: IdWord) -> InboxId
    requires { texts.is_small id ≡ true }
    ensures { result ≡ texts.inbox_of id }
{
    InboxId {
        client: id.client as u32,
        number: id.number as u32,
    }
}

/// The subscription, if the script declares it.
#[tactic(auto, unfolding(crate::specs::Word::known_sub))]
pub fn known_sub(names: &Names, id: IdWord) -> Option<SubId>
    ensures { result ≡ texts.known_sub names.now id }
{
    if !is_small(id) {
        return None;
    }
    let sub = sub_of(id);
    if names.terms(sub).is_some() {
        Some(sub)
    } else {
        None
    }
}

/// The timer, if the script declares it.
#[tactic(auto, unfolding(crate::specs::Word::known_timer))]
pub fn known_timer(names: &Names, id: IdWord) -> Option<TimerId>
    ensures { result ≡ texts.known_timer names.now id }
{
    if !is_small(id) {
        return None;
    }
    let timer = timer_of(id);
    if names.timer_terms(timer).is_some() {
        Some(timer)
    } else {
        None
    }
}

/// The inbox, if the script declares it.
#[tactic(auto, unfolding(crate::specs::Word::known_inbox))]
pub fn known_inbox(names: &Names, id: IdWord) -> Option<InboxId>
    ensures { result ≡ texts.known_inbox names.now id }
{
    if !is_small(id) {
        return None;
    }
    let inbox = inbox_of(id);
    if names.inbox_terms(inbox).is_some() {
        Some(inbox)
    } else {
        None
    }
}

/// The subscription that a word names.
#[tactic(auto, unfolding(crate::specs::Word::sub_in))]
pub fn read_sub(names: &Names, word: &[u8]) -> Result<SubId, ReadError>
    ensures { Gives (λ x. x) result (texts.sub_in names.now word.now) }
{
    let id = read_sub_id(word).ok_or(ReadError::Fault(5))?;
    known_sub(names, id).ok_or(ReadError::Fault(10))
}

/// The timer that a word names.
#[tactic(auto, unfolding(crate::specs::Word::timer_in))]
pub fn read_timer(names: &Names, word: &[u8]) -> Result<TimerId, ReadError>
    ensures { Gives (λ x. x) result (texts.timer_in names.now word.now) }
{
    let id = read_timer_id(word).ok_or(ReadError::Fault(5))?;
    known_timer(names, id).ok_or(ReadError::Fault(10))
}

/// The inbox that a word names.
#[tactic(auto, unfolding(crate::specs::Word::inbox_in))]
pub fn read_inbox(names: &Names, word: &[u8]) -> Result<InboxId, ReadError>
    ensures { Gives (λ x. x) result (texts.inbox_in names.now word.now) }
{
    let id = read_inbox_id(word).ok_or(ReadError::Fault(5))?;
    known_inbox(names, id).ok_or(ReadError::Fault(10))
}

/// The subscription or inbox that a word names.
#[tactic(auto, unfolding(crate::specs::Word::linked_in))]
pub fn read_linked(names: &Names, word: &[u8]) -> Result<ObjectId, ReadError>
    ensures { Gives (λ x. x) result (texts.linked_in names.now word.now) }
{
    match word {
        [] => Err(ReadError::Fault(5)),
        [first, ..] => {
            if *first == b's' {
                let sub = read_sub(names, word)?;
                Ok(ObjectId::Sub(sub))
            } else {
                let inbox = read_inbox(names, word)?;
                Ok(ObjectId::Inbox(inbox))
            }
        }
    }
}

/// A number below 2^32.
pub fn read_small(word: &[u8]) -> Result<u32, ReadError>
    ensures { Gives (λ x. x) result (texts.small_in word.now) }
{
    let number = read_below(1 << 32, word).ok_or(ReadError::Fault(5))?;
    Ok(number as u32)
}

/// A moment.
pub fn read_moment(word: &[u8]) -> Result<u64, ReadError>
    ensures { Gives (λ x. x) result (or_fault 5 (number_in word.now)) }
{
    read_number(word).ok_or(ReadError::Fault(5))
}

ghost use Rattle.mama_words.specs.Number.{number_in};

/// The topic, if the script declares it.
pub fn known_topic(names: &Names, topic: u64) -> Option<u32>
    ensures { result ≡ texts.known_topic names.now topic }
{
    let topics = u64::from(names.shape().bounds.topics);
    if topic < topics {
        Some(topic as u32)
    } else {
        None
    }
}

/// The topic that a word names.
#[tactic(auto, unfolding(crate::specs::Word::topic_in))]
pub fn read_topic(names: &Names, word: &[u8]) -> Result<u32, ReadError>
    ensures { Gives (λ x. x) result (texts.topic_in names.now word.now) }
{
    let topic = read_number(word).ok_or(ReadError::Fault(5))?;
    known_topic(names, topic).ok_or(ReadError::Fault(9))
}

// The fids that the words spell, in front of an array.
#[tactic(auto, using(mama_words::proofs::Asked::fids_more, mama_words::proofs::Asked::fids_fail))]
fn read_fid_words(words: &[&[u8]]) -> Option<[u16; 8]>
    requires { length words.now ≤ 8 }
    ensures { option_map (λ fids. take (length words.now) fids) result ≡ orders.fids_in (map (λ w. w.now) words.now) }
{
    let mut fids = [0; 8];
    for (i, word) in words.iter().enumerate() {
        let fid = read_between(1, 65535, word)?;
        fids[i] = fid as u16;
    }
    Some(fids)
}

#[tactic(auto, unfolding(mama_words::specs::Order::asked_in))]
fn read_asked(words: &[&[u8]]) -> Result<Fids, ReadError>
    requires { length words.now ≤ 8 }
    ensures { Gives (λ x. x) result (orders.asked_in (map (λ w. w.now) words.now)) }
{
    let fids = read_fid_words(words).ok_or(ReadError::Fault(5))?;
    Fids::new(&fids[..words.len()]).ok_or(ReadError::Fault(8))
}

/// 1 to 8 fids.
#[tactic(auto, unfolding(crate::specs::Word::few_fids_in))]
pub fn read_fids(words: &[&[u8]]) -> Result<Fids, ReadError>
    ensures { Gives (λ x. x) result (texts.few_fids_in (map (λ w. w.now) words.now)) }
{
    if words.len() <= 8 {
        read_asked(words)
    } else {
        Err(ReadError::Fault(4))
    }
}

/// At most 64 fields.
#[tactic(auto, unfolding(crate::specs::Word::body_in))]
pub fn read_body(alloc: Global, nums: Nums, words: &[&[u8]]) -> Result<Msg, ReadError>
    ensures { Gives (λ x. x) result (texts.body_in nums (map (λ w. w.now) words.now)) }
{
    if words.len() <= 64 {
        read_message(alloc, nums, words)
    } else {
        Err(ReadError::Fault(4))
    }
}

/// A message of the market.
#[tactic(auto, unfolding(crate::specs::Word::market_in))]
pub fn read_market(alloc: Global, nums: Nums, words: &[&[u8]]) -> Result<MarketMsg, ReadError>
    ensures { Gives (λ x. x) result (texts.market_in nums (map (λ w. w.now) words.now)) }
{
    match words {
        [kind, sender, seq, fields @ ..] => {
            let kind = read_msg_kind(kind).ok_or(ReadError::Fault(4))?;
            let sender = read_small(sender)?;
            let seq = read_small(seq)?;
            let body = read_body(alloc, nums, fields)?;
            Ok(MarketMsg {
                kind,
                sender,
                seq,
                body,
            })
        }
        _ => Err(ReadError::Fault(4)),
    }
}

fn wanted(kind: MsgKind) -> Option<MsgKind>
    ensures { result ≡ texts.wanted kind }
{
    match kind {
        MsgKind::Initial => Some(MsgKind::Initial),
        MsgKind::Update => None,
        MsgKind::Recap => Some(MsgKind::Recap),
    }
}

/// The kind that a word names, if a publisher may be asked for it.
pub fn read_wanted(word: &[u8]) -> Option<MsgKind>
    ensures { result ≡ texts.wanted_in word.now }
{
    let kind = read_msg_kind(word)?;
    wanted(kind)
}

/// The port of the actor whose number the digits spell, where there are so many of its kind and their ports begin with
/// the first.
#[tactic(auto, unfolding(crate::specs::Journal::port_in))]
pub fn read_port(first: u64, count: u64, digits: &[u8]) -> Option<u32>
    ensures { result ≡ journals.port_in first count digits.now }
{
    let number = read_below(count, digits)?;
    port_of(first, number)
}

/// A port, if it is below 2^32.
pub fn port_of(first: u64, number: u64) -> Option<u32>
    ensures { result ≡ journals.port_of first number }
{
    if number < (1u64 << 32).saturating_sub(first) {
        Some((first + number) as u32)
    } else {
        None
    }
}

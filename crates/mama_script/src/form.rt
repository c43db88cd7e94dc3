//! Lines by their own form.
ghost use Rattle.std.specs.Prelude.{◌≡◌, ◌<◌, ◌^◌, map, Some, IfOk};
ghost use Rattle.std.specs.Option.{option_map};
ghost use Rattle.mama_words.specs.Reading.{or_fault};
ghost use Rattle.mama_words.specs.Answer.{Gives};
ghost use Rattle.mama_words.specs.Number.{between_in};
ghost use Rattle.mama_script.specs.Head.{head_in};
ghost use Rattle.mama_script.specs.Form as forms;

use crate::head::{Head, Place, read_head};
use crate::line::{IdWords, Line, QueueName};
use mama_link::{Fault, FaultRow};
use mama_memory::OutOfMemory;
use mama_words::{
    IdWord, Nums, ReadError, Version, parted, read_between, read_message, read_number, read_order,
    read_strategy, read_sub_id, read_sub_kind, read_text, read_timer_id,
};
use std::alloc::Global;

const MOST_U32: u64 = 4_294_967_295;

/// The most bytes that a cut may keep.
const MOST_KEPT: u64 = 65_535;

/// The most retries of a watch.
const MOST_RETRIES: u64 = 1_000;

/// The line that a text spells at this place of a script of this version, or the lowest of its faults from 2 to 8.
#[tactic(auto, unfolding(crate::specs::Form::form_in))]
pub fn read_form(
    alloc: Global,
    version: Version,
    place: Place,
    text: &[u8],
) -> Result<Line, ReadError>
    ensures { Gives (λ l. l) result (forms.form_in version place text.now) }
{
    let words = parted(alloc, text)?;
    let head = head_at(version, place, &words).ok_or(ReadError::Fault(3))?;
    read_body(alloc, version, head, &words)
}

// What the first word begins, if it may stand here.
fn head_at(version: Version, place: Place, words: &[&[u8]]) -> Option<Head>
    ensures { result ≡ forms.head_at version place (map (λ w. w.now) words.now) }
{
    match words {
        [] => None,
        [first, ..] => if_allowed(version, place, read_head(first)),
    }
}

fn if_allowed(version: Version, place: Place, head: Option<Head>) -> Option<Head>
    ensures { result ≡ forms.if_allowed version place head }
{
    match head {
        None => None,
        Some(head) => {
            if place.allows(head) && head.is_known(version) {
                Some(head)
            } else {
                None
            }
        }
    }
}

// The line that the words spell, the first of which is its head.
fn read_body(
    alloc: Global,
    version: Version,
    head: Head,
    words: &[&[u8]],
) -> Result<Line, ReadError>
    ensures { Gives (λ l. l) result (forms.body_in version head (map (λ w. w.now) words.now)) }
{
    match head {
        Head::Strategy => read_strategy_line(words),
        Head::Queues => read_queues(words),
        Head::Topic => read_topic(alloc, words),
        Head::Publisher => read_publisher(alloc, version, words),
        Head::Update => read_update(alloc, version, words),
        Head::Recap => read_recap(words),
        Head::Pause => read_pause(words),
        Head::Client => read_client(words),
        Head::Sub => read_sub(words),
        Head::Timer => read_timer(words),
        Head::Inbox => read_inbox(words),
        Head::Fault => read_fault(words),
        Head::At => read_at(words),
        Head::Stop | Head::Disarm | Head::Close | Head::Ask => read_order_line(words),
        Head::Now => read_now(words),
        Head::Group => read_group(alloc, words),
        Head::Watch => read_watch(words),
    }
}

#[tactic(auto, unfolding(crate::specs::Form::alone_in))]
fn read_recap(words: &[&[u8]]) -> Result<Line, ReadError>
    ensures { Gives (λ l. l) result (forms.alone_in Line.Recap (map (λ w. w.now) words.now)) }
{
    match words {
        [_] => Ok(Line::Recap),
        _ => Err(ReadError::Fault(4)),
    }
}

#[tactic(auto, unfolding(crate::specs::Form::alone_in))]
fn read_client(words: &[&[u8]]) -> Result<Line, ReadError>
    ensures { Gives (λ l. l) result (forms.alone_in Line.Client (map (λ w. w.now) words.now)) }
{
    match words {
        [_] => Ok(Line::Client),
        _ => Err(ReadError::Fault(4)),
    }
}

// The number that a word spells, from low to high.
fn read_u32(low: u64, high: u64, word: &[u8]) -> Option<u32>
    requires { high < 2 ^ 32 }
    ensures { result ≡ between_in low high word.now }
{
    let number = read_between(low, high, word)?;
    Some(number as u32)
}

#[tactic(auto, unfolding(crate::specs::Form::queue_in))]
fn read_queue(word: &[u8]) -> Option<QueueName>
    ensures { result ≡ forms.queue_in word.now }
{
    if word == b"any".as_slice() {
        Some(QueueName::Any)
    } else {
        let number = read_number(word)?;
        Some(QueueName::Number(number))
    }
}

#[tactic(auto, unfolding(crate::specs::Form::strategy_line_in))]
fn read_strategy_line(words: &[&[u8]]) -> Result<Line, ReadError>
    ensures { Gives (λ l. l) result (forms.strategy_line_in (map (λ w. w.now) words.now)) }
{
    match words {
        [_, word] => {
            let strategy = read_strategy(word).ok_or(ReadError::Fault(5))?;
            Ok(Line::Strategy(strategy))
        }
        _ => Err(ReadError::Fault(4)),
    }
}

#[tactic(auto, unfolding(crate::specs::Form::queues_in))]
fn read_queues(words: &[&[u8]]) -> Result<Line, ReadError>
    ensures { Gives (λ l. l) result (forms.queues_in (map (λ w. w.now) words.now)) }
{
    match words {
        [_, word] => {
            let queues = read_between(1, u64::MAX, word).ok_or(ReadError::Fault(5))?;
            Ok(Line::Queues(queues))
        }
        _ => Err(ReadError::Fault(4)),
    }
}

#[tactic(auto, unfolding(crate::specs::Form::topic_in))]
fn read_topic(alloc: Global, words: &[&[u8]]) -> Result<Line, ReadError>
    ensures { Gives (λ l. l) result (forms.topic_in (map (λ w. w.now) words.now)) }
{
    match words {
        [_, word] => {
            let name = read_text(alloc, 6, word)?;
            if name.bytes().is_empty() {
                return Err(ReadError::Fault(6));
            }
            Ok(Line::Topic(name))
        }
        _ => Err(ReadError::Fault(4)),
    }
}

#[tactic(auto, unfolding(crate::specs::Form::publisher_in))]
fn read_publisher(alloc: Global, version: Version, words: &[&[u8]]) -> Result<Line, ReadError>
    ensures { Gives (λ l. l) result (forms.publisher_in version (map (λ w. w.now) words.now)) }
{
    match words {
        [_, topic, fields @ ..] => {
            let topic = read_number(topic).ok_or(ReadError::Fault(5))?;
            let base = read_message(alloc, Nums::of(version), fields)?;
            Ok(Line::Publisher { topic, base })
        }
        _ => Err(ReadError::Fault(4)),
    }
}

#[tactic(auto, unfolding(crate::specs::Form::update_in))]
fn read_update(alloc: Global, version: Version, words: &[&[u8]]) -> Result<Line, ReadError>
    ensures { Gives (λ l. l) result (forms.update_in version (map (λ w. w.now) words.now)) }
{
    match words {
        [_, fields @ ..] => {
            let update = read_message(alloc, Nums::of(version), fields)?;
            Ok(Line::Update(update))
        }
        _ => Err(ReadError::Fault(4)),
    }
}

#[tactic(auto, unfolding(crate::specs::Form::pause_in))]
fn read_pause(words: &[&[u8]]) -> Result<Line, ReadError>
    ensures { Gives (λ l. l) result (forms.pause_in (map (λ w. w.now) words.now)) }
{
    match words {
        [_, rounds] => {
            let rounds = read_u32(1, 1_000_000, rounds).ok_or(ReadError::Fault(5))?;
            Ok(Line::Pause(rounds))
        }
        _ => Err(ReadError::Fault(4)),
    }
}

#[tactic(auto, unfolding(crate::specs::Form::sub_in))]
fn read_sub(words: &[&[u8]]) -> Result<Line, ReadError>
    ensures { Gives (λ l. l) result (forms.sub_in (map (λ w. w.now) words.now)) }
{
    match words {
        [_, topic, kind, queue, cache, recaps] => {
            let kind = read_sub_kind(kind).ok_or(ReadError::Fault(4))?;
            let topic = read_number(topic).ok_or(ReadError::Fault(5))?;
            let queue = read_queue(queue).ok_or(ReadError::Fault(5))?;
            let cache = read_u32(0, 4_096, cache).ok_or(ReadError::Fault(5))?;
            let recaps = read_u32(0, 1_000_000, recaps).ok_or(ReadError::Fault(5))?;
            Ok(Line::Sub {
                topic,
                kind,
                queue,
                cache,
                recaps,
            })
        }
        _ => Err(ReadError::Fault(4)),
    }
}

#[tactic(auto, unfolding(crate::specs::Form::timer_in))]
fn read_timer(words: &[&[u8]]) -> Result<Line, ReadError>
    ensures { Gives (λ l. l) result (forms.timer_in (map (λ w. w.now) words.now)) }
{
    match words {
        [_, queue, interval] => {
            let queue = read_queue(queue).ok_or(ReadError::Fault(5))?;
            let interval = read_u32(0, MOST_U32, interval).ok_or(ReadError::Fault(5))?;
            Ok(Line::Timer { queue, interval })
        }
        _ => Err(ReadError::Fault(4)),
    }
}

#[tactic(auto, unfolding(crate::specs::Form::inbox_in))]
fn read_inbox(words: &[&[u8]]) -> Result<Line, ReadError>
    ensures { Gives (λ l. l) result (forms.inbox_in (map (λ w. w.now) words.now)) }
{
    match words {
        [_, queue] => {
            let queue = read_queue(queue).ok_or(ReadError::Fault(5))?;
            Ok(Line::Inbox { queue })
        }
        _ => Err(ReadError::Fault(4)),
    }
}

#[tactic(auto, unfolding(crate::specs::Form::short_fault_in))]
fn read_short_fault(word: &[u8]) -> Option<Fault>
    ensures { result ≡ forms.short_fault_in word.now }
{
    if word == b"lose".as_slice() {
        Some(Fault::Lose)
    } else if word == b"dup".as_slice() {
        Some(Fault::Dup)
    } else {
        None
    }
}

#[tactic(auto, unfolding(crate::specs::Form::hold_in))]
fn read_hold(index: &[u8], by: &[u8]) -> Result<Line, ReadError>
    ensures { Gives (λ l. l) result (forms.hold_in index.now by.now) }
{
    let index = read_u32(1, MOST_U32, index).ok_or(ReadError::Fault(5))?;
    let by = read_u32(1, MOST_U32, by).ok_or(ReadError::Fault(5))?;
    Ok(Line::Fault(FaultRow {
        index,
        fault: Fault::Hold(by),
    }))
}

#[tactic(auto, unfolding(crate::specs::Form::cut_in))]
fn read_cut(index: &[u8], keep: &[u8]) -> Result<Line, ReadError>
    ensures { Gives (λ l. l) result (forms.cut_in index.now keep.now) }
{
    let index = read_u32(1, MOST_U32, index).ok_or(ReadError::Fault(5))?;
    let keep = read_u32(0, MOST_KEPT, keep).ok_or(ReadError::Fault(5))?;
    Ok(Line::Fault(FaultRow {
        index,
        fault: Fault::Cut(keep),
    }))
}

#[tactic(auto, unfolding(crate::specs::Form::long_fault_in))]
fn read_long_fault(kind: &[u8], index: &[u8], number: &[u8]) -> Result<Line, ReadError>
    ensures { Gives (λ l. l) result (forms.long_fault_in kind.now index.now number.now) }
{
    if kind == b"hold".as_slice() {
        read_hold(index, number)
    } else if kind == b"cut".as_slice() {
        read_cut(index, number)
    } else {
        Err(ReadError::Fault(4))
    }
}

#[tactic(auto, unfolding(crate::specs::Form::fault_in))]
fn read_fault(words: &[&[u8]]) -> Result<Line, ReadError>
    ensures { Gives (λ l. l) result (forms.fault_in (map (λ w. w.now) words.now)) }
{
    match words {
        [_, kind, index] => {
            let fault = read_short_fault(kind).ok_or(ReadError::Fault(4))?;
            let index = read_u32(1, MOST_U32, index).ok_or(ReadError::Fault(5))?;
            Ok(Line::Fault(FaultRow { index, fault }))
        }
        [_, kind, index, number] => read_long_fault(kind, index, number),
        _ => Err(ReadError::Fault(4)),
    }
}

#[tactic(auto, unfolding(crate::specs::Form::at_in))]
fn read_at(words: &[&[u8]]) -> Result<Line, ReadError>
    ensures { Gives (λ l. l) result (forms.at_in (map (λ w. w.now) words.now)) }
{
    match words {
        [_, call, order @ ..] => {
            let call = read_u32(1, MOST_U32, call);
            match (call, read_order(order)) {
                (Some(call), Ok(order)) => Ok(Line::At { call, order }),
                (None, Ok(_)) => Err(ReadError::Fault(5)),
                (Some(_), Err(error)) => Err(error),
                (None, Err(ReadError::Memory)) => Err(ReadError::Memory),
                (None, Err(ReadError::Fault(fault))) => Err(ReadError::Fault(fault.min(5))),
            }
        }
        _ => Err(ReadError::Fault(4)),
    }
}

fn read_order_line(words: &[&[u8]]) -> Result<Line, ReadError>
    ensures { Gives (λ l. l) result (forms.order_line_in (map (λ w. w.now) words.now)) }
{
    let order = read_order(words)?;
    Ok(Line::Order(order))
}

#[tactic(auto, unfolding(crate::specs::Form::now_in))]
fn read_now(words: &[&[u8]]) -> Result<Line, ReadError>
    ensures { Gives (λ l. l) result (forms.now_in (map (λ w. w.now) words.now)) }
{
    match words {
        [_, word] => {
            if *word == b"clock".as_slice() {
                return Ok(Line::NowClock);
            }
            let moment = read_between(0, 9_223_372_036_854_775_807, word).ok_or(ReadError::Fault(
                5,
            ))?;
            Ok(Line::Now(moment))
        }
        _ => Err(ReadError::Fault(4)),
    }
}

// The subscriptions that the words name. None where a word names none.
fn read_subs(alloc: Global, words: &[&[u8]]) -> Result<Option<Vec<IdWord>>, OutOfMemory>
    ensures { IfOk result (λ ids. option_map (λ v. v.items) ids ≡ forms.subs_in (map (λ w. w.now) words.now)) }
{
    let mut ids = Vec::with_capacity(alloc, words.len())?;
    for word in words {
        match read_sub_id(word) {
            Some(id) => ids.push(id)?,
            None => return Ok(None),
        }
    }
    Ok(Some(ids))
}

fn read_members(alloc: Global, words: &[&[u8]]) -> Result<IdWords, ReadError>
    ensures { Gives (λ ids. ids) result (or_fault 5 (forms.subs_in (map (λ w. w.now) words.now))) }
{
    match read_subs(alloc, words) {
        Ok(Some(ids)) => Ok(IdWords::new(ids)),
        Ok(None) => Err(ReadError::Fault(5)),
        Err(OutOfMemory) => Err(ReadError::Memory),
    }
}

#[tactic(auto, unfolding(crate::specs::Form::group_in))]
fn read_group(alloc: Global, words: &[&[u8]]) -> Result<Line, ReadError>
    ensures { Gives (λ l. l) result (forms.group_in (map (λ w. w.now) words.now)) }
{
    match words {
        [] => Err(ReadError::Fault(4)),
        [_] => Err(ReadError::Fault(4)),
        [_, members @ ..] => {
            let ids = read_members(alloc, members)?;
            Ok(Line::Group(ids))
        }
    }
}

#[tactic(auto, unfolding(crate::specs::Form::watch_in))]
fn read_watch(words: &[&[u8]]) -> Result<Line, ReadError>
    ensures { Gives (λ l. l) result (forms.watch_in (map (λ w. w.now) words.now)) }
{
    match words {
        [_, sub, timer, retries] => {
            let sub = read_sub_id(sub).ok_or(ReadError::Fault(5))?;
            let timer = read_timer_id(timer).ok_or(ReadError::Fault(5))?;
            let retries = read_u32(0, MOST_RETRIES, retries).ok_or(ReadError::Fault(5))?;
            Ok(Line::Watch {
                sub,
                timer,
                retries,
            })
        }
        _ => Err(ReadError::Fault(4)),
    }
}

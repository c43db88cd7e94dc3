ghost use Rattle.std.specs.Prelude.{◌≡◌, ◌<◌, ◌^◌, ℕ, [], ◌∷◌, ◌++◌, map, Some, IfOk, IfSome};
ghost use Rattle.mama_words.specs.Reading.{or_fault};
ghost use Rattle.mama_words.specs.Answer.{Gives};
ghost use Rattle.mama_words.specs.Number.{below_in};
ghost use Rattle.mama_event.specs.declared.callback.Callback.{Callback};
ghost use Rattle.mama_event.specs.declared.order.Order.{Order};
ghost use Rattle.mama_record.specs.LogText as text;
ghost use Rattle.mama_log_line.specs.Entering.{MayHear, MayOrder};
ghost use Rattle.mama_log_line.specs.Calls as calls;

use crate::head::{Head, read_head};
use crate::names::Names;
use crate::word::{
    alone, known_inbox, known_sub, known_timer, known_topic, read_body, read_moment, read_small,
    without_fault,
};
use mama_event::{Callback, MarketMsg, ObjectId, Order};
use mama_memory::OutOfMemory;
use mama_words::{
    Nums, OrderWord, ReadError, parted_into, read_below, read_msg_kind, read_order, read_quality,
};
use std::alloc::Global;

#[tactic(auto, unfolding(crate::specs::Calls::msg_in))]
fn read_msg(alloc: Global, nums: Nums, words: &[&[u8]]) -> Result<Callback, ReadError>
    ensures { Gives (λ x. x) result (calls.msg_in nums (map (λ w. w.now) words.now)) }
{
    match words {
        [kind, sender, seq, quality, fields @ ..] => {
            let kind = read_msg_kind(kind).ok_or(ReadError::Fault(4))?;
            let sender = read_small(sender)?;
            let seq = read_small(seq)?;
            let quality = read_quality(quality).ok_or(ReadError::Fault(4))?;
            let body = read_body(alloc, nums, fields)?;
            let msg = MarketMsg {
                kind,
                sender,
                seq,
                body,
            };
            Ok(Callback::Msg { msg, quality })
        }
        _ => Err(ReadError::Fault(4)),
    }
}

#[tactic(auto, unfolding(crate::specs::Calls::gap_in))]
fn read_gap(words: &[&[u8]]) -> Result<Callback, ReadError>
    ensures { Gives (λ x. x) result (calls.gap_in (map (λ w. w.now) words.now)) }
{
    match words {
        [first, to] => {
            let first = read_small(first)?;
            let to = read_small(to)?;
            Ok(Callback::Gap { first, to })
        }
        _ => Err(ReadError::Fault(4)),
    }
}

#[tactic(auto, unfolding(crate::specs::Calls::quality_call_in))]
fn read_quality_call(words: &[&[u8]]) -> Result<Callback, ReadError>
    ensures { Gives (λ x. x) result (calls.quality_call_in (map (λ w. w.now) words.now)) }
{
    match words {
        [quality, number] => {
            let quality = read_quality(quality).ok_or(ReadError::Fault(4))?;
            let number = read_small(number)?;
            Ok(Callback::Quality { quality, number })
        }
        _ => Err(ReadError::Fault(4)),
    }
}

#[tactic(auto, unfolding(crate::specs::Calls::request_in))]
fn read_request(words: &[&[u8]]) -> Result<Callback, ReadError>
    ensures { Gives (λ x. x) result (calls.request_in (map (λ w. w.now) words.now)) }
{
    match words {
        [sender] => {
            let sender = read_small(sender)?;
            Ok(Callback::RecapRequest { sender })
        }
        _ => Err(ReadError::Fault(4)),
    }
}

#[tactic(auto, unfolding(crate::specs::Calls::late_in))]
fn read_late(words: &[&[u8]]) -> Result<Callback, ReadError>
    ensures { Gives (λ x. x) result (calls.late_in (map (λ w. w.now) words.now)) }
{
    match words {
        [sender, seq] => {
            let sender = read_small(sender)?;
            let seq = read_small(seq)?;
            Ok(Callback::Late { sender, seq })
        }
        _ => Err(ReadError::Fault(4)),
    }
}

fn read_code(word: &[u8]) -> Result<u8, ReadError>
    ensures { Gives (λ x. x) result (or_fault 5 (below_in (2 ^ 8) word.now)) }
{
    let code = read_below(1 << 8, word).ok_or(ReadError::Fault(5))?;
    Ok(code as u8)
}

#[tactic(auto, unfolding(crate::specs::Calls::error_in))]
fn read_error(words: &[&[u8]]) -> Result<Callback, ReadError>
    ensures { Gives (λ x. x) result (calls.error_in (map (λ w. w.now) words.now)) }
{
    match words {
        [code] => {
            let code = read_code(code)?;
            Ok(Callback::Error { code })
        }
        _ => Err(ReadError::Fault(4)),
    }
}

#[tactic(auto, unfolding(crate::specs::Calls::ticked_in))]
fn read_tick(words: &[&[u8]]) -> Result<Callback, ReadError>
    ensures { Gives (λ x. x) result (calls.ticked_in (map (λ w. w.now) words.now)) }
{
    match words {
        [moment] => {
            let moment = read_moment(moment)?;
            Ok(Callback::Tick { moment })
        }
        _ => Err(ReadError::Fault(4)),
    }
}

#[tactic(auto, unfolding(crate::specs::Calls::replied_in))]
fn read_reply(alloc: Global, nums: Nums, words: &[&[u8]]) -> Result<Callback, ReadError>
    ensures { Gives (λ x. x) result (calls.replied_in nums (map (λ w. w.now) words.now)) }
{
    let body = read_body(alloc, nums, words)?;
    Ok(Callback::Reply { body })
}

// What a subscription hears.
fn sub_call(alloc: Global, nums: Nums, head: Head, words: &[&[u8]]) -> Result<Callback, ReadError>
    ensures { Gives (λ x. x) result (calls.sub_call_in nums head (map (λ w. w.now) words.now)) }
{
    match head {
        Head::Create => alone(Callback::Create, words),
        Head::Msg => read_msg(alloc, nums, words),
        Head::Gap => read_gap(words),
        Head::Quality => read_quality_call(words),
        Head::Request => read_request(words),
        Head::Late => read_late(words),
        Head::Error => read_error(words),
        Head::Destroy => alone(Callback::Destroy, words),
        _ => Err(ReadError::Fault(3)),
    }
}

// What a timer hears.
fn timer_call(head: Head, words: &[&[u8]]) -> Result<Callback, ReadError>
    ensures { Gives (λ x. x) result (calls.timer_call_in head (map (λ w. w.now) words.now)) }
{
    match head {
        Head::Create => alone(Callback::Create, words),
        Head::Tick => read_tick(words),
        Head::Destroy => alone(Callback::Destroy, words),
        _ => Err(ReadError::Fault(3)),
    }
}

// What an inbox hears.
fn inbox_call(alloc: Global, nums: Nums, head: Head, words: &[&[u8]]) -> Result<Callback, ReadError>
    ensures { Gives (λ x. x) result (calls.inbox_call_in nums head (map (λ w. w.now) words.now)) }
{
    match head {
        Head::Create => alone(Callback::Create, words),
        Head::Reply => read_reply(alloc, nums, words),
        Head::Error => read_error(words),
        Head::Destroy => alone(Callback::Destroy, words),
        _ => Err(ReadError::Fault(3)),
    }
}

fn call_by(
    alloc: Global,
    nums: Nums,
    object: ObjectId,
    head: Head,
    words: &[&[u8]],
) -> Result<Callback, ReadError>
    ensures { Gives (λ x. x) result (calls.call_by nums object head (map (λ w. w.now) words.now)) }
{
    match object {
        ObjectId::Sub(_) => sub_call(alloc, nums, head, words),
        ObjectId::Timer(_) => timer_call(head, words),
        ObjectId::Inbox(_) => inbox_call(alloc, nums, head, words),
    }
}

/// The callback of an object that the words spell.
#[tactic(auto, unfolding(crate::specs::Calls::call_words_in))]
pub(crate) fn call_words(
    alloc: Global,
    nums: Nums,
    object: ObjectId,
    words: &[&[u8]],
) -> Result<Callback, ReadError>
    ensures { Gives (λ x. x) result (calls.call_words_in nums object (map (λ w. w.now) words.now)) }
{
    match words {
        [head, rest @ ..] => {
            let head = read_head(head).ok_or(ReadError::Fault(3))?;
            call_by(alloc, nums, object, head, rest)
        }
        [] => Err(ReadError::Fault(4)),
    }
}

#[tactic(auto, unfolding(crate::specs::Calls::call_line_in))]
fn call_line<'a>(
    alloc: Global,
    nums: Nums,
    object: ObjectId,
    words: &mut Vec<&'a [u8]>,
    line: &'a [u8],
) -> Result<Callback, ReadError>
    ensures { Gives (λ x. x) result (calls.call_line_in nums object line.now) }
{
    parted_into(words, line)?;
    call_words(alloc, nums, object, words)
}

/// The callback of an object that a line without its line feed spells. None where it spells none that an object of this
/// kind hears.
pub fn call_in<'a>(
    alloc: Global,
    nums: Nums,
    object: ObjectId,
    words: &mut Vec<&'a [u8]>,
    line: &'a [u8],
) -> Result<Option<Callback>, OutOfMemory>
    ensures found { IfOk result (λ o. IfSome o (λ c. MayHear nums object c × (line.now ++ 10 ∷ [] ≡ text.line (text.callback_text c)))) }
    ensures again { IfOk result (λ o. (c : Callback) → MayHear nums object c → line.now ++ 10 ∷ [] ≡ text.line (text.callback_text c) → o ≡ Some c) }
{
    without_fault(call_line(alloc, nums, object, words, line))
}

// The order, if the script declares what it names.
#[tactic(auto, unfolding(crate::specs::Calls::known_order))]
fn known_order(names: &Names, order: OrderWord) -> Result<Order, ReadError>
    ensures { Gives (λ x. x) result (calls.known_order names.now order) }
{
    match order {
        OrderWord::Stop(id) => {
            let sub = known_sub(names, id).ok_or(ReadError::Fault(10))?;
            Ok(Order::Stop(sub))
        }
        OrderWord::Disarm(id) => {
            let timer = known_timer(names, id).ok_or(ReadError::Fault(10))?;
            Ok(Order::Disarm(timer))
        }
        OrderWord::Close(id) => {
            let inbox = known_inbox(names, id).ok_or(ReadError::Fault(10))?;
            Ok(Order::Close(inbox))
        }
        OrderWord::Ask { inbox, topic, fids } => {
            let inbox = known_inbox(names, inbox).ok_or(ReadError::Fault(10))?;
            let topic = known_topic(names, topic).ok_or(ReadError::Fault(9))?;
            Ok(Order::Ask { inbox, topic, fids })
        }
    }
}

fn order_body(names: &Names, head: Head, words: &[&[u8]]) -> Result<Order, ReadError>
    ensures { Gives (λ x. x) result (calls.order_body_in names.now head (map (λ w. w.now) words.now)) }
{
    match head {
        Head::Order => {
            let order = read_order(words)?;
            known_order(names, order)
        }
        _ => Err(ReadError::Fault(3)),
    }
}

#[tactic(auto, unfolding(crate::specs::Calls::order_words_in))]
fn order_words(names: &Names, words: &[&[u8]]) -> Result<Order, ReadError>
    ensures { Gives (λ x. x) result (calls.order_words_in names.now (map (λ w. w.now) words.now)) }
{
    match words {
        [head, rest @ ..] => {
            let head = read_head(head).ok_or(ReadError::Fault(3))?;
            order_body(names, head, rest)
        }
        [] => Err(ReadError::Fault(4)),
    }
}

#[tactic(auto, unfolding(crate::specs::Calls::order_line_in))]
fn order_line<'a>(
    names: &Names,
    words: &mut Vec<&'a [u8]>,
    line: &'a [u8],
) -> Result<Order, ReadError>
    ensures { Gives (λ x. x) result (calls.order_line_in names.now line.now) }
{
    parted_into(words, line)?;
    order_words(names, words)
}

/// Whether a text can begin as the line of an order does. By its first byte such a line is told from that of a callback.
pub fn may_be_order(text: &[u8]) -> bool
    ensures { result ≡ calls.begins_as_order text.now }
{
    match text {
        [] => false,
        [first, ..] => *first == b'o',
    }
}

/// The order that a line without its line feed spells. None where it spells none, or one that names what the script does
/// not declare.
pub fn order_line_in<'a>(
    names: &Names,
    words: &mut Vec<&'a [u8]>,
    line: &'a [u8],
) -> Result<Option<Order>, OutOfMemory>
    ensures found { IfOk result (λ o. IfSome o (λ order. MayOrder names.now order × (line.now ++ 10 ∷ [] ≡ text.order_line order))) }
    ensures again { IfOk result (λ o. (order : Order) → MayOrder names.now order → line.now ++ 10 ∷ [] ≡ text.order_line order → o ≡ Some order) }
{
    if !may_be_order(line) {
        return Ok(None);
    }
    without_fault(order_line(names, words, line))
}

fn clock_body(head: Head, words: &[&[u8]]) -> Result<u64, ReadError>
    ensures { Gives (λ x. x) result (calls.clock_body_in head (map (λ w. w.now) words.now)) }
{
    match head {
        Head::Clock => clock_moment(words),
        _ => Err(ReadError::Fault(3)),
    }
}

#[tactic(auto, unfolding(crate::specs::Calls::clock_moment_in))]
fn clock_moment(words: &[&[u8]]) -> Result<u64, ReadError>
    ensures { Gives (λ x. x) result (calls.clock_moment_in (map (λ w. w.now) words.now)) }
{
    match words {
        [word] => read_moment(word),
        _ => Err(ReadError::Fault(4)),
    }
}

#[tactic(auto, unfolding(crate::specs::Calls::clock_words_in))]
fn clock_words(words: &[&[u8]]) -> Result<u64, ReadError>
    ensures { Gives (λ x. x) result (calls.clock_words_in (map (λ w. w.now) words.now)) }
{
    match words {
        [head, rest @ ..] => {
            let head = read_head(head).ok_or(ReadError::Fault(3))?;
            clock_body(head, rest)
        }
        [] => Err(ReadError::Fault(4)),
    }
}

#[tactic(auto, unfolding(crate::specs::Calls::clock_line_in))]
fn clock_line<'a>(words: &mut Vec<&'a [u8]>, line: &'a [u8]) -> Result<u64, ReadError>
    ensures { Gives (λ x. x) result (calls.clock_line_in line.now) }
{
    parted_into(words, line)?;
    clock_words(words)
}

/// The moment that a line without its line feed says a client read. None where it is no such line.
pub fn clock_in<'a>(words: &mut Vec<&'a [u8]>, line: &'a [u8]) -> Result<Option<u64>, OutOfMemory>
    ensures found { IfOk result (λ o. IfSome o (λ moment. (moment < 2 ^ 64) × (line.now ++ 10 ∷ [] ≡ text.clock_line moment))) }
    ensures again { IfOk result (λ o. (moment : ℕ) → moment < 2 ^ 64 → line.now ++ 10 ∷ [] ≡ text.clock_line moment → o ≡ Some moment) }
{
    without_fault(clock_line(words, line))
}

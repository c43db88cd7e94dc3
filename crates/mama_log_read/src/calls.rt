//! The callbacks of an object with their orders, as many as stand at the head of a text.
ghost use Rattle.std.specs.Prelude.{◌≡◌, map, IfOk};
ghost use Rattle.std.specs.Option.{option_map};
ghost use Rattle.mama_record.specs.LogText.{callback_text, given_text};
ghost use Rattle.mama_log_line.specs.Entering.{MayHear, MayOrder};
ghost use Rattle.mama_log_read.specs.Part as part;
ghost use Rattle.mama_log_read.specs.Reading as reading;

use mama_event::{CallNote, Callback, GivenOrders, ObjectId, Order, Orders};
use mama_log_line::{Names, call_in, may_be_order, order_line_in};
use mama_memory::OutOfMemory;
use mama_words::cut_at;
use std::alloc::Global;

fn next_order<'a>(
    names: &Names,
    words: &mut Vec<&'a [u8]>,
    text: &'a [u8],
) -> Result<Option<(Order, &'a [u8])>, OutOfMemory>
    ensures { IfOk result (λ o. reading.IsNext (MayOrder names.now) given_text text.now (option_map (λ next. (next.0, next.1.now)) o)) }
{
    if !may_be_order(text) {
        return Ok(None);
    }
    match cut_at(b'\n', text) {
        Some((line, after)) => match order_line_in(names, words, line)? {
            Some(order) => Ok(Some((order, after))),
            None => Ok(None),
        },
        None => Ok(None),
    }
}

// The orders at the head of a text, of which one callback has at most 8.
fn read_orders<'a>(
    names: &Names,
    words: &mut Vec<&'a [u8]>,
    text: &'a [u8],
) -> Result<(Orders, &'a [u8]), OutOfMemory>
    ensures { IfOk result (λ read. reading.AreOrdersTaken names.now text.now read.0 read.1.now) }
{
    let mut orders = Orders::new();
    let mut rest = text;
    'orders: loop {
        match next_order(names, words, rest) {
            Ok(Some((order, after))) => match orders.push(order) {
                Ok(()) => rest = after,
                Err(_) => return Ok((orders, rest)),
            },
            Ok(None) => return Ok((orders, rest)),
            Err(error) => return Err(error),
        }
    }
}

fn next_callback<'a>(
    alloc: Global,
    names: &Names,
    object: ObjectId,
    words: &mut Vec<&'a [u8]>,
    text: &'a [u8],
) -> Result<Option<(Callback, &'a [u8])>, OutOfMemory>
    ensures { IfOk result (λ o. reading.IsNext (MayHear names.now.nums object) callback_text text.now (option_map (λ next. (next.0, next.1.now)) o)) }
{
    match cut_at(b'\n', text) {
        Some((line, after)) => match call_in(alloc, names.nums(), object, words, line)? {
            Some(call) => Ok(Some((call, after))),
            None => Ok(None),
        },
        None => Ok(None),
    }
}

fn next_call<'a>(
    alloc: Global,
    names: &Names,
    object: ObjectId,
    words: &mut Vec<&'a [u8]>,
    text: &'a [u8],
) -> Result<Option<(CallNote, &'a [u8])>, OutOfMemory>
    ensures { IfOk result (λ o. reading.IsNextCall names.now object text.now (option_map (λ next. (next.0, next.1.now)) o)) }
{
    match next_callback(alloc, names, object, words, text)? {
        Some((call, after)) => {
            let (orders, rest) = read_orders(names, words, after)?;
            let orders = GivenOrders::new(alloc, &orders)?;
            Ok(Some((CallNote { call, orders }, rest)))
        }
        None => Ok(None),
    }
}

/// Reads the callbacks of an object, as many lines as are some, and says what follows them.
pub fn read_calls<'a>(
    alloc: Global,
    names: &Names,
    object: ObjectId,
    text: &'a [u8],
) -> Result<(Vec<CallNote>, &'a [u8]), OutOfMemory>
    ensures { IfOk result (λ read. reading.AreCallsTaken names.now object text.now read.0.items read.1.now) }
{
    let mut calls = Vec::new(alloc);
    let mut words = Vec::new(alloc);
    let mut rest = text;
    while let Some((call, after)) = next_call(alloc, names, object, &mut words, rest)? {
        calls.push(call)?;
        rest = after;
    }
    Ok((calls, rest))
}

//! The second look: whether the objects that lines name are in the script.
ghost use Rattle.std.specs.Prelude.{◌≡◌, ◌<◌, ◌+◌, ◌-◌, ◌^◌, length, IfOk, OnOk, OnErr, slice_get};
ghost use Rattle.std.specs.List.{list_all};
ghost use Rattle.mama_script.specs.Counted.{AreCounted};
ghost use Rattle.mama_script.specs.Names as names;

use crate::line::Line;
use mama_memory::OutOfMemory;
use mama_words::{IdWord, OrderWord};
use std::alloc::Global;

/// How many objects of each kind one client makes.
#[derive(Clone, Copy, Debug, PartialEq, Eq)]
pub struct Made {
    pub subs: u64,
    pub timers: u64,
    pub inboxes: u64,
}

/// The number of the first line that names an object that is not in the script, if there is one. The first of the
/// lines has the number 2.
pub fn first_unnamed(alloc: Global, lines: &[Line]) -> Result<Option<u64>, OutOfMemory>
    requires { length lines.now + 2 < 2 ^ 64 }
    ensures { IfOk result (λ found. found ≡ names.unnamed_from (names.made_by lines.now) 2 lines.now) }
{
    let made = made_by(alloc, lines)?;
    Ok(unnamed(&made, lines))
}

fn unnamed(made: &[Made], lines: &[Line]) -> Option<u64>
    requires { length lines.now + 2 < 2 ^ 64 }
    ensures { result ≡ names.unnamed_from made.now 2 lines.now }
{
    for (i, line) in lines.iter().enumerate() {
        if !is_named(made, line) {
            return Some(i as u64 + 2);
        }
    }
    None
}

fn made_by(alloc: Global, lines: &[Line]) -> Result<Vec<Made>, OutOfMemory>
    requires { length lines.now + 2 < 2 ^ 64 }
    ensures { IfOk result (λ made. made.items ≡ names.made_by lines.now) }
{
    let mut made = Vec::new(alloc);
    for line in lines {
        make(&mut made, line)?;
    }
    Ok(made)
}

// What each client makes, with one line more.
fn make(made: &mut Vec<Made>, line: &Line) -> Result<(), OutOfMemory>
    requires { AreCounted (2 ^ 64 - 2) (2 ^ 64 - 2) (2 ^ 64 - 2) made.now.items }
    ensures { OnOk result (made.new.items ≡ names.made_with made.old.items line.now) }
{
    match line {
        Line::Client => Ok(made.push(Made {
            subs: 0,
            timers: 0,
            inboxes: 0,
        })?),
        Line::Sub {
            topic: _,
            kind: _,
            queue: _,
            cache: _,
            recaps: _,
        } => add_sub(made),
        Line::Timer {
            queue: _,
            interval: _,
        } => add_timer(made),
        Line::Inbox { queue: _ } => add_inbox(made),
        _ => Ok(()),
    }
}

#[tactic(auto, using(crate::proofs::Made::at_last_push, crate::proofs::Counted::room_for_sub))]
fn add_sub(made: &mut Vec<Made>) -> Result<(), OutOfMemory>
    requires { AreCounted (2 ^ 64 - 2) (2 ^ 64 - 2) (2 ^ 64 - 2) made.now.items }
    ensures { OnOk result (made.new.items ≡ names.at_last names.with_sub made.old.items) }
{
    if let Some(last) = made.pop() {
        made.push(Made {
            subs: last.subs + 1,
            timers: last.timers,
            inboxes: last.inboxes,
        })?;
    }
    Ok(())
}

#[tactic(auto, using(crate::proofs::Made::at_last_push, crate::proofs::Counted::room_for_timer))]
fn add_timer(made: &mut Vec<Made>) -> Result<(), OutOfMemory>
    requires { AreCounted (2 ^ 64 - 2) (2 ^ 64 - 2) (2 ^ 64 - 2) made.now.items }
    ensures { OnOk result (made.new.items ≡ names.at_last names.with_timer made.old.items) }
{
    if let Some(last) = made.pop() {
        made.push(Made {
            subs: last.subs,
            timers: last.timers + 1,
            inboxes: last.inboxes,
        })?;
    }
    Ok(())
}

#[tactic(auto, using(crate::proofs::Made::at_last_push, crate::proofs::Counted::room_for_inbox))]
fn add_inbox(made: &mut Vec<Made>) -> Result<(), OutOfMemory>
    requires { AreCounted (2 ^ 64 - 2) (2 ^ 64 - 2) (2 ^ 64 - 2) made.now.items }
    ensures { OnOk result (made.new.items ≡ names.at_last names.with_inbox made.old.items) }
{
    if let Some(last) = made.pop() {
        made.push(Made {
            subs: last.subs,
            timers: last.timers,
            inboxes: last.inboxes + 1,
        })?;
    }
    Ok(())
}

// Whether the objects that a line names, if it names some, are in the script.
fn is_named(made: &[Made], line: &Line) -> bool
    ensures { result ≡ names.is_named made.now line.now }
{
    match line {
        Line::At { call: _, order } => is_order_named(made, order),
        Line::Order(order) => is_order_named(made, order),
        Line::Group(ids) => are_subs_made(made, ids.as_slice()),
        Line::Watch {
            sub,
            timer,
            retries: _,
        } => is_sub_made(made, *sub) && is_timer_made(made, *timer),
        _ => true,
    }
}

fn is_order_named(made: &[Made], order: &OrderWord) -> bool
    ensures { result ≡ names.is_order_named made.now order.now }
{
    match order {
        OrderWord::Stop(id) => is_sub_made(made, *id),
        OrderWord::Disarm(id) => is_timer_made(made, *id),
        OrderWord::Close(id) => match made_of(made, *id) {
            Some(made) => id.number < made.inboxes,
            None => false,
        },
        OrderWord::Ask {
            inbox,
            topic: _,
            fids: _,
        } => match made_of(made, *inbox) {
            Some(made) => inbox.number < made.inboxes,
            None => false,
        },
    }
}

fn are_subs_made(made: &[Made], ids: &[IdWord]) -> bool
    ensures { result ≡ list_all (λ id. names.is_made (λ m. m.subs) made.now id) ids.now }
{
    ids.iter().all(|id| is_sub_made(made, *id))
}

fn is_sub_made(made: &[Made], id: IdWord) -> bool
    ensures { result ≡ names.is_made (λ m. m.subs) made.now id }
{
    match made_of(made, id) {
        Some(made) => id.number < made.subs,
        None => false,
    }
}

fn is_timer_made(made: &[Made], id: IdWord) -> bool
    ensures { result ≡ names.is_made (λ m. m.timers) made.now id }
{
    match made_of(made, id) {
        Some(made) => id.number < made.timers,
        None => false,
    }
}

fn made_of(made: &[Made], id: IdWord) -> Option<Made>
    ensures { result ≡ slice_get made.now id.client }
{
    if id.client < made.len() as u64 {
        Some(made[id.client as usize])
    } else {
        None
    }
}

//! Outboxes, the rows of links, and what links let through.

use crate::item::Item;
use crate::rows::{number, numbered};
use mama_link::{Fault, FaultRow, Faults, FaultsFault, Link};
use mama_memory::{OutOfMemory, Outbox};
use std::alloc::Global;
use std::process::Abort;
use std::test::Fail;

#[test]
fn an_outbox_keeps_its_items_in_order(rt: HostRuntime) -> Result<(), Fail> {
    let mut out = Outbox::new(rt.alloc());
    let mut more = Outbox::new(rt.alloc());
    assert!(rt; out.is_empty());
    assert!(rt; out.push(1u32).is_ok());
    more.reserve(2)?;
    more.push_reserved(2);
    more.push_reserved(3);
    out.append(&mut more)?;
    assert_eq!(rt; (out.len(), more.len()), (3, 0));
    for want in [Some(1), Some(2), Some(3), None] {
        assert_eq!(rt; out.take_first(), want);
    }
    Ok(())
}

fn fault_of(word: &str, by: u32) -> Fault {
    if word == "lose" {
        Fault::Lose
    } else if word == "dup" {
        Fault::Dup
    } else if word == "cut" {
        Fault::Cut(by)
    } else {
        Fault::Hold(by)
    }
}

// Fault rows as scripts write them, with a comma between two.
fn rows_of(alloc: Global, text: &str) -> Result<Vec<FaultRow>, OutOfMemory> {
    let mut rows = Vec::new(alloc);
    if text.is_empty() {
        return Ok(rows);
    }
    for part in text.split(',') {
        let (word, rest) = part.split_once(' ').unwrap_or((part, ""));
        let (index, rest) = numbered(rest);
        rows.push(FaultRow {
            index,
            fault: fault_of(word, number(rest)),
        })?;
    }
    Ok(rows)
}

fn refusal(fault: FaultsFault) -> (&'static str, u32) {
    match fault {
        FaultsFault::ZeroIndex => ("index", 0),
        FaultsFault::ZeroHold { index } => ("hold", index),
        FaultsFault::Repeated { index } => ("repeated", index),
        FaultsFault::OutOfMemory => ("memory", 0),
    }
}

// The first bad row, and what is bad about it.
const REFUSED: &str = "repeated 1=lose 1,lose 1
hold 4=lose 1,hold 4 0
hold 4=lose 4,hold 4 0
index 0=hold 0 0,hold 4 0
hold 4=hold 4 0,lose 0";

#[test]
fn the_first_bad_row_is_named(rt: HostRuntime) -> Result<(), Fail> {
    for row in REFUSED.lines() {
        let (want, text) = row.split_once('=').unwrap_or((row, ""));
        let (word, index) = want.split_once(' ').unwrap_or((want, ""));
        let fault = Faults::new(rt.alloc(), rows_of(rt.alloc(), text)?).err();
        assert_eq!(rt; fault.map(refusal), Some((word, number(index))), "{row}");
    }
    Ok(())
}

#[test]
fn the_rows_stay_in_their_order(rt: HostRuntime) -> Result<(), Fail> {
    let text = "hold 4294967295 4294967295,dup 7,lose 1";
    let faults = Faults::new(rt.alloc(), rows_of(rt.alloc(), text)?)?;
    assert!(rt; faults.try_clone()?.rows() == rows_of(rt.alloc(), text)?.as_slice());
    assert!(rt; Faults::none(rt.alloc()).rows().is_empty());
    Ok(())
}

fn make_item(number: u32) -> Item {
    Item { number, left: 4 }
}

fn link_of(alloc: Global, text: &str) -> Result<Link<Item>, Fail> {
    let faults = Faults::new(alloc, rows_of(alloc, text)?)?;
    Ok(Link::new(alloc, faults))
}

// What an outbox has, each number after a space, and behind it how many bytes are left where some are not.
fn drained(alloc: Global, out: &mut Outbox<Item>) -> Result<String, Fail> {
    let mut text = String::new(alloc);
    for _ in 0..out.len() {
        if let Some(item) = out.take_first() {
            text.push_str(format!(in alloc; " {}", item.number)?.as_str())?;
            if item.left < 4 {
                text.push_str(format!(in alloc; "/{}", item.left)?.as_str())?;
            }
        }
    }
    Ok(text)
}

// What comes out of a link of these rows into which the numbers 1, 2 and 3 go before its end.
fn through(rt: &impl Abort, alloc: Global, rows: &str) -> Result<String, Fail> {
    let mut link = link_of(alloc, rows)?;
    let mut out = Outbox::new(alloc);
    for number in 1..=3 {
        assert!(rt; link.pass(make_item(number), &mut out).is_ok());
    }
    assert!(rt; link.finish(&mut out).is_ok());
    drained(alloc, &mut out)
}

// The messages go in order but for the rows. Then held ones come after the own output of the place where they are due:
// past a held, a lost and a repeated message; two at one place; and those that are never due at the end, in the order of
// their numbers. A cut message stands in its place, and one that has no more bytes than are kept is whole.
const PASSES: &str = "= 1 2 3
lose 2= 1 3
dup 2= 1 2 2 3
hold 1 1= 2 1 3
dup 3,lose 1= 2 3 3
lose 5,dup 9,hold 4 1= 1 2 3
hold 4294967295 4294967295,hold 2 4294967295= 1 3 2
hold 1 1,hold 2 1= 1 3 2
hold 1 1,lose 2= 1 3
hold 1 1,dup 2= 2 2 1 3
hold 2 1,hold 1 2= 3 1 2
hold 1 9,hold 2 3= 3 1 2
hold 3 1,hold 1 1= 2 1 3
cut 2 3= 1 2/3 3
cut 2 0,dup 3= 1 2/0 3 3
cut 1 4,cut 2 65535= 1 2 3
hold 1 1,cut 2 1= 2/1 1 3";

#[test]
fn messages_pass_in_order_but_for_the_rows(rt: HostRuntime) -> Result<(), Fail> {
    for row in PASSES.lines() {
        let (rows, want) = row.split_once('=').unwrap_or((row, ""));
        assert_eq!(rt; through(&rt, rt.alloc(), rows)?.as_str(), want, "{row}");
    }
    Ok(())
}

// Passes an item that was prepared. How many items that puts, and whether it puts none.
fn pass_one(
    link: &mut Link<Item>,
    out: &mut Outbox<Item>,
    number: u32,
) -> Result<(usize, bool), OutOfMemory> {
    let prepared = link.prepare(&make_item(number))?;
    let puts = (prepared.len(), prepared.is_empty());
    out.reserve(prepared.len())?;
    link.pass_prepared(prepared, out);
    Ok(puts)
}

#[test]
fn what_was_prepared_passes(rt: HostRuntime) -> Result<(), Fail> {
    let mut link = link_of(rt.alloc(), "hold 1 2,hold 2 1,dup 3")?;
    let mut out = Outbox::new(rt.alloc());
    for (number, len, held) in [(1, 0, 1), (2, 0, 2), (3, 4, 0), (4, 1, 0)] {
        assert_eq!(rt; pass_one(&mut link, &mut out, number)?, (len, len == 0));
        assert_eq!(rt; link.held(), held);
    }
    assert_eq!(rt; drained(rt.alloc(), &mut out)?.as_str(), " 3 3 1 2 4");
    Ok(())
}

// The sum of the numbers that an outbox has.
fn sum(out: &mut Outbox<Item>) -> u64 {
    let mut sum = 0u64;
    for _ in 0..out.len() {
        if let Some(item) = out.take_first() {
            sum = sum.wrapping_add(u64::from(item.number));
        }
    }
    sum
}

#[test]
fn many_messages_pass_by_many_rows(rt: HostRuntime) -> Result<(), Fail> {
    let mut rows = Vec::new(rt.alloc());
    for index in 1..=10_000 {
        rows.push(FaultRow {
            index,
            fault: Fault::Hold(10_000),
        })?;
    }
    let mut link = Link::new(rt.alloc(), Faults::new(rt.alloc(), rows)?);
    let mut out = Outbox::new(rt.alloc());
    for number in 1..=100_000u32 {
        assert!(rt; link.pass(make_item(number), &mut out).is_ok());
    }
    assert!(rt; link.finish(&mut out).is_ok());
    assert_eq!(rt; sum(&mut out), 5_000_050_000);
    Ok(())
}

//! A morning of twenty instruments, made here: it is played on one thread and on many, and its logs are judged.

use crate::words::{log_of, replayed, verdict_of};
use mama_edge::{OpenGate, print_u64};
use mama_memory::OutOfMemory;
use std::alloc::Global;
use std::sync::Wait;
use std::test::Fail;
use std::thread::Threads;

const TOPICS: u64 = 20;

const UPDATES: u64 = 25;

fn add(text: &mut Vec<u8>, words: &str) -> Result<(), OutOfMemory> {
    Ok(text.extend_from_slice(words.as_bytes())?)
}

fn add_number(text: &mut Vec<u8>, before: &str, number: u64) -> Result<(), OutOfMemory> {
    add(text, before)?;
    print_u64(number, text)
}

// A publisher that begins with a symbol, two prices, a size and a moment.
fn add_base(text: &mut Vec<u8>, topic: u64) -> Result<(), OutOfMemory> {
    add_number(text, "publisher ", topic)?;
    add_number(text, " 1:symbol:text:\"EQ.", topic)?;
    add_number(text, "\" 22:bid:price:100", topic)?;
    add_number(text, "/3 25:ask:price:101", topic)?;
    add(text, "/3 30:size:u32:100 40:opened:moment:28800000\n")
}

// It moves a price and the size.
fn add_updates(text: &mut Vec<u8>) -> Result<(), OutOfMemory> {
    for k in 0..UPDATES {
        add_number(text, "update 22:bid:price:100", k)?;
        add_number(text, "/3 30:size:u32:", 200 + k)?;
        add(text, "\n")?;
    }
    Ok(())
}

// A client of all topics. Each eighth of its subscriptions loses its ninth message, from the given one on.
fn add_client(text: &mut Vec<u8>, first_lossy: u64) -> Result<(), OutOfMemory> {
    add(text, "client\n")?;
    for topic in 0..TOPICS {
        add_number(text, "sub ", topic)?;
        add(text, " market any 10 1000\n")?;
        if topic % 8 == first_lossy {
            add(text, "fault lose 9\n")?;
        }
    }
    Ok(())
}

fn add_topics(text: &mut Vec<u8>) -> Result<(), OutOfMemory> {
    for topic in 0..TOPICS {
        add_number(text, "topic \"EQ.", topic)?;
        add(text, "\"\n")?;
    }
    Ok(())
}

fn add_publishers(text: &mut Vec<u8>) -> Result<(), OutOfMemory> {
    for topic in 0..TOPICS {
        add_base(text, topic)?;
        add_updates(text)?;
    }
    Ok(())
}

// Twenty topics of a publisher each, a second one of the first topic that sends its whole record once, and two clients.
fn morning(alloc: Global) -> Result<Vec<u8>, OutOfMemory> {
    let mut text = Vec::new(alloc);
    add(&mut text, "mama script 1\nqueues 4\n")?;
    add_topics(&mut text)?;
    add_publishers(&mut text)?;
    add(&mut text, "publisher 0 1:symbol:text:\"EQ.0\"\nrecap\n")?;
    add_client(&mut text, 0)?;
    add_client(&mut text, 4)?;
    Ok(text)
}

// How often a log says that messages are missing.
fn gaps_in(log: &[u8]) -> Result<u64, Fail> {
    let mut gaps = 0u64;
    for line in str::from_utf8(log).ok().ok_or("a text")?.lines() {
        if line.starts_with("gap ") {
            gaps = gaps.saturating_add(1);
        }
    }
    Ok(gaps)
}

// How often the log of the morning by these words says that messages are missing. It is found legal.
fn gaps_by<R: Threads + Wait + Copy + Drop + Send + Sync>(
    rt: &R,
    alloc: Global,
    words: &str,
) -> Result<u64, Fail> {
    let script = morning(alloc)?;
    let log = log_of(rt, alloc, words, &script, &OpenGate)?;
    let _verdict = verdict_of(rt, alloc, &script, &log)?;
    gaps_in(&log)
}

#[test]
fn a_morning_is_played_and_its_logs_are_legal(rt: HostRuntime) -> Result<(), Fail> {
    assert!(rt; gaps_by(&rt, rt.alloc(), "serial")? == 5);
    gaps_by(&rt, rt.alloc(), "play 4")?;
    gaps_by(&rt, rt.alloc(), "play 8")?;
    Ok(())
}

#[test]
fn a_morning_on_one_thread_is_followed_again(rt: HostRuntime) -> Result<(), Fail> {
    let script = morning(rt.alloc())?;
    let log = log_of(&rt, rt.alloc(), "serial", &script, &OpenGate)?;
    let again = replayed(&rt, rt.alloc(), &script, &log)?;
    assert!(rt; again.as_slice().starts_with(b"step c0\n"));
    assert!(rt; again.as_slice().ends_with(&log));
    Ok(())
}

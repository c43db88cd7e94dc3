//! The top call with the words of play, and with others.

use crate::meeting::Meeting;
use crate::scripts::{FIRST, FIRST_IMAGE, TWO_QUEUES, UNEVEN};
use mama_commands::run;
use mama_edge::{Gate, MemoryClock, MemorySink, MemorySource, OpenGate};
use mama_plain::Status;
use std::alloc::{AllocError, Global};
use std::sync::Wait;
use std::test::Fail;
use std::thread::Threads;

// Room for what a command writes. A storm's log has at most 25,000,000 bytes, where each subscription hears each update.
const ROOM: usize = 30_000_000;

// The words of a command line; none are in an empty text.
fn words_of(alloc: Global, text: &str) -> Result<Vec<String>, AllocError> {
    let mut words = Vec::new(alloc);
    if text.is_empty() {
        return Ok(words);
    }
    for word in text.split(' ') {
        words.push(String::from_str(alloc, word)?)?;
    }
    Ok(words)
}

// The top call, of which no proof here needs a clause.
fn run_once<G: Gate + Sync, R: Threads + Wait + Copy + Drop + Send + Sync>(
    rt: &R,
    alloc: Global,
    words: &[String],
    source: &mut MemorySource,
    sink: &mut MemorySink,
    gate: &G,
) -> Status {
    let mut clock = MemoryClock::new(Vec::new(alloc));
    run(rt, alloc, words, source, sink, &mut clock, gate)
}

/// What the command of these words answers to an input, and what it writes.
pub fn answered<G: Gate + Sync, R: Threads + Wait + Copy + Drop + Send + Sync>(
    rt: &R,
    alloc: Global,
    words: &str,
    input: Vec<u8>,
    gate: &G,
) -> Result<(Status, Vec<u8>), Fail> {
    let words = words_of(alloc, words)?;
    let mut source = MemorySource::new(input, 4096, Vec::new(alloc));
    let mut sink = MemorySink::new(alloc, ROOM, 4096, Vec::new(alloc))?;
    let status = run_once(rt, alloc, &words, &mut source, &mut sink, gate);
    Ok((status, Vec::from_slice(alloc, sink.written())?))
}

/// The log that a script has by these words.
pub fn log_of<G: Gate + Sync, R: Threads + Wait + Copy + Drop + Send + Sync>(
    rt: &R,
    alloc: Global,
    words: &str,
    script: &[u8],
    gate: &G,
) -> Result<Vec<u8>, Fail> {
    let input = Vec::from_slice(alloc, script)?;
    match answered(rt, alloc, words, input, gate)? {
        (Status::Ok, log) => Ok(log),
        _ => Err(Fail::new("not played")),
    }
}

// A script and a log, as check reads them.
fn joined(alloc: Global, script: &[u8], log: &[u8]) -> Result<Vec<u8>, AllocError> {
    let mut input = Vec::from_slice(alloc, script)?;
    input.extend_from_slice("log\n".as_bytes())?;
    input.extend_from_slice(log)?;
    Ok(input)
}

/// What check writes of a log that is found legal.
pub fn verdict_of<R: Threads + Wait + Copy + Drop + Send + Sync>(
    rt: &R,
    alloc: Global,
    script: &[u8],
    log: &[u8],
) -> Result<Vec<u8>, Fail> {
    let input = joined(alloc, script, log)?;
    match answered(rt, alloc, "check", input, &OpenGate)? {
        (Status::Ok, verdict) => Ok(verdict),
        _ => Err(Fail::new("not legal")),
    }
}

/// What replay writes of a log that is followed again.
pub fn replayed<R: Threads + Wait + Copy + Drop + Send + Sync>(
    rt: &R,
    alloc: Global,
    script: &[u8],
    log: &[u8],
) -> Result<Vec<u8>, Fail> {
    let input = joined(alloc, script, log)?;
    match answered(rt, alloc, "replay", input, &OpenGate)? {
        (Status::Ok, out) => Ok(out),
        _ => Err(Fail::new("not followed")),
    }
}

// Whether a log is that of a legal and causal run.
fn is_causal<R: Threads + Wait + Copy + Drop + Send + Sync>(
    rt: &R,
    alloc: Global,
    script: &str,
    log: &[u8],
) -> Result<bool, Fail> {
    let verdict = verdict_of(rt, alloc, script.as_bytes(), log)?;
    Ok(verdict.as_slice() == "legal\ncausal yes\n".as_bytes())
}

#[test]
fn each_number_of_workers_writes_a_legal_log(rt: HostRuntime) -> Result<(), Fail> {
    for words in ["play 1", "play 2", "play 64"] {
        let log = log_of(&rt, rt.alloc(), words, FIRST.as_bytes(), &OpenGate)?;
        assert!(rt; is_causal(&rt, rt.alloc(), FIRST, &log)?, "{words}");
        assert!(rt; log.as_slice().ends_with(FIRST_IMAGE.as_bytes()), "{words}");
    }
    Ok(())
}

#[test]
fn turns_of_two_queues_run_at_the_same_time(rt: HostRuntime) -> Result<(), Fail> {
    let meeting = Meeting::of(0, 1);
    let log = log_of(&rt, rt.alloc(), "play 2", TWO_QUEUES.as_bytes(), &meeting)?;
    assert!(rt; is_causal(&rt, rt.alloc(), TWO_QUEUES, &log)?);
    assert!(rt; meeting.is_held());
    Ok(())
}

// Fewer threads than queues, as many, and more.
#[test]
fn queues_with_unlike_loads_are_served_by_any_number_of_threads(
    rt: HostRuntime,
) -> Result<(), Fail> {
    for words in ["play 1", "play 3", "play 4", "play 8"] {
        let log = log_of(&rt, rt.alloc(), words, UNEVEN.as_bytes(), &OpenGate)?;
        assert!(rt; is_causal(&rt, rt.alloc(), UNEVEN, &log)?, "{words}");
    }
    Ok(())
}

// Queues 0 and 2 begin with one thread. They meet only where the other thread, whose queues have ended, takes one of them.
#[test]
fn a_thread_whose_queues_have_ended_takes_those_of_another(rt: HostRuntime) -> Result<(), Fail> {
    let meeting = Meeting::of(0, 2);
    let log = log_of(&rt, rt.alloc(), "play 2", UNEVEN.as_bytes(), &meeting)?;
    assert!(rt; is_causal(&rt, rt.alloc(), UNEVEN, &log)?);
    assert!(rt; meeting.is_held());
    Ok(())
}

// Words that are no command, in one text.
const BAD_WORDS: &str =
    "play|play 0|play 65|play 02|play +2|play 2 2|plays 2|serial 2|check 2|gen|soak|soak 7|soak 7 0|soak 7 65|soak -1 4|soak 4 x|soak 7 4 4|";

#[test]
fn other_words_are_no_command(rt: HostRuntime) -> Result<(), Fail> {
    for words in BAD_WORDS.split('|') {
        let (status, written) = answered(&rt, rt.alloc(), words, Vec::new(rt.alloc()), &OpenGate)?;
        assert!(rt; status == Status::BadWords && written.is_empty(), "{words}");
    }
    Ok(())
}

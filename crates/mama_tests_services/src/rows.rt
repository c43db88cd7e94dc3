//! Worked journals: a script, what a service took, and what the others took of it then, each part behind a sign.
//!
//! Each call of what is tested is a function of its own without a clause, which hands its answer on unopened: so no proof
//! carries what that call promises.

use mama_event::{
    BridgeNote, CallNote, ImageHead, ObjectId, PublisherEntry, QueueNote, Shape, SubId, TimersNote,
};
use mama_log_line::Names;
use mama_memory::OutOfMemory;
use mama_msg::Msg;
use mama_record::{RunRecord, print_log};
use mama_script::{Script, ScriptFault, parse};
use mama_words::Version;
use std::alloc::Global;
use std::test::Fail;

/// The part of a text before the first sign `#`, and the part behind it.
pub fn parted(text: &str) -> (&str, &str) {
    text.split_once('#').unwrap_or((text, ""))
}

fn parsed(alloc: Global, text: &str) -> Result<Script, ScriptFault> {
    parse(alloc, text.as_bytes())
}

/// The script of a text.
pub fn script_of(alloc: Global, text: &str) -> Result<Script, Fail> {
    Ok(parsed(alloc, text)?)
}

fn named(alloc: Global, script: &Script) -> Result<Names, OutOfMemory> {
    Names::new(alloc, script)
}

/// The names of a script's text.
pub fn names_in(alloc: Global, text: &str) -> Result<Names, Fail> {
    let script = script_of(alloc, text)?;
    Ok(named(alloc, &script)?)
}

/// A line with another first word.
pub fn with_word(alloc: Global, word: &str, rest: &str) -> Result<String, Fail> {
    Ok(format!(in alloc; "{word} {rest}")?)
}

/// A line's first word, and what stands behind the space.
pub fn worded(line: &str) -> (&str, &str) {
    line.split_once(' ').unwrap_or((line, ""))
}

type Calls = Vec<(ObjectId, Vec<CallNote>)>;

type Images = Vec<(SubId, ImageHead, Msg)>;

fn recorded(
    alloc: Global,
    clients: Vec<Vec<u64>>,
    publishers: Vec<Vec<PublisherEntry>>,
    bridge: Vec<(u32, BridgeNote)>,
    timers: Vec<(u32, TimersNote)>,
    queues: Vec<Vec<(u32, QueueNote)>>,
    calls: Calls,
    images: Images,
) -> RunRecord {
    let groups = Vec::new(alloc);
    let watches = Vec::new(alloc);
    RunRecord::new(
        clients, publishers, bridge, timers, queues, calls, images, groups, watches,
    )
}

/// The record of these journals.
pub fn record_of(
    alloc: Global,
    publishers: Vec<Vec<PublisherEntry>>,
    bridge: Vec<(u32, BridgeNote)>,
    timers: Vec<(u32, TimersNote)>,
    queues: Vec<Vec<(u32, QueueNote)>>,
) -> RunRecord {
    let clients = Vec::new(alloc);
    let calls = Vec::new(alloc);
    let images = Vec::new(alloc);
    recorded(
        alloc, clients, publishers, bridge, timers, queues, calls, images,
    )
}

fn printed(alloc: Global, shape: &Shape, run: &RunRecord) -> Result<Vec<u8>, OutOfMemory> {
    print_log(alloc, shape, run, Version::One)
}

/// Whether a text is the log of a record.
pub fn is_log(alloc: Global, shape: &Shape, run: &RunRecord, text: &str) -> Result<bool, Fail> {
    Ok(printed(alloc, shape, run)?.as_slice() == text.as_bytes())
}

//! Journals, and lists of what was put, from lines as logs have them.
//!
//! Each call of what is tested is a function of its own without a clause, which hands its answer on unopened: so no proof
//! carries what that call promises.

use mama_check_order::Need;
use mama_event::{BridgeNote, PublisherEntry, PublisherNote, QueueNote, TimersNote};
use mama_log_line::{Names, bridge_entry_in, publisher_entry_in, queue_entry_in, timers_entry_in};
use mama_memory::OutOfMemory;
use mama_script::{Script, ScriptFault, parse};
use std::alloc::{AllocError, Global};
use std::test::Fail;

/// The lines of a row, each ended by a bar.
pub fn lines_of(row: &str) -> &str {
    row.strip_suffix('|').unwrap_or(row)
}

fn parsed(alloc: Global, text: &[u8]) -> Result<Script, ScriptFault> {
    parse(alloc, text)
}

/// The script of a row.
pub fn script_of(alloc: Global, row: &str) -> Result<Script, Fail> {
    let text = text_of(alloc, row)?;
    Ok(parsed(alloc, &text)?)
}

/// The names of a script.
pub fn names_of(alloc: Global, script: &Script) -> Result<Names, OutOfMemory> {
    Names::new(alloc, script)
}

/// A text in one row, with a bar in place of each line's end.
pub fn text_of(alloc: Global, row: &str) -> Result<Vec<u8>, AllocError> {
    let mut text = Vec::new(alloc);
    for byte in row.bytes() {
        text.push(if byte == b'|' { b'\n' } else { byte })?;
    }
    Ok(text)
}

/// A number in front of a line, and the line.
fn numbered(line: &str) -> (usize, &str) {
    match line.split_once(' ') {
        Some((number, rest)) => (number.parse::<usize>().unwrap_or(0), rest),
        None => (0, line),
    }
}

fn read_bridge(
    alloc: Global,
    names: &Names,
    line: &str,
) -> Result<Option<(u32, BridgeNote)>, OutOfMemory> {
    bridge_entry_in(alloc, names, &mut Vec::new(alloc), line.as_bytes())
}

fn bridge_entry(alloc: Global, names: &Names, line: &str) -> Result<(u32, BridgeNote), Fail> {
    Ok(read_bridge(alloc, names, line)?.ok_or("no entry of the bridge")?)
}

/// A journal of the bridge.
pub fn bridge_journal(
    alloc: Global,
    names: &Names,
    row: &str,
) -> Result<Vec<(u32, BridgeNote)>, Fail> {
    let mut journal = Vec::new(alloc);
    for line in row.split_terminator('|') {
        journal.push(bridge_entry(alloc, names, line)?)?;
    }
    Ok(journal)
}

/// What was put to the bridge, each event with the number of the entry that put it.
pub fn bridge_puts(
    alloc: Global,
    names: &Names,
    row: &str,
) -> Result<Vec<(usize, BridgeNote)>, Fail> {
    let mut puts = Vec::new(alloc);
    for line in row.split_terminator('|') {
        let (entry, rest) = numbered(line);
        let (_, note) = bridge_entry(alloc, names, rest)?;
        puts.push((entry, note))?;
    }
    Ok(puts)
}

fn read_timers(
    alloc: Global,
    names: &Names,
    line: &str,
) -> Result<Option<(u32, TimersNote)>, OutOfMemory> {
    timers_entry_in(names, &mut Vec::new(alloc), line.as_bytes())
}

fn timers_entry(alloc: Global, names: &Names, line: &str) -> Result<(u32, TimersNote), Fail> {
    Ok(read_timers(alloc, names, line)?.ok_or("no entry of the timers")?)
}

/// A journal of the timer service.
pub fn timers_journal(
    alloc: Global,
    names: &Names,
    row: &str,
) -> Result<Vec<(u32, TimersNote)>, Fail> {
    let mut journal = Vec::new(alloc);
    for line in row.split_terminator('|') {
        journal.push(timers_entry(alloc, names, line)?)?;
    }
    Ok(journal)
}

/// What was put to the timer service.
pub fn timers_puts(
    alloc: Global,
    names: &Names,
    row: &str,
) -> Result<Vec<(usize, TimersNote)>, Fail> {
    let mut puts = Vec::new(alloc);
    for line in row.split_terminator('|') {
        let (entry, rest) = numbered(line);
        let (_, note) = timers_entry(alloc, names, rest)?;
        puts.push((entry, note))?;
    }
    Ok(puts)
}

fn read_queue(
    alloc: Global,
    names: &Names,
    line: &str,
) -> Result<Option<(u32, QueueNote)>, OutOfMemory> {
    queue_entry_in(alloc, names, &mut Vec::new(alloc), line.as_bytes())
}

fn queue_entry(alloc: Global, names: &Names, line: &str) -> Result<(u32, QueueNote), Fail> {
    Ok(read_queue(alloc, names, line)?.ok_or("no entry of a queue")?)
}

/// A journal of a queue.
pub fn queue_journal(
    alloc: Global,
    names: &Names,
    row: &str,
) -> Result<Vec<(u32, QueueNote)>, Fail> {
    let mut journal = Vec::new(alloc);
    for line in row.split_terminator('|') {
        journal.push(queue_entry(alloc, names, line)?)?;
    }
    Ok(journal)
}

/// What was put to a queue.
pub fn queue_puts(
    alloc: Global,
    names: &Names,
    row: &str,
) -> Result<Vec<(usize, QueueNote)>, Fail> {
    let mut puts = Vec::new(alloc);
    for line in row.split_terminator('|') {
        let (entry, rest) = numbered(line);
        let (_, note) = queue_entry(alloc, names, rest)?;
        puts.push((entry, note))?;
    }
    Ok(puts)
}

fn read_publisher(
    alloc: Global,
    names: &Names,
    line: &str,
) -> Result<Option<PublisherEntry>, OutOfMemory> {
    publisher_entry_in(names, &mut Vec::new(alloc), line.as_bytes())
}

fn publisher_entry(alloc: Global, names: &Names, line: &str) -> Result<PublisherEntry, Fail> {
    Ok(read_publisher(alloc, names, line)?.ok_or("no entry of a publisher")?)
}

/// A journal of a publisher.
pub fn publisher_journal(
    alloc: Global,
    names: &Names,
    row: &str,
) -> Result<Vec<PublisherEntry>, Fail> {
    let mut journal = Vec::new(alloc);
    for line in row.split_terminator('|') {
        // Where the note is not named, the toolchain makes no proof of the push.
        match publisher_entry(alloc, names, line)? {
            PublisherEntry::Took(note) => journal.push(PublisherEntry::Took(note))?,
            other => journal.push(other)?,
        }
    }
    Ok(journal)
}

/// What was put to a publisher.
pub fn publisher_puts(
    alloc: Global,
    names: &Names,
    row: &str,
) -> Result<Vec<(usize, PublisherNote)>, Fail> {
    let mut puts = Vec::new(alloc);
    for line in row.split_terminator('|') {
        let (entry, rest) = numbered(line);
        if let PublisherEntry::Took(note) = publisher_entry(alloc, names, rest)? {
            puts.push((entry, note))?;
        }
    }
    Ok(puts)
}

/// A need as an actor and an entry, or a dash for none, each after a space.
pub fn needs_text(alloc: Global, needs: &[Option<Need>]) -> Result<String, Fail> {
    let mut text = String::new(alloc);
    for need in needs {
        match need {
            Some(Need { actor, entry }) => {
                text.push_str(format!(in alloc; " {actor}.{entry}")?.as_str())?;
            }
            None => text.push_str(" -")?,
        }
    }
    Ok(text)
}

//! The entries of each kind of section, as many as stand at the head of a text.
ghost use Rattle.std.specs.Prelude.{◌≡◌, ℕ, map, IfOk};
ghost use Rattle.std.specs.Option.{option_map};
ghost use Rattle.mama_record.specs.LogText.{clock_text, publisher_entry_text, bridge_entry_text, timers_entry_text, queue_entry_text, group_note_text, watch_note_text};
ghost use Rattle.mama_log_line.specs.Entering.{MayEnterPublisher, MayEnterBridge, MayEnterTimers, MayEnterQueue, MayHearGroup, MayNote};
ghost use Rattle.mama_log_read.specs.Logged.{IsMoment};
ghost use Rattle.mama_log_read.specs.Reading as reading;

use mama_event::{BridgeNote, GroupNote, PublisherEntry, QueueNote, TimersNote, WatchNote};
use mama_log_line::{
    Names, bridge_entry_in, clock_in, group_note_in, publisher_entry_in, queue_entry_in,
    timers_entry_in, watch_note_in,
};
use mama_memory::OutOfMemory;
use mama_words::cut_at;
use std::alloc::Global;

fn next_moment<'a>(
    words: &mut Vec<&'a [u8]>,
    text: &'a [u8],
) -> Result<Option<(u64, &'a [u8])>, OutOfMemory>
    ensures { IfOk result (λ o. reading.IsNext IsMoment clock_text text.now (option_map (λ next. (next.0, next.1.now)) o)) }
{
    match cut_at(b'\n', text) {
        Some((line, after)) => match clock_in(words, line)? {
            Some(entry) => Ok(Some((entry, after))),
            None => Ok(None),
        },
        None => Ok(None),
    }
}

/// Reads the moments of a client, as many lines as are some, and says what follows them.
pub fn read_moments<'a>(alloc: Global, text: &'a [u8]) -> Result<(Vec<u64>, &'a [u8]), OutOfMemory>
    ensures { IfOk result (λ read. reading.AreTaken IsMoment clock_text text.now read.0.items read.1.now) }
{
    let mut entries = Vec::new(alloc);
    let mut words = Vec::new(alloc);
    let mut rest = text;
    while let Some((entry, after)) = next_moment(&mut words, rest)? {
        entries.push(entry)?;
        rest = after;
    }
    Ok((entries, rest))
}

fn next_publisher_entry<'a>(
    names: &Names,
    words: &mut Vec<&'a [u8]>,
    text: &'a [u8],
) -> Result<Option<(PublisherEntry, &'a [u8])>, OutOfMemory>
    ensures { IfOk result (λ o. reading.IsNext (MayEnterPublisher names.now) publisher_entry_text text.now (option_map (λ next. (next.0, next.1.now)) o)) }
{
    match cut_at(b'\n', text) {
        Some((line, after)) => match publisher_entry_in(names, words, line)? {
            Some(entry) => Ok(Some((entry, after))),
            None => Ok(None),
        },
        None => Ok(None),
    }
}

/// Reads the entries of a publisher's journal, as many lines as are some, and says what follows them.
pub fn read_publisher_entries<'a>(
    alloc: Global,
    names: &Names,
    text: &'a [u8],
) -> Result<(Vec<PublisherEntry>, &'a [u8]), OutOfMemory>
    ensures { IfOk result (λ read. reading.AreTaken (MayEnterPublisher names.now) publisher_entry_text text.now read.0.items read.1.now) }
{
    let mut entries = Vec::new(alloc);
    let mut words = Vec::new(alloc);
    let mut rest = text;
    'entries: loop {
        match next_publisher_entry(names, &mut words, rest) {
            Ok(Some((entry, after))) => {
                entries.push(entry)?;
                rest = after;
            }
            Ok(None) => return Ok((entries, rest)),
            Err(error) => return Err(error),
        }
    }
}

fn next_bridge_entry<'a>(
    alloc: Global,
    names: &Names,
    words: &mut Vec<&'a [u8]>,
    text: &'a [u8],
) -> Result<Option<((u32, BridgeNote), &'a [u8])>, OutOfMemory>
    ensures { IfOk result (λ o. reading.IsNext (MayEnterBridge names.now) (bridge_entry_text names.now.shape) text.now (option_map (λ next. (next.0, next.1.now)) o)) }
{
    match cut_at(b'\n', text) {
        Some((line, after)) => match bridge_entry_in(alloc, names, words, line)? {
            Some(entry) => Ok(Some((entry, after))),
            None => Ok(None),
        },
        None => Ok(None),
    }
}

/// Reads the entries of the bridge's journal, as many lines as are some, and says what follows them.
pub fn read_bridge_entries<'a>(
    alloc: Global,
    names: &Names,
    text: &'a [u8],
) -> Result<(Vec<(u32, BridgeNote)>, &'a [u8]), OutOfMemory>
    ensures { IfOk result (λ read. reading.AreTaken (MayEnterBridge names.now) (bridge_entry_text names.now.shape) text.now read.0.items read.1.now) }
{
    let mut entries = Vec::new(alloc);
    let mut words = Vec::new(alloc);
    let mut rest = text;
    while let Some((entry, after)) = next_bridge_entry(alloc, names, &mut words, rest)? {
        entries.push(entry)?;
        rest = after;
    }
    Ok((entries, rest))
}

fn next_timers_entry<'a>(
    names: &Names,
    words: &mut Vec<&'a [u8]>,
    text: &'a [u8],
) -> Result<Option<((u32, TimersNote), &'a [u8])>, OutOfMemory>
    ensures { IfOk result (λ o. reading.IsNext (MayEnterTimers names.now) (timers_entry_text names.now.shape) text.now (option_map (λ next. (next.0, next.1.now)) o)) }
{
    match cut_at(b'\n', text) {
        Some((line, after)) => match timers_entry_in(names, words, line)? {
            Some(entry) => Ok(Some((entry, after))),
            None => Ok(None),
        },
        None => Ok(None),
    }
}

/// Reads the entries of the timer service's journal, as many lines as are some, and says what follows them.
pub fn read_timers_entries<'a>(
    alloc: Global,
    names: &Names,
    text: &'a [u8],
) -> Result<(Vec<(u32, TimersNote)>, &'a [u8]), OutOfMemory>
    ensures { IfOk result (λ read. reading.AreTaken (MayEnterTimers names.now) (timers_entry_text names.now.shape) text.now read.0.items read.1.now) }
{
    let mut entries = Vec::new(alloc);
    let mut words = Vec::new(alloc);
    let mut rest = text;
    while let Some((entry, after)) = next_timers_entry(names, &mut words, rest)? {
        entries.push(entry)?;
        rest = after;
    }
    Ok((entries, rest))
}

fn next_queue_entry<'a>(
    alloc: Global,
    names: &Names,
    words: &mut Vec<&'a [u8]>,
    text: &'a [u8],
) -> Result<Option<((u32, QueueNote), &'a [u8])>, OutOfMemory>
    ensures { IfOk result (λ o. reading.IsNext (MayEnterQueue names.now) queue_entry_text text.now (option_map (λ next. (next.0, next.1.now)) o)) }
{
    match cut_at(b'\n', text) {
        Some((line, after)) => match queue_entry_in(alloc, names, words, line)? {
            Some(entry) => Ok(Some((entry, after))),
            None => Ok(None),
        },
        None => Ok(None),
    }
}

/// Reads the entries of a queue's journal, as many lines as are some, and says what follows them.
pub fn read_queue_entries<'a>(
    alloc: Global,
    names: &Names,
    text: &'a [u8],
) -> Result<(Vec<(u32, QueueNote)>, &'a [u8]), OutOfMemory>
    ensures { IfOk result (λ read. reading.AreTaken (MayEnterQueue names.now) queue_entry_text text.now read.0.items read.1.now) }
{
    let mut entries = Vec::new(alloc);
    let mut words = Vec::new(alloc);
    let mut rest = text;
    while let Some((entry, after)) = next_queue_entry(alloc, names, &mut words, rest)? {
        entries.push(entry)?;
        rest = after;
    }
    Ok((entries, rest))
}

fn next_group_note<'a>(
    alloc: Global,
    names: &Names,
    words: &mut Vec<&'a [u8]>,
    text: &'a [u8],
) -> Result<Option<(GroupNote, &'a [u8])>, OutOfMemory>
    ensures { IfOk result (λ o. reading.IsNext (MayHearGroup names.now) group_note_text text.now (option_map (λ next. (next.0, next.1.now)) o)) }
{
    match cut_at(b'\n', text) {
        Some((line, after)) => match group_note_in(alloc, names, words, line)? {
            Some(entry) => Ok(Some((entry, after))),
            None => Ok(None),
        },
        None => Ok(None),
    }
}

/// Reads what a group heard, as many lines as are such, and says what follows them.
pub fn read_group_notes<'a>(
    alloc: Global,
    names: &Names,
    text: &'a [u8],
) -> Result<(Vec<GroupNote>, &'a [u8]), OutOfMemory>
    ensures { IfOk result (λ read. reading.AreTaken (MayHearGroup names.now) group_note_text text.now read.0.items read.1.now) }
{
    let mut entries = Vec::new(alloc);
    let mut words = Vec::new(alloc);
    let mut rest = text;
    while let Some((entry, after)) = next_group_note(alloc, names, &mut words, rest)? {
        entries.push(entry)?;
        rest = after;
    }
    Ok((entries, rest))
}

fn next_watch_note<'a>(
    words: &mut Vec<&'a [u8]>,
    text: &'a [u8],
) -> Result<Option<(WatchNote, &'a [u8])>, OutOfMemory>
    ensures { IfOk result (λ o. reading.IsNext MayNote watch_note_text text.now (option_map (λ next. (next.0, next.1.now)) o)) }
{
    match cut_at(b'\n', text) {
        Some((line, after)) => match watch_note_in(words, line)? {
            Some(entry) => Ok(Some((entry, after))),
            None => Ok(None),
        },
        None => Ok(None),
    }
}

/// Reads what a watch noted, as many lines as are such, and says what follows them.
pub fn read_watch_notes<'a>(
    alloc: Global,
    text: &'a [u8],
) -> Result<(Vec<WatchNote>, &'a [u8]), OutOfMemory>
    ensures { IfOk result (λ read. reading.AreTaken MayNote watch_note_text text.now read.0.items read.1.now) }
{
    let mut entries = Vec::new(alloc);
    let mut words = Vec::new(alloc);
    let mut rest = text;
    while let Some((entry, after)) = next_watch_note(&mut words, rest)? {
        entries.push(entry)?;
        rest = after;
    }
    Ok((entries, rest))
}

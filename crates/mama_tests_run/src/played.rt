//! The top call over memory, and texts in one row.

use mama_edge::{MemoryClock, MemorySink, MemorySource};
use mama_plain::{Status, run_plain};
use std::alloc::{AllocError, Global};
use std::test::Fail;

/// Room for what most commands write.
pub const ROOM: usize = 8000;

/// A text in one row, with a bar in place of each line's end.
pub fn add_row(text: &mut Vec<u8>, row: &str) -> Result<(), AllocError> {
    for byte in row.bytes() {
        text.push(if byte == b'|' { b'\n' } else { byte })?;
    }
    Ok(())
}

/// The words of a command line; none are in an empty text.
pub fn words_of(alloc: Global, text: &str) -> Result<Vec<String>, AllocError> {
    let mut words = Vec::new(alloc);
    if text.is_empty() {
        return Ok(words);
    }
    for word in text.split(' ') {
        words.push(String::from_str(alloc, word)?)?;
    }
    Ok(words)
}

/// A source of these bytes that gives so many at a call, and fails at the call of this number, from 1, if it is not 0.
pub fn source_of(
    alloc: Global,
    bytes: Vec<u8>,
    piece: usize,
    failing: u64,
) -> Result<MemorySource, Fail> {
    if piece == 0 {
        return Err(Fail::new("no piece"));
    }
    let failing = vec![in alloc; failing]?;
    Ok(MemorySource::new(bytes, piece, failing))
}

/// A sink with so much room that takes so many bytes at a call, and fails at the call of this number, if it is not 0.
pub fn sink_of(alloc: Global, room: usize, piece: usize, failing: u64) -> Result<MemorySink, Fail> {
    if piece == 0 {
        return Err(Fail::new("no piece"));
    }
    let failing = vec![in alloc; failing]?;
    Ok(MemorySink::new(alloc, room, piece, failing)?)
}

/// What a command answered, how many bytes of its input it left, and what it wrote.
#[derive(Drop)]
pub struct Answer {
    pub status: Status,
    pub left: usize,
    pub written: Vec<u8>,
}

// The top call, of which no proof here needs a clause.
fn run_once(
    alloc: Global,
    words: &[String],
    source: &mut MemorySource,
    sink: &mut MemorySink,
    clock: &mut MemoryClock,
) -> Status {
    run_plain(alloc, words, source, sink, clock)
}

/// What the command of these words answers.
pub fn told(
    alloc: Global,
    words: &str,
    mut source: MemorySource,
    mut sink: MemorySink,
    moments: Vec<u64>,
) -> Result<Answer, Fail> {
    let words = words_of(alloc, words)?;
    let mut clock = MemoryClock::new(moments);
    let status = run_once(alloc, &words, &mut source, &mut sink, &mut clock);
    Ok(Answer {
        status,
        left: source.left().len(),
        written: Vec::from_slice(alloc, sink.written())?,
    })
}

/// What the command of these words answers to an input, and what it writes into so much room.
pub fn answered(
    alloc: Global,
    words: &str,
    input: Vec<u8>,
    moments: Vec<u64>,
    room: usize,
) -> Result<Answer, Fail> {
    let source = source_of(alloc, input, 4096, 0)?;
    let sink = sink_of(alloc, room, 4096, 0)?;
    told(alloc, words, source, sink, moments)
}

/// The log of a script that is played.
pub fn log_of(
    alloc: Global,
    script: &[u8],
    moments: Vec<u64>,
    room: usize,
) -> Result<Vec<u8>, Fail> {
    let input = Vec::from_slice(alloc, script)?;
    let answer = answered(alloc, "serial", input, moments, room)?;
    if answer.status != Status::Ok {
        return Err(Fail::new("not played"));
    }
    Ok(answer.written)
}

// A script and a log, as check reads them.
fn joined(alloc: Global, script: &[u8], log: &[u8]) -> Result<Vec<u8>, AllocError> {
    let mut input = Vec::from_slice(alloc, script)?;
    input.extend_from_slice("log\n".as_bytes())?;
    input.extend_from_slice(log)?;
    Ok(input)
}

/// Whether this is said of a script and a log.
pub fn is_judged(
    alloc: Global,
    script: &[u8],
    log: &[u8],
    status: Status,
    verdict: &str,
) -> Result<bool, Fail> {
    let input = joined(alloc, script, log)?;
    let answer = answered(alloc, "check", input, Vec::new(alloc), ROOM)?;
    Ok(answer.status == status && answer.written.as_slice() == verdict.as_bytes())
}

/// Whether a log is that of a legal and causal run.
pub fn is_causal(alloc: Global, script: &[u8], log: &[u8]) -> Result<bool, Fail> {
    is_judged(alloc, script, log, Status::Ok, "legal\ncausal yes\n")
}

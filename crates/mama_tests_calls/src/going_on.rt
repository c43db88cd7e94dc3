//! A run on one thread, and its log, by the calls of the crates beneath the top call. A call that found no memory is made
//! again: there is memory in the gate, and bench/refuse.sh refuses each request in turn over these tests.

use crate::scripts::{FIRST, LISTED, MIXED};
use mama_check::{Verdict, check};
use mama_drive::SerialRun;
use mama_edge::{MemoryClock, MemorySink, MemorySource};
use mama_log_read::{LogFault, parse_log};
use mama_memory::OutOfMemory;
use mama_plain::{Status, run_plain};
use mama_record::{RunRecord, print_log};
use mama_script::{Script, ScriptFault, parse};
use std::alloc::{AllocError, Global};
use std::test::Fail;

// Calls whose answers are handed on unopened, as no proof here needs a clause.
fn parsed(alloc: Global, text: &str) -> Result<Script, ScriptFault> {
    parse(alloc, text.as_bytes())
}

fn record_in(alloc: Global, script: &Script, log: &[u8]) -> Result<RunRecord, LogFault> {
    parse_log(alloc, script, log)
}

// The record that a log tells.
fn read(alloc: Global, script: &Script, log: &[u8]) -> Option<RunRecord> {
    match record_in(alloc, script, log) {
        Ok(run) => Some(run),
        Err(_) => record_in(alloc, script, log).ok(),
    }
}

// The log of a record.
fn printed(alloc: Global, script: &Script, run: &RunRecord) -> Option<Vec<u8>> {
    match print_log(alloc, script.shape(), run, script.version()) {
        Ok(log) => Some(log),
        Err(_) => print_log(alloc, script.shape(), run, script.version()).ok(),
    }
}

// The verdict on the record that a log tells.
fn judged(alloc: Global, script: &Script, log: &[u8]) -> Result<Option<Verdict>, OutOfMemory> {
    match parse_log(alloc, script, log) {
        Ok(run) => match check(alloc, script, &run) {
            Ok(verdict) => Ok(Some(verdict)),
            Err(_) => Ok(check(alloc, script, &run).ok()),
        },
        Err(_) => Err(OutOfMemory),
    }
}

// The record of a run, which gives itself back until it is at its end.
fn record_of(run: SerialRun, moments: Vec<u64>) -> Option<RunRecord> {
    let mut clock = MemoryClock::new(moments);
    let Err(mut run) = run.into_record() else {
        return None;
    };
    if run.go(&mut clock).is_err() {
        let Err(mut refused) = run.into_record() else {
            return None;
        };
        if refused.go(&mut clock).is_err() {
            return None;
        }
        run = refused;
    }
    run.into_record().ok()
}

// Whether a run of the driver gives this log.
fn gives(alloc: Global, text: &str, moments: Vec<u64>, log: &[u8]) -> Result<bool, Fail> {
    let script = parsed(alloc, text)?;
    let run = SerialRun::new(alloc, &script)?;
    match record_of(run, moments) {
        Some(record) => Ok(
            print_log(alloc, script.shape(), &record, script.version())?.as_slice() == log,
        ),
        None => Ok(false),
    }
}

// The moments of the clock of the mixed script.
fn clock(alloc: Global) -> Result<Vec<u64>, AllocError> {
    let mut moments = Vec::new(alloc);
    for moment in [10, 20, 30] {
        moments.push(moment)?;
    }
    Ok(moments)
}

// Room for a log.
const ROOM: usize = 8000;

fn run_once(
    alloc: Global,
    source: &mut MemorySource,
    sink: &mut MemorySink,
    clock: &mut MemoryClock,
) -> Result<Status, AllocError> {
    let mut words = Vec::new(alloc);
    words.push(String::from_str(alloc, "serial")?)?;
    Ok(run_plain(alloc, &words, source, sink, clock))
}

// The log of a script by the top call, whose clock tells these moments.
fn log_of(alloc: Global, text: &str, moments: Vec<u64>) -> Result<Vec<u8>, Fail> {
    let input = Vec::from_slice(alloc, text.as_bytes())?;
    let mut source = MemorySource::new(input, 4096, Vec::new(alloc));
    let mut sink = MemorySink::new(alloc, ROOM, 4096, Vec::new(alloc))?;
    let mut clock = MemoryClock::new(moments);
    match run_once(alloc, &mut source, &mut sink, &mut clock)? {
        Status::Ok => Ok(Vec::from_slice(alloc, sink.written())?),
        _ => Err(Fail::new("not played")),
    }
}

#[test]
fn a_run_goes_on(rt: HostRuntime) -> Result<(), Fail> {
    let log = log_of(rt.alloc(), MIXED, clock(rt.alloc())?)?;
    assert!(rt; gives(rt.alloc(), MIXED, clock(rt.alloc())?, &log)?);
    Ok(())
}

#[test]
fn a_run_with_a_group_and_a_watch_goes_on(rt: HostRuntime) -> Result<(), Fail> {
    let log = log_of(rt.alloc(), LISTED, Vec::new(rt.alloc()))?;
    assert!(rt; gives(rt.alloc(), LISTED, Vec::new(rt.alloc()), &log)?);
    Ok(())
}

#[test]
fn a_plain_run_goes_on(rt: HostRuntime) -> Result<(), Fail> {
    let log = log_of(rt.alloc(), FIRST, Vec::new(rt.alloc()))?;
    assert!(rt; gives(rt.alloc(), FIRST, Vec::new(rt.alloc()), &log)?);
    Ok(())
}

// Whether a log is read as it is without a refusal.
fn is_read(alloc: Global) -> Result<bool, Fail> {
    let log = log_of(alloc, MIXED, clock(alloc)?)?;
    let script = parsed(alloc, MIXED)?;
    let run = record_in(alloc, &script, &log)?;
    match read(alloc, &script, &log) {
        Some(found) => Ok(found == run),
        None => Ok(false),
    }
}

#[test]
fn a_log_is_read(rt: HostRuntime) -> Result<(), Fail> {
    assert!(rt; is_read(rt.alloc())?);
    Ok(())
}

// Whether the record that a log tells is printed as this log.
fn is_printed(alloc: Global) -> Result<bool, Fail> {
    let log = log_of(alloc, MIXED, clock(alloc)?)?;
    let script = parsed(alloc, MIXED)?;
    let run = record_in(alloc, &script, &log)?;
    match printed(alloc, &script, &run) {
        Some(written) => Ok(written.as_slice() == log.as_slice()),
        None => Ok(false),
    }
}

#[test]
fn a_record_is_printed(rt: HostRuntime) -> Result<(), Fail> {
    assert!(rt; is_printed(rt.alloc())?);
    Ok(())
}

// Whether the log is that of a legal and causal run.
fn is_legal(alloc: Global) -> Result<bool, Fail> {
    let log = log_of(alloc, MIXED, clock(alloc)?)?;
    let script = parsed(alloc, MIXED)?;
    let verdict = judged(alloc, &script, &log)?;
    Ok(matches!(verdict, Some(Verdict::Legal { causal: true })))
}

#[test]
fn a_record_is_judged(rt: HostRuntime) -> Result<(), Fail> {
    assert!(rt; is_legal(rt.alloc())?);
    Ok(())
}

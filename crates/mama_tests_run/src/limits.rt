//! Inputs that reach a limit, and ones that pass it by one.

use crate::played::{Answer, ROOM, add_row, answered, sink_of, source_of, told};
use mama_plain::{MOST_INPUT, Status};
use std::alloc::Global;
use std::test::Fail;

// What check answers where no log follows, a part that stands so often, and what stands before and behind it. A bang is a
// number, which is 1 where the part first stands, and then one more each time. A script that is accepted has a bad log
// at the line behind its line `log`.
const LIMITS: &str =
    r#"bad log, line 10006@10000@sub 0 market 0 10 1000|@mama script 1|queues 1|topic "T"|client|@log|
over limit 6, line 10005@10001@sub 0 market 0 10 1000|@mama script 1|queues 1|topic "T"|client|@log|
over limit 6, line 10005@10002@sub 0 market 0 10 1000|@mama script 1|queues 1|topic "T"|client|@log|
bad log, line 1030@1024@timer any 5|@mama script 1|queues 64|client|@now 5|log|
over limit 7, line 1028@1025@timer any 5|@mama script 1|queues 64|client|@now 5|log|
bad log, line 1029@512@timer any 5|inbox any|@mama script 1|queues 64|client|@log|
over limit 7, line 1028@512@timer any 5|inbox any|@mama script 1|queues 64|client|@timer any 5|log|
bad log, line 1031@512@timer any 5|inbox any|@mama script 1|queues 64|client|@client|timer any 5|log|
bad log, line 69@64@client|@mama script 1|queues 1|topic "T"|@log|
over limit 5, line 68@65@client|@mama script 1|queues 1|topic "T"|@log|
bad log, line 5@1@client|@mama script 1|queues 64|@log|
over limit 2, line 2@1@client|@mama script 1|queues 65|@log|
bad log, line 1029@1024@topic "T"|@mama script 1|queues 1|@client|log|
over limit 3, line 1027@1025@topic "T"|@mama script 1|queues 1|@client|log|
bad log, line 1030@1024@publisher 0|@mama script 1|queues 1|topic "T"|@client|log|
over limit 4, line 1028@1025@publisher 0|@mama script 1|queues 1|topic "T"|@client|log|
bad log, line 7@64@ !:f:u8:1@mama script 1|queues 1|topic "T"|publisher 0@|client|log|
over limit 8, line 4@65@ !:f:u8:1@mama script 1|queues 1|topic "T"|publisher 0@|client|log|
bad log, line 8@64@ !:f:u8:1@mama script 1|queues 1|topic "T"|publisher 0|update@|client|log|
over limit 8, line 5@65@ !:f:u8:1@mama script 1|queues 1|topic "T"|publisher 0|update@|client|log|
bad log, line 8@63@ !:f:u8:1@mama script 1|queues 1|topic "T"|publisher 0@|update 64:f:u8:1|client|log|
bad log, line 8@64@ !:f:u8:1@mama script 1|queues 1|topic "T"|publisher 0@|update 64:f:u8:2|client|log|
over limit 8, line 5@64@ !:f:u8:1@mama script 1|queues 1|topic "T"|publisher 0@|update 65:f:u8:1|client|log|
bad log, line 10025@9999@sub 0 market 0 10 1000|@mama script 1|queues 1|topic "T"|topic "U"|publisher 0|recap|recap|recap|update|update|update|update|update|publisher 1|recap|recap|recap|update|update|update|update|update|client|@sub 1 market 0 10 1000|log|
over limit 9, line 10024@9999@sub 0 market 0 10 1000|@mama script 1|queues 1|topic "T"|topic "U"|publisher 0|recap|recap|recap|update|update|update|update|update|publisher 1|recap|recap|recap|update|update|update|update|update|update|client|@sub 1 market 0 10 1000|log|"#;

// A part with a number in place of each bang.
fn add_numbered(alloc: Global, text: &mut Vec<u8>, part: &str, number: u32) -> Result<(), Fail> {
    for byte in part.bytes() {
        if byte == b'!' {
            text.extend_from_slice(format!(in alloc; "{number}")?.as_bytes())?;
        } else {
            text.push(if byte == b'|' { b'\n' } else { byte })?;
        }
    }
    Ok(())
}

// The text of a row.
fn text_of(alloc: Global, row: &str) -> Result<Vec<u8>, Fail> {
    let (count, rest) = row.split_once('@').unwrap_or((row, ""));
    let (part, rest) = rest.split_once('@').unwrap_or((rest, ""));
    let (front, end) = rest.split_once('@').unwrap_or((rest, ""));
    let mut text = Vec::new(alloc);
    add_row(&mut text, front)?;
    for before in 0..count.parse::<u32>().unwrap_or(0) {
        add_numbered(alloc, &mut text, part, before.saturating_add(1))?;
    }
    add_row(&mut text, end)?;
    Ok(text)
}

fn is_so(alloc: Global, answer: &Answer, want: &str) -> Result<bool, Fail> {
    let status = answer.status;
    let said = format!(in alloc; "{status}")?;
    Ok(said.as_str() == want && answer.written.is_empty())
}

// Whether check gives a row's answer, and writes nothing.
fn is_checked(alloc: Global, row: &str) -> Result<bool, Fail> {
    let (want, rest) = row.split_once('@').unwrap_or((row, ""));
    let text = text_of(alloc, rest)?;
    let answer = answered(alloc, "check", text, Vec::new(alloc), ROOM)?;
    is_so(alloc, &answer, want)
}

#[test]
fn a_limit_is_passed_by_one_more(rt: HostRuntime) -> Result<(), Fail> {
    for row in LIMITS.lines() {
        assert!(rt; is_checked(rt.alloc(), row)?, "{row}");
    }
    Ok(())
}

// Whether serial answers so to so many letters, leaves so many, and writes nothing.
fn leaves(alloc: Global, length: usize, status: Status, left: usize) -> Result<bool, Fail> {
    let bytes = vec![in alloc; b'x'; length]?;
    let source = source_of(alloc, bytes, 1_000_000, 0)?;
    let sink = sink_of(alloc, 100, 100, 0)?;
    let answer = told(alloc, "serial", source, sink, Vec::new(alloc))?;
    Ok(answer.status == status && answer.left == left && answer.written.is_empty())
}

#[test]
fn the_longest_input_is_taken(rt: HostRuntime) -> Result<(), Fail> {
    let no_script = Status::BadScript { line: 1, fault: 1 };
    assert!(rt; leaves(rt.alloc(), MOST_INPUT, no_script, 0)?);
    Ok(())
}

#[test]
fn of_a_longer_input_a_byte_more_is_taken(rt: HostRuntime) -> Result<(), Fail> {
    let too_long = Status::OverLimit { line: 0, limit: 1 };
    assert!(rt; leaves(rt.alloc(), MOST_INPUT + 2, too_long, 1)?);
    Ok(())
}

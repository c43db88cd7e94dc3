//! Limits of a script that its clients have, and of plans, reached and passed by one more.

use crate::rows::{numbered, text_of};
use mama_script::{ScriptFault, parse};
use std::alloc::{AllocError, Global};
use std::test::Fail;

// The line at which the limit is passed, or 0; the limit; and a text, whose third part is a line that stands as often as
// the second says.
const LIMITS: &str = "0 0 mama script 1|queues 64|#64#client|#
67 5 mama script 1|queues 1|#65#client|#
0 0 mama script 1|queues 1|topic \"T\"|client|#10000#sub 0 market 0 10 1000|#
10005 6 mama script 1|queues 1|topic \"T\"|client|#10001#sub 0 market 0 10 1000|#
0 0 mama script 1|queues 1|client|#1024#inbox any|#
1028 7 mama script 1|queues 1|client|#1025#inbox any|#
0 0 mama script 1|queues 1|topic \"A\"|publisher 0|#30769#recap|#client|sub 0 basic 0 0 0|
30776 9 mama script 1|queues 1|topic \"A\"|publisher 0|#30770#recap|#client|sub 0 basic 0 0 0|
0 0 mama script 1|queues 1|client|inbox 0|#8#at 3 close i0.0|#at 4 close i0.0|";

// A text with a part that stands several times.
fn repeated(
    alloc: Global,
    front: &str,
    count: u64,
    part: &str,
    end: &str,
) -> Result<Vec<u8>, AllocError> {
    let mut text = text_of(alloc, front)?;
    let part = text_of(alloc, part)?;
    for _ in 0..count {
        text.extend_from_slice(&part)?;
    }
    text.extend_from_slice(&text_of(alloc, end)?)?;
    Ok(text)
}

// The text that a row gives.
fn text_in(alloc: Global, row: &str) -> Result<Vec<u8>, AllocError> {
    let (front, rest) = row.split_once('#').unwrap_or(("", ""));
    let (count, rest) = rest.split_once('#').unwrap_or(("", ""));
    let (part, end) = rest.split_once('#').unwrap_or(("", ""));
    repeated(alloc, front, count.parse::<u64>().unwrap_or(0), part, end)
}

// The line and the limit of a text that passes one, or zeros.
fn told(alloc: Global, text: &[u8]) -> (u64, u64) {
    match parse(alloc, text).err() {
        Some(ScriptFault::OverLimit { line, limit }) => (line, u64::from(limit)),
        Some(_) => (1, 0),
        None => (0, 0),
    }
}

#[test]
fn limits_are_passed_by_one_more(rt: HostRuntime) -> Result<(), Fail> {
    for row in LIMITS.lines() {
        let (line, rest) = numbered(row);
        let (limit, parts) = numbered(rest);
        let text = text_in(rt.alloc(), parts)?;
        assert_eq!(rt; told(rt.alloc(), &text), (line, limit), "{row}");
    }
    let text = text_in(
        rt.alloc(),
        "mama script 1|queues 1|client|inbox 0|#9#at 3 close i0.0|#",
    )?;
    assert_eq!(rt;
        parse(rt.alloc(), &text).err(),
        Some(ScriptFault::Bad {
            line: 13,
            fault: 11
        })
    );
    Ok(())
}

use crate::rows::{numbered, text_of};
use mama_event::{GroupRow, SubId, SubKind, TimerId, WatchRow};
use mama_script::{ClientLine, QueueWord, Script, ScriptFault, parse, print};
use std::alloc::Global;
use std::test::Fail;

// A script with each kind of line, its numbers at the ends of their ranges, and smaller ones.
const ACCEPTED: &str =
    r#"mama script 1|queues 2|topic "A \"b\" \\"|topic "B"|publisher 1 1:bid:u32:7 0:n:text:"x y"|update|update 1:bid:u32:8|recap|pause 1000000|publisher 0|client|sub 0 market any 4096 1000000|fault lose 1|fault dup 2|fault hold 3 4294967295|fault cut 4 0|fault cut 5 65535|at 1 ask i1.0 1 1 2 65535|at 1 stop s0.1|sub 1 snapshot 1 0 0|timer 0 4294967295|at 4294967295 disarm t0.0|inbox any|at 2 close i1.0|now 9223372036854775807|now clock|pause 1|stop s0.0|client|inbox 1|fault hold 1 1|ask i0.0 0 5|
mama script 1|queues 1|topic "EQ.ABC"|publisher 0 22:bid:u32:100|update 22:bid:u32:101|update 25:ask:u32:103|update 22:bid:u32:102|client|sub 0 market 0 10 1000|
mama script 1|queues 64|client|
mama script 1|queues 1|client|client|pause 3|
mama script 2|strategy 2|queues 2|topic "A"|topic "B"|publisher 1|publisher 0 1:p:u32:5|publisher 1|client|sub 0 market 0 4 10|sub 1 snapshot 0 4 10|sub 1 market 1 0 0|timer 0 10|timer 1 20|client|sub 1 market 0 4 10|sub 0 market 1 1 1|at 1 stop s0.1|group s1.0 s0.0|group s0.2|watch s0.1 t0.0 0|watch s1.1 t0.1 1000|"#;

#[test]
fn scripts_are_printed_as_they_were_read(rt: HostRuntime) -> Result<(), Fail> {
    for row in ACCEPTED.lines() {
        let text = text_of(rt.alloc(), row)?;
        let script = parse(rt.alloc(), &text)?;
        assert_eq!(rt; print(rt.alloc(), &script)?, text, "{row}");
        assert!(rt; parse(rt.alloc(), &text)? == script, "{row}");
    }
    Ok(())
}

// The script of the first row.
fn first(alloc: Global) -> Result<Script, Fail> {
    let row = ACCEPTED.lines().next().unwrap_or("");
    Ok(parse(alloc, &text_of(alloc, row)?)?)
}

#[test]
fn a_script_has_its_parts(rt: HostRuntime) -> Result<(), Fail> {
    let script = first(rt.alloc())?;
    assert_eq!(rt; script.shape().clients, 2);
    assert_eq!(rt; script.shape().bounds.queues, 2);
    assert_eq!(rt;
        script.shape().publisher_topics.as_slice(),
        [1, 0].as_slice()
    );
    let topic = script.topics().first().expect(&rt, "a topic");
    assert_eq!(rt; topic.bytes(), b"A \"b\" \\".as_slice());
    let publisher = script.publishers().first().expect(&rt, "a publisher");
    assert_eq!(rt; publisher.base.len(), 2);
    assert_eq!(rt; publisher.lines.as_slice().len(), 4);
    let client = script.clients().first().expect(&rt, "a client");
    assert_eq!(rt; client.as_slice().len(), 8);
    Ok(())
}

// The script of the last row.
fn grouped(alloc: Global) -> Result<Script, Fail> {
    let row = ACCEPTED.lines().last().unwrap_or("");
    Ok(parse(alloc, &text_of(alloc, row)?)?)
}

fn sub(client: u32, number: u32) -> SubId {
    SubId { client, number }
}

// Whether these are the groups of the script, each with its members in order.
fn are_groups(groups: &[GroupRow]) -> bool {
    match groups {
        [first, second] => {
            first.members.as_slice() == [sub(1, 0), sub(0, 0)].as_slice()
                && second.members.as_slice() == [sub(0, 2)].as_slice()
        }
        _ => false,
    }
}

fn watch(sub: SubId, number: u32, retries: u32, sender: u32) -> WatchRow {
    let timer = TimerId { client: 0, number };
    WatchRow {
        sub,
        timer,
        retries,
        sender,
    }
}

// The sender is the first publisher of the topic, of which one has two.
#[test]
fn a_script_has_its_groups_and_watches(rt: HostRuntime) -> Result<(), Fail> {
    let script = grouped(rt.alloc())?;
    assert!(rt; are_groups(script.groups()));
    let watches = [watch(sub(0, 1), 0, 0, 1), watch(sub(1, 1), 1, 1000, 2)];
    assert!(rt; script.watches() == watches.as_slice());
    Ok(())
}

// Whether a line makes a subscription with the terms of the text's first.
fn is_first_sub(line: &ClientLine) -> bool {
    match line {
        ClientLine::Sub {
            topic,
            kind,
            queue,
            cache,
            recaps,
            faults,
            plan,
        } => {
            *topic == 0
                && *kind == SubKind::Market
                && *queue == QueueWord::Any
                && *cache == 4096
                && *recaps == 1_000_000
                && faults.rows().len() == 5
                && plan.rows().len() == 2
        }
        _ => false,
    }
}

#[test]
fn a_subscription_has_its_terms(rt: HostRuntime) -> Result<(), Fail> {
    let script = first(rt.alloc())?;
    let client = script.clients().first().expect(&rt, "a client");
    let line = client.as_slice().first().expect(&rt, "a line");
    assert!(rt; is_first_sub(line));
    Ok(())
}

// The line, the fault, and a text that has it.
const REFUSED: &str = r#"1 1 
1 1 mama script 1
1 1 mama script 3|queues 1|client|
2 3 mama script 2|queues 1|client|
2 3 mama script 1|strategy 1|queues 1|client|
2 3 mama script 1|
3 3 mama script 1|queues 1|
3 2 mama script 1|queues 1|client
2 2 mama script 1|queues 1 |client|
3 2 mama script 1|queues 1||client|
3 3 mama script 1|queues 1|update|client|
4 3 mama script 1|queues 1|client|log|
2 4 mama script 1|queues 1 2|client|
2 5 mama script 1|queues 0|client|
2 5 mama script 1|queues 01|client|
2 5 mama script 1|queues 18446744073709551616|client|
3 6 mama script 1|queues 1|topic ""|client|
3 6 mama script 1|queues 1|topic "\n"|client|
4 8 mama script 1|queues 1|topic "A"|publisher 1 1:a:u8:1 1:b:u8:2|client|
4 7 mama script 1|queues 1|topic "A"|publisher 1 1:a:u8:256|client|
4 9 mama script 1|queues 1|topic "A"|publisher 1|client|
4 4 mama script 1|queues 1|client|sub 0 other x 1 1|
4 5 mama script 1|queues 1|client|now 9223372036854775808|
4 5 mama script 1|queues 1|client|now foo|
4 9 mama script 1|queues 1|client|inbox 1|
4 12 mama script 1|queues 1|client|timer 0 0|
4 9 mama script 1|queues 1|client|timer 1 0|
5 3 mama script 1|queues 1|client|timer 0 1|fault lose 1|
6 11 mama script 1|queues 1|client|inbox 0|fault lose 1|fault dup 1|
6 11 mama script 1|queues 1|client|inbox 0|fault cut 1 0|fault lose 1|
5 3 mama script 1|queues 1|client|timer 0 1|fault cut 1 0|
5 4 mama script 1|queues 1|client|inbox 0|fault cut 1|
5 4 mama script 1|queues 1|client|inbox 0|fault lose 1 1|
5 5 mama script 1|queues 1|client|inbox 0|fault cut 0 1|
5 5 mama script 1|queues 1|client|inbox 0|fault cut 1 01|
5 5 mama script 1|queues 1|client|inbox 0|fault cut 1 65536|
5 4 mama script 1|queues 1|client|inbox 0|at 0 halt|
5 5 mama script 1|queues 1|client|inbox 0|at 0 stop s0.0|
5 5 mama script 1|queues 1|client|stop s0.0|pause 0|
4 10 mama script 1|queues 1|client|stop s0.0|
6 10 mama script 1|queues 1|client|inbox 0|close i0.0|close i1.0|
4 8 mama script 1|queues 1|client|ask i0.0 0 2 1|
9 9 mama script 1|queues 1|topic "EQ.ABC"|publisher 0 22:bid:u32:100|update 22:bid:u32:101|update 25:ask:u32:103|update 22:bid:u32:102|client|sub 7 market 0 10 1000|
10 10 mama script 1|queues 1|topic "EQ.ABC"|publisher 0 22:bid:u32:100|update 22:bid:u32:101|update 25:ask:u32:103|update 22:bid:u32:102|client|sub 0 market 0 10 1000|stop s0.5|
6 9 mama script 1|queues 1|topic "A"|client|inbox 0|ask i0.0 1 1|
6 9 mama script 1|queues 1|topic "A"|client|inbox 0|at 2 ask i0.0 1 1|
4 3 mama script 1|queues 1|client|group s0.0|
4 3 mama script 1|queues 1|client|watch s0.0 t0.0 1|
14 4 mama script 2|strategy 1|queues 2|topic "A"|publisher 0|client|sub 0 market 0 1 1|sub 0 market 0 1 1|sub 0 market 1 1 1|sub 0 snapshot 0 1 1|sub 0 basic 0 1 1|timer 0 1|timer 1 1|group|
14 5 mama script 2|strategy 1|queues 2|topic "A"|publisher 0|client|sub 0 market 0 1 1|sub 0 market 0 1 1|sub 0 market 1 1 1|sub 0 snapshot 0 1 1|sub 0 basic 0 1 1|timer 0 1|timer 1 1|group s0.0 x|
14 5 mama script 2|strategy 1|queues 2|topic "A"|publisher 0|client|sub 0 market 0 1 1|sub 0 market 0 1 1|sub 0 market 1 1 1|sub 0 snapshot 0 1 1|sub 0 basic 0 1 1|timer 0 1|timer 1 1|group s0.0 t0.0|
15 3 mama script 2|strategy 1|queues 2|topic "A"|publisher 0|client|sub 0 market 0 1 1|sub 0 market 0 1 1|sub 0 market 1 1 1|sub 0 snapshot 0 1 1|sub 0 basic 0 1 1|timer 0 1|timer 1 1|group s0.0|client|
15 3 mama script 2|strategy 1|queues 2|topic "A"|publisher 0|client|sub 0 market 0 1 1|sub 0 market 0 1 1|sub 0 market 1 1 1|sub 0 snapshot 0 1 1|sub 0 basic 0 1 1|timer 0 1|timer 1 1|watch s0.0 t0.0 1|group s0.0|
14 4 mama script 2|strategy 1|queues 2|topic "A"|publisher 0|client|sub 0 market 0 1 1|sub 0 market 0 1 1|sub 0 market 1 1 1|sub 0 snapshot 0 1 1|sub 0 basic 0 1 1|timer 0 1|timer 1 1|watch s0.0 t0.0|
14 5 mama script 2|strategy 1|queues 2|topic "A"|publisher 0|client|sub 0 market 0 1 1|sub 0 market 0 1 1|sub 0 market 1 1 1|sub 0 snapshot 0 1 1|sub 0 basic 0 1 1|timer 0 1|timer 1 1|watch s0.0 t0.0 1001|
14 5 mama script 2|strategy 1|queues 2|topic "A"|publisher 0|client|sub 0 market 0 1 1|sub 0 market 0 1 1|sub 0 market 1 1 1|sub 0 snapshot 0 1 1|sub 0 basic 0 1 1|timer 0 1|timer 1 1|watch t0.0 s0.0 1|
14 13 mama script 2|strategy 1|queues 2|topic "A"|publisher 0|client|sub 0 market 0 1 1|sub 0 market 0 1 1|sub 0 market 1 1 1|sub 0 snapshot 0 1 1|sub 0 basic 0 1 1|timer 0 1|timer 1 1|group s0.0 s0.0|
14 13 mama script 2|strategy 1|queues 2|topic "A"|publisher 0|client|sub 0 market 0 1 1|sub 0 market 0 1 1|sub 0 market 1 1 1|sub 0 snapshot 0 1 1|sub 0 basic 0 1 1|timer 0 1|timer 1 1|group s0.0 s0.3|
14 13 mama script 2|strategy 1|queues 2|topic "A"|publisher 0|client|sub 0 market 0 1 1|sub 0 market 0 1 1|sub 0 market 1 1 1|sub 0 snapshot 0 1 1|sub 0 basic 0 1 1|timer 0 1|timer 1 1|group s0.0 s0.2|
14 10 mama script 2|strategy 1|queues 2|topic "A"|publisher 0|client|sub 0 market 0 1 1|sub 0 market 0 1 1|sub 0 market 1 1 1|sub 0 snapshot 0 1 1|sub 0 basic 0 1 1|timer 0 1|timer 1 1|group s0.9|
15 13 mama script 2|strategy 1|queues 2|topic "A"|publisher 0|client|sub 0 market 0 1 1|sub 0 market 0 1 1|sub 0 market 1 1 1|sub 0 snapshot 0 1 1|sub 0 basic 0 1 1|timer 0 1|timer 1 1|group s0.0|group s0.1 s0.0|
14 14 mama script 2|strategy 1|queues 2|topic "A"|publisher 0|client|sub 0 market 0 1 1|sub 0 market 0 1 1|sub 0 market 1 1 1|sub 0 snapshot 0 1 1|sub 0 basic 0 1 1|timer 0 1|timer 1 1|watch s0.4 t0.0 1|
14 14 mama script 2|strategy 1|queues 2|topic "A"|publisher 0|client|sub 0 market 0 1 1|sub 0 market 0 1 1|sub 0 market 1 1 1|sub 0 snapshot 0 1 1|sub 0 basic 0 1 1|timer 0 1|timer 1 1|watch s0.0 t0.1 1|
14 10 mama script 2|strategy 1|queues 2|topic "A"|publisher 0|client|sub 0 market 0 1 1|sub 0 market 0 1 1|sub 0 market 1 1 1|sub 0 snapshot 0 1 1|sub 0 basic 0 1 1|timer 0 1|timer 1 1|watch s0.9 t0.0 1|
15 14 mama script 2|strategy 1|queues 2|topic "A"|publisher 0|client|sub 0 market 0 1 1|sub 0 market 0 1 1|sub 0 market 1 1 1|sub 0 snapshot 0 1 1|sub 0 basic 0 1 1|timer 0 1|timer 1 1|watch s0.0 t0.0 1|watch s0.1 t0.0 1|
15 14 mama script 2|strategy 1|queues 2|topic "A"|publisher 0|client|sub 0 market 0 1 1|sub 0 market 0 1 1|sub 0 market 1 1 1|sub 0 snapshot 0 1 1|sub 0 basic 0 1 1|timer 0 1|timer 1 1|watch s0.3 t0.0 1|watch s0.3 t0.0 1|
14 10 mama script 2|strategy 1|queues 2|topic "A"|publisher 0|client|sub 0 market 0 1 1|sub 0 market 0 1 1|sub 0 market 1 1 1|sub 0 snapshot 0 1 1|sub 0 basic 0 1 1|timer 0 1|timer 1 1|group s0.9|watch s0.9 t0.0 1|
14 13 mama script 2|strategy 1|queues 2|topic "A"|publisher 0|client|sub 0 market 0 1 1|sub 0 market 0 1 1|sub 0 market 1 1 1|sub 0 snapshot 0 1 1|sub 0 basic 0 1 1|timer 0 1|timer 1 1|group s0.0 s0.4|
14 10 mama script 2|strategy 1|queues 2|topic "A"|publisher 0|client|sub 0 market 0 1 1|sub 0 market 0 1 1|sub 0 market 1 1 1|sub 0 snapshot 0 1 1|sub 0 basic 0 1 1|timer 0 1|timer 1 1|group s0.0 s0.3 s0.9|
14 13 mama script 2|strategy 1|queues 2|topic "A"|publisher 0|client|sub 0 market 0 1 1|sub 0 market 0 1 1|sub 0 market 1 1 1|sub 0 snapshot 0 1 1|sub 0 basic 0 1 1|timer 0 1|timer 1 1|group s0.3|group s0.9|
8 13 mama script 2|strategy 1|queues 1|topic "A"|client|sub 0 market 0 1 1|at 2 stop s0.0|group s0.0|
10 13 mama script 2|strategy 1|queues 1|topic "A"|client|sub 0 market 0 1 1|client|timer 0 1|at 2 stop s0.0|group s0.0|
14 5 mama script 2|strategy 1|queues 2|topic "A"|publisher 0|client|sub 0 market 0 1 1|sub 0 market 0 1 1|sub 0 market 1 1 1|sub 0 snapshot 0 1 1|sub 0 basic 0 1 1|timer 0 1|timer 1 1|watch s0.0 t0.0 01|
15 14 mama script 2|strategy 1|queues 2|topic "A"|publisher 0|client|sub 0 market 0 1 1|sub 0 market 0 1 1|sub 0 market 1 1 1|sub 0 snapshot 0 1 1|sub 0 basic 0 1 1|timer 0 1|timer 1 1|watch s0.0 t0.0 1|watch s0.0 t0.0 1|
7 10 mama script 2|strategy 1|queues 1|topic "A"|client|sub 0 market 0 1 1|stop s0.5|group s0.5|"#;

// The line and the fault of a text that is refused, or zeros.
fn told(alloc: Global, text: &[u8]) -> (u64, u64) {
    match parse(alloc, text).err() {
        Some(ScriptFault::Bad { line, fault }) => (line, u64::from(fault)),
        _ => (0, 0),
    }
}

#[test]
fn the_first_fault_is_told(rt: HostRuntime) -> Result<(), Fail> {
    for row in REFUSED.lines() {
        let (line, rest) = numbered(row);
        let (fault, lines) = numbered(rest);
        let text = text_of(rt.alloc(), lines)?;
        assert_eq!(rt; told(rt.alloc(), &text), (line, fault), "{row}");
    }
    Ok(())
}

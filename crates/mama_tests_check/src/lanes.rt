use crate::lists::{
    bridge_journal, bridge_puts, names_of, needs_text, publisher_journal, publisher_puts,
    queue_journal, queue_puts, script_of, timers_journal, timers_puts,
};
use mama_check_order::{
    Need, are_same_calls, is_same_head, is_same_message, needs_of_bridge, needs_of_queue,
    needs_of_sender, needs_of_timers,
};
use mama_event::{CallNote, Callback, GivenOrders, ImageHead, ObjectId, SubId, TimerId};
use mama_log_line::{Names, call_in, image_in};
use mama_memory::OutOfMemory;
use mama_msg::Msg;
use mama_words::Nums;
use std::alloc::Global;
use std::test::Fail;

const SCRIPT: &str =
    "mama script 1|queues 1|topic \"A\"|publisher 0 1:a:u8:1|client|sub 0 market 0 10 1000|sub 0 market 0 10 1000|timer 0 10|";

fn names(alloc: Global) -> Result<Names, Fail> {
    let script = script_of(alloc, SCRIPT)?;
    Ok(names_of(alloc, &script)?)
}

type Needs = Option<Vec<Option<Need>>>;

// What was found, in words, or none.
fn found(alloc: Global, needs: Result<Needs, OutOfMemory>) -> Result<String, Fail> {
    match needs? {
        Some(needs) => needs_text(alloc, &needs),
        None => Ok(String::from_str(alloc, "none")?),
    }
}

// What a row wants, and what stands behind the sign.
fn wanted(row: &str) -> (&str, &str) {
    row.split_once('=').unwrap_or((row, ""))
}

// Actor 3 put two events to the bridge by port 0, and actor 5 two by port 1.
const BY_CLIENT: &str = "0 c0 leave s0.0|2 c0 done|";

const BY_PUBLISHER: &str = "1 p0 done|4 p0 settled|";

// What a journal needs, or that it is not whole. In order: two whole ones; the last event is missing, and the first; two
// of one port are swapped; one comes twice, and one by a port that put nothing; and one is of another subscription.
const OF_BRIDGE: &str = " 3.0 5.1 3.2 5.4=c0 leave s0.0|p0 done|c0 done|p0 settled|
 5.1 3.0 5.4 3.2=p0 done|c0 leave s0.0|p0 settled|c0 done|
none=c0 leave s0.0|p0 done|c0 done|
none=p0 done|c0 done|p0 settled|
none=c0 done|p0 done|c0 leave s0.0|p0 settled|
none=c0 leave s0.0|p0 done|c0 done|p0 settled|p0 settled|
none=c0 leave s0.0|p0 done|c0 done|p0 settled|q0 bye|
none=c0 leave s0.1|p0 done|c0 done|p0 settled|";

fn of_bridge(alloc: Global, names: &Names, row: &str) -> Result<String, Fail> {
    let client = bridge_puts(alloc, names, BY_CLIENT)?;
    let publisher = bridge_puts(alloc, names, BY_PUBLISHER)?;
    let journal = bridge_journal(alloc, names, row)?;
    let lists = [client.as_slice(), publisher.as_slice()];
    found(alloc, needs_of_bridge(alloc, &[3, 5], &lists, &journal))
}

fn is_of_bridge(alloc: Global, names: &Names, row: &str) -> Result<bool, Fail> {
    let (want, journal) = wanted(row);
    Ok(of_bridge(alloc, names, journal)?.as_str() == want)
}

#[test]
fn what_the_bridge_took_was_put(rt: HostRuntime) -> Result<(), Fail> {
    let names = names(rt.alloc())?;
    for row in OF_BRIDGE.lines() {
        assert!(rt; is_of_bridge(rt.alloc(), &names, row)?, "{row}");
    }
    Ok(())
}

// Actor 1 told the time.
const OF_TIMERS: &str = " 1.0=c0 now 7|
none=c0 now 8|
none=
none=c0 now 7|c0 now 7|
none=q0 bye|c0 now 7|";

fn of_timers(alloc: Global, names: &Names, row: &str) -> Result<String, Fail> {
    let client = timers_puts(alloc, names, "0 c0 now 7|")?;
    let journal = timers_journal(alloc, names, row)?;
    found(
        alloc,
        needs_of_timers(alloc, &[1], &[client.as_slice()], &journal),
    )
}

fn is_of_timers(alloc: Global, names: &Names, row: &str) -> Result<bool, Fail> {
    let (want, journal) = wanted(row);
    Ok(of_timers(alloc, names, journal)?.as_str() == want)
}

#[test]
fn what_the_timer_service_took_was_put(rt: HostRuntime) -> Result<(), Fail> {
    let names = names(rt.alloc())?;
    for row in OF_TIMERS.lines() {
        assert!(rt; is_of_timers(rt.alloc(), &names, row)?, "{row}");
    }
    Ok(())
}

// Actor 8 put one event to a queue by port 0, and actor 9 two by port 1. Slots count.
const OF_QUEUE: &str = " 9.2 8.5 9.6=t tick 4 t0.0 7|b fin|t fin|
 8.5 9.2 9.6=b fin|t tick 4 t0.0 7|t fin|
none=t tick 3 t0.0 7|b fin|t fin|
none=t tick 4 t0.0 7|b fin|";

fn of_queue(alloc: Global, names: &Names, row: &str) -> Result<String, Fail> {
    let bridge = queue_puts(alloc, names, "5 b fin|")?;
    let timers = queue_puts(alloc, names, "2 t tick 4 t0.0 7|6 t fin|")?;
    let lists = [bridge.as_slice(), timers.as_slice()];
    let journal = queue_journal(alloc, names, row)?;
    found(alloc, needs_of_queue(alloc, &[8, 9], &lists, &journal))
}

fn is_of_queue(alloc: Global, names: &Names, row: &str) -> Result<bool, Fail> {
    let (want, journal) = wanted(row);
    Ok(of_queue(alloc, names, journal)?.as_str() == want)
}

#[test]
fn what_a_queue_took_was_put(rt: HostRuntime) -> Result<(), Fail> {
    let names = names(rt.alloc())?;
    for row in OF_QUEUE.lines() {
        assert!(rt; is_of_queue(rt.alloc(), &names, row)?, "{row}");
    }
    Ok(())
}

// Actor 7 put three events to a publisher.
const OF_SENDER: &str = " - 7.1 - - 7.6 7.6=send|want s0.0 initial|send|done|settle|fin|
none=send|want s0.0 initial|send|done|settle|
none=send|done|settle|fin|
none=want s0.0 recap|settle|fin|
none=want s0.0 initial|settle|fin|fin|";

fn of_sender(alloc: Global, names: &Names, row: &str) -> Result<String, Fail> {
    let list = publisher_puts(alloc, names, "1 want s0.0 initial|6 settle|6 fin|")?;
    let journal = publisher_journal(alloc, names, row)?;
    found(alloc, needs_of_sender(alloc, 7, &list, &journal))
}

fn is_of_sender(alloc: Global, names: &Names, row: &str) -> Result<bool, Fail> {
    let (want, journal) = wanted(row);
    Ok(of_sender(alloc, names, journal)?.as_str() == want)
}

#[test]
fn what_a_publisher_took_was_put(rt: HostRuntime) -> Result<(), Fail> {
    let names = names(rt.alloc())?;
    for row in OF_SENDER.lines() {
        assert!(rt; is_of_sender(rt.alloc(), &names, row)?, "{row}");
    }
    Ok(())
}

const TIMER: ObjectId = ObjectId::Timer(TimerId {
    client: 0,
    number: 0,
});

fn heard(alloc: Global, line: &str) -> Result<Option<Callback>, OutOfMemory> {
    call_in(
        alloc,
        Nums::Unknown,
        TIMER,
        &mut Vec::new(alloc),
        line.as_bytes(),
    )
}

fn call_of(alloc: Global, line: &str) -> Result<CallNote, Fail> {
    Ok(CallNote {
        call: heard(alloc, line)?.ok_or("no callback")?,
        orders: GivenOrders::none(),
    })
}

// The callbacks of a timer, without orders.
fn calls_of(alloc: Global, row: &str) -> Result<Vec<CallNote>, Fail> {
    let mut calls = Vec::new(alloc);
    for line in row.split_terminator('|') {
        calls.push(call_of(alloc, line)?)?;
    }
    Ok(calls)
}

const CALLS: &str = "yes=create|tick 3|=create|tick 3|
no=create|tick 3|=create|tick 4|
no=create|tick 3|=create|
no=create|=create|tick 3|
yes==";

fn are_compared(alloc: Global, row: &str) -> Result<bool, Fail> {
    let (want, rest) = wanted(row);
    let (first, second) = wanted(rest);
    let first = calls_of(alloc, first)?;
    let second = calls_of(alloc, second)?;
    Ok(are_same_calls(&first, &second) == (want == "yes"))
}

#[test]
fn callbacks_are_compared(rt: HostRuntime) -> Result<(), Fail> {
    for row in CALLS.lines() {
        assert!(rt; are_compared(rt.alloc(), row)?, "{row}");
    }
    Ok(())
}

// Whether the heads are the same, whether the fields are, and two images.
const IMAGES: &str = "yes yes=s0.0 ok 1 9 22:bid:u32:100=s0.1 ok 1 9 22:bid:u32:100
no yes=s0.0 ok 1 9 22:bid:u32:100=s0.0 stale 1 9 22:bid:u32:100
no yes=s0.0 ok 1 9 22:bid:u32:100=s0.0 ok 2 9 22:bid:u32:100
no yes=s0.0 ok 1 9 22:bid:u32:100=s0.0 ok 1 8 22:bid:u32:100
yes no=s0.0 ok 1 9 22:bid:u32:100=s0.0 ok 1 9 22:bid:u32:101
yes no=s0.0 ok 1 9 22:bid:u32:100=s0.0 ok 1 9 22:bid:u32:100 25:ask:u32:1
yes no=s0.0 ok 1 9 1:a:u8:1 2:b:u8:2=s0.0 ok 1 9 2:b:u8:2 1:a:u8:1";

fn yes(holds: bool) -> &'static str {
    if holds { "yes" } else { "no" }
}

type Image = (SubId, ImageHead, Msg);

fn read_image(alloc: Global, names: &Names, line: &str) -> Result<Option<Image>, OutOfMemory> {
    image_in(alloc, names, &mut Vec::new(alloc), line.as_bytes())
}

fn image_of(alloc: Global, names: &Names, line: &str) -> Result<Image, Fail> {
    Ok(read_image(alloc, names, line)?.ok_or("an image")?)
}

// Whether two images compare so, in words.
fn compares(alloc: Global, names: &Names, row: &str) -> Result<bool, Fail> {
    let (want, rest) = wanted(row);
    let (first, second) = wanted(rest);
    let (_, head, body) = image_of(alloc, names, first)?;
    let (_, other, fields) = image_of(alloc, names, second)?;
    let (heads, bodies) = want.split_once(' ').unwrap_or((want, ""));
    Ok(yes(is_same_head(&head, &other)) == heads && yes(is_same_message(&body, &fields)) == bodies)
}

#[test]
fn images_are_compared(rt: HostRuntime) -> Result<(), Fail> {
    let names = names(rt.alloc())?;
    for row in IMAGES.lines() {
        assert!(rt; compares(rt.alloc(), &names, row)?, "{row}");
    }
    Ok(())
}

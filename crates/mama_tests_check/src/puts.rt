use crate::lists::{
    bridge_journal, bridge_puts, names_of, publisher_journal, publisher_puts, queue_puts,
    script_of, timers_journal, timers_puts,
};
use mama_check_puts::{
    BridgePuts, ClientPuts, puts_of_bridge, puts_of_client, puts_of_publisher, puts_of_timers,
};
use mama_event::{BridgeNote, PublisherEntry, QueueNote, Shape, TimersNote};
use mama_log_line::Names;
use mama_memory::OutOfMemory;
use mama_script::{ClientLine, PublisherPart, Script};
use std::alloc::Global;
use std::test::Fail;

// A client with a timer and a subscription on the next queues in turn, a long pause, three moments, and an order; a
// publisher of two lines, with pauses before and after.
const SCRIPT: &str =
    "mama script 1|queues 2|topic \"A\"|publisher 0 22:x:u32:100|pause 2|update 25:x:u32:3|recap|pause 1|client|timer any 10|sub 0 market any 0 0|pause 1000000|now 7|now clock|now clock|stop s0.0|timer 1 10|inbox 0|";

type ToQueue = Vec<(usize, QueueNote)>;

// Whether the lists of what was put to each queue are these rows, each behind a sign.
fn are_lists(alloc: Global, names: &Names, lists: &[ToQueue], rows: &str) -> Result<bool, Fail> {
    let mut left = lists.iter();
    for row in rows.split('=') {
        let Some(list) = left.next() else {
            return Ok(false);
        };
        if *list != queue_puts(alloc, names, row)? {
            return Ok(false);
        }
    }
    Ok(left.next().is_none())
}

// Two timers on two queues tick at one moment.
const TIMERS: &str = "c0 arm t0.1|c0 arm t0.0|c0 now 12|q1 disarm t0.1|c0 done|b fin|q0 bye|";

const TO_QUEUES: &str =
    "1 t create 0 t0.0|2 t tick 0 t0.0 12|5 t gone 0 t0.0|5 t fin|=0 t create 0 t0.1|2 t tick 0 t0.1 12|3 t gone 0 t0.1|5 t fin|";

fn by_timers(
    alloc: Global,
    shape: &Shape,
    journal: &[(u32, TimersNote)],
) -> Result<Vec<ToQueue>, OutOfMemory> {
    puts_of_timers(alloc, shape, journal)
}

fn timers_put(alloc: Global, script: &Script) -> Result<bool, Fail> {
    let names = names_of(alloc, script)?;
    let journal = timers_journal(alloc, &names, TIMERS)?;
    let lists = by_timers(alloc, script.shape(), &journal)?;
    are_lists(alloc, &names, &lists, TO_QUEUES)
}

#[test]
fn timers_put_to_each_queue(rt: HostRuntime) -> Result<(), Fail> {
    let script = script_of(rt.alloc(), SCRIPT)?;
    assert!(rt; timers_put(rt.alloc(), &script)?);
    Ok(())
}

// A subscription joins, gets an image and a message, and leaves; then comes the ending.
const BRIDGE: &str =
    "c0 join s0.0|p0 image s0.0 initial 1 0|p0 publish update 1 1|q1 leave s0.0|p0 done|c0 done|p0 settled|";

const OF_BRIDGE: &str =
    "6 b fin|=0 b create 0 s0.0|1 b data 0 s0.0 initial 1 0|2 b data 0 s0.0 update 1 1|3 b gone 0 s0.0|6 b fin|";

fn by_bridge(
    alloc: Global,
    shape: &Shape,
    journal: &[(u32, BridgeNote)],
) -> Result<BridgePuts, OutOfMemory> {
    puts_of_bridge(alloc, shape, journal)
}

// Whether the one publisher gets this.
fn is_told(alloc: Global, names: &Names, puts: &BridgePuts) -> Result<bool, Fail> {
    let publisher = publisher_puts(alloc, names, "0 want s0.0 initial|5 settle|6 fin|")?;
    match puts.to_publishers.first() {
        Some(list) => Ok(*list == publisher && puts.to_publishers.len() == 1),
        None => Ok(false),
    }
}

// Whether the timer service gets this.
fn has_ended(alloc: Global, names: &Names, puts: &BridgePuts) -> Result<bool, Fail> {
    Ok(puts.to_timers == timers_puts(alloc, names, "6 b fin|")?)
}

fn bridge_put(alloc: Global, script: &Script) -> Result<bool, Fail> {
    let names = names_of(alloc, script)?;
    let journal = bridge_journal(alloc, &names, BRIDGE)?;
    let puts = by_bridge(alloc, script.shape(), &journal)?;
    Ok(
        is_told(alloc, &names, &puts)?
            && has_ended(alloc, &names, &puts)?
            && are_lists(alloc, &names, &puts.to_queues, OF_BRIDGE)?,
    )
}

#[test]
fn the_bridge_puts_on_three_kinds_of_lanes(rt: HostRuntime) -> Result<(), Fail> {
    let script = script_of(rt.alloc(), SCRIPT)?;
    assert!(rt; bridge_put(rt.alloc(), &script)?);
    Ok(())
}

// A third line is not there to be sent, and after the end a wish is answered as before.
const PUBLISHER: &str =
    "want s0.0 initial|send|ask i0.0 25 30|send|send|done|settle|fin|want s0.0 initial|";

const PUBLISHED: &str =
    "0 p0 image s0.0 initial 1 0 22:x:u32:100|1 p0 publish update 1 1 25:x:u32:3|2 p0 reply i0.0 25:x:u32:3|3 p0 publish recap 1 1 22:x:u32:100 25:x:u32:3|5 p0 done|6 p0 settled|8 p0 image s0.0 initial 1 1 22:x:u32:100 25:x:u32:3|";

type Puts = Vec<(usize, BridgeNote)>;

fn by_publisher(
    alloc: Global,
    part: &PublisherPart,
    journal: &[PublisherEntry],
) -> Result<Puts, OutOfMemory> {
    puts_of_publisher(alloc, 0, &part.base, part.lines.as_slice(), journal)
}

fn published(alloc: Global, script: &Script) -> Result<bool, Fail> {
    let names = names_of(alloc, script)?;
    let journal = publisher_journal(alloc, &names, PUBLISHER)?;
    let part = script.publishers().first().ok_or("a publisher")?;
    let puts = by_publisher(alloc, part, &journal)?;
    Ok(puts == bridge_puts(alloc, &names, PUBLISHED)?)
}

#[test]
fn a_publisher_puts_by_any_journal(rt: HostRuntime) -> Result<(), Fail> {
    let script = script_of(rt.alloc(), SCRIPT)?;
    assert!(rt; published(rt.alloc(), &script)?);
    Ok(())
}

fn by_client(alloc: Global, lines: &[ClientLine]) -> Result<ClientPuts, OutOfMemory> {
    puts_of_client(alloc, 0, 2, &[11], lines)
}

const TO_BRIDGE: &str = "1 c0 join s0.0|6 c0 leave s0.0|8 c0 open i0.0|9 c0 done|";

const TO_TIMERS: &str = "0 c0 arm t0.0|3 c0 now 7|4 c0 now 11|5 c0 now 0|7 c0 arm t0.1|9 c0 done|";

fn client_put(alloc: Global, script: &Script) -> Result<bool, Fail> {
    let names = names_of(alloc, script)?;
    let lines = script.clients().first().ok_or("a client")?.as_slice();
    let puts = by_client(alloc, lines)?;
    Ok(
        puts.to_bridge == bridge_puts(alloc, &names, TO_BRIDGE)?
            && puts.to_timers == timers_puts(alloc, &names, TO_TIMERS)?,
    )
}

#[test]
fn a_long_pause_is_one_line(rt: HostRuntime) -> Result<(), Fail> {
    let script = script_of(rt.alloc(), SCRIPT)?;
    assert!(rt; client_put(rt.alloc(), &script)?);
    Ok(())
}

ghost use Rattle.std.specs.Prelude.{◌≡◌, ◌∷◌, [], IfOk};

use crate::lists::{bridge_puts, names_of, queue_journal, script_of, text_of, timers_puts};
use mama_check_queue::{ServedQueue, serve_all};
use mama_event::{
    BridgeNote, CallNote, ImageHead, ObjectId, PublisherEntry, QueueNote, SubId, TimersNote,
};
use mama_log_line::Names;
use mama_memory::{Duplicate, OutOfMemory};
use mama_msg::Msg;
use mama_plans::{Plans, plans_of};
use mama_record::{RunRecord, print_log};
use mama_script::Script;
use std::alloc::Global;
use std::test::Fail;

// A row has the lines that make the objects, the queue's journal, the callbacks and images, and what it put to the bridge
// and to the timers.
//
// A subscription and a timer that end each other in their callbacks. Then a journal that no run has: a message comes
// before the subscription does, which comes twice and goes twice, and one port ends twice. It is told the first message
// as its strategy tells it, and the gap, until it ends itself as it asks for a recap; an order ends nothing that is not
// there. Then bytes that spell no message, before and behind an image, and for an inbox, until the subscription is muted.
const QUEUES: &str =
    "sub 0 market 0 4 1000|at 2 disarm t0.0|timer 0 10|at 3 stop s0.0|@b create 0 s0.0|t create 0 t0.0|t tick 0 t0.0 5|b data 0 s0.0 initial 1 7|t tick 0 t0.0 9|t gone 0 t0.0|b data 0 s0.0 initial 1 7|b gone 0 s0.0|b fin|t fin|@on s0.0|create|msg initial 1 7 ok|order disarm t0.0|destroy|on t0.0|create|tick 5|destroy|order stop s0.0|images|s0.0 ok 1 7|end|@5 q0 leave s0.0|9 q0 bye|@3 q0 disarm t0.0|9 q0 bye|
sub 0 market 0 4 1000|at 1 disarm t0.0|at 6 stop s0.0|at 5 disarm t0.0|timer 0 10|at 2 stop s0.0|@b data 0 s0.0 initial 1 7|t create 0 t0.0|t tick 0 t0.0 5|b create 0 s0.0|b create 0 s0.0|b data 0 s0.0 update 1 9|b data 0 s0.0 initial 1 20|t tick 0 t0.0 6|b gone 0 s0.0|b gone 0 s0.0|b fin|b fin|t fin|@on s0.0|msg initial 1 7 ok|order disarm t0.0|create|create|gap 8 8|quality stale 7|order disarm t0.0|request 1|order stop s0.0|destroy|destroy|on t0.0|create|tick 5|order stop s0.0|images|s0.0 stale 1 9|end|@2 q0 leave s0.0|5 q0 recap s0.0 1|5 q0 leave s0.0|11 q0 bye|@0 q0 disarm t0.0|5 q0 disarm t0.0|11 q0 bye|
sub 0 market 0 4 1000|at 4 stop s0.0|inbox 0|@b create 0 s0.0|b create 1 i0.0|b bad 0 s0.0 initial 1 6 x|b data 0 s0.0 initial 1 7|b bad 0 s0.0 update 1 8 x0200|b badreply 1 i0.0 x0141|b bad 0 s0.0 update 1 9 x01|b gone 0 s0.0|b gone 1 i0.0|b fin|t fin|@on s0.0|create|error 1|msg initial 1 7 ok|error 7|order stop s0.0|destroy|on i0.0|create|error 5|destroy|images|s0.0 ok 1 7|end|@4 q0 leave s0.0|10 q0 bye|@10 q0 bye|";

fn script_with(alloc: Global, lines: &str) -> Result<Script, Fail> {
    let head = "mama script 1|queues 1|topic \"A\"|client|";
    let row = format!(in alloc; "{head}{lines}")?;
    script_of(alloc, row.as_str())
}

type Calls = Vec<(ObjectId, Vec<CallNote>)>;

type Images = Vec<(SubId, ImageHead, Msg)>;

fn calls_of(
    alloc: Global,
    queue: &ServedQueue,
    object: ObjectId,
) -> Result<Vec<CallNote>, OutOfMemory> {
    let mut copies = Vec::new(alloc);
    for note in queue.calls(&object) {
        copies.push(note.try_clone()?)?;
    }
    Ok(copies)
}

// Adds what an object left to what those before it did.
fn add_left(
    alloc: Global,
    queue: &ServedQueue,
    object: ObjectId,
    calls: &mut Calls,
    images: &mut Images,
) -> Result<(), Fail> {
    calls.push((object, calls_of(alloc, queue, object)?))?;
    if let ObjectId::Sub(sub) = object {
        if let Some(image) = queue.image(sub) {
            images.push((sub, image.head, image.body.try_clone()?))?;
        }
    }
    Ok(())
}

fn recorded(
    alloc: Global,
    clients: Vec<Vec<u64>>,
    publishers: Vec<Vec<PublisherEntry>>,
    bridge: Vec<(u32, BridgeNote)>,
    timers: Vec<(u32, TimersNote)>,
    queues: Vec<Vec<(u32, QueueNote)>>,
    calls: Calls,
    images: Images,
) -> RunRecord {
    let groups = Vec::new(alloc);
    let watches = Vec::new(alloc);
    RunRecord::new(
        clients, publishers, bridge, timers, queues, calls, images, groups, watches,
    )
}

// The record of no journals.
fn record_of(alloc: Global, calls: Calls, images: Images) -> RunRecord {
    let clients = Vec::new(alloc);
    let publishers = Vec::new(alloc);
    let bridge = Vec::new(alloc);
    let timers = Vec::new(alloc);
    let queues = Vec::new(alloc);
    recorded(
        alloc, clients, publishers, bridge, timers, queues, calls, images,
    )
}

// The callbacks and the images that a queue left, of the objects of these plans.
fn left(alloc: Global, plans: &Plans, queue: &ServedQueue) -> Result<RunRecord, Fail> {
    let mut calls = Vec::new(alloc);
    let mut images = Vec::new(alloc);
    for planned in plans.objects() {
        add_left(alloc, queue, planned.object, &mut calls, &mut images)?;
    }
    Ok(record_of(alloc, calls, images))
}

fn printed(alloc: Global, script: &Script, run: &RunRecord) -> Result<Vec<u8>, OutOfMemory> {
    print_log(alloc, script.shape(), run, script.version())
}

// Whether the log of a record with no journals has this row behind its heads.
fn is_logged(alloc: Global, script: &Script, run: &RunRecord, row: &str) -> Result<bool, Fail> {
    let log = format!(in alloc; "mama log 1|bridge|timers|{row}")?;
    Ok(printed(alloc, script, run)? == text_of(alloc, log.as_str())?)
}

// Whether a queue put this, behind a sign each: to the bridge, and to the timers.
fn has_put(alloc: Global, names: &Names, queue: &ServedQueue, rows: &str) -> Result<bool, Fail> {
    let (bridge, timers) = parted(rows)?;
    let bridge = bridge_puts(alloc, names, bridge)?;
    let timers = timers_puts(alloc, names, timers)?;
    Ok(queue.to_bridge() == bridge.as_slice() && queue.to_timers() == timers.as_slice())
}

// The part of a row before a sign, and the part behind it.
fn parted(row: &str) -> Result<(&str, &str), Fail> {
    Ok(row.split_once('@').ok_or("a part")?)
}

fn planned(alloc: Global, script: &Script) -> Result<Plans, OutOfMemory> {
    plans_of(alloc, script)
}

fn one_list<T: Drop>(alloc: Global, list: Vec<T>) -> Result<Vec<Vec<T>>, OutOfMemory>
    ensures { IfOk result (λ lists. lists.items ≡ list ∷ []) }
{
    let mut lists = Vec::new(alloc);
    lists.push(list)?;
    Ok(lists)
}

fn is_served_so(
    alloc: Global,
    script: &Script,
    names: &Names,
    journal: Vec<(u32, QueueNote)>,
    row: &str,
) -> Result<bool, Fail> {
    let plans = planned(alloc, script)?;
    let groups = one_list(alloc, Vec::new(alloc))?;
    let watches = one_list(alloc, Vec::new(alloc))?;
    let journals = one_list(alloc, journal)?;
    let served = serve_all(alloc, &plans, &groups, &watches, &journals)?;
    let queue = served.first().ok_or("a queue")?;
    let (calls, puts) = parted(row)?;
    let run = left(alloc, &plans, queue)?;
    Ok(is_logged(alloc, script, &run, calls)? && has_put(alloc, names, queue, puts)?)
}

fn is_served(alloc: Global, row: &str) -> Result<bool, Fail> {
    let (lines, rest) = parted(row)?;
    let (journal, rest) = parted(rest)?;
    let script = script_with(alloc, lines)?;
    let names = names_of(alloc, &script)?;
    let journal = queue_journal(alloc, &names, journal)?;
    is_served_so(alloc, &script, &names, journal, rest)
}

#[test]
fn queues_are_served_by_any_journal(rt: HostRuntime) -> Result<(), Fail> {
    for row in QUEUES.lines() {
        assert!(rt; is_served(rt.alloc(), row)?, "{row}");
    }
    Ok(())
}

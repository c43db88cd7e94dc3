use crate::rows::{numbered, text_of};
use mama_event::{
    BridgeNote, InboxId, Make, ObjectId, PublisherNote, QueueNote, SubId, SubKind, TimerId,
    TimersNote, WatchNote,
};
use mama_log_line::{
    Names, bridge_entry_in, call_in, clock_in, group_note_in, image_in, order_line_in,
    publisher_entry_in, queue_entry_in, timers_entry_in, watch_note_in,
};
use mama_memory::OutOfMemory;
use mama_script::parse;
use mama_words::Nums;
use std::alloc::Global;
use std::test::Fail;

/// A script with objects of each kind.
pub const SCRIPT: &str =
    r#"mama script 1|queues 2|topic "A"|publisher 0 1:p:u32:5|update 1:p:u32:6|client|sub 0 market any 10 1000|timer any 50|client|inbox any|sub 0 basic 1 7 0|"#;

fn names_of(alloc: Global) -> Result<Names, Fail> {
    let script = parse(alloc, &text_of(alloc, SCRIPT)?)?;
    Ok(Names::new(alloc, &script)?)
}

fn fits(found: bool) -> u64 {
    if found { 1 } else { 0 }
}

// Each row has 1 in front where the line fits, and 0 where it does not.
const PUBLISHERS: &str = "1 send
1 done
1 want s0.0 initial
1 want s1.0 recap
1 ask i1.0 1 65535
1 settle
1 fin
0 send 
0 send 1
0 sends
0 
0 want s0.0 update
0 want s0.1 initial
0 want s2.0 initial
0 want s00.0 initial
0 want s4294967296.0 initial
0 want t0.0 initial
0 want s0.0 initial recap
0 ask i1.0
0 ask i1.0 1 1
0 ask i1.0 1 2 3 4 5 6 7 8 9
0 ask i0.0 1
0 settled";

#[test]
fn entries_of_publishers(rt: HostRuntime) -> Result<(), Fail> {
    // The proof asks that the function names each type that an entry can have in it.
    let _note: Option<PublisherNote> = None;
    let names = names_of(rt.alloc())?;
    let mut words = Vec::new(rt.alloc());
    for row in PUBLISHERS.lines() {
        let (wanted, line) = numbered(row);
        let found = publisher_entry_in(&names, &mut words, line.as_bytes())?.is_some();
        assert_eq!(rt; fits(found), wanted, "{row}");
    }
    Ok(())
}

const BRIDGE: &str = r#"1 c0 join s1.0
1 c1 leave s0.0
1 c1 open i1.0
1 c0 close i1.0
1 c0 ask i1.0 0 1
1 c1 done
1 p0 publish update 1 1 1:p:u32:6
1 p0 image s0.0 initial 1 0
1 p0 reply i1.0 1:p:u32:6 2:q:text:"a b"
1 p0 reply i1.0
1 p0 done
1 p0 settled
1 q1 leave s1.0
1 q1 close i1.0
1 q0 ask i1.0 0 7 8
1 q0 recap s1.0 4294967295
1 q1 bye
0 c2 done
0 c00 done
0 p1 done
0 q2 bye
0 b bye
0 c0 settled
0 c0 bye
0 c0 recap s0.0 1
0 p0 leave s0.0
0 q0 join s0.0
0 q0 open i1.0
0 q0 done
0 c0 join s0.1
0 c0 ask i1.0 1 1
0 q0 ask i1.0 4294967296 1
0 q0 recap s1.0 4294967296
0 p0 publish update 1 1 1:p:u32:6 1:r:u32:6
0 p0 publish update 1
0 p0  done"#;

// Whether each row says rightly whether its line is an entry of the bridge.
fn bridge_entries_fit(alloc: Global, names: &Names, rows: &str) -> Result<bool, OutOfMemory> {
    let mut words = Vec::new(alloc);
    for row in rows.lines() {
        let (wanted, line) = numbered(row);
        let found = bridge_entry_in(alloc, names, &mut words, line.as_bytes())?.is_some();
        if fits(found) != wanted {
            return Ok(false);
        }
    }
    Ok(true)
}

#[test]
fn entries_of_the_bridge(rt: HostRuntime) -> Result<(), Fail> {
    let names = names_of(rt.alloc())?;
    assert!(rt; bridge_entries_fit(rt.alloc(), &names, BRIDGE)?);
    Ok(())
}

// Whether an entry is the join of the script's first subscription by the port of client 0.
fn is_first_join(entry: &Option<(u32, BridgeNote)>) -> bool {
    let id = SubId {
        client: 0,
        number: 0,
    };
    match entry {
        Some((port, BridgeNote::Join { sub, terms, tag })) => {
            *port == 0
                && *sub == id
                && *tag == ObjectId::Sub(id)
                && terms.kind == SubKind::Market
                && terms.queue == 0
                && terms.cache == 10
                && terms.recaps == 1000
        }
        _ => false,
    }
}

#[test]
fn a_join_has_the_terms_of_the_script(rt: HostRuntime) -> Result<(), Fail> {
    let names = names_of(rt.alloc())?;
    let mut words = Vec::new(rt.alloc());
    let entry = bridge_entry_in(rt.alloc(), &names, &mut words, b"c0 join s0.0")?;
    assert!(rt; is_first_join(&entry));
    Ok(())
}

#[test]
fn a_bye_comes_by_the_port_of_its_queue(rt: HostRuntime) -> Result<(), Fail> {
    let names = names_of(rt.alloc())?;
    let mut words = Vec::new(rt.alloc());
    let entry = bridge_entry_in(rt.alloc(), &names, &mut words, b"q1 bye")?;
    assert!(rt; entry == Some((4, BridgeNote::Bye)));
    Ok(())
}

const TIMERS: &str = "1 c1 arm t0.0
1 c1 disarm t0.0
1 c0 now 18446744073709551615
1 c0 done
1 q1 disarm t0.0
1 q0 bye
1 b fin
0 c0 arm t1.0
0 c0 now 18446744073709551616
0 q0 arm t0.0
0 q0 now 1
0 b0 fin
0 b bye
0 t fin";

// Whether each row says rightly whether its line is an entry of the timer service.
fn timers_entries_fit(alloc: Global, names: &Names, rows: &str) -> Result<bool, OutOfMemory> {
    let mut words = Vec::new(alloc);
    for row in rows.lines() {
        let (wanted, line) = numbered(row);
        let found = timers_entry_in(names, &mut words, line.as_bytes())?.is_some();
        if fits(found) != wanted {
            return Ok(false);
        }
    }
    Ok(true)
}

#[test]
fn entries_of_the_timers(rt: HostRuntime) -> Result<(), Fail> {
    let names = names_of(rt.alloc())?;
    assert!(rt; timers_entries_fit(rt.alloc(), &names, TIMERS)?);
    Ok(())
}

#[test]
fn timers_are_armed_with_the_terms_of_the_script(rt: HostRuntime) -> Result<(), Fail> {
    let timer = TimerId {
        client: 0,
        number: 0,
    };
    let arm = TimersNote::Arm {
        timer,
        queue: 1,
        interval: 50,
        tag: ObjectId::Timer(timer),
    };
    let names = names_of(rt.alloc())?;
    let mut words = Vec::new(rt.alloc());
    let armed = timers_entry_in(&names, &mut words, b"c1 arm t0.0")?;
    assert!(rt; armed == Some((1, arm)));
    let ended = timers_entry_in(&names, &mut words, b"b fin")?;
    assert!(rt; ended == Some((4, TimersNote::Fin)));
    Ok(())
}

// Of what spells no message a line tells the bytes: as many as there are, none among them, but none that spell one.
const QUEUES: &str = "1 b create 0 s0.0
1 b create 4294967295 i1.0
1 b data 0 s1.0 update 1 1
1 b reply 1 i1.0 1:p:u32:6
1 b gone 0 s0.0
1 b fin
1 t create 0 t0.0
1 t tick 0 t0.0 5
1 t gone 0 t0.0
1 t fin
1 b bad 0 s0.0 update 1 2 x0101090019
1 b bad 0 s0.0 initial 1 0 x
1 b badreply 1 i1.0 x0141
0 b bad 0 s0.0 update 1 2 x0100
0 b bad 0 s0.0 update 1 2 0100
0 b bad 0 s0.0 update 1 2 x0
0 b bad 0 s0.0 update 1 2 xAA
0 b bad 0 s0.0 update 1 2
0 b bad 0 i1.0 update 1 2 x
0 b badreply 1 i1.0 x0100
0 b badreply 1 i1.0 x01000
0 b badreply 1 s0.0 x
0 t bad 0 s0.0 update 1 2 x
0 b create 0 t0.0
0 t create 0 s0.0
0 b tick 0 t0.0 5
0 t data 0 s0.0 update 1 1
0 b create 4294967296 s0.0
0 b create 0 s0.1
0 b0 fin
0 c0 fin";

// Whether each row says rightly whether its line is an entry of a queue.
fn queue_entries_fit(alloc: Global, names: &Names, rows: &str) -> Result<bool, OutOfMemory> {
    let mut words = Vec::new(alloc);
    for row in rows.lines() {
        let (wanted, line) = numbered(row);
        let found = queue_entry_in(alloc, names, &mut words, line.as_bytes())?.is_some();
        if fits(found) != wanted {
            return Ok(false);
        }
    }
    Ok(true)
}

#[test]
fn entries_of_queues(rt: HostRuntime) -> Result<(), Fail> {
    let names = names_of(rt.alloc())?;
    assert!(rt; queue_entries_fit(rt.alloc(), &names, QUEUES)?);
    Ok(())
}

#[test]
fn a_create_has_its_slot_and_its_object(rt: HostRuntime) -> Result<(), Fail> {
    let object = ObjectId::Inbox(InboxId {
        client: 1,
        number: 0,
    });
    let create = QueueNote::Create {
        slot: 3,
        object,
        make: Make::Inbox,
        tag: object,
    };
    let names = names_of(rt.alloc())?;
    let mut words = Vec::new(rt.alloc());
    let entry = queue_entry_in(rt.alloc(), &names, &mut words, b"b create 3 i1.0")?;
    assert!(rt; entry == Some((0, create)));
    Ok(())
}

const SUB_CALLS: &str = "1 create
1 msg update 1 1 ok 1:p:u32:6
1 gap 2 3
1 quality stale 3
1 request 1
1 error 255
1 destroy
0 error 256
0 tick 0
0 msg update 1 1 good
0 create 1";

const TIMER_CALLS: &str = "1 tick 0
0 error 1
0 reply";

const INBOX_CALLS: &str = "1 reply
1 reply 1:p:u32:6
1 error 1
0 error 256
0 error
0 gap 2 3";

// Whether each row says rightly whether the object may hear the call.
fn calls_fit(alloc: Global, object: ObjectId, rows: &str) -> Result<bool, OutOfMemory> {
    let mut words = Vec::new(alloc);
    for row in rows.lines() {
        let (wanted, line) = numbered(row);
        let found = call_in(alloc, Nums::Known, object, &mut words, line.as_bytes())?.is_some();
        if fits(found) != wanted {
            return Ok(false);
        }
    }
    Ok(true)
}

#[test]
fn callbacks(rt: HostRuntime) -> Result<(), Fail> {
    let sub = ObjectId::Sub(SubId {
        client: 0,
        number: 0,
    });
    let timer = ObjectId::Timer(TimerId {
        client: 0,
        number: 0,
    });
    let inbox = ObjectId::Inbox(InboxId {
        client: 1,
        number: 0,
    });
    assert!(rt; calls_fit(rt.alloc(), sub, SUB_CALLS)?);
    assert!(rt; calls_fit(rt.alloc(), timer, TIMER_CALLS)?);
    assert!(rt; calls_fit(rt.alloc(), inbox, INBOX_CALLS)?);
    Ok(())
}

const ORDERS: &str = "1 order stop s0.0
1 order disarm t0.0
1 order close i1.0
1 order ask i1.0 0 1
0 stop s0.0
0 order stop s0.1
0 order ask i1.0 1 1
0 order";

const MOMENTS: &str = "1 clock 7
0 clock 07
0 clock 7 8
0 now 7";

const IMAGES: &str = "1 s0.0 ok 1 4 22:bid:u32:102 25:ask:u32:104
1 s1.0 stale 1 0
0 s0.1 ok 1 4
0 s0.0 ok 1
0 i1.0 ok 1 4";

// Whether each row says rightly whether its line is an order in a callback.
fn orders_fit(alloc: Global, names: &Names, rows: &str) -> Result<bool, OutOfMemory> {
    let mut words = Vec::new(alloc);
    for row in rows.lines() {
        let (wanted, line) = numbered(row);
        let found = order_line_in(names, &mut words, line.as_bytes())?.is_some();
        if fits(found) != wanted {
            return Ok(false);
        }
    }
    Ok(true)
}

// Whether each row says rightly whether its line is an image.
fn images_fit(alloc: Global, names: &Names, rows: &str) -> Result<bool, OutOfMemory> {
    let mut words = Vec::new(alloc);
    for row in rows.lines() {
        let (wanted, line) = numbered(row);
        let found = image_in(alloc, names, &mut words, line.as_bytes())?.is_some();
        if fits(found) != wanted {
            return Ok(false);
        }
    }
    Ok(true)
}

#[test]
fn orders_and_images(rt: HostRuntime) -> Result<(), Fail> {
    let names = names_of(rt.alloc())?;
    assert!(rt; orders_fit(rt.alloc(), &names, ORDERS)?);
    assert!(rt; images_fit(rt.alloc(), &names, IMAGES)?);
    Ok(())
}

#[test]
fn moments(rt: HostRuntime) -> Result<(), Fail> {
    let mut words = Vec::new(rt.alloc());
    for row in MOMENTS.lines() {
        let (wanted, line) = numbered(row);
        let found = clock_in(&mut words, line.as_bytes())?;
        assert_eq!(rt; fits(found == Some(7)), wanted, "{row}");
    }
    Ok(())
}

// A group hears what a subscription may hear, of any subscription of the script, and its states.
const GROUPS: &str = "1 s0.0 create
1 s1.0 msg update 1 1 ok 1:p:u32:6
1 s0.0 gap 2 3
1 s1.0 destroy
1 state waiting
1 state fresh
1 state stale
1 state ended
0 s0.1 create
0 t0.0 create
0 i1.0 create
0 s0.0 tick 5
0 s0.0 order stop s0.0
0 s0.0
0 create
0 state
0 state ok
0 state Fresh
0 state fresh stale
0 states fresh
0 ";

const WATCHES: &str = "1 retry 1 10
1 retry 4294967295 18446744073709551615
1 timeout 0
1 timeout 18446744073709551615
0 retry 1
0 retry 01 10
0 retry 1 10 10
0 retry 4294967296 10
0 retry 1 18446744073709551616
0 timeout
0 timeout 020
0 timeout 1 20
0 timeouts 20
0 timers
0 clock 20
0 ";

// Whether each row says rightly whether its line is what a group may hear.
fn group_notes_fit(alloc: Global, names: &Names, rows: &str) -> Result<bool, OutOfMemory> {
    let mut words = Vec::new(alloc);
    for row in rows.lines() {
        let (wanted, line) = numbered(row);
        let found = group_note_in(alloc, names, &mut words, line.as_bytes())?.is_some();
        if fits(found) != wanted {
            return Ok(false);
        }
    }
    Ok(true)
}

// Whether each row says rightly whether its line is what a watch may note.
fn watch_notes_fit(alloc: Global, rows: &str) -> Result<bool, OutOfMemory> {
    let mut words = Vec::new(alloc);
    for row in rows.lines() {
        let (wanted, line) = numbered(row);
        let found = watch_note_in(&mut words, line.as_bytes())?.is_some();
        if fits(found) != wanted {
            return Ok(false);
        }
    }
    Ok(true)
}

#[test]
fn notes_of_groups_and_watches(rt: HostRuntime) -> Result<(), Fail> {
    let names = names_of(rt.alloc())?;
    assert!(rt; group_notes_fit(rt.alloc(), &names, GROUPS)?);
    assert!(rt; watch_notes_fit(rt.alloc(), WATCHES)?);
    let mut words = Vec::new(rt.alloc());
    let retry = watch_note_in(&mut words, b"retry 3 40")?;
    assert!(rt;
        retry
            == Some(WatchNote::Retry {
                count: 3,
                moment: 40
            })
    );
    Ok(())
}

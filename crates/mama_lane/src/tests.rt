//! A lane of the timer service on one thread, and a lane that two threads put on and a third takes from.
ghost use Rattle.std.specs.Prelude.{◌≡◌, ◌++◌, true, map, ◌≤◌, vec_capacity, IfOk, OnOk, [], ◌∷◌};
ghost use Rattle.std.specs.Bool.{OnTrue};
ghost use Rattle.std.specs.List.{list_any};
ghost use Rattle.mama_event.specs.Lawful.{IsLawful};
ghost use Rattle.mama_event.specs.ToTimers.{note_of, is_last, fits};
ghost use Rattle.mama_journal.specs.Lane.{by_port};
ghost use Rattle.mama_lane.specs.Rule.{notes_of};
ghost use Rattle.mama_lane.specs.Values.{after_put, new_port, new_ports};

use super::*;
use mama_event::{Bounds, ObjectId, OutOfMemory, Stream, TimerId, TimersNote, ToTimers};
use std::alloc::Global;
use std::sync::Wait;
use std::test::Fail;
use std::thread;
use std::thread::Threads;

// Puts these events in order, and says whether there was memory for all of them.
fn put_all<E: Stream, R: Wait + Copy>(
    rt: R,
    lane: &Lane<E>,
    mut port: Port<E>,
    events: Vec<E>,
) -> (Port<E>, bool)
    requires lane { port.lane ≡ lane.now.id }
    requires lawful { E.lawful port.bounds port.number (port.put ++ map E.noted events.items) }
    ensures lane { (result.0.lane ≡ port.lane) × (result.0.number ≡ port.number) }
    ensures put { OnTrue result.1 (result.0.put ≡ port.put ++ map E.noted events.items) }
{
    for event in events {
        if port.put(rt, lane, event).is_err() {
            return (port, false);
        }
    }
    (port, true)
}

// Takes until the last events of ports 0 and 1 were taken, and says whether there was memory for all that it took.
fn take_all<E: Stream, R: Wait + Copy>(
    rt: R,
    alloc: Global,
    lane: &Lane<E>,
    mut taker: Taker<E>,
) -> (Taker<E>, Vec<(u32, E)>, bool)
    requires { (taker.lane ≡ lane.now.id) × (taker.taken ≡ []) }
    ensures lane { result.0.lane ≡ taker.lane }
    ensures taken { result.0.taken ≡ notes_of E.noted result.1.items }
    ensures ended { OnTrue result.2 ((list_any E.last (by_port 0 result.0.taken) ≡ true) × (list_any E.last (by_port 1 result.0.taken) ≡ true)) }
{
    let mut taken = Vec::new(alloc);
    for _ in rt.forever() {
        if taker.ended(0) && taker.ended(1) {
            break;
        }
        if taken.reserve(1).is_err() {
            return (taker, taken, false);
        }
        match taker.take(rt, lane) {
            Some(event) => taken.push_reserved(event),
            None => thread::yield_now(),
        }
    }
    (taker, taken, true)
}

// One thread puts events of one port, and this one takes.
fn put_and_take<E: Stream + Send, R: Threads + Wait + Copy + Sync + Send>(
    rt: R,
    alloc: Global,
    lane: &Lane<E>,
    port: Port<E>,
    events: Vec<E>,
    taker: Taker<E>,
) -> ((Port<E>, bool), (Taker<E>, Vec<(u32, E)>, bool))
    requires lane { (port.lane ≡ lane.now.id) × (taker.lane ≡ lane.now.id) }
    requires lawful { E.lawful port.bounds port.number (port.put ++ map E.noted events.items) }
    requires taken { taker.taken ≡ [] }
    ensures port { (result.0.0.lane ≡ port.lane) × (result.0.0.number ≡ port.number) }
    ensures put { OnTrue result.0.1 (result.0.0.put ≡ port.put ++ map E.noted events.items) }
    ensures taker { result.1.0.lane ≡ taker.lane }
    ensures taken { result.1.0.taken ≡ notes_of E.noted result.1.1.items }
    ensures ended { OnTrue result.1.2 ((list_any E.last (by_port 0 result.1.0.taken) ≡ true) × (list_any E.last (by_port 1 result.1.0.taken) ≡ true)) }
{
    thread::join(
        &rt,
        move || -> (Port<E>, bool)
            requires lane { port.lane ≡ lane.now.id }
            requires lawful { E.lawful port.bounds port.number (port.put ++ map E.noted events.items) }
            ensures lane { (result.0.lane ≡ port.lane) × (result.0.number ≡ port.number) }
            ensures put { OnTrue result.1 (result.0.put ≡ port.put ++ map E.noted events.items) }
        { put_all(rt, lane, port, events) },
        move || -> (Taker<E>, Vec<(u32, E)>, bool)
            requires { (taker.lane ≡ lane.now.id) × (taker.taken ≡ []) }
            ensures lane { result.0.lane ≡ taker.lane }
            ensures taken { result.0.taken ≡ notes_of E.noted result.1.items }
            ensures ended { OnTrue result.2 ((list_any E.last (by_port 0 result.0.taken) ≡ true) × (list_any E.last (by_port 1 result.0.taken) ≡ true)) }
        { take_all(rt, alloc, lane, taker) },
    )
}

// What two threads put and a third takes: all that each put, in its order.
fn deliver<E: Stream + Send, R: Threads + Wait + Copy + Sync + Send>(
    rt: R,
    alloc: Global,
    bounds: Bounds,
    first: Vec<E>,
    second: Vec<E>,
) -> Result<Vec<(u32, E)>, OutOfMemory>
    requires first { E.lawful bounds 0 (map E.noted first.items) }
    requires second { E.lawful bounds 1 (map E.noted second.items) }
    ensures first { IfOk result (λ taken. by_port 0 (notes_of E.noted taken.items) ≡ map E.noted first.items) }
    ensures second { IfOk result (λ taken. by_port 1 (notes_of E.noted taken.items) ≡ map E.noted second.items) }
{
    let room = Vec::with_capacity(alloc, 2)?;
    let (lane, ports, taker) = open_lane::<E, R>(rt, alloc, 2, bounds)?;
    let (zero, one) = both(&lane, ports);
    let shared = &lane;
    let ((zero, all_first), ((one, all_second), (taker, taken, all_taken))) = thread::join(
        &rt,
        move || -> (Port<E>, bool)
            requires lane { zero.lane ≡ shared.now.id }
            requires lawful { E.lawful zero.bounds zero.number (zero.put ++ map E.noted first.items) }
            ensures lane { (result.0.lane ≡ zero.lane) × (result.0.number ≡ zero.number) }
            ensures put { OnTrue result.1 (result.0.put ≡ zero.put ++ map E.noted first.items) }
        { put_all(rt, shared, zero, first) },
        move || -> ((Port<E>, bool), (Taker<E>, Vec<(u32, E)>, bool))
            requires lane { (one.lane ≡ shared.now.id) × (taker.lane ≡ shared.now.id) }
            requires lawful { E.lawful one.bounds one.number (one.put ++ map E.noted second.items) }
            requires taken { taker.taken ≡ [] }
            ensures port { (result.0.0.lane ≡ one.lane) × (result.0.0.number ≡ one.number) }
            ensures put { OnTrue result.0.1 (result.0.0.put ≡ one.put ++ map E.noted second.items) }
            ensures taker { result.1.0.lane ≡ taker.lane }
            ensures taken { result.1.0.taken ≡ notes_of E.noted result.1.1.items }
            ensures ended { OnTrue result.1.2 ((list_any E.last (by_port 0 result.1.0.taken) ≡ true) × (list_any E.last (by_port 1 result.1.0.taken) ≡ true)) }
        { put_and_take(rt, alloc, shared, one, second, taker) },
    );
    close_both(rt, lane, room, zero, one, taker);
    if all_first && all_second && all_taken {
        Ok(taken)
    } else {
        Err(OutOfMemory)
    }
}

// The two ports of a lane that was just opened.
fn both<E: Stream>(lane: &Lane<E>, mut ports: Vec<Port<E>>) -> (Port<E>, Port<E>)
    requires { ports.items ≡ new_ports lane.now 2 }
    ensures zero { result.0 ≡ new_port lane.now 0 }
    ensures one { result.1 ≡ new_port lane.now 1 }
{
    let one = ports.remove(1);
    let zero = ports.remove(0);
    (zero, one)
}

// Closes a lane with its two ports, for which there is room.
fn close_both<E: Stream, R: Wait + Copy>(
    rt: R,
    lane: Lane<E>,
    room: Vec<Port<E>>,
    zero: Port<E>,
    one: Port<E>,
    taker: Taker<E>,
)
    requires room { (room.items ≡ []) × (2 ≤ vec_capacity room) }
    requires lane { (zero.lane ≡ lane.id) × (one.lane ≡ lane.id) × (taker.lane ≡ lane.id) }
    ensures zero { list_any E.last (by_port zero.number taker.taken) ≡ true → by_port zero.number taker.taken ≡ zero.put }
    ensures one { list_any E.last (by_port one.number taker.taken) ≡ true → by_port one.number taker.taken ≡ one.put }
{
    let mut ports = room;
    ports.push_reserved(zero);
    ports.push_reserved(one);
    close_lane(rt, lane, ports, taker);
}

// Puts one event. Where no memory was found it comes back and all is as before, so it is put again.
fn put_one<E: Stream, R: Wait + Copy>(
    rt: R,
    lane: &Lane<E>,
    port: &mut Port<E>,
    event: E,
) -> Result<(), Fail>
    requires lane { port.old.lane ≡ lane.now.id }
    requires lawful { E.lawful port.old.bounds port.old.number (port.old.put ++ E.noted event ∷ []) }
    ensures { OnOk result (port.new ≡ after_put port.old (E.noted event)) }
{
    let Err(event) = port.put(rt, lane, event) else {
        return Ok(());
    };
    match port.put(rt, lane, event) {
        Ok(()) => Ok(()),
        Err(_) => Err(Fail::new("a put is refused twice")),
    }
}

// Takes one event, and answers its port and its note.
fn take_one<R: Wait + Copy>(
    rt: R,
    lane: &Lane<ToTimers<ObjectId>>,
    taker: &mut Taker<ToTimers<ObjectId>>,
) -> Result<(u32, TimersNote), Fail>
    requires { taker.old.lane ≡ lane.now.id }
    ensures { taker.new.lane ≡ taker.old.lane }
{
    let (port, event) = taker.take(rt, lane).ok_or("no event")?;
    Ok((port, event.note()?))
}

#[test]
fn the_lane_of_a_timer_service(rt: HostRuntime) -> Result<(), Fail> {
    let timer = TimerId {
        client: 0,
        number: 0,
    };
    let tag = ObjectId::Timer(timer);
    let bounds = Bounds {
        topics: 0,
        queues: 1,
    };
    let (lane, mut ports, mut taker) = open_lane::<ToTimers<ObjectId>, HostRuntime>(
        rt,
        rt.alloc(),
        3,
        bounds,
    )?;
    let arm = ToTimers::Arm {
        timer,
        queue: 0,
        interval: 10,
        listener: tag,
    };
    put_one(rt, &lane, &mut ports[0], arm)?;
    put_one(rt, &lane, &mut ports[1], ToTimers::Disarm { timer })?;
    put_one(rt, &lane, &mut ports[0], ToTimers::Now { moment: 5 })?;
    let note = ports[1].tell(rt, &lane)?;
    taker.learn(rt, &lane, note);
    let armed = TimersNote::Arm {
        timer,
        queue: 0,
        interval: 10,
        tag,
    };
    assert_eq!(rt; take_one(rt, &lane, &mut taker)?, (0, armed));
    assert_eq!(rt;
        take_one(rt, &lane, &mut taker)?,
        (1, TimersNote::Disarm { timer })
    );
    assert_eq!(rt;
        take_one(rt, &lane, &mut taker)?,
        (0, TimersNote::Now { moment: 5 })
    );
    assert!(rt; taker.take(rt, &lane).is_none());
    assert!(rt; !taker.ended(0));
    put_one(rt, &lane, &mut ports[0], ToTimers::ClientDone)?;
    assert_eq!(rt;
        take_one(rt, &lane, &mut taker)?,
        (0, TimersNote::ClientDone)
    );
    assert!(rt; taker.ended(0));
    assert!(rt; !taker.ended(1) && !taker.ended(2) && !taker.ended(3));
    Ok(())
}

#[test]
fn events_that_wait_come_in_order(rt: HostRuntime) -> Result<(), Fail> {
    let bounds = Bounds {
        topics: 0,
        queues: 0,
    };
    let (lane, mut ports, mut taker) = open_lane::<ToTimers<ObjectId>, HostRuntime>(
        rt,
        rt.alloc(),
        1,
        bounds,
    )?;
    put_one(rt, &lane, &mut ports[0], ToTimers::Now { moment: 1 })?;
    put_one(rt, &lane, &mut ports[0], ToTimers::Now { moment: 2 })?;
    put_one(rt, &lane, &mut ports[0], ToTimers::Now { moment: 3 })?;
    assert_eq!(rt;
        take_one(rt, &lane, &mut taker)?,
        (0, TimersNote::Now { moment: 1 })
    );
    assert_eq!(rt;
        take_one(rt, &lane, &mut taker)?,
        (0, TimersNote::Now { moment: 2 })
    );
    assert_eq!(rt;
        take_one(rt, &lane, &mut taker)?,
        (0, TimersNote::Now { moment: 3 })
    );
    assert!(rt; taker.take(rt, &lane).is_none());
    close_lane(rt, lane, ports, taker);
    Ok(())
}

// The moments below `count` in order, and then the end of a client.
fn clock(alloc: Global, count: u64) -> Result<Vec<ToTimers<ObjectId>>, OutOfMemory>
    ensures { IfOk result (λ events. (bounds : _) → IsLawful is_last (fits bounds) (map (note_of (λ object. object)) events.items)) }
{
    let mut events = Vec::new(alloc);
    for moment in 0..count {
        events.push(ToTimers::Now { moment })?;
    }
    events.push(ToTimers::ClientDone)?;
    Ok(events)
}

// Which moment an event tells. The end of a client tells the moment that would be next.
fn moment_of(event: &ToTimers<ObjectId>, next: u64) -> u64 {
    match event {
        ToTimers::Now { moment } => *moment,
        ToTimers::ClientDone => next,
        _ => u64::MAX,
    }
}

#[test]
fn two_threads_put_and_a_third_takes(rt: HostRuntime) -> Result<(), Fail> {
    let bounds = Bounds {
        topics: 0,
        queues: 0,
    };
    let first = clock(rt.alloc(), 1000)?;
    let second = clock(rt.alloc(), 1000)?;
    let taken = deliver(rt, rt.alloc(), bounds, first, second)?;
    assert_eq!(rt; taken.len(), 2002);
    for port in 0..2 {
        let mut next = 0u64;
        for (from, event) in &taken {
            if *from == port {
                assert_eq!(rt; moment_of(event, next), next, "of port {port}");
                next = next.wrapping_add(1);
            }
        }
        assert_eq!(rt; next, 1001, "of port {port}");
    }
    Ok(())
}

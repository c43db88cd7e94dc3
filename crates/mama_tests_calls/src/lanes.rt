//! A lane that asks for memory as it grows. A put that found none is made again: bench/refuse.sh refuses each request in turn.
ghost use Rattle.std.specs.Prelude.{◌≡◌, ◌++◌, ◌∷◌, [], OnOk};
ghost use Rattle.mama_lane.specs.Values.{after_put};

use mama_event::{Bounds, ObjectId, Stream, ToTimers};
use mama_lane::{Lane, Port, Taker, close_lane, open_lane};
use std::sync::Wait;
use std::test::Fail;

type Event = ToTimers<ObjectId>;

// So many events that the lane asks for memory three times after it was opened.
const EVENTS: u64 = 100;

// Puts one event. Where no memory was found it comes back and all is as before, so it is put again.
fn put_one<E: Stream, R: Wait + Copy>(
    rt: R,
    lane: &Lane<E>,
    port: &mut Port<E>,
    event: E,
) -> Result<(), Fail>
    requires lane { port.old.lane ≡ lane.now.id }
    requires lawful { E.lawful port.old.bounds port.old.number (port.old.put ++ E.noted event ∷ []) }
    ensures { OnOk result (port.new ≡ after_put port.old (E.noted event)) }
{
    let Err(event) = port.put(rt, lane, event) else {
        return Ok(());
    };
    match port.put(rt, lane, event) {
        Ok(()) => Ok(()),
        Err(_) => Err(Fail::new("a put is refused twice")),
    }
}

// Puts all events, each of which tells its number.
fn put_all<R: Wait + Copy>(rt: R, lane: &Lane<Event>, port: &mut Port<Event>) -> Result<(), Fail>
    requires lane { port.old.lane ≡ lane.now.id }
    requires put { port.old.put ≡ [] }
    ensures { OnOk result (port.new.lane ≡ port.old.lane) }
{
    for moment in 0..EVENTS {
        put_one(rt, lane, port, ToTimers::Now { moment })?;
    }
    Ok(())
}

// Whether the next event is the one of this number, of the only port.
fn is_next<R: Wait + Copy>(rt: R, lane: &Lane<Event>, taker: &mut Taker<Event>, number: u64) -> bool
    requires { taker.old.lane ≡ lane.now.id }
    ensures { taker.new.lane ≡ taker.old.lane }
{
    match taker.take(rt, lane) {
        Some((0, ToTimers::Now { moment })) => moment == number,
        _ => false,
    }
}

// Whether all events are taken in the order in which they were put, each once, and no others.
fn are_taken<R: Wait + Copy>(rt: R, lane: &Lane<Event>, taker: &mut Taker<Event>) -> bool
    requires { taker.old.lane ≡ lane.now.id }
    ensures { taker.new.lane ≡ taker.old.lane }
{
    for number in 0..EVENTS {
        if !is_next(rt, lane, taker, number) {
            return false;
        }
    }
    taker.take(rt, lane).is_none()
}

#[test]
fn a_put_is_made_again(rt: HostRuntime) -> Result<(), Fail> {
    let bounds = Bounds {
        topics: 0,
        queues: 0,
    };
    let (lane, mut ports, mut taker) = open_lane::<Event, HostRuntime>(rt, rt.alloc(), 1, bounds)?;
    put_all(rt, &lane, &mut ports[0])?;
    assert!(rt; are_taken(rt, &lane, &mut taker));
    close_lane(rt, lane, ports, taker);
    Ok(())
}

//! Watches of a queue: told by hand which ticks count, and behind the turns of a queue that is served.

use crate::notes::take;
use crate::orderer::Orderer;
use crate::serving::{arm, deliver, orderer};
use mama_dispatch::{ObjectId, Order, Serving, ToQueue, ToService};
use mama_event::{Make, MsgKind, Strategy, SubId, SubKind, TimerId, ToBridge, WatchNote, WatchRow};
use mama_memory::Outbox;
use mama_timeout::{WatchTable, tick_of};
use std::alloc::Global;
use std::test::Fail;

const SUB: SubId = SubId {
    client: 0,
    number: 0,
};

const TIMER: TimerId = TimerId {
    client: 0,
    number: 0,
};

const OTHER: TimerId = TimerId {
    client: 0,
    number: 1,
};

// A watch of two retries, numbered 3.
fn one_watch(alloc: Global, sender: u32) -> Result<WatchTable, Fail> {
    let row = WatchRow {
        sub: SUB,
        timer: TIMER,
        retries: 2,
        sender,
    };
    Ok(WatchTable::new(alloc, vec![in alloc; (3, row)]?)?)
}

// Counts a tick. The answer is what is wished for.
fn tick(table: &mut WatchTable, timer: TimerId, moment: u64) -> Result<Option<(SubId, u32)>, Fail> {
    table.prepare()?;
    Ok(table.count(timer, moment))
}

// Whether the watch alone noted something, and just this.
fn has_noted(notes: &[(u32, Vec<WatchNote>)], wanted: &[WatchNote]) -> bool {
    match notes {
        [(number, notes)] => *number == 3 && notes.as_slice() == wanted,
        _ => false,
    }
}

#[test]
fn retries_are_followed_by_one_timeout(rt: HostRuntime) -> Result<(), Fail> {
    let mut table = one_watch(rt.alloc(), 5)?;
    assert!(rt; tick(&mut table, TIMER, 10)? == Some((SUB, 5)));
    assert!(rt; tick(&mut table, OTHER, 15)?.is_none());
    assert!(rt; tick(&mut table, TIMER, 20)? == Some((SUB, 5)));
    assert!(rt; tick(&mut table, TIMER, 30)?.is_none());
    assert!(rt; tick(&mut table, TIMER, 40)?.is_none());
    let wanted = [
        WatchNote::Retry {
            count: 1,
            moment: 10,
        },
        WatchNote::Retry {
            count: 2,
            moment: 20,
        },
        WatchNote::Timeout { moment: 30 },
    ];
    assert!(rt; has_noted(&table.into_notes(), &wanted));
    Ok(())
}

#[test]
fn a_watch_without_a_sender_wishes_for_nothing(rt: HostRuntime) -> Result<(), Fail> {
    let mut table = one_watch(rt.alloc(), 0)?;
    assert!(rt; table.sub_of(TIMER) == Some(SUB));
    assert!(rt; table.sub_of(OTHER).is_none());
    assert!(rt; tick(&mut table, TIMER, 10)?.is_none());
    let wanted = [WatchNote::Retry {
        count: 1,
        moment: 10,
    }];
    assert!(rt; has_noted(&table.into_notes(), &wanted));
    Ok(())
}

/// A queue that is served, with its watches, and what its serving puts.
#[derive(Drop)]
struct Watched {
    serving: Serving<Orderer>,
    table: WatchTable,
    out: Outbox<ToService<ObjectId>>,
}

fn one_served(alloc: Global) -> Result<Watched, Fail> {
    Ok(Watched {
        serving: Serving::new(alloc, 0),
        table: one_watch(alloc, 5)?,
        out: Outbox::new(alloc),
    })
}

// Whether a watch wishes for its subscription, of its sender.
fn is_wish(wish: Option<ToBridge<ObjectId>>) -> bool {
    matches!(wish, Some(ToBridge::RecapWish { sub, sender }) if sub == SUB && sender == 5)
}

// Serves an event that may come, and tells the watches. Whether one wishes.
fn wishes(queue: &mut Watched, event: ToQueue<Orderer>) -> Result<bool, Fail> {
    queue.table.prepare()?;
    let tick = tick_of(&event);
    let turn = take(&mut queue.serving, 0, event, &mut queue.out)?;
    Ok(is_wish(queue.table.behind(tick, &turn, &queue.serving)))
}

// The subscription, with a listener that orders nothing.
fn made() -> ToQueue<Orderer> {
    ToQueue::Create {
        slot: 0,
        object: ObjectId::Sub(SUB),
        make: Make::Sub {
            kind: SubKind::Market,
            cache: 4,
            strategy: Strategy::One,
        },
        listener: orderer(ObjectId::Sub(SUB), Order::Stop(SUB), 0, 0),
    }
}

fn tick_at(moment: u64) -> ToQueue<Orderer> {
    ToQueue::Tick {
        slot: 1,
        timer: TIMER,
        moment,
    }
}

fn gone() -> ToQueue<Orderer> {
    ToQueue::Gone {
        slot: 0,
        object: ObjectId::Sub(SUB),
    }
}

fn notes_of(queue: Watched) -> Vec<(u32, Vec<WatchNote>)> {
    let Watched {
        serving: _,
        table,
        out: _,
    } = queue;
    table.into_notes()
}

const FIRST_RETRY: WatchNote = WatchNote::Retry {
    count: 1,
    moment: 10,
};

// The timer orders nothing.
#[test]
fn ticks_count_while_the_subscription_is_there_without_an_image(
    rt: HostRuntime,
) -> Result<(), Fail> {
    let mut queue = one_served(rt.alloc())?;
    assert!(rt; !wishes(&mut queue, arm(Order::Stop(SUB), 0, 0))?);
    assert!(rt; !wishes(&mut queue, tick_at(5))?);
    assert!(rt; !wishes(&mut queue, made())?);
    assert!(rt; wishes(&mut queue, tick_at(10))?);
    let image = deliver(rt.alloc(), MsgKind::Recap, 0)?;
    assert!(rt; !wishes(&mut queue, image)?);
    assert!(rt; !wishes(&mut queue, tick_at(20))?);
    assert!(rt; !wishes(&mut queue, gone())?);
    assert!(rt; !wishes(&mut queue, tick_at(30))?);
    assert!(rt; has_noted(&notes_of(queue), &[FIRST_RETRY]));
    Ok(())
}

// The timer ends the subscription in its second tick: it is there, has no image, and is muted behind that tick.
#[test]
fn no_tick_counts_once_the_subscription_is_muted(rt: HostRuntime) -> Result<(), Fail> {
    let mut queue = one_served(rt.alloc())?;
    assert!(rt; !wishes(&mut queue, made())?);
    assert!(rt; !wishes(&mut queue, arm(Order::Stop(SUB), 3, 1))?);
    assert!(rt; wishes(&mut queue, tick_at(10))?);
    assert!(rt; !wishes(&mut queue, tick_at(20))?);
    assert!(rt; !wishes(&mut queue, tick_at(30))?);
    assert!(rt; has_noted(&notes_of(queue), &[FIRST_RETRY]));
    Ok(())
}

// The timer ends itself in its first tick, which was called back; the second was not.
#[test]
fn no_tick_counts_once_its_timer_is_muted(rt: HostRuntime) -> Result<(), Fail> {
    let mut queue = one_served(rt.alloc())?;
    assert!(rt; !wishes(&mut queue, made())?);
    assert!(rt; !wishes(&mut queue, arm(Order::Disarm(TIMER), 2, 1))?);
    assert!(rt; wishes(&mut queue, tick_at(10))?);
    assert!(rt; !wishes(&mut queue, tick_at(20))?);
    assert!(rt; has_noted(&notes_of(queue), &[FIRST_RETRY]));
    Ok(())
}

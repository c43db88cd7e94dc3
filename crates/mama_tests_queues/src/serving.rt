use crate::notes::take;
use crate::orderer::Orderer;
use mama_dispatch::{
    ImageHead, Listener, ObjectId, Order, Orders, Serving, ToQueue, ToService, Turn,
};
use mama_event::{
    Make, MarketMsg, MsgKind, Piece, PieceMsg, PlanRow, Quality, Strategy, SubId, SubKind, Tagged,
    TimerId, ToBridge, ToTimers, WireMsg,
};
use mama_listener::{PlanListener, has_few_rows};
use mama_memory::Outbox;
use mama_msg::Msg;
use std::alloc::Global;
use std::process::Abort;
use std::test::Fail;

const SUB: SubId = SubId {
    client: 0,
    number: 0,
};

const OBJECT: ObjectId = ObjectId::Sub(SUB);

const TIMER: TimerId = TimerId {
    client: 0,
    number: 0,
};

/// A queue that is served, and what it puts.
#[derive(Drop)]
struct Served<L: Listener> {
    serving: Serving<L>,
    out: Outbox<ToService<ObjectId>>,
}

fn opened<L: Listener>(alloc: Global, number: u32) -> Served<L> {
    Served {
        serving: Serving::new(alloc, number),
        out: Outbox::new(alloc),
    }
}

// The subscription, with a listener that ends it in its callback of this number.
fn create(
    rt: &impl Abort,
    alloc: Global,
    kind: SubKind,
    stop_in: u32,
) -> Result<ToQueue<PlanListener>, Fail> {
    let mut plan = Vec::new(alloc);
    plan.push(PlanRow {
        call: stop_in,
        order: Order::Stop(SUB),
    })?;
    assert!(rt; has_few_rows(alloc, &plan)?);
    Ok(ToQueue::Create {
        slot: 0,
        object: OBJECT,
        make: Make::Sub {
            kind,
            cache: 4,
            strategy: Strategy::One,
        },
        listener: PlanListener::new(alloc, OBJECT, plan),
    })
}

// A message with no fields for the subscription.
pub fn deliver<L>(alloc: Global, kind: MsgKind, seq: u32) -> Result<ToQueue<L>, Fail> {
    let msg = MarketMsg {
        kind,
        sender: 1,
        seq,
        body: Msg::new(alloc),
    };
    Ok(ToQueue::Deliver {
        slot: 0,
        sub: SUB,
        msg: WireMsg::of(alloc, &msg)?.into_piece(),
    })
}

// A message for the subscription of which a cut left one byte.
fn broken<L>(alloc: Global, seq: u32) -> Result<ToQueue<L>, Fail> {
    let msg = PieceMsg {
        kind: MsgKind::Update,
        sender: 1,
        seq,
        body: Piece::of_bytes(alloc, &[1])?,
    };
    Ok(ToQueue::Deliver {
        slot: 0,
        sub: SUB,
        msg,
    })
}

// Takes an event that may come. What the turn was comes as a letter and a number.
fn took<L: Listener>(
    rt: &impl Abort,
    queue: &mut Served<L>,
    event: ToQueue<L>,
) -> Result<(char, u64), Fail> {
    assert!(rt; queue.serving.may_take(&event));
    Ok(letter(take(&mut queue.serving, 0, event, &mut queue.out)?))
}

fn letter<L: Listener>(turn: Turn<L>) -> (char, u64) {
    match turn {
        Turn::Called { count } => ('c', count),
        Turn::Muted { object: _ } => ('m', 0),
        Turn::Ended {
            object: _,
            listener,
        } => ('e', listener.count()),
        Turn::Running => ('r', 0),
        Turn::Finished => ('f', 0),
    }
}

// What a put was, by a letter.
fn put_letter(put: Option<ToService<ObjectId>>) -> char {
    match put {
        Some(ToService::Bridge(ToBridge::Leave { sub: _ })) => 'l',
        Some(ToService::Bridge(ToBridge::Bye)) => 'b',
        Some(ToService::Timers(ToTimers::Bye)) => 't',
        Some(_) => 'x',
        None => '-',
    }
}

// What was put first, which is taken out, by a letter.
fn next_put<L: Listener>(queue: &mut Served<L>) -> char {
    put_letter(queue.out.take_first())
}

// The subscription's Gone.
fn gone<L>() -> ToQueue<L> {
    ToQueue::Gone {
        slot: 0,
        object: OBJECT,
    }
}

// The callbacks that were made of the subscription.
fn calls_made<L: Listener>(queue: &Served<L>) -> Result<usize, Fail> {
    Ok(queue.serving.calls_of(&OBJECT)?.len())
}

// Serves a subscription that its listener ends in its second callback, to its Gone.
fn mute(rt: &impl Abort, alloc: Global, queue: &mut Served<PlanListener>) -> Result<(), Fail> {
    let event = create(rt, alloc, SubKind::Basic, 2)?;
    assert_eq!(rt; took(rt, queue, event)?, ('c', 1));
    let first = deliver(alloc, MsgKind::Initial, 0)?;
    assert_eq!(rt; took(rt, queue, first)?, ('c', 1));
    let second = deliver(alloc, MsgKind::Update, 1)?;
    assert_eq!(rt; took(rt, queue, second)?, ('m', 0));
    let third = broken(alloc, 2)?;
    assert_eq!(rt; took(rt, queue, third)?, ('m', 0));
    assert_eq!(rt; took(rt, queue, gone())?, ('e', 3));
    assert_eq!(rt; next_put(queue), 'l');
    assert!(rt; queue.out.is_empty());
    assert_eq!(rt; calls_made(queue)?, 3);
    Ok(())
}

// How much a queue took that serves no more.
fn taken_by<L: Listener>(queue: Served<L>) -> usize {
    let Served { serving, out: _ } = queue;
    serving.into_journal().len()
}

#[test]
fn a_muted_subscription_gets_its_notice_alone(rt: HostRuntime) -> Result<(), Fail> {
    let mut queue = opened(rt.alloc(), 3);
    let muted = mute(&rt, rt.alloc(), &mut queue);
    let taken = taken_by(queue);
    muted?;
    assert_eq!(rt; taken, 5);
    Ok(())
}

fn finish(rt: &impl Abort, queue: &mut Served<PlanListener>) -> Result<(), Fail> {
    assert_eq!(rt; queue.serving.queue(), 3);
    assert_eq!(rt; took(rt, queue, ToQueue::Fin)?, ('r', 0));
    assert!(rt; queue.out.is_empty());
    assert_eq!(rt; took(rt, queue, ToQueue::Fin)?, ('f', 0));
    assert_eq!(rt; next_put(queue), 'b');
    assert_eq!(rt; next_put(queue), 't');
    assert_eq!(rt; next_put(queue), '-');
    Ok(())
}

#[test]
fn the_second_fin_says_bye(rt: HostRuntime) -> Result<(), Fail> {
    let mut queue = opened(rt.alloc(), 3);
    finish(&rt, &mut queue)
}

// Whether the subscription has an image that begins so.
fn has_image<L: Listener>(queue: &Served<L>, wanted: ImageHead) -> bool {
    match queue.serving.row(SUB) {
        Some(image) => image.head == wanted,
        None => false,
    }
}

fn has_no_image<L: Listener>(queue: &Served<L>) -> bool {
    queue.serving.row(SUB).is_none()
}

// Whether the subscription left an image that begins so.
fn has_left<L: Listener>(queue: &Served<L>, wanted: ImageHead) -> Result<bool, Fail> {
    match queue.serving.image_of(SUB)? {
        Some((head, _body)) => Ok(head == wanted),
        None => Ok(false),
    }
}

// Serves a market subscription to its Gone.
fn show(rt: &impl Abort, alloc: Global, queue: &mut Served<PlanListener>) -> Result<(), Fail> {
    let event = create(rt, alloc, SubKind::Market, 9)?;
    let _made = took(rt, queue, event)?;
    assert!(rt; has_no_image(queue));
    let first = deliver(alloc, MsgKind::Initial, 7)?;
    let _first = took(rt, queue, first)?;
    let wanted = ImageHead {
        sender: 1,
        last: 7,
        quality: Quality::Ok,
    };
    assert!(rt; has_image(queue, wanted));
    let _gone = took(rt, queue, gone())?;
    assert!(rt; has_no_image(queue));
    assert!(rt; has_left(queue, wanted)?);
    Ok(())
}

#[test]
fn a_live_market_subscription_has_an_image(rt: HostRuntime) -> Result<(), Fail> {
    let mut queue = opened(rt.alloc(), 0);
    show(&rt, rt.alloc(), &mut queue)
}

// A timer, with a listener that gives an order so many times in its callback of this number.
pub fn arm(order: Order, call: u64, times: u32) -> ToQueue<Orderer> {
    ToQueue::Create {
        slot: 1,
        object: ObjectId::Timer(TIMER),
        make: Make::Timer,
        listener: orderer(ObjectId::Timer(TIMER), order, call, times),
    }
}

pub fn orderer(tag: ObjectId, order: Order, call: u64, times: u32) -> Orderer {
    Orderer {
        tag,
        count: 0,
        order,
        call,
        times,
        given: None,
    }
}

// The subscription, with a listener that orders nothing.
fn quiet() -> ToQueue<Orderer> {
    ToQueue::Create {
        slot: 0,
        object: OBJECT,
        make: Make::Sub {
            kind: SubKind::Basic,
            cache: 0,
            strategy: Strategy::One,
        },
        listener: orderer(OBJECT, Order::Stop(SUB), 0, 0),
    }
}

fn tick() -> ToQueue<Orderer> {
    ToQueue::Tick {
        slot: 1,
        timer: TIMER,
        moment: 5,
    }
}

fn stop_itself(rt: &impl Abort, queue: &mut Served<Orderer>) -> Result<(), Fail> {
    let armed = arm(Order::Disarm(TIMER), 1, 1);
    assert_eq!(rt; took(rt, queue, armed)?, ('c', 1));
    assert_eq!(rt; took(rt, queue, tick())?, ('m', 0));
    let gone = ToQueue::Gone {
        slot: 1,
        object: ObjectId::Timer(TIMER),
    };
    assert_eq!(rt; took(rt, queue, gone)?, ('e', 2));
    Ok(())
}

#[test]
fn one_that_stops_itself_is_muted(rt: HostRuntime) -> Result<(), Fail> {
    let mut queue = opened(rt.alloc(), 0);
    stop_itself(&rt, &mut queue)
}

// Serves the subscription beside a timer that ends it eight times in its first tick.
fn stop_other(rt: &impl Abort, alloc: Global, queue: &mut Served<Orderer>) -> Result<(), Fail> {
    let _live = took(rt, queue, quiet())?;
    let _armed = took(rt, queue, arm(Order::Stop(SUB), 2, 8))?;
    let first = deliver(alloc, MsgKind::Initial, 0)?;
    assert_eq!(rt; took(rt, queue, first)?, ('c', 1));
    assert!(rt; queue.out.is_empty());
    assert_eq!(rt; took(rt, queue, tick())?, ('c', 1));
    for _ in 0..8u32 {
        assert_eq!(rt; next_put(queue), 'l');
    }
    assert!(rt; queue.out.is_empty());
    let second = deliver(alloc, MsgKind::Update, 1)?;
    assert_eq!(rt; took(rt, queue, second)?, ('m', 0));
    Ok(())
}

#[test]
fn one_that_lives_is_stopped_by_another(rt: HostRuntime) -> Result<(), Fail> {
    let mut queue = opened(rt.alloc(), 0);
    stop_other(&rt, rt.alloc(), &mut queue)
}

// Serves the subscription, which comes behind a timer that ended it.
fn stop_before(rt: &impl Abort, alloc: Global, queue: &mut Served<Orderer>) -> Result<(), Fail> {
    let _armed = took(rt, queue, arm(Order::Stop(SUB), 1, 1))?;
    let _live = took(rt, queue, quiet())?;
    let first = deliver(alloc, MsgKind::Initial, 0)?;
    assert_eq!(rt; took(rt, queue, first)?, ('c', 1));
    Ok(())
}

#[test]
fn one_that_comes_later_is_not_stopped(rt: HostRuntime) -> Result<(), Fail> {
    let mut queue = opened(rt.alloc(), 0);
    stop_before(&rt, rt.alloc(), &mut queue)
}

// The callbacks that a listener of any type got.
fn count_of<L: Listener>(listener: &L) -> u64 {
    listener.count()
}

// A listener in a box.
fn boxed(alloc: Global, listener: Orderer) -> Result<Box<dyn Listener + Send>, Fail> {
    Ok(Box::new(alloc, listener)?)
}

#[test]
fn a_box_of_a_listener_is_a_listener(rt: HostRuntime) -> Result<(), Fail> {
    let alloc = rt.alloc();
    let mut listener = boxed(alloc, orderer(OBJECT, Order::Stop(SUB), 2, 3))?;
    assert_eq!(rt; listener.tag(), OBJECT);
    let mut first = Orders::new();
    listener.on_create(&mut first);
    assert_eq!(rt; first.len(), 0);
    let mut second = Orders::new();
    listener.on_destroy(&mut second);
    assert_eq!(rt; second.len(), 3);
    assert_eq!(rt; count_of(&listener), 2);
    Ok(())
}
